//! Feeding batch files to a replica.

ghost use Rattle.batch_reader.specs.File.{read_file};
ghost use Rattle.hash_agg.specs.Ran.{Ran};
ghost use Rattle.refusals.specs.Refusals.{refusal_ended};
ghost use Rattle.command_replicas.specs.Commands.{FeedIsCounted};
ghost use Rattle.command_replicas.specs.Results.{Feeds};

use batch_reader::read_batch;
use hash_agg::{Executor, KeyHash, Means, TapeDisk};
use refusals::Refusal;
use replica_merge::{Delivered, Replica};
use std::alloc::Global;

/// Feeds the batch of a batch file to a replica, as `feed` does in a script, by `means` and over a tape disk. A refused batch changes
/// nothing. The cost of aggregating the folded batches is added to the work of the executor.
///
/// # Errors
///
/// Those of [`read_batch`], and then those of [`Replica::deliver`].
pub fn feed<H: KeyHash + Copy, D: TapeDisk>(
    alloc: Global,
    replica: &mut Replica,
    file: &[u8],
    means: &Means<H>,
    disk: &mut D,
    executor: &mut Executor,
) -> Result<Delivered, Refusal>
    ensures feeds { Feeds (D.honest disk.old) (read_file file.now) replica.old replica.new result }
    ensures ran { Ran D.TapeDisk H.hash_of replica.old.query means.now (FeedIsCounted (read_file file.now) replica.old)
        (refusal_ended result) disk.old executor.old disk.new executor.new }
{
    let schema = replica.query().schema();
    let batch = read_batch(alloc, schema, file)?;
    let delivered = replica.deliver(batch, means, disk, executor)?;
    Ok(delivered)
}
