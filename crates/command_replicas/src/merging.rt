//! Merging summary files into a replica.

ghost use Rattle.hash_agg.specs.Ran.{Ran};
ghost use Rattle.refusals.specs.Refusals.{refusal_ended};
ghost use Rattle.command_replicas.specs.Commands.{FileMergeIsCounted};
ghost use Rattle.command_replicas.specs.Results.{MergesFile};

use hash_agg::{Executor, KeyHash, Means, TapeDisk};
use refusals::Refusal;
use replica_merge::Replica;
use std::alloc::Global;

/// Merges the replica of a summary file into another, as `merge` does in a script: afterwards the second knows what either knew. It
/// aggregates by `means` and over a tape disk, and adds the cost to the work of the executor. A refused file changes nothing.
///
/// # Errors
///
/// Those of [`load`](crate::load), and then those of [`Replica::merge`].
pub fn merge<H: KeyHash + Copy, D: TapeDisk>(
    alloc: Global,
    replica: &mut Replica,
    file: &[u8],
    means: &Means<H>,
    disk: &mut D,
    executor: &mut Executor,
) -> Result<(), Refusal>
    ensures merges { MergesFile (D.honest disk.old) file.now replica.old replica.new result }
    ensures ran { Ran D.TapeDisk H.hash_of replica.old.query means.now (FileMergeIsCounted file.now replica.old)
        (refusal_ended result) disk.old executor.old disk.new executor.new }
{
    let other = Replica::load_sharing(alloc, Some(replica.query()), file)?;
    replica.merge(&other, means, disk, executor)?;
    Ok(())
}
