//! New replicas, and replicas as summary files.

ghost use Rattle.std.specs.Prelude.{◌≡◌, ◌≢◌, ◌≤◌, IfOk, IfErr, length};
ghost use Rattle.grouping_model.specs.World.{World};
ghost use Rattle.grouping_model.specs.declared.limits.TheConstants.{MAX_INPUT_LEN};
ghost use Rattle.summary_codec.specs.Reading.{IsSaved};
ghost use Rattle.summary_codec.specs.WorldFile.{world_file};
ghost use Rattle.replica_merge.specs.Replicas.{told, Fits};
ghost use Rattle.refusals.specs.declared.refusal.Refusal.TheVariants.{NoMemory};
ghost use Rattle.command_replicas.specs.Commands.{IsNew, IsNotNew, IsTooLong};
ghost use Rattle.command_replicas.specs.Results.{LoadsFile};

use crate::summary::SummaryFile;
use group_parser::parse;
use grouping_model::limits::MAX_INPUT_LEN;
use packed_rows::Schema;
use refusals::{Refusal, RunError};
use replica_merge::Replica;
use std::alloc::Global;

/// An empty replica of a query over columns, both given as texts, as `columns` and `query` make it in a script.
///
/// # Errors
///
/// `BadSchema`, and then the errors of [`parse`].
pub fn create(alloc: Global, columns: &str, query: &str) -> Result<Replica, Refusal>
    ensures made { IfOk result (IsNew columns.now query.now) }
    ensures why { IfErr result (λ why. why ≢ NoMemory → IsNotNew columns.now query.now why) }
{
    let schema = Schema::parse(alloc, columns)?;
    let query = parse(alloc, &schema, query)?;
    Ok(Replica::new(alloc, query))
}

/// The replica of a summary file of either version: a saved replica is loaded as itself. Any bytes are read, and refused by their first
/// fault if they are not a summary file. Out of memory is `NoMemory`.
pub fn load(alloc: Global, file: &[u8]) -> Result<Replica, Refusal>
    ensures loads { LoadsFile file.now result }
{
    Ok(Replica::load(alloc, file)?)
}

/// The summary file of a replica: the one spelling of its query and of what it knows, in the second version. A file longer than
/// 67,108,864 bytes is refused as `InputTooLong`, and is not made. Out of memory is `NoMemory`.
pub fn save(replica: &Replica) -> Result<SummaryFile, Refusal>
    ensures file { IfOk result (λ file. IsSaved file replica.now.query replica.now.parts) }
    ensures short { IfOk result (λ file. length file ≤ MAX_INPUT_LEN) }
    // So replicas that tell the same batches of a world are saved as equal bytes.
    ensures world { IfOk result (λ file. (world : World) → Fits world replica.now →
        file ≡ world_file replica.now.query world (told replica.now.parts)) }
    ensures why { IfErr result (IsTooLong replica.now) }
{
    let len = replica.saved_len()?;
    if len > MAX_INPUT_LEN {
        return Err(Refusal::Run(RunError::InputTooLong));
    }
    let file = replica.save()?;
    Ok(SummaryFile::new(file))
}
