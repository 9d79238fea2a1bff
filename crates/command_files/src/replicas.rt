//! The replica that a command begins with, what a file brings to it, and its summary file.

ghost use Rattle.std.specs.Prelude.{◌≡◌, ◌≢◌, ◌≤◌, ◌⊎◌, ℕ, List, length, true, IfOk, IfErr, string_bytes};
ghost use Rattle.std.specs.Io.KnownBytes.{Consumes, IsAtEnd};
ghost use Rattle.grouping_model.specs.declared.limits.TheConstants.{MAX_INPUT_LEN};
ghost use Rattle.script_io.specs.Fused.{unread};
ghost use Rattle.summary_codec.specs.Reading.{IsSaved};
ghost use Rattle.replica_merge.specs.Results.{IsLoaded};
ghost use Rattle.refusals.specs.declared.refusal.Refusal.TheVariants.{NoMemory};
ghost use Rattle.command_replicas.specs.Commands.{IsNew, IsNotNew, IsNoSummary, IsTooLong};
ghost use Rattle.command_words.specs.Streams.{is_stream};
ghost use Rattle.command_words.specs.declared.subcommands.Subcommand.TheVariants.{New};
ghost use Rattle.command_streams.specs.Inputs.{IsUnread};
ghost use Rattle.key_hashes.specs.Hashes.{fnv_1a};
ghost use Rattle.hash_agg.specs.Ran.{Ran};
ghost use Rattle.refusals.specs.Refusals.{refusal_ended};
ghost use Rattle.command_files.specs.Causes.{HasNoReplica};
ghost use Rattle.command_files.specs.Running.{IsNewAsTold};
ghost use Rattle.command_files.specs.Taking.{Takes, TakeIsCounted};

use crate::texts::{TextOption, Told, read_text};
use clap::ArgMatches;
use command_replicas::SummaryFile;
use command_streams::{Inputs, Problem};
use command_words::{COLUMNS, COLUMNS_FILE, QUERY, QUERY_FILE, input_name};
use file_sentences::{FileKind, columns_reason, query_reason, saving_reason, summary_reason};
use hash_agg::{Executor, Fnv1a, Means, TapeDisk};
use replica_merge::Replica;
use replies::{Refusal, Reply};
use std::alloc::Global;
use std::io::Read;
use std::rt::Files;

/// The replica that a file is the summary of, and the bytes of that.
pub(crate) fn open_replica<'p, R: Files + AllocGlobal, I: Read>(
    inputs: &mut Inputs<'_, R, I>,
    path: &'p str,
) -> Result<(Replica, Vec<u8>), Problem<'p>>
    ensures loaded { IfOk result (λ opened. IsLoaded opened.1.items opened.0) }
    ensures standard { is_stream path.entry.now ≡ true → IfOk result (λ opened. Consumes (unread I.remaining inputs.old.reader.now)
        (unread I.remaining inputs.new.reader.now) opened.1.items × IsAtEnd (unread I.remaining inputs.new.reader.now)) }
    ensures why { IfErr result (λ problem. IsUnread problem.why ⊎ ((file : List ℕ) × IsNoSummary file problem.why)) }
{
    let alloc = inputs.rt.alloc();
    let file = inputs.read(path)?;
    match command_replicas::load(alloc, &file) {
        Ok(replica) => Ok((replica, file)),
        Err(why) => {
            let reason = summary_reason(alloc, &file, why);
            Err(Problem::because(input_name(path), why, reason))
        }
    }
}

/// The columns of a command line.
const COLUMNS_TEXT: TextOption = TextOption {
    id: COLUMNS,
    name: "--columns",
    file: COLUMNS_FILE,
};

/// The query of a command line.
const QUERY_TEXT: TextOption = TextOption {
    id: QUERY,
    name: "--query",
    file: QUERY_FILE,
};

/// The replica of two texts, which knows nothing.
fn replica_of<'p>(
    alloc: Global,
    columns: &Told<'p>,
    query: &Told<'p>,
) -> Result<Replica, Problem<'p>>
    ensures made { IfOk result (IsNew (string_bytes columns.now.text) (string_bytes query.now.text)) }
    ensures why { IfErr result (λ problem. problem.why ≢ NoMemory →
        IsNotNew (string_bytes columns.now.text) (string_bytes query.now.text) problem.why) }
{
    match command_replicas::create(alloc, columns.text(), query.text()) {
        Ok(replica) => Ok(replica),
        Err(Refusal::BadSchema) => {
            let reason = columns_reason(alloc, columns.text());
            Err(Problem::because(columns.subject, Refusal::BadSchema, reason))
        }
        Err(why) => {
            let reason = query_reason(alloc, columns.text(), query.text(), why);
            Err(Problem::because(query.subject, why, reason))
        }
    }
}

/// The replica of the texts that a command line tells, or files that it names, which knows nothing.
pub(crate) fn new_replica<'p, R: Files + AllocGlobal, I: Read>(
    inputs: &mut Inputs<'_, R, I>,
    matches: &ArgMatches<'p>,
) -> Result<Replica, Problem<'p>>
    ensures made { IfOk result (IsNewAsTold matches.now) }
    ensures why { IfErr result (λ problem. HasNoReplica New matches.now problem.why) }
{
    let columns = read_text(inputs, matches, COLUMNS_TEXT)?;
    let query = read_text(inputs, matches, QUERY_TEXT)?;
    replica_of(inputs.rt.alloc(), &columns, &query)
}

/// Takes the bytes of a file into a replica, and gives the reply: its batch is fed, or the replica of its summary is merged.
pub(crate) fn take<D: TapeDisk>(
    alloc: Global,
    kind: FileKind,
    replica: &mut Replica,
    file: &[u8],
    means: &Means<Fnv1a>,
    disk: &mut D,
    executor: &mut Executor,
) -> Result<Reply<'static>, Refusal>
    ensures takes { Takes kind (D.honest disk.old) file.now replica.old replica.new result }
    ensures ran { Ran D.TapeDisk (λ _ key. fnv_1a key) replica.old.query means.now (TakeIsCounted kind file.now replica.old)
        (refusal_ended result) disk.old executor.old disk.new executor.new }
{
    match kind {
        FileKind::Batch => {
            match command_replicas::feed(alloc, replica, file, means, disk, executor) {
                Ok(delivered) => Ok(Reply::Delivered(delivered)),
                Err(why) => Err(why),
            }
        }
        FileKind::Summary => {
            match command_replicas::merge(alloc, replica, file, means, disk, executor) {
                Ok(()) => Ok(Reply::Merged),
                Err(why) => Err(why),
            }
        }
    }
}

/// The summary file of a replica, which is to be written at a path.
pub(crate) fn summary_of<'p>(
    alloc: Global,
    replica: &Replica,
    path: &'p str,
) -> Result<SummaryFile, Problem<'p>>
    ensures summary { IfOk result (λ file. IsSaved file replica.now.query replica.now.parts) }
    ensures short { IfOk result (λ file. length file ≤ MAX_INPUT_LEN) }
    ensures why { IfErr result (λ problem. IsTooLong replica.now problem.why) }
{
    match command_replicas::save(replica) {
        Ok(file) => Ok(file),
        Err(why) => {
            let reason = saving_reason(alloc, replica, why);
            Err(Problem::because(path, why, reason))
        }
    }
}
