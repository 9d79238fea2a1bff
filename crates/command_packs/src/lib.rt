//! The command `pack`, which makes a batch file from a plain CSV.
#![tactic(auto)]

mod faults;
mod options;

ghost use Rattle.std.specs.Prelude.{◌≡◌, ◌≢◌, ◌≤◌, ℕ, List, false, IfOk, IfErr};
ghost use Rattle.std.specs.Io.KnownBytes.{Appends};
ghost use Rattle.batch_reader.specs.declared.error.BatchError.TheVariants.{RowCount};
ghost use Rattle.grouping_model.specs.declared.limits.TheConstants.{LAST_ORIGIN};
ghost use Rattle.plain_batches.specs.declared.layout.Layout.{Layout};
ghost use Rattle.replies.specs.Text.{said_text};
ghost use Rattle.replies.specs.declared.ending.ExitKind.TheVariants.{BadUsage, Done, Fault};
ghost use Rattle.refusals.specs.declared.refusal.Refusal.TheVariants.{Batch};
ghost use Rattle.replies.specs.declared.reply.Reply.TheVariants.{Refused};
ghost use Rattle.script_io.specs.Fused.{unread, written};
ghost use Rattle.command_words.specs.Streams.{is_stream};
ghost use Rattle.command_streams.specs.Stopping.{RepliesRefused};
ghost use Rattle.command_packs.specs.Options.{IsHeadOf, IsLayoutOf};
ghost use Rattle.command_packs.specs.Packing.{pack_refusal, AreOfSummary, IsGivenCsv, IsNotPacked, IsPacked, IsPackedAsTold};
ghost use Rattle.command_packs.specs.Packing.{IsWithoutColumns, StopsAsTold, StopsPacking};

use crate::faults::PlainText;
use crate::options::{Words, head_of, layout_of, words_of};
use batch_reader::BatchError;
use clap::ArgMatches;
use command_streams::{Inputs, Problem, Streams, reason_of, reply_refused, say};
use command_words::{ALLOW_EMPTY, input_name};
use file_sentences::summary_reason;
use out_files::CutShort;
use packed_rows::Schema;
use plain_batches::{Layout, PackError, blank_lines, pack_batch};
use replies::{ExitKind, Refusal, RunError};
use script_io::put_all;
use sentences::Plain;
use std::alloc::Global;
use std::fmt;
use std::io::{Read, Write};
use std::rt::Files;

/// The columns of a summary.
#[tactic(auto, using(crate::proofs::PackingLaws::whole))]
fn schema_of<'p, R: Files + AllocGlobal, I: Read>(
    inputs: &mut Inputs<'_, R, I>,
    path: &'p str,
) -> Result<Schema, Problem<'p>>
    ensures columns { IfOk result (AreOfSummary path.entry.now (unread I.remaining inputs.old.reader.now)) }
    ensures others { is_stream path.entry.now ≡ false → inputs.new.reader.now ≡ inputs.old.reader.now }
    ensures why { IfErr result (λ problem. IsWithoutColumns path.entry.now (unread I.remaining inputs.old.reader.now) problem.why) }
{
    let alloc = inputs.rt.alloc();
    let file = inputs.read(path)?;
    let subject = input_name(path);
    match command_replicas::load(alloc, &file) {
        Ok(replica) => match replica.query().schema().try_clone() {
            Ok(schema) => Ok(schema),
            Err(_) => Err(Problem::refused(subject, Refusal::NoMemory)),
        },
        Err(why) => Err(Problem::because(subject, why, summary_reason(alloc, &file, why))),
    }
}

/// The refusal of a plain CSV. A header that doesn't fit the columns is no schema of theirs. A blank line that may be a null leaves the
/// number of rows open.
fn refusal_of(why: PackError) -> Refusal
    ensures { result ≡ pack_refusal why }
{
    match why {
        PackError::NoMemory => Refusal::NoMemory,
        PackError::NoHeader
        | PackError::UnknownColumn { .. }
        | PackError::MissingColumn { .. }
        | PackError::RepeatedColumn { .. } => Refusal::BadSchema,
        PackError::BlankLine => Refusal::Batch(BatchError::RowCount),
        PackError::WrongWidth { row } => Refusal::Batch(BatchError::WrongWidth { row }),
        PackError::TooManyRows => Refusal::Batch(BatchError::TooManyRows),
        PackError::TooLong => Refusal::Run(RunError::InputTooLong),
        PackError::BadField { row, column } => Refusal::Batch(BatchError::BadField { row, column }),
    }
}

/// Why a CSV of no byte is refused: a program before this one in a pipe may have failed.
fn empty<'p>(alloc: Global, path: &'p str) -> Problem<'p>
    ensures { result.why ≡ Batch RowCount }
{
    let reason = match format!(in alloc;
        "it is empty: did the program that writes it fail? --{ALLOW_EMPTY} makes a batch of no row"
    ) {
        Ok(said) => Ok(reason_of(alloc, Some(said))),
        Err(error) => Err(error),
    };
    Problem::because(
        input_name(path),
        Refusal::Batch(BatchError::RowCount),
        reason,
    )
}

/// The columns of a summary, and then the bytes of a plain CSV.
fn read_both<'p, R: Files + AllocGlobal, I: Read>(
    inputs: &mut Inputs<'_, R, I>,
    words: Words<'p>,
) -> Result<(Schema, Vec<u8>), Problem<'p>>
    ensures columns { IfOk result (λ both. AreOfSummary words.entry.summary.now (unread I.remaining inputs.old.reader.now) both.0) }
    ensures csv { IfOk result (λ both. IsGivenCsv words.entry (unread I.remaining inputs.old.reader.now) both.1.items) }
    ensures why { IfErr result (λ problem. IsWithoutColumns words.entry.summary.now (unread I.remaining inputs.old.reader.now)
        problem.why) }
{
    let schema = schema_of(inputs, words.summary)?;
    let csv = inputs.read(words.csv)?;
    Ok((schema, csv))
}

/// Whether the last line of a CSV has no end.
fn is_cut(csv: &[u8]) -> bool {
    !csv.is_empty() && !matches!(csv.last(), Some(b'\n' | b'\r'))
}

/// A batch file, and what is said of the CSV of which it was made.
#[derive(Drop)]
struct Made {
    file: Vec<u8>,
    /// Whether the last line of the CSV has no end.
    is_cut: bool,
    /// How many blank lines it has.
    blank_lines: usize,
}

/// The blank lines of a file were not read as rows.
#[derive(Clone, Copy)]
struct BlankSkipped<'p> {
    path: &'p str,
    count: usize,
}

impl fmt::Display for BlankSkipped<'_> {
    fn fmt<W: fmt::Write>(&self, f: &mut fmt::Formatter<W>) -> fmt::Result {
        let (path, count) = (Plain(self.path), self.count);
        write!(f, "{path}: blank lines skipped: {count}")
    }
}

/// Says what a batch file leaves out of a CSV, and whether that may be cut off.
fn say_made<W: Write, E: Write>(made: &Made, path: &str, streams: &mut Streams<'_, W, E>)
    ensures { streams.new.writer.now ≡ streams.old.writer.now }
{
    if made.blank_lines > 0 {
        let count = made.blank_lines;
        streams.say(&BlankSkipped { path, count });
    }
    if made.is_cut {
        streams.say(&CutShort { path });
    }
}

/// The batch file that words tell, by the columns of their summary.
fn pack<'p, R: Files + AllocGlobal, I: Read>(
    inputs: &mut Inputs<'_, R, I>,
    words: Words<'p>,
    layout: Layout<'_>,
    origin: u16,
    number: u32,
) -> Result<Made, Problem<'p>>
    requires origin { origin ≤ LAST_ORIGIN }
    requires number { 1 ≤ number }
    ensures packed { IfOk result (λ made. IsPacked words.entry (unread I.remaining inputs.old.reader.now) layout.entry origin number
        made.file.items) }
    ensures why { IfErr result (λ problem. IsNotPacked words.entry (unread I.remaining inputs.old.reader.now) layout.entry origin number
        problem.why) }
{
    let alloc = inputs.rt.alloc();
    let (schema, csv) = read_both(inputs, words)?;
    if csv.is_empty() && !layout.has_header && !words.allows_empty {
        return Err(empty(alloc, words.csv));
    }
    match pack_batch(alloc, &schema, layout, origin, number, &csv) {
        Ok(file) => Ok(Made {
            file,
            is_cut: is_cut(&csv),
            blank_lines: blank_lines(layout.delimiter, &csv).count,
        }),
        Err(why) => {
            let text = PlainText {
                schema: &schema,
                layout,
                csv: &csv,
            };
            let reason = text.reason(alloc, why);
            let subject = input_name(words.csv);
            Err(Problem::because(subject, refusal_of(why), reason))
        }
    }
}

/// Ends a command that stopped.
fn stop<W: Write, E: Write>(problem: Problem<'_>, streams: &mut Streams<'_, W, E>) -> ExitKind
    ensures { RepliesRefused (said_text (Refused problem.entry.why)) (written W.contents streams.old.writer.now)
        (written W.contents streams.new.writer.now) problem.entry.why result }
{
    if !problem.is_unread() {
        say(streams.alloc, streams.errors, &problem);
    }
    reply_refused(streams.writer, problem.why)
}

/// Ends a command whose words are no command line.
fn end_unread<W: Write, E: Write>(
    problem: &Problem<'_>,
    streams: &mut Streams<'_, W, E>,
) -> ExitKind
    ensures ends { result ≡ BadUsage }
    ensures silent { streams.new.writer.now ≡ streams.old.writer.now }
{
    streams.say(problem);
    ExitKind::BadUsage
}

/// Writes the batch file that words tell to standard output.
fn write_packed<R: Files + AllocGlobal, I: Read, W: Write, E: Write>(
    mut inputs: Inputs<'_, R, I>,
    words: Words<'_>,
    streams: &mut Streams<'_, W, E>,
) -> ExitKind
    ensures done { result ≡ Done → (layout : Layout) × (origin number : ℕ) × (file : List ℕ) × IsLayoutOf words.entry layout
        × IsHeadOf words.entry origin number
        × IsPacked words.entry (unread I.remaining inputs.entry.reader.now) layout origin number file
        × Appends (written W.contents streams.old.writer.now) (written W.contents streams.new.writer.now) file }
    ensures stopped { result ≢ Done → result ≢ Fault → StopsPacking words.entry (unread I.remaining inputs.entry.reader.now) result
        (written W.contents streams.old.writer.now) (written W.contents streams.new.writer.now) }
{
    let alloc = inputs.rt.alloc();
    let (origin, number) = match head_of(alloc, words.origin, words.number) {
        Ok(head) => head,
        Err(problem) => return end_unread(&problem, streams),
    };
    let layout = match layout_of(alloc, words) {
        Ok(layout) => layout,
        Err(problem) => return end_unread(&problem, streams),
    };
    match pack(&mut inputs, words, layout, origin, number) {
        Ok(made) => {
            say_made(&made, input_name(words.csv), &mut *streams);
            match put_all(streams.writer, &made.file) {
                Ok(()) => ExitKind::Done,
                Err(_) => stop(streams.output_fault(), streams),
            }
        }
        Err(problem) => stop(problem, streams),
    }
}

/// Writes the batch file of a plain CSV to standard output. A summary tells its columns.
pub fn run_pack<R: Files + AllocGlobal, I: Read, W: Write, E: Write>(
    inputs: Inputs<'_, R, I>,
    matches: &ArgMatches<'_>,
    streams: &mut Streams<'_, W, E>,
) -> ExitKind
    ensures done { result ≡ Done → (file : List ℕ) × IsPackedAsTold matches.now (unread I.remaining inputs.entry.reader.now) file
        × Appends (written W.contents streams.old.writer.now) (written W.contents streams.new.writer.now) file }
    ensures stopped { result ≢ Done → result ≢ Fault → StopsAsTold matches.now (unread I.remaining inputs.entry.reader.now) result
        (written W.contents streams.old.writer.now) (written W.contents streams.new.writer.now) }
{
    write_packed(inputs, words_of(matches), streams)
}
