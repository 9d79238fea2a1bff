//! The command `script`, with a sentence for each refused command.
#![tactic(auto)]

ghost use Rattle.std.specs.Prelude.{◌≡◌, true, is_none, IsTrue};
ghost use Rattle.replies.specs.Text.{said_text};
ghost use Rattle.replies.specs.declared.ending.ExitKind.TheVariants.{Done};
ghost use Rattle.replies.specs.declared.reply.Reply.TheVariants.{Refused};
ghost use Rattle.script_io.specs.Fused.{written};
ghost use Rattle.script_machine.specs.Headline.{IsRightOutput};
ghost use Rattle.script_machine.specs.Streams.{Wrote};
ghost use Rattle.command_streams.specs.Stopping.{RepliesRefused};
ghost use Rattle.command_scripts.specs.Runs.{streams_over, RunEnds, ScriptEnds, SeededEnds};

use command_streams::{
    Problem, Streams, is_closed, open_disk, reason_of, remove_disk, reply_refused, say,
    system_seed, tape_reason,
};
use csv::ByteRecord;
use fault_sentences::{ScriptPlace, say_columns, say_disagreement, say_limit, say_taken};
use hash_agg::{Seed, TapeDisk};
use replies::{ExitKind, Outcome, Refusal, RunError, refusal_ending, run_ending};
use script_io::Fused;
use script_machine::{Observer, run_observed};
use sentences::Reason;
use std::alloc::{AllocError, Global};
use std::io::{Read, Write};
use std::random::RandomSource;
use std::rt::Files;
use std::{fmt, io};

/// The sentence on a refused command.
#[derive(Drop)]
struct Complaint {
    line: u64,
    why: Refusal,
    reason: Option<Reason>,
}

impl fmt::Display for Complaint {
    fn fmt<W: fmt::Write>(&self, f: &mut fmt::Formatter<W>) -> fmt::Result {
        let (line, name) = (self.line, self.why.name());
        match &self.reason {
            Some(reason) => {
                let (said, picture) = (reason.said.as_str(), reason.picture.as_str());
                write!(f, "line {line}: refused {name}: {said}{picture}")
            }
            None => write!(f, "line {line}: refused {name}: {}", self.why),
        }
    }
}

/// Writes a sentence for each refused command.
#[derive(Drop)]
struct Complaints<'e, R, E> {
    rt: &'e R,
    errors: &'e mut E,
    place: ScriptPlace,
    /// The spill file, if there is one.
    spill: Option<&'e str>,
}

impl<R: Files + AllocGlobal, E: Write> Complaints<'_, R, E> {
    /// Why the command here is refused, if the reason is a single line.
    fn said(
        &self,
        script: &[u8],
        head: &ByteRecord,
        why: Refusal,
    ) -> Result<Option<String>, AllocError> {
        let (place, alloc) = (&self.place, self.rt.alloc());
        let said = match why {
            Refusal::BadCommand => place.say_command(alloc, head)?,
            Refusal::NoSuchName => place.say_no_name(alloc, head)?,
            Refusal::NameTaken => say_taken(alloc, head)?,
            Refusal::Limit(_) => say_limit(alloc, head)?,
            Refusal::OriginDisagrees { origin, number } => {
                say_disagreement(alloc, origin, number, None)?
            }
            Refusal::Batch(why) => return place.say_batch(alloc, script, head, why),
            _ => return Ok(None),
        };
        Ok(Some(said))
    }

    /// Why the command at a line of the script is refused.
    fn reason(
        &mut self,
        script: &[u8],
        line: u64,
        head: &ByteRecord,
        why: Refusal,
    ) -> Result<Option<Reason>, AllocError> {
        let alloc = self.rt.alloc();
        self.place.go_to(script, line)?;
        match (why, self.spill) {
            (Refusal::BadSchema, _) => say_columns(alloc, head),
            (Refusal::Query(why), _) => self.place.say_query(alloc, head, why),
            (Refusal::TapeFault, Some(path)) => tape_reason(self.rt, path),
            _ => Ok(reason_of(alloc, self.said(script, head, why)?)),
        }
    }
}

impl<R: Files + AllocGlobal, E: Write> Observer for Complaints<'_, R, E> {
    fn refused(&mut self, script: &[u8], line: u64, head: &ByteRecord, why: Refusal) {
        let reason = self.reason(script, line, head, why).unwrap_or(None);
        say(
            self.rt.alloc(),
            self.errors,
            &Complaint { line, why, reason },
        );
    }
}

/// What stopped a script, and the system's cause.
#[derive(Clone, Copy)]
struct Stopped {
    error: RunError,
    cause: Option<io::Error>,
}

impl fmt::Display for Stopped {
    fn fmt<W: fmt::Write>(&self, f: &mut fmt::Formatter<W>) -> fmt::Result {
        let (error, name) = (self.error, Refusal::from(self.error).name());
        write!(f, "refused {name}: {error}")?;
        match &self.cause {
            Some(cause) => write!(f, " ({cause})"),
            None => Ok(()),
        }
    }
}

/// Says what stopped a script, if something did, with the system's error of its reader or writer. If the reader of the replies has closed
/// them, nothing is said.
fn say_end<E: Write>(
    alloc: Global,
    run: &Result<Outcome, RunError>,
    read: Option<io::Error>,
    written: Option<io::Error>,
    errors: &mut E,
) {
    let Err(error) = *run else {
        return;
    };
    let cause = match error {
        RunError::ReadFault => read,
        RunError::WriteFault => written,
        RunError::NoMemory | RunError::InputTooLong => None,
    };
    if error == RunError::WriteFault && is_closed(&cause) {
        return;
    }
    say(alloc, errors, &Stopped { error, cause });
}

/// Runs the script that a reader has left over a tape disk, which may be in a file, with a seed of its group tables.
fn run_over<R: Files + AllocGlobal, I: Read, W: Write, E: Write, D: TapeDisk>(
    rt: &R,
    spill: Option<&str>,
    script: &mut Fused<I>,
    writer: &mut Fused<W>,
    errors: &mut E,
    disk: &mut D,
    seed: Seed,
) -> ExitKind
    ensures { RunEnds D.TapeDisk seed I.remaining W.contents script.old script.new writer.old writer.new disk.old disk.new result }
{
    let alloc = rt.alloc();
    let mut complaints = Complaints {
        rt,
        errors: &mut *errors,
        place: ScriptPlace::new(alloc),
        spill,
    };
    let run = run_observed(alloc, script, writer, &mut complaints, disk, seed);
    drop(complaints);
    say_end(alloc, &run, script.fault(), writer.fault(), errors);
    run_ending(&run)
}

/// Ends a script whose file for what is spilled was not made. Nothing was read.
fn stop<W: Write, E: Write>(problem: Problem<'_>, streams: &mut Streams<'_, W, E>) -> ExitKind
    ensures { RepliesRefused (said_text (Refused problem.entry.why)) (written W.contents streams.old.writer.now)
        (written W.contents streams.new.writer.now) problem.entry.why result }
{
    say(streams.alloc, streams.errors, &problem);
    reply_refused(streams.writer, problem.why)
}

/// Runs the script that a reader has left over a tape disk, as `run_script` does over its own. Over one that gives back what was written
/// to it, such as one in a file that does so, what is written at status 0 is right. Without a seed nothing is replied. Sentences name the
/// path `spill` where the disk fails.
pub fn run_script_over<
    R: Files + AllocGlobal + RandomSource,
    I: Read,
    W: Write,
    E: Write,
    D: TapeDisk,
>(
    rt: &R,
    spill: Option<&str>,
    reader: &mut I,
    streams: &mut Streams<'_, W, E>,
    disk: &mut D,
) -> ExitKind
    ensures ends { SeededEnds D.TapeDisk (I.remaining reader.old) W.contents streams.old.writer.now streams.new.writer.now disk.old disk.new
        result }
    ensures right { IsTrue (D.TapeDisk.honest disk.old) → result ≡ Done →
        Wrote (streams_over W.contents (I.remaining reader.old) streams.old.writer.now streams.new.writer.now) IsRightOutput }
{
    match system_seed(rt) {
        Ok(seed) => {
            let mut script = Fused::new(&mut *reader);
            run_over(
                rt,
                spill,
                &mut script,
                &mut *streams.writer,
                &mut *streams.errors,
                disk,
                seed,
            )
        }
        Err(problem) => {
            streams.say(&problem);
            refusal_ending(problem.why)
        }
    }
}

/// Runs the script that a reader has left. It spills to memory, or to a new file if a path is given (`run_script_over`).
pub fn run_script<R: Files + AllocGlobal + RandomSource, I: Read, W: Write, E: Write>(
    rt: &R,
    spill: Option<&str>,
    reader: &mut I,
    streams: &mut Streams<'_, W, E>,
) -> ExitKind
    ensures ends { ScriptEnds R.File (is_none spill.entry) (I.remaining reader.old) W.contents streams.old.writer.now streams.new.writer.now
        result }
    ensures right { is_none spill.entry ≡ true → result ≡ Done →
        Wrote (streams_over W.contents (I.remaining reader.old) streams.old.writer.now streams.new.writer.now) IsRightOutput }
{
    let mut disk = match open_disk(rt, spill) {
        Ok(disk) => disk,
        Err(problem) => return stop(problem, streams),
    };
    let exit = run_script_over(rt, spill, reader, streams, &mut disk);
    drop(disk);
    remove_disk(rt, rt.alloc(), spill, streams.errors);
    exit
}
