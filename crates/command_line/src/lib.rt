//! The commands of `agg_tool`: its command line, files, streams and exit status. What the commands do to bytes, and their replies, is
//! proved below, in `script_machine`, `command_replicas` and `replies`.
#![tactic(auto)]

mod hint;

ghost use Rattle.std.specs.Prelude.{◌≡◌, true, false};
ghost use Rattle.script_io.specs.Fused.{has_failed};
ghost use Rattle.replies.specs.Status.{status_of};
ghost use Rattle.replies.specs.declared.ending.ExitKind.{ExitKind};
ghost use Rattle.replies.specs.declared.ending.ExitKind.TheVariants.{Fault};

use crate::hint::{Hint, hint_of};
use clap::error::ErrorKind;
use clap::{ArgMatches, Error};
use command_files::Session;
use command_packs::run_pack;
use command_scripts::run_script;
pub use command_streams::Terminals;
use command_streams::{Inputs, Problem, Streams, reason_of, say};
use command_words::{SPILL, STREAM, StreamFault, Subcommand, parse_words, stream_fault};
use replies::{ExitKind, Refusal, status};
use script_io::Fused;
use std::alloc::Global;
use std::io::{BufWriter, Read, Write};
use std::random::RandomSource;
use std::rt::Files;

/// How many bytes of replies are gathered before they go out.
const GATHERED_BYTES: usize = 8192;

/// Writes what the parser of words has to say behind a hint, in one write where there is memory for that.
fn write_error<E: Write>(alloc: Global, hint: &Hint<'_>, error: &Error, errors: &mut E) {
    // Nothing is left to do where it can't be written.
    match format!(in alloc; "{hint}{error}") {
        Ok(text) => {
            let _ = errors.write_all(text.as_bytes());
        }
        Err(_) => {
            let _ = write!(errors, "{error}");
        }
    }
}

/// Ends a command for whose words there is no memory.
fn refuse_for_memory<W: Write, E: Write>(streams: &mut Streams<'_, W, E>) -> ExitKind {
    let _ = writeln!(streams.writer, "refused NoMemory");
    let _ = writeln!(streams.errors, "error: out of memory");
    ExitKind::Refused
}

/// Says why the words are no command line, or shows help or the version.
fn end_without_command<W: Write, E: Write>(
    error: &Error,
    words: &[String],
    streams: &mut Streams<'_, W, E>,
) -> ExitKind {
    if error.kind() == ErrorKind::OutOfMemory {
        let _ = writeln!(streams.writer, "refused NoMemory");
        write_error(streams.alloc, &Hint::Nothing, error, streams.errors);
        return ExitKind::Refused;
    }
    if error.use_stderr() {
        let hint = hint_of(words, error.kind());
        write_error(streams.alloc, &hint, error, streams.errors);
        return ExitKind::BadUsage;
    }
    match write!(streams.writer, "{error}") {
        Ok(()) => ExitKind::Done,
        Err(_) => ExitKind::Fault,
    }
}

/// Ends a command whose words name streams that there are not.
fn refuse_streams<W: Write, E: Write>(
    fault: StreamFault,
    streams: &mut Streams<'_, W, E>,
) -> ExitKind {
    let alloc = streams.alloc;
    let reason = match format!(in alloc; "{fault}") {
        Ok(said) => Ok(reason_of(alloc, Some(said))),
        Err(error) => Err(error),
    };
    streams.say(&Problem::because(STREAM, Refusal::BadCommand, reason));
    ExitKind::BadUsage
}

/// What a command writes to.
fn streams_of<'s, R: AllocGlobal, W, E>(
    rt: &R,
    writer: &'s mut Fused<W>,
    errors: &'s mut E,
    terminals: Terminals,
) -> Streams<'s, W, E> {
    Streams {
        alloc: rt.alloc(),
        writer,
        errors,
        terminals,
    }
}

/// Runs a command on files, by its name.
fn run_subcommand<'c, R: Files + AllocGlobal + RandomSource, I: Read, W: Write, E: Write>(
    rt: &'c R,
    reader: &'c mut Fused<I>,
    writer: &'c mut Fused<W>,
    errors: &'c mut E,
    terminals: Terminals,
    name: &str,
    matches: &ArgMatches<'_>,
) -> ExitKind {
    let inputs = Inputs { rt, reader };
    let streams = streams_of(rt, writer, errors, terminals);
    match Subcommand::named(name) {
        Some(subcommand) => {
            let mut session = Session::new(inputs, streams);
            session.run(subcommand, matches)
        }
        // The parser knows no other.
        None => ExitKind::BadUsage,
    }
}

/// Packs a plain CSV.
fn run_packing<'c, R: Files + AllocGlobal, I: Read, W: Write, E: Write>(
    rt: &'c R,
    reader: &'c mut Fused<I>,
    matches: &ArgMatches<'_>,
    streams: &mut Streams<'_, W, E>,
) -> ExitKind {
    run_pack(Inputs { rt, reader }, matches, streams)
}

/// Runs a command whose words name streams that there are.
fn run_found<R: Files + AllocGlobal + RandomSource, I: Read, W: Write, E: Write>(
    rt: &R,
    name: &str,
    matches: &ArgMatches<'_>,
    reader: &mut I,
    writer: &mut Fused<W>,
    errors: &mut E,
    terminals: Terminals,
) -> ExitKind {
    if name == "script" {
        let mut streams = streams_of(rt, writer, errors, terminals);
        return run_script(rt, matches.get_str(SPILL), reader, &mut streams);
    }
    let mut input = Fused::new(&mut *reader);
    if name == "pack" {
        let mut streams = streams_of(rt, writer, errors, terminals);
        return run_packing(rt, &mut input, matches, &mut streams);
    }
    run_subcommand(rt, &mut input, writer, errors, terminals, name, matches)
}

/// Runs the command of a name.
fn run_named<R: Files + AllocGlobal + RandomSource, I: Read, W: Write, E: Write>(
    rt: &R,
    name: &str,
    matches: &ArgMatches<'_>,
    reader: &mut I,
    writer: &mut Fused<W>,
    errors: &mut E,
    terminals: Terminals,
) -> ExitKind {
    let found = stream_fault(rt.alloc(), name, matches);
    if let Ok(None) = found {
        return run_found(rt, name, matches, reader, writer, errors, terminals);
    }
    let mut streams = streams_of(rt, writer, errors, terminals);
    match found {
        Ok(Some(fault)) => refuse_streams(fault, &mut streams),
        _ => refuse_for_memory(&mut streams),
    }
}

/// Runs the command that words ask for.
fn run_words<R: Files + AllocGlobal + RandomSource, I: Read, W: Write, E: Write>(
    rt: &R,
    words: &[String],
    reader: &mut I,
    writer: &mut Fused<W>,
    errors: &mut E,
    terminals: Terminals,
) -> ExitKind {
    match parse_words(rt.alloc(), words) {
        Ok(matches) => match matches.subcommand() {
            Some((name, matches)) => {
                run_named(rt, name, matches, reader, writer, errors, terminals)
            }
            // The parser wants a command.
            None => ExitKind::BadUsage,
        },
        Err(error) => {
            let mut streams = streams_of(rt, writer, errors, terminals);
            end_without_command(&error, words, &mut streams)
        }
    }
}

/// Sends out what was gathered. A fault is told, unless one was told before, or nobody reads any more.
fn send_out<W: Write, E: Write>(
    alloc: Global,
    gathered: &mut Fused<W>,
    exit: ExitKind,
    errors: &mut E,
) -> ExitKind
    ensures sent { has_failed gathered.new ≡ false → result ≡ exit }
    ensures failed { has_failed gathered.new ≡ true → result ≡ Fault }
{
    match gathered.flush() {
        Ok(()) => exit,
        Err(cause) => {
            let problem = Problem::output(Some(cause));
            if exit != ExitKind::Fault && !problem.is_unread() {
                say(alloc, errors, &problem);
            }
            ExitKind::Fault
        }
    }
}

/// Runs the command of some words, over a writer that gathers, and sends out what was gathered.
fn run_through<R: Files + AllocGlobal + RandomSource, I: Read, W: Write + Drop, E: Write>(
    rt: &R,
    words: &[String],
    reader: &mut I,
    writer: W,
    errors: &mut E,
    terminals: Terminals,
) -> ExitKind {
    let mut gathered = Fused::new(writer);
    let exit = run_words(rt, words, reader, &mut gathered, errors, terminals);
    send_out(rt.alloc(), &mut gathered, exit, errors)
}

/// Runs the command of some words, over a writer. Where a person looks at the replies, and where there is no memory to gather them in, they
/// go out as they come.
fn run_gathered<R: Files + AllocGlobal + RandomSource, I: Read, W: Write, E: Write>(
    rt: &R,
    words: &[String],
    reader: &mut I,
    writer: &mut W,
    errors: &mut E,
    terminals: Terminals,
) -> ExitKind {
    let alloc = rt.alloc();
    let capacity = if terminals.output { 0 } else { GATHERED_BYTES };
    if let Ok(gathered) = BufWriter::with_capacity(alloc, capacity, &mut *writer) {
        return run_through(rt, words, reader, gathered, errors, terminals);
    }
    // One that gathers nothing takes no memory.
    let direct = BufWriter::with_capacity(alloc, 0, writer).unwrap();
    run_through(rt, words, reader, direct, errors, terminals)
}

/// Runs the command that words ask for, of which the first is the program's name.
///
/// Replies and tables go to the writer, gathered in pieces of some 8 KiB unless it is a terminal. Where OUT is `-`, the summary goes there,
/// and the replies go to `errors`. Sentences for people go to `errors`, each in one write if there is memory for that. `script` reads from
/// the reader, and so do `pack` without a CSV and any other command that reads a file `-`. The result is the status of the process: 0
/// where all was done; 1 where something was refused; 2 where the words are no command line, or OUT stays, as a file that is to be kept or
/// is no summary, or a terminal; 3 where a file or a stream could not be read or written.
///
/// It takes streams of any kinds, and has no type parameter: so the program is put together, and proved, in this crate alone.
pub fn command(
    rt: &HostRuntime,
    words: &[String],
    mut reader: &mut dyn Read,
    mut writer: &mut dyn Write,
    mut errors: &mut dyn Write,
    terminals: Terminals,
) -> u8
    ensures status { (exit : ExitKind) × (result ≡ status_of exit) }
{
    let exit = run_gathered(rt, words, &mut reader, &mut writer, &mut errors, terminals);
    status(exit)
}
