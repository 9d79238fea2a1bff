//! The files that a command reads and writes.

ghost use Rattle.std.specs.Prelude.{◌≡◌, ◌⊎◌, IfErr};
ghost use Rattle.refusals.specs.declared.refusal.Refusal.TheVariants.{NoMemory, Run};
ghost use Rattle.command_files.specs.Causes.{IsFailure};

use clap::ArgMatches;
use command_replicas::SummaryFile;
use command_streams::Problem;
use command_words::{Subcommand, is_stream};
use file_sentences::replaced_reason;
use out_files::{
    FRONT_BYTES, FrontKind, Occupant, Place, Unwritten, front_of, occupant_of, try_place,
    try_reading, write_file, write_new_file,
};
use replies::{Refusal, RunError};
use std::io;
use std::io::ErrorKind;
use std::rt::Files;

/// A fault of a file, or `NoMemory` where the system says that it has none.
fn fault_of(path: &str, error: RunError, cause: io::Error) -> Problem<'_>
    ensures { (result.why ≡ NoMemory) ⊎ (result.why ≡ Run error) }
{
    if cause.kind() == ErrorKind::OutOfMemory {
        Problem::refused(path, Refusal::NoMemory)
    } else {
        Problem::failed(path, error, cause)
    }
}

/// The path of what standard input leads to.
const STANDARD_INPUT: &str = "/dev/stdin";

/// What is there in the place of OUT, beside the files that are read. Where standard input is one of these, that is the file which it leads
/// to, if it leads to one.
pub(crate) fn occupant_of_out<'p, R: Files + AllocGlobal>(
    rt: &R,
    subcommand: Subcommand,
    matches: &ArgMatches<'p>,
    out: &'p str,
) -> Result<Occupant, Problem<'p>>
    ensures why { IfErr result (λ problem. IsFailure problem.why) }
{
    let Ok(mut paths) = subcommand.files_read(rt.alloc(), matches) else {
        return Err(Problem::refused(out, Refusal::NoMemory));
    };
    for path in &mut paths {
        if is_stream(path) {
            *path = STANDARD_INPUT;
        }
    }
    match occupant_of(rt, out, &paths) {
        Ok(found) => Ok(found),
        Err(cause) => Err(fault_of(out, RunError::ReadFault, cause)),
    }
}

/// What the first bytes of a file tell of it.
pub(crate) fn front_kind<'p, R: Files>(rt: &R, path: &'p str) -> Result<FrontKind, Problem<'p>>
    ensures why { IfErr result (λ problem. IsFailure problem.why) }
{
    let mut front = [0u8; FRONT_BYTES];
    match front_of(rt, path, &mut front) {
        Ok(count) => Ok(FrontKind::of_front(front.get(..count).unwrap_or_default())),
        Err(cause) => Err(fault_of(path, RunError::ReadFault, cause)),
    }
}

/// Tries before the work whether the files that a command reads can be read, and whether OUT can be written, and how. Streams are not
/// tried.
pub(crate) fn try_files<'p, R: Files + AllocGlobal>(
    rt: &R,
    subcommand: Subcommand,
    matches: &ArgMatches<'p>,
    out: &'p str,
) -> Result<Place, Problem<'p>>
    ensures why { IfErr result (λ problem. IsFailure problem.why) }
{
    let Ok(paths) = subcommand.files_read(rt.alloc(), matches) else {
        return Err(Problem::refused(out, Refusal::NoMemory));
    };
    for path in &paths {
        if is_stream(path) {
            continue;
        }
        if let Err(cause) = try_reading(rt, path) {
            return Err(fault_of(path, RunError::ReadFault, cause));
        }
    }
    if is_stream(out) {
        return Ok(Place::Device);
    }
    match try_place(rt, out) {
        Ok(place) => Ok(place),
        Err(cause) => Err(fault_of(out, RunError::WriteFault, cause)),
    }
}

/// That OUT was not written.
fn unwritten<'p, R: AllocGlobal>(rt: &R, path: &'p str, why: Unwritten) -> Problem<'p>
    ensures { IsFailure result.why }
{
    match why {
        Unwritten::Failed(cause) => fault_of(path, RunError::WriteFault, cause),
        Unwritten::Changed => {
            let reason = replaced_reason(rt.alloc(), path);
            Problem::because(path, Refusal::Run(RunError::WriteFault), reason)
        }
    }
}

/// Writes OUT, which nothing else does: a summary file. One that is there is replaced at once, or overwritten where the system lets no new
/// file replace it. A device or a pipe is written to. A file that was read is known by its old bytes. If it has other bytes by now, it
/// stays, and `WriteFault` is told. The same goes for a file that is there by now where OUT is to be a new one. `NoMemory` is told if there
/// is no memory for the name of the new file that takes the place, or the system has none. For any other failure `WriteFault` is told. The
/// answer is how it was written.
pub(crate) fn write_out<'p, R: Files + AllocGlobal>(
    rt: &R,
    path: &'p str,
    file: &SummaryFile,
    is_new: bool,
    old: Option<&[u8]>,
) -> Result<Place, Problem<'p>>
    ensures why { IfErr result (λ problem. IsFailure problem.why) }
{
    let written = if is_new {
        match write_new_file(rt, path, file.bytes()) {
            Ok(()) => Ok(Place::Beside),
            Err(why) => Err(why),
        }
    } else {
        write_file(rt, path, file.bytes(), old)
    };
    match written {
        Ok(place) => Ok(place),
        Err(why) => Err(unwritten(rt, path, why)),
    }
}
