//! The tape disk that a command takes.

ghost use Rattle.std.specs.Prelude.{◌≡◌, IfOk, IfErr, IsSome, is_none};
ghost use Rattle.refusals.specs.declared.error.RunError.TheVariants.{WriteFault};
ghost use Rattle.refusals.specs.declared.refusal.Refusal.TheVariants.{Run};
ghost use Rattle.command_streams.specs.Disks.{is_in_memory};

use crate::problem::Problem;
use crate::streams::say;
use out_files::append_fault;
use replies::{Refusal, RunError};
use sentences::{Plain, Reason};
use spill_tapes::{FileDisk, MemDisk, SpillDisk, SystemFile};
use std::alloc::{AllocError, Global};
use std::io::Write;
use std::rt::Files;
use std::{fmt, fs, io};

/// The reason why the spill file was not created.
fn spill_reason(alloc: Global, cause: io::Error) -> Result<Option<Reason>, AllocError> {
    let said = format!(in alloc; "the spill file cannot be created ({cause})")?;
    Ok(Some(Reason::whole(alloc, said)))
}

/// A tape disk: in a new file if a path is given, else in memory.
pub fn open_disk<'p, R: Files + AllocGlobal>(
    rt: &R,
    path: Option<&'p str>,
) -> Result<SpillDisk<SystemFile<R::File>>, Problem<'p>>
    ensures place { IfOk result (λ disk. is_in_memory disk ≡ is_none path.entry) }
    ensures asked { IfErr result (λ problem. IsSome path.entry) }
    ensures why { IfErr result (λ problem. problem.why ≡ Run WriteFault) }
{
    let Some(path) = path else {
        return Ok(SpillDisk::Memory(MemDisk::new(rt.alloc())));
    };
    match FileDisk::create(rt, path) {
        Ok(disk) => Ok(SpillDisk::File(disk)),
        Err(fault) => {
            let why = Refusal::Run(RunError::WriteFault);
            let reason = spill_reason(rt.alloc(), fault.cause);
            Err(Problem::because(path, why, reason))
        }
    }
}

/// The reason why the spill file failed. The system's cause is found by writing one more page, and removing it again.
pub fn tape_reason<R: Files + AllocGlobal>(
    rt: &R,
    path: &str,
) -> Result<Option<Reason>, AllocError> {
    let alloc = rt.alloc();
    let shown = Plain(path);
    let said = match append_fault(rt, path) {
        Some(cause) => format!(in alloc; "the spill file {shown} cannot be written ({cause})")?,
        None => format!(in alloc; "the spill file {shown} could not be read or written")?,
    };
    Ok(Some(Reason::whole(alloc, said)))
}

/// A spill file that could not be removed.
#[derive(Clone, Copy)]
struct Left<'p> {
    path: &'p str,
    cause: io::Error,
}

impl fmt::Display for Left<'_> {
    fn fmt<W: fmt::Write>(&self, f: &mut fmt::Formatter<W>) -> fmt::Result {
        let (path, cause) = (Plain(self.path), self.cause);
        write!(f, "{path}: the spill file cannot be removed ({cause})")
    }
}

/// Removes the spill file, if there is one. If it can't be removed, a sentence says so.
pub fn remove_disk<R: Files, E: Write>(rt: &R, alloc: Global, path: Option<&str>, errors: &mut E) {
    let Some(path) = path else {
        return;
    };
    if let Err(cause) = fs::remove_file(rt, path) {
        say(alloc, errors, &Left { path, cause });
    }
}
