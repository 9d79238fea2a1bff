//! The files that a command reads, of which `-` is standard input.

ghost use Rattle.std.specs.Prelude.{◌≡◌, ◌≤◌, ℕ, IfOk, IfErr, true, false, length};
ghost use Rattle.std.specs.Io.KnownBytes.{Consumes, IsAtEnd};
ghost use Rattle.grouping_model.specs.declared.limits.TheConstants.{MAX_INPUT_LEN};
ghost use Rattle.script_io.specs.Fused.{has_failed, unread};
ghost use Rattle.command_words.specs.Streams.{is_stream};
ghost use Rattle.command_streams.specs.Inputs.{IsUnread, StopsInput};
ghost use Rattle.refusals.specs.declared.error.RunError.TheVariants.{InputTooLong};
ghost use Rattle.refusals.specs.declared.refusal.Refusal.TheVariants.{Run};

use crate::problem::Problem;
use command_words::{input_name, is_stream};
use grouping_model::limits::MAX_INPUT_LEN;
use replies::{Refusal, RunError};
use script_io::{Fused, InputError, Unread, read_file, read_input};
use sentences::Reason;
use std::alloc::{AllocError, Global};
use std::io::Read;
use std::rt::Files;

/// Says how long a file that is too long is, if that is known.
fn length_reason(alloc: Global, length: Option<u64>) -> Result<Option<Reason>, AllocError> {
    let Some(len) = length else {
        return Ok(None);
    };
    let said = format!(in alloc; "more than 67,108,864 bytes: it has {len}")?;
    Ok(Some(Reason::whole(alloc, said)))
}

/// That a file has more bytes than 67,108,864: so many, where that is known.
fn too_long(alloc: Global, subject: &str, length: Option<u64>) -> Problem<'_>
    ensures { result.why ≡ Run InputTooLong }
{
    let why = Refusal::Run(RunError::InputTooLong);
    Problem::because(subject, why, length_reason(alloc, length))
}

/// The bytes of the file of a path, where they are 67,108,864 or fewer.
fn read_named<'p, R: Files + AllocGlobal>(rt: &R, path: &'p str) -> Result<Vec<u8>, Problem<'p>>
    ensures few { IfOk result (λ bytes. length bytes.items ≤ MAX_INPUT_LEN) }
    ensures why { IfErr result (λ problem. IsUnread problem.why) }
{
    match read_file(rt, path) {
        Ok(bytes) => Ok(bytes),
        Err(Unread::NoMemory) => Err(Problem::refused(path, Refusal::NoMemory)),
        Err(Unread::TooLong(length)) => Err(too_long(rt.alloc(), path, length)),
        Err(Unread::Failed(cause)) => Err(Problem::failed(path, RunError::ReadFault, cause)),
    }
}

/// The bytes that standard input has left, where they are 67,108,864 or fewer.
fn read_standard<'p, I: Read>(
    alloc: Global,
    path: &'p str,
    reader: &mut Fused<I>,
) -> Result<Vec<u8>, Problem<'p>>
    ensures few { IfOk result (λ bytes. length bytes.items ≤ MAX_INPUT_LEN) }
    ensures whole { IfOk result (λ bytes. Consumes (unread I.remaining reader.old) (unread I.remaining reader.new) bytes.items
        × IsAtEnd (unread I.remaining reader.new)) }
    ensures why { IfErr result (λ problem. IsUnread problem.why) }
    ensures stopped { IfErr result (λ problem. StopsInput (unread I.remaining reader.old) (unread I.remaining reader.new)
        (has_failed reader.new) problem.why) }
{
    let subject = input_name(path);
    match (read_input(alloc, reader, MAX_INPUT_LEN), reader.fault()) {
        (Ok(bytes), _) => Ok(bytes),
        (Err(InputError::TooLong), _) => Err(too_long(alloc, subject, None)),
        (Err(_), Some(cause)) => Err(Problem::failed(subject, RunError::ReadFault, cause)),
        (Err(_), None) => Err(Problem::refused(subject, Refusal::NoMemory)),
    }
}

/// What a command reads: files of the system, and standard input.
#[derive(Drop)]
pub struct Inputs<'c, R, I> {
    pub rt: &'c R,
    pub reader: &'c mut Fused<I>,
}

impl<R: Files + AllocGlobal, I: Read> Inputs<'_, R, I> {
    /// The bytes of the file of a path, or those that standard input has left, where they are 67,108,864 or fewer.
    pub fn read<'p>(&mut self, path: &'p str) -> Result<Vec<u8>, Problem<'p>>
        ensures few { IfOk result (λ bytes. length bytes.items ≤ MAX_INPUT_LEN) }
        ensures standard { is_stream path.entry.now ≡ true → IfOk result (λ bytes.
            Consumes (unread I.remaining self.old.reader.now) (unread I.remaining self.new.reader.now) bytes.items
            × IsAtEnd (unread I.remaining self.new.reader.now)) }
        ensures others { is_stream path.entry.now ≡ false → self.new.reader.now ≡ self.old.reader.now }
        ensures why { IfErr result (λ problem. IsUnread problem.why) }
        ensures stopped { is_stream path.entry.now ≡ true → IfErr result (λ problem.
            StopsInput (unread I.remaining self.old.reader.now) (unread I.remaining self.new.reader.now)
            (has_failed self.new.reader.now) problem.why) }
    {
        if is_stream(path) {
            read_standard(self.rt.alloc(), path, self.reader)
        } else {
            read_named(self.rt, path)
        }
    }
}
