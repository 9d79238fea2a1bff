//! Reads a whole script, up to a limit.

ghost use Rattle.std.specs.Prelude.{◌≡◌, ◌+◌, ◌≤◌, ◌<◌, ◌^◌, length, IfOk, IfErr};
ghost use Rattle.std.specs.Io.KnownBytes.{Consumes, IsAtEnd};
ghost use Rattle.script_io.specs.Fused.{has_failed, unread};
ghost use Rattle.script_io.specs.Input.{ConsumesAtMost, StopsReading, fails_to_read};

use crate::fused::Fused;
use std::alloc::Global;
use std::io::Read;
use thiserror::Error;

// How many bytes one call of `read` is asked for at most.
const CHUNK_BYTES: usize = 65_536;

/// Why a script was not read.
#[derive(Debug, Drop, Error)]
pub enum InputError {
    /// Memory ran out for the bytes that were read.
    #[error("out of memory")]
    NoMemory,
    /// The reader has more bytes than the limit.
    #[error("the script is too long")]
    TooLong,
    /// A call of `read` failed, or was interrupted.
    #[error("the script could not be read")]
    ReadFault,
}

/// All the bytes that a reader has left, if they are `most` bytes or fewer.
///
/// It reads on until `read` returns 0 bytes, and never takes more than `most` + 1 bytes, so a reader without an end is
/// refused too. A failed read ends it and is not retried, even if it was interrupted. The result is then `ReadFault`,
/// and only then. After an error the bytes that were taken are lost.
pub fn read_input<R: Read>(
    alloc: Global,
    reader: &mut Fused<R>,
    most: usize,
) -> Result<Vec<u8>, InputError>
    requires { most < 2 ^ 63 }
    ensures taken { ConsumesAtMost (unread R.remaining reader.old) (unread R.remaining reader.new)
        (most + 1) }
    ensures whole { IfOk result (λ text. (length text.items ≤ most)
        × Consumes (unread R.remaining reader.old) (unread R.remaining reader.new) text.items
        × IsAtEnd (unread R.remaining reader.new)) }
    ensures why { IfErr result (StopsReading (unread R.remaining reader.old)
        (unread R.remaining reader.new) most) }
    ensures fault { fails_to_read result ≡ has_failed reader.new }
{
    let mut text = Vec::new(alloc);
    let mut chunk = [0u8; CHUNK_BYTES];
    let mut left = most + 1;
    loop {
        let room = CHUNK_BYTES.min(left);
        match reader.read(&mut chunk[..room]) {
            Ok(0) => return Ok(text),
            Ok(count) if count == left => return Err(InputError::TooLong),
            Ok(count) => {
                if text.extend_from_slice(&chunk[..count]).is_err() {
                    return Err(InputError::NoMemory);
                }
                left -= count;
            }
            Err(_) => return Err(InputError::ReadFault),
        }
    }
}
