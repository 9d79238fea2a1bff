//! Whole files, read up to the longest input.

ghost use Rattle.std.specs.Prelude.{◌≤◌, IfOk, length};

use crate::fused::Fused;
use crate::input::{InputError, read_input};
use grouping_model::limits::MAX_INPUT_LEN;
use std::rt::Files;
use std::{fs, io};

/// Why a file was not read.
#[derive(Clone, Copy)]
pub enum Unread {
    /// Memory ran out for its bytes.
    NoMemory,
    /// It has more bytes than the limit: this many, if that is known.
    TooLong(Option<u64>),
    /// The system could not open or read it.
    Failed(io::Error),
}

/// How long a file is, if that is known.
fn length_of<R: Files>(rt: &R, path: &str) -> Option<u64> {
    match fs::metadata(rt, path) {
        Ok(found) if found.is_file() => Some(found.len()),
        _ => None,
    }
}

/// The bytes of a file of at most 67,108,864 bytes (64 MiB). `Unread` has the errors; a longer file is `TooLong`.
pub fn read_file<R: Files + AllocGlobal>(rt: &R, path: &str) -> Result<Vec<u8>, Unread>
    ensures few { IfOk result (λ bytes. length bytes.items ≤ MAX_INPUT_LEN) }
{
    let mut reader = match fs::open(rt, path) {
        Ok(file) => Fused::new(file),
        Err(cause) => return Err(Unread::Failed(cause)),
    };
    match (
        read_input(rt.alloc(), &mut reader, MAX_INPUT_LEN),
        reader.fault(),
    ) {
        (Ok(bytes), _) => Ok(bytes),
        (Err(InputError::TooLong), _) => Err(Unread::TooLong(length_of(rt, path))),
        (Err(_), Some(cause)) => Err(Unread::Failed(cause)),
        (Err(_), None) => Err(Unread::NoMemory),
    }
}
