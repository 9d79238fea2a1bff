//! What exists at a path.

ghost use Rattle.std.specs.Prelude.{◌≡◌, ◌<◌, ℕ, IfOk, length};
ghost use Rattle.out_files.specs.declared.occupant.Occupant.TheVariants.{Listed};

use std::fs::Metadata;
use std::io::ErrorKind;
use std::os::unix::fs::MetadataExt;
use std::rt::Files;
use std::{fs, io};

/// What exists at a path.
#[derive(Clone, Copy)]
pub enum Occupant {
    /// Nothing, or a dangling link.
    Nothing,
    /// A folder, a device or a pipe.
    Special,
    /// The file at this place of a list.
    Listed(usize),
    /// Another regular file.
    Another,
}

/// Whether paths lead to one file.
fn is_same_file<R: Files>(rt: &R, found: &Metadata, path: &str) -> io::Result<bool> {
    match fs::metadata(rt, path) {
        Ok(other) => Ok(found.dev() == other.dev() && found.ino() == other.ino()),
        Err(error) if error.kind() == ErrorKind::OutOfMemory => Err(error),
        // It is no file that one could read.
        Err(_) => Ok(false),
    }
}

/// What exists at a path. If it is one of the files of a list, the first place of it is given. The error is that this can't be found out.
pub fn occupant_of<R: Files>(rt: &R, path: &str, listed: &[&str]) -> io::Result<Occupant>
    ensures { IfOk result (λ found. (place : ℕ) → found ≡ Listed place → place < length listed.now) }
{
    let found = match fs::metadata(rt, path) {
        Ok(found) => found,
        Err(error) if error.kind() == ErrorKind::NotFound => return Ok(Occupant::Nothing),
        Err(error) => return Err(error),
    };
    if !found.is_file() {
        return Ok(Occupant::Special);
    }
    for (place, file) in listed.iter().enumerate() {
        if is_same_file(rt, &found, file)? {
            return Ok(Occupant::Listed(place));
        }
    }
    Ok(Occupant::Another)
}
