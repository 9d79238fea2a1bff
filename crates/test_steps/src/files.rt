//! What a transcript of commands does beside them, with files.

mod made;
mod summaries;

use crate::files::made::{write_aligned, write_csv, write_listed, write_rows, write_wide};
use crate::files::summaries::{FIRST, SECOND, write_first, write_origins};
use std::fs::Permissions;
use std::io::{Error, ErrorKind};
use std::os::unix::fs::{PermissionsExt, symlink};
use std::{fs, io};

/// The number that a text tells.
pub(crate) fn number(text: &str) -> io::Result<u32> {
    match text.parse() {
        Ok(number) => Ok(number),
        Err(_) => Err(Error::from(ErrorKind::InvalidInput)),
    }
}

/// Whether two files have the same bytes.
fn are_same(rt: &HostRuntime, one: &str, other: &str) -> io::Result<bool> {
    let bytes = fs::read(rt, one)?;
    Ok(bytes == fs::read(rt, other)?)
}

/// Whether a file is a text that has another one in it.
fn has_text(rt: &HostRuntime, file: &str, text: &str) -> io::Result<bool> {
    let read = fs::read(rt, file)?;
    Ok(str::from_utf8(&read).unwrap_or("").contains(text))
}

/// Whether only its owner may read and write a file.
fn is_private(rt: &HostRuntime, file: &str) -> io::Result<bool> {
    Ok(fs::metadata(rt, file)?.permissions().mode() & 0o777 == 0o600)
}

/// Whether a folder has so many files.
fn has_files(rt: &HostRuntime, folder: &str, told: &str) -> io::Result<bool> {
    let mut count: u32 = 0;
    for entry in fs::read_dir(rt, folder)? {
        entry?;
        count = count.saturating_add(1);
    }
    Ok(count == number(told)?)
}

/// Makes a file of so many zeros.
fn write_long(rt: &HostRuntime, file: &str, told: &str) -> io::Result<bool> {
    let length = number(told)?;
    fs::File::create(rt, file)?.set_len(u64::from(length))?;
    Ok(true)
}

/// What is done beside commands. It asks whether files are the same or so many, and whether one has a text, is there, or is private. It
/// makes links, a file of a length, and a private one, which only its owner may read and write. It writes a batch file of many rows, a
/// summary of many origins or of the first version, and what commands print of these.
pub fn aside(rt: &HostRuntime, word: &str, file: &str, rest: &str) -> io::Result<bool> {
    match word {
        "files" => has_files(rt, file, rest),
        "hard" => Ok(fs::hard_link(rt, rest, file).is_ok()),
        "csv" => write_csv(rt, file, rest),
        "aligned" => write_aligned(rt, file, rest),
        "listed" => write_listed(rt, file, rest),
        "wide" => write_wide(rt, file, rest),
        "same" => are_same(rt, file, rest),
        "has" => has_text(rt, file, rest),
        "there" => fs::exists(rt, file),
        "link" => Ok(symlink(rt, rest, file).is_ok()),
        "private" => Ok(fs::set_permissions(rt, file, Permissions::from_mode(0o600)).is_ok()),
        "is_private" => is_private(rt, file),
        "long" => write_long(rt, file, rest),
        "rows" => write_rows(rt, file, rest),
        "origins" => write_origins(rt, file, &SECOND, rest),
        "first_origins" => write_origins(rt, file, &FIRST, rest),
        "first" => write_first(rt, file, rest),
        _ => Err(Error::from(ErrorKind::InvalidInput)),
    }
}
