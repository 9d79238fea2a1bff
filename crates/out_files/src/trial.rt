//! Checks before the work that files can be read and written.

use crate::beside::create_beside;
use std::fs::{File, Metadata, OpenOptions};
use std::io::{ErrorKind, Read};
use std::rt::Files;
use std::{fs, io};

/// Linux's error number for a path that leads to a folder.
const EISDIR: i32 = 21;

/// How a file is written.
#[derive(Clone, Copy, PartialEq, Eq)]
pub enum Place {
    /// A new file replaces it atomically.
    Beside,
    /// No new file can replace it: it is overwritten in place, and a crash or a full disk may lose it.
    Over,
    /// It is a device or a pipe, and is written to.
    Device,
}

/// Checks that a file can be read, by its first byte. A pipe or a device is not touched, since a byte read from it is gone.
pub fn try_reading<R: Files>(rt: &R, path: &str) -> io::Result<()> {
    let found = fs::metadata(rt, path)?;
    if found.is_file() || found.is_dir() {
        let mut file: R::File = File::open(rt, path)?;
        file.read(&mut [0u8; 1])?;
    }
    Ok(())
}

/// Whether an existing file can be overwritten.
pub(crate) fn open_over<R: Files>(rt: &R, path: &str) -> io::Result<R::File> {
    let mut options = OpenOptions::new();
    options.write(true);
    options.open(rt, path)
}

/// Checks whether a new file can be written beside that of a path, or over an existing one.
fn try_at<R: Files + AllocGlobal>(rt: &R, path: &str, is_there: bool) -> io::Result<Place> {
    match create_beside(rt, path) {
        Ok((beside, file)) => {
            drop(file);
            fs::remove_file(rt, beside.as_str())?;
            Ok(Place::Beside)
        }
        Err(error) if is_there && error.kind() == ErrorKind::PermissionDenied => {
            drop(open_over(rt, path)?);
            Ok(Place::Over)
        }
        Err(error) => Err(error),
    }
}

/// Checks whether the file that a path leads to can be written.
fn try_found<R: Files + AllocGlobal>(rt: &R, path: &str, found: &Metadata) -> io::Result<Place> {
    if found.is_dir() {
        return Err(io::Error::from_raw_os_error(EISDIR));
    }
    if !found.is_file() {
        return Ok(Place::Device);
    }
    let target = fs::canonicalize(rt, path)?;
    try_at(rt, target.as_str(), true)
}

/// Checks whether a file can be written, and how. It leaves all as it was.
pub fn try_place<R: Files + AllocGlobal>(rt: &R, path: &str) -> io::Result<Place> {
    match fs::metadata(rt, path) {
        Ok(found) => try_found(rt, path, &found),
        Err(error) if error.kind() == ErrorKind::NotFound => match fs::symlink_metadata(rt, path) {
            // A dangling link: what it leads to is made when it is written.
            Ok(_) => Ok(Place::Beside),
            Err(_) => try_at(rt, path, false),
        },
        Err(error) => Err(error),
    }
}
