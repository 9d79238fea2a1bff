//! Writes files.

ghost use Rattle.std.specs.Prelude.{◌≡◌, IsErrAnd, IsSome, OnOk};
ghost use Rattle.std.specs.Io.KnownBytes.{Appends};
ghost use Rattle.out_files.specs.Writing.{SparesDevices};
ghost use Rattle.out_files.specs.declared.writing.Unwritten.TheVariants.{Changed};

use crate::beside::create_beside;
use crate::reading::has_bytes;
use crate::trial::{Place, open_over};
use std::fs::{File, OpenFile, OpenOptions};
use std::io::{ErrorKind, Write};
use std::rt::Files;
use std::{fs, io};

/// Why a file was not written.
#[derive(Clone, Copy)]
pub enum Unwritten {
    /// The file no longer has the bytes that were to be replaced.
    Changed,
    /// A system call failed.
    Failed(io::Error),
}

impl From<io::Error> for Unwritten {
    fn from(cause: io::Error) -> Unwritten {
        Unwritten::Failed(cause)
    }
}

/// Writes bytes to an opened file, and waits until the system has them on its disk.
fn fill<F: Write + OpenFile>(file: &mut F, bytes: &[u8]) -> io::Result<()>
    ensures { OnOk result (Appends (F.contents file.old) (F.contents file.new) bytes.now) }
{
    file.write_all(bytes)?;
    file.sync_all()
}

/// Stops if the file of a path no longer has its old bytes, if these are known.
fn keep_others<R: Files>(rt: &R, path: &str, old: Option<&[u8]>) -> Result<(), Unwritten> {
    match old {
        Some(bytes) if !has_bytes(rt, path, bytes)? => Err(Unwritten::Changed),
        _ => Ok(()),
    }
}

/// Whether the system does not let a file be replaced, though it may be overwritten in place: it is another user's in a folder with the
/// sticky bit, or a file system is mounted on it.
fn is_unmovable(error: io::Error) -> bool {
    matches!(
        error.kind(),
        ErrorKind::PermissionDenied | ErrorKind::ResourceBusy
    )
}

/// Writes a new file and renames it to a path. The answer is whether it took that place: if the system does not let it, the path has what
/// it had.
fn put_in_place<R: Files>(
    rt: &R,
    file: &mut R::File,
    beside: &str,
    path: &str,
    bytes: &[u8],
    old: Option<&[u8]>,
) -> Result<bool, Unwritten>
    ensures { OnOk result (Appends (R.File.contents file.old) (R.File.contents file.new) bytes.now) }
{
    if let Ok(found) = fs::metadata(rt, path) {
        file.set_permissions(found.permissions())?;
    }
    fill(file, bytes)?;
    // This check is last, so that another command has little time left to replace the file.
    keep_others(rt, path, old)?;
    match fs::rename(rt, beside, path) {
        Ok(()) => Ok(true),
        Err(error) if is_unmovable(error) => Ok(false),
        Err(error) => Err(Unwritten::Failed(error)),
    }
}

/// Overwrites a file in place, since no new one can replace it. A crash or a full disk may leave neither the old bytes nor the new ones.
fn write_over<R: Files>(
    rt: &R,
    path: &str,
    bytes: &[u8],
    old: Option<&[u8]>,
) -> Result<Place, Unwritten>
    ensures { SparesDevices old.entry result }
{
    let mut file = open_over(rt, path)?;
    keep_others(rt, path, old)?;
    file.write_all(bytes)?;
    file.set_len(bytes.len() as u64)?;
    file.sync_all()?;
    Ok(Place::Over)
}

/// Replaces a file atomically: a reader, also after a crash, finds the old bytes or the new ones. Only if its folder takes no new file, or
/// does not let it replace the existing one, is that overwritten in place.
fn replace<R: Files + AllocGlobal>(
    rt: &R,
    path: &str,
    bytes: &[u8],
    old: Option<&[u8]>,
) -> Result<Place, Unwritten>
    ensures { SparesDevices old.entry result }
{
    let (beside, mut file) = match create_beside(rt, path) {
        Ok(made) => made,
        Err(error) if error.kind() == ErrorKind::PermissionDenied => {
            return write_over(rt, path, bytes, old);
        }
        Err(error) => return Err(Unwritten::Failed(error)),
    };
    let put = put_in_place(rt, &mut file, &beside, path, bytes, old);
    if let Ok(true) = put {
        return Ok(Place::Beside);
    }
    let _ = fs::remove_file(rt, beside.as_str());
    match put {
        Ok(_) => write_over(rt, path, bytes, old),
        Err(why) => Err(why),
    }
}

/// Creates a file on a file system without hard links: it replaces nothing, but a reader may meanwhile find a part of it.
fn make_in_parts<R: Files>(rt: &R, path: &str, bytes: &[u8]) -> io::Result<()> {
    let mut file = File::create_new(rt, path)?;
    let made = fill(&mut file, bytes);
    if made.is_err() {
        let _ = fs::remove_file(rt, path);
    }
    made
}

/// Gives a written file the name of a path, at which nothing may exist by then: a rename would replace it.
fn name_new<R: Files>(rt: &R, beside: &str, path: &str, bytes: &[u8]) -> io::Result<()> {
    match fs::hard_link(rt, beside, path) {
        Err(error)
            if matches!(
                error.kind(),
                ErrorKind::Unsupported | ErrorKind::PermissionDenied
            ) => make_in_parts(rt, path, bytes),
        named => named,
    }
}

/// Creates a file atomically: a reader, also after a crash, finds all of it or none.
fn make<R: Files + AllocGlobal>(rt: &R, path: &str, bytes: &[u8]) -> io::Result<()> {
    let (beside, mut file) = create_beside(rt, path)?;
    let made = match fill(&mut file, bytes) {
        Ok(()) => name_new(rt, beside.as_str(), path, bytes),
        Err(error) => Err(error),
    };
    let _ = fs::remove_file(rt, beside.as_str());
    made
}

/// Writes to a device or a pipe. Where old bytes are known, a file had them and is gone by now, and nothing is written.
fn write_to<R: Files>(
    rt: &R,
    path: &str,
    bytes: &[u8],
    old: Option<&[u8]>,
) -> Result<Place, Unwritten>
    ensures { IsSome old.entry → IsErrAnd result (λ why. why ≡ Changed) }
{
    if old.is_some() {
        return Err(Unwritten::Changed);
    }
    fs::write(rt, path, bytes)?;
    Ok(Place::Device)
}

/// Writes the file of a path that is not a link: a regular file is replaced atomically or created, a device or a pipe is written to.
fn write_at<R: Files + AllocGlobal>(
    rt: &R,
    path: &str,
    bytes: &[u8],
    old: Option<&[u8]>,
) -> Result<Place, Unwritten>
    ensures { SparesDevices old.entry result }
{
    match fs::metadata(rt, path) {
        Ok(found) if !found.is_file() => write_to(rt, path, bytes, old),
        _ => replace(rt, path, bytes, old),
    }
}

/// Creates the target of a dangling link. Where old bytes are known, its target had them and is gone by now, and nothing is created.
fn write_new<R: Files>(
    rt: &R,
    link: &str,
    bytes: &[u8],
    old: Option<&[u8]>,
) -> Result<Place, Unwritten>
    ensures { SparesDevices old.entry result }
{
    keep_others(rt, link, old)?;
    fs::write(rt, link, bytes)?;
    Ok(Place::Beside)
}

/// Writes the target of a link. If its path can't be found out, the link is refused and never written through: so the target is replaced
/// atomically, or stays.
fn write_through<R: Files + AllocGlobal>(
    rt: &R,
    link: &str,
    bytes: &[u8],
    old: Option<&[u8]>,
) -> Result<Place, Unwritten>
    ensures { SparesDevices old.entry result }
{
    match fs::canonicalize(rt, link) {
        Ok(target) => write_at(rt, target.as_str(), bytes, old),
        Err(error) if error.kind() == ErrorKind::NotFound => write_new(rt, link, bytes, old),
        Err(error) => Err(Unwritten::Failed(error)),
    }
}

/// Writes a file. An existing one is replaced atomically; a device or a pipe is written to; a link is followed. If the old bytes are given,
/// and the file has others or none by now, or is a device or a pipe, it stays. The answer is how it was written: in place only if no new
/// file can replace it.
pub fn write_file<R: Files + AllocGlobal>(
    rt: &R,
    path: &str,
    bytes: &[u8],
    old: Option<&[u8]>,
) -> Result<Place, Unwritten>
    ensures { SparesDevices old.entry result }
{
    match fs::symlink_metadata(rt, path) {
        Ok(found) if found.is_symlink() => write_through(rt, path, bytes, old),
        _ => write_at(rt, path, bytes, old),
    }
}

/// Creates the target of a link. One that exists before stays; one that appears meanwhile is overwritten.
fn make_through<R: Files + AllocGlobal>(rt: &R, link: &str, bytes: &[u8]) -> io::Result<()> {
    match fs::canonicalize(rt, link) {
        Ok(_) => Err(io::Error::from(ErrorKind::AlreadyExists)),
        Err(error) if error.kind() == ErrorKind::NotFound => fs::write(rt, link, bytes),
        Err(error) => Err(error),
    }
}

/// Creates a file where none was. One that exists by then stays, and the error is `AlreadyExists`. The target of a dangling link is
/// created too; a file that appears there meanwhile is overwritten.
pub fn write_new_file<R: Files + AllocGlobal>(
    rt: &R,
    path: &str,
    bytes: &[u8],
) -> Result<(), Unwritten> {
    match fs::symlink_metadata(rt, path) {
        Ok(found) if found.is_symlink() => Ok(make_through(rt, path, bytes)?),
        _ => Ok(make(rt, path, bytes)?),
    }
}

/// How many bytes are written after a file to find a fault.
const PAGE_BYTES: usize = 8192;

/// Appends a page to a file, and removes it again.
fn append_page<R: Files>(rt: &R, path: &str) -> io::Result<()> {
    let length = fs::metadata(rt, path)?.len();
    let mut options = OpenOptions::new();
    options.append(true);
    let mut file = options.open(rt, path)?;
    let written = fill(&mut file, &[0u8; PAGE_BYTES]);
    file.set_len(length)?;
    written
}

/// Why a page can't be appended to a file, if it can't. The file has what it had, unless the system refuses to cut it to its length.
pub fn append_fault<R: Files>(rt: &R, path: &str) -> Option<io::Error> {
    append_page(rt, path).err()
}
