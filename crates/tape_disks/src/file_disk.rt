//! A disk in a file.
ghost use Rattle.std.specs.Prelude.{◌≡◌, ◌+◌, min, IfOk, IsTrue, OnOk, true, false, length};
ghost use Rattle.std.specs.Fs.{asks_create_new, asks_read, asks_truncate, asks_write};
ghost use Rattle.tape_disks.specs.Calls.{AreLast, AreReadAt, Keeps, KeepsBeside, failed};
ghost use Rattle.tape_disks.specs.Errors.{disk_faults};

use crate::disk::{DiskError, TapeDisk};
use crate::seekable_file::SeekableFile;
use crate::system_file::SystemFile;
use std::fs::OpenOptions;
use std::io;
use std::io::{Read, Seek, Write};
use std::marker::Model;
use std::os::unix::fs::OpenOptionsExt;
use std::rt::Files;
use thiserror::Error;

/// Who may read and write the file: its owner alone.
const OWNER_ALONE: u32 = 0o600;

/// Why a spill file was not created.
#[derive(Clone, Copy, Debug, Error)]
#[error("the spill file cannot be created")]
pub struct WriteFault {
    pub cause: io::Error,
}

/// A disk in a file. It is as honest as the file, and fails exactly if the file does: if the file returns what was written to it, so does
/// the disk. Places past its end are 0.
#[derive(Drop)]
pub struct FileDisk<F: SeekableFile + Drop> {
    file: F,
    count: u128,
}

impl<F: SeekableFile + Drop> Model for FileDisk<F> {
    ghost use Rattle.tape_disks.specs.Files.{FileState};

    ghost Value = { FileState F };

    ghost view = { λ d. record { file = d.file; count = d.count } };
}

/// How [`FileDisk::create`] opens its file: to be read and written by its owner alone. Nothing is opened that is there already, so no file
/// is shortened.
pub fn new_file_options() -> OpenOptions
    ensures new { asks_create_new result ≡ true }
    ensures whole { asks_truncate result ≡ false }
    ensures read { asks_read result ≡ true }
    ensures write { asks_write result ≡ true }
{
    let mut options = OpenOptions::new();
    options.mode(OWNER_ALONE);
    options
        .read(true)
        .write(true)
        .truncate(false)
        .create_new(true);
    options
}

impl<F: Read + Write + Seek + Drop> FileDisk<SystemFile<F>> {
    /// A disk in a new file that only its owner may read and write, as [`new_file_options`] opens it. A path at which anything exists,
    /// even a link, is refused, and so is one at which no file can be created.
    pub fn create<R: Files<File = F>>(
        rt: &R,
        path: &str,
    ) -> Result<FileDisk<SystemFile<F>>, WriteFault>
        ensures count { IfOk result (λ disk. disk.count ≡ 0) }
        ensures failures { IfOk result (λ disk. disk.file.failures ≡ 0) }
    {
        match new_file_options().open(rt, path) {
            Ok(file) => Ok(FileDisk::new(SystemFile::new(file))),
            Err(cause) => Err(WriteFault { cause }),
        }
    }
}

impl<F: SeekableFile + Drop> FileDisk<F> {
    /// A disk in a file.
    pub fn new(file: F) -> FileDisk<F>
        ensures { result ≡ record { file = file; count = 0 } }
    {
        FileDisk { file, count: 0 }
    }

    /// How many writes succeeded, or 2^64 - 1 if that is more.
    pub fn writes(&self) -> u64
        ensures { result ≡ min self.now.count 18446744073709551615 }
    {
        self.count.min(u128::from(u64::MAX)) as u64
    }
}

/// Reads from a place on. What lies past the end is 0.
fn read_from<F: SeekableFile>(file: &mut F, at: u64, bytes: &mut [u8]) -> Result<(), DiskError>
    ensures len { length bytes.new ≡ length bytes.old }
    ensures read { OnOk result (IsTrue (F.honest file.old) → AreReadAt (F.last file.old) at bytes.new) }
    ensures keeps { Keeps (F.last file.old) (F.last file.new) }
    ensures failures { F.failures file.new ≡ F.failures file.old + failed disk_faults result }
    ensures honesty { F.honest file.new ≡ F.honest file.old }
{
    file.go_to(at)?;
    let mut done = 0;
    while done < bytes.len() {
        let n = file.read_some(&mut bytes[done..])?;
        if n == 0 {
            bytes[done..].fill(0);
            return Ok(());
        }
        done += n;
    }
    Ok(())
}

/// Writes from a place on.
fn write_to<F: SeekableFile>(file: &mut F, at: u64, bytes: &[u8]) -> Result<(), DiskError>
    ensures written { OnOk result (AreLast (F.last file.new) at bytes.now) }
    ensures keeps { KeepsBeside (F.last file.old) (F.last file.new) at (length bytes.now) }
    ensures failures { F.failures file.new ≡ F.failures file.old + failed disk_faults result }
    ensures honesty { F.honest file.new ≡ F.honest file.old }
{
    file.go_to(at)?;
    file.write_these(bytes)
}

impl<F: SeekableFile + Drop> TapeDisk for FileDisk<F> {
    ghost failures = { λ d. F.failures d.file };

    ghost writes = { λ d. d.count };

    ghost honest = { λ d. F.honest d.file };

    ghost last = { λ d. F.last d.file };

    fn read_at(&mut self, at: u64, bytes: &mut [u8]) -> Result<(), DiskError> {
        read_from(&mut self.file, at, bytes)
    }

    fn write_at(&mut self, at: u64, bytes: &[u8]) -> Result<(), DiskError> {
        if self.count == u128::MAX {
            return Err(DiskError::NoMemory);
        }
        write_to(&mut self.file, at, bytes)?;
        self.count += 1;
        Ok(())
    }
}
