//! Files of the system.
ghost use Rattle.std.specs.Prelude.{◌≡◌, ◌+◌, ◌≤◌, false, IfOk, OnOk, length};
ghost use Rattle.std.specs.Io.Seek.{MovesTo};
ghost use Rattle.std.specs.Io.KnownBytes.{Appends, ReadConsumes};
ghost use Rattle.tape_disks.specs.Calls.{failed};
ghost use Rattle.tape_disks.specs.Errors.{disk_faults};

use crate::disk::DiskError;
use crate::seekable_file::SeekableFile;
use std::io::{Read, Seek, SeekFrom, Write};
use std::marker::Model;

/// A file of the system, which counts its failures. No contract says what such a file holds, so none is called honest: promises over it
/// have the premise that it returns what was written to it. `go_to` and `read_some` make one call of the file, and fail if that is
/// interrupted. `write_these` writes until all bytes are taken, and repeats a write that is interrupted. After 2^128 - 1 failures no more
/// calls are made, and every method returns `NoMemory`.
#[derive(Drop)]
pub struct SystemFile<F: Read + Write + Seek + Drop> {
    file: F,
    failures: u128,
}

impl<F: Read + Write + Seek + Drop> Model for SystemFile<F> {
    ghost use Rattle.tape_disks.specs.Files.{SystemState};

    ghost Value = { SystemState F };

    ghost view = { λ f. record { file = f.file; failures = f.failures } };
}

impl<F: Read + Write + Seek + Drop> SystemFile<F> {
    /// A file that has not failed yet.
    pub fn new(file: F) -> SystemFile<F>
        ensures { result ≡ record { file = file; failures = 0 } }
    {
        SystemFile { file, failures: 0 }
    }
}

impl<F: Read + Write + Seek + Drop> SeekableFile for SystemFile<F> {
    ghost failures = { λ f. f.failures };

    ghost honest = { λ _. false };

    ghost stands = { λ _ _. Unit {0} };

    ghost last = { λ _ _ _. Unit {0} };

    fn go_to(&mut self, at: u64) -> Result<(), DiskError>
        ensures moves { MovesTo (F.stream_position self.old.file) (F.stream_position self.new.file) at result }
        ensures failures { self.new.failures ≡ self.old.failures + failed disk_faults result }
    {
        if self.failures == u128::MAX {
            return Err(DiskError::NoMemory);
        }
        if self.file.seek(SeekFrom::Start(at)).is_err() {
            self.failures += 1;
            return Err(DiskError::TapeFault);
        }
        Ok(())
    }

    fn read_some(&mut self, bytes: &mut [u8]) -> Result<usize, DiskError>
        ensures len { length bytes.new ≡ length bytes.old }
        ensures most { IfOk result (λ n. n ≤ length bytes.old) }
        ensures bytes { ReadConsumes (F.remaining self.old.file) (F.remaining self.new.file) result bytes.new }
        ensures failures { self.new.failures ≡ self.old.failures + failed disk_faults result }
    {
        if self.failures == u128::MAX {
            return Err(DiskError::NoMemory);
        }
        match self.file.read(bytes) {
            Ok(n) => Ok(n),
            Err(_) => {
                self.failures += 1;
                Err(DiskError::TapeFault)
            }
        }
    }

    fn write_these(&mut self, bytes: &[u8]) -> Result<(), DiskError>
        ensures bytes { OnOk result (Appends (F.contents self.old.file) (F.contents self.new.file) bytes.now) }
        ensures failures { self.new.failures ≡ self.old.failures + failed disk_faults result }
    {
        if self.failures == u128::MAX {
            return Err(DiskError::NoMemory);
        }
        if self.file.write_all(bytes).is_err() {
            self.failures += 1;
            return Err(DiskError::TapeFault);
        }
        Ok(())
    }
}
