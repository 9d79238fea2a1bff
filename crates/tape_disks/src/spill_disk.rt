//! The disk that the user chose: in memory or in a file.
ghost use Rattle.std.specs.Prelude.{◌≡◌, min};
ghost use Rattle.tape_disks.specs.Chosen.{writes_of};

use crate::disk::{DiskError, TapeDisk};
use crate::file_disk::FileDisk;
use crate::mem_disk::MemDisk;
use crate::seekable_file::SeekableFile;

/// A disk in memory, or in a file.
#[derive(Drop)]
pub enum SpillDisk<F: SeekableFile + Drop> {
    Memory(MemDisk),
    File(FileDisk<F>),
}

impl<F: SeekableFile + Drop> SpillDisk<F> {
    /// How many writes succeeded, or 2^64 - 1 if that is more.
    pub fn writes(&self) -> u64
        ensures { result ≡ min (writes_of self.now) 18446744073709551615 }
    {
        match self {
            SpillDisk::Memory(disk) => disk.writes(),
            SpillDisk::File(disk) => disk.writes(),
        }
    }
}

impl<F: SeekableFile + Drop> TapeDisk for SpillDisk<F> {
    ghost use Rattle.tape_disks.specs.Chosen.{failures_of, writes_of, is_honest, is_last};

    ghost failures = { failures_of F.SeekableFile };

    ghost writes = { writes_of };

    ghost honest = { is_honest F.SeekableFile };

    ghost last = { is_last F.SeekableFile };

    fn read_at(&mut self, at: u64, bytes: &mut [u8]) -> Result<(), DiskError> {
        match self {
            SpillDisk::Memory(disk) => disk.read_at(at, bytes),
            SpillDisk::File(disk) => disk.read_at(at, bytes),
        }
    }

    fn write_at(&mut self, at: u64, bytes: &[u8]) -> Result<(), DiskError> {
        match self {
            SpillDisk::Memory(disk) => disk.write_at(at, bytes),
            SpillDisk::File(disk) => disk.write_at(at, bytes),
        }
    }
}
