//! Disks for tests, over one in memory: those of which something is wrong, and one that keeps how far it was written. And a reader and a
//! writer that fail.

ghost use Rattle.std.specs.Prelude.{◌≡◌, ◌<◌, true};
ghost use Rattle.tape_disks.specs.Memory.{byte_at};

use spill_tapes::{DiskError, FailDisk, FlipDisk, MemDisk, TapeDisk};
use std::alloc::Global;
use std::io;
use std::io::{Error, ErrorKind, Read, Write};

/// The bytes of a page.
const PAGE: usize = 8192;

/// A disk in memory of which the call with this number fails, counted from 0 over reads and writes.
pub fn failing(alloc: Global, call: u64) -> FailDisk<MemDisk> {
    FailDisk::new(MemDisk::new(alloc), call)
}

/// A disk in memory that flips a bit in the tag of the first record on each page.
pub fn flipping(alloc: Global) -> FlipDisk<MemDisk> {
    FlipDisk::new(MemDisk::new(alloc), 4, 4)
}

/// A disk that keeps how far it was written.
#[derive(Drop)]
pub struct Marks {
    pub inner: MemDisk,
    pub end: u64,
}

impl TapeDisk for Marks {
    ghost failures = { λ _. 0 };

    ghost writes = { λ d. d.inner.count };

    ghost honest = { λ _. true };

    ghost last = { λ d place byte. byte_at d.inner place ≡ byte };

    fn read_at(&mut self, at: u64, bytes: &mut [u8]) -> Result<(), DiskError> {
        self.inner.read_at(at, bytes)
    }

    fn write_at(&mut self, at: u64, bytes: &[u8]) -> Result<(), DiskError> {
        self.end = self.end.max(at + bytes.len() as u64);
        self.inner.write_at(at, bytes)
    }
}

/// Whether disks have the same page under a number. One that is not read is not the same.
fn same_page(one: &mut MemDisk, other: &mut MemDisk, page: u64) -> bool
    requires { page < 1000 }
{
    let (mut bytes, mut others) = ([0; PAGE], [1; PAGE]);
    let at = page * PAGE as u64;
    one.read_at(at, &mut bytes).is_ok() && other.read_at(at, &mut others).is_ok() && bytes == others
}

/// Whether as many pages were written to two disks, 1,000 at most, and have the same bytes.
pub fn same_pages(one: &mut MemDisk, other: &mut MemDisk) -> bool {
    let pages = one.writes();
    if other.writes() != pages || pages > 1000 {
        return false;
    }
    for page in 0..pages {
        if !same_page(one, other, page) {
            return false;
        }
    }
    true
}

/// A reader that fails at once.
#[derive(Drop)]
pub struct FailingReader;

impl Read for FailingReader {
    fn read(&mut self, _buf: &mut [u8]) -> io::Result<usize> {
        Err(Error::from(ErrorKind::Other))
    }
}

/// A writer that takes so many bytes, and then fails.
#[derive(Drop)]
pub struct FailingWriter {
    pub taken: Vec<u8>,
    pub room: usize,
}

impl Write for FailingWriter {
    fn write(&mut self, buf: &[u8]) -> io::Result<usize> {
        let count = buf.len().min(self.room);
        if count == 0 {
            return Err(Error::from(ErrorKind::Other));
        }
        self.taken.extend_from_slice(&buf[..count])?;
        self.room -= count;
        Ok(count)
    }

    fn flush(&mut self) -> io::Result<()> {
        Ok(())
    }
}
