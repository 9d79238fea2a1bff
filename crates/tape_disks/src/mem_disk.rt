//! A disk in memory.
ghost use Rattle.std.specs.Prelude.{◌≡◌, ◌+◌, ◌-◌, ◌%◌, ◌/◌, ◌<◌, ◌≤◌, ◌++◌, ℕ, Some, None, min, IsTrue, IfOk, IfErr, OnOk, length, take};
ghost use Rattle.std.specs.Prelude.{drop};
ghost use Rattle.chunk_contexts.specs.Chunks.{is_live, bytes_of, KeepsOthers};
ghost use Rattle.tape_disks.specs.Memory.{name_of, byte_at, IsSame, IsSameBeside, AreAt, MemoryState};
ghost use Rattle.tape_disks.specs.declared.disk.DiskError.TheVariants as disk_error;
ghost use Rattle.tape_disks.specs.MemoryFields.{memory_of, AreFields};

use crate::disk::{DiskError, TapeDisk};
use crate::limits::PAGE;
use chunk_contexts::{ChunkContext, Generation};
use chunk_layout::ChunkName;
use std::alloc::Global;
use std::collections::BTreeMap;
use std::marker::Model;

/// A disk in memory, which is honest and fails only if memory runs out. At first each place is 0.
///
/// Its pages, of 8,192 bytes each, are in a `Generation` context, and are found by their numbers. A page is taken at its first
/// write.
#[derive(Drop)]
pub struct MemDisk {
    chunks: Generation,
    pages: BTreeMap<u64, ChunkName>,
    count: u128,
}

impl Model for MemDisk {
    ghost Value = { MemoryState };

    ghost view = { memory_of };

    ghost invariant = { AreFields };
}

/// Writes over some bytes of a chunk.
fn write_over(chunks: &mut Generation, name: ChunkName, from: usize, bytes: &[u8])
    requires live { IsTrue (is_live chunks.old.chunks name) }
    requires fits { from + length bytes.now ≤ name.len }
    ensures live { IsTrue (is_live chunks.new.chunks name) }
    ensures bytes { bytes_of chunks.new.chunks name ≡ take from (bytes_of chunks.old.chunks name)
        ++ (bytes.now ++ drop (from + length bytes.now) (bytes_of chunks.old.chunks name)) }
    ensures keeps { KeepsOthers chunks.old.chunks chunks.new.chunks name name }
{
    chunks.get_mut(name)[from..from + bytes.len()].copy_from_slice(bytes);
}

impl MemDisk {
    /// A disk that was never written.
    pub fn new(alloc: Global) -> MemDisk
        ensures zeros { (place : ℕ) → byte_at result place ≡ 0 }
        ensures count { result.count ≡ 0 }
    {
        MemDisk {
            chunks: Generation::new(alloc),
            pages: BTreeMap::new(alloc),
            count: 0,
        }
    }

    /// How many writes succeeded, or 2^64 - 1 if that is more.
    pub fn writes(&self) -> u64
        ensures { result ≡ min self.now.count 18446744073709551615 }
    {
        self.count.min(u128::from(u64::MAX)) as u64
    }

    /// The chunk of a page, if it was taken.
    fn find(&self, page: u64) -> Option<ChunkName>
        ensures { result ≡ name_of self.now.pages page }
    {
        self.pages.get(&page).copied()
    }

    /// Takes a chunk of zeros for a page that has none.
    fn take(&mut self, page: u64) -> Result<ChunkName, DiskError>
        requires { name_of self.old.pages page ≡ None }
        ensures taken { IfOk result (λ name. name_of self.new.pages page ≡ Some name) }
        ensures same { IsSame self.old self.new }
        ensures count { self.new.count ≡ self.old.count }
        ensures refused { IfErr result (λ error. error ≡ disk_error.NoMemory) }
    {
        let Ok(name) = self.chunks.alloc_zeroed(PAGE as u32) else {
            return Err(DiskError::NoMemory);
        };
        match self.pages.insert(page, name) {
            Ok(_) => Ok(name),
            Err(_) => {
                self.chunks.free(name).unwrap();
                Err(DiskError::NoMemory)
            }
        }
    }

    /// The chunk of a page, which is taken if it was not.
    fn find_or_take(&mut self, page: u64) -> Result<ChunkName, DiskError>
        ensures found { IfOk result (λ name. name_of self.new.pages page ≡ Some name) }
        ensures same { IsSame self.old self.new }
        ensures count { self.new.count ≡ self.old.count }
        ensures refused { IfErr result (λ error. error ≡ disk_error.NoMemory) }
    {
        if let Some(name) = self.find(page) {
            return Ok(name);
        }
        self.take(page)
    }

    /// Writes bytes that lie in one page.
    fn write_part(&mut self, at: u64, bytes: &[u8]) -> Result<(), DiskError>
        requires { at % PAGE + length bytes.now ≤ PAGE }
        ensures written { OnOk result (AreAt self.new at bytes.now) }
        ensures same { IsSameBeside self.old self.new at (length bytes.now) }
        ensures count { self.new.count ≡ self.old.count }
        ensures refused { IfErr result (λ error. error ≡ disk_error.NoMemory) }
    {
        let name = self.find_or_take(at / PAGE as u64)?;
        write_over(&mut self.chunks, name, (at % PAGE as u64) as usize, bytes);
        Ok(())
    }

    /// Reads bytes that lie in one page.
    fn read_part(&self, at: u64, bytes: &mut [u8])
        requires { at % PAGE + length bytes.old ≤ PAGE }
        ensures len { length bytes.new ≡ length bytes.old }
        ensures read { AreAt self.now at bytes.new }
    {
        match self.find(at / PAGE as u64) {
            Some(name) => {
                let from = (at % PAGE as u64) as usize;
                let end = from + bytes.len();
                bytes.copy_from_slice(&self.chunks.get(name)[from..end]);
            }
            None => bytes.fill(0),
        }
    }
}

/// How many of the `left` bytes from a place on lie in the page of that place.
fn part_len(at: u64, left: usize) -> usize
    requires { 0 < left }
    ensures some { 0 < result }
    ensures within { at % PAGE + result ≤ PAGE }
    ensures most { result ≤ left }
{
    (PAGE - (at % PAGE as u64) as usize).min(left)
}

impl TapeDisk for MemDisk {
    ghost use Rattle.std.specs.Prelude.{◌≡◌, true};
    ghost use Rattle.tape_disks.specs.Memory.{byte_at};

    ghost failures = { λ _. 0 };

    ghost writes = { λ m. m.count };

    ghost honest = { λ _. true };

    ghost last = { λ m place byte. byte_at m place ≡ byte };

    fn read_at(&mut self, at: u64, bytes: &mut [u8]) -> Result<(), DiskError> {
        let mut done = 0;
        while done < bytes.len() {
            let start = at + done as u64;
            let n = part_len(start, bytes.len() - done);
            self.read_part(start, &mut bytes[done..done + n]);
            done += n;
        }
        Ok(())
    }

    fn write_at(&mut self, at: u64, bytes: &[u8]) -> Result<(), DiskError> {
        if self.count == u128::MAX {
            return Err(DiskError::NoMemory);
        }
        let mut done = 0;
        while done < bytes.len() {
            let start = at + done as u64;
            let n = part_len(start, bytes.len() - done);
            self.write_part(start, &bytes[done..done + n])?;
            done += n;
        }
        self.count += 1;
        Ok(())
    }
}
