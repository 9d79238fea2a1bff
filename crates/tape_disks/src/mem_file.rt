//! A file in memory.
ghost use Rattle.std.specs.Prelude.{◌≡◌, ◌+◌, ◌<◌, ◌≤◌, ◌⊎◌, ℕ, [], true, OnOk, OnErr, length, get_or};
ghost use Rattle.tape_disks.specs.Calls.{AreLast, KeepsBeside, failed};
ghost use Rattle.tape_disks.specs.Errors.{disk_faults};

use crate::disk::DiskError;
use crate::seekable_file::SeekableFile;
use std::alloc::{AllocError, Global};
use std::marker::Model;

/// A file in memory, which is honest and never fails; if memory runs out, it returns `NoMemory` and changes nothing. Bytes between its
/// end and a later place that is written are 0.
#[derive(Drop)]
pub struct MemFile {
    bytes: Vec<u8>,
    at: usize,
}

impl Model for MemFile {
    ghost use Rattle.tape_disks.specs.Files.{MemState};

    ghost Value = { MemState };

    ghost view = { λ f. record { bytes = f.bytes.items; at = f.at } };
}

impl MemFile {
    /// An empty file.
    pub fn new(alloc: Global) -> MemFile
        ensures { result ≡ record { bytes = []; at = 0 } }
    {
        MemFile {
            bytes: Vec::new(alloc),
            at: 0,
        }
    }
}

/// Grows a list of bytes by zeros, up to this length.
fn grow(bytes: &mut Vec<u8>, end: usize) -> Result<(), AllocError>
    ensures same { (place : ℕ) → get_or bytes.new.items place 0 ≡ get_or bytes.old.items place 0 }
    ensures long { OnOk result (end ≤ length bytes.new.items) }
    ensures unchanged { OnErr result (bytes.new.items ≡ bytes.old.items) }
{
    if bytes.len() < end {
        bytes.resize(end, 0)?;
    }
    Ok(())
}

/// Writes these bytes over others, from a place on.
#[tactic(auto, using(std::proofs::lemmas::List::places, crate::proofs::MemoryLaws::over_beside))]
fn write_over(bytes: &mut [u8], at: usize, these: &[u8])
    requires { at + length these.now ≤ length bytes.old }
    ensures len { length bytes.new ≡ length bytes.old }
    ensures there { (k : ℕ) → k < length these.now → get_or bytes.new (at + k) 0 ≡ get_or these.now k 0 }
    ensures beside { (place : ℕ) → (place < at) ⊎ (at + length these.now ≤ place) → get_or bytes.new place 0 ≡ get_or bytes.old place 0 }
{
    bytes[at..at + these.len()].copy_from_slice(these);
}

impl SeekableFile for MemFile {
    ghost use Rattle.tape_disks.specs.Files.{IsByteAt};

    ghost failures = { λ _. 0 };

    ghost honest = { λ _. true };

    ghost stands = { λ f at. f.at ≡ at };

    ghost last = { IsByteAt };

    fn go_to(&mut self, at: u64) -> Result<(), DiskError> {
        self.at = at as usize;
        Ok(())
    }

    fn read_some(&mut self, bytes: &mut [u8]) -> Result<usize, DiskError> {
        if self.at >= self.bytes.len() {
            return Ok(0);
        }
        let n = bytes.len().min(self.bytes.len() - self.at);
        bytes[..n].copy_from_slice(&self.bytes[self.at..self.at + n]);
        self.at += n;
        Ok(n)
    }

    fn write_these(&mut self, bytes: &[u8]) -> Result<(), DiskError>
        ensures written { OnOk result ((at : ℕ) → self.old.at ≡ at → AreLast (IsByteAt self.new) at bytes.now) }
        ensures keeps { (at : ℕ) → self.old.at ≡ at → KeepsBeside (IsByteAt self.old) (IsByteAt self.new) at (length bytes.now) }
        ensures failures { failed disk_faults result ≡ 0 }
        ensures unchanged { OnErr result (self.new ≡ self.old) }
    {
        let Some(end) = self.at.checked_add(bytes.len()) else {
            return Err(DiskError::NoMemory);
        };
        grow(&mut self.bytes, end)?;
        write_over(&mut self.bytes, self.at, bytes);
        self.at = end;
        Ok(())
    }
}
