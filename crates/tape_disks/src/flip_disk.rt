//! A disk that flips bits.
ghost use Rattle.std.specs.Prelude.{◌≡◌, ◌≢◌, ◌+◌, ◌<◌, ◌^◌, false, length};
ghost use Rattle.tape_disks.specs.Disk.{IsWriteOf};
ghost use Rattle.tape_disks.specs.Faulty.{AreFlipped, ReadsFlipped};

use crate::disk::{DiskError, TapeDisk};
use crate::limits::PAGE;
use std::marker::Model;

/// A disk that returns other bytes than were written: each read flips some bits of one byte of each page of 8,192 bytes. All else
/// is the inner disk's. It takes no memory of its own, and isn't honest.
#[derive(Drop)]
pub struct FlipDisk<D: TapeDisk + Drop> {
    inner: D,
    at: u64,
    mask: u8,
}

impl<D: TapeDisk + Drop> Model for FlipDisk<D> {
    ghost use Rattle.tape_disks.specs.Faulty.{FlipState};

    ghost Value = { FlipState D };

    ghost view = { λ d. record { inner = d.inner; at = d.at; mask = d.mask } };
}

impl<D: TapeDisk + Drop> FlipDisk<D> {
    /// A disk of which byte `at` of each page is changed in each read by exclusive or with `mask`.
    pub fn new(inner: D, at: u64, mask: u8) -> FlipDisk<D>
        requires place { at < PAGE }
        requires mask { mask ≢ 0 }
        ensures { result ≡ record { inner = inner; at = at; mask = mask } }
    {
        FlipDisk { inner, at, mask }
    }

    /// The inner disk.
    pub fn inner(&self) -> &D
        ensures { result.now ≡ self.now.inner }
    {
        &self.inner
    }

    /// Reads from the disk behind, and flips the bits of the one byte of each page in what was read. The errors are
    /// those of that disk.
    pub fn read_flipped(&mut self, at: u64, bytes: &mut [u8]) -> Result<(), DiskError>
        requires { at + length bytes.old < 2 ^ 63 }
        ensures { ReadsFlipped D.TapeDisk at bytes.old bytes.new self.old result self.new }
    {
        self.inner.read_at(at, bytes)?;
        flip(self.at, self.mask, at, bytes);
        Ok(())
    }
}

/// Flips bits of the byte at one place of each page, in bytes that were read from a place on.
fn flip(at: u64, mask: u8, from: u64, bytes: &mut [u8])
    requires { from + length bytes.old < 2 ^ 63 }
    ensures len { length bytes.new ≡ length bytes.old }
    ensures flipped { AreFlipped at mask from bytes.old bytes.new }
{
    for offset in 0..bytes.len() {
        let place = from + offset as u64;
        if place % PAGE as u64 == at {
            bytes[offset] ^= mask;
        }
    }
}

impl<D: TapeDisk + Drop> TapeDisk for FlipDisk<D> {
    ghost failures = { λ d. D.TapeDisk.failures d.inner };

    ghost writes = { λ d. D.TapeDisk.writes d.inner };

    ghost honest = { λ _. false };

    ghost last = { λ d. D.TapeDisk.last d.inner };

    fn read_at(&mut self, at: u64, bytes: &mut [u8]) -> Result<(), DiskError>
        requires { at + length bytes.old < 2 ^ 63 }
        ensures { ReadsFlipped D.TapeDisk at bytes.old bytes.new self.old result self.new }
    {
        self.read_flipped(at, bytes)
    }

    fn write_at(&mut self, at: u64, bytes: &[u8]) -> Result<(), DiskError>
        requires { at + length bytes.now < 2 ^ 63 }
        ensures inner { IsWriteOf D.TapeDisk at bytes.now self.old.inner result self.new.inner }
        ensures same { (self.new.at ≡ self.old.at) × (self.new.mask ≡ self.old.mask) }
    {
        self.inner.write_at(at, bytes)
    }
}
