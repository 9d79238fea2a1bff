//! A disk that fails once.
ghost use Rattle.std.specs.Prelude.{◌≡◌, ◌+◌, ◌-◌, ◌<◌, ◌^◌, ◌||◌, cond, true, false, is_err, IfErr, length};
ghost use Rattle.tape_disks.specs.Disk.{IsReadOf, IsWriteOf};
ghost use Rattle.tape_disks.specs.Faulty.{FailsOnce, is_due};
ghost use Rattle.tape_disks.specs.declared.disk.DiskError.TheVariants.{TapeFault};

use crate::disk::{DiskError, TapeDisk};
use std::marker::Model;

/// A disk that fails one call, chosen by its number: that call returns `TapeFault` and changes nothing. All else is the inner disk's. It
/// takes no memory of its own. Tests use it to fail each call once.
#[derive(Drop)]
pub struct FailDisk<D: TapeDisk + Drop> {
    inner: D,
    before: u64,
    failed: bool,
}

impl<D: TapeDisk + Drop> Model for FailDisk<D> {
    ghost use Rattle.tape_disks.specs.Faulty.{FailState};

    ghost Value = { FailState D };

    ghost view = { λ d. record { inner = d.inner; before = d.before; failed = d.failed } };
}

impl<D: TapeDisk + Drop> FailDisk<D> {
    /// A disk of which the call number `call` fails, counted from 0 over reads and writes.
    pub fn new(inner: D, call: u64) -> FailDisk<D>
        ensures { result ≡ record { inner = inner; before = call; failed = false } }
    {
        FailDisk {
            inner,
            before: call,
            failed: false,
        }
    }

    /// Whether the failing call was made.
    pub fn failed(&self) -> bool
        ensures { result ≡ self.now.failed }
    {
        self.failed
    }

    /// The inner disk.
    pub fn inner(&self) -> &D
        ensures { result.now ≡ self.now.inner }
    {
        &self.inner
    }

    /// Counts a call, and fails it if it is the one.
    fn count_call(&mut self) -> Result<(), DiskError>
        ensures due { is_err result ≡ is_due self.old }
        ensures fault { IfErr result (λ error. error ≡ TapeFault) }
        ensures failed { self.new.failed ≡ (self.old.failed || is_err result) }
        ensures counted { self.new.before ≡ self.old.before - 1 }
        ensures inner { self.new.inner ≡ self.old.inner }
    {
        if !self.failed && self.before == 0 {
            self.failed = true;
            return Err(DiskError::TapeFault);
        }
        self.before = self.before.saturating_sub(1);
        Ok(())
    }

    /// Reads from the disk behind, unless this is the call that fails: `TapeFault` then, and nothing is changed.
    pub fn read_or_fail(&mut self, at: u64, bytes: &mut [u8]) -> Result<(), DiskError>
        requires { at + length bytes.old < 2 ^ 63 }
        ensures call { FailsOnce (IsReadOf D.TapeDisk at bytes.old bytes.new) self.old result self.new }
        ensures untouched { is_due self.old ≡ true → bytes.new ≡ bytes.old }
    {
        self.count_call()?;
        self.inner.read_at(at, bytes)
    }

    /// Writes to the disk behind, unless this is the call that fails: `TapeFault` then, and nothing is changed.
    pub fn write_or_fail(&mut self, at: u64, bytes: &[u8]) -> Result<(), DiskError>
        requires { at + length bytes.now < 2 ^ 63 }
        ensures { FailsOnce (IsWriteOf D.TapeDisk at bytes.now) self.old result self.new }
    {
        self.count_call()?;
        self.inner.write_at(at, bytes)
    }
}

impl<D: TapeDisk + Drop> TapeDisk for FailDisk<D> {
    ghost failures = { λ d. D.TapeDisk.failures d.inner + cond d.failed 1 0 };

    ghost writes = { λ d. D.TapeDisk.writes d.inner };

    ghost honest = { λ d. D.TapeDisk.honest d.inner };

    ghost last = { λ d. D.TapeDisk.last d.inner };

    fn read_at(&mut self, at: u64, bytes: &mut [u8]) -> Result<(), DiskError>
        requires { at + length bytes.old < 2 ^ 63 }
        ensures call { FailsOnce (IsReadOf D.TapeDisk at bytes.old bytes.new) self.old result self.new }
        ensures untouched { is_due self.old ≡ true → bytes.new ≡ bytes.old }
    {
        self.read_or_fail(at, bytes)
    }

    fn write_at(&mut self, at: u64, bytes: &[u8]) -> Result<(), DiskError>
        requires { at + length bytes.now < 2 ^ 63 }
        ensures call { FailsOnce (IsWriteOf D.TapeDisk at bytes.now) self.old result self.new }
    {
        self.write_or_fail(at, bytes)
    }
}
