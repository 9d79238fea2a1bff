//! Disks, as tapes use them.
ghost use Rattle.std.specs.Prelude.{◌≡◌, ◌+◌, ◌<◌, ◌^◌, ℕ, Bool, IsTrue, OnOk, OnErr, length};
ghost use Rattle.tape_disks.specs.Calls.{AreLast, AreReadAt, Keeps, KeepsBeside, failed};
ghost use Rattle.tape_disks.specs.Errors.{disk_faults};
ghost use Rattle.tape_disks.specs.declared.disk.DiskError.TheVariants.{NoMemory};

use std::alloc::AllocError;
use thiserror::Error;

/// Why a call of a disk failed.
#[derive(Clone, Copy, Debug, PartialEq, Eq, Error)]
pub enum DiskError {
    /// Memory ran out.
    #[error("out of memory")]
    NoMemory,
    /// The disk failed.
    #[error("the tape disk failed")]
    TapeFault,
}

impl From<AllocError> for DiskError {
    ghost from_gives = { λ _ e. e ≡ NoMemory };

    fn from(_error: AllocError) -> DiskError {
        DiskError::NoMemory
    }
}

/// A disk: bytes at places, which are numbers below 2^63.
///
/// A write that succeeds puts its bytes at its places, and is counted. One that fails is not counted, and the bytes at its places are then
/// unspecified, as if never written. A read changes neither bytes nor counter. A call that returns `TapeFault` adds one failure, and any
/// other adds none.
///
/// A disk is honest if each read that succeeds gives, at every place that was ever written, the byte last written there.
/// Honesty never changes.
pub trait TapeDisk {
    /// How often it failed, and how many writes succeeded.
    ghost failures: { Self → ℕ };

    ghost writes: { Self → ℕ };

    /// Whether it is honest.
    ghost honest: { Self → Bool };

    /// Whether a byte is the one last written at a place: the disk, the place, the byte.
    ghost last: { Self → ℕ → ℕ → Type 0 };

    /// Reads as many bytes as `bytes` has, from the place `at` on.
    fn read_at(&mut self, at: u64, bytes: &mut [u8]) -> Result<(), DiskError>
        requires { at + length bytes.old < 2 ^ 63 }
        ensures len { length bytes.new ≡ length bytes.old }
        ensures read { OnOk result (IsTrue (honest self.old) → AreReadAt (last self.old) at bytes.new) }
        ensures keeps { Keeps (last self.old) (last self.new) }
        ensures writes { writes self.new ≡ writes self.old }
        ensures failures { failures self.new ≡ failures self.old + failed disk_faults result }
        ensures honesty { honest self.new ≡ honest self.old };

    /// Writes these bytes, from the place `at` on.
    fn write_at(&mut self, at: u64, bytes: &[u8]) -> Result<(), DiskError>
        requires { at + length bytes.now < 2 ^ 63 }
        ensures written { OnOk result (AreLast (last self.new) at bytes.now) }
        ensures keeps { KeepsBeside (last self.old) (last self.new) at (length bytes.now) }
        ensures counted { OnOk result (writes self.new ≡ writes self.old + 1) }
        ensures uncounted { OnErr result (writes self.new ≡ writes self.old) }
        ensures failures { failures self.new ≡ failures self.old + failed disk_faults result }
        ensures honesty { honest self.new ≡ honest self.old };
}
