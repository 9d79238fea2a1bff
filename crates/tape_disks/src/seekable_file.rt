//! Files, as a tape disk uses them.
ghost use Rattle.std.specs.Prelude.{◌≡◌, ◌+◌, ◌≤◌, ℕ, Bool, IfOk, OnOk, length};
ghost use Rattle.tape_disks.specs.Calls.{AreLast, Keeps, KeepsBeside, failed};
ghost use Rattle.tape_disks.specs.Errors.{disk_faults};
ghost use Rattle.tape_disks.specs.Files.{IsReadFrom};

use crate::disk::DiskError;

/// A file that is read and written at its current offset (POSIX: `lseek`, `read`, `write`).
///
/// It is honest if it returns what was written to it: a read that succeeds gives, at every place that was ever written, the byte last
/// written there. Only zeros were written from its end on. Honesty never changes. A call that returns `TapeFault` adds one failure, and
/// any other adds none.
pub trait SeekableFile {
    /// How often it failed.
    ghost failures: { Self → ℕ };

    /// Whether it is honest.
    ghost honest: { Self → Bool };

    /// Whether it stands at a place: the file, the place.
    ghost stands: { Self → ℕ → Type 0 };

    /// Whether a byte is the one last written at a place: the file, the place, the byte.
    ghost last: { Self → ℕ → ℕ → Type 0 };

    /// Goes to a place.
    fn go_to(&mut self, at: u64) -> Result<(), DiskError>
        ensures stands { OnOk result (stands self.new at) }
        ensures keeps { Keeps (last self.old) (last self.new) }
        ensures failures { failures self.new ≡ failures self.old + failed disk_faults result }
        ensures honesty { honest self.new ≡ honest self.old };

    /// Reads as many bytes as come at once, and as `bytes` has room for.
    fn read_some(&mut self, bytes: &mut [u8]) -> Result<usize, DiskError>
        ensures len { length bytes.new ≡ length bytes.old }
        ensures most { IfOk result (λ n. n ≤ length bytes.old) }
        ensures read { IfOk result (IsReadFrom (honest self.old) (last self.old) (stands self.old) (stands self.new) bytes.new) }
        ensures keeps { Keeps (last self.old) (last self.new) }
        ensures failures { failures self.new ≡ failures self.old + failed disk_faults result }
        ensures honesty { honest self.new ≡ honest self.old };

    /// Writes these bytes.
    fn write_these(&mut self, bytes: &[u8]) -> Result<(), DiskError>
        ensures written { OnOk result ((at : ℕ) → stands self.old at → AreLast (last self.new) at bytes.now) }
        ensures keeps { (at : ℕ) → stands self.old at → KeepsBeside (last self.old) (last self.new) at (length bytes.now) }
        ensures failures { failures self.new ≡ failures self.old + failed disk_faults result }
        ensures honesty { honest self.new ≡ honest self.old };
}
