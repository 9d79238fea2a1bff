//! Runs of bytes, written byte for byte.
ghost use Rattle.std.specs.Prelude.{◌≡◌, ◌+◌, ◌<◌, ◌≤◌, ◌^◌, length, replicate};
ghost use Rattle.block_memory.specs.Cells.{with_bytes};

use crate::raw::Memory;

impl Memory {
    /// Writes `bytes` from `at` on.
    pub(crate) fn write(&mut self, start: *mut u8, at: usize, bytes: &[u8])
        requires here { start ≡ self.old.start }
        requires room { at + length bytes.now ≤ length self.old.cells }
        requires small { length self.old.cells < 2 ^ 63 }
        ensures here { self.new.start ≡ self.old.start }
        ensures cells { self.new.cells ≡ with_bytes self.old.cells at bytes.now }
    {
        for i in 0..bytes.len() {
            self.put(start, at + i, bytes[i]);
        }
    }

    /// Writes `n` times `byte` from `at` on.
    pub(crate) fn fill(&mut self, start: *mut u8, at: usize, n: usize, byte: u8)
        requires here { start ≡ self.old.start }
        requires room { at + n ≤ length self.old.cells }
        requires small { length self.old.cells < 2 ^ 63 }
        ensures here { self.new.start ≡ self.old.start }
        ensures cells { self.new.cells ≡ with_bytes self.old.cells at (replicate n byte) }
    {
        for i in 0..n {
            self.put(start, at + i, byte);
        }
    }
}
