//! The memory behind a block: the one file that touches a raw pointer. Each function here has a proof by hand.
//!
//! A pointer owns nothing. The permission to the memory that it points to is a value of its own, `Memory`. No code can copy
//! or drop it, so the memory is freed at most once and not reached afterwards. No contract can say that
//! `give_back` gives it back at all; a test shows it by taking blocks that together exceed any memory.
ghost use Rattle.std.specs.Prelude.{◌≡◌, ◌<◌, ◌^◌, Some, length, slice_set, IfOk};
ghost use Rattle.std.specs.Borrow.{sem};
ghost use denote.RawPtr.{Ptr};
ghost use Rattle.block_memory.specs.Cells.{Cells, IsWritten, Holds, blank_cells};
ghost use Rattle.block_memory.specs.Ownership.{memory_owns, memory_shares};

use std::alloc::{AllocError, Allocator, Global};
use std::marker::Model;
use std::slice;

/// The permission to use the memory of a block, and to free it. It takes no space.
///
/// Its ghost fields say where the memory begins and what its cells hold.
pub struct Memory {
    ghost start: { Ptr },
    ghost cells: { Cells },
}

impl Model for Memory {
    ghost also_owns = { λ m. memory_owns m.start m.cells };

    ghost also_shares = { λ m _ κ. memory_shares m.start m.cells κ };
}

/// A block that was taken from the allocator.
pub struct Reserved {
    /// Where the block begins.
    pub start: *mut u8,
    /// The permission to its memory.
    pub memory: Memory,
}

/// Takes a block of `len` bytes, of which none was written.
pub(crate) fn reserve(alloc: &Global, len: usize) -> Result<Reserved, AllocError>
    requires { len < 2 ^ 63 }
    ensures here { IfOk result (λ r. r.memory.start ≡ r.start) }
    ensures cells { IfOk result (λ r. r.memory.cells ≡ blank_cells len) }
{
    match alloc.allocate(len, 1) {
        Ok(start) => Ok(Reserved {
            start,
            memory: Memory {},
        }),
        Err(error) => Err(error),
    }
}

/// Gives a block of `len` bytes back to the allocator, whatever stands in it.
pub(crate) fn give_back(alloc: &Global, start: *mut u8, len: usize, memory: Memory)
    requires here { start ≡ memory.start }
    requires whole { len ≡ length memory.cells }
    requires small { len < 2 ^ 63 }
{
    let Memory {} = memory;
    // SAFETY: `memory` was the right to these `len` bytes, and is gone.
    unsafe {
        alloc.deallocate(start, len, 1);
    }
}

impl Memory {
    ghost use Rattle.block_memory.specs.Lends.{lends_run};

    /// Writes one byte, `at` bytes after the start.
    #[inline(always)]
    pub(crate) fn put(&mut self, start: *mut u8, at: usize, byte: u8)
        requires here { start ≡ self.old.start }
        requires inside { at < length self.old.cells }
        ensures here { self.new.start ≡ self.old.start }
        ensures cells { self.new.cells ≡ slice_set self.old.cells at (Some byte) }
    {
        // SAFETY: the byte lies in the memory, to which `self` is the right.
        unsafe {
            *start.add(at) = byte;
        }
    }

    /// The `n` written bytes from `at` on.
    pub(crate) fn run(&self, start: *mut u8, at: usize, n: usize) -> &[u8]
        requires here { start ≡ self.now.start }
        requires written { IsWritten self.now.cells at n }
        requires small { n < 2 ^ 63 }
        ensures value { Holds self.now.cells at result.now }
        ensures len { length result.now ≡ n }
    {
        // SAFETY: the bytes lie in the memory, and were all written. They stay so while `self` is lent.
        unsafe { slice::from_raw_parts(start.add(at), n) }
    }

    /// The `n` written bytes from `at` on, to be changed.
    pub(crate) fn run_mut(&mut self, start: *mut u8, at: usize, n: usize) -> &mut [u8]
        requires here { start ≡ self.old.start }
        requires written { IsWritten self.old.cells at n }
        requires small { n < 2 ^ 63 }
        ensures* writes_back { sem 𝓛 (lends_run self.entry at n result) }
        ensures value { Holds self.old.cells at result.now }
        ensures len { length result.now ≡ n }
    {
        // SAFETY: the bytes lie in the memory, and were all written. Nothing else reaches them while `self` is lent.
        unsafe { slice::from_raw_parts_mut(start.add(at), n) }
    }
}
