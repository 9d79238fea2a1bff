//! A block of memory, seen as the list of its cells.
ghost use Rattle.std.specs.Prelude.{◌≡◌, ◌+◌, ◌<◌, ◌≤◌, ◌^◌, length, IfOk};
ghost use Rattle.std.specs.Borrow.{sem};
ghost use Rattle.block_memory.specs.Cells.{IsWritten, Holds, blank_cells, with_bytes, zeros};
ghost use Rattle.block_memory.specs.Words.{word_bytes};
ghost use Rattle.block_memory.specs.BlockLends.{lends_bytes};

use crate::raw::{Memory, Reserved, give_back, reserve};
use std::alloc::{AllocError, Global};
use std::marker::Model;

/// The longest block that the allocator gives, in bytes.
const MAX_LEN: usize = 0x7fff_ffff_ffff_ffff;

/// The word of eight bytes, of which the first is the highest.
fn word_of(bytes: &[u8]) -> u64
    requires { length bytes.now ≡ 8 }
    ensures { word_bytes result ≡ bytes.now }
{
    u64::from_be_bytes([
        bytes[0], bytes[1], bytes[2], bytes[3], bytes[4], bytes[5], bytes[6], bytes[7],
    ])
}

/// A block of memory from the allocator, of at least one byte.
///
/// Contracts see it as the list of its cells: `None` for a byte that was not written yet, and `Some` of one that was.
/// Only written bytes can be read, and a written byte stays written. Places and lengths count bytes. Only `new` takes
/// memory, and the block is returned to the allocator when the value is dropped.
pub struct RawBlock {
    start: *mut u8,
    len: usize,
    memory: Memory,
    alloc: Global,
}

impl Model for RawBlock {
    ghost use Rattle.std.specs.Coded.{coded_list, coded_option, coded_ℕ};
    ghost use Rattle.block_memory.specs.Cells.{Cells};
    ghost use Rattle.block_memory.specs.Fields.{IsBlockMemory};

    ghost Value = { Cells };

    ghost coded = { coded_list (coded_option coded_ℕ) };

    ghost view = { λ b. b.memory.cells };

    ghost invariant = { λ b. IsBlockMemory b.start b.len b.memory };
}

impl RawBlock {
    /// Takes a block of `len` bytes, all uninitialized.
    ///
    /// The error is out of memory, as is any request for 2^63 bytes or more.
    pub fn new(alloc: Global, len: usize) -> Result<RawBlock, AllocError>
        requires { 1 ≤ len }
        ensures unwritten { IfOk result (λ b. b ≡ blank_cells len) }
        ensures len { IfOk result (λ b. length b ≡ len) }
        ensures small { IfOk result (λ _. len < 2 ^ 63) }
    {
        if MAX_LEN < len {
            return Err(AllocError);
        }
        let Reserved { start, memory } = reserve(&alloc, len)?;
        Ok(RawBlock {
            start,
            len,
            memory,
            alloc,
        })
    }

    /// How many bytes the block has, written or not.
    pub fn len(&self) -> usize
        ensures value { result ≡ length self.now }
        ensures not_empty { 1 ≤ result }
        ensures small { result < 2 ^ 63 }
    {
        self.len
    }

    /// Reads the `n` bytes from `at` on, which were all written.
    pub fn bytes(&self, at: usize, n: usize) -> &[u8]
        requires { IsWritten self.now at n }
        ensures value { Holds self.now at result.now }
        ensures len { length result.now ≡ n }
    {
        self.memory.run(self.start, at, n)
    }

    /// Lends the `n` bytes from `at` on, which were all written, to be changed. The other bytes stay as they are.
    pub fn bytes_mut(&mut self, at: usize, n: usize) -> &mut [u8]
        requires { IsWritten self.old at n }
        ensures* writes_back { sem 𝓛 (lends_bytes self.entry at n result) }
        ensures value { Holds self.old at result.now }
        ensures len { length result.now ≡ n }
    {
        let start = self.start;
        self.memory.run_mut(start, at, n)
    }

    /// Writes `src` from `at` on, over whatever is there. The other bytes stay as they are.
    pub fn copy_in(&mut self, at: usize, src: &[u8])
        requires { at + length src.now ≤ length self.old }
        ensures written { self.new ≡ with_bytes self.old at src.now }
        ensures len { length self.new ≡ length self.old }
    {
        let start = self.start;
        self.memory.write(start, at, src);
    }

    /// Writes `n` zeros from `at` on. The other bytes stay as they are.
    pub fn zero(&mut self, at: usize, n: usize)
        requires { at + n ≤ length self.old }
        ensures written { self.new ≡ with_bytes self.old at (zeros n) }
        ensures len { length self.new ≡ length self.old }
    {
        let start = self.start;
        self.memory.fill(start, at, n, 0);
    }

    /// Reads the word whose eight bytes begin at `at`, the highest byte first. They were all written.
    pub fn word(&self, at: usize) -> u64
        requires { IsWritten self.now at 8 }
        ensures { Holds self.now at (word_bytes result) }
    {
        word_of(self.bytes(at, 8))
    }

    /// Writes the eight bytes of `word` from `at` on, the highest byte first. The other bytes stay as they are.
    pub fn set_word(&mut self, at: usize, word: u64)
        requires { at + 8 ≤ length self.old }
        ensures written { self.new ≡ with_bytes self.old at (word_bytes word) }
        ensures len { length self.new ≡ length self.old }
    {
        let bytes = word.to_be_bytes();
        self.copy_in(at, &bytes);
    }
}

impl Drop for RawBlock {
    fn drop(self) {
        let RawBlock {
            start,
            len,
            memory,
            alloc,
        } = self;
        give_back(&alloc, start, len, memory);
    }
}
