//! `Generation`: chunks one after the other, in blocks that are freed with their last chunk.
ghost use Rattle.std.specs.Prelude.{◌≡◌, ◌+◌, ◌<◌, ◌≤◌, ◌^◌, ℕ, IsTrue, IfOk, OnOk, OnErr, length, get_or, slice_set, ◌-◌};
ghost use Rattle.chunk_layout.specs.Contents.{has, same_place, contents_at, place_of, resized};
ghost use Rattle.chunk_contexts.specs.Run.{RunState};
ghost use Rattle.chunk_contexts.specs.GenerationFields.{generation_of, AreFields};

use crate::context::ChunkContext;
use crate::error::ContextError;
use crate::rooms::{BLOCK, MOST, check_len};
use crate::runs::Runs;
use chunk_layout::{ChunkName, HEADER, Place};
use std::alloc::{AllocError, Global};
use std::marker::Model;

/// A context for chunks that are freed about in the order in which they were taken: they lie one after the other, and a block is freed
/// as soon as all its chunks are.
#[derive(Drop)]
pub struct Generation {
    runs: Runs,
    counts: Vec<u32>,
}

impl Model for Generation {
    ghost Value = { RunState };

    ghost view = { generation_of };

    ghost invariant = { AreFields };
}

/// Makes room to count the chunks of one block more, if blocks are to grow.
fn make_count(counts: &mut Vec<u32>, numbers: usize, growth: u64) -> Result<(), AllocError>
    requires { numbers ≤ length counts.old.items }
    ensures same { (block : ℕ) → get_or counts.new.items block 0 ≡ get_or counts.old.items block 0 }
    ensures long { length counts.old.items ≤ length counts.new.items }
    ensures room { OnOk result (0 < growth → numbers < length counts.new.items) }
    ensures refused { OnErr result (0 < growth) }
{
    if growth == 0 || counts.len() > numbers {
        return Ok(());
    }
    counts.push(0)?;
    Ok(())
}

/// Counts one chunk more in a block.
fn count_one(counts: &mut Vec<u32>, block: u32)
    requires there { block < length counts.old.items }
    requires few { get_or counts.old.items block 0 ≤ BLOCK }
    ensures { counts.new.items ≡ slice_set counts.old.items block (get_or counts.old.items block 0 + 1) }
{
    counts[block as usize] += 1;
}

/// Counts one chunk less in a block, and returns how many are left.
fn uncount_one(counts: &mut Vec<u32>, block: u32) -> u32
    requires there { block < length counts.old.items }
    requires some { 1 ≤ get_or counts.old.items block 0 }
    ensures left { result ≡ get_or counts.old.items block 0 - 1 }
    ensures counts { counts.new.items ≡ slice_set counts.old.items block (get_or counts.old.items block 0 - 1) }
{
    counts[block as usize] -= 1;
    counts[block as usize]
}

/// Counts no chunk in any block.
fn forget_counts(counts: &mut Vec<u32>)
    ensures long { length counts.new.items ≡ length counts.old.items }
    ensures none { (block : ℕ) → get_or counts.new.items block 0 ≡ 0 }
{
    for block in 0..counts.len() {
        counts[block] = 0;
    }
}

impl Generation {
    ghost use Rattle.std.specs.Prelude.{true, false, ◌++◌, take};
    ghost use Rattle.block_memory.specs.Cells.{zeros};
    ghost use Rattle.chunk_contexts.specs.Run.{new_run, run_put};
    ghost use Rattle.chunk_contexts.specs.Generation.{gen_freed};

    /// How many bytes a chunk has room for.
    fn room(&self, place: Place) -> usize
        requires { IsTrue (has self.now.chunks place) }
        ensures { result ≡ (contents_at self.now.chunks place).room }
    {
        self.runs.layout.room(place)
    }

    /// Makes a chunk of `len` bytes `n` bytes long, where it is.
    fn stay(&mut self, place: Place, len: usize, n: usize) -> ChunkName
        requires there { IsTrue (has self.old.chunks place) }
        requires len { length (contents_at self.old.chunks place).bytes ≡ len }
        requires room { n ≤ (contents_at self.old.chunks place).room }
        requires small { n ≤ MOST }
        ensures name { result ≡ record { block = place.block; offset = place.offset; len = n } }
        ensures put { self.new ≡ run_put self.old place (resized (contents_at self.old.chunks place).bytes n) }
    {
        self.runs.layout.resize(place, len, n);
        place.named(n)
    }

    /// Gives a chunk the bytes of another, of which there are `len`, as far as `n`, and zeros after these.
    fn fill(&mut self, from: Place, len: usize, to: Place, n: usize)
        requires apart { same_place from to ≡ false }
        requires from { IsTrue (has self.old.chunks from) }
        requires to { IsTrue (has self.old.chunks to) }
        requires len { length (contents_at self.old.chunks from).bytes ≡ len }
        requires room { n ≤ (contents_at self.old.chunks to).room }
        ensures { self.new ≡ run_put self.old to (resized (contents_at self.old.chunks from).bytes n) }
    {
        self.runs.layout.copy_resized(from, len, to, n);
    }

    /// Gives a chunk up, and its block if that was the last one.
    fn release(&mut self, place: Place)
        requires { IsTrue (has self.old.chunks place) }
        ensures { self.new ≡ gen_freed self.old place }
    {
        self.runs.layout.forget(place);
        if uncount_one(&mut self.counts, place.block) > 0 {
            return;
        }
        self.runs.layout.give_back(place.block);
        self.runs.active = self.runs.active.without(place.block);
    }

    /// Makes a context with no block.
    pub fn new(alloc: Global) -> Generation
        ensures { result ≡ new_run }
    {
        Generation {
            runs: Runs::new(alloc, true),
            counts: Vec::new(alloc),
        }
    }
}

impl ChunkContext for Generation {
    ghost use Rattle.std.specs.Prelude.{true};
    ghost use Rattle.chunk_contexts.specs.Rooms.{rounded, over_most};
    ghost use Rattle.chunk_contexts.specs.Run.{run_growth, run_taken, run_wrote, run_put, run_reset, IsBlockOf};
    ghost use Rattle.chunk_contexts.specs.Generation.{gen_freed};
    ghost use Rattle.chunk_layout.specs.declared.blocks.TheConstants.{HEADER};

    ghost chunks = { λ s. s.chunks };

    ghost blocks = { λ s. s.blocks };

    ghost room = { λ s n. rounded n };

    ghost refusal = { λ s n. over_most n };

    ghost growth = { run_growth HEADER };

    ghost frees = { λ s. true };

    ghost may_lie = { λ s n block. IsBlockOf s (run_growth HEADER s n) block };

    ghost taken = { λ s n p. run_taken HEADER s p };

    ghost wrote = { run_wrote };

    ghost put = { run_put };

    ghost freed = { gen_freed };

    ghost emptied = { run_reset };

    #[tactic(auto, using(crate::proofs::Content::adding))]
    fn alloc(&mut self, bytes: &[u8]) -> Result<ChunkName, ContextError> {
        let growth = self.runs.growth(HEADER, bytes.len());
        make_count(
            &mut self.counts,
            self.runs.layout.numbers() as usize,
            growth,
        )?;
        let name = self.runs.alloc(HEADER, bytes)?;
        count_one(&mut self.counts, name.block);
        Ok(name)
    }

    #[tactic(auto, using(crate::proofs::Content::adding))]
    fn alloc_zeroed(&mut self, n: u32) -> Result<ChunkName, ContextError> {
        let growth = self.runs.growth(HEADER, n as usize);
        make_count(
            &mut self.counts,
            self.runs.layout.numbers() as usize,
            growth,
        )?;
        let name = self.runs.alloc_zeroed(HEADER, n)?;
        count_one(&mut self.counts, name.block);
        Ok(name)
    }

    fn get(&self, name: ChunkName) -> &[u8] {
        self.runs.layout.get(name.place(), name.len as usize)
    }

    fn get_mut(&mut self, name: ChunkName) -> &mut [u8] {
        self.runs.layout.get_mut(name.place(), name.len as usize)
    }

    fn free(&mut self, name: ChunkName) -> Result<(), ContextError> {
        self.release(name.place());
        Ok(())
    }

    fn resize(&mut self, name: ChunkName, n: u32) -> Result<ChunkName, ContextError> {
        let len = n as usize;
        check_len(len)?;
        let place = name.place();
        if len <= self.room(place) {
            return Ok(self.stay(place, name.len as usize, len));
        }
        let moved = self.alloc_zeroed(n)?;
        self.fill(place, name.len as usize, moved.place(), len);
        self.release(place);
        Ok(moved)
    }

    fn reset(&mut self) {
        self.runs.clear();
        forget_counts(&mut self.counts);
    }

    fn held(&self) -> u64 {
        self.runs.layout.held()
    }

    fn growth_for(&self, n: u32) -> u64 {
        self.runs.growth(HEADER, n as usize)
    }

    fn growth_to(&self, name: ChunkName, n: u32) -> u64 {
        if n as usize <= self.room(name.place()) {
            return 0;
        }
        self.growth_for(n)
    }

    fn are_laid(&self) {
        self.runs.layout.are_laid();
    }
}
