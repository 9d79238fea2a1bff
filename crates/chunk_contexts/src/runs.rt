//! Chunks that lie one after the other in blocks.
ghost use Rattle.std.specs.Prelude.{◌≡◌, ℕ, ◌+◌, ◌-◌, ◌<◌, ◌≤◌, ◌^◌, ◌++◌, if◌then◌else◌, true, false, [], ◌∷◌, Some, None, IsTrue, IfOk};
ghost use Rattle.std.specs.Prelude.{OnOk, IfErr, OnErr, length, get_or, take};
ghost use Rattle.block_memory.specs.Cells.{zeros};
ghost use Rattle.chunk_layout.specs.Contents.{has, contents_at, total, with_block};
ghost use Rattle.chunk_contexts.specs.Rooms.{rounded, over_most};
ghost use Rattle.chunk_contexts.specs.Chunks.{chunk_of, Adds, IsRefused};
ghost use Rattle.chunk_layout.specs.declared.blocks.TheConstants.{HEADER};

use crate::active::Active;
use crate::error::ContextError;
use crate::rooms::{BLOCK, MOST, check_len, rounded};
use chunk_layout::{ChunkLayout, ChunkName, Place};
use std::alloc::{AllocError, Global};

/// A layout of which chunks are cut from one block at a time.
#[derive(Drop)]
pub struct Runs {
    pub(crate) layout: ChunkLayout,
    pub(crate) active: Active,
}

impl Runs {
    ghost use Rattle.chunk_contexts.specs.Run.{new_run, run_growth, run_taken, run_put, run_of, run_reset, IsBlockOf, IsRun};

    /// Makes a layout with no block.
    pub(crate) fn new(alloc: Global, headers: bool) -> Runs
        ensures state { run_of result ≡ new_run }
        ensures run { IsRun (if headers then HEADER else 0) result }
    {
        Runs {
            layout: ChunkLayout::new(alloc, headers),
            active: Active::NONE,
        }
    }

    /// Makes a chunk of no bytes in a block of its own.
    fn own(&mut self, head: usize, room: usize) -> Result<Place, AllocError>
        requires run { IsRun head self.old }
        requires head { head ≤ HEADER }
        requires room { 1 ≤ room }
        requires small { room ≤ MOST + 8 }
        ensures run { IsRun head self.new }
        ensures made { IfOk result (λ place. run_of self.new
            ≡ record {
              chunks = (record { place = place; room = room; is_live = true; bytes = [] })
                  ∷ (run_of self.old).chunks;
              blocks = with_block (run_of self.old).blocks place.block (head + room);
              active =
                  (run_of self.old).active;
              left = (run_of self.old).left;
            }) }
        ensures fresh { IfOk result (λ place. has self.old.layout.contents place ≡ false) }
        ensures vacant { IfOk result (λ place. get_or self.old.layout.blocks place.block None ≡ None) }
        ensures held { OnOk result (total self.new.layout.blocks ≡ total self.old.layout.blocks + (head + room)) }
        ensures refused { OnErr result (self.new ≡ self.old) }
    {
        let block = self.layout.take_block(head + room)?;
        let place = Place {
            block,
            offset: head as u32,
        };
        self.layout.carve(place, room);
        Ok(place)
    }

    /// Takes a block, which is then in use.
    fn start(&mut self, head: usize) -> Result<(), AllocError>
        requires run { IsRun head self.old }
        requires head { head ≤ HEADER }
        ensures run { IsRun head self.new }
        ensures started { OnOk result (run_of self.new
            ≡ record {
              chunks = (run_of self.old).chunks;
              blocks = with_block (run_of self.old).blocks self.new.active.block BLOCK;
              active =
                  self.new.active.block;
              left = BLOCK;
            }) }
        ensures vacant { OnOk result (get_or self.old.layout.blocks self.new.active.block None ≡ None) }
        ensures held { OnOk result (total self.new.layout.blocks ≡ total self.old.layout.blocks + BLOCK) }
        ensures refused { OnErr result (self.new ≡ self.old) }
    {
        let block = self.layout.take_block(BLOCK)?;
        self.active = Active {
            block,
            used: 0,
            size: BLOCK,
        };
        Ok(())
    }

    /// Makes a chunk of no bytes in the block in use.
    fn append(&mut self, head: usize, room: usize) -> Place
        requires run { IsRun head self.old }
        requires head { head ≤ HEADER }
        requires room { 1 ≤ room }
        requires fits { head + room ≤ (run_of self.old).left }
        ensures run { IsRun head self.new }
        ensures block { result.block ≡ self.old.active.block }
        ensures made { run_of self.new ≡ record {
          chunks = (record { place = result; room = room; is_live = true; bytes = [] })
              ∷ (run_of self.old).chunks;
          blocks = (run_of self.old).blocks;
          active = (run_of self.old).active;
          left = (run_of self.old).left
              - (head + room);
        } }
        ensures fresh { has self.old.layout.contents result ≡ false }
    {
        self.active.carve(&mut self.layout, head, room)
    }

    /// Makes a chunk of no bytes, with room for `n`.
    pub(crate) fn claim(&mut self, head: usize, n: usize) -> Result<Place, AllocError>
        requires run { IsRun head self.old }
        requires head { head ≤ HEADER }
        requires small { n ≤ MOST }
        ensures run { IsRun head self.new }
        ensures taken { IfOk result (λ place. run_of self.new
            ≡ run_taken head (run_of self.old) (record { place = place; room = rounded n; is_live = true; bytes = [] })) }
        ensures fresh { IfOk result (λ place. has self.old.layout.contents place ≡ false) }
        ensures room { OnOk result (n ≤ rounded n) }
        ensures held { OnOk result (total self.new.layout.blocks ≡ total self.old.layout.blocks + run_growth head (run_of self.old) n) }
        ensures block { IfOk result (λ made. IsBlockOf (run_of self.old) (run_growth head (run_of self.old) n) made.block) }
        ensures refused { OnErr result ((self.new ≡ self.old) × (0 < run_growth head (run_of self.old) n)) }
    {
        let room = rounded(n);
        if head + room > BLOCK {
            return self.own(head, room);
        }
        if head + room <= self.active.left() {
            return Ok(self.append(head, room));
        }
        self.start(head)?;
        Ok(self.append(head, room))
    }

    /// Gives up all chunks, and all blocks.
    pub(crate) fn clear(&mut self)
        ensures run { (head : ℕ) → IsRun head self.old → IsRun head self.new }
        ensures state { run_of self.new ≡ run_reset (run_of self.old) }
    {
        self.layout.clear(None);
        self.active = Active::NONE;
    }

    /// How many bytes of blocks `claim` would take.
    pub(crate) fn growth(&self, head: usize, n: usize) -> u64
        requires run { IsRun head self.now }
        requires head { head ≤ HEADER }
        ensures { result ≡ run_growth head (run_of self.now) n }
    {
        if n > MOST {
            return 0;
        }
        let size = head + rounded(n);
        if size > BLOCK {
            return size as u64;
        }
        if size <= self.active.left() {
            return 0;
        }
        BLOCK as u64
    }

    /// Takes a chunk that holds `bytes`.
    pub(crate) fn alloc(&mut self, head: usize, bytes: &[u8]) -> Result<ChunkName, ContextError>
        requires run { IsRun head self.old }
        requires head { head ≤ HEADER }
        ensures run { IsRun head self.new }
        ensures admitted { OnOk result (over_most (length bytes.now) ≡ None) }
        ensures added { IfOk result (λ name. Adds (run_of self.old).chunks (run_of self.new).chunks name (rounded (length bytes.now))
            (bytes.now)) }
        ensures space { IfOk result (λ name. run_of self.new
            ≡ run_taken head (run_of self.old) (chunk_of name (rounded (length bytes.now)) (bytes.now))) }
        ensures grown { OnOk result (total (run_of self.new).blocks ≡ total (run_of self.old).blocks
            + run_growth head (run_of self.old) (length bytes.now)) }
        ensures block { IfOk result (λ made. IsBlockOf (run_of self.old) (run_growth head (run_of self.old)
            (length bytes.now)) made.block) }
        ensures refused { IfErr result (IsRefused (over_most (length bytes.now)) (run_growth head (run_of self.old) (length bytes.now))) }
        ensures unchanged { OnErr result (self.new ≡ self.old) }
    {
        check_len(bytes.len())?;
        let place = self.claim(head, bytes.len())?;
        self.layout.put(place, 0, bytes, true);
        Ok(place.named(bytes.len()))
    }

    /// Takes a chunk of `n` zeros.
    pub(crate) fn alloc_zeroed(&mut self, head: usize, n: u32) -> Result<ChunkName, ContextError>
        requires run { IsRun head self.old }
        requires head { head ≤ HEADER }
        ensures run { IsRun head self.new }
        ensures admitted { OnOk result (over_most (n) ≡ None) }
        ensures added { IfOk result (λ name. Adds (run_of self.old).chunks (run_of self.new).chunks name (rounded (n)) (zeros n)) }
        ensures space { IfOk result (λ name. run_of self.new ≡ run_taken head (run_of self.old) (chunk_of name (rounded (n)) (zeros n))) }
        ensures grown { OnOk result (total (run_of self.new).blocks ≡ total (run_of self.old).blocks
            + run_growth head (run_of self.old) (n)) }
        ensures block { IfOk result (λ made. IsBlockOf (run_of self.old) (run_growth head (run_of self.old) n) made.block) }
        ensures refused { IfErr result (IsRefused (over_most (n)) (run_growth head (run_of self.old) (n))) }
        ensures unchanged { OnErr result (self.new ≡ self.old) }
    {
        let len = n as usize;
        check_len(len)?;
        let place = self.claim(head, len)?;
        self.layout.put_zeros(place, 0, len);
        Ok(place.named(len))
    }
}
