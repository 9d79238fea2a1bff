//! Chunks of one size, in blocks that are freed as soon as all their chunks are free.
ghost use Rattle.std.specs.Prelude.{◌≡◌, ◌≢◌, ℕ, ◌+◌, ◌*◌, ◌-◌, ◌<◌, ◌≤◌, ◌^◌, true, false, [], ◌∷◌, ◌++◌, Some, None, IsTrue, is_some};
ghost use Rattle.std.specs.Prelude.{IfOk, OnOk, OnErr, length, get_or};
ghost use Rattle.block_memory.specs.Cells.{zeros};
ghost use Rattle.chunk_layout.specs.Contents.{has, total, with_block};
ghost use Rattle.chunk_contexts.specs.Chunks.{chunk_of, live, Adds, IsNewBlock};
ghost use Rattle.chunk_contexts.specs.Rooms.{rounded};
ghost use Rattle.chunk_contexts.specs.Slab.{per_block, slab_block, no_block, new_slab, slab_of, slab_grows, slab_taken, slab_freed};
ghost use Rattle.chunk_contexts.specs.Slab.{slab_reset, IsSlabLayout, IsEntry, AreChunks};

use crate::rooms::{BLOCK, MOST, rounded};
use chunk_layout::{BlockMarks, ChunkLayout, ChunkName, HEADER, Place, put_first, take_first};
use std::alloc::{AllocError, Global};

/// How many numbers of blocks there may be.
const MAX_NUMBERS: usize = 0xffff_ffff;

/// What is kept of the block of a number.
#[derive(Clone, Copy)]
pub struct SlabBlock {
    /// The chunk that was freed last, of those that are free since.
    pub(crate) free: Option<Place>,
    /// How many chunks were cut from it, and how many of these are live.
    pub(crate) cut: usize,
    pub(crate) live: usize,
}

/// What is kept of a number without a block.
const NO_BLOCK: SlabBlock = SlabBlock {
    free: None,
    cut: 0,
    live: 0,
};

/// A layout of chunks of one size, and what is kept of its blocks. Those that have a free chunk are marked.
#[derive(Drop)]
pub struct SlabChunks {
    pub(crate) layout: ChunkLayout,
    pub(crate) blocks: Vec<SlabBlock>,
    pub(crate) spare: BlockMarks,
    pub(crate) size: usize,
    pub(crate) per: usize,
}

/// The size of a block for chunks of this room.
fn slab_block(room: usize) -> usize
    requires { room ≤ MOST + 8 }
    ensures { result ≡ slab_block room }
{
    BLOCK.max(HEADER + room)
}

/// How many chunks of this room a block has.
#[tactic(auto, unfolding(crate::specs::Slab::per_block))]
fn per_block(room: usize) -> usize
    requires { room ≤ MOST + 8 }
    ensures { result ≡ per_block room }
{
    slab_block(room) / (HEADER + room)
}

/// Makes a chunk of no bytes in a block that has a free one: the one that was freed last, else the next to be cut.
fn take_chunk(layout: &mut ChunkLayout, entry: &mut SlabBlock, block: u32, size: usize) -> Place
    requires layout { IsSlabLayout size layout.old }
    requires small { size ≤ MOST }
    requires there { IsTrue (is_some (get_or layout.old.blocks block None)) }
    requires entry { IsEntry layout.old.contents block entry.old }
    requires spare { entry.old.live < per_block (rounded size) }
    ensures layout { IsSlabLayout size layout.new }
    ensures entry { IsEntry layout.new.contents block entry.new }
    ensures others { (k : ℕ) → k ≢ block → (e : SlabBlock) → IsEntry layout.old.contents k e → IsEntry layout.new.contents k e }
    ensures count { entry.new.live ≡ entry.old.live + 1 }
    ensures blocks { layout.new.blocks ≡ layout.old.blocks }
    ensures taken { live layout.new.contents ≡ (record { place = result; room = rounded size; is_live = true; bytes = [] })
        ∷ live layout.old.contents }
    ensures fresh { has (live layout.old.contents) result ≡ false }
    ensures block { result.block ≡ block }
{
    let mut free = entry.free;
    if let Some(place) = take_first(layout, &mut free) {
        entry.free = free;
        entry.live += 1;
        return place;
    }
    let room = rounded(size);
    let place = Place {
        block,
        offset: (entry.cut * (HEADER + room) + HEADER) as u32,
    };
    layout.carve(place, room);
    entry.cut += 1;
    entry.live += 1;
    place
}

/// Makes room to keep something of one block more.
fn make_entry(blocks: &mut Vec<SlabBlock>, numbers: usize) -> Result<(), AllocError>
    requires { numbers ≤ length blocks.old.items }
    ensures same { (k : ℕ) → get_or blocks.new.items k no_block ≡ get_or blocks.old.items k no_block }
    ensures long { length blocks.old.items ≤ length blocks.new.items }
    ensures room { OnOk result (numbers < length blocks.new.items) }
{
    if blocks.len() > numbers {
        return Ok(());
    }
    blocks.push(NO_BLOCK)?;
    Ok(())
}

/// Makes room for the mark of one block more.
fn make_mark(spare: &mut BlockMarks, numbers: usize) -> Result<(), AllocError>
    requires { numbers ≤ length spare.old }
    ensures same { (k : ℕ) → get_or spare.new k false ≡ get_or spare.old k false }
    ensures long { length spare.old ≤ length spare.new }
    ensures room { OnOk result (numbers < length spare.new) }
{
    if spare.len() > numbers {
        return Ok(());
    }
    if numbers >= MAX_NUMBERS {
        return Err(AllocError);
    }
    spare.add()
}

/// Keeps nothing of any block.
fn forget_entries(blocks: &mut Vec<SlabBlock>)
    ensures long { length blocks.new.items ≡ length blocks.old.items }
    ensures none { (k : ℕ) → get_or blocks.new.items k no_block ≡ no_block }
{
    for block in 0..blocks.len() {
        blocks[block] = NO_BLOCK;
    }
}

impl SlabChunks {
    /// Makes a layout of no block.
    pub(crate) fn new(alloc: Global, size: usize) -> SlabChunks
        requires { size ≤ MOST }
        ensures chunks { AreChunks result }
        ensures state { slab_of result ≡ new_slab size }
    {
        SlabChunks {
            layout: ChunkLayout::new(alloc, true),
            blocks: Vec::new(alloc),
            spare: BlockMarks::new(alloc),
            size,
            per: per_block(rounded(size)),
        }
    }

    /// Takes a block, of which all chunks are free.
    fn grow(&mut self) -> Result<u32, AllocError>
        requires chunks { AreChunks self.old }
        ensures chunks { AreChunks self.new }
        ensures vacant { IfOk result (λ block. get_or (slab_of self.old).blocks block None ≡ None) }
        ensures grown { IfOk result (λ block. slab_of self.new
            ≡ record {
              size = self.old.size;
              chunks = (slab_of self.old).chunks;
              blocks = with_block (slab_of self.old).blocks block
                  (slab_block (rounded self.old.size));
            }) }
        ensures spare { IfOk result (λ block. get_or self.new.spare block false ≡ true) }
        ensures refused { OnErr result (slab_of self.new ≡ slab_of self.old) }
    {
        let numbers = self.layout.numbers() as usize;
        make_entry(&mut self.blocks, numbers)?;
        make_mark(&mut self.spare, numbers)?;
        let block = self.layout.take_block(slab_block(rounded(self.size)))?;
        self.spare.mark(block);
        Ok(block)
    }

    /// Makes a chunk of no bytes in a block that has a free one.
    fn take(&mut self, block: u32) -> Place
        requires chunks { AreChunks self.old }
        requires spare { get_or self.old.spare block false ≡ true }
        ensures chunks { AreChunks self.new }
        ensures taken { slab_of self.new
            ≡ record {
              size = self.old.size;
              chunks = (record { place = result; room = rounded self.old.size; is_live = true; bytes = [] })
                  ∷ (slab_of self.old).chunks;
              blocks = (slab_of self.old).blocks;
            } }
        ensures fresh { has (slab_of self.old).chunks result ≡ false }
        ensures block { result.block ≡ block }
    {
        let mut entry = self.blocks[block as usize];
        let place = take_chunk(&mut self.layout, &mut entry, block, self.size);
        self.blocks[block as usize] = entry;
        if entry.live < self.per {
            return place;
        }
        self.spare.unmark(block);
        place
    }

    /// Makes a chunk of no bytes: in a block that has a free one, else in a new block.
    fn claim(&mut self) -> Result<Place, AllocError>
        requires chunks { AreChunks self.old }
        ensures chunks { AreChunks self.new }
        ensures taken { IfOk result (λ place. slab_of self.new
            ≡ slab_taken (slab_of self.old) (record { place = place; room = rounded self.old.size; is_live = true; bytes = [] })) }
        ensures fresh { IfOk result (λ place. has (slab_of self.old).chunks place ≡ false) }
        ensures lies { IfOk result (λ place. IsNewBlock (slab_grows (slab_of self.old)) (slab_of self.old).blocks place.block) }
        ensures grown { OnOk result (total (slab_of self.new).blocks ≡ total (slab_of self.old).blocks + slab_grows (slab_of self.old)) }
        ensures refused { OnErr result ((slab_of self.new ≡ slab_of self.old) × (0 < slab_grows (slab_of self.old))) }
    {
        if let Some(block) = self.spare.first() {
            return Ok(self.take(block));
        }
        let block = self.grow()?;
        Ok(self.take(block))
    }

    /// Takes a chunk that holds `bytes`.
    pub(crate) fn alloc(&mut self, bytes: &[u8]) -> Result<ChunkName, AllocError>
        requires chunks { AreChunks self.old }
        requires size { length bytes.now ≡ self.old.size }
        ensures chunks { AreChunks self.new }
        ensures added { IfOk result (λ name. Adds (slab_of self.old).chunks (slab_of self.new).chunks name (rounded self.old.size)
            bytes.now) }
        ensures taken { IfOk result (λ name. slab_of self.new
            ≡ slab_taken (slab_of self.old) (chunk_of name (rounded self.old.size) bytes.now)) }
        ensures lies { IfOk result (λ name. IsNewBlock (slab_grows (slab_of self.old)) (slab_of self.old).blocks name.block) }
        ensures grown { OnOk result (total (slab_of self.new).blocks ≡ total (slab_of self.old).blocks + slab_grows (slab_of self.old)) }
        ensures refused { OnErr result ((slab_of self.new ≡ slab_of self.old) × (0 < slab_grows (slab_of self.old))) }
    {
        let place = self.claim()?;
        self.layout.put(place, 0, bytes, true);
        Ok(place.named(bytes.len()))
    }

    /// Takes a chunk of zeros.
    pub(crate) fn alloc_zeroed(&mut self) -> Result<ChunkName, AllocError>
        requires chunks { AreChunks self.old }
        ensures chunks { AreChunks self.new }
        ensures added { IfOk result (λ name. Adds (slab_of self.old).chunks (slab_of self.new).chunks name (rounded self.old.size)
            (zeros self.old.size)) }
        ensures taken { IfOk result (λ name. slab_of self.new
            ≡ slab_taken (slab_of self.old) (chunk_of name (rounded self.old.size) (zeros self.old.size))) }
        ensures lies { IfOk result (λ name. IsNewBlock (slab_grows (slab_of self.old)) (slab_of self.old).blocks name.block) }
        ensures grown { OnOk result (total (slab_of self.new).blocks ≡ total (slab_of self.old).blocks + slab_grows (slab_of self.old)) }
        ensures refused { OnErr result ((slab_of self.new ≡ slab_of self.old) × (0 < slab_grows (slab_of self.old))) }
    {
        let place = self.claim()?;
        self.layout.put_zeros(place, 0, self.size);
        Ok(place.named(self.size))
    }

    /// Gives a chunk up, and its block if no other chunk of it is live.
    pub(crate) fn release(&mut self, place: Place)
        requires chunks { AreChunks self.old }
        requires there { IsTrue (has (slab_of self.old).chunks place) }
        ensures chunks { AreChunks self.new }
        ensures freed { slab_of self.new ≡ slab_freed (slab_of self.old) place }
    {
        let block = place.block;
        let mut entry = self.blocks[block as usize];
        if entry.live == 1 {
            self.layout.give_back(block);
            self.blocks[block as usize] = NO_BLOCK;
            self.spare.unmark(block);
            return;
        }
        let mut free = entry.free;
        put_first(&mut self.layout, &mut free, place);
        entry.free = free;
        entry.live -= 1;
        self.blocks[block as usize] = entry;
        self.spare.mark(block);
    }

    /// Gives up all chunks, and all blocks.
    pub(crate) fn clear(&mut self)
        requires chunks { AreChunks self.old }
        ensures chunks { AreChunks self.new }
        ensures state { slab_of self.new ≡ slab_reset (slab_of self.old) }
    {
        self.layout.clear(None);
        forget_entries(&mut self.blocks);
        self.spare.clear();
    }

    /// How many bytes of blocks one more chunk would take.
    pub(crate) fn growth(&self) -> u64
        requires { AreChunks self.now }
        ensures { result ≡ slab_grows (slab_of self.now) }
    {
        if self.spare.first().is_some() {
            return 0;
        }
        slab_block(rounded(self.size)) as u64
    }
}
