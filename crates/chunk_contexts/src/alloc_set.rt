//! `AllocSet`: chunks by classes, with a free list for each.
ghost use Rattle.std.specs.Prelude.{◌≡◌, ◌+◌, ◌*◌, ◌-◌, ◌<◌, ◌≤◌, ◌^◌, min, true, false, [], ◌∷◌, Some, None, IsTrue, IfSome, IfNone, IfOk};
ghost use Rattle.std.specs.Prelude.{OnOk, OnErr, IfErr, length, get_or, is_some, nat_le, take, ◌++◌};
ghost use Rattle.block_memory.specs.Cells.{zeros};
ghost use Rattle.chunk_layout.specs.Contents.{has, same_place, place_of, contents_at, total, with_block, resized};
ghost use Rattle.chunk_contexts.specs.Rooms.{rounded, rooms, room_of};
ghost use Rattle.chunk_contexts.specs.Chunks.{chunk_of, IsNewBlock};
ghost use Rattle.chunk_contexts.specs.Free.{is_in};
ghost use Rattle.chunk_contexts.specs.Set.{new_set, set_growth, set_room, block_size, grown, carved, reused, dedicated, set_taken};
ghost use Rattle.chunk_contexts.specs.Set.{set_freed, set_put, set_reset, SetState};
ghost use Rattle.chunk_contexts.specs.SetRules.{GrowsByRule};
ghost use Rattle.chunk_contexts.specs.SetFields.{set_of, AreFields};

use crate::active::Active;
use crate::context::ChunkContext;
use crate::error::ContextError;
use crate::free_lists::FreeLists;
use crate::rooms::{
    BLOCK, CLASSES, LARGEST, LARGEST_BLOCK, MOST, check_len, class_of, room_of, rounded,
};
use chunk_layout::{ChunkLayout, ChunkName, HEADER, Place};
use std::alloc::{AllocError, Global};
use std::marker::Model;

/// A context for chunks of any size, which are freed one by one.
#[derive(Drop)]
pub struct AllocSet {
    lists: FreeLists,
    active: Active,
    next: usize,
    first: Option<u32>,
}

impl Model for AllocSet {
    ghost Value = { SetState };

    ghost view = { set_of };

    ghost invariant = { AreFields };
}

/// The size of a new block for a chunk of this room.
fn block_size(next: usize, room: usize) -> usize
    requires next { next ≤ LARGEST_BLOCK }
    requires least { BLOCK ≤ next }
    requires room { room ≤ LARGEST }
    ensures value { result ≡ block_size next room }
    ensures room { room + HEADER ≤ result }
    ensures small { result ≤ LARGEST_BLOCK }
{
    if room + HEADER <= next {
        next
    } else {
        2 * next
    }
}

impl AllocSet {
    /// Makes a context with no block.
    pub fn new(alloc: Global) -> AllocSet
        ensures { result ≡ new_set }
    {
        AllocSet {
            lists: FreeLists {
                layout: ChunkLayout::new(alloc, true),
                heads: [None; CLASSES],
            },
            active: Active::NONE,
            next: BLOCK,
            first: None,
        }
    }

    /// How many bytes of the block in use are left.
    fn left(&self) -> usize
        ensures { result ≡ self.now.left }
    {
        self.active.left()
    }

    /// Takes the first free chunk of a class, if there is one. It has no bytes then.
    fn reuse(&mut self, class: usize) -> Option<Place>
        requires { class < CLASSES }
        ensures some { IfSome result (λ place. (is_in (room_of class) self.old.free ≡ true)
            × (self.new ≡ reused self.old (record { place = place; room = room_of class; is_live = true; bytes = [] }))) }
        ensures fresh { IfSome result (λ place. has self.old.chunks place ≡ false) }
        ensures none { IfNone result ((is_in (room_of class) self.old.free ≡ false) × (self.new ≡ self.old)) }
    {
        let Some(place) = self.lists.reuse(class) else {
            return None;
        };
        Some(place)
    }

    /// Makes a chunk of no bytes in the block in use.
    fn carve(&mut self, room: usize) -> Place
        requires known { IsTrue (is_in room rooms) }
        requires fits { room + HEADER ≤ self.old.left }
        ensures carved { self.new ≡ carved self.old (record { place = result; room = room; is_live = true; bytes = [] }) }
        ensures fresh { has self.old.chunks result ≡ false }
    {
        self.active.carve(&mut self.lists.layout, HEADER, room)
    }

    /// Makes a chunk of no bytes in a new block, which is then in use. What was left of the one before is cut up.
    fn carve_new(&mut self, room: usize) -> Result<Place, AllocError>
        requires known { IsTrue (is_in room rooms) }
        requires small { room ≤ LARGEST }
        ensures carved { IfOk result (λ place. self.new ≡ carved (grown self.old place.block (block_size self.old.next room))
            (record { place = place; room = room; is_live = true; bytes = [] })) }
        ensures fresh { IfOk result (λ place. has self.old.chunks place ≡ false) }
        ensures vacant { IfOk result (λ place. get_or self.old.blocks place.block None ≡ None) }
        ensures held { OnOk result (total self.new.blocks ≡ total self.old.blocks + block_size self.old.next room) }
        ensures refused { OnErr result ((self.new ≡ self.old) × (0 < block_size self.old.next room)) }
    {
        let size = block_size(self.next, room);
        let block = self.lists.layout.take_block(size)?;
        self.lists.cut_up(self.active);
        self.active = Active {
            block,
            used: 0,
            size,
        };
        self.next = (2 * self.next).min(LARGEST_BLOCK);
        self.first = self.first.or(Some(block));
        Ok(self.active.carve(&mut self.lists.layout, HEADER, room))
    }

    /// Makes a chunk of no bytes in a block of its own.
    fn dedicate(&mut self, room: usize) -> Result<Place, AllocError>
        requires large { LARGEST < room }
        requires small { room ≤ MOST + 8 }
        ensures taken { IfOk result (λ place. self.new
            ≡ dedicated self.old (record { place = place; room = room; is_live = true; bytes = [] })) }
        ensures fresh { IfOk result (λ place. has self.old.chunks place ≡ false) }
        ensures vacant { IfOk result (λ place. get_or self.old.blocks place.block None ≡ None) }
        ensures held { OnOk result (total self.new.blocks ≡ total self.old.blocks + (room + HEADER)) }
        ensures refused { OnErr result (self.new ≡ self.old) }
    {
        let block = self.lists.layout.take_block(room + HEADER)?;
        let place = Place {
            block,
            offset: HEADER as u32,
        };
        self.lists.layout.carve(place, room);
        Ok(place)
    }

    /// Makes a chunk of no bytes, with room for `n`.
    fn claim(&mut self, n: usize) -> Result<Place, AllocError>
        requires { n ≤ MOST }
        ensures taken { IfOk result (λ place. self.new
            ≡ set_taken self.old n (record { place = place; room = set_room n; is_live = true; bytes = [] })) }
        ensures room { OnOk result (n ≤ set_room n) }
        ensures fresh { IfOk result (λ place. has self.old.chunks place ≡ false) }
        ensures lies { IfOk result (λ place. IsNewBlock (set_growth self.old n) self.old.blocks place.block) }
        ensures held { OnOk result (total self.new.blocks ≡ total self.old.blocks + set_growth self.old n) }
        ensures refused { OnErr result ((self.new ≡ self.old) × (0 < set_growth self.old n)) }
    {
        if n > LARGEST {
            return self.dedicate(rounded(n));
        }
        let class = class_of(n);
        if let Some(place) = self.reuse(class) {
            return Ok(place);
        }
        let room = room_of(class);
        if room + HEADER <= self.left() {
            return Ok(self.carve(room));
        }
        self.carve_new(room)
    }

    /// Writes `bytes` to a chunk after the first `kept` of its own, and returns its name.
    fn write(&mut self, place: Place, kept: usize, bytes: &[u8]) -> ChunkName
        requires there { IsTrue (has self.old.chunks place) }
        requires kept { kept ≤ length (contents_at self.old.chunks place).bytes }
        requires room { kept + length bytes.now ≤ (contents_at self.old.chunks place).room }
        requires small { kept + length bytes.now ≤ MOST }
        ensures name { result ≡ record { block = place.block; offset = place.offset; len = kept + length bytes.now } }
        ensures put { self.new ≡ set_put self.old place (take kept (contents_at self.old.chunks place).bytes ++ bytes.now) }
        ensures block { IsTrue (is_some (get_or self.new.blocks place.block None)) }
    {
        self.lists.layout.put(place, kept, bytes, true);
        ChunkName {
            block: place.block,
            offset: place.offset,
            len: (kept + bytes.len()) as u32,
        }
    }

    /// Writes `n` zeros to a chunk after the first `kept` of its bytes, and returns its name.
    fn write_zeros(&mut self, place: Place, kept: usize, n: usize) -> ChunkName
        requires there { IsTrue (has self.old.chunks place) }
        requires kept { kept ≤ length (contents_at self.old.chunks place).bytes }
        requires room { kept + n ≤ (contents_at self.old.chunks place).room }
        requires small { kept + n ≤ MOST }
        ensures name { result ≡ record { block = place.block; offset = place.offset; len = kept + n } }
        ensures put { self.new ≡ set_put self.old place (take kept (contents_at self.old.chunks place).bytes ++ zeros n) }
        ensures block { IsTrue (is_some (get_or self.new.blocks place.block None)) }
    {
        self.lists.layout.put_zeros(place, kept, n);
        ChunkName {
            block: place.block,
            offset: place.offset,
            len: (kept + n) as u32,
        }
    }

    /// Gives a chunk the bytes of another, of which there are `len`, as far as `n`, and zeros after these.
    fn fill(&mut self, from: Place, len: usize, to: Place, n: usize)
        requires apart { same_place from to ≡ false }
        requires from { IsTrue (has self.old.chunks from) }
        requires to { IsTrue (has self.old.chunks to) }
        requires len { length (contents_at self.old.chunks from).bytes ≡ len }
        requires room { n ≤ (contents_at self.old.chunks to).room }
        ensures { self.new ≡ set_put self.old to (resized (contents_at self.old.chunks from).bytes n) }
    {
        self.lists.layout.copy_resized(from, len, to, n);
    }

    /// How many bytes a chunk has room for.
    fn room(&self, place: Place) -> usize
        requires { IsTrue (has self.now.chunks place) }
        ensures { result ≡ (contents_at self.now.chunks place).room }
    {
        self.lists.layout.room(place)
    }

    /// Gives a chunk up.
    fn release(&mut self, place: Place)
        requires { IsTrue (has self.old.chunks place) }
        ensures { self.new ≡ set_freed self.old place }
    {
        let room = self.lists.layout.room(place);
        if room > LARGEST {
            self.lists.layout.give_back(place.block);
            return;
        }
        self.lists.release(place, room);
    }

    /// Makes a chunk of `len` bytes `n` bytes long, where it is.
    fn stay(&mut self, place: Place, len: usize, n: usize) -> ChunkName
        requires there { IsTrue (has self.old.chunks place) }
        requires len { length (contents_at self.old.chunks place).bytes ≡ len }
        requires room { n ≤ (contents_at self.old.chunks place).room }
        requires small { n ≤ MOST }
        ensures name { result ≡ record { block = place.block; offset = place.offset; len = n } }
        ensures put { self.new ≡ set_put self.old place (resized (contents_at self.old.chunks place).bytes n) }
    {
        self.lists.layout.resize(place, len, n);
        place.named(n)
    }

    /// A law: a request of a class that takes a block takes one of the next size, doubled until it holds the chunk. What was
    /// left of the block before is then cut up: while 16 bytes are left, a free chunk of the largest class that fits.
    pub fn grows_by_rule(&self)
        ensures { GrowsByRule self.now }
    {
        let _grown_by_rule = &self.lists;
    }

    /// Makes a chunk of `len` bytes `n` bytes long, in a new chunk.
    fn relocate(&mut self, from: Place, len: usize, n: usize) -> Result<ChunkName, AllocError>
        requires there { IsTrue (has self.old.chunks from) }
        requires len { length (contents_at self.old.chunks from).bytes ≡ len }
        requires small { n ≤ MOST }
        ensures len { IfOk result (λ moved. moved.len ≡ n) }
        ensures fresh { IfOk result (λ moved. has self.old.chunks (place_of moved) ≡ false) }
        ensures moved { IfOk result (λ moved. self.new
            ≡ set_freed (set_taken self.old n (chunk_of moved (set_room n) (resized (contents_at self.old.chunks from).bytes n))) from) }
        ensures lies { IfOk result (λ moved. IsNewBlock (set_growth self.old n) self.old.blocks moved.block) }
        ensures held { IfOk result
            (λ moved. total (set_taken self.old n (chunk_of moved (set_room n) (resized (contents_at self.old.chunks from).bytes n))).blocks
            ≡ total self.old.blocks + set_growth self.old n) }
        ensures refused { OnErr result ((self.new ≡ self.old) × (0 < set_growth self.old n)) }
    {
        let place = self.claim(n)?;
        self.fill(from, len, place, n);
        self.release(from);
        Ok(place.named(n))
    }
}

impl ChunkContext for AllocSet {
    ghost use Rattle.std.specs.Prelude.{true};
    ghost use Rattle.chunk_contexts.specs.Rooms.{over_most};
    ghost use Rattle.chunk_contexts.specs.Set.{set_room, set_growth, set_taken, set_put, set_wrote, set_freed, set_reset};

    ghost chunks = { λ s. s.chunks };

    ghost blocks = { λ s. s.blocks };

    ghost room = { λ s n. set_room n };

    ghost refusal = { λ s n. over_most n };

    ghost growth = { set_growth };

    ghost frees = { λ s. true };

    ghost may_lie = { λ s n block. IsNewBlock (set_growth s n) s.blocks block };

    ghost taken = { set_taken };

    ghost wrote = { set_wrote };

    ghost put = { set_put };

    ghost freed = { set_freed };

    ghost emptied = { set_reset };

    fn alloc(&mut self, bytes: &[u8]) -> Result<ChunkName, ContextError> {
        check_len(bytes.len())?;
        let place = self.claim(bytes.len())?;
        Ok(self.write(place, 0, bytes))
    }

    fn alloc_zeroed(&mut self, n: u32) -> Result<ChunkName, ContextError> {
        let len = n as usize;
        check_len(len)?;
        let place = self.claim(len)?;
        Ok(self.write_zeros(place, 0, len))
    }

    fn get(&self, name: ChunkName) -> &[u8] {
        self.lists.layout.get(name.place(), name.len as usize)
    }

    fn get_mut(&mut self, name: ChunkName) -> &mut [u8] {
        self.lists.layout.get_mut(name.place(), name.len as usize)
    }

    fn free(&mut self, name: ChunkName) -> Result<(), ContextError> {
        self.release(name.place());
        Ok(())
    }

    fn resize(&mut self, name: ChunkName, n: u32) -> Result<ChunkName, ContextError> {
        let len = n as usize;
        check_len(len)?;
        let place = name.place();
        if len <= self.room(place) {
            return Ok(self.stay(place, name.len as usize, len));
        }
        Ok(self.relocate(place, name.len as usize, len)?)
    }

    fn reset(&mut self) {
        self.lists.clear(self.first);
        self.active = match self.first {
            Some(block) => Active {
                block,
                used: 0,
                size: self.lists.layout.size(block),
            },
            None => Active::NONE,
        };
        self.next = if self.first.is_some() {
            2 * BLOCK
        } else {
            BLOCK
        };
    }

    fn held(&self) -> u64 {
        self.lists.layout.held()
    }

    fn growth_for(&self, n: u32) -> u64 {
        let len = n as usize;
        if len > MOST {
            return 0;
        }
        if len > LARGEST {
            return (rounded(len) + HEADER) as u64;
        }
        let class = class_of(len);
        let room = room_of(class);
        if self.lists.has_free(class) || room + HEADER <= self.left() {
            return 0;
        }
        block_size(self.next, room) as u64
    }

    fn growth_to(&self, name: ChunkName, n: u32) -> u64 {
        if n as usize <= self.room(name.place()) {
            return 0;
        }
        self.growth_for(n)
    }

    fn are_laid(&self) {
        self.lists.layout.are_laid();
    }
}
