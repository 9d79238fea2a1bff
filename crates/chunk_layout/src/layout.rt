//! The layout of chunks in blocks.
ghost use Rattle.std.specs.Prelude.{◌≡◌, ◌+◌, ◌*◌, ◌-◌, ◌^◌, ◌<◌, ◌≤◌, if◌then◌else◌, true, false, [], ◌∷◌, ◌++◌, None, IsTrue, IfOk};
ghost use Rattle.std.specs.Prelude.{OnErr, length, get_or, slice_set, option_map, take};
ghost use Rattle.std.specs.Borrow.{sem};
ghost use Rattle.block_memory.specs.Cells.{zeros};
ghost use Rattle.chunk_layout.specs.Every.{Every};
ghost use Rattle.chunk_layout.specs.Contents.{has, same_place, is_kept, contents_at, put_at, with_contents, without, outside, with_block};
ghost use Rattle.chunk_layout.specs.Contents.{size_at};
ghost use Rattle.chunk_layout.specs.Contents.{total, only, AreLaid, AreTaken, IsClear, resized, Layout};
ghost use Rattle.chunk_layout.specs.Fields.{layout_of, AreFields};

use crate::blocks::{
    HEADER, block_len, drop_block, put_block, read_bytes, read_word, write_bytes, write_header,
    write_zeros,
};
use crate::marks::BlockMarks;
use crate::place::{ChunkEvent, ChunkHeader, Place};
use block_memory::{GhostNotes, RawBlock};
use std::alloc::{AllocError, Global};
use std::marker::Model;

/// How many bytes are copied at once.
const PART: usize = 256;

/// Blocks, and the chunks in them.
#[derive(Drop)]
pub struct ChunkLayout {
    head: usize,
    blocks: Vec<Option<RawBlock>>,
    vacant: BlockMarks,
    held: u64,
    notes: GhostNotes<ChunkEvent>,
    alloc: Global,
}

impl Model for ChunkLayout {
    ghost Value = { Layout };

    ghost view = { layout_of };

    ghost invariant = { AreFields };
}

impl ChunkLayout {
    ghost use Rattle.chunk_layout.specs.Lends.{lends_contents};

    /// Makes a layout of no block. With `headers`, each chunk has a header before it, which holds its room.
    pub fn new(alloc: Global, headers: bool) -> ChunkLayout
        ensures { result ≡ record { head = if headers then HEADER else 0; blocks = []; contents = [] } }
    {
        ChunkLayout {
            head: if headers { HEADER } else { 0 },
            blocks: Vec::new(alloc),
            vacant: BlockMarks::new(alloc),
            held: 0,
            notes: GhostNotes::new(),
            alloc,
        }
    }

    /// A law: no two chunks share a byte, and each lies in its block.
    pub fn are_laid(&self)
        ensures { AreLaid self.now.blocks self.now.contents }
    {
        let _laid = &self.blocks;
    }

    /// The bytes of all blocks together.
    pub fn held(&self) -> u64
        ensures { result ≡ total self.now.blocks }
    {
        self.held
    }

    /// The size of a block in bytes, and 0 where there is none.
    pub fn size(&self, block: u32) -> usize
        ensures value { result ≡ size_at self.now.blocks block }
        ensures small { result ≤ 2 ^ 31 }
    {
        block_len(&self.blocks, block as usize)
    }

    /// The bytes of a chunk that has `len` of them.
    pub fn get(&self, place: Place, len: usize) -> &[u8]
        requires there { IsTrue (has self.now.contents place) }
        requires len { length (contents_at self.now.contents place).bytes ≡ len }
        ensures value { result.now ≡ (contents_at self.now.contents place).bytes }
        ensures len { length result.now ≡ len }
    {
        read_bytes(
            &self.blocks,
            place.block as usize,
            place.offset as usize,
            len,
        )
    }

    /// Lends the bytes of a chunk that has `len` of them, to be changed.
    pub fn get_mut(&mut self, place: Place, len: usize) -> &mut [u8]
        requires there { IsTrue (has self.old.contents place) }
        requires len { length (contents_at self.old.contents place).bytes ≡ len }
        ensures* writes_back { sem 𝓛 (lends_contents self.entry place result) }
        ensures value { result.now ≡ (contents_at self.old.contents place).bytes }
        ensures len { length result.now ≡ len }
    {
        let block = self.blocks[place.block as usize].as_mut().unwrap();
        block.bytes_mut(place.offset as usize, len)
    }

    /// Writes `bytes` to a chunk, after the first `kept` of its own. What stood after these is gone.
    pub fn put(&mut self, place: Place, kept: usize, bytes: &[u8], is_live: bool)
        requires there { IsTrue (has self.old.contents place) }
        requires kept { kept ≤ length (contents_at self.old.contents place).bytes }
        requires room { kept + length bytes.now ≤ (contents_at self.old.contents place).room }
        ensures { self.new ≡ put_at self.old place kept bytes.now is_live }
    {
        write_bytes(
            &mut self.blocks,
            place.block as usize,
            place.offset as usize + kept,
            bytes,
        );
        self.notes.add(&ChunkEvent::Written {
            place,
            len: kept + bytes.len(),
            is_live,
        });
    }

    /// Writes `n` zeros to a live chunk, after the first `kept` of its bytes. What stood after these is gone.
    pub fn put_zeros(&mut self, place: Place, kept: usize, n: usize)
        requires there { IsTrue (has self.old.contents place) }
        requires kept { kept ≤ length (contents_at self.old.contents place).bytes }
        requires room { kept + n ≤ (contents_at self.old.contents place).room }
        ensures { self.new ≡ put_at self.old place kept (zeros n) true }
    {
        write_zeros(
            &mut self.blocks,
            place.block as usize,
            place.offset as usize + kept,
            n,
        );
        self.notes.add(&ChunkEvent::Written {
            place,
            len: kept + n,
            is_live: true,
        });
    }

    /// Makes a live chunk of no bytes, with room for `room` bytes, where no chunk is.
    pub fn carve(&mut self, place: Place, room: usize)
        requires room { 1 ≤ room }
        requires inside { place.offset + room ≤ size_at self.old.blocks place.block }
        requires after { self.old.head ≤ place.offset }
        requires clear { Every (IsClear self.old.head place room) self.old.contents }
        ensures { self.new ≡ with_contents self.old (record { place = place; room = room; is_live = true; bytes = [] }) }
    {
        write_header(&mut self.blocks, self.head, place, room);
        self.notes.add(&ChunkEvent::Chunk(ChunkHeader {
            place,
            room,
            len: 0,
            is_live: true,
        }));
    }

    /// How many bytes a chunk has room for, as its header says.
    pub fn room(&self, place: Place) -> usize
        requires headers { self.now.head ≡ HEADER }
        requires there { IsTrue (has self.now.contents place) }
        ensures { result ≡ (contents_at self.now.contents place).room }
    {
        let blocks = &self.blocks;
        let at = place.offset as usize - HEADER;
        read_word(blocks, place.block as usize, at) as usize
    }

    /// Frees a chunk. The room is not used again before its block is freed.
    pub fn forget(&mut self, place: Place)
        ensures { self.new ≡ record { head = self.old.head; blocks = self.old.blocks; contents = without self.old.contents place } }
    {
        self.notes.add(&ChunkEvent::Gone(place));
    }

    /// Takes a block of `len` bytes, and returns its number, which no block had. A new number is made only where each one has a block. The
    /// only error is out of memory, which changes nothing.
    pub fn take_block(&mut self, len: usize) -> Result<u32, AllocError>
        requires some { 1 ≤ len }
        requires small { len ≤ 2 ^ 31 }
        ensures was_free { IfOk result (λ block. (block ≤ length self.old.blocks) × (get_or self.old.blocks block None ≡ None)) }
        ensures needed { IfOk result (λ block. block ≡ length self.old.blocks → AreTaken self.old.blocks) }
        ensures name { IfOk result (λ block. block < 2 ^ 32) }
        ensures taken { IfOk result (λ block. self.new
            ≡ record { head = self.old.head; blocks = with_block self.old.blocks block len; contents = self.old.contents }) }
        ensures refused { OnErr result (self.new ≡ self.old) }
    {
        let block = RawBlock::new(self.alloc, len)?;
        let number = put_block(&mut self.blocks, &mut self.vacant, block)?;
        self.held += len as u64;
        Ok(number)
    }

    /// Frees the block of a number, with the chunks in it.
    pub fn give_back(&mut self, block: u32)
        requires { block < length self.old.blocks }
        ensures { self.new ≡ record {
          head = self.old.head;
          blocks = slice_set self.old.blocks block None;
          contents = outside self.old.contents
              block;
        } }
    {
        let size = drop_block(&mut self.blocks, &mut self.vacant, block);
        self.held -= size as u64;
        self.notes.add(&ChunkEvent::Returned(block));
    }

    /// Gives up all chunks. Their room is not used again before their blocks are freed.
    fn forget_all(&mut self)
        ensures { self.new ≡ record { head = self.old.head; blocks = self.old.blocks; contents = [] } }
    {
        self.notes.add(&ChunkEvent::Cleared);
    }

    /// The highest number that a block had so far, and one more.
    pub fn numbers(&self) -> u32
        ensures { result ≡ length self.now.blocks }
    {
        self.blocks.len() as u32
    }

    /// Frees all chunks, and all blocks but the one to keep.
    pub fn clear(&mut self, keep: Option<u32>)
        ensures { self.new ≡ record { head = self.old.head; blocks = only self.old.blocks keep; contents = [] } }
    {
        self.forget_all();
        for block in 0..self.numbers() {
            if !is_kept(keep, block) {
                self.give_back(block);
            }
        }
    }

    /// Copies the first `n` of the `len` bytes of a chunk to another one, which has no other bytes then.
    pub fn copy(&mut self, from: Place, len: usize, to: Place, n: usize)
        requires apart { same_place from to ≡ false }
        requires from { IsTrue (has self.old.contents from) }
        requires to { IsTrue (has self.old.contents to) }
        requires len { length (contents_at self.old.contents from).bytes ≡ len }
        requires few { n ≤ len }
        requires room { n ≤ (contents_at self.old.contents to).room }
        ensures { self.new ≡ put_at self.old to 0 (take n (contents_at self.old.contents from).bytes) true }
    {
        let mut part = [0u8; PART];
        self.put_zeros(to, 0, 0);
        let mut done = 0;
        while done < n {
            let step = (n - done).min(PART);
            let bytes = self.get(from, len);
            part[..step].copy_from_slice(&bytes[done..done + step]);
            self.put(to, done, &part[..step], true);
            done += step;
        }
    }

    /// Makes a live chunk of `len` bytes `n` bytes long: the front that both lengths have is kept, and what is new is zero.
    pub fn resize(&mut self, place: Place, len: usize, n: usize)
        requires there { IsTrue (has self.old.contents place) }
        requires len { length (contents_at self.old.contents place).bytes ≡ len }
        requires room { n ≤ (contents_at self.old.contents place).room }
        ensures { self.new ≡ put_at self.old place 0 (resized (contents_at self.old.contents place).bytes n) true }
    {
        let kept = len.min(n);
        self.put_zeros(place, kept, n - kept);
    }

    /// Gives a live chunk the bytes of another one, of which there are `len`, as far as `n`, and zeros after these.
    pub fn copy_resized(&mut self, from: Place, len: usize, to: Place, n: usize)
        requires apart { same_place from to ≡ false }
        requires from { IsTrue (has self.old.contents from) }
        requires to { IsTrue (has self.old.contents to) }
        requires len { length (contents_at self.old.contents from).bytes ≡ len }
        requires room { n ≤ (contents_at self.old.contents to).room }
        ensures { self.new ≡ put_at self.old to 0 (resized (contents_at self.old.contents from).bytes n) true }
    {
        let kept = len.min(n);
        self.copy(from, len, to, kept);
        self.put_zeros(to, kept, n - kept);
    }
}

/// Whether a block is the one that is kept.
fn is_kept(keep: Option<u32>, block: u32) -> bool
    ensures { result ≡ is_kept keep block }
{
    match keep {
        Some(kept) => kept == block,
        None => false,
    }
}
