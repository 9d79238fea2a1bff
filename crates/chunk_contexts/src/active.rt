//! The block in use: the one that chunks are cut from.
ghost use Rattle.std.specs.Prelude.{◌≡◌, cond, ◌==◌, ◌+◌, ◌-◌, ◌≤◌, true, false, [], ◌∷◌};
ghost use Rattle.chunk_layout.specs.Contents.{has};
ghost use Rattle.chunk_layout.specs.declared.blocks.TheConstants.{HEADER};

use chunk_layout::{ChunkLayout, Place};

/// The block in use, of which the front is given out already. There is none where the size is 0.
#[derive(Clone, Copy)]
pub struct Active {
    /// The block's number.
    pub block: u32,
    /// How many of its bytes are given out.
    pub used: usize,
    /// How many bytes it has.
    pub size: usize,
}

impl Active {
    ghost use Rattle.chunk_contexts.specs.Free.{IsRest};

    /// No block.
    pub(crate) const NONE: Active = Active {
        block: 0,
        used: 0,
        size: 0,
    };

    /// How many bytes of it are left.
    pub(crate) fn left(&self) -> usize
        requires { self.now.used ≤ self.now.size }
        ensures { result ≡ self.now.size - self.now.used }
    {
        self.size - self.used
    }

    /// The block in use after a block was freed: nothing is left if it was this one.
    pub(crate) fn without(self, block: u32) -> Active
        ensures { result ≡ record {
          block = self.block;
          used = cond (self.block == block) 0 self.used;
          size = cond (self.block == block) 0
              self.size;
        } }
    {
        if self.block != block {
            return self;
        }
        Active {
            block: self.block,
            used: 0,
            size: 0,
        }
    }

    /// Makes a live chunk of no bytes in the block, after `head` bytes for its header.
    pub(crate) fn carve(&mut self, layout: &mut ChunkLayout, head: usize, room: usize) -> Place
        requires rest { IsRest layout.old self.old }
        requires head { layout.old.head ≡ head }
        requires small { head ≤ HEADER }
        requires room { 1 ≤ room }
        requires fits { self.old.used + head + room ≤ self.old.size }
        ensures place { result ≡ record { block = self.old.block; offset = self.old.used + head } }
        ensures used { self.new ≡ record { block = self.old.block; used = self.old.used + head + room; size = self.old.size } }
        ensures fresh { has layout.old.contents result ≡ false }
        ensures carved { layout.new
            ≡ record {
              head = head;
              blocks = layout.old.blocks;
              contents =
                  (record { place = result; room = room; is_live = true; bytes = [] }) ∷ layout.old.contents;
            } }
        ensures rest { IsRest layout.new self.new }
    {
        let place = Place {
            block: self.block,
            offset: (self.used + head) as u32,
        };
        layout.carve(place, room);
        self.used += head + room;
        place
    }
}
