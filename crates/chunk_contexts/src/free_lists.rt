//! Free lists by classes, whose links stand in the free chunks.
ghost use Rattle.std.specs.Prelude.{◌≡◌, ◌+◌, ◌-◌, ◌<◌, ◌≤◌, true, false, [], ◌∷◌, Some, None, IsTrue, IfSome, IfNone, length, get_or};
ghost use Rattle.chunk_layout.specs.Every.{Every};
ghost use Rattle.chunk_layout.specs.Contents.{has, contents_at, put_at, only, size_at, IsClear};
ghost use Rattle.chunk_contexts.specs.Rooms.{room_of, rooms, rooms_down};
ghost use Rattle.chunk_contexts.specs.Free.{by_room, is_in, free_rooms, first_free, cut_used, cut_chunk, cut_chunks, AreLists, IsRest};
ghost use Rattle.chunk_layout.specs.Links.{link_bytes, IsLinkable};
ghost use Rattle.chunk_contexts.specs.Chunks.{live};

use crate::active::Active;
use crate::rooms::{CLASSES, LARGEST, class_of, room_of};
use chunk_layout::{ChunkLayout, HEADER, Place, put_first, take_first};

/// A layout of chunks with headers, and the first free chunk of each class.
#[derive(Drop)]
pub struct FreeLists {
    pub(crate) layout: ChunkLayout,
    pub(crate) heads: [Option<Place>; CLASSES],
}

impl FreeLists {
    /// Takes the first free chunk of a class, if there is one. It is live then, and has no bytes.
    pub(crate) fn reuse(&mut self, class: usize) -> Option<Place>
        requires lists { AreLists self.old.layout self.old.heads }
        requires class { class < CLASSES }
        ensures lists { AreLists self.new.layout self.new.heads }
        ensures none { IfNone result ((first_free by_room (room_of class) self.old.layout.contents ≡ None) × (self.new ≡ self.old)) }
        ensures some { IfSome result (λ place. first_free by_room (room_of class) self.old.layout.contents ≡ Some place) }
        ensures taken { IfSome result (λ place. self.new.layout ≡ put_at self.old.layout place 0 [] true) }
    {
        let mut first = self.heads[class];
        let place = take_first(&mut self.layout, &mut first)?;
        self.heads[class] = first;
        Some(place)
    }

    /// Puts a live chunk in front of the free list of its room.
    pub(crate) fn release(&mut self, place: Place, room: usize)
        requires lists { AreLists self.old.layout self.old.heads }
        requires live { IsTrue (has (live self.old.layout.contents) place) }
        requires room { (contents_at self.old.layout.contents place).room ≡ room }
        requires known { IsTrue (is_in room rooms) }
        ensures lists { AreLists self.new.layout self.new.heads }
        ensures freed { self.new.layout ≡ put_at self.old.layout place 0 (link_bytes
            (first_free by_room room self.old.layout.contents)) false }
    {
        let class = class_of(room);
        let mut first = self.heads[class];
        put_first(&mut self.layout, &mut first, place);
        self.heads[class] = first;
    }

    /// Makes a free chunk where no chunk is.
    fn cut(&mut self, place: Place, room: usize)
        requires lists { AreLists self.old.layout self.old.heads }
        requires known { IsTrue (is_in room rooms) }
        requires inside { place.offset + room ≤ size_at self.old.layout.blocks place.block }
        requires after { HEADER ≤ place.offset }
        requires clear { Every (IsClear HEADER place room) self.old.layout.contents }
        requires none { has self.old.layout.contents place ≡ false }
        requires links { IsLinkable place }
        ensures lists { AreLists self.new.layout self.new.heads }
        ensures cut { self.new.layout
            ≡ record {
              head = HEADER;
              blocks = self.old.layout.blocks;
              contents =
                  (record {
                    place = place;
                    room = room;
                    is_live = false;
                    bytes = link_bytes
                        (first_free by_room room self.old.layout.contents);
                  })
                  ∷ self.old.layout.contents;
            } }
    {
        self.layout.carve(place, room);
        self.release(place, room);
    }

    /// Cuts a free chunk from what is left of a block, if there is room for it.
    fn cut_one(&mut self, block: &mut Active, room: usize)
        requires lists { AreLists self.old.layout self.old.heads }
        requires rest { IsRest self.old.layout block.old }
        requires known { IsTrue (is_in room rooms) }
        requires small { room ≤ LARGEST }
        ensures lists { AreLists self.new.layout self.new.heads }
        ensures rest { IsRest self.new.layout block.new }
        ensures used { block.new
            ≡ record { block = block.old.block; used = cut_used room block.old.used block.old.size; size = block.old.size } }
        ensures cut { self.new.layout
            ≡ record {
              head = HEADER;
              blocks = self.old.layout.blocks;
              contents = cut_chunk room block.old.block block.old.used block.old.size
                  self.old.layout.contents;
            } }
    {
        if room + HEADER > block.left() {
            return;
        }
        let place = Place {
            block: block.block,
            offset: (block.used + HEADER) as u32,
        };
        self.cut(place, room);
        block.used += HEADER + room;
    }

    /// Cuts what is left of a block into free chunks, the largest first.
    pub(crate) fn cut_up(&mut self, block: Active)
        requires lists { AreLists self.old.layout self.old.heads }
        requires rest { IsRest self.old.layout block }
        ensures lists { AreLists self.new.layout self.new.heads }
        ensures cut { self.new.layout
            ≡ record {
              head = HEADER;
              blocks = self.old.layout.blocks;
              contents = cut_chunks rooms_down block.block block.used block.size
                  self.old.layout.contents;
            } }
    {
        let mut rest = block;
        for index in 0..CLASSES {
            let room = room_of(CLASSES - 1 - index);
            self.cut_one(&mut rest, room);
        }
    }

    /// Whether a chunk of a class is free.
    pub(crate) fn has_free(&self, class: usize) -> bool
        requires lists { AreLists self.now.layout self.now.heads }
        requires class { class < CLASSES }
        ensures { result ≡ is_in (room_of class) (free_rooms self.now.layout.contents) }
    {
        self.heads[class].is_some()
    }

    /// Gives up all chunks, and all blocks but the one to keep.
    pub(crate) fn clear(&mut self, keep: Option<u32>)
        requires lists { AreLists self.old.layout self.old.heads }
        ensures lists { AreLists self.new.layout self.new.heads }
        ensures cleared { self.new.layout ≡ record { head = HEADER; blocks = only self.old.layout.blocks keep; contents = [] } }
    {
        self.layout.clear(keep);
        self.heads = [None; CLASSES];
    }
}
