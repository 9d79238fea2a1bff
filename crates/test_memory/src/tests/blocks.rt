ghost use Rattle.std.specs.Prelude.{◌≡◌, ◌+◌, ◌^◌, ◌<◌, ◌≤◌, [], ◌∷◌, length, slice_index};
ghost use Rattle.std.specs.List.{splice};
ghost use Rattle.block_memory.specs.Cells.{Holds};

use block_memory::{GhostNotes, RawBlock};
use std::alloc::AllocError;

/// Writes `src` from `at` on and reads its second byte, then changes that byte where it stands and reads it again.
fn write_twice(block: &mut RawBlock, at: usize, src: &[u8], second: u8) -> (u8, u8)
    requires small { length block.old < 2 ^ 63 }
    requires room { at + length src.now ≤ length block.old }
    requires long { 2 ≤ length src.now }
    ensures stands { Holds block.new at (splice src.now 1 2 (second ∷ [])) }
    ensures before { result.0 ≡ slice_index src.now 1 }
    ensures after { result.1 ≡ second }
{
    block.copy_in(at, src);
    let before = block.bytes(at, src.len())[1];
    let part = block.bytes_mut(at + 1, 1);
    part[0] = second;
    let after = block.bytes(at, src.len())[1];
    (before, after)
}

#[test]
fn bytes_stand_where_they_were_written(rt: HostRuntime) -> Result<(), AllocError> {
    let mut block = RawBlock::new(rt.alloc(), 8)?;
    assert!(rt; block.len() == 8);
    block.copy_in(0, b"abcdefgh");
    assert!(rt; block.bytes(2, 3) == b"cde".as_slice());
    assert!(rt; block.bytes(8, 0) == b"".as_slice());
    block.zero(3, 2);
    assert!(rt; block.bytes(0, 8) == b"abc\0\0fgh".as_slice());
    let (before, after) = write_twice(&mut block, 1, b"12345", b'x');
    assert!(rt; (before, after) == (b'2', b'x'));
    assert!(rt; block.bytes(1, 5) == b"1x345".as_slice());
    Ok(())
}

#[test]
fn notes_take_no_memory(rt: HostRuntime) {
    let mut notes = GhostNotes::new();
    notes.add(&7u64);
    assert!(rt; std::mem::size_of_val(&notes) == 0);
}

/// All of these blocks together would be more than a process can have: no contract says that a block is freed.
#[test]
fn blocks_are_given_back(rt: HostRuntime) -> Result<(), AllocError> {
    for _ in 0..150_000u32 {
        let block = RawBlock::new(rt.alloc(), 0x4000_0000)?;
        assert!(rt; block.len() == 0x4000_0000);
    }
    Ok(())
}
