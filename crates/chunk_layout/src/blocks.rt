//! Blocks by their numbers, some of which were freed.
ghost use Rattle.std.specs.Prelude.{◌≡◌, ◌+◌, ◌-◌, ◌<◌, ◌≤◌, ◌^◌, ◌⊎◌, Some, None, IsSome, IfSome, IfOk, OnErr, length, get_or, slice_set};
ghost use Rattle.block_memory.specs.Cells.{IsWritten, Holds, zeros};
ghost use Rattle.block_memory.specs.Words.{word_bytes};
ghost use Rattle.chunk_layout.specs.Contents.{with_block, AreTaken};
ghost use Rattle.chunk_layout.specs.Vacant.{AreVacant};
ghost use Rattle.chunk_layout.specs.ChunkHeaders.{block_at, poke, headed, sizes_of};

use crate::marks::BlockMarks;
use crate::place::Place;
use block_memory::RawBlock;
use std::alloc::AllocError;

/// How many bytes stand before a chunk for its header, where chunks have headers.
pub const HEADER: usize = 8;

/// How many blocks there may be at once.
const MAX_BLOCKS: usize = 0xffff_ffff;

/// Reads the word whose eight bytes begin at `at` of a block.
pub(crate) fn read_word(blocks: &[Option<RawBlock>], block: usize, at: usize) -> u64
    requires there { block < length blocks.now }
    requires some { IsSome (get_or blocks.now block None) }
    requires written { IsWritten (block_at blocks.now block) at 8 }
    ensures small { result < 2 ^ 64 }
    ensures value { Holds (block_at blocks.now block) at (word_bytes result) }
{
    blocks[block].as_ref().unwrap().word(at)
}

/// Reads `n` bytes of a block, from `at` on.
pub(crate) fn read_bytes(blocks: &[Option<RawBlock>], block: usize, at: usize, n: usize) -> &[u8]
    requires there { block < length blocks.now }
    requires some { IsSome (get_or blocks.now block None) }
    requires written { IsWritten (block_at blocks.now block) at n }
    ensures value { Holds (block_at blocks.now block) at result.now }
    ensures len { length result.now ≡ n }
{
    blocks[block].as_ref().unwrap().bytes(at, n)
}

/// Writes `bytes` to a block, from `at` on.
pub(crate) fn write_bytes(blocks: &mut Vec<Option<RawBlock>>, block: usize, at: usize, bytes: &[u8])
    requires there { block < length blocks.old.items }
    requires some { IsSome (get_or blocks.old.items block None) }
    requires room { at + length bytes.now ≤ length (block_at blocks.old.items block) }
    ensures { blocks.new.items ≡ poke blocks.old.items block at bytes.now }
{
    blocks[block].as_mut().unwrap().copy_in(at, bytes);
}

/// Writes `n` zeros to a block, from `at` on.
pub(crate) fn write_zeros(blocks: &mut Vec<Option<RawBlock>>, block: usize, at: usize, n: usize)
    requires there { block < length blocks.old.items }
    requires some { IsSome (get_or blocks.old.items block None) }
    requires room { at + n ≤ length (block_at blocks.old.items block) }
    ensures { blocks.new.items ≡ poke blocks.old.items block at (zeros n) }
{
    blocks[block].as_mut().unwrap().zero(at, n);
}

/// Writes the header of a chunk, where chunks have one.
pub(crate) fn write_header(
    blocks: &mut Vec<Option<RawBlock>>,
    head: usize,
    place: Place,
    room: usize,
)
    requires there { place.block < length blocks.old.items }
    requires some { IsSome (get_or blocks.old.items place.block None) }
    requires after { head ≤ place.offset }
    requires inside { place.offset ≤ length (block_at blocks.old.items place.block) }
    ensures { blocks.new.items ≡ headed head blocks.old.items place room }
{
    if head != HEADER {
        return;
    }
    let at = place.offset as usize - HEADER;
    blocks[place.block as usize]
        .as_mut()
        .unwrap()
        .set_word(at, room as u64);
}

/// Adds a block after the others, and room for the mark on its number, so that giving it back takes no memory.
fn push_block(
    blocks: &mut Vec<Option<RawBlock>>,
    vacant: &mut BlockMarks,
    block: RawBlock,
) -> Result<u32, AllocError>
    requires { AreVacant (sizes_of blocks.old.items) vacant.old }
    ensures added { IfOk result (λ number. (number ≡ length blocks.old.items) × (number < 2 ^ 32 - 1)
        × (blocks.new.items ≡ with_block blocks.old.items number block)) }
    ensures vacant { AreVacant (sizes_of blocks.new.items) vacant.new }
    ensures refused { OnErr result (blocks.new.items ≡ blocks.old.items) }
{
    let number = blocks.len();
    if number >= MAX_BLOCKS {
        return Err(AllocError);
    }
    blocks.reserve(1)?;
    vacant.add()?;
    blocks.push_reserved(Some(block));
    Ok(number as u32)
}

/// Puts a block at a number that no block has, and returns that number. A new number is made only where each one has a
/// block.
pub(crate) fn put_block(
    blocks: &mut Vec<Option<RawBlock>>,
    vacant: &mut BlockMarks,
    block: RawBlock,
) -> Result<u32, AllocError>
    requires { AreVacant (sizes_of blocks.old.items) vacant.old }
    ensures was_free { IfOk result (λ number. (number ≤ length blocks.old.items) × (get_or blocks.old.items number None ≡ None)) }
    ensures needed { IfOk result (λ number. number ≡ length blocks.old.items → AreTaken (sizes_of blocks.old.items)) }
    ensures few { IfOk result (λ number. number < 2 ^ 32 - 1 ⊎ (number < length blocks.old.items)) }
    ensures added { IfOk result (λ number. blocks.new.items ≡ with_block blocks.old.items number block) }
    ensures vacant { AreVacant (sizes_of blocks.new.items) vacant.new }
    ensures refused { OnErr result (blocks.new.items ≡ blocks.old.items) }
{
    match vacant.first() {
        Some(number) => {
            vacant.unmark(number);
            blocks[number as usize] = Some(block);
            Ok(number)
        }
        None => push_block(blocks, vacant, block),
    }
}

/// How many bytes the block of a number has: 0 where there is none.
pub(crate) fn block_len(blocks: &[Option<RawBlock>], number: usize) -> usize
    ensures { result ≡ length (block_at blocks.now number) }
{
    if number >= blocks.len() {
        return 0;
    }
    match &blocks[number] {
        Some(block) => block.len(),
        None => 0,
    }
}

/// Gives the block of a number back, and returns how many bytes it had: 0 where there was none. The number is marked then.
pub(crate) fn drop_block(
    blocks: &mut Vec<Option<RawBlock>>,
    vacant: &mut BlockMarks,
    number: u32,
) -> usize
    requires there { number < length blocks.old.items }
    requires vacant { AreVacant (sizes_of blocks.old.items) vacant.old }
    ensures size { result ≡ length (block_at blocks.old.items number) }
    ensures blocks { blocks.new.items ≡ slice_set blocks.old.items number None }
    ensures vacant { AreVacant (sizes_of blocks.new.items) vacant.new }
{
    let dropped = blocks[number as usize].take();
    vacant.mark(number);
    match dropped {
        Some(block) => block.len(),
        None => 0,
    }
}
