//! What contexts hold and answer, by numbers from outside. Each function that takes a context knows it by its trait alone.

use crate::tests::callers::tell_caller;
use crate::tests::footprint::tell_use;
use crate::tests::kinds::{number, told};
use chunk_contexts::{ChunkContext, ChunkName, ContextError};
use std::alloc::AllocError;
use std::test::Fail;
use test_cases::{Answered, cut, expect_lines};

/// Takes a chunk of zeros: how long it is, and how many bytes the context holds then.
fn take<C: ChunkContext>(context: &mut C, n: u32) -> Result<(usize, u64), ContextError> {
    let name = context.alloc_zeroed(n)?;
    Ok((context.get(name).len(), context.held()))
}

/// Takes chunks of zeros.
pub(crate) fn take_all<C: ChunkContext>(
    context: &mut C,
    n: u32,
    count: u32,
) -> Result<(), ContextError> {
    for _ in 0..count {
        take(context, n)?;
    }
    Ok(())
}

/// Takes a chunk of zeros and gives it up: how many bytes the context holds with it and how many one more would take, and how many it
/// holds without it.
fn take_and_free<C: ChunkContext>(context: &mut C, n: u32) -> Result<[u64; 3], ContextError> {
    let name = context.alloc_zeroed(n)?;
    let taken = context.held();
    let growth = context.growth_for(n);
    context.free(name)?;
    Ok([taken, growth, context.held()])
}

/// Takes chunks that hold `bytes`: how many bytes the context holds then.
fn put_all<C: ChunkContext>(
    context: &mut C,
    bytes: &[u8],
    count: u32,
) -> Result<u64, ContextError> {
    for _ in 0..count {
        context.alloc(bytes)?;
    }
    Ok(context.held())
}

/// How many bytes the context holds once all is given up.
pub(crate) fn reset<C: ChunkContext>(context: &mut C) -> u64 {
    context.reset();
    context.held()
}

/// Takes two chunks of zeros and gives up the older one: how many bytes the context holds each time and one more would take, and how long
/// the chunk that is left is. Then that is given up, too: how many bytes the context holds without both.
fn free_both<C: ChunkContext>(
    context: &mut C,
    n: u32,
    other: u32,
) -> Result<([u64; 3], usize, u64), ContextError> {
    let first = context.alloc_zeroed(n)?;
    let second = context.alloc_zeroed(other)?;
    let both = context.held();
    context.free(first)?;
    let one = [both, context.held(), context.growth_for(n)];
    let left = context.get(second).len();
    context.free(second)?;
    Ok((one, left, context.held()))
}

/// Tells what becomes of one chunk or two.
fn tell_few<C: ChunkContext>(
    context: &mut C,
    name: &str,
    with: &str,
    told: &mut Answered,
) -> Result<(), AllocError> {
    let (n, other) = cut(with, " ");
    match name {
        "take" => told.tell(take(context, number(n))),
        "take_and_free" => told.tell(take_and_free(context, number(n))),
        "refuse" => told.tell(context.alloc_zeroed(number(n)).err()),
        "free_both" => told.tell(free_both(context, number(n), number(other))),
        _ => tell_caller(context, name, number(n), told),
    }
}

/// Tells what a step answers.
pub(crate) fn tell_step<C: ChunkContext>(
    rt: HostRuntime,
    context: &mut C,
    name: &str,
    with: &str,
    told: &mut Answered,
) -> Result<(), AllocError> {
    let (what, count) = cut(with, " ");
    match name {
        "held" => told.tell(context.held()),
        "growth" => told.tell(context.growth_for(number(what))),
        "reset" => told.tell(reset(context)),
        "take_all" => told.tell(take_all(context, number(what), number(count))),
        "put_all" => told.tell(put_all(context, what.as_bytes(), number(count))),
        "even" | "take_and_reset" | "resize_and_free" => tell_use(rt, context, name, with, told),
        _ => tell_few(context, name, with, told),
    }
}

/// Steps over new contexts, and what they answer. A large chunk has a block of its own, which goes with it; blocks of a generation go with
/// their last chunks; a chunk of 1,073,741,824 bytes is too long for any kind.
const TOLD: &str = "\
alloc_set: held, take 0, growth 8192, take 8192, growth 4000 => 0 Ok((0, 8192)) 16384 Ok((8192, 24576)) 0
alloc_set: take 0, take 8192, take_and_free 8193, refuse 1073741824, growth 1073741824, reset, growth 8192 => \
Ok((0, 8192)) Ok((8192, 24576)) Ok([32784, 8208, 24576]) Some(TooLarge) 0 8192 16384
alloc_set: put_all 0123456789 1, reset => Ok(8192) 8192
alloc_set: newer_first, write_over, write_byte, longer 100, longer_and_free 100, longer 1073741824 => \
Ok(true) Ok((true, true)) Ok(7) Ok((97, true)) Ok(true) Err(TooLarge)
generation: take_and_free 8192, refuse 1073741824 => Ok([8200, 8200, 0]) Some(TooLarge)
generation: free_both 5 6 => Ok(([8192, 8192, 0], 6, 0))
generation: put_all 12345678 2000, take 10000, reset, growth 8 => Ok(32768) Ok((10000, 42776)) 0 8192
generation: put_all 0123456789 1, reset => Ok(8192) 0
generation: newer_first, write_over, write_byte, longer 100, longer_and_free 100, longer 1073741824 => \
Ok(true) Ok((true, true)) Ok(7) Ok((97, true)) Ok(true) Err(TooLarge)
slab 1073741824: held => TooLarge
slab 40: held, take_all 40 170, held, growth 40, take_and_free 40 => 0 Ok(()) 8192 8192 Ok([16384, 0, 8192])
slab 40: refuse 39, refuse 1073741824, growth 39 => Some(WrongSize) Some(TooLarge) 0
slab 3: put_all abc 1, held, reset => Ok(8192) 8192 0
slab 10000: free_both 10000 10000 => Ok(([20016, 10008, 10008], 10000, 0))
slab 10: put_all 0123456789 1, reset => Ok(8192) 0
slab 3: newer_first, write_over, write_byte, longer 3, longer_and_free 3, longer 4 => \
Ok(true) Ok((true, true)) Ok(7) Ok((97, true)) Ok(true) Err(WrongSize)
bump: put_all 12345 1024, growth 5, held, reset => Ok(8192) 8192 8192 0
bump: put_all 0123456789 1, reset => Ok(8192) 0
bump: newer_first, write_over, write_byte, longer 3 => Err(NotSupported) Ok((true, true)) Ok(7) Err(NotSupported)
";

#[test]
fn contexts_answer_by_their_kinds(rt: HostRuntime) -> Result<(), Fail> {
    expect_lines(rt, TOLD, told)
}

#[test]
fn names_as_bytes(rt: HostRuntime) {
    let name = ChunkName {
        block: 1,
        offset: 8,
        len: 3,
    };
    let bytes = name.to_bytes();
    assert!(rt; bytes == [0, 0, 0, 1, 0, 0, 0, 8, 0, 0, 0, 3]);
    assert!(rt; ChunkName::from_bytes(bytes) == name);
}
