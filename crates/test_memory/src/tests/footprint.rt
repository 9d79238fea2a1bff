//! What contexts take goes back to the system, so that the process does not grow: no contract can say so.
//!
//! `rt try` keeps memory that was given back, to see whether it is used again. There, and on any system that keeps it, a block that was
//! given back looks the same as one that was not. So these tests say nothing there. Only `blocks_are_given_back` tells then that the blocks
//! of a process go back at all: it takes more than a process can have.

use crate::tests::contexts::{reset, take_all};
use crate::tests::kinds::{number, told};
use chunk_contexts::{ChunkContext, ContextError};
use std::alloc::AllocError;
use std::fs;
use std::test::Fail;
use test_cases::{Answered, cut, expect_lines, halves};

/// How often memory is taken and goes back: each time a megabyte at least.
const TURNS: u32 = 32;

/// By how many pages of 4,096 bytes the process may have grown after all turns: 16 megabytes.
const SLACK: u64 = 4096;

/// How many pages the process has in memory, as Linux counts them.
fn pages(rt: &HostRuntime) -> Option<u64> {
    let counts = fs::read_to_string(rt, "/proc/self/statm").ok()?;
    counts.split(' ').nth(1)?.parse().ok()
}

/// How many pages the process may have after all turns.
fn most_pages(rt: &HostRuntime) -> Result<u64, Fail> {
    Ok(pages(rt).ok_or("no count of pages")?.saturating_add(SLACK))
}

/// Whether the process has so many pages at most.
fn is_even(rt: &HostRuntime, most: u64) -> bool {
    match pages(rt) {
        Some(pages) => pages <= most,
        None => false,
    }
}

/// Whether the process gets smaller when memory goes back at all.
fn shrinks(rt: &HostRuntime) -> Result<bool, Fail> {
    let most = most_pages(rt)?;
    for _ in 0..TURNS {
        let _bytes = vec![in rt.alloc(); 1u8; 1_048_576]?;
    }
    Ok(is_even(rt, most))
}

/// Takes a megabyte and more, and gives all up at once, again and again.
fn take_and_reset<C: ChunkContext>(
    context: &mut C,
    n: u32,
    count: u32,
) -> Result<(), ContextError> {
    for _ in 0..TURNS {
        take_all(context, n, count)?;
        reset(context);
    }
    Ok(())
}

/// Takes a chunk, resizes it and gives it up, again and again.
fn resize_and_free<C: ChunkContext>(
    context: &mut C,
    n: u32,
    resized: u32,
    turns: u32,
) -> Result<(), ContextError> {
    for _ in 0..turns {
        let name = context.alloc_zeroed(n)?;
        let name = context.resize(name, resized)?;
        context.free(name)?;
    }
    Ok(())
}

/// Tells a step of what footprints are told of.
pub(crate) fn tell_use<C: ChunkContext>(
    rt: HostRuntime,
    context: &mut C,
    name: &str,
    with: &str,
    told: &mut Answered,
) -> Result<(), AllocError> {
    let (n, with) = cut(with, " ");
    let (other, turns) = cut(with, " ");
    let (n, other) = (number(n), number(other));
    match name {
        "take_and_reset" => told.tell(take_and_reset(context, n, other)),
        "resize_and_free" => told.tell(resize_and_free(context, n, other, number(turns))),
        _ => told.tell(is_even(&rt, u64::from(n))),
    }
}

/// What the last of so many new contexts of a case answers, or the first that refuses a step.
fn told_often(rt: HostRuntime, case: &str) -> Result<String, Fail> {
    for _ in 1..TURNS {
        let told = told(rt, case)?;
        if told.contains("Err") {
            return Ok(told);
        }
    }
    told(rt, case)
}

/// What a case answers in which `even` asks whether the process has at most so many pages.
fn told_even(rt: HostRuntime, case: &str, most: u64) -> Result<String, Fail> {
    let even = format!(in rt.alloc(); "even {most}")?;
    let case = case.replace(rt.alloc(), "even", &even)?;
    told(rt, &case)
}

/// What two cases answer: one of many contexts that are let go of, and one of a context that is used again and again. In that `even` asks
/// whether the process has about as many pages as before both.
fn told_of_uses(rt: HostRuntime, cases: &str) -> Result<String, Fail> {
    let most = most_pages(&rt)?;
    let (often, again) = halves(cases, "; ")?;
    let often = told_often(rt, often)?;
    let again = told_even(rt, again, most)?;
    Ok(format!(in rt.alloc(); "{often}; {again}")?)
}

/// Uses, and what they answer where memory goes back.
const USES: &str = "\
alloc_set: take_all 8000 128, take_all 1048576 1; alloc_set: even, take_and_reset 8000 128, take_and_reset 1048576 1, even, \
resize_and_free 1048576 2097152 32, even => Ok(()) Ok(()); true Ok(()) Ok(()) true Ok(()) true
slab 8000: take_all 8000 128; slab 8000: even, take_and_reset 8000 128, even, resize_and_free 8000 8000 4096, even => \
Ok(()); true Ok(()) true Ok(()) true
generation: take_all 8000 128, take_all 1048576 1; generation: even, take_and_reset 8000 128, even, resize_and_free 8000 8000 4096, \
resize_and_free 1048576 2097152 32, even => Ok(()) Ok(()); true Ok(()) true Ok(()) Ok(()) true
bump: take_all 8000 128, take_all 1048576 1; bump: even, take_and_reset 8000 128, even, take_and_reset 1048576 1, even => \
Ok(()) Ok(()); true Ok(()) true Ok(()) true
";

#[test]
fn contexts_go_back(rt: HostRuntime) -> Result<(), Fail> {
    if !shrinks(&rt)? {
        return Ok(());
    }
    expect_lines(rt, USES, told_of_uses)
}
