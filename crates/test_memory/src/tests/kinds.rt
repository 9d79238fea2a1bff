//! What steps answer over a new context of a kind, which is named. Contexts are let go of here alone, since each function that lets go of
//! one is proved to do so.

use crate::tests::contexts::tell_step;
use chunk_contexts::{AllocSet, Bump, ChunkContext, Generation, Slab};
use std::alloc::AllocError;
use std::test::*;
use test_cases::{Answered, cut};

/// A number in a step, or 0.
pub(crate) fn number(text: &str) -> u32 {
    text.parse().unwrap_or(0)
}

/// What steps answer, one behind the other: `STEP, STEP ..`, each with what it takes behind its name.
fn tell_all<C: ChunkContext>(
    rt: HostRuntime,
    context: &mut C,
    steps: &str,
) -> Result<String, AllocError> {
    let mut told = Answered::new(rt.alloc());
    for step in steps.split(", ") {
        let (name, with) = cut(step, " ");
        tell_step(rt, context, name, with, &mut told)?;
    }
    let mut text = told.into_text();
    text.pop();
    Ok(text)
}

fn over_alloc_set(rt: HostRuntime, steps: &str) -> Result<String, AllocError> {
    let mut set = AllocSet::new(rt.alloc());
    let told = tell_all(rt, &mut set, steps);
    drop(set);
    told
}

fn over_generation(rt: HostRuntime, steps: &str) -> Result<String, AllocError> {
    let mut generation = Generation::new(rt.alloc());
    let told = tell_all(rt, &mut generation, steps);
    drop(generation);
    told
}

fn over_bump(rt: HostRuntime, steps: &str) -> Result<String, AllocError> {
    let mut bump = Bump::new(rt.alloc());
    let told = tell_all(rt, &mut bump, steps);
    drop(bump);
    told
}

/// The same over a slab for chunks of `size` bytes, or why there is none.
fn over_slab(rt: HostRuntime, size: u32, steps: &str) -> Result<String, AllocError> {
    match Slab::new(rt.alloc(), size) {
        Ok(mut slab) => {
            let told = tell_all(rt, &mut slab, steps);
            drop(slab);
            told
        }
        Err(refused) => format!(in rt.alloc(); "{refused:?}"),
    }
}

/// What the steps of a case answer: `KIND: STEP, STEP ..`. Behind a slab stands how many bytes its chunks have.
pub(crate) fn told(rt: HostRuntime, case: &str) -> Result<String, Fail> {
    let (kind, steps) = cut(case, ": ");
    let (kind, size) = cut(kind, " ");
    let told = match kind {
        "alloc_set" => over_alloc_set(rt, steps),
        "generation" => over_generation(rt, steps),
        "bump" => over_bump(rt, steps),
        _ => over_slab(rt, number(size), steps),
    };
    Ok(told?)
}
