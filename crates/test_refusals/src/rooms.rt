//! Calls in rooms of more and more bytes, until none is refused.

use crate::met::{Met, met_if};
use crate::sites::Site;
use crate::trials::Trial;
use hash_agg::{DEFAULT_LIMIT, MIN_LIMIT};
use replies::Refusal;
use std::test::*;
use test_cases::{Hoard, Room, expect};

/// How many rooms are tried at most.
const MAX_ROOMS: u32 = 100_000;

/// By how many bytes a room is larger than the one before, for a call over a few rows, and for one that spills groups.
const STEP: usize = 16;

const LARGE_STEP: usize = 512;

/// Makes a trial in larger and larger rooms, the first of no byte, until it meets no refusal.
fn try_rooms(
    rt: HostRuntime,
    hoard: &mut Hoard,
    site: &Site,
    limit: u64,
    step: usize,
    trial: Trial,
) -> Result<Met, Refusal> {
    for count in 0..MAX_ROOMS {
        let mut room = Room::Small(&mut *hoard, step.saturating_mul(count as usize));
        match trial.run(rt, site, limit, &mut room)? {
            Met::Refusal => {}
            Met::Nothing => return Ok(met_if(count > 0, Met::Refusal, Met::NoGrowth)),
            wrong => return Ok(wrong),
        }
    }
    Ok(Met::NoEnd)
}

/// The same with each limit.
fn try_limits(
    rt: HostRuntime,
    hoard: &mut Hoard,
    site: &Site,
    limits: &[u64],
    step: usize,
    trial: Trial,
) -> Result<Met, Refusal> {
    for limit in limits {
        let met = try_rooms(rt, hoard, site, *limit, step, trial)?;
        if met != Met::Refusal {
            return Ok(met);
        }
    }
    Ok(Met::Refusal)
}

/// What becomes of a trial with all memory, and then in rooms, with each limit. Behind the first the stack is as large as it has to be.
fn told(
    rt: HostRuntime,
    site: &Site,
    limits: &[u64],
    step: usize,
    trial: Trial,
) -> Result<String, Fail> {
    let ample = trial.run(rt, site, MIN_LIMIT, &mut Room::Open)?;
    let mut hoard = Hoard::new(&rt)?;
    let small = try_limits(rt, &mut hoard, site, limits, step, trial);
    drop(hoard);
    Ok(format!(in rt.alloc(); "{ample:?} {:?}", small?)?)
}

/// The same over a few rows, with the least limit and the usual one.
fn tried(rt: HostRuntime, trial: Trial) -> Result<String, Fail> {
    let site = Site::few(rt.alloc())?;
    let told = told(rt, &site, &[MIN_LIMIT, DEFAULT_LIMIT], STEP, trial);
    drop(site);
    told
}

/// The same over many rows with the least limit, so that groups are spilled.
fn tried_spilling(rt: HostRuntime, trial: Trial) -> Result<String, Fail> {
    let site = Site::many(rt.alloc())?;
    let told = told(rt, &site, &[MIN_LIMIT], LARGE_STEP, trial);
    drop(site);
    told
}

/// What is told where the call is refused, each refusal leaves all as it was, and the call made again answers.
const REFUSED: &str = "Nothing Refusal";

#[test]
fn deliveries_are_refused(rt: HostRuntime) -> Result<(), Fail> {
    expect(tried(rt, Trial::Deliver), REFUSED)
}

#[test]
fn merges_are_refused(rt: HostRuntime) -> Result<(), Fail> {
    expect(tried(rt, Trial::Merge), REFUSED)
}

#[test]
fn answers_are_refused(rt: HostRuntime) -> Result<(), Fail> {
    expect(tried(rt, Trial::Answer), REFUSED)
}

#[test]
fn savings_are_refused(rt: HostRuntime) -> Result<(), Fail> {
    expect(tried(rt, Trial::Save), REFUSED)
}

#[test]
fn loadings_are_refused(rt: HostRuntime) -> Result<(), Fail> {
    expect(tried(rt, Trial::Load), REFUSED)
}

#[test]
fn deliveries_that_spill_are_refused(rt: HostRuntime) -> Result<(), Fail> {
    expect(tried_spilling(rt, Trial::Deliver), REFUSED)
}

#[test]
fn merges_that_spill_are_refused(rt: HostRuntime) -> Result<(), Fail> {
    expect(tried_spilling(rt, Trial::Merge), REFUSED)
}

#[test]
fn answers_that_spill_are_refused(rt: HostRuntime) -> Result<(), Fail> {
    expect(tried_spilling(rt, Trial::Answer), REFUSED)
}
