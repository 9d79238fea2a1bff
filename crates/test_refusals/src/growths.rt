//! The same calls with all memory, for `bin/refuse_growths`, which refuses the growths of each one by one: whichever these are, the test
//! passes.

use crate::sites::Site;
use crate::trials::Trial;
use hash_agg::{DEFAULT_LIMIT, MIN_LIMIT};
use replies::Refusal;
use std::test::*;
use test_cases::Room;

/// Whether a trial of which growths may be refused is right, with the least limit and with the usual one.
fn is_right_on(rt: HostRuntime, site: &Site, trial: Trial) -> Result<bool, Refusal> {
    let least = trial.run(rt, site, MIN_LIMIT, &mut Room::Marked(rt.alloc()))?;
    let usual = trial.run(rt, site, DEFAULT_LIMIT, &mut Room::Marked(rt.alloc()))?;
    Ok(least.is_right() && usual.is_right())
}

/// The same on a site of few rows.
fn is_right(rt: HostRuntime, trial: Trial) -> Result<bool, Refusal> {
    let site = Site::few(rt.alloc())?;
    let right = is_right_on(rt, &site, trial);
    drop(site);
    right
}

#[test]
fn a_delivery(rt: HostRuntime) {
    assert!(rt; is_right(rt, Trial::Deliver) == Ok(true));
}

#[test]
fn a_merge(rt: HostRuntime) {
    assert!(rt; is_right(rt, Trial::Merge) == Ok(true));
}

#[test]
fn an_answer(rt: HostRuntime) {
    assert!(rt; is_right(rt, Trial::Answer) == Ok(true));
}

#[test]
fn a_saving(rt: HostRuntime) {
    assert!(rt; is_right(rt, Trial::Save) == Ok(true));
}

#[test]
fn a_loading(rt: HostRuntime) {
    assert!(rt; is_right(rt, Trial::Load) == Ok(true));
}
