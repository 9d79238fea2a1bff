use crate::passes::{Constant, limited};
use hash_agg::{Fnv1a, MAX_LIMIT};
use std::test::*;
use test_cases::expect;

#[test]
fn a_hash_function_changes_nothing(rt: HostRuntime) -> Result<(), Fail> {
    // All that is spilled falls on one list: 4,616 rows, then 4,232 and so on.
    expect(
        limited(rt, 5_000, 65_536, Constant),
        "5000 true 016b3439393900 0000000000000001000000000000000100000000000000000000000000001387: passes 14, spilled 30056, pages 99, \
            held 57352",
    )
}

#[test]
fn keys_of_one_hash_are_found_in_the_table(rt: HostRuntime) -> Result<(), Fail> {
    let told = limited(rt, 20_000, MAX_LIMIT, Fnv1a)?;
    expect(limited(rt, 20_000, MAX_LIMIT, Constant), &told)
}
