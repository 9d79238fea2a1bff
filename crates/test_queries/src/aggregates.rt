ghost use Rattle.std.specs.Prelude.{◌≤◌, IfOk};
ghost use Rattle.agg_protocol.specs.States.{most_rows};

use agg_library::{AggKind, BoolOr, CountRows, MAX_COUNTED, Min, StateRow, Sum};
use agg_protocol::{Aggregate, BadState};
use hex::decode;
use std::test::*;
use test_cases::{expect_lines, halves};

/// The function of a name.
fn kind_named(name: &str) -> Result<AggKind, Fail> {
    match name {
        "count(*)" => Ok(AggKind::CountRows),
        _ => Ok(AggKind::named(name).ok_or("no function")?),
    }
}

/// Functions, the most rows that a state may count, bytes, and whether they are those of states.
const STATES: &str = "\
count(*) 5 0000000000000005 => true
count 4 0000000000000005 => false
count(*) 5 00000000000005 => false
count(*) 5 000000000000000005 => false
count 4611686018427387903 3fffffffffffffff => true
count 4611686018427387903 4000000000000000 => false
sum 2 000000000000000200000000000000000000000000000003 => true
sum 1 000000000000000200000000000000000000000000000003 => false
sum 0 000000000000000000000000000000000000000000000000 => true
sum 5 000000000000000000000000000000000000000000000001 => false
sum 1 000000000000000100000000000000007fffffffffffffff => true
sum 1 000000000000000100000000000000008000000000000000 => false
sum 1 0000000000000001ffffffffffffffff8000000000000000 => true
sum 1 0000000000000001 => false
min 0 000000000000000000 => true
min 0 01ffffffffffffffff => true
min 5 000000000000000001 => false
max 5 020000000000000000 => false
bit_xor 5 0100000000000000 => false
bool_and 0 00 => true
bool_or 0 01 => true
every 0 02 => true
bool_or 5 03 => false
bool_or 5  => false
bool_or 5 0000 => false
count,every 5 000000000000000502 => true
count,every 5 000000000000000503 => false
count,every 5 0000000000000005 => false
every,count 5 020000000000000006 => false";

/// The functions of some names.
fn kinds_named(rt: HostRuntime, names: &str) -> Result<Vec<AggKind>, Fail> {
    let mut kinds = Vec::new(rt.alloc());
    for name in names.split(',') {
        kinds.push(kind_named(name)?)?;
    }
    Ok(kinds)
}

/// So many rows as a case begins with, if a state may count them, and the rest of the case.
fn most_and_rest(case: &str) -> Result<(u64, &str), Fail>
    ensures { IfOk result (λ found. found.0 ≤ most_rows) }
{
    let (number, rest) = halves(case, " ")?;
    let most = number.parse::<u64>()?;
    if most > MAX_COUNTED {
        return Err("too many rows")?;
    }
    Ok((most, rest))
}

/// Whether bytes are those of a row of states.
fn is_row(rt: HostRuntime, kinds: &[AggKind], most: u64, bytes: &str) -> Result<bool, Fail>
    requires { most ≤ most_rows }
{
    let bytes = decode(rt.alloc(), bytes)?;
    Ok(StateRow::check(kinds, &bytes, most).is_ok())
}

/// The same of functions of some names.
fn checked(rt: HostRuntime, case: &str) -> Result<String, Fail> {
    let (names, rest) = halves(case, " ")?;
    let (most, bytes) = most_and_rest(rest)?;
    let kinds = kinds_named(rt, names)?;
    let is_row = is_row(rt, &kinds, most, bytes);
    drop(kinds);
    Ok(format!(in rt.alloc(); "{}", is_row?)?)
}

#[test]
fn states_are_checked(rt: HostRuntime) -> Result<(), Fail> {
    expect_lines(rt, STATES, checked)
}

// A frame of the stack a state would be too many here.
#[test]
fn rows_of_any_length_are_combined(rt: HostRuntime) -> Result<(), Fail> {
    let kinds = Vec::from_elem(rt.alloc(), AggKind::CountRows, 1_000_000)?;
    let mut into = Vec::from_elem(rt.alloc(), 0, 8_000_000)?;
    let from = Vec::from_elem(rt.alloc(), 0, 8_000_000)?;
    let is_row = StateRow::check(&kinds, &from, 5).is_ok();
    let is_combined = StateRow::combine_into(&kinds, &mut into, &from, 5).is_ok();
    let is_too_short = StateRow::combine_into(&kinds, &mut into, &from[1..], 5).is_err();
    assert!(rt; is_row && is_combined && is_too_short);
    Ok(())
}

/// Whether a number's state is read from its bytes, and not from others.
fn least_is_read() -> bool {
    let minus_one = [1, 255, 255, 255, 255, 255, 255, 255, 255];
    Min::deserialize(&minus_one) == Ok(Some(-1)) && Min::deserialize(&[3; 9]) == Err(BadState)
}

/// Whether a truth value's state is.
fn any_is_read() -> bool {
    BoolOr::deserialize(&[2]) == Ok(Some(true)) && BoolOr::deserialize(&[3]) == Err(BadState)
}

#[test]
fn states_are_read(rt: HostRuntime) {
    assert!(rt; least_is_read());
    assert!(rt; any_is_read());
    assert!(rt; Sum::deserialize(&[0; 24]).is_ok() && Sum::deserialize(&[1; 24]).is_err());
    assert!(rt;
        CountRows::deserialize(&[0; 8]).is_ok() && CountRows::deserialize(&[99; 8]).is_err()
    );
}
