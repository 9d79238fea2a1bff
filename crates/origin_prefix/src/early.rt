//! Early batches, by their numbers.

ghost use Rattle.std.specs.Prelude.{◌≡◌, ◌≢◌, ◌+◌, ◌<◌, ◌≤◌, ◌++◌, ◌↔◌, ℕ, List, Some, None, map, drop, length, nat_lt, IfOk, OnOk};
ghost use Rattle.std.specs.Prelude.{if◌then◌else◌, IsTrue};
ghost use Rattle.std.specs.List.{AllByRecursion};
ghost use Rattle.grouping_model.specs.declared.limits.TheConstants.{LAST_NUMBER};
ghost use Rattle.hash_agg.specs.Inputs.{Packed, brought};
ghost use Rattle.origin_prefix.specs.Parts.{rows_at, IsBehind, following, rows_following};
ghost use Rattle.grouping_model.specs.Datum.{Kind};
ghost use Rattle.std.specs.List.Sorted.{IsStrictlySortedBy};
ghost use Rattle.std.specs.Ordering.{eq_by_cmp, nat_cmp};
ghost use Rattle.std.specs.Prelude.{[], cond, option_map};
ghost use Rattle.origin_prefix.specs.Joins.{either, put_into, with_rows, IsFirstDifference, AreAmong};
ghost use Rattle.std.specs.Option.{option_copied};

use batch_reader::PackedRows;
use hash_agg::Input;
use std::alloc::{AllocError, Global};
use std::collections::BTreeMap;
use std::ops::Bound::{Excluded, Unbounded};

/// Adds the rows of the early batches that follow a number without a gap to the inputs. Answers the last of these numbers.
pub(crate) fn add_following<'a>(
    early: &'a BTreeMap<u32, PackedRows>,
    number: u32,
    inputs: &mut Vec<Input<'a>>,
) -> Result<u32, AllocError>
    requires number { number ≤ LAST_NUMBER }
    requires early { AllByRecursion (λ (batch : ℕ × List (List ℕ)). batch.0 ≤ LAST_NUMBER)
        early.now.entries }
    ensures upto { IfOk result (λ upto. upto ≡ number + following number early.now.entries) }
    ensures limit { IfOk result (λ upto. upto ≤ LAST_NUMBER) }
    ensures inputs { OnOk result (map brought inputs.new.items ≡ map brought inputs.old.items
        ++ map Packed (rows_following number early.now.entries)) }
{
    let mut upto = number;
    for (next, rows) in early {
        if next.checked_sub(upto) != Some(1) {
            return Ok(upto);
        }
        inputs.push(Input::Packed(rows))?;
        upto = *next;
    }
    Ok(upto)
}

/// Removes so many of the first early batches.
pub(crate) fn drop_first(early: &mut BTreeMap<u32, PackedRows>, count: u32)
    ensures { early.new.entries ≡ drop count early.old.entries }
{
    for _ in 0..count {
        early.pop_first();
    }
}

/// Copies the early batches above a number to others, but for those whose number is there.
pub(crate) fn copy_above(
    alloc: Global,
    from: &BTreeMap<u32, PackedRows>,
    number: u32,
    into: &mut BTreeMap<u32, PackedRows>,
) -> Result<(), AllocError>
    requires { IsStrictlySortedBy nat_cmp
        (map (λ (batch : ℕ × List (List ℕ)). batch.0) into.old.entries) }
    ensures rising { IsStrictlySortedBy nat_cmp
        (map (λ (batch : ℕ × List (List ℕ)). batch.0) into.new.entries) }
    ensures behind { OnOk result ((ks : List Kind) →
        AllByRecursion (λ b. number < b.0 → IsBehind ks number b) from.now.entries →
        AllByRecursion (IsBehind ks number) into.old.entries →
        AllByRecursion (IsBehind ks number) into.new.entries) }
    ensures rows { OnOk result ((n : ℕ) → rows_at into.new.entries n ≡ either
        (rows_at into.old.entries n)
        (if nat_lt number n then rows_at from.now.entries n else None)) }
{
    for (next, rows) in from.range((Excluded(number), Unbounded)) {
        if !into.contains_key(next) {
            into.insert(*next, rows.try_clone(alloc)?)?;
        }
    }
    Ok(())
}

/// A place under each number, in which there are no rows.
pub(crate) fn places(
    alloc: Global,
    early: &BTreeMap<u32, PackedRows>,
) -> Result<BTreeMap<u32, PackedRows>, AllocError>
    ensures rising { IfOk result (λ places. IsStrictlySortedBy nat_cmp
        (map (λ (batch : ℕ × List (List ℕ)). batch.0) places.entries)) }
    ensures rows { IfOk result (λ places. (n : ℕ) → rows_at places.entries n
        ≡ option_map (λ _. []) (rows_at early.now.entries n)) }
{
    let mut places = BTreeMap::new(alloc);
    for (number, _) in early {
        places.insert(*number, PackedRows::new(alloc))?;
    }
    Ok(places)
}

/// Puts rows into the place of their number, if there is one.
fn put_rows(places: &mut BTreeMap<u32, PackedRows>, number: u32, rows: PackedRows)
    ensures rising { IsStrictlySortedBy nat_cmp
        (map (λ (batch : ℕ × List (List ℕ)). batch.0) places.new.entries) }
    ensures rows { (n : ℕ) → rows_at places.new.entries n ≡ cond (eq_by_cmp nat_cmp n number)
        (put_into (rows_at places.old.entries n) (Some rows)) (rows_at places.old.entries n) }
{
    if let Some(place) = places.get_mut(&number) {
        *place = rows;
    }
}

/// Puts the rows of batches into the places of their numbers. It takes no memory.
pub(crate) fn put_all(places: &mut BTreeMap<u32, PackedRows>, kept: BTreeMap<u32, PackedRows>)
    requires { IsStrictlySortedBy nat_cmp
        (map (λ (batch : ℕ × List (List ℕ)). batch.0) places.old.entries) }
    ensures { places.new.entries ≡ with_rows kept.entries places.old.entries }
{
    for (number, rows) in kept {
        put_rows(places, number, rows);
    }
}

/// The first number behind another one that is there in both, with different rows.
pub(crate) fn first_difference(
    number: u32,
    one: &BTreeMap<u32, PackedRows>,
    other: &BTreeMap<u32, PackedRows>,
) -> Option<u32>
    ensures { IsFirstDifference number one.now.entries other.now.entries result }
{
    for (next, rows) in one.range((Excluded(number), Unbounded)) {
        if differs_from(rows, other.get(next)) {
            return Some(*next);
        }
    }
    None
}

/// Whether there are rows, and others.
fn differs_from(rows: &PackedRows, found: Option<&PackedRows>) -> bool
    ensures { IsTrue result ↔ ((those : List (List ℕ)) × (option_copied found.entry ≡ Some those)
        × (rows.now ≢ those)) }
{
    match found {
        Some(those) => !rows.same_rows(those),
        None => false,
    }
}

/// Whether the early batches behind a number are among others, with the same rows.
pub(crate) fn are_among(
    number: u32,
    early: &BTreeMap<u32, PackedRows>,
    others: &BTreeMap<u32, PackedRows>,
) -> bool
    ensures { IsTrue result ↔ AreAmong number early.now.entries others.now.entries }
{
    for (next, rows) in early.range((Excluded(number), Unbounded)) {
        if !has_rows(others.get(next), rows) {
            return false;
        }
    }
    true
}

/// Whether there are rows, and these.
fn has_rows(found: Option<&PackedRows>, rows: &PackedRows) -> bool
    ensures { IsTrue result ↔ (option_copied found.entry ≡ Some rows.now) }
{
    match found {
        Some(those) => rows.same_rows(those),
        None => false,
    }
}
