//! One state in its bytes, for any aggregate. The bounds `most` are at most 2^62 - 1.

ghost use Rattle.std.specs.Prelude.{◌≡◌, ◌≤◌, ◌<◌, ◌+◌, [], length, IfOk, OnOk, OnErr};
ghost use Rattle.std.specs.Option.{ForSome};
ghost use Rattle.grouping_model.specs.Aggregates as model;
ghost use Rattle.grouping_model.specs.Aggregates.{Partial, outcome};
ghost use Rattle.grouping_model.specs.Combining.{combine, transition};
ghost use Rattle.packed_rows.specs.View.{datum_of};
ghost use Rattle.agg_protocol.specs.Arguments.{Takes};
ghost use Rattle.agg_protocol.specs.Results.{outcome_of};
ghost use Rattle.agg_protocol.specs.States.{Denotes, shape_of, rows_of, most_rows};
ghost use Rattle.agg_library.specs.StateRows.{partial_after};

use agg_protocol::{Aggregate, BadState, ResultValue};
use packed_rows::Value;

/// An aggregate whose states say how many rows they count.
pub trait Counting: Aggregate {
    /// How many rows a state counts, or 0 if it counts none.
    fn rows(state: &Self::State) -> u64
        ensures { result ≡ rows_of (Self.denoted state.now) };

    /// How many rows a state counts after one more argument, or 0 if it counts none.
    fn rows_after(state: &Self::State, value: Value<'_>) -> u64
        requires { Takes Self.function (datum_of value) }
        ensures { result
            ≡ rows_of (transition Self.function (Self.denoted state.now) (datum_of value.entry)) };
}

/// Writes the state before any argument.
pub fn init_part<A: Aggregate>(part: &mut [u8])
    requires { length part.old ≡ A.WIDTH }
    ensures { Denotes 0 (shape_of A.function) part.new (model.partial A.function []) }
{
    A::serialize(&A::init(), part);
}

/// Reads a state that counts at most `most` rows. Other bytes are `BadState`.
pub fn read_part<A: Counting>(part: &[u8], most: u64) -> Result<A::State, BadState>
    requires { most ≤ most_rows }
    ensures ok { IfOk result
        (λ state. Denotes most (shape_of A.function) part.now (A.denoted state)) }
    ensures err { OnErr result
        ((p : Partial) → ¬ (Denotes most (shape_of A.function) part.now p)) }
{
    let state = A::deserialize(part)?;
    if A::rows(&state) > most {
        return Err(BadState);
    }
    Ok(state)
}

/// Checks that the bytes are a state that counts at most `most` rows. Others are `BadState`.
pub fn check_part<A: Counting>(part: &[u8], most: u64) -> Result<(), BadState>
    requires { most ≤ most_rows }
    ensures ok { OnOk result ((p : Partial) × Denotes most (shape_of A.function) part.now p) }
    ensures err { OnErr result
        ((p : Partial) → ¬ (Denotes most (shape_of A.function) part.now p)) }
{
    read_part::<A>(part, most)?;
    Ok(())
}

/// The result of the state in the bytes.
pub fn finish_part<A: Aggregate>(part: &[u8]) -> ResultValue<'static>
    requires { (p : Partial) × Denotes most_rows (shape_of A.function) part.now p }
    ensures { (p : Partial) → Denotes most_rows (shape_of A.function) part.now p →
        outcome_of result ≡ outcome p }
{
    match A::deserialize(part) {
        Ok(state) => A::finish(&state),
        Err(BadState) => unreachable!(),
    }
}

// The state of the arguments of both, where it counts at most `most` rows.
fn join<A: Counting>(a: A::State, b: A::State, most: u64) -> Result<A::State, BadState>
    requires most { most ≤ most_rows }
    requires a { rows_of (A.denoted a) ≤ most }
    requires b { rows_of (A.denoted b) ≤ most_rows }
    requires adds { rows_of (combine A.function (A.denoted a) (A.denoted b)) ≡
        rows_of (A.denoted a) + rows_of (A.denoted b) }
    ensures joined { IfOk result
        (λ state. A.denoted state ≡ combine A.function (A.denoted a) (A.denoted b)) }
    ensures few { OnOk result (rows_of (combine A.function (A.denoted a) (A.denoted b)) ≤ most) }
    ensures many { OnErr result (most < rows_of (combine A.function (A.denoted a) (A.denoted b))) }
{
    if A::rows(&a) + A::rows(&b) > most {
        return Err(BadState);
    }
    Ok(A::combine(a, b))
}

/// Moves the state in the bytes on by one row, whose value reaches the aggregate or not. An error changes nothing.
pub fn advance_part<A: Counting>(
    part: &mut [u8],
    reach: Option<Value<'_>>,
    most: u64,
) -> Result<(), BadState>
    requires most { most ≤ most_rows }
    requires takes { ForSome reach (λ value. Takes A.function (datum_of value)) }
    ensures ok { OnOk result ((p : Partial) × Denotes most (shape_of A.function) part.old p
        × Denotes most (shape_of A.function) part.new (partial_after A.function p reach.entry)) }
    ensures err { OnErr result ((p : Partial) → Denotes most (shape_of A.function) part.old p →
        most < rows_of (partial_after A.function p reach.entry)) }
    ensures unchanged { OnErr result (part.new ≡ part.old) }
{
    let state = read_part::<A>(part, most)?;
    let Some(value) = reach else {
        return Ok(());
    };
    if A::rows_after(&state, value) > most {
        return Err(BadState);
    }
    let after = A::transition(state, value);
    A::serialize(&after, part);
    Ok(())
}

/// Writes the state of the arguments of both, those of `first` first. `BadState` if either is not a state, or both count too many rows.
pub fn combine_part<A: Counting>(
    first: &[u8],
    second: &[u8],
    both: &mut [u8],
    most: u64,
) -> Result<(), BadState>
    requires most { most ≤ most_rows }
    requires wide { length both.old ≡ A.WIDTH }
    ensures ok { OnOk result ((p q : Partial) × Denotes most (shape_of A.function) first.now p
        × Denotes most (shape_of A.function) second.now q
        × Denotes most (shape_of A.function) both.new (combine A.function p q)) }
    ensures err { OnErr result ((p q : Partial) → Denotes most (shape_of A.function) first.now p →
        Denotes most (shape_of A.function) second.now q → most < rows_of (combine A.function p q)) }
{
    let state = read_part::<A>(first, most)?;
    let other = read_part::<A>(second, most)?;
    let joined = join::<A>(state, other, most)?;
    A::serialize(&joined, both);
    Ok(())
}
