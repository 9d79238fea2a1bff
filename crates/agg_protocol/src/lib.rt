//! The protocol of an aggregate function, after PostgreSQL 17's `CREATE AGGREGATE`: a state, a transition from each
//! argument to the next state, a combination of two states, the bytes of a state, and a final result.
//!
//! What a function computes is the `partial` of `grouping_model`: its partial result of a whole list of arguments. A
//! state denotes one, and each call of the protocol says how it moves it.
#![tactic(auto)]

ghost use Rattle.std.specs.Prelude.{◌≡◌, ◌≤◌, ◌+◌, ◌∷◌, [], ◌++◌, ℕ, List, All, length, IfOk, OnErr};
ghost use Rattle.grouping_model.specs.Datum.{Datum};
ghost use Rattle.grouping_model.specs.Aggregates as model;
ghost use Rattle.grouping_model.specs.Aggregates.{Function, Partial, outcome};
ghost use Rattle.grouping_model.specs.Combining as combining;
ghost use Rattle.packed_rows.specs.View.{datum_of, row_of};
ghost use Rattle.agg_protocol.specs.Arguments.{Takes};
ghost use Rattle.agg_protocol.specs.Results.{outcome_of};
ghost use Rattle.agg_protocol.specs.States.{Shape, IsState, Denotes, shape_of, width_of, rows_of, most_rows};

mod kind;

pub use crate::kind::{AggKind, Argument, Signature, all_functions};
use packed_rows::Value;
use thiserror::Error;

/// The bytes are not a state, or the state would count more rows than it may.
#[derive(Error, Debug, Clone, Copy, PartialEq, Eq, Drop)]
#[error("the bytes are not a state of the aggregate")]
pub struct BadState;

/// The result of an aggregate function (PostgreSQL 17, 9.21 Aggregate Functions).
#[derive(Clone, Copy, Debug, PartialEq, Eq)]
pub enum ResultValue<'a> {
    /// Null: the result of every function but the counts, if no argument was other than null.
    Null,
    /// A number of 64 bits.
    Bigint(i64),
    /// A sum, exact: the total of at most 2^62 - 1 numbers of 64 bits, which needs at most 126 bits.
    Numeric(i128),
    /// A truth value.
    Boolean(bool),
    /// A text, which it borrows. No aggregate function returns one, but a key beside the results may be one.
    Text(&'a str),
}

/// A value as it stands beside results.
impl<'a> From<Value<'a>> for ResultValue<'a> {
    ghost use Rattle.grouping_model.specs.Aggregates.{Plain};

    ghost from_gives = { λ value found. outcome_of found ≡ Plain (datum_of value) };

    fn from(value: Value<'a>) -> ResultValue<'a> {
        match value {
            Value::Null => ResultValue::Null,
            Value::Bigint(number) => ResultValue::Bigint(number),
            Value::Boolean(truth) => ResultValue::Boolean(truth),
            Value::Text(text) => ResultValue::Text(text),
        }
    }
}

/// An aggregate function, by the protocol of PostgreSQL 17's `CREATE AGGREGATE` (36.12 User-Defined Aggregates).
///
/// A state denotes what the function knows of some list of arguments, and counts at most 2^62 - 1 rows. No call takes
/// memory, and only `deserialize` can fail.
pub trait Aggregate {
    /// What is known of the arguments so far (`stype`).
    type State: Copy;

    ghost WIDTH: { ℕ };

    /// How many bytes a state has.
    const WIDTH: usize;

    // The function that is computed.
    ghost function: { Function };

    // The partial result that a state denotes.
    ghost denoted: { Self.State → Partial };

    /// The state before any argument (`initcond`).
    fn init() -> Self::State
        ensures { denoted result ≡ model.partial function [] };

    /// The state after one more argument (`sfunc`). Every function but `count(*)` skips a null, as a strict
    /// `sfunc` does. The argument is null or of the function's argument kind, and the state after it counts at most
    /// 2^62 - 1 rows.
    fn transition(state: Self::State, value: Value<'_>) -> Self::State
        requires takes { Takes function (datum_of value) }
        requires few { rows_of (combining.transition function (denoted state) (datum_of value))
            ≤ most_rows }
        ensures moves { denoted result ≡
            combining.transition function (denoted state) (datum_of value.entry) }
        ensures of_list { (xs : List Datum) → denoted state ≡ model.partial function xs →
            denoted result ≡ model.partial function (xs ++ datum_of value.entry ∷ []) };

    /// The state after the arguments of both, those of `a` first (`combinefunc`; 36.12.4 Partial Aggregation). Both
    /// together count at most 2^62 - 1 rows.
    fn combine(a: Self::State, b: Self::State) -> Self::State
        requires { rows_of (combining.combine function (denoted a) (denoted b)) ≤ most_rows }
        ensures combines { denoted result ≡ combining.combine function (denoted a) (denoted b) }
        ensures of_lists { (xs ys : List Datum) → denoted a ≡ model.partial function xs →
            denoted b ≡ model.partial function ys →
            denoted result ≡ model.partial function (xs ++ ys) };

    /// Writes the state's bytes (`serialfunc`). There are `WIDTH` of them.
    fn serialize(state: &Self::State, bytes: &mut [u8])
        requires { length bytes.old ≡ WIDTH }
        ensures { Denotes most_rows (shape_of function) bytes.new (denoted state.now) };

    /// The state that has these bytes (`deserialfunc`).
    ///
    /// # Errors
    ///
    /// `BadState` if the bytes are not a state.
    fn deserialize(bytes: &[u8]) -> Result<Self::State, BadState>
        ensures ok { IfOk result
            (λ state. Denotes most_rows (shape_of function) bytes.now (denoted state)) }
        ensures err { OnErr result
            ((p : Partial) → ¬ (Denotes most_rows (shape_of function) bytes.now p)) };

    /// The function's result (`finalfunc`): the state finalized.
    fn finish(state: &Self::State) -> ResultValue<'static>
        ensures { outcome_of result ≡ outcome (denoted state.now) };

    // The width is that of the function's states.
    ghost fits: { WIDTH ≡ width_of (shape_of function) };
}

/// The state of a list of arguments: the first state, moved on by each argument in turn.
///
/// Each argument is null or of the function's argument kind, and there are at most 2^62 - 1.
pub fn aggregate_values<A: Aggregate>(values: &[Value<'_>]) -> A::State
    requires takes { All (Takes A.function) (row_of values.now) }
    requires few { length values.now ≤ most_rows }
    ensures { A.denoted result ≡ model.partial A.function (row_of values.now) }
{
    let mut state = A::init();
    for value in values {
        state = A::transition(state, *value);
    }
    state
}

/// The state of two lists of arguments appended, each aggregated by itself (PostgreSQL 17, 36.12.4 Partial
/// Aggregation).
///
/// Each argument is null or of the function's argument kind, and there are at most 2^62 - 1.
pub fn aggregate_in_parts<A: Aggregate>(first: &[Value<'_>], second: &[Value<'_>]) -> A::State
    requires takes_first { All (Takes A.function) (row_of first.now) }
    requires takes_second { All (Takes A.function) (row_of second.now) }
    requires few { length first.now + length second.now ≤ most_rows }
    ensures { A.denoted result ≡ model.partial A.function (row_of (first.now ++ second.now)) }
{
    A::combine(aggregate_values::<A>(first), aggregate_values::<A>(second))
}

/// A transition leads from the partial result of a list to that of the list with one more argument. Combining with the
/// partial result of that argument alone gives the same.
pub fn moving()
    ensures one_more { (function : Function) (xs : List Datum) (value : Datum) →
        Takes function value →
        combining.transition function (model.partial function xs) value ≡
        model.partial function (xs ++ value ∷ []) }
    ensures alone { (function : Function) (most : ℕ) (p : Partial) (value : Datum) →
        IsState most (shape_of function) p → Takes function value →
        combining.transition function p value ≡
        combining.combine function p (model.partial function (value ∷ [])) }
{}

/// Bytes denote at most one partial result of a shape, and have its width. So `deserialize` undoes `serialize`, and
/// reads no other bytes as that state.
#[tactic(auto, using(crate::specs::DenotingLaws::width_known))]
pub fn spelling()
    ensures one { (most : ℕ) (shape : Shape) (bytes : List ℕ) (p q : Partial) → most ≤ most_rows →
        Denotes most shape bytes p → Denotes most shape bytes q → p ≡ q }
    ensures wide { (most : ℕ) (shape : Shape) (bytes : List ℕ) (p : Partial) →
        Denotes most shape bytes p → length bytes ≡ width_of shape }
{}
