//! The values of which a function combines two to one: numbers of 64 bits, and truth values.

ghost use Rattle.std.specs.Prelude.{◌≡◌, ℕ, [], length, Option, Some, None, IfOk, OnErr};
ghost use Rattle.grouping_model.specs.Aggregates as model;
ghost use Rattle.grouping_model.specs.Aggregates.{Function, Partial, Plain, outcome};
ghost use Rattle.grouping_model.specs.Datum.{Datum, Null};
ghost use Rattle.grouping_model.specs.Combining.{combine, transition, joined};
ghost use Rattle.packed_rows.specs.View.{datum_of};
ghost use Rattle.agg_protocol.specs.Results.{outcome_of};
ghost use Rattle.agg_protocol.specs.States.{Shape, Denotes, shape_of, width_of, rows_of, most_rows};

use crate::codec::{read_number, read_truth, write_number, write_truth};
use agg_protocol::{BadState, ResultValue};
use packed_rows::Value;

/// What functions take that combine two values to one. A state is such a value, or `None` if there was none.
pub trait Operand: Copy {
    // What the states hold.
    ghost shape: { Shape };

    // The partial result that a state denotes.
    ghost denoted: { Option Self → Partial };

    // What a function makes of two.
    ghost both_of: { Function → Self → Self → Self };

    ghost WIDTH: { ℕ };

    /// How many bytes a state has.
    const WIDTH: usize;

    // The operand that an argument is, if it is one.
    ghost operand: { Datum → Option Self };

    /// The operand that an argument is, or `None` for a null.
    fn of(value: Value<'_>) -> Option<Self>
        ensures { result ≡ operand (datum_of value.entry) };

    /// Writes a state.
    fn write(state: Option<Self>, bytes: &mut [u8])
        requires { length bytes.old ≡ WIDTH }
        ensures { Denotes most_rows shape bytes.new (denoted state) };

    /// Reads a state.
    ///
    /// # Errors
    ///
    /// `BadState` if the bytes are not a state.
    fn read(bytes: &[u8]) -> Result<Option<Self>, BadState>
        ensures ok { IfOk result (λ state. Denotes most_rows shape bytes.now (denoted state)) }
        ensures err { OnErr result ((p : Partial) → ¬ (Denotes most_rows shape bytes.now p)) };

    /// The operand as a function's result.
    fn answer(self) -> ResultValue<'static>
        ensures { outcome_of result ≡ outcome (denoted (Some self)) };

    // The state before any argument denotes nothing, and its result is null.
    ghost first: { (function : Function) → shape_of function ≡ shape →
        denoted None ≡ model.partial function [] };

    ghost none: { outcome (denoted None) ≡ Plain Null };

    // What is denoted after one more argument, and by the states of both.
    ghost moves: { (function : Function) (state : Option Self) (value : Datum) →
        transition function (denoted state) value ≡
        denoted (joined (both_of function) state (operand value)) };

    ghost combines: { (function : Function) (a b : Option Self) →
        combine function (denoted a) (denoted b) ≡ denoted (joined (both_of function) a b) };

    // States count no rows, and have the width of what they hold.
    ghost uncounted: { (state : Option Self) → rows_of (denoted state) ≡ 0 };

    ghost fits: { WIDTH ≡ width_of shape };
}

impl Operand for i64 {
    ghost use Rattle.std.specs.Prelude.{refl, ◌≡◌, length};
    ghost use Rattle.agg_protocol.specs.States.{Denotes, most_rows};
    ghost use Rattle.std.proofs.Common.{sym};
    ghost use Rattle.grouping_model.specs.Aggregates.{Number, as_number};
    ghost use Rattle.grouping_model.specs.Combining.{of_numbers};
    ghost use Rattle.agg_protocol.specs.States.{A_number};
    ghost use Rattle.agg_protocol.specs.Lemmas.ArgumentLaws.{number_first};

    ghost shape = { A_number };

    ghost denoted = { λ number. Number number };

    ghost both_of = { of_numbers };

    ghost operand = { as_number };

    ghost WIDTH = { 9 };

    const WIDTH: usize = 9;

    fn of(value: Value<'_>) -> Option<i64> {
        match value {
            Value::Bigint(number) => Some(number),
            _ => None,
        }
    }

    fn write(state: Option<i64>, bytes: &mut [u8])
        requires { length bytes.old ≡ 9 }
        ensures { Denotes most_rows A_number bytes.new (Number state) }
    {
        write_number(state, bytes);
    }

    fn read(bytes: &[u8]) -> Result<Option<i64>, BadState> {
        read_number(bytes)
    }

    fn answer(self) -> ResultValue<'static> {
        ResultValue::Bigint(self)
    }

    ghost first = { λ function shape. sym (number_first function shape) };

    ghost none = { refl };

    ghost moves = { λ function state value. refl };

    ghost combines = { λ function a b. refl };

    ghost uncounted = { λ state. refl };

    ghost fits = { refl };
}

impl Operand for bool {
    ghost use Rattle.std.specs.Prelude.{refl, ◌≡◌, length};
    ghost use Rattle.agg_protocol.specs.States.{Denotes, most_rows};
    ghost use Rattle.std.proofs.Common.{sym};
    ghost use Rattle.grouping_model.specs.Aggregates.{Truth_value, as_boolean};
    ghost use Rattle.grouping_model.specs.Combining.{of_truths};
    ghost use Rattle.agg_protocol.specs.States.{A_truth};
    ghost use Rattle.agg_protocol.specs.Lemmas.ArgumentLaws.{truth_first};

    ghost shape = { A_truth };

    ghost denoted = { λ truth. Truth_value truth };

    ghost both_of = { of_truths };

    ghost operand = { as_boolean };

    ghost WIDTH = { 1 };

    const WIDTH: usize = 1;

    fn of(value: Value<'_>) -> Option<bool> {
        match value {
            Value::Boolean(truth) => Some(truth),
            _ => None,
        }
    }

    fn write(state: Option<bool>, bytes: &mut [u8])
        requires { length bytes.old ≡ 1 }
        ensures { Denotes most_rows A_truth bytes.new (Truth_value state) }
    {
        write_truth(state, bytes);
    }

    fn read(bytes: &[u8]) -> Result<Option<bool>, BadState> {
        read_truth(bytes)
    }

    fn answer(self) -> ResultValue<'static> {
        ResultValue::Boolean(self)
    }

    ghost first = { λ function shape. sym (truth_first function shape) };

    ghost none = { refl };

    ghost moves = { λ function state value. refl };

    ghost combines = { λ function a b. refl };

    ghost uncounted = { λ state. refl };

    ghost fits = { refl };
}
