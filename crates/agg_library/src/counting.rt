//! The functions that count arguments: of rows, and of arguments that are not null
//! (PostgreSQL 17, 9.21 Aggregate Functions).

ghost use Rattle.std.proofs.Common.{rules};
ghost use Rattle.std.specs.Prelude.{◌≡◌, ◌≤◌, ◌+◌, ℕ, refl};
ghost use Rattle.grouping_model.specs.Aggregates as model;
ghost use Rattle.grouping_model.specs.Aggregates.{Function, Counted, counts};
ghost use Rattle.packed_rows.specs.View.{datum_of};
ghost use Rattle.agg_protocol.specs.States.{shape_of, most_rows, A_count};

use crate::codec::{read_count, write_count};
use crate::parts::Counting;
use agg_protocol::{Aggregate, BadState, ResultValue};
use packed_rows::Value;
use std::marker::PhantomData;

/// How many rows were counted: at most 2^62 - 1.
#[derive(Clone, Copy, Debug)]
pub struct Rows {
    count: u64,
    ghost few: { count ≤ most_rows },
}

impl Rows {
    // So many rows more.
    fn and(self, more: u64) -> Self
        requires { self.count + more ≤ most_rows }
        ensures { result.count ≡ self.count + more }
    {
        Rows {
            count: self.count + more,
        }
    }
}

/// Which arguments a count counts.
pub trait CountOperation {
    // The function.
    ghost function: { Function };

    /// Whether the argument counts.
    fn counts(value: Value<'_>) -> bool
        ensures { result ≡ counts function (datum_of value.entry) };

    // The function's partial results are counts.
    ghost on_counts: { shape_of function ≡ A_count };
}

/// Each row counts, whatever its value.
pub struct EachRow;

impl CountOperation for EachRow {
    ghost function = { model.Count_rows };

    fn counts(_value: Value<'_>) -> bool {
        true
    }

    ghost on_counts = { refl };
}

/// A value counts if it is not null.
pub struct EachValue;

impl CountOperation for EachValue {
    ghost function = { model.Count };

    fn counts(value: Value<'_>) -> bool {
        !matches!(value, Value::Null)
    }

    ghost on_counts = { refl };
}

/// `count(*)` and `count(x)`: how many arguments count.
pub struct OfRows<O> {
    operation: PhantomData<O>,
}

impl<O: CountOperation> Aggregate for OfRows<O> {
    type State = Rows;

    ghost WIDTH = { 8 };

    const WIDTH: usize = 8;

    ghost function = { O.function };

    ghost denoted = { λ rows. Counted rows.count };

    fn init() -> Rows {
        Rows { count: 0 }
    }

    fn transition(state: Rows, value: Value<'_>) -> Rows {
        if O::counts(value) {
            state.and(1)
        } else {
            state
        }
    }

    fn combine(a: Rows, b: Rows) -> Rows {
        a.and(b.count)
    }

    fn serialize(state: &Rows, bytes: &mut [u8]) {
        write_count(state.count, bytes);
    }

    fn deserialize(bytes: &[u8]) -> Result<Rows, BadState> {
        Ok(Rows {
            count: read_count(bytes)?,
        })
    }

    fn finish(state: &Rows) -> ResultValue<'static> {
        ResultValue::Bigint(state.count.cast_signed())
    }

    ghost fits = { Prim.search rules };
}

impl<O: CountOperation> Counting for OfRows<O> {
    fn rows(state: &Rows) -> u64 {
        state.count
    }

    fn rows_after(state: &Rows, value: Value<'_>) -> u64 {
        if O::counts(value) {
            state.count + 1
        } else {
            state.count
        }
    }
}

/// `count(*)`: how many rows there are.
pub type CountRows = OfRows<EachRow>;

/// `count(x)`: how many arguments are not null.
pub type CountValues = OfRows<EachValue>;
