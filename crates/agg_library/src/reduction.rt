//! The functions that combine two values to one, as a reduction of all values (PostgreSQL 17, 9.21 Aggregate Functions).

ghost use Rattle.std.proofs.Common.{ap, sym, ◌∙◌};
ghost use Rattle.std.specs.Prelude.{◌≡◌};
ghost use Rattle.grouping_model.specs.Aggregates.{Function};
ghost use Rattle.grouping_model.specs.Combining.{joined as joined_by};
ghost use Rattle.agg_protocol.specs.States.{shape_of, width_of};

use crate::operands::Operand;
use crate::parts::Counting;
use agg_protocol::{Aggregate, BadState, ResultValue};
use packed_rows::Value;
use std::marker::PhantomData;

/// How a function combines two values.
pub trait Operation {
    /// The values that it takes.
    type Of: Operand;

    // The function.
    ghost function: { Function };

    /// One value of two.
    fn both(x: Self::Of, y: Self::Of) -> Self::Of
        ensures { result ≡ Self.Of.both_of function x y };

    // The function's partial results are such values.
    ghost on: { shape_of function ≡ Self.Of.shape };
}

// The value of both sides. Where one has none, it is the other's.
fn joined<O: Operation>(a: Option<O::Of>, b: Option<O::Of>) -> Option<O::Of>
    ensures { result ≡ joined_by (O.Of.both_of O.function) a b }
{
    match (a, b) {
        (None, value) | (value, None) => value,
        (Some(x), Some(y)) => Some(O::both(x, y)),
    }
}

/// An operation over all the values. A state is the value so far, or `None` if there was none.
pub struct Reduction<O> {
    operation: PhantomData<O>,
}

impl<O: Operation> Aggregate for Reduction<O> {
    type State = Option<O::Of>;

    ghost WIDTH = { O.Of.WIDTH };

    const WIDTH: usize = O::Of::WIDTH;

    ghost function = { O.function };

    ghost denoted = { O.Of.denoted };

    fn init() -> Option<O::Of> {
        None
    }

    fn transition(state: Option<O::Of>, value: Value<'_>) -> Option<O::Of> {
        joined::<O>(state, O::Of::of(value))
    }

    fn combine(a: Option<O::Of>, b: Option<O::Of>) -> Option<O::Of> {
        joined::<O>(a, b)
    }

    fn serialize(state: &Option<O::Of>, bytes: &mut [u8]) {
        O::Of::write(*state, bytes);
    }

    fn deserialize(bytes: &[u8]) -> Result<Option<O::Of>, BadState> {
        O::Of::read(bytes)
    }

    fn finish(state: &Option<O::Of>) -> ResultValue<'static> {
        match *state {
            None => ResultValue::Null,
            Some(value) => value.answer(),
        }
    }

    ghost fits = { O.Of.fits ∙ ap width_of (sym O.on) };
}

impl<O: Operation> Counting for Reduction<O> {
    fn rows(_state: &Option<O::Of>) -> u64 {
        0
    }

    fn rows_after(_state: &Option<O::Of>, _value: Value<'_>) -> u64 {
        0
    }
}
