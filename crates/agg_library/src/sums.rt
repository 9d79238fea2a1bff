//! The sum, exact in 128 bits (PostgreSQL 17, 9.21 Aggregate Functions: the sum of bigints is numeric).

ghost use Rattle.std.specs.Prelude.{◌≡◌, ◌≤◌, ◌+◌, ◌+ℤ◌, ℕ, refl};
ghost use Rattle.grouping_model.specs.Aggregates as model;
ghost use Rattle.grouping_model.specs.Aggregates.{Summed};
ghost use Rattle.agg_protocol.specs.States.{most_rows, IsTotal};

use crate::codec::{read_total, write_total};
use crate::parts::Counting;
use agg_protocol::{Aggregate, BadState, ResultValue};
use packed_rows::Value;

/// How many numbers were added, at most 2^62 - 1, and their exact total.
#[derive(Clone, Copy, Debug)]
pub struct Total {
    how_many: u64,
    total: i128,
    ghost few: { how_many ≤ most_rows },
    ghost in_range: { IsTotal how_many total },
}

impl Total {
    // The total of one number.
    fn of(number: i64) -> Self
        ensures how_many { result.how_many ≡ 1 }
        ensures total { result.total ≡ number }
    {
        Total {
            how_many: 1,
            total: i128::from(number),
        }
    }

    // The total of both.
    fn and(self, other: Self) -> Self
        requires { self.how_many + other.how_many ≤ most_rows }
        ensures how_many { result.how_many ≡ self.how_many + other.how_many }
        ensures total { result.total ≡ self.total +ℤ other.total }
    {
        Total {
            how_many: self.how_many + other.how_many,
            total: self.total + other.total,
        }
    }
}

/// `sum(x)`: the exact sum of the numbers. It is null if there is none.
pub struct Sum;

impl Aggregate for Sum {
    type State = Total;

    ghost WIDTH = { 24 };

    const WIDTH: usize = 24;

    ghost function = { model.Sum };

    ghost denoted = { λ state. Summed state.how_many state.total };

    fn init() -> Total {
        Total {
            how_many: 0,
            total: 0,
        }
    }

    fn transition(state: Total, value: Value<'_>) -> Total {
        match value {
            Value::Bigint(number) => state.and(Total::of(number)),
            // A null: the function takes no other value.
            _ => state,
        }
    }

    fn combine(a: Total, b: Total) -> Total {
        a.and(b)
    }

    fn serialize(state: &Total, bytes: &mut [u8]) {
        write_total(state.how_many, state.total, bytes);
    }

    fn deserialize(bytes: &[u8]) -> Result<Total, BadState> {
        let (how_many, total) = read_total(bytes)?;
        Ok(Total { how_many, total })
    }

    #[tactic(auto, using(crate::proofs::ArgumentSteps::outcome_some))]
    fn finish(state: &Total) -> ResultValue<'static> {
        if state.how_many == 0 {
            ResultValue::Null
        } else {
            ResultValue::Numeric(state.total)
        }
    }

    ghost fits = { refl };
}

impl Counting for Sum {
    fn rows(state: &Total) -> u64 {
        state.how_many
    }

    fn rows_after(state: &Total, value: Value<'_>) -> u64 {
        match value {
            Value::Bigint(_) => state.how_many + 1,
            // A null: the function takes no other value.
            _ => state.how_many,
        }
    }
}
