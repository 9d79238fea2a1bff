//! The functions that combine two numbers to one: the least, the greatest, and the operations on bits
//! (PostgreSQL 17, 9.21 Aggregate Functions).

ghost use Rattle.std.specs.Prelude.{refl};
ghost use Rattle.grouping_model.specs.Aggregates as model;

use crate::reduction::{Operation, Reduction};

/// The lesser of two numbers.
pub struct Lesser;

impl Operation for Lesser {
    type Of = i64;

    ghost function = { model.Min };

    fn both(x: i64, y: i64) -> i64 {
        x.min(y)
    }

    ghost on = { refl };
}

/// The greater of two numbers.
pub struct Greater;

impl Operation for Greater {
    type Of = i64;

    ghost function = { model.Max };

    fn both(x: i64, y: i64) -> i64 {
        x.max(y)
    }

    ghost on = { refl };
}

/// The bits that both numbers have.
pub struct BothBits;

impl Operation for BothBits {
    type Of = i64;

    ghost function = { model.Bit_and };

    fn both(x: i64, y: i64) -> i64 {
        x & y
    }

    ghost on = { refl };
}

/// The bits that either number has.
pub struct EitherBits;

impl Operation for EitherBits {
    type Of = i64;

    ghost function = { model.Bit_or };

    fn both(x: i64, y: i64) -> i64 {
        x | y
    }

    ghost on = { refl };
}

/// The bits that one of the numbers has and the other has not.
pub struct DifferentBits;

impl Operation for DifferentBits {
    type Of = i64;

    ghost function = { model.Bit_xor };

    fn both(x: i64, y: i64) -> i64 {
        x ^ y
    }

    ghost on = { refl };
}

/// `min(x)`: the least number.
pub type Min = Reduction<Lesser>;

/// `max(x)`: the greatest number.
pub type Max = Reduction<Greater>;

/// `bit_and(x)`: the bits that all numbers have.
pub type BitAnd = Reduction<BothBits>;

/// `bit_or(x)`: the bits that some number has.
pub type BitOr = Reduction<EitherBits>;

/// `bit_xor(x)`: the bits that an odd number of the numbers have.
pub type BitXor = Reduction<DifferentBits>;
