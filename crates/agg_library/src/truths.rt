//! The functions that combine two truth values to one: whether all are true, and whether one is
//! (PostgreSQL 17, 9.21 Aggregate Functions).

ghost use Rattle.std.specs.Prelude.{refl};
ghost use Rattle.grouping_model.specs.Aggregates as model;

use crate::reduction::{Operation, Reduction};

/// Both are true.
pub struct Both;

impl Operation for Both {
    type Of = bool;

    ghost function = { model.Bool_and };

    fn both(x: bool, y: bool) -> bool {
        x && y
    }

    ghost on = { refl };
}

/// At least one of them is true.
pub struct Either;

impl Operation for Either {
    type Of = bool;

    ghost function = { model.Bool_or };

    fn both(x: bool, y: bool) -> bool {
        x || y
    }

    ghost on = { refl };
}

/// Both are true, for `every`, which is SQL's other name of `bool_and`.
pub struct EachOne;

impl Operation for EachOne {
    type Of = bool;

    ghost function = { model.Every };

    fn both(x: bool, y: bool) -> bool {
        x & y
    }

    ghost on = { refl };
}

/// `bool_and(x)`: whether all truth values are true.
pub type BoolAnd = Reduction<Both>;

/// `bool_or(x)`: whether some truth value is true.
pub type BoolOr = Reduction<Either>;

/// `every(x)`: whether all truth values are true.
pub type Every = Reduction<EachOne>;
