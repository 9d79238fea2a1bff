//! Aggregate functions of PostgreSQL 17 (9.21 Aggregate Functions), which `AggKind` names. Each is an `Aggregate`, and
//! `StateRow` keeps the states of several as a row of bytes.
#![tactic(auto)]

mod codec;
mod counting;
mod numbers;
mod operands;
mod parts;
mod reduction;
mod state_row;
mod sums;
mod truths;

pub use crate::codec::MAX_COUNTED;
pub use crate::counting::{CountRows, CountValues};
pub use crate::numbers::{BitAnd, BitOr, BitXor, Max, Min};
pub use crate::state_row::{StateRow, parts_of_rows};
pub use crate::sums::Sum;
pub use crate::truths::{BoolAnd, BoolOr, Every};
pub use agg_protocol::{AggKind, Argument, Signature};
