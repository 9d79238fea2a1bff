//! Reading a query's text, and writing it again.
#![tactic(auto)]

mod conditions;
mod cursor;
mod error;
mod fault;
mod front;
mod laws;
mod lists;
mod operands;
mod order;
mod parsing;
mod printing;
mod query;

pub use error::ParseError;
pub use front::{begins, count_begun, goes_on};
pub use laws::exactly_the_grammar;
pub use parsing::{parse, read};
pub use printing::print;
