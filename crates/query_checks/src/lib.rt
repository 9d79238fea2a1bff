//! Queries as they are written: their parts, their canonical text, and the checks that they pass before they are evaluated.
#![tactic(auto)]

mod arrangement;
mod calls;
mod checking;
mod checks;
mod condition;
mod distinct;
mod error;
mod levels;
mod limits;
mod mapping;
mod operators;
mod order;
mod parts;
mod reads;
mod same;
mod spelling;
mod whole;

pub use arrangement::{Arrangement, check_arrangement};
pub use checking::{check_parts, text_of_known};
pub use condition::{AggCall, Cond, Item, RawQuery};
pub use error::QueryError;
pub use levels::precedence;
pub use mapping::{Mapping, mapped_call, mapped_clause};
pub use operators::{Comparison, IsTest};
pub use order::{OrderBy, OrderTerm, RawTerm, label};
pub use parts::Parts;
pub use same::is_same_call;
pub use spelling::{kept_alias, own_name};
