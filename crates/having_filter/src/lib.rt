//! Queries that were checked, and whether their conditions are true.
#![tactic(auto)]

mod answer;
mod cells;
mod copying;
mod laws;
mod leaves;
mod ordering;
mod plan;
mod query;
mod texts;
mod truth;
mod value;

pub use answer::{Answer, AnswerRows};
pub use laws::conditions_of_checked_queries;
pub use plan::Source;
pub use query::Query;
pub use query_checks::{
    AggCall, Arrangement, Comparison, Cond, IsTest, Item, OrderBy, OrderTerm, QueryError, RawQuery,
    RawTerm,
};
