//! Conditions, aggregate calls and items, as they are read and as they are checked.

use crate::operators::{Comparison, IsTest};
use crate::order::RawTerm;
use agg_protocol::AggKind;

/// A condition, or an operand of one. A column is known by its name before a query is checked, and by its place afterwards.
#[cycle(condition)]
#[derive(Drop)]
pub enum Cond<C> {
    /// A column.
    Column(C),
    /// An aggregate's result.
    Call(Box<AggCall<C>>),
    /// A number.
    Bigint(i64),
    /// A text.
    Text(String),
    /// A truth value.
    Boolean(bool),
    /// Null.
    Null,
    /// NOT
    Not(Box<Cond<C>>),
    /// OR
    Or(Box<Cond<C>>, Box<Cond<C>>),
    /// AND
    And(Box<Cond<C>>, Box<Cond<C>>),
    /// A comparison.
    Compare(Comparison, Box<Cond<C>>, Box<Cond<C>>),
    /// An IS test, or an IS NOT test where it is negated.
    Is {
        test: IsTest,
        negated: bool,
        operand: Box<Cond<C>>,
    },
}

/// A call of an aggregate function. `count(*)` has no column. Only rows for which the filter is true reach it.
#[cycle(condition)]
#[derive(Drop)]
pub struct AggCall<C> {
    pub kind: AggKind,
    pub column: Option<C>,
    pub filter: Option<Cond<C>>,
}

/// What an item of a query's answer is.
#[derive(Drop)]
pub enum Item<C> {
    /// A column.
    Column(C),
    /// An aggregate's result.
    Call(AggCall<C>),
}

/// A query before it is checked. An item may have an alias.
#[derive(Drop)]
pub struct RawQuery {
    pub items: Vec<(Item<String>, Option<String>)>,
    pub condition: Option<Cond<String>>,
    pub keys: Vec<String>,
    pub having: Option<Cond<String>>,
    pub order: Vec<RawTerm>,
}
