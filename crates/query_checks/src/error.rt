//! Why a query is refused.

ghost use Rattle.std.specs.Prelude.{◌≡◌};
ghost use Rattle.query_checks.specs.Names.{query_name};
ghost use Rattle.query_checks.specs.declared.error.QueryError.TheVariants.{NoMemory};

use std::alloc::AllocError;
use thiserror::Error;

/// Why a query is refused.
#[derive(Clone, Copy, Debug, PartialEq, Eq, Error)]
pub enum QueryError {
    /// An allocation failed.
    #[error("out of memory")]
    NoMemory,
    /// It names a column that the schema doesn't have, or in ORDER BY an item that the query doesn't have.
    #[error("the column does not exist")]
    NoSuchColumn,
    /// Outside of aggregates, the select list or HAVING uses a column that GROUP BY does not name.
    #[error("a column must be in GROUP BY or be used in an aggregate function")]
    NotGrouped,
    /// An argument, an operand or a condition has the wrong type.
    #[error("an operand or an argument has the wrong type")]
    TypeMismatch,
    /// An aggregate is called in WHERE or FILTER.
    #[error("aggregate functions are not allowed in WHERE or FILTER")]
    AggregateHere,
    /// There are more items, keys or aggregate calls than a query may have, or the canonical text is too long.
    #[error("too many items, keys or aggregate calls, or the query is too long")]
    TooMany,
    /// A condition is nested too deeply.
    #[error("conditions are nested too deeply")]
    TooDeep,
    /// A name in ORDER BY names two items that are not the same column or call.
    #[error("a name in ORDER BY is ambiguous")]
    AmbiguousOrder,
}

impl QueryError {
    /// The name of the error, as replies show it.
    pub fn name(self) -> &'static str
        ensures { result.now ≡ query_name self }
    {
        match self {
            QueryError::NoMemory => "NoMemory",
            QueryError::NoSuchColumn => "NoSuchColumn",
            QueryError::NotGrouped => "NotGrouped",
            QueryError::TypeMismatch => "TypeMismatch",
            QueryError::AggregateHere => "AggregateHere",
            QueryError::TooMany => "TooMany",
            QueryError::TooDeep => "TooDeep",
            QueryError::AmbiguousOrder => "AmbiguousOrder",
        }
    }
}

impl From<AllocError> for QueryError {
    ghost from_gives = { λ _ e. e ≡ NoMemory };

    fn from(_error: AllocError) -> QueryError {
        QueryError::NoMemory
    }
}
