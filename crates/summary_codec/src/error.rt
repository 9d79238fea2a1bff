//! Why bytes are not a summary file.

ghost use Rattle.std.specs.Prelude.{◌≡◌};
ghost use Rattle.summary_codec.specs.Names.{summary_name};
ghost use Rattle.summary_codec.specs.declared.error.SummaryError.TheVariants.{NoMemory};

use group_parser::ParseError;
use std::alloc::AllocError;
use thiserror::Error;

/// Why bytes are not a summary file: the first fault from the left, or `NoMemory`.
#[derive(Clone, Copy, Debug, PartialEq, Eq, Error)]
pub enum SummaryError {
    /// Memory ran out.
    #[error("out of memory")]
    NoMemory,
    /// The first bytes aren't those of a summary file.
    #[error("not a summary file")]
    NotASummary,
    /// The file ends within a field.
    #[error("the summary file is cut short")]
    Truncated,
    /// Bytes follow the last field.
    #[error("bytes follow the end of the summary file")]
    Trailing,
    /// A text isn't canonical, or origins, keys or early numbers aren't in ascending order. Or an early number isn't above the prefix and
    /// one more, or nothing is held of an origin.
    #[error("the summary file isn't in its canonical form")]
    NotCanonical,
    /// A number is above its limit.
    #[error("a number of the summary file is out of range")]
    OutOfRange,
    /// The schema's text is not a schema.
    #[error("the summary file has no valid schema")]
    BadSchema,
    /// A key or a row isn't packed correctly.
    #[error("a packed row or key of the summary file is damaged")]
    BadPacked,
    /// A state row denotes no states that count at most the prefix of its origin times the rows of a batch.
    #[error("a state of the summary file is damaged")]
    BadState,
    /// The query's text is refused.
    #[error(transparent)]
    Query(ParseError),
}

impl SummaryError {
    /// The name of what is wrong with a summary file, as replies show it.
    pub fn name(self) -> &'static str
        ensures { result.now ≡ summary_name self }
    {
        match self {
            SummaryError::NoMemory => "NoMemory",
            SummaryError::NotASummary => "NotASummary",
            SummaryError::Truncated => "Truncated",
            SummaryError::Trailing => "Trailing",
            SummaryError::NotCanonical => "NotCanonical",
            SummaryError::OutOfRange => "OutOfRange",
            SummaryError::BadSchema => "BadSchema",
            SummaryError::BadPacked => "BadPacked",
            SummaryError::BadState => "BadState",
            SummaryError::Query(error) => error.name(),
        }
    }
}

impl From<AllocError> for SummaryError {
    ghost from_gives = { λ _ e. e ≡ NoMemory };

    fn from(_error: AllocError) -> SummaryError {
        SummaryError::NoMemory
    }
}
