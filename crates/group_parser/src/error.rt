//! Why a text is not a query.

ghost use Rattle.std.specs.Prelude.{◌≡◌};
ghost use Rattle.group_parser.specs.Names.{parse_name};
ghost use Rattle.group_parser.specs.declared.error.ParseError.TheVariants.{Query};
ghost use Rattle.group_parser.specs.Parsing.{no_memory, of_token_error};

use having_filter::QueryError;
use query_tokens::{Fault, TokenError};
use std::alloc::{AllocError, AllocFailed};
use thiserror::Error;

/// Why a text is not a query over a schema.
#[derive(Clone, Copy, Debug, PartialEq, Eq, Error)]
pub enum ParseError {
    /// At this byte, counted from 0, no token begins, or a token that no query can go on with. At the text's length the
    /// query is incomplete.
    #[error("syntax error at byte {at}")]
    Syntax { at: usize },
    /// An integer is below -9223372036854775808 or above 9223372036854775807.
    #[error("integer out of the range of 64 bits")]
    NumberTooLarge,
    /// The query is refused: it fails a check, or memory ran out. It is `TooMany` too for a text that is too long, and
    /// `TooDeep` for a condition in which too many parentheses are open at once.
    #[error(transparent)]
    Query(QueryError),
}

impl ParseError {
    /// The name of what is wrong with a query's text, as replies show it.
    pub fn name(self) -> &'static str
        ensures { result.now ≡ parse_name self }
    {
        match self {
            ParseError::Syntax { .. } => "Syntax",
            ParseError::NumberTooLarge => "NumberTooLarge",
            ParseError::Query(error) => error.name(),
        }
    }
}

impl From<AllocError> for ParseError {
    ghost from_gives = { λ _ e. e ≡ no_memory };

    fn from(_error: AllocError) -> ParseError {
        ParseError::Query(QueryError::NoMemory)
    }
}

impl<T: Drop> From<AllocFailed<T>> for ParseError {
    ghost from_gives = { λ _ e. e ≡ no_memory };

    fn from(_error: AllocFailed<T>) -> ParseError {
        ParseError::Query(QueryError::NoMemory)
    }
}

impl From<TokenError> for ParseError {
    ghost from_gives = { λ error e. e ≡ of_token_error error };

    fn from(error: TokenError) -> ParseError {
        match error {
            TokenError::NoMemory => ParseError::Query(QueryError::NoMemory),
            TokenError::Fault(Fault::Syntax { at }) => ParseError::Syntax { at },
            TokenError::Fault(Fault::NumberTooLarge) => ParseError::NumberTooLarge,
        }
    }
}

impl From<QueryError> for ParseError {
    ghost from_gives = { λ error e. e ≡ Query error };

    fn from(error: QueryError) -> ParseError {
        ParseError::Query(error)
    }
}
