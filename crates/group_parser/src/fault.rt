//! Why reading stopped.

ghost use Rattle.std.specs.Prelude.{◌≡◌};
ghost use Rattle.group_parser.specs.declared.fault.ReadError.TheVariants.{NoMemory};

use query_tokens::Token;
use std::alloc::{AllocError, AllocFailed};

/// Why reading stopped. A place is given by how many tokens are left from it on.
#[derive(Clone, Copy, Debug, PartialEq, Eq)]
pub(crate) enum ReadError {
    /// An allocation failed.
    NoMemory,
    /// A token that can't stand here, or the end of the tokens.
    Unexpected(usize),
    /// One parenthesis too many.
    TooDeep(usize),
}

impl From<AllocError> for ReadError {
    ghost from_gives = { λ _ e. e ≡ NoMemory };

    fn from(_error: AllocError) -> ReadError {
        ReadError::NoMemory
    }
}

impl<T: Drop> From<AllocFailed<T>> for ReadError {
    ghost from_gives = { λ _ e. e ≡ NoMemory };

    fn from(_error: AllocFailed<T>) -> ReadError {
        ReadError::NoMemory
    }
}

/// What was read, and the tokens after it.
pub(crate) type Read<'a, T> = Result<(T, &'a [Token]), ReadError>;
