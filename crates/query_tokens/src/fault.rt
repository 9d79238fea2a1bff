//! Why a text has no tokens.

ghost use Rattle.std.specs.Prelude.{◌≡◌};
ghost use Rattle.query_tokens.specs.declared.fault.TokenError.TheVariants.{NoMemory};

use std::alloc::{AllocError, AllocFailed};
use thiserror::Error;

/// What is wrong with a text: its first fault from the left.
#[derive(Clone, Copy, Debug, PartialEq, Eq, Error)]
pub enum Fault {
    /// No token begins at this byte, or the token that begins there is malformed: an unterminated string; a string with
    /// the character 0; a name of more than 63 bytes; or digits with a letter or `_` directly after them. Bytes are
    /// counted from 0, and a minus sign belongs to its digits.
    #[error("syntax error at byte {at}")]
    Syntax { at: usize },
    /// An integer is below -9223372036854775808 or above 9223372036854775807.
    #[error("integer out of the range of 64 bits")]
    NumberTooLarge,
}

/// Why a text was not read as tokens.
#[derive(Clone, Copy, Debug, PartialEq, Eq, Error)]
pub enum TokenError {
    /// Memory ran out.
    #[error("out of memory")]
    NoMemory,
    /// The text has a fault.
    #[error(transparent)]
    Fault(Fault),
}

impl From<AllocError> for TokenError {
    ghost from_gives = { λ _ e. e ≡ NoMemory };

    fn from(_error: AllocError) -> TokenError {
        TokenError::NoMemory
    }
}

impl<T: Drop> From<AllocFailed<T>> for TokenError {
    ghost from_gives = { λ _ e. e ≡ NoMemory };

    fn from(_error: AllocFailed<T>) -> TokenError {
        TokenError::NoMemory
    }
}
