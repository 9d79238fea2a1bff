//! Why a call of a context is refused.

ghost use Rattle.std.specs.Prelude.{◌≡◌};
ghost use Rattle.chunk_contexts.specs.declared.error.ContextError.TheVariants.{NoMemory};

use std::alloc::AllocError;
use thiserror::Error;

/// Why a call of a context is refused. A refused call changes nothing.
#[derive(Clone, Copy, Debug, PartialEq, Eq, Error)]
pub enum ContextError {
    /// Memory ran out for a block that the call needs.
    #[error("out of memory")]
    NoMemory,
    /// The chunk would have more than 1,073,741,823 bytes, the most of a chunk.
    #[error("chunk too large")]
    TooLarge,
    /// A slab has only chunks of its own size.
    #[error("wrong chunk size")]
    WrongSize,
    /// This kind of context has no such call.
    #[error("not supported by this kind of context")]
    NotSupported,
}

impl From<AllocError> for ContextError {
    ghost from_gives = { λ _ e. e ≡ NoMemory };

    fn from(_error: AllocError) -> ContextError {
        ContextError::NoMemory
    }
}
