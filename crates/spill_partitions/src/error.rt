//! Why records are not spilled, or not read again.

ghost use Rattle.std.specs.Prelude.{◌≡◌};
ghost use Rattle.spill_partitions.specs.declared.error.SpillError.TheVariants.{NoMemory};

use std::alloc::{AllocError, AllocFailed};
use thiserror::Error;

/// Why records are not spilled, or not read again.
#[derive(Clone, Copy, Debug, PartialEq, Eq, Error)]
pub enum SpillError {
    /// Memory ran out.
    #[error("out of memory")]
    NoMemory,
    /// The disk failed.
    #[error("the tape disk failed")]
    TapeFault,
    /// What was read from the disk is not what was written to it.
    #[error("the tape is damaged")]
    TapeDamaged,
}

impl From<AllocError> for SpillError {
    ghost from_gives = { λ _ e. e ≡ NoMemory };

    fn from(_error: AllocError) -> SpillError {
        SpillError::NoMemory
    }
}

impl<T: Drop> From<AllocFailed<T>> for SpillError {
    ghost from_gives = { λ _ e. e ≡ NoMemory };

    fn from(_error: AllocFailed<T>) -> SpillError {
        SpillError::NoMemory
    }
}
