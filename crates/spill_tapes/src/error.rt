//! Why a call of tapes is refused.
ghost use Rattle.std.specs.Prelude.{◌≡◌};
ghost use Rattle.spill_tapes.specs.Errors.{tape_error};
ghost use Rattle.spill_tapes.specs.declared.error.TapeError.TheVariants.{NoMemory};

use std::alloc::AllocError;
use tape_disks::DiskError;
use thiserror::Error;

/// Why a call of tapes is refused.
#[derive(Clone, Copy, Debug, PartialEq, Eq, Error)]
pub enum TapeError {
    /// Memory ran out.
    #[error("out of memory")]
    NoMemory,
    /// The disk failed.
    #[error("the tape disk failed")]
    TapeFault,
    /// The bytes read from the disk are not those of a record.
    #[error("the tape is damaged")]
    TapeDamaged,
    /// A call on these tapes failed earlier.
    #[error("the tapes are dead")]
    TapesDead,
}

impl From<DiskError> for TapeError {
    ghost from_gives = { λ d e. e ≡ tape_error d };

    fn from(error: DiskError) -> TapeError {
        match error {
            DiskError::NoMemory => TapeError::NoMemory,
            DiskError::TapeFault => TapeError::TapeFault,
        }
    }
}

impl From<AllocError> for TapeError {
    ghost from_gives = { λ _ e. e ≡ NoMemory };

    fn from(_error: AllocError) -> TapeError {
        TapeError::NoMemory
    }
}
