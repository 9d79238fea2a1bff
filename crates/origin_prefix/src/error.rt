//! Why a batch or a part is refused.

ghost use Rattle.std.specs.Prelude.{◌≡◌};
ghost use Rattle.origin_prefix.specs.Errors.{no_memory};
ghost use Rattle.origin_prefix.specs.declared.error.JoinError.TheVariants.{Spill};

use batch_reader::Batch;
use hash_agg::SpillError;
use std::alloc::AllocError;
use thiserror::Error;

/// Why a batch is not taken, or parts are not joined.
#[derive(Clone, Copy, Debug, PartialEq, Eq, Error)]
pub enum JoinError {
    /// A number of the origin has two different batches: the given one, which is early, or else one within equal prefixes that have
    /// different groups.
    #[error("an origin gave one number to two different batches")]
    OriginDisagrees {
        /// The number, if it is early.
        number: Option<u32>,
    },
    /// Memory ran out. Or while batches were folded the tape disk failed, or gave back what was not written to it.
    #[error(transparent)]
    Spill(SpillError),
}

impl From<AllocError> for JoinError {
    ghost from_gives = { λ _ e. e ≡ no_memory };

    fn from(_error: AllocError) -> JoinError {
        JoinError::Spill(SpillError::NoMemory)
    }
}

impl From<SpillError> for JoinError {
    ghost from_gives = { λ error e. e ≡ Spill error };

    fn from(error: SpillError) -> JoinError {
        JoinError::Spill(error)
    }
}

/// A batch that was refused, handed back as it was delivered.
#[derive(Drop)]
pub struct RefusedBatch {
    /// The batch.
    pub batch: Batch,
    /// Why it was refused.
    pub why: JoinError,
}
