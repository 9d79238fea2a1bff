//! Why replicas are not merged.

ghost use Rattle.std.specs.Prelude.{◌≡◌};
ghost use Rattle.replica_merge.specs.declared.error.MergeError.TheVariants.{NoMemory};

use origin_prefix::JoinError;
use std::alloc::AllocError;
use thiserror::Error;

/// Why replicas are not merged.
#[derive(Clone, Copy, Debug, PartialEq, Eq, Error)]
pub enum MergeError {
    /// The replicas answer different queries, or have different schemas.
    #[error("the replicas answer different queries")]
    DifferentQuery,
    /// Memory ran out, other than in joining the parts of an origin.
    #[error("out of memory")]
    NoMemory,
    /// The parts of an origin cannot be joined. It is the lowest such origin: no lower one disagrees.
    #[error("two parts of one origin cannot be joined")]
    Join {
        /// The origin.
        origin: u16,
        /// Why they cannot be joined.
        why: JoinError,
    },
}

impl From<AllocError> for MergeError {
    ghost from_gives = { λ _ e. e ≡ NoMemory };

    fn from(_error: AllocError) -> MergeError {
        MergeError::NoMemory
    }
}
