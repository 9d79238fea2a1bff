//! Why a call of a tree is refused.

ghost use Rattle.std.specs.Prelude.{◌≡◌};
ghost use Rattle.chunk_contexts.specs.declared.error.ContextError.TheVariants.{NoMemory};
ghost use Rattle.context_tree.specs.declared.error.TreeError.TheVariants.{Context};

use chunk_contexts::ContextError;
use std::alloc::AllocError;
use thiserror::Error;

/// Why a call of a tree is refused. The first that applies is told, in this order; what the call was given is then as it was. The
/// contract of `Tree::get_mut` alone does not say so.
#[derive(Clone, Copy, Debug, PartialEq, Eq, Error)]
pub enum TreeError {
    /// No context of the tree has this id, or none any more.
    #[error("no such context")]
    NoSuchContext,
    /// The root lives as long as its tree.
    #[error("the root of a tree is not deleted")]
    RootKept,
    /// Each context takes a stamp of its own, and the last one was given out.
    #[error("no stamp is left for a new context")]
    StampsSpent,
    /// The context refuses the call.
    #[error(transparent)]
    Context(ContextError),
}

impl From<ContextError> for TreeError {
    ghost from_gives = { λ error e. e ≡ Context error };

    fn from(error: ContextError) -> TreeError {
        TreeError::Context(error)
    }
}

impl From<AllocError> for TreeError {
    ghost from_gives = { λ _ e. e ≡ Context NoMemory };

    fn from(_error: AllocError) -> TreeError {
        TreeError::Context(ContextError::NoMemory)
    }
}
