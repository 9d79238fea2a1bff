//! Memory contexts in a tree: a context is given up with all that are below it.
//!
//! As PostgreSQL's memory manager has it (its README: `src/backend/utils/mmgr/README`), where each context but the first is
//! made below another. Here a context is named by an id, and an id of a context that is gone is refused.
#![tactic(auto)]

mod context;
mod error;
mod kind;
mod links;
mod ring;
mod tree;

pub use chunk_contexts::{ChunkContext, ChunkName, ContextError};
pub use error::TreeError;
pub use kind::Kind;
pub use links::ContextId;
pub use tree::Tree;
