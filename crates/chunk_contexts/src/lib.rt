//! Memory contexts: they take memory in blocks, give it out in chunks, and free it as a whole.
//!
//! The kinds are those of PostgreSQL's memory manager (its README: `src/backend/utils/mmgr/README`), with this project's own rules of
//! space.
#![tactic(auto)]

mod active;
mod alloc_set;
mod bump;
mod context;
mod error;
mod free_lists;
mod generation;
mod rooms;
mod runs;
mod slab;
mod slab_chunks;

pub use alloc_set::AllocSet;
pub use bump::Bump;
pub use chunk_layout::ChunkName;
pub use context::ChunkContext;
pub use error::ContextError;
pub use generation::Generation;
pub use rooms::sizes;
pub use slab::Slab;
