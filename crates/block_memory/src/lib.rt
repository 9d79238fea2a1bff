//! Blocks of memory from the allocator. A byte can be read only once it was written.
//!
//! This is the one crate of the repository that touches raw pointers, and `raw.rt` its one file that does. A
//! [`RawBlock`] is seen as a list of cells, one for each byte: `None` until the byte is written, and then `Some` of
//! it (`specs/Cells.antt`). Nothing is zeroed when a block is taken. `specs/Lemmas/CellLemmas.antt` has what a caller
//! needs to write, read back, write over in part and read again.
//!
//! [`GhostNotes`] are for bookkeeping that takes no memory, as which parts of a block are in use.
#![tactic(auto)]

mod block;
mod notes;
mod raw;
mod runs;

pub use block::RawBlock;
pub use notes::GhostNotes;
#[doc(hidden)]
pub use raw::{Memory, Reserved};
