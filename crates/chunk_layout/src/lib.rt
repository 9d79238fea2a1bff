//! Disjoint chunks in blocks: the model that every kind of memory context uses.
//!
//! A [`ChunkLayout`] owns blocks and knows, by events that take no memory, which parts of them are chunks. It is seen as the sizes of its
//! blocks and the contents of its chunks (`specs/Contents.antt`): of each its place, its room, whether it is live, and the bytes that were
//! written to it. The contract of each call says what it does to them, and every call keeps any two chunks from sharing a byte.
#![tactic(auto)]

mod blocks;
mod layout;
mod link;
mod marks;
mod place;

pub use blocks::HEADER;
pub use layout::ChunkLayout;
pub use link::{put_first, take_first};
pub use marks::BlockMarks;
pub use place::{ChunkEvent, ChunkHeader, ChunkName, Place};
