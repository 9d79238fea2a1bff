//! Batches of rows, which an origin numbers from 1 on.
#![tactic(auto)]

mod batch;
mod error;
mod file;
mod head;
mod rows;

pub use batch::{Batch, build_batch, read_rows};
pub use error::BatchError;
pub use file::read_batch;
pub use packed_rows::PackedRows;
