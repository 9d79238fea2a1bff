//! Batch files from plain CSV. Its first record may be a header that names the columns in any order.
#![tactic(auto)]

mod batch;
mod blank;
mod columns;
mod error;
mod laws;
mod layout;
mod lines;
mod records;
mod rows;

pub use batch::pack_batch;
pub use blank::{BlankLines, blank_lines};
pub use error::PackError;
pub use laws::packed_batches_are_read;
pub use layout::Layout;
