//! The lines of `known --explain` and `answer --explain`, and the sentences on early batches that an answer does not count.
#![tactic(auto)]

mod holding;
mod waiting;

pub use holding::{answer_line, holding_lines};
pub use waiting::waiting_lines;
