//! Replies to commands, in a script and on files: their texts, how a command ends, and its exit status.
#![tactic(auto)]

mod ending;
mod known_tables;
mod output;
mod reply;
mod showing;
mod texts;

pub use ending::{ExitKind, Outcome, refusal_ending, run_ending, status};
pub use output::put_reply;
pub use refusals::{Refusal, RunError};
pub use reply::Reply;
pub use showing::{Format, KnownFormat, known_lines, known_table, origin_lines, table};
