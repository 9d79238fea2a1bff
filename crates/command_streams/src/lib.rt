//! The streams of a command and the sentences on them; the tape disk and the random bytes of a command.
#![tactic(auto)]

mod inputs;
mod problem;
mod seed;
mod spill;
mod stopping;
mod streams;

pub use inputs::Inputs;
pub use problem::{Diagnostic, OutputStatus, Problem, is_closed, reason_of};
pub use seed::system_seed;
pub use spill::{open_disk, remove_disk, tape_reason};
pub use stopping::{ending_of, reply_refused};
pub use streams::{Streams, Terminals, say};
