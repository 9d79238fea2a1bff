//! The commands on files: which they read and write, what they reply, and what they say on standard error.
#![tactic(auto)]

mod files;
mod limit;
mod replicas;
mod reporter;
mod session;
mod target;
mod texts;

pub use session::Session;
