//! The commands of a script: the records of each command, and what it asks.
#![tactic(auto)]

mod command;
mod request;

pub use command::{Command, next_command};
pub use request::Request;
