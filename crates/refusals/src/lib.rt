//! Why a command is refused, or a run stops: errors of the crates below, and reasons of its own, each with the name that replies show.
#![tactic(auto)]

mod error;
mod refusal;

pub use error::RunError;
pub use refusal::Refusal;
