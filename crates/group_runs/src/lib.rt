//! Runs of groups: groups in the order of their keys, with the bytes of their keys and states, and the merging of runs.
#![tactic(auto)]

mod merging;
mod merging_from;
mod run;
mod seeking;
mod segment;
mod segments;
mod states;

pub use run::Run;
pub use states::{combine_within, initial_states};
