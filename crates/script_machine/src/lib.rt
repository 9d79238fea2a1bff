//! The machine that a script runs, as a definition, and the session that implements it: replicas by name, fed, merged and queried as the
//! script says. `run` reads a script and writes its replies.
#![tactic(auto)]

mod engine;
mod laws;
mod lines;
mod saved;
mod session;

pub use engine::{Observer, run, run_observed};
pub use laws::{
    batch_limits_in_digits, first_example, memory_limits_in_digits, one_batch_each_agrees,
    one_reply, outputs_as_a_whole, query_limits_in_digits, same_batches_same_bytes,
    what_replies_mean,
};
