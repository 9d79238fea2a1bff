//! Aggregation: rows, and the partial results of rows, become one run of groups.
#![tactic(auto)]

mod advancing;
mod aggregation;
mod executor;
mod folding;
mod groups;
mod idle;
mod input;
mod laws;
mod means;
mod pass;
mod plan;
mod record;
mod sorting;
mod work;

pub use aggregation::aggregate;
pub use executor::Executor;
pub use folding::fold;
pub use group_runs::{Run, initial_states};
pub use group_table::{Fnv1a, KeyHash, Seed};
pub use input::Input;
pub use laws::{empty_run, more_rows, one_run, same_run};
pub use means::{DEFAULT_LIMIT, DEFAULT_SEED, LimitOutOfRange, MAX_LIMIT, MIN_LIMIT, Means};
pub use spill_partitions::SpillError;
pub use spill_tapes::{MemDisk, TapeDisk};
pub use work::Work;
