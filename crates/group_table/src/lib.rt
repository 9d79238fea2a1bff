//! A hash table of groups, whose buckets, keys and states lie in memory contexts.
//!
//! As PostgreSQL's hash aggregation has it (`src/backend/executor/execGrouping.c`), a group is found by its key: equal bytes are
//! one key. The table doubles before more than three quarters of its buckets are in use.
#![tactic(auto)]

mod array;
mod bucket;
mod children;
mod index;
pub mod limits;
mod search;
mod table;

pub use key_hashes::{Fnv1a, KeyHash, Seed, SipHash};
pub use table::{GroupTable, Lookup, Slot, Vacancy};
