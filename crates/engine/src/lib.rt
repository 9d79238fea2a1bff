//! A summary inside another program: a session, which is a replica with its executor, and the statuses that its calls return.
#![tactic(auto)]

mod place;
mod rows;
mod session;
mod status;

pub use hash_agg::{Seed, Work};
pub use place::Place;
pub use replica_merge::{Delivered, Replica};
pub use replies::{Format, Refusal};
pub use session::Session;
pub use status::{Status, names_agree, numbers_differ};
