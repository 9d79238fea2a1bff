//! What a replica holds of one origin: the groups of its unbroken prefix, and its early batches.
#![tactic(auto)]

mod early;
mod error;
mod joining;
mod laws;
mod part;

pub use error::{JoinError, RefusedBatch};
pub use grouping_model::Delivered;
pub use laws::{
    delivered_parts_fit, fitting_parts_agree, included_parts, joined_parts_fit, told_numbers,
};
pub use part::{OriginPart, most_rows};
