//! Replicas: the numbered batches of many origins that a site knows, and its answer to a query over them.
#![tactic(auto)]

mod error;
mod known_origin;
mod lacking;
mod laws;
mod listing;
mod merging;
mod pieces;
mod replica;
mod saving;
mod uniting;

pub use error::MergeError;
pub use known_origin::KnownOrigin;
pub use laws::{
    countable_rows, delivered_batch, empty_replicas, files_that_fit, joined_replicas,
    loaded_files_fit, merged_deltas, merged_files, merged_knowledge, merged_replicas, same_files,
    told_lists,
};
pub use merging::Joined;
pub use origin_prefix::{Delivered, JoinError, RefusedBatch};
pub use replica::Replica;
pub use summary_codec::SummaryError;
