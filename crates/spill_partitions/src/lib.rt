//! The partitions to which the passes of a hash aggregation spill records, and which later passes read.
//!
//! A pass spills to 16 partitions, chosen by four bits of a record's hash that no earlier pass used, the highest first; below the
//! eighth level to one. Each partition is a tape. (PostgreSQL 17, `src/backend/executor/nodeAgg.c`, has partitions of this kind.)
#![tactic(auto)]

mod error;
mod partitions;

pub use error::SpillError;
pub use partitions::{SpillPartitions, sizes};
