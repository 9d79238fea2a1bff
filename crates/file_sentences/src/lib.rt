//! Sentences on files: why one is refused, and the progress of a command.
#![tactic(auto)]

mod progress;
mod reasons;

pub use progress::{Explained, PassedOver, Progress};
pub use reasons::{
    FileKind, columns_reason, file_reason, limit_reason, query_reason, replaced_reason,
    saving_reason, summary_reason,
};
