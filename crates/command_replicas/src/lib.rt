//! The commands on files, over bytes: replicas from summary files and batch files, and summary files from replicas. The program reads and
//! writes the files.
#![tactic(auto)]

mod feeding;
mod laws;
mod making;
mod merging;
mod summary;

pub use feeding::feed;
pub use laws::{fed_file, merged_file};
pub use making::{create, load, save};
pub use merging::merge;
pub use summary::SummaryFile;
