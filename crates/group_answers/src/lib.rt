//! From groups to an answer: HAVING, the items, and the order of the rows.
#![tactic(auto)]

mod row_sink;
mod showing;

pub use row_sink::RowSink;
pub use showing::{finalize_and_project, project_into, rows_of_run};
