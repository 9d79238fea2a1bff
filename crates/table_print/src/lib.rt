//! Answers as tables of text.
#![tactic(auto)]

mod aligned_table;
mod answer_columns;
mod cell;
mod csv_table;
mod json_table;
mod laws;
mod pieces;
mod rows;
mod tsv_table;

pub use aligned_table::print_aligned;
pub use answer_columns::print_columns;
pub use csv_table::{CsvTable, print_csv};
pub use group_answers::RowSink;
pub use json_table::{JsonTable, print_json};
pub use laws::json_names_differ;
pub use rows::FinishedTable;
pub use tsv_table::{TsvTable, print_tsv};
