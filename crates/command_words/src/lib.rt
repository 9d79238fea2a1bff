//! The commands and options of the command line, and their help.
#![tactic(auto)]

mod arguments;
mod bytes;
mod help;
mod line_end;
mod program;
mod streams;
mod subcommands;

pub use bytes::read_bytes;
pub use line_end::without_line_end;
pub use program::parse_words;
pub use streams::{
    Input, STREAM, StreamFault, input_name, is_stream, output_name, read_twice, stream_fault,
};
pub use subcommands::{Subcommand, is_flag_told, value, values};

/// The summary file to write.
pub const OUT: &str = "OUT";

/// The summary file or files to read.
pub const IN: &str = "IN";

/// The batch files to read.
pub const BATCH: &str = "BATCH";

/// The schema: names and kinds of the columns.
pub const COLUMNS: &str = "columns";

/// The file that has the columns' names and kinds.
pub const COLUMNS_FILE: &str = "columns-file";

/// The query.
pub const QUERY: &str = "query";

/// The file that has the query.
pub const QUERY_FILE: &str = "query-file";

/// The layout of a table.
pub const FORMAT: &str = "format";

/// How many bytes a group table may take.
pub const LIMIT: &str = "limit";

/// The spill file.
pub const SPILL: &str = "spill";

/// Whether to explain what the aggregation took, what a summary holds, or what an answer is made of.
pub const EXPLAIN: &str = "explain";

/// Whether to keep a file that OUT would replace.
pub const NO_CLOBBER: &str = "no-clobber";

/// Whether OUT may replace a file that is not a summary.
pub const FORCE: &str = "force";

/// Whether an answer without its early batches has status 1.
pub const COMPLETE: &str = "complete";

/// Whether to report each file as it is taken.
pub const PROGRESS: &str = "progress";

/// The origin of the batch to make.
pub const ORIGIN: &str = "origin";

/// The number of the batch to make.
pub const NUMBER: &str = "number";

/// Whether the first record of a plain CSV names the columns.
pub const HEADER: &str = "header";

/// The delimiter of a plain CSV.
pub const DELIMITER: &str = "delimiter";

/// The field of a plain CSV that is null.
pub const NULL: &str = "null";

/// Whether to ignore columns of a plain CSV that the summary does not have.
pub const SKIP_COLUMNS: &str = "skip-columns";

/// Whether an empty plain CSV makes a batch without rows.
pub const ALLOW_EMPTY: &str = "allow-empty";

/// The plain CSV to read.
pub const PLAIN: &str = "CSV";
