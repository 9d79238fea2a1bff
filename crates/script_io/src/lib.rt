//! Input and output of a program that runs a script of CSV records, over any reader and any writer. The whole script is
//! read, up to a limit. Its records come in turn. Even after a failed write the caller knows what was written. Whole
//! files are read by the same rules.
#![tactic(auto)]

mod digits;
mod files;
mod fused;
mod input;
mod laws;
mod output;
mod records;

pub use digits::{read_digits, read_limit, read_row_count};
pub use files::{Unread, read_file};
pub use fused::Fused;
pub use input::{InputError, read_input};
pub use laws::{fronts_range, reads_are_whole, records_are_few, writes_compose};
pub use output::{WriteFault, put_all};
pub use records::{Records, field};
