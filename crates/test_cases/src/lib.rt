//! What crates of tests share: tables of cases, which they go through; rooms: a number of bytes, which are all the memory that a call
//! finds; and disks and streams that fail.
#![tactic(auto)]

mod disks;
mod hoard;
mod room;
mod tables;

pub use disks::{FailingReader, FailingWriter, Marks, failing, flipping, same_pages};
pub use hoard::Hoard;
pub use room::Room;
pub use tables::{Answered, cut, expect, expect_lines, expect_told, expect_told_lines, halves};
