//! What the steps of a transcript are made of: what its texts stand for, the streams of a command, and the lines that tell what these took.
//! Then what is done beside commands, with files.
#![tactic(auto)]

mod files;
mod input;
mod lines;
mod streams;

pub use files::aside;
pub use input::{lines_meant, meant, words_meant};
pub use lines::write_lines;
pub use streams::{Input, Kind, Output};
