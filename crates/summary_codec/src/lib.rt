//! Summary files: a query and what is known for it, as bytes and back.
#![tactic(auto)]

mod error;
mod fields;
mod gathering;
mod laws;
mod length;
mod reading;
mod version;
mod writing;

pub use error::SummaryError;
pub use laws::{
    files_of_the_known, files_of_worlds, one_reading, one_spelling, parts_of_worlds,
    reading_or_fault, versions, versions_in_digits,
};
pub use length::encoded_len;
pub use reading::{decode, decode_sharing};
pub use version::{LAST_NUMBER_OF_FIRST, MAX_ROWS_OF_FIRST, Version};
pub use writing::encode;
