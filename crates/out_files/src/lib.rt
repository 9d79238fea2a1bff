//! The file that a command writes: what exists there, whether it stays and can be written, and how it is replaced, so that a reader finds
//! the old bytes or the new ones; and what is said of it.
#![tactic(auto)]

mod beside;
mod occupant;
mod out;
mod reading;
mod trial;
mod writing;

pub use occupant::{Occupant, occupant_of};
pub use out::{CutShort, FRONT_BYTES, Fate, FrontKind, Standing, WrittenOver};
pub use reading::{front_from, front_of, gives};
pub use trial::{Place, try_place, try_reading};
pub use writing::{Unwritten, append_fault, write_file, write_new_file};
