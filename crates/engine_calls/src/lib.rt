//! The calls of the library for other languages, and what is kept between them.
#![tactic(auto)]

mod kept;
mod last;
mod reasons;

pub use kept::Kept;
pub use last::Asked;
