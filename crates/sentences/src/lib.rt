//! Sentences for people in the making: pieces one after the other, bytes in quotes, and the place in a text, with a caret under it.
#![tactic(auto)]

mod picture;
mod quoted;
mod reason;
mod said;

pub use quoted::{Plain, Quoted};
pub use reason::Reason;
pub use said::Said;
