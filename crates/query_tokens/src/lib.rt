//! The tokens of the text of queries and schemas, and laws of texts that are made of spelled tokens.
#![tactic(auto)]

mod fault;
mod laws;
mod reading;
mod reserved;
mod word;
mod words;

pub use fault::{Fault, TokenError};
pub use laws::{
    ends_of_lexemes, joined_pieces, places_in_text, spelling_is_read, texts_are_made_of_tokens,
    what_is_read,
};
pub use reading::{tokens, tokens_up_to};
pub use reserved::is_reserved;
pub use word::{Symbol, Token, Word};
