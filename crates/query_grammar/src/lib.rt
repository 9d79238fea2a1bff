//! The grammar of queries, how it is read, and its laws.
//!
//! `specs/Grammar.antt`, `specs/Arrangement.antt` and `specs/Queries.antt` have the grammar, as a relation between tokens and what they
//! say. `specs/Reading.antt` and `specs/Whole.antt` have the way that tokens are read from the left. The functions here
//! have no code: each contract is a law.
#![tactic(auto)]

mod laws;

pub use laws::{
    canonical_text_is_read, one_query, one_text_one_query, refused_tokens,
    what_is_a_query_can_be_written, what_is_a_query_is_read, what_is_read_is_a_query,
};
