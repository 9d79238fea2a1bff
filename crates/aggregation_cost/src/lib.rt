//! What an aggregation costs: its passes, the records that it spills, the pages of tape that it writes and the most bytes
//! of blocks that its table holds.
//!
//! `specs/Space.antt` says what a table needs for some keys. `specs/Passes.antt` says which keys a pass takes and which passes follow from
//! it. `specs/Cost.antt` says what these cost. The functions here have no code: each contract is a law.
//!
//! The blocks of memory contexts that hold the buckets, the keys and the states of a table are counted. There is one table at a time.
//! Nothing is promised of other memory: of the bytes of an answer, of tapes, and of what is kept outside of blocks. A table keeps 24 bytes
//! for each group there, for example.
#![tactic(auto)]

mod examples;
mod laws;

pub use examples::{keys_in_blocks, records_on_tape, small_tables};
pub use laws::{
    all_at_once, bounds, cost_of_a_pass, each_key_once, first_group, front_that_is_taken,
    one_more_group, one_more_record, passes_that_follow, passes_to_be_made, sixteen_lists,
    whole_groups,
};
