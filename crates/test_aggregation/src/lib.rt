//! Tests of aggregation by public calls: of the hash group table, and of `hash_agg`, what it takes, by worked numbers, and what a disk
//! that changes bytes makes of it; and rows and queries of towns, which tests of other crates take too.
//!
//! `bin/try_tests` leaves out those of `flipped` and `one_hash`, which take unproved code a minute or more; the gate runs them as built.
#![tactic(auto)]

#[cfg(test)]
mod flipped;
#[cfg(test)]
mod groups;
#[cfg(test)]
mod one_hash;
#[cfg(test)]
mod passes;
#[cfg(test)]
mod seeded_hashes;
#[cfg(test)]
mod tables;
mod towns;

pub use towns::{COLUMNS, TOWNS, lines, packed, query, records};
