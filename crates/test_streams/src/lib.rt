//! Tests of reading and writing streams and whole files, by their crates' public calls alone.
#![tactic(auto)]

#[cfg(test)]
mod files;
#[cfg(test)]
mod streams;
