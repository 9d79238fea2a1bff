//! Tests of the crates that own memory, and of the one that keeps memory contexts in a tree, by their public calls alone.
#![tactic(auto)]

#[cfg(test)]
mod tests;
