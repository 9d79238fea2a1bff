//! Laws of lists, options and results that several crates use and the standard library lacks. There is no code: they
//! stand in `specs/`.
#![tactic(auto)]
