//! Tests of runs of scripts, whose reader, writer or disk fails or which spill, and of the texts of errors, by their crates' public calls
//! alone.
#![tactic(auto)]

#[cfg(test)]
mod machine;
#[cfg(test)]
mod seeds;
#[cfg(test)]
mod spilling;
#[cfg(test)]
mod texts;
