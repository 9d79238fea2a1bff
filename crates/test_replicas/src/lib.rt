//! Tests of the runs of groups that aggregation gives, and of summary files, by their crates' public calls alone.
#![tactic(auto)]

#[cfg(test)]
mod lacking;
#[cfg(test)]
mod runs;
#[cfg(test)]
mod summaries;
