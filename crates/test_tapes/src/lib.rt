//! Tests of tapes over disks, and of the partitions that passes spill to tapes, by public calls alone.
#![tactic(auto)]

#[cfg(test)]
mod calls;
#[cfg(test)]
mod files;
#[cfg(test)]
mod partitions;
#[cfg(test)]
mod tapes;
