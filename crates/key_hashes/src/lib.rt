//! Hash functions of keys: FNV-1a, which anybody can compute, and SipHash-1-3, with a secret seed.
#![tactic(auto)]

mod hash;
mod sip_hash;

pub use hash::{Fnv1a, KeyHash};
pub use sip_hash::{Seed, SipHash};
