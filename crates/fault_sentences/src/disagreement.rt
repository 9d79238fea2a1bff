//! Numbers that were given to two batches.

use std::alloc::{AllocError, Global};

/// Says which batch of an origin is known with other rows: an early one, or else one within the prefix, if that is given.
pub fn say_disagreement(
    alloc: Global,
    origin: u16,
    early: Option<u32>,
    prefix: Option<u32>,
) -> Result<String, AllocError> {
    match (early, prefix) {
        (Some(number), _) => {
            format!(in alloc; "batch {number} of origin {origin} is known with other rows")
        }
        (None, Some(prefix)) => {
            format!(in alloc;
                "a batch of origin {origin}, up to number {prefix}, is known with other rows"
            )
        }
        (None, None) => {
            format!(in alloc; "a batch in the prefix of origin {origin} is known with other rows")
        }
    }
}
