//! The records of groups on tapes.

ghost use Rattle.std.specs.Prelude.{◌≡◌, ◌≢◌, ◌≤◌, ℕ, List, length, OnOk, MatchOption};
ghost use Rattle.hash_agg.specs.Passes.{group_record};

use std::alloc::AllocError;

/// The tag of a record of a packed row, and that of a record of a group.
pub(crate) const ROW: u8 = 0;

pub(crate) const GROUP: u8 = 1;

/// Writes the record of a group to `out`, replacing what it held. The only error is a failed allocation.
pub(crate) fn write_group(out: &mut Vec<u8>, key: &[u8], states: &[u8]) -> Result<(), AllocError>
    requires { length key.now ≤ 65535 }
    ensures { OnOk result (out.new.items ≡ group_record key.now states.now) }
{
    out.clear();
    out.extend_from_slice(&(key.len() as u16).to_be_bytes())?;
    out.extend_from_slice(key)?;
    out.extend_from_slice(states)?;
    Ok(())
}

/// The key and the states in the record of a group, if it is one.
pub(crate) fn split_group(bytes: &[u8]) -> Option<(&[u8], &[u8])>
    ensures { MatchOption result
        ((key states : List ℕ) → length key ≤ 65535 → bytes.now ≢ group_record key states)
        (λ found. (length found.0.now ≤ 65535) × (bytes.now ≡ group_record found.0.now found.1.now)) }
{
    if bytes.len() < 2 {
        return None;
    }
    let len = usize::from(u16::from_be_bytes([bytes[0], bytes[1]]));
    let rest = &bytes[2..];
    if rest.len() < len {
        return None;
    }
    Some(rest.split_at(len))
}
