//! The parts of all origins.

ghost use Rattle.std.specs.Prelude.{◌≡◌, ◌≢◌, None, map, length, IfOk, IfSome};
ghost use Rattle.replica_merge.specs.Replicas.{counted_part};
ghost use Rattle.replica_merge.specs.Unions.{brought_by, IsRunAlone};

use hash_agg::Run;
use origin_prefix::OriginPart;
use std::alloc::{AllocError, Global};
use std::collections::BTreeMap;

/// The parts of all origins, by ascending origin. The only error is out of memory.
pub(crate) fn listed(
    alloc: Global,
    parts: &BTreeMap<u16, OriginPart>,
) -> Result<Vec<&OriginPart>, AllocError>
    ensures { IfOk result (λ list. brought_by list.items ≡ map counted_part parts.now.entries) }
{
    let mut list = Vec::with_capacity(alloc, parts.len())?;
    for (_, part) in parts {
        list.push(part)?;
    }
    Ok(list)
}

/// The run of a single part.
pub(crate) fn run_alone<'a>(parts: &[&'a OriginPart]) -> Option<&'a Run>
    ensures alone { IfSome result (λ run. IsRunAlone parts.now run.now) }
    ensures others { result ≡ None → length parts.now ≢ 1 }
{
    let (first, rest) = parts.split_first()?;
    if rest.is_empty() {
        Some(first.run())
    } else {
        None
    }
}
