//! The length of a summary file, before it is made.

ghost use Rattle.std.specs.Prelude.{◌≡◌, ◌^◌, ◌-◌, ◌+◌, ℕ, List, length, flat_map, min, IfOk};
ghost use Rattle.origin_prefix.specs.Held.{AreHeldParts};
ghost use Rattle.packed_rows.specs.Columns.{printed};
ghost use Rattle.query_checks.specs.Spelling.{spelling};
ghost use Rattle.having_filter.specs.Kept.{by_names};
ghost use Rattle.summary_codec.specs.File.{batch_bytes, file_bytes, group_bytes, part_bytes, sized_bytes};
ghost use Rattle.summary_codec.specs.Lengths.{IsLength, HasLength};

use batch_reader::PackedRows;
use hash_agg::Run;
use having_filter::Query;
use origin_prefix::OriginPart;
use std::alloc::AllocError;
use std::collections::BTreeMap;

/// How many bytes some and more are.
fn longer(len: usize, more: usize) -> usize
    ensures { result ≡ min (len + more) (2 ^ 64 - 1) }
{
    len.saturating_add(more)
}

/// The length of groups, one after the other.
fn groups_len(run: &Run) -> usize
    ensures { IsLength (flat_map group_bytes run.now) result }
{
    let mut len = 0;
    for place in 0..run.len() {
        let (key, states) = run.group(place);
        len = longer(longer(longer(len, 2), key.len()), states.len());
    }
    len
}

/// The length of packed rows, one after the other.
fn rows_len(rows: &PackedRows) -> usize
    ensures { IsLength (flat_map sized_bytes rows.now) result }
{
    let mut len = 0;
    for place in 0..rows.len() {
        len = longer(longer(len, 2), rows.row(place).len());
    }
    len
}

/// The length of early batches, one after the other.
fn batches_len(early: &BTreeMap<u32, PackedRows>) -> usize
    ensures { IsLength (flat_map batch_bytes early.now.entries) result }
{
    let mut len = 0;
    for (_, rows) in early {
        len = longer(longer(len, 8), rows_len(rows));
    }
    len
}

/// The length of what is held of an origin.
fn part_len(part: &OriginPart) -> usize
    ensures { (origin : ℕ) → IsLength (part_bytes (origin, part.now)) result }
{
    longer(
        longer(18, groups_len(part.run())),
        batches_len(part.early()),
    )
}

/// The length of what is held of some origins, one after the other.
fn parts_len(parts: &BTreeMap<u16, OriginPart>) -> usize
    ensures { IsLength (flat_map part_bytes parts.now.entries) result }
{
    let mut len = 0;
    for (_, part) in parts {
        len = longer(len, part_len(part));
    }
    len
}

/// How many bytes the file of [`encode`](crate::encode) has, or the greatest number if they are more. Only the text of the schema is made
/// for that. The only error is out of memory.
pub fn encoded_len(query: &Query, parts: &BTreeMap<u16, OriginPart>) -> Result<usize, AllocError>
    requires { AreHeldParts query.now parts.now.entries }
    ensures { IfOk result (HasLength query.now parts.now.entries) }
{
    let schema = query.schema().print()?;
    let heading = longer(longer(14, schema.as_str().len()), query.spelling().len());
    Ok(longer(heading, parts_len(parts)))
}
