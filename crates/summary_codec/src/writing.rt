//! From a query and what is held of some origins to a file.

ghost use Rattle.std.specs.Prelude.{◌≡◌, ◌≤◌, ◌<◌, ◌^◌, ◌++◌, ℕ, List, length, flat_map, IfOk, OnOk, IsUtf8};
ghost use Rattle.std.specs.Int.{bytes_high_first};
ghost use Rattle.std.specs.List.{AllByRecursion};
ghost use Rattle.having_filter.specs.Kept.{IsCheckedQuery, by_names};
ghost use Rattle.query_checks.specs.Spelling.{spelling};
ghost use Rattle.origin_prefix.specs.Held.{AreHeldParts};
ghost use Rattle.origin_prefix.specs.Parts.{Part};
ghost use Rattle.packed_rows.specs.Columns.{printed};
ghost use Rattle.summary_codec.specs.File.{batch_bytes, file_bytes, group_bytes, part_bytes, sized_bytes};
ghost use Rattle.summary_codec.specs.Reading.{IsSaved};
ghost use Rattle.summary_codec.specs.Short.{IsShort, HaveShortKeys, IsShortBatch, IsShortPart};
ghost use Rattle.summary_codec.specs.Versions.{opening};
ghost use Rattle.summary_codec.specs.declared.version.Version.TheVariants.{Second};

use crate::version::Version;
use batch_reader::PackedRows;
use byteorder::{BigEndian, ByteOrder};
use hash_agg::Run;
use having_filter::Query;
use origin_prefix::OriginPart;
use std::alloc::{AllocError, Global};
use std::collections::BTreeMap;

/// Appends a number in so many bytes, 1 to 8.
fn push_number(out: &mut Vec<u8>, width: usize, number: u64) -> Result<(), AllocError>
    requires some { 1 ≤ width }
    requires few { width ≤ 8 }
    requires fits { number < 256 ^ width }
    ensures { OnOk result (out.new.items ≡ out.old.items ++ bytes_high_first width number) }
{
    let mut bytes = [0; 8];
    BigEndian::write_uint(&mut bytes, number, width);
    out.extend_from_slice(&bytes[..width])
}

/// Appends bytes behind their length.
fn push_sized(out: &mut Vec<u8>, bytes: &[u8]) -> Result<(), AllocError>
    requires { IsShort bytes.now }
    ensures { OnOk result (out.new.items ≡ out.old.items ++ sized_bytes bytes.now) }
{
    push_number(out, 2, bytes.len() as u64)?;
    out.extend_from_slice(bytes)
}

/// Appends a group.
fn push_group(out: &mut Vec<u8>, key: &[u8], states: &[u8]) -> Result<(), AllocError>
    requires { IsShort key.now }
    ensures { OnOk result (out.new.items ≡ out.old.items ++ group_bytes (key.now, states.now)) }
{
    push_sized(out, key)?;
    out.extend_from_slice(states)
}

/// Appends groups, one after the other.
fn push_groups(out: &mut Vec<u8>, run: &Run) -> Result<(), AllocError>
    requires { HaveShortKeys run.now }
    ensures { OnOk result (out.new.items ≡ out.old.items ++ flat_map group_bytes run.now) }
{
    for place in 0..run.len() {
        let (key, states) = run.group(place);
        push_group(out, key, states)?;
    }
    Ok(())
}

/// Appends packed rows, one after the other.
fn push_rows(out: &mut Vec<u8>, rows: &PackedRows) -> Result<(), AllocError>
    requires { AllByRecursion IsShort rows.now }
    ensures { OnOk result (out.new.items ≡ out.old.items ++ flat_map sized_bytes rows.now) }
{
    for place in 0..rows.len() {
        push_sized(out, rows.row(place))?;
    }
    Ok(())
}

/// Appends an early batch.
fn push_batch(out: &mut Vec<u8>, number: u32, rows: &PackedRows) -> Result<(), AllocError>
    requires { IsShortBatch (number, rows.now) }
    ensures { OnOk result (out.new.items ≡ out.old.items ++ batch_bytes (number, rows.now)) }
{
    push_number(out, 4, u64::from(number))?;
    push_number(out, 4, rows.len() as u64)?;
    push_rows(out, rows)
}

/// Appends early batches, one after the other.
fn push_batches(out: &mut Vec<u8>, early: &BTreeMap<u32, PackedRows>) -> Result<(), AllocError>
    requires { AllByRecursion IsShortBatch early.now.entries }
    ensures { OnOk result (out.new.items ≡ out.old.items ++ flat_map batch_bytes early.now.entries) }
{
    for (number, rows) in early {
        push_batch(out, *number, rows)?;
    }
    Ok(())
}

/// Appends what is held of an origin.
fn push_part(out: &mut Vec<u8>, origin: u16, part: &OriginPart) -> Result<(), AllocError>
    requires { IsShortPart part.now }
    ensures { OnOk result (out.new.items ≡ out.old.items ++ part_bytes (origin, part.now)) }
{
    push_number(out, 2, u64::from(origin))?;
    push_number(out, 4, u64::from(part.prefix()))?;
    push_number(out, 8, part.run().len() as u64)?;
    push_groups(out, part.run())?;
    push_number(out, 4, part.early().len() as u64)?;
    push_batches(out, part.early())
}

/// Appends what is held of some origins, one after the other.
fn push_parts(out: &mut Vec<u8>, parts: &BTreeMap<u16, OriginPart>) -> Result<(), AllocError>
    requires { AllByRecursion (λ (held : ℕ × Part). IsShortPart held.1) parts.now.entries }
    ensures { OnOk result (out.new.items ≡ out.old.items ++ flat_map part_bytes parts.now.entries) }
{
    for (origin, part) in parts {
        push_part(out, *origin, part)?;
    }
    Ok(())
}

/// Appends what a file begins with, and the canonical texts of the schema and of the query.
fn push_heading(out: &mut Vec<u8>, query: &Query) -> Result<(), AllocError>
    ensures heading { OnOk result (out.new.items ≡ out.old.items ++ opening Second
        ++ sized_bytes (printed query.now.columns)
        ++ sized_bytes (spelling (by_names query.now))) }
    ensures query { OnOk result (IsCheckedQuery query.now) }
    ensures texts { OnOk result (IsUtf8 (printed query.now.columns)
        × IsUtf8 (spelling (by_names query.now))) }
{
    let schema = query.schema().print()?;
    out.extend_from_slice(Version::Second.opening())?;
    push_sized(out, schema.as_str().as_bytes())?;
    push_sized(out, query.spelling().as_bytes())
}

/// The file of a query and of what is held of some origins for it, in the second version. The only error is out of memory.
pub fn encode(
    alloc: Global,
    query: &Query,
    parts: &BTreeMap<u16, OriginPart>,
) -> Result<Vec<u8>, AllocError>
    requires { AreHeldParts query.now parts.now.entries }
    ensures spelled { IfOk result (λ bytes. bytes.items ≡ file_bytes query.now parts.now.entries) }
    ensures read_again { IfOk result (λ bytes. IsSaved bytes.items query.now parts.now.entries) }
{
    let mut out = Vec::new(alloc);
    push_heading(&mut out, query)?;
    push_number(&mut out, 2, parts.len() as u64)?;
    push_parts(&mut out, parts)?;
    Ok(out)
}
