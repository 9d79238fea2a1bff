//! The columns of a plain CSV, by their names.

ghost use Rattle.std.specs.Prelude.{◌≡◌, ◌≤◌, ◌<◌, ℕ, [], length, slice_index_or, IfOk, IfErr, IfSome, IfNone, OnOk, false};
ghost use Rattle.csv.specs.Records.{fields_of, partial_of};
ghost use Rattle.packed_rows.specs.Columns.{names};
ghost use Rattle.plain_batches.specs.Columns.{AreAmong, ArePlaces, IsAlone, IsNamed, IsNowhere};
ghost use Rattle.plain_batches.specs.Refusal.{HasNoOther, HeaderFault, IsFirstUnknown, MisplacedFault, PlaceFault};

use crate::error::PackError;
use csv::ByteRecord;
use packed_rows::Schema;
use script_io::field;
use std::alloc::{AllocError, Global};

/// The names of a schema's columns.
pub(crate) fn names_of(alloc: Global, schema: &Schema) -> Result<ByteRecord, AllocError>
    ensures names { IfOk result (λ all. fields_of all ≡ names schema.now) }
    ensures some { OnOk result (1 ≤ length schema.now) }
{
    let mut all = ByteRecord::new(alloc);
    for column in 0..schema.width() {
        all.push_field(schema.name(column).as_bytes())?;
    }
    Ok(all)
}

/// The first place of a header, from one on, that has this name in any case of letters, or how many places there are.
fn first_named(header: &ByteRecord, name: &[u8], from: usize) -> usize
    requires { from ≤ length (fields_of header.now) }
    ensures within { result ≤ length (fields_of header.now) }
    ensures found { result < length (fields_of header.now) → IsNamed (fields_of header.now) name.now result }
    ensures from { from ≤ result }
    ensures before { (place : ℕ) → from ≤ place → place < result
        → ¬ (IsNamed (fields_of header.now) name.now place) }
{
    for place in from..header.len() {
        if name.eq_ignore_ascii_case(field(header, place)) {
            return place;
        }
    }
    header.len()
}

/// The only place of a header that has this name. The error names this column.
fn place_of(header: &ByteRecord, name: &[u8], column: usize) -> Result<usize, PackError>
    ensures found { IfOk result (IsAlone (fields_of header.now) name.now) }
    ensures refused { IfErr result (PlaceFault (fields_of header.now) name.now column) }
{
    let place = first_named(header, name, 0);
    if place == header.len() {
        return Err(PackError::MissingColumn { column });
    }
    if first_named(header, name, place + 1) < header.len() {
        return Err(PackError::RepeatedColumn { column });
    }
    Ok(place)
}

/// The place of each of these names in a header, which has each once.
fn places_of(
    alloc: Global,
    names: &ByteRecord,
    header: &ByteRecord,
) -> Result<Vec<usize>, PackError>
    ensures places { IfOk result (λ places.
        ArePlaces (fields_of header.now) (fields_of names.now) places.items) }
    ensures refused { IfErr result (MisplacedFault (fields_of names.now) (fields_of header.now)) }
{
    let mut places = Vec::new(alloc);
    for column in 0..names.len() {
        let place = place_of(header, field(names, column), column)?;
        let Ok(()) = places.push(place) else {
            return Err(PackError::NoMemory);
        };
    }
    Ok(places)
}

/// The first place of a header whose name is none of these.
fn first_unknown(names: &ByteRecord, header: &ByteRecord) -> Option<usize>
    ensures found { IfSome result (IsFirstUnknown (fields_of names.now) (fields_of header.now)) }
    ensures none { IfNone result (AreAmong (fields_of names.now) (fields_of header.now)) }
{
    for place in 0..header.len() {
        if first_named(names, field(header, place), 0) == names.len() {
            return Some(place);
        }
    }
    None
}

/// The same where the header is right: it has no other name, unless columns may be left out.
#[tactic(auto, using(crate::proofs::FaultLaws::misplaced_header))]
pub(crate) fn checked_places(
    alloc: Global,
    names: &ByteRecord,
    header: &ByteRecord,
    skips_columns: bool,
) -> Result<Vec<usize>, PackError>
    ensures places { IfOk result (λ places.
        ArePlaces (fields_of header.now) (fields_of names.now) places.items) }
    ensures known { OnOk result (HasNoOther skips_columns (fields_of names.now) (fields_of header.now)) }
    ensures refused { IfErr result (HeaderFault skips_columns (fields_of names.now)
        (fields_of header.now)) }
{
    if !skips_columns && let Some(place) = first_unknown(names, header) {
        return Err(PackError::UnknownColumn { place });
    }
    places_of(alloc, names, header)
}
