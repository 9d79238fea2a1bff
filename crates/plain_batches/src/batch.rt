//! Batch files of plain CSV.

ghost use Rattle.std.specs.Prelude.{◌≡◌, ◌≢◌, ◌≤◌, [], length, Some, true, IfErr, IfOk, OnOk};
ghost use Rattle.csv.specs.Records.{fields_of};
ghost use Rattle.grouping_model.specs.declared.limits.TheConstants.{LAST_ORIGIN};
ghost use Rattle.plain_batches.specs.Blank.{blank_lines};
ghost use Rattle.plain_batches.specs.Plain.{parts_of};
ghost use Rattle.plain_batches.specs.Packed.{MakesFile, PacksPlain};
ghost use Rattle.plain_batches.specs.Refusal.{PackFault, PartsFault, PlainFault};
ghost use Rattle.plain_batches.specs.declared.error.PackError.TheVariants.{BlankLine};

use crate::blank::blank_lines;
use crate::columns::{checked_places, names_of};
use crate::error::PackError;
use crate::layout::Layout;
use crate::lines::head_line;
use crate::records::PlainRecords;
use crate::rows::row_lines;
use batch_reader::{BatchError, read_batch};
use csv::ByteRecord;
use grouping_model::limits::MAX_INPUT_LEN;
use packed_rows::Schema;
use std::alloc::Global;

/// The names of the columns in their places: the first record, or else those of the schema.
fn header_of(
    alloc: Global,
    names: &ByteRecord,
    has_header: bool,
    records: &mut PlainRecords<'_>,
) -> Result<ByteRecord, PackError>
    ensures parts { IfOk result (λ header. parts_of has_header (fields_of names.now) records.old
        ≡ Some (fields_of header, records.new)) }
    ensures refused { IfErr result (PartsFault has_header records.old) }
{
    if !has_header {
        return Ok(names.clone()?);
    }
    let mut header = ByteRecord::new(alloc);
    if !records.read(&mut header)? {
        return Err(PackError::NoHeader);
    }
    Ok(header)
}

/// Refuses a blank line where it may be a null: where a row is one field, and an empty field is null.
fn check_blank(layout: Layout<'_>, width: usize, csv: &[u8]) -> Result<(), PackError>
    ensures none { OnOk result (width ≡ 1 → layout.entry.null.now ≡ [] → blank_lines layout.entry.delimiter csv.now ≡ 0) }
    ensures refused { IfErr result (λ error. (error ≡ BlankLine) × (width ≡ 1) × (layout.entry.null.now ≡ [])
        × (blank_lines layout.entry.delimiter csv.now ≢ 0)) }
{
    let may_be_null = width == 1 && layout.null.is_empty();
    if may_be_null && blank_lines(layout.delimiter, csv).count > 0 {
        return Err(PackError::BlankLine);
    }
    Ok(())
}

/// The batch file of the rows of a plain CSV, whose values are not checked.
fn make_file(
    alloc: Global,
    schema: &Schema,
    layout: Layout<'_>,
    origin: u16,
    number: u32,
    csv: &[u8],
) -> Result<Vec<u8>, PackError>
    ensures made { IfOk result (λ file.
        MakesFile schema.now layout.entry origin number csv.now file.items) }
    ensures some { OnOk result (1 ≤ length schema.now) }
    ensures refused { IfErr result (PlainFault schema.now layout.entry csv.now) }
{
    let names = names_of(alloc, schema)?;
    let mut records = PlainRecords::new(alloc, layout.delimiter, csv);
    let header = header_of(alloc, &names, layout.has_header, &mut records)?;
    let places = checked_places(alloc, &names, &header, layout.skips_columns)?;
    let width = header.len();
    check_blank(layout, width, csv)?;
    let (rows, lines) = row_lines(alloc, layout.null, &places, width, &mut records)?;
    drop(records);
    drop(places);
    drop(header);
    drop(names);
    let mut file = head_line(alloc, origin, number, rows)?;
    file.extend_from_slice(&lines)?;
    Ok(file)
}

/// The batch file of a plain CSV, by a schema, with this origin and number. Its records are the rows, each with a field for each
/// column of the schema, in the schema's order, or in that of a header. Fields are those of batch files. A blank line is no record, and is
/// refused where it may be a null. The file is returned only after `read_batch` has read it again.
pub fn pack_batch(
    alloc: Global,
    schema: &Schema,
    layout: Layout<'_>,
    origin: u16,
    number: u32,
    csv: &[u8],
) -> Result<Vec<u8>, PackError>
    requires origin { origin ≤ LAST_ORIGIN }
    requires number { 1 ≤ number }
    ensures packed { IfOk result (λ file.
        PacksPlain schema.now layout.entry origin number csv.now file.items) }
    ensures refused { IfErr result (PackFault schema.now layout.entry origin number csv.now) }
{
    let file = make_file(alloc, schema, layout, origin, number, csv)?;
    if file.len() > MAX_INPUT_LEN {
        return Err(PackError::TooLong);
    }
    match read_batch(alloc, schema, &file) {
        Ok(_) => Ok(file),
        Err(BatchError::BadField { row, column }) => Err(PackError::BadField { row, column }),
        // For out of memory: the file is a batch of rows as wide as the schema.
        Err(_) => Err(PackError::NoMemory),
    }
}
