//! The rows of a plain CSV, as lines of a batch file.

ghost use Rattle.std.specs.Prelude.{◌≡◌, ◌≤◌, ◌<◌, All, length, map, flat_map, IfErr, IfOk};
ghost use Rattle.csv.specs.Writing.{default_writer, row_text};
ghost use Rattle.grouping_model.specs.declared.limits.TheConstants.{MAX_ROWS};
ghost use Rattle.plain_batches.specs.Columns.{arranged};
ghost use Rattle.plain_batches.specs.Refusal.{WidthFault};
ghost use Rattle.script_io.specs.LineWriter.{IsBetween, Writes};

use crate::error::PackError;
use crate::lines::{arrange, finish, put_line};
use crate::records::PlainRecords;
use csv::{ByteRecord, Writer};
use grouping_model::limits::MAX_ROWS;
use std::alloc::Global;

/// Writes the lines of all records that are left, each of the width given, and tells how many there are.
fn put_rows(
    alloc: Global,
    writer: &mut Writer<Vec<u8>>,
    null: &[u8],
    places: &[usize],
    width: usize,
    records: &mut PlainRecords<'_>,
) -> Result<u32, PackError>
    requires between { IsBetween writer.old }
    requires within { All (λ place. place < width) places.now }
    ensures lines { IfOk result (λ rows. Writes writer.old writer.new
        (flat_map (row_text default_writer) (map (arranged null.now places.now) records.old))) }
    ensures rows { IfOk result (λ rows. rows ≡ length records.old) }
    ensures few { IfOk result (λ rows. length records.old ≤ MAX_ROWS) }
    ensures widths { IfOk result (λ rows. All (λ fields. length fields ≡ width) records.old) }
    ensures refused { IfErr result (WidthFault width records.old) }
{
    let mut plain = ByteRecord::new(alloc);
    let mut line = ByteRecord::new(alloc);
    for row in 0..MAX_ROWS {
        if !records.read(&mut plain)? {
            return Ok(row);
        }
        if plain.len() != width {
            return Err(PackError::WrongWidth { row: row as usize });
        }
        arrange(&mut line, null, places, &plain)?;
        put_line(writer, &line)?;
    }
    if records.read(&mut plain)? {
        return Err(PackError::TooManyRows);
    }
    Ok(MAX_ROWS)
}

/// The lines of all records that are left, each of the width given, and how many there are.
pub(crate) fn row_lines(
    alloc: Global,
    null: &[u8],
    places: &[usize],
    width: usize,
    records: &mut PlainRecords<'_>,
) -> Result<(u32, Vec<u8>), PackError>
    requires { All (λ place. place < width) places.now }
    ensures lines { IfOk result (λ made. made.1.items
        ≡ flat_map (row_text default_writer) (map (arranged null.now places.now) records.old)) }
    ensures rows { IfOk result (λ made. made.0 ≡ length records.old) }
    ensures few { IfOk result (λ made. length records.old ≤ MAX_ROWS) }
    ensures widths { IfOk result (λ made. All (λ fields. length fields ≡ width) records.old) }
    ensures refused { IfErr result (WidthFault width records.old) }
{
    let mut writer = Writer::from_writer(Vec::new(alloc));
    let rows = put_rows(alloc, &mut writer, null, places, width, records)?;
    let lines = finish(writer)?;
    Ok((rows, lines))
}
