//! Packed rows.

ghost use Rattle.std.specs.Prelude.{◌≡◌, ◌≤◌, ℕ, List, [], ◌∷◌, ◌++◌, drop, length, take, IfErr, IfOk, MatchResult, OnErr, OnOk};
ghost use Rattle.csv.specs.Records.{fields_of};
ghost use Rattle.grouping_model.specs.Datum.{Row};
ghost use Rattle.grouping_model.specs.declared.limits.TheConstants.{MAX_ROWS};
ghost use Rattle.packed_rows.specs.Columns.{kinds};
ghost use Rattle.packed_rows.specs.Field.{ReadsRow};
ghost use Rattle.packed_rows.specs.Packing.{packing};
ghost use Rattle.batch_reader.specs.Rows.{ReadsRows, packings, records_of};
ghost use Rattle.batch_reader.specs.Refusal.{BuildFault, HeadReads, RecordFault, RowsFault};

use crate::error::BatchError;
use csv::ByteRecord;
use packed_rows::{PackedRows, Schema, pack_value, read_value};
use script_io::{Records, field};
use std::alloc::{AllocError, Global};

/// Packs the row of a record into a buffer, replacing what it held. An error names the row, counted from 0.
fn pack_record(
    schema: &Schema,
    row: usize,
    csv_record: &ByteRecord,
    packed: &mut Vec<u8>,
) -> Result<(), BatchError>
    ensures packed { OnOk result ((values : Row) × ReadsRow (kinds schema.now) (fields_of csv_record.now) values
        × (packed.new.items ≡ packing values)) }
    ensures refused { IfErr result (RecordFault (kinds schema.now) row (fields_of csv_record.now)) }
{
    packed.clear();
    let kinds = schema.kinds();
    if csv_record.len() != kinds.len() {
        return Err(BatchError::WrongWidth { row });
    }
    for (column, kind) in kinds.iter().enumerate() {
        let Some(value) = read_value(field(csv_record, column), *kind) else {
            return Err(BatchError::BadField { row, column });
        };
        pack_value(packed, value)?;
    }
    Ok(())
}

/// Appends the packing of the row of a record. The buffer serves for one row after the other. After an error the rows
/// are as they were.
fn push_record(
    schema: &Schema,
    row: usize,
    csv_record: &ByteRecord,
    packed: &mut Vec<u8>,
    rows: &mut PackedRows,
) -> Result<(), BatchError>
    ensures pushed { OnOk result ((values : Row) × ReadsRow (kinds schema.now) (fields_of csv_record.now) values
        × (rows.new ≡ rows.old ++ packing values ∷ [])) }
    ensures same { OnErr result (rows.new ≡ rows.old) }
    ensures refused { IfErr result (RecordFault (kinds schema.now) row (fields_of csv_record.now)) }
{
    pack_record(schema, row, csv_record, packed)?;
    rows.push(packed)?;
    Ok(())
}

/// The packings of the rows of records, record by record.
pub(crate) fn pack_records(
    alloc: Global,
    schema: &Schema,
    records: &[ByteRecord],
) -> Result<PackedRows, BatchError>
    ensures packed { IfOk result (λ packed. (rows : List Row)
        × ReadsRows (kinds schema.now) (records_of records.now) rows × (packed ≡ packings rows)) }
    ensures refused { IfErr result (RowsFault (kinds schema.now) (records_of records.now)) }
{
    let mut rows = PackedRows::new(alloc);
    let mut packed = Vec::new(alloc);
    for (row, record) in records.iter().enumerate() {
        push_record(schema, row, record, &mut packed, &mut rows)?;
    }
    Ok(rows)
}

/// The packings of the rows of the next `told` records. The fault is that there are fewer, or else the first record that is not a row
/// of the schema. All of them are read in any case, and only their rows are kept.
///
/// The only outer error is that memory ran out for a record, and after it no more records come.
pub(crate) fn pack_next(
    alloc: Global,
    schema: &Schema,
    told: u32,
    records: &mut Records<'_>,
) -> Result<Result<PackedRows, BatchError>, AllocError>
    requires { told ≤ MAX_ROWS }
    ensures packed { IfOk result (λ built. IfOk built (λ packed. (rows : List Row)
        × ReadsRows (kinds schema.now) (take told records.old) rows × (packed ≡ packings rows))) }
    ensures told { IfOk result (λ built. IfOk built (λ packed. length packed ≡ told)) }
    ensures refused { IfOk result (λ built. IfErr built (λ why. (origin number : List ℕ)
        → HeadReads origin number
        → BuildFault (kinds schema.now) origin number told (take told records.old) why)) }
    ensures left { MatchResult result (λ _. records.new ≡ drop told records.old)
        (λ _. records.new ≡ []) }
{
    let mut rows = PackedRows::new(alloc);
    let mut packed = Vec::new(alloc);
    let mut record = ByteRecord::new(alloc);
    let mut fault = None;
    for row in 0..told {
        if !records.read(&mut record)? {
            return Ok(Err(BatchError::RowCount));
        }
        if fault.is_none() {
            fault = push_record(schema, row as usize, &record, &mut packed, &mut rows).err();
        }
    }
    match fault {
        None => Ok(Ok(rows)),
        Some(why) => Ok(Err(why)),
    }
}
