//! Batch files.

ghost use Rattle.std.specs.Prelude.{◌≡◌, ◌≤◌, ℕ, List, length, option_map, IfOk, IfErr, IsSomeAnd};
ghost use Rattle.csv.specs.Records.{fields_of};
ghost use Rattle.grouping_model.specs.Datum.{Row};
ghost use Rattle.grouping_model.specs.declared.limits.TheConstants.{MAX_ROWS};
ghost use Rattle.packed_rows.specs.Columns.{kinds};
ghost use Rattle.batch_reader.specs.Head.{ReadsOrigin, ReadsBatchNumber};
ghost use Rattle.batch_reader.specs.Rows.{ReadsRows, packings};
ghost use Rattle.batch_reader.specs.File.{FileFault, file_head, read_file, told_by};
ghost use Rattle.batch_reader.specs.Refusal.{BuildFault, HeadReads};
ghost use Rattle.batch_reader.specs.Views.{head_view};

use crate::batch::Batch;
use crate::error::BatchError;
use crate::head::checked_head;
use crate::rows::pack_next;
use csv::ByteRecord;
use packed_rows::{PackedRows, Schema};
use script_io::{Records, field, read_row_count};
use std::alloc::Global;

/// What the first record of a batch file says.
#[derive(Clone, Copy)]
struct FileHead<'a> {
    origin: &'a [u8],
    number: &'a [u8],
    told: u32,
}

/// What four fields say as the header of a batch file.
fn told_by<'a>(word: &[u8], origin: &'a [u8], number: &'a [u8], rows: &[u8]) -> Option<FileHead<'a>>
    ensures { option_map head_view result ≡ told_by word.now origin.now number.now rows.now }
{
    if word != b"batch".as_slice() {
        return None;
    }
    match read_row_count(rows) {
        Some(told) => Some(FileHead {
            origin,
            number,
            told,
        }),
        None => None,
    }
}

/// What a record says as the header of a batch file.
#[tactic(auto, using(crate::proofs::FileLaws::head_of_four, crate::proofs::FileLaws::head_of_other))]
fn file_head(first: &ByteRecord) -> Option<FileHead<'_>>
    ensures { option_map head_view result ≡ file_head (fields_of first.now) }
{
    if first.len() != 4 {
        return None;
    }
    told_by(
        field(first, 0),
        field(first, 1),
        field(first, 2),
        field(first, 3),
    )
}

/// The packings of the rows of the remaining records, if these are as many as `told`. At most one record more is read.
fn pack_left(
    alloc: Global,
    schema: &Schema,
    told: u32,
    records: &mut Records<'_>,
) -> Result<PackedRows, BatchError>
    requires { told ≤ MAX_ROWS }
    ensures packed { IfOk result (λ packed. (rows : List Row)
        × ReadsRows (kinds schema.now) records.old rows × (packed ≡ packings rows)) }
    ensures told { IfOk result (λ packed. length packed ≡ told) }
    ensures refused { IfErr result (λ why. (origin number : List ℕ) → HeadReads origin number
        → BuildFault (kinds schema.now) origin number told records.old why) }
{
    let rows = pack_next(alloc, schema, told, records)?;
    if records.next()?.is_some() {
        return Err(BatchError::RowCount);
    }
    rows
}

/// The batch of a batch file: records in CSV, as `csv` reads them by default, of which the first is `batch,ORIGIN,NUMBER,ROWS` and the
/// others are rows of a schema. ORIGIN and NUMBER are 1 to 10 digits each, and ROWS, the number of rows, 1 to 9; leading zeros are
/// allowed. The error is the first that applies, in the order of `BatchError`. After a header that is refused no record is read. Of the
/// records only the rows are kept.
pub fn read_batch(alloc: Global, schema: &Schema, file: &[u8]) -> Result<Batch, BatchError>
    ensures origin { IfOk result (λ batch. IsSomeAnd (read_file file.now) (λ read.
        ReadsOrigin read.head.origin batch.origin)) }
    ensures number { IfOk result (λ batch. IsSomeAnd (read_file file.now) (λ read.
        ReadsBatchNumber read.head.number batch.number)) }
    ensures few { IfOk result (λ batch. length batch.rows ≤ MAX_ROWS) }
    ensures told { IfOk result (λ batch. IsSomeAnd (read_file file.now) (λ read.
        length batch.rows ≡ read.head.told)) }
    ensures rows { IfOk result (λ batch. IsSomeAnd (read_file file.now) (λ read. (rows : List Row)
        × ReadsRows (kinds schema.now) read.records rows × (batch.rows ≡ packings rows))) }
    ensures refused { IfErr result (FileFault (kinds schema.now) (read_file file.now)) }
{
    let mut records = Records::new(alloc, file);
    let Some(first) = records.next()? else {
        return Err(BatchError::BadBatchHead);
    };
    let Some(head) = file_head(&first) else {
        return Err(BatchError::BadBatchHead);
    };
    let (origin, number) = checked_head(head.origin, head.number, head.told)?;
    let rows = pack_left(alloc, schema, head.told, &mut records)?;
    Ok(Batch {
        origin,
        number,
        rows,
    })
}
