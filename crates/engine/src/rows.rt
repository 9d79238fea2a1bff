//! Batches of rows whose origin and number are given apart.

ghost use Rattle.std.specs.Prelude.{◌≡◌, ◌≢◌, [], IfOk, IfErr, decimal};
ghost use Rattle.packed_rows.specs.Columns.{kinds};
ghost use Rattle.batch_reader.specs.File.{FileFault};
ghost use Rattle.command_replicas.specs.Commands.{IsReadOf};
ghost use Rattle.engine.specs.Calls.{batch_of, file_of};
ghost use Rattle.batch_reader.specs.declared.error.BatchError.TheVariants.{NoMemory, RowCount};
ghost use Rattle.script_io.specs.Records.{records_of};
ghost use Rattle.refusals.specs.Batches.{IsRead};

use batch_reader::{Batch, BatchError, read_rows};
use itoa::Buffer;
use packed_rows::Schema;
use script_io::Records;
use std::alloc::Global;

/// Why no batch is read: more records come than declared, or another reason. Out of memory is `NoMemory`.
fn why_unread(records: &mut Records<'_>, otherwise: BatchError) -> BatchError
    ensures none { records.old ≡ [] → (result ≢ NoMemory) → result ≡ otherwise }
    ensures more { records.old ≢ [] → (result ≢ NoMemory) → result ≡ RowCount }
{
    match records.next() {
        Ok(None) => otherwise,
        Ok(Some(_)) => BatchError::RowCount,
        Err(_) => BatchError::NoMemory,
    }
}

/// The batch of all remaining records, by the rules of batch files.
fn read_left(
    alloc: Global,
    schema: &Schema,
    origin: &[u8],
    number: &[u8],
    count: u32,
    records: &mut Records<'_>,
) -> Result<Batch, BatchError>
    ensures read { IfOk result (IsRead (kinds schema.now) origin.now number.now count records.old) }
    ensures refused { IfErr result (FileFault (kinds schema.now) (file_of origin.now number.now count records.old)) }
{
    match read_rows(alloc, schema, origin, number, count, records)? {
        Ok(batch) => {
            if records.next()?.is_some() {
                return Err(BatchError::RowCount);
            }
            return Ok(batch);
        }
        Err(BatchError::NoMemory) => return Err(BatchError::NoMemory),
        Err(BatchError::BadBatchHead) => return Err(BatchError::BadBatchHead),
        Err(BatchError::TooManyRows) => return Err(BatchError::TooManyRows),
        Err(BatchError::RowCount) => return Err(BatchError::RowCount),
        Err(BatchError::WrongWidth { row }) => {
            return Err(why_unread(records, BatchError::WrongWidth { row }));
        }
        Err(BatchError::BadField { row, column }) => {
            return Err(why_unread(records, BatchError::BadField { row, column }));
        }
    }
}

/// The batch of all records of a text, by the rules of batch files.
fn read_all(
    alloc: Global,
    schema: &Schema,
    origin: &[u8],
    number: &[u8],
    count: u32,
    rows: &[u8],
) -> Result<Batch, BatchError>
    ensures read { IfOk result (IsRead (kinds schema.now) origin.now number.now count (records_of rows.now)) }
    ensures refused { IfErr result (FileFault (kinds schema.now) (file_of origin.now number.now count (records_of rows.now))) }
{
    let mut records = Records::new(alloc, rows);
    read_left(alloc, schema, origin, number, count, &mut records)
}

/// The batch of an origin and a number, with rows in CSV, as many as declared. The error is the first in the order of [`BatchError`].
pub(crate) fn read_numbered(
    alloc: Global,
    schema: &Schema,
    origin: u32,
    number: u32,
    count: u32,
    rows: &[u8],
) -> Result<Batch, BatchError>
    ensures read { IfOk result (IsReadOf (kinds schema.now) (batch_of origin number count rows.now)) }
    ensures refused { IfErr result (FileFault (kinds schema.now) (batch_of origin number count rows.now)) }
{
    let (mut first, mut second) = (Buffer::new(), Buffer::new());
    let origin = first.format(origin as usize).as_bytes();
    let number = second.format(number as usize).as_bytes();
    read_all(alloc, schema, origin, number, count, rows)
}
