//! Batches.

ghost use Rattle.std.specs.Prelude.{◌≡◌, ◌≤◌, List, [], drop, length, take, IfOk, IfErr, MatchResult};
ghost use Rattle.grouping_model.specs.Datum.{Row};
ghost use Rattle.packed_rows.specs.Columns.{kinds};
ghost use Rattle.grouping_model.specs.declared.limits.TheConstants.{MAX_ROWS};
ghost use Rattle.batch_reader.specs.Head.{ReadsOrigin, ReadsBatchNumber};
ghost use Rattle.batch_reader.specs.Rows.{ReadsRows, packings, records_of};
ghost use Rattle.batch_reader.specs.Refusal.{BuildFault};

use crate::error::BatchError;
use crate::head::checked_head;
use crate::rows::{pack_next, pack_records};
use csv::ByteRecord;
use packed_rows::{PackedRows, Schema};
use script_io::Records;
use std::alloc::{AllocError, Global};

/// A batch: the rows to which an origin gave one number.
#[derive(Drop)]
pub struct Batch {
    /// The origin, 0 to 1,023.
    pub origin: u16,
    /// The number, 1 to 4,294,967,295.
    pub number: u32,
    /// The rows, packed by the schema that read them; at most [`MAX_ROWS`](grouping_model::limits::MAX_ROWS).
    pub rows: PackedRows,
}

/// The batch of records that are rows of a schema. Origin and number are 1 to 10 digits each, leading zeros included;
/// `told` is the number of rows that the batch's header states. The error is the first that applies, in the order of
/// `BatchError`.
pub fn build_batch(
    alloc: Global,
    schema: &Schema,
    origin: &[u8],
    number: &[u8],
    told: u32,
    records: &[ByteRecord],
) -> Result<Batch, BatchError>
    ensures origin { IfOk result (λ batch. ReadsOrigin origin.now batch.origin) }
    ensures number { IfOk result (λ batch. ReadsBatchNumber number.now batch.number) }
    ensures few { IfOk result (λ batch. length batch.rows ≤ MAX_ROWS) }
    ensures told { IfOk result (λ batch. length batch.rows ≡ told) }
    ensures rows { IfOk result (λ batch. (rows : List Row)
        × ReadsRows (kinds schema.now) (records_of records.now) rows
        × (batch.rows ≡ packings rows)) }
    ensures refused { IfErr result (BuildFault (kinds schema.now) origin.now number.now told
        (records_of records.now)) }
{
    let (origin, number) = checked_head(origin, number, told)?;
    if records.len() != told as usize {
        return Err(BatchError::RowCount);
    }
    let rows = pack_records(alloc, schema, records)?;
    Ok(Batch {
        origin,
        number,
        rows,
    })
}

/// The batch of the next `told` records, or of all that are left if they are fewer, by the rules of `build_batch`. These records are
/// consumed in any case. Each is packed as it is read, so only rows are kept; if the header is refused they are skipped through one
/// buffer. Memory is taken for the records that come, not for the number that the header states.
///
/// The inner error tells why they are not a batch. The only outer error is that memory ran out for a record; after it no
/// more records come.
pub fn read_rows(
    alloc: Global,
    schema: &Schema,
    origin: &[u8],
    number: &[u8],
    told: u32,
    records: &mut Records<'_>,
) -> Result<Result<Batch, BatchError>, AllocError>
    ensures origin { IfOk result (λ built. IfOk built (λ batch.
        ReadsOrigin origin.now batch.origin)) }
    ensures number { IfOk result (λ built. IfOk built (λ batch.
        ReadsBatchNumber number.now batch.number)) }
    ensures few { IfOk result (λ built. IfOk built (λ batch. length batch.rows ≤ MAX_ROWS)) }
    ensures told { IfOk result (λ built. IfOk built (λ batch. length batch.rows ≡ told)) }
    ensures rows { IfOk result (λ built. IfOk built (λ batch. (rows : List Row)
        × ReadsRows (kinds schema.now) (take told records.old) rows
        × (batch.rows ≡ packings rows))) }
    ensures refused { IfOk result (λ built. IfErr built (BuildFault (kinds schema.now) origin.now
        number.now told (take told records.old))) }
    ensures left { MatchResult result (λ _. records.new ≡ drop told records.old)
        (λ _. records.new ≡ []) }
{
    let (origin, number) = match checked_head(origin, number, told) {
        Ok(head) => head,
        Err(why) => {
            records.skip(told as usize)?;
            return Ok(Err(why));
        }
    };
    match pack_next(alloc, schema, told, records)? {
        Ok(rows) => Ok(Ok(Batch {
            origin,
            number,
            rows,
        })),
        Err(why) => Ok(Err(why)),
    }
}
