//! Rows of a schema: packing fields, and unpacking.

ghost use Rattle.std.specs.Prelude.{◌≡◌, ◌≤◌, ◌++◌, List, ℕ, map, IfOk, IfErr, take, length};
ghost use Rattle.grouping_model.specs.Datum.{Row, HasKinds};
ghost use Rattle.packed_rows.specs.Columns.{kinds};
ghost use Rattle.packed_rows.specs.Field.{ReadsRow};
ghost use Rattle.packed_rows.specs.Packing.{packing};
ghost use Rattle.packed_rows.specs.Refusal.{PackFault, UnpackFault};
ghost use Rattle.packed_rows.specs.View.{row_of, texts_of};

use crate::error::RowError;
use crate::field::read_value;
use crate::packing::pack_value;
use crate::schema::Schema;
use crate::unpacking::unpack_key;
use crate::value::{Value, ValueKind};
use grouping_model::limits::MAX_TEXT_LEN;
use std::alloc::Global;

/// How many bytes the packing of a field has at most, if it is a value of its column.
fn most_bytes(kind: ValueKind, field: &[u8]) -> usize
    ensures { result ≤ 257 }
{
    match kind {
        ValueKind::Bigint => 9,
        ValueKind::Boolean => 2,
        ValueKind::Text => field.len().min(MAX_TEXT_LEN) + 2,
    }
}

/// How many bytes the packing of fields has at most; nulls take fewer.
fn packed_len(kinds: &[ValueKind], fields: &[&[u8]]) -> usize {
    let mut room: usize = 0;
    for (kind, field) in kinds.iter().zip(fields) {
        room = room.saturating_add(most_bytes(*kind, field));
    }
    room
}

/// The packing of the row of these fields. The errors are `WrongWidth` for more or fewer fields than columns; else
/// `BadField` for the leftmost field that is not a value of its column; and `NoMemory`.
pub fn pack_row(alloc: Global, schema: &Schema, fields: &[&[u8]]) -> Result<Vec<u8>, RowError>
    ensures packed { IfOk result (λ bytes. (row : Row)
        × ReadsRow (kinds schema.now) (texts_of fields.now) row × (bytes.items ≡ packing row)) }
    ensures refused { IfErr result (PackFault (kinds schema.now) (texts_of fields.now)) }
{
    if fields.len() != schema.width() {
        return Err(RowError::WrongWidth);
    }
    let mut out = Vec::with_capacity(alloc, packed_len(schema.kinds(), fields))?;
    for (column, kind) in schema.kinds().iter().enumerate() {
        let Some(value) = read_value(fields[column], *kind) else {
            return Err(RowError::BadField { column });
        };
        pack_value(&mut out, value)?;
    }
    Ok(out)
}

/// The values of a row of this schema from its packing. The errors are `BadPacked` if the bytes are no such packing, and `NoMemory`.
pub fn unpack_row<'a>(
    alloc: Global,
    schema: &Schema,
    bytes: &'a [u8],
) -> Result<Vec<Value<'a>>, RowError>
    // What is unpacked is a row of the schema, and the bytes are its packing.
    ensures found { IfOk result (λ row. HasKinds (kinds schema.now) (row_of row.items)
        × (bytes.now ≡ packing (row_of row.items))) }
    // The bytes are refused only if they are not the packing of such a row.
    ensures refused { IfErr result (UnpackFault (kinds schema.now) bytes.now) }
{
    unpack_key(alloc, schema.kinds(), bytes)
}
