//! Lines of a batch file.

ghost use Rattle.std.specs.Prelude.{◌≡◌, ◌<◌, All, length, codes, decimal, ◌∷◌, [], OnOk, IfOk};
ghost use Rattle.csv.specs.Records.{fields_of, partial_of};
ghost use Rattle.csv.specs.Writing.{default_writer, row_text};
ghost use Rattle.plain_batches.specs.Columns.{arranged, plain_field};
ghost use Rattle.plain_batches.specs.Packed.{head_fields, head_of};
ghost use Rattle.script_io.specs.LineWriter.{IsBetween, Writes, written};

use csv::{ByteRecord, Writer};
use itoa::Buffer;
use script_io::field;
use std::alloc::{AllocError, Global};

/// The field of a null in a batch file.
const NULL_FIELD: &[u8] = b"\\N";

/// A field as a batch has it.
fn plain_field<'a>(null: &[u8], field: &'a [u8]) -> &'a [u8]
    ensures { result.now ≡ plain_field null.now field.now }
{
    if field == null { NULL_FIELD } else { field }
}

/// Fills a line with the fields of a record, in the order of the columns.
pub(crate) fn arrange(
    line: &mut ByteRecord,
    null: &[u8],
    places: &[usize],
    plain: &ByteRecord,
) -> Result<(), AllocError>
    requires { All (λ place. place < length (fields_of plain.now)) places.now }
    ensures { OnOk result (fields_of line.new ≡ arranged null.now places.now (fields_of plain.now)) }
{
    line.clear();
    for place in places {
        line.push_field(plain_field(null, field(plain, *place)))?;
    }
    Ok(())
}

/// Writes the line of a record.
pub(crate) fn put_line(writer: &mut Writer<Vec<u8>>, line: &ByteRecord) -> Result<(), AllocError>
    requires { IsBetween writer.old }
    ensures line { OnOk result (Writes writer.old writer.new (row_text default_writer (fields_of line.now))) }
    ensures between { OnOk result (IsBetween writer.new) }
{
    match writer.write_byte_record(line) {
        Ok(()) => Ok(()),
        Err(_) => Err(AllocError),
    }
}

/// The line of a batch's header.
pub(crate) fn head_line(
    alloc: Global,
    origin: u16,
    number: u32,
    rows: u32,
) -> Result<Vec<u8>, AllocError>
    ensures { IfOk result (λ text. text.items
        ≡ row_text default_writer (head_fields (head_of origin number rows))) }
{
    let mut line = ByteRecord::new(alloc);
    line.push_field(b"batch")?;
    line.push_field(Buffer::new().format(origin).as_bytes())?;
    line.push_field(Buffer::new().format(number).as_bytes())?;
    line.push_field(Buffer::new().format(rows).as_bytes())?;
    let mut writer = Writer::from_writer(Vec::new(alloc));
    put_line(&mut writer, &line)?;
    finish(writer)
}

/// The text that a writer to memory wrote.
pub(crate) fn finish(writer: Writer<Vec<u8>>) -> Result<Vec<u8>, AllocError>
    ensures { IfOk result (λ text. written writer ≡ Some text.items) }
{
    match writer.into_inner() {
        Ok(text) => Ok(text),
        Err(_) => Err(AllocError),
    }
}
