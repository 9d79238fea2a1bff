//! Why the records of a batch are refused.

use crate::field::FieldFault;
use crate::foreign::{is_header, is_header_line, known_by_front, other_separator};
use crate::lines::{count_records, first_line, line_of, open_quote, record_at};
use batch_reader::BatchError;
use csv::ByteRecord;
use grouping_model::limits::{LAST_NUMBER, LAST_ORIGIN, MAX_ROWS};
use packed_rows::Schema;
use script_io::{read_digits, read_row_count};
use sentences::Said;
use std::alloc::{AllocError, Global};

/// The records of a batch: its head is the first of a text.
#[derive(Clone, Copy)]
pub struct BatchText<'b> {
    /// The text, from the head on.
    pub text: &'b [u8],
    /// The line of the head.
    pub line: u64,
    /// Whether it is a file, whose records all belong to the batch.
    pub is_file: bool,
}

/// What the head of a batch tells, as it is written.
#[derive(Clone, Copy)]
struct Head<'h> {
    origin: &'h [u8],
    number: &'h [u8],
    rows: &'h [u8],
}

/// The most digits of an origin or a number.
const MAX_DIGITS: usize = 10;

/// Whether a field is a number of a range.
fn is_within(field: &[u8], least: u64, most: u64) -> bool {
    match read_digits(field, MAX_DIGITS) {
        Some(number) => least <= number && number <= most,
        None => false,
    }
}

/// A part of the head of a batch.
#[derive(Clone, Copy)]
enum HeadPart {
    Origin,
    Number,
    Rows,
}

impl HeadPart {
    /// Its name.
    fn name(self) -> &'static str {
        match self {
            HeadPart::Origin => "ORIGIN",
            HeadPart::Number => "NUMBER",
            HeadPart::Rows => "ROWS",
        }
    }

    /// Says what it must be.
    fn say_wanted(self, said: &mut Said) {
        match self {
            HeadPart::Origin => said.number("0 to ", u64::from(LAST_ORIGIN)),
            HeadPart::Number => said.number("1 to ", u64::from(LAST_NUMBER)),
            HeadPart::Rows => said.push_str("1 to 9 digits"),
        }
    }
}

impl<'h> Head<'h> {
    /// The first part that is not what it must be, of the rows, the origin and the number.
    fn bad_part(&self) -> Option<(HeadPart, &'h [u8])> {
        if read_row_count(self.rows).is_none() {
            Some((HeadPart::Rows, self.rows))
        } else if !is_within(self.origin, 0, u64::from(LAST_ORIGIN)) {
            Some((HeadPart::Origin, self.origin))
        } else if !is_within(self.number, 1, u64::from(LAST_NUMBER)) {
            Some((HeadPart::Number, self.number))
        } else {
            None
        }
    }
}

/// What is said of white space round a field, if there is some.
fn space_of(field: &[u8]) -> &'static str {
    if field.trim_ascii().len() < field.len() {
        ", without white space around it"
    } else {
        ""
    }
}

impl<'b> BatchText<'b> {
    /// The batch of a file.
    pub fn of_file(text: &'b [u8]) -> BatchText<'b> {
        BatchText {
            text,
            line: 1,
            is_file: true,
        }
    }

    /// The line of a record.
    fn line_of(&self, record: &ByteRecord) -> u64 {
        self.line
            .saturating_add(line_of(self.text, record).saturating_sub(1))
    }

    /// What a head tells, if it has as many fields as one.
    fn head<'h>(&self, record: &'h ByteRecord) -> Option<Head<'h>> {
        let first = if self.is_file { 1 } else { 2 };
        let wanted = if self.is_file { 4 } else { 5 };
        if record.len() != wanted {
            return None;
        }
        Some(Head {
            origin: record.get(first)?,
            number: record.get(first + 1)?,
            rows: record.get(first + 2)?,
        })
    }

    /// The part of a head that is not what it must be.
    fn bad_part<'h>(&self, record: &'h ByteRecord) -> Option<(HeadPart, &'h [u8])> {
        if self.is_file && record.get(0) != Some(b"batch".as_slice()) {
            return None;
        }
        self.head(record)?.bad_part()
    }

    /// Says of a part of a head what it must be.
    fn say_part(&self, said: &mut Said, record: &ByteRecord, part: HeadPart, field: &[u8]) {
        // In a script the line of the head is told already.
        if self.is_file {
            let line = self.line_of(record);
            said.number("line ", line);
            said.push_str(": ");
        }
        said.push_str(part.name());
        said.quoted(" is ", field);
        said.push_str("; it must be ");
        part.say_wanted(said);
        said.push_str(space_of(field));
    }

    /// Says of a file that its first line is not a head of a batch.
    fn say_front(&self, said: &mut Said, schema: &Schema) {
        let line = first_line(self.text);
        if line.is_empty() {
            said.push_str("the file is empty; its first line must be batch,ORIGIN,NUMBER,ROWS");
            return;
        }
        said.quoted("the first line is ", line);
        said.push_str("; it must be batch,ORIGIN,NUMBER,ROWS");
        said.push_aside(self.front_hint(schema, line));
    }

    /// What the front of a file tells of it.
    fn front_hint(&self, schema: &Schema, line: &[u8]) -> Option<&'static str> {
        if let Some(known) = known_by_front(self.text) {
            return Some(known);
        }
        if is_header_line(schema, line) {
            return Some("the line is a header, which a batch does not have");
        }
        other_separator(line)
    }

    /// Says why the head is refused.
    fn say_head(&self, said: &mut Said, schema: &Schema, head: Option<&ByteRecord>) {
        if let Some(record) = head {
            if let Some((part, field)) = self.bad_part(record) {
                self.say_part(said, record, part, field);
                return;
            }
        }
        self.say_front(said, schema);
    }

    /// Adds that a quote is left open, if one is.
    fn add_open_quote(&self, said: &mut Said) {
        if let Some(line) = open_quote(self.text) {
            let line = self.line.saturating_add(line.saturating_sub(1));
            said.number("; the quote of line ", line);
            said.push_str(" is never closed");
        }
    }

    /// How many rows the head tells.
    fn told(&self, head: Option<&ByteRecord>) -> u32 {
        let Some(record) = head else {
            return 0;
        };
        match self.head(record) {
            Some(head) => read_row_count(head.rows).unwrap_or(0),
            None => 0,
        }
    }

    /// Says how many rows are told, and how many there are.
    fn say_count(
        &self,
        alloc: Global,
        said: &mut Said,
        head: Option<&ByteRecord>,
    ) -> Result<(), AllocError> {
        let found = count_records(alloc, self.text)?.saturating_sub(1);
        let told = self.told(head);
        said.number("rows declared: ", u64::from(told));
        said.number(", found: ", found);
        self.add_open_quote(said);
        Ok(())
    }

    /// Says that too many rows are told.
    fn say_too_many(&self, said: &mut Said, head: Option<&ByteRecord>) {
        let told = self.told(head);
        said.number("rows declared: ", u64::from(told));
        said.number("; a batch has at most ", u64::from(MAX_ROWS));
    }

    /// Says how many fields a record has, and which are wanted.
    fn say_width(&self, said: &mut Said, schema: &Schema, record: &ByteRecord) {
        let (line, found, wanted) = (self.line_of(record), record.len(), schema.width());
        said.number("line ", line);
        said.count(": fields found: ", found);
        said.count(", expected: ", wanted);
        said.push_str(" (");
        said.push_made(schema.print());
        said.push(')');
        if found == 1 && wanted > 1 {
            said.push_aside(other_separator(record.get(0).unwrap_or_default()));
        }
    }

    /// Says why a field is not a value of its column.
    fn say_field(&self, said: &mut Said, schema: &Schema, record: &ByteRecord, column: usize) {
        let line = self.line_of(record);
        let field = record.get(column).unwrap_or_default();
        if column >= schema.width() {
            said.number("line ", line);
            said.quoted(": ", field);
            return;
        }
        let (name, kind) = (schema.name(column), schema.kind(column));
        let (fault, kind) = (FieldFault::of(field, kind), kind.as_str());
        said.number("line ", line);
        said.text(", column ", name);
        said.text(" ", kind);
        said.quoted(": ", field);
        write!(said, ": {fault}");
        if is_header(schema, record) {
            said.push_str("; the line is a header, which a batch does not have");
        }
    }

    /// Says why a row is refused: for a field, or for how many it has.
    fn say_row(
        &self,
        alloc: Global,
        said: &mut Said,
        schema: &Schema,
        row: usize,
        column: Option<usize>,
    ) -> Result<(), AllocError> {
        let Some(record) = record_at(alloc, self.text, row.saturating_add(1))? else {
            return Ok(());
        };
        match column {
            Some(column) => self.say_field(said, schema, &record, column),
            None => self.say_width(said, schema, &record),
        }
        drop(record);
        // In a script other commands stand behind the rows.
        if self.is_file {
            self.add_open_quote(said);
        }
        Ok(())
    }

    /// Says why the records are not a batch of a schema, if a fault is found.
    fn say_fault(
        &self,
        alloc: Global,
        said: &mut Said,
        schema: &Schema,
        head: Option<&ByteRecord>,
        why: BatchError,
    ) -> Result<(), AllocError> {
        match why {
            BatchError::NoMemory => {}
            BatchError::BadBatchHead => self.say_head(said, schema, head),
            BatchError::TooManyRows => self.say_too_many(said, head),
            BatchError::RowCount => return self.say_count(alloc, said, head),
            BatchError::WrongWidth { row } => return self.say_row(alloc, said, schema, row, None),
            BatchError::BadField { row, column } => {
                return self.say_row(alloc, said, schema, row, Some(column));
            }
        }
        Ok(())
    }

    /// Says why the records are not a batch of a schema. It says nothing if it finds no fault.
    pub fn say(
        &self,
        alloc: Global,
        schema: &Schema,
        why: BatchError,
    ) -> Result<Option<String>, AllocError> {
        let head = record_at(alloc, self.text, 0)?;
        let said = self.say_behind(alloc, schema, head.as_ref(), why);
        drop(head);
        said
    }

    /// The same of records whose first one, if there is one, is read.
    pub(crate) fn say_behind(
        &self,
        alloc: Global,
        schema: &Schema,
        head: Option<&ByteRecord>,
        why: BatchError,
    ) -> Result<Option<String>, AllocError> {
        let mut said = Said::new(alloc);
        self.say_fault(alloc, &mut said, schema, head, why)?;
        said.end_if_any()
    }
}
