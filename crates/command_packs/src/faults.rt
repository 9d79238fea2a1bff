//! Why a plain CSV is not a batch.

use csv::{ByteRecord, ReaderBuilder};
use fault_sentences::{FieldFault, line_of};
use grouping_model::limits::{MAX_INPUT_LEN, MAX_ROWS};
use packed_rows::Schema;
use plain_batches::{Layout, PackError, blank_lines};
use sentences::{Quoted, Reason};
use std::alloc::{AllocError, Global};

/// Bytes that often stand between fields, and how one tells them.
const DELIMITERS: [(u8, &str); 4] = [
    (b',', "--delimiter ,"),
    (b';', "--delimiter ';'"),
    (b'\t', "--delimiter tab"),
    (b'|', "--delimiter '|'"),
];

/// A plain CSV that was refused.
#[derive(Clone, Copy)]
pub(crate) struct PlainText<'p> {
    /// The columns by which it was read.
    pub(crate) schema: &'p Schema,
    /// How it was read.
    pub(crate) layout: Layout<'p>,
    /// Its bytes.
    pub(crate) csv: &'p [u8],
}

/// Whether a record has this name in any case of letters.
fn has_name(header: &ByteRecord, name: &[u8]) -> bool {
    place_of(header, name).is_some()
}

/// The place of a name in a header.
fn place_of(header: &ByteRecord, name: &[u8]) -> Option<usize> {
    for place in 0..header.len() {
        if let Some(found) = header.get(place) {
            if found.eq_ignore_ascii_case(name) {
                return Some(place);
            }
        }
    }
    None
}

/// Appends a name behind those before it.
fn push_name(said: &mut String, name: &str) -> Result<(), AllocError> {
    if !said.is_empty() {
        said.push_str(", ")?;
    }
    said.push_str(name)
}

/// The line of the byte at a place, the first line being 1. A line ends at a line feed, at a carriage return, or at both together.
fn line_at(text: &[u8], place: usize) -> u64 {
    let mut line = 1u64;
    let mut is_behind_return = false;
    for byte in text.get(..place).unwrap_or_default() {
        if *byte == b'\r' || *byte == b'\n' && !is_behind_return {
            line = line.saturating_add(1);
        }
        is_behind_return = *byte == b'\r';
    }
    line
}

impl PlainText<'_> {
    /// The record at a place, the first being 0, if there are so many.
    fn record_at(&self, alloc: Global, place: usize) -> Result<Option<ByteRecord>, AllocError> {
        let mut reader = ReaderBuilder::new()
            .has_headers(false)
            .flexible(true)
            .delimiter(self.layout.delimiter)
            .from_reader(alloc, self.csv);
        let mut record = ByteRecord::new(alloc);
        for _ in 0..place.saturating_add(1) {
            match reader.read_byte_record(&mut record) {
                Ok(true) => {}
                Ok(false) => return Ok(None),
                Err(_) => return Err(AllocError),
            }
        }
        Ok(Some(record))
    }

    /// The record of a row, the first being 0.
    fn row_at(&self, alloc: Global, row: usize) -> Result<Option<ByteRecord>, AllocError> {
        let before = usize::from(self.layout.has_header);
        self.record_at(alloc, row.saturating_add(before))
    }

    /// Whether the schema has a column of this name.
    fn has_column(&self, name: &[u8]) -> bool {
        for column in 0..self.schema.width() {
            if name.eq_ignore_ascii_case(self.schema.name(column).as_bytes()) {
                return true;
            }
        }
        false
    }

    /// The names of a header that are no columns.
    fn unknown_names(&self, alloc: Global, header: &ByteRecord) -> Result<String, AllocError> {
        let mut said = String::new(alloc);
        for place in 0..header.len() {
            let name = header.get(place).unwrap_or_default();
            if !self.has_column(name) {
                let shown = format!(in alloc; "{}", Quoted(name))?;
                push_name(&mut said, &shown)?;
            }
        }
        Ok(said)
    }

    /// The columns that a header lacks.
    fn missing_names(&self, alloc: Global, header: &ByteRecord) -> Result<String, AllocError> {
        let mut said = String::new(alloc);
        for column in 0..self.schema.width() {
            let name = self.schema.name(column);
            if !has_name(header, name.as_bytes()) {
                push_name(&mut said, name)?;
            }
        }
        Ok(said)
    }

    /// Adds which other byte may stand between fields, where a record has one field and such a byte in it.
    fn add_delimiter(&self, said: &mut String, record: &ByteRecord) -> Result<(), AllocError> {
        let Some(only) = record.get(0) else {
            return Ok(());
        };
        if record.len() != 1 {
            return Ok(());
        }
        for (delimiter, told) in &DELIMITERS {
            if *delimiter != self.layout.delimiter && only.contains(delimiter) {
                said.push_str("; is it ")?;
                said.push_str(told)?;
                return said.push_str("?");
            }
        }
        Ok(())
    }

    /// Says which names of the header are no columns.
    fn say_unknown(&self, alloc: Global) -> Result<String, AllocError> {
        let Some(header) = self.record_at(alloc, 0)? else {
            return Ok(String::new(alloc));
        };
        let (names, columns) = (self.unknown_names(alloc, &header)?, self.schema.print()?);
        let mut said = format!(in alloc;
            "the header has {names}; the columns are {columns}; --skip-columns ignores others"
        )?;
        self.add_delimiter(&mut said, &header)?;
        Ok(said)
    }

    /// Says which columns the header lacks.
    fn say_missing(&self, alloc: Global) -> Result<String, AllocError> {
        let Some(header) = self.record_at(alloc, 0)? else {
            return Ok(String::new(alloc));
        };
        let (names, columns) = (self.missing_names(alloc, &header)?, self.schema.print()?);
        let mut said = format!(in alloc; "the header lacks {names}; the columns are {columns}")?;
        self.add_delimiter(&mut said, &header)?;
        Ok(said)
    }

    /// Says which column the header has more than once.
    fn say_repeated(&self, alloc: Global, column: usize) -> Result<String, AllocError> {
        if column >= self.schema.width() {
            return Ok(String::new(alloc));
        }
        let name = self.schema.name(column);
        format!(in alloc; "the header has {name} more than once")
    }

    /// Says which line is blank, and how one tells whether it is a null.
    fn say_blank(&self, alloc: Global) -> Result<String, AllocError> {
        let Some(place) = blank_lines(self.layout.delimiter, self.csv).first else {
            return Ok(String::new(alloc));
        };
        let line = line_at(self.csv, place);
        format!(in alloc;
            "line {line} is blank: write \\N if it is a null, or delete it; --null TEXT sets another null, and skips blank lines"
        )
    }

    /// Says how many fields a row has, and how many are wanted.
    fn say_width(&self, alloc: Global, row: usize) -> Result<String, AllocError> {
        let Some(record) = self.row_at(alloc, row)? else {
            return Ok(String::new(alloc));
        };
        let (line, found) = (line_of(self.csv, &record), record.len());
        let mut said = if self.layout.has_header {
            let wanted = match self.record_at(alloc, 0)? {
                Some(header) => header.len(),
                None => 0,
            };
            format!(in alloc;
                "line {line}: fields found: {found}, expected: {wanted}, as in the header"
            )?
        } else {
            let (wanted, columns) = (self.schema.width(), self.schema.print()?);
            format!(in alloc; "line {line}: fields found: {found}, expected: {wanted} ({columns})")?
        };
        self.add_delimiter(&mut said, &record)?;
        Ok(said)
    }

    /// The place of a column's field in a row.
    fn place_of_column(&self, alloc: Global, column: usize) -> Result<usize, AllocError> {
        if !self.layout.has_header || column >= self.schema.width() {
            return Ok(column);
        }
        let name = self.schema.name(column).as_bytes();
        match self.record_at(alloc, 0)? {
            Some(header) => Ok(place_of(&header, name).unwrap_or(column)),
            None => Ok(column),
        }
    }

    /// Says why a field of a row is not a value of its column.
    fn say_field(&self, alloc: Global, row: usize, column: usize) -> Result<String, AllocError> {
        let place = self.place_of_column(alloc, column)?;
        let Some(record) = self.row_at(alloc, row)? else {
            return Ok(String::new(alloc));
        };
        if column >= self.schema.width() {
            return Ok(String::new(alloc));
        }
        let (line, kind) = (line_of(self.csv, &record), self.schema.kind(column));
        let field = record.get(place).unwrap_or_default();
        let (name, shown) = (self.schema.name(column), Quoted(field));
        let (fault, kind) = (FieldFault::of(field, kind), kind.as_str());
        let mut said = format!(in alloc; "line {line}, column {name} {kind}: {shown}: {fault}")?;
        if matches!(fault, FieldFault::Empty | FieldFault::Null) {
            said.push_str("; --null TEXT sets another field that is null")?;
        }
        if row == 0 && !self.layout.has_header && self.has_column(field) {
            said.push_str("; if the line is a header, use --header")?;
        }
        Ok(said)
    }

    /// Says why it is not a batch.
    fn say(&self, alloc: Global, why: PackError) -> Result<String, AllocError> {
        match why {
            PackError::NoMemory => Ok(String::new(alloc)),
            PackError::NoHeader => {
                let columns = self.schema.print()?;
                format!(in alloc;
                    "there is no record; a header is expected, with the columns {columns}"
                )
            }
            PackError::UnknownColumn { .. } => self.say_unknown(alloc),
            PackError::MissingColumn { .. } => self.say_missing(alloc),
            PackError::RepeatedColumn { column } => self.say_repeated(alloc, column),
            PackError::BlankLine => self.say_blank(alloc),
            PackError::WrongWidth { row } => self.say_width(alloc, row),
            PackError::TooManyRows => format!(in alloc;
                "more than {MAX_ROWS} rows, the limit of a batch: split the file with agg_make_batches"
            ),
            PackError::TooLong => format!(in alloc;
                "the batch file would be longer than {MAX_INPUT_LEN} bytes: split the file with agg_make_batches"
            ),
            PackError::BadField { row, column } => self.say_field(alloc, row, column),
        }
    }

    /// Why it is not a batch, if there is more to say than the general sentence.
    pub(crate) fn reason(
        &self,
        alloc: Global,
        why: PackError,
    ) -> Result<Option<Reason>, AllocError> {
        let said = self.say(alloc, why)?;
        if said.is_empty() {
            return Ok(None);
        }
        Ok(Some(Reason::whole(alloc, said)))
    }
}
