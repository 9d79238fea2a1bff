//! What an unexpected file is.

use csv::ByteRecord;
use packed_rows::Schema;
use sentences::Said;
use std::alloc::{AllocError, Global};
use std::str;

/// What begins a summary file, in front of the digits of its version.
const SUMMARY: &[u8] = b"AGGSUM";

/// What begins files of other formats, and what they are.
const BEGINNINGS: [(&[u8], &str); 12] = [
    (b"\x1F\x8B", "it is compressed: use gzip -dc FILE"),
    (b"BZh", "it is compressed: use bzip2 -dc FILE"),
    (b"\xFD7zXZ", "it is compressed: use xz -dc FILE"),
    (b"\x28\xB5\x2F\xFD", "it is compressed: use zstd -dc FILE"),
    (b"PK\x03\x04", "it is a zip archive"),
    (
        b"\xFF\xFE",
        "it is UTF-16: use iconv -f UTF-16 -t UTF-8 FILE",
    ),
    (
        b"\xFE\xFF",
        "it is UTF-16: use iconv -f UTF-16 -t UTF-8 FILE",
    ),
    (
        SUMMARY,
        "it is a summary file: OUT and IN come before the batch files",
    ),
    (b"{", "it looks like JSON"),
    (b"PAR1", "it is Parquet"),
    // A batch without a byte order mark.
    (
        b"b\x00a\x00",
        "it is UTF-16: use iconv -f UTF-16LE -t UTF-8 FILE",
    ),
    (
        b"\x00b\x00a",
        "it is UTF-16: use iconv -f UTF-16BE -t UTF-8 FILE",
    ),
];

/// What a file is by its first bytes, where that is known.
pub(crate) fn known_by_front(file: &[u8]) -> Option<&'static str> {
    for (front, said) in &BEGINNINGS {
        if file.starts_with(front) {
            return Some(*said);
        }
    }
    None
}

/// Separators other than commas, and the sentence on each.
const SEPARATORS: [(u8, &str); 3] = [
    (b';', "fields are separated by commas, not semicolons"),
    (b'\t', "fields are separated by commas, not tabs"),
    (b'|', "fields are separated by commas, not bars"),
];

/// What is said of a line whose fields stand between something else than commas.
pub(crate) fn other_separator(line: &[u8]) -> Option<&'static str> {
    if line.contains(&b',') {
        return None;
    }
    for (separator, said) in &SEPARATORS {
        if line.contains(separator) {
            return Some(*said);
        }
    }
    None
}

/// Whether a field is the name of a column.
fn is_name(schema: &Schema, column: usize, field: &[u8]) -> bool {
    column < schema.width() && field.eq_ignore_ascii_case(schema.name(column).as_bytes())
}

/// Whether a record is the names of a schema's columns.
pub(crate) fn is_header(schema: &Schema, record: &ByteRecord) -> bool {
    for column in 0..record.len() {
        if !is_name(schema, column, record.get(column).unwrap_or_default()) {
            return false;
        }
    }
    record.len() == schema.width()
}

/// Whether a line is the names of a schema's columns, between commas.
pub(crate) fn is_header_line(schema: &Schema, line: &[u8]) -> bool {
    let mut column = 0usize;
    for field in line.split(|byte| *byte == b',') {
        if !is_name(schema, column, field) {
            return false;
        }
        column = column.saturating_add(1);
    }
    column == schema.width()
}

/// Whether a byte is a control character that no text has: all but those that part words and lines.
fn is_control(byte: u8) -> bool {
    byte < 9 || (byte > 13 && byte < 32)
}

/// Whether bytes are a text.
fn is_text(bytes: &[u8]) -> bool {
    str::from_utf8(bytes).is_ok() && !bytes.iter().any(|byte| is_control(*byte))
}

/// What a file is that is not a summary file, where that is known.
fn known(file: &[u8]) -> Option<&'static str> {
    if file.starts_with(b"batch,") {
        return Some("it is a batch file: feed it first, as agg_tool feed OUT IN BATCH");
    }
    if file.starts_with(SUMMARY) {
        return Some("it is a summary file of another version");
    }
    match known_by_front(file) {
        Some(known) => Some(known),
        None if is_text(file.get(..file.len().min(64)).unwrap_or(file)) => {
            Some("it is a text file")
        }
        None => None,
    }
}

/// Why bytes are not a summary file, by their first bytes: there are none, or they are of a batch file or another format.
pub fn no_summary(alloc: Global, file: &[u8]) -> Result<String, AllocError> {
    let mut said = Said::new(alloc);
    if file.is_empty() {
        said.push_str("the file is empty; a summary begins with AGGSUM01 or AGGSUM02");
    } else {
        said.push_str("it does not begin with AGGSUM01 or AGGSUM02, as a summary does");
        said.push_aside(known(file));
    }
    said.end()
}
