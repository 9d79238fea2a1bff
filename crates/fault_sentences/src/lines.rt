//! The lines of a text of CSV records.

use csv::ByteRecord;
use script_io::Records;
use std::alloc::{AllocError, Global};

/// Whether a byte ends a line.
pub(crate) fn ends_line(byte: u8) -> bool {
    byte == b'\r' || byte == b'\n'
}

/// The line of the first byte from a place on that ends no line, the first line being 1. A line ends at a line feed, at a
/// carriage return, or at both together.
pub(crate) fn line_from(text: &[u8], place: u64) -> u64 {
    let mut line = 1u64;
    let mut is_behind_return = false;
    for (at, byte) in text.iter().enumerate() {
        if at as u64 >= place && !ends_line(*byte) {
            break;
        }
        if *byte == b'\r' || *byte == b'\n' && !is_behind_return {
            line = line.saturating_add(1);
        }
        is_behind_return = *byte == b'\r';
    }
    line
}

/// The line at which a record of a text begins, the first line being 1.
pub fn line_of(text: &[u8], record: &ByteRecord) -> u64 {
    match record.position() {
        // It is where the record before ended: empty lines, or the second byte of a line end, may come first.
        Some(position) => line_from(text, position.byte()),
        None => 1,
    }
}

/// The text from the first line on that has a byte, without a byte order mark.
fn behind_mark(text: &[u8]) -> &[u8] {
    match text.strip_prefix(b"\xEF\xBB\xBF".as_slice()) {
        Some(rest) => rest,
        None => text,
    }
}

/// The first line of a text that has a byte.
pub(crate) fn first_line(text: &[u8]) -> &[u8] {
    for line in behind_mark(text).split(|byte| ends_line(*byte)) {
        if !line.is_empty() {
            return line;
        }
    }
    &[]
}

/// The record behind so many others, if there is one.
fn record_behind(records: &mut Records<'_>, many: usize) -> Result<Option<ByteRecord>, AllocError> {
    records.skip(many)?;
    records.next()
}

/// The record at a place of a text, the first being 0, if there are so many.
pub(crate) fn record_at(
    alloc: Global,
    text: &[u8],
    place: usize,
) -> Result<Option<ByteRecord>, AllocError> {
    let mut records = Records::new(alloc, text);
    let found = record_behind(&mut records, place);
    drop(records);
    found
}

/// How many records are left.
fn count_left(records: &mut Records<'_>, buffer: &mut ByteRecord) -> Result<u64, AllocError> {
    let mut count = 0u64;
    for _ in 0..u64::MAX {
        if !records.read(buffer)? {
            break;
        }
        count = count.saturating_add(1);
    }
    Ok(count)
}

/// How many records a text has.
pub(crate) fn count_records(alloc: Global, text: &[u8]) -> Result<u64, AllocError> {
    let mut records = Records::new(alloc, text);
    let mut buffer = ByteRecord::new(alloc);
    let count = count_left(&mut records, &mut buffer);
    drop(buffer);
    drop(records);
    count
}

/// Where a reader of CSV stands in a field.
#[derive(Clone, Copy)]
enum Within {
    /// Before its first byte.
    Front,
    /// In a field that began without a quote, or behind its closing one.
    Plain,
    /// Between quotes, the first of which stands at this place.
    Quotes(u64),
    /// Behind a quote that may close, or be the first of two.
    Quote(u64),
}

/// Where a reader stands behind a byte at a place.
fn behind(within: Within, at: u64, byte: u8) -> Within {
    match within {
        Within::Quotes(begin) if byte == b'"' => Within::Quote(begin),
        Within::Quotes(begin) => Within::Quotes(begin),
        Within::Quote(begin) if byte == b'"' => Within::Quotes(begin),
        Within::Front if byte == b'"' => Within::Quotes(at),
        _ if byte == b',' || ends_line(byte) => Within::Front,
        _ => Within::Plain,
    }
}

/// The line of a quote that no other closes, if there is one.
pub(crate) fn open_quote(text: &[u8]) -> Option<u64> {
    let mut within = Within::Front;
    for (at, byte) in behind_mark(text).iter().enumerate() {
        within = behind(within, at as u64, *byte);
    }
    match within {
        Within::Quotes(begin) => Some(line_from(behind_mark(text), begin)),
        _ => None,
    }
}
