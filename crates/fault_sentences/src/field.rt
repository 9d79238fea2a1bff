//! Why a field is not a value of its column.

use grouping_model::limits::MAX_TEXT_LEN;
use packed_rows::{ValueKind, read_value};
use std::{fmt, str};

/// Why a field is not a value of its column.
#[derive(Clone, Copy)]
pub enum FieldFault {
    /// It is empty.
    Empty,
    /// A value with white space around it.
    Space,
    /// Another word for null.
    Null,
    /// A number of more than 64 bits.
    OutOfRange,
    /// A number with a fraction.
    Fraction,
    /// Not a number.
    NoBigint,
    /// Not a truth value.
    NoBoolean,
    /// A text that is too long.
    TooLong { len: usize },
    /// A text with the character 0.
    Zero,
    /// Bytes that are not UTF-8.
    NoText { at: usize },
}

impl fmt::Display for FieldFault {
    fn fmt<W: fmt::Write>(&self, f: &mut fmt::Formatter<W>) -> fmt::Result {
        let said = match *self {
            FieldFault::Empty => "empty field; write null as \\N",
            FieldFault::Space => "a value has no white space around it",
            FieldFault::Null => "write null as \\N",
            FieldFault::OutOfRange => "out of range (-9223372036854775808 to 9223372036854775807)",
            FieldFault::Fraction => "a bigint has no fraction: use cents, as 1250 for 12.50",
            FieldFault::NoBigint => "a bigint is an optional + or - and digits",
            FieldFault::NoBoolean => "a boolean is t, true, f or false",
            FieldFault::Zero => "a text cannot contain the character 0",
            FieldFault::TooLong { len } => {
                return write!(f, "the text has {len} bytes; the limit is 255");
            }
            FieldFault::NoText { at } => {
                return write!(f, "not UTF-8 from byte {at} of the field, counted from 1");
            }
        };
        f.write_str(said)
    }
}

/// Other words for null.
const NULLS: [&[u8]; 7] = [b"null", b"nil", b"none", b"nan", b"na", b"n/a", b"\\n"];

/// Whether a field is another word for null.
fn is_null_word(field: &[u8]) -> bool {
    NULLS.iter().any(|word| field.eq_ignore_ascii_case(word))
}

/// Whether a field is digits behind a sign or none.
fn is_number(field: &[u8]) -> bool {
    let digits = match field {
        [b'+' | b'-', rest @ ..] => rest,
        _ => field,
    };
    !digits.is_empty() && digits.iter().all(|byte| byte.is_ascii_digit())
}

/// Whether a field is a number with a fraction.
fn is_fraction(field: &[u8]) -> bool {
    match field.iter().position(|byte| *byte == b'.') {
        Some(dot) => {
            let behind = field.get(dot.saturating_add(1)..).unwrap_or_default();
            is_number(field.get(..dot).unwrap_or_default())
                && behind.iter().all(|byte| byte.is_ascii_digit())
        }
        None => false,
    }
}

/// Why a field is not a number or truth value. The last is told where nothing else is known of it.
fn word_fault(field: &[u8], kind: ValueKind, last: FieldFault) -> FieldFault {
    let trimmed = field.trim_ascii();
    if trimmed.is_empty() {
        FieldFault::Empty
    } else if is_null_word(trimmed) {
        FieldFault::Null
    } else if trimmed.len() < field.len() && read_value(trimmed, kind).is_some() {
        FieldFault::Space
    } else {
        last
    }
}

/// Why a field is not a text.
fn text_fault(field: &[u8]) -> FieldFault {
    if field.len() > MAX_TEXT_LEN {
        return FieldFault::TooLong { len: field.len() };
    }
    match str::from_utf8(field) {
        Ok(_) => FieldFault::Zero,
        Err(error) => FieldFault::NoText {
            at: error.valid_up_to().saturating_add(1),
        },
    }
}

impl FieldFault {
    /// Why a field is not a value of a kind.
    pub fn of(field: &[u8], kind: ValueKind) -> FieldFault {
        match kind {
            ValueKind::Bigint if is_number(field) => FieldFault::OutOfRange,
            ValueKind::Bigint if is_fraction(field) => FieldFault::Fraction,
            ValueKind::Bigint => word_fault(field, kind, FieldFault::NoBigint),
            ValueKind::Boolean => word_fault(field, kind, FieldFault::NoBoolean),
            ValueKind::Text => text_fault(field),
        }
    }
}
