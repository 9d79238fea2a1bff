//! Reading an input field.

ghost use Rattle.std.specs.Prelude.{ℤ, IfSome, IfNone, IsTrue, Bool, All};
ghost use Rattle.packed_rows.specs.View.{datum_of, kind_of};
ghost use Rattle.packed_rows.specs.Field.{Reads, ReadsRow, IsBadField, IsBigintField, IsBooleanField, IsTextField};
ghost use Rattle.std.specs.Prelude.{◌≡◌, ◌≢◌, ◌<◌, ◌^◌, ◌↔◌, List, ℕ};
ghost use Rattle.std.specs.Str.Parse.{IsNumeral, digits_value};
ghost use Rattle.grouping_model.specs.Datum.{Datum, Kind, Row, HasKind, HasKinds, null_field};

use crate::value::{Value, ValueKind};
use grouping_model::limits::MAX_TEXT_LEN;
use std::str;

/// Whether a field is null, in a column of any kind.
pub(crate) fn is_null(field: &[u8]) -> bool
    ensures { IsTrue result ↔ (field.now ≡ null_field) }
{
    matches!(field, [b'\\', b'N'])
}

/// This many digits, whichever they are, make a number below 2^63.
const SURE_DIGITS: usize = 18;

/// The number of 1 to 18 digits. Other bytes give none here, and may still be a number.
fn short_number(digits: &[u8]) -> Option<u64>
    ensures numeral { IfSome result (λ _. IsNumeral 10 digits.now) }
    ensures value { IfSome result (λ n. digits_value 10 digits.now ≡ n) }
    ensures low { IfSome result (λ n. n < 2 ^ 63) }
{
    if digits.is_empty() || digits.len() > SURE_DIGITS {
        return None;
    }
    let mut value = 0;
    for digit in digits {
        if !digit.is_ascii_digit() {
            return None;
        }
        value = value * 10 + u64::from(*digit - b'0');
    }
    Some(value)
}

/// The number in a field of up to 18 digits, with or without a sign. Other fields give none here, and may still be a number.
fn short_bigint(field: &[u8]) -> Option<i64>
    ensures { IfSome result (λ z. IsBigintField field.now z) }
{
    match field {
        [b'-', digits @ ..] => Some(-(short_number(digits)? as i64)),
        [b'+', digits @ ..] => Some(short_number(digits)? as i64),
        digits => Some(short_number(digits)? as i64),
    }
}

/// The number in a field of any length.
fn long_bigint(field: &[u8]) -> Option<i64>
    ensures found { IfSome result (λ z. IsBigintField field.now z) }
    ensures none { IfNone result ((z : ℤ) → ¬ (IsBigintField field.now z)) }
{
    str::from_utf8(field).ok()?.parse().ok()
}

fn read_bigint(field: &[u8]) -> Option<i64>
    ensures found { IfSome result (λ z. IsBigintField field.now z) }
    ensures none { IfNone result ((z : ℤ) → ¬ (IsBigintField field.now z)) }
{
    match short_bigint(field) {
        Some(number) => Some(number),
        None => long_bigint(field),
    }
}

fn read_boolean(field: &[u8]) -> Option<bool>
    ensures found { IfSome result (λ b. IsBooleanField field.now b) }
    ensures none { IfNone result ((b : Bool) → ¬ (IsBooleanField field.now b)) }
{
    if field.eq_ignore_ascii_case(b"t") || field.eq_ignore_ascii_case(b"true") {
        Some(true)
    } else if field.eq_ignore_ascii_case(b"f") || field.eq_ignore_ascii_case(b"false") {
        Some(false)
    } else {
        None
    }
}

/// Whether all bytes are of ASCII, and none is zero.
fn are_plain(bytes: &[u8]) -> bool
    ensures { IsTrue result → All (λ b. (0 < b) × (b < 128)) bytes.now }
{
    for byte in bytes {
        if *byte == 0 || *byte >= 128 {
            return false;
        }
    }
    true
}

pub(crate) fn read_text(field: &[u8]) -> Option<&str>
    requires { field.now ≢ null_field }
    ensures found { IfSome result (λ text. IsTextField field.now text.now) }
    ensures none { IfNone result ((text : List ℕ) → ¬ (IsTextField field.now text)) }
{
    if field.len() > MAX_TEXT_LEN {
        return None;
    }
    if are_plain(field) {
        // SAFETY: bytes of ASCII are UTF-8.
        return Some(unsafe { str::from_utf8_unchecked(field) });
    }
    if field.contains(&0) {
        return None;
    }
    str::from_utf8(field).ok()
}

/// A field is one value at most, which has its column's kind, and the fields of a row are one row at most.
#[tactic(auto, using(crate::specs::Lemmas::FieldLaws::one_value, crate::specs::FieldLaws::read_kind, crate::specs::Lemmas::FieldLaws::one_row, crate::specs::FieldLaws::read_kinds))]
pub fn reading()
    ensures one_value { (kind : Kind) (field : List ℕ) (x y : Datum) → Reads kind field x →
        Reads kind field y → x ≡ y }
    ensures of_its_kind { (kind : Kind) (field : List ℕ) (x : Datum) → Reads kind field x →
        HasKind kind x }
    ensures one_row { (kinds : List Kind) (fields : List (List ℕ)) (x y : Row) →
        ReadsRow kinds fields x → ReadsRow kinds fields y → x ≡ y }
    ensures of_its_kinds { (kinds : List Kind) (fields : List (List ℕ)) (x : Row) →
        ReadsRow kinds fields x → HasKinds kinds x }
{}

/// The value of a field in a column of this kind, or `None` if the field is not a value of this kind.
#[inline(always)]
pub fn read_value(field: &[u8], kind: ValueKind) -> Option<Value<'_>>
    ensures found { IfSome result (λ v. Reads (kind_of kind) field.now (datum_of v)) }
    ensures bad { IfNone result (IsBadField (kind_of kind) field.now) }
{
    if is_null(field) {
        return Some(Value::Null);
    }
    let value = match kind {
        ValueKind::Bigint => Value::Bigint(read_bigint(field)?),
        ValueKind::Boolean => Value::Boolean(read_boolean(field)?),
        ValueKind::Text => Value::Text(read_text(field)?),
    };
    Some(value)
}
