//! Reading values back from bytes.

ghost use Rattle.std.specs.Prelude.{◌≡◌, ◌≢◌, ◌++◌, ◌∷◌, ◌-◌, ◌<◌, ◌≤◌, ℕ, ℤ, Bool, List, if◌then◌else◌, IfSome, IfNone, IfOk, IfErr};
ghost use Rattle.std.specs.Prelude.{OnErr, OnOk, drop, map, take};
ghost use Rattle.std.specs.Prelude.{length, Contains, FitsSigned};
ghost use Rattle.std.specs.List.{AllByRecursion};
ghost use Rattle.std.specs.Int.{w64, to_be_bytes};
ghost use Rattle.grouping_model.specs.Datum.{Datum, Kind, Row, IsText, HasKind, HasKinds, at_place, null_field};
ghost use Rattle.packed_rows.specs.View.{datum_of, row_of, kind_of, kinds_of};
ghost use Rattle.packed_rows.specs.ConcatenatedRows.{LieAs};
ghost use Rattle.packed_rows.specs.Packing.{BeginsWithValue, IsPacking, LieAsValues, above_least, value_packing, packing};
ghost use Rattle.packed_rows.specs.Refusal.{UnpackFault};

use crate::error::RowError;
use crate::field::{is_null, read_text};
use crate::packing::{NULL, PRESENT};
use crate::rows_concatenated::{bound, part};
use crate::value::{Value, ValueKind};
use std::alloc::{AllocError, Global};
use std::str;

fn unpack_bigint(bytes: &[u8]) -> Option<(i64, &[u8])>
    ensures found { IfSome result (λ x. bytes.now ≡ to_be_bytes w64 (above_least x.0) ++ x.1.now) }
    ensures none { IfNone result (length bytes.now < 8) }
{
    if bytes.len() < 8 {
        return None;
    }
    let (front, rest) = bytes.split_at(8);
    let distance = u64::from_be_bytes([
        front[0], front[1], front[2], front[3], front[4], front[5], front[6], front[7],
    ]);
    let number = (i128::from(distance) + i128::from(i64::MIN)) as i64;
    Some((number, rest))
}

fn unpack_boolean(bytes: &[u8]) -> Option<(bool, &[u8])>
    ensures found { IfSome result (λ x. bytes.now ≡ (if x.0 then 1 else 0) ∷ x.1.now) }
    ensures none { IfNone result ((b : Bool) (rest : List ℕ) →
        bytes.now ≢ (if b then 1 else 0) ∷ rest) }
{
    match bytes {
        [0, rest @ ..] => Some((false, rest)),
        [1, rest @ ..] => Some((true, rest)),
        _ => None,
    }
}

/// The bytes before the first zero, and those after it.
fn split_at_zero(bytes: &[u8]) -> Option<(&[u8], &[u8])>
    ensures found { IfSome result (λ x. (bytes.now ≡ x.0.now ++ 0 ∷ x.1.now)
        × ¬ (Contains x.0.now 0)) }
    ensures none { IfNone result (¬ (Contains bytes.now 0)) }
{
    let end = bytes.iter().position(|byte| *byte == 0)?;
    Some((&bytes[..end], &bytes[end + 1..]))
}

fn unpack_text(bytes: &[u8]) -> Option<(&str, &[u8])>
    ensures found { IfSome result (λ x. (bytes.now ≡ x.0.now ++ 0 ∷ x.1.now) × IsText x.0.now) }
    ensures none { IfNone result ((text rest : List ℕ) → IsText text →
        bytes.now ≢ text ++ 0 ∷ rest) }
{
    let (front, rest) = split_at_zero(bytes)?;
    if is_null(front) {
        return None;
    }
    let text = read_text(front)?;
    Some((text, rest))
}

#[inline(always)]
fn unpack_present(kind: ValueKind, bytes: &[u8]) -> Option<(Value<'_>, &[u8])>
    ensures found { IfSome result (λ x. HasKind (kind_of kind) (datum_of x.0)
        × (1 ∷ bytes.now ≡ value_packing (datum_of x.0) ++ x.1.now)) }
    ensures none { IfNone result ((value : Datum) (rest : List ℕ) → HasKind (kind_of kind) value →
        1 ∷ bytes.now ≢ value_packing value ++ rest) }
{
    match kind {
        ValueKind::Bigint => {
            let (number, rest) = unpack_bigint(bytes)?;
            Some((Value::Bigint(number), rest))
        }
        ValueKind::Boolean => {
            let (truth, rest) = unpack_boolean(bytes)?;
            Some((Value::Boolean(truth), rest))
        }
        ValueKind::Text => {
            let (text, rest) = unpack_text(bytes)?;
            Some((Value::Text(text), rest))
        }
    }
}

#[inline(always)]
fn unpack_value(kind: ValueKind, bytes: &[u8]) -> Option<(Value<'_>, &[u8])>
    ensures found { IfSome result (λ x. HasKind (kind_of kind) (datum_of x.0)
        × (bytes.now ≡ value_packing (datum_of x.0) ++ x.1.now)) }
    ensures none { IfNone result ((value : Datum) (rest : List ℕ) → HasKind (kind_of kind) value →
        bytes.now ≢ value_packing value ++ rest) }
{
    match bytes {
        [NULL, rest @ ..] => Some((Value::Null, rest)),
        [PRESENT, rest @ ..] => unpack_present(kind, rest),
        _ => None,
    }
}

/// Reads the values of a key of these kinds from its packing into `key`. They replace what it held, so one vector can serve for many keys.
/// The errors are `BadPacked` if the bytes are no such packing, and `NoMemory`. After an error, `key` holds values that the bytes begin
/// with.
pub fn unpack_into<'a>(
    kinds: &[ValueKind],
    bytes: &'a [u8],
    key: &mut Vec<Value<'a>>,
) -> Result<(), RowError>
    // What is unpacked is a key of these kinds, and the bytes are its packing.
    ensures found { OnOk result (HasKinds (kinds_of kinds.now) (row_of key.new.items)
        × (bytes.now ≡ packing (row_of key.new.items))) }
    // The bytes are refused only if they are not the packing of such a key.
    ensures refused { IfErr result (UnpackFault (kinds_of kinds.now) bytes.now) }
    // After an error, the vector holds values that the bytes begin with.
    ensures begun { OnErr result ((rest : List ℕ)
        × (bytes.now ≡ packing (row_of key.new.items) ++ rest)) }
{
    key.clear();
    let mut rest = bytes;
    for kind in kinds {
        let Some((value, after)) = unpack_value(*kind, rest) else {
            return Err(RowError::BadPacked);
        };
        key.push(value)?;
        rest = after;
    }
    if !rest.is_empty() {
        return Err(RowError::BadPacked);
    }
    Ok(())
}

/// The text before the first zero, and the bytes after it. What comes before the zero is UTF-8.
fn known_text(bytes: &[u8]) -> (&str, &[u8])
    requires { (text : List ℕ) × (rest : List ℕ) × IsText text × (bytes.now ≡ text ++ 0 ∷ rest) }
    ensures text { IsText result.0.now }
    ensures spelled { bytes.now ≡ result.0.now ++ 0 ∷ result.1.now }
{
    match split_at_zero(bytes) {
        // SAFETY: a text is UTF-8.
        Some((text, rest)) => (unsafe { str::from_utf8_unchecked(text) }, rest),
        None => unreachable!(),
    }
}

/// The value of a kind that these bytes begin with, and the bytes after it.
#[inline(always)]
fn known_value(kind: ValueKind, bytes: &[u8]) -> (Value<'_>, &[u8])
    requires { BeginsWithValue (kind_of kind) bytes.now }
    ensures kind { HasKind (kind_of kind) (datum_of result.0) }
    ensures spelled { bytes.now ≡ value_packing (datum_of result.0) ++ result.1.now }
{
    if kind == ValueKind::Text {
        if let [PRESENT, rest @ ..] = bytes {
            let (text, after) = known_text(rest);
            return (Value::Text(text), after);
        }
    }
    match unpack_value(kind, bytes) {
        Some(found) => found,
        None => unreachable!(),
    }
}

/// Reads the values of a key of these kinds from its packing into `key`, and into `ends` where the packing of each ends. What both held is
/// replaced. It is `unpack_into` for bytes known to be a packing: no text is checked again. The only error is a failed allocation.
pub fn unpack_known<'a>(
    kinds: &[ValueKind],
    bytes: &'a [u8],
    key: &mut Vec<Value<'a>>,
    ends: &mut Vec<usize>,
) -> Result<(), AllocError>
    requires { IsPacking (kinds_of kinds.now) bytes.now }
    ensures found { OnOk result (HasKinds (kinds_of kinds.now) (row_of key.new.items)
        × (bytes.now ≡ packing (row_of key.new.items))) }
    // The packings of the values lie end to end, and these are their ends.
    ensures ends { OnOk result (LieAs bytes.now ends.new.items (map value_packing (row_of key.new.items))) }
{
    key.clear();
    ends.clear();
    let mut rest = bytes;
    for kind in kinds {
        let (value, after) = known_value(*kind, rest);
        key.push(value)?;
        ends.push(bytes.len() - after.len())?;
        rest = after;
    }
    Ok(())
}

/// The packing of the values of a key from one place up to another, as a slice of the key's packing. `ends` tells where each value's ends.
fn part_between<'a>(packed: &'a [u8], ends: &[usize], from: usize, to: usize) -> &'a [u8]
    requires lie { LieAsValues packed.now ends.now }
    requires rises { from ≤ to }
    requires within { to ≤ length ends.now }
    ensures { (row : Row) → LieAs packed.now ends.now (map value_packing row) →
        result.now ≡ packing (take (to - from) (drop from row)) }
{
    let start = bound(ends, from);
    let end = bound(ends, to);
    part(packed, start, end)
}

/// The packing of the values at these places of a key, as a slice of the key's packing. It is `None` if the places are not consecutive.
/// `ends` tells where the packing of each value ends, as `unpack_known` does.
pub fn part_at<'a>(packed: &'a [u8], ends: &[usize], places: &[usize]) -> Option<&'a [u8]>
    requires lie { LieAsValues packed.now ends.now }
    requires within { AllByRecursion (λ place. place < length ends.now) places.now }
    ensures { IfSome result (λ part. (row : Row) → LieAs packed.now ends.now (map value_packing row) →
        part.now ≡ packing (map (at_place row) places.now)) }
{
    let from = match places.first() {
        Some(first) => *first,
        None => 0,
    };
    let mut behind = from;
    for place in places {
        if *place != behind {
            return None;
        }
        behind += 1;
    }
    Some(part_between(packed, ends, from, behind))
}

/// The values of a key of these kinds from its packing. The errors are `BadPacked` if the bytes are no such packing, and `NoMemory`.
pub fn unpack_key<'a>(
    alloc: Global,
    kinds: &[ValueKind],
    bytes: &'a [u8],
) -> Result<Vec<Value<'a>>, RowError>
    // What is unpacked is a key of these kinds, and the bytes are its packing.
    ensures found { IfOk result (λ key. HasKinds (kinds_of kinds.now) (row_of key.items)
        × (bytes.now ≡ packing (row_of key.items))) }
    // The bytes are refused only if they are not the packing of such a key.
    ensures refused { IfErr result (UnpackFault (kinds_of kinds.now) bytes.now) }
{
    let mut key = Vec::with_capacity(alloc, kinds.len())?;
    unpack_into(kinds, bytes, &mut key)?;
    Ok(key)
}
