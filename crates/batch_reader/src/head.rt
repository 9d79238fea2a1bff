//! The header of a batch: its origin and its number.

ghost use Rattle.std.specs.Prelude.{◌≡◌, ◌≤◌, Some, IfSome, IfNone, IfOk, IfErr, OnOk, ℕ};
ghost use Rattle.script_io.specs.Digits.{number_of};
ghost use Rattle.batch_reader.specs.Head.{ReadsOrigin, ReadsBatchNumber};
ghost use Rattle.batch_reader.specs.Refusal.{HeadFault};

use crate::error::BatchError;
use grouping_model::limits::{LAST_NUMBER, LAST_ORIGIN, MAX_ROWS};
use script_io::read_digits;

/// The most digits of an origin or a number, leading zeros included.
const MAX_DIGITS: usize = 10;

/// The least number of a batch.
const FIRST_NUMBER: u64 = 1;

/// The number of 1 to 10 digits, if it lies in a range.
fn read_number(field: &[u8], least: u64, most: u64) -> Option<u64>
    ensures found { IfSome result (λ n. (number_of 10 field.now ≡ Some n) × (least ≤ n) × (n ≤ most)) }
    ensures none { IfNone result ((n : ℕ) → number_of 10 field.now ≡ Some n → least ≤ n → n ≤ most → ⊥) }
{
    let number = read_digits(field, MAX_DIGITS)?;
    if number < least || number > most {
        return None;
    }
    Some(number)
}

/// The origin in a field.
pub(crate) fn read_origin(field: &[u8]) -> Option<u16>
    ensures found { IfSome result (λ n. ReadsOrigin field.now n) }
    ensures none { IfNone result ((n : ℕ) → ¬ (ReadsOrigin field.now n)) }
{
    let origin = read_number(field, 0, u64::from(LAST_ORIGIN))?;
    Some(origin as u16)
}

/// The number of a batch in a field.
pub(crate) fn read_batch_number(field: &[u8]) -> Option<u32>
    ensures found { IfSome result (λ n. ReadsBatchNumber field.now n) }
    ensures none { IfNone result ((n : ℕ) → ¬ (ReadsBatchNumber field.now n)) }
{
    let number = read_number(field, FIRST_NUMBER, u64::from(LAST_NUMBER))?;
    Some(number as u32)
}

/// The origin and the number of a batch, if its header is right and states no more rows than a batch may have.
pub(crate) fn checked_head(
    origin: &[u8],
    number: &[u8],
    told: u32,
) -> Result<(u16, u32), BatchError>
    ensures origin { IfOk result (λ head. ReadsOrigin origin.now head.0) }
    ensures number { IfOk result (λ head. ReadsBatchNumber number.now head.1) }
    ensures few { OnOk result (told ≤ MAX_ROWS) }
    ensures refused { IfErr result (HeadFault origin.now number.now told) }
{
    let Some(origin) = read_origin(origin) else {
        return Err(BatchError::BadBatchHead);
    };
    let Some(number) = read_batch_number(number) else {
        return Err(BatchError::BadBatchHead);
    };
    if told > MAX_ROWS {
        return Err(BatchError::TooManyRows);
    }
    Ok((origin, number))
}
