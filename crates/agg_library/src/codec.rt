//! The bytes of states, with the highest byte of a number first and signed numbers in two's complement. A count has 8
//! bytes. A total has 24, of which the first 8 say how many numbers were added. A number that may be absent has 9, of
//! which the first says whether it is there. A truth value that may be absent has 1: 0 for none, 1 for false, 2 for
//! true.

ghost use Rattle.std.specs.Prelude.{◌≡◌, ◌≤◌, length, IfOk, OnErr, Option, ℤ, true, false};
ghost use Rattle.std.specs.Int.{bytes_high_first};
ghost use Rattle.grouping_model.specs.Aggregates.{Partial, Counted, Summed, Number, Truth_value};
ghost use Rattle.agg_protocol.specs.States.{Denotes, IsState, IsTotal, most_rows, bytes_of, A_count, A_sum, A_number, A_truth};

use agg_protocol::BadState;
use byteorder::{BigEndian, ByteOrder};

/// The most rows that a state can count: 2^62 - 1.
pub const MAX_COUNTED: u64 = (1 << 62) - 1;

// How many numbers half of the bits of a total can be: 2^64.
const HALF: u128 = 1 << 64;

/// Reads a count. It is `BadState` if it is above `MAX_COUNTED`.
pub fn read_count(bytes: &[u8]) -> Result<u64, BadState>
    ensures ok { IfOk result (λ n. Denotes most_rows A_count bytes.now (Counted n)) }
    ensures err { OnErr result ((p : Partial) → ¬ (Denotes most_rows A_count bytes.now p)) }
{
    if bytes.len() != 8 {
        return Err(BadState);
    }
    let count = BigEndian::read_u64(bytes);
    if count > MAX_COUNTED {
        return Err(BadState);
    }
    Ok(count)
}

/// Writes a count.
pub fn write_count(count: u64, bytes: &mut [u8])
    requires { length bytes.old ≡ 8 }
    ensures { bytes.new ≡ bytes_of (Counted count) }
{
    BigEndian::write_u64(bytes, count);
}

/// Reads how many numbers were added, and their total. They are `BadState` if there are more than `MAX_COUNTED`, or if this many numbers of
/// 64 bits cannot have that total.
pub fn read_total(bytes: &[u8]) -> Result<(u64, i128), BadState>
    ensures ok { IfOk result (λ t. Denotes most_rows A_sum bytes.now (Summed t.0 t.1)) }
    ensures err { OnErr result ((p : Partial) → ¬ (Denotes most_rows A_sum bytes.now p)) }
{
    if bytes.len() != 24 {
        return Err(BadState);
    }
    let how_many = BigEndian::read_u64(bytes);
    let total = BigEndian::read_i128(&bytes[8..]);
    if how_many > MAX_COUNTED {
        return Err(BadState);
    }
    if !is_total(how_many, total) {
        return Err(BadState);
    }
    Ok((how_many, total))
}

// Whether this many numbers of 64 bits can have this total.
fn is_total(how_many: u64, total: i128) -> bool
    requires { how_many ≤ most_rows }
    ensures yes { result ≡ true → IsTotal how_many total }
    ensures no { result ≡ false → ¬ (IsTotal how_many total) }
{
    let how_many = i128::from(how_many);
    how_many * i128::from(i64::MIN) <= total && total <= how_many * i128::from(i64::MAX)
}

/// Writes a number of 128 bits as two of 64. So it takes two moves, and not one for each byte.
fn write_halves(bits: u128, bytes: &mut [u8])
    requires { length bytes.old ≡ 16 }
    ensures { bytes.new ≡ bytes_high_first 16 bits }
{
    let (high, low) = bytes.split_at_mut(8);
    BigEndian::write_u64(high, (bits / HALF) as u64);
    BigEndian::write_u64(low, (bits % HALF) as u64);
}

/// Writes how many numbers were added, and their total.
pub fn write_total(how_many: u64, total: i128, bytes: &mut [u8])
    requires { length bytes.old ≡ 24 }
    ensures { bytes.new ≡ bytes_of (Summed how_many total) }
{
    let (count, sum) = bytes.split_at_mut(8);
    BigEndian::write_u64(count, how_many);
    write_halves(total.cast_unsigned(), sum);
}

/// Reads a number that may be absent. It is `BadState` if the first byte is neither 0 nor 1, or if a number that is
/// absent is not zero.
pub fn read_number(bytes: &[u8]) -> Result<Option<i64>, BadState>
    ensures ok { IfOk result (λ number. Denotes most_rows A_number bytes.now (Number number)) }
    ensures err { OnErr result ((p : Partial) → ¬ (Denotes most_rows A_number bytes.now p)) }
{
    if bytes.len() != 9 {
        return Err(BadState);
    }
    let number = BigEndian::read_u64(&bytes[1..]);
    if bytes[0] == 1 {
        Ok(Some(number.cast_signed()))
    } else if bytes[0] == 0 && number == 0 {
        Ok(None)
    } else {
        Err(BadState)
    }
}

/// Writes a number that may be absent.
pub fn write_number(number: Option<i64>, bytes: &mut [u8])
    requires { length bytes.old ≡ 9 }
    ensures known { IsState most_rows A_number (Number number) }
    ensures written { bytes.new ≡ bytes_of (Number number) }
{
    match number {
        None => bytes.fill(0),
        Some(number) => {
            bytes[0] = 1;
            BigEndian::write_i64(&mut bytes[1..], number);
        }
    }
}

/// Reads a truth value that may be absent. It is `BadState` if the byte is above 2.
pub fn read_truth(bytes: &[u8]) -> Result<Option<bool>, BadState>
    ensures ok { IfOk result (λ truth. Denotes most_rows A_truth bytes.now (Truth_value truth)) }
    ensures err { OnErr result ((p : Partial) → ¬ (Denotes most_rows A_truth bytes.now p)) }
{
    match bytes {
        [0] => Ok(None),
        [1] => Ok(Some(false)),
        [2] => Ok(Some(true)),
        _ => Err(BadState),
    }
}

/// Writes a truth value that may be absent.
pub fn write_truth(truth: Option<bool>, bytes: &mut [u8])
    requires { length bytes.old ≡ 1 }
    ensures { bytes.new ≡ bytes_of (Truth_value truth) }
{
    bytes[0] = match truth {
        None => 0,
        Some(false) => 1,
        Some(true) => 2,
    };
}
