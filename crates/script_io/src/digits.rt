//! Numbers of a script that are written as digits alone.

ghost use Rattle.std.specs.Prelude.{◌≡◌, ◌≤◌, ◌<◌, ◌^◌, IsTrue, IfSome, length};
ghost use Rattle.std.specs.Str.Parse.{digits_value};
ghost use Rattle.std.specs.Char.{is_ascii_digit};
ghost use Rattle.std.specs.List.{list_all};
ghost use Rattle.script_io.specs.Digits.{are_digits, number_of, row_count, limit_told};

/// The most digits of a number of rows.
const MAX_COUNT_DIGITS: usize = 9;

/// The most digits of a limit.
const MAX_LIMIT_DIGITS: usize = 19;

/// Whether all bytes are digits.
fn all_digits(bytes: &[u8]) -> bool
    ensures { result ≡ list_all is_ascii_digit bytes.now }
{
    bytes.iter().all(|b| b.is_ascii_digit())
}

/// Whether a field is 1 to `most` digits.
fn are_digits(field: &[u8], most: usize) -> bool
    ensures { result ≡ are_digits most field.now }
{
    !field.is_empty() && field.len() <= most && all_digits(field)
}

/// The number that up to 19 digits stand for.
fn value_of(digits: &[u8]) -> u64
    requires digits { IsTrue (list_all is_ascii_digit digits.now) }
    requires few { length digits.now ≤ 19 }
    ensures value { result ≡ digits_value 10 digits.now }
    ensures low { result < 10 ^ length digits.now }
{
    let mut value = 0;
    for digit in digits {
        value = value * 10 + u64::from(*digit - b'0');
    }
    value
}

/// The number that 1 to `most` digits stand for, leading zeros included; `most` is 19 or less.
pub fn read_digits(field: &[u8], most: usize) -> Option<u64>
    requires { most ≤ 19 }
    ensures number { result ≡ number_of most field.now }
    ensures low { IfSome result (λ number. number < 10 ^ most) }
{
    if are_digits(field, most) {
        Some(value_of(field))
    } else {
        None
    }
}

/// The number of rows that a field states, if it is one: 1 to 9 digits, leading zeros included.
pub fn read_row_count(field: &[u8]) -> Option<u32>
    ensures { result ≡ row_count field.now }
{
    match read_digits(field, MAX_COUNT_DIGITS) {
        Some(count) => Some(count as u32),
        None => None,
    }
}

/// The number of bytes that a field states as a limit, if it is one: 1 to 19 digits, leading zeros included.
pub fn read_limit(field: &[u8]) -> Option<u64>
    ensures { result ≡ limit_told field.now }
{
    read_digits(field, MAX_LIMIT_DIGITS)
}
