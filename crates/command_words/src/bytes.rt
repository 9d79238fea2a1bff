//! Numbers of bytes, as a command line tells them.

ghost use Rattle.std.specs.Prelude.{◌≡◌, ◌≤◌, length};
ghost use Rattle.std.specs.Char.{is_ascii_digit};
ghost use Rattle.std.specs.List.{prefix_len};
ghost use Rattle.command_words.specs.Bytes.{bytes_told, unit_of};

use script_io::read_limit;

/// How many digits stand at the front.
fn digits_len(text: &[u8]) -> usize
    ensures len { result ≡ prefix_len is_ascii_digit text.now }
    ensures within { result ≤ length text.now }
{
    text.iter().take_while(|byte| byte.is_ascii_digit()).count()
}

/// How many bytes one of a suffix is.
fn unit_of(suffix: &[u8]) -> Option<u64>
    ensures { result ≡ unit_of suffix.now }
{
    match suffix {
        b"" => Some(1),
        b"k" | b"K" | b"KiB" => Some(1024),
        b"m" | b"M" | b"MiB" => Some(1_048_576),
        b"g" | b"G" | b"GiB" => Some(1_073_741_824),
        b"t" | b"T" | b"TiB" => Some(1_099_511_627_776),
        _ => None,
    }
}

/// The number of bytes that a text tells: 1 to 19 digits, leading zeros included, and a suffix or none. It is `k`, `m`, `g` or `t` in
/// either case of letters, or `KiB`, `MiB`, `GiB` or `TiB`: one is 1,024 bytes, or the second to the fourth power of that.
pub fn read_bytes(text: &str) -> Option<u128>
    ensures { result ≡ bytes_told text.now }
{
    let text = text.as_bytes();
    let (digits, suffix) = text.split_at(digits_len(text));
    let number = read_limit(digits)?;
    let unit = unit_of(suffix)?;
    Some(u128::from(number) * u128::from(unit))
}
