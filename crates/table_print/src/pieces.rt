//! Pieces of lines that several formats share.

ghost use Rattle.std.specs.Prelude.{◌≡◌, ◌<◌, ◌++◌, ◌==◌, [], if◌then◌else◌, OnOk};
ghost use Rattle.std.specs.Char.{digit_char};

use std::alloc::AllocError;

/// The hexadecimal digit of a value below 16.
pub(crate) fn hex_digit(value: u8) -> u8
    requires { value < 16 }
    ensures { result ≡ digit_char value }
{
    if value < 10 {
        b'0' + value
    } else {
        b'a' + (value - 10)
    }
}

/// Appends what parts a place of a line from the one before it. The first place is 0, and has none before it.
pub(crate) fn push_separator(
    out: &mut Vec<u8>,
    place: usize,
    separator: &[u8],
) -> Result<(), AllocError>
    ensures { OnOk result (out.new.items
        ≡ out.old.items ++ (if place == 0 then [] else separator.now)) }
{
    if place > 0 {
        out.extend_from_slice(separator)?;
    }
    Ok(())
}
