//! Which bytes begin and continue tokens.

ghost use Rattle.std.specs.Prelude.{◌≡◌, ◌<◌, ◌≤◌, ◌-◌, length, slice_index, IfSome};
ghost use Rattle.std.specs.Char.{is_ascii_digit};
ghost use Rattle.std.specs.List.{prefix_len};
ghost use Rattle.query_tokens.specs.Bytes.{is_space, begins_name, is_in_name, symbol_of_one, symbol_of_two};

use crate::word::Symbol;

/// Whether a byte is white space.
pub(crate) fn is_space(byte: u8) -> bool
    ensures { result ≡ is_space byte }
{
    matches!(byte, 9..=13 | 32)
}

/// Whether a byte begins a name.
pub(crate) fn begins_name(byte: u8) -> bool
    ensures { result ≡ begins_name byte }
{
    byte.is_ascii_alphabetic() || byte == b'_'
}

/// Whether a byte continues a name.
fn is_in_name(byte: u8) -> bool
    ensures { result ≡ is_in_name byte }
{
    byte.is_ascii_alphanumeric() || byte == b'_'
}

/// How many bytes belong to the name at the front.
#[tactic(auto, using(crate::proofs::Ascii::names))]
pub(crate) fn name_len(bytes: &[u8]) -> usize
    ensures len { result ≡ prefix_len is_in_name bytes.now }
    ensures within { result ≤ length bytes.now }
    ensures ascii { 0 < result → slice_index bytes.now (result - 1) < 128 }
{
    bytes.iter().take_while(|byte| is_in_name(**byte)).count()
}

/// How many digits stand at the front.
#[tactic(auto, using(crate::proofs::Ascii::digits))]
pub(crate) fn digits_len(bytes: &[u8]) -> usize
    ensures len { result ≡ prefix_len is_ascii_digit bytes.now }
    ensures within { result ≤ length bytes.now }
    ensures ascii { 0 < result → slice_index bytes.now (result - 1) < 128 }
{
    bytes
        .iter()
        .take_while(|byte| byte.is_ascii_digit())
        .count()
}

/// The symbol of one byte.
#[tactic(auto, unfolding(crate::specs::Bytes::symbol_of_one))]
pub(crate) fn symbol_of_one(byte: u8) -> Option<Symbol>
    ensures symbol { result ≡ symbol_of_one byte }
    ensures ascii { IfSome result (λ _. byte < 128) }
{
    match byte {
        b'(' => Some(Symbol::Open),
        b')' => Some(Symbol::Close),
        b'*' => Some(Symbol::Star),
        b',' => Some(Symbol::Comma),
        b';' => Some(Symbol::Semicolon),
        b'<' => Some(Symbol::Less),
        b'=' => Some(Symbol::Equal),
        b'>' => Some(Symbol::More),
        _ => None,
    }
}

/// The symbol of two bytes.
#[tactic(auto, unfolding(crate::specs::Bytes::symbol_of_two))]
pub(crate) fn symbol_of_two(first: u8, second: u8) -> Option<Symbol>
    ensures symbol { result ≡ symbol_of_two first second }
    ensures ascii { IfSome result (λ _. second < 128) }
{
    match (first, second) {
        (b'<', b'=') => Some(Symbol::AtMost),
        (b'<', b'>') => Some(Symbol::Unequal),
        (b'>', b'=') => Some(Symbol::AtLeast),
        (b'!', b'=') => Some(Symbol::Unequal),
        _ => None,
    }
}
