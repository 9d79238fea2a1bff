//! What texts of cases stand for.
//!
//! `{3*x}` stands for `xxx`. Each `#` of the part that is repeated stands for the number of the turn, `0000` at first. `{13}` stands for
//! the character of that number, and `{0xff}` for a byte.

use std::alloc::{AllocError, Global};
use test_cases::cut;

/// Appends a text so many times, with the number of the turn for each `#`.
fn push_turns(
    alloc: Global,
    meant: &mut Vec<u8>,
    count: u32,
    part: &str,
) -> Result<(), AllocError> {
    for turn in 0..count {
        let number = format!(in alloc; "{turn:04}")?;
        let turned = part.replace(alloc, "#", &number)?;
        meant.extend_from_slice(turned.as_bytes())?;
    }
    Ok(())
}

/// Appends the character of a number.
fn push_char(alloc: Global, meant: &mut Vec<u8>, number: u32) -> Result<(), AllocError> {
    let mut text = String::new(alloc);
    text.push(char::from_u32(number).unwrap_or('?'))?;
    meant.extend_from_slice(text.as_bytes())
}

/// Appends what `0xBYTE`, `COUNT*PART` or `NUMBER` stands for.
fn push_meant(alloc: Global, meant: &mut Vec<u8>, told: &str) -> Result<(), AllocError> {
    if let Some(digits) = told.strip_prefix("0x") {
        let byte = u8::from_str_radix(digits, 16).unwrap_or(b'?');
        return meant.extend_from_slice(&[byte]);
    }
    let (number, part) = cut(told, "*");
    let number = number.parse().unwrap_or(0);
    if part.is_empty() {
        return push_char(alloc, meant, number);
    }
    push_turns(alloc, meant, number, part)
}

/// The bytes that a text stands for.
pub fn meant(alloc: Global, text: &str) -> Result<Vec<u8>, AllocError> {
    let mut pieces = text.split('{');
    let mut meant = Vec::new(alloc);
    meant.extend_from_slice(pieces.next().unwrap_or("").as_bytes())?;
    for piece in pieces {
        let (told, behind) = cut(piece, "}");
        push_meant(alloc, &mut meant, told)?;
        meant.extend_from_slice(behind.as_bytes())?;
    }
    Ok(meant)
}

/// The bytes that lines stand for, the last of which ends too. Of no lines there are none.
pub fn lines_meant(alloc: Global, lines: &str) -> Result<Vec<u8>, AllocError> {
    let mut bytes = meant(alloc, lines)?;
    if !lines.is_empty() {
        bytes.push(b'\n')?;
    }
    Ok(bytes)
}

/// The words of a command, which `|` parts, behind the program's name.
pub fn words_meant(alloc: Global, told: &str) -> Result<Vec<String>, AllocError> {
    let mut words = Vec::new(alloc);
    words.push(String::from_str(alloc, "agg_tool")?)?;
    for word in told.split('|') {
        let bytes = meant(alloc, word)?;
        words.push(String::from_utf8_lossy(alloc, &bytes)?)?;
    }
    Ok(words)
}
