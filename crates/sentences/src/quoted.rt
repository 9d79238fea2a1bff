//! Bytes as a sentence shows them.

use std::{fmt, str};

/// How many characters of a value are shown, or bytes where it is not a text.
const MAX_SHOWN: usize = 40;

/// Bytes in single quotes, cut short, in which what does not show on a line is told by numbers: what a user wrote, in a
/// sentence of one line.
#[derive(Clone, Copy)]
pub struct Quoted<'b>(pub &'b [u8]);

/// Whether a character would break or turn a line, or not be seen.
pub(crate) fn is_hidden(c: char) -> bool {
    c.is_control()
        || matches!(
            c,
            '\u{200b}'..='\u{200f}' | '\u{2028}'..='\u{202e}' | '\u{2066}'..='\u{2069}' | '\u{feff}'
        )
}

/// Writes a character, or its number.
fn write_shown<W: fmt::Write>(c: char, f: &mut fmt::Formatter<W>) -> fmt::Result {
    if !is_hidden(c) {
        return f.write_char(c);
    }
    let number = u32::from(c);
    if number < 128 {
        write!(f, "\\x{number:02x}")
    } else {
        write!(f, "\\u{{{number:x}}}")
    }
}

/// Writes a byte of what is not a text.
fn write_byte<W: fmt::Write>(byte: u8, f: &mut fmt::Formatter<W>) -> fmt::Result {
    if byte.is_ascii() {
        write_shown(char::from(byte), f)
    } else {
        write!(f, "\\x{byte:02x}")
    }
}

/// Writes the front of a text, and whether more stands behind it.
fn write_text<W: fmt::Write>(text: &str, f: &mut fmt::Formatter<W>) -> fmt::Result {
    for c in text.chars().take(MAX_SHOWN) {
        write_shown(c, f)?;
    }
    if text.chars().nth(MAX_SHOWN).is_some() {
        f.write_str("..")?;
    }
    Ok(())
}

/// Writes the front of bytes that are no text, and whether more stand behind it.
fn write_bytes<W: fmt::Write>(bytes: &[u8], f: &mut fmt::Formatter<W>) -> fmt::Result {
    for byte in bytes.iter().take(MAX_SHOWN) {
        write_byte(*byte, f)?;
    }
    if bytes.len() > MAX_SHOWN {
        f.write_str("..")?;
    }
    Ok(())
}

/// A text as a sentence shows it whole, without quotes: what does not show on a line is told by numbers.
#[derive(Clone, Copy)]
pub struct Plain<'t>(pub &'t str);

impl fmt::Display for Plain<'_> {
    fn fmt<W: fmt::Write>(&self, f: &mut fmt::Formatter<W>) -> fmt::Result {
        for c in self.0.chars() {
            write_shown(c, f)?;
        }
        Ok(())
    }
}

impl fmt::Display for Quoted<'_> {
    fn fmt<W: fmt::Write>(&self, f: &mut fmt::Formatter<W>) -> fmt::Result {
        f.write_char('\'')?;
        match str::from_utf8(self.0) {
            Ok(text) => write_text(text, f)?,
            Err(_) => write_bytes(self.0, f)?,
        }
        f.write_char('\'')
    }
}
