//! Tokens and where they stand in their text.

use query_tokens::{Fault, Token, TokenError, Word, tokens};
use std::alloc::{AllocError, Global};

/// The tokens of a text up to its first fault, if it has one, and where that stands.
#[derive(Drop)]
pub(crate) struct Lexed {
    pub(crate) tokens: Vec<Token>,
    /// Where no token begins, or a broken one.
    pub(crate) fault: Option<usize>,
    /// Where an integer stands that is out of range.
    pub(crate) large: Option<usize>,
}

/// A token's word without what holds it.
#[derive(Clone, Copy)]
pub(crate) enum Sign<'t> {
    /// A name or a key word.
    Name(&'t str),
    /// An integer.
    Integer,
    /// A text.
    Text,
    /// A symbol.
    Symbol(query_tokens::Symbol),
}

/// What a token says.
pub(crate) fn sign_of(token: &Token) -> Sign<'_> {
    match &token.word {
        Word::Name(name) => Sign::Name(name.as_str()),
        Word::Integer(_) => Sign::Integer,
        Word::Text(_) => Sign::Text,
        Word::Symbol(symbol) => Sign::Symbol(*symbol),
    }
}

/// Whether a byte may be in a word.
fn is_of_word(byte: u8) -> bool {
    byte.is_ascii_alphanumeric() || byte == b'_'
}

/// How many digits stand at a place, behind a minus sign or none.
fn number_at(text: &str, at: usize) -> Option<&str> {
    let rest = text.get(at..)?;
    let digits = rest.strip_prefix('-').unwrap_or(rest);
    let len = digits
        .bytes()
        .take_while(|byte| byte.is_ascii_digit())
        .count();
    if len == 0 {
        return None;
    }
    let signed = rest.len().saturating_sub(digits.len()).saturating_add(len);
    rest.get(..signed)
}

/// Where the first integer stands that is out of range. Before it the text has no fault.
fn large_integer(text: &str) -> Option<usize> {
    let mut in_text = false;
    let mut in_word = false;
    for (at, byte) in text.bytes().enumerate() {
        if byte == b'\'' {
            in_text = !in_text;
        } else if !in_text && !in_word && (byte == b'-' || byte.is_ascii_digit()) {
            if number_at(text, at).is_some_and(|number| number.parse::<i64>().is_err()) {
                return Some(at);
            }
        }
        in_word = is_of_word(byte);
    }
    None
}

/// The tokens of a text up to a place, before which it has no fault.
pub(crate) fn tokens_before(
    alloc: Global,
    text: &str,
    place: usize,
) -> Result<Vec<Token>, AllocError> {
    match tokens(alloc, text.get(..place).unwrap_or("")) {
        Ok(found) => Ok(found),
        Err(TokenError::NoMemory) => Err(AllocError),
        Err(TokenError::Fault(_)) => Ok(Vec::new(alloc)),
    }
}

impl Lexed {
    /// The tokens of a text up to its first fault.
    pub(crate) fn of(alloc: Global, text: &str) -> Result<Lexed, AllocError> {
        let (fault, large) = match tokens(alloc, text) {
            Ok(tokens) => {
                return Ok(Lexed {
                    tokens,
                    fault: None,
                    large: None,
                });
            }
            Err(TokenError::NoMemory) => return Err(AllocError),
            Err(TokenError::Fault(Fault::Syntax { at })) => (Some(at), None),
            Err(TokenError::Fault(Fault::NumberTooLarge)) => (None, large_integer(text)),
        };
        let place = fault.or(large).unwrap_or(0);
        Ok(Lexed {
            tokens: tokens_before(alloc, text, place)?,
            fault,
            large,
        })
    }
}

/// The piece of a text from a place on that is one token, or no token at all.
pub(crate) fn piece_at(text: &str, at: usize) -> &str {
    let rest = text.get(at..).unwrap_or("");
    let word = rest.bytes().take_while(|byte| is_of_word(*byte)).count();
    if word > 0 {
        return rest.get(..word).unwrap_or(rest);
    }
    if let Some(number) = number_at(text, at) {
        return number;
    }
    if rest.starts_with('\'') {
        return quoted_front(rest);
    }
    let two = rest.get(..2).unwrap_or("");
    if matches!(two, "<=" | ">=" | "<>" | "!=" | "==" | "--" | "||" | "::") {
        return two;
    }
    match rest.chars().next() {
        Some(c) => rest.get(..c.len_utf8()).unwrap_or(rest),
        None => "",
    }
}

/// The text in quotes at the front.
fn quoted_front(rest: &str) -> &str {
    match rest.bytes().skip(1).position(|byte| byte == b'\'') {
        Some(inside) => rest.get(..inside.saturating_add(2)).unwrap_or(rest),
        None => rest,
    }
}
