//! Reading a text from the left.

ghost use Rattle.std.specs.Prelude.{◌≡◌, ◌≢◌, ◌<◌, ◌≤◌, ◌-◌, List, length, take, drop, slice_index, true, false, Ok, IfOk, IfErr, IfSome};
ghost use Rattle.std.specs.Prelude.{IfNone, IsTrue, option_map};
ghost use Rattle.std.specs.Char.{to_ascii_lowercase, is_ascii_digit};
ghost use Rattle.std.specs.String.{string_bytes};
ghost use Rattle.std.specs.List.{All};
ghost use Rattle.std.specs.Str.{all_ascii_digits};
ghost use Rattle.query_tokens.specs.Bytes.{begins_name, first_is};
ghost use Rattle.query_tokens.specs.Spelling.{IsLexeme};
ghost use Rattle.query_tokens.specs.Tokens.{tokens_in, word_at, name_at, integer_at, text_at, symbol_at, string_content, integer_of};
ghost use Rattle.query_tokens.specs.Tokens.{number_after, begins_with, Fails, Gives};
ghost use Rattle.query_tokens.specs.Words.{Placed, lexeme_of, all_placed};

use crate::fault::{Fault, TokenError};
use crate::word::{Symbol, Token, Word};
use crate::words::{begins_name, digits_len, is_space, name_len, symbol_of_one, symbol_of_two};
use grouping_model::limits::MAX_NAME_LEN;
use std::alloc::{AllocError, Global};

/// The first bytes of a text, the last of which is ASCII, and those after them.
fn cut(text: &str, len: usize) -> (&str, &str)
    requires within { len ≤ length text.now }
    requires ascii { 0 < len → slice_index text.now (len - 1) < 128 }
    ensures front { result.0.now ≡ take len text.now }
    ensures back { result.1.now ≡ drop len text.now }
{
    text.split_at(len)
}

/// The name at the front of a text that stands at a place.
#[tactic(auto, unfolding(crate::specs::Tokens::name_at))]
fn name_at(alloc: Global, at: usize, text: &str) -> Result<(Word, &str), TokenError>
    ensures { Gives (λ x. (lexeme_of x.0, x.1.now)) result (name_at at text.now) }
{
    let len = name_len(text.as_bytes());
    if len > MAX_NAME_LEN {
        return Err(TokenError::Fault(Fault::Syntax { at }));
    }
    let (front, rest) = cut(text, len);
    let mut name = String::from_str(alloc, front)?;
    name.make_ascii_lowercase();
    Ok((Word::Name(name), rest))
}

/// What stands within the quotes, two quotes being one, and what stands after the closing one.
fn string_content(alloc: Global, text: &str) -> Result<Option<(String, &str)>, AllocError>
    ensures { IfOk result (λ r. option_map (λ x. (string_bytes x.0, x.1.now)) r
        ≡ string_content false text.now) }
{
    let mut content = String::new(alloc);
    let mut rest = text;
    while let Some((piece, after)) = rest.split_once('\'') {
        content.push_str(piece)?;
        match after.strip_prefix('\'') {
            None => return Ok(Some((content, after))),
            Some(more) => {
                content.push('\'')?;
                rest = more;
            }
        }
    }
    Ok(None)
}

/// The string at the front, from the byte after its opening quote, which stands at a place.
#[tactic(auto, unfolding(crate::specs::Tokens::text_at))]
fn text_at(alloc: Global, at: usize, text: &str) -> Result<(Word, &str), TokenError>
    ensures { Gives (λ x. (lexeme_of x.0, x.1.now)) result (text_at at text.now) }
{
    match string_content(alloc, text)? {
        None => Err(TokenError::Fault(Fault::Syntax { at })),
        Some((content, rest)) => {
            if content.as_bytes().contains(&0) {
                return Err(TokenError::Fault(Fault::Syntax { at }));
            }
            Ok((Word::Text(content), rest))
        }
    }
}

/// The symbol at the front.
#[tactic(auto, unfolding(crate::specs::Tokens::symbol_at))]
fn symbol_at(at: usize, text: &str) -> Result<(Word, &str), TokenError>
    ensures { Gives (λ x. (lexeme_of x.0, x.1.now)) result (symbol_at at text.now) }
{
    let bytes = text.as_bytes();
    if bytes.len() >= 2 {
        if let Some(symbol) = symbol_of_two(bytes[0], bytes[1]) {
            return Ok((Word::Symbol(symbol), cut(text, 2).1));
        }
    }
    if bytes.len() >= 1 {
        if let Some(symbol) = symbol_of_one(bytes[0]) {
            return Ok((Word::Symbol(symbol), cut(text, 1).1));
        }
    }
    Err(TokenError::Fault(Fault::Syntax { at }))
}

/// Whether what begins a name stands at the front.
fn begins_name_at(bytes: &[u8]) -> bool
    ensures { result ≡ first_is begins_name bytes.now }
{
    match bytes {
        [] => false,
        [first, ..] => begins_name(*first),
    }
}

/// A number with or without a minus sign before it, if it is in range.
fn signed_integer(negative: bool, magnitude: u64) -> Option<i64>
    ensures { result ≡ integer_of negative magnitude }
{
    if negative {
        i64::try_from(-i128::from(magnitude)).ok()
    } else {
        i64::try_from(magnitude).ok()
    }
}

/// The integer of some digits, with or without a minus sign before them, if it is in range.
fn integer_of(negative: bool, digits: &str) -> Option<i64>
    requires digits { all_ascii_digits digits.now ≡ true }
    requires some { 0 < length digits.now }
    ensures { result ≡ integer_of negative (number_after 0 digits.now) }
{
    match digits.parse::<u64>() {
        Ok(magnitude) => signed_integer(negative, magnitude),
        Err(_) => None,
    }
}

/// The integer at the front, from its first digit. It stands at a place, its minus sign included.
#[tactic(auto, unfolding(crate::specs::Tokens::integer_at))]
fn integer_at(at: usize, negative: bool, text: &str) -> Result<(Word, &str), TokenError>
    requires { IsTrue (first_is is_ascii_digit text.now) }
    ensures { Gives (λ x. (lexeme_of x.0, x.1.now)) result (integer_at at negative text.now) }
{
    let len = digits_len(text.as_bytes());
    let (digits, rest) = cut(text, len);
    if begins_name_at(rest.as_bytes()) {
        return Err(TokenError::Fault(Fault::Syntax { at }));
    }
    match integer_of(negative, digits) {
        None => Err(TokenError::Fault(Fault::NumberTooLarge)),
        Some(integer) => Ok((Word::Integer(integer), rest)),
    }
}

/// What the token at the front says, and the text after it.
#[tactic(auto, unfolding(crate::specs::Tokens::word_at))]
fn word_at(alloc: Global, at: usize, text: &str) -> Result<(Word, &str), TokenError>
    ensures { Gives (λ x. (lexeme_of x.0, x.1.now)) result (word_at at text.now) }
{
    match text.as_bytes() {
        [] => Err(TokenError::Fault(Fault::Syntax { at })),
        [first, ..] if begins_name(*first) => name_at(alloc, at, text),
        [first, ..] if first.is_ascii_digit() => integer_at(at, false, text),
        [b'-', digit, ..] if digit.is_ascii_digit() => integer_at(at, true, cut(text, 1).1),
        [b'\'', ..] => text_at(alloc, at, cut(text, 1).1),
        _ => symbol_at(at, text),
    }
}

/// The tokens of a text from left to right, in time linear in its length.
///
/// White space, which is the bytes 9 to 13 and 32, may stand between any two tokens. A name is a letter or `_`, then
/// letters, digits and `_`, all of ASCII, at most 63 bytes, and comes in lower case. An integer is an optional `-`
/// and digits directly after it, in the range of an `i64`. A string stands in single quotes, `''` being one quote.
/// The symbols are `( ) , * ; = <> != < <= > >=`, the longest first.
///
/// # Errors
///
/// The first fault from the left. [`Fault::Syntax`] has the first byte, counted from 0, of what begins no token or of a malformed token.
/// Malformed are unterminated strings, strings with the character 0, and names of more than 63 bytes. So are digits with a letter or `_`
/// directly after them, even if their number is too large. [`Fault::NumberTooLarge`] is for an integer that is out of range.
/// [`TokenError::NoMemory`] comes if memory ran out.
pub fn tokens(alloc: Global, text: &str) -> Result<Vec<Token>, TokenError>
    ensures exact { Gives (λ v. all_placed v.items) result (tokens_in text.now) }
    ensures legal { IfOk result (λ v. All (λ t. IsLexeme (lexeme_of t.word)) v.items) }
{
    match tokens_up_to(alloc, text, text.len())? {
        Some(found) => Ok(found),
        None => unreachable!(),
    }
}

/// The tokens of a text as [`tokens`] gives them, or `None` if it has more than `most`. Then the first `most` were read without a
/// fault, and nothing after them. So memory is taken for these alone.
///
/// # Errors
///
/// Those of [`tokens`], except for a fault after the first `most` tokens.
pub fn tokens_up_to(
    alloc: Global,
    text: &str,
    most: usize,
) -> Result<Option<Vec<Token>>, TokenError>
    ensures exact { IfOk result (λ found. IfSome found (λ v. tokens_in text.now ≡ Ok (all_placed v.items))) }
    ensures legal { IfOk result (λ found. IfSome found (λ v. All (λ t. IsLexeme (lexeme_of t.word)) v.items)) }
    ensures more { IfOk result (λ found. IfNone found ((ts : List Placed) → tokens_in text.now ≡ Ok ts → most < length ts)) }
    ensures first { IfOk result (λ found. IfNone found (begins_with most 0 0 text.now ≡ true)) }
    ensures longer { IfOk result (λ found. IfNone found (most < length text.now)) }
    ensures refused { IfErr result (λ error. Fails error (tokens_in text.now)) }
    ensures early { IfErr result (λ error. error ≢ TokenError.NoMemory → begins_with most 0 0 text.now ≡ false) }
{
    let mut found = Vec::new(alloc);
    let mut rest = text;
    while let [first, ..] = rest.as_bytes() {
        if is_space(*first) {
            rest = cut(rest, 1).1;
        } else if found.len() == most {
            return Ok(None);
        } else {
            let at = text.len() - rest.len();
            let (word, after) = word_at(alloc, at, rest)?;
            found.push(Token { at, word })?;
            rest = after;
        }
    }
    Ok(Some(found))
}
