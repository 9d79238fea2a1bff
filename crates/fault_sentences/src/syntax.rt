//! The first token that a query cannot have, and what was expected there.

use crate::hints::{ARGUMENT, CALL_TERM, FRACTION, Hint, KEY_PLACE, of_function, of_star, of_word};
use crate::places::{Lexed, Sign, piece_at, sign_of, tokens_before};
use crate::wanted::say_wanted;
use group_parser::{begins, goes_on};
use grouping_model::limits::MAX_NAME_LEN;
use having_filter::Comparison;
use query_tokens::{Symbol, Token, is_reserved};
use sentences::Said;
use std::alloc::{AllocError, Global};

/// Says what is wrong with a piece that is not a token, if that is known.
fn say_broken(said: &mut Said, piece: &str) {
    let len = piece.len();
    match piece.chars().next() {
        Some('\'') => said.push_str(
            "the text that begins here has no closing quote, or contains the character 0",
        ),
        Some('-') if len > 1 && piece != "--" => {
            said.push_str("a letter follows digits directly");
        }
        Some('0'..='9') => said.push_str("a letter follows digits directly"),
        Some('a'..='z' | 'A'..='Z' | '_') => {
            said.count("the name has ", len);
            said.count(" bytes; the limit is ", MAX_NAME_LEN);
        }
        _ => {}
    }
}

/// What serves in the place of a parenthesis behind a front that ends with this token.
fn hint_of_parenthesis(
    alloc: Global,
    front: &str,
    last: &Token,
) -> Result<Option<Hint>, AllocError> {
    if goes_on(alloc, front, "ASC")? {
        return Ok(Some(Hint::Sentence(CALL_TERM)));
    }
    let Sign::Name(name) = sign_of(last) else {
        return Ok(None);
    };
    let before = front.get(..last.at).unwrap_or("");
    if !is_reserved(name) && goes_on(alloc, before, "count(x")? {
        return Ok(Some(of_function(name)));
    }
    Ok(of_word(name).map(Hint::Sentence))
}

/// Whether tokens end with the name of a function, a parenthesis and the name of a column.
fn ends_with_argument(tokens: &[Token]) -> bool {
    match tokens {
        [.., function, open, column] => {
            matches!(sign_of(function), Sign::Name(name) if !is_reserved(name))
                && matches!(sign_of(open), Sign::Symbol(Symbol::Open))
                && matches!(sign_of(column), Sign::Name(name) if !is_reserved(name) && of_word(name).is_none())
        }
        _ => false,
    }
}

/// What serves in the place of a piece behind these tokens, by these and by what may stand there.
fn hint_of_place(
    alloc: Global,
    front: &str,
    tokens: &[Token],
    piece: &str,
) -> Result<Option<Hint>, AllocError> {
    let is_number = piece.bytes().all(|byte| byte.is_ascii_digit()) && !piece.is_empty();
    if is_number && goes_on(alloc, front, "x HAVING TRUE")? {
        return Ok(Some(Hint::Sentence(KEY_PLACE)));
    }
    if piece == "." && matches!(tokens.last().map(sign_of), Some(Sign::Integer)) {
        return Ok(Some(Hint::Sentence(FRACTION)));
    }
    if ends_with_argument(tokens) && of_word(piece).is_none() && piece != "(" {
        return Ok(Some(Hint::Sentence(ARGUMENT)));
    }
    Ok(None)
}

/// What serves in the place of a piece behind a front that ends with this token.
fn hint_behind(
    alloc: Global,
    front: &str,
    last: &Token,
    piece: &str,
) -> Result<Option<Hint>, AllocError> {
    if piece == "(" {
        return hint_of_parenthesis(alloc, front, last);
    }
    if piece == "*" {
        let is_item = goes_on(alloc, front, "count(x) AS")?;
        return Ok(Some(Hint::Sentence(of_star(is_item))));
    }
    let said = match (of_word(piece), sign_of(last)) {
        (None, Sign::Name(name)) => of_word(name),
        (None, Sign::Symbol(symbol)) if piece == "=" && Comparison::named(symbol).is_some() => {
            Some("use a single =")
        }
        (said, _) => said,
    };
    Ok(said.map(Hint::Sentence))
}

/// What serves in the place of a piece behind a front.
fn hint_for(alloc: Global, front: &str, piece: &str) -> Result<Option<Hint>, AllocError> {
    let tokens = tokens_before(alloc, front, front.len())?;
    if let Some(hint) = hint_of_place(alloc, front, &tokens, piece)? {
        return Ok(Some(hint));
    }
    match tokens.last() {
        Some(last) => hint_behind(alloc, front, last, piece),
        None => Ok(of_word(piece).map(Hint::Sentence)),
    }
}

/// Says what was found: a piece of a text, or its end.
pub(crate) fn say_found(said: &mut Said, piece: &str) {
    if piece.is_empty() {
        said.push_str("found the end");
    } else {
        said.quoted("found ", piece.as_bytes());
    }
}

/// Says what was found at a place of a text, and what was expected.
fn say_unexpected(alloc: Global, said: &mut Said, text: &str, at: usize) -> Result<(), AllocError> {
    let piece = piece_at(text, at);
    let front = text.get(..at).unwrap_or(text);
    said.count("byte ", at);
    said.push_str(": ");
    say_found(said, piece);
    if begins(alloc, front)? {
        said.push_str(", expected ");
        say_wanted(alloc, said, front)?;
    } else {
        // A token before it can't stand where it does, but what is not a token at all is told first.
        said.push_str(", which is not the start of a token");
    }
    if let Some(hint) = hint_for(alloc, front, piece)? {
        said.push_str("; ");
        hint.say(said);
    }
    Ok(())
}

/// Says what was found at a place where no query goes on so, and what was expected.
pub(crate) fn say_syntax(
    alloc: Global,
    said: &mut Said,
    text: &str,
    at: usize,
) -> Result<(), AllocError> {
    if Lexed::of(alloc, text)?.fault == Some(at) {
        say_broken(said, piece_at(text, at));
    }
    if said.is_silent() {
        say_unexpected(alloc, said, text, at)?;
    }
    Ok(())
}

/// Says which integer is out of range: where it stands.
pub(crate) fn say_large(
    alloc: Global,
    said: &mut Said,
    text: &str,
) -> Result<Option<usize>, AllocError> {
    let large = Lexed::of(alloc, text)?.large;
    if let Some(at) = large {
        said.quote(piece_at(text, at).as_bytes());
        said.push_str(" is out of range (-9223372036854775808 to 9223372036854775807)");
    }
    Ok(large)
}
