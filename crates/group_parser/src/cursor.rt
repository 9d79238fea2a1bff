//! Single tokens at the front of the tokens that are left.

ghost use Rattle.std.specs.Prelude.{◌≡◌, ◌<◌, ◌==◌, option_map, IfSome, IfOk, length, string_bytes};
ghost use Rattle.query_tokens.specs.Words.{lexeme_of};
ghost use Rattle.query_checks.specs.Operators.{comparison_of, test_of};
ghost use Rattle.query_grammar.specs.Terminals.{is_word, is_sign, symbol_number};
ghost use Rattle.query_grammar.specs.Reading.{after, after_comparison, expect, name_at, looked_for};
ghost use Rattle.group_parser.specs.Views.{lexemes, Gives};

use crate::fault::{Read, ReadError};
use having_filter::{Comparison, IsTest};
use query_tokens::{Symbol, Token, Word, is_reserved};
use std::alloc::Global;

/// Whether a token is this word.
fn is_word(token: &Token, word: &str) -> bool
    ensures { result ≡ is_word word.now (lexeme_of token.now.word) }
{
    match &token.word {
        Word::Name(name) => name.as_str() == word,
        _ => false,
    }
}

/// Whether two symbols are the same.
#[tactic(auto, unfolding(query_grammar::specs::Terminals::symbol_number))]
fn is_same_symbol(a: Symbol, b: Symbol) -> bool
    ensures { result ≡ (symbol_number a == symbol_number b) }
{
    a == b
}

/// Whether a token is this symbol.
fn is_symbol(token: &Token, symbol: Symbol) -> bool
    ensures { result ≡ is_sign symbol (lexeme_of token.now.word) }
{
    match &token.word {
        Word::Symbol(found) => is_same_symbol(*found, symbol),
        _ => false,
    }
}

/// The tokens behind this word, where it stands at the front.
pub(crate) fn after_word<'a>(tokens: &'a [Token], word: &str) -> Option<&'a [Token]>
    ensures found { option_map (λ rest. lexemes rest.now) result
        ≡ after (is_word word.now) (lexemes tokens.now) }
    ensures shorter { IfSome result (λ rest. length rest.now < length tokens.now) }
{
    match tokens {
        [first, rest @ ..] if is_word(first, word) => Some(rest),
        _ => None,
    }
}

/// The tokens behind this symbol, where it stands at the front.
pub(crate) fn after_symbol(tokens: &[Token], symbol: Symbol) -> Option<&[Token]>
    ensures found { option_map (λ rest. lexemes rest.now) result
        ≡ after (is_sign symbol) (lexemes tokens.now) }
    ensures shorter { IfSome result (λ rest. length rest.now < length tokens.now) }
{
    match tokens {
        [first, rest @ ..] if is_symbol(first, symbol) => Some(rest),
        _ => None,
    }
}

/// The tokens behind this word, which must stand at the front.
pub(crate) fn expect_word<'a>(tokens: &'a [Token], word: &str) -> Result<&'a [Token], ReadError>
    ensures read { Gives (λ rest. (tt, lexemes rest.now)) result
        (expect (is_word word.now) (lexemes tokens.now)) }
    ensures shorter { IfOk result (λ rest. length rest.now < length tokens.now) }
{
    match after_word(tokens, word) {
        Some(rest) => Ok(rest),
        None => Err(ReadError::Unexpected(tokens.len())),
    }
}

/// The tokens behind this symbol, which must stand at the front.
pub(crate) fn expect_symbol(tokens: &[Token], symbol: Symbol) -> Result<&[Token], ReadError>
    ensures read { Gives (λ rest. (tt, lexemes rest.now)) result
        (expect (is_sign symbol) (lexemes tokens.now)) }
    ensures shorter { IfOk result (λ rest. length rest.now < length tokens.now) }
{
    match after_symbol(tokens, symbol) {
        Some(rest) => Ok(rest),
        None => Err(ReadError::Unexpected(tokens.len())),
    }
}

/// The name at the front, which must not be a reserved word.
pub(crate) fn name<'a>(alloc: Global, tokens: &'a [Token]) -> Read<'a, String>
    ensures read { Gives (λ x. (string_bytes x.0, lexemes x.1.now)) result
        (name_at (lexemes tokens.now)) }
    ensures shorter { IfOk result (λ x. length x.1.now < length tokens.now) }
{
    match tokens {
        [first, rest @ ..] => match &first.word {
            Word::Name(name) if !is_reserved(name) => Ok((String::from_str(alloc, name)?, rest)),
            _ => Err(ReadError::Unexpected(tokens.len())),
        },
        _ => Err(ReadError::Unexpected(tokens.len())),
    }
}

/// The comparison at the front, and the tokens behind it.
pub(crate) fn after_comparison(tokens: &[Token]) -> Option<(Comparison, &[Token])>
    ensures found { option_map (λ x. (comparison_of x.0, lexemes x.1.now)) result
        ≡ after_comparison (lexemes tokens.now) }
    ensures shorter { IfSome result (λ x. length x.1.now < length tokens.now) }
{
    match tokens {
        [first, rest @ ..] => match &first.word {
            Word::Symbol(symbol) => match Comparison::named(*symbol) {
                Some(comparison) => Some((comparison, rest)),
                None => None,
            },
            _ => None,
        },
        _ => None,
    }
}

/// What an IS test looks for.
#[tactic(auto, unfolding(query_grammar::specs::Reading::looked_for))]
pub(crate) fn looked_for(tokens: &[Token]) -> Read<'_, IsTest>
    ensures read { Gives (λ x. (test_of x.0, lexemes x.1.now)) result
        (looked_for (lexemes tokens.now)) }
    ensures shorter { IfOk result (λ x. length x.1.now < length tokens.now) }
{
    if let Some(rest) = after_word(tokens, "null") {
        return Ok((IsTest::IsNull, rest));
    }
    if let Some(rest) = after_word(tokens, "true") {
        return Ok((IsTest::IsTrue, rest));
    }
    if let Some(rest) = after_word(tokens, "false") {
        return Ok((IsTest::IsFalse, rest));
    }
    if let Some(rest) = after_word(tokens, "unknown") {
        return Ok((IsTest::IsUnknown, rest));
    }
    Err(ReadError::Unexpected(tokens.len()))
}
