//! From a text to a query that was checked.

ghost use Rattle.std.specs.Prelude.{◌≡◌, ◌≢◌, ◌≤◌, ◌-◌, length, slice_get, option_map, unwrap_or, IfOk, IfErr, Ok, Err};
ghost use Rattle.std.specs.List.{AllByRecursion};
ghost use Rattle.query_tokens.specs.Words.{all_placed};
ghost use Rattle.query_tokens.specs.Spelling.{IsLexeme};
ghost use Rattle.query_checks.specs.Forms.{written_of};
ghost use Rattle.query_checks.specs.Arrangement.{asked_of};
ghost use Rattle.query_checks.specs.Writable.{IsWritable};
ghost use Rattle.query_grammar.specs.Queries.{most_open};
ghost use Rattle.query_grammar.specs.Whole.{query_at};
ghost use Rattle.group_parser.specs.Views.{lexemes};
ghost use Rattle.group_parser.specs.Parsing.{no_memory, Accepts, Refuses, place_of_left, query_read, tokens_read, asked_in};

use crate::error::ParseError;
use crate::fault::ReadError;
use crate::query::query;
use grouping_model::limits::MAX_QUERY_LEN;
use having_filter::{Query, QueryError, RawQuery};
use packed_rows::Schema;
use query_tokens::{Token, tokens};
use std::alloc::Global;

/// The place of the first of the last `left` tokens of a text, or the text's length if none are left.
fn place_of_left(end: usize, tokens: &[Token], left: usize) -> usize
    ensures { result ≡ place_of_left end (all_placed tokens.now) left }
{
    match tokens.get(tokens.len().saturating_sub(left)) {
        Some(token) => token.at,
        None => end,
    }
}

/// The query that tokens of a text of this length say.
fn read_tokens(alloc: Global, end: usize, tokens: &[Token]) -> Result<RawQuery, ParseError>
    ensures read { IfOk result (λ raw. query_read end (all_placed tokens.now)
        (query_at most_open (lexemes tokens.now)) ≡ Ok (asked_of raw)) }
    ensures refused { IfErr result (λ e. e ≢ no_memory → query_read end (all_placed tokens.now)
        (query_at most_open (lexemes tokens.now)) ≡ Err e) }
{
    match query(alloc, tokens) {
        Ok(raw) => Ok(raw),
        Err(ReadError::NoMemory) => Err(ParseError::Query(QueryError::NoMemory)),
        Err(ReadError::Unexpected(left)) => Err(ParseError::Syntax {
            at: place_of_left(end, tokens, left),
        }),
        Err(ReadError::TooDeep(_)) => Err(ParseError::Query(QueryError::TooDeep)),
    }
}

/// The query in a text, before it is checked. The errors are those of [`parse`] that come before the errors of the checks.
#[tactic(auto, unfolding(crate::specs::Parsing::asked_in))]
pub fn read(alloc: Global, text: &str) -> Result<RawQuery, ParseError>
    ensures read { IfOk result (λ raw. asked_in text.now ≡ Ok (asked_of raw)) }
    ensures refused { IfErr result (λ e. e ≢ no_memory → asked_in text.now ≡ Err e) }
{
    if text.len() > MAX_QUERY_LEN {
        return Err(ParseError::Query(QueryError::TooMany));
    }
    match tokens(alloc, text) {
        Ok(found) => read_tokens(alloc, text.len(), &found),
        Err(error) => Err(ParseError::from(error)),
    }
}

/// The query in a text, over the columns of a schema.
///
/// # Errors
///
/// The first of these: `TooMany` for a text of more than 16,384 bytes; `Syntax` or `NumberTooLarge` for the first fault
/// of its tokens; `Syntax` or `TooDeep` of its grammar, whichever comes first; and then the errors of [`Query::check`].
/// This `Syntax` is at the first token that no query can go on with, or at the text's end. `TooDeep` is at a
/// parenthesis of a condition of which 64 are open. The condition of a FILTER counts its own parentheses.
#[tactic(auto, using(crate::specs::Lemmas::ParseLaws::accepts, crate::specs::Lemmas::ParseLaws::refuses_text, crate::specs::Lemmas::ParseLaws::refuses_query, crate::specs::Lemmas::ParseLaws::can_be_written))]
pub fn parse(alloc: Global, schema: &Schema, text: &str) -> Result<Query, ParseError>
    ensures accepted { IfOk result (λ q. Accepts schema.now text.now q) }
    ensures refused { IfErr result (λ e. e ≢ no_memory → Refuses schema.now text.now e) }
{
    let raw = read(alloc, text)?;
    match Query::check(alloc, schema, &raw) {
        Ok(query) => Ok(query),
        Err(error) => Err(ParseError::from(error)),
    }
}
