//! Operands: columns, literals and calls, and conditions in parentheses.

ghost use Rattle.std.specs.Prelude.{◌≡◌, ◌<◌, ◌≤◌, option_map, IfOk, IfSome, length, string_bytes, Some, None};
ghost use Rattle.agg_protocol.specs.Kinds.{function_of};
ghost use Rattle.query_grammar.specs.Terminals.{function_named};
ghost use Rattle.query_grammar.specs.Queries.{most_open};
ghost use Rattle.query_grammar.specs.Reading.{is_count, argument_at, filter_at, call_at, function_or_column, word_at, enclosed_at, prim_at};
ghost use Rattle.query_grammar.specs.Reading.{conditions};
ghost use Rattle.group_parser.specs.Views.{lexemes, condition_read, call_read, item_read, alias_read, Gives};

use crate::conditions::condition;
use crate::cursor::{after_symbol, after_word, expect_symbol, expect_word, name};
use crate::fault::{Read, ReadError};
use agg_protocol::AggKind;
use grouping_model::limits::MAX_OPEN;
use having_filter::{AggCall, Cond, Item};
use query_tokens::{Symbol, Token, Word, is_reserved};
use std::alloc::{AllocError, Global};

/// Whether a function is `count`.
fn is_count(kind: AggKind) -> bool
    ensures { result ≡ is_count (function_of kind) }
{
    match kind {
        AggKind::Count => true,
        _ => false,
    }
}

/// What stands in the parentheses of a call: `*` in those of `count`, or else a column.
#[tactic(auto, unfolding(query_grammar::specs::Reading::argument_at))]
fn argument<'a>(
    alloc: Global,
    kind: AggKind,
    tokens: &'a [Token],
) -> Read<'a, (AggKind, Option<String>)>
    ensures read { Gives (λ x. ((function_of x.0.0, alias_read x.0.1), lexemes x.1.now)) result
        (argument_at (function_of kind) (lexemes tokens.now)) }
    ensures shorter { IfOk result (λ x. length x.1.now < length tokens.now) }
{
    if is_count(kind) {
        if let Some(rest) = after_symbol(tokens, Symbol::Star) {
            return Ok(((AggKind::CountRows, None), rest));
        }
    }
    let (column, rest) = name(alloc, tokens)?;
    Ok(((kind, Some(column)), rest))
}

/// An item as an operand.
fn as_operand(alloc: Global, item: Item<String>) -> Result<Cond<String>, AllocError>
    ensures { IfOk result (λ c. condition_read c ≡ item_read item) }
{
    match item {
        Item::Column(name) => Ok(Cond::Column(name)),
        Item::Call(call) => Ok(Cond::Call(Box::new(alloc, call)?)),
    }
}

/// A call whose parentheses were read, and its FILTER, if there is one.
#[cycle(conditions)]
#[tactic(auto, unfolding(query_grammar::specs::Reading::filter_at))]
fn filtered<'a>(
    alloc: Global,
    kind: AggKind,
    column: Option<String>,
    tokens: &'a [Token],
) -> Read<'a, AggCall<String>>
    ensures read { Gives (λ x. (call_read x.0, lexemes x.1.now)) result
        (filter_at (conditions most_open) (function_of kind, alias_read column) (lexemes tokens.now)) }
    ensures shorter { IfOk result (λ x. length x.1.now ≤ length tokens.now) }
{
    let Some(behind) = after_word(tokens, "filter") else {
        let call = AggCall {
            kind,
            column,
            filter: None,
        };
        return Ok((call, tokens));
    };
    let behind = expect_symbol(behind, Symbol::Open)?;
    let behind = expect_word(behind, "where")?;
    let (filter, behind) = condition(alloc, MAX_OPEN, behind)?;
    let rest = expect_symbol(behind, Symbol::Close)?;
    let call = AggCall {
        kind,
        column,
        filter: Some(filter),
    };
    Ok((call, rest))
}

/// A call, from after its parenthesis on.
#[cycle(conditions)]
#[tactic(auto, unfolding(query_grammar::specs::Reading::call_at))]
fn call<'a>(alloc: Global, kind: AggKind, tokens: &'a [Token]) -> Read<'a, AggCall<String>>
    ensures read { Gives (λ x. (call_read x.0, lexemes x.1.now)) result
        (call_at (conditions most_open) (function_of kind) (lexemes tokens.now)) }
    ensures shorter { IfOk result (λ x. length x.1.now < length tokens.now) }
{
    let ((kind, column), behind) = argument(alloc, kind, tokens)?;
    let behind = expect_symbol(behind, Symbol::Close)?;
    filtered(alloc, kind, column, behind)
}

/// What a name begins: a call if it is a function's and a parenthesis stands after it, or else a column.
#[cycle(conditions)]
pub(crate) fn column_or_call<'a>(
    alloc: Global,
    name: &str,
    tokens: &'a [Token],
) -> Read<'a, Item<String>>
    ensures read { Gives (λ x. (item_read x.0, lexemes x.1.now)) result
        (function_or_column (conditions most_open) name.now (function_named name.now)
        (lexemes tokens.now)) }
    ensures shorter { IfOk result (λ x. length x.1.now ≤ length tokens.now) }
{
    if let Some(kind) = AggKind::named(name) {
        if let Some(behind) = after_symbol(tokens, Symbol::Open) {
            let (call, rest) = call(alloc, kind, behind)?;
            return Ok((Item::Call(call), rest));
        }
    }
    Ok((Item::Column(String::from_str(alloc, name)?), tokens))
}

/// A condition in parentheses, from after the first on. This many more of them may be opened, this one included.
#[cycle(conditions)]
#[tactic(auto, unfolding(query_grammar::specs::Reading::enclosed_at))]
fn enclosed<'a>(alloc: Global, room: usize, tokens: &'a [Token]) -> Read<'a, Cond<String>>
    ensures read { Gives (λ x. (condition_read x.0, lexemes x.1.now)) result
        (enclosed_at (conditions most_open) room (lexemes tokens.now)) }
    ensures shorter { IfOk result (λ x. length x.1.now < length tokens.now) }
{
    if room == 0 {
        return Err(ReadError::TooDeep(tokens.len() + 1));
    }
    let (inside, behind) = condition(alloc, room - 1, tokens)?;
    let rest = expect_symbol(behind, Symbol::Close)?;
    Ok((inside, rest))
}

/// An operand that begins with a word.
#[cycle(conditions)]
#[tactic(auto, unfolding(query_grammar::specs::Reading::word_at))]
fn word_operand<'a>(alloc: Global, word: &str, tokens: &'a [Token]) -> Read<'a, Cond<String>>
    ensures read { Gives (λ x. (condition_read x.0, lexemes x.1.now)) result
        (word_at (conditions most_open) word.now (lexemes tokens.now)) }
    ensures shorter { IfOk result (λ x. length x.1.now ≤ length tokens.now) }
{
    match word {
        "true" => Ok((Cond::Boolean(true), tokens)),
        "false" => Ok((Cond::Boolean(false), tokens)),
        "null" => Ok((Cond::Null, tokens)),
        _ => {
            if is_reserved(word) {
                return Err(ReadError::Unexpected(tokens.len() + 1));
            }
            let (item, rest) = column_or_call(alloc, word, tokens)?;
            Ok((as_operand(alloc, item)?, rest))
        }
    }
}

/// An operand.
#[cycle(conditions)]
#[tactic(auto, unfolding(query_grammar::specs::Reading::prim_at, query_grammar::specs::Terminals::symbol_number))]
pub(crate) fn operand<'a>(alloc: Global, room: usize, tokens: &'a [Token]) -> Read<'a, Cond<String>>
    ensures read { Gives (λ x. (condition_read x.0, lexemes x.1.now)) result
        (prim_at (conditions most_open) room (lexemes tokens.now)) }
    ensures shorter { IfOk result (λ x. length x.1.now < length tokens.now) }
{
    match tokens {
        [first, rest @ ..] => match &first.word {
            Word::Name(word) => word_operand(alloc, word.as_str(), rest),
            Word::Integer(number) => Ok((Cond::Bigint(*number), rest)),
            Word::Text(text) => Ok((Cond::Text(String::from_str(alloc, text.as_str())?), rest)),
            Word::Symbol(Symbol::Open) => enclosed(alloc, room, rest),
            Word::Symbol(_) => Err(ReadError::Unexpected(tokens.len())),
        },
        _ => Err(ReadError::Unexpected(tokens.len())),
    }
}
