//! Reading a whole query.

ghost use Rattle.std.specs.Prelude.{◌≡◌, ◌<◌, ◌≤◌, [], map, option_map, IfOk, length, string_bytes, codes};
ghost use Rattle.query_checks.specs.Forms.{items_of};
ghost use Rattle.query_checks.specs.Arrangement.{asked_of};
ghost use Rattle.query_grammar.specs.Queries.{most_open};
ghost use Rattle.query_grammar.specs.Reading.{name_at};
ghost use Rattle.query_grammar.specs.Whole.{item_value_at, alias_or_none, alias_at, item_at, clause_at, keys_at, end_at, query_at};
ghost use Rattle.group_parser.specs.Views.{lexemes, condition_read, item_read, alias_read, Gives};

use crate::conditions::condition;
use crate::cursor::{after_symbol, after_word, expect_word, name};
use crate::fault::{Read, ReadError};
use crate::lists::{Listed, list};
use crate::operands::column_or_call;
use crate::order::order;
use grouping_model::limits::MAX_OPEN;
use having_filter::{Cond, Item, RawQuery};
use query_tokens::{Symbol, Token, Word, is_reserved};
use std::alloc::Global;

/// A column or a call.
#[tactic(auto, unfolding(query_grammar::specs::Whole::item_value_at))]
fn item_value<'a>(alloc: Global, tokens: &'a [Token]) -> Read<'a, Item<String>>
    ensures read { Gives (λ x. (item_read x.0, lexemes x.1.now)) result
        (item_value_at most_open (lexemes tokens.now)) }
    ensures shorter { IfOk result (λ x. length x.1.now < length tokens.now) }
{
    match tokens {
        [first, rest @ ..] => match &first.word {
            Word::Name(name) => {
                if is_reserved(name.as_str()) {
                    return Err(ReadError::Unexpected(tokens.len()));
                }
                column_or_call(alloc, name.as_str(), rest)
            }
            _ => Err(ReadError::Unexpected(tokens.len())),
        },
        _ => Err(ReadError::Unexpected(tokens.len())),
    }
}

/// A name, if one stands here.
#[tactic(auto, unfolding(query_grammar::specs::Whole::alias_or_none))]
fn bare_alias<'a>(alloc: Global, tokens: &'a [Token]) -> Read<'a, Option<String>>
    ensures read { Gives (λ x. (alias_read x.0, lexemes x.1.now)) result
        (alias_or_none (lexemes tokens.now)) }
    ensures shorter { IfOk result (λ x. length x.1.now ≤ length tokens.now) }
{
    match tokens {
        [first, rest @ ..] => match &first.word {
            Word::Name(name) => {
                if is_reserved(name.as_str()) {
                    return Ok((None, tokens));
                }
                Ok((Some(String::from_str(alloc, name.as_str())?), rest))
            }
            _ => Ok((None, tokens)),
        },
        _ => Ok((None, tokens)),
    }
}

/// The alias of an item, if it has one.
#[tactic(auto, unfolding(query_grammar::specs::Whole::alias_at))]
fn alias<'a>(alloc: Global, tokens: &'a [Token]) -> Read<'a, Option<String>>
    ensures read { Gives (λ x. (alias_read x.0, lexemes x.1.now)) result
        (alias_at (lexemes tokens.now)) }
    ensures shorter { IfOk result (λ x. length x.1.now ≤ length tokens.now) }
{
    if let Some(behind) = after_word(tokens, "as") {
        let (name, rest) = name(alloc, behind)?;
        return Ok((Some(name), rest));
    }
    bare_alias(alloc, tokens)
}

/// An item and its alias, if it has one.
impl Listed for (Item<String>, Option<String>) {
    ghost use Rattle.std.specs.Prelude.{ℕ, List, Option, length, ◌<◌};
    ghost use Rattle.query_grammar.specs.Grammar.{Named};
    ghost use Rattle.query_grammar.specs.Queries.{most_open};
    ghost use Rattle.query_grammar.specs.Whole.{item_at};
    ghost use Rattle.query_grammar.specs.Lemmas.Whole_locality.{items_stay};
    ghost use Rattle.group_parser.specs.Views.{item_read, alias_read};

    ghost Said = { Named × Option (List ℕ) };

    ghost said = { λ x. (item_read x.0, alias_read x.1) };

    ghost one_at = { item_at most_open };

    #[tactic(auto, unfolding(query_grammar::specs::Whole::item_at))]
    fn read<'a>(alloc: Global, tokens: &'a [Token]) -> Read<'a, (Item<String>, Option<String>)> {
        let (value, rest) = item_value(alloc, tokens)?;
        let (alias, rest) = alias(alloc, rest)?;
        Ok(((value, alias), rest))
    }

    ghost stays = { items_stay most_open };
}

/// The name of a column.
impl Listed for String {
    ghost use Rattle.std.specs.Prelude.{ℕ, List, string_bytes, length, ◌<◌};
    ghost use Rattle.query_grammar.specs.Reading.{name_at};
    ghost use Rattle.query_grammar.specs.Lemmas.Whole_locality.{names_stay};

    ghost Said = { List ℕ };

    ghost said = { string_bytes };

    ghost one_at = { name_at };

    fn read<'a>(alloc: Global, tokens: &'a [Token]) -> Read<'a, String> {
        name(alloc, tokens)
    }

    ghost stays = { names_stay };
}

/// The columns of GROUP BY, or none.
#[tactic(auto, unfolding(query_grammar::specs::Whole::keys_at))]
fn keys<'a>(alloc: Global, tokens: &'a [Token]) -> Read<'a, Vec<String>>
    ensures { Gives (λ x. (map string_bytes x.0.items, lexemes x.1.now)) result
        (keys_at (lexemes tokens.now)) }
{
    match after_word(tokens, "group") {
        Some(behind) => {
            let behind = expect_word(behind, "by")?;
            list(alloc, behind)
        }
        None => Ok((Vec::new(alloc), tokens)),
    }
}

/// A condition after this key word, or none.
#[tactic(auto, unfolding(query_grammar::specs::Whole::clause_at))]
fn clause<'a>(alloc: Global, word: &str, tokens: &'a [Token]) -> Read<'a, Option<Cond<String>>>
    ensures { Gives (λ x. (option_map condition_read x.0, lexemes x.1.now)) result
        (clause_at most_open word.now (lexemes tokens.now)) }
{
    match after_word(tokens, word) {
        Some(behind) => {
            let (found, rest) = condition(alloc, MAX_OPEN, behind)?;
            Ok((Some(found), rest))
        }
        None => Ok((None, tokens)),
    }
}

/// The end of a query: a semicolon or none, and no more tokens.
#[tactic(auto, unfolding(query_grammar::specs::Whole::end_at))]
fn end(tokens: &[Token]) -> Result<(), ReadError>
    ensures { Gives (λ _. (tt, [])) result (end_at (lexemes tokens.now)) }
{
    let rest = match after_symbol(tokens, Symbol::Semicolon) {
        Some(behind) => behind,
        None => tokens,
    };
    match rest {
        [] => Ok(()),
        _ => Err(ReadError::Unexpected(rest.len())),
    }
}

/// The query of tokens, all of them. It takes time linear in their number, and calls itself as deep as parentheses
/// and FILTERs are nested.
#[tactic(auto, unfolding(query_grammar::specs::Whole::query_at, query_grammar::specs::Arrangement::arrangement_at))]
pub(crate) fn query(alloc: Global, tokens: &[Token]) -> Result<RawQuery, ReadError>
    ensures { Gives (λ q. (asked_of q, [])) result (query_at most_open (lexemes tokens.now)) }
{
    let rest = expect_word(tokens, "select")?;
    let (items, rest) = list(alloc, rest)?;
    let rest = expect_word(rest, "from")?;
    let rest = expect_word(rest, "batches")?;
    let (condition, rest) = clause(alloc, "where", rest)?;
    let (keys, rest) = keys(alloc, rest)?;
    let (having, rest) = clause(alloc, "having", rest)?;
    let (order, rest) = order(alloc, rest)?;
    end(rest)?;
    Ok(RawQuery {
        items,
        condition,
        keys,
        having,
        order,
    })
}
