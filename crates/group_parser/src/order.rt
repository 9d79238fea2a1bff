//! Reading ORDER BY.

ghost use Rattle.std.specs.Prelude.{◌≡◌, ◌<◌, ◌≤◌, map, length, IfOk, Ok};
ghost use Rattle.query_checks.specs.Order.{target_of, term_of};
ghost use Rattle.query_grammar.specs.Arrangement.{target_at, direction_at, first_or_last, nulls_at, order_at};
ghost use Rattle.group_parser.specs.Views.{lexemes, Gives};

use crate::cursor::{after_word, expect_word};
use crate::fault::{Read, ReadError};
use crate::lists::{Listed, list};
use having_filter::{OrderBy, RawTerm};
use query_tokens::{Token, Word, is_reserved};
use std::alloc::Global;

/// The name or the place of an item.
#[tactic(auto, unfolding(query_grammar::specs::Arrangement::target_at))]
fn target<'a>(alloc: Global, tokens: &'a [Token]) -> Read<'a, OrderBy>
    ensures read { Gives (λ x. (target_of x.0, lexemes x.1.now)) result
        (target_at (lexemes tokens.now)) }
    ensures shorter { IfOk result (λ x. length x.1.now < length tokens.now) }
{
    match tokens {
        [first, rest @ ..] => match &first.word {
            Word::Name(name) => {
                if is_reserved(name.as_str()) {
                    return Err(ReadError::Unexpected(tokens.len()));
                }
                Ok((OrderBy::Name(String::from_str(alloc, name.as_str())?), rest))
            }
            Word::Integer(place) => Ok((OrderBy::Place(*place), rest)),
            _ => Err(ReadError::Unexpected(tokens.len())),
        },
        _ => Err(ReadError::Unexpected(tokens.len())),
    }
}

/// Whether DESC stands here, or else ASC or nothing.
#[tactic(auto, unfolding(query_grammar::specs::Arrangement::direction_at))]
fn direction(tokens: &[Token]) -> (bool, &[Token])
    ensures read { direction_at (lexemes tokens.now) ≡ Ok (result.0, lexemes result.1.now) }
    ensures shorter { length result.1.now ≤ length tokens.now }
{
    if let Some(rest) = after_word(tokens, "desc") {
        return (true, rest);
    }
    if let Some(rest) = after_word(tokens, "asc") {
        return (false, rest);
    }
    (false, tokens)
}

/// What stands after NULLS: whether they come first.
#[tactic(auto, unfolding(query_grammar::specs::Arrangement::first_or_last))]
fn first_or_last(tokens: &[Token]) -> Read<'_, Option<bool>>
    ensures read { Gives (λ x. (x.0, lexemes x.1.now)) result (first_or_last (lexemes tokens.now)) }
    ensures shorter { IfOk result (λ x. length x.1.now < length tokens.now) }
{
    if let Some(rest) = after_word(tokens, "first") {
        return Ok((Some(true), rest));
    }
    if let Some(rest) = after_word(tokens, "last") {
        return Ok((Some(false), rest));
    }
    Err(ReadError::Unexpected(tokens.len()))
}

/// Whether nulls come first, if the term has NULLS.
#[tactic(auto, unfolding(query_grammar::specs::Arrangement::nulls_at))]
fn nulls(tokens: &[Token]) -> Read<'_, Option<bool>>
    ensures read { Gives (λ x. (x.0, lexemes x.1.now)) result (nulls_at (lexemes tokens.now)) }
    ensures shorter { IfOk result (λ x. length x.1.now ≤ length tokens.now) }
{
    match after_word(tokens, "nulls") {
        Some(behind) => first_or_last(behind),
        None => Ok((None, tokens)),
    }
}

/// A term of ORDER BY.
impl Listed for RawTerm {
    ghost use Rattle.std.specs.Prelude.{length, ◌<◌};
    ghost use Rattle.query_checks.specs.Order.{Term, term_of};
    ghost use Rattle.query_grammar.specs.Arrangement.{term_at};
    ghost use Rattle.query_grammar.specs.Lemmas.Whole_locality.{terms_stay};

    ghost Said = { Term };

    ghost said = { term_of };

    ghost one_at = { term_at };

    #[tactic(auto, unfolding(query_grammar::specs::Arrangement::term_at))]
    fn read<'a>(alloc: Global, tokens: &'a [Token]) -> Read<'a, RawTerm> {
        let (target, rest) = target(alloc, tokens)?;
        let (descending, rest) = direction(rest);
        let (nulls_first, rest) = nulls(rest)?;
        Ok((
            RawTerm {
                target,
                descending,
                nulls_first,
            },
            rest,
        ))
    }

    ghost stays = { terms_stay };
}

/// The terms of ORDER BY, or none.
#[tactic(auto, unfolding(query_grammar::specs::Arrangement::order_at))]
pub(crate) fn order<'a>(alloc: Global, tokens: &'a [Token]) -> Read<'a, Vec<RawTerm>>
    ensures { Gives (λ x. (map term_of x.0.items, lexemes x.1.now)) result
        (order_at (lexemes tokens.now)) }
{
    match after_word(tokens, "order") {
        Some(behind) => {
            let behind = expect_word(behind, "by")?;
            list(alloc, behind)
        }
        None => Ok((Vec::new(alloc), tokens)),
    }
}
