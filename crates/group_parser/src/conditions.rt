//! Conditions, from the operators that bind the least to those that bind the most.

ghost use Rattle.std.specs.Prelude.{◌≡◌, ◌<◌, ◌≤◌, IfOk, length, ℕ};
ghost use Rattle.query_grammar.specs.Grammar.{Named};
ghost use Rattle.query_grammar.specs.Queries.{most_open};
ghost use Rattle.query_grammar.specs.Reading.{cmp_at, test_behind, tested, test_at, not_at, and_at, condition_at, conditions};
ghost use Rattle.query_checks.specs.Forms as form;
ghost use Rattle.query_checks.specs.Operators.{comparison_of, test_of};
ghost use Rattle.group_parser.specs.Views.{lexemes, condition_read, test_form, Gives};
ghost use Rattle.group_parser.specs.Nots.{nots, negated};

use crate::cursor::{after_comparison, after_word, looked_for};
use crate::fault::Read;
use crate::operands::operand;
use having_filter::{Comparison, Cond, IsTest};
use query_tokens::Token;
use std::alloc::{AllocError, Global};

/// A comparison of two operands.
fn compared(
    alloc: Global,
    comparison: Comparison,
    left: Cond<String>,
    right: Cond<String>,
) -> Result<Cond<String>, AllocError>
    ensures { IfOk result (λ c. condition_read c
        ≡ form.Compare (comparison_of comparison) (condition_read left) (condition_read right)) }
{
    Ok(Cond::Compare(comparison, Box::new(alloc, left)?, Box::new(alloc, right)?))
}

/// An IS test of an operand, or an IS NOT test.
fn tested(
    alloc: Global,
    test: IsTest,
    negated: bool,
    operand: Cond<String>,
) -> Result<Cond<String>, AllocError>
    ensures { IfOk result (λ c.
        condition_read c ≡ test_form (test_of test) negated (condition_read operand)) }
{
    let operand = Box::new(alloc, operand)?;
    Ok(Cond::Is {
        test,
        negated,
        operand,
    })
}

/// Two conditions, both of which are to be true.
fn both(alloc: Global, left: Cond<String>, right: Cond<String>) -> Result<Cond<String>, AllocError>
    ensures { IfOk result (λ c.
        condition_read c ≡ form.And (condition_read left) (condition_read right)) }
{
    Ok(Cond::And(Box::new(alloc, left)?, Box::new(alloc, right)?))
}

/// Two conditions, one of which is to be true.
fn either(
    alloc: Global,
    left: Cond<String>,
    right: Cond<String>,
) -> Result<Cond<String>, AllocError>
    ensures { IfOk result (λ c.
        condition_read c ≡ form.Or (condition_read left) (condition_read right)) }
{
    Ok(Cond::Or(Box::new(alloc, left)?, Box::new(alloc, right)?))
}

/// An operand, or a comparison of two.
#[cycle(conditions)]
#[tactic(auto, unfolding(query_grammar::specs::Reading::cmp_at))]
fn comparison<'a>(alloc: Global, room: usize, tokens: &'a [Token]) -> Read<'a, Cond<String>>
    ensures read { Gives (λ x. (condition_read x.0, lexemes x.1.now)) result
        (cmp_at (conditions most_open) room (lexemes tokens.now)) }
    ensures shorter { IfOk result (λ x. length x.1.now < length tokens.now) }
{
    let (left, rest) = operand(alloc, room, tokens)?;
    let Some((comparison, behind)) = after_comparison(rest) else {
        return Ok((left, rest));
    };
    let (right, rest) = operand(alloc, room, behind)?;
    Ok((compared(alloc, comparison, left, right)?, rest))
}

/// Whether NOT stands behind an IS, and the tokens behind it.
#[tactic(auto, unfolding(query_grammar::specs::Reading::tested))]
fn is_not(tokens: &[Token]) -> (bool, &[Token])
    ensures read { (operand : Named) → tested operand (lexemes tokens.now)
        ≡ test_behind result.0 operand (lexemes result.1.now) }
    ensures shorter { length result.1.now ≤ length tokens.now }
{
    match after_word(tokens, "not") {
        Some(behind) => (true, behind),
        None => (false, tokens),
    }
}

/// A comparison, with any number of IS tests behind it.
#[cycle(conditions)]
fn test<'a>(alloc: Global, room: usize, tokens: &'a [Token]) -> Read<'a, Cond<String>>
    ensures read { Gives (λ x. (condition_read x.0, lexemes x.1.now)) result
        (test_at (conditions most_open) room (lexemes tokens.now)) }
    ensures shorter { IfOk result (λ x. length x.1.now < length tokens.now) }
{
    let (mut read, mut rest) = comparison(alloc, room, tokens)?;
    while let Some(behind) = after_word(rest, "is") {
        let (negated, behind) = is_not(behind);
        let (test, next) = looked_for(behind)?;
        read = tested(alloc, test, negated, read)?;
        rest = next;
    }
    Ok((read, rest))
}

/// How many NOTs stand at the front, and the tokens after them.
fn count_nots(tokens: &[Token]) -> (usize, &[Token])
    ensures counted { (room : ℕ) → not_at (conditions most_open) room (lexemes tokens.now)
        ≡ nots result.0 (test_at (conditions most_open) room (lexemes result.1.now)) }
    ensures shorter { length result.1.now ≤ length tokens.now }
{
    let mut count = 0;
    let mut rest = tokens;
    while let Some(behind) = after_word(rest, "not") {
        count += 1;
        rest = behind;
    }
    (count, rest)
}

/// A condition after this many NOTs.
#[tactic(auto, using(crate::proofs::Readers::one_more_negated))]
fn negated(alloc: Global, count: usize, operand: Cond<String>) -> Result<Cond<String>, AllocError>
    ensures { IfOk result (λ c. condition_read c ≡ negated count (condition_read operand)) }
{
    let mut negated = operand;
    for _ in 0..count {
        negated = Cond::Not(Box::new(alloc, negated)?);
    }
    Ok(negated)
}

/// A test, with any number of NOTs before it.
#[cycle(conditions)]
fn negation<'a>(alloc: Global, room: usize, tokens: &'a [Token]) -> Read<'a, Cond<String>>
    ensures read { Gives (λ x. (condition_read x.0, lexemes x.1.now)) result
        (not_at (conditions most_open) room (lexemes tokens.now)) }
    ensures shorter { IfOk result (λ x. length x.1.now < length tokens.now) }
{
    let (count, behind) = count_nots(tokens);
    let (read, rest) = test(alloc, room, behind)?;
    Ok((negated(alloc, count, read)?, rest))
}

/// Any number of conditions between ANDs, grouped to the left.
#[cycle(conditions)]
fn conjunction<'a>(alloc: Global, room: usize, tokens: &'a [Token]) -> Read<'a, Cond<String>>
    ensures read { Gives (λ x. (condition_read x.0, lexemes x.1.now)) result
        (and_at (conditions most_open) room (lexemes tokens.now)) }
    ensures shorter { IfOk result (λ x. length x.1.now < length tokens.now) }
{
    let (mut read, mut rest) = negation(alloc, room, tokens)?;
    while let Some(behind) = after_word(rest, "and") {
        let (right, next) = negation(alloc, room, behind)?;
        read = both(alloc, read, right)?;
        rest = next;
    }
    Ok((read, rest))
}

/// A condition, in which so many more parentheses may be opened: any number of conditions between ORs, grouped to the
/// left. How deep it calls itself is bounded by the parentheses and by the FILTERs that stand in one another.
#[cycle(conditions)]
pub(crate) fn condition<'a>(
    alloc: Global,
    room: usize,
    tokens: &'a [Token],
) -> Read<'a, Cond<String>>
    ensures read { Gives (λ x. (condition_read x.0, lexemes x.1.now)) result
        (condition_at most_open room (lexemes tokens.now)) }
    ensures shorter { IfOk result (λ x. length x.1.now < length tokens.now) }
{
    let (mut read, mut rest) = conjunction(alloc, room, tokens)?;
    while let Some(behind) = after_word(rest, "or") {
        let (right, next) = conjunction(alloc, room, behind)?;
        read = either(alloc, read, right)?;
        rest = next;
    }
    Ok((read, rest))
}
