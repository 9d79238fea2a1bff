//! How far tokens go as a query.

ghost use Rattle.std.specs.Prelude.{◌≡◌, ◌↔◌, ◌++◌, codes, IfOk, IsTrue};
ghost use Rattle.query_grammar.specs.Queries.{most_open};
ghost use Rattle.query_grammar.specs.Whole.{query_at};
ghost use Rattle.group_parser.specs.Views.{lexemes};
ghost use Rattle.group_parser.specs.Fronts.{read_of, IsFront, IsLongestFront};

use crate::fault::ReadError;
use crate::query::query;
use query_tokens::{Token, TokenError, tokens};
use std::alloc::{AllocError, Global};

/// How many tokens are read before reading stops.
fn count_read(alloc: Global, tokens: &[Token]) -> Result<usize, AllocError>
    ensures { IfOk result (λ count.
        count ≡ read_of (lexemes tokens.now) (query_at most_open (lexemes tokens.now))) }
{
    match query(alloc, tokens) {
        Ok(_) => Ok(tokens.len()),
        Err(ReadError::NoMemory) => Err(AllocError),
        Err(ReadError::Unexpected(left)) => Ok(tokens.len().saturating_sub(left)),
        Err(ReadError::TooDeep(left)) => Ok(tokens.len().saturating_sub(left)),
    }
}

/// How many of these tokens begin a query, from the left: all, if they are one or more can make them one. It fails only if memory runs out.
#[tactic(auto, using(crate::specs::Lemmas::FrontLaws::longest))]
pub fn count_begun(alloc: Global, tokens: &[Token]) -> Result<usize, AllocError>
    ensures { IfOk result (λ count. IsLongestFront most_open (lexemes tokens.now) count) }
{
    let count = count_read(alloc, tokens)?;
    Ok(count)
}

/// Whether a query begins with the tokens of a text: whether they are one, or more can make them one.
#[tactic(auto, using(crate::proofs::Fronts::is_front, crate::proofs::Fronts::is_begun, crate::proofs::Fronts::is_no_front))]
pub fn begins(alloc: Global, text: &str) -> Result<bool, AllocError>
    ensures { IfOk result (λ begins. IsTrue begins ↔ IsFront text.now) }
{
    match tokens(alloc, text) {
        Ok(found) => Ok(count_begun(alloc, &found)? == found.len()),
        Err(TokenError::NoMemory) => Err(AllocError),
        Err(TokenError::Fault(_)) => Ok(false),
    }
}

/// Whether a query goes on so behind the text of a front.
pub fn goes_on(alloc: Global, front: &str, next: &str) -> Result<bool, AllocError>
    ensures { IfOk result (λ goes_on. IsTrue goes_on ↔ IsFront (front.now ++ codes " " ++ next.now)) }
{
    let mut text = String::from_str(alloc, front)?;
    text.push_str(" ")?;
    text.push_str(next)?;
    begins(alloc, &text)
}
