//! Lists between commas: the items of a query, the columns of GROUP BY, the terms of ORDER BY.

ghost use Rattle.std.specs.Prelude.{◌≡◌, ◌<◌, List, map, length, IfOk};
ghost use Rattle.query_tokens.specs.Words.{Lexeme};
ghost use Rattle.query_grammar.specs.Reading as reading;
ghost use Rattle.query_grammar.specs.Lists.{list_at};
ghost use Rattle.query_grammar.specs.Lemmas.Alike.{Stays};
ghost use Rattle.group_parser.specs.Views.{lexemes, Gives};

use crate::cursor::after_symbol;
use crate::fault::Read;
use query_tokens::{Symbol, Token};
use std::alloc::Global;

/// What stands in a list between commas.
pub(crate) trait Listed: Drop {
    // What the grammar has in its place, and how it reads one.
    ghost Said: { Type 0 };

    ghost said: { Self → Said };

    ghost one_at: { List Lexeme → reading.Read Said };

    /// Reads one from the front.
    fn read<'a>(alloc: Global, tokens: &'a [Token]) -> Read<'a, Self>
        ensures read { Gives (λ x. (said x.0, lexemes x.1.now)) result (one_at (lexemes tokens.now)) }
        ensures shorter { IfOk result (λ x. length x.1.now < length tokens.now) };

    // What is left is never more than there was.
    ghost stays: { Stays one_at };
}

/// One or more of them, separated by commas.
pub(crate) fn list<'a, T: Listed>(alloc: Global, tokens: &'a [Token]) -> Read<'a, Vec<T>>
    ensures read { Gives (λ x. (map T.said x.0.items, lexemes x.1.now)) result
        (list_at T.one_at (length (lexemes tokens.now)) (lexemes tokens.now)) }
    ensures shorter { IfOk result (λ x. length x.1.now < length tokens.now) }
{
    let (first, mut rest) = T::read(alloc, tokens)?;
    let mut found = Vec::new(alloc);
    found.push(first)?;
    while let Some(behind) = after_symbol(rest, Symbol::Comma) {
        let (more, next) = T::read(alloc, behind)?;
        found.push(more)?;
        rest = next;
    }
    Ok((found, rest))
}
