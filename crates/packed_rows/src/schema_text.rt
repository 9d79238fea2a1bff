//! Reading the text of a schema.

ghost use Rattle.std.specs.Prelude.{◌≡◌, ◌++◌, ◌∷◌, [], ◌≢◌, List, ℕ, Ok, IfOk, IfErr, IfSome, IfNone, OnOk, OnErr, None};
ghost use Rattle.std.specs.List.{AllByRecursion, IsDistinct};
ghost use Rattle.std.specs.Str.{bytes_eq};
ghost use Rattle.query_tokens.specs.declared.word.Symbol.TheVariants.{Comma};
ghost use Rattle.query_tokens.specs.Words.{Lexeme, Name, Sign, all_placed};
ghost use Rattle.query_tokens.specs.Tokens.{tokens_in};
ghost use Rattle.query_tokens.specs.Spelling.{IsLexeme, lexemes_of};
ghost use Rattle.packed_rows.specs.View.{kind_of};
ghost use Rattle.packed_rows.specs.Columns.{Column, columns_of, names, AreColumns, Describes, BeginsWithColumn};
ghost use Rattle.packed_rows.specs.Refusal.{AddFault, ParseFault, ReadFault};

use crate::error::RowError;
use crate::value::ValueKind;
use grouping_model::limits::MAX_COLUMNS;
use indexmap::IndexMap;
use query_tokens::{Symbol, Token, TokenError, Word, is_reserved, tokens_up_to};
use std::alloc::Global;

/// The kinds of columns by their names, in the columns' order.
pub(crate) type Columns = IndexMap<String, ValueKind>;

/// The most tokens that the text of a schema has: for each column a name, a kind and a comma.
const MAX_TOKENS: usize = 3 * MAX_COLUMNS;

/// The tokens of a text. One with more tokens than a schema has is read no further.
pub(crate) fn read_tokens(alloc: Global, text: &str) -> Result<Vec<Token>, RowError>
    ensures read { IfOk result (λ found. tokens_in text.now ≡ Ok (all_placed found.items)) }
    ensures refused { IfErr result (ParseFault text.now) }
{
    match tokens_up_to(alloc, text, MAX_TOKENS) {
        Ok(Some(found)) => Ok(found),
        Ok(None) => Err(RowError::BadSchema),
        Err(TokenError::NoMemory) => Err(RowError::NoMemory),
        Err(TokenError::Fault(_)) => Err(RowError::BadSchema),
    }
}

/// The name that tokens begin with, and the tokens after it.
fn name_at(tokens: &[Token]) -> Option<(&str, &[Token])>
    ensures found { IfSome result (λ x. lexemes_of (all_placed tokens.now)
        ≡ Name x.0.now ∷ lexemes_of (all_placed x.1.now)) }
    ensures none { IfNone result ((name : List ℕ) (rest : List Lexeme) →
        lexemes_of (all_placed tokens.now) ≢ Name name ∷ rest) }
{
    match tokens {
        [first, rest @ ..] => match &first.word {
            Word::Name(name) => Some((name.as_str(), rest)),
            _ => None,
        },
        _ => None,
    }
}

/// The name and the kind that tokens begin with, and the tokens after them.
fn column_at(tokens: &[Token]) -> Option<(&str, ValueKind, &[Token])>
    ensures found { IfSome result (λ x. BeginsWithColumn (lexemes_of (all_placed tokens.now))
        x.0.now (kind_of x.1) (lexemes_of (all_placed x.2.now))) }
    ensures none { IfNone result ((columns : List Column) →
        ¬ (Describes (lexemes_of (all_placed tokens.now)) columns)) }
{
    let (name, behind) = name_at(tokens)?;
    let (word, rest) = name_at(behind)?;
    let kind = ValueKind::named(word)?;
    Some((name, kind, rest))
}

/// The tokens after a comma.
fn after_comma(tokens: &[Token]) -> Option<&[Token]>
    ensures found { IfSome result (λ rest. lexemes_of (all_placed tokens.now)
        ≡ Sign Comma ∷ lexemes_of (all_placed rest.now)) }
    ensures none { IfNone result ((rest : List Lexeme) →
        lexemes_of (all_placed tokens.now) ≢ Sign Comma ∷ rest) }
{
    match tokens {
        [first, rest @ ..] => match &first.word {
            Word::Symbol(Symbol::Comma) => Some(rest),
            _ => None,
        },
        _ => None,
    }
}

/// Adds a column after the others. It is refused where there are 32 columns, or one of this name, or where the name
/// is a reserved word.
fn add_column(
    alloc: Global,
    columns: &mut Columns,
    name: &str,
    kind: ValueKind,
) -> Result<(), RowError>
    ensures added { OnOk result (columns_of columns.new.entries
        ≡ columns_of columns.old.entries ++ record { name = name.now; kind = kind_of kind } ∷ []) }
    ensures right { OnOk result (¬ (AddFault name.now (columns_of columns.old.entries)
        RowError.BadSchema)) }
    ensures distinct { OnOk result (IsDistinct bytes_eq (names (columns_of columns.new.entries))) }
    ensures refused { IfErr result (AddFault name.now (columns_of columns.old.entries)) }
{
    if columns.len() == MAX_COLUMNS || columns.contains_key(name) || is_reserved(name) {
        return Err(RowError::BadSchema);
    }
    columns.insert(String::from_str(alloc, name)?, kind)?;
    Ok(())
}

/// The columns that tokens describe.
pub(crate) fn read_columns(alloc: Global, tokens: &[Token]) -> Result<Columns, RowError>
    requires { AllByRecursion IsLexeme (lexemes_of (all_placed tokens.now)) }
    ensures described { IfOk result (λ columns. Describes (lexemes_of (all_placed tokens.now))
        (columns_of columns.entries)) }
    ensures are { IfOk result (λ columns. AreColumns (columns_of columns.entries)) }
    ensures refused { IfErr result (ReadFault (lexemes_of (all_placed tokens.now))) }
{
    let mut columns = IndexMap::new(alloc);
    let mut rest = tokens;
    loop {
        let Some((name, kind, after)) = column_at(rest) else {
            return Err(RowError::BadSchema);
        };
        add_column(alloc, &mut columns, name, kind)?;
        if after.is_empty() {
            return Ok(columns);
        }
        let Some(more) = after_comma(after) else {
            return Err(RowError::BadSchema);
        };
        rest = more;
    }
}
