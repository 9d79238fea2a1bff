//! Why a text is not a schema.

use crate::places::{Lexed, Sign, piece_at, sign_of};
use crate::syntax::say_found;
use grouping_model::limits::{MAX_COLUMNS, MAX_QUERY_LEN};
use packed_rows::ValueKind;
use query_tokens::{Symbol, Token, is_reserved};
use sentences::{Reason, Said};
use std::alloc::{AllocError, Global};

/// The kinds, as a sentence lists them.
const KINDS: &str = "the kinds are bigint (or int8), boolean (or bool) and text";

/// What to use for a number with a fraction.
const FRACTIONS: &str = "there are no fractions: use a bigint, of cents";

/// What to use for a date or a time.
const DAYS: &str = "use text: dates sort as text, as 2024-02-29";

/// Other words for kinds, and what to use instead.
const OTHER_KINDS: [(&str, &str); 27] = [
    ("int", "use bigint"),
    ("int2", "use bigint"),
    ("int4", "use bigint"),
    ("integer", "use bigint"),
    ("smallint", "use bigint"),
    ("serial", "use bigint"),
    ("bigserial", "use bigint"),
    ("number", "use bigint"),
    ("decimal", FRACTIONS),
    ("numeric", FRACTIONS),
    ("float", FRACTIONS),
    ("float4", FRACTIONS),
    ("float8", FRACTIONS),
    ("double", FRACTIONS),
    ("real", FRACTIONS),
    ("money", FRACTIONS),
    ("varchar", "use text"),
    ("char", "use text"),
    ("character", "use text"),
    ("string", "use text"),
    ("uuid", "use text"),
    ("date", DAYS),
    ("time", DAYS),
    ("timestamp", DAYS),
    ("timestamptz", DAYS),
    ("datetime", DAYS),
    ("logical", "use boolean"),
];

/// What to use for a word that is not a kind.
fn kind_for(word: &str) -> Option<&'static str> {
    for (other, said) in &OTHER_KINDS {
        if word == *other {
            return Some(*said);
        }
    }
    None
}

/// What comes next in a schema.
#[derive(Clone, Copy)]
enum Next {
    /// A column's name.
    Name,
    /// Its kind.
    Kind,
    /// A comma, or the end.
    Comma,
}

impl Next {
    /// What is expected.
    fn wanted(self) -> &'static str {
        match self {
            Next::Name => "a column name",
            Next::Kind => "bigint, boolean or text",
            Next::Comma => "a comma or the end",
        }
    }
}

/// The columns of a text so far.
#[derive(Drop)]
struct Columns<'t> {
    names: Vec<&'t str>,
    next: Next,
}

impl<'t> Columns<'t> {
    /// Says what is wrong with a name, if something is.
    fn say_name(&self, said: &mut Said, name: &str) {
        let column = self.names.len().saturating_add(1);
        let shown = name.as_bytes();
        if self.names.len() >= MAX_COLUMNS {
            said.count("column ", column);
            said.quoted(", ", shown);
            said.count(": a schema has at most ", MAX_COLUMNS);
            said.push_str(" columns");
        } else if is_reserved(name) {
            said.count("column ", column);
            said.quoted(": ", shown);
            said.push_str(" is a reserved word: choose another name");
        } else if self.names.iter().any(|other| *other == name) {
            said.count("column ", column);
            said.quoted(": an earlier column is named ", shown);
            said.push_str(", too");
        }
    }

    /// Says what is wrong with a kind, if something is.
    fn say_kind(&self, said: &mut Said, word: &str) {
        if ValueKind::named(word).is_some() {
            return;
        }
        let column = self.names.len();
        let name = self.names.last().copied().unwrap_or("");
        let shown = word.as_bytes();
        said.count("column ", column);
        said.text(", ", name);
        said.quoted(": ", shown);
        said.text(" is not a kind: ", KINDS);
        said.push_aside(kind_for(word));
    }

    /// Goes past a token, or says what is wrong with it.
    fn step(&mut self, said: &mut Said, text: &str, token: &'t Token) -> Result<(), AllocError> {
        match (self.next, sign_of(token)) {
            (Next::Name, Sign::Name(name)) => {
                self.say_name(said, name);
                self.names.push(name)?;
                self.next = Next::Kind;
            }
            (Next::Kind, Sign::Name(word)) => {
                self.say_kind(said, word);
                self.next = Next::Comma;
            }
            (Next::Comma, Sign::Symbol(Symbol::Comma)) => self.next = Next::Name,
            (next, _) => say_unexpected(said, text, token.at, next),
        }
        Ok(())
    }

    /// Goes past tokens up to the first that is wrong, and says what is: where it stands, if there is one.
    fn pass(
        &mut self,
        said: &mut Said,
        text: &str,
        tokens: &'t [Token],
    ) -> Result<Option<usize>, AllocError> {
        for token in tokens {
            self.step(said, text, token)?;
            if !said.is_silent() {
                return Ok(Some(token.at));
            }
        }
        Ok(None)
    }
}

/// Says what was found at a place, and what was expected.
fn say_unexpected(said: &mut Said, text: &str, at: usize, next: Next) {
    let wanted = next.wanted();
    say_found(said, piece_at(text, at));
    said.text(", expected ", wanted);
}

/// Says which column of a text fails, and why: where that is.
fn say_lexed(
    alloc: Global,
    said: &mut Said,
    text: &str,
    lexed: &Lexed,
) -> Result<usize, AllocError> {
    let mut columns = Columns {
        names: Vec::new(alloc),
        next: Next::Name,
    };
    if let Some(at) = columns.pass(said, text, &lexed.tokens)? {
        return Ok(at);
    }
    let at = lexed.fault.or(lexed.large).unwrap_or(text.len());
    say_unexpected(said, text, at, columns.next);
    Ok(at)
}

/// Says why a text is not a schema: where, if not as a whole.
fn say_text(alloc: Global, said: &mut Said, text: &str) -> Result<Option<usize>, AllocError> {
    let len = text.len();
    if len > MAX_QUERY_LEN {
        said.count("the text of ", len);
        said.count(" bytes is not a schema of 1 to ", MAX_COLUMNS);
        said.push_str(" columns");
        return Ok(None);
    }
    let lexed = Lexed::of(alloc, text)?;
    let place = say_lexed(alloc, said, text, &lexed);
    drop(lexed);
    Ok(Some(place?))
}

/// Says why a text is not a schema: which column fails, and why.
pub fn say_schema(alloc: Global, text: &str) -> Result<Reason, AllocError> {
    let mut said = Said::new(alloc);
    let place = say_text(alloc, &mut said, text)?;
    Reason::of(alloc, said, text, place)
}
