//! Kinds that don't fit, and what asks for a truth value.

use agg_protocol::{AggKind, Argument};
use packed_rows::ValueKind;
use sentences::Said;

/// What asks for a truth value.
#[derive(Clone, Copy)]
pub(crate) enum Asker {
    Not,
    And,
    Or,
    Is,
    Where,
    Having,
    Filter,
}

impl Asker {
    /// Its words.
    pub(crate) fn words(self) -> &'static str {
        match self {
            Asker::Not => "NOT",
            Asker::And => "AND",
            Asker::Or => "OR",
            Asker::Is => "IS",
            Asker::Where => "WHERE",
            Asker::Having => "HAVING",
            Asker::Filter => "FILTER",
        }
    }
}

/// Kinds that don't fit.
#[derive(Clone, Copy)]
pub(crate) enum Clash {
    /// Two kinds that are compared.
    Compared(ValueKind, ValueKind),
    /// A kind in the place of a truth value.
    Asked(Asker, ValueKind),
    /// A function, and the kind of its column.
    Argument(AggKind, ValueKind),
}

/// The kind that a function takes, in words.
fn taken(kind: AggKind) -> &'static str {
    match kind.argument() {
        Argument::EachRow | Argument::AnyValue => "any kind",
        Argument::ValuesOf(ValueKind::Bigint) => "a bigint",
        Argument::ValuesOf(ValueKind::Boolean) => "a boolean",
        Argument::ValuesOf(ValueKind::Text) => "a text",
    }
}

impl Clash {
    /// Says it.
    pub(crate) fn say(self, said: &mut Said) {
        match self {
            Clash::Compared(left, right) => {
                let (left, right) = (left.as_str(), right.as_str());
                said.text("a ", left);
                said.text(" is compared with a ", right);
                said.push_str(": both sides must be of one kind");
            }
            Clash::Asked(asker, kind) => {
                let (words, kind) = (asker.words(), kind.as_str());
                said.push_str(words);
                said.text(" takes a boolean, not a ", kind);
            }
            Clash::Argument(function, kind) => {
                let (name, taken, kind) = (function.name(), taken(function), kind.as_str());
                said.push_str(name);
                said.text(" takes ", taken);
                said.text(", not a ", kind);
            }
        }
    }
}
