//! Values and their kinds.

ghost use Rattle.std.specs.Prelude.{◌≡◌, option_map};
ghost use Rattle.packed_rows.specs.Columns.{kind_text, kind_named};
ghost use Rattle.packed_rows.specs.View.{kind_of};

/// A value of a row: null, a number, a truth value or a text, which it borrows.
#[derive(Clone, Copy, Debug, PartialEq, Eq)]
pub enum Value<'a> {
    Null,
    Bigint(i64),
    Boolean(bool),
    Text(&'a str),
}

/// The kind of a column.
#[derive(Clone, Copy, Debug, PartialEq, Eq)]
pub enum ValueKind {
    Bigint,
    Boolean,
    Text,
}

impl ValueKind {
    /// The kind that a word in lower case names: `bigint` or `int8`, `boolean` or `bool`, `text`.
    #[tactic(auto, unfolding(crate::specs::Columns::kind_named))]
    pub fn named(word: &str) -> Option<ValueKind>
        ensures { option_map kind_of result ≡ kind_named word.now }
    {
        match word {
            "bigint" | "int8" => Some(ValueKind::Bigint),
            "boolean" | "bool" => Some(ValueKind::Boolean),
            "text" => Some(ValueKind::Text),
            _ => None,
        }
    }

    /// The kind's name.
    pub fn as_str(self) -> &'static str
        ensures { result.now ≡ kind_text (kind_of self) }
    {
        match self {
            ValueKind::Bigint => "bigint",
            ValueKind::Boolean => "boolean",
            ValueKind::Text => "text",
        }
    }
}
