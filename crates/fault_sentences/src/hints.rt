//! What a query cannot have, and what to use instead.

use agg_protocol::{AggKind, Argument};
use packed_rows::ValueKind;
use sentences::Said;

/// What is said of a word or a name.
#[derive(Clone, Copy)]
pub(crate) enum Hint {
    /// A sentence.
    Sentence(&'static str),
    /// Which functions there are, or which take values of a kind.
    Functions(Option<ValueKind>),
}

impl Hint {
    /// Says it.
    pub(crate) fn say(self, said: &mut Said) {
        match self {
            Hint::Sentence(sentence) => said.push_str(sentence),
            Hint::Functions(None) => said.push_str("the functions are "),
            Hint::Functions(Some(kind)) => {
                let kind = kind.as_str();
                said.text("the functions of ", kind);
                said.push_str("s are ");
            }
        }
        if let Hint::Functions(of) = self {
            say_names(said, of);
        }
    }
}

/// Whether a function takes values, of any kind or of this one.
fn takes(function: AggKind, of: Option<ValueKind>) -> bool {
    match (of, function.argument()) {
        (_, Argument::EachRow) => false,
        (None, _) => true,
        (Some(kind), argument) => argument == Argument::ValuesOf(kind),
    }
}

/// Says the names of the functions that take values, of any kind or of this one.
fn say_names(said: &mut Said, of: Option<ValueKind>) {
    let functions = AggKind::ALL.iter().copied();
    let mut left = functions.filter(|function| takes(*function, of)).count();
    let mut before = "";
    for function in AggKind::ALL {
        if takes(function, of) {
            said.push_str(before);
            said.push_str(function.name());
            left = left.saturating_sub(1);
            before = if left == 1 { " and " } else { ", " };
        }
    }
}

/// Words and signs that a query cannot have, and the hint on each.
const WORDS: [(&str, &str); 35] = [
    ("like", "there is no LIKE: compare texts by = <> < <= > >="),
    (
        "ilike",
        "there is no ILIKE: compare texts by = <> < <= > >=",
    ),
    (
        "similar",
        "there is no SIMILAR: compare texts by = <> < <= > >=",
    ),
    ("in", "there is no IN: write x = 1 OR x = 2"),
    ("between", "there is no BETWEEN: write x >= 1 AND x <= 9"),
    (
        "limit",
        "there is no LIMIT: use agg_tool answer .. | head, or drop groups with HAVING",
    ),
    ("offset", "there is no OFFSET: drop groups with HAVING"),
    ("fetch", "there is no FETCH: drop groups with HAVING"),
    ("join", "there are no joins: batches is the only table"),
    ("inner", "there are no joins: batches is the only table"),
    ("left", "there are no joins: batches is the only table"),
    ("cross", "there are no joins: batches is the only table"),
    ("union", "there is no UNION: make a summary for each query"),
    ("over", "there are no window functions"),
    (
        "distinct",
        "there is no DISTINCT: use GROUP BY x, and count the rows of the answer",
    ),
    (
        "case",
        "there is no CASE: FILTER (WHERE ..) selects the rows of a call",
    ),
    (
        "when",
        "there is no CASE: FILTER (WHERE ..) selects the rows of a call",
    ),
    ("cast", "there are no casts: --columns sets the kinds"),
    ("with", "there is no WITH: a query is one SELECT"),
    ("insert", "rows come from batches: use feed"),
    ("::", "there are no casts: --columns sets the kinds"),
    ("||", "texts cannot be concatenated"),
    (
        "+",
        "there is no arithmetic: add a column with the computed value",
    ),
    (
        "-",
        "there is no arithmetic: add a column with the computed value",
    ),
    (
        "/",
        "there is no arithmetic: add a column with the computed value",
    ),
    (
        "%",
        "there is no arithmetic: add a column with the computed value",
    ),
    ("--", "there are no comments"),
    ("#", "there are no comments"),
    (".", "write a column without a table name"),
    (
        "\"",
        "write texts in single quotes, and names without quotes",
    ),
    (
        "`",
        "write texts in single quotes, and names without quotes",
    ),
    ("\u{2018}", "write texts in plain single quotes"),
    ("\u{2019}", "write texts in plain single quotes"),
    ("\u{201c}", "write texts in plain single quotes"),
    ("$1", "there are no parameters"),
];

/// Names of functions that do not exist, and what to use instead.
const FUNCTIONS: [(&str, &str); 5] = [
    ("avg", "there is no avg: select sum and count, and divide"),
    ("coalesce", "there is no coalesce: test with IS NULL"),
    ("median", "there is no median"),
    ("first", "there is no first: use min or max"),
    ("last", "there is no last: use min or max"),
];

/// What is said of a word in a table.
fn said_of(table: &[(&str, &'static str)], word: &str) -> Option<&'static str> {
    for (other, said) in table {
        if word.eq_ignore_ascii_case(other) {
            return Some(*said);
        }
    }
    None
}

/// What is said of a word that a query has no place for.
pub(crate) fn of_word(word: &str) -> Option<&'static str> {
    said_of(&WORDS, word)
}

/// What is said of a name that is no function's.
pub(crate) fn of_function(name: &str) -> Hint {
    match said_of(&FUNCTIONS, name) {
        Some(said) => Hint::Sentence(said),
        None if name.eq_ignore_ascii_case("bool") => Hint::Functions(Some(ValueKind::Boolean)),
        None => Hint::Functions(None),
    }
}

/// What is said of what stands behind a column in the parentheses of a function.
pub(crate) const ARGUMENT: &str =
    "a function takes a column: use FILTER (WHERE ..), or add a boolean column";

/// What is said of the dot of a fraction.
pub(crate) const FRACTION: &str = "there are no fractions: use cents, as 1250 for 12.50";

/// What is said of a place in GROUP BY.
pub(crate) const KEY_PLACE: &str = "GROUP BY takes column names, not places";

/// What is said of a call in ORDER BY.
pub(crate) const CALL_TERM: &str =
    "ORDER BY takes a place, as ORDER BY 2, or the name or alias of an item";

/// What is said of a `*`, in the place of an item or elsewhere.
pub(crate) fn of_star(is_item: bool) -> &'static str {
    if is_item {
        "name the columns of GROUP BY and the calls"
    } else {
        "there is no arithmetic: add a column with the computed value"
    }
}
