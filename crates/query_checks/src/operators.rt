//! The comparisons and the IS tests: how each is written, named and told apart, and of what order a comparison is true.

ghost use Rattle.std.specs.Prelude.{◌≡◌, option_map};
ghost use Rattle.grouping_model.specs.Condition.{holds_of};
ghost use Rattle.query_checks.specs.Operators.{comparison_of, comparison_text, comparison_named, test_of, test_text};

use query_tokens::Symbol;
use std::cmp::Ordering;

/// How two values are compared (PostgreSQL 17, Table 9.1).
#[derive(Clone, Copy, Debug, PartialEq, Eq)]
pub enum Comparison {
    /// `=`
    Equal,
    /// `<>`
    Unequal,
    /// `<`
    Less,
    /// `<=`
    AtMost,
    /// `>`
    More,
    /// `>=`
    AtLeast,
}

impl Comparison {
    /// The comparison that a symbol stands for.
    #[tactic(auto, unfolding(crate::specs::Operators::comparison_named))]
    pub fn named(symbol: Symbol) -> Option<Comparison>
        ensures { option_map comparison_of result ≡ comparison_named symbol }
    {
        match symbol {
            Symbol::Equal => Some(Comparison::Equal),
            Symbol::Unequal => Some(Comparison::Unequal),
            Symbol::Less => Some(Comparison::Less),
            Symbol::AtMost => Some(Comparison::AtMost),
            Symbol::More => Some(Comparison::More),
            Symbol::AtLeast => Some(Comparison::AtLeast),
            _ => None,
        }
    }

    /// What stands between its operands.
    pub(crate) fn text(self) -> &'static str
        ensures { result.now ≡ comparison_text (comparison_of self) }
    {
        match self {
            Comparison::Equal => " = ",
            Comparison::Unequal => " <> ",
            Comparison::Less => " < ",
            Comparison::AtMost => " <= ",
            Comparison::More => " > ",
            Comparison::AtLeast => " >= ",
        }
    }

    /// Whether it is true of an order.
    pub fn holds(self, order: Ordering) -> bool
        ensures { result ≡ holds_of (comparison_of self) order }
    {
        match self {
            Comparison::Equal => order.is_eq(),
            Comparison::Unequal => order.is_ne(),
            Comparison::Less => order.is_lt(),
            Comparison::AtMost => order.is_le(),
            Comparison::More => order.is_gt(),
            Comparison::AtLeast => order.is_ge(),
        }
    }
}

/// What an IS test looks for (PostgreSQL 17, Table 9.2).
#[derive(Clone, Copy, Debug, PartialEq, Eq)]
pub enum IsTest {
    /// `IS NULL`
    IsNull,
    /// `IS TRUE`
    IsTrue,
    /// `IS FALSE`
    IsFalse,
    /// `IS UNKNOWN`
    IsUnknown,
}

impl IsTest {
    /// What stands after IS.
    pub(crate) fn text(self) -> &'static str
        ensures { result.now ≡ test_text (test_of self) }
    {
        match self {
            IsTest::IsNull => "NULL",
            IsTest::IsTrue => "TRUE",
            IsTest::IsFalse => "FALSE",
            IsTest::IsUnknown => "UNKNOWN",
        }
    }
}
