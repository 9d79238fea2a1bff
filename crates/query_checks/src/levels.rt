//! How tightly conditions bind: OR least tightly, and an operand most tightly (PostgreSQL 17, 4.1.6 Operator Precedence; that
//! IS binds less tightly than a comparison is our own).

ghost use Rattle.std.specs.Prelude.{◌<◌, ℕ, Bool, List};
ghost use Rattle.grouping_model.specs.Condition.{Comparison, Test};
ghost use Rattle.grouping_model.specs.Datum.{Datum};
ghost use Rattle.query_checks.specs.Forms.{Conjunction, Disjunction, Negation, Testing, Comparing, Literal};
ghost use Rattle.query_checks.specs.Spelling.{binary_level, unary_level, level};

pub(crate) const OR: u64 = 1;

pub(crate) const AND: u64 = 2;

pub(crate) const NOT: u64 = 3;

pub(crate) const IS: u64 = 4;

pub(crate) const COMPARISON: u64 = 5;

pub(crate) const OPERAND: u64 = 6;

/// The order of binding: OR, AND, NOT, the IS tests, the comparisons, and an operand, each more tightly than the one before.
#[tactic(auto)]
pub fn precedence()
    ensures and { binary_level Disjunction < binary_level Conjunction }
    ensures not { binary_level Conjunction < unary_level Negation }
    ensures is { (test : Test) (negated : Bool) → unary_level Negation < unary_level (Testing test negated) }
    ensures comparison { (test : Test) (negated : Bool) (comparison : Comparison) →
        unary_level (Testing test negated) < binary_level (Comparing comparison) }
    ensures operand { (comparison : Comparison) (value : Datum) →
        binary_level (Comparing comparison) < level {C = List ℕ} (Literal value) }
{}
