//! Three-valued logic, and comparisons of values.

ghost use Rattle.std.specs.Prelude.{◌≡◌};
ghost use Rattle.grouping_model.specs.Condition.{truth, as_outcome, truth_not, truth_and, truth_or, outcome_cmp, compared, passes};
ghost use Rattle.agg_protocol.specs.Results.{outcome_of};
ghost use Rattle.query_checks.specs.Operators.{comparison_of, test_of};
ghost use Rattle.having_filter.specs.Truths.{truth_of};

use agg_protocol::ResultValue;
use query_checks::{Comparison, IsTest};
use std::cmp::Ordering;

/// A truth value as an operand has it: null is unknown.
pub(crate) fn truth(value: ResultValue<'_>) -> Option<bool>
    ensures { truth_of result ≡ truth (outcome_of value.entry) }
{
    match value {
        ResultValue::Boolean(truth) => Some(truth),
        _ => None,
    }
}

/// The value of a truth value, which is null where it is unknown.
pub(crate) fn as_value(truth: Option<bool>) -> ResultValue<'static>
    ensures { outcome_of result ≡ as_outcome (truth_of truth) }
{
    match truth {
        Some(truth) => ResultValue::Boolean(truth),
        None => ResultValue::Null,
    }
}

/// NOT: unknown stays unknown.
pub(crate) fn not(truth: Option<bool>) -> Option<bool>
    ensures { truth_of result ≡ truth_not (truth_of truth) }
{
    match truth {
        Some(truth) => Some(!truth),
        None => None,
    }
}

/// AND: false if either side is false, else unknown if either is unknown, else true.
pub(crate) fn and(a: Option<bool>, b: Option<bool>) -> Option<bool>
    ensures { truth_of result ≡ truth_and (truth_of a) (truth_of b) }
{
    match (a, b) {
        (Some(false), _) => Some(false),
        (_, Some(false)) => Some(false),
        (Some(true), Some(true)) => Some(true),
        _ => None,
    }
}

/// OR: true if either side is true, else unknown if either is unknown, else false.
pub(crate) fn or(a: Option<bool>, b: Option<bool>) -> Option<bool>
    ensures { truth_of result ≡ truth_or (truth_of a) (truth_of b) }
{
    match (a, b) {
        (Some(true), _) => Some(true),
        (_, Some(true)) => Some(true),
        (Some(false), Some(false)) => Some(false),
        _ => None,
    }
}

/// How two values compare, if neither is null: a bigint and a numeric as numbers. A checked query compares values of
/// one kind; those of others are ordered by their kinds, except a numeric.
fn order(x: ResultValue<'_>, y: ResultValue<'_>) -> Option<Ordering>
    ensures { result ≡ outcome_cmp (outcome_of x.entry) (outcome_of y.entry) }
{
    match (x, y) {
        (ResultValue::Bigint(x), ResultValue::Bigint(y)) => Some(x.cmp(&y)),
        (ResultValue::Bigint(x), ResultValue::Numeric(y)) => Some(i128::from(x).cmp(&y)),
        (ResultValue::Numeric(x), ResultValue::Bigint(y)) => Some(x.cmp(&i128::from(y))),
        (ResultValue::Numeric(x), ResultValue::Numeric(y)) => Some(x.cmp(&y)),
        (ResultValue::Boolean(x), ResultValue::Boolean(y)) => Some(x.cmp(&y)),
        (ResultValue::Text(x), ResultValue::Text(y)) => Some(x.cmp(y)),
        (ResultValue::Bigint(_), ResultValue::Boolean(_)) => Some(Ordering::Less),
        (ResultValue::Bigint(_), ResultValue::Text(_)) => Some(Ordering::Less),
        (ResultValue::Boolean(_), ResultValue::Text(_)) => Some(Ordering::Less),
        (ResultValue::Boolean(_), ResultValue::Bigint(_)) => Some(Ordering::Greater),
        (ResultValue::Text(_), ResultValue::Bigint(_)) => Some(Ordering::Greater),
        (ResultValue::Text(_), ResultValue::Boolean(_)) => Some(Ordering::Greater),
        _ => None,
    }
}

/// A comparison: unknown if either side is null.
pub(crate) fn compare(
    comparison: Comparison,
    x: ResultValue<'_>,
    y: ResultValue<'_>,
) -> Option<bool>
    ensures { truth_of result ≡
        compared (comparison_of comparison) (outcome_of x.entry) (outcome_of y.entry) }
{
    match order(x, y) {
        Some(order) => Some(comparison.holds(order)),
        None => None,
    }
}

/// Whether a value passes an IS test.
pub(crate) fn passes(test: IsTest, value: ResultValue<'_>) -> bool
    ensures { result ≡ passes (test_of test) (outcome_of value.entry) }
{
    match (test, value) {
        (IsTest::IsNull, ResultValue::Null) => true,
        (IsTest::IsUnknown, ResultValue::Null) => true,
        (IsTest::IsTrue, ResultValue::Boolean(truth)) => truth,
        (IsTest::IsFalse, ResultValue::Boolean(truth)) => !truth,
        _ => false,
    }
}
