//! The value of a condition.

ghost use Rattle.std.specs.Prelude.{◌≡◌};
ghost use Rattle.grouping_model.specs.Aggregates.{Outcome};
ghost use Rattle.grouping_model.specs.Condition.{At, value_of};
ghost use Rattle.agg_protocol.specs.Results.{outcome_of};
ghost use Rattle.query_checks.specs.Forms.{Form, Column, form_of, call_form};
ghost use Rattle.having_filter.specs.Meaning.{condition_by};

use crate::truth::{and, as_value, compare, not, or, passes, truth};
use agg_protocol::ResultValue;
use query_checks::{AggCall, Cond};

/// The values that the columns and calls of a condition have.
pub(crate) trait Leaves<C> {
    // The value of each column and call.
    ghost outcome: { Self → Form C → Outcome };

    /// The value of a column.
    fn column(&self, column: &C) -> ResultValue<'_>
        ensures { outcome_of result ≡ outcome self.now (Column column.now) };

    /// The value of a call.
    fn call(&self, call: &AggCall<C>) -> ResultValue<'_>
        ensures { outcome_of result ≡ outcome self.now (call_form call.now) };
}

/// The value of a condition, by three-valued logic. AND and OR evaluate no more once one side decides.
pub(crate) fn value<'a, C, L: Leaves<C>>(condition: &'a Cond<C>, leaves: &'a L) -> ResultValue<'a>
    ensures { outcome_of result ≡
        value_of (L.outcome leaves.now) (condition_by At (form_of condition.now)) }
{
    match condition {
        Cond::Column(column) => leaves.column(column),
        Cond::Call(call) => leaves.call(call),
        Cond::Bigint(number) => ResultValue::Bigint(*number),
        Cond::Text(text) => ResultValue::Text(text.as_str()),
        Cond::Boolean(truth) => ResultValue::Boolean(*truth),
        Cond::Null => ResultValue::Null,
        Cond::Not(c) => as_value(not(truth(value(c, leaves)))),
        Cond::Or(c, d) => match truth(value(c, leaves)) {
            Some(true) => ResultValue::Boolean(true),
            first => as_value(or(first, truth(value(d, leaves)))),
        },
        Cond::And(c, d) => match truth(value(c, leaves)) {
            Some(false) => ResultValue::Boolean(false),
            first => as_value(and(first, truth(value(d, leaves)))),
        },
        Cond::Compare(comparison, c, d) => {
            as_value(compare(*comparison, value(c, leaves), value(d, leaves)))
        }
        Cond::Is {
            test,
            negated,
            operand,
        } => ResultValue::Boolean(passes(*test, value(operand, leaves)) != *negated),
    }
}
