//! What conditions read: the columns of a row, or the keys and results of a group.

ghost use Rattle.std.specs.Prelude.{◌≡◌, map, option_map};
ghost use Rattle.grouping_model.specs.Condition.{At, value_of, is_met, is_true};
ghost use Rattle.grouping_model.specs.Grouping.{column_of};
ghost use Rattle.grouping_model.specs.Answer.{outcome_at};
ghost use Rattle.packed_rows.specs.View.{row_of};
ghost use Rattle.agg_protocol.specs.Results.{outcome_of};
ghost use Rattle.query_checks.specs.Forms.{form_of};
ghost use Rattle.having_filter.specs.Truths.{truth_of};
ghost use Rattle.having_filter.specs.Meaning.{condition_by, column_leaf};
ghost use Rattle.having_filter.specs.Plans.{source_leaf};

use crate::plan::Source;
use crate::truth::truth;
use crate::value::{Leaves, value};
use agg_protocol::ResultValue;
use packed_rows::Value;
use query_checks::{AggCall, Cond};

/// The columns of a row. No aggregate has a value there.
#[derive(Drop)]
pub(crate) struct RowLeaves<'a> {
    pub(crate) row: &'a [Value<'a>],
}

impl<'a> Leaves<usize> for RowLeaves<'a> {
    ghost outcome = { λ leaves form. value_of (column_of (row_of leaves.row.now)) (column_leaf form) };

    fn column(&self, column: &usize) -> ResultValue<'_> {
        column_value(self.row, *column)
    }

    #[tactic(auto, using(crate::proofs::ValueLaws::call_is_no_column))]
    fn call(&self, _call: &AggCall<usize>) -> ResultValue<'_> {
        ResultValue::Null
    }
}

/// The value of a column, null beyond the last.
fn column_value<'a>(row: &'a [Value<'a>], place: usize) -> ResultValue<'a>
    ensures { outcome_of result ≡ column_of (row_of row.now) place }
{
    match row.get(place) {
        Some(value) => ResultValue::from(*value),
        None => ResultValue::Null,
    }
}

/// The keys and the results of a group.
#[derive(Drop)]
pub(crate) struct GroupLeaves<'a> {
    pub(crate) key: &'a [ResultValue<'a>],
    pub(crate) results: &'a [ResultValue<'a>],
}

impl<'a> Leaves<Source> for GroupLeaves<'a> {
    ghost outcome = { λ leaves form. value_of (outcome_at (map outcome_of leaves.key.now)
        (map outcome_of leaves.results.now)) (source_leaf form) };

    fn column(&self, source: &Source) -> ResultValue<'_> {
        source.value(self.key, self.results)
    }

    #[tactic(auto, using(crate::proofs::ValueLaws::call_is_no_source))]
    fn call(&self, _call: &AggCall<Source>) -> ResultValue<'_> {
        ResultValue::Null
    }
}

/// Whether a truth value is true, and not false or unknown.
fn is_true(truth: Option<bool>) -> bool
    ensures { result ≡ is_true (truth_of truth) }
{
    match truth {
        Some(truth) => truth,
        None => false,
    }
}

/// Whether a condition is true, and not false or unknown. No condition counts as true.
pub(crate) fn is_met<C, L: Leaves<C>>(condition: &Option<Cond<C>>, leaves: &L) -> bool
    ensures { result ≡ is_met (L.outcome leaves.now)
        (option_map (λ c. condition_by At (form_of c)) condition.now) }
{
    match condition {
        Some(condition) => is_true(truth(value(condition, leaves))),
        None => true,
    }
}
