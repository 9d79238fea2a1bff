//! How values compare by a term of ORDER BY.

ghost use Rattle.std.specs.Prelude.{◌≡◌};
ghost use Rattle.grouping_model.specs.Order.{null_rank, value_cmp, by_term};
ghost use Rattle.agg_protocol.specs.Results.{outcome_of};
ghost use Rattle.having_filter.specs.Meaning.{order_term};

use agg_protocol::ResultValue;
use query_checks::OrderTerm;
use std::cmp::Ordering;

/// Where a value stands among nulls and others.
fn null_rank(nulls_first: bool, value: ResultValue<'_>) -> u8
    ensures { result ≡ null_rank nulls_first (outcome_of value.entry) }
{
    match value {
        ResultValue::Null if nulls_first => 0,
        ResultValue::Null => 2,
        _ => 1,
    }
}

/// How two values compare. An item has values of one kind; those of others are ordered by their kinds, and null is last.
fn compare_values(x: ResultValue<'_>, y: ResultValue<'_>) -> Ordering
    ensures { result ≡ value_cmp (outcome_of x.entry) (outcome_of y.entry) }
{
    match (x, y) {
        (ResultValue::Bigint(x), ResultValue::Bigint(y)) => x.cmp(&y),
        (ResultValue::Numeric(x), ResultValue::Numeric(y)) => x.cmp(&y),
        (ResultValue::Boolean(x), ResultValue::Boolean(y)) => x.cmp(&y),
        (ResultValue::Text(x), ResultValue::Text(y)) => x.cmp(y),
        (ResultValue::Null, ResultValue::Null) => Ordering::Equal,
        (ResultValue::Numeric(_), _) => Ordering::Less,
        (_, ResultValue::Numeric(_)) => Ordering::Greater,
        (_, ResultValue::Null) => Ordering::Less,
        (ResultValue::Null, _) => Ordering::Greater,
        (ResultValue::Bigint(_), _) => Ordering::Less,
        (_, ResultValue::Bigint(_)) => Ordering::Greater,
        (ResultValue::Boolean(_), ResultValue::Text(_)) => Ordering::Less,
        (ResultValue::Text(_), ResultValue::Boolean(_)) => Ordering::Greater,
    }
}

/// How two values of a term's item compare by the term.
pub(crate) fn compare_by(term: OrderTerm, x: ResultValue<'_>, y: ResultValue<'_>) -> Ordering
    ensures { result ≡ by_term (order_term term) (outcome_of x.entry) (outcome_of y.entry) }
{
    let ranks = null_rank(term.nulls_first, x).cmp(&null_rank(term.nulls_first, y));
    let values = if term.descending {
        compare_values(y, x)
    } else {
        compare_values(x, y)
    };
    ranks.then(values)
}
