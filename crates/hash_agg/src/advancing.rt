//! The states of one group, after one more row.

ghost use Rattle.std.specs.Prelude.{◌≡◌, ◌<◌, ◌≤◌, map, length, drop, option_map, Some, None, slice_get, if◌then◌else◌, OnOk, OnErr};
ghost use Rattle.grouping_model.specs.Datum.{HasKinds};
ghost use Rattle.grouping_model.specs.Condition.{is_met};
ghost use Rattle.grouping_model.specs.Query.{Aggregate};
ghost use Rattle.grouping_model.specs.Grouping.{argument, column_of};
ghost use Rattle.grouping_model.specs.Parts.{functions};
ghost use Rattle.packed_rows.specs.View.{datum_of, row_of};
ghost use Rattle.agg_protocol.specs.States.{most_rows};
ghost use Rattle.agg_protocol.specs.Kinds.{functions_of};
ghost use Rattle.having_filter.specs.Kept.{IsWellFormed};
ghost use Rattle.having_filter.specs.Meaning.{meaning};
ghost use Rattle.group_runs.specs.Steps.{HaveRoomForRow, AreAdvanced};

use agg_library::{AggKind, StateRow};
use agg_protocol::BadState;
use having_filter::Query;
use packed_rows::Value;

/// What an aggregate takes from a row, or `None` if its FILTER excludes the row.
fn reach<'a>(query: &Query, place: usize, row: &[Value<'a>]) -> Option<Value<'a>>
    requires { place < length (meaning query.now).aggregates }
    ensures { (a : Aggregate) → slice_get (meaning query.now).aggregates place ≡ Some a →
        option_map datum_of result ≡ (if is_met (column_of (row_of row.now)) a.filter
        then Some (argument a.column (row_of row.now)) else None) }
{
    if !query.filter_true(place, row) {
        return None;
    }
    let Some(column) = query.column(place) else {
        return Some(Value::Null);
    };
    match row.get(column) {
        Some(value) => Some(*value),
        None => Some(Value::Null),
    }
}

/// Moves the states of the aggregates from a place on by a row, if they count at most this many rows then.
fn advance_from(
    query: &Query,
    place: usize,
    kinds: &[AggKind],
    states: &mut [u8],
    row: &[Value<'_>],
    most: u64,
) -> Result<(), BadState>
    requires formed { IsWellFormed (meaning query.now) }
    requires row { HasKinds (meaning query.now).kinds (row_of row.now) }
    requires kinds { functions_of kinds.now
        ≡ map (λ a. a.function) (drop place (meaning query.now).aggregates) }
    requires most { most ≤ most_rows }
    ensures advanced { OnOk result (AreAdvanced (drop place (meaning query.now).aggregates) most
        states.old (row_of row.now) states.new) }
    ensures refused { OnErr result (¬ HaveRoomForRow
        (map (λ a. a.function) (drop place (meaning query.now).aggregates)) most states.old) }
{
    let Some((kind, kinds)) = kinds.split_first() else {
        return if states.is_empty() {
            Ok(())
        } else {
            Err(BadState)
        };
    };
    if states.len() < kind.width() {
        return Err(BadState);
    }
    let (part, rest) = states.split_at_mut(kind.width());
    StateRow::advance(*kind, part, reach(query, place, row), most)?;
    advance_from(query, place + 1, kinds, rest, row, most)
}

/// Moves the states of a group on by a row. They are refused if they are not states of the query, or would then count more than `most`
/// rows. Their bytes are unspecified after that.
pub(crate) fn advance_slice(
    query: &Query,
    states: &mut [u8],
    row: &[Value<'_>],
    most: u64,
) -> Result<(), BadState>
    requires formed { IsWellFormed (meaning query.now) }
    requires row { HasKinds (meaning query.now).kinds (row_of row.now) }
    requires most { most ≤ most_rows }
    ensures advanced { OnOk result (AreAdvanced (meaning query.now).aggregates most states.old (row_of row.now) states.new) }
    ensures refused { OnErr result (¬ HaveRoomForRow (functions (meaning query.now)) most states.old) }
{
    advance_from(query, 0, query.agg_kinds(), states, row, most)
}
