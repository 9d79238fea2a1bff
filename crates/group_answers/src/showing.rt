//! The rows of an answer, from the groups of a run.

ghost use Rattle.std.specs.Prelude.{◌≡◌, ◌≤◌, ◌∷◌, ℕ, List, [], map, IfOk, OnOk, OnErr};
ghost use Rattle.grouping_model.specs.Datum.{Row, HasKinds};
ghost use Rattle.grouping_model.specs.Aggregates.{Outcome, Partial, Plain, outcome};
ghost use Rattle.grouping_model.specs.Grouping.{Group};
ghost use Rattle.grouping_model.specs.Answer.{outcome_at, answered, rows_of, answer_of};
ghost use Rattle.packed_rows.specs.Packing.{packing};
ghost use Rattle.packed_rows.specs.View.{row_of};
ghost use Rattle.agg_protocol.specs.Results.{outcome_of};
ghost use Rattle.agg_protocol.specs.States.{most_rows};
ghost use Rattle.agg_library.specs.StateRows.{DenotesAll};
ghost use Rattle.grouping_model.specs.Parts.{key_kinds};
ghost use Rattle.having_filter.specs.Meaning.{meaning};
ghost use Rattle.having_filter.specs.Plans.{source_of};
ghost use Rattle.group_runs.specs.Standing.{StandsFor, AreGroups};
ghost use Rattle.group_answers.specs.Stopping.{Stopped, StoppedAmong};

use crate::row_sink::RowSink;
use agg_library::{AggKind, StateRow};
use agg_protocol::ResultValue;
use group_runs::{Run, initial_states};
use having_filter::{Answer, AnswerRows, Query, Source};
use packed_rows::{RowError, Value, unpack_into};
use std::alloc::{AllocError, Global};

/// Buffers that are reused from group to group.
#[derive(Drop)]
struct Scratch<'r> {
    values: Vec<Value<'r>>,
    key: Vec<ResultValue<'r>>,
    results: Vec<ResultValue<'static>>,
    items: Vec<ResultValue<'r>>,
}

impl<'r> Scratch<'r> {
    /// Empty buffers.
    fn new(alloc: Global) -> Scratch<'r> {
        Scratch {
            values: Vec::new(alloc),
            key: Vec::new(alloc),
            results: Vec::new(alloc),
            items: Vec::new(alloc),
        }
    }
}

/// The values of a key, as an answer has them, in the place of what `values` held.
fn key_values<'r>(key: &[Value<'r>], values: &mut Vec<ResultValue<'r>>) -> Result<(), AllocError>
    ensures { OnOk result (map outcome_of values.new.items ≡ map Plain (row_of key.now)) }
{
    values.clear();
    for value in key {
        values.push(ResultValue::from(*value))?;
    }
    Ok(())
}

/// The values of a packed key, in the place of what `key` held.
fn unpack<'r>(query: &Query, packed: &'r [u8], key: &mut Vec<Value<'r>>) -> Result<(), AllocError>
    requires { (key : Row) × HasKinds (key_kinds (meaning query.now)) key
        × (packed.now ≡ packing key) }
    ensures { OnOk result (HasKinds (key_kinds (meaning query.now)) (row_of key.new.items)
        × (packed.now ≡ packing (row_of key.new.items))) }
{
    match unpack_into(query.key_kinds(), packed, key) {
        Ok(()) => Ok(()),
        Err(RowError::NoMemory) => Err(AllocError),
        Err(_) => unreachable!(),
    }
}

/// The results of a group's states, in the place of what `values` held.
fn finish_states(
    kinds: &[AggKind],
    states: &[u8],
    values: &mut Vec<ResultValue<'static>>,
) -> Result<(), AllocError>
    requires { (most : ℕ) × (ps : List Partial) × DenotesAll most kinds.now states.now ps
        × (most ≤ most_rows) }
    ensures { OnOk result ((most : ℕ) (ps : List Partial) → most ≤ most_rows →
        DenotesAll most kinds.now states.now ps → map outcome_of values.new.items ≡ map outcome ps) }
{
    values.clear();
    let mut rest = states;
    for kind in kinds {
        let (part, after) = rest.split_at(kind.width());
        values.push(StateRow::finish(*kind, part))?;
        rest = after;
    }
    Ok(())
}

/// The items of a group, in the place of what `items` held.
fn items_of<'r>(
    sources: &[Source],
    key: &[ResultValue<'r>],
    results: &[ResultValue<'r>],
    items: &mut Vec<ResultValue<'r>>,
) -> Result<(), AllocError>
    ensures { OnOk result (map outcome_of items.new.items ≡
        map (outcome_at (map outcome_of key.now) (map outcome_of results.now))
        (map source_of sources.now)) }
{
    items.clear();
    for source in sources {
        items.push(source.value(key, results))?;
    }
    Ok(())
}

/// Gives a sink the row of a group, if HAVING is true of the group. What `scratch` holds doesn't matter.
fn push_group<'r, S: RowSink>(
    query: &Query,
    key: &'r [u8],
    states: &[u8],
    scratch: &mut Scratch<'r>,
    rows: &mut S,
) -> Result<(), AllocError>
    requires { (most : ℕ) × (group : Group)
        × StandsFor (meaning query.now) most (key.now, states.now) group × (most ≤ most_rows) }
    ensures given { OnOk result ((given : List (List Outcome)) × S.took rows.old rows.new given
        × ((most : ℕ) (group : Group) → most ≤ most_rows →
        StandsFor (meaning query.now) most (key.now, states.now) group →
        given ≡ rows_of (meaning query.now) (group ∷ []))) }
    ensures stopped { OnErr result (Stopped S.RowSink rows.old rows.new) }
{
    unpack(query, key, &mut scratch.values)?;
    key_values(&scratch.values, &mut scratch.key)?;
    finish_states(query.agg_kinds(), states, &mut scratch.results)?;
    if !query.having_true(&scratch.key, &scratch.results) {
        return Ok(());
    }
    items_of(
        query.sources(),
        &scratch.key,
        &scratch.results,
        &mut scratch.items,
    )?;
    rows.push_row(&scratch.items)
}

/// Gives a sink the rows of an answer without groups. Without GROUP BY there is still one group, of no rows.
fn rows_of_none<S: RowSink>(alloc: Global, query: &Query, rows: &mut S) -> Result<(), AllocError>
    ensures given { OnOk result (S.took rows.old rows.new
        (rows_of (meaning query.now) (answered (meaning query.now) []))) }
    ensures stopped { OnErr result (Stopped S.RowSink rows.old rows.new) }
{
    if !query.keys().is_empty() {
        return Ok(());
    }
    let states = initial_states(alloc, query.agg_kinds())?;
    push_group(query, &[], &states, &mut Scratch::new(alloc), rows)
}

/// Gives a sink the rows of the groups of a run, in their order: one for each group for which HAVING is true. The only error is a failed
/// allocation. The sink has the first of the rows then.
pub fn rows_of_run<S: RowSink>(
    alloc: Global,
    query: &Query,
    run: &Run,
    rows: &mut S,
) -> Result<(), AllocError>
    requires { (most : ℕ) × (groups : List Group)
        × AreGroups (meaning query.now) most run.now groups × (most ≤ most_rows) }
    ensures given { OnOk result ((given : List (List Outcome)) × S.took rows.old rows.new given
        × ((most : ℕ) (groups : List Group) → most ≤ most_rows →
        AreGroups (meaning query.now) most run.now groups →
        given ≡ rows_of (meaning query.now) groups)) }
    ensures stopped { OnErr result (StoppedAmong S.RowSink (meaning query.now) run.now (rows_of (meaning query.now)) rows.old
        rows.new) }
{
    let mut scratch = Scratch::new(alloc);
    for place in 0..run.len() {
        let (key, states) = run.group(place);
        push_group(query, key, states, &mut scratch, rows)?;
    }
    Ok(())
}

/// Gives a sink the rows of the answer from the groups of a run, before ORDER BY arranges them: a row of the query's items for each group
/// for which HAVING is true, in the order of the run. Without GROUP BY there is one group, even over no rows. The only error is a failed
/// allocation. The sink has the first of the rows then.
pub fn project_into<S: RowSink>(
    alloc: Global,
    query: &Query,
    run: &Run,
    rows: &mut S,
) -> Result<(), AllocError>
    requires { (most : ℕ) × (groups : List Group)
        × AreGroups (meaning query.now) most run.now groups × (most ≤ most_rows) }
    ensures given { OnOk result ((given : List (List Outcome)) × S.took rows.old rows.new given
        × ((most : ℕ) (groups : List Group) → most ≤ most_rows →
        AreGroups (meaning query.now) most run.now groups →
        given ≡ rows_of (meaning query.now) (answered (meaning query.now) groups))) }
    ensures stopped { OnErr result (StoppedAmong S.RowSink (meaning query.now) run.now
        (λ groups. rows_of (meaning query.now) (answered (meaning query.now) groups)) rows.old rows.new) }
{
    if run.is_empty() {
        return rows_of_none(alloc, query, rows);
    }
    rows_of_run(alloc, query, run, rows)
}

/// The answer from the groups of a run, arranged as the query says: a row of its items for each group for which HAVING is true. Without
/// GROUP BY there is one group, even over no rows. The only error is out of memory.
pub fn finalize_and_project(alloc: Global, query: &Query, run: &Run) -> Result<Answer, AllocError>
    requires { (most : ℕ) × (groups : List Group)
        × AreGroups (meaning query.now) most run.now groups × (most ≤ most_rows) }
    ensures { IfOk result (λ answer. (most : ℕ) (groups : List Group) → most ≤ most_rows →
        AreGroups (meaning query.now) most run.now groups →
        answer ≡ answer_of (meaning query.now) groups) }
{
    let mut rows = AnswerRows::new(alloc);
    project_into(alloc, query, run, &mut rows)?;
    Answer::arranged(alloc, rows, query.arrangement())
}
