//! What is computed from a query once, so that its evaluation needs no look-up by name.

ghost use Rattle.std.specs.Prelude.{◌≡◌, ◌==◌, map, option_map, position, slice_index_or, IfOk};
ghost use Rattle.grouping_model.specs.Datum.{Null, Bigint_kind};
ghost use Rattle.grouping_model.specs.Aggregates.{Plain};
ghost use Rattle.grouping_model.specs.Answer.{outcome_at};
ghost use Rattle.packed_rows.specs.View.{kind_of, kinds_of};
ghost use Rattle.agg_protocol.specs.Results.{outcome_of};
ghost use Rattle.agg_protocol.specs.Kinds.{function_of};
ghost use Rattle.query_checks.specs.Forms.{call_form, form_of, item_form};
ghost use Rattle.query_checks.specs.Sameness.{form_eq};
ghost use Rattle.query_checks.specs.Parts.{checked_of};
ghost use Rattle.having_filter.specs.Meaning.{place_in, source_of_form, group_condition};
ghost use Rattle.having_filter.specs.Plans.{PlansFor, source_of, by_sources};

use crate::copying::calls_of;
use agg_protocol::{AggKind, ResultValue};
use packed_rows::{Schema, ValueKind};
use query_checks::{AggCall, Cond, Item, Mapping, Parts, is_same_call, mapped_clause};
use std::alloc::{AllocError, Global};

/// Where a value of a group is found: among its keys or the results of its aggregates, the first of either being 0.
#[derive(Clone, Copy)]
pub enum Source {
    /// A column of GROUP BY, by its place there.
    Key(usize),
    /// An aggregate, by its place among the query's aggregates.
    Call(usize),
}

/// The value at a place, null beyond the last.
fn value_at<'a>(values: &[ResultValue<'a>], place: usize) -> ResultValue<'a>
    ensures { outcome_of result ≡ slice_index_or (map outcome_of values.now) place (Plain Null) }
{
    match values.get(place) {
        Some(value) => *value,
        None => ResultValue::Null,
    }
}

impl Source {
    /// The value that is found in a group, given the values of the columns of GROUP BY and the results of the aggregates; null
    /// beyond the last of either.
    pub fn value<'a>(self, key: &[ResultValue<'a>], results: &[ResultValue<'a>]) -> ResultValue<'a>
        ensures { outcome_of result ≡
            outcome_at (map outcome_of key.now) (map outcome_of results.now) (source_of self) }
    {
        match self {
            Source::Key(place) => value_at(key, place),
            Source::Call(place) => value_at(results, place),
        }
    }
}

/// What evaluation needs of a query.
#[derive(Drop)]
pub(crate) struct Plan {
    /// The distinct calls of the items and of HAVING, by the first of each.
    pub(crate) calls: Vec<AggCall<usize>>,
    /// The functions of these calls.
    pub(crate) kinds: Vec<AggKind>,
    /// The kinds of the columns of GROUP BY.
    pub(crate) key_kinds: Vec<ValueKind>,
    /// Where the items are found.
    pub(crate) items: Vec<Source>,
    /// HAVING, if there is one. No calls are left in it.
    pub(crate) having: Option<Cond<Source>>,
}

/// The place of a column among those of GROUP BY.
fn place_of_column(columns: &[usize], column: usize) -> usize
    ensures { result ≡ place_in ◌==◌ columns.now column }
{
    find_column(columns, column).unwrap_or(0)
}

fn find_column(columns: &[usize], column: usize) -> Option<usize>
    ensures { result ≡ position (λ other. column == other) columns.now }
{
    columns.iter().position(|other| column == *other)
}

/// The place of a call among others.
#[tactic(auto, using(crate::proofs::ValueLaws::position_mapped))]
fn place_of_call(calls: &[AggCall<usize>], call: &AggCall<usize>) -> usize
    ensures { result ≡ place_in (form_eq ◌==◌) (map call_form calls.now) (call_form call.now) }
{
    find_call(calls, call).unwrap_or(0)
}

fn find_call(calls: &[AggCall<usize>], call: &AggCall<usize>) -> Option<usize>
    ensures { result ≡
        position (λ other. form_eq ◌==◌ (call_form call.now) (call_form other)) calls.now }
{
    calls.iter().position(|other| is_same_call(call, other))
}

/// The functions of calls.
fn kinds_of_calls(alloc: Global, calls: &[AggCall<usize>]) -> Result<Vec<AggKind>, AllocError>
    ensures { IfOk result (λ functions. map function_of functions.items
        ≡ map (λ call. function_of call.kind) calls.now) }
{
    let mut functions = Vec::with_capacity(alloc, calls.len())?;
    for call in calls {
        functions.push(call.kind)?;
    }
    Ok(functions)
}

/// The kind of a column, which is there.
fn kind_at(kinds: &[ValueKind], place: usize) -> ValueKind
    ensures { kind_of result ≡ slice_index_or (kinds_of kinds.now) place Bigint_kind }
{
    kinds.get(place).copied().unwrap_or(ValueKind::Bigint)
}

/// The kinds of columns.
fn kinds_at(
    alloc: Global,
    kinds: &[ValueKind],
    places: &[usize],
) -> Result<Vec<ValueKind>, AllocError>
    ensures { IfOk result (λ found. kinds_of found.items
        ≡ map (λ at. slice_index_or (kinds_of kinds.now) at Bigint_kind) places.now) }
{
    let mut found = Vec::with_capacity(alloc, places.len())?;
    for place in places {
        found.push(kind_at(kinds, *place))?;
    }
    Ok(found)
}

/// Where the columns and calls of a query are found: the columns of GROUP BY, and the distinct calls.
#[derive(Drop)]
struct Sources<'a> {
    keys: &'a [usize],
    calls: &'a [AggCall<usize>],
}

impl<'a> Mapping<usize, Source> for Sources<'a> {
    ghost use Rattle.std.specs.Prelude.{◌==◌, map, Some};
    ghost use Rattle.query_checks.specs.Forms.{call_form};
    ghost use Rattle.query_checks.specs.Sameness.{form_eq};
    ghost use Rattle.having_filter.specs.declared.plan.Source.TheVariants.{Key, Call};
    ghost use Rattle.having_filter.specs.Meaning.{place_in};

    ghost column_as = { λ s column. Key (place_in ◌==◌ s.keys.now column) };

    ghost call_as = { λ s call. Some (Call (place_in (form_eq ◌==◌) (map call_form s.calls.now) call)) };

    fn column(&self, column: &usize) -> Source {
        Source::Key(place_of_column(self.keys, *column))
    }

    fn call(&self, call: &AggCall<usize>) -> Option<Source> {
        Some(Source::Call(place_of_call(self.calls, call)))
    }
}

/// Where an item is found.
fn source_of_item(keys: &[usize], calls: &[AggCall<usize>], item: &Item<usize>) -> Source
    ensures { source_of result ≡
        source_of_form keys.now (map call_form calls.now) (item_form item.now) }
{
    match item {
        Item::Column(place) => Source::Key(place_of_column(keys, *place)),
        Item::Call(call) => Source::Call(place_of_call(calls, call)),
    }
}

/// Where items are found.
fn sources_of_items(
    alloc: Global,
    keys: &[usize],
    calls: &[AggCall<usize>],
    items: &[(Item<usize>, Option<String>)],
) -> Result<Vec<Source>, AllocError>
    ensures { IfOk result (λ found. map source_of found.items
        ≡ map (λ item. source_of_form keys.now (map call_form calls.now) (item_form item.0)) items.now) }
{
    let mut found = Vec::with_capacity(alloc, items.len())?;
    for item in items {
        found.push(source_of_item(keys, calls, &item.0))?;
    }
    Ok(found)
}

/// HAVING that reads its columns and calls where they are found, if there is one.
#[tactic(auto, using(crate::proofs::PlanLaws::found_clause))]
fn having_with_sources(
    alloc: Global,
    keys: &[usize],
    calls: &[AggCall<usize>],
    having: &Option<Cond<usize>>,
) -> Result<Option<Cond<Source>>, AllocError>
    ensures { IfOk result (λ c. option_map by_sources c
        ≡ option_map (group_condition keys.now (map call_form calls.now)) (option_map form_of having.now)) }
{
    mapped_clause(alloc, &Sources { keys, calls }, having)
}

impl Plan {
    /// What evaluation needs of a query over the columns of a schema.
    pub(crate) fn new(alloc: Global, schema: &Schema, parts: &Parts) -> Result<Plan, AllocError>
        ensures { IfOk result (PlansFor (checked_of schema.now parts.now)) }
    {
        let calls = calls_of(alloc, parts)?;
        let kinds = kinds_of_calls(alloc, &calls)?;
        let key_kinds = kinds_at(alloc, schema.kinds(), &parts.keys)?;
        let items = sources_of_items(alloc, &parts.keys, &calls, &parts.items)?;
        let having = having_with_sources(alloc, &parts.keys, &calls, &parts.having)?;
        Ok(Plan {
            calls,
            kinds,
            key_kinds,
            items,
            having,
        })
    }
}
