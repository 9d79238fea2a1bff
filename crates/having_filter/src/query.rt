//! Queries that were checked.

ghost use Rattle.std.specs.Prelude.{◌≡◌, ◌≢◌, ◌==◌, ◌<◌, ◌↔◌, true, OnOk, IsTrue, map, length, option_map, IfOk, IfErr, Ok, Err, Some};
ghost use Rattle.std.specs.Prelude.{slice_get, string_bytes};
ghost use Rattle.grouping_model.specs.Condition.{is_met};
ghost use Rattle.grouping_model.specs.Grouping.{column_of};
ghost use Rattle.grouping_model.specs.Answer.{outcome_at};
ghost use Rattle.packed_rows.specs.Columns.{kinds, printed};
ghost use Rattle.packed_rows.specs.View.{row_of, kinds_of};
ghost use Rattle.agg_protocol.specs.Results.{outcome_of};
ghost use Rattle.agg_protocol.specs.Kinds.{function_of};
ghost use Rattle.query_checks.specs.declared.error.QueryError.TheVariants.{NoMemory};
ghost use Rattle.query_checks.specs.Forms.{form_of, call_form, items_of, places_of, written_of};
ghost use Rattle.query_checks.specs.Checks.{Checked, PassesFirst, placed, checked, checked_places, kinds_fit};
ghost use Rattle.query_checks.specs.Arrangement.{asked_of, arrangement_held, arrangement_of};
ghost use Rattle.query_checks.specs.Calls.{distinct_calls};
ghost use Rattle.query_checks.specs.Spelling.{spelling};
ghost use Rattle.query_checks.specs.Writable.{IsWritable};
ghost use Rattle.query_checks.specs.Parts.{written_of_parts, checked_of};
ghost use Rattle.having_filter.specs.Meaning.{meaning};
ghost use Rattle.having_filter.specs.Kept.{IsCheckedQuery, by_names, headers, label_of};
ghost use Rattle.grouping_model.specs.Parts.{key_kinds};
ghost use Rattle.having_filter.specs.Plans.{PlansFor, source_of};

use crate::leaves::{GroupLeaves, RowLeaves, is_met};
use crate::plan::{Plan, Source};
use crate::texts::{Texts, labels_of};
use agg_protocol::{AggKind, ResultValue};
use packed_rows::{Schema, Value, ValueKind};
use query_checks::{
    AggCall, Arrangement, Cond, Item, OrderTerm, Parts, QueryError, RawQuery, check_arrangement,
    check_parts, text_of_known,
};
use std::alloc::{AllocError, Global};
use std::marker::Model;
use std::sync::Arc;

/// What is kept of a query that passed all checks.
#[derive(Drop)]
pub(crate) struct Kept {
    pub(crate) schema: Schema,
    pub(crate) texts: Texts,
    pub(crate) parts: Parts,
    pub(crate) plan: Plan,
}

/// A query that passed all checks, over the columns of a schema by their places, the first being column 0. Its copies share
/// what is kept of it.
#[derive(Drop)]
pub struct Query {
    pub(crate) kept: Arc<Kept, Global>,
}

impl Model for Query {
    ghost use Rattle.std.specs.Prelude.{map, string_bytes};
    ghost use Rattle.query_checks.specs.Checks.{Checked};
    ghost use Rattle.query_checks.specs.Parts.{checked_of};
    ghost use Rattle.having_filter.specs.Plans.{IsKept};
    ghost use Rattle.having_filter.specs.Coding.{coded_checked};

    ghost Value = { Checked };

    ghost coded = { coded_checked };

    ghost view = { λ q. checked_of q.kept.value.schema q.kept.value.parts };

    ghost invariant = { λ q. IsKept (checked_of q.kept.value.schema q.kept.value.parts) q.kept.value.plan
        (string_bytes q.kept.value.texts.query) (map string_bytes q.kept.value.texts.labels.items)
        (string_bytes q.kept.value.texts.schema) };
}

/// The texts of a query that passes the first checks, or the error of the first check that it fails.
fn texts_of_known(alloc: Global, schema: &Schema, raw: &RawQuery) -> Result<Texts, QueryError>
    ensures query { IfOk result (λ texts. string_bytes texts.query ≡ spelling (asked_of raw.now)) }
    ensures labels { IfOk result (λ texts. map string_bytes texts.labels.items
        ≡ map label_of (items_of raw.now.items.items)) }
    ensures schema { IfOk result (λ texts. string_bytes texts.schema ≡ printed schema.now) }
    ensures first { OnOk result (PassesFirst schema.now (asked_of raw.now)) }
    ensures refused { IfErr result (λ e. e ≢ NoMemory →
        checked schema.now (asked_of raw.now) ≡ Err e) }
{
    let query = text_of_known(alloc, schema, raw)?;
    let text = schema.print()?;
    let labels = labels_of(alloc, &raw.items)?;
    Ok(Texts {
        query,
        labels,
        schema: text,
    })
}

/// The plan of the parts of a query over places, if they pass the checks over places.
fn checked_plan(alloc: Global, schema: &Schema, parts: &Parts) -> Result<Plan, QueryError>
    ensures fit { OnOk result (kinds_fit (kinds schema.now) (written_of_parts parts.now) ≡ true) }
    ensures passed { OnOk result (checked_places schema.now (written_of_parts parts.now)
        ≡ Ok (written_of_parts parts.now)) }
    ensures plans { IfOk result (PlansFor (checked_of schema.now parts.now)) }
    ensures refused { IfErr result (λ e. e ≢ NoMemory →
        checked_places schema.now (written_of_parts parts.now) ≡ Err e) }
{
    check_parts(schema, parts)?;
    let plan = Plan::new(alloc, schema, parts)?;
    Ok(plan)
}

/// The parts of a query over places, which all its columns have, with their plan, if they pass the checks over places.
fn placed_with_plan(
    alloc: Global,
    schema: &Schema,
    raw: &RawQuery,
) -> Result<(Parts, Plan), QueryError>
    ensures placed { IfOk result (λ made.
        written_of_parts made.0 ≡ placed schema.now (written_of raw.now)) }
    ensures arranged { IfOk result (λ made.
        arrangement_held made.0.arrangement ≡ arrangement_of (asked_of raw.now)) }
    ensures fit { IfOk result (λ made.
        kinds_fit (kinds schema.now) (written_of_parts made.0) ≡ true) }
    ensures passed { IfOk result (λ made. checked_places schema.now (written_of_parts made.0)
        ≡ Ok (written_of_parts made.0)) }
    ensures plans { IfOk result (λ made. PlansFor (checked_of schema.now made.0) made.1) }
    ensures refused { IfErr result (λ e. e ≢ NoMemory →
        checked_places schema.now (placed schema.now (written_of raw.now)) ≡ Err e) }
{
    let parts = Parts::placed(alloc, schema, raw)?;
    match checked_plan(alloc, schema, &parts) {
        Ok(plan) => Ok((parts, plan)),
        Err(error) => {
            drop(parts);
            Err(error)
        }
    }
}

/// What is kept of a query, once for all its copies. The only error is a failed allocation.
fn shared(alloc: Global, kept: Kept) -> Result<Arc<Kept>, AllocError>
    ensures ok { IfOk result (λ shared. shared.value ≡ kept) }
{
    Ok(Arc::new(alloc, kept)?)
}

impl Query {
    /// Checks a query that was read, over the columns of a schema. A repeated column of GROUP BY counts once. An alias that is the item's
    /// own name is dropped, and so is a term of ORDER BY whose item an earlier term names.
    ///
    /// # Errors
    ///
    /// The first of these that applies anywhere in the query: `TooMany` for over 64 items, 16 distinct columns of GROUP BY, 32 distinct
    /// aggregate calls in items and HAVING, or 16,384 bytes of canonical text; `TooDeep` for a condition that is nested more than 64 deep;
    /// `NoSuchColumn`, also for a name or a place in ORDER BY that no item has; `AggregateHere` for an aggregate in WHERE or in a FILTER;
    /// `TypeMismatch` for an argument, an operand or a condition of the wrong kind; `NotGrouped` for a column among the items or in HAVING
    /// that stands outside aggregates and isn't in GROUP BY; `AmbiguousOrder` for a name in ORDER BY that two items have, if these are not
    /// the same column or call.
    pub fn check(alloc: Global, schema: &Schema, raw: &RawQuery) -> Result<Query, QueryError>
        requires { IsWritable (written_of raw.now) }
        ensures checked { IfOk result (λ q. checked schema.now (asked_of raw.now) ≡ Ok q) }
        ensures refused { IfErr result (λ e. e ≢ NoMemory →
            checked schema.now (asked_of raw.now) ≡ Err e) }
    {
        let texts = texts_of_known(alloc, schema, raw)?;
        let columns = schema.try_clone()?;
        let (parts, plan) = placed_with_plan(alloc, schema, raw)?;
        check_arrangement(raw)?;
        let kept = Kept {
            schema: columns,
            texts,
            parts,
            plan,
        };
        let kept = shared(alloc, kept)?;
        Ok(Query { kept })
    }

    /// The columns of the table.
    pub fn schema(&self) -> &Schema
        ensures columns { result.now ≡ self.now.columns }
        ensures query { IsCheckedQuery self.now }
    {
        &self.kept.schema
    }

    /// The items, each with its alias, or `None` where it has none or the item's own name.
    pub fn items(&self) -> &[(Item<usize>, Option<String>)]
        ensures { places_of result.now ≡ self.now.written.items }
    {
        &self.kept.parts.items
    }

    /// WHERE, if there is one.
    pub fn condition(&self) -> &Option<Cond<usize>>
        ensures { option_map form_of result.now ≡ self.now.written.condition }
    {
        &self.kept.parts.condition
    }

    /// The columns of GROUP BY, each once.
    pub fn keys(&self) -> &[usize]
        ensures keys { result.now ≡ self.now.written.keys }
        ensures query { IsCheckedQuery self.now }
    {
        &self.kept.parts.keys
    }

    /// The kinds of the columns of GROUP BY.
    pub fn key_kinds(&self) -> &[ValueKind]
        ensures { kinds_of result.now ≡ key_kinds (meaning self.now) }
    {
        &self.kept.plan.key_kinds
    }

    /// HAVING, if there is one.
    pub fn having(&self) -> &Option<Cond<usize>>
        ensures { option_map form_of result.now ≡ self.now.written.having }
    {
        &self.kept.parts.having
    }

    /// The order of the answer: the terms of ORDER BY that remain, each by an item of its own.
    pub fn order(&self) -> &[OrderTerm]
        ensures order { result.now ≡ self.now.arrangement.order }
        ensures query { IsCheckedQuery self.now }
    {
        &self.kept.parts.arrangement.order
    }

    /// How the rows of the answer are arranged.
    pub fn arrangement(&self) -> &Arrangement
        ensures { arrangement_held result.now ≡ self.now.arrangement }
    {
        &self.kept.parts.arrangement
    }

    /// The distinct calls of the items and of HAVING, by the first of each.
    pub fn aggregates(&self) -> &[AggCall<usize>]
        ensures { map call_form result.now ≡ distinct_calls ◌==◌ self.now.written }
    {
        &self.kept.plan.calls
    }

    /// The functions of the aggregates.
    pub fn agg_kinds(&self) -> &[AggKind]
        ensures functions { map function_of result.now
            ≡ map (λ a. a.function) (meaning self.now).aggregates }
        ensures query { IsCheckedQuery self.now }
    {
        &self.kept.plan.kinds
    }

    /// The column that an aggregate takes its values from, the first aggregate being 0. `count(*)` has none.
    pub fn column(&self, aggregate: usize) -> Option<usize>
        requires { aggregate < length (meaning self.now).aggregates }
        ensures { option_map (λ a. a.column) (slice_get (meaning self.now).aggregates aggregate)
            ≡ Some result }
    {
        self.kept.plan.calls[aggregate].column
    }

    /// Where the values of the items lie in a group.
    pub fn sources(&self) -> &[Source]
        ensures { map source_of result.now ≡ (meaning self.now).items }
    {
        &self.kept.plan.items
    }

    /// The name of a column of the answer, the first being 0: the item's alias, or else the name of its column or
    /// function (PostgreSQL 17, 7.3.2).
    pub fn header(&self, item: usize) -> &str
        requires { item < length self.now.written.items }
        ensures { slice_get (headers self.now) item ≡ Some result.now }
    {
        self.kept.texts.labels[item].as_str()
    }

    /// The query's canonical text, by the names of its schema. It is at most 16,384 bytes long.
    pub fn spelling(&self) -> &str
        ensures { result.now ≡ spelling (by_names self.now) }
    {
        self.kept.texts.query.as_str()
    }

    /// Whether WHERE is true for a row, and not false or unknown. No WHERE counts as true.
    #[tactic(auto, using(crate::proofs::ValueLaws::met_in_steps))]
    pub fn where_true(&self, row: &[Value<'_>]) -> bool
        ensures { result ≡ is_met (column_of (row_of row.now)) (meaning self.now).condition }
    {
        is_met(&self.kept.parts.condition, &RowLeaves { row })
    }

    /// Whether the FILTER of an aggregate is true for a row, and not false or unknown, the first aggregate being 0. No
    /// FILTER counts as true.
    pub fn filter_true(&self, aggregate: usize, row: &[Value<'_>]) -> bool
        requires { aggregate < length (meaning self.now).aggregates }
        ensures { option_map (λ a. is_met (column_of (row_of row.now)) a.filter)
            (slice_get (meaning self.now).aggregates aggregate) ≡ Some result }
    {
        is_met(&self.kept.plan.calls[aggregate].filter, &RowLeaves { row })
    }

    /// Whether HAVING is true for a group, and not false or unknown. The values of the columns of GROUP BY and the
    /// results of the aggregates are given. No HAVING counts as true.
    pub fn having_true(&self, key: &[ResultValue<'_>], results: &[ResultValue<'_>]) -> bool
        ensures { result ≡
            is_met (outcome_at (map outcome_of key.now) (map outcome_of results.now))
            (meaning self.now).having }
    {
        is_met(&self.kept.plan.having, &GroupLeaves { key, results })
    }

    /// Whether two queries are the same: their canonical texts are, and those of their schemas.
    pub fn same_query(&self, other: &Query) -> bool
        ensures { IsTrue result ↔ ((printed self.now.columns ≡ printed other.now.columns)
            × (spelling (by_names self.now) ≡ spelling (by_names other.now))) }
    {
        let (own, theirs) = (&self.kept.texts, &other.kept.texts);
        own.schema == theirs.schema && own.query == theirs.query
    }

    /// A copy of the query, which shares what is kept. The only error is `AllocError`.
    pub fn try_clone(&self) -> Result<Query, AllocError>
        ensures { IfOk result (λ query. query ≡ self.now) }
    {
        let kept = self.kept.clone()?;
        Ok(Query { kept })
    }
}
