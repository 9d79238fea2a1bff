//! The checks of a query, in their order.

ghost use Rattle.std.specs.Prelude.{◌≡◌, ◌≢◌, true, OnOk, IfOk, IfErr, Ok, Err, string_bytes};
ghost use Rattle.packed_rows.specs.Columns.{kinds};
ghost use Rattle.query_checks.specs.declared.error.QueryError.TheVariants.{NoMemory};
ghost use Rattle.query_checks.specs.Arrangement.{asked_of};
ghost use Rattle.query_checks.specs.Checks.{PassesFirst, checked, checked_places, kinds_fit};
ghost use Rattle.query_checks.specs.Spelling.{spelling};
ghost use Rattle.query_checks.specs.Parts.{written_of_parts};

use crate::condition::RawQuery;
use crate::error::QueryError;
use crate::limits::text_within;
use crate::parts::Parts;
use crate::whole::{are_plain, has_names, is_grouped, is_shallow_query, kinds_fit_in};
use packed_rows::Schema;
use std::alloc::Global;

/// The canonical text of a query that keeps within the limits, whose columns are in the schema, and whose terms of ORDER BY name items.
///
/// # Errors
///
/// The first of these that is found anywhere in the query: `TooMany` for over 64 items, 16 distinct columns of GROUP BY, 32 distinct
/// aggregate calls in items and HAVING, or 16,384 bytes of canonical text; `TooDeep` for a condition that is nested more than 64 deep;
/// `NoSuchColumn`, also for a term of ORDER BY that names no item. `NoMemory` may come at any time.
#[tactic(auto, using(crate::specs::CheckedLaws::gives_too_deep, crate::specs::CheckedLaws::gives_no_column))]
pub fn text_of_known(alloc: Global, schema: &Schema, raw: &RawQuery) -> Result<String, QueryError>
    ensures text { IfOk result (λ text. string_bytes text ≡ spelling (asked_of raw.now)) }
    ensures first { OnOk result (PassesFirst schema.now (asked_of raw.now)) }
    ensures refused { IfErr result (λ e. e ≢ NoMemory →
        checked schema.now (asked_of raw.now) ≡ Err e) }
    // A query that passes these has its text.
    ensures known { IfErr result (λ e. e ≢ NoMemory → ¬ (PassesFirst schema.now (asked_of raw.now))) }
{
    let canonical = text_within(alloc, raw)?;
    if !is_shallow_query(raw) {
        return Err(QueryError::TooDeep);
    }
    if !has_names(schema, raw) {
        return Err(QueryError::NoSuchColumn);
    }
    Ok(canonical)
}

/// Whether the parts of a query over the columns of a schema pass the checks over places.
///
/// # Errors
///
/// The first of these that is found anywhere in them: `AggregateHere` for an aggregate in WHERE or in a FILTER;
/// `TypeMismatch` for an argument, an operand or a condition of the wrong kind; `NotGrouped` for a column among the items
/// or in HAVING that stands outside aggregates and isn't in GROUP BY.
#[tactic(auto, unfolding(crate::specs::Checks::checked_places), using(crate::proofs::CheckedLaws::gives_mismatch, crate::proofs::CheckedLaws::gives_ungrouped, crate::specs::Lemmas::CheckedLaws::gives_checked))]
pub fn check_parts(schema: &Schema, parts: &Parts) -> Result<(), QueryError>
    ensures passed { OnOk result (checked_places schema.now (written_of_parts parts.now)
        ≡ Ok (written_of_parts parts.now)) }
    ensures fit { OnOk result (kinds_fit (kinds schema.now) (written_of_parts parts.now) ≡ true) }
    ensures refused { IfErr result (λ e.
        checked_places schema.now (written_of_parts parts.now) ≡ Err e) }
{
    if !are_plain(parts) {
        return Err(QueryError::AggregateHere);
    }
    if !kinds_fit_in(schema, parts) {
        return Err(QueryError::TypeMismatch);
    }
    if !is_grouped(parts) {
        return Err(QueryError::NotGrouped);
    }
    Ok(())
}
