//! The clauses after HAVING, which arrange the rows of the answer.

ghost use Rattle.std.specs.Prelude.{◌≡◌, ◌++◌, Ok, Err, OnOk, IfOk, IfErr, string_bytes};
ghost use Rattle.query_checks.specs.Arrangement.{asked_of, arrangement_held, arrangement_of, checked_arrangement, arrangement_text};

use crate::condition::RawQuery;
use crate::error::QueryError;
use crate::order::{OrderTerm, is_ambiguously_ordered, order_of};
use crate::spelling::push_order;
use std::alloc::{AllocError, Global};

/// How the rows of a query's answer are arranged.
#[derive(Drop)]
pub struct Arrangement {
    /// The terms of ORDER BY that remain, each by an item of its own.
    pub order: Vec<OrderTerm>,
}

/// How the rows of a query's answer are arranged, by the terms of ORDER BY that mean exactly one item.
pub(crate) fn arrangement_of(alloc: Global, raw: &RawQuery) -> Result<Arrangement, AllocError>
    ensures { IfOk result (λ held. arrangement_held held ≡ arrangement_of (asked_of raw.now)) }
{
    let order = order_of(alloc, raw)?;
    Ok(Arrangement { order })
}

/// Appends the clauses that arrange an answer, if there are any.
pub(crate) fn push_arrangement(
    text: &mut String,
    arrangement: &Arrangement,
) -> Result<(), AllocError>
    ensures { OnOk result (string_bytes text.new
        ≡ string_bytes text.old ++ arrangement_text (arrangement_held arrangement.now)) }
{
    push_order(text, &arrangement.order)
}

/// Whether each term of ORDER BY that names an item by its name means exactly one.
///
/// # Errors
///
/// `AmbiguousOrder` for a name of two items that are not the same column or call.
#[tactic(auto, unfolding(crate::specs::Arrangement::checked_arrangement))]
pub fn check_arrangement(raw: &RawQuery) -> Result<(), QueryError>
    ensures passed { OnOk result (checked_arrangement (asked_of raw.now)
        ≡ Ok (arrangement_of (asked_of raw.now))) }
    ensures refused { IfErr result (λ e. checked_arrangement (asked_of raw.now) ≡ Err e) }
{
    if is_ambiguously_ordered(raw) {
        return Err(QueryError::AmbiguousOrder);
    }
    Ok(())
}
