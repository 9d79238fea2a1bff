//! The distinct calls of a query.

ghost use Rattle.std.specs.Prelude.{◌≡◌, ◌==◌, ◌++◌, [], nat_lt, length, option_map, OnOk, IfOk};
ghost use Rattle.std.specs.List.{flat_map};
ghost use Rattle.std.specs.Option.{option_map_or};
ghost use Rattle.std.specs.Str.{bytes_eq};
ghost use Rattle.query_checks.specs.Forms.{form_of, call_forms, item_form, written_of};
ghost use Rattle.query_checks.specs.Reads.{calls_in};
ghost use Rattle.query_checks.specs.Calls.{distinct_calls};
ghost use Rattle.query_checks.specs.Parts.{written_of_parts};

use crate::condition::{AggCall, Cond, Item, RawQuery};
use crate::distinct::distinct;
use crate::parts::Parts;
use grouping_model::limits::MAX_CALLS;
use std::alloc::{AllocError, Global};

/// Adds the calls in a condition after others, from the left.
#[tactic(auto, using(crate::proofs::ReadLaws::calls_in_call, crate::specs::ReadLaws::calls_in_two))]
fn push_calls<'a, C>(
    calls: &mut Vec<&'a AggCall<C>>,
    condition: &'a Cond<C>,
) -> Result<(), AllocError>
    ensures { OnOk result (call_forms calls.new.items
        ≡ call_forms calls.old.items ++ calls_in (form_of condition.now)) }
{
    match condition {
        Cond::Call(call) => {
            calls.push(call)?;
            Ok(())
        }
        Cond::Not(c) | Cond::Is { operand: c, .. } => push_calls(calls, c),
        Cond::Or(c, d) | Cond::And(c, d) | Cond::Compare(_, c, d) => {
            push_calls(calls, c)?;
            push_calls(calls, d)
        }
        _ => Ok(()),
    }
}

/// Adds the call of an item after others, if it is one.
#[tactic(auto, using(crate::proofs::ReadLaws::calls_in_call))]
fn push_item_call<'a, C>(
    calls: &mut Vec<&'a AggCall<C>>,
    item: &'a Item<C>,
) -> Result<(), AllocError>
    ensures { OnOk result (call_forms calls.new.items
        ≡ call_forms calls.old.items ++ calls_in (item_form item.now)) }
{
    match item {
        Item::Column(_) => Ok(()),
        Item::Call(call) => {
            calls.push(call)?;
            Ok(())
        }
    }
}

/// The calls of items.
fn calls_of_items<'a, C>(
    alloc: Global,
    items: &'a [(Item<C>, Option<String>)],
) -> Result<Vec<&'a AggCall<C>>, AllocError>
    ensures { IfOk result (λ calls. call_forms calls.items
        ≡ flat_map (λ item. calls_in (item_form item.0)) items.now) }
{
    let mut calls = Vec::new(alloc);
    for item in items {
        push_item_call(&mut calls, &item.0)?;
    }
    Ok(calls)
}

/// Adds the calls of a clause after others, if there is one.
fn push_clause_calls<'a, C>(
    calls: &mut Vec<&'a AggCall<C>>,
    clause: &'a Option<Cond<C>>,
) -> Result<(), AllocError>
    ensures { OnOk result (call_forms calls.new.items ≡ call_forms calls.old.items
        ++ option_map_or calls_in (option_map form_of clause.now) []) }
{
    match clause {
        Some(condition) => push_calls(calls, condition),
        None => Ok(()),
    }
}

/// The calls of items and of HAVING, from the left.
fn all_calls<'a, C>(
    alloc: Global,
    items: &'a [(Item<C>, Option<String>)],
    having: &'a Option<Cond<C>>,
) -> Result<Vec<&'a AggCall<C>>, AllocError>
    ensures { IfOk result (λ calls. call_forms calls.items
        ≡ flat_map (λ item. calls_in (item_form item.0)) items.now
        ++ option_map_or calls_in (option_map form_of having.now) []) }
{
    let mut calls = calls_of_items(alloc, items)?;
    push_clause_calls(&mut calls, having)?;
    Ok(calls)
}

/// Whether the items and HAVING have more distinct calls than a query may have.
pub(crate) fn has_too_many_calls(alloc: Global, raw: &RawQuery) -> Result<bool, AllocError>
    ensures { IfOk result (λ many.
        many ≡ nat_lt MAX_CALLS (length (distinct_calls bytes_eq (written_of raw.now)))) }
{
    let calls = all_calls(alloc, &raw.items, &raw.having)?;
    let found = distinct(alloc, &calls, MAX_CALLS)?;
    Ok(found.len() > MAX_CALLS)
}

impl Parts {
    /// The distinct calls of the items and of HAVING, by the first of each. The only error is a failed allocation.
    pub fn calls(&self, alloc: Global) -> Result<Vec<&AggCall<usize>>, AllocError>
        ensures { IfOk result (λ calls.
            call_forms calls.items ≡ distinct_calls ◌==◌ (written_of_parts self.now)) }
    {
        let calls = all_calls(alloc, &self.items, &self.having)?;
        let found = distinct(alloc, &calls, calls.len())?;
        Ok(found)
    }
}
