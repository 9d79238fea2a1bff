//! Copies of calls.

ghost use Rattle.std.specs.Prelude.{◌≡◌, ◌==◌, map, IfOk};
ghost use Rattle.query_checks.specs.Forms.{call_form, call_forms};
ghost use Rattle.query_checks.specs.Calls.{distinct_calls};
ghost use Rattle.query_checks.specs.Parts.{written_of_parts};

use query_checks::{AggCall, Mapping, Parts, mapped_call};
use std::alloc::{AllocError, Global};

/// The same columns again, and the same calls.
#[derive(Drop)]
struct Unchanged;

impl Mapping<usize, usize> for Unchanged {
    ghost use Rattle.std.specs.Prelude.{None};

    ghost column_as = { λ _ column. column };

    ghost call_as = { λ _ call. None };

    fn column(&self, column: &usize) -> usize {
        *column
    }

    fn call(&self, _call: &AggCall<usize>) -> Option<usize> {
        None
    }
}

/// A copy of a call.
#[tactic(auto, using(query_checks::specs::FormLaws::call_unchanged))]
fn copied_call(alloc: Global, call: &AggCall<usize>) -> Result<AggCall<usize>, AllocError>
    ensures { IfOk result (λ c. call_form c ≡ call_form call.now) }
{
    mapped_call(alloc, &Unchanged, call)
}

/// Copies of calls.
fn copied_calls(alloc: Global, calls: &[&AggCall<usize>]) -> Result<Vec<AggCall<usize>>, AllocError>
    ensures { IfOk result (λ copies. map call_form copies.items ≡ call_forms calls.now) }
{
    let mut copies = Vec::with_capacity(alloc, calls.len())?;
    for call in calls {
        copies.push(copied_call(alloc, *call)?)?;
    }
    Ok(copies)
}

/// Copies of the distinct calls of the items and of HAVING, by the first of each.
pub(crate) fn calls_of(alloc: Global, parts: &Parts) -> Result<Vec<AggCall<usize>>, AllocError>
    ensures { IfOk result (λ calls.
        map call_form calls.items ≡ distinct_calls ◌==◌ (written_of_parts parts.now)) }
{
    let calls = parts.calls(alloc)?;
    let copies = copied_calls(alloc, &calls)?;
    Ok(copies)
}
