//! Tests of what conditions read: their columns and calls.

ghost use Rattle.std.specs.Prelude.{◌≡◌, Bool, true, option_map};
ghost use Rattle.std.specs.List.{list_all};
ghost use Rattle.std.specs.Option.{option_map_or};
ghost use Rattle.query_checks.specs.Forms.{Form, Column, form_of, call_form, item_form, places_of};
ghost use Rattle.query_checks.specs.Reads.{reads, everywhere};

use crate::condition::{AggCall, Cond, Item};

/// A test of columns and calls.
pub(crate) trait Test<C> {
    // Whether a column or a call passes.
    ghost passes: { Self → Form C → Bool };

    /// Whether a column passes.
    fn column(&self, column: &C) -> bool
        ensures { result ≡ passes self.now (Column column.now) };

    /// Whether a call passes, whatever its FILTER reads.
    fn call(&self, call: &AggCall<C>) -> bool
        ensures { result ≡ passes self.now (call_form call.now) };
}

/// Whether all that a condition reads passes, except for what its FILTERs read.
#[tactic(auto, using(crate::proofs::ReadLaws::reads_column, crate::proofs::ReadLaws::reads_call, crate::specs::ReadLaws::both_pass))]
pub(crate) fn all_read<C, T: Test<C>>(condition: &Cond<C>, test: &T) -> bool
    ensures { result ≡ list_all (T.passes test.now) (reads (form_of condition.now)) }
{
    match condition {
        Cond::Column(column) => test.column(column),
        Cond::Call(call) => test.call(call),
        Cond::Not(c) | Cond::Is { operand: c, .. } => all_read(c, test),
        Cond::Or(c, d) | Cond::And(c, d) | Cond::Compare(_, c, d) => {
            all_read(c, test) && all_read(d, test)
        }
        _ => true,
    }
}

/// Whether all that a condition reads passes, in its FILTERs too.
#[cycle(everywhere)]
pub(crate) fn everywhere<C, T: Test<C>>(condition: &Cond<C>, test: &T) -> bool
    ensures { result ≡ everywhere (T.passes test.now) (form_of condition.now) }
{
    match condition {
        Cond::Column(column) => test.column(column),
        Cond::Call(call) => call_everywhere(call, test),
        Cond::Not(c) | Cond::Is { operand: c, .. } => everywhere(c, test),
        Cond::Or(c, d) | Cond::And(c, d) | Cond::Compare(_, c, d) => {
            everywhere(c, test) && everywhere(d, test)
        }
        _ => true,
    }
}

/// Whether a call passes, and all that its FILTER reads.
#[cycle(everywhere)]
fn call_everywhere<C, T: Test<C>>(call: &AggCall<C>, test: &T) -> bool
    ensures { result ≡ everywhere (T.passes test.now) (call_form call.now) }
{
    test.call(call)
        && match &call.filter {
            Some(filter) => everywhere(filter, test),
            None => true,
        }
}

/// Whether an item passes, and all that its FILTER reads.
pub(crate) fn item_everywhere<C, T: Test<C>>(item: &Item<C>, test: &T) -> bool
    ensures { result ≡ everywhere (T.passes test.now) (item_form item.now) }
{
    match item {
        Item::Column(column) => test.column(column),
        Item::Call(call) => call_everywhere(call, test),
    }
}

/// Whether all items pass, and all that their FILTERs read.
pub(crate) fn items_everywhere<C, T: Test<C>>(items: &[(Item<C>, Option<String>)], test: &T) -> bool
    ensures { result ≡ list_all (λ item. everywhere (T.passes test.now) item.0) (places_of items.now) }
{
    items.iter().all(|item| item_everywhere(&item.0, test))
}

/// Whether all that a clause reads passes, if there is one, in its FILTERs too.
pub(crate) fn clause_everywhere<C, T: Test<C>>(clause: &Option<Cond<C>>, test: &T) -> bool
    ensures { result ≡ option_map_or (everywhere (T.passes test.now)) (option_map form_of clause.now) true }
{
    match clause {
        Some(condition) => everywhere(condition, test),
        None => true,
    }
}
