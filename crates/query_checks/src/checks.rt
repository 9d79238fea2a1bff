//! The checks of conditions.

ghost use Rattle.std.specs.Prelude.{◌≡◌, min, ◌-◌, ◌^◌, Bool, option_map};
ghost use Rattle.agg_protocol.specs.Signatures.{signature};
ghost use Rattle.agg_protocol.specs.Kinds.{function_of};
ghost use Rattle.packed_rows.specs.View.{kind_of, kinds_of};
ghost use Rattle.query_checks.specs.Forms.{Testing, form_of, call_form};
ghost use Rattle.query_checks.specs.Operators.{test_of};
ghost use Rattle.query_checks.specs.Reads.{is_plain, is_grouped_by};
ghost use Rattle.query_checks.specs.Checks.{depth, is_shallow, are_shallow, kind_of_form, kind_asked, kinds_agree, is_boolean};
ghost use Rattle.query_checks.specs.Checks.{takes_column, takes_one, operands_fit, condition_fits};

use crate::condition::{AggCall, Cond};
use crate::operators::IsTest;
use crate::reads::{Test, all_read, everywhere};
use agg_protocol::{AggKind, Argument};
use grouping_model::limits::DEEPEST_CONDITION;
use packed_rows::ValueKind;

/// How deep a condition is, or 2^64 - 1 if it is deeper.
fn depth<C>(condition: &Cond<C>) -> u64
    ensures { result ≡ min (depth (form_of condition.now)) (2 ^ 64 - 1) }
{
    match condition {
        Cond::Not(c) | Cond::Is { operand: c, .. } => depth(c).saturating_add(1),
        Cond::Or(c, d) | Cond::And(c, d) | Cond::Compare(_, c, d) => {
            depth(c).max(depth(d)).saturating_add(1)
        }
        _ => 1,
    }
}

/// Whether a condition is not too deep, a FILTER in it having a depth of its own.
fn is_shallow<C>(condition: &Cond<C>) -> bool
    ensures { result ≡ is_shallow (form_of condition.now) }
{
    depth(condition) <= DEEPEST_CONDITION
}

/// The test that no FILTER is too deep.
#[derive(Drop)]
pub(crate) struct ShallowFilters;

impl<C> Test<C> for ShallowFilters {
    ghost use Rattle.std.specs.Prelude.{true};
    ghost use Rattle.std.specs.Option.{option_map_or};
    ghost use Rattle.query_checks.specs.Reads.{filter_of};
    ghost use Rattle.query_checks.specs.Checks.{is_shallow};

    ghost passes = { λ _ leaf. option_map_or is_shallow (filter_of leaf) true };

    fn column(&self, _column: &C) -> bool {
        true
    }

    fn call(&self, call: &AggCall<C>) -> bool {
        match &call.filter {
            Some(filter) => is_shallow(filter),
            None => true,
        }
    }
}

/// Whether a condition and the FILTERs in it are not too deep.
pub(crate) fn are_shallow<C>(condition: &Cond<C>) -> bool
    ensures { result ≡ are_shallow (form_of condition.now) }
{
    is_shallow(condition) && everywhere(condition, &ShallowFilters)
}

/// The test that there is no aggregate.
#[derive(Drop)]
struct NoCalls;

impl<C> Test<C> for NoCalls {
    ghost use Rattle.std.specs.Prelude.{not};
    ghost use Rattle.query_checks.specs.Reads.{is_call};

    ghost passes = { λ _ leaf. not (is_call leaf) };

    fn column(&self, _column: &C) -> bool {
        true
    }

    #[tactic(auto, using(crate::proofs::ReadLaws::call_is_call))]
    fn call(&self, _call: &AggCall<C>) -> bool {
        false
    }
}

/// Whether no aggregate stands in a condition.
pub(crate) fn is_plain<C>(condition: &Cond<C>) -> bool
    ensures { result ≡ is_plain (form_of condition.now) }
{
    all_read(condition, &NoCalls)
}

/// The test that no aggregate stands in a FILTER.
#[derive(Drop)]
pub(crate) struct PlainFilters;

impl<C> Test<C> for PlainFilters {
    ghost use Rattle.std.specs.Prelude.{true};
    ghost use Rattle.std.specs.Option.{option_map_or};
    ghost use Rattle.query_checks.specs.Reads.{filter_of, is_plain};

    ghost passes = { λ _ leaf. option_map_or is_plain (filter_of leaf) true };

    fn column(&self, _column: &C) -> bool {
        true
    }

    fn call(&self, call: &AggCall<C>) -> bool {
        match &call.filter {
            Some(filter) => is_plain(filter),
            None => true,
        }
    }
}

/// The kind of an operand, null having none.
fn kind_of_operand(kinds: &[ValueKind], operand: &Cond<usize>) -> Option<ValueKind>
    ensures { option_map kind_of result ≡ kind_of_form (kinds_of kinds.now) (form_of operand.now) }
{
    match operand {
        Cond::Column(place) => kinds.get(*place).copied(),
        Cond::Call(call) => Some(call.kind.result()),
        Cond::Bigint(_) => Some(ValueKind::Bigint),
        Cond::Text(_) => Some(ValueKind::Text),
        Cond::Null => None,
        _ => Some(ValueKind::Boolean),
    }
}

/// Whether two kinds are the same, null being of every kind.
fn kinds_agree(a: Option<ValueKind>, b: Option<ValueKind>) -> bool
    ensures { result ≡ kinds_agree (option_map kind_of a) (option_map kind_of b) }
{
    match (a, b) {
        (Some(a), Some(b)) => a == b,
        _ => true,
    }
}

/// Whether an operand is boolean or null.
fn is_boolean(kinds: &[ValueKind], operand: &Cond<usize>) -> bool
    ensures { result ≡ is_boolean (kind_of_form (kinds_of kinds.now) (form_of operand.now)) }
{
    kinds_agree(kind_of_operand(kinds, operand), Some(ValueKind::Boolean))
}

/// The kind that a function's argument must have, or `None` if any kind will do.
fn kind_asked(function: AggKind) -> Option<ValueKind>
    ensures { option_map kind_of result ≡ kind_asked (signature (function_of function)).argument }
{
    match function.argument() {
        Argument::ValuesOf(kind) => Some(kind),
        _ => None,
    }
}

/// Whether a function takes a column.
fn takes_column(kinds: &[ValueKind], function: AggKind, column: Option<usize>) -> bool
    ensures { result ≡ takes_column (kinds_of kinds.now) (function_of function) column }
{
    match column {
        Some(place) => kinds_agree(kinds.get(place).copied(), kind_asked(function)),
        None => true,
    }
}

/// Whether an IS test may be made of an operand: IS NULL of any, the others of booleans.
fn may_test(kinds: &[ValueKind], test: IsTest, operand: &Cond<usize>) -> bool
    ensures { (negated : Bool) → result ≡ takes_one (Testing (test_of test) negated)
        (kind_of_form (kinds_of kinds.now) (form_of operand.now)) }
{
    match test {
        IsTest::IsNull => true,
        _ => is_boolean(kinds, operand),
    }
}

/// Whether the column and the FILTER of a call have kinds that fit.
#[cycle(fits)]
pub(crate) fn call_fits(kinds: &[ValueKind], call: &AggCall<usize>) -> bool
    ensures { result ≡ operands_fit (kinds_of kinds.now) (call_form call.now) }
{
    takes_column(kinds, call.kind, call.column)
        && match &call.filter {
            Some(filter) => condition_fits(kinds, filter),
            None => true,
        }
}

/// Whether the operands and arguments in a condition have kinds that fit.
#[cycle(fits)]
fn operands_fit(kinds: &[ValueKind], condition: &Cond<usize>) -> bool
    ensures { result ≡ operands_fit (kinds_of kinds.now) (form_of condition.now) }
{
    match condition {
        Cond::Call(call) => call_fits(kinds, call),
        Cond::Not(c) => condition_fits(kinds, c),
        Cond::Or(c, d) | Cond::And(c, d) => {
            operands_fit(kinds, c)
                && operands_fit(kinds, d)
                && is_boolean(kinds, c)
                && is_boolean(kinds, d)
        }
        Cond::Compare(_, c, d) => {
            operands_fit(kinds, c)
                && operands_fit(kinds, d)
                && kinds_agree(kind_of_operand(kinds, c), kind_of_operand(kinds, d))
        }
        Cond::Is { test, operand, .. } => {
            operands_fit(kinds, operand) && may_test(kinds, *test, operand)
        }
        _ => true,
    }
}

/// Whether a condition is boolean, and its operands and arguments have kinds that fit.
#[cycle(fits)]
pub(crate) fn condition_fits(kinds: &[ValueKind], condition: &Cond<usize>) -> bool
    ensures { result ≡ condition_fits (kinds_of kinds.now) (form_of condition.now) }
{
    operands_fit(kinds, condition) && is_boolean(kinds, condition)
}

/// The test that columns are keys.
#[derive(Drop)]
struct Keys<'a> {
    keys: &'a [usize],
}

impl<'a> Test<usize> for Keys<'a> {
    ghost use Rattle.query_checks.specs.Reads.{is_key};

    ghost passes = { λ t leaf. is_key t.keys.now leaf };

    fn column(&self, column: &usize) -> bool {
        self.keys.contains(column)
    }

    #[tactic(auto, using(crate::proofs::ReadLaws::call_is_no_key))]
    fn call(&self, _call: &AggCall<usize>) -> bool {
        true
    }
}

/// Whether the columns of a condition that stand outside calls are keys.
pub(crate) fn is_grouped_by(keys: &[usize], condition: &Cond<usize>) -> bool
    ensures { result ≡ is_grouped_by keys.now (form_of condition.now) }
{
    all_read(condition, &Keys { keys })
}
