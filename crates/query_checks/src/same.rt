//! When two conditions or calls are the same.

ghost use Rattle.std.specs.Prelude.{◌≡◌, ◌==◌};
ghost use Rattle.agg_protocol.specs.Signatures.{function_eq};
ghost use Rattle.agg_protocol.specs.Kinds.{function_of};
ghost use Rattle.query_checks.specs.Forms.{form_of, call_form, item_form};
ghost use Rattle.query_checks.specs.Operators.{comparison_of, comparison_number, test_of, test_number};
ghost use Rattle.query_checks.specs.Sameness.{form_eq, option_same};

use crate::condition::{AggCall, Cond, Item};
use crate::operators::{Comparison, IsTest};
use agg_protocol::AggKind;

/// Whether two functions are the same.
fn is_same_function(a: AggKind, b: AggKind) -> bool
    ensures { result ≡ function_eq (function_of a) (function_of b) }
{
    a == b
}

/// Whether two columns are the same, or both are absent.
fn is_same_column<C: PartialEq>(a: &Option<C>, b: &Option<C>) -> bool
    ensures { result ≡ option_same C.eq a.now b.now }
{
    match (a, b) {
        (Some(a), Some(b)) => a == b,
        (None, None) => true,
        _ => false,
    }
}

/// Whether two calls are the same: their functions and columns, and their FILTERs part by part. Conditions that mean the same but
/// are written differently are not the same.
#[cycle(same)]
pub fn is_same_call<C: PartialEq>(a: &AggCall<C>, b: &AggCall<C>) -> bool
    ensures { result ≡ form_eq C.eq (call_form a.now) (call_form b.now) }
{
    match (&a.filter, &b.filter) {
        (Some(x), Some(y)) => {
            is_same_function(a.kind, b.kind)
                && is_same_column(&a.column, &b.column)
                && is_same(x, y)
        }
        (None, None) => is_same_function(a.kind, b.kind) && is_same_column(&a.column, &b.column),
        _ => false,
    }
}

/// Whether two items are the same column or call.
pub(crate) fn is_same_item<C: PartialEq>(a: &Item<C>, b: &Item<C>) -> bool
    ensures { result ≡ form_eq C.eq (item_form a.now) (item_form b.now) }
{
    match (a, b) {
        (Item::Column(a), Item::Column(b)) => a == b,
        (Item::Call(a), Item::Call(b)) => is_same_call(a, b),
        _ => false,
    }
}

/// Whether two conditions are the same, part by part.
#[cycle(same)]
pub(crate) fn is_same<C: PartialEq>(a: &Cond<C>, b: &Cond<C>) -> bool
    ensures { result ≡ form_eq C.eq (form_of a.now) (form_of b.now) }
{
    match (a, b) {
        (Cond::Column(a), Cond::Column(b)) => a == b,
        (Cond::Call(a), Cond::Call(b)) => is_same_call(a, b),
        (Cond::Bigint(a), Cond::Bigint(b)) => a == b,
        (Cond::Text(a), Cond::Text(b)) => a == b,
        (Cond::Boolean(a), Cond::Boolean(b)) => a == b,
        (Cond::Null, Cond::Null) => true,
        (Cond::Not(a), Cond::Not(b)) => is_same(a, b),
        (Cond::Or(a, c), Cond::Or(b, d)) | (Cond::And(a, c), Cond::And(b, d)) => {
            is_same(a, b) && is_same(c, d)
        }
        (Cond::Compare(x, a, c), Cond::Compare(y, b, d)) => {
            is_same_comparison(*x, *y) && is_same(a, b) && is_same(c, d)
        }
        (
            Cond::Is {
                test,
                negated,
                operand,
            },
            Cond::Is {
                test: other,
                negated: also,
                operand: behind,
            },
        ) => negated == also && is_same_test(*test, *other) && is_same(operand, behind),
        _ => false,
    }
}

fn is_same_comparison(a: Comparison, b: Comparison) -> bool
    ensures { result ≡ (comparison_number (comparison_of a) == comparison_number (comparison_of b)) }
{
    a == b
}

fn is_same_test(a: IsTest, b: IsTest) -> bool
    ensures { result ≡ (test_number (test_of a) == test_number (test_of b)) }
{
    a == b
}
