//! Conditions over other columns.

ghost use Rattle.std.specs.Prelude.{◌≡◌, Option, option_map, IfOk, Ok};
ghost use Rattle.query_checks.specs.Forms.{Form, form_of, call_form, item_form, map_reads, map_call};

use crate::condition::{AggCall, Cond, Item};
use std::alloc::{AllocError, Global};

/// What becomes of the columns and calls of a condition: a column becomes another one. A call becomes a column, or a call
/// over other columns.
pub trait Mapping<C, D> {
    // What a column becomes.
    ghost column_as: { Self → C → D };

    // The column that a call becomes, if it doesn't stay a call.
    ghost call_as: { Self → Form C → Option D };

    /// What a column becomes.
    fn column(&self, column: &C) -> D
        ensures { result ≡ column_as self.now column.now };

    /// The column that a call becomes, if it doesn't stay a call.
    fn call(&self, call: &AggCall<C>) -> Option<D>
        ensures { result ≡ call_as self.now (call_form call.now) };
}

/// Two operands, if there was memory for both.
fn both<D: Drop>(
    left: Result<Box<Cond<D>>, AllocError>,
    right: Result<Box<Cond<D>>, AllocError>,
) -> Result<(Box<Cond<D>>, Box<Cond<D>>), AllocError>
    ensures { IfOk result (λ made. (left ≡ Ok made.0) × (right ≡ Ok made.1)) }
{
    Ok((left?, right?))
}

/// A value in a box.
fn in_box<T: Drop>(alloc: Global, value: T) -> Result<Box<T>, AllocError>
    ensures { IfOk result (λ made. made.value ≡ value) }
{
    Ok(Box::new(alloc, value)?)
}

/// A call over other columns. It stays a call; the calls in its FILTER become what the mapping says. The only error is a failed allocation.
#[cycle(mapped)]
pub fn mapped_call<C, D: Drop, M: Mapping<C, D>>(
    alloc: Global,
    mapping: &M,
    call: &AggCall<C>,
) -> Result<AggCall<D>, AllocError>
    ensures { IfOk result (λ c. call_form c
        ≡ map_call (M.column_as mapping.now) (M.call_as mapping.now) (call_form call.now)) }
{
    let column = match &call.column {
        Some(column) => Some(mapping.column(column)),
        None => None,
    };
    let filter = match &call.filter {
        Some(filter) => Some(mapped(alloc, mapping, filter)?),
        None => None,
    };
    Ok(AggCall {
        kind: call.kind,
        column,
        filter,
    })
}

/// A call in a condition over other columns, or the column that it becomes.
#[cycle(mapped)]
fn mapped_read<C, D: Drop, M: Mapping<C, D>>(
    alloc: Global,
    mapping: &M,
    call: &AggCall<C>,
) -> Result<Cond<D>, AllocError>
    ensures { IfOk result (λ c. form_of c
        ≡ map_reads (M.column_as mapping.now) (M.call_as mapping.now) (call_form call.now)) }
{
    match mapping.call(call) {
        Some(column) => Ok(Cond::Column(column)),
        None => {
            let call = mapped_call(alloc, mapping, call)?;
            Ok(Cond::Call(in_box(alloc, call)?))
        }
    }
}

/// A condition over other columns.
#[cycle(mapped)]
fn mapped<C, D: Drop, M: Mapping<C, D>>(
    alloc: Global,
    mapping: &M,
    condition: &Cond<C>,
) -> Result<Cond<D>, AllocError>
    ensures { IfOk result (λ c. form_of c
        ≡ map_reads (M.column_as mapping.now) (M.call_as mapping.now) (form_of condition.now)) }
{
    match condition {
        Cond::Column(column) => Ok(Cond::Column(mapping.column(column))),
        Cond::Call(call) => mapped_read(alloc, mapping, call),
        Cond::Bigint(number) => Ok(Cond::Bigint(*number)),
        Cond::Text(text) => Ok(Cond::Text(String::from_str(alloc, text.as_str())?)),
        Cond::Boolean(truth) => Ok(Cond::Boolean(*truth)),
        Cond::Null => Ok(Cond::Null),
        Cond::Not(c) => Ok(Cond::Not(boxed(alloc, mapping, c)?)),
        Cond::Or(c, d) => {
            let (c, d) = both(boxed(alloc, mapping, c), boxed(alloc, mapping, d))?;
            Ok(Cond::Or(c, d))
        }
        Cond::And(c, d) => {
            let (c, d) = both(boxed(alloc, mapping, c), boxed(alloc, mapping, d))?;
            Ok(Cond::And(c, d))
        }
        Cond::Compare(comparison, c, d) => {
            let (c, d) = both(boxed(alloc, mapping, c), boxed(alloc, mapping, d))?;
            Ok(Cond::Compare(*comparison, c, d))
        }
        Cond::Is {
            test,
            negated,
            operand,
        } => Ok(Cond::Is {
            test: *test,
            negated: *negated,
            operand: boxed(alloc, mapping, operand)?,
        }),
    }
}

/// An operand over other columns.
#[cycle(mapped)]
fn boxed<C, D: Drop, M: Mapping<C, D>>(
    alloc: Global,
    mapping: &M,
    operand: &Cond<C>,
) -> Result<Box<Cond<D>>, AllocError>
    ensures { IfOk result (λ c. form_of c.value
        ≡ map_reads (M.column_as mapping.now) (M.call_as mapping.now) (form_of operand.now)) }
{
    let operand = mapped(alloc, mapping, operand)?;
    in_box(alloc, operand)
}

/// An item over other columns. A call becomes a column where the mapping says so.
pub(crate) fn mapped_item<C, D: Drop, M: Mapping<C, D>>(
    alloc: Global,
    mapping: &M,
    item: &Item<C>,
) -> Result<Item<D>, AllocError>
    ensures { IfOk result (λ i. item_form i
        ≡ map_reads (M.column_as mapping.now) (M.call_as mapping.now) (item_form item.now)) }
{
    match item {
        Item::Column(column) => Ok(Item::Column(mapping.column(column))),
        Item::Call(call) => match mapping.call(call) {
            Some(column) => Ok(Item::Column(column)),
            None => Ok(Item::Call(mapped_call(alloc, mapping, call)?)),
        },
    }
}

/// A clause, if there is one, with its columns and calls as the mapping says, those in FILTERs too. The only error is a failed allocation.
pub fn mapped_clause<C, D: Drop, M: Mapping<C, D>>(
    alloc: Global,
    mapping: &M,
    clause: &Option<Cond<C>>,
) -> Result<Option<Cond<D>>, AllocError>
    ensures { IfOk result (λ c. option_map form_of c
        ≡ option_map (map_reads (M.column_as mapping.now) (M.call_as mapping.now)) (option_map form_of clause.now)) }
{
    match clause {
        Some(condition) => Ok(Some(mapped(alloc, mapping, condition)?)),
        None => Ok(None),
    }
}
