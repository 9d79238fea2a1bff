//! The columns of an answer, as a text.

ghost use Rattle.std.specs.Prelude.{◌≡◌, ◌++◌, ◌<◌, length, slice_get, Some, IfOk, OnOk};
ghost use Rattle.agg_protocol.specs.Kinds.{function_of};
ghost use Rattle.packed_rows.specs.Columns.{kinds};
ghost use Rattle.query_checks.specs.Forms.{item_form};
ghost use Rattle.table_print.specs.AnswerColumns.{answer_column, answer_columns, item_type, item_types, result_type};

use crate::pieces::push_separator;
use agg_protocol::AggKind;
use having_filter::Query;
use packed_rows::Schema;
use query_checks::Item;
use std::alloc::{AllocError, Global};

/// The type of a function's result.
fn result_type(kind: AggKind) -> &'static str
    ensures { result.now ≡ result_type (function_of kind) }
{
    match kind {
        AggKind::Sum => "numeric",
        AggKind::CountRows | AggKind::Count | AggKind::Min | AggKind::Max => "bigint",
        AggKind::BitAnd | AggKind::BitOr | AggKind::BitXor => "bigint",
        AggKind::BoolAnd | AggKind::BoolOr | AggKind::Every => "boolean",
    }
}

/// The type of an item over a table's columns.
fn item_type(schema: &Schema, item: &Item<usize>) -> &'static str
    ensures { result.now ≡ item_type (kinds schema.now) (item_form item.now) }
{
    match item {
        Item::Column(place) => match schema.kinds().get(*place) {
            Some(kind) => kind.as_str(),
            None => "",
        },
        Item::Call(call) => result_type(call.kind),
    }
}

/// The type of an item of a query, the first being 0.
fn type_at(query: &Query, item: usize) -> &'static str
    requires { item < length query.now.written.items }
    ensures { slice_get (item_types query.now) item ≡ Some result.now }
{
    item_type(query.schema(), &query.items()[item].0)
}

/// Appends a column's name and its type.
fn push_column(out: &mut Vec<u8>, name: &str, type_name: &str) -> Result<(), AllocError>
    ensures { OnOk result (out.new.items ≡ out.old.items ++ answer_column (name.now, type_name.now)) }
{
    out.extend_from_slice(name.as_bytes())?;
    out.push(b' ')?;
    out.extend_from_slice(type_name.as_bytes())?;
    Ok(())
}

/// The columns of a query's answer, as `city text, count bigint, sum numeric`: of each item its alias, or else the name of its column or
/// function, and its type. A sum is a numeric, any other item a bigint, a boolean or a text. A name may stand twice. The only error is a
/// failed allocation.
pub fn print_columns(alloc: Global, query: &Query) -> Result<Vec<u8>, AllocError>
    ensures { IfOk result (λ text. text.items ≡ answer_columns query.now) }
{
    let mut text = Vec::new(alloc);
    for item in 0..query.items().len() {
        push_separator(&mut text, item, b", ")?;
        push_column(&mut text, query.header(item), type_at(query, item))?;
    }
    Ok(text)
}
