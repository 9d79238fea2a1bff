//! The rows of an answer, one after another.

ghost use Rattle.std.specs.Prelude.{◌≡◌, ◌+◌, ◌<◌, [], length, map, slice_index_or, IfOk, OnOk};
ghost use Rattle.agg_protocol.specs.Results.{outcome_of};

use agg_protocol::ResultValue;
use group_answers::RowSink;
use having_filter::Answer;
use std::alloc::{AllocError, Global};

/// A finished table: how many rows it has, and its text.
#[derive(Drop)]
pub struct FinishedTable {
    pub rows: usize,
    pub text: Vec<u8>,
}

/// The number of rows with one more. No memory has room for the texts of more rows than a `usize` counts.
pub(crate) fn one_more(rows: usize) -> Result<usize, AllocError>
    ensures { IfOk result (λ more. more ≡ rows + 1) }
{
    match rows.checked_add(1) {
        Some(more) => Ok(more),
        None => Err(AllocError),
    }
}

/// The values of a row of an answer, in the place of what `values` held.
fn values_of<'a>(
    answer: &'a Answer,
    row: usize,
    values: &mut Vec<ResultValue<'a>>,
) -> Result<(), AllocError>
    requires { row < length answer.now }
    ensures { OnOk result (map outcome_of values.new.items ≡ slice_index_or answer.now row []) }
{
    values.clear();
    for item in 0..answer.width(row) {
        values.push(answer.value(row, item))?;
    }
    Ok(())
}

/// Gives a table the rows of an answer, in their order.
pub(crate) fn push_answer<S: RowSink>(
    alloc: Global,
    answer: &Answer,
    table: &mut S,
) -> Result<(), AllocError>
    ensures { OnOk result (S.took table.old table.new answer.now) }
{
    let mut values = Vec::new(alloc);
    for row in 0..answer.len() {
        values_of(answer, row, &mut values)?;
        table.push_row(&values)?;
    }
    Ok(())
}
