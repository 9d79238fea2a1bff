//! Values in one run.

ghost use Rattle.std.specs.Prelude.{◌≡◌, ◌+◌, ◌<◌, ◌++◌, ◌∷◌, [], map, take, length, slice_get, slice_range, string_bytes, Some, IfOk};
ghost use Rattle.std.specs.Prelude.{OnOk, OnErr};
ghost use Rattle.agg_protocol.specs.Results.{outcome_of};
ghost use Rattle.having_filter.specs.Answers.{outcome_in, LiesIn, IsPart, Grows};

use agg_protocol::ResultValue;
use std::alloc::{AllocError, Global};
use std::marker::Model;

/// A value. For a text it is where the text begins and ends among all texts.
#[derive(Clone, Copy, Drop)]
enum Cell {
    Null,
    Bigint(i64),
    Numeric(i128),
    Boolean(bool),
    Text { from: usize, to: usize },
}

/// Values in their order. In a clause they are the list of their outcomes.
///
/// The texts lie end to end, so a text takes no block of memory of its own.
#[derive(Drop)]
pub(crate) struct Values {
    cells: Vec<Cell>,
    texts: String,
}

impl Model for Values {
    ghost use Rattle.std.specs.Prelude.{List, string_bytes};
    ghost use Rattle.grouping_model.specs.Aggregates.{Outcome};

    ghost Value = { List Outcome };

    ghost use Rattle.having_filter.specs.Answers.{outcomes_in, AllLieIn};

    ghost view = { λ v. outcomes_in (string_bytes v.texts) v.cells.items };

    ghost invariant = { λ v. AllLieIn (string_bytes v.texts) v.cells.items };
}

/// The text from one place up to another.
fn part(text: &str, from: usize, to: usize) -> &str
    requires { IsPart text.now from to }
    ensures { result.now ≡ slice_range text.now from to }
{
    &text[from..to]
}

/// The value that a cell is.
fn shown(texts: &str, cell: Cell) -> ResultValue<'_>
    requires { LiesIn texts.now cell }
    ensures { outcome_of result ≡ outcome_in texts.now cell }
{
    match cell {
        Cell::Null => ResultValue::Null,
        Cell::Bigint(number) => ResultValue::Bigint(number),
        Cell::Numeric(number) => ResultValue::Numeric(number),
        Cell::Boolean(truth) => ResultValue::Boolean(truth),
        Cell::Text { from, to } => ResultValue::Text(part(texts, from, to)),
    }
}

/// The cell of a value, with its text, if it is one, at the end of the texts.
fn cell_of(texts: &mut String, value: ResultValue<'_>) -> Result<Cell, AllocError>
    ensures grows { Grows (string_bytes texts.old) (string_bytes texts.new) }
    ensures lies { IfOk result (λ cell. LiesIn (string_bytes texts.new) cell) }
    ensures outcome { IfOk result (λ cell. outcome_in (string_bytes texts.new) cell ≡ outcome_of value.entry) }
{
    Ok(match value {
        ResultValue::Null => Cell::Null,
        ResultValue::Bigint(number) => Cell::Bigint(number),
        ResultValue::Numeric(number) => Cell::Numeric(number),
        ResultValue::Boolean(truth) => Cell::Boolean(truth),
        ResultValue::Text(text) => {
            let from = texts.len();
            texts.push_str(text)?;
            Cell::Text {
                from,
                to: texts.len(),
            }
        }
    })
}

impl Values {
    /// No values.
    pub(crate) fn new(alloc: Global) -> Values
        ensures { result ≡ [] }
    {
        Values {
            cells: Vec::new(alloc),
            texts: String::new(alloc),
        }
    }

    /// How many values there are.
    pub(crate) fn len(&self) -> usize
        ensures { result ≡ length self.now }
    {
        self.cells.len()
    }

    /// The value `place` places after the one at `from`, the first value being at 0.
    pub(crate) fn value(&self, from: usize, place: usize) -> ResultValue<'_>
        requires { from + place < length self.now }
        ensures { slice_get self.now (from + place) ≡ Some (outcome_of result) }
    {
        let cells = &self.cells[from..];
        shown(self.texts.as_str(), cells[place])
    }

    /// Adds a value at the end. A failed allocation changes nothing.
    fn push(&mut self, value: ResultValue<'_>) -> Result<(), AllocError>
        ensures pushed { OnOk result (self.new ≡ self.old ++ outcome_of value.entry ∷ []) }
        ensures refused { OnErr result (self.new ≡ self.old) }
    {
        // With room for the cell, nothing fails once the text was written.
        self.cells.reserve(1)?;
        let cell = cell_of(&mut self.texts, value)?;
        self.cells.push(cell)?;
        Ok(())
    }

    /// Keeps the first `count` values. All texts stay, even those of the values that go.
    fn truncate(&mut self, count: usize)
        ensures { self.new ≡ take count self.old }
    {
        self.cells.truncate(count);
    }

    /// Adds values at the end. After a failed allocation some of them may have been added.
    fn push_each(&mut self, row: &[ResultValue<'_>]) -> Result<(), AllocError>
        ensures pushed { OnOk result (self.new ≡ self.old ++ map outcome_of row.now) }
        ensures refused { OnErr result (take (length self.old) self.new ≡ self.old) }
    {
        for value in row {
            self.push(*value)?;
        }
        Ok(())
    }

    /// Adds values at the end. A failed allocation changes nothing.
    pub(crate) fn extend(&mut self, row: &[ResultValue<'_>]) -> Result<(), AllocError>
        ensures pushed { OnOk result (self.new ≡ self.old ++ map outcome_of row.now) }
        ensures refused { OnErr result (self.new ≡ self.old) }
    {
        let count = self.len();
        let pushed = self.push_each(row);
        if pushed.is_err() {
            self.truncate(count);
        }
        pushed
    }
}
