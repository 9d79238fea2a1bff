//! Tables in CSV.

ghost use Rattle.std.specs.Prelude.{All, ◌≡◌, ◌<◌, ◌-◌, ◌^◌, ◌++◌, ◌∷◌, ℕ, List, [], length, map, flat_map, IfOk, OnOk, OnErr};
ghost use Rattle.csv.specs.Writing.{default_writer, writer_setup};
ghost use Rattle.csv.specs.declared.writer.Writer.{Writer};
ghost use Rattle.std.specs.declared.alloc.Global.{Global};
ghost use Rattle.std.specs.declared.vec.Vec.{Vec};
ghost use Rattle.grouping_model.specs.Aggregates.{Outcome};
ghost use Rattle.agg_protocol.specs.Results.{outcome_of};
ghost use Rattle.having_filter.specs.Meaning.{meaning};
ghost use Rattle.having_filter.specs.Kept.{headers};
ghost use Rattle.table_print.specs.Growing.{CsvTakes, HasFailed, IsCsvTable};
ghost use Rattle.table_print.specs.Table.{cell_text, table_text};
ghost use Rattle.script_io.specs.LineWriter.{IsBetween};
ghost use Rattle.table_print.specs.Writer.{IsWithin, WritesLine};

use crate::cell::cell;
use crate::rows::{FinishedTable, one_more, push_answer};
use agg_protocol::ResultValue;
use csv::Writer;
use group_answers::RowSink;
use having_filter::{Answer, Query};
use itoa::Buffer;
use std::alloc::{AllocError, Global};

/// Writes a field of a line.
fn put_field(writer: &mut Writer<Vec<u8>>, field: &[u8]) -> Result<(), AllocError>
    ensures { OnOk result ((start : Writer (Vec ℕ Global)) (fields : List (List ℕ)) → length fields < 2 ^ 64 - 1 →
        IsWithin start writer.old fields → IsWithin start writer.new (fields ++ field.now ∷ [])) }
{
    match writer.write_field(field) {
        Ok(()) => Ok(()),
        Err(_) => Err(AllocError),
    }
}

/// Ends a line.
fn end_line(writer: &mut Writer<Vec<u8>>) -> Result<(), AllocError>
    ensures line { OnOk result ((start : Writer (Vec ℕ Global)) (fields : List (List ℕ)) →
        IsWithin start writer.old fields → WritesLine start writer.new fields) }
    ensures between { OnOk result (writer_setup writer.old ≡ default_writer → IsBetween writer.new) }
{
    match writer.end_record() {
        Ok(()) => Ok(()),
        Err(_) => Err(AllocError),
    }
}

/// Writes the line of the query's headers.
fn put_headers(writer: &mut Writer<Vec<u8>>, query: &Query) -> Result<(), AllocError>
    ensures line { OnOk result (IsBetween writer.old → WritesLine writer.old writer.new (headers query.now)) }
    ensures between { OnOk result (IsBetween writer.old → IsBetween writer.new) }
{
    for item in 0..query.items().len() {
        put_field(writer, query.header(item).as_bytes())?;
    }
    end_line(writer)
}

/// Writes the line of a row.
fn put_line(writer: &mut Writer<Vec<u8>>, row: &[ResultValue<'_>]) -> Result<(), AllocError>
    ensures line { OnOk result (IsBetween writer.old →
        WritesLine writer.old writer.new (map cell_text (map outcome_of row.now))) }
    ensures between { OnOk result (IsBetween writer.old → IsBetween writer.new) }
{
    for value in row {
        put_field(writer, cell(&mut Buffer::new(), *value))?;
    }
    end_line(writer)
}

/// A table in CSV that takes its rows one after another: a header, then a line for each row. Null shows as `\N`, truth values as `t` and
/// `f`, numbers in plain decimal. Fields are quoted where RFC 4180 wants it, and each line ends with a line feed. A table to which a row
/// was not written whole, since an allocation failed, takes no row and gives no text from then on.
#[derive(Drop)]
pub struct CsvTable {
    writer: Writer<Vec<u8>>,
    /// How many rows there are.
    rows: usize,
    /// Whether a line was begun and not ended.
    failed: bool,
}

impl CsvTable {
    /// A table of a query's headers, without rows. The only error is a failed allocation.
    pub fn new(alloc: Global, query: &Query) -> Result<CsvTable, AllocError>
        ensures { IfOk result (IsCsvTable (headers query.now) []) }
    {
        let mut writer = Writer::from_writer(Vec::new(alloc));
        put_headers(&mut writer, query)?;
        Ok(CsvTable {
            writer,
            rows: 0,
            failed: false,
        })
    }

    /// Writes the line of a row, unless an earlier one failed. The only error is a failed allocation.
    fn put_row(&mut self, row: &[ResultValue<'_>]) -> Result<(), AllocError>
        ensures taken { OnOk result (CsvTakes self.old self.new (map outcome_of row.now ∷ [])) }
        ensures untaken { OnErr result (HasFailed self.new) }
    {
        if self.failed {
            return Err(AllocError);
        }
        self.failed = true;
        put_line(&mut self.writer, row)?;
        self.rows = one_more(self.rows)?;
        self.failed = false;
        Ok(())
    }

    /// The table. The only error is a failed allocation, now or for an earlier row.
    pub fn finish(self) -> Result<FinishedTable, AllocError>
        ensures text { IfOk result (λ found. (headers : List (List ℕ)) (rows : List (List Outcome)) →
            IsCsvTable headers rows self → (found.rows ≡ length rows) × (found.text.items ≡ table_text headers rows)) }
        ensures whole { OnOk result (¬ (HasFailed self)) }
    {
        if self.failed {
            return Err(AllocError);
        }
        let rows = self.rows;
        match self.writer.into_inner() {
            Ok(text) => Ok(FinishedTable { rows, text }),
            Err(_) => Err(AllocError),
        }
    }
}

impl RowSink for CsvTable {
    ghost use Rattle.table_print.specs.Growing.{CsvTakes, HasFailed};
    ghost use Rattle.table_print.specs.GrowingLaws.{csv_none, csv_both, csv_untraced};

    ghost took = { CsvTakes };

    ghost refused = { λ old new. HasFailed new };

    fn push_row(&mut self, row: &[ResultValue<'_>]) -> Result<(), AllocError> {
        self.put_row(row)
    }

    ghost none = { csv_none };

    ghost both = { csv_both };

    ghost untraced = { csv_untraced };
}

/// The answer of a query as a table in CSV: a header, then a line for each row. Each row of the answer has a value for
/// each item of the query. Null shows as `\N`, truth values as `t` and `f`, numbers in plain decimal; fields are quoted
/// where RFC 4180 wants it, and each line ends with a line feed. The only error is out of memory.
pub fn print_csv(alloc: Global, query: &Query, answer: &Answer) -> Result<Vec<u8>, AllocError>
    requires { All (λ row. length row ≡ length (meaning query.now).items) answer.now }
    ensures { IfOk result (λ text. text.items ≡ table_text (headers query.now) answer.now) }
{
    let mut table = CsvTable::new(alloc, query)?;
    push_answer(alloc, answer, &mut table)?;
    let finished = table.finish()?;
    Ok(finished.text)
}
