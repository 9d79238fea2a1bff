//! Tables in TSV.

ghost use Rattle.std.specs.Prelude.{All, ◌≡◌, ◌++◌, ◌∷◌, ℕ, List, [], length, map, flat_map, IfOk, OnOk, OnErr};
ghost use Rattle.std.specs.List.{join_by};
ghost use Rattle.grouping_model.specs.Aggregates.{Outcome};
ghost use Rattle.agg_protocol.specs.Results.{outcome_of};
ghost use Rattle.having_filter.specs.Meaning.{meaning};
ghost use Rattle.having_filter.specs.Kept.{headers};
ghost use Rattle.table_print.specs.Growing.{IsTsvTable, Stays, Takes};
ghost use Rattle.table_print.specs.Tsv.{behind_backslash, tsv_byte, tsv_cell, tsv_header, tsv_letter, tsv_row, tsv_text, tsv_value};

use crate::cell::cell;
use crate::pieces::push_separator;
use crate::rows::{FinishedTable, one_more, push_answer};
use agg_protocol::ResultValue;
use group_answers::RowSink;
use having_filter::{Answer, Query};
use itoa::Buffer;
use std::alloc::{AllocError, Global};

/// What stands behind a backslash for a byte, where it can't stand for itself.
fn tsv_letter(byte: u8) -> Option<u8>
    ensures { result ≡ tsv_letter byte }
{
    match byte {
        8 => Some(b'b'),
        9 => Some(b't'),
        10 => Some(b'n'),
        11 => Some(b'v'),
        12 => Some(b'f'),
        13 => Some(b'r'),
        92 => Some(b'\\'),
        _ => None,
    }
}

/// Appends a byte of a value.
fn push_byte(out: &mut Vec<u8>, byte: u8) -> Result<(), AllocError>
    ensures { OnOk result (out.new.items ≡ out.old.items ++ tsv_byte byte) }
{
    match tsv_letter(byte) {
        Some(letter) => out.extend_from_slice(&[b'\\', letter])?,
        None => out.push(byte)?,
    }
    Ok(())
}

/// Appends a text as a value.
fn push_value(out: &mut Vec<u8>, text: &[u8]) -> Result<(), AllocError>
    ensures { OnOk result (out.new.items ≡ out.old.items ++ tsv_value text.now) }
{
    for byte in text {
        push_byte(out, *byte)?;
    }
    Ok(())
}

/// Appends an item of a row.
fn push_cell(out: &mut Vec<u8>, value: ResultValue<'_>) -> Result<(), AllocError>
    ensures { OnOk result (out.new.items ≡ out.old.items ++ tsv_cell (outcome_of value.entry)) }
{
    if let ResultValue::Null = value {
        out.extend_from_slice(b"\\N")?;
        return Ok(());
    }
    push_value(out, cell(&mut Buffer::new(), value))
}

/// Appends the line of the headers.
fn push_header(out: &mut Vec<u8>, query: &Query) -> Result<(), AllocError>
    ensures { OnOk result (out.new.items ≡ out.old.items ++ tsv_header (headers query.now)) }
{
    for item in 0..query.items().len() {
        push_separator(out, item, b"\t")?;
        push_value(out, query.header(item).as_bytes())?;
    }
    out.push(b'\n')?;
    Ok(())
}

/// Appends the line of a row.
fn push_line(out: &mut Vec<u8>, row: &[ResultValue<'_>]) -> Result<(), AllocError>
    ensures { OnOk result (out.new.items ≡ out.old.items ++ tsv_row (map outcome_of row.now)) }
{
    for item in 0..row.len() {
        push_separator(out, item, b"\t")?;
        push_cell(out, row[item])?;
    }
    out.push(b'\n')?;
    Ok(())
}

/// A table in PostgreSQL's text format of COPY that takes its rows one after another: a header, then a line for each row, values parted by
/// tabs. Null shows as `\N`, truth values as `t` and `f`, numbers in plain decimal. In texts a backspace shows as `\b`, a tab as `\t`, a
/// line feed as `\n` and a vertical tab as `\v`. A form feed shows as `\f`, a carriage return as `\r` and a backslash as `\\`. Each line
/// ends with a line feed, and has no other.
#[derive(Drop)]
pub struct TsvTable {
    text: Vec<u8>,
    /// The line that is being made. It goes to the text as a whole.
    line: Vec<u8>,
    /// How many rows there are.
    rows: usize,
}

impl TsvTable {
    /// A table of a query's headers, without rows. The only error is a failed allocation.
    pub fn new(alloc: Global, query: &Query) -> Result<TsvTable, AllocError>
        ensures { IfOk result (IsTsvTable (headers query.now) []) }
    {
        let mut text = Vec::new(alloc);
        push_header(&mut text, query)?;
        let line = Vec::new(alloc);
        Ok(TsvTable {
            text,
            line,
            rows: 0,
        })
    }

    /// Writes the line of a row. The only error is a failed allocation, which leaves the table as it was.
    fn put_row(&mut self, row: &[ResultValue<'_>]) -> Result<(), AllocError>
        ensures taken { OnOk result (Takes IsTsvTable self.old self.new (map outcome_of row.now ∷ [])) }
        ensures untaken { OnErr result (Stays IsTsvTable self.old self.new) }
    {
        self.line.clear();
        push_line(&mut self.line, row)?;
        let rows = one_more(self.rows)?;
        self.text.extend_from_slice(&self.line)?;
        self.rows = rows;
        Ok(())
    }

    /// The table.
    pub fn finish(self) -> FinishedTable
        ensures { (headers : List (List ℕ)) (rows : List (List Outcome)) → IsTsvTable headers rows self →
            (result.rows ≡ length rows) × (result.text.items ≡ tsv_text headers rows) }
    {
        FinishedTable {
            rows: self.rows,
            text: self.text,
        }
    }
}

impl RowSink for TsvTable {
    ghost use Rattle.table_print.specs.Growing.{IsTsvTable, Stays, Takes};
    ghost use Rattle.table_print.specs.GrowingLaws.{none_taken, both_taken, stays_untraced};

    ghost took = { Takes IsTsvTable };

    ghost refused = { Stays IsTsvTable };

    fn push_row(&mut self, row: &[ResultValue<'_>]) -> Result<(), AllocError> {
        self.put_row(row)
    }

    ghost none = { none_taken IsTsvTable };

    ghost both = { both_taken IsTsvTable };

    ghost untraced = { stays_untraced IsTsvTable };
}

/// The answer of a query as a table in PostgreSQL's text format of COPY: a header, then a line for each row, values parted by tabs. Each
/// row of the answer has a value for each item of the query. Null shows as `\N`, truth values as `t` and `f`, numbers in plain decimal. In
/// texts a backspace shows as `\b`, a tab as `\t`, a line feed as `\n` and a vertical tab as `\v`. A form feed shows as `\f`, a carriage
/// return as `\r` and a backslash as `\\`. Each line ends with a line feed, and has no other. The only error is a failed allocation.
pub fn print_tsv(alloc: Global, query: &Query, answer: &Answer) -> Result<Vec<u8>, AllocError>
    requires { All (λ row. length row ≡ length (meaning query.now).items) answer.now }
    ensures { IfOk result (λ text. text.items ≡ tsv_text (headers query.now) answer.now) }
{
    let mut table = TsvTable::new(alloc, query)?;
    push_answer(alloc, answer, &mut table)?;
    let finished = table.finish();
    Ok(finished.text)
}
