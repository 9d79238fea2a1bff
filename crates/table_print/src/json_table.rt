//! Answers in JSON, an object a line.

ghost use Rattle.std.specs.Prelude.{All, ◌≡◌, ◌+◌, ◌<◌, ◌++◌, ◌∷◌, ◌==◌, ℕ, List, [], length, map, flat_map, codes, decimal, take};
ghost use Rattle.std.specs.Prelude.{slice_index_or, if◌then◌else◌, IfOk, OnOk, OnErr};
ghost use Rattle.std.specs.List.{list_any};
ghost use Rattle.std.specs.Str.{bytes_eq};
ghost use Rattle.grouping_model.specs.Aggregates.{Outcome};
ghost use Rattle.agg_protocol.specs.Results.{outcome_of};
ghost use Rattle.packed_rows.specs.View.{bytes_of};
ghost use Rattle.having_filter.specs.Meaning.{meaning};
ghost use Rattle.having_filter.specs.Kept.{headers};
ghost use Rattle.table_print.specs.Growing.{IsJsonTable, Stays, Takes};
ghost use Rattle.table_print.specs.Json.{json_byte, json_letter, json_member, json_names, json_row, json_string, json_text, json_value};
ghost use Rattle.table_print.specs.Json.{escaped_as, name_of, plain_byte};

use crate::cell::cell;
use crate::pieces::{hex_digit, push_separator};
use crate::rows::{FinishedTable, one_more, push_answer};
use agg_protocol::ResultValue;
use group_answers::RowSink;
use having_filter::{Answer, Query};
use itoa::Buffer;
use std::alloc::{AllocError, Global};

/// What stands behind a backslash for a byte, where it can't stand for itself and has such a short form.
fn json_letter(byte: u8) -> Option<u8>
    ensures { result ≡ json_letter byte }
{
    match byte {
        8 => Some(b'b'),
        9 => Some(b't'),
        10 => Some(b'n'),
        12 => Some(b'f'),
        13 => Some(b'r'),
        34 => Some(b'"'),
        92 => Some(b'\\'),
        _ => None,
    }
}

/// Appends a byte that has no short form.
fn push_plain(out: &mut Vec<u8>, byte: u8) -> Result<(), AllocError>
    ensures { OnOk result (out.new.items ≡ out.old.items ++ plain_byte byte) }
{
    if byte < b' ' {
        out.extend_from_slice(&[
            b'\\',
            b'u',
            b'0',
            b'0',
            hex_digit(byte / 16),
            hex_digit(byte % 16),
        ])?;
    } else {
        out.push(byte)?;
    }
    Ok(())
}

/// Appends a byte of a string.
fn push_byte(out: &mut Vec<u8>, byte: u8) -> Result<(), AllocError>
    ensures { OnOk result (out.new.items ≡ out.old.items ++ json_byte byte) }
{
    match json_letter(byte) {
        Some(letter) => {
            out.extend_from_slice(&[b'\\', letter])?;
            Ok(())
        }
        None => push_plain(out, byte),
    }
}

/// Appends the bytes of a string.
fn push_bytes(out: &mut Vec<u8>, text: &[u8]) -> Result<(), AllocError>
    ensures { OnOk result (out.new.items ≡ out.old.items ++ flat_map json_byte text.now) }
{
    for byte in text {
        push_byte(out, *byte)?;
    }
    Ok(())
}

/// Appends a string.
fn push_string(out: &mut Vec<u8>, text: &[u8]) -> Result<(), AllocError>
    ensures { OnOk result (out.new.items ≡ out.old.items ++ json_string text.now) }
{
    out.push(b'"')?;
    push_bytes(out, text)?;
    out.push(b'"')?;
    Ok(())
}

/// Appends a value.
fn push_value(out: &mut Vec<u8>, value: ResultValue<'_>) -> Result<(), AllocError>
    ensures { OnOk result (out.new.items ≡ out.old.items ++ json_value (outcome_of value.entry)) }
{
    match value {
        ResultValue::Null => out.extend_from_slice(b"null")?,
        ResultValue::Boolean(true) => out.extend_from_slice(b"true")?,
        ResultValue::Boolean(false) => out.extend_from_slice(b"false")?,
        ResultValue::Text(text) => push_string(out, text.as_bytes())?,
        number => out.extend_from_slice(cell(&mut Buffer::new(), number))?,
    }
    Ok(())
}

/// Whether an earlier item of a query has the same header.
fn is_repeated(query: &Query, item: usize) -> bool
    requires { item < length query.now.written.items }
    ensures { result ≡ list_any (bytes_eq (slice_index_or (headers query.now) item [])) (take item (headers query.now)) }
{
    for earlier in 0..item {
        if query.header(item) == query.header(earlier) {
            return true;
        }
    }
    false
}

/// Appends a dot and a place to a name that is met again.
fn push_place(name: &mut Vec<u8>, repeated: bool, place: usize) -> Result<(), AllocError>
    ensures { OnOk result (name.new.items
        ≡ name.old.items ++ (if repeated then codes "." ++ decimal place else [])) }
{
    if repeated {
        name.push(b'.')?;
        name.extend_from_slice(Buffer::new().format(place).as_bytes())?;
    }
    Ok(())
}

/// The name of an item in an object, as a string. The item stands in this place of the query, the first being 1.
fn name_of_item(
    alloc: Global,
    query: &Query,
    item: usize,
    place: usize,
) -> Result<Vec<u8>, AllocError>
    requires item { item < length query.now.written.items }
    requires place { place ≡ item + 1 }
    ensures { IfOk result (λ name. name.items
        ≡ json_string (name_of (headers query.now) (item, slice_index_or (headers query.now) item []))) }
{
    let mut name = Vec::new(alloc);
    name.extend_from_slice(query.header(item).as_bytes())?;
    push_place(&mut name, is_repeated(query, item), place)?;
    let mut text = Vec::new(alloc);
    push_string(&mut text, &name)?;
    Ok(text)
}

/// The names of all items.
fn names_of(alloc: Global, query: &Query) -> Result<Vec<Vec<u8>>, AllocError>
    ensures { IfOk result (λ names. bytes_of names.items ≡ json_names (headers query.now)) }
{
    let mut names = Vec::new(alloc);
    for item in 0..query.items().len() {
        let name = name_of_item(alloc, query, item, item + 1)?;
        names.push(name)?;
    }
    Ok(names)
}

/// Appends a member of an object, the first being in place 0.
fn push_member(
    out: &mut Vec<u8>,
    place: usize,
    name: &[u8],
    value: ResultValue<'_>,
) -> Result<(), AllocError>
    ensures { OnOk result (out.new.items ≡ out.old.items ++ (if place == 0 then [] else codes ",")
        ++ json_member (name.now, outcome_of value.entry)) }
{
    push_separator(out, place, b",")?;
    out.extend_from_slice(name)?;
    out.push(b':')?;
    push_value(out, value)
}

/// Appends the object of a row, whose members are as many as there are names and values for.
fn push_object(
    out: &mut Vec<u8>,
    names: &[Vec<u8>],
    row: &[ResultValue<'_>],
) -> Result<(), AllocError>
    ensures { OnOk result (out.new.items
        ≡ out.old.items ++ json_row (bytes_of names.now) (map outcome_of row.now)) }
{
    out.push(b'{')?;
    for item in 0..names.len().min(row.len()) {
        push_member(out, item, &names[item], row[item])?;
    }
    out.extend_from_slice(b"}\n")?;
    Ok(())
}

/// A table in JSON that takes its rows one after another: an object of JSON (RFC 8259) on a line for each row, with a member for each item
/// of the query, by its header. Null, true and false are these words, texts are strings, and numbers stand in plain decimal, those past
/// 2^53 too, which some readers round. An item whose header an earlier item has is named by it, a dot and its place, as `sum.3`, the first
/// place being 1. Each line ends with a line feed, and has no other.
#[derive(Drop)]
pub struct JsonTable {
    /// The names of the members, each as a string of JSON.
    names: Vec<Vec<u8>>,
    text: Vec<u8>,
    /// The line that is being made. It goes to the text as a whole.
    line: Vec<u8>,
    /// How many rows there are.
    rows: usize,
}

impl JsonTable {
    /// A table of a query's headers, without rows. The only error is a failed allocation.
    pub fn new(alloc: Global, query: &Query) -> Result<JsonTable, AllocError>
        ensures { IfOk result (IsJsonTable (headers query.now) []) }
    {
        let names = names_of(alloc, query)?;
        let text = Vec::new(alloc);
        let line = Vec::new(alloc);
        let rows = 0;
        Ok(JsonTable {
            names,
            text,
            line,
            rows,
        })
    }

    /// Writes the object of a row. The only error is a failed allocation, which leaves the table as it was.
    fn put_row(&mut self, row: &[ResultValue<'_>]) -> Result<(), AllocError>
        ensures taken { OnOk result (Takes IsJsonTable self.old self.new (map outcome_of row.now ∷ [])) }
        ensures untaken { OnErr result (Stays IsJsonTable self.old self.new) }
    {
        self.line.clear();
        push_object(&mut self.line, &self.names, row)?;
        let rows = one_more(self.rows)?;
        self.text.extend_from_slice(&self.line)?;
        self.rows = rows;
        Ok(())
    }

    /// The table.
    pub fn finish(self) -> FinishedTable
        ensures { (headers : List (List ℕ)) (rows : List (List Outcome)) → IsJsonTable headers rows self →
            (result.rows ≡ length rows) × (result.text.items ≡ json_text headers rows) }
    {
        FinishedTable {
            rows: self.rows,
            text: self.text,
        }
    }
}

impl RowSink for JsonTable {
    ghost use Rattle.table_print.specs.Growing.{IsJsonTable, Stays, Takes};
    ghost use Rattle.table_print.specs.GrowingLaws.{none_taken, both_taken, stays_untraced};

    ghost took = { Takes IsJsonTable };

    ghost refused = { Stays IsJsonTable };

    fn push_row(&mut self, row: &[ResultValue<'_>]) -> Result<(), AllocError> {
        self.put_row(row)
    }

    ghost none = { none_taken IsJsonTable };

    ghost both = { both_taken IsJsonTable };

    ghost untraced = { stays_untraced IsJsonTable };
}

/// The answer of a query as objects of JSON (RFC 8259): a line for each row, with a member for each item of the query, by its
/// header. Each row of the answer has a value for each item of the query. Null, true and false are these words, texts are strings,
/// and numbers stand in plain decimal, those past 2^53 too, which some readers round. An item whose header an earlier item has is
/// named by it, a dot and its place, as `sum.3`, the first place being 1. Each line ends with a line feed, and has no other. The
/// only error is out of memory.
pub fn print_json(alloc: Global, query: &Query, answer: &Answer) -> Result<Vec<u8>, AllocError>
    requires { All (λ row. length row ≡ length (meaning query.now).items) answer.now }
    ensures { IfOk result (λ text. text.items ≡ json_text (headers query.now) answer.now) }
{
    let mut table = JsonTable::new(alloc, query)?;
    push_answer(alloc, answer, &mut table)?;
    let finished = table.finish();
    Ok(finished.text)
}
