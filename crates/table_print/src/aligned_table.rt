//! Aligned tables.

ghost use Rattle.std.specs.Prelude.{All, ◌≡◌, ◌<◌, ◌++◌, ◌∷◌, ◌==◌, [], length, map, flat_map, max, codes, replicate, slice_get, Some};
ghost use Rattle.std.specs.Prelude.{option_map, IfOk, OnOk, slice_index_or, if◌then◌else◌};
ghost use Rattle.std.specs.Fmt.{char_count, is_char_start};
ghost use Rattle.packed_rows.specs.Columns.{kinds};
ghost use Rattle.packed_rows.specs.View.{kind_of};
ghost use Rattle.query_checks.specs.Checks.{kind_of_form};
ghost use Rattle.query_checks.specs.Forms.{item_form};
ghost use Rattle.having_filter.specs.Meaning.{meaning};
ghost use Rattle.having_filter.specs.Kept.{headers};
ghost use Rattle.table_print.specs.Aligned.{is_control, shown_byte, shown, header_cells, row_cells, longest, column_cells, side_of, sides};
ghost use Rattle.table_print.specs.Aligned.{columns_of, on_side, padded, aligned_line, rule_line, aligned_text};

use crate::cell::cell;
use crate::pieces::{hex_digit, push_separator};
use having_filter::{Answer, Item, Query};
use itoa::Buffer;
use packed_rows::{Schema, ValueKind};
use std::alloc::{AllocError, Global};

/// Where the cells of a column stand.
#[derive(Clone, Copy)]
enum Side {
    Left,
    Right,
}

/// A column: where its cells stand, and how wide it is, in characters.
#[derive(Clone, Copy)]
struct Column {
    side: Side,
    width: usize,
}

/// Whether a byte is one of the characters 1 to 31 and 127.
fn is_control(byte: u8) -> bool
    ensures { result ≡ is_control byte }
{
    0 < byte && byte < b' ' || byte == 127
}

/// Appends a byte of a cell, as it shows.
fn push_shown(out: &mut Vec<u8>, byte: u8) -> Result<(), AllocError>
    ensures { OnOk result (out.new.items ≡ out.old.items ++ shown_byte byte) }
{
    if is_control(byte) {
        out.extend_from_slice(&[b'\\', b'x', hex_digit(byte / 16), hex_digit(byte % 16)])?;
    } else {
        out.push(byte)?;
    }
    Ok(())
}

/// Fills a cell with a text, as it shows.
fn fill(out: &mut Vec<u8>, text: &[u8]) -> Result<(), AllocError>
    ensures { OnOk result (out.new.items ≡ shown text.now) }
{
    out.clear();
    for byte in text {
        push_shown(out, *byte)?;
    }
    Ok(())
}

/// How many characters a text has.
#[tactic(auto, using(crate::proofs::AlignedLaws::one_more_char, crate::proofs::AlignedLaws::no_char))]
fn count_chars(text: &[u8]) -> usize
    ensures { result ≡ char_count text.now }
{
    let mut count = 0;
    for byte in text {
        if !(128..192).contains(byte) {
            count += 1;
        }
    }
    count
}

/// Appends a byte so many times.
fn push_repeated(out: &mut Vec<u8>, byte: u8, count: usize) -> Result<(), AllocError>
    ensures { OnOk result (out.new.items ≡ out.old.items ++ replicate count byte) }
{
    for _ in 0..count {
        out.push(byte)?;
    }
    Ok(())
}

/// Appends a cell and its spaces.
fn push_padded(out: &mut Vec<u8>, column: Column, shown: &[u8]) -> Result<(), AllocError>
    ensures { OnOk result (out.new.items ≡ out.old.items ++ padded column shown.now) }
{
    let spaces = column.width.saturating_sub(count_chars(shown));
    match column.side {
        Side::Left => {
            out.extend_from_slice(shown)?;
            push_repeated(out, b' ', spaces)?;
        }
        Side::Right => {
            push_repeated(out, b' ', spaces)?;
            out.extend_from_slice(shown)?;
        }
    }
    Ok(())
}

/// Appends a cell of a line. The text is made the cell that is shown.
fn push_cell(
    out: &mut Vec<u8>,
    scratch: &mut Vec<u8>,
    column: Column,
    place: usize,
    text: &[u8],
) -> Result<(), AllocError>
    ensures { OnOk result (out.new.items
        ≡ out.old.items ++ (if place == 0 then [] else codes " | ") ++ padded column (shown text.now)) }
{
    push_separator(out, place, b" | ")?;
    fill(scratch, text)?;
    push_padded(out, column, scratch)
}

/// Appends the line of the headers.
fn push_header(
    out: &mut Vec<u8>,
    scratch: &mut Vec<u8>,
    columns: &[Column],
    query: &Query,
) -> Result<(), AllocError>
    requires { length columns.now ≡ length (headers query.now) }
    ensures { OnOk result (out.new.items
        ≡ out.old.items ++ aligned_line columns.now (header_cells (headers query.now))) }
{
    for item in 0..columns.len() {
        push_cell(
            out,
            scratch,
            columns[item],
            item,
            query.header(item).as_bytes(),
        )?;
    }
    out.push(b'\n')?;
    Ok(())
}

/// Appends the line of a row.
fn push_row(
    out: &mut Vec<u8>,
    scratch: &mut Vec<u8>,
    columns: &[Column],
    answer: &Answer,
    row: usize,
) -> Result<(), AllocError>
    requires in_range { row < length answer.now }
    requires width { length columns.now ≡ length (slice_index_or answer.now row []) }
    ensures { OnOk result (out.new.items
        ≡ out.old.items ++ aligned_line columns.now (row_cells (slice_index_or answer.now row []))) }
{
    for item in 0..columns.len() {
        let mut buffer = Buffer::new();
        let text = cell(&mut buffer, answer.value(row, item));
        push_cell(out, scratch, columns[item], item, text)?;
    }
    out.push(b'\n')?;
    Ok(())
}

/// Appends the rule below the header.
fn push_rule(out: &mut Vec<u8>, columns: &[Column]) -> Result<(), AllocError>
    ensures { OnOk result (out.new.items ≡ out.old.items ++ rule_line columns.now) }
{
    for item in 0..columns.len() {
        push_separator(out, item, b"-+-")?;
        push_repeated(out, b'-', columns[item].width)?;
    }
    out.push(b'\n')?;
    Ok(())
}

/// How many characters the longest cell of a column has, its header included. Each cell is made the one that is shown.
fn width_of_column(
    scratch: &mut Vec<u8>,
    header: &str,
    answer: &Answer,
    item: usize,
) -> Result<usize, AllocError>
    requires { All (λ row. item < length row) answer.now }
    ensures { IfOk result (λ width. width
        ≡ longest (shown header.now ∷ column_cells (map row_cells answer.now) item)) }
{
    fill(scratch, header.as_bytes())?;
    let mut width = count_chars(scratch);
    for row in 0..answer.len() {
        fill(scratch, cell(&mut Buffer::new(), answer.value(row, item)))?;
        width = width.max(count_chars(scratch));
    }
    Ok(width)
}

/// The kind of an item, a numeric counting as a bigint.
fn kind_of_item(schema: &Schema, item: &Item<usize>) -> Option<ValueKind>
    ensures { option_map kind_of result ≡ kind_of_form (kinds schema.now) (item_form item.now) }
{
    match item {
        Item::Column(place) => schema.kinds().get(*place).copied(),
        Item::Call(call) => Some(call.kind.result()),
    }
}

/// Where the cells of a kind stand.
fn side_of(kind: Option<ValueKind>) -> Side
    ensures { result ≡ side_of (option_map kind_of kind) }
{
    match kind {
        Some(ValueKind::Bigint) => Side::Right,
        _ => Side::Left,
    }
}

/// Where the cells of an item stand.
fn side_of_item(query: &Query, item: usize) -> Side
    requires { item < length query.now.written.items }
    ensures { slice_get (sides query.now) item ≡ Some result }
{
    side_of(kind_of_item(query.schema(), &query.items()[item].0))
}

/// The columns of an answer.
fn columns_of_answer(
    alloc: Global,
    scratch: &mut Vec<u8>,
    query: &Query,
    answer: &Answer,
) -> Result<Vec<Column>, AllocError>
    requires { All (λ row. length row ≡ length (meaning query.now).items) answer.now }
    ensures { IfOk result (λ columns. columns.items ≡ columns_of (sides query.now)
        (header_cells (headers query.now) ∷ map row_cells answer.now)) }
{
    let mut columns = Vec::new(alloc);
    for item in 0..query.items().len() {
        let side = side_of_item(query, item);
        let width = width_of_column(scratch, query.header(item), answer, item)?;
        columns.push(Column { side, width })?;
    }
    Ok(columns)
}

/// The answer of a query as an aligned table: a header, a rule, then a line for each row. Each row of the answer has a value
/// for each item of the query. A column is as wide as its longest cell as it shows, the header included, in characters;
/// numbers stand to the right of their column, what else there is to the left. Values show as in `print_csv`, but without
/// quotes; the characters 1 to 31 and 127 show as `\x` and two hexadecimal digits. Each line ends with a line feed. The
/// only error is out of memory.
pub fn print_aligned(alloc: Global, query: &Query, answer: &Answer) -> Result<Vec<u8>, AllocError>
    requires { All (λ row. length row ≡ length (meaning query.now).items) answer.now }
    ensures { IfOk result (λ text. text.items
        ≡ aligned_text (sides query.now) (headers query.now) answer.now) }
{
    let mut scratch = Vec::new(alloc);
    let columns = columns_of_answer(alloc, &mut scratch, query, answer)?;
    let mut text = Vec::new(alloc);
    push_header(&mut text, &mut scratch, &columns, query)?;
    push_rule(&mut text, &columns)?;
    for row in 0..answer.len() {
        push_row(&mut text, &mut scratch, &columns, answer, row)?;
    }
    Ok(text)
}
