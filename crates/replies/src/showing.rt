//! What a replica knows and answers, as text.

ghost use Rattle.std.specs.Prelude.{◌≡◌, All, IfOk, length};
ghost use Rattle.grouping_model.specs.Order.{unarranged};
ghost use Rattle.grouping_model.specs.Replies.{known_list};
ghost use Rattle.having_filter.specs.Meaning.{meaning};
ghost use Rattle.replica_merge.specs.Replicas.{told};
ghost use Rattle.replies.specs.KnownTables.{known_in};
ghost use Rattle.replies.specs.Printed.{PrintsAnswer};
ghost use Rattle.replies.specs.Text.{origins_text, known_text, text_of};
ghost use Rattle.replies.specs.declared.showing.Format.TheVariants.{Csv, Tsv, Json};

use crate::known_tables::{list_json, list_tsv};
use crate::texts::{list_known, list_origins};
use having_filter::{Answer, Query};
use replica_merge::Replica;
use std::alloc::{AllocError, Global};
use table_print::{CsvTable, JsonTable, TsvTable, print_aligned, print_csv, print_json, print_tsv};

/// How a table is written.
#[derive(Clone, Copy, Debug, PartialEq, Eq)]
pub enum Format {
    /// Comma-separated values, as `print_csv` writes them.
    Csv,
    /// Values between tabs, as `print_tsv` writes them.
    Tsv,
    /// An object on each line, as `print_json` writes them.
    Json,
    /// Columns below one another, as `print_aligned` writes them.
    Aligned,
}

/// How what is known is written.
#[derive(Clone, Copy, Debug, PartialEq, Eq)]
pub enum KnownFormat {
    /// Lines for people, as `origin 7 upto 12 early 14 15`.
    Lines,
    /// A header and a line for each origin, values between tabs: its number, the last batch of its unbroken prefix, and the numbers
    /// that came early, with a space between two.
    Tsv,
    /// An object for each origin, on a line of its own, as `{"origin":7,"upto":12,"early":[14,15]}`.
    Json,
}

/// What a replica knows: a line `origin O upto P` for each origin of which it knows a batch, by ascending origin, and the numbers
/// that came early after it. The only error is out of memory.
pub fn origin_lines(alloc: Global, replica: &Replica) -> Result<Vec<u8>, AllocError>
    ensures { IfOk result (λ lines. lines.items ≡ origins_text (known_list (told replica.now.parts))) }
{
    let list = replica.known()?;
    list_origins(alloc, &list)
}

/// What a replica knows, by ascending origin, in a format. The only error is out of memory.
pub fn known_table(
    alloc: Global,
    replica: &Replica,
    format: KnownFormat,
) -> Result<Vec<u8>, AllocError>
    ensures { IfOk result (λ text. text.items ≡ known_in format (known_list (told replica.now.parts))) }
{
    let origins = replica.known()?;
    match format {
        KnownFormat::Lines => list_origins(alloc, &origins),
        KnownFormat::Tsv => list_tsv(alloc, &origins),
        KnownFormat::Json => list_json(alloc, &origins),
    }
}

/// What a replica knows, in the same lines after a line `known COUNT`, which counts them. The only error is out of memory.
pub fn known_lines(alloc: Global, replica: &Replica) -> Result<Vec<u8>, AllocError>
    ensures { IfOk result (λ lines. lines.items ≡ known_text (known_list (told replica.now.parts))) }
{
    let list = replica.known()?;
    list_known(alloc, &list)
}

/// An answer's table in a format.
fn print(
    alloc: Global,
    query: &Query,
    answer: &Answer,
    format: Format,
) -> Result<Vec<u8>, AllocError>
    requires { All (λ row. length row ≡ length (meaning query.now).items) answer.now }
    ensures { IfOk result (λ text. text.items ≡ text_of format query.now answer.now) }
{
    match format {
        Format::Csv => print_csv(alloc, query, answer),
        Format::Tsv => print_tsv(alloc, query, answer),
        Format::Json => print_json(alloc, query, answer),
        Format::Aligned => print_aligned(alloc, query, answer),
    }
}

/// How many rows a replica's answer has, and its table in a format. The rows are made first, and the table from them.
fn table_of_rows(
    alloc: Global,
    replica: &Replica,
    format: Format,
) -> Result<(usize, Vec<u8>), AllocError>
    ensures { IfOk result (λ found. PrintsAnswer format replica.now found.0 found.1.items) }
{
    let answer = replica.answer()?;
    let text = print(alloc, replica.query(), &answer, format)?;
    Ok((answer.len(), text))
}

/// How many rows a replica's answer has that nothing arranges, and its table in CSV, to which the rows go one after another.
fn csv_table(alloc: Global, replica: &Replica) -> Result<(usize, Vec<u8>), AllocError>
    requires { (meaning replica.now.query).arrangement ≡ unarranged }
    ensures { IfOk result (λ found. PrintsAnswer Csv replica.now found.0 found.1.items) }
{
    let mut table = CsvTable::new(alloc, replica.query())?;
    replica.answer_into(&mut table)?;
    let finished = table.finish()?;
    Ok((finished.rows, finished.text))
}

/// The same in TSV.
fn tsv_table(alloc: Global, replica: &Replica) -> Result<(usize, Vec<u8>), AllocError>
    requires { (meaning replica.now.query).arrangement ≡ unarranged }
    ensures { IfOk result (λ found. PrintsAnswer Tsv replica.now found.0 found.1.items) }
{
    let mut table = TsvTable::new(alloc, replica.query())?;
    replica.answer_into(&mut table)?;
    let finished = table.finish();
    Ok((finished.rows, finished.text))
}

/// The same in JSON.
fn json_table(alloc: Global, replica: &Replica) -> Result<(usize, Vec<u8>), AllocError>
    requires { (meaning replica.now.query).arrangement ≡ unarranged }
    ensures { IfOk result (λ found. PrintsAnswer Json replica.now found.0 found.1.items) }
{
    let mut table = JsonTable::new(alloc, replica.query())?;
    replica.answer_into(&mut table)?;
    let finished = table.finish();
    Ok((finished.rows, finished.text))
}

/// How many rows a replica's answer has, and its table in a format. For each world that the replica fits, it is the query's answer. Rows
/// are kept only where ORDER BY sorts them, or an aligned table has to know the widths of its columns. The only error is out of memory.
pub fn table(
    alloc: Global,
    replica: &Replica,
    format: Format,
) -> Result<(usize, Vec<u8>), AllocError>
    ensures { IfOk result (λ found. PrintsAnswer format replica.now found.0 found.1.items) }
{
    if !replica.query().order().is_empty() {
        return table_of_rows(alloc, replica, format);
    }
    match format {
        Format::Csv => csv_table(alloc, replica),
        Format::Tsv => tsv_table(alloc, replica),
        Format::Json => json_table(alloc, replica),
        Format::Aligned => table_of_rows(alloc, replica, format),
    }
}
