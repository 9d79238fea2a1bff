//! The options of the command that makes a batch file.

ghost use Rattle.std.specs.Prelude.{◌≡◌, ◌≤◌, ℕ, Some, None, IfOk, IfErr, IfSome, IfNone, OnErr};
ghost use Rattle.batch_reader.specs.Head.{ReadsOrigin, ReadsBatchNumber};
ghost use Rattle.refusals.specs.declared.refusal.Refusal.TheVariants.{BadCommand};
ghost use Rattle.script_io.specs.Digits.{number_of};
ghost use Rattle.command_packs.specs.Options.{delimiter_told, AreWords, IsLayoutOf};

use clap::ArgMatches;
use command_streams::{Problem, reason_of};
use command_words::{
    ALLOW_EMPTY, DELIMITER, HEADER, IN, NULL, NUMBER, ORIGIN, PLAIN, SKIP_COLUMNS, STREAM,
    is_flag_told, value,
};
use grouping_model::limits::{LAST_NUMBER, LAST_ORIGIN};
use plain_batches::Layout;
use replies::Refusal;
use script_io::read_digits;
use sentences::Quoted;
use std::alloc::{AllocError, Global};

/// The most digits of an origin or a number, leading zeros included.
const MAX_DIGITS: usize = 10;

/// The least number of a batch.
const FIRST_NUMBER: u64 = 1;

/// What the words of the command tell.
#[derive(Clone, Copy)]
pub(crate) struct Words<'p> {
    /// The summary whose columns the rows have.
    pub(crate) summary: &'p str,
    /// The plain CSV.
    pub(crate) csv: &'p str,
    pub(crate) origin: &'p str,
    pub(crate) number: &'p str,
    pub(crate) delimiter: &'p str,
    /// The field that is null.
    pub(crate) null: &'p str,
    pub(crate) has_header: bool,
    pub(crate) skips_columns: bool,
    /// Whether a CSV of no byte is a batch of no row.
    pub(crate) allows_empty: bool,
}

/// The number that 1 to 10 digits stand for, leading zeros included, if it lies in a range.
fn read_between(text: &str, least: u64, most: u64) -> Option<u64>
    ensures found { IfSome result (λ n. (number_of 10 text.now ≡ Some n) × (least ≤ n) × (n ≤ most)) }
    ensures none { IfNone result ((n : ℕ) → number_of 10 text.now ≡ Some n → least ≤ n → n ≤ most → ⊥) }
{
    let number = read_digits(text.as_bytes(), MAX_DIGITS)?;
    if number < least || number > most {
        return None;
    }
    Some(number)
}

/// The origin that a text tells, as the head of a batch does.
fn read_origin(text: &str) -> Option<u16>
    ensures found { IfSome result (λ n. ReadsOrigin text.now n) }
    ensures none { IfNone result ((n : ℕ) → ¬ (ReadsOrigin text.now n)) }
{
    let origin = read_between(text, 0, u64::from(LAST_ORIGIN))?;
    Some(origin as u16)
}

/// The number of a batch that a text tells, as the head of a batch does.
fn read_number(text: &str) -> Option<u32>
    ensures found { IfSome result (λ n. ReadsBatchNumber text.now n) }
    ensures none { IfNone result ((n : ℕ) → ¬ (ReadsBatchNumber text.now n)) }
{
    let number = read_between(text, FIRST_NUMBER, u64::from(LAST_NUMBER))?;
    Some(number as u32)
}

/// The byte that a text tells: one of ASCII that is neither in a name or a number nor a quote, or a tab by its name.
fn read_delimiter(text: &str) -> Option<u8>
    ensures { result ≡ delimiter_told text.now }
{
    match text.as_bytes() {
        b"tab" | b"\\t" => Some(b'\t'),
        [byte] if *byte == b'\t' || byte.is_ascii_punctuation() && *byte != b'"' => Some(*byte),
        _ => None,
    }
}

/// Why an option is refused.
fn refused<'p>(alloc: Global, option: &'static str, said: Result<String, AllocError>) -> Problem<'p>
    ensures { result.why ≡ BadCommand }
{
    let reason = match said {
        Ok(said) => Ok(reason_of(alloc, Some(said))),
        Err(error) => Err(error),
    };
    Problem::because(option, Refusal::BadCommand, reason)
}

/// The words of the command. The plain CSV is standard input if no word tells it.
pub(crate) fn words_of<'p>(matches: &ArgMatches<'p>) -> Words<'p>
    ensures { AreWords matches.now result }
{
    Words {
        summary: value(matches, IN),
        csv: matches.get_str(PLAIN).unwrap_or(STREAM),
        origin: value(matches, ORIGIN),
        number: value(matches, NUMBER),
        delimiter: value(matches, DELIMITER),
        null: value(matches, NULL),
        has_header: is_flag_told(matches, HEADER),
        skips_columns: is_flag_told(matches, SKIP_COLUMNS),
        allows_empty: is_flag_told(matches, ALLOW_EMPTY),
    }
}

/// The origin and the number of the batch, by the texts of their options.
pub(crate) fn head_of<'p>(
    alloc: Global,
    origin: &str,
    number: &str,
) -> Result<(u16, u32), Problem<'p>>
    ensures origin { IfOk result (λ head. ReadsOrigin origin.now head.0) }
    ensures number { IfOk result (λ head. ReadsBatchNumber number.now head.1) }
    ensures none { OnErr result ((o n : ℕ) → ReadsOrigin origin.now o → ReadsBatchNumber number.now n → ⊥) }
    ensures why { IfErr result (λ problem. problem.why ≡ BadCommand) }
{
    let Some(origin) = read_origin(origin) else {
        let shown = Quoted(origin.as_bytes());
        let said = format!(in alloc; "{shown} is not an origin (0 to {LAST_ORIGIN})");
        return Err(refused(alloc, "--origin", said));
    };
    let Some(number) = read_number(number) else {
        let shown = Quoted(number.as_bytes());
        let said = format!(in alloc; "{shown} is not a batch number (1 to {LAST_NUMBER})");
        return Err(refused(alloc, "--number", said));
    };
    Ok((origin, number))
}

/// How the plain CSV is written.
pub(crate) fn layout_of<'p>(alloc: Global, words: Words<'p>) -> Result<Layout<'p>, Problem<'p>>
    ensures layout { IfOk result (IsLayoutOf words.entry) }
    ensures none { OnErr result (delimiter_told words.entry.delimiter.now ≡ None) }
    ensures why { IfErr result (λ problem. problem.why ≡ BadCommand) }
{
    let told = words.delimiter;
    let Some(delimiter) = read_delimiter(told) else {
        let shown = Quoted(told.as_bytes());
        let said = format!(in alloc;
            "{shown} is not a delimiter: give one byte, as ; or tab, but no letter, digit or quote"
        );
        return Err(refused(alloc, "--delimiter", said));
    };
    Ok(Layout {
        delimiter,
        has_header: words.has_header,
        null: words.null.as_bytes(),
        skips_columns: words.skips_columns,
    })
}
