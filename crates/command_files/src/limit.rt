//! The limit of a table of groups that a command tells.

ghost use Rattle.std.specs.Prelude.{◌≡◌, Some, IfOk, IfErr, option_copied};
ghost use Rattle.command_words.specs.Told.{limit_told};
ghost use Rattle.command_files.specs.Limits.{limit_of, IsNoLimit};

use clap::ArgMatches;
use command_words::{LIMIT, Subcommand, read_bytes};
use file_sentences::limit_reason;
use hash_agg::{Fnv1a, LimitOutOfRange, MAX_LIMIT, Means};
use replies::Refusal;
use sentences::Quoted;
use std::alloc::{AllocError, Global};

/// The means of the limit that an option tells, or the usual ones where it is not told.
fn means_told(told: Option<&str>) -> Result<Means<Fnv1a>, Refusal>
    ensures limit { IfOk result (λ means. limit_of (option_copied told.entry) ≡ Some means.limit) }
    ensures why { IfErr result (IsNoLimit (limit_of (option_copied told.entry))) }
{
    let Some(text) = told else {
        return Ok(Means::usual(Fnv1a));
    };
    let Some(limit) = read_bytes(text) else {
        return Err(Refusal::BadCommand);
    };
    if limit > u128::from(MAX_LIMIT) {
        return Err(Refusal::from(LimitOutOfRange));
    }
    match Means::new(limit as u64, Fnv1a) {
        Ok(means) => Ok(means),
        Err(error) => Err(Refusal::from(error)),
    }
}

/// The means of a command: of the limit that it tells, if it takes one.
pub(crate) fn means_of(
    subcommand: Subcommand,
    matches: &ArgMatches<'_>,
) -> Result<Means<Fnv1a>, Refusal>
    ensures limit { IfOk result (λ means. limit_of (limit_told subcommand matches.now) ≡ Some means.limit) }
    ensures why { IfErr result (IsNoLimit (limit_of (limit_told subcommand matches.now))) }
{
    means_told(subcommand.limit(matches))
}

/// Says why the limit that a command tells is none.
pub(crate) fn said_of_limit(
    alloc: Global,
    matches: &ArgMatches<'_>,
    why: Refusal,
) -> Result<String, AllocError> {
    let text = matches.get_str(LIMIT).unwrap_or("");
    if matches!(why, Refusal::BadCommand) {
        return limit_reason(alloc, text);
    }
    let given = Quoted(text.as_bytes());
    let has_suffix = text.ends_with(|last: char| last.is_ascii_alphabetic());
    match read_bytes(text) {
        Some(bytes) if has_suffix => format!(in alloc;
            "{given}, which is {bytes} bytes, is out of range (65,536 to 1,099,511,627,776 bytes)"
        ),
        _ => format!(in alloc; "{given} is out of range (65,536 to 1,099,511,627,776 bytes)"),
    }
}
