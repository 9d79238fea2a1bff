//! What may be meant by an invalid command line.

use clap::error::ErrorKind;
use command_words::STREAM;
use sentences::Plain;
use std::fmt;

/// What is said before the sentence of the command line parser.
#[derive(Clone, Copy, PartialEq, Eq)]
pub(crate) enum Hint<'w> {
    /// Nothing more is known.
    Nothing,
    /// `feed` has two different files and needs three: one may be meant as OUT and IN.
    FeedTwice { summary: &'w str, batch: &'w str },
    /// `script` was given a file name, but reads standard input.
    ScriptFile(&'w str),
}

impl fmt::Display for Hint<'_> {
    fn fmt<W: fmt::Write>(&self, f: &mut fmt::Formatter<W>) -> fmt::Result {
        match self {
            Hint::Nothing => Ok(()),
            Hint::FeedTwice { summary, batch } => {
                let (summary, batch) = (Plain(summary), Plain(batch));
                writeln!(
                    f,
                    "2 files, expected 3: did you mean feed {summary} {summary} {batch}?\n"
                )
            }
            Hint::ScriptFile(file) => {
                let file = Plain(file);
                writeln!(
                    f,
                    "a script is read from standard input: use script < {file}\n"
                )
            }
        }
    }
}

/// The options whose value is a word of its own.
const VALUED: [&str; 2] = ["--limit", "--spill"];

/// The first two files of a command, and how many it has.
fn files_of(words: &[String]) -> ([&str; 2], usize) {
    let mut files = [""; 2];
    let mut count: usize = 0;
    let mut is_value = false;
    for word in words {
        let word = word.as_str();
        if is_value {
            is_value = false;
        } else if VALUED.contains(&word) {
            is_value = true;
        } else if word == STREAM || !word.starts_with('-') {
            if let Some(file) = files.get_mut(count) {
                *file = word;
            }
            count = count.saturating_add(1);
        }
    }
    (files, count)
}

/// The suffix that names of summaries have in all examples.
const SUMMARY_SUFFIX: &str = ".sum";

/// The summary and the batch of two files: the second is the summary if it alone is named as one.
fn in_order<'w>(first: &'w str, second: &'w str) -> (&'w str, &'w str) {
    if second.ends_with(SUMMARY_SUFFIX) && !first.ends_with(SUMMARY_SUFFIX) {
        return (second, first);
    }
    (first, second)
}

/// What may be meant by a command line that the parser refused with this kind of error. The first word is the program's name.
pub(crate) fn hint_of(words: &[String], kind: ErrorKind) -> Hint<'_> {
    let Some((_, [name, rest @ ..])) = words.split_first() else {
        return Hint::Nothing;
    };
    let (files, count) = files_of(rest);
    let [first, second] = files;
    match (name.as_str(), kind) {
        ("feed", ErrorKind::MissingRequiredArgument) if count == 2 && first != second => {
            let (summary, batch) = in_order(first, second);
            Hint::FeedTwice { summary, batch }
        }
        ("script", ErrorKind::UnknownArgument) if count > 0 => Hint::ScriptFile(first),
        _ => Hint::Nothing,
    }
}
