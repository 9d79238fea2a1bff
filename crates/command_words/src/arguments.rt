//! The arguments of the commands, and their help.

use crate::{
    ALLOW_EMPTY, BATCH, COLUMNS, COLUMNS_FILE, COMPLETE, DELIMITER, EXPLAIN, FORCE, FORMAT, HEADER,
    IN, LIMIT, NO_CLOBBER, NULL, NUMBER, ORIGIN, OUT, PLAIN, PROGRESS, QUERY, QUERY_FILE,
    SKIP_COLUMNS, SPILL,
};
use clap::builder::ValueParser;
use clap::{Arg, ArgAction, Command};
use std::alloc::{AllocError, Global};

/// An argument of a command: its name, what stands for its value in the help, if it is an option with one, and its help.
#[derive(Clone, Copy)]
pub(crate) enum Argument {
    /// A word.
    Word(&'static str, &'static str),
    /// One word or more.
    Words(&'static str, &'static str),
    /// A word that may be left out.
    OptionalWord(&'static str, &'static str),
    /// An option without a value.
    Flag(&'static str, &'static str),
    /// An option with a value.
    Value(&'static str, &'static str, &'static str),
    /// An option with a value that may begin with a minus sign.
    Number(&'static str, &'static str, &'static str),
    /// An option with a value that may not be left out.
    Required(&'static str, &'static str, &'static str),
    /// An option with a value, and the value where it is left out.
    Default(&'static str, &'static str, &'static str, &'static str),
    /// An option with one of some layouts, the first where it is left out.
    Layout(&'static [&'static str], &'static str),
}

use Argument::{Default, Flag, Layout, Number, OptionalWord, Required, Value, Word, Words};

/// The arguments of `script`.
pub(crate) static SCRIPT: [Argument; 1] = [Value(
    SPILL,
    "PATH",
    "A new file for spilled records [default: memory]",
)];

/// The arguments of `new`.
pub(crate) static NEW: [Argument; 7] = [
    Word(OUT, "The summary file to write"),
    Value(COLUMNS, "SCHEMA", "The columns' names and kinds"),
    Value(COLUMNS_FILE, "FILE", "The file of SCHEMA"),
    Value(QUERY, "TEXT", "The query that the summary answers"),
    Value(QUERY_FILE, "FILE", "The file of TEXT"),
    Flag(NO_CLOBBER, "Keeps an existing OUT"),
    Flag(FORCE, "Replaces a file OUT that is not a summary"),
];

/// The first arguments of `feed`.
pub(crate) static FEED: [Argument; 3] = [
    Word(OUT, "The summary file to write"),
    Word(IN, "The summary file to add to"),
    Words(BATCH, "The batch files to add"),
];

/// The first arguments of `merge`.
pub(crate) static MERGE: [Argument; 2] = [
    Word(OUT, "The summary file to write"),
    Words(IN, "The summary files to merge"),
];

/// The further arguments of a command that adds files to a summary.
pub(crate) static ADDING: [Argument; 6] = [
    Number(
        LIMIT,
        "BYTES",
        "Bytes that a group table may take [default: 4194304]",
    ),
    Value(
        SPILL,
        "PATH",
        "A new file for spilled records [default: memory]",
    ),
    Flag(
        EXPLAIN,
        "Also shows on standard error what the command took",
    ),
    Flag(
        NO_CLOBBER,
        "Keeps an existing OUT that is not among the files read",
    ),
    Flag(FORCE, "Replaces a file OUT that is not a summary"),
    Flag(PROGRESS, "Also reports each file on standard error"),
];

/// The arguments of `known`.
pub(crate) static KNOWN: [Argument; 3] = [
    Word(IN, "The summary file to read"),
    Flag(
        EXPLAIN,
        "Also shows on standard error what the summary holds",
    ),
    Layout(&["lines", "tsv", "json"], "lines"),
];

/// The arguments of `answer`.
pub(crate) static ANSWER: [Argument; 6] = [
    Word(IN, "The summary file to read"),
    Layout(&["csv", "tsv", "json", "aligned"], "csv"),
    Number(LIMIT, "BYTES", "As with feed; has no effect here"),
    Value(SPILL, "PATH", "As with feed; has no effect here"),
    Flag(
        EXPLAIN,
        "Also shows on standard error what the answer is made of",
    ),
    Flag(COMPLETE, "Status 1 if early batches are not counted"),
];

/// The arguments of `pack`.
pub(crate) static PACK: [Argument; 9] = [
    Word(IN, "The summary file that has the columns"),
    Required(ORIGIN, "N", "The origin, 0 to 1023"),
    Required(NUMBER, "N", "The batch's number, 1 to 4294967295"),
    Flag(HEADER, "The first record names the columns"),
    Default(DELIMITER, "C", "The delimiter between fields", ","),
    Value(
        NULL,
        "TEXT",
        "The field that is null [default: an empty field]",
    ),
    Flag(
        SKIP_COLUMNS,
        "Ignores columns that the summary does not have",
    ),
    Flag(ALLOW_EMPTY, "Makes a batch without rows of an empty CSV"),
    OptionalWord(PLAIN, "The plain CSV [default: standard input]"),
];

/// An option with a value.
fn with_value<'a>(alloc: Global, name: &'a str, value: &'a str, help: &'a str) -> Arg<'a> {
    Arg::new(alloc, name)
        .long(name)
        .value_name(value)
        .help(help)
}

impl Argument {
    /// The argument as the parser takes it.
    fn as_arg<'a>(self, alloc: Global) -> Arg<'a> {
        match self {
            Word(name, help) => Arg::new(alloc, name).required(true).help(help),
            Words(name, help) => Arg::new(alloc, name)
                .required(true)
                .help(help)
                .num_args(1..),
            OptionalWord(name, help) => Arg::new(alloc, name).help(help),
            Flag(name, help) => Arg::new(alloc, name)
                .long(name)
                .action(ArgAction::SetTrue)
                .help(help),
            Value(name, value, help) => with_value(alloc, name, value, help),
            Number(name, value, help) => {
                with_value(alloc, name, value, help).allow_negative_numbers(true)
            }
            Required(name, value, help) => with_value(alloc, name, value, help).required(true),
            Default(name, value, help, usual) => {
                with_value(alloc, name, value, help).default_value(usual)
            }
            Layout(layouts, usual) => with_value(alloc, FORMAT, "FORMAT", "Layout")
                .value_parser(ValueParser::Names(layouts))
                .default_value(usual),
        }
    }
}

/// A command with more arguments. The only error is out of memory.
pub(crate) fn with_arguments<'a>(
    alloc: Global,
    command: Command<'a>,
    arguments: &[Argument],
) -> Result<Command<'a>, AllocError> {
    let mut command = command;
    for argument in arguments {
        command = command.arg(argument.as_arg(alloc))?;
    }
    Ok(command)
}
