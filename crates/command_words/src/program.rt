//! The program's commands.

use crate::arguments::{
    ADDING, ANSWER, Argument, FEED, KNOWN, MERGE, NEW, PACK, SCRIPT, with_arguments,
};
use crate::help::{
    ABOUT, AFTER, ANSWER_ABOUT, ANSWER_AFTER, FEED_ABOUT, FEED_AFTER, KNOWN_ABOUT, KNOWN_AFTER,
    MERGE_ABOUT, MERGE_AFTER, NEW_ABOUT, NEW_AFTER, PACK_ABOUT, PACK_AFTER, SCRIPT_ABOUT,
    SCRIPT_AFTER,
};
use crate::{COLUMNS, COLUMNS_FILE, QUERY, QUERY_FILE};
use clap::{ArgGroup, ArgMatches, Command, Error};
use std::alloc::{AllocError, Global};
use std::convert::AsStr;

/// A command of the program. The only error is out of memory.
fn command<'a>(
    alloc: Global,
    name: &'a str,
    about: &'a str,
    after: &'a str,
    arguments: &[Argument],
) -> Result<Command<'a>, AllocError> {
    let bare = Command::new(alloc, name).about(about).after_help(after);
    with_arguments(alloc, bare, arguments)
}

/// Two options of which one is told.
fn one_of<'a>(
    alloc: Global,
    name: &'a str,
    first: &'a str,
    second: &'a str,
) -> Result<ArgGroup<'a>, AllocError> {
    let both = ArgGroup::new(alloc, name).arg(first)?.arg(second)?;
    Ok(both.required(true))
}

/// A command with a group of options. The only error is out of memory.
fn with_group<'a>(
    command: Command<'a>,
    group: Result<ArgGroup<'a>, AllocError>,
) -> Result<Command<'a>, AllocError> {
    match group {
        Ok(group) => command.group(group),
        Err(error) => Err(error),
    }
}

fn script_command<'a>(alloc: Global) -> Result<Command<'a>, AllocError> {
    command(alloc, "script", SCRIPT_ABOUT, SCRIPT_AFTER, &SCRIPT)
}

fn new_command<'a>(alloc: Global) -> Result<Command<'a>, AllocError> {
    let new = command(alloc, "new", NEW_ABOUT, NEW_AFTER, &NEW)?;
    let new = with_group(new, one_of(alloc, "schema", COLUMNS, COLUMNS_FILE))?;
    with_group(new, one_of(alloc, "text", QUERY, QUERY_FILE))
}

fn feed_command<'a>(alloc: Global) -> Result<Command<'a>, AllocError> {
    let feed = command(alloc, "feed", FEED_ABOUT, FEED_AFTER, &FEED)?;
    with_arguments(alloc, feed, &ADDING)
}

fn merge_command<'a>(alloc: Global) -> Result<Command<'a>, AllocError> {
    let merge = command(alloc, "merge", MERGE_ABOUT, MERGE_AFTER, &MERGE)?;
    with_arguments(alloc, merge, &ADDING)
}

fn known_command<'a>(alloc: Global) -> Result<Command<'a>, AllocError> {
    command(alloc, "known", KNOWN_ABOUT, KNOWN_AFTER, &KNOWN)
}

fn answer_command<'a>(alloc: Global) -> Result<Command<'a>, AllocError> {
    command(alloc, "answer", ANSWER_ABOUT, ANSWER_AFTER, &ANSWER)
}

fn pack_command<'a>(alloc: Global) -> Result<Command<'a>, AllocError> {
    command(alloc, "pack", PACK_ABOUT, PACK_AFTER, &PACK)
}

/// The program without its commands.
fn bare_program<'a>(alloc: Global) -> Command<'a> {
    Command::new(alloc, "agg_tool")
        .version("0.1.0")
        .about(ABOUT)
        .after_help(AFTER)
        .subcommand_required(true)
        .arg_required_else_help(true)
}

/// The program with one more command. The only error is out of memory.
fn with_command<'a>(
    program: Result<Command<'a>, AllocError>,
    command: Result<Command<'a>, AllocError>,
) -> Result<Command<'a>, AllocError> {
    match (program, command) {
        (Ok(program), Ok(command)) => program.subcommand(command),
        _ => Err(AllocError),
    }
}

/// The program's commands.
fn program<'a>(alloc: Global) -> Result<Command<'a>, AllocError> {
    let program = with_command(Ok(bare_program(alloc)), script_command(alloc));
    let program = with_command(program, new_command(alloc));
    let program = with_command(program, feed_command(alloc));
    let program = with_command(program, merge_command(alloc));
    let program = with_command(program, known_command(alloc));
    let program = with_command(program, answer_command(alloc));
    with_command(program, pack_command(alloc))
}

/// Parses a command line, whose first word is the program's name: gives a command, and its arguments by the names above. An error has its
/// own sentence, or is the help or the version that was asked for.
pub fn parse_words<'a, S: AsStr>(alloc: Global, words: &'a [S]) -> Result<ArgMatches<'a>, Error> {
    program(alloc)?.try_get_matches_from(words)
}
