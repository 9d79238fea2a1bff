//! The words that name streams.

ghost use Rattle.std.specs.Prelude.{◌≡◌, ◌≤◌, ◌↔◌, ◌++◌, None, false, map, IfNone, IfOk, IfSome, OnOk};
ghost use Rattle.command_words.specs.Streams.{is_stream, input_name, output_name, streams_of, spills_to_stream};
ghost use Rattle.command_words.specs.Told.{read_paths, reads_unnamed, streams_told, IsFaultTold};

use crate::subcommands::values;
use crate::{BATCH, COLUMNS_FILE, IN, PLAIN, QUERY_FILE, SPILL};
use clap::ArgMatches;
use std::alloc::{AllocError, Global};
use std::fmt;

/// What stands for standard input in the place of a file that is read, and for standard output in the place of OUT. A file of this name is
/// `./-`.
pub const STREAM: &str = "-";

/// Whether a word stands for a stream.
pub fn is_stream(path: &str) -> bool
    ensures { result ≡ is_stream path.now }
{
    path == STREAM
}

/// What a file that is read is called in sentences.
pub fn input_name(path: &str) -> &str
    ensures { result.now ≡ input_name path.now }
{
    if is_stream(path) {
        "standard input"
    } else {
        path
    }
}

/// What OUT is called in sentences.
pub fn output_name(out: &str) -> &str
    ensures { result.now ≡ output_name out.now }
{
    if is_stream(out) {
        "standard output"
    } else {
        out
    }
}

/// A file that a command reads: what the argument is called that names it, and its path.
#[derive(Clone, Copy)]
pub struct Input<'p> {
    pub argument: &'static str,
    pub path: &'p str,
}

/// Why words name streams that there are not.
#[derive(Clone, Copy, PartialEq, Eq)]
pub enum StreamFault {
    /// Standard input stands for two files: what the arguments are called that name these.
    ReadTwice(&'static str, &'static str),
    /// What is spilled is read again, and a stream can't be.
    Spilled,
}

impl fmt::Display for StreamFault {
    fn fmt<W: fmt::Write>(&self, f: &mut fmt::Formatter<W>) -> fmt::Result {
        match self {
            StreamFault::ReadTwice(first, second) if first == second => {
                write!(f, "two of {first} cannot both be standard input")
            }
            StreamFault::ReadTwice(first, second) => {
                write!(f, "{first} and {second} cannot both be standard input")
            }
            StreamFault::Spilled => f.write_str(
                "--spill cannot be a stream, since spilled records are read again: name the file ./-",
            ),
        }
    }
}

/// What the arguments are called that name the first two of files that are standard input, if two are.
pub fn read_twice(inputs: &[Input<'_>]) -> Option<(&'static str, &'static str)>
    ensures { (result ≡ None) ↔ (streams_of inputs.now ≤ 1) }
{
    let mut first = None;
    for input in inputs {
        if is_stream(input.path) {
            match first {
                Some(argument) => return Some((argument, input.argument)),
                None => first = Some(input.argument),
            }
        }
    }
    None
}

/// Adds the files that an argument names.
fn push_all<'p>(
    inputs: &mut Vec<Input<'p>>,
    argument: &'static str,
    paths: &[&'p str],
) -> Result<(), AllocError>
    ensures { OnOk result (map (λ input. input.path.now) inputs.new.items
        ≡ map (λ input. input.path.now) inputs.old.items ++ map (λ path. path.now) paths.now) }
{
    for path in paths {
        inputs.push(Input { argument, path })?;
    }
    Ok(())
}

/// Whether a command reads a plain CSV that no word names.
fn reads_unnamed(name: &str, matches: &ArgMatches<'_>) -> bool
    ensures { result ≡ reads_unnamed name.now matches.now }
{
    name == "pack" && matches.get_str(PLAIN).is_none()
}

/// The files that the command of a name reads.
fn inputs_of<'p>(
    alloc: Global,
    name: &str,
    matches: &ArgMatches<'p>,
) -> Result<Vec<Input<'p>>, AllocError>
    ensures { IfOk result (λ inputs. map (λ input. input.path.now) inputs.items ≡ read_paths name.now matches.now) }
{
    let mut inputs = Vec::new(alloc);
    push_all(&mut inputs, "IN", values(matches, IN))?;
    push_all(&mut inputs, "BATCH", values(matches, BATCH))?;
    push_all(&mut inputs, "CSV", values(matches, PLAIN))?;
    push_all(&mut inputs, "--columns-file", values(matches, COLUMNS_FILE))?;
    push_all(&mut inputs, "--query-file", values(matches, QUERY_FILE))?;
    if !reads_unnamed(name, matches) {
        return Ok(inputs);
    }
    inputs.push(Input {
        argument: "CSV",
        path: STREAM,
    })?;
    Ok(inputs)
}

/// Why the command of a name can't have the streams that its words name, if it can't.
pub fn stream_fault(
    alloc: Global,
    name: &str,
    matches: &ArgMatches<'_>,
) -> Result<Option<StreamFault>, AllocError>
    ensures read { IfOk result (λ found. IfNone found (streams_told name.now matches.now ≤ 1)) }
    ensures spilled { IfOk result (λ found. IfNone found (spills_to_stream matches.now ≡ false)) }
    ensures fault { IfOk result (λ found. IfSome found (IsFaultTold name.now matches.now)) }
{
    if let Some((first, second)) = read_twice(&inputs_of(alloc, name, matches)?) {
        return Ok(Some(StreamFault::ReadTwice(first, second)));
    }
    match matches.get_str(SPILL) {
        Some(path) if is_stream(path) => Ok(Some(StreamFault::Spilled)),
        _ => Ok(None),
    }
}
