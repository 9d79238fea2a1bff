//! The steps of a case.

use command_line::{Terminals, command};
use std::alloc::AllocError;
use std::io::Write;
use std::{fs, io};
use test_cases::cut;
use test_steps::{Input, Kind, Output, aside, lines_meant, meant, words_meant, write_lines};

/// What a command left: what it printed and said, and its status.
#[derive(Drop)]
struct Ended {
    output: Output,
    errors: Output,
    status: u8,
}

/// Runs a command over streams of a kind.
fn run(rt: &HostRuntime, kind: Kind, told: &str, input: &[u8]) -> Result<Ended, AllocError> {
    let alloc = rt.alloc();
    let words = words_meant(alloc, told)?;
    let mut reader = Input::new(kind, input);
    let mut output = Output::new(alloc, kind);
    let mut errors = Output::errors(alloc, kind);
    let terminals = Terminals {
        output: kind.has_terminal_output(),
        errors: kind.has_terminal_errors(),
    };
    let status = command(rt, &words, &mut reader, &mut output, &mut errors, terminals);
    Ok(Ended {
        output,
        errors,
        status,
    })
}

/// Writes what a command said, and its status.
fn write_said<W: Write>(writer: &mut W, ended: &Ended) -> io::Result<()> {
    write_lines(writer, "! ", &ended.errors.taken)?;
    writeln!(writer, "status {}", ended.status)
}

/// Runs a command, and writes what it printed and said, and its status.
fn run_command<W: Write>(
    rt: &HostRuntime,
    kind: Kind,
    words: &str,
    input: &[u8],
    writer: &mut W,
) -> io::Result<()> {
    let ended = run(rt, kind, words, input)?;
    write_lines(writer, "", &ended.output.taken)?;
    write_said(writer, &ended)
}

/// Runs a command whose output goes to the file that the first of these words names.
fn run_to_file<W: Write>(rt: &HostRuntime, told: &str, writer: &mut W) -> io::Result<()> {
    let (file, words) = cut(told, "|");
    let ended = run(rt, Kind::Sound, words, b"")?;
    fs::write(rt, file, ended.output.taken.as_slice())?;
    write_said(writer, &ended)
}

/// What is found of a question about files, or whether something was done with them.
fn found(rt: &HostRuntime, told: &str) -> &'static str {
    let (word, files) = cut(told, "|");
    let (file, rest) = cut(files, "|");
    match aside(rt, word, file, rest) {
        Ok(true) => "yes",
        Ok(false) => "no",
        Err(_) => "unknown",
    }
}

/// Runs the script of lines.
pub(crate) fn run_script<W: Write>(
    rt: &HostRuntime,
    lines: &str,
    writer: &mut W,
) -> io::Result<()> {
    let script = lines_meant(rt.alloc(), lines)?;
    run_command(rt, Kind::Sound, "script", &script, writer)
}

/// Runs a step. One makes a `file` of its input, or one of `bytes` whose last line has no end. One does something else with files, `beside`
/// commands. One runs a command whose output is kept, `to` a file, or a command over streams of a kind.
pub(crate) fn run_step<W: Write>(rt: &HostRuntime, step: &str, writer: &mut W) -> io::Result<()> {
    let (head, lines) = cut(step, "\n");
    let (kind, words) = cut(head, " ");
    let input = if kind == "bytes" {
        meant(rt.alloc(), lines)?
    } else {
        lines_meant(rt.alloc(), lines)?
    };
    writeln!(writer, "${head}")?;
    match kind {
        "file" | "bytes" => fs::write(rt, words, input.as_slice()),
        "beside" => writeln!(writer, "{}", found(rt, words)),
        "to" => run_to_file(rt, words, writer),
        _ => match Kind::named(kind) {
            Some(kind) => run_command(rt, kind, words, &input, writer),
            None => writeln!(writer, "no such kind of step"),
        },
    }
}
