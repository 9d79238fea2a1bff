//! `agg_tool` aggregates numbered batches of rows, and merges the summaries of several sites: `agg_tool --help`.
#![tactic(auto)]

use command_line::{Terminals, command};
use std::io::{IsTerminal, Write};
use std::process::ExitCode;
use std::{env, io};

/// The words of the command line, the program's name first.
fn words(rt: &HostRuntime) -> io::Result<Vec<String>> {
    Ok(env::args(rt)?.collect(rt.alloc())?)
}

/// Says why the words could not be read, in one write if there is memory for that.
fn say_unread(rt: &HostRuntime, error: &io::Error) {
    // Nothing is left to do where it can't be written.
    match format!(in rt.alloc(); "error: the command line could not be read: {error}\n") {
        Ok(line) => {
            let _ = rt.stderr().write_all(line.as_bytes());
        }
        Err(_) => {
            let _ = eprintln!(rt; "error: the command line could not be read: {error}");
        }
    }
}

fn main(rt: HostRuntime) -> ExitCode {
    let words = match words(&rt) {
        Ok(words) => words,
        Err(error) => {
            say_unread(&rt, &error);
            return ExitCode::from(2);
        }
    };
    let status = command(
        &rt,
        &words,
        &mut rt.stdin(),
        &mut rt.stdout(),
        &mut rt.stderr(),
        Terminals {
            output: rt.stdout().is_terminal(),
            errors: rt.stderr().is_terminal(),
        },
    );
    ExitCode::from(status)
}
