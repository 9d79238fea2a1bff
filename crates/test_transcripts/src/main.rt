//! Runs the cases of standard input one after the other, each as a transcript of the program's commands: what these reply, what they say,
//! and their statuses.
//!
//! A case stands behind a line `== TITLE`. Each of its steps stands behind a line of `$`, the kind of the step, a space, and words with `|`
//! between them. What lines follow are its input. Where lines follow the title, they are the input of the command `script`. The folder `f`
//! has the files of a case, and is gone behind it.
#![tactic(auto)]

mod steps;

use crate::steps::{run_script, run_step};
use std::io::{Read, Write};
use std::{fs, io};
use test_cases::cut;

/// Runs a case.
fn run_case<W: Write>(rt: &HostRuntime, case: &str, writer: &mut W) -> io::Result<()> {
    let mut steps = case.split("\n$");
    let (title, script) = cut(steps.next().unwrap_or(""), "\n");
    writeln!(writer, "== {title}")?;
    if !script.is_empty() {
        run_script(rt, script, writer)?;
    }
    for step in steps {
        run_step(rt, step, writer)?;
    }
    Ok(())
}

/// Runs a case in a folder that is empty at first.
fn run_in_folder<W: Write>(rt: &HostRuntime, case: &str, writer: &mut W) -> io::Result<()> {
    fs::create_dir(rt, "f")?;
    run_case(rt, case, writer)?;
    fs::remove_dir_all(rt, "f")
}

fn main(rt: HostRuntime) -> io::Result<()> {
    let mut text = String::new(rt.alloc());
    text.push_str("\n")?;
    rt.stdin().read_to_string(&mut text)?;
    let cases = text.strip_suffix('\n').unwrap_or(&text);
    for case in cases.split("\n== ").skip(1) {
        run_in_folder(&rt, case, &mut rt.stdout())?;
    }
    Ok(())
}
