//! Whole files: one that is new takes the place of none.

use out_files::{Occupant, Unwritten, occupant_of, write_new_file};
use std::io::ErrorKind;
use std::test::*;
use std::{fs, io, process};
use test_cases::expect_told;

/// What is there at a path, in a word.
fn word_of(found: Occupant) -> &'static str {
    match found {
        Occupant::Nothing => "nothing",
        Occupant::Special => "special",
        Occupant::Listed(0) => "listed first",
        Occupant::Listed(_) => "listed",
        Occupant::Another => "another",
    }
}

/// What becomes of a new file.
fn outcome(written: Result<(), Unwritten>) -> &'static str {
    match written {
        Ok(()) => "written",
        Err(Unwritten::Failed(error)) if error.kind() == ErrorKind::AlreadyExists =>
            "there already",
        Err(_) => "failed",
    }
}

/// Writes a new file of a path twice, and tells what became of both. It tells which bytes the file has then, and what was found in its
/// place before and behind that.
fn told_twice(rt: HostRuntime, path: &str) -> io::Result<String> {
    let before = word_of(occupant_of(&rt, path, &[path])?);
    let first = outcome(write_new_file(&rt, path, b"one"));
    let second = outcome(write_new_file(&rt, path, b"two"));
    let bytes = fs::read(&rt, path)?;
    let text = str::from_utf8(&bytes).unwrap_or("");
    let listed = word_of(occupant_of(&rt, path, &["/none", path])?);
    let other = word_of(occupant_of(&rt, path, &["/none"])?);
    Ok(format!(in rt.alloc(); "{before}, {first}, {second}: {text}, {listed}, {other}")?)
}

#[test]
fn a_new_file_takes_the_place_of_none(rt: HostRuntime) -> Result<(), Fail> {
    let process = process::id(rt.process());
    let path = format!(in rt.alloc(); "/tmp/agg_tool_streams_{process}")?;
    let told = told_twice(rt, &path);
    fs::remove_file(&rt, path.as_str())?;
    expect_told(
        told,
        "nothing, written, there already: one, listed, another",
    )
}
