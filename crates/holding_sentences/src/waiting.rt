//! The early batches that an answer does not count, and the missing ones before them.

ghost use Rattle.std.specs.Prelude.{◌≡◌, ◌-◌, ◌^◌, [], length, map, min, IfOk, OnOk};
ghost use Rattle.grouping_model.specs.Replies.{known_list};
ghost use Rattle.replica_merge.specs.Replicas.{known_of, told};
ghost use Rattle.holding_sentences.specs.Waiting.{has_early, waiting};

use replica_merge::{KnownOrigin, Replica};
use std::alloc::{AllocError, Global};
use std::fmt;

/// How many origins with early batches are listed.
const MAX_ORIGINS: usize = 10;

/// How many missing numbers, or ranges of them, of one origin are listed.
const MAX_MISSING: usize = 10;

/// The numbers that are missing below the last early one: each, or a row of them by its ends.
#[derive(Clone, Copy)]
pub(crate) struct Missing<'h> {
    upto: u32,
    early: &'h [u32],
    most: usize,
}

impl<'h> Missing<'h> {
    /// All numbers that are missing behind a prefix.
    pub(crate) fn all(upto: u32, early: &'h [u32]) -> Missing<'h> {
        Missing {
            upto,
            early,
            most: usize::MAX,
        }
    }
}

/// Writes a row of numbers by its ends, or the number that is alone.
fn write_row<W: fmt::Write>(
    space: &str,
    next: u32,
    last: u32,
    f: &mut fmt::Formatter<W>,
) -> fmt::Result {
    if next < last {
        write!(f, "{space}{next}-{last}")
    } else {
        write!(f, "{space}{next}")
    }
}

impl fmt::Display for Missing<'_> {
    fn fmt<W: fmt::Write>(&self, f: &mut fmt::Formatter<W>) -> fmt::Result {
        let mut next = self.upto.saturating_add(1);
        let mut rows: usize = 0;
        for number in self.early {
            let last = number.saturating_sub(1);
            if next <= last {
                if rows >= self.most {
                    return f.write_str(" and more");
                }
                write_row(if rows == 0 { "" } else { " " }, next, last, f)?;
                rows = rows.saturating_add(1);
            }
            next = number.saturating_add(1);
        }
        Ok(())
    }
}

/// That batches of an origin are not counted.
#[derive(Clone, Copy)]
struct Waiting<'h> {
    origin: u16,
    early: usize,
    missing: Missing<'h>,
}

impl fmt::Display for Waiting<'_> {
    fn fmt<W: fmt::Write>(&self, f: &mut fmt::Formatter<W>) -> fmt::Result {
        let (origin, early, missing) = (self.origin, self.early, self.missing);
        if early == 1 {
            write!(
                f,
                "origin {origin}: 1 early batch is not counted; missing {missing}"
            )
        } else {
            write!(
                f,
                "origin {origin}: {early} early batches are not counted; missing {missing}"
            )
        }
    }
}

/// What is said of an origin.
fn waiting_line(alloc: Global, known: &KnownOrigin) -> Result<String, AllocError> {
    let waiting = Waiting {
        origin: known.origin,
        early: known.early.len(),
        missing: Missing {
            upto: known.upto,
            early: known.early.as_slice(),
            most: MAX_MISSING,
        },
    };
    format!(in alloc; "{waiting}")
}

/// What is said of the origins of which no line was made.
fn others_line(alloc: Global, others: usize) -> Result<String, AllocError> {
    format!(in alloc;
        "more origins with early batches that are not counted: {others}; known --explain lists them"
    )
}

/// Whether an origin has early batches.
fn is_waiting(known: &KnownOrigin) -> bool
    ensures { result ≡ has_early (known_of known.now) }
{
    !known.early.is_empty()
}

/// Appends a line for each of the first ten origins with early batches, and returns how many others there are.
fn push_waiting(
    alloc: Global,
    lines: &mut Vec<String>,
    list: &[KnownOrigin],
) -> Result<usize, AllocError>
    requires { lines.old.items ≡ [] }
    ensures lines { OnOk result (length lines.new.items ≡ min 10 (waiting (map known_of list.now))) }
    ensures others { IfOk result (λ others. others ≡ min (waiting (map known_of list.now) - 10) (2 ^ 64 - 1)) }
{
    let mut others: usize = 0;
    for known in list {
        if !is_waiting(known) {
            continue;
        }
        if lines.len() < MAX_ORIGINS {
            lines.push(waiting_line(alloc, known)?)?;
        } else {
            others = others.saturating_add(1);
        }
    }
    Ok(others)
}

/// The batches that a replica's answer does not count, since one before them is missing: a line for each of the first ten origins, and one
/// for the others. There is no line if all are counted.
pub fn waiting_lines(alloc: Global, replica: &Replica) -> Result<Vec<String>, AllocError>
    ensures told { IfOk result (λ lines. length lines.items ≡ min 11 (waiting (known_list (told replica.now.parts)))) }
{
    let mut lines = Vec::new(alloc);
    let known = replica.known()?;
    let others = push_waiting(alloc, &mut lines, &known)?;
    if others > 0 {
        lines.push(others_line(alloc, others)?)?;
    }
    Ok(lines)
}
