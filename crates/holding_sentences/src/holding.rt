//! What a summary holds, and what its answer is made of.

use crate::waiting::Missing;
use having_filter::Query;
use origin_prefix::OriginPart;
use replica_merge::{KnownOrigin, Replica};
use sentences::Plain;
use std::alloc::{AllocError, Global};
use std::collections::BTreeMap;
use std::fmt;
use summary_codec::decode;

/// What stands before each group of a summary file, each row of an early batch, each early batch and each origin, in bytes.
const BEFORE_GROUP: u64 = 2;

const BEFORE_ROW: u64 = 2;

const BEFORE_BATCH: u64 = 8;

const BEFORE_ORIGIN: u64 = 18;

/// What is held of an origin.
#[derive(Clone, Copy)]
struct Holding<'h> {
    origin: u16,
    upto: u32,
    groups: usize,
    bytes: u64,
    early: &'h [u32],
}

impl fmt::Display for Holding<'_> {
    fn fmt<W: fmt::Write>(&self, f: &mut fmt::Formatter<W>) -> fmt::Result {
        let (origin, upto, groups, bytes) = (self.origin, self.upto, self.groups, self.bytes);
        let early = self.early.len();
        write!(
            f,
            "origin {origin} upto {upto} groups {groups} early {early} bytes {bytes}"
        )?;
        if self.early.is_empty() {
            return Ok(());
        }
        let missing = Missing::all(upto, self.early);
        write!(f, " missing {missing}")
    }
}

/// A text of a summary, behind what it is.
#[derive(Clone, Copy)]
struct Titled<'t> {
    title: &'t str,
    text: &'t str,
}

impl fmt::Display for Titled<'_> {
    fn fmt<W: fmt::Write>(&self, f: &mut fmt::Formatter<W>) -> fmt::Result {
        let (title, text) = (self.title, Plain(self.text));
        write!(f, "{title} {text}")
    }
}

/// How many bytes a summary file has of an origin.
fn bytes_of(part: &OriginPart) -> u64 {
    let run = part.run();
    let mut bytes = BEFORE_ORIGIN;
    for place in 0..run.len() {
        let (key, states) = run.group(place);
        let len = (key.len() as u64).saturating_add(states.len() as u64);
        bytes = bytes.saturating_add(len).saturating_add(BEFORE_GROUP);
    }
    for (_, rows) in part.early().iter() {
        bytes = bytes.saturating_add(BEFORE_BATCH);
        for place in 0..rows.len() {
            let len = rows.row(place).len() as u64;
            bytes = bytes.saturating_add(len).saturating_add(BEFORE_ROW);
        }
    }
    bytes
}

/// Appends a line for each origin: its groups, its bytes and the numbers that are missing.
fn push_origins(
    alloc: Global,
    lines: &mut Vec<String>,
    parts: &BTreeMap<u16, OriginPart>,
    known: &[KnownOrigin],
) -> Result<(), AllocError> {
    for origin in known {
        if let Some(part) = parts.get(&origin.origin) {
            let holding = Holding {
                origin: origin.origin,
                upto: origin.upto,
                groups: part.run().len(),
                bytes: bytes_of(part),
                early: origin.early.as_slice(),
            };
            lines.push(format!(in alloc; "{holding}")?)?;
        }
    }
    Ok(())
}

/// Appends a text behind what it is.
fn push_titled(
    alloc: Global,
    lines: &mut Vec<String>,
    title: &str,
    text: &str,
) -> Result<(), AllocError> {
    let titled = Titled { title, text };
    lines.push(format!(in alloc; "{titled}")?)?;
    Ok(())
}

/// Appends what a summary holds.
fn push_held(
    alloc: Global,
    lines: &mut Vec<String>,
    query: &Query,
    parts: &BTreeMap<u16, OriginPart>,
    known: &[KnownOrigin],
) -> Result<(), AllocError> {
    let columns = query.schema().print()?;
    push_titled(alloc, lines, "columns", &columns)?;
    push_titled(alloc, lines, "query", query.spelling())?;
    push_origins(alloc, lines, parts, known)
}

/// Appends what a summary file holds.
fn push_holding(
    alloc: Global,
    lines: &mut Vec<String>,
    file: &[u8],
    known: &[KnownOrigin],
) -> Result<(), AllocError> {
    let Ok((query, parts)) = decode(alloc, file) else {
        return Ok(());
    };
    let pushed = push_held(alloc, lines, &query, &parts, known);
    drop(query);
    drop(parts);
    pushed
}

/// What a replica holds, as lines: its columns, its query, and of each origin its groups, their bytes in a summary file and the missing
/// numbers. The file is made and read again for this, however long it is. There is no line if memory runs out.
pub fn holding_lines(alloc: Global, replica: &Replica) -> Result<Vec<String>, AllocError> {
    let mut lines = Vec::new(alloc);
    if let (Ok(file), Ok(known)) = (replica.save(), replica.known()) {
        push_holding(alloc, &mut lines, &file, &known)?;
    }
    Ok(lines)
}

/// What an answer is made of, and what it leaves out.
#[derive(Clone, Copy)]
struct Sources {
    /// The groups of all prefixes, a key once for each origin that has it.
    groups: u64,
    /// The origins that have a prefix.
    origins: u64,
    /// The batches that wait for those before them, and of how many origins they are.
    early: u64,
    waiting: u64,
}

impl Sources {
    /// What parts bring to an answer.
    fn of_parts(parts: &BTreeMap<u16, OriginPart>) -> Sources {
        let mut sources = Sources {
            groups: 0,
            origins: 0,
            early: 0,
            waiting: 0,
        };
        for (_, part) in parts.iter() {
            let early = part.early().len() as u64;
            sources.groups = sources.groups.saturating_add(part.run().len() as u64);
            sources.origins = sources.origins.saturating_add(u64::from(part.prefix() > 0));
            sources.early = sources.early.saturating_add(early);
            sources.waiting = sources.waiting.saturating_add(u64::from(early > 0));
        }
        sources
    }
}

impl fmt::Display for Sources {
    fn fmt<W: fmt::Write>(&self, f: &mut fmt::Formatter<W>) -> fmt::Result {
        let (groups, origins) = (self.groups, self.origins);
        let (early, waiting) = (self.early, self.waiting);
        write!(
            f,
            "groups {groups} origins {origins} early {early} of {waiting} origins"
        )
    }
}

/// What the answer of a replica is made of, as a line. Its summary file is made and read again for this, however long it is. There is none
/// if memory runs out in reading.
pub fn answer_line(alloc: Global, replica: &Replica) -> Result<Option<String>, AllocError> {
    let file = replica.save()?;
    let Ok((query, parts)) = decode(alloc, &file) else {
        return Ok(None);
    };
    drop(query);
    let sources = Sources::of_parts(&parts);
    drop(parts);
    Ok(Some(format!(in alloc; "{sources}")?))
}
