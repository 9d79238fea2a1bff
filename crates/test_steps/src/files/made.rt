//! Batch files of many rows, and what commands are to print of them, made by hand.

use crate::files::number;
use std::alloc::{AllocError, Global};
use std::io::{Error, ErrorKind};
use std::{fs, io};

/// Two numbers with a `|` between them.
fn two_numbers(told: &str) -> io::Result<(u32, u32)> {
    match told.split_once('|') {
        Some((first, second)) => Ok((number(first)?, number(second)?)),
        None => Err(Error::from(ErrorKind::InvalidInput)),
    }
}

/// What each line of a file is.
#[derive(Clone, Copy)]
enum Line {
    /// The row of a town, whose name has five digits where there are more than 10,000.
    Row,
    /// The line of a town in an answer in CSV, and in one in columns.
    Csv,
    Aligned,
    /// An origin of which all batches are known that there can be.
    Origin,
}

impl Line {
    /// The line of a town that was told so many times, or of an origin.
    fn of(self, alloc: Global, town: u32, times: u32) -> Result<String, AllocError> {
        let sum = town.saturating_mul(times);
        match self {
            Line::Row if times > 10_000 => format!(in alloc; "k{town:05},{town}\n"),
            Line::Row => format!(in alloc; "k{town:04},{town}\n"),
            Line::Csv => format!(in alloc; "k{town:05},{times},{sum}\n"),
            Line::Aligned => format!(in alloc; "k{town:05} | {times:>5} | {sum:>5}\n"),
            Line::Origin => format!(in alloc; "origin {town} upto 4294967295\n"),
        }
    }
}

/// Appends the lines of so many towns, each of which was told so many times.
fn push_lines(
    alloc: Global,
    text: &mut String,
    line: Line,
    towns: u32,
    times: u32,
) -> Result<(), AllocError> {
    for town in 0..towns {
        let told = line.of(alloc, town, times)?;
        text.push_str(&told)?;
    }
    Ok(())
}

/// Writes the same behind a first line.
fn write_lines(
    rt: &HostRuntime,
    file: &str,
    first: &str,
    line: Line,
    towns: u32,
    times: u32,
) -> io::Result<bool> {
    let mut text = String::from_str(rt.alloc(), first)?;
    push_lines(rt.alloc(), &mut text, line, towns, times)?;
    fs::write(rt, file, text.as_bytes())?;
    Ok(true)
}

/// Writes a batch file, the `NUMBER|ROWS` of an origin: a row of each of so many towns, `k0000` and on.
pub(crate) fn write_rows(rt: &HostRuntime, file: &str, told: &str) -> io::Result<bool> {
    let Some((origin, told)) = told.split_once('|') else {
        return Err(Error::from(ErrorKind::InvalidInput));
    };
    let (number, rows) = two_numbers(told)?;
    let head = format!(in rt.alloc(); "batch,{origin},{number},{rows}\n")?;
    write_lines(rt, file, &head, Line::Row, rows, rows)
}

/// Writes the answer in CSV, `TIMES|TOWNS`: about so many towns, each of which was told so many times.
pub(crate) fn write_csv(rt: &HostRuntime, file: &str, told: &str) -> io::Result<bool> {
    let (times, towns) = two_numbers(told)?;
    write_lines(rt, file, "town,count,sum\n", Line::Csv, towns, times)
}

/// Writes the answer in columns, about more than 10,000 towns.
pub(crate) fn write_aligned(rt: &HostRuntime, file: &str, told: &str) -> io::Result<bool> {
    let (times, towns) = two_numbers(told)?;
    let first = "town   | count |   sum\n-------+-------+------\n";
    write_lines(rt, file, first, Line::Aligned, towns, times)
}

/// Writes what is known of so many origins, of each all batches that there can be.
pub(crate) fn write_listed(rt: &HostRuntime, file: &str, told: &str) -> io::Result<bool> {
    let origins = number(told)?;
    write_lines(rt, file, "", Line::Origin, origins, 1)
}

/// How many bytes a text may have, and a file.
const MAX_TEXT_LEN: usize = 255;

const MAX_FILE_LEN: usize = 67_108_864;

/// Writes a batch file, the `NUMBER|ROWS` of origin 0: so many rows of four of the longest texts, and empty lines behind them, up to the
/// most bytes that a file may have.
pub(crate) fn write_wide(rt: &HostRuntime, file: &str, told: &str) -> io::Result<bool> {
    let (number, rows) = two_numbers(told)?;
    let text = "x".repeat(rt.alloc(), MAX_TEXT_LEN)?;
    let row = format!(in rt.alloc(); "{text},{text},{text},{text}\n")?;
    let mut bytes = format!(in rt.alloc(); "batch,0,{number},{rows}\n")?.into_bytes();
    for _ in 0..rows {
        bytes.extend_from_slice(row.as_bytes())?;
    }
    bytes.resize(MAX_FILE_LEN, b'\n')?;
    fs::write(rt, file, bytes.as_slice())?;
    Ok(true)
}
