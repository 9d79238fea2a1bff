use packed_rows::PackedRows;
use std::alloc::{AllocError, Global};
use std::test::*;
use test_cases::expect_lines;

/// Rows of a letter each.
fn rows_of(alloc: Global, letters: &str) -> Result<PackedRows, AllocError> {
    let mut rows = PackedRows::new(alloc);
    for letter in letters.as_bytes().chunks(1) {
        rows.push(letter)?;
    }
    Ok(rows)
}

/// The letters of rows.
fn letters_of(alloc: Global, rows: &PackedRows) -> Result<Vec<u8>, AllocError> {
    let mut letters = Vec::new(alloc);
    for place in 0..rows.len() {
        letters.extend_from_slice(rows.row(place))?;
    }
    Ok(letters)
}

/// Three rows behind the first, or all if there are no four.
fn part_of(rows: &PackedRows) -> Result<PackedRows, AllocError> {
    if rows.len() < 4 {
        return rows.part(0, rows.len());
    }
    rows.part(1, 3)
}

/// A copy of rows with others behind them.
fn with_more(
    alloc: Global,
    rows: &PackedRows,
    more: &PackedRows,
) -> Result<PackedRows, AllocError> {
    let mut longer = rows.try_clone(alloc)?;
    longer.append(more)?;
    Ok(longer)
}

/// The letters of a part with all behind it, then those of the part, and whether it is all.
fn told_of(alloc: Global, all: &PackedRows, part: &PackedRows) -> Result<String, Fail> {
    let longer = with_more(alloc, part, all)?;
    let told = letters_of(alloc, &longer);
    drop(longer);
    let mut told = told?;
    told.push(b' ')?;
    told.extend_from_slice(&letters_of(alloc, part)?)?;
    Ok(format!(in alloc; "{} {}", str::from_utf8(&told)?, all.same_rows(part))?)
}

/// The same of a part of rows that are gathered.
fn told(rt: HostRuntime, letters: &str) -> Result<String, Fail> {
    let own = rows_of(rt.alloc(), letters)?;
    let gathered = own.gathered(rt.alloc());
    drop(own);
    let all = gathered?;
    let told = match part_of(&all) {
        Ok(part) => told_of(rt.alloc(), &all, &part),
        Err(error) => Err(Fail::from(error)),
    };
    drop(all);
    told
}

/// Letters, each a row; and what is told of them.
const PARTS: &str = "\
abcdef => bcdabcdef bcd false
abc => abcabc abc true";

#[test]
fn parts_are_parts(rt: HostRuntime) -> Result<(), Fail> {
    expect_lines(rt, PARTS, told)
}
