//! What may stand next in a query: what the parser goes on with.

use group_parser::goes_on;
use sentences::Said;
use std::alloc::{AllocError, Global};

/// Names that may stand next, the first that fits: what the query goes on with, and what the name is then.
const NAMES: [(&str, &str); 8] = [
    ("count(x) AS", "a column or a call, as count(*)"),
    ("count(x", "a column, a call"),
    ("x ASC", "the name or the place of an item"),
    // Where AS may stand, so may a name without it, and the words for both are below.
    ("AS", ""),
    ("x FROM", "a name"),
    ("x", "a column"),
    ("batches", "batches, the only table"),
    ("first", "first or last"),
];

/// What else may stand next: what the query goes on with, and its words. Where a semicolon may stand, the query may end.
const OTHERS: [(&str, &str); 27] = [
    ("SELECT", "SELECT"),
    ("BY", "BY"),
    ("*", "*"),
    // An integer that is no place of an item.
    ("1 AND", "an integer"),
    ("'x'", "a text"),
    ("TRUE", "TRUE"),
    ("FALSE", "FALSE"),
    ("NULL", "NULL"),
    ("UNKNOWN", "UNKNOWN"),
    ("NOT", "NOT"),
    ("(", "("),
    ("FILTER", "FILTER"),
    ("=", "a comparison"),
    ("IS", "IS"),
    ("AND", "AND"),
    ("OR", "OR"),
    (")", ")"),
    (",", "a comma"),
    ("AS", "AS, an alias"),
    ("FROM", "FROM"),
    ("WHERE", "WHERE"),
    ("GROUP", "GROUP BY"),
    ("HAVING", "HAVING"),
    ("ORDER", "ORDER BY"),
    ("ASC", "ASC, DESC"),
    ("NULLS", "NULLS"),
    (";", "a semicolon"),
];

/// Says words, with an `or` before the last.
fn say_words(said: &mut Said, words: &[&str]) {
    for (place, word) in words.iter().enumerate() {
        if place > 0 {
            let is_last = place.saturating_add(1) == words.len();
            said.push_str(if is_last { " or " } else { ", " });
        }
        said.push_str(*word);
    }
}

/// What the name is that may stand next, or nothing.
fn name_wanted(alloc: Global, front: &str) -> Result<&'static str, AllocError> {
    for (next, words) in &NAMES {
        if goes_on(alloc, front, next)? {
            return Ok(*words);
        }
    }
    Ok("")
}

/// Finds the words of all that may stand behind a front.
fn find_words(alloc: Global, front: &str, found: &mut Vec<&'static str>) -> Result<(), AllocError> {
    let name = name_wanted(alloc, front)?;
    if !name.is_empty() {
        found.push(name)?;
    }
    for (next, words) in &OTHERS {
        if goes_on(alloc, front, next)? {
            found.push(*words)?;
        }
    }
    if found.is_empty() || goes_on(alloc, front, ";")? {
        found.push("the end")?;
    }
    Ok(())
}

/// Says what may stand behind a front.
pub(crate) fn say_wanted(alloc: Global, said: &mut Said, front: &str) -> Result<(), AllocError> {
    let mut words = Vec::new(alloc);
    let found = find_words(alloc, front, &mut words);
    say_words(said, &words);
    drop(words);
    found
}
