//! A text with a caret under a place.

use crate::quoted::is_hidden;
use crate::said::Said;
use std::alloc::{AllocError, Global};

/// How many bytes of a text are shown, and how many before the place.
const MAX_SHOWN: usize = 72;

const BEFORE: usize = 48;

/// Adds the characters of a text between two places, each in one column, or blanks instead.
fn add_columns(said: &mut Said, text: &str, front: usize, back: usize, is_blank: bool) {
    for (place, c) in text.char_indices() {
        if front <= place && place < back {
            said.push(if is_blank || is_hidden(c) { ' ' } else { c });
        }
    }
}

/// Two lines: a text, or what stands of a long one round a place, and a caret under the place, which is counted in bytes.
pub(crate) fn picture(alloc: Global, text: &str, at: usize) -> Result<String, AllocError> {
    if text.is_empty() {
        return Ok(String::new(alloc));
    }
    let front = if text.len() <= MAX_SHOWN {
        0
    } else {
        at.saturating_sub(BEFORE)
    };
    let back = front.saturating_add(MAX_SHOWN);
    let mut said = Said::new(alloc);
    said.push_str(if front > 0 { "\n  .. " } else { "\n  " });
    add_columns(&mut said, text, front, back, false);
    said.push_str(if back < text.len() { " ..\n  " } else { "\n  " });
    said.push_str(if front > 0 { "   " } else { "" });
    add_columns(&mut said, text, front, at, true);
    said.push('^');
    said.end()
}
