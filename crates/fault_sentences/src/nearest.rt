//! Names that are near to another.

use packed_rows::Schema;
use sentences::Said;
use std::alloc::{AllocError, Global};
use strsim::levenshtein;

/// How many letters may differ in a name of a length.
fn most_edits(len: usize) -> usize {
    match len {
        0..=2 => 0,
        3..=5 => 1,
        6..=8 => 2,
        _ => 3,
    }
}

/// The name that is nearest to a word, of those that were looked at.
#[derive(Clone, Copy)]
pub(crate) struct Nearest<'w, 'n> {
    word: &'w str,
    /// How many letters differ in it, or may differ where none was near.
    edits: usize,
    pub(crate) found: Option<&'n str>,
}

impl<'w, 'n> Nearest<'w, 'n> {
    /// No name was looked at.
    pub(crate) fn to(word: &'w str) -> Nearest<'w, 'n> {
        Nearest {
            word,
            edits: most_edits(word.len()),
            found: None,
        }
    }

    /// Looks at a name.
    pub(crate) fn look_at(&mut self, alloc: Global, name: &'n str) -> Result<(), AllocError> {
        let edits = levenshtein(alloc, self.word, name)?;
        if edits < self.edits || edits == self.edits && self.found.is_none() {
            self.edits = edits;
            self.found = Some(name);
        }
        Ok(())
    }
}

/// The column whose name is nearest to a word, if one is near.
pub(crate) fn nearest_column<'s>(
    alloc: Global,
    word: &str,
    schema: &'s Schema,
) -> Result<Option<&'s str>, AllocError> {
    let mut nearest = Nearest::to(word);
    for column in 0..schema.width() {
        nearest.look_at(alloc, schema.name(column))?;
    }
    Ok(nearest.found)
}

/// Says which name is near to a wrong one, if one is.
pub(crate) fn say_near(said: &mut Said, near: Option<&str>) {
    if let Some(name) = near {
        said.text(" (did you mean ", name);
        said.push_str("?)");
    }
}
