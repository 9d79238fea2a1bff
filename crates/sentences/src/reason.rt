//! Reasons: sentences on faults.

ghost use Rattle.std.specs.Prelude.{◌≡◌, [], true, Some, None, IfOk, string_bytes};
ghost use Rattle.std.specs.Option.{ForSome};
ghost use Rattle.sentences.specs.Pieces.{is_silent};

use crate::picture::picture;
use crate::said::Said;
use std::alloc::{AllocError, Global};

/// The sentence on a fault, and the text with a caret under the place.
#[derive(Drop)]
pub struct Reason {
    /// What is wrong, on one line.
    pub said: String,
    /// The text, or a part of it, and the caret below, each after a line feed. Empty if no place is known.
    pub picture: String,
}

impl Reason {
    /// The reason that a sentence tells, with the place in a text, if that is known.
    pub fn of(
        alloc: Global,
        said: Said,
        text: &str,
        place: Option<usize>,
    ) -> Result<Reason, AllocError>
        ensures said { IfOk result (λ reason. said ≡ Some (string_bytes reason.said)) }
    {
        let said = said.end()?;
        let picture = match place {
            Some(place) => picture(alloc, text, place)?,
            None => String::new(alloc),
        };
        Ok(Reason { said, picture })
    }

    /// The same, if anything is said.
    pub fn of_any(
        alloc: Global,
        said: Said,
        text: &str,
        place: Option<usize>,
    ) -> Result<Option<Reason>, AllocError>
        ensures said { IfOk result (λ found. ForSome found (λ reason. said ≡ Some (string_bytes reason.said))) }
        ensures none { IfOk result (λ found. found ≡ None → is_silent said ≡ true) }
    {
        if said.is_silent() {
            return Ok(None);
        }
        Ok(Some(Reason::of(alloc, said, text, place)?))
    }

    /// A reason without a place.
    pub fn whole(alloc: Global, said: String) -> Reason
        ensures said { result.said ≡ said }
        ensures picture { string_bytes result.picture ≡ [] }
    {
        Reason {
            said,
            picture: String::new(alloc),
        }
    }
}
