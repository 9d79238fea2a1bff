//! What a call meets in a room.

use replies::Refusal;

/// What became of a call, or of a trial that makes it, and makes it again where it is refused.
#[derive(Clone, Copy, PartialEq, Eq, Debug)]
pub(crate) enum Met {
    /// The call answered.
    Nothing,
    /// It was refused because memory ran out, and then answered.
    Refusal,
    /// It gave something else.
    OtherAnswer,
    /// It was refused for something else.
    OtherRefusal,
    /// It was refused again, where there is memory.
    RefusedAgain,
    /// A refusal changed something.
    Changed,
    /// No growth was refused.
    NoGrowth,
    /// There was no end of rooms.
    NoEnd,
}

impl Met {
    /// Whether a call answered, be it where it was made again.
    pub(crate) fn is_right(self) -> bool {
        matches!(self, Met::Nothing | Met::Refusal)
    }
}

/// What became of a trial, where this is to hold.
pub(crate) fn met_if(holds: bool, wanted: Met, wrong: Met) -> Met {
    if holds { wanted } else { wrong }
}

/// What became of a call that gives bytes, and of the same call made again, with all memory.
pub(crate) fn twice(
    first: Result<Vec<u8>, Refusal>,
    again: Result<Vec<u8>, Refusal>,
    wanted: &[u8],
) -> Met {
    let Ok(again) = again else {
        return Met::RefusedAgain;
    };
    if again.as_slice() != wanted {
        return Met::OtherAnswer;
    }
    match first {
        Ok(bytes) => met_if(bytes.as_slice() == wanted, Met::Nothing, Met::OtherAnswer),
        Err(Refusal::NoMemory) => Met::Refusal,
        Err(_) => Met::OtherRefusal,
    }
}
