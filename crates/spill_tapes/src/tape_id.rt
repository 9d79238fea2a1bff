//! The names of tapes.

/// Names a tape of some tapes, from when it is opened until it is closed.
#[derive(Clone, Copy, Debug, PartialEq, Eq)]
pub struct TapeId {
    pub(crate) index: usize,
}
