//! What is replied to a batch (own).

/// What became of a batch that was delivered.
#[derive(Clone, Copy, Debug, PartialEq, Eq)]
pub enum Delivered {
    /// It came next to its origin's unbroken prefix, which now reaches up to this number.
    Folded { upto: u32 },
    /// It came early: a number before it is not known yet.
    Early,
    /// Its number was known already.
    Known,
}
