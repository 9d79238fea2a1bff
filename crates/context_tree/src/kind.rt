//! The kinds of a context.

/// The kinds of a context.
#[derive(Clone, Copy, Debug, PartialEq, Eq)]
pub enum Kind {
    /// Chunks of any size, which are freed one by one, and serve later requests.
    AllocSet,
    /// Chunks of one size, in bytes.
    Slab(u32),
    /// Chunks that are freed about as they were taken.
    Generation,
    /// Chunks that are given up all together.
    Bump,
}
