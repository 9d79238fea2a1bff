//! What is known of an origin.

/// What a replica knows of an origin.
#[derive(Debug, Drop)]
pub struct KnownOrigin {
    /// The origin.
    pub origin: u16,
    /// Its unbroken prefix: the batches 1 to this number are known.
    pub upto: u32,
    /// The numbers that are known above the prefix, in ascending order.
    pub early: Vec<u32>,
}
