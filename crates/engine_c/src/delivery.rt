//! What became of a batch, as C has it.

ghost use Rattle.std.specs.Prelude.{◌≡◌};

/// What became of a batch.
#[repr(C)]
#[derive(Clone, Copy, Debug, PartialEq, Eq)]
pub struct Delivery {
    /// 0 folded, 1 early, 2 known already.
    pub kind: u32,
    /// For a folded batch, the number up to which all batches of its origin are known now; else 0.
    pub upto: u32,
}
