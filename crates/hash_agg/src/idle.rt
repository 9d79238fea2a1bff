//! The table that one aggregation leaves to the next.

ghost use Rattle.std.specs.Prelude.{◌≡◌, ◌↔◌, IsTrue};

use context_tree::Tree;
use group_table::{GroupTable, Seed, SipHash};
use std::marker::Model;

/// A table without a group, whose contexts lie below the root of a tree, which has nothing else below it. Its states have `width` bytes
/// each, and it finds keys by a hash function with a seed. Its context of buckets may hold its first block.
#[derive(Drop)]
pub(crate) struct IdleTable {
    pub(crate) tree: Tree,
    pub(crate) table: GroupTable<SipHash>,
    pub(crate) width: u32,
    pub(crate) seed: Seed,
}

impl Model for IdleTable {
    ghost use Rattle.hash_agg.specs.Passes.{IdleState, IsIdle};

    ghost Value = { IdleState };

    ghost view = { λ t. record { width = t.width; seed = t.seed } };

    ghost invariant = { λ t. IsIdle t.table t.tree t.width t.seed };
}

impl IdleTable {
    /// Whether its states have this width, and it finds keys by this seed.
    pub(crate) fn serves(&self, width: u32, seed: Seed) -> bool
        ensures { IsTrue result ↔ ((self.now.width ≡ width) × (self.now.seed ≡ seed)) }
    {
        self.width == width && self.seed == seed
    }
}
