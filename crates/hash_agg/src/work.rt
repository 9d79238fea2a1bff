//! What an aggregation took.

ghost use Rattle.std.specs.Prelude.{◌≡◌, ◌+◌, ◌≤◌, min, max};
ghost use Rattle.hash_agg.specs.Counting.{no_work};

/// What an aggregation took: its passes, the records that these spilled, and the most bytes of blocks that its table of groups held at
/// any time. A record counts once for each pass that spills it. The resulting run, the pages of tapes and what is kept beside the
/// blocks, such as 24 bytes a group, are not counted.
#[derive(Clone, Copy, Debug, PartialEq, Eq)]
pub struct Work {
    pub passes: u64,
    pub spilled: u128,
    pub most_held: u64,
}

impl Work {
    /// The work of no aggregation.
    pub fn none() -> Work
        ensures { result ≡ no_work }
    {
        Work {
            passes: 0,
            spilled: 0,
            most_held: 0,
        }
    }

    /// Adds the work of another aggregation. Counters saturate: they stop at their greatest number, and so they never go down.
    pub(crate) fn add(&mut self, more: Work)
        ensures passes { self.new.passes ≡ min (self.old.passes + more.passes) 18446744073709551615 }
        ensures spilled { self.new.spilled ≡ min (self.old.spilled + more.spilled) 340282366920938463463374607431768211455 }
        ensures most_held { self.new.most_held ≡ max self.old.most_held more.most_held }
        ensures grown { (self.old.passes ≤ self.new.passes) × (self.old.spilled ≤ self.new.spilled) }
    {
        self.passes = self.passes.saturating_add(more.passes);
        self.spilled = self.spilled.saturating_add(more.spilled);
        self.most_held = self.most_held.max(more.most_held);
    }
}
