//! What a list of known batches tells.

ghost use Rattle.std.specs.Prelude.{◌≡◌, ◌≤◌, ◌↔◌, ◌||◌, ℕ, map, unwrap_or, IfOk, OnOk, IsTrue};
ghost use Rattle.std.specs.BTreeMap.{get};
ghost use Rattle.std.specs.Ordering.{nat_cmp};
ghost use Rattle.grouping_model.specs.Rising.{is_among};
ghost use Rattle.grouping_model.specs.World.{Batch, batch_cmp, count_up};
ghost use Rattle.replica_merge.specs.Lacking.{batches_listed, told_by, is_listed, Lists};
ghost use Rattle.replica_merge.specs.Replicas.{known_of};

use crate::known_origin::KnownOrigin;
use std::alloc::{AllocError, Global};
use std::collections::{BTreeMap, BTreeSet};

/// The batches that a list tells, to be asked by origin and number.
#[derive(Drop)]
pub(crate) struct Listed {
    /// The batches 1 to this number of an origin.
    upto: BTreeMap<u16, u32>,
    /// Others, by origin and number.
    others: BTreeSet<(u16, u32)>,
}

impl Listed {
    /// The batches of all entries of a list. The only error is out of memory.
    pub(crate) fn new(alloc: Global, known: &[KnownOrigin]) -> Result<Listed, AllocError>
        ensures { IfOk result (λ listed. Lists listed (told_by (map known_of known.now))) }
    {
        let mut listed = Listed {
            upto: BTreeMap::new(alloc),
            others: BTreeSet::new(alloc),
        };
        for entry in known {
            listed.add(entry)?;
        }
        Ok(listed)
    }

    /// The number up to which an entry of an origin tells all batches.
    fn upto(&self, origin: u16) -> u32
        ensures { result ≡ unwrap_or (get nat_cmp self.now.upto origin) 0 }
    {
        match self.upto.get(&origin) {
            Some(upto) => *upto,
            None => 0,
        }
    }

    /// Adds the batches 1 to a number of an origin.
    fn raise(&mut self, origin: u16, upto: u32) -> Result<(), AllocError>
        ensures { OnOk result ((batch : Batch) → is_listed self.new batch
            ≡ (is_listed self.old batch || is_among batch_cmp batch (map (λ (n : ℕ). (origin, n)) (count_up 1 upto)))) }
    {
        if self.upto(origin) < upto {
            self.upto.insert(origin, upto)?;
        }
        Ok(())
    }

    /// Adds the batches of an entry.
    fn add(&mut self, entry: &KnownOrigin) -> Result<(), AllocError>
        ensures { OnOk result ((batch : Batch) → is_listed self.new batch
            ≡ (is_listed self.old batch || is_among batch_cmp batch (batches_listed (known_of entry.now)))) }
    {
        self.raise(entry.origin, entry.upto)?;
        for number in &entry.early {
            self.others.insert((entry.origin, *number))?;
        }
        Ok(())
    }

    /// Whether a batch is told.
    pub(crate) fn tells(&self, origin: u16, number: u32) -> bool
        ensures { result ≡ is_listed self.now (origin, number) }
    {
        (1 <= number && number <= self.upto(origin)) || self.others.contains(&(origin, number))
    }

    /// Whether the batches 1 to a number of an origin are all told.
    pub(crate) fn tells_upto(&self, origin: u16, number: u32) -> bool
        ensures { IsTrue result ↔ ((n : ℕ) → 1 ≤ n → n ≤ number → IsTrue (is_listed self.now (origin, n))) }
    {
        for below in self.upto(origin)..number {
            if !self.others.contains(&(origin, below + 1)) {
                return false;
            }
        }
        true
    }
}
