//! Runs of groups.

ghost use Rattle.std.specs.Prelude.{◌≡◌, ◌^◌, ◌<◌, ◌≤◌, ◌++◌, ◌∷◌, [], length, slice_get, slice_range, Some, IsTrue, ◌↔◌};
ghost use Rattle.std.specs.Prelude.{IfOk, OnOk, OnErr};
ghost use Rattle.agg_protocol.specs.Kinds.{functions_of};
ghost use Rattle.group_runs.specs.Runs.{Rises};
ghost use Rattle.group_runs.specs.Places.{IsPlaceOf};
ghost use Rattle.group_runs.specs.Steps.{CanAddRun, AddsRunOf};

use crate::segments::Segments;
use agg_library::AggKind;
use std::alloc::{AllocError, Global};
use std::marker::Model;

/// Groups in the order of their keys, each with the bytes of its key and of its states. No two have the same key.
///
/// They lie in segments, so an insertion moves only the groups of one segment.
#[derive(Drop)]
pub struct Run {
    segments: Segments,
}

impl Model for Run {
    ghost use Rattle.std.specs.Prelude.{List};
    ghost use Rattle.group_runs.specs.Runs.{Entry};
    ghost use Rattle.packed_rows.specs.ConcatenatedRows.{concatenated};

    ghost Value = { List Entry };

    ghost view = { λ r. concatenated r.segments };
}

impl Run {
    /// An empty run.
    pub fn new(alloc: Global) -> Run
        ensures { result ≡ [] }
    {
        Run {
            segments: Segments::new(alloc),
        }
    }

    /// An empty run with room for `groups` groups, whose keys take `keys` bytes together and whose states take
    /// `states`. The only error is a failed allocation.
    pub fn with_capacity(
        alloc: Global,
        groups: usize,
        keys: usize,
        states: usize,
    ) -> Result<Run, AllocError>
        ensures { IfOk result (λ run. run ≡ []) }
    {
        Ok(Run {
            segments: Segments::with_capacity(alloc, groups, keys, states)?,
        })
    }

    /// Adds a group at the end. Its key is above the last one. The only error is a failed allocation, which changes
    /// nothing.
    pub fn push(&mut self, key: &[u8], states: &[u8]) -> Result<(), AllocError>
        requires { Rises (self.old ++ (key.now, states.now) ∷ []) }
        ensures pushed { OnOk result (self.new ≡ self.old ++ (key.now, states.now) ∷ []) }
        ensures refused { OnErr result (self.new ≡ self.old) }
    {
        self.segments.push(key, states)
    }

    /// How many groups there are.
    pub fn len(&self) -> usize
        ensures length { result ≡ length self.now }
        ensures rises { Rises self.now }
    {
        self.segments.len()
    }

    /// Whether there are no groups.
    pub fn is_empty(&self) -> bool
        ensures { IsTrue result ↔ (self.now ≡ []) }
    {
        self.len() == 0
    }

    /// The bytes of the key and of the states of a group, the first group being 0.
    pub fn group(&self, place: usize) -> (&[u8], &[u8])
        requires { place < length self.now }
        ensures { slice_get self.now place ≡ Some (result.0.now, result.1.now) }
    {
        self.segments.group(place)
    }

    /// A copy of the groups. The only error is a failed allocation.
    pub fn try_clone(&self, alloc: Global) -> Result<Run, AllocError>
        ensures { IfOk result (λ copy. copy ≡ self.now) }
    {
        Ok(Run {
            segments: self.segments.try_clone(alloc)?,
        })
    }

    /// The place of a key among the groups from a place on: that of the first one whose key is not below it. `step` is a guess of
    /// how far it is.
    pub fn seek(&self, from: usize, step: usize, key: &[u8]) -> usize
        requires { from ≤ length self.now }
        ensures place { IsPlaceOf self.now from key.now result }
        ensures rises { Rises self.now }
        ensures few { length self.now < 2 ^ 64 }
    {
        self.segments.seek(from, step, key)
    }

    /// A copy of the groups from a place up to another. The only error is a failed allocation.
    pub fn piece(&self, alloc: Global, from: usize, to: usize) -> Result<Run, AllocError>
        requires order { from ≤ to }
        requires within { to ≤ length self.now }
        ensures { IfOk result (λ piece. piece ≡ slice_range self.now from to) }
    {
        Ok(Run {
            segments: self.segments.piece(alloc, from, to)?,
        })
    }

    /// Whether these are the same groups, byte by byte.
    pub fn same_groups(&self, other: &Run) -> bool
        ensures { IsTrue result ↔ (self.now ≡ other.now) }
    {
        if self.len() != other.len() {
            return false;
        }
        for place in 0..self.len() {
            let (key, states) = self.group(place);
            let (other_key, other_states) = other.group(place);
            if key != other_key || states != other_states {
                return false;
            }
        }
        true
    }

    /// Adds the groups of another run. Both are runs of one query, whose functions are these. If all keys are there, this takes no
    /// memory. The only error is a failed allocation, which leaves the run as it was.
    pub fn merge_from(
        &mut self,
        alloc: Global,
        kinds: &[AggKind],
        more: &Run,
    ) -> Result<(), AllocError>
        requires { CanAddRun (functions_of kinds.now) self.old more.now }
        ensures added { OnOk result (AddsRunOf (functions_of kinds.now) self.old more.now self.new) }
        ensures refused { OnErr result (self.new ≡ self.old) }
    {
        self.segments.merge_from(alloc, kinds, &more.segments)
    }
}
