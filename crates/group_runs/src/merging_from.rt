//! Absorbing one run into another.

ghost use Rattle.std.specs.Prelude.{◌≡◌, ◌+◌, ◌<◌, ◌≤◌, IfOk, IsTrue, OnOk, OnErr, length, take};
ghost use Rattle.std.specs.List.{AllByRecursion};
ghost use Rattle.agg_protocol.specs.Kinds.{functions_of};
ghost use Rattle.group_runs.specs.Runs.{packed_keys};
ghost use Rattle.group_runs.specs.Places.{AllBelow, AreUpTo, HasKey};
ghost use Rattle.group_runs.specs.Steps.{EachQuery, CanAddGroup, AddsGroupOf, CanAddRun, AddsRunOf};
ghost use Rattle.packed_rows.specs.ConcatenatedRows.{concatenated};
ghost use Rattle.group_runs.specs.Segments.{AddSegments};

use crate::seeking::gap;
use crate::segment::Segment;
use crate::segments::Segments;
use agg_library::AggKind;
use std::alloc::{AllocError, Global};

impl Segments {
    /// Whether each key of another run is one of this one. It may be false where this is so.
    fn has_all(&self, more: &Segments) -> bool
        ensures { IsTrue result → AllByRecursion (HasKey (concatenated self.now)) (packed_keys (concatenated more.now)) }
    {
        let step = gap(self.len(), more.len());
        let mut from = 0;
        for place in 0..more.len() {
            let (key, _) = more.group(place);
            from = self.seek(from, step, key);
            if !self.has_at(from, key) {
                return false;
            }
            from += 1;
        }
        true
    }

    /// Combines the states of a key that is there with others. It stands after at least `from` groups, and by a guess after about `step`
    /// more. The result is how many groups there are up to it.
    fn combine_group(
        &mut self,
        kinds: &[AggKind],
        from: usize,
        step: usize,
        key: &[u8],
        states: &[u8],
    ) -> usize
        requires there { HasKey (concatenated self.old) key.now }
        requires within { from ≤ length (concatenated self.old) }
        requires below { AllBelow key.now (take from (concatenated self.old)) }
        requires room { CanAddGroup (functions_of kinds.now) (concatenated self.old) (key.now, states.now) }
        ensures added { AddsGroupOf (functions_of kinds.now) (concatenated self.old) (key.now, states.now) (concatenated self.new) }
        ensures keys { packed_keys (concatenated self.new) ≡ packed_keys (concatenated self.old) }
        ensures within { result ≤ length (concatenated self.new) }
        ensures up_to { AreUpTo key.now (take result (concatenated self.new)) }
    {
        let place = self.seek(from, step, key);
        self.combine_at(kinds, place, states);
        place + 1
    }

    /// Combines the groups with those of another run, all of whose keys are there.
    fn combine_all(&mut self, kinds: &[AggKind], more: &Segments)
        requires there { AllByRecursion (HasKey (concatenated self.old)) (packed_keys (concatenated more.now)) }
        requires room { CanAddRun (functions_of kinds.now) (concatenated self.old) (concatenated more.now) }
        ensures { AddsRunOf (functions_of kinds.now) (concatenated self.old) (concatenated more.now) (concatenated self.new) }
    {
        let step = gap(self.len(), more.len());
        let mut from = 0;
        for place in 0..more.len() {
            let (key, states) = more.group(place);
            from = self.combine_group(kinds, from, step, key, states);
        }
    }

    /// The segments that the groups of another run come into, with these, and the places of these segments.
    fn merged(
        &self,
        alloc: Global,
        kinds: &[AggKind],
        more: &Segments,
    ) -> Result<Vec<(usize, Segment)>, AllocError>
        requires some { 0 < length (concatenated self.now) }
        requires room { CanAddRun (functions_of kinds.now) (concatenated self.now) (concatenated more.now) }
        ensures { IfOk result (λ fresh. EachQuery (functions_of kinds.now) (λ query.
            AddSegments query self.now (concatenated more.now) fresh.items)) }
    {
        let _few_segments = self.count();
        let mut fresh = Vec::new(alloc);
        let mut first = 0;
        let mut from = 0;
        while from < more.len() {
            let (at, to) = self.part(first, more, from);
            let segment = self.segment(at).merged(alloc, kinds, more, from, to)?;
            fresh.push((at, segment))?;
            first = at + 1;
            from = to;
        }
        Ok(fresh)
    }

    /// Adds the groups of another run. If all its keys are there, this takes no memory. The only error is a failed
    /// allocation, which leaves the groups as they were.
    ///
    /// A segment that no group comes into stays where it is.
    pub(crate) fn merge_from(
        &mut self,
        alloc: Global,
        kinds: &[AggKind],
        more: &Segments,
    ) -> Result<(), AllocError>
        requires { CanAddRun (functions_of kinds.now) (concatenated self.old) (concatenated more.now) }
        ensures added { OnOk result (AddsRunOf (functions_of kinds.now) (concatenated self.old) (concatenated more.now)
            (concatenated self.new)) }
        ensures refused { OnErr result (concatenated self.new ≡ concatenated self.old) }
    {
        if self.has_all(more) {
            self.combine_all(kinds, more);
            return Ok(());
        }
        if self.len() == 0 {
            *self = more.try_clone(alloc)?;
            return Ok(());
        }
        if more.len() > usize::MAX - self.len() {
            return Err(AllocError); // No memory has so many groups.
        }
        self.cut_large()?;
        let fresh = self.merged(alloc, kinds, more)?;
        self.replace(fresh);
        Ok(())
    }
}
