//! Merging groups into a segment.

ghost use Rattle.std.specs.Prelude.{◌≡◌, ◌+◌, ◌^◌, ◌<◌, ◌≤◌, ◌++◌, ◌↔◌, IfOk, IsTrue, OnOk, length, drop, slice_range};
ghost use Rattle.agg_protocol.specs.Kinds.{functions_of};
ghost use Rattle.group_runs.specs.Runs.{Rises};
ghost use Rattle.group_runs.specs.Places.{AllBelow, AreUpTo, HasKeyAt, IsPlaceOf};
ghost use Rattle.group_runs.specs.Steps.{CanAddGroup, AddsGroupOf, CanAddRun, AddsRunOf};
ghost use Rattle.group_runs.specs.Segments.{ArePiecesOf};
ghost use Rattle.packed_rows.specs.ConcatenatedRows.{concatenated};

use crate::seeking::{gap, is_below};
use crate::segment::Segment;
use crate::segments::{MAX_GROUPS, Segments};
use agg_library::AggKind;
use std::alloc::{AllocError, Global};

/// Where the piece that begins at a place ends, among `count` groups. It has half as many groups as a segment may have, and the last
/// piece has the rest.
fn end_of_piece(from: usize, count: usize) -> usize
    requires { from < count }
    ensures some { from < result }
    ensures within { result ≤ count }
{
    if count - from <= MAX_GROUPS {
        count
    } else {
        from + MAX_GROUPS / 2
    }
}

impl Segment {
    /// The place of a key among the groups from a place on: that of the first one whose key is not below it. It is found by an exponential
    /// search, which begins with a guess of how far it is. So a good guess finds it soon.
    pub(crate) fn seek(&self, from: usize, step: usize, key: &[u8]) -> usize
        requires { from ≤ length self.now }
        ensures place { IsPlaceOf self.now from key.now result }
        ensures rises { Rises self.now }
        ensures few { length self.now < 2 ^ 64 }
    {
        let mut low = from;
        let mut high = self.len();
        let mut step = step;
        while low < high {
            let middle = low + step.min((high - low) / 2);
            if is_below(self.group(middle).0, key) {
                low = middle + 1;
                step = step.saturating_mul(2).saturating_add(1);
            } else {
                high = middle;
            }
        }
        low
    }

    /// Whether the group at a place is there and has a key.
    fn has_at(&self, place: usize, key: &[u8]) -> bool
        ensures { IsTrue result ↔ HasKeyAt self.now place key.now }
    {
        place < self.len() && self.group(place).0 == key
    }

    /// One step of merging `old` and other groups into this segment. The groups of `old` from a place on come here, up to a key; then comes
    /// the group of that key, its states after those of `old`. The result is the place from which on the groups of `old` are left. `step`
    /// is a guess of how many come here.
    fn merge_group(
        &mut self,
        kinds: &[AggKind],
        old: &Segment,
        from: usize,
        step: usize,
        key: &[u8],
        states: &[u8],
    ) -> Result<usize, AllocError>
        requires below { AllBelow key.now self.old }
        requires within { from ≤ length old.now }
        requires rises { Rises (self.old ++ drop from old.now) }
        requires room { CanAddGroup (functions_of kinds.now) (self.old ++ drop from old.now) (key.now, states.now) }
        ensures within { IfOk result (λ next. next ≤ length old.now) }
        ensures rises { IfOk result (λ next. Rises (self.new ++ drop next old.now)) }
        ensures up_to { OnOk result (AreUpTo key.now self.new) }
        ensures added { IfOk result (λ next. AddsGroupOf (functions_of kinds.now)
            (self.old ++ drop from old.now) (key.now, states.now) (self.new ++ drop next old.now)) }
    {
        let place = old.seek(from, step, key);
        if old.has_at(place, key) {
            self.push_range(old, from, place + 1)?;
            self.combine_at(kinds, self.len() - 1, states);
            return Ok(place + 1);
        }
        self.push_range(old, from, place)?;
        self.push(key, states)?;
        Ok(place)
    }

    /// A segment of the groups of this one, and of those of a run from a place up to another.
    pub(crate) fn merged(
        &self,
        alloc: Global,
        kinds: &[AggKind],
        more: &Segments,
        from: usize,
        to: usize,
    ) -> Result<Segment, AllocError>
        requires order { from ≤ to }
        requires within { to ≤ length (concatenated more.now) }
        requires room { CanAddRun (functions_of kinds.now) self.now (slice_range (concatenated more.now) from to) }
        ensures { IfOk result (AddsRunOf (functions_of kinds.now) self.now
            (slice_range (concatenated more.now) from to)) }
    {
        let count = self.len();
        let step = gap(count, to - from);
        let mut merged = Segment::with_room_of(alloc, self, to - from)?;
        let mut left = 0;
        for place in 0..to - from {
            let (key, states) = more.group(from + place);
            left = merged.merge_group(kinds, self, left, step, key, states)?;
        }
        merged.push_range(self, left, count)?;
        Ok(merged)
    }

    /// The groups from a place to another, in a segment of their own. The only error is a failed allocation.
    fn piece(&self, alloc: Global, from: usize, to: usize) -> Result<Segment, AllocError>
        requires order { from ≤ to }
        requires within { to ≤ length self.now }
        ensures { IfOk result (λ piece. piece ≡ slice_range self.now from to) }
    {
        let _rising = self.len();
        let mut piece = Segment::with_capacity(alloc, 0, 0, 0)?;
        piece.push_range(self, from, to)?;
        Ok(piece)
    }

    /// The groups in pieces, or no piece if they are no more than a segment may have. The only error is a failed allocation.
    pub(crate) fn pieces(&self, alloc: Global) -> Result<Vec<Segment>, AllocError>
        ensures { IfOk result (λ pieces. ArePiecesOf self.now pieces.items) }
    {
        let count = self.len();
        let mut pieces = Vec::new(alloc);
        if count <= MAX_GROUPS {
            return Ok(pieces);
        }
        let mut from = 0;
        while from < count {
            let to = end_of_piece(from, count);
            pieces.push(self.piece(alloc, from, to)?)?;
            from = to;
        }
        Ok(pieces)
    }
}
