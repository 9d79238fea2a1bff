//! The segments of a run.

ghost use Rattle.std.specs.Prelude.{◌≡◌, ℕ, ◌+◌, ◌^◌, ◌<◌, ◌≤◌, ◌++◌, ◌∷◌, List, [], length, take, slice_get, slice_index_or, Some};
ghost use Rattle.std.specs.Prelude.{IsTrue, ◌↔◌, slice_range};
ghost use Rattle.std.specs.Prelude.{IfOk, OnOk, OnErr};
ghost use Rattle.std.specs.List.{AllByRecursion, Any};
ghost use Rattle.std.specs.Vec.{vec_len, vec_capacity};
ghost use Rattle.agg_protocol.specs.Kinds.{functions_of};
ghost use Rattle.group_runs.specs.Runs.{Entry, Rises};
ghost use Rattle.group_runs.specs.Places.{HasStatesFor, CombinesAt};
ghost use Rattle.packed_rows.specs.ConcatenatedRows.{concatenated, ends_of};
ghost use Rattle.group_runs.specs.Segments.{IsAmong, replaced, ArePiecesOf, AreCut, all_pieces, cut_count};

use crate::segment::Segment;
use agg_library::AggKind;
use packed_rows::bound;
use std::alloc::{AllocError, Global};
use std::marker::Model;
use std::mem::replace;

/// The most groups of a segment. An insertion copies its segment, some ten kilobytes. About one insertion in a hundred also moves what is
/// kept for each segment beside its groups, some seventy bytes. With half or twice as many groups to a segment, one of the two costs
/// more.
pub(crate) const MAX_GROUPS: usize = 256;

/// Groups in the order of their keys, in segments, one after the other. In a clause they are the list of the segments.
///
/// A segment that has more groups than it may is cut before others enter it. No segment is empty.
#[derive(Drop)]
pub(crate) struct Segments {
    segments: Vec<Segment>,
    /// How many groups there are up to the end of each segment.
    ends: Vec<usize>,
    /// How many groups, and bytes of keys and of states, the first segment begins with room for.
    room: (usize, usize, usize),
}

impl Model for Segments {
    ghost use Rattle.std.specs.Prelude.{List};
    ghost use Rattle.group_runs.specs.Runs.{Entry};
    ghost use Rattle.group_runs.specs.Segments.{AreSegments};

    ghost Value = { List (List Entry) };

    ghost view = { λ c. c.segments.items };

    ghost invariant = { λ c. AreSegments c.segments.items c.ends.items };
}

/// The segment that has the group at a place, by how many groups there are up to the end of each.
fn locate(ends: &[usize], place: usize) -> usize
    requires some { 0 < length ends.now }
    requires within { place < slice_index_or (0 ∷ ends.now) (length ends.now) 0 }
    ensures there { result < length ends.now }
    ensures behind { slice_index_or (0 ∷ ends.now) result 0 ≤ place }
    ensures before { place < slice_index_or (0 ∷ ends.now) (result + 1) 0 }
{
    let full = place / MAX_GROUPS; // It is this one where each segment before it is full, as in a run that was put in order.
    if full < ends.len() && bound(ends, full) <= place && place < ends[full] {
        return full;
    }
    let mut low = 0;
    let mut high = ends.len() - 1;
    while low < high {
        let middle = low + (high - low) / 2;
        if ends[middle] <= place {
            low = middle + 1;
        } else {
            high = middle;
        }
    }
    low
}

/// Counts the groups up to the end of each segment.
fn count_all(segments: &[Segment], ends: &mut Vec<usize>)
    requires one_each { length ends.old.items ≡ length segments.now }
    requires few { length (concatenated segments.now) < 2 ^ 64 }
    ensures { ends.new.items ≡ ends_of 0 segments.now }
{
    let mut count = 0;
    for at in 0..segments.len() {
        count += segments[at].len();
        ends[at] = count;
    }
}

/// Puts segments in the place of others.
fn put_all(segments: &mut Vec<Segment>, fresh: Vec<(usize, Segment)>)
    requires { AllByRecursion (λ (one : ℕ × List Entry). one.0 < length segments.old.items) fresh.items }
    ensures { segments.new.items ≡ replaced fresh.items segments.old.items }
{
    let mut fresh = fresh;
    while let Some((at, segment)) = fresh.pop() {
        segments[at] = segment;
    }
}

/// `count` segments, `pieces` pieces, and one more. No memory holds more than a number can count.
fn count_more(count: usize, pieces: usize) -> Result<usize, AllocError>
    ensures { IfOk result (λ more. more ≡ count + (pieces + 1)) }
{
    if pieces >= usize::MAX - count {
        return Err(AllocError);
    }
    Ok(count + pieces + 1)
}

/// Places a segment after others, or the pieces that it is cut into. There is room for them.
fn place(placed: &mut Vec<Segment>, segment: Segment, mut pieces: Vec<Segment>)
    requires pieces { ArePiecesOf segment pieces.items }
    requires room { vec_len placed.old + (vec_len pieces + 1) ≤ vec_capacity placed.old }
    ensures same { concatenated placed.new.items ≡ concatenated placed.old.items ++ segment }
    ensures many { vec_len placed.old + 1 ≤ vec_len placed.new }
    ensures few { vec_len placed.new ≤ vec_len placed.old + (vec_len pieces + 1) }
    ensures capacity { vec_capacity placed.old ≤ vec_capacity placed.new }
{
    if pieces.is_empty() {
        placed.push_reserved(segment);
        return;
    }
    match placed.append(&mut pieces) {
        Ok(()) => {}
        Err(_) => unreachable!(),
    }
}

/// Places segments after others, and in the place of each that is cut its pieces. There is room for them.
fn place_all(placed: &mut Vec<Segment>, segments: Vec<Segment>, cuts: Vec<Vec<Segment>>)
    requires cut { AreCut segments.items (all_pieces cuts.items) }
    requires room { vec_len placed.old + cut_count (all_pieces cuts.items) ≤ vec_capacity placed.old }
    ensures same { concatenated placed.new.items ≡ concatenated placed.old.items ++ concatenated segments.items }
    ensures many { vec_len placed.old + length segments.items ≤ vec_len placed.new }
    ensures few { vec_len placed.new ≤ vec_len placed.old + cut_count (all_pieces cuts.items) }
{
    let mut segments = segments.into_iter();
    let mut cuts = cuts.into_iter();
    while let Some(pieces) = cuts.next() {
        match segments.next() {
            Some(segment) => place(placed, segment, pieces),
            None => unreachable!(),
        }
    }
}

impl Segments {
    /// No segments.
    pub(crate) fn new(alloc: Global) -> Segments
        ensures { result ≡ [] }
    {
        Segments {
            segments: Vec::new(alloc),
            ends: Vec::new(alloc),
            room: (0, 0, 0),
        }
    }

    /// No segments yet, with room for those of this many groups, and for this many bytes of keys and of states. The only error is a failed
    /// allocation.
    pub(crate) fn with_capacity(
        alloc: Global,
        groups: usize,
        keys: usize,
        states: usize,
    ) -> Result<Segments, AllocError>
        ensures { IfOk result (λ segments. segments ≡ []) }
    {
        let count = groups / MAX_GROUPS + 1;
        Ok(Segments {
            segments: Vec::with_capacity(alloc, count)?,
            ends: Vec::with_capacity(alloc, count)?,
            room: (groups.min(MAX_GROUPS), keys / count, states / count),
        })
    }

    /// How many segments there are.
    pub(crate) fn count(&self) -> usize
        ensures { result ≡ length self.now }
    {
        self.segments.len()
    }

    /// How many groups there are.
    pub(crate) fn len(&self) -> usize
        ensures length { result ≡ length (concatenated self.now) }
        ensures rises { Rises (concatenated self.now) }
    {
        bound(&self.ends, self.ends.len())
    }

    /// How many groups there are in the first `segments` segments.
    pub(crate) fn start(&self, segments: usize) -> usize
        requires { segments ≤ length self.now }
        ensures { result ≡ length (concatenated (take segments self.now)) }
    {
        bound(&self.ends, segments)
    }

    /// Which segment has the group at a place.
    pub(crate) fn segment_of(&self, place: usize) -> usize
        requires { place < length (concatenated self.now) }
        ensures { IsAmong self.now place result }
    {
        locate(&self.ends, place)
    }

    /// The segment at a place.
    pub(crate) fn segment(&self, at: usize) -> &Segment
        requires { at < length self.now }
        ensures { slice_get self.now at ≡ Some result.now }
    {
        &self.segments[at]
    }

    /// The bytes of the key and of the states of a group, the first group being 0.
    pub(crate) fn group(&self, place: usize) -> (&[u8], &[u8])
        requires { place < length (concatenated self.now) }
        ensures { slice_get (concatenated self.now) place ≡ Some (result.0.now, result.1.now) }
    {
        let at = self.segment_of(place);
        let start = self.start(at);
        self.segment(at).group(place - start)
    }

    /// Adds a segment at the end. Its keys are above the last one. The only error is a failed allocation, which changes nothing.
    fn push_segment(&mut self, segment: Segment) -> Result<(), AllocError>
        requires rises { Rises (concatenated self.old ++ segment) }
        requires few { length (concatenated self.old) + length segment < 2 ^ 64 }
        ensures pushed { OnOk result (self.new ≡ self.old ++ segment ∷ []) }
        ensures refused { OnErr result (self.new ≡ self.old) }
    {
        let end = self.len() + segment.len();
        self.ends.reserve(1)?;
        self.segments.push(segment)?;
        self.ends.push(end)?;
        Ok(())
    }

    /// An empty segment that is to be the last one. The only error is a failed allocation.
    fn next_segment(&self) -> Result<Segment, AllocError>
        ensures { IfOk result (λ segment. segment ≡ []) }
    {
        let alloc = *self.segments.allocator();
        match self.segments.last() {
            Some(last) => Segment::with_room_of(alloc, last, 0),
            None => Segment::with_capacity(alloc, self.room.0, self.room.1, self.room.2),
        }
    }

    /// Adds a group to the last segment. The only error is a failed allocation, which changes nothing.
    fn push_last(&mut self, key: &[u8], states: &[u8]) -> Result<(), AllocError>
        requires some { 0 < length self.old }
        requires rises { Rises (concatenated self.old ++ (key.now, states.now) ∷ []) }
        requires few { length (concatenated self.old) + 1 < 2 ^ 64 }
        ensures pushed { OnOk result (concatenated self.new ≡ concatenated self.old ++ (key.now, states.now) ∷ []) }
        ensures refused { OnErr result (self.new ≡ self.old) }
    {
        let end = self.len() + 1;
        let last = self.segments.len() - 1;
        self.segments[last].push(key, states)?;
        self.ends[last] = end;
        Ok(())
    }

    /// Whether the last segment takes one more group.
    fn has_place(&self) -> bool
        ensures { IsTrue result → 0 < length self.now }
    {
        match self.segments.last() {
            Some(last) => last.len() < MAX_GROUPS,
            None => false,
        }
    }

    /// Adds a group at the end. Its key is above the last one. The only error is a failed allocation, which changes nothing.
    pub(crate) fn push(&mut self, key: &[u8], states: &[u8]) -> Result<(), AllocError>
        requires { Rises (concatenated self.old ++ (key.now, states.now) ∷ []) }
        ensures pushed { OnOk result (concatenated self.new ≡ concatenated self.old ++ (key.now, states.now) ∷ []) }
        ensures refused { OnErr result (self.new ≡ self.old) }
    {
        if self.len() == usize::MAX {
            return Err(AllocError); // No memory has so many groups.
        }
        if self.has_place() {
            return self.push_last(key, states);
        }
        let mut segment = self.next_segment()?;
        segment.push(key, states)?;
        self.push_segment(segment)
    }

    /// Combines the states of a group with others of its key, which come after.
    pub(crate) fn combine_at(&mut self, kinds: &[AggKind], place: usize, more: &[u8])
        requires { HasStatesFor (functions_of kinds.now) (concatenated self.old) place more.now }
        ensures { CombinesAt (functions_of kinds.now) (concatenated self.old) place more.now (concatenated self.new) }
    {
        let at = self.segment_of(place);
        let start = self.start(at);
        self.segments[at].combine_at(kinds, place - start, more);
    }

    /// The groups from a place up to another, in a segment of their own. The only error is a failed allocation.
    fn joined(&self, alloc: Global, from: usize, to: usize) -> Result<Segment, AllocError>
        requires order { from ≤ to }
        requires within { to ≤ length (concatenated self.now) }
        ensures { IfOk result (λ segment. segment ≡ slice_range (concatenated self.now) from to) }
    {
        let _few_segments = self.count();
        let _few_groups = self.len();
        let mut joined = Segment::with_capacity(alloc, 0, 0, 0)?;
        let mut left = from;
        while left < to {
            let at = self.segment_of(left);
            let start = self.start(at);
            let end = self.start(at + 1).min(to);
            joined.push_range(self.segment(at), left - start, end - start)?;
            left = end;
        }
        Ok(joined)
    }

    /// A copy of the groups from a place up to another. The only error is a failed allocation.
    pub(crate) fn piece(
        &self,
        alloc: Global,
        from: usize,
        to: usize,
    ) -> Result<Segments, AllocError>
        requires order { from ≤ to }
        requires within { to ≤ length (concatenated self.now) }
        ensures { IfOk result (λ piece. concatenated piece ≡ slice_range (concatenated self.now) from to) }
    {
        let mut piece = Segments::new(alloc);
        if from < to {
            piece.push_segment(self.joined(alloc, from, to)?)?;
        }
        Ok(piece)
    }

    /// A copy of the segments. The only error is a failed allocation.
    pub(crate) fn try_clone(&self, alloc: Global) -> Result<Segments, AllocError>
        ensures { IfOk result (λ copy. copy ≡ self.now) }
    {
        let mut segments = Vec::with_capacity(alloc, self.segments.len())?;
        for segment in &self.segments {
            segments.push(segment.try_clone(alloc)?)?;
        }
        Ok(Segments {
            segments,
            ends: self.ends.as_slice().to_vec(alloc)?,
            room: self.room,
        })
    }

    /// Puts segments in the place of others.
    pub(crate) fn replace(&mut self, fresh: Vec<(usize, Segment)>)
        requires there { AllByRecursion (λ (one : ℕ × List Entry). one.0 < length self.old) fresh.items }
        requires rises { Rises (concatenated (replaced fresh.items self.old)) }
        requires few { length (concatenated (replaced fresh.items self.old)) < 2 ^ 64 }
        ensures { self.new ≡ replaced fresh.items self.old }
    {
        put_all(&mut self.segments, fresh);
        count_all(&self.segments, &mut self.ends);
    }

    /// Whether a segment has more groups than it may.
    fn has_large(&self) -> bool
        ensures { IsTrue result ↔ Any (λ (segment : List Entry). MAX_GROUPS < length segment) self.now }
    {
        self.segments
            .iter()
            .any(|segment| segment.len() > MAX_GROUPS)
    }

    /// For each segment the pieces that it is cut into, if it has more groups than it may; and the most segments that there are
    /// then. The only error is a failed allocation.
    fn cuts(&self) -> Result<(Vec<Vec<Segment>>, usize), AllocError>
        ensures cut { IfOk result (λ cuts. AreCut self.now (all_pieces cuts.0.items)) }
        ensures count { IfOk result (λ cuts. cuts.1 ≡ cut_count (all_pieces cuts.0.items)) }
    {
        let alloc = *self.segments.allocator();
        let mut cuts = Vec::with_capacity(alloc, self.segments.len())?;
        let mut count = 0;
        for segment in &self.segments {
            let pieces = segment.pieces(alloc)?;
            count = count_more(count, pieces.len())?;
            cuts.push(pieces)?;
        }
        Ok((cuts, count))
    }

    /// Cuts the segments that have more groups than they may, in time linear in how many segments there are and in the groups of those.
    /// The only error is a failed allocation, which changes nothing.
    pub(crate) fn cut_large(&mut self) -> Result<(), AllocError>
        ensures same { concatenated self.new ≡ concatenated self.old }
        ensures many { length self.old ≤ length self.new }
        ensures refused { OnErr result (self.new ≡ self.old) }
    {
        if !self.has_large() {
            return Ok(());
        }
        let _few_groups = self.len();
        let alloc = *self.segments.allocator();
        let (cuts, count) = self.cuts()?;
        let mut placed = Vec::with_capacity(alloc, count)?;
        let mut ends = vec![in alloc; 0; count]?;
        place_all(
            &mut placed,
            replace(&mut self.segments, Vec::new(alloc)),
            cuts,
        );
        ends.truncate(placed.len());
        count_all(&placed, &mut ends);
        self.segments = placed;
        self.ends = ends;
        Ok(())
    }
}
