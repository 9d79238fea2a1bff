//! Segments of groups.

ghost use Rattle.std.specs.Prelude.{◌≡◌, ℕ, ◌+◌, ◌-◌, ◌^◌, ◌<◌, ◌≤◌, ◌++◌, ◌∷◌, List, [], length, map, take, drop, slice_get};
ghost use Rattle.std.specs.Prelude.{slice_index_or, slice_range, Some, IsTrue, ◌↔◌, IfOk, OnOk, OnErr};
ghost use Rattle.std.specs.List.{AllByRecursion};
ghost use Rattle.agg_protocol.specs.Kinds.{functions_of};
ghost use Rattle.group_runs.specs.Runs.{Rises, all_cut, LieAs, keys_concatenated, states_concatenated, IsEndFrom, moved};
ghost use Rattle.group_runs.specs.Steps.{HaveRoomForMore, CombineWith};
ghost use Rattle.group_runs.specs.Places.{HasStatesFor, CombinesAt};

use crate::states::combine_slice;
use agg_library::AggKind;
use std::alloc::{AllocError, Global};
use std::marker::Model;

/// Some groups of a run, in the order of their keys, each with the bytes of its key and of its states. No two have the same key.
///
/// The keys lie end to end, and so do the states.
#[derive(Drop)]
pub(crate) struct Segment {
    keys: Vec<u8>,
    states: Vec<u8>,
    /// Where the key and the states of each group end.
    ends: Vec<(usize, usize)>,
}

impl Model for Segment {
    ghost use Rattle.std.specs.Prelude.{List};
    ghost use Rattle.group_runs.specs.Runs.{Entry, all_cut, AreRun};

    ghost Value = { List Entry };

    ghost view = { λ r. all_cut r.keys.items r.states.items r.ends.items };

    ghost invariant = { λ r. AreRun r.keys.items r.states.items r.ends.items };
}

/// A capacity for `one` and `other` together, rounded up by at most a quarter. So segments that grow little by little ask for blocks of few
/// sizes, four between a power of two and the next. Then an allocator can reuse the blocks that they freed.
fn capacity_for(one: usize, other: usize) -> usize {
    let both = one.saturating_add(other);
    let step = both.checked_next_power_of_two().unwrap_or(0) / 8;
    both.checked_next_multiple_of(step).unwrap_or(both) // A step of 0 has no multiple that is more.
}

/// How many bytes `more` groups take, if they are as long as `groups` groups of `bytes` bytes are on average.
fn bytes_of(more: usize, bytes: usize, groups: usize) -> usize {
    if groups == 0 {
        return 0;
    }
    more.saturating_mul(bytes.div_ceil(groups))
}

/// Where the first `groups` groups end.
fn bound(ends: &[(usize, usize)], groups: usize) -> (usize, usize)
    requires { groups ≤ length ends.now }
    ensures { result ≡ slice_index_or ((0, 0) ∷ ends.now) groups (0, 0) }
{
    if groups == 0 {
        (0, 0)
    } else {
        ends[groups - 1]
    }
}

/// The part from one place up to another.
fn part<T>(all: &[T], from: usize, to: usize) -> &[T]
    requires rises { from ≤ to }
    requires within { to ≤ length all.now }
    ensures { result.now ≡ slice_range all.now from to }
{
    &all[from..to]
}

/// The keys and the states of the groups from one place up to another, end to end.
fn parts<'a>(
    keys: &'a [u8],
    states: &'a [u8],
    ends: &[(usize, usize)],
    from: usize,
    to: usize,
) -> (&'a [u8], &'a [u8])
    requires lie { LieAs keys.now states.now ends.now (all_cut keys.now states.now ends.now) }
    requires rises { from ≤ to }
    requires within { to ≤ length ends.now }
    ensures keys { result.0.now ≡ keys_concatenated
        (slice_range (all_cut keys.now states.now ends.now) from to) }
    ensures states { result.1.now ≡ states_concatenated
        (slice_range (all_cut keys.now states.now ends.now) from to) }
{
    let start = bound(ends, from);
    let end = bound(ends, to);
    (part(keys, start.0, end.0), part(states, start.1, end.1))
}

/// Moves the ends of groups that began at `start`, so that they are those of groups that begin at `behind`.
fn move_ends(ends: &mut [(usize, usize)], start: (usize, usize), behind: (usize, usize))
    requires few { (behind.0 < 2 ^ 63) × (behind.1 < 2 ^ 63) }
    requires within { AllByRecursion (IsEndFrom start) ends.old }
    ensures { ends.new ≡ map (moved start behind) ends.old }
{
    for place in 0..ends.len() {
        let end = ends[place];
        let keys = behind.0 + (end.0 - start.0);
        let states = behind.1 + (end.1 - start.1);
        ends[place] = (keys, states);
    }
}

/// Adds the ends of groups that began at `start` in another run, and begin at `behind` in this one. They are copied at once and then
/// moved, which takes a few instructions for each. A failed allocation changes nothing.
fn push_ends(
    ends: &mut Vec<(usize, usize)>,
    more: &[(usize, usize)],
    start: (usize, usize),
    behind: (usize, usize),
) -> Result<(), AllocError>
    requires few { (behind.0 < 2 ^ 63) × (behind.1 < 2 ^ 63) }
    requires within { AllByRecursion (IsEndFrom start) more.now }
    ensures pushed { OnOk result (ends.new.items ≡ ends.old.items ++ map (moved start behind) more.now) }
    ensures refused { OnErr result (ends.new.items ≡ ends.old.items) }
{
    let first = ends.len();
    ends.extend_from_slice(more)?;
    move_ends(&mut ends[first..], start, behind);
    Ok(())
}

/// Combines the states from a place to another with others, which come after.
fn combine_part(kinds: &[AggKind], states: &mut Vec<u8>, from: usize, to: usize, more: &[u8])
    requires order { from ≤ to }
    requires within { to ≤ length states.old.items }
    requires room { HaveRoomForMore (functions_of kinds.now)
        (slice_range states.old.items from to) more.now }
    ensures { (part : List ℕ)
        × (states.new.items ≡ take from states.old.items ++ (part ++ drop to states.old.items))
        × (length part ≡ to - from)
        × CombineWith (functions_of kinds.now) (slice_range states.old.items from to)
        more.now part }
{
    combine_slice(kinds, &mut states[from..to], more);
}

impl Segment {
    /// An empty segment with room for this many groups, and for this many bytes of keys and of states. The only error is a failed
    /// allocation.
    pub(crate) fn with_capacity(
        alloc: Global,
        groups: usize,
        keys: usize,
        states: usize,
    ) -> Result<Segment, AllocError>
        ensures { IfOk result (λ segment. segment ≡ []) }
    {
        let keys = Vec::with_capacity(alloc, keys)?;
        let states = Vec::with_capacity(alloc, states)?;
        let ends = Vec::with_capacity(alloc, groups)?;
        Ok(Segment { keys, states, ends })
    }

    /// An empty segment with room for the groups of another and for `more` groups of their length. The only error is a failed allocation.
    pub(crate) fn with_room_of(
        alloc: Global,
        other: &Segment,
        more: usize,
    ) -> Result<Segment, AllocError>
        ensures { IfOk result (λ segment. segment ≡ []) }
    {
        let groups = other.ends.len();
        Segment::with_capacity(
            alloc,
            capacity_for(groups, more),
            capacity_for(other.keys.len(), bytes_of(more, other.keys.len(), groups)),
            capacity_for(
                other.states.len(),
                bytes_of(more, other.states.len(), groups),
            ),
        )
    }

    /// Adds a group at the end. Its key is above the last one. The only error is a failed allocation, which changes
    /// nothing.
    pub(crate) fn push(&mut self, key: &[u8], states: &[u8]) -> Result<(), AllocError>
        requires { Rises (self.old ++ (key.now, states.now) ∷ []) }
        ensures pushed { OnOk result (self.new ≡ self.old ++ (key.now, states.now) ∷ []) }
        ensures refused { OnErr result (self.new ≡ self.old) }
    {
        // With room for all three, none of them fails once one was written.
        self.ends.reserve(1)?;
        self.states.reserve(states.len())?;
        self.keys.extend_from_slice(key)?;
        self.states.extend_from_slice(states)?;
        self.ends.push((self.keys.len(), self.states.len()))?;
        Ok(())
    }

    /// How many groups there are.
    pub(crate) fn len(&self) -> usize
        ensures length { result ≡ length self.now }
        ensures rises { Rises self.now }
    {
        self.ends.len()
    }

    /// The bytes of the key and of the states of a group, the first group being 0.
    pub(crate) fn group(&self, place: usize) -> (&[u8], &[u8])
        requires { place < length self.now }
        ensures { slice_get self.now place ≡ Some (result.0.now, result.1.now) }
    {
        parts(&self.keys, &self.states, &self.ends, place, place + 1)
    }

    /// Adds some groups of another segment at the end, from one place up to another. The only error is a failed allocation, which changes
    /// nothing.
    pub(crate) fn push_range(
        &mut self,
        other: &Segment,
        from: usize,
        to: usize,
    ) -> Result<(), AllocError>
        requires order { from ≤ to }
        requires within { to ≤ length other.now }
        requires rises { Rises (self.old ++ slice_range other.now from to) }
        ensures pushed { OnOk result (self.new ≡ self.old ++ slice_range other.now from to) }
        ensures refused { OnErr result (self.new ≡ self.old) }
    {
        let start = bound(&other.ends, from);
        let (keys, states) = parts(&other.keys, &other.states, &other.ends, from, to);
        let behind = (self.keys.len(), self.states.len());
        self.keys.reserve(keys.len())?;
        self.states.reserve(states.len())?;
        push_ends(&mut self.ends, part(&other.ends, from, to), start, behind)?;
        self.keys.extend_from_slice(keys)?;
        self.states.extend_from_slice(states)?;
        Ok(())
    }

    /// Combines the states of a group with others of its key, which come after.
    pub(crate) fn combine_at(&mut self, kinds: &[AggKind], place: usize, more: &[u8])
        requires { HasStatesFor (functions_of kinds.now) self.old place more.now }
        ensures { CombinesAt (functions_of kinds.now) self.old place more.now self.new }
    {
        let from = bound(&self.ends, place);
        let to = bound(&self.ends, place + 1);
        combine_part(kinds, &mut self.states, from.1, to.1, more);
    }

    /// A copy of the groups. The only error is a failed allocation.
    pub(crate) fn try_clone(&self, alloc: Global) -> Result<Segment, AllocError>
        ensures { IfOk result (λ copy. copy ≡ self.now) }
    {
        Ok(Segment {
            keys: self.keys.as_slice().to_vec(alloc)?,
            states: self.states.as_slice().to_vec(alloc)?,
            ends: self.ends.as_slice().to_vec(alloc)?,
        })
    }
}
