//! Seeking keys in a run.

ghost use Rattle.std.specs.Prelude.{◌≡◌, ◌+◌, ◌-◌, ◌^◌, ◌<◌, ◌≤◌, ◌↔◌, ℕ, IsTrue, Some, length, slice_get, slice_index, take, drop};
ghost use Rattle.std.specs.Ordering.{is_lt, nat_cmp};
ghost use Rattle.std.specs.Cmp.Lexicographic.{slice_cmp};
ghost use Rattle.byteorder.specs.Endian.{big_from};
ghost use Rattle.group_runs.specs.Runs.{Rises};
ghost use Rattle.group_runs.specs.Places.{HasKeyAt, IsBetween, IsPlaceOf};
ghost use Rattle.packed_rows.specs.ConcatenatedRows.{concatenated};
ghost use Rattle.group_runs.specs.Segments.{AreBefore, ComeInto};

use crate::segments::{MAX_GROUPS, Segments};

/// How many groups stand before the next of some keys, if these are spread evenly over all groups. It is a guess; no result depends on it.
pub(crate) fn gap(groups: usize, keys: usize) -> usize {
    groups.checked_div(keys).unwrap_or(0).saturating_sub(1)
}

/// The first eight bytes of a key of at least as many, as a number.
fn abbreviated_key(key: &[u8]) -> u64
    requires { 8 ≤ length key.now }
    ensures number { result ≡ big_from 0 8 key.now }
    ensures bytes { (place : ℕ) → slice_index key.now place < 256 }
{
    u64::from_be_bytes([
        key[0], key[1], key[2], key[3], key[4], key[5], key[6], key[7],
    ])
}

/// Whether a key is below another. Most are told apart by their first eight bytes, without a search for the first that differ.
pub(crate) fn is_below(key: &[u8], other: &[u8]) -> bool
    ensures { result ≡ is_lt (slice_cmp nat_cmp key.now other.now) }
{
    if key.len() >= 8 && other.len() >= 8 {
        let first = abbreviated_key(key);
        let second = abbreviated_key(other);
        if first != second {
            return first < second;
        }
    }
    key.cmp(other).is_lt()
}

impl Segments {
    /// The segment of the group at a place, or how many segments there are if there is no group.
    fn segment_from(&self, place: usize) -> usize
        requires { place ≤ length (concatenated self.now) }
        ensures { length (concatenated (take result self.now)) ≤ place }
    {
        if place < self.len() {
            return self.segment_of(place);
        }
        self.count()
    }

    /// The last group before the end of a segment, which is that place.
    fn last_group(&self, at: usize, end: usize) -> (&[u8], &[u8])
        requires there { at < length self.now }
        requires end { end ≡ length (concatenated (take (at + 1) self.now)) }
        requires some { 0 < end }
        ensures { slice_get (concatenated self.now) (end - 1) ≡ Some (result.0.now, result.1.now) }
    {
        let start = self.start(at);
        if start < end {
            return self.segment(at).group(end - 1 - start);
        }
        self.group(end - 1)
    }

    /// Two places between which the place of a key lies, and the segment that has all groups from the one to the other. They are found by
    /// an exponential search over the last groups of segments, which begins with a guess.
    fn narrow(&self, from: usize, step: usize, key: &[u8]) -> (usize, usize, usize)
        requires { from ≤ length (concatenated self.now) }
        ensures between { IsBetween (concatenated self.now) from result.0 result.1 key.now }
        ensures begun { length (concatenated (take result.2 self.now)) ≤ result.0 }
        ensures ended { result.1 ≤ length (concatenated (take (result.2 + 1) self.now)) }
    {
        if self.count() == 1 {
            return (from, self.len(), 0);
        }
        let mut low = from;
        let mut high = self.len();
        let mut last = self.count();
        let mut first = self.segment_from(from);
        let mut step = step / MAX_GROUPS;
        while first < last {
            let middle = first + step.min((last - first) / 2);
            let end = self.start(middle + 1);
            if end <= low {
                first = middle + 1; // There is nothing left of this segment.
                continue;
            }
            if end > high {
                last = middle;
                continue;
            }
            if is_below(self.last_group(middle, end).0, key) {
                low = end;
                first = middle + 1;
                step = step.saturating_mul(2).saturating_add(1);
            } else {
                high = end - 1;
                last = middle;
            }
        }
        (low, high, first)
    }

    /// Whether a place is that of a key among the groups from it on, since the group there is not below the key. So keys that
    /// follow one another as the groups do are found at once.
    fn is_next(&self, from: usize, key: &[u8]) -> bool
        requires { from ≤ length (concatenated self.now) }
        ensures { IsTrue result → IsPlaceOf (concatenated self.now) from key.now from }
    {
        from < self.len() && !is_below(self.group(from).0, key)
    }

    /// The place of a key among the groups from a place on: that of the first one whose key is not below it. `step` is a guess of
    /// how far it is.
    pub(crate) fn seek(&self, from: usize, step: usize, key: &[u8]) -> usize
        requires { from ≤ length (concatenated self.now) }
        ensures place { IsPlaceOf (concatenated self.now) from key.now result }
        ensures rises { Rises (concatenated self.now) }
        ensures few { length (concatenated self.now) < 2 ^ 64 }
    {
        let _few_groups = self.len();
        if step == 0 && self.is_next(from, key) {
            return from;
        }
        let (low, high, at) = self.narrow(from, step, key);
        if low >= high {
            return low;
        }
        let start = self.start(at);
        let step = if low == from { step } else { MAX_GROUPS }; // In a segment further on it may be anywhere.
        start + self.segment(at).seek(low - start, step, key)
    }

    /// Whether the group at a place is there and has a key.
    pub(crate) fn has_at(&self, place: usize, key: &[u8]) -> bool
        ensures { IsTrue result ↔ HasKeyAt (concatenated self.now) place key.now }
    {
        place < self.len() && self.group(place).0 == key
    }

    /// The segment that the groups of another run enter from a place on, and the place up to which they enter it. None of them enters one
    /// of the first `first` segments.
    pub(crate) fn part(&self, first: usize, more: &Segments, from: usize) -> (usize, usize)
        requires there { first < length self.now }
        requires within { from < length (concatenated more.now) }
        requires above { AreBefore (concatenated (take first self.now)) (drop from (concatenated more.now)) }
        ensures { ComeInto self.now first (concatenated more.now) from result.0 result.1 }
    {
        let (key, _) = more.group(from);
        let count = self.len();
        let last = self.count() - 1;
        let place = self.seek(self.start(first), gap(count, more.len()), key);
        let at = if place < count {
            self.segment_of(place)
        } else {
            last
        };
        let end = self.start(at + 1);
        if end < count {
            (at, more.seek(0, from, self.group(end).0))
        } else {
            (at, more.len())
        }
    }
}
