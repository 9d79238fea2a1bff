//! Merging two replicas: the parts of both are joined apart, and then moved in without taking memory.

ghost use Rattle.std.specs.Prelude.{◌≡◌, ◌↔◌, ℕ, Bool, map, cond, option_map, unwrap_or, Some, IfOk, IsTrue, IsSomeAnd};
ghost use Rattle.std.specs.List.Sorted.{IsStrictlySortedBy};
ghost use Rattle.std.specs.Ordering.{eq_by_cmp, nat_cmp};
ghost use Rattle.origin_prefix.specs.Joins.{Includes};
ghost use Rattle.origin_prefix.specs.Parts.{Part, empty};
ghost use Rattle.replica_merge.specs.Counting.{MergeRan};
ghost use Rattle.replica_merge.specs.Replicas.{Held, part_at, AreHeldParts, filled};
ghost use Rattle.replica_merge.specs.Results.{JoinsHeld, JoinsReplicas, MergesHeld, MergesReplicas};

use crate::error::MergeError;
use crate::replica::Replica;
use hash_agg::{Executor, KeyHash, Means, TapeDisk};
use having_filter::Query;
use origin_prefix::OriginPart;
use std::alloc::{AllocError, Global};
use std::collections::BTreeMap;
use std::marker::Model;
use std::mem::replace;

/// What two replicas hold together, built apart from both: for each origin of the other one, what the own part takes in to become the
/// joined part. A part that stays has an empty place: the other replica has none, or it includes the other's.
#[derive(Drop)]
pub struct Joined {
    parts: BTreeMap<u16, OriginPart>,
}

impl Model for Joined {
    ghost use Rattle.replica_merge.specs.Coding.{coded_parts};
    ghost use Rattle.replica_merge.specs.Replicas.{Parts};

    ghost Value = { Parts };

    ghost coded = { coded_parts };

    ghost view = { λ j. j.parts.entries };
}

/// A place for each part.
fn places(
    alloc: Global,
    parts: &BTreeMap<u16, OriginPart>,
) -> Result<BTreeMap<u16, OriginPart>, AllocError>
    ensures at { IfOk result (λ places. (origin : ℕ) → part_at places.entries origin
        ≡ option_map (λ _. empty) (part_at parts.now.entries origin)) }
    ensures rising { IfOk result (λ places. IsStrictlySortedBy nat_cmp
        (map (λ (held : ℕ × Part). held.0) places.entries)) }
{
    let mut places = BTreeMap::new(alloc);
    for (origin, _) in parts {
        if places.insert(*origin, OriginPart::empty(alloc)).is_err() {
            return Err(AllocError);
        }
    }
    Ok(places)
}

/// The part of an origin, or this where there is none.
fn part_or<'a>(
    parts: &'a BTreeMap<u16, OriginPart>,
    origin: u16,
    nothing: &'a OriginPart,
) -> &'a OriginPart
    ensures { result.now ≡ unwrap_or (part_at parts.now.entries origin) nothing.now }
{
    match parts.get(&origin) {
        Some(part) => part,
        None => nothing,
    }
}

/// Whether the own part of an origin is there and includes another one.
fn stays(own: &BTreeMap<u16, OriginPart>, origin: u16, part: &OriginPart) -> bool
    ensures { IsTrue result ↔ IsSomeAnd (part_at own.now.entries origin) (λ mine. Includes mine part.now) }
{
    match own.get(&origin) {
        Some(mine) => mine.includes(part),
        None => false,
    }
}

/// The parts of both, joined aside. An own part that includes the other's is not copied: it has a place there.
fn join_all<H: KeyHash + Copy, D: TapeDisk>(
    alloc: Global,
    query: &Query,
    own: &BTreeMap<u16, OriginPart>,
    theirs: &BTreeMap<u16, OriginPart>,
    means: &Means<H>,
    disk: &mut D,
    executor: &mut Executor,
) -> Result<Joined, MergeError>
    requires own { AreHeldParts query.now own.now.entries }
    requires theirs { AreHeldParts query.now theirs.now.entries }
    ensures joins { JoinsReplicas (D.honest disk.old) (record { query = query.now; parts = own.now.entries })
        (record { query = query.now; parts = theirs.now.entries }) result }
    ensures ran { MergeRan D.TapeDisk H.hash_of (record { query = query.now; parts = own.now.entries })
        (record { query = query.now; parts = theirs.now.entries }) means.now result disk.old executor.old disk.new executor.new }
{
    let nothing = OriginPart::empty(alloc);
    let Ok(mut joined) = places(alloc, own) else {
        return Err(MergeError::NoMemory);
    };
    let begun = executor.work();
    for (origin, part) in theirs {
        if stays(own, *origin, part) {
            continue;
        }
        let own = part_or(own, *origin, &nothing);
        let aside = match own.join_aside(part, query, means, disk, executor) {
            Ok(aside) => aside,
            Err(why) => {
                executor.count_from(begun);
                let origin = *origin;
                return Err(MergeError::Join { origin, why });
            }
        };
        if joined.insert(*origin, aside).is_err() {
            executor.count_from(begun);
            return Err(MergeError::NoMemory);
        }
    }
    Ok(Joined { parts: joined })
}

/// Puts a part back to its place, where it takes in what stands there.
fn put_back(parts: &mut BTreeMap<u16, OriginPart>, origin: u16, part: OriginPart)
    ensures at { (o : ℕ) → part_at parts.new.entries o ≡ cond (eq_by_cmp nat_cmp o origin)
        (filled (part_at parts.old.entries o) (Some part)) (part_at parts.old.entries o) }
    ensures rising { IsStrictlySortedBy nat_cmp
        (map (λ (held : ℕ × Part). held.0) parts.new.entries) }
{
    if let Some(aside) = parts.get_mut(&origin) {
        aside.settle(part);
    }
}

/// Puts parts back to their places, where they take in what stands there.
fn fill(parts: &mut BTreeMap<u16, OriginPart>, old: BTreeMap<u16, OriginPart>)
    requires { IsStrictlySortedBy nat_cmp
        (map (λ (held : ℕ × Part). held.0) parts.old.entries) }
    ensures at { (o : ℕ) → part_at parts.new.entries o
        ≡ filled (part_at parts.old.entries o) (part_at old.entries o) }
    ensures rising { IsStrictlySortedBy nat_cmp
        (map (λ (held : ℕ × Part). held.0) parts.new.entries) }
{
    for (origin, part) in old {
        put_back(parts, origin, part);
    }
}

impl Replica {
    /// What this replica and another hold together, built apart from both: `commit` moves it in. The cost of folding early batches whose
    /// gap is closed is added to the work of the executor; an error adds nothing.
    ///
    /// # Errors
    ///
    /// First `DifferentQuery`. Then, by ascending origin: `OriginDisagrees` with the first number at which its parts disagree, a failed
    /// allocation, or an error of the tape disk. The parts of all lower origins were joined before, by construction; `order` of `MergeRan`
    /// says what a clause can say of it.
    pub fn join<H: KeyHash + Copy, D: TapeDisk>(
        &self,
        other: &Replica,
        means: &Means<H>,
        disk: &mut D,
        executor: &mut Executor,
    ) -> Result<Joined, MergeError>
        ensures joins { JoinsReplicas (D.honest disk.old) self.now other.now result }
        ensures ran { MergeRan D.TapeDisk H.hash_of self.now other.now means.now result disk.old executor.old disk.new executor.new }
    {
        if !self.query.same_query(&other.query) {
            return Err(MergeError::DifferentQuery);
        }
        let _own_checked = self.query.schema();
        let _theirs_checked = other.query.schema();
        join_all(
            self.alloc,
            &self.query,
            &self.parts,
            &other.parts,
            means,
            disk,
            executor,
        )
    }

    /// Replaces what this replica holds by what it and another hold together. It takes no memory.
    pub fn commit(&mut self, joined: Joined)
        requires { (honest : Bool) × (other : Held) × JoinsHeld honest self.old other joined }
        ensures { (honest : Bool) (other : Held) → JoinsHeld honest self.old other joined → MergesHeld honest self.old other self.new }
    {
        let Joined { parts } = joined;
        let old = replace(&mut self.parts, parts);
        fill(&mut self.parts, old);
    }

    /// Merges another replica: afterwards this one knows what either knew. The other must answer the same query over the same schema. It
    /// must have no other batch of a number, as far as this can still be detected. The cost of folding early batches whose gap is closed is
    /// added to the work of the executor.
    ///
    /// # Errors
    ///
    /// Those of [`join`](Replica::join). An error changes nothing, and adds nothing to that work.
    pub fn merge<H: KeyHash + Copy, D: TapeDisk>(
        &mut self,
        other: &Replica,
        means: &Means<H>,
        disk: &mut D,
        executor: &mut Executor,
    ) -> Result<(), MergeError>
        ensures merges { MergesReplicas (D.honest disk.old) self.old other.now self.new result }
        ensures ran { MergeRan D.TapeDisk H.hash_of self.old other.now means.now result disk.old executor.old disk.new executor.new }
    {
        let joined = self.join(other, means, disk, executor)?;
        self.commit(joined);
        Ok(())
    }
}
