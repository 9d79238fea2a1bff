//! What another replica lacks of what a replica holds.

ghost use Rattle.std.specs.Prelude.{◌≡◌, ◌↔◌, [], map, IfOk};
ghost use Rattle.grouping_model.specs.World.{World, Knowledge};
ghost use Rattle.replica_merge.specs.Lacking.{told_by, Lists, IsWithin, lacked, lacked_early, lacked_part, lacked_parts};
ghost use Rattle.replica_merge.specs.Replicas.{Fits, known_of, told};

use crate::known_origin::KnownOrigin;
use crate::listing::Listed;
use crate::replica::Replica;
use batch_reader::PackedRows;
use hash_agg::Run;
use origin_prefix::OriginPart;
use std::alloc::{AllocError, Global};
use std::collections::BTreeMap;

/// The early batches of an origin that are not told.
fn early_lacked(
    alloc: Global,
    listed: &Listed,
    origin: u16,
    early: &BTreeMap<u32, PackedRows>,
) -> Result<BTreeMap<u32, PackedRows>, AllocError>
    ensures { (known : Knowledge) → Lists listed.now known →
        IfOk result (λ lacked. lacked.entries ≡ lacked_early known origin early.now.entries) }
{
    let mut lacked = BTreeMap::new(alloc);
    for (number, rows) in early {
        if listed.tells(origin, *number) {
            continue;
        }
        let rows = rows.try_clone(alloc)?;
        if lacked.insert(*number, rows).is_err() {
            return Err(AllocError);
        }
    }
    Ok(lacked)
}

/// What goes out of the part of an origin.
fn part_lacked(
    alloc: Global,
    listed: &Listed,
    origin: u16,
    part: &OriginPart,
) -> Result<OriginPart, AllocError>
    ensures { (known : Knowledge) → Lists listed.now known → IfOk result (λ lacked. lacked ≡ lacked_part known (origin, part.now)) }
{
    let early = early_lacked(alloc, listed, origin, part.early())?;
    if listed.tells_upto(origin, part.prefix()) {
        return Ok(OriginPart::from_fields(alloc, 0, Run::new(alloc), early));
    }
    let run = part.run().try_clone(alloc)?;
    Ok(OriginPart::from_fields(alloc, part.prefix(), run, early))
}

/// What goes out of all parts.
fn parts_lacked(
    alloc: Global,
    listed: &Listed,
    parts: &BTreeMap<u16, OriginPart>,
) -> Result<BTreeMap<u16, OriginPart>, AllocError>
    ensures { (known : Knowledge) → Lists listed.now known →
        IfOk result (λ lacked. lacked.entries ≡ lacked_parts known parts.now.entries) }
{
    let mut lacked = BTreeMap::new(alloc);
    for (origin, part) in parts {
        let part = part_lacked(alloc, listed, *origin, part)?;
        if part.is_empty() {
            continue;
        }
        if lacked.insert(*origin, part).is_err() {
            return Err(AllocError);
        }
    }
    Ok(lacked)
}

impl Replica {
    /// What another replica lacks of this one, by a list of what it knows: a replica of the same query, to be sent in place of the whole.
    /// Once the other takes it in, it knows, and saves, what it would after taking in this one.
    ///
    /// Of an origin it has the prefix with its groups, if this is longer than the one that the list tells, and the early batches that the
    /// list does not tell. Of other origins it has nothing. Only what it has is copied.
    ///
    /// The list may be of any kind: in any order, with an origin listed twice, and with any numbers. It tells a batch if one of its entries
    /// does. An older list of what the other knew serves as well, and gives more.
    ///
    /// # Errors
    ///
    /// Out of memory.
    pub fn lacking(&self, known: &[KnownOrigin]) -> Result<Replica, AllocError>
        ensures asked { IfOk result (λ delta. delta.query ≡ self.now.query) }
        ensures parts { IfOk result (λ delta. delta.parts ≡ lacked_parts (told_by (map known_of known.now)) self.now.parts) }
        ensures told { IfOk result (λ delta. told delta.parts ≡ lacked (told self.now.parts) (told_by (map known_of known.now))) }
        ensures none { IfOk result (λ delta. (delta.parts ≡ []) ↔ IsWithin (told self.now.parts) (told_by (map known_of known.now))) }
        ensures fits { IfOk result (λ delta. (world : World) → Fits world self.now → Fits world delta) }
    {
        let query = self.query.try_clone()?;
        let listed = Listed::new(self.alloc, known)?;
        let parts = parts_lacked(self.alloc, &listed, &self.parts)?;
        Ok(Replica {
            alloc: self.alloc,
            query,
            parts,
        })
    }
}
