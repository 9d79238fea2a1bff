//! What all passes of an aggregation have in common.

ghost use Rattle.std.specs.Prelude.{◌≡◌, ◌≢◌, ◌≤◌, ℕ, true, length, map, IfOk, IfErr, IfSome, OnOk};
ghost use Rattle.grouping_model.specs.Condition.{is_met};
ghost use Rattle.grouping_model.specs.Datum.{Row, HasKinds};
ghost use Rattle.grouping_model.specs.Grouping.{Group, column_of, key_of};
ghost use Rattle.grouping_model.specs.Parts.{functions};
ghost use Rattle.packed_rows.specs.ConcatenatedRows.{LieAs};
ghost use Rattle.packed_rows.specs.Packing.{IsPacking, packing, value_packing};
ghost use Rattle.packed_rows.specs.View.{kinds_of, row_of};
ghost use Rattle.agg_protocol.specs.States.{most_rows};
ghost use Rattle.spill_partitions.specs.declared.error.SpillError.TheVariants.{NoMemory, TapeDamaged, TapeFault};
ghost use Rattle.having_filter.specs.Kept.{IsWellFormed};
ghost use Rattle.having_filter.specs.Meaning.{meaning};
ghost use Rattle.group_runs.specs.Standing.{StandsFor};
ghost use Rattle.group_runs.specs.Steps.{HaveRoomForRow, AreAdvanced};
ghost use Rattle.hash_agg.specs.Passes.{IsPlan};

use crate::advancing::advance_slice;
use agg_library::StateRow;
use agg_protocol::BadState;
use group_runs::initial_states;
use having_filter::Query;
use packed_rows::{RowError, Value, ValueKind, pack_value, part_at, unpack_into, unpack_known};
use spill_partitions::SpillError;
use std::alloc::{AllocError, Global};

/// A query, what its groups begin with, and the limits of an aggregation: the most rows that a group counts, and how many bytes of
/// blocks the table of groups may take.
#[derive(Drop)]
pub(crate) struct Plan<'a> {
    pub(crate) query: &'a Query,
    pub(crate) most: u64,
    pub(crate) limit: u64,
    /// The states of a group before any row.
    pub(crate) first: Vec<u8>,
}

/// Reads values of these kinds from their packing into `row`, replacing what it held.
fn unpack<'r>(
    kinds: &[ValueKind],
    packed: &'r [u8],
    row: &mut Vec<Value<'r>>,
) -> Result<(), SpillError>
    ensures row { OnOk result (HasKinds (kinds_of kinds.now) (row_of row.new.items)
        × (packed.now ≡ packing (row_of row.new.items))) }
    ensures undamaged { IfErr result (λ error. (list : Row) → HasKinds (kinds_of kinds.now) list →
        packed.now ≡ packing list → error ≢ TapeDamaged) }
    ensures faultless { IfErr result (λ error. error ≢ TapeFault) }
{
    match unpack_into(kinds, packed, row) {
        Ok(()) => Ok(()),
        Err(RowError::NoMemory) => Err(SpillError::NoMemory),
        Err(_) => Err(SpillError::TapeDamaged),
    }
}

/// Packs the key of a row into `key`, replacing what it held.
fn pack_key_of(query: &Query, row: &[Value<'_>], key: &mut Vec<u8>) -> Result<(), AllocError>
    requires formed { IsWellFormed (meaning query.now) }
    requires row { HasKinds (meaning query.now).kinds (row_of row.now) }
    ensures { OnOk result
        (key.new.items ≡ packing (key_of (meaning query.now) (row_of row.now))) }
{
    key.clear();
    for place in query.keys() {
        pack_value(key, row[*place])?;
    }
    Ok(())
}

impl<'a> Plan<'a> {
    /// The plan of a query. The only error is a failed allocation.
    pub(crate) fn new(
        alloc: Global,
        query: &'a Query,
        most: u64,
        limit: u64,
    ) -> Result<Plan<'a>, AllocError>
        requires most { most ≤ most_rows }
        requires limit { 32768 ≤ limit }
        ensures plan { IfOk result IsPlan }
        ensures query { IfOk result (λ plan. plan.query.now ≡ query.now) }
        ensures most { IfOk result (λ plan. plan.most ≡ most) }
        ensures limit { IfOk result (λ plan. plan.limit ≡ limit) }
    {
        let _well_formed = query.schema();
        let first = initial_states(alloc, query.agg_kinds())?;
        Ok(Plan {
            query,
            most,
            limit,
            first,
        })
    }

    /// Reads a packed row into `row`, and its key into `key` if WHERE is true for it, and tells whether it is. What both hold
    /// before doesn't matter. `TapeDamaged` if it is not a row of the query's table.
    pub(crate) fn select<'r>(
        &self,
        packed: &'r [u8],
        row: &mut Vec<Value<'r>>,
        key: &mut Vec<u8>,
    ) -> Result<bool, SpillError>
        requires { IsPlan self.now }
        ensures row { OnOk result (HasKinds (meaning self.now.query.now).kinds (row_of row.new.items)
            × (packed.now ≡ packing (row_of row.new.items))) }
        ensures met { IfOk result (λ kept. kept ≡ is_met (column_of (row_of row.new.items))
            (meaning self.now.query.now).condition) }
        ensures key { IfOk result (λ kept. kept ≡ true →
            key.new.items ≡ packing (key_of (meaning self.now.query.now) (row_of row.new.items))) }
        ensures undamaged { IfErr result (λ error. (list : Row) →
            HasKinds (meaning self.now.query.now).kinds list → packed.now ≡ packing list → error ≢ TapeDamaged) }
        ensures faultless { IfErr result (λ error. error ≢ TapeFault) }
    {
        unpack(self.query.schema().kinds(), packed, row)?;
        if !self.query.where_true(row) {
            return Ok(false);
        }
        pack_key_of(self.query, row, key)?;
        Ok(true)
    }

    /// Reads a packed row of the query's table into `row`, and where each value ends into `ends`, and tells whether WHERE is true for it.
    /// What both hold before doesn't matter. The only error is `NoMemory`.
    #[inline(always)]
    pub(crate) fn select_known<'r>(
        &self,
        packed: &'r [u8],
        row: &mut Vec<Value<'r>>,
        ends: &mut Vec<usize>,
    ) -> Result<bool, SpillError>
        requires plan { IsPlan self.now }
        requires packing { IsPacking (meaning self.now.query.now).kinds packed.now }
        ensures row { OnOk result (HasKinds (meaning self.now.query.now).kinds (row_of row.new.items)
            × (packed.now ≡ packing (row_of row.new.items))) }
        ensures lie { OnOk result (LieAs packed.now ends.new.items (map value_packing (row_of row.new.items))) }
        ensures met { IfOk result (λ kept. kept ≡ is_met (column_of (row_of row.new.items))
            (meaning self.now.query.now).condition) }
        ensures memory { IfErr result (λ error. error ≡ NoMemory) }
    {
        unpack_known(self.query.schema().kinds(), packed, row, ends)?;
        Ok(self.query.where_true(row))
    }

    /// The bytes of a packed row that are its key, where the columns of GROUP BY lie side by side. `ends` tells where each value ends.
    pub(crate) fn key_within<'r>(
        &self,
        packed: &'r [u8],
        row: &[Value<'_>],
        ends: &[usize],
    ) -> Option<&'r [u8]>
        requires plan { IsPlan self.now }
        requires row { HasKinds (meaning self.now.query.now).kinds (row_of row.now) }
        requires lie { LieAs packed.now ends.now (map value_packing (row_of row.now)) }
        ensures { IfSome result (λ key. key.now ≡ packing (key_of (meaning self.now.query.now) (row_of row.now))) }
    {
        part_at(packed, ends, self.query.keys())
    }

    /// Packs the key of a row into `key`, replacing what it held. The only error is a failed allocation.
    pub(crate) fn pack_key(&self, row: &[Value<'_>], key: &mut Vec<u8>) -> Result<(), AllocError>
        requires plan { IsPlan self.now }
        requires row { HasKinds (meaning self.now.query.now).kinds (row_of row.now) }
        ensures { OnOk result
            (key.new.items ≡ packing (key_of (meaning self.now.query.now) (row_of row.now))) }
    {
        pack_key_of(self.query, row, key)
    }

    /// Makes `states` those of a group of one row. `TapeDamaged` if groups may not count any row.
    pub(crate) fn first_after(
        &self,
        row: &[Value<'_>],
        states: &mut Vec<u8>,
    ) -> Result<(), SpillError>
        requires plan { IsPlan self.now }
        requires row { HasKinds (meaning self.now.query.now).kinds (row_of row.now) }
        ensures advanced { OnOk result (AreAdvanced (meaning self.now.query.now).aggregates self.now.most
            self.now.first.items (row_of row.now) states.new.items) }
        ensures len { OnOk result (length states.new.items ≡ length self.now.first.items) }
        ensures undamaged { IfErr result (λ error.
            HaveRoomForRow (functions (meaning self.now.query.now)) self.now.most self.now.first.items →
            error ≢ TapeDamaged) }
        ensures faultless { IfErr result (λ error. error ≢ TapeFault) }
    {
        states.clear();
        states.extend_from_slice(&self.first)?;
        match advance_slice(self.query, states.as_mut_slice(), row, self.most) {
            Ok(()) => Ok(()),
            Err(BadState) => Err(SpillError::TapeDamaged),
        }
    }

    /// Checks a group that was read from a tape. `TapeDamaged` if it is not a group of the query, or counts too many rows.
    pub(crate) fn check_group(
        &self,
        alloc: Global,
        key: &[u8],
        states: &[u8],
    ) -> Result<(), SpillError>
        requires { IsPlan self.now }
        ensures stands { OnOk result ((group : Group) ×
            StandsFor (meaning self.now.query.now) self.now.most (key.now, states.now) group) }
        ensures undamaged { IfErr result (λ error. (most : ℕ) (group : Group) → most ≤ self.now.most →
            StandsFor (meaning self.now.query.now) most (key.now, states.now) group → error ≢ TapeDamaged) }
        ensures faultless { IfErr result (λ error. error ≢ TapeFault) }
    {
        // The values borrow from the key, whose bytes the next record takes the place of.
        let mut values = Vec::with_capacity(alloc, self.query.key_kinds().len())?;
        unpack(self.query.key_kinds(), key, &mut values)?;
        match StateRow::check(self.query.agg_kinds(), states, self.most) {
            Ok(()) => Ok(()),
            Err(BadState) => Err(SpillError::TapeDamaged),
        }
    }
}
