//! A pass: the groups that its table takes, and the records that it spills to partitions for later passes.

ghost use Rattle.std.specs.Prelude.{◌≡◌, ◌≢◌, ◌≤◌, ℕ, List, [], ◌∷◌, is_some, length, IfOk, IfErr, IfSome, OnOk};
ghost use Rattle.tape_disks.specs.Calls.{failed};
ghost use Rattle.tape_disks.specs.Disk.{DiskFrame};
ghost use Rattle.spill_partitions.specs.Errors.{spill_faults};
ghost use Rattle.spill_partitions.specs.declared.error.SpillError.TheVariants.{TapeDamaged};
ghost use Rattle.grouping_model.specs.Grouping.{Group};
ghost use Rattle.packed_rows.specs.View.{row_of};
ghost use Rattle.group_runs.specs.Standing.{StandsFor, IsRun};
ghost use Rattle.packed_rows.specs.Packing.{IsPacking};
ghost use Rattle.hash_agg.specs.Inputs.{brought, packings_in, AreInputs, IsInput, Packed};
ghost use Rattle.hash_agg.specs.Passes.{FindsBy, IsPlan};
ghost use Rattle.hash_agg.specs.Added.{Packed_rows, Entries, On_tape, Added, AddedGenuine, AddedPartition, AddedOne, Adds};
ghost use Rattle.hash_agg.specs.Added.{CountsPass, Finished, HasRoom, IsFirst, IsFresh, IsOver, IsReady, IsSelected, RefusedPartition, enters};
ghost use Rattle.hash_agg.specs.Added.{query_of};
ghost use Rattle.hash_agg.specs.Added.{source_of};

use crate::groups::Groups;
use crate::idle::IdleTable;
use crate::input::{Input, Packings};
use crate::means::Means;
use crate::plan::Plan;
use crate::record::{GROUP, ROW, split_group, write_group};
use crate::work::Work;
use agg_protocol::BadState;
use group_runs::Run;
use group_table::{KeyHash, Lookup, Seed};
use packed_rows::Value;
use spill_partitions::{SpillError, SpillPartitions};
use spill_tapes::TapeDisk;
use std::alloc::{AllocError, Global};

/// Bytes that serve for one record after the other: a packed key, the states of a group of its own, and a record on a tape.
#[derive(Drop)]
pub(crate) struct Buffers {
    key: Vec<u8>,
    /// Where each value of a packed row ends.
    ends: Vec<usize>,
    states: Vec<u8>,
    tape_record: Vec<u8>,
}

impl Buffers {
    /// Buffers that hold nothing yet.
    pub(crate) fn new(alloc: Global) -> Buffers {
        Buffers {
            key: Vec::new(alloc),
            ends: Vec::new(alloc),
            states: Vec::new(alloc),
            tape_record: Vec::new(alloc),
        }
    }
}

/// A pass, by a plan. Its table takes no new group that would exceed the limit, except for the first, and none once a record was spilled.
#[derive(Drop)]
pub(crate) struct Pass<'q, H: KeyHash + Drop> {
    pub(crate) plan: Plan<'q>,
    pub(crate) groups: Groups<H>,
    pub(crate) spill: SpillPartitions,
}

impl<'q, H: KeyHash + Copy> Pass<'q, H> {
    /// The first pass by some means, which has read nothing. Records are spilled by the hash function of the means, and the table's own
    /// has their seed. It takes an idle table that serves. The only error is a failed allocation.
    #[tactic(auto, using(crate::proofs::TableLaws::finds_same))]
    pub(crate) fn new<D: TapeDisk>(
        alloc: Global,
        plan: Plan<'q>,
        means: &Means<H>,
        idle: Option<IdleTable>,
        disk: &D,
    ) -> Result<Pass<'q, H>, AllocError>
        requires plan { IsPlan plan }
        ensures first { IfOk result (λ pass. IsFirst D.TapeDisk pass disk.now) }
        ensures by { IfOk result (λ pass. (pass.plan ≡ plan.entry) × (pass.groups.hash ≡ means.now.hash)) }
        ensures seed { IfOk result (λ pass. FindsBy means.now.seed pass.groups) }
    {
        let width = plan.first.len() as u32;
        let groups = Groups::begin(alloc, idle, width, means.hash(), means.seed())?;
        Ok(Pass {
            plan,
            groups,
            spill: SpillPartitions::new(alloc, disk),
        })
    }
}

impl<'q, H: KeyHash + Drop> Pass<'q, H> {
    /// Leaves the table to the next aggregation, once the last pass is over. It finds keys by this seed.
    pub(crate) fn end(self, seed: Seed) -> IdleTable
        requires over { IsOver self }
        requires seed { FindsBy seed self.groups }
        ensures { result.seed ≡ seed }
    {
        let Pass { plan, groups, .. } = self;
        groups.end(plan.first.len() as u32, seed)
    }

    /// The most bytes of blocks that the table holds while it inserts a group that isn't there, or `None` if it may not.
    fn need_to_insert(&self, key: &[u8]) -> Option<u64>
        requires ready { IsReady self.now }
        requires key { length key.now ≤ 8192 }
        ensures room { IfSome result (HasRoom self.now key.now) }
        ensures exact { (hash : List ℕ → ℕ) → is_some result ≡ enters hash self.now key.now }
    {
        if !self.spill.is_empty() {
            return None;
        }
        self.groups.need_within(key, self.plan.limit)
    }

    /// Reads a row that WHERE keeps, whose packed key this is. What `states` holds doesn't matter.
    fn add_selected<D: TapeDisk>(
        &mut self,
        disk: &mut D,
        packed: &[u8],
        row: &[Value<'_>],
        key: &[u8],
        states: &mut Vec<u8>,
    ) -> Result<(), SpillError>
        requires ready { IsReady self.old }
        requires selected { IsSelected (query_of self.old) packed.now key.now (row_of row.now) }
        ensures { Adds AddedOne H.hash_of D.TapeDisk (Packed_rows (packed.now ∷ [])) self.old disk.old result self.new disk.new }
    {
        let vacancy = match self.groups.look_up(key) {
            Lookup::Found(slot) => {
                return match self
                    .groups
                    .advance(self.plan.query, slot, row, self.plan.most)
                {
                    Ok(()) => Ok(()),
                    Err(BadState) => Err(SpillError::TapeDamaged),
                };
            }
            Lookup::Vacant(vacancy) => vacancy,
        };
        if let Some(need) = self.need_to_insert(key) {
            self.plan.first_after(row, states)?;
            self.groups.insert(key, states, vacancy, need)?;
            return Ok(());
        }
        let hash = self.groups.hash(key);
        self.spill.spill(disk, hash, ROW, packed)
    }

    /// Reads a group. What `tape_record` holds doesn't matter.
    fn add_group<D: TapeDisk>(
        &mut self,
        disk: &mut D,
        key: &[u8],
        states: &[u8],
        tape_record: &mut Vec<u8>,
    ) -> Result<(), SpillError>
        requires ready { IsReady self.old }
        requires group { (group : Group) × StandsFor (query_of self.old) self.old.plan.most (key.now, states.now) group }
        ensures { Adds AddedOne H.hash_of D.TapeDisk (Entries ((key.now, states.now) ∷ [])) self.old disk.old result self.new disk.new }
    {
        let vacancy = match self.groups.look_up(key) {
            Lookup::Found(slot) => {
                return match self
                    .groups
                    .combine(self.plan.query, slot, states, self.plan.most)
                {
                    Ok(()) => Ok(()),
                    Err(BadState) => Err(SpillError::TapeDamaged),
                };
            }
            Lookup::Vacant(vacancy) => vacancy,
        };
        if let Some(need) = self.need_to_insert(key) {
            self.groups.insert(key, states, vacancy, need)?;
            return Ok(());
        }
        let hash = self.groups.hash(key);
        write_group(tape_record, key, states)?;
        self.spill.spill(disk, hash, GROUP, tape_record)
    }

    /// Reads a packed row of the query's table, if WHERE is true of it. What `row` and `buffers` hold doesn't matter.
    fn add_row<'r, D: TapeDisk>(
        &mut self,
        disk: &mut D,
        packed: &'r [u8],
        row: &mut Vec<Value<'r>>,
        buffers: &mut Buffers,
    ) -> Result<(), SpillError>
        requires ready { IsReady self.old }
        requires packing { IsPacking (query_of self.old).kinds packed.now }
        ensures { Adds Added H.hash_of D.TapeDisk (Packed_rows (packed.now ∷ [])) self.old disk.old result self.new disk.new }
    {
        let Buffers {
            key,
            ends,
            states,
            ..
        } = buffers;
        if !self.plan.select_known(packed, row, ends)? {
            return Ok(()); // It is passed over.
        }
        if let Some(within) = self.plan.key_within(packed, row, ends) {
            return self.add_selected(disk, packed, row, within, states);
        }
        self.plan.pack_key(row, key)?;
        self.add_selected(disk, packed, row, key, states)
    }

    /// Reads a record of a packed row from a tape. `TapeDamaged` if it is not a row of the query's table, if its hash isn't its key's,
    /// or if WHERE isn't true for it: only selected rows are spilled. What `buffers` holds doesn't matter.
    fn add_row_record<D: TapeDisk>(
        &mut self,
        alloc: Global,
        disk: &mut D,
        hash: u32,
        packed: &[u8],
        buffers: &mut Buffers,
    ) -> Result<(), SpillError>
        requires ready { IsReady self.old }
        ensures { Adds AddedGenuine H.hash_of D.TapeDisk (On_tape hash 0 packed.now) self.old disk.old result self.new disk.new }
    {
        let Buffers { key, states, .. } = buffers;
        // Values borrow from the bytes of their record, which the next record takes the place of. So each has a `Vec` of its own.
        let mut row = Vec::with_capacity(alloc, self.plan.query.schema().width())?;
        if !self.plan.select(packed, &mut row, key)? {
            return Err(SpillError::TapeDamaged);
        }
        if self.groups.hash(key) != hash {
            return Err(SpillError::TapeDamaged);
        }
        self.add_selected(disk, packed, &row, key, states)
    }

    /// Reads a record of a group from a tape. `TapeDamaged` if it is not a group of the query, or if its hash isn't its key's. What
    /// `buffers` holds doesn't matter.
    fn add_group_record<D: TapeDisk>(
        &mut self,
        alloc: Global,
        disk: &mut D,
        hash: u32,
        bytes: &[u8],
        buffers: &mut Buffers,
    ) -> Result<(), SpillError>
        requires ready { IsReady self.old }
        ensures { Adds AddedGenuine H.hash_of D.TapeDisk (On_tape hash 1 bytes.now) self.old disk.old result self.new disk.new }
    {
        let Some((key, states)) = split_group(bytes) else {
            return Err(SpillError::TapeDamaged);
        };
        self.plan.check_group(alloc, key, states)?;
        if hash != self.groups.hash(key) {
            return Err(SpillError::TapeDamaged);
        }
        self.add_group(disk, key, states, &mut buffers.tape_record)
    }

    /// Reads a record from a tape. `TapeDamaged` if it is not a record of the query. What `buffers` holds doesn't matter.
    fn add_record<D: TapeDisk>(
        &mut self,
        alloc: Global,
        disk: &mut D,
        hash: u32,
        tag: u8,
        bytes: &[u8],
        buffers: &mut Buffers,
    ) -> Result<(), SpillError>
        requires ready { IsReady self.old }
        ensures { Adds AddedGenuine H.hash_of D.TapeDisk (On_tape hash tag bytes.now) self.old disk.old result self.new disk.new }
    {
        match tag {
            ROW => self.add_row_record(alloc, disk, hash, bytes, buffers),
            GROUP => self.add_group_record(alloc, disk, hash, bytes, buffers),
            _ => Err(SpillError::TapeDamaged),
        }
    }

    /// Reads packed rows. What `row` and `buffers` hold doesn't matter.
    fn add_rows<'r, D: TapeDisk>(
        &mut self,
        disk: &mut D,
        rows: Packings<'r>,
        row: &mut Vec<Value<'r>>,
        buffers: &mut Buffers,
    ) -> Result<(), SpillError>
        requires ready { IsReady self.old }
        requires packings { IsInput (query_of self.old) (Packed (packings_in rows)) }
        ensures { Adds Added H.hash_of D.TapeDisk (Packed_rows (packings_in rows.entry)) self.old disk.old result self.new disk.new }
    {
        for place in 0..rows.len() {
            self.add_row(disk, rows.row(place), row, buffers)?;
        }
        Ok(())
    }

    /// Reads the groups of a run, whose states count at most as many rows as are allowed. What `tape_record` holds doesn't matter.
    fn add_run<D: TapeDisk>(
        &mut self,
        disk: &mut D,
        run: &Run,
        tape_record: &mut Vec<u8>,
    ) -> Result<(), SpillError>
        requires ready { IsReady self.old }
        requires run { IsRun (query_of self.old) self.old.plan.most run.now }
        ensures { Adds Added H.hash_of D.TapeDisk (Entries run.now) self.old disk.old result self.new disk.new }
    {
        for place in 0..run.len() {
            let (key, states) = run.group(place);
            self.add_group(disk, key, states, tape_record)?;
        }
        Ok(())
    }

    /// Reads what an input gives. What `row` and `buffers` hold doesn't matter.
    pub(crate) fn add_input<'r, D: TapeDisk>(
        &mut self,
        disk: &mut D,
        input: Input<'r>,
        row: &mut Vec<Value<'r>>,
        buffers: &mut Buffers,
    ) -> Result<(), SpillError>
        requires ready { IsReady self.old }
        requires input { AreInputs (query_of self.old) self.old.plan.most (brought input ∷ []) }
        ensures { Adds Added H.hash_of D.TapeDisk (source_of (brought input.entry)) self.old disk.old result self.new disk.new }
    {
        match input {
            Input::Rows(rows) => self.add_rows(disk, Packings::Apart(rows), row, buffers),
            Input::Packed(rows) => self.add_rows(disk, Packings::Concatenated(rows), row, buffers),
            Input::Groups { run, .. } => self.add_run(disk, run, &mut buffers.tape_record),
        }
    }

    /// Reads the records of the partition that the pass reads. What `bytes` and `buffers` hold doesn't matter.
    pub(crate) fn add_partition<D: TapeDisk>(
        &mut self,
        alloc: Global,
        disk: &mut D,
        bytes: &mut Vec<u8>,
        buffers: &mut Buffers,
    ) -> Result<(), SpillError>
        requires ready { IsReady self.old }
        requires fresh { IsFresh self.old }
        ensures added { OnOk result (AddedPartition H.hash_of D.TapeDisk self.old disk.old self.new disk.new) }
        ensures refused { IfErr result (λ error. RefusedPartition H.hash_of D.TapeDisk self.old disk.old error self.new) }
        ensures disk { DiskFrame D.TapeDisk (failed spill_faults result) disk.old disk.new }
    {
        while let Some((hash, tag)) = self.spill.next(disk, bytes)? {
            self.add_record(alloc, disk, hash, tag, bytes, buffers)?;
        }
        Ok(())
    }

    /// Ends the pass: its groups become a run, the next pass begins with none, and what was spilled is left to later passes.
    /// The pass, what it spilled and what its table held are counted in `work`.
    pub(crate) fn finish<D: TapeDisk>(
        &mut self,
        alloc: Global,
        disk: &mut D,
        work: &mut Work,
    ) -> Result<Run, SpillError>
        requires ready { IsReady self.old }
        ensures finished { IfOk result (λ run. Finished D.TapeDisk self.old disk.old run self.new disk.new) }
        ensures counted { CountsPass D.TapeDisk self.old disk.old work.old work.new }
        ensures undamaged { IfErr result (λ error. error ≢ TapeDamaged) }
        ensures disk { DiskFrame D.TapeDisk (failed spill_faults result) disk.old disk.new }
    {
        work.passes = work.passes.saturating_add(1);
        work.spilled = work.spilled.saturating_add(self.spill.spilled(disk));
        work.most_held = work.most_held.max(self.groups.most_held());
        let run = self.groups.sorted(alloc)?;
        self.groups.clear();
        self.spill.end_pass(disk)?;
        Ok(run)
    }
}
