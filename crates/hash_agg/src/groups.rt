//! The groups of a pass, in a table whose bytes lie in memory contexts.

ghost use Rattle.std.specs.Prelude.{◌≡◌, ◌++◌, ◌∷◌, ◌≤◌, ◌<◌, ℕ, [], map, Some, is_some, length, slice_get, IfOk, IfErr};
ghost use Rattle.std.specs.Prelude.{IfSome, OnOk, OnErr};
ghost use Rattle.std.specs.List.Sorted.{IsPermutation};
ghost use Rattle.grouping_model.specs.Datum.{HasKinds};
ghost use Rattle.grouping_model.specs.Parts.{functions};
ghost use Rattle.packed_rows.specs.View.{row_of};
ghost use Rattle.agg_protocol.specs.States.{most_rows};
ghost use Rattle.aggregation_cost.specs.Cost.{greatest};
ghost use Rattle.aggregation_cost.specs.Space.{Key, need, fits, fronts};
ghost use Rattle.group_table.specs.Lookups.{IsVacancy, LooksUp};
ghost use Rattle.group_table.specs.Table.{IsSlot, HasNo, state_in};
ghost use Rattle.key_hashes.specs.SipHashes.{low_hash};
ghost use Rattle.spill_partitions.specs.declared.error.SpillError.TheVariants.{NoMemory};
ghost use Rattle.having_filter.specs.Kept.{IsWellFormed};
ghost use Rattle.having_filter.specs.Meaning.{meaning};
ghost use Rattle.group_runs.specs.Runs.{Rises, packed_keys};
ghost use Rattle.hash_agg.specs.Passes.{AreOnce, entries_of, FindsBy, HasPlace, WritesAt, IsMade, IsSameTable};
ghost use Rattle.group_runs.specs.Steps.{HaveRoomForRow, AreAdvanced, HaveRoomWithin, AreCombined};

use crate::advancing::advance_slice;
use crate::idle::IdleTable;
use crate::sorting::{abbreviated, sort_distinct};
use agg_protocol::BadState;
use context_tree::Tree;
use group_runs::{Run, combine_within};
use group_table::{GroupTable, KeyHash, Lookup, Seed, SipHash, Slot, Vacancy};
use having_filter::Query;
use packed_rows::Value;
use spill_partitions::SpillError;
use std::alloc::{AllocError, Global};
use std::marker::Model;

/// Groups: a hash table from their packed keys to their states. Its buckets, keys and states lie in contexts below the root of a tree,
/// which has nothing else below it. `most_held` is the most bytes of blocks that these held since the table was
/// empty. `hash` is the hash function by which records are spilled. The table itself finds its buckets by another one, with a seed of
/// its own.
#[derive(Drop)]
pub(crate) struct Groups<H: KeyHash + Drop> {
    tree: Tree,
    table: GroupTable<SipHash>,
    most_held: u64,
    hash: H,
}

impl<H: KeyHash + Drop> Model for Groups<H> {
    ghost use Rattle.hash_agg.specs.Passes.{GroupsState, AreHeld};

    ghost Value = { GroupsState H };

    ghost view = { λ g. record { table = g.table; tree = g.tree; most_held = g.most_held; hash = g.hash } };

    ghost invariant = { λ g. AreHeld (record { table = g.table; tree = g.tree; most_held = g.most_held; hash = g.hash }) };
}

impl<H: KeyHash + Drop> Groups<H> {
    /// No groups yet, in a new table. Their states will have `width` bytes each. Records are spilled by `hash`; the table's hash function
    /// has this seed. The only error is a failed allocation.
    #[tactic(auto, using(crate::proofs::TableLaws::finds_made, crate::proofs::TableLaws::nothing_held))]
    fn new(alloc: Global, width: u32, hash: H, seed: Seed) -> Result<Groups<H>, AllocError>
        requires { width ≤ 65535 }
        ensures { IfOk result (IsMade width hash seed) }
    {
        let mut tree = Tree::new(alloc);
        let root = tree.root();
        match GroupTable::new(alloc, &mut tree, root, width, SipHash::new(seed)) {
            Ok(table) => Ok(Groups {
                tree,
                table,
                most_held: 0,
                hash,
            }),
            Err(_) => Err(AllocError),
        }
    }

    /// No groups yet, as `new` makes them, but in a table that is idle if it has states of this width and this seed.
    pub(crate) fn begin(
        alloc: Global,
        idle: Option<IdleTable>,
        width: u32,
        hash: H,
        seed: Seed,
    ) -> Result<Groups<H>, AllocError>
        requires { width ≤ 65535 }
        ensures { IfOk result (IsMade width hash seed) }
    {
        match idle {
            Some(idle) if idle.serves(width, seed) => {
                let IdleTable { tree, table, .. } = idle;
                Ok(Groups {
                    tree,
                    table,
                    most_held: 0,
                    hash,
                })
            }
            _ => Groups::new(alloc, width, hash, seed),
        }
    }

    /// Leaves the table, which has no group, to another aggregation. It has states of this width and this seed.
    #[tactic(auto, using(crate::proofs::TableLaws::nothing_mapped))]
    pub(crate) fn end(self, width: u32, seed: Seed) -> IdleTable
        requires empty { entries_of self ≡ [] }
        requires width { self.table.width ≡ width }
        requires seed { FindsBy seed self }
        ensures { result ≡ record { width = width; seed = seed } }
    {
        let Groups { tree, table, .. } = self;
        IdleTable {
            tree,
            table,
            width,
            seed,
        }
    }

    /// How many groups there are.
    pub(crate) fn len(&self) -> usize
        ensures length { result ≡ length (entries_of self.now) }
        ensures once { AreOnce (entries_of self.now) }
    {
        self.table.len()
    }

    /// The hash of a key, which a record of it has.
    pub(crate) fn hash(&self, key: &[u8]) -> u32
        ensures { result ≡ H.hash_of self.now.hash key.now }
    {
        self.hash.key_hash(key)
    }

    /// The slot of the group of a key, if there is one; else where it would go.
    pub(crate) fn look_up(&self, key: &[u8]) -> Lookup
        ensures found { LooksUp low_hash self.now.table self.now.tree key.now result }
        ensures once { AreOnce (entries_of self.now) }
    {
        self.table.look_up(&self.tree, key)
    }

    /// The key and the states of one of the groups, in the order in which they came.
    pub(crate) fn entry(&self, place: usize) -> (&[u8], &[u8])
        requires { place < length (entries_of self.now) }
        ensures { slice_get (entries_of self.now) place ≡ Some (result.0.now, result.1.now) }
    {
        self.table.entry(&self.tree, place)
    }

    /// The most bytes of blocks that the groups held since the table was empty.
    pub(crate) fn most_held(&self) -> u64
        ensures is { result ≡ self.now.most_held }
        ensures by_needs { result ≡ greatest (map (need self.now.table.width) (fronts (packed_keys (entries_of self.now)))) }
    {
        self.most_held
    }

    /// The most bytes of blocks held while a group with this key is inserted. It is `None` if they exceed a limit or there would be too
    /// many buckets.
    pub(crate) fn need_within(&self, key: &[u8], limit: u64) -> Option<u64>
        requires { length key.now ≤ 65535 }
        ensures few { IfSome result (λ need. HasPlace self.now) }
        ensures within { IfSome result (λ need. need ≤ limit) }
        ensures needed { IfSome result (λ bytes. bytes ≡ need self.now.table.width (packed_keys (entries_of self.now) ++ key.now ∷ [])) }
        ensures fits { (hash : Key → ℕ) → is_some result ≡ fits (record { limit = limit; width = self.now.table.width; hash = hash })
            (packed_keys (entries_of self.now) ++ key.now ∷ []) }
    {
        let need = self.table.need_for(&self.tree, key)?;
        if need > u128::from(limit) {
            return None;
        }
        Some(need as u64)
    }

    /// Adds a group whose key isn't there, where `look_up` says, while at most this many bytes of blocks are held. The only error is a
    /// failed allocation, and no group is left then.
    pub(crate) fn insert(
        &mut self,
        key: &[u8],
        states: &[u8],
        vacancy: Vacancy,
        held: u64,
    ) -> Result<(), AllocError>
        requires absent { HasNo self.old.table self.old.tree key.now }
        requires vacancy { IsVacancy low_hash self.old.table self.old.tree key.now vacancy }
        requires key { length key.now ≤ 65535 }
        requires states { length states.now ≡ self.old.table.width }
        requires few { HasPlace self.old }
        requires held { held ≡ need self.old.table.width (packed_keys (entries_of self.old) ++ key.now ∷ []) }
        ensures entered { OnOk result (entries_of self.new ≡ entries_of self.old ++ (key.now, states.now) ∷ []) }
        ensures table { (limit : ℕ) → held ≤ limit → IsSameTable limit self.old self.new }
    {
        match self
            .table
            .insert_vacant(&mut self.tree, key, states, vacancy)
        {
            Ok(_) => {
                self.most_held = self.most_held.max(held);
                Ok(())
            }
            Err(error) => {
                self.table.clear(&mut self.tree); // Blocks that were taken on the way are given up too.
                self.most_held = 0;
                Err(error)
            }
        }
    }

    /// Moves the states of a group on by a row. They are refused if they would count more than `most` rows then.
    pub(crate) fn advance(
        &mut self,
        query: &Query,
        slot: Slot,
        row: &[Value<'_>],
        most: u64,
    ) -> Result<(), BadState>
        requires slot { IsSlot self.old.table slot }
        requires formed { IsWellFormed (meaning query.now) }
        requires row { HasKinds (meaning query.now).kinds (row_of row.now) }
        requires most { most ≤ most_rows }
        ensures table { self.new.table ≡ self.old.table }
        ensures hash { self.new.hash ≡ self.old.hash }
        ensures held { self.new.most_held ≡ self.old.most_held }
        ensures written { OnOk result
            (WritesAt self.old slot (AreAdvanced (meaning query.now).aggregates most (state_in self.old.table self.old.tree slot)
            (row_of row.now)) self.new) }
        ensures refused { OnErr result (¬ HaveRoomForRow (functions (meaning query.now)) most (state_in self.old.table self.old.tree slot)) }
    {
        let states = GroupTable::state_mut(&mut self.tree, &self.table, slot);
        advance_slice(query, states, row, most)
    }

    /// Combines the states of a group with others of its key, which come after. They are refused if they would count more than
    /// `most` rows then.
    pub(crate) fn combine(
        &mut self,
        query: &Query,
        slot: Slot,
        more: &[u8],
        most: u64,
    ) -> Result<(), BadState>
        requires slot { IsSlot self.old.table slot }
        requires most { most ≤ most_rows }
        ensures table { self.new.table ≡ self.old.table }
        ensures hash { self.new.hash ≡ self.old.hash }
        ensures held { self.new.most_held ≡ self.old.most_held }
        ensures written { OnOk result
            (WritesAt self.old slot (AreCombined (functions (meaning query.now)) most (state_in self.old.table self.old.tree slot) more.now)
            self.new) }
        ensures refused { OnErr result (¬ HaveRoomWithin (functions (meaning query.now)) most (state_in self.old.table self.old.tree slot)
            more.now) }
    {
        let states = GroupTable::state_mut(&mut self.tree, &self.table, slot);
        combine_within(query.agg_kinds(), states, more, most)
    }

    /// Removes all groups.
    pub(crate) fn clear(&mut self)
        ensures empty { entries_of self.new ≡ [] }
        ensures held { self.new.most_held ≡ 0 }
        ensures width { self.new.table.width ≡ self.old.table.width }
        ensures hash { self.new.hash ≡ self.old.hash }
        ensures finds { self.new.table.hash ≡ self.old.table.hash }
    {
        self.table.clear(&mut self.tree);
        self.most_held = 0;
    }

    /// The groups in the order of their keys. The only error is a failed allocation.
    pub(crate) fn sorted(&self, alloc: Global) -> Result<Run, SpillError>
        ensures sorted { IfOk result (IsPermutation (entries_of self.now)) }
        ensures rises { IfOk result Rises }
        ensures refused { IfErr result (λ error. error ≡ NoMemory) }
    {
        let mut entries = Vec::with_capacity(alloc, self.len())?;
        for place in 0..self.len() {
            let (key, states) = self.entry(place);
            entries.push(abbreviated(key, states))?;
        }
        sort_distinct(alloc, entries.as_mut_slice())
    }
}
