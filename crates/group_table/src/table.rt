//! A table of groups.
ghost use Rattle.std.specs.Prelude.{◌≡◌, ◌≢◌, ◌*◌, ◌-◌, ◌^◌, ◌+◌, ◌<◌, ◌≤◌, ℕ, List, [], ◌∷◌, ◌++◌, Some, None, MatchOption, IfSome};
ghost use Rattle.std.specs.Prelude.{IfNone, IfOk, IfErr, OnOk, OnErr, IsTrue, true, false, map, length, slice_get};
ghost use Rattle.std.specs.Prelude.{slice_index_or, cond};
ghost use Rattle.chunk_layout.specs.Contents.{place_of};
ghost use Rattle.chunk_layout.specs.declared.blocks.TheConstants.{HEADER};
ghost use Rattle.chunk_contexts.specs.declared.rooms.TheConstants.{BLOCK};
ghost use Rattle.context_tree.specs.Contexts.{has_chunk, chunk_bytes, with_bytes, held_by, growth_of};
ghost use Rattle.context_tree.specs.Tree.{TreeState, is_there, context_at, held_below, reset, IsWhole};
ghost use Rattle.group_table.specs.Table.{state_in, group_in, groups, IsSlot, Names, HasNo, buckets_in, buckets_for, most_buckets};
ghost use Rattle.group_table.specs.Table.{array_growth, group_growth, has_room, IsEmptied};
ghost use Rattle.aggregation_cost.specs.Space.{Key, need, held_after, fits};
ghost use Rattle.group_table.specs.Space.{keys_in, is_within, IsRunWith, IsSlabWith, HoldsArray, HoldsNext, HoldsKeyBlocks, HoldsStates};
ghost use Rattle.group_table.specs.Space.{HoldsKeys};
ghost use Rattle.group_table.specs.Standing.{IsSetWith, IsStanding, IsTableIn, KeepsOthers, IsSameFor};
ghost use Rattle.group_table.specs.Changes.{Clears, WritesState};
ghost use Rattle.group_table.specs.Inserts.{Inserts};
ghost use Rattle.group_table.specs.Lookups.{IsMet, IsVacancy, LooksUp};
ghost use Rattle.group_table.specs.Children.{IsRefused, IsAsBefore, IsNewTable};
ghost use Rattle.group_table.specs.Arrays.{OnlyIn, HasNext, IsSpare, IsNext, with_next, with_slot, with_spare};

use crate::array::{give_up, put_into, refill};
use crate::bucket::{BUCKET, Bucket};
use crate::children::{Children, make_children};
use crate::limits::LONGEST;
use crate::search::{Sought, chunk, search};
use chunk_layout::ChunkName;
use context_tree::{ContextId, Tree, TreeError};
use key_hashes::KeyHash;
use std::alloc::{AllocError, Global};
use std::marker::Model;

/// How many buckets a table has at first, and how many at most.
const FIRST_BUCKETS: usize = 256;

const MAX_BUCKETS: usize = 16777216;

/// How many groups can be noted at first without more memory.
const FIRST_SLOTS: usize = 16;

/// Where a group of a table lies. A slot is that of its key until the table is cleared.
#[derive(Clone, Copy, Debug, PartialEq, Eq)]
pub struct Slot {
    pub(crate) key: ChunkName,
    pub(crate) state: ChunkName,
}

/// Where a key that no group has would go: its hash, and the free bucket at which the search for it ended. It holds until an insertion
/// is tried or the table is cleared.
#[derive(Clone, Copy)]
pub struct Vacancy {
    hash: u32,
    place: usize,
}

impl Vacancy {
    /// The bucket that the search came to, unless the array has become another since.
    fn met(self, is_replaced: bool) -> Option<usize>
        ensures { result ≡ cond is_replaced None (Some self.place) }
    {
        if is_replaced {
            return None;
        }
        Some(self.place)
    }
}

/// What a table has for a key: where its group lies, or where it would go.
#[derive(Clone, Copy)]
pub enum Lookup {
    Found(Slot),
    Vacant(Vacancy),
}

/// A hash table of groups: a finite map from the bytes of keys to the bytes of states, each as many as `width`.
///
/// Buckets, keys and states lie in three contexts of a tree, below one that is named when the table is made: the buckets in an `AllocSet`,
/// the keys in a `Bump`, the states in a `Slab`. Each call is handed that tree, in which nothing else may change these three. A bucket has
/// 32 bytes, and there are 256 at first; they double before more than three quarters are in use, up to 2^24. Where each group lies is kept
/// outside the contexts, in 24 bytes a group.
#[derive(Drop)]
pub struct GroupTable<H: KeyHash + Drop> {
    parent: ContextId,
    buckets: ContextId,
    keys: ContextId,
    states: ContextId,
    width: u32,
    hash: H,
    array: Option<ChunkName>,
    slots: Vec<Slot>,
}

impl<H: KeyHash + Drop> Model for GroupTable<H> {
    ghost use Rattle.std.specs.Prelude.{◌-◌};
    ghost use Rattle.std.specs.Vec.{vec_capacity, vec_len};
    ghost use Rattle.group_table.specs.Table.{TableState};

    ghost Value = { TableState H };

    ghost view = { λ t. record {
      parent = t.parent;
      buckets = t.buckets;
      keys = t.keys;
      states = t.states;
      width = t.width;
      hash = t.hash;
      array = t.array;
      slots = t.slots.items;
      spare = vec_capacity t.slots - vec_len t.slots;
    } };
}

/// How many bytes of blocks a chunk of `n` bytes takes of a context that is there.
fn growth(tree: &Tree, id: ContextId, n: usize) -> u64
    requires there { is_there tree.now id ≡ true }
    requires small { n < 2 ^ 32 }
    ensures { result ≡ growth_of (context_at tree.now id) n }
{
    tree.growth_for(id, n as u32).unwrap()
}

/// Frees the chunks of a context that is there.
fn empty(tree: &mut Tree, id: ContextId)
    requires { is_there tree.old id ≡ true }
    ensures reset { tree.new ≡ reset tree.old id }
    ensures before { IsWhole tree.old }
    ensures after { IsWhole tree.new }
{
    tree.is_whole();
    match tree.reset(id) {
        Ok(()) => {}
        Err(_) => unreachable!(),
    }
    tree.is_whole();
}

/// The bytes of the blocks of a context that is there and of all that are below it.
fn held_below(tree: &Tree, id: ContextId) -> u128
    requires { is_there tree.now id ≡ true }
    ensures value { result ≡ held_below tree.now id }
    ensures bound { result < 2 ^ 96 }
{
    tree.held_below(id).unwrap()
}

impl<H: KeyHash + Drop> GroupTable<H> {
    /// Makes an empty table, whose states have `width` bytes each, 65,535 at most. Its three contexts are made below `parent`,
    /// and hold nothing yet.
    ///
    /// The errors are `StampsSpent` if fewer than three stamps are left, and `NoMemory`. After an error none of the three contexts is
    /// left, though stamps may be spent.
    pub fn new(
        alloc: Global,
        tree: &mut Tree,
        parent: ContextId,
        width: u32,
        hash: H,
    ) -> Result<GroupTable<H>, TreeError>
        requires there { is_there tree.old parent ≡ true }
        requires width { width ≤ LONGEST }
        ensures table { IfOk result (λ table. IsTableIn H.hash_of table tree.new) }
        ensures made { IfOk result (IsNewTable tree.old tree.new parent width hash) }
        ensures holds { IfOk result (λ table. held_below tree.old parent ≡ 0 → HoldsKeys table tree.new) }
        ensures refused { IfErr result (IsRefused tree.old) }
        ensures as_before { OnErr result (IsAsBefore tree.old tree.new) }
    {
        let Children {
            buckets,
            keys,
            states,
        } = make_children(tree, parent, width)?;
        Ok(GroupTable {
            parent,
            buckets,
            keys,
            states,
            width,
            hash,
            array: None,
            slots: Vec::new(alloc),
        })
    }

    /// A law: a table is one in each tree in which its parent and its contexts are as they are here, with the same groups.
    pub fn stays(&self, tree: &Tree)
        requires { IsTableIn H.hash_of self.now tree.now }
        ensures table { (after : TreeState) → IsWhole after → IsSameFor self.now tree.now after → IsTableIn H.hash_of self.now after }
        ensures groups { (after : TreeState) → IsSameFor self.now tree.now after → groups self.now after ≡ groups self.now tree.now }
        ensures holds { (after : TreeState) → IsWhole after → IsSameFor self.now tree.now after → held_below after self.now.parent
            ≡ held_below tree.now self.now.parent → HoldsKeys self.now tree.now → HoldsKeys self.now after }
    {}

    /// A law: if the contexts of the table hold what is counted for its keys, that much is held below its parent. With no
    /// group, that is a block of buckets at most.
    pub fn held_by_keys(&self, tree: &Tree)
        requires { IsTableIn H.hash_of self.now tree.now }
        ensures some { HoldsKeys self.now tree.now → 0 < length self.now.slots → held_below tree.now self.now.parent
            ≡ held_after self.now.width (keys_in self.now tree.now) }
        ensures none { HoldsKeys self.now tree.now → length self.now.slots ≡ 0 → held_below tree.now self.now.parent ≤ 2 * BLOCK }
    {}

    /// How many groups there are.
    pub fn len(&self) -> usize
        ensures { result ≡ length self.now.slots }
    {
        self.slots.len()
    }

    /// The hash of a key, by which its group is looked for.
    pub fn key_hash(&self, key: &[u8]) -> u32
        ensures { result ≡ H.hash_of self.now.hash key.now }
    {
        self.hash.key_hash(key)
    }

    /// The slot of the group of a key, if there is one.
    pub fn find(&self, tree: &Tree, key: &[u8]) -> Option<Slot>
        requires { IsTableIn H.hash_of self.now tree.now }
        ensures { MatchOption result (HasNo self.now tree.now key.now) (λ slot. Names self.now tree.now slot key.now) }
    {
        match self.look_up(tree, key) {
            Lookup::Found(slot) => Some(slot),
            Lookup::Vacant(_) => None,
        }
    }

    /// The slot of the group of a key, if there is one; else where it would go, which `insert_vacant` takes.
    pub fn look_up(&self, tree: &Tree, key: &[u8]) -> Lookup
        requires { IsTableIn H.hash_of self.now tree.now }
        ensures { LooksUp H.hash_of self.now tree.now key.now result }
    {
        let hash = self.hash.key_hash(key);
        let Some(name) = self.array else {
            return Lookup::Vacant(Vacancy { hash, place: 0 });
        };
        let array = chunk(tree, self.buckets, name);
        let count = array.len() / BUCKET;
        match search(tree, self.keys, array, count, hash, key) {
            Sought::Found(Bucket { key, state, .. }) => Lookup::Found(Slot { key, state }),
            Sought::Free(place) => Lookup::Vacant(Vacancy { hash, place }),
        }
    }

    /// The state of a group.
    pub fn state<'a>(&self, tree: &'a Tree, slot: Slot) -> &'a [u8]
        requires table { IsTableIn H.hash_of self.now tree.now }
        requires slot { IsSlot self.now slot }
        ensures state { result.now ≡ state_in self.now tree.now slot }
        ensures len { length result.now ≡ self.now.width }
    {
        chunk(tree, self.states, slot.state)
    }

    /// The key and the state of one of the groups, in the order in which they came.
    pub fn entry<'a>(&self, tree: &'a Tree, place: usize) -> (&'a [u8], &'a [u8])
        requires table { IsTableIn H.hash_of self.now tree.now }
        requires place { place < length self.now.slots }
        ensures entry { slice_get (groups self.now tree.now) place ≡ Some (result.0.now, result.1.now) }
        ensures len { length result.1.now ≡ self.now.width }
    {
        let slot = self.slots[place];
        (chunk(tree, self.keys, slot.key), self.state(tree, slot))
    }

    /// Whether one more group with this key fits. At each step of its insertion no more bytes of blocks are held below the table's parent
    /// than the limit. And there are at most 2^24 buckets. Let the contexts hold what is counted for the keys of the table, and nothing
    /// else. Then it is true exactly if these keys and this one fit.
    ///
    /// After `new` or `clear` there is no group. Let only the buckets hold anything below the parent then, and a state have up to 8,184
    /// bytes. Then each key of up to 8,192 bytes fits at each limit from 32,768 up.
    pub fn room_for(&self, tree: &Tree, key: &[u8], limit: u64) -> bool
        requires table { IsTableIn H.hash_of self.now tree.now }
        requires key { length key.now ≤ LONGEST }
        ensures exact { result ≡ has_room self.now tree.now (length key.now) limit }
        ensures by_keys { HoldsKeys self.now tree.now → (hash : Key → ℕ) → result
            ≡ fits (record { limit = limit; width = self.now.width; hash = hash }) (keys_in self.now tree.now ++ key.now ∷ []) }
        ensures emptied { IsEmptied self.now tree.now → length key.now ≤ BLOCK → self.now.width ≤ BLOCK - HEADER → 4 * BLOCK ≤ limit
            → result ≡ true }
    {
        match self.need_for(tree, key) {
            Some(need) => need <= u128::from(limit),
            None => false,
        }
    }

    /// The most bytes of blocks held below the table's parent while a group with this key is inserted. It is `None` if there would be more
    /// than 2^24 buckets.
    pub fn need_for(&self, tree: &Tree, key: &[u8]) -> Option<u128>
        requires table { IsTableIn H.hash_of self.now tree.now }
        requires key { length key.now ≤ LONGEST }
        ensures bytes { IfSome result (λ bytes. bytes ≡ held_below tree.now self.now.parent
            + group_growth self.now tree.now (length key.now)) }
        ensures few { IfSome result (λ _. buckets_for (buckets_in self.now.array) (length self.now.slots) ≤ most_buckets) }
        ensures none { IfNone result (most_buckets < buckets_for (buckets_in self.now.array) (length self.now.slots)) }
        ensures by_keys { HoldsKeys self.now tree.now
            → IfSome result (λ bytes. bytes ≡ need self.now.width (keys_in self.now tree.now ++ key.now ∷ [])) }
        ensures fits { HoldsKeys self.now tree.now → (limit : ℕ) → (hash : Key → ℕ) → is_within result limit
            ≡ fits (record { limit = limit; width = self.now.width; hash = hash }) (keys_in self.now tree.now ++ key.now ∷ []) }
    {
        tree.spare_by_count(self.states);
        if self.buckets_wanted() > MAX_BUCKETS {
            return None;
        }
        Some(held_below(tree, self.parent) + self.growth_for(tree, key.len()))
    }

    /// How many bytes of blocks one more group takes, with a key of this many bytes.
    fn growth_for(&self, tree: &Tree, n: usize) -> u128
        requires standing { IsStanding H.hash_of self.now tree.now }
        requires few { buckets_for (buckets_in self.now.array) (length self.now.slots) ≤ most_buckets }
        requires key { n ≤ LONGEST }
        ensures value { result ≡ group_growth self.now tree.now n }
        ensures bound { result < 2 ^ 127 }
    {
        let wanted = self.buckets_wanted();
        let array = if wanted == self.bucket_count() {
            0
        } else {
            growth(tree, self.buckets, wanted * BUCKET)
        };
        let key = growth(tree, self.keys, n);
        let state = growth(tree, self.states, self.width as usize);
        u128::from(array) + u128::from(key) + u128::from(state)
    }

    /// Takes a chunk of zeros for the array of the table with one more group, if it is to have another array.
    fn take_array(&self, tree: &mut Tree) -> Result<Option<ChunkName>, AllocError>
        requires table { IsTableIn H.hash_of self.now tree.old }
        requires few { buckets_for (buckets_in self.now.array) (length self.now.slots) ≤ most_buckets }
        ensures only { OnlyIn self.now.buckets tree.old tree.new }
        ensures standing { IsStanding H.hash_of self.now tree.new }
        ensures next { IfOk result (HasNext self.now tree.new) }
        ensures same { IfOk result (λ next. next ≡ None → tree.new ≡ tree.old) }
        ensures unchanged { OnErr result (tree.new ≡ tree.old) }
        ensures held { held_by (context_at tree.new self.now.buckets) ≤ held_by (context_at tree.old self.now.buckets)
            + array_growth self.now tree.old }
        ensures holds { IfOk result (λ next. IsSetWith (HoldsArray self.now.array (length self.now.slots))
            (context_at tree.old self.now.buckets) → IsSetWith (HoldsNext self.now.array next (length self.now.slots))
            (context_at tree.new self.now.buckets)) }
    {
        let wanted = self.buckets_wanted();
        if wanted == self.bucket_count() {
            return Ok(None);
        }
        match tree.alloc_zeroed(self.buckets, (wanted * BUCKET) as u32) {
            Ok(name) => Ok(Some(name)),
            Err(_) => Err(AllocError), // It is want of memory: an array is short enough for a chunk.
        }
    }

    /// How many buckets there are.
    fn bucket_count(&self) -> usize
        ensures value { result ≡ buckets_in self.now.array }
        ensures few { result < 2 ^ 27 }
    {
        match self.array {
            None => 0,
            Some(name) => name.len as usize / BUCKET,
        }
    }

    /// How many buckets there are to be for one more group.
    fn buckets_wanted(&self) -> usize
        ensures { result ≡ buckets_for (buckets_in self.now.array) (length self.now.slots) }
    {
        let count = self.bucket_count();
        if self.slots.len() < 3 * count / 4 {
            return count;
        }
        FIRST_BUCKETS.max(2 * count)
    }

    /// Takes chunks for the key and the state of one more group.
    fn take_group(&self, tree: &mut Tree, key: &[u8], state: &[u8]) -> Result<Slot, AllocError>
        requires standing { IsStanding H.hash_of self.now tree.old }
        requires state { length state.now ≡ self.now.width }
        requires key { length key.now ≤ LONGEST }
        ensures standing { IsStanding H.hash_of self.now tree.new }
        ensures buckets { context_at tree.new self.now.buckets ≡ context_at tree.old self.now.buckets }
        ensures others { KeepsOthers self.now tree.old tree.new }
        ensures groups { groups self.now tree.new ≡ groups self.now tree.old }
        ensures next { IfOk result (IsNext self.now tree.new key.now state.now) }
        ensures held { held_below tree.new self.now.parent ≤ held_below tree.old self.now.parent
            + growth_of (context_at tree.old self.now.keys) (length key.now)
            + growth_of (context_at tree.old self.now.states) self.now.width }
        ensures keys { OnOk result ((keys : List (List ℕ)) → IsRunWith (HoldsKeyBlocks keys) (context_at tree.old self.now.keys)
            → IsRunWith (HoldsKeyBlocks (keys ++ key.now ∷ [])) (context_at tree.new self.now.keys)) }
        ensures states { OnOk result ((number : ℕ) → IsSlabWith (HoldsStates self.now.width number) (context_at tree.old self.now.states)
            → IsSlabWith (HoldsStates self.now.width (number + 1)) (context_at tree.new self.now.states)) }
    {
        tree.spare_by_count(self.states);
        let Ok(key) = tree.alloc(self.keys, key) else {
            return Err(AllocError);
        };
        match tree.alloc(self.states, state) {
            Ok(state) => Ok(Slot { key, state }),
            Err(_) => Err(AllocError),
        }
    }

    /// Removes all groups, and frees all blocks but the first one of the buckets, if there is one. It takes no memory. Contexts that were
    /// made below the table's own are deleted too; all others stay as they are.
    pub fn clear(&mut self, tree: &mut Tree)
        requires { IsTableIn H.hash_of self.old tree.old }
        ensures { Clears H.hash_of self.old self.new tree.old tree.new }
    {
        empty(tree, self.buckets);
        empty(tree, self.keys);
        empty(tree, self.states);
        self.array = None;
        self.slots.clear();
    }

    /// Makes the next array that of the table, if there is one: all buckets in use are put there, and the old array is freed.
    fn replace_array(&mut self, tree: &mut Tree, next: Option<ChunkName>)
        requires standing { IsStanding H.hash_of self.old tree.old }
        requires next { HasNext self.old tree.old next }
        ensures only { OnlyIn self.old.buckets tree.old tree.new }
        ensures array { self.new ≡ with_next self.old next }
        ensures same { next ≡ None → tree.new ≡ tree.old }
        ensures standing { IsStanding H.hash_of self.new tree.new }
        ensures room { HasNext self.new tree.new None }
        ensures held { held_by (context_at tree.new self.old.buckets) ≤ held_by (context_at tree.old self.old.buckets) }
        ensures holds { (number : ℕ) → IsSetWith (HoldsNext self.old.array next number) (context_at tree.old self.old.buckets)
            → IsSetWith (HoldsArray self.new.array (number + 1)) (context_at tree.new self.old.buckets) }
    {
        let Some(name) = next else {
            return;
        };
        if let Some(old) = self.array {
            refill(tree, self.buckets, old, name);
            give_up(tree, self.buckets, old);
        }
        self.array = Some(name);
    }

    /// Puts the bucket of a group into the array, which may be another one than that in which its key was looked for.
    fn put_slot(&self, tree: &mut Tree, slot: Slot, vacancy: Vacancy, is_replaced: bool)
        requires standing { IsStanding H.hash_of self.now tree.old }
        requires room { HasNext self.now tree.old None }
        requires next { (key state : List ℕ) × IsNext self.now tree.old key state slot × HasNo self.now tree.old key
            × (vacancy.hash ≡ H.hash_of self.now.hash key) }
        requires met { is_replaced ≡ false → IsMet self.now tree.old vacancy }
        ensures only { OnlyIn self.now.buckets tree.old tree.new }
        ensures standing { IsStanding H.hash_of (with_slot self.now slot) tree.new }
        ensures held { held_by (context_at tree.new self.now.buckets) ≡ held_by (context_at tree.old self.now.buckets) }
        ensures holds { (number : ℕ) → IsSetWith (HoldsArray self.now.array number) (context_at tree.old self.now.buckets)
            → IsSetWith (HoldsArray self.now.array number) (context_at tree.new self.now.buckets) }
    {
        let name = self.array.unwrap();
        let met = vacancy.met(is_replaced);
        let Slot { key, state } = slot;
        let hash = vacancy.hash;
        put_into(tree, self.buckets, name, met, Bucket { key, state, hash });
    }

    /// Adds a group with a key that no other has, and a state of `width` bytes. The key has at most 65,535 bytes, and at most 2^24 buckets
    /// are needed, as is so if `room_for` is true for some limit.
    ///
    /// The only error is a failed allocation. The groups are then as they were, and blocks that were taken may stay held. On the
    /// way no more is held below the parent than `need_for` counts: an array twice as long beside the old one, the key, and
    /// the state.
    pub fn insert(&mut self, tree: &mut Tree, key: &[u8], state: &[u8]) -> Result<Slot, AllocError>
        requires table { IsTableIn H.hash_of self.old tree.old }
        requires absent { HasNo self.old tree.old key.now }
        requires key { length key.now ≤ LONGEST }
        requires state { length state.now ≡ self.old.width }
        requires few { buckets_for (buckets_in self.old.array) (length self.old.slots) ≤ most_buckets }
        ensures { Inserts H.hash_of self.old self.new tree.old tree.new key.now state.now result }
    {
        match self.look_up(tree, key) {
            Lookup::Found(_) => unreachable!(),
            Lookup::Vacant(vacancy) => self.insert_vacant(tree, key, state, vacancy),
        }
    }

    /// Adds a group where `look_up` says that its key would go. It is `insert` without another search, and has its error.
    pub fn insert_vacant(
        &mut self,
        tree: &mut Tree,
        key: &[u8],
        state: &[u8],
        vacancy: Vacancy,
    ) -> Result<Slot, AllocError>
        requires table { IsTableIn H.hash_of self.old tree.old }
        requires absent { HasNo self.old tree.old key.now }
        requires vacancy { IsVacancy H.hash_of self.old tree.old key.now vacancy }
        requires key { length key.now ≤ LONGEST }
        requires state { length state.now ≡ self.old.width }
        requires few { buckets_for (buckets_in self.old.array) (length self.old.slots) ≤ most_buckets }
        ensures { Inserts H.hash_of self.old self.new tree.old tree.new key.now state.now result }
    {
        self.make_room()?;
        self.insert_noted(tree, key, state, vacancy)
    }

    /// Makes room to note one more group.
    fn make_room(&mut self) -> Result<(), AllocError>
        ensures room { OnOk result (0 < self.new.spare) }
        ensures same { self.new ≡ with_spare self.old self.new.spare }
    {
        let more = if self.slots.is_empty() {
            FIRST_SLOTS
        } else {
            1
        };
        self.slots.reserve(more)
    }

    /// Takes a group for which there is room to note it.
    fn insert_noted(
        &mut self,
        tree: &mut Tree,
        key: &[u8],
        state: &[u8],
        vacancy: Vacancy,
    ) -> Result<Slot, AllocError>
        requires room { 0 < self.old.spare }
        requires table { IsTableIn H.hash_of self.old tree.old }
        requires absent { HasNo self.old tree.old key.now }
        requires vacancy { IsVacancy H.hash_of self.old tree.old key.now vacancy }
        requires key { length key.now ≤ LONGEST }
        requires state { length state.now ≡ self.old.width }
        requires few { buckets_for (buckets_in self.old.array) (length self.old.slots) ≤ most_buckets }
        ensures { Inserts H.hash_of self.old self.new tree.old tree.new key.now state.now result }
    {
        let next = self.take_array(tree)?;
        let taken = self.take_group(tree, key, state);
        self.replace_array(tree, next);
        let slot = taken?;
        self.put_slot(tree, slot, vacancy, next.is_some());
        self.slots.push_reserved(slot);
        Ok(slot)
    }
}

impl<H: KeyHash + Drop> GroupTable<H> {
    ghost use Rattle.std.specs.Borrow.{sem};
    ghost use Rattle.context_tree.specs.TreeLends.{lends_chunk, with_bytes_in};

    /// Borrows the state of a group, to change it. All other groups stay as they are.
    ///
    /// The tree is the first argument, since the bytes are borrowed from it.
    pub fn state_mut<'a>(tree: &'a mut Tree, table: &GroupTable<H>, slot: Slot) -> &'a mut [u8]
        requires table { IsTableIn H.hash_of table.now tree.old }
        requires slot { IsSlot table.now slot }
        ensures* writes_back { sem 𝓛 (lends_chunk tree.entry table.now.states slot.state result) }
        ensures state { result.now ≡ state_in table.now tree.old slot }
        ensures len { length result.now ≡ table.now.width }
        ensures written { (ws : List ℕ) → WritesState H.hash_of table.now slot ws tree.old
            (with_bytes_in tree.old table.now.states slot.state ws) }
    {
        tree.bytes_mut(table.states, slot.state)
    }
}
