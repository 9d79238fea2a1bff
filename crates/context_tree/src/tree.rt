//! A tree of contexts.
ghost use Rattle.std.specs.Prelude.{◌≡◌, ◌+◌, ◌-◌, ◌<◌, ◌≤◌, ◌==◌, ◌^◌, ℕ, List, true, false, cond, None, Some, IfOk, IfErr, OnOk};
ghost use Rattle.std.specs.Prelude.{OnErr, IsTrue, MatchResult, length, get_or, is_some, slice_set};
ghost use Rattle.smallvec.specs.SmallVec.{HasRoomFor};
ghost use Rattle.block_memory.specs.Cells.{zeros};
ghost use Rattle.chunk_layout.specs.Contents.{place_of, AreLaid};
ghost use Rattle.chunk_contexts.specs.Chunks.{lengths, KeepsOthers};
ghost use Rattle.chunk_contexts.specs.declared.error.ContextError.TheVariants.{NoMemory};
ghost use Rattle.context_tree.specs.Contexts.{chunks_of, blocks_of, growth_of, with_bytes, kind_refusal, no_context, has_chunk};
ghost use Rattle.context_tree.specs.Contexts.{new_context, chunk_bytes, held_by, IsCounted, IsGrownByRule};
ghost use Rattle.context_tree.specs.Links.{is_below, is_under, cleared, placed, IsFull};
ghost use Rattle.context_tree.specs.Preorders.{IsOrdered};
ghost use Rattle.context_tree.specs.Tree.{new_tree, is_there, context_at, parent_id, id_in, with_new, without_slots, deleted};
ghost use Rattle.context_tree.specs.Tree.{reset, held_below, held_from, held_by_all, IsBounded, IsWhole, IsKept, IsNotMade, TreeState};
ghost use Rattle.context_tree.specs.declared.error.TreeError.TheVariants as error;
ghost use Rattle.context_tree.specs.TreeFields.{tree_of, AreFields};
ghost use Rattle.context_tree.specs.Calls.{OnContext, IsGone, Answers, IsRefusedOn, Allocates, RefusesAlloc, Frees, RefusesFree, Resizes};
ghost use Rattle.context_tree.specs.Calls.{RefusesResize, Writes, written};

use crate::context::Context;
use crate::error::TreeError;
use crate::kind::Kind;
use crate::links::{ContextId, Links};
use crate::ring::Ring;
use chunk_contexts::{ChunkContext, ChunkName, ContextError};
use smallvec::SmallVec;
use std::alloc::Global;
use std::default::MadeWith;
use std::marker::Model;

/// The slot of the root.
const ROOT: u32 = 0;

/// What the blocks of a tree stay below, in bytes.
const BOUND: u64 = 0x8000_0000_0000_0000;

/// Memory contexts, each but the root made below another.
///
/// A call by the id of a context that is not there, or no longer, is refused as `NoSuchContext` before all else. An id of
/// another tree means the context of this tree with that slot and stamp. Calls that answer no new chunk or context take no
/// memory.
#[derive(Drop)]
pub struct Tree {
    alloc: Global,
    links: Links,
    /// The slots of the contexts in preorder.
    ring: Ring,
    contexts: SmallVec<Context, 4>,
    last: u64,
    /// The bytes of the blocks of all contexts.
    held: u64,
}

impl Model for Tree {
    ghost Value = { TreeState };

    ghost view = { tree_of };

    ghost invariant = { AreFields };
}

/// Puts a context in the place of another.
fn replace(contexts: &mut [Context], slot: usize, context: Context)
    requires { slot < length contexts.old }
    ensures { contexts.new ≡ slice_set contexts.old slot context }
{
    contexts[slot] = context;
}

/// Puts a context into a slot, or into a new one behind the last.
fn put_context(contexts: &mut SmallVec<Context, 4>, slot: usize, context: Context)
    requires low { slot ≤ length contexts.old.items }
    requires room { HasRoomFor contexts.old 1 }
    ensures { contexts.new.items ≡ placed contexts.old.items slot context }
{
    if slot < contexts.len() {
        replace(contexts, slot, context);
        return;
    }
    contexts.push_reserved(context);
}

/// Refuses a kind of which no context can be made.
fn check_kind(alloc: Global, kind: Kind) -> Result<(), ContextError>
    ensures { MatchResult result (λ _. kind_refusal kind ≡ None) (λ e. kind_refusal kind ≡ Some e) }
{
    match Context::new(alloc, kind) {
        Ok(_) => Ok(()),
        Err(error) => Err(error),
    }
}

/// Puts a new context of a kind that is not refused into a slot, or into a new one behind the last.
fn put_new(contexts: &mut SmallVec<Context, 4>, slot: usize, alloc: Global, kind: Kind)
    requires low { slot ≤ length contexts.old.items }
    requires room { HasRoomFor contexts.old 1 }
    requires allowed { kind_refusal kind ≡ None }
    ensures { contexts.new.items ≡ placed contexts.old.items slot (new_context kind) }
{
    match Context::new(alloc, kind) {
        Ok(context) => put_context(contexts, slot, context),
        Err(_) => unreachable!(),
    }
}

/// Gives up the context in a slot, and answers how many bytes its blocks have.
fn give_up(contexts: &mut [Context], slot: usize, alloc: Global) -> u64
    requires { slot < length contexts.old }
    ensures contexts { contexts.new ≡ slice_set contexts.old slot no_context }
    ensures given { result ≡ held_by (get_or contexts.old slot no_context) }
{
    let given = contexts[slot].held();
    replace(contexts, slot, Context::made_with(alloc));
    given
}

/// Gives up the contexts of all descendants of one, and answers how many bytes their blocks have.
fn give_up_below(
    contexts: &mut [Context],
    links: &Links,
    ring: &Ring,
    above: u32,
    alloc: Global,
) -> u64
    requires long { length contexts.old ≡ length links.now }
    requires there { IsTrue (is_some (get_or links.now above None)) }
    requires ordered { IsOrdered links.now ring.now.slots }
    requires bounded { IsBounded contexts.old }
    ensures contexts { contexts.new ≡ cleared (is_under links.now above) no_context 0 contexts.old }
    ensures given { held_by_all contexts.new + result ≡ held_by_all contexts.old }
{
    links.is_forest();
    ring.is_ring();
    let oldest = links.stamp(above);
    let mut given = 0;
    let mut at = ring.after(above);
    while links.is_later(at, oldest) {
        let next = ring.after(at);
        given += give_up(contexts, at as usize, alloc);
        at = next;
    }
    given
}

/// Gives up a context and the contexts of all its descendants, and answers how many bytes their blocks have.
fn give_up_with(
    contexts: &mut [Context],
    links: &Links,
    ring: &Ring,
    slot: u32,
    alloc: Global,
) -> u64
    requires long { length contexts.old ≡ length links.now }
    requires there { IsTrue (is_some (get_or links.now slot None)) }
    requires ordered { IsOrdered links.now ring.now.slots }
    requires bounded { IsBounded contexts.old }
    ensures contexts { contexts.new ≡ cleared (is_below links.now slot) no_context 0 contexts.old }
    ensures given { held_by_all contexts.new + result ≡ held_by_all contexts.old }
{
    links.is_forest();
    let below = give_up_below(contexts, links, ring, slot, alloc);
    below + give_up(contexts, slot as usize, alloc)
}

/// The bytes of the blocks of the context in a slot.
fn held_in(contexts: &[Context], slot: u32) -> u64
    requires { slot < length contexts.now }
    ensures { result ≡ held_by (get_or contexts.now slot no_context) }
{
    contexts[slot as usize].held()
}

/// The bytes of the blocks of the context in a slot and of its descendants.
fn sum_below(links: &Links, ring: &Ring, contexts: &[Context], above: u32) -> u64
    requires long { length contexts.now ≡ length links.now }
    requires there { IsTrue (is_some (get_or links.now above None)) }
    requires ordered { IsOrdered links.now ring.now.slots }
    requires bounded { IsBounded contexts.now }
    ensures { result ≡ held_from links.now above 0 contexts.now }
{
    links.is_forest();
    ring.is_ring();
    let oldest = links.stamp(above);
    let own = held_in(contexts, above);
    let mut sum = own;
    let mut at = ring.after(above);
    while links.is_later(at, oldest) {
        let next = ring.after(at);
        let more = held_in(contexts, at);
        sum += more;
        at = next;
    }
    sum
}

/// Refuses a growth that would bring the blocks of all contexts from what they hold to 2^63 bytes.
fn check_growth(held: u64, growth: u64) -> Result<(), TreeError>
    requires { held < 2 ^ 63 }
    ensures { MatchResult result (λ _. held + growth < 2 ^ 63) (λ e. (0 < growth) × (e ≡ error.Context NoMemory)) }
{
    if growth > 0 && growth >= BOUND - held {
        return Err(TreeError::Context(ContextError::NoMemory));
    }
    Ok(())
}

/// How many bytes of blocks a request of `n` bytes takes of a context: 0 where it is refused for what it asks.
fn growth_for(context: &Context, n: usize) -> u64
    ensures { result ≡ growth_of context.now n }
{
    if n > u32::MAX as usize {
        return 0;
    }
    context.growth_for(n as u32)
}

/// Writes bytes over others, from one place on.
fn overwrite(chunk: &mut [u8], at: usize, bytes: &[u8])
    requires { at + length bytes.now ≤ length chunk.old }
    ensures { chunk.new ≡ written chunk.old at bytes.now }
{
    chunk[at..at + bytes.len()].copy_from_slice(bytes);
}

impl Tree {
    /// Makes a tree of a root alone: an `AllocSet` with no block, and stamp 0.
    pub fn new(alloc: Global) -> Tree
        ensures { result ≡ new_tree 0 }
    {
        Tree::with_stamp(alloc, 0)
    }

    /// Makes a tree of a root alone, with this stamp. Later contexts have the stamps that follow.
    pub fn with_stamp(alloc: Global, first: u64) -> Tree
        ensures { result ≡ new_tree first }
    {
        let mut contexts = SmallVec::new(alloc);
        contexts.push_reserved(Context::made_with(alloc));
        Tree {
            alloc,
            links: Links::new(alloc, first),
            ring: Ring::new(alloc),
            contexts,
            last: first,
            held: 0,
        }
    }

    /// A law: the links are a forest of one tree, no stamp is above the last, and each free slot has an empty context.
    pub fn is_whole(&self)
        ensures { IsWhole self.now }
    {
        self.links.is_forest();
    }

    /// A law: the blocks of all contexts have fewer than 2^63 bytes.
    pub fn is_bounded(&self)
        ensures { IsBounded self.now.contexts }
    {
        let _bounded = &self.contexts;
    }

    /// Whether there is a context of this id.
    pub fn is_live(&self, id: ContextId) -> bool
        ensures { result ≡ is_there self.now id }
    {
        match self.links.get(id.slot) {
            Some(link) => link.stamp == id.stamp,
            None => false,
        }
    }

    /// Refuses an id that no context has.
    fn check(&self, id: ContextId) -> Result<(), TreeError>
        ensures { MatchResult result (λ _. is_there self.now id ≡ true) (IsGone id self.now) }
    {
        if !self.is_live(id) {
            return Err(TreeError::NoSuchContext);
        }
        Ok(())
    }

    /// A law: a block of a slab has a free chunk just where there are fewer chunks than all its blocks have room for.
    pub fn spare_by_count(&self, id: ContextId)
        ensures { IsCounted (context_at self.now id) }
    {
        if let Some(context) = self.contexts.get(id.slot as usize) {
            context.spare_by_count();
        }
    }

    /// A law: an `AllocSet` takes a block of the next size, doubled until it holds the chunk, and cuts up what was left of the
    /// one before: while 16 bytes are left, a free chunk of the largest class that fits.
    pub fn grows_by_rule(&self, id: ContextId)
        requires { is_there self.now id ≡ true }
        ensures { IsGrownByRule (context_at self.now id) }
    {
        self.contexts[id.slot as usize].grows_by_rule();
    }

    /// A law: no two live chunks of a context share a byte, and each lies in a block. So it holds no less than they have bytes.
    pub fn are_laid(&self, id: ContextId)
        ensures laid { AreLaid (blocks_of (context_at self.now id)) (chunks_of (context_at self.now id)) }
        ensures enough { lengths (chunks_of (context_at self.now id)) ≤ held_by (context_at self.now id) }
    {
        if let Some(context) = self.contexts.get(id.slot as usize) {
            context.are_laid();
        }
    }

    /// The id of the root.
    pub fn root(&self) -> ContextId
        ensures slot { result.slot ≡ 0 }
        ensures there { is_there self.now result ≡ true }
    {
        self.links.is_forest();
        match self.links.get(ROOT) {
            Some(link) => ContextId {
                slot: ROOT,
                stamp: link.stamp,
            },
            None => unreachable!(),
        }
    }

    /// The id of the context below which one was made. The root has none.
    pub fn parent(&self, id: ContextId) -> Result<Option<ContextId>, TreeError>
        ensures { Answers id self.now (parent_id self.now.links (get_or self.now.links id.slot None)) result }
    {
        self.check(id)?;
        Ok(self.id_in(self.links.parent(id.slot)))
    }

    /// The id of the context in a slot, which is that of a live one.
    fn id_in(&self, slot: Option<u32>) -> Option<ContextId>
        ensures { result ≡ id_in self.now.links slot }
    {
        let slot = slot?;
        let stamp = match self.links.get(slot) {
            Some(link) => link.stamp,
            None => 0,
        };
        Some(ContextId { slot, stamp })
    }

    /// Makes a context below another, with the next stamp. It is in a slot that was free; a new slot is made only where
    /// none is.
    ///
    /// Refuses `StampsSpent` where the last stamp was given out, and then a slab of chunks that are too large. Nothing is
    /// changed then, and no stamp is spent.
    pub fn create(&mut self, parent: ContextId, kind: Kind) -> Result<ContextId, TreeError>
        ensures there { OnOk result (is_there self.old parent ≡ true) }
        ensures stamp { IfOk result (λ id. id.stamp ≡ self.old.last + 1) }
        ensures fresh { IfOk result (λ id. get_or self.old.links id.slot None ≡ None) }
        ensures low { IfOk result (λ id. id.slot ≤ length self.old.links) }
        ensures needed { IfOk result (λ id. id.slot ≡ length self.old.links → IsFull self.old.links) }
        ensures made { IfOk result (λ id. self.new ≡ with_new self.old parent kind id) }
        ensures allowed { OnOk result (kind_refusal kind ≡ None) }
        ensures refused { IfErr result (IsNotMade (is_there self.old parent) (self.old.last == 18446744073709551615) (kind_refusal kind)) }
        ensures unchanged { OnErr result (self.new ≡ self.old) }
    {
        self.check(parent)?;
        if self.last == u64::MAX {
            return Err(TreeError::StampsSpent);
        }
        check_kind(self.alloc, kind)?;
        self.contexts.reserve(1)?;
        self.ring.make_room(self.links.len())?;
        let stamp = self.last + 1;
        let slot = self.links.add(parent.slot, stamp)?;
        self.ring.insert(parent.slot, slot);
        put_new(&mut self.contexts, slot as usize, self.alloc, kind);
        self.last = stamp;
        Ok(ContextId { slot, stamp })
    }

    /// Gives up the chunks of a context, and all its descendants.
    pub fn reset(&mut self, id: ContextId) -> Result<(), TreeError>
        ensures there { OnOk result (is_there self.old id ≡ true) }
        ensures space { OnOk result (self.new ≡ reset self.old id) }
        ensures refused { IfErr result (IsGone id self.old) }
        ensures unchanged { OnErr result (self.new ≡ self.old) }
    {
        self.check(id)?;
        self.prune(id);
        let context = &mut self.contexts[id.slot as usize];
        let before = context.held();
        context.reset();
        self.held = self.held - before + context.held();
        Ok(())
    }

    /// Deletes the descendants of a context that is there.
    fn prune(&mut self, id: ContextId)
        requires { is_there self.old id ≡ true }
        ensures there { is_there self.new id ≡ true }
        ensures same { context_at self.new id ≡ context_at self.old id }
        ensures gone { self.new ≡ without_slots self.old (is_under self.old.links id.slot) }
    {
        self.links.is_forest();
        let given = give_up_below(
            &mut self.contexts,
            &self.links,
            &self.ring,
            id.slot,
            self.alloc,
        );
        let next = self.links.prune(&self.ring, id.slot);
        self.ring.skip(id.slot, next);
        self.held -= given;
    }

    /// Deletes a context and all its descendants. Refuses `RootKept`.
    pub fn delete(&mut self, id: ContextId) -> Result<(), TreeError>
        ensures there { OnOk result ((is_there self.old id ≡ true) × (0 < id.slot)) }
        ensures space { OnOk result (self.new ≡ deleted self.old id) }
        ensures given { OnOk result (held_by_all self.new.contexts + held_below self.old id ≡ held_by_all self.old.contexts) }
        ensures refused { IfErr result (IsKept (is_there self.old id) id.slot) }
        ensures unchanged { OnErr result (self.new ≡ self.old) }
    {
        self.check(id)?;
        if id.slot == ROOT {
            return Err(TreeError::RootKept);
        }
        self.links.is_forest();
        self.ring.is_ring();
        let given_up = give_up_with(
            &mut self.contexts,
            &self.links,
            &self.ring,
            id.slot,
            self.alloc,
        );
        let next = self.links.cut(&self.ring, id.slot);
        let first = self.ring.before(id.slot);
        self.ring.skip(first, next);
        self.held -= given_up;
        Ok(())
    }

    /// The bytes of a context's blocks.
    pub fn held(&self, id: ContextId) -> Result<u64, TreeError>
        ensures { Answers id self.now (held_by (context_at self.now id)) result }
    {
        self.check(id)?;
        Ok(self.contexts[id.slot as usize].held())
    }

    /// The bytes of the blocks of a context and of all its descendants.
    pub fn held_below(&self, id: ContextId) -> Result<u128, TreeError>
        ensures bound { IfOk result (λ held. held < 2 ^ 63) }
        ensures value { Answers id self.now (held_below self.now id) result }
    {
        self.check(id)?;
        self.is_bounded();
        let sum = self.sum_from(id.slot);
        Ok(u128::from(sum))
    }

    /// The bytes of the blocks of the context in a slot and of all its descendants. Those of the root are all.
    fn sum_from(&self, slot: u32) -> u64
        requires { IsTrue (is_some (get_or self.now.links slot None)) }
        ensures { result ≡ held_from self.now.links slot 0 self.now.contexts }
    {
        self.links.is_forest();
        if slot == ROOT {
            return self.held;
        }
        sum_below(&self.links, &self.ring, &self.contexts, slot)
    }

    /// How many bytes of blocks `alloc` of `n` bytes would take now: 0 where it would be refused for what it asks.
    pub fn growth_for(&self, id: ContextId, n: u32) -> Result<u64, TreeError>
        ensures { Answers id self.now (growth_of (context_at self.now id) n) result }
    {
        self.check(id)?;
        Ok(self.contexts[id.slot as usize].growth_for(n))
    }

    /// Takes a chunk of a context that holds `bytes`, as `ChunkContext::alloc`.
    pub fn alloc(&mut self, id: ContextId, bytes: &[u8]) -> Result<ChunkName, TreeError>
        ensures taken { IfOk result (λ name. OnContext id self.old self.new (Allocates (length bytes.now) bytes.now name)) }
        ensures refused { IfErr result (IsRefusedOn id self.old (RefusesAlloc (length bytes.now))) }
        ensures unchanged { OnErr result (self.new ≡ self.old) }
    {
        self.check(id)?;
        let growth = growth_for(&self.contexts[id.slot as usize], bytes.len());
        check_growth(self.held, growth)?;
        let name = self.contexts[id.slot as usize].alloc(bytes)?;
        self.held += growth;
        Ok(name)
    }

    /// Takes a chunk of `n` zeros, as `ChunkContext::alloc_zeroed`.
    pub fn alloc_zeroed(&mut self, id: ContextId, n: u32) -> Result<ChunkName, TreeError>
        ensures taken { IfOk result (λ name. OnContext id self.old self.new (Allocates n (zeros n) name)) }
        ensures refused { IfErr result (IsRefusedOn id self.old (RefusesAlloc n)) }
        ensures unchanged { OnErr result (self.new ≡ self.old) }
    {
        self.check(id)?;
        let growth = growth_for(&self.contexts[id.slot as usize], n as usize);
        check_growth(self.held, growth)?;
        let name = self.contexts[id.slot as usize].alloc_zeroed(n)?;
        self.held += growth;
        Ok(name)
    }

    /// The bytes of a live chunk of a context.
    pub fn get(&self, id: ContextId, name: ChunkName) -> Result<&[u8], TreeError>
        requires { is_there self.now id ≡ true → IsTrue (has_chunk (context_at self.now id) name) }
        ensures there { OnOk result (is_there self.now id ≡ true) }
        ensures bytes { IfOk result (λ bytes. bytes.now ≡ chunk_bytes (context_at self.now id) name) }
        ensures len { IfOk result (λ bytes. length bytes.now ≡ name.len) }
        ensures refused { IfErr result (IsGone id self.now) }
    {
        self.check(id)?;
        Ok(self.contexts[id.slot as usize].get(name))
    }

    /// Gives up a live chunk of a context, as `ChunkContext::free`.
    pub fn free(&mut self, id: ContextId, name: ChunkName) -> Result<(), TreeError>
        requires { is_there self.old id ≡ true → IsTrue (has_chunk (context_at self.old id) name) }
        ensures freed { OnOk result (OnContext id self.old self.new (Frees name)) }
        ensures refused { IfErr result (IsRefusedOn id self.old RefusesFree) }
        ensures unchanged { OnErr result (self.new ≡ self.old) }
    {
        self.check(id)?;
        let context = &mut self.contexts[id.slot as usize];
        let before = context.held();
        context.free(name)?;
        self.held = self.held - before + context.held();
        Ok(())
    }

    /// Makes a live chunk of a context `n` bytes long, as `ChunkContext::resize`.
    pub fn resize(&mut self, id: ContextId, name: ChunkName, n: u32) -> Result<ChunkName, TreeError>
        requires { is_there self.old id ≡ true → IsTrue (has_chunk (context_at self.old id) name) }
        ensures resized { IfOk result (λ new. OnContext id self.old self.new (Resizes name n new)) }
        ensures refused { IfErr result (IsRefusedOn id self.old (RefusesResize name n)) }
        ensures unchanged { OnErr result (self.new ≡ self.old) }
    {
        self.check(id)?;
        let growth = self.contexts[id.slot as usize].growth_to(name, n);
        check_growth(self.held, growth)?;
        let context = &mut self.contexts[id.slot as usize];
        let before = context.held();
        let resized = context.resize(name, n)?;
        self.held = self.held - before + context.held();
        Ok(resized)
    }
}

impl Tree {
    ghost use Rattle.std.specs.Borrow.{sem};
    ghost use Rattle.context_tree.specs.TreeLends.{lends_chunk};

    /// Lends the bytes of a live chunk of a context, to be changed: `bytes_mut` of an id that is looked at first.
    ///
    /// Its contract tells the bytes that are lent, and not what the tree is when they were written, or after a refusal. That of
    /// `write` does, and so does that of `bytes_mut`, which refuses nothing.
    pub fn get_mut(&mut self, id: ContextId, name: ChunkName) -> Result<&mut [u8], TreeError>
        requires { is_there self.old id ≡ true → IsTrue (has_chunk (context_at self.old id) name) }
        ensures there { OnOk result (is_there self.old id ≡ true) }
        ensures bytes { IfOk result (λ bytes. bytes.now ≡ chunk_bytes (context_at self.old id) name) }
        ensures len { IfOk result (λ bytes. length bytes.now ≡ name.len) }
        ensures refused { IfErr result (IsGone id self.old) }
    {
        self.check(id)?;
        Ok(self.bytes_mut(id, name))
    }

    /// Writes bytes into a live chunk of a context, from one place of it on. The rest of the chunk stays as it was.
    pub fn write(
        &mut self,
        id: ContextId,
        name: ChunkName,
        at: u32,
        bytes: &[u8],
    ) -> Result<(), TreeError>
        requires chunk { is_there self.old id ≡ true → IsTrue (has_chunk (context_at self.old id) name) }
        requires inside { at + length bytes.now ≤ name.len }
        ensures written { OnOk result (OnContext id self.old self.new (Writes name at bytes.now)) }
        ensures refused { IfErr result (IsGone id self.old) }
        ensures unchanged { OnErr result (self.new ≡ self.old) }
    {
        self.check(id)?;
        self.is_whole();
        let chunk = self.bytes_mut(id, name);
        overwrite(chunk, at as usize, bytes);
        Ok(())
    }

    /// Lends the bytes of a live chunk of a context that is there, to be changed. All other chunks keep theirs.
    pub fn bytes_mut(&mut self, id: ContextId, name: ChunkName) -> &mut [u8]
        requires there { is_there self.old id ≡ true }
        requires chunk { IsTrue (has_chunk (context_at self.old id) name) }
        ensures* writes_back { sem 𝓛 (lends_chunk self.entry id name result) }
        ensures bytes { result.now ≡ chunk_bytes (context_at self.old id) name }
        ensures len { length result.now ≡ name.len }
        ensures lives { (ws : List ℕ) → IsTrue (has_chunk (with_bytes (context_at self.old id) (place_of name) ws) name) }
        ensures holds { (ws : List ℕ) → length ws ≡ name.len → chunk_bytes (with_bytes (context_at self.old id) (place_of name) ws) name
            ≡ ws }
        ensures keeps { (ws : List ℕ)
            → KeepsOthers (chunks_of (context_at self.old id)) (chunks_of (with_bytes (context_at self.old id) (place_of name) ws)) name
            name }
    {
        let context = self.contexts.get_mut(id.slot as usize).unwrap();
        context.get_mut(name)
    }
}
