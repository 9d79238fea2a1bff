//! Which contexts of a tree there are, and below which other each was made.
ghost use Rattle.std.specs.Prelude.{◌≡◌, ◌≢◌, ◌<◌, ◌≤◌, ◌+◌, ◌==◌, ◌||◌, ◌-◌, ◌^◌, ℕ, true, false, Some, None, [], ◌∷◌, IfOk, OnErr, OnOk};
ghost use Rattle.std.specs.Prelude.{IsTrue, MatchBool, length, get_or, is_some, slice_set, cond, ◌++◌};
ghost use Rattle.context_tree.specs.Links.{parent_of, stamp_of, is_below, is_under, cleared, placed, IsForest, IsFull, IsMadeBelow};
ghost use Rattle.context_tree.specs.Links.{AreFree};
ghost use Rattle.context_tree.specs.Preorders.{stamp_in, IsOrdered, IsPast};

use crate::ring::Ring;
use chunk_layout::BlockMarks;
use smallvec::SmallVec;
use std::alloc::{AllocError, Global};
use std::marker::Model;

/// The name of a context in its tree: the slot that it is in, and the stamp that it was made with.
#[derive(Clone, Copy, Debug, PartialEq, Eq)]
pub struct ContextId {
    /// The number of its slot, which a later context may be in when this one is gone.
    pub slot: u32,
    /// What it was made with: a number that no other context of the tree has, before or after it.
    pub stamp: u64,
}

/// What a tree keeps of a context beside the context itself.
#[derive(Clone, Copy)]
pub struct Link {
    /// The stamp that it was made with.
    pub stamp: u64,
    /// The slot of the context below which it was made, whose stamp is lower. The root has none.
    pub parent: Option<u32>,
}

/// The links of the contexts by their slots. The root is in slot 0. There is room in the value itself for the root and three more, as many
/// as a table of groups has.
#[derive(Drop)]
pub struct Links {
    links: SmallVec<Option<Link>, 4>,
    free: BlockMarks,
}

impl Model for Links {
    ghost use Rattle.std.specs.Prelude.{List, Option};
    ghost use Rattle.context_tree.specs.declared.links.Link.{Link};

    ghost Value = { List (Option Link) };

    ghost use Rattle.context_tree.specs.LinkFields.{links_of, AreFields};

    ghost view = { links_of };

    ghost invariant = { AreFields };
}

/// Makes room to mark a slot.
fn make_mark(free: &mut BlockMarks, slot: usize) -> Result<(), AllocError>
    requires { slot < 2 ^ 32 - 1 }
    ensures same { (k : ℕ) → get_or free.new k false ≡ get_or free.old k false }
    ensures long { length free.old ≤ length free.new }
    ensures room { OnOk result (slot < length free.new) }
{
    while free.len() <= slot {
        free.add()?;
    }
    Ok(())
}

/// The slot of the context below which the one in a slot was made.
fn parent(links: &[Option<Link>], slot: usize) -> Option<u32>
    ensures { result ≡ parent_of (get_or links.now slot None) }
{
    match links.get(slot) {
        Some(Some(link)) => link.parent,
        _ => None,
    }
}

/// The stamp of the context in a slot: 0 where there is none.
fn stamp(links: &[Option<Link>], slot: usize) -> u64
    ensures { result ≡ stamp_of (get_or links.now slot None) }
{
    match links.get(slot) {
        Some(Some(link)) => link.stamp,
        _ => 0,
    }
}

/// Empties a slot, so that another context can be in it.
fn empty(links: &mut [Option<Link>], free: &mut BlockMarks, slot: u32)
    requires there { slot < length links.old }
    requires room { slot < length free.old }
    ensures links { links.new ≡ slice_set links.old slot None }
    ensures long { length free.new ≡ length free.old }
    ensures marked { (k : ℕ) → get_or free.new k false ≡ cond (k == slot) true (get_or free.old k false) }
{
    links[slot as usize] = None;
    free.mark(slot);
}

/// Whether a slot is not the root's, and its context has a later stamp than this.
fn is_later(links: &[Option<Link>], slot: u32, oldest: u64) -> bool
    ensures { MatchBool result ((slot ≢ 0) × (oldest < stamp_in links.now slot)) (slot ≢ 0 → stamp_in links.now slot ≤ oldest) }
{
    slot != 0 && stamp(links, slot as usize) > oldest
}

/// Empties the slots of all descendants of a context, and answers which slot of the ring comes behind them.
fn prune(links: &mut [Option<Link>], free: &mut BlockMarks, ring: &Ring, above: u32) -> u32
    requires forest { IsForest links.old }
    requires ordered { IsOrdered links.old ring.now.slots }
    requires free { AreFree links.old free.old }
    requires there { IsTrue (is_some (get_or links.old above None)) }
    ensures links { links.new ≡ cleared (is_under links.old above) None 0 links.old }
    ensures free { AreFree links.new free.new }
    ensures past { IsPast links.old ring.now.slots above result }
{
    ring.is_ring();
    let oldest = stamp(links, above as usize);
    let mut at = ring.after(above);
    while is_later(links, at, oldest) {
        let next = ring.after(at);
        empty(links, free, at);
        at = next;
    }
    at
}

/// Empties the slots of a context and of all its descendants, and answers which slot of the ring comes behind them.
fn cut(links: &mut [Option<Link>], free: &mut BlockMarks, ring: &Ring, slot: u32) -> u32
    requires forest { IsForest links.old }
    requires ordered { IsOrdered links.old ring.now.slots }
    requires free { AreFree links.old free.old }
    requires there { IsTrue (is_some (get_or links.old slot None)) }
    requires below { 0 < slot }
    ensures links { links.new ≡ cleared (is_below links.old slot) None 0 links.old }
    ensures free { AreFree links.new free.new }
    ensures past { IsPast links.old ring.now.slots slot result }
{
    let next = prune(links, free, ring, slot);
    empty(links, free, slot);
    next
}

impl Links {
    /// The link of a root, in slot 0.
    pub fn new(alloc: Global, stamp: u64) -> Links
        ensures { result ≡ Some (record { stamp = stamp; parent = None }) ∷ [] }
    {
        let mut links = SmallVec::new(alloc);
        links.push_reserved(Some(Link {
            stamp,
            parent: None,
        }));
        Links {
            links,
            free: BlockMarks::new(alloc),
        }
    }

    /// How many slots there are.
    pub fn len(&self) -> usize
        ensures value { result ≡ length self.now }
        ensures few { result < 2 ^ 32 }
    {
        self.links.len()
    }

    /// A law: the links are a forest of one tree.
    pub fn is_forest(&self)
        ensures { IsForest self.now }
    {
        let _forest = &self.links;
    }

    /// The link of the context in a slot, if there is one.
    pub fn get(&self, slot: u32) -> Option<Link>
        ensures { result ≡ get_or self.now slot None }
    {
        match self.links.get(slot as usize) {
            Some(link) => *link,
            None => None,
        }
    }

    /// The slot of the context below which the one in a slot was made.
    pub fn parent(&self, slot: u32) -> Option<u32>
        ensures { result ≡ parent_of (get_or self.now slot None) }
    {
        parent(&self.links, slot as usize)
    }

    /// The stamp of the context in a slot: 0 where there is none.
    pub fn stamp(&self, slot: u32) -> u64
        ensures { result ≡ stamp_in self.now slot }
    {
        stamp(&self.links, slot as usize)
    }

    /// Whether a slot is not the root's, and its context has a later stamp than this.
    pub fn is_later(&self, slot: u32, oldest: u64) -> bool
        ensures { MatchBool result ((slot ≢ 0) × (oldest < stamp_in self.now slot)) (slot ≢ 0 → stamp_in self.now slot ≤ oldest) }
    {
        is_later(&self.links, slot, oldest)
    }

    /// Puts a link below that in a slot into another slot, which is free, and answers which. A new slot is made only where
    /// none is free.
    pub fn add(&mut self, parent: u32, stamp: u64) -> Result<u32, AllocError>
        requires there { IsTrue (is_some (get_or self.old parent None)) }
        requires later { stamp_of (get_or self.old parent None) < stamp }
        ensures low { IfOk result (λ slot. slot ≤ length self.old) }
        ensures fresh { IfOk result (λ slot. get_or self.old slot None ≡ None) }
        ensures needed { IfOk result (λ slot. slot ≡ length self.old → IsFull self.old) }
        ensures added { IfOk result (λ slot. self.new ≡ placed self.old slot (Some (record { stamp = stamp; parent = Some parent }))) }
        ensures unchanged { OnErr result (self.new ≡ self.old) }
    {
        let link = Link {
            stamp,
            parent: Some(parent),
        };
        match self.free.first() {
            Some(slot) => {
                self.free.unmark(slot);
                self.links[slot as usize] = Some(link);
                Ok(slot)
            }
            None => self.push(link),
        }
    }

    /// Puts a link into a new slot, and answers which.
    fn push(&mut self, link: Link) -> Result<u32, AllocError>
        requires below { IsMadeBelow self.old (length self.old) link.stamp link.parent }
        requires full { IsFull self.old }
        ensures slot { IfOk result (λ slot. slot ≡ length self.old) }
        ensures added { IfOk result (λ slot. self.new ≡ placed self.old slot (Some link)) }
        ensures unchanged { OnErr result (self.new ≡ self.old) }
    {
        let slot = self.links.len();
        if slot >= u32::MAX as usize {
            return Err(AllocError);
        }
        self.links.reserve(1)?;
        make_mark(&mut self.free, slot)?;
        self.links.push_reserved(Some(link));
        Ok(slot as u32)
    }

    /// Empties the slots of all descendants of a context, and answers which slot of the ring comes behind them.
    pub fn prune(&mut self, ring: &Ring, above: u32) -> u32
        requires ordered { IsOrdered self.old ring.now.slots }
        requires there { IsTrue (is_some (get_or self.old above None)) }
        ensures links { self.new ≡ cleared (is_under self.old above) None 0 self.old }
        ensures past { IsPast self.old ring.now.slots above result }
    {
        prune(&mut self.links, &mut self.free, ring, above)
    }

    /// Empties the slots of a context and of all its descendants, and answers which slot of the ring comes behind them.
    pub fn cut(&mut self, ring: &Ring, slot: u32) -> u32
        requires ordered { IsOrdered self.old ring.now.slots }
        requires there { IsTrue (is_some (get_or self.old slot None)) }
        requires below { 0 < slot }
        ensures links { self.new ≡ cleared (is_below self.old slot) None 0 self.old }
        ensures past { IsPast self.old ring.now.slots slot result }
    {
        cut(&mut self.links, &mut self.free, ring, slot)
    }
}
