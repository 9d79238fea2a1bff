//! The slots of the contexts of a tree in one order, in which a slot is put behind another or taken out in constant time.
ghost use Rattle.std.specs.Prelude.{◌≡◌, ◌<◌, ◌≤◌, ◌==◌, ◌-◌, ◌^◌, ℕ, List, [], ◌∷◌, ◌++◌, true, false, cond, OnOk, length};
ghost use Rattle.context_tree.specs.Rings.{after_at, before_at, head_or, is_in, IsBetween};

use smallvec::SmallVec;
use std::alloc::{AllocError, Global};
use std::marker::Model;

/// The neighbours of a slot in a ring.
#[derive(Clone, Copy, Default)]
pub struct Near {
    /// The slot after it: the root's after the last one.
    pub after: u32,
    /// The slot before it.
    pub before: u32,
}

/// Slots in a ring, which begins at the root's. Each call takes constant time, `make_room` on average; that one alone takes
/// memory.
///
/// A slot knows the one after it and the one before it, as a context of PostgreSQL knows its neighbours among its siblings.
#[derive(Drop)]
pub struct Ring {
    near: SmallVec<Near, 4>,
}

impl Model for Ring {
    ghost use Rattle.context_tree.specs.Rings.{RingState};
    ghost use Rattle.context_tree.specs.RingFields.{ring_of, AreFields};

    ghost Value = { RingState };

    ghost view = { ring_of };

    ghost invariant = { AreFields };
}

/// The slot after one.
fn after(near: &[Near], slot: u32) -> u32
    ensures { result ≡ after_at near.now slot }
{
    match near.get(slot as usize) {
        Some(near) => near.after,
        None => 0,
    }
}

/// The slot before one.
fn before(near: &[Near], slot: u32) -> u32
    ensures { result ≡ before_at near.now slot }
{
    match near.get(slot as usize) {
        Some(near) => near.before,
        None => 0,
    }
}

/// Lets one slot come right after another.
fn join(near: &mut [Near], slot: u32, next: u32)
    requires slot { slot < length near.old }
    requires next { next < length near.old }
    ensures long { length near.new ≡ length near.old }
    ensures after { (k : ℕ) → after_at near.new k ≡ cond (k == slot) next (after_at near.old k) }
    ensures before { (k : ℕ) → before_at near.new k ≡ cond (k == next) slot (before_at near.old k) }
{
    let here = near[slot as usize];
    near[slot as usize] = Near {
        after: next,
        before: here.before,
    };
    let there = near[next as usize];
    near[next as usize] = Near {
        after: there.after,
        before: slot,
    };
}

/// Puts a slot between another and the one after that.
fn put(near: &mut [Near], slot: u32, new: u32)
    requires slot { slot < length near.old }
    requires new { new < length near.old }
    requires next { after_at near.old slot < length near.old }
    ensures long { length near.new ≡ length near.old }
    ensures after { (k : ℕ) → after_at near.new k ≡ cond (k == slot) new (cond (k == new) (after_at near.old slot) (after_at near.old k)) }
    ensures before { (k : ℕ) → before_at near.new k
        ≡ cond (k == new) slot (cond (k == after_at near.old slot) new (before_at near.old k)) }
{
    let next = after(near, slot);
    join(near, new, next);
    join(near, slot, new);
}

impl Ring {
    /// The ring of the root's slot alone.
    pub fn new(alloc: Global) -> Ring
        ensures slots { result.slots ≡ 0 ∷ [] }
        ensures room { result.room ≡ 1 }
    {
        let mut near = SmallVec::new(alloc);
        near.push_reserved(Near {
            after: 0,
            before: 0,
        });
        Ring { near }
    }

    /// A law: no slot is in the ring twice, and the root's is its first.
    pub fn is_ring(&self)
        ensures first { head_or self.now.slots 1 ≡ 0 }
        ensures low { (slot : ℕ) → is_in slot self.now.slots ≡ true → slot < self.now.room }
        ensures root { (front rest : List ℕ) (slot : ℕ) → self.now.slots ≡ front ++ slot ∷ rest → is_in 0 rest ≡ false }
    {
        let _ring = &self.near;
    }

    /// The slot after one of the ring.
    pub fn after(&self, slot: u32) -> u32
        ensures { (front rest : List ℕ) → self.now.slots ≡ front ++ slot ∷ rest → result ≡ head_or rest 0 }
    {
        after(&self.near, slot)
    }

    /// The slot before one of the ring that is not its first.
    pub fn before(&self, slot: u32) -> u32
        ensures { (front rest : List ℕ) (first : ℕ) → self.now.slots ≡ front ++ first ∷ slot ∷ rest → result ≡ first }
    {
        before(&self.near, slot)
    }

    /// Makes room for a slot, where there is room for all below it.
    pub fn make_room(&mut self, slot: usize) -> Result<(), AllocError>
        requires { slot ≤ self.old.room }
        ensures same { self.new.slots ≡ self.old.slots }
        ensures more { self.old.room ≤ self.new.room }
        ensures room { OnOk result (slot < self.new.room) }
    {
        if self.near.len() <= slot {
            self.near.push(Near {
                after: 0,
                before: 0,
            })?;
        }
        Ok(())
    }

    /// Puts a slot behind one of the ring.
    pub fn insert(&mut self, slot: u32, new: u32)
        requires there { is_in slot self.old.slots ≡ true }
        requires new { is_in new self.old.slots ≡ false }
        requires room { new < self.old.room }
        ensures slots { (front rest : List ℕ) → self.old.slots ≡ front ++ slot ∷ rest → self.new.slots ≡ front ++ slot ∷ new ∷ rest }
        ensures room { self.new.room ≡ self.old.room }
    {
        put(&mut self.near, slot, new);
    }

    /// Takes out what stands between two slots of the ring, the second of which may be the first of it again.
    pub fn skip(&mut self, slot: u32, next: u32)
        requires { IsBetween self.old.slots slot next }
        ensures slots { (front between rest : List ℕ) → self.old.slots ≡ front ++ slot ∷ (between ++ rest) → next ≡ head_or rest 0
            → self.new.slots ≡ front ++ slot ∷ rest }
        ensures room { self.new.room ≡ self.old.room }
    {
        join(&mut self.near, slot, next);
    }
}
