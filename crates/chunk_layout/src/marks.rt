//! Numbers of blocks, of which some are marked.
ghost use Rattle.std.specs.Prelude.{◌≡◌, ◌+◌, ◌-◌, ◌<◌, ◌==◌, ◌^◌, ℕ, cond, true, false, [], IfSome, IfNone, OnOk, OnErr, length, get_or};
ghost use Rattle.chunk_layout.specs.Marks.{IsArranged};

use std::alloc::{AllocError, Global};
use std::marker::Model;

/// Marks on the numbers below a bound. Each call takes constant time, `add` on average; `add` alone takes memory.
///
/// The marked numbers stand before the others in a list of all, and each number knows its place there. (P. Briggs and
/// L. Torczon, An efficient representation for sparse sets, 1993.)
#[derive(Drop)]
pub struct BlockMarks {
    order: Vec<u32>,
    places: Vec<u32>,
    count: usize,
}

impl Model for BlockMarks {
    ghost use Rattle.std.specs.Prelude.{List, Bool};

    ghost Value = { List Bool };

    ghost use Rattle.chunk_layout.specs.MarkFields.{marks_of, AreFields};

    ghost view = { marks_of };

    ghost invariant = { AreFields };
}

/// Exchanges the numbers at two places of the list.
fn exchange(order: &mut Vec<u32>, places: &mut Vec<u32>, a: usize, b: usize)
    requires arranged { IsArranged order.old.items places.old.items }
    requires a_there { a < length order.old.items }
    requires b_there { b < length order.old.items }
    ensures arranged { IsArranged order.new.items places.new.items }
    ensures long { length order.new.items ≡ length order.old.items }
    ensures moved { (k : ℕ) → get_or places.new.items k 0
        ≡ cond (k == get_or order.old.items a 0) b (cond (k == get_or order.old.items b 0) a (get_or places.old.items k 0)) }
{
    let first = order[a];
    let second = order[b];
    order[a] = second;
    order[b] = first;
    places[second as usize] = a as u32;
    places[first as usize] = b as u32;
}

impl BlockMarks {
    /// Makes marks on no number.
    pub fn new(alloc: Global) -> BlockMarks
        ensures { result ≡ [] }
    {
        BlockMarks {
            order: Vec::new(alloc),
            places: Vec::new(alloc),
            count: 0,
        }
    }

    /// How many numbers there are.
    pub fn len(&self) -> usize
        ensures { result ≡ length self.now }
    {
        self.order.len()
    }

    /// Adds a number after the others, without a mark. The only error is out of memory.
    pub fn add(&mut self) -> Result<(), AllocError>
        requires { length self.old < 2 ^ 32 - 1 }
        ensures added { OnOk result (length self.new ≡ length self.old + 1) }
        ensures refused { OnErr result (length self.new ≡ length self.old) }
        ensures same { (k : ℕ) → get_or self.new k false ≡ get_or self.old k false }
    {
        let number = self.order.len() as u32;
        self.order.reserve(1)?;
        self.places.push(number)?;
        self.order.push(number)?;
        Ok(())
    }

    /// Marks a number.
    pub fn mark(&mut self, number: u32)
        requires { number < length self.old }
        ensures long { length self.new ≡ length self.old }
        ensures marked { (k : ℕ) → get_or self.new k false ≡ cond (k == number) true (get_or self.old k false) }
    {
        let place = self.places[number as usize] as usize;
        if place < self.count {
            return;
        }
        exchange(&mut self.order, &mut self.places, place, self.count);
        self.count += 1;
    }

    /// Takes the mark from a number.
    pub fn unmark(&mut self, number: u32)
        requires { number < length self.old }
        ensures long { length self.new ≡ length self.old }
        ensures marked { (k : ℕ) → get_or self.new k false ≡ cond (k == number) false (get_or self.old k false) }
    {
        let place = self.places[number as usize] as usize;
        if place >= self.count {
            return;
        }
        self.count -= 1;
        exchange(&mut self.order, &mut self.places, place, self.count);
    }

    /// Whether a number is marked.
    pub fn has(&self, number: u32) -> bool
        ensures { result ≡ get_or self.now number false }
    {
        match self.places.get(number as usize) {
            Some(place) => (*place as usize) < self.count,
            None => false,
        }
    }

    /// A number that is marked, if there is one.
    pub fn first(&self) -> Option<u32>
        ensures some { IfSome result (λ number. (number < length self.now) × (get_or self.now number false ≡ true)) }
        ensures none { IfNone result ((k : ℕ) → get_or self.now k false ≡ false) }
    {
        if self.count == 0 {
            return None;
        }
        Some(self.order[self.count - 1])
    }

    /// Takes the marks from all numbers.
    pub fn clear(&mut self)
        ensures long { length self.new ≡ length self.old }
        ensures none { (k : ℕ) → get_or self.new k false ≡ false }
    {
        self.count = 0;
    }
}
