//! The pages of tapes: which are free, and how many there are.
ghost use Rattle.std.specs.Prelude.{◌≡◌, ◌<◌, ◌^◌, ◌∷◌, ◌++◌, [], IfOk, OnErr, length};
ghost use Rattle.spill_tapes.specs.Pages.{IsPool, HavePages, TakesPages, IsFresh, given_back};

use crate::limits::MAX_PAGES;
use std::alloc::{AllocError, Global};
use std::collections::VecDeque;
use std::marker::Model;

/// The pages that are free, and how many page numbers were ever given out.
#[derive(Drop)]
pub(crate) struct PagePool {
    free: VecDeque<u64>,
    count: u64,
}

impl Model for PagePool {
    ghost use Rattle.spill_tapes.specs.Pages.{PoolState};
    ghost use Rattle.std.specs.VecDeque.{deque_capacity};

    ghost Value = { PoolState };

    ghost view = { λ p. record { free = p.free.items; count = p.count; room = deque_capacity p.free } };
}

impl PagePool {
    /// No pages.
    pub(crate) fn new(alloc: Global) -> PagePool
        ensures free { result.free ≡ [] }
        ensures count { result.count ≡ 0 }
        ensures pool { IsPool result }
    {
        PagePool {
            free: VecDeque::new(alloc),
            count: 0,
        }
    }

    /// Gives a free page to the end of `pages`, or else a new one.
    #[tactic(auto, using(crate::proofs::PoolLaws::takes_more, crate::proofs::PoolLaws::takes_none))]
    pub(crate) fn take(&mut self, pages: &mut VecDeque<u64>) -> Result<u64, AllocError>
        requires pages { HavePages self.old pages.old.items }
        ensures pages { TakesPages self.old pages.old.items self.new pages.new.items }
        ensures small { IfOk result (λ page. page < 2 ^ 49) }
        ensures taken { IfOk result (λ page. pages.new.items ≡ pages.old.items ++ page ∷ []) }
        ensures fresh { IfOk result (IsFresh self.old) }
        ensures refused { OnErr result (pages.new.items ≡ pages.old.items) }
    {
        pages.reserve(1)?;
        let page = self.next()?;
        pages.push_back_reserved(page);
        Ok(page)
    }

    /// Gives out the first page that is free, or else a new one.
    #[tactic(auto, using(crate::proofs::PoolLaws::fresh_first, crate::proofs::PoolLaws::fresh_new, crate::proofs::PoolLaws::small_first))]
    fn next(&mut self) -> Result<u64, AllocError>
        requires pages { HavePages self.old [] }
        ensures taken { IfOk result (λ page. TakesPages self.old [] self.new (page ∷ [])) }
        ensures small { IfOk result (λ page. page < 2 ^ 49) }
        ensures fresh { IfOk result (IsFresh self.old) }
        ensures refused { OnErr result (TakesPages self.old [] self.new []) }
    {
        if let Some(page) = self.free.pop_front() {
            return Ok(page);
        }
        if self.count == MAX_PAGES {
            return Err(AllocError);
        }
        self.free.reserve(self.count as usize + 1)?;
        self.count += 1;
        Ok(self.count - 1)
    }

    /// Takes back a page.
    pub(crate) fn give_back(&mut self, page: u64)
        requires pool { IsPool self.old }
        requires less { length self.old.free < self.old.count }
        ensures { self.new ≡ given_back self.old page }
    {
        self.free.push_back_reserved(page);
    }

    /// Takes back all of these pages.
    pub(crate) fn give_back_all(&mut self, pages: &mut VecDeque<u64>)
        requires pages { HavePages self.old pages.old.items }
        ensures pool { IsPool self.new }
        ensures free { self.new.free ≡ self.old.free ++ pages.old.items }
        ensures count { self.new.count ≡ self.old.count }
        ensures none { pages.new.items ≡ [] }
    {
        self.free.append(pages).unwrap();
    }
}
