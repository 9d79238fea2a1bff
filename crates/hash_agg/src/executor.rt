//! What aggregations one after another have in common.

ghost use Rattle.std.specs.Prelude.{◌≡◌};
ghost use Rattle.hash_agg.specs.Counting.{no_work};

use crate::idle::IdleTable;
use crate::work::Work;
use std::marker::Model;

/// What aggregations one after another have in common: the work that they took, and a table that each leaves to the next. PostgreSQL's hash
/// aggregation, too, resets one table for batch after batch (PostgreSQL 17, `src/backend/executor/nodeAgg.c`: hash aggregation in phases).
///
/// Between two aggregations the table has no group, and holds some 16 KiB for its first buckets. In a clause an executor is its work.
#[derive(Drop)]
pub struct Executor {
    pub(crate) work: Work,
    pub(crate) idle: Option<IdleTable>,
}

impl Model for Executor {
    ghost use Rattle.hash_agg.specs.declared.work.Work.{Work};

    ghost Value = { Work };

    ghost view = { λ e. e.work };
}

impl Executor {
    /// No work yet, and no table.
    pub fn new() -> Executor
        ensures { result ≡ no_work }
    {
        Executor::after(Work::none())
    }

    /// An executor that goes on counting from this work. It has no table yet.
    pub fn after(work: Work) -> Executor
        ensures { result ≡ work }
    {
        Executor { work, idle: None }
    }

    /// What its aggregations took.
    pub fn work(&self) -> Work
        ensures { result ≡ self.now }
    {
        self.work
    }

    /// What its aggregations took, when no more follow.
    pub fn into_work(self) -> Work
        ensures { result ≡ self }
    {
        self.work
    }

    /// Goes on counting from this work: from none, or from what it was before a call that is refused.
    pub fn count_from(&mut self, work: Work)
        ensures { self.new ≡ work }
    {
        self.work = work;
    }
}
