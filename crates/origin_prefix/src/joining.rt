//! Joining two parts of one origin.

ghost use Rattle.std.specs.Prelude.{◌≡◌, ◌≢◌, ◌≤◌, ◌+◌, ◌↔◌, ℕ, Option, IfOk, IfErr, IsSome, IsTrue};
ghost use Rattle.grouping_model.specs.declared.limits.TheConstants.{LAST_NUMBER};
ghost use Rattle.having_filter.specs.Meaning.{meaning};
ghost use Rattle.hash_agg.specs.Ran.{Ran, ended};
ghost use Rattle.origin_prefix.specs.Errors.{join_ended};
ghost use Rattle.origin_prefix.specs.Parts.{Batches, IsPartOf, Drains, rows_at};
ghost use Rattle.origin_prefix.specs.Joins.{PartsDisagree, DisagreeAt, Joining, JoinIsCounted, Unites, UniteIsCounted, Includes};
ghost use Rattle.origin_prefix.specs.Joins.{settled, KeepsGroups, StandAside, JoiningAside};
ghost use Rattle.origin_prefix.specs.declared.error.JoinError.TheVariants.{OriginDisagrees};
ghost use Rattle.spill_partitions.specs.declared.error.SpillError.TheVariants.{NoMemory};

use crate::early::{are_among, copy_above, first_difference, places, put_all};
use crate::error::JoinError;
use crate::part::OriginPart;
use hash_agg::{Executor, KeyHash, Means, Run, SpillError, TapeDisk};
use having_filter::Query;
use std::alloc::AllocError;
use std::collections::BTreeMap;

impl OriginPart {
    /// The longer prefix of two parts of one origin with its groups, and the early batches of both. Those that follow the prefix without a
    /// gap are folded; without any, the disk is not asked. Parts disagree if their prefixes are equal with different groups, or if they
    /// have different rows of one number after both prefixes. The cost of aggregating the folded batches is added to the work of the
    /// executor; a refusal adds nothing.
    pub fn join<H: KeyHash + Copy, D: TapeDisk>(
        &self,
        other: &OriginPart,
        query: &Query,
        means: &Means<H>,
        disk: &mut D,
        executor: &mut Executor,
    ) -> Result<OriginPart, JoinError>
        requires part { IsPartOf query.now self.now }
        requires other { IsPartOf query.now other.now }
        ensures joining { Joining (D.honest disk.old) query.now self.now other.now result }
        ensures ran { Ran D.TapeDisk H.hash_of query.now means.now (JoinIsCounted self.now other.now) (join_ended result) disk.old
            executor.old disk.new executor.new }
    {
        self.agree(other)?;
        if self.prefix < other.prefix {
            return Ok(other.united(self, query, means, disk, executor)?);
        }
        Ok(self.united(other, query, means, disk, executor)?)
    }

    /// What this part takes in to become what [`join`](OriginPart::join) gives of both: [`settle`](OriginPart::settle) moves it in. If only
    /// early batches are added, neither the groups nor the rows of this part are copied.
    pub fn join_aside<H: KeyHash + Copy, D: TapeDisk>(
        &self,
        other: &OriginPart,
        query: &Query,
        means: &Means<H>,
        disk: &mut D,
        executor: &mut Executor,
    ) -> Result<OriginPart, JoinError>
        requires part { IsPartOf query.now self.now }
        requires other { IsPartOf query.now other.now }
        ensures joining { JoiningAside (D.honest disk.old) query.now self.now other.now result }
        // Where this part keeps its prefix and its groups, there stand early batches alone. No number follows the greatest one.
        ensures aside { self.now.prefix ≢ LAST_NUMBER → KeepsGroups self.now other.now → IfOk result (StandAside self.now other.now) }
        ensures ran { Ran D.TapeDisk H.hash_of query.now means.now (JoinIsCounted self.now other.now) (join_ended result) disk.old
            executor.old disk.new executor.new }
    {
        if !self.keeps_groups(other) {
            return self.join(other, query, means, disk, executor);
        }
        self.agree(other)?;
        Ok(self.early_aside(other)?)
    }

    /// Replaces another part of the origin, for which [`join_aside`](OriginPart::join_aside) built this one. It takes no memory.
    pub fn settle(&mut self, own: OriginPart)
        ensures { self.new ≡ settled own self.old }
    {
        if self.prefix > 0 {
            return;
        }
        if self.early.len() == 0 {
            *self = own;
            return;
        }
        let OriginPart {
            alloc: _,
            prefix,
            run,
            early,
        } = own;
        put_all(&mut self.early, early);
        self.prefix = prefix;
        self.run = run;
    }

    /// Whether this part keeps its prefix and its groups if it is joined with another one.
    fn keeps_groups(&self, other: &OriginPart) -> bool
        ensures { IsTrue result ↔ ((self.now.prefix ≢ LAST_NUMBER) × KeepsGroups self.now other.now) }
    {
        if other.prefix > self.prefix {
            return false;
        }
        if self.prefix == u32::MAX {
            return false;
        }
        !other.early.contains_key(&(self.prefix + 1))
    }

    /// The early batches of both parts after the prefix of this one, with a place for each of its own.
    fn early_aside(&self, other: &OriginPart) -> Result<OriginPart, AllocError>
        ensures { IfOk result (StandAside self.now other.now) }
    {
        let mut early = places(self.alloc, &self.early)?;
        copy_above(self.alloc, &other.early, self.prefix, &mut early)?;
        Ok(OriginPart::from_fields(self.alloc, 0, Run::new(self.alloc), early))
    }

    /// Whether this part includes another one of the origin: then both agree, and joining them gives this part again, so a caller need not
    /// copy it. It does exactly if two things hold. The other's prefix is not longer, and if it is as long, it has the same groups. The
    /// other's early batches after this part's prefix are early here, too, with the same rows.
    pub fn includes(&self, other: &OriginPart) -> bool
        ensures { IsTrue result ↔ Includes self.now other.now }
    {
        if other.prefix > self.prefix {
            return false;
        }
        if other.prefix == self.prefix && !self.run.same_groups(&other.run) {
            return false;
        }
        are_among(self.prefix, &other.early, &self.early)
    }

    /// Refuses parts that disagree, and gives the first disagreement.
    fn agree(&self, other: &OriginPart) -> Result<(), JoinError>
        ensures agree { IfOk result (λ _. ¬ (PartsDisagree self.now other.now)) }
        ensures disagree { IfErr result (λ why. (number : Option ℕ) × (why ≡ OriginDisagrees number)
            × DisagreeAt number self.now other.now) }
    {
        if self.prefix == other.prefix && !self.run.same_groups(&other.run) {
            return Err(JoinError::OriginDisagrees { number: None });
        }
        let above = self.prefix.max(other.prefix);
        match first_difference(above, &self.early, &other.early) {
            None => Ok(()),
            Some(number) => Err(JoinError::OriginDisagrees {
                number: Some(number),
            }),
        }
    }

    /// What this part and one whose prefix is not longer give.
    fn united<H: KeyHash + Copy, D: TapeDisk>(
        &self,
        shorter: &OriginPart,
        query: &Query,
        means: &Means<H>,
        disk: &mut D,
        executor: &mut Executor,
    ) -> Result<OriginPart, SpillError>
        requires part { IsPartOf query.now self.now }
        requires other { IsPartOf query.now shorter.now }
        requires shorter { shorter.now.prefix ≤ self.now.prefix }
        ensures joins { IfOk result (λ part. (behind : Batches)
            × Unites self.now.prefix self.now shorter.now behind
            × Drains (D.honest disk.old) (meaning query.now) self.now.prefix self.now.run behind part) }
        ensures part { IfOk result (IsPartOf query.now) }
        ensures follows { IfErr result (λ error. error ≢ NoMemory → IsSome (rows_at shorter.now.early (self.now.prefix + 1))) }
        ensures ran { Ran D.TapeDisk H.hash_of query.now means.now (UniteIsCounted self.now shorter.now) (ended result) disk.old
            executor.old disk.new executor.new }
    {
        let mut early = BTreeMap::new(self.alloc);
        copy_above(self.alloc, &self.early, self.prefix, &mut early)?;
        copy_above(self.alloc, &shorter.early, self.prefix, &mut early)?;
        let mut part = OriginPart {
            alloc: self.alloc,
            prefix: self.prefix,
            run: self.run.try_clone(self.alloc)?,
            early,
        };
        part.drain(query, None, means, disk, executor)?;
        Ok(part)
    }
}
