//! What is held of one origin.

ghost use Rattle.std.specs.Prelude.{◌≡◌, ◌≢◌, ◌<◌, ◌≤◌, ◌+◌, ◌*◌, ◌||◌, ℕ, List, map, nat_le, IfOk, IfErr, OnOk, OnErr};
ghost use Rattle.std.specs.Option.{is_some, option_copied};
ghost use Rattle.std.specs.BTreeMap.{insert_entry};
ghost use Rattle.std.specs.List.{AllByRecursion};
ghost use Rattle.std.specs.List.Sorted.{IsStrictlySortedBy};
ghost use Rattle.std.specs.Ordering.{nat_cmp};
ghost use Rattle.grouping_model.specs.declared.limits.TheConstants.{LAST_NUMBER, MAX_ROWS};
ghost use Rattle.grouping_model.specs.declared.delivered.Delivered.TheVariants.{Early, Known};
ghost use Rattle.having_filter.specs.Meaning.{meaning};
ghost use Rattle.packed_rows.specs.Columns.{kinds};
ghost use Rattle.batch_reader.specs.Rows.{ArePackedRows};
ghost use Rattle.hash_agg.specs.Counting.{AreCounted};
ghost use Rattle.hash_agg.specs.Inputs.{Packed, brought};
ghost use Rattle.hash_agg.specs.Ran.{Ran, ended};
ghost use Rattle.origin_prefix.specs.Errors.{batch_ended, no_memory};
ghost use Rattle.origin_prefix.specs.Parts.{Part, empty, rows_at, is_nothing, behind, following, rows_following, aggregations_with};
ghost use Rattle.origin_prefix.specs.Parts.{aggregations_on, Delivery, DrainsWith, IsOpenWith, IsPartOf};
ghost use Rattle.origin_prefix.specs.declared.error.JoinError.TheVariants.{OriginDisagrees};
ghost use Rattle.spill_partitions.specs.declared.error.SpillError.TheVariants.{NoMemory};

use crate::early::{add_following, drop_first};
use crate::error::{JoinError, RefusedBatch};
use batch_reader::{Batch, PackedRows};
use grouping_model::Delivered;
use grouping_model::limits::MAX_ROWS;
use hash_agg::{Executor, Input, KeyHash, Means, Run, SpillError, TapeDisk, fold};
use having_filter::Query;
use std::alloc::{AllocError, Global};
use std::collections::BTreeMap;
use std::marker::Model;

/// What is held of one origin: its unbroken prefix, the groups of the prefix's rows, and the early batches.
#[derive(Drop)]
pub struct OriginPart {
    pub(crate) alloc: Global,
    pub(crate) prefix: u32,
    pub(crate) run: Run,
    pub(crate) early: BTreeMap<u32, PackedRows>,
}

impl Model for OriginPart {
    ghost use Rattle.origin_prefix.specs.Coding.{coded_part};
    ghost use Rattle.origin_prefix.specs.Parts.{Part};

    ghost Value = { Part };

    ghost coded = { coded_part };

    ghost view = { λ p. record { prefix = p.prefix; run = p.run; early = p.early.entries } };
}

/// The most rows that the batches 1 to a number have.
pub fn most_rows(number: u32) -> u64
    ensures { result ≡ number * MAX_ROWS }
{
    u64::from(number) * u64::from(MAX_ROWS)
}

/// The reply to a batch whose number is early already, with these rows.
fn known_again(kept: &PackedRows, batch: Batch) -> Result<Delivered, RefusedBatch>
    ensures known { IfOk result (λ reply. (reply ≡ Known) × (kept.now ≡ batch.rows)) }
    ensures other { IfErr result (λ e. (e.batch ≡ batch)
        × (e.why ≡ OriginDisagrees (Some batch.number)) × (kept.now ≢ batch.rows)) }
{
    if kept.same_rows(&batch.rows) {
        return Ok(Delivered::Known);
    }
    let number = Some(batch.number);
    let why = JoinError::OriginDisagrees { number };
    Err(RefusedBatch { batch, why })
}

/// The rows of the batch next to a prefix, if given, and of the early batches that follow without a gap. They come as inputs, with the last
/// of their numbers: the prefix, if there are none.
fn following_inputs<'a>(
    alloc: Global,
    prefix: u32,
    next: Option<&'a PackedRows>,
    early: &'a BTreeMap<u32, PackedRows>,
) -> Result<(Vec<Input<'a>>, u32), AllocError>
    requires within { prefix ≤ LAST_NUMBER }
    requires batches { AllByRecursion (λ (batch : ℕ × List (List ℕ)). batch.0 ≤ LAST_NUMBER)
        (behind prefix early.now.entries (option_copied next)) }
    ensures inputs { IfOk result (λ found. map brought found.0.items ≡ map Packed
        (rows_following prefix (behind prefix early.now.entries (option_copied next.entry)))) }
    ensures upto { IfOk result (λ found. found.1 ≡ prefix
        + following prefix (behind prefix early.now.entries (option_copied next.entry))) }
    ensures limit { IfOk result (λ found. found.1 ≤ LAST_NUMBER) }
{
    let mut inputs = Vec::new(alloc);
    let mut number = prefix;
    if let Some(rows) = next {
        inputs.push(Input::Packed(rows))?;
        number += 1;
    }
    let upto = add_following(early, number, &mut inputs)?;
    Ok((inputs, upto))
}

impl OriginPart {
    /// Nothing is held.
    pub fn empty(alloc: Global) -> OriginPart
        ensures { result ≡ empty }
    {
        OriginPart {
            alloc,
            prefix: 0,
            run: Run::new(alloc),
            early: BTreeMap::new(alloc),
        }
    }

    /// A part of the unbroken prefix, the groups of its rows, and the early batches.
    pub fn from_fields(
        alloc: Global,
        prefix: u32,
        run: Run,
        early: BTreeMap<u32, PackedRows>,
    ) -> OriginPart
        ensures { result ≡ record { prefix = prefix; run = run; early = early.entries } }
    {
        OriginPart {
            alloc,
            prefix,
            run,
            early,
        }
    }

    /// The unbroken prefix: the batches 1 to this number are folded.
    pub fn prefix(&self) -> u32
        ensures { result ≡ self.now.prefix }
    {
        self.prefix
    }

    /// The groups of the rows of the prefix.
    pub fn run(&self) -> &Run
        ensures { result.now ≡ self.now.run }
    {
        &self.run
    }

    /// The early batches, by ascending number.
    pub fn early(&self) -> &BTreeMap<u32, PackedRows>
        ensures { result.now.entries ≡ self.now.early }
    {
        &self.early
    }

    /// Whether nothing is held.
    pub fn is_empty(&self) -> bool
        ensures { result ≡ is_nothing self.now }
    {
        self.prefix == 0 && self.early.len() == 0
    }

    /// Whether a number is at most the prefix, or early.
    pub fn knows(&self, number: u32) -> bool
        ensures { result ≡ (nat_le number self.now.prefix || is_some (rows_at self.now.early number)) }
    {
        number <= self.prefix || self.early.contains_key(&number)
    }

    /// Folds the early batches that follow the prefix without a gap, after the rows of the batch next to it, if these are given.
    /// The cost of aggregating them is added to the work of the executor. A refusal changes nothing.
    pub(crate) fn drain<H: KeyHash + Copy, D: TapeDisk>(
        &mut self,
        query: &Query,
        next: Option<&PackedRows>,
        means: &Means<H>,
        disk: &mut D,
        executor: &mut Executor,
    ) -> Result<(), SpillError>
        requires may { IsOpenWith query.now self.old (option_copied next) }
        ensures drained { OnOk result (DrainsWith (D.honest disk.old) (meaning query.now) self.old (option_copied next.entry) self.new) }
        ensures same { OnErr result (self.new ≡ self.old) }
        // The disk is asked only where batches follow.
        ensures follows { IfErr result (λ error. error ≢ NoMemory →
            0 < following self.old.prefix (behind self.old.prefix self.old.early (option_copied next.entry))) }
        ensures ran { Ran D.TapeDisk H.hash_of query.now means.now (AreCounted (aggregations_with self.old (option_copied next.entry)))
            (ended result) disk.old executor.old disk.new executor.new }
    {
        let next_is_given = next.is_some();
        let (inputs, upto) = following_inputs(self.alloc, self.prefix, next, &self.early)?;
        if upto > self.prefix {
            fold(
                self.alloc,
                query,
                &mut self.run,
                most_rows(self.prefix),
                &inputs,
                means,
                disk,
                executor,
            )?;
        }
        drop(inputs);
        let mut count = upto - self.prefix;
        if next_is_given {
            count -= 1;
        }
        drop_first(&mut self.early, count);
        self.prefix = upto;
        Ok(())
    }

    /// Keeps a batch that is neither known nor next to the prefix.
    fn keep_early(&mut self, batch: Batch) -> Result<Delivered, RefusedBatch>
        ensures kept { IfOk result (λ reply. (reply ≡ Early) × (self.new ≡ record self.old {
          early
              = insert_entry nat_cmp self.old.early batch.number batch.rows;
        })) }
        ensures rising { IsStrictlySortedBy nat_cmp
            (map (λ (kept : ℕ × List (List ℕ)). kept.0) self.new.early) }
        ensures refused { IfErr result (λ e. (e.batch ≡ batch) × (e.why ≡ no_memory)
            × (self.new ≡ self.old)) }
    {
        let Batch {
            origin,
            number,
            rows,
        } = batch;
        match self.early.insert(number, rows) {
            Ok(_) => Ok(Delivered::Early),
            Err(failed) => {
                let (number, rows) = failed.value;
                let batch = Batch {
                    origin,
                    number,
                    rows,
                };
                let why = JoinError::from(AllocError);
                Err(RefusedBatch { batch, why })
            }
        }
    }

    /// Takes a batch of the origin, for a query over the batch's columns. A known number changes nothing. A batch next to the unbroken
    /// prefix is folded with the early ones that follow without a gap, by `means` and over a disk; any other is kept until then, without
    /// the disk. A refused batch is handed back and changes nothing: one whose number is early with other rows disagrees. A number within
    /// the prefix is known, whatever its rows. The cost of aggregating the folded batches is added to the work of the executor.
    pub fn deliver<H: KeyHash + Copy, D: TapeDisk>(
        &mut self,
        query: &Query,
        batch: Batch,
        means: &Means<H>,
        disk: &mut D,
        executor: &mut Executor,
    ) -> Result<Delivered, RefusedBatch>
        requires part { IsPartOf query.now self.old }
        requires number { (1 ≤ batch.number) × (batch.number ≤ LAST_NUMBER) }
        requires rows { ArePackedRows (kinds query.now.columns) batch.rows }
        ensures delivery { Delivery (D.honest disk.old) query.now self.old batch self.new result }
        ensures ran { Ran D.TapeDisk H.hash_of query.now means.now (AreCounted (aggregations_on self.old batch.number batch.rows))
            (batch_ended result) disk.old executor.old disk.new executor.new }
    {
        if batch.number <= self.prefix {
            return Ok(Delivered::Known);
        }
        if let Some(kept) = self.early.get(&batch.number) {
            return known_again(kept, batch);
        }
        if batch.number - 1 != self.prefix {
            return self.keep_early(batch);
        }
        match self.drain(query, Some(&batch.rows), means, disk, executor) {
            Ok(()) => Ok(Delivered::Folded {
                upto: self.prefix(),
            }),
            Err(error) => {
                let why = JoinError::from(error);
                Err(RefusedBatch { batch, why })
            }
        }
    }
}
