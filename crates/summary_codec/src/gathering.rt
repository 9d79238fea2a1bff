//! Early batches as they are read: those with few rows lie end to end.

ghost use Rattle.std.specs.Prelude.{◌≡◌, ◌≤◌, ◌++◌, ◌∷◌, ◌+◌, ◌-◌, ◌↔◌, ℕ, true, List, [], drop, flat_map, length, map, slice_get, take};
ghost use Rattle.std.specs.Prelude.{cond, IfOk, IsTrue, None, OnOk, Some};
ghost use Rattle.std.specs.Option.{is_some};
ghost use Rattle.std.specs.Ordering.{eq_by_cmp, nat_cmp};
ghost use Rattle.origin_prefix.specs.Joins.{either};
ghost use Rattle.origin_prefix.specs.Parts.{Batches, rows_at};
ghost use Rattle.summary_codec.specs.Gathered.{AreSomeOf, Rise};
ghost use Rattle.summary_codec.specs.Reading.{IsNext, MayFollow};

use batch_reader::PackedRows;
use std::alloc::{AllocError, Global};
use std::collections::BTreeMap;
use std::marker::Model;

/// The most batches that lie in one block of memory.
const MOST_TOGETHER: usize = 16;

/// The most bytes that a batch has which lies there, and its most rows.
const MOST_BYTES: usize = 128;

const MOST_ROWS: usize = 64;

/// Whether a batch has so few rows, and so few bytes, that it lies in one block with others.
fn is_small(rows: &PackedRows) -> bool {
    if rows.len() > MOST_ROWS {
        return false;
    }
    let mut bytes: usize = 0;
    for place in 0..rows.len() {
        bytes = bytes.saturating_add(rows.row(place).len());
    }
    bytes <= MOST_BYTES
}

/// The rows of batches, batch after batch.
fn rows_of(alloc: Global, batches: &[(u32, PackedRows)]) -> Result<PackedRows, AllocError>
    ensures { IfOk result (λ rows. rows ≡ flat_map (λ (batch : ℕ × List (List ℕ)). batch.1) batches.now) }
{
    let mut rows = PackedRows::new(alloc);
    for (_, more) in batches {
        rows.append(more)?;
    }
    rows.gathered(alloc)
}

/// Puts a batch behind other early batches.
fn put_batch(
    early: &mut BTreeMap<u32, PackedRows>,
    number: u32,
    rows: PackedRows,
) -> Result<(), AllocError>
    requires { IsNext nat_cmp (map (λ (batch : ℕ × List (List ℕ)). batch.0) early.old.entries) number }
    ensures { OnOk result (early.new.entries ≡ early.old.entries ++ (number, rows) ∷ []) }
{
    match early.insert(number, rows) {
        Ok(_) => Ok(()),
        Err(_) => Err(AllocError),
    }
}

/// So many rows of a block from a place on. Where they are none, this takes no memory.
fn part_of(
    alloc: Global,
    block: &PackedRows,
    first: usize,
    count: usize,
) -> Result<PackedRows, AllocError>
    requires { first + count ≤ length block.now }
    ensures { IfOk result (λ part. part ≡ take count (drop first block.now)) }
{
    if count == 0 {
        return Ok(PackedRows::new(alloc));
    }
    block.part(first, count)
}

/// Puts a batch among others if its number is not there. Its rows are so many of a block from a place on.
fn put_missing(
    alloc: Global,
    early: &mut BTreeMap<u32, PackedRows>,
    number: u32,
    block: &PackedRows,
    first: usize,
    count: usize,
) -> Result<(), AllocError>
    requires { first + count ≤ length block.now }
    ensures put { OnOk result ((n : ℕ) → rows_at early.new.entries n ≡ either (rows_at early.old.entries n)
        (cond (eq_by_cmp nat_cmp number n) (Some (take count (drop first block.now))) None)) }
    ensures rising { Rise early.old.entries → OnOk result (Rise early.new.entries) }
{
    if early.contains_key(&number) {
        return Ok(());
    }
    match early.insert(number, part_of(alloc, block, first, count)?) {
        Ok(_) => Ok(()),
        Err(_) => Err(AllocError),
    }
}

/// Puts those of the batches that are not there among others, beginning with the first: each of them, or every other one.
fn put_some(
    alloc: Global,
    early: &mut BTreeMap<u32, PackedRows>,
    batches: &[(u32, PackedRows)],
    block: &PackedRows,
    each: bool,
) -> Result<(), AllocError>
    requires { block.now ≡ flat_map (λ (batch : ℕ × List (List ℕ)). batch.1) batches.now }
    ensures some { OnOk result ((old : Batches) → Rise (old ++ batches.now) → AreSomeOf (old ++ batches.now) early.old.entries →
        AreSomeOf (old ++ batches.now) early.new.entries) }
    ensures had { OnOk result ((n : ℕ) → is_some (rows_at early.old.entries n) ≡ true → is_some (rows_at early.new.entries n) ≡ true) }
    ensures each { OnOk result (IsTrue each → (n : ℕ) → is_some (rows_at batches.now n) ≡ true → is_some (rows_at early.new.entries n) ≡ true) }
{
    let _most = block.len();
    let mut first = 0;
    let mut puts = true;
    for (number, rows) in batches {
        let count = rows.len();
        if puts {
            put_missing(alloc, early, *number, block, first, count)?;
        }
        puts = each | !puts;
        first += count;
    }
    Ok(())
}

/// Puts batches behind others, with their rows in one block. Every other batch comes first. So the nodes of the tree, which a rising order
/// leaves half empty, are filled by the rest.
fn put_together(
    alloc: Global,
    early: &mut BTreeMap<u32, PackedRows>,
    batches: &[(u32, PackedRows)],
) -> Result<(), AllocError>
    requires { Rise (early.old.entries ++ batches.now) }
    ensures { OnOk result (early.new.entries ≡ early.old.entries ++ batches.now) }
{
    let block = rows_of(alloc, batches)?;
    put_some(alloc, early, batches, &block, false)?;
    put_some(alloc, early, batches, &block, true)?;
    Ok(())
}

/// Early batches by ascending number, the last few of which may wait to be put together. In a clause they are a list.
#[derive(Drop)]
pub(crate) struct EarlyBatches {
    alloc: Global,
    kept: BTreeMap<u32, PackedRows>,
    waiting: Vec<(u32, PackedRows)>,
}

impl Model for EarlyBatches {
    ghost use Rattle.std.specs.Prelude.{◌++◌, ℕ, List};

    ghost Value = { List (ℕ × List (List ℕ)) };

    ghost view = { λ e. e.kept.entries ++ e.waiting.items };
}

impl EarlyBatches {
    /// There are none.
    pub(crate) fn new(alloc: Global) -> EarlyBatches
        ensures { result ≡ [] }
    {
        EarlyBatches {
            alloc,
            kept: BTreeMap::new(alloc),
            waiting: Vec::new(alloc),
        }
    }

    /// The last number.
    fn last(&self) -> Option<u32>
        ensures { result ≡ slice_get (map (λ (batch : ℕ × List (List ℕ)). batch.0) self.now)
            (length (map (λ (batch : ℕ × List (List ℕ)). batch.0) self.now) - 1) }
    {
        if let Some((number, _)) = self.waiting.last() {
            return Some(*number);
        }
        match self.kept.last_key_value() {
            Some((number, _)) => Some(*number),
            None => None,
        }
    }

    /// Whether a number may be that of an early batch behind a prefix and behind these.
    pub(crate) fn may_follow(&self, prefix: u32, number: u32) -> bool
        ensures { IsTrue result ↔ MayFollow prefix self.now number }
    {
        if u64::from(number) <= u64::from(prefix) + 1 {
            return false;
        }
        match self.last() {
            Some(last) => last < number,
            None => true,
        }
    }

    /// Adds a batch behind these.
    pub(crate) fn push(&mut self, number: u32, rows: PackedRows) -> Result<(), AllocError>
        requires rising { Rise self.old }
        requires next { IsNext nat_cmp (map (λ (batch : ℕ × List (List ℕ)). batch.0) self.old) number }
        ensures { OnOk result (self.new ≡ self.old ++ (number, rows) ∷ []) }
    {
        if !is_small(&rows) {
            put_together(self.alloc, &mut self.kept, &self.waiting)?;
            self.waiting.clear();
            // A copy has no more room than its rows take.
            return put_batch(&mut self.kept, number, rows.try_clone(self.alloc)?);
        }
        self.waiting.push((number, rows))?;
        if self.waiting.len() < MOST_TOGETHER {
            return Ok(());
        }
        put_together(self.alloc, &mut self.kept, &self.waiting)?;
        self.waiting.clear();
        Ok(())
    }

    /// The batches by their numbers.
    pub(crate) fn into_map(self) -> Result<BTreeMap<u32, PackedRows>, AllocError>
        requires { Rise self }
        ensures { IfOk result (λ map. map.entries ≡ self) }
    {
        let EarlyBatches {
            alloc,
            mut kept,
            waiting,
        } = self;
        put_together(alloc, &mut kept, &waiting)?;
        Ok(kept)
    }
}
