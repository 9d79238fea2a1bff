//! What a replica holds, knows and answers.

ghost use Rattle.std.specs.Prelude.{◌≡◌, ℕ, List, None, All, [], map, length, IfOk, OnOk, OnErr};
ghost use Rattle.grouping_model.specs.Aggregates.{Outcome};
ghost use Rattle.grouping_model.specs.Answer.{answer};
ghost use Rattle.grouping_model.specs.Order.{unarranged};
ghost use Rattle.grouping_model.specs.Replies.{InLimits, known_list};
ghost use Rattle.grouping_model.specs.World.{World, IsWorld};
ghost use Rattle.packed_rows.specs.Columns.{kinds};
ghost use Rattle.batch_reader.specs.Rows.{ArePackedRows};
ghost use Rattle.having_filter.specs.Meaning.{meaning};
ghost use Rattle.hash_agg.specs.Counting.{AreCounted};
ghost use Rattle.hash_agg.specs.Ran.{Ran};
ghost use Rattle.origin_prefix.specs.Parts.{aggregations_on};
ghost use Rattle.origin_prefix.specs.Errors.{batch_ended};
ghost use Rattle.replica_merge.specs.Replicas.{IsPlace, taken_back, part_at, part_of, told, Fits, known_of};
ghost use Rattle.replica_merge.specs.Replicas.{known_part};
ghost use Rattle.replica_merge.specs.Results.{DeliversBatch};
ghost use Rattle.replica_merge.specs.Unions.{IsAnswerOf, IsShown};

use crate::known_origin::KnownOrigin;
use crate::pieces::{rows_of_left, spans_of};
use crate::uniting::{listed, run_alone};
use batch_reader::{Batch, PackedRows};
use group_answers::{RowSink, finalize_and_project, project_into};
use hash_agg::{Executor, KeyHash, Means, TapeDisk};
use having_filter::{Answer, AnswerRows, Query};
use origin_prefix::{Delivered, JoinError, OriginPart, RefusedBatch};
use std::alloc::{AllocError, Global};
use std::collections::BTreeMap;
use std::marker::Model;

/// A query, and of each origin the groups of its unbroken prefix and its early batches.
#[derive(Drop)]
pub struct Replica {
    pub(crate) alloc: Global,
    pub(crate) query: Query,
    pub(crate) parts: BTreeMap<u16, OriginPart>,
}

impl Model for Replica {
    ghost use Rattle.replica_merge.specs.Coding.{coded_held};
    ghost use Rattle.replica_merge.specs.Replicas.{Held, AreHeldParts};

    ghost Value = { Held };

    ghost coded = { coded_held };

    ghost view = { λ r. record { query = r.query; parts = r.parts.entries } };

    ghost invariant = { λ r. AreHeldParts r.query r.parts.entries };
}

/// The numbers of early batches, rising.
fn early_numbers(alloc: Global, early: &BTreeMap<u32, PackedRows>) -> Result<Vec<u32>, AllocError>
    ensures { IfOk result (λ numbers. numbers.items
        ≡ map (λ (batch : ℕ × List (List ℕ)). batch.0) early.now.entries) }
{
    let mut numbers = Vec::with_capacity(alloc, early.len())?;
    for (number, _) in early {
        numbers.push(*number)?;
    }
    Ok(numbers)
}

/// What is known of origins.
fn known_parts(
    alloc: Global,
    parts: &BTreeMap<u16, OriginPart>,
) -> Result<Vec<KnownOrigin>, AllocError>
    ensures { IfOk result (λ list. map known_of list.items ≡ map known_part parts.now.entries) }
{
    let mut list = Vec::with_capacity(alloc, parts.len())?;
    for (origin, part) in parts {
        let early = early_numbers(alloc, part.early())?;
        list.push(KnownOrigin {
            origin: *origin,
            upto: part.prefix(),
            early,
        })?;
    }
    Ok(list)
}

/// A place for the part of an origin, which is made where there is none yet, and whether it was.
fn place_of(
    alloc: Global,
    parts: &mut BTreeMap<u16, OriginPart>,
    origin: u16,
) -> Result<bool, AllocError>
    ensures place { IfOk result (IsPlace parts.old.entries origin parts.new.entries) }
    ensures none { OnErr result ((part_at parts.old.entries origin ≡ None) × (parts.new.entries ≡ parts.old.entries)) }
{
    if parts.contains_key(&origin) {
        return Ok(false);
    }
    if parts.insert(origin, OriginPart::empty(alloc)).is_err() {
        return Err(AllocError);
    }
    Ok(true)
}

/// Takes the place of an origin away again, if it was made.
fn take_back(parts: &mut BTreeMap<u16, OriginPart>, origin: u16, is_new: bool)
    ensures { parts.new.entries ≡ taken_back origin parts.old.entries is_new }
{
    if is_new {
        parts.remove(&origin);
    }
}

impl Replica {
    /// An empty replica of a query.
    pub fn new(alloc: Global, query: Query) -> Replica
        ensures { result ≡ record { query = query; parts = [] } }
    {
        Replica {
            alloc,
            query,
            parts: BTreeMap::new(alloc),
        }
    }

    /// The query that the replica answers.
    pub fn query(&self) -> &Query
        ensures { result.now ≡ self.now.query }
    {
        &self.query
    }

    /// What is known, by ascending origin. The only error is out of memory.
    pub fn known(&self) -> Result<Vec<KnownOrigin>, AllocError>
        ensures { IfOk result (λ list. map known_of list.items ≡ known_list (told self.now.parts)) }
    {
        known_parts(self.alloc, &self.parts)
    }

    /// Takes a batch of the query's columns, with an origin and a number within the limits. A known number changes nothing. A batch next to
    /// its origin's unbroken prefix is folded, with the early ones that follow without a gap, by `means` and over a disk. Any other is kept
    /// until its gap is closed, without the disk. A refused batch is handed back and changes nothing: memory ran out, its number is early
    /// with other rows, or while it was folded the disk failed or gave back what was not written to it. The cost of folding is added to the
    /// work of the executor.
    pub fn deliver<H: KeyHash + Copy, D: TapeDisk>(
        &mut self,
        batch: Batch,
        means: &Means<H>,
        disk: &mut D,
        executor: &mut Executor,
    ) -> Result<Delivered, RefusedBatch>
        requires limits { InLimits (batch.origin, batch.number) }
        requires rows { ArePackedRows (kinds self.old.query.columns) batch.rows }
        ensures delivers { DeliversBatch (D.honest disk.old) self.old batch self.new result }
        ensures ran { Ran D.TapeDisk H.hash_of self.old.query means.now
            (AreCounted (aggregations_on (part_of self.old.parts batch.origin) batch.number batch.rows)) (batch_ended result)
            disk.old executor.old disk.new executor.new }
    {
        // The part gets its place before the batch is taken, so a batch is never lost.
        let origin = batch.origin;
        let Ok(is_new) = place_of(self.alloc, &mut self.parts, origin) else {
            let why = JoinError::from(AllocError);
            return Err(RefusedBatch { batch, why });
        };
        let Some(part) = self.parts.get_mut(&origin) else {
            unreachable!();
        };
        match part.deliver(&self.query, batch, means, disk, executor) {
            Ok(delivered) => Ok(delivered),
            Err(refused) => {
                take_back(&mut self.parts, origin, is_new);
                Err(refused)
            }
        }
    }

    /// The answer of the query over the rows of the unbroken prefixes. It has a row of the query's items for each group for which HAVING is
    /// true. The rows are in the order of ORDER BY, and else in the order of the keys. Without GROUP BY there is one group, even over no
    /// rows. The groups of several origins are sorted by their keys already, and are merged piece by piece; those of one are used as they
    /// are. So it needs memory for the rows and for one piece, and neither a limit nor a disk.
    ///
    /// # Errors
    ///
    /// Out of memory.
    pub fn answer(&self) -> Result<Answer, AllocError>
        ensures width { IfOk result (All (λ row. length row
            ≡ length (meaning self.now.query).items)) }
        // They are those of one run, which has each key of the groups of all parts once, whatever the parts are.
        ensures rows { IfOk result (IsShown self.now) }
        ensures answer { IfOk result (λ rows. (world : World) →
            IsWorld (kinds self.now.query.columns) world → Fits world self.now →
            rows ≡ answer (meaning self.now.query) world (told self.now.parts)) }
    {
        let parts = listed(self.alloc, &self.parts)?;
        if let Some(run) = run_alone(&parts) {
            return finalize_and_project(self.alloc, &self.query, run);
        }
        let mut rows = AnswerRows::new(self.alloc);
        let spans = spans_of(self.alloc, &self.parts)?;
        rows_of_left(self.alloc, &self.query, spans, &mut rows)?;
        Answer::arranged(self.alloc, rows, self.query.arrangement())
    }

    /// Gives a sink the rows of the answer, where no clause behind HAVING arranges them: those of [`Replica::answer`], one after another.
    /// They are not kept beside what the sink makes of them.
    ///
    /// # Errors
    ///
    /// Out of memory. The sink may then have taken some of the rows.
    pub fn answer_into<S: RowSink>(&self, rows: &mut S) -> Result<(), AllocError>
        requires { (meaning self.now.query).arrangement ≡ unarranged }
        ensures { OnOk result ((given : List (List Outcome)) × S.took rows.old rows.new given × IsAnswerOf self.now given) }
    {
        let parts = listed(self.alloc, &self.parts)?;
        if let Some(run) = run_alone(&parts) {
            return project_into(self.alloc, &self.query, run, rows);
        }
        let spans = spans_of(self.alloc, &self.parts)?;
        rows_of_left(self.alloc, &self.query, spans, rows)
    }
}
