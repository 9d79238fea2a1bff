//! A session: a replica with its executor.

ghost use Rattle.std.specs.Prelude.{◌≡◌, ◌≢◌, IfOk, IfErr, OnOk, OnErr, string_bytes};
ghost use Rattle.hash_agg.specs.Means.{AreMeans};
ghost use Rattle.command_replicas.specs.Commands.{IsTooLong};
ghost use Rattle.engine.specs.Calls.{IsNoLimit, Creates, Loads, FeedsFile, FeedsRows, MergesSession, MergesFileSession, IsFileOf};
ghost use Rattle.engine.specs.Calls.{IsTableOf, IsKnownText, IsQueryText, IsColumnsText, IsAnswerColumnsText};

use crate::rows::read_numbered;
use grouping_model::limits::MAX_INPUT_LEN;
use hash_agg::{Executor, Fnv1a, Means, MemDisk, Seed, Work};
use replica_merge::{Delivered, Replica};
use replies::{Format, Refusal, RunError, origin_lines, table};
use std::alloc::{AllocError, Global};
use std::marker::Model;
use std::str::from_utf8;
use table_print::print_columns;

/// A replica, the limit and seed of its aggregations, and what they took. Groups beyond the limit are spilled to tapes in memory, which
/// each call takes and frees.
#[derive(Drop)]
pub struct Session {
    alloc: Global,
    replica: Replica,
    means: Means<Fnv1a>,
    work: Work,
}

impl Model for Session {
    ghost use Rattle.engine.specs.Sessions.{SessionState};
    ghost use Rattle.engine.specs.Coding.{coded_session};

    ghost Value = { SessionState };

    ghost coded = { coded_session };

    ghost view = { λ s. record { held = s.replica; limit = s.means.limit; seed = s.means.seed; work = s.work } };
}

/// The means of a limit and a seed.
fn means_of(limit: u64, seed: Seed) -> Result<Means<Fnv1a>, Refusal>
    ensures limit { IfOk result (λ means. means.limit ≡ limit) }
    ensures seed { IfOk result (λ means. means.seed ≡ seed) }
    ensures within { OnOk result (AreMeans limit) }
    ensures refused { IfErr result (IsNoLimit limit) }
{
    match Means::new(limit, Fnv1a) {
        Ok(means) => Ok(means.with_seed(seed)),
        Err(error) => Err(Refusal::from(error)),
    }
}

impl Session {
    /// An empty session of a query over columns, both given as texts, as `columns` and `query` make it in a script. The limit, in bytes, is
    /// as `limit` there. The seed is that of the group tables: use a random one if others choose the keys.
    ///
    /// # Errors
    ///
    /// `LimitOutOfRange`; `BadCommand` if a text is not UTF-8; `BadSchema`, and then those of the query.
    pub fn create(
        alloc: Global,
        columns: &[u8],
        query: &[u8],
        limit: u64,
        seed: Seed,
    ) -> Result<Session, Refusal>
        ensures { Creates columns.now query.now limit seed result }
    {
        let means = means_of(limit, seed)?;
        let Ok(told) = from_utf8(columns) else {
            return Err(Refusal::BadCommand);
        };
        let Ok(asked) = from_utf8(query) else {
            return Err(Refusal::BadCommand);
        };
        match command_replicas::create(alloc, told, asked) {
            Ok(replica) => Ok(Session {
                alloc,
                replica,
                means,
                work: Work::none(),
            }),
            Err(why) => Err(why),
        }
    }

    /// A session of the replica of a summary file.
    ///
    /// # Errors
    ///
    /// `LimitOutOfRange`, and then those of [`command_replicas::load`].
    pub fn load(alloc: Global, file: &[u8], limit: u64, seed: Seed) -> Result<Session, Refusal>
        ensures { Loads file.now limit seed result }
    {
        let means = means_of(limit, seed)?;
        match command_replicas::load(alloc, file) {
            Ok(replica) => Ok(Session {
                alloc,
                replica,
                means,
                work: Work::none(),
            }),
            Err(why) => Err(why),
        }
    }

    /// The replica.
    pub fn replica(&self) -> &Replica
        ensures { result.now ≡ self.now.held }
    {
        &self.replica
    }

    /// What the aggregations of the calls took that were done, all together.
    pub fn work(&self) -> Work
        ensures { result ≡ self.now.work }
    {
        self.work
    }

    /// Feeds the batch of a batch file, as `feed` does in a script and on files.
    ///
    /// # Errors
    ///
    /// Those of [`command_replicas::feed`]. Nothing changes then.
    pub fn feed(&mut self, file: &[u8]) -> Result<Delivered, Refusal>
        ensures feeds { FeedsFile file.now self.old self.new result }
        ensures same { OnErr result (self.new ≡ self.old) }
    {
        let (mut disk, mut executor) = (MemDisk::new(self.alloc), Executor::after(self.work));
        let fed = command_replicas::feed(
            self.alloc,
            &mut self.replica,
            file,
            &self.means,
            &mut disk,
            &mut executor,
        );
        self.work = executor.into_work();
        fed
    }

    /// Feeds the batch of an origin and a number, with rows in CSV, as many as declared. It is the same as a feed of their batch file, but
    /// for two cases. A byte order mark at the start of the rows is skipped. A count of 1,000,000,000 or more, which no head can declare,
    /// is `TooManyRows`.
    ///
    /// # Errors
    ///
    /// Those of [`feed`](Session::feed).
    pub fn feed_rows(
        &mut self,
        origin: u32,
        number: u32,
        count: u32,
        rows: &[u8],
    ) -> Result<Delivered, Refusal>
        ensures feeds { FeedsRows origin number count rows.now self.old self.new result }
        ensures same { OnErr result (self.new ≡ self.old) }
    {
        let mut disk = MemDisk::new(self.alloc);
        let schema = self.replica.query().schema();
        let batch = match read_numbered(self.alloc, schema, origin, number, count, rows) {
            Ok(batch) => batch,
            Err(why) => return Err(Refusal::from(why)),
        };
        let mut executor = Executor::after(self.work);
        let delivered = self
            .replica
            .deliver(batch, &self.means, &mut disk, &mut executor);
        self.work = executor.into_work();
        match delivered {
            Ok(delivered) => Ok(delivered),
            Err(refused) => Err(Refusal::from(refused)),
        }
    }

    /// Merges the replica of another session, as `merge` does in a script: afterwards this one knows what either knew.
    ///
    /// # Errors
    ///
    /// Those of [`Replica::merge`]. Nothing changes then.
    pub fn merge(&mut self, other: &Session) -> Result<(), Refusal>
        ensures merges { MergesSession other.now self.old self.new result }
        ensures same { OnErr result (self.new ≡ self.old) }
    {
        let (mut disk, mut executor) = (MemDisk::new(self.alloc), Executor::after(self.work));
        let merged = self
            .replica
            .merge(&other.replica, &self.means, &mut disk, &mut executor);
        self.work = executor.into_work();
        match merged {
            Ok(()) => Ok(()),
            Err(error) => Err(Refusal::from(error)),
        }
    }

    /// Merges the replica of a summary file, as `merge` does on files.
    ///
    /// # Errors
    ///
    /// Those of [`command_replicas::merge`]. Nothing changes then.
    pub fn merge_file(&mut self, file: &[u8]) -> Result<(), Refusal>
        ensures merges { MergesFileSession file.now self.old self.new result }
        ensures same { OnErr result (self.new ≡ self.old) }
    {
        let (mut disk, mut executor) = (MemDisk::new(self.alloc), Executor::after(self.work));
        let merged = command_replicas::merge(
            self.alloc,
            &mut self.replica,
            file,
            &self.means,
            &mut disk,
            &mut executor,
        );
        self.work = executor.into_work();
        merged
    }

    /// The summary file, as [`command_replicas::save`] makes it, of at most 67,108,864 bytes.
    ///
    /// # Errors
    ///
    /// `InputTooLong` if it would be longer, and `NoMemory`.
    pub fn save(&self) -> Result<Vec<u8>, Refusal>
        ensures file { IfOk result (λ file. IsFileOf self.now.held file.items) }
        ensures why { IfErr result (IsTooLong self.now.held) }
    {
        let len = self.replica.saved_len()?;
        if len > MAX_INPUT_LEN {
            return Err(Refusal::Run(RunError::InputTooLong));
        }
        Ok(self.replica.save()?)
    }

    /// The answer of the query: how many rows it has, and its table in a format. The only error is out of memory.
    pub fn answer(&self, format: Format) -> Result<(usize, Vec<u8>), AllocError>
        ensures { IfOk result (λ found. IsTableOf format self.now.held found.0 found.1.items) }
    {
        table(self.alloc, &self.replica, format)
    }

    /// What is known, a line for each origin, as `known` lists it on files. The only error is out of memory.
    pub fn known(&self) -> Result<Vec<u8>, AllocError>
        ensures { IfOk result (λ lines. IsKnownText self.now.held lines.items) }
    {
        origin_lines(self.alloc, &self.replica)
    }

    /// The canonical text of the query.
    pub fn query(&self) -> &str
        ensures { IsQueryText self.now.held result.now }
    {
        self.replica.query().spelling()
    }

    /// The canonical text of the columns. The only error is out of memory.
    pub fn columns(&self) -> Result<String, AllocError>
        ensures { IfOk result (λ text. IsColumnsText self.now.held (string_bytes text)) }
    {
        self.replica.query().schema().print()
    }

    /// The columns of the answer with their types, as `city text, sum numeric`. The only error is out of memory.
    pub fn answer_columns(&self) -> Result<Vec<u8>, AllocError>
        ensures { IfOk result (λ text. IsAnswerColumnsText self.now.held text.items) }
    {
        print_columns(self.alloc, self.replica.query())
    }
}
