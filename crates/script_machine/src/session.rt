//! The state of a script that runs, and the replies to its commands.

ghost use Rattle.std.specs.Prelude.{◌≡◌, ◌≢◌, Bool, false, List, Some, [], IfOk, IfErr, OnOk, OnErr, drop, string_bytes, take, ℕ};
ghost use Rattle.std.specs.HashMap.{UpdatesBy};
ghost use Rattle.std.specs.Str.{bytes_eq};
ghost use Rattle.csv.specs.Records.{fields_of};
ghost use Rattle.grouping_model.specs.World.{World};
ghost use Rattle.query_checks.specs.Spelling.{spelling};
ghost use Rattle.having_filter.specs.Kept.{by_names};
ghost use Rattle.group_parser.specs.Parsing.{Accepts};
ghost use Rattle.summary_codec.specs.Reading.{IsSaved};
ghost use Rattle.summary_codec.specs.WorldFile.{world_file};
ghost use Rattle.replica_merge.specs.Replicas.{told, Fits};
ghost use Rattle.replica_merge.specs.Results.{IsLoaded};
ghost use Rattle.script_io.specs.Records.{Record};
ghost use Rattle.script_commands.specs.Commands as ask;
ghost use Rattle.script_commands.specs.Commands.{owned_by, request_of};
ghost use Rattle.refusals.specs.Batches.{IsNoQuery};
ghost use Rattle.replies.specs.Text.{is_tape_fault};
ghost use Rattle.replies.specs.declared.reply.Reply.TheVariants as says;
ghost use Rattle.refusals.specs.declared.refusal.Refusal.TheVariants.{NoMemory};
ghost use Rattle.script_machine.specs.Executing.{Executes};
ghost use Rattle.script_machine.specs.Joining.{JoinsNamed};
ghost use Rattle.script_machine.specs.Views.{empty, IsReplicaFile, Steps};
ghost use Rattle.tape_disks.specs.Disk.{DiskFrame};

use crate::saved::{Head, SavedFile, head_of};
use batch_reader::read_rows;
use group_parser::{parse, print};
use hash_agg::{Executor, Fnv1a, Means, Seed, TapeDisk, Work};
use having_filter::Query;
use indexmap::IndexMap;
use packed_rows::Schema;
use replica_merge::{Joined, Replica};
use replies::{Format, Refusal, Reply, known_lines, table};
use script_commands::{Command, Request};
use script_io::Records;
use std::alloc::{AllocError, Global};
use std::marker::Model;

/// The columns and the query, once given, the replicas by name, their saved files, and the means of aggregations.
#[derive(Drop)]
pub(crate) struct Session {
    alloc: Global,
    columns: Option<Schema>,
    query: Option<Query>,
    /// The head of the query's summary files, if there was memory for it when the query was given.
    head: Option<Head>,
    replicas: IndexMap<Vec<u8>, Replica>,
    /// Saved summary files, by name.
    saved: IndexMap<Vec<u8>, SavedFile>,
    means: Means<Fnv1a>,
    /// Batch after batch is folded by its table. What they took is not asked.
    executor: Executor,
}

impl Model for Session {
    ghost use Rattle.std.specs.Coded.{codes};
    ghost use Rattle.script_machine.specs.Coding.{coded_store};
    ghost use Rattle.script_machine.specs.Views.{Store, IsStore};

    ghost Value = { Store };

    ghost coded = { coded_store (Prim.hlevel codes) };

    ghost view = { λ s.
        record {
          columns = s.columns;
          query = s.query;
          replicas = s.replicas.entries;
          saved = s.saved.entries;
          limit = s.means.limit;
          seed = s.means.seed;
        } };

    ghost invariant = { λ s. IsStore
        (record {
          columns = s.columns;
          query = s.query;
          replicas = s.replicas.entries;
          saved = s.saved.entries;
          limit = s.means.limit;
          seed = s.means.seed;
        }) };
}

/// The query that a text says, and its canonical text.
#[tactic(auto, using(refusals::specs::QueryLaws::read_over))]
fn read_query(alloc: Global, schema: &Schema, text: &str) -> Result<(Query, String), Refusal>
    ensures read { IfOk result (λ found. Accepts schema.now text.now found.0
        × (string_bytes found.1 ≡ spelling (by_names found.0))) }
    ensures columns { IfOk result (λ found. found.0.columns ≡ schema.now) }
    ensures why { IfErr result (λ why. why ≢ NoMemory → IsNoQuery schema.now text.now why) }
    ensures faultless { IfErr result (λ why. is_tape_fault (says.Refused why) ≡ false) }
{
    let query = parse(alloc, schema, text)?;
    match print(alloc, &query) {
        Ok(canonical) => Ok((query, canonical)),
        Err(_) => {
            drop(query);
            Err(Refusal::NoMemory)
        }
    }
}

/// An empty replica, with a copy of its name.
fn new_replica(alloc: Global, name: &[u8], query: &Query) -> Result<(Vec<u8>, Replica), AllocError>
    ensures { IfOk result (λ made. (made.0.items ≡ name.now)
        × (made.1 ≡ record { query = query.now; parts = [] })) }
{
    let key = name.to_vec(alloc)?;
    let query = query.try_clone()?;
    Ok((key, Replica::new(alloc, query)))
}

/// The summary file of a replica, with a copy of the name that it is saved under.
fn file_of_replica(
    alloc: Global,
    replica: &Replica,
    saved: &[u8],
) -> Result<(Vec<u8>, Vec<u8>), AllocError>
    ensures name { IfOk result (λ made. made.0.items ≡ saved.now) }
    ensures file { IfOk result (λ made.
        IsSaved made.1.items replica.now.query replica.now.parts) }
    ensures world { IfOk result (λ made. (world : World) → Fits world replica.now →
        made.1.items ≡ world_file replica.now.query world (told replica.now.parts)) }
{
    let file = replica.save()?;
    let key = saved.to_vec(alloc)?;
    Ok((key, file))
}

/// The replica of a file that a replica saved, with a copy of its name. It shares the script's query.
fn replica_of_file(
    alloc: Global,
    query: &Option<Query>,
    name: &[u8],
    file: &SavedFile,
) -> Result<(Vec<u8>, Replica), AllocError>
    requires { IsReplicaFile file.now }
    ensures name { IfOk result (λ made. made.0.items ≡ name.now) }
    ensures loaded { IfOk result (λ made. IsLoaded file.now made.1) }
{
    let key = name.to_vec(alloc)?;
    let replica = file.replica(alloc, query.as_ref())?;
    Ok((key, replica))
}

/// Keeps a value under its name, and replaces one that had it. If memory runs out, nothing changes.
fn keep<V: Drop>(kept: &mut IndexMap<Vec<u8>, V>, named: (Vec<u8>, V)) -> Result<(), AllocError>
    ensures put { OnOk result (UpdatesBy (λ x y. bytes_eq x.items y.items)
        (λ name. bytes_eq named.0.items name.items) kept.old kept.new (Some named.1)) }
    ensures refused { OnErr result (kept.new.entries ≡ kept.old.entries) }
{
    let (name, value) = named;
    match kept.insert(name, value) {
        Ok(_) => Ok(()),
        Err(_) => Err(AllocError),
    }
}

impl Session {
    /// The empty state. Group tables have this seed.
    pub(crate) fn new(alloc: Global, seed: Seed) -> Session
        ensures { result ≡ empty seed }
    {
        Session {
            alloc,
            columns: None,
            query: None,
            head: None,
            replicas: IndexMap::new(alloc),
            saved: IndexMap::new(alloc),
            means: Means::usual(Fnv1a).with_seed(seed),
            executor: Executor::new(),
        }
    }

    /// Answers `columns`.
    fn tell_columns(&mut self, text: &str) -> Reply<'static>
        ensures answers { (honest : Bool) (owned : List Record) → Steps honest (ask.Columns text.now) owned self.old result self.new }
        ensures faultless { is_tape_fault result ≡ false }
    {
        if self.columns.is_some() {
            return Reply::Refused(Refusal::BadCommand);
        }
        match Schema::parse(self.alloc, text) {
            Ok(schema) => {
                let count = schema.width();
                self.columns = Some(schema);
                Reply::Columns(count)
            }
            Err(error) => Reply::Refused(Refusal::from(error)),
        }
    }

    /// Answers `query`.
    fn tell_query(&mut self, text: &str) -> Reply<'static>
        ensures answers { (honest : Bool) (owned : List Record) → Steps honest (ask.Query text.now) owned self.old result self.new }
        ensures faultless { is_tape_fault result ≡ false }
    {
        let Some(schema) = &self.columns else {
            return Reply::Refused(Refusal::BadCommand);
        };
        if self.query.is_some() {
            return Reply::Refused(Refusal::BadCommand);
        }
        match read_query(self.alloc, schema, text) {
            Ok((query, canonical)) => {
                self.head = head_of(self.alloc, &query).ok();
                self.query = Some(query);
                Reply::Query(canonical)
            }
            Err(why) => Reply::Refused(why),
        }
    }

    /// Answers `limit`.
    fn tell_limit(&mut self, bytes: u64) -> Reply<'static>
        ensures answers { (honest : Bool) (owned : List Record) → Steps honest (ask.Limit bytes) owned self.old result self.new }
        ensures faultless { is_tape_fault result ≡ false }
    {
        match Means::new(bytes, Fnv1a) {
            Ok(means) => {
                self.means = means.with_seed(self.means.seed());
                Reply::Limit(bytes)
            }
            Err(error) => Reply::Refused(Refusal::from(error)),
        }
    }

    /// Answers `replica`.
    fn add_replica<'c>(&mut self, name: &'c [u8]) -> Reply<'c>
        ensures answers { (honest : Bool) (owned : List Record) → Steps honest (ask.Replica name.now) owned self.old result self.new }
        ensures faultless { is_tape_fault result ≡ false }
    {
        let Some(query) = &self.query else {
            return Reply::Refused(Refusal::BadCommand);
        };
        if self.replicas.contains_key(name) {
            return Reply::Refused(Refusal::NameTaken);
        }
        let Ok(made) = new_replica(self.alloc, name, query) else {
            return Reply::Refused(Refusal::NoMemory);
        };
        let Ok(()) = keep(&mut self.replicas, made) else {
            return Reply::Refused(Refusal::NoMemory);
        };
        Reply::Created(name)
    }

    /// Answers `feed`, and takes the records that belong to it. The only error is out of memory for a record.
    fn feed<D: TapeDisk>(
        &mut self,
        name: &[u8],
        origin: &[u8],
        number: &[u8],
        told: u32,
        records: &mut Records<'_>,
        disk: &mut D,
    ) -> Result<Reply<'static>, AllocError>
        ensures executes { IfOk result (λ reply. Executes D.TapeDisk (ask.Feed name.now origin.now number.now told)
            (take told records.old) self.old disk.old reply self.new disk.new) }
        ensures left { OnOk result (records.new ≡ drop told records.old) }
        ensures stopped { OnErr result (DiskFrame D.TapeDisk 0 disk.old disk.new) }
    {
        let Some(replica) = self.replicas.get_mut(name) else {
            records.skip(told as usize)?;
            return Ok(Reply::Refused(Refusal::NoSuchName));
        };
        let schema = replica.query().schema();
        let batch = match read_rows(self.alloc, schema, origin, number, told, records)? {
            Ok(batch) => batch,
            Err(why) => return Ok(Reply::Refused(Refusal::from(why))),
        };
        self.executor.count_from(Work::none());
        let refused = match replica.deliver(batch, &self.means, disk, &mut self.executor) {
            Ok(delivered) => return Ok(Reply::Delivered(delivered)),
            Err(refused) => refused,
        };
        Ok(Reply::Refused(Refusal::from(refused)))
    }

    /// Answers `known`.
    fn known(&self, name: &[u8]) -> Reply<'static>
        ensures answers { (honest : Bool) (owned : List Record) → Steps honest (ask.Known name.now) owned self.now result self.now }
        ensures faultless { is_tape_fault result ≡ false }
    {
        match self.replicas.get(name) {
            None => Reply::Refused(Refusal::NoSuchName),
            Some(replica) => match known_lines(self.alloc, replica) {
                Ok(lines) => Reply::Listed(lines),
                Err(_) => Reply::Refused(Refusal::NoMemory),
            },
        }
    }

    /// Answers `answer`.
    fn answer(&self, name: &[u8]) -> Reply<'static>
        ensures answers { (honest : Bool) (owned : List Record) → Steps honest (ask.Answer name.now) owned self.now result self.now }
        ensures faultless { is_tape_fault result ≡ false }
    {
        match self.replicas.get(name) {
            None => Reply::Refused(Refusal::NoSuchName),
            Some(replica) => match table(self.alloc, replica, Format::Csv) {
                Ok((rows, table)) => Reply::Answer { rows, table },
                Err(_) => Reply::Refused(Refusal::NoMemory),
            },
        }
    }

    /// What two replicas hold together, built beside both.
    fn join<D: TapeDisk>(&self, into: &[u8], from: &[u8], disk: &mut D) -> Result<Joined, Refusal>
        ensures { JoinsNamed D.TapeDisk self.now into.now from.now disk.old result disk.new }
    {
        let Some(own) = self.replicas.get(into) else {
            return Err(Refusal::NoSuchName);
        };
        let Some(theirs) = self.replicas.get(from) else {
            return Err(Refusal::NoSuchName);
        };
        // Since all replicas have the query that was told, it is never `DifferentQuery`.
        let joined = own.join(theirs, &self.means, disk, &mut Executor::new())?;
        Ok(joined)
    }

    /// Answers `merge`.
    fn merge<D: TapeDisk>(&mut self, into: &[u8], from: &[u8], disk: &mut D) -> Reply<'static>
        ensures { (owned : List Record) →
            Executes D.TapeDisk (ask.Merge into.now from.now) owned self.old disk.old result self.new disk.new }
    {
        let joined = match self.join(into, from, disk) {
            Ok(joined) => joined,
            Err(why) => return Reply::Refused(why),
        };
        match self.replicas.get_mut(into) {
            Some(replica) => {
                replica.commit(joined);
                Reply::Merged
            }
            None => unreachable!(),
        }
    }

    /// Answers `save`.
    fn save(&mut self, name: &[u8], saved: &[u8]) -> Reply<'static>
        ensures answers { (honest : Bool) (owned : List Record) → Steps honest (ask.Save name.now saved.now) owned self.old result
            self.new }
        ensures faultless { is_tape_fault result ≡ false }
    {
        let Some(replica) = self.replicas.get(name) else {
            return Reply::Refused(Refusal::NoSuchName);
        };
        let Ok((key, file)) = file_of_replica(self.alloc, replica, saved) else {
            return Reply::Refused(Refusal::NoMemory);
        };
        let length = file.len();
        let Ok(file) = SavedFile::new(self.alloc, &self.head, file) else {
            return Reply::Refused(Refusal::NoMemory);
        };
        let Ok(()) = keep(&mut self.saved, (key, file)) else {
            return Reply::Refused(Refusal::NoMemory);
        };
        Reply::Saved(length)
    }

    /// Answers `load`.
    fn load(&mut self, name: &[u8], saved: &[u8]) -> Reply<'static>
        ensures answers { (honest : Bool) (owned : List Record) → Steps honest (ask.Load name.now saved.now) owned self.old result
            self.new }
        ensures faultless { is_tape_fault result ≡ false }
    {
        let Some(file) = self.saved.get(saved) else {
            return Reply::Refused(Refusal::NoSuchName);
        };
        let Ok(made) = replica_of_file(self.alloc, &self.query, name, file) else {
            return Reply::Refused(Refusal::NoMemory);
        };
        let Ok(()) = keep(&mut self.replicas, made) else {
            return Reply::Refused(Refusal::NoMemory);
        };
        Reply::Loaded
    }

    /// Answers a command, and takes the records that belong to it, which come next. The only error is out of memory
    /// for a record.
    pub(crate) fn execute<'c, D: TapeDisk>(
        &mut self,
        command: &'c Command,
        records: &mut Records<'_>,
        disk: &mut D,
    ) -> Result<Reply<'c>, AllocError>
        ensures executes { IfOk result (λ reply. Executes D.TapeDisk (request_of (fields_of command.now.head))
            (take (owned_by (fields_of command.now.head)) records.old) self.old disk.old reply self.new disk.new) }
        ensures left { OnOk result (records.new
            ≡ drop (owned_by (fields_of command.now.head)) records.old) }
        ensures stopped { OnErr result ((faults : ℕ) × DiskFrame D.TapeDisk faults disk.old disk.new) }
    {
        let reply = match command.request() {
            Request::Feed {
                name,
                origin,
                number,
                told,
            } => return self.feed(name, origin, number, told, records, disk),
            Request::Columns(text) => self.tell_columns(text),
            Request::Query(text) => self.tell_query(text),
            Request::Limit(bytes) => self.tell_limit(bytes),
            Request::Replica(name) => self.add_replica(name),
            Request::Known(name) => self.known(name),
            Request::Answer(name) => self.answer(name),
            Request::Merge { into, from } => self.merge(into, from, disk),
            Request::Save { name, saved } => self.save(name, saved),
            Request::Load { name, saved } => self.load(name, saved),
            Request::Unknown => Reply::Refused(Refusal::BadCommand),
        };
        records.skip(command.owned())?;
        Ok(reply)
    }
}
