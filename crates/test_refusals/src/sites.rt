//! Replicas to make calls of, and what these have to give.

ghost use Rattle.std.specs.Prelude.{IfOk};
ghost use Rattle.batch_reader.specs.Rows.{ArePackedRows};
ghost use Rattle.grouping_model.specs.Replies.{InLimits};
ghost use Rattle.packed_rows.specs.Columns.{kinds};

use batch_reader::{Batch, read_batch};
use command_replicas::{create, feed, load};
use hash_agg::{Executor, Fnv1a, Means, MemDisk};
use having_filter::Query;
use replica_merge::Replica;
use replies::{Format, Refusal, origin_lines, table};
use std::alloc::Global;
use test_aggregation::{COLUMNS, TOWNS};

/// A batch of some rows: its origin and its number.
type Place = (u16, u32);

/// What two replicas know: two batches of origin 3 came early to the first, and merged both have batches of origin 1 that do so no more.
const OWN: [Place; 5] = [(0, 1), (1, 1), (2, 1), (3, 2), (3, 3)];

const OTHERS: [Place; 6] = [(0, 1), (0, 2), (1, 2), (1, 3), (2, 1), (2, 3)];

/// The batch that is delivered to the first: it is folded with those two.
const NEXT: Place = (3, 1);

/// How many towns are many.
const MANY: u32 = 400;

/// What a replica is to others: what it knows, and its file.
#[derive(Drop)]
pub(crate) struct Seen {
    known: Vec<u8>,
    pub(crate) file: Vec<u8>,
}

impl Seen {
    fn of(alloc: Global, replica: &Replica) -> Result<Seen, Refusal> {
        let known = origin_lines(alloc, replica)?;
        let file = replica.save()?;
        Ok(Seen { known, file })
    }

    /// Whether a replica is this one.
    pub(crate) fn is(&self, alloc: Global, replica: &Replica) -> Result<bool, Refusal> {
        let seen = Seen::of(alloc, replica)?;
        Ok(seen.known == self.known && seen.file == self.file)
    }
}

/// Two replicas, a batch, and what calls of them have to give.
#[derive(Drop)]
pub(crate) struct Site {
    pub(crate) own: Seen,
    pub(crate) other: Seen,
    /// The file of the batch that is delivered.
    next: Vec<u8>,
    pub(crate) delivered: Seen,
    pub(crate) merged: Seen,
    /// The first replica's answer.
    pub(crate) table: Vec<u8>,
}

/// The file of a batch of rows.
fn batch_file(alloc: Global, place: Place, count: u32, rows: &str) -> Result<Vec<u8>, Refusal> {
    let (origin, number) = place;
    let lines = rows.replace(alloc, ";", "\n")?;
    let text = format!(in alloc; "batch,{origin},{number},{count}\n{lines}")?;
    Ok(text.into_bytes())
}

/// Feeds batches of the same rows to a replica, by an executor.
fn feed_by(
    alloc: Global,
    replica: &mut Replica,
    places: &[Place],
    count: u32,
    rows: &str,
    executor: &mut Executor,
) -> Result<(), Refusal> {
    let (means, mut disk) = (Means::usual(Fnv1a), MemDisk::new(alloc));
    for place in places {
        let file = batch_file(alloc, *place, count, rows)?;
        feed(alloc, replica, &file, &means, &mut disk, executor)?;
    }
    Ok(())
}

/// Feeds batches of the same rows to a replica.
fn feed_all(
    alloc: Global,
    replica: &mut Replica,
    places: &[Place],
    count: u32,
    rows: &str,
) -> Result<(), Refusal> {
    let mut executor = Executor::new();
    let fed = feed_by(alloc, replica, places, count, rows, &mut executor);
    let _work = executor.into_work();
    fed
}

/// What a replica is that is fed batches of some places, and then of others.
fn seen_of(
    alloc: Global,
    places: &[Place],
    more: &[Place],
    count: u32,
    rows: &str,
) -> Result<Seen, Refusal> {
    let mut replica = create(alloc, COLUMNS, TOWNS)?;
    let fed = feed_all(alloc, &mut replica, places, count, rows);
    let more = feed_all(alloc, &mut replica, more, count, rows);
    let seen = Seen::of(alloc, &replica);
    drop(replica);
    fed?;
    more?;
    seen
}

/// The table of a file's answer.
fn table_of(alloc: Global, file: &[u8]) -> Result<Vec<u8>, Refusal> {
    let replica = load(alloc, file)?;
    let table = table(alloc, &replica, Format::Csv);
    drop(replica);
    Ok(table?.1)
}

impl Site {
    /// Replicas whose batches have these rows, with a `;` behind each, and as many as told.
    pub(crate) fn new(alloc: Global, count: u32, rows: &str) -> Result<Site, Refusal> {
        let own = seen_of(alloc, &OWN, &[], count, rows)?;
        let table = table_of(alloc, &own.file)?;
        Ok(Site {
            own,
            other: seen_of(alloc, &[], &OTHERS, count, rows)?,
            next: batch_file(alloc, NEXT, count, rows)?,
            delivered: seen_of(alloc, &OWN, &[NEXT], count, rows)?,
            merged: seen_of(alloc, &OWN, &OTHERS, count, rows)?,
            table,
        })
    }

    /// Replicas of a few rows.
    pub(crate) fn few(alloc: Global) -> Result<Site, Refusal> {
        Site::new(alloc, 3, "oslo,5;bergen,7;oslo,-2;")
    }

    /// Replicas of more towns than a table of 65,536 bytes holds.
    pub(crate) fn many(alloc: Global) -> Result<Site, Refusal> {
        let mut rows = String::new(alloc);
        for town in 0..MANY {
            rows.push_str(&format!(in alloc; "k{town:04},{town};")?)?;
        }
        Site::new(alloc, MANY, &rows)
    }

    /// The batch that is delivered, of a query's table.
    pub(crate) fn next_batch(&self, alloc: Global, query: &Query) -> Result<Batch, Refusal>
        ensures limits { IfOk result (λ batch. InLimits (batch.origin, batch.number)) }
        ensures rows { IfOk result (λ batch. ArePackedRows (kinds query.now.columns) batch.rows) }
    {
        let schema = query.schema();
        let batch = read_batch(alloc, schema, &self.next)?;
        Ok(batch)
    }
}
