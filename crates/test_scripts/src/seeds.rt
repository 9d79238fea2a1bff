//! The seed of group tables, on which no reply, page or file depends.

use crate::spilling::{push_rows, script};
use command_replicas::{create, feed, save};
use csv::ByteRecord;
use hash_agg::{DEFAULT_SEED, Executor, Fnv1a, MIN_LIMIT, Means, MemDisk, Seed, TapeDisk};
use replica_merge::Replica;
use replies::{Refusal, RunError};
use script_io::Fused;
use script_machine::{Observer, run_observed};
use std::alloc::Global;
use std::test::*;
use test_cases::same_pages;

/// Two seeds beside the usual one.
const SEEDS: [Seed; 2] = [
    Seed { low: 1, high: 0 },
    Seed {
        low: 0x0706050403020100,
        high: 0xffffffffffffffff,
    },
];

/// Looks away.
#[derive(Drop)]
struct Unobserved;

impl Observer for Unobserved {
    fn refused(&mut self, _script: &[u8], _line: u64, _head: &ByteRecord, _why: Refusal) {}
}

/// Batches of 1,000 towns that early ones meet, replicas that are saved, loaded and merged, and answers, all by the least limit.
const COMMANDS: &str = "columns,\"c text, d bigint\";\
    query,\"select c, count(*), sum(d) from batches group by c\";limit,65536;\
    replica,a;replica,b;feed,a,0,1,1000;feed,b,0,2,1000;feed,b,0,1,1000;feed,b,1,1,1000;\
    save,a,s;load,c,s;merge,a,b;merge,c,a;save,c,t;load,b,t;known,b;answer,a;answer,b;answer,c";

/// The replies to a script over a disk, by tables with this seed.
fn replies_by(
    alloc: Global,
    script: &str,
    disk: &mut MemDisk,
    seed: Seed,
) -> Result<Vec<u8>, RunError> {
    let mut replies = Vec::new(alloc);
    let run = run_observed(
        alloc,
        &mut Fused::new(script.as_bytes()),
        &mut Fused::new(&mut replies),
        &mut Unobserved,
        disk,
        seed,
    );
    match run {
        Ok(_) => Ok(replies),
        Err(error) => Err(error),
    }
}

/// What is not as with the usual seed, and how the replies end.
fn differs(alloc: Global, script: &str, seed: Seed) -> Result<String, RunError> {
    let (mut usual_disk, mut disk) = (MemDisk::new(alloc), MemDisk::new(alloc));
    let usual = replies_by(alloc, script, &mut usual_disk, DEFAULT_SEED)?;
    let replies = replies_by(alloc, script, &mut disk, seed)?;
    let spills = disk.writes() > 0;
    let pages = same_pages(&mut usual_disk, &mut disk);
    let same = replies == usual;
    let ends = replies.ends_with(b"k0999,3,2997\n");
    Ok(format!(in alloc; "{spills} {pages} {same} {ends}")?)
}

#[test]
fn replies_and_pages_are_the_same_with_each_seed(rt: HostRuntime) -> Result<(), Fail> {
    let script = script(rt.alloc(), COMMANDS, 1000)?;
    for seed in SEEDS {
        assert!(rt; differs(rt.alloc(), &script, seed)?.as_str() == "true true true true");
    }
    Ok(())
}

/// The file of a replica that took a batch by tables with this seed.
fn fed_and_saved(
    alloc: Global,
    replica: &mut Replica,
    batch: &[u8],
    seed: Seed,
) -> Result<Vec<u8>, Refusal> {
    let means = Means::new(MIN_LIMIT, Fnv1a)?.with_seed(seed);
    let (mut disk, mut executor) = (MemDisk::new(alloc), Executor::new());
    feed(alloc, replica, batch, &means, &mut disk, &mut executor)?;
    let file = save(replica)?;
    Ok(file.bytes().to_vec(alloc)?)
}

/// The file of a replica that is new but for this batch.
fn file_by(alloc: Global, batch: &[u8], seed: Seed) -> Result<Vec<u8>, Refusal> {
    let query = "SELECT c, count(*), sum(d) FROM batches GROUP BY c";
    let mut replica = create(alloc, "c text, d bigint", query)?;
    let file = fed_and_saved(alloc, &mut replica, batch, seed);
    drop(replica);
    file
}

/// Whether the file is the same as with the usual seed, and holds more than the groups' keys and states.
fn is_same_file(alloc: Global, batch: &[u8], seed: Seed) -> Result<bool, Refusal> {
    let usual = file_by(alloc, batch, DEFAULT_SEED)?;
    let file = file_by(alloc, batch, seed)?;
    Ok(file == usual && file.len() > 32_000)
}

#[test]
fn files_are_the_same_with_each_seed(rt: HostRuntime) -> Result<(), Fail> {
    let mut batch = String::from_str(rt.alloc(), "batch,0,1,1000\n")?;
    push_rows(rt.alloc(), &mut batch, 1000)?;
    for seed in SEEDS {
        assert!(rt; is_same_file(rt.alloc(), batch.as_bytes(), seed)?);
    }
    Ok(())
}

#[test]
fn means_keep_their_seed(rt: HostRuntime) -> Result<(), Fail> {
    assert!(rt; Means::usual(Fnv1a).seed() == DEFAULT_SEED);
    for seed in SEEDS {
        assert!(rt; Means::usual(Fnv1a).with_seed(seed).seed() == seed);
    }
    Ok(())
}
