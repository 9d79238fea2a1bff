//! What one site lacks of another, as a file in place of the whole.

use command_replicas::{create, feed, load, merge};
use hash_agg::{Executor, Fnv1a, Means, MemDisk};
use refusals::Refusal;
use replica_merge::Replica;
use std::alloc::Global;
use std::test::*;
use test_aggregation::{COLUMNS, TOWNS};

/// How many origins the sites know.
const ORIGINS: u16 = 200;

/// The batches of each origin that the sender knows.
const NUMBERS: [u32; 5] = [1, 2, 3, 5, 6];

/// Whether the receiver knows a batch: it has all of an origin, all but an early batch, a shorter prefix, or nothing.
fn is_received(origin: u16, number: u32) -> bool {
    match origin % 4 {
        0 => true,
        1 => number < 6,
        2 => number == 1 || number == 3,
        _ => false,
    }
}

/// Feeds a site its batches.
fn feed_all(alloc: Global, replica: &mut Replica, is_sender: bool) -> Result<(), Refusal> {
    let (means, mut disk) = (Means::usual(Fnv1a), MemDisk::new(alloc));
    let mut executor = Executor::new();
    for origin in 0..ORIGINS {
        for number in NUMBERS {
            if is_sender || is_received(origin, number) {
                let batch = format!(in alloc; "batch,{origin},{number},1\noslo,{number}\n")?;
                let batch = batch.as_bytes();
                feed(alloc, replica, batch, &means, &mut disk, &mut executor)?;
            }
        }
    }
    Ok(())
}

/// The file of a site.
fn file_of(alloc: Global, is_sender: bool) -> Result<Vec<u8>, Refusal> {
    let mut replica = create(alloc, COLUMNS, TOWNS)?;
    let fed = feed_all(alloc, &mut replica, is_sender);
    let file = replica.save();
    drop(replica);
    fed?;
    Ok(file?)
}

/// What another site lacks, which knows what its file tells.
fn delta_for(alloc: Global, sender: &Replica, receiver: &[u8]) -> Result<Vec<u8>, Refusal> {
    let receiver = load(alloc, receiver)?;
    let known = receiver.known();
    drop(receiver);
    let delta = sender.lacking(&known?)?;
    let file = delta.save();
    drop(delta);
    Ok(file?)
}

/// The same of the sender's file.
fn delta_of(alloc: Global, sender: &[u8], receiver: &[u8]) -> Result<Vec<u8>, Refusal> {
    let sender = load(alloc, sender)?;
    let delta = delta_for(alloc, &sender, receiver);
    drop(sender);
    delta
}

/// The file of a site once it took in another file.
fn merged(alloc: Global, own: &[u8], other: &[u8]) -> Result<Vec<u8>, Refusal> {
    let mut replica = load(alloc, own)?;
    let (means, mut disk) = (Means::usual(Fnv1a), MemDisk::new(alloc));
    let mut executor = Executor::new();
    let done = merge(alloc, &mut replica, other, &means, &mut disk, &mut executor);
    let file = replica.save();
    drop(replica);
    done?;
    Ok(file?)
}

#[test]
fn a_delta_serves_as_the_whole(rt: HostRuntime) -> Result<(), Fail> {
    let alloc = rt.alloc();
    let (whole, own) = (file_of(alloc, true)?, file_of(alloc, false)?);
    let delta = delta_of(alloc, &whole, &own)?;
    let done = merged(alloc, &own, &delta)?;
    assert!(rt; delta.len() < whole.len());
    assert!(rt; done == merged(alloc, &own, &whole)?);
    assert!(rt; done == merged(alloc, &done, &delta)?);
    let nothing = delta_of(alloc, &whole, &done)?;
    assert!(rt; nothing.len() < 100);
    assert!(rt; own == merged(alloc, &own, &nothing)?);
    Ok(())
}
