//! Trials of what replicas do. Each makes a call in a room, and makes it again where it is refused.

use crate::met::{Met, met_if, twice};
use crate::sites::Site;
use command_replicas::load;
use hash_agg::{Executor, Fnv1a, Means, MemDisk};
use replica_merge::{RefusedBatch, Replica};
use replies::{Format, Refusal, table};
use std::test::*;
use test_cases::Room;

/// Delivers the batch of a site to its replica, by an executor.
fn delivered_by(
    rt: HostRuntime,
    site: &Site,
    limit: u64,
    room: &mut Room<'_>,
    replica: &mut Replica,
    executor: &mut Executor,
) -> Result<Met, Refusal> {
    let batch = site.next_batch(rt.alloc(), replica.query())?;
    let means = Means::new(limit, Fnv1a)?;
    let mut disk = MemDisk::new(rt.alloc());
    room.enter()?;
    let first = replica.deliver(batch, &means, &mut disk, executor);
    room.leave();
    let Err(RefusedBatch { batch, why }) = first else {
        let holds = site.delivered.is(rt.alloc(), replica)?;
        return Ok(met_if(holds, Met::Nothing, Met::OtherAnswer));
    };
    if Refusal::of_origin(batch.origin, why) != Refusal::NoMemory {
        return Ok(Met::OtherRefusal);
    }
    if !site.own.is(rt.alloc(), replica)? {
        return Ok(Met::Changed);
    }
    if replica.deliver(batch, &means, &mut disk, executor).is_err() {
        return Ok(Met::RefusedAgain);
    }
    let holds = site.delivered.is(rt.alloc(), replica)?;
    Ok(met_if(holds, Met::Refusal, Met::OtherAnswer))
}

/// Delivers the batch of a site to its replica.
fn delivered(
    rt: HostRuntime,
    site: &Site,
    limit: u64,
    room: &mut Room<'_>,
    replica: &mut Replica,
) -> Result<Met, Refusal> {
    let mut executor = Executor::new();
    let met = delivered_by(rt, site, limit, room, replica, &mut executor);
    let _work = executor.into_work();
    met
}

/// A batch is delivered, which is folded with two that came early.
pub(crate) fn deliver(
    rt: HostRuntime,
    site: &Site,
    limit: u64,
    room: &mut Room<'_>,
) -> Result<Met, Refusal> {
    let mut replica = load(rt.alloc(), &site.own.file)?;
    let met = delivered(rt, site, limit, room, &mut replica);
    drop(replica);
    met
}

/// Merges a replica into that of a site, by an executor.
fn merged_by(
    rt: HostRuntime,
    site: &Site,
    limit: u64,
    room: &mut Room<'_>,
    replica: &mut Replica,
    other: &Replica,
    executor: &mut Executor,
) -> Result<Met, Refusal> {
    let means = Means::new(limit, Fnv1a)?;
    let mut disk = MemDisk::new(rt.alloc());
    room.enter()?;
    let first = replica.merge(other, &means, &mut disk, executor);
    room.leave();
    let Err(why) = first else {
        let holds = site.merged.is(rt.alloc(), replica)? && site.other.is(rt.alloc(), other)?;
        return Ok(met_if(holds, Met::Nothing, Met::OtherAnswer));
    };
    if Refusal::from(why) != Refusal::NoMemory {
        return Ok(Met::OtherRefusal);
    }
    if !site.own.is(rt.alloc(), replica)? || !site.other.is(rt.alloc(), other)? {
        return Ok(Met::Changed);
    }
    if replica.merge(other, &means, &mut disk, executor).is_err() {
        return Ok(Met::RefusedAgain);
    }
    let holds = site.merged.is(rt.alloc(), replica)? && site.other.is(rt.alloc(), other)?;
    Ok(met_if(holds, Met::Refusal, Met::OtherAnswer))
}

/// Merges a replica into that of a site.
fn merged(
    rt: HostRuntime,
    site: &Site,
    limit: u64,
    room: &mut Room<'_>,
    replica: &mut Replica,
    other: &Replica,
) -> Result<Met, Refusal> {
    let mut executor = Executor::new();
    let met = merged_by(rt, site, limit, room, replica, other, &mut executor);
    let _work = executor.into_work();
    met
}

/// Merges the other replica of a site into one.
fn merge_other(
    rt: HostRuntime,
    site: &Site,
    limit: u64,
    room: &mut Room<'_>,
    replica: &mut Replica,
) -> Result<Met, Refusal> {
    let other = load(rt.alloc(), &site.other.file)?;
    let met = merged(rt, site, limit, room, replica, &other);
    drop(other);
    met
}

/// Replicas of several origins are merged, of the second with early batches that follow then.
pub(crate) fn merge(
    rt: HostRuntime,
    site: &Site,
    limit: u64,
    room: &mut Room<'_>,
) -> Result<Met, Refusal> {
    let mut replica = load(rt.alloc(), &site.own.file)?;
    let met = merge_other(rt, site, limit, room, &mut replica);
    drop(replica);
    met
}

/// What became of a call that gives bytes, and of the same call made again. Neither changes the replica.
fn given(
    rt: HostRuntime,
    site: &Site,
    replica: &Replica,
    first: Result<Vec<u8>, Refusal>,
    again: Result<Vec<u8>, Refusal>,
    wanted: &[u8],
) -> Result<Met, Refusal> {
    if !site.own.is(rt.alloc(), replica)? {
        return Ok(Met::Changed);
    }
    Ok(twice(first, again, wanted))
}

/// The table of a replica's answer.
fn table_of(rt: HostRuntime, replica: &Replica) -> Result<Vec<u8>, Refusal> {
    Ok(table(rt.alloc(), replica, Format::Csv)?.1)
}

/// A replica of several origins answers.
pub(crate) fn answer(rt: HostRuntime, site: &Site, room: &mut Room<'_>) -> Result<Met, Refusal> {
    let replica = load(rt.alloc(), &site.own.file)?;
    let entered = room.enter();
    let first = table_of(rt, &replica);
    room.leave();
    let again = table_of(rt, &replica);
    let met = given(rt, site, &replica, first, again, &site.table);
    drop(replica);
    entered?;
    met
}

/// The file of a replica.
fn saved(replica: &Replica) -> Result<Vec<u8>, Refusal> {
    Ok(replica.save()?)
}

/// A replica is saved.
pub(crate) fn keep(rt: HostRuntime, site: &Site, room: &mut Room<'_>) -> Result<Met, Refusal> {
    let replica = load(rt.alloc(), &site.own.file)?;
    let entered = room.enter();
    let first = saved(&replica);
    room.leave();
    let met = given(rt, site, &replica, first, saved(&replica), &site.own.file);
    drop(replica);
    entered?;
    met
}

/// Whether what was loaded is the replica of a site.
fn is_own(
    rt: HostRuntime,
    site: &Site,
    loaded: Result<Replica, Refusal>,
    wanted: Met,
) -> Result<Met, Refusal> {
    match loaded {
        Ok(replica) => {
            let holds = site.own.is(rt.alloc(), &replica);
            drop(replica);
            Ok(met_if(holds?, wanted, Met::OtherAnswer))
        }
        Err(_) => Ok(Met::RefusedAgain),
    }
}

/// A file is loaded.
pub(crate) fn read(rt: HostRuntime, site: &Site, room: &mut Room<'_>) -> Result<Met, Refusal> {
    room.enter()?;
    let first = load(rt.alloc(), &site.own.file);
    room.leave();
    match first {
        Ok(replica) => is_own(rt, site, Ok(replica), Met::Nothing),
        Err(Refusal::NoMemory) => is_own(rt, site, load(rt.alloc(), &site.own.file), Met::Refusal),
        Err(_) => Ok(Met::OtherRefusal),
    }
}
