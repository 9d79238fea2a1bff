//! Calls that take no memory, where there is none: each answers.

use crate::sites::Site;
use chunk_contexts::{AllocSet, Bump, ChunkContext, ContextError, Generation, Slab};
use command_replicas::load;
use context_tree::{Kind, Tree, TreeError};
use group_table::GroupTable;
use hash_agg::{Executor, Fnv1a, Means, MemDisk};
use replica_merge::{Delivered, Replica};
use replies::{Refusal, Reply, put_reply};
use script_io::Fused;
use spill_tapes::{TapeError, TapeId, Tapes};
use std::alloc::{AllocError, Global};
use std::test::*;
use test_cases::Hoard;

/// The bytes of a chunk.
const CHUNK: &[u8] = b"8 bytes.";

/// Whether, with no memory, a chunk is taken where no block is wanted, and stays where it is when it is resized. It is read and given up
/// then, and at last all are.
fn gives_up<C: ChunkContext>(context: &mut C, hoard: &mut Hoard) -> Result<bool, ContextError> {
    let first = context.alloc(CHUNK)?;
    context.free(first)?;
    context.alloc(CHUNK)?;
    hoard.leave(0)?;
    let needs_none = context.growth_for(8) == 0;
    let second = context.alloc(CHUNK)?;
    let second = context.resize(second, 8)?;
    let is_kept = context.get(second) == CHUNK;
    context.free(second)?;
    context.reset();
    Ok(needs_none && is_kept)
}

/// Whether a chunk is taken where no block is wanted, of a kind whose chunks are given up together.
fn gives_up_all<C: ChunkContext>(context: &mut C, hoard: &mut Hoard) -> Result<bool, ContextError> {
    context.alloc(CHUNK)?;
    hoard.leave(0)?;
    let needs_none = context.growth_for(8) == 0;
    let second = context.alloc_zeroed(8)?;
    let is_zero = context.get(second) == [0; 8].as_slice();
    context.reset();
    Ok(needs_none && is_zero)
}

/// What contexts of each kind answer, one behind the other.
fn contexts_told(alloc: Global, hoard: &mut Hoard) -> Result<[bool; 4], ContextError> {
    let set = gives_up(&mut AllocSet::new(alloc), hoard)?;
    hoard.give_back();
    let generation = gives_up(&mut Generation::new(alloc), hoard)?;
    hoard.give_back();
    let slab = gives_up(&mut Slab::new(alloc, 8)?, hoard)?;
    hoard.give_back();
    let bump = gives_up_all(&mut Bump::new(alloc), hoard)?;
    hoard.give_back();
    Ok([set, generation, slab, bump])
}

#[test]
fn contexts_give_up_chunks(rt: HostRuntime) -> Result<(), Fail> {
    let mut hoard = Hoard::new(&rt)?;
    let told = contexts_told(rt.alloc(), &mut hoard);
    drop(hoard);
    assert!(rt; told == Ok([true; 4]));
    Ok(())
}

/// Whether chunks and contexts of a tree are given up, and asked for, with no memory.
fn prunes(tree: &mut Tree, hoard: &mut Hoard) -> Result<bool, TreeError> {
    let root = tree.root();
    let child = tree.create(root, Kind::Generation)?;
    let grandchild = tree.create(child, Kind::Bump)?;
    tree.alloc(grandchild, CHUNK)?;
    let chunk = tree.alloc(child, CHUNK)?;
    hoard.leave(0)?;
    let is_there = tree.get(child, chunk)? == CHUNK && tree.parent(grandchild)? == Some(child);
    let held = tree.held_below(root)? > 0 && tree.growth_for(grandchild, 8)? == 0;
    tree.free(child, chunk)?;
    tree.reset(child)?;
    tree.delete(child)?;
    Ok(is_there && held && !tree.is_live(child) && tree.held(root)? == 0)
}

#[test]
fn trees_are_pruned(rt: HostRuntime) -> Result<(), Fail> {
    let mut hoard = Hoard::new(&rt)?;
    let mut tree = Tree::new(rt.alloc());
    let told = prunes(&mut tree, &mut hoard);
    drop(hoard);
    drop(tree);
    assert!(rt; told == Ok(true));
    Ok(())
}

/// Whether a group is found, and all are given up, with no memory.
fn clears(alloc: Global, tree: &mut Tree, hoard: &mut Hoard) -> Result<bool, TreeError> {
    let root = tree.root();
    let mut table = GroupTable::new(alloc, tree, root, 8, Fnv1a)?;
    if !table.room_for(tree, b"oslo", u64::MAX) {
        return Ok(false);
    }
    table.insert(tree, b"oslo", CHUNK)?;
    hoard.leave(0)?;
    let is_found = match table.find(tree, b"oslo") {
        Some(slot) => table.state(tree, slot) == CHUNK,
        None => false,
    };
    let is_alone = table.find(tree, b"bergen").is_none() && table.len() == 1;
    table.clear(tree);
    Ok(is_found && is_alone && table.len() == 0)
}

#[test]
fn tables_are_cleared(rt: HostRuntime) -> Result<(), Fail> {
    let mut hoard = Hoard::new(&rt)?;
    let mut tree = Tree::new(rt.alloc());
    let told = clears(rt.alloc(), &mut tree, &mut hoard);
    drop(hoard);
    drop(tree);
    assert!(rt; told == Ok(true));
    Ok(())
}

/// Opens a tape and appends a record to it.
fn write_tape(tapes: &mut Tapes, disk: &mut MemDisk) -> Result<TapeId, TapeError> {
    let tape = tapes.open(disk)?;
    tapes.append(disk, tape, 7, 0, CHUNK)?;
    Ok(tape)
}

/// Closes a tape, and tells whether it was open.
fn close(tapes: &mut Tapes, disk: &MemDisk, tape: TapeId) -> bool {
    let was_open = tapes.is_open(tape);
    if was_open {
        tapes.close(disk, tape);
    }
    was_open
}

/// Whether a tape that is written, and one that is read, are closed with no memory.
fn closes(alloc: Global, tapes: &mut Tapes, hoard: &mut Hoard) -> Result<bool, TapeError> {
    let mut disk = MemDisk::new(alloc);
    let written = write_tape(tapes, &mut disk)?;
    let read = write_tape(tapes, &mut disk)?;
    if !tapes.is_dead() && tapes.is_written(read) {
        tapes.rewind(&mut disk, read)?;
    }
    let Ok(()) = hoard.leave(0) else {
        return Err(TapeError::NoMemory);
    };
    let were_open = close(tapes, &disk, written) && close(tapes, &disk, read);
    Ok(were_open && !tapes.is_dead())
}

#[test]
fn tapes_are_closed(rt: HostRuntime) -> Result<(), Fail> {
    let mut hoard = Hoard::new(&rt)?;
    let mut tapes = Tapes::new(rt.alloc());
    let told = closes(rt.alloc(), &mut tapes, &mut hoard);
    drop(hoard);
    drop(tapes);
    assert!(rt; told == Ok(true));
    Ok(())
}

/// What a replica answers, with no memory, to a batch that it knows.
fn knows(
    alloc: Global,
    site: &Site,
    replica: &mut Replica,
    hoard: &mut Hoard,
) -> Result<bool, Refusal> {
    let batch = site.next_batch(alloc, replica.query())?;
    let means = Means::usual(Fnv1a);
    let mut disk = MemDisk::new(alloc);
    hoard.leave(0)?;
    let mut executor = Executor::new();
    let again = replica.deliver(batch, &means, &mut disk, &mut executor);
    let _work = executor.into_work();
    let is_known = matches!(&again, Ok(Delivered::Known));
    drop(again);
    hoard.give_back();
    Ok(is_known)
}

/// The same of the replica of a file.
fn knows_of(alloc: Global, site: &Site, hoard: &mut Hoard) -> Result<bool, Refusal> {
    let mut replica = load(alloc, &site.delivered.file)?;
    let told = knows(alloc, site, &mut replica, hoard);
    drop(replica);
    told
}

#[test]
fn known_batches_are_known(rt: HostRuntime) -> Result<(), Fail> {
    let site = Site::few(rt.alloc())?;
    let mut hoard = Hoard::new(&rt)?;
    let told = knows_of(rt.alloc(), &site, &mut hoard);
    drop(hoard);
    assert!(rt; told == Ok(true));
    Ok(())
}

/// What is replied to a command that was refused, and to one that was not, with no memory.
fn replies(alloc: Global, hoard: &mut Hoard) -> Result<Vec<u8>, AllocError> {
    let mut written = Vec::with_capacity(alloc, 100)?;
    hoard.leave(0)?;
    let mut writer = Fused::new(&mut written);
    let refused = put_reply(&mut writer, &Reply::Refused(Refusal::NoMemory));
    let saved = put_reply(&mut writer, &Reply::Saved(180));
    hoard.give_back();
    if refused.is_err() || saved.is_err() {
        return Err(AllocError);
    }
    Ok(written)
}

#[test]
fn replies_go_out(rt: HostRuntime) -> Result<(), Fail> {
    let mut hoard = Hoard::new(&rt)?;
    let written = replies(rt.alloc(), &mut hoard);
    drop(hoard);
    assert!(rt; written?.as_slice() == b"refused NoMemory\nsaved 180\n".as_slice());
    Ok(())
}
