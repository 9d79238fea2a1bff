//! The search for a key in an array of buckets.
ghost use Rattle.std.specs.Prelude.{◌≡◌, ◌≢◌, ◌<◌, ◌≤◌, ◌+◌, ◌*◌, ℕ, true, Some, IsTrue, MatchBool, length};
ghost use Rattle.context_tree.specs.Contexts.{has_chunk, chunk_bytes};
ghost use Rattle.context_tree.specs.Tree.{is_there, context_at};
ghost use Rattle.group_table.specs.Buckets.{bucket_at};
ghost use Rattle.group_table.specs.Index.{IsIndex, Holds, in_use};
ghost use Rattle.group_table.specs.Search.{Meets, Tells, Finds};
ghost use Rattle.group_table.specs.declared.bucket.Bucket.{Bucket};

use crate::bucket::{Bucket, bucket_at, hash_at};
use crate::index::start_of;
use chunk_layout::ChunkName;
use context_tree::{ContextId, Tree};

/// What a search among some buckets meets first: the bucket of the key, a free one, or neither.
pub(crate) enum Probe {
    Found(Bucket),
    Free(usize),
    Passed,
}

/// What a search among all buckets comes to: the bucket of the key, or the free one that ends it.
pub(crate) enum Sought {
    Found(Bucket),
    Free(usize),
}

/// The bytes of a live chunk of a context that is there.
pub(crate) fn chunk(tree: &Tree, id: ContextId, name: ChunkName) -> &[u8]
    requires there { is_there tree.now id ≡ true }
    requires chunk { IsTrue (has_chunk (context_at tree.now id) name) }
    ensures bytes { result.now ≡ chunk_bytes (context_at tree.now id) name }
    ensures len { length result.now ≡ name.len }
{
    tree.get(id, name).unwrap()
}

/// What a search meets at a place: the bucket of the key with this hash, a free one, or neither. Of most others the hash alone is read.
fn look_at(tree: &Tree, keys: ContextId, array: &[u8], place: usize, hash: u32, key: &[u8]) -> Probe
    requires there { is_there tree.now keys ≡ true }
    requires keys { (b : Bucket) → bucket_at array.now place ≡ Some b → IsTrue (has_chunk (context_at tree.now keys) b.key) }
    requires long { 32 * place + 32 ≤ length array.now }
    ensures { Meets (context_at tree.now keys) array.now place hash key.now result }
{
    let Some(other) = hash_at(array, place) else {
        return Probe::Free(place);
    };
    if other != hash {
        return Probe::Passed;
    }
    let bucket = bucket_at(array, place).unwrap();
    if chunk(tree, keys, bucket.key) == key {
        return Probe::Found(bucket);
    }
    Probe::Passed
}

/// Looks in the buckets from one place on and before another for a key, whose bytes are a chunk of this context.
fn look(
    tree: &Tree,
    keys: ContextId,
    array: &[u8],
    from: usize,
    to: usize,
    hash: u32,
    key: &[u8],
) -> Probe
    requires there { is_there tree.now keys ≡ true }
    requires keys { (place : ℕ) → (b : Bucket) → place < to → bucket_at array.now place ≡ Some b
        → IsTrue (has_chunk (context_at tree.now keys) b.key) }
    requires long { 32 * to ≤ length array.now }
    ensures { Tells (context_at tree.now keys) array.now from to hash key.now result }
{
    for place in from..to {
        match look_at(tree, keys, array, place, hash, key) {
            Probe::Found(bucket) => return Probe::Found(bucket),
            Probe::Free(_) => return Probe::Free(place),
            Probe::Passed => {}
        }
    }
    Probe::Passed
}

/// The bucket of a key in an array of this many buckets, of which one is free; or else the free one at which the search ends.
pub(crate) fn search(
    tree: &Tree,
    keys: ContextId,
    array: &[u8],
    count: usize,
    hash: u32,
    key: &[u8],
) -> Sought
    requires there { is_there tree.now keys ≡ true }
    requires keys { (b : Bucket) → Holds array.now count b → IsTrue (has_chunk (context_at tree.now keys) b.key) }
    requires index { IsIndex array.now count }
    requires room { in_use array.now count < count }
    ensures { Finds (context_at tree.now keys) array.now count hash key.now result }
{
    let start = start_of(hash, count);
    match look(tree, keys, array, start, count, hash, key) {
        Probe::Found(bucket) => return Sought::Found(bucket),
        Probe::Free(place) => return Sought::Free(place),
        Probe::Passed => {}
    }
    match look(tree, keys, array, 0, start, hash, key) {
        Probe::Found(bucket) => Sought::Found(bucket),
        Probe::Free(place) => Sought::Free(place),
        Probe::Passed => unreachable!(),
    }
}
