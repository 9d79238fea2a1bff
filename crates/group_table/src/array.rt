//! Arrays of buckets that are chunks of a context.
ghost use Rattle.std.specs.Prelude.{◌≡◌, ◌+◌, ◌<◌, ◌≤◌, ℕ, None, IfSome, false};
ghost use Rattle.chunk_layout.specs.Contents.{place_of, same_place};
ghost use Rattle.context_tree.specs.Calls.{OnContext, Frees};
ghost use Rattle.context_tree.specs.Tree.{context_at};
ghost use Rattle.group_table.specs.Buckets.{bucket_at};
ghost use Rattle.group_table.specs.Index.{IsIndex, IsFreeFor, in_use, Puts, HasAll};
ghost use Rattle.group_table.specs.Arrays.{IsRewritten, IsArrayAt, OnlyIn, bytes_at, count_of};

use crate::bucket::{BUCKET, Bucket, bucket_at};
use crate::index::put;
use crate::search::chunk;
use chunk_layout::ChunkName;
use context_tree::{ContextId, Tree};

/// Puts a bucket in use into an array that has a free one: the one that a search for its hash met, if that is known.
pub(crate) fn put_into(
    tree: &mut Tree,
    id: ContextId,
    name: ChunkName,
    met: Option<usize>,
    bucket: Bucket,
)
    requires array { IsArrayAt tree.old id name }
    requires index { IsIndex (bytes_at tree.old id name) (count_of name) }
    requires room { in_use (bytes_at tree.old id name) (count_of name) < count_of name }
    requires met { IfSome met (IsFreeFor (bytes_at tree.old id name) (count_of name) bucket.hash) }
    ensures only { OnlyIn id tree.old tree.new }
    ensures rewritten { IsRewritten (context_at tree.old id) (context_at tree.new id) name }
    ensures index { IsIndex (bytes_at tree.new id name) (count_of name) }
    ensures more { in_use (bytes_at tree.new id name) (count_of name) ≡ in_use (bytes_at tree.old id name) (count_of name) + 1 }
    ensures put { Puts (bytes_at tree.old id name) (bytes_at tree.new id name) (count_of name) bucket }
{
    let array = tree.bytes_mut(id, name);
    let count = array.len() / BUCKET;
    put(array, count, met, bucket);
}

/// Puts all buckets of an array into another of the same context that has none and is as long or longer.
pub(crate) fn refill(tree: &mut Tree, id: ContextId, from: ChunkName, to: ChunkName)
    requires from { IsArrayAt tree.old id from }
    requires to { IsArrayAt tree.old id to }
    requires apart { same_place (place_of to) (place_of from) ≡ false }
    requires longer { from.len ≤ to.len }
    requires empty { (place : ℕ) → place < count_of to → bucket_at (bytes_at tree.old id to) place ≡ None }
    ensures only { OnlyIn id tree.old tree.new }
    ensures rewritten { IsRewritten (context_at tree.old id) (context_at tree.new id) to }
    ensures all { HasAll (bytes_at tree.new id to) (count_of to) (bytes_at tree.old id from) (count_of from) }
{
    let count = from.len as usize / BUCKET;
    for place in 0..count {
        if let Some(bucket) = bucket_at(chunk(tree, id, from), place) {
            put_into(tree, id, to, None, bucket);
        }
    }
}

/// Frees an array of a set.
pub(crate) fn give_up(tree: &mut Tree, id: ContextId, name: ChunkName)
    requires { IsArrayAt tree.old id name }
    ensures { OnContext id tree.old tree.new (Frees name) }
{
    tree.free(id, name).unwrap()
}
