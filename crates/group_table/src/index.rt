//! Arrays of buckets, in which groups are found by the hashes of their keys.
ghost use Rattle.std.specs.Prelude.{◌≡◌, ◌<◌, ◌≤◌, ◌+◌, ◌*◌, ℕ, true, None, IfSome, IfNone, length, is_some};
ghost use Rattle.group_table.specs.Buckets.{bucket_at};
ghost use Rattle.group_table.specs.Index.{start_of, IsPath, IsIndex, IsFreeFor, in_use, Puts};

use crate::bucket::{Bucket, bucket_at, set_bucket};

/// The place in an array of this many buckets where the search for a hash begins.
pub(crate) fn start_of(hash: u32, count: usize) -> usize
    requires { 0 < count }
    ensures start { result ≡ start_of hash count }
    ensures within { result < count }
{
    hash as usize & (count - 1)
}

/// The first free bucket from a place on and before another.
fn first_free(array: &[u8], from: usize, to: usize) -> Option<usize>
    requires { 32 * to ≤ length array.now }
    ensures free { IfSome result (λ place. (from ≤ place) × (place < to) × (bucket_at array.now place ≡ None)) }
    ensures first { IfSome result (λ place. (other : ℕ) → from ≤ other → other < place → is_some (bucket_at array.now other) ≡ true) }
    ensures none { IfNone result ((other : ℕ) → from ≤ other → other < to → is_some (bucket_at array.now other) ≡ true) }
{
    for place in from..to {
        if bucket_at(array, place).is_none() {
            return Some(place);
        }
    }
    None
}

/// The first free bucket of an array that a search from a place comes to.
fn free_place(array: &[u8], count: usize, start: usize) -> usize
    requires long { length array.now ≡ 32 * count }
    requires room { in_use array.now count < count }
    requires start { start < count }
    ensures within { result < count }
    ensures free { bucket_at array.now result ≡ None }
    ensures path { IsPath array.now count start result }
{
    if let Some(place) = first_free(array, start, count) {
        return place;
    }
    first_free(array, 0, start).unwrap()
}

/// The bucket where a hash goes in an array that has a free one: the one that a search met, or else the first one that a search comes to.
fn place_for(array: &[u8], count: usize, hash: u32, met: Option<usize>) -> usize
    requires long { length array.now ≡ 32 * count }
    requires room { in_use array.now count < count }
    requires met { IfSome met (IsFreeFor array.now count hash) }
    ensures { IsFreeFor array.now count hash result }
{
    match met {
        Some(place) => place,
        None => free_place(array, count, start_of(hash, count)),
    }
}

/// Puts a bucket in use into an array that has a free one: the one that a search for its hash met, if that is known.
pub(crate) fn put(array: &mut [u8], count: usize, met: Option<usize>, bucket: Bucket)
    requires index { IsIndex array.old count }
    requires room { in_use array.old count < count }
    requires met { IfSome met (IsFreeFor array.old count bucket.hash) }
    ensures index { IsIndex array.new count }
    ensures more { in_use array.new count ≡ in_use array.old count + 1 }
    ensures put { Puts array.old array.new count bucket }
{
    let place = place_for(array, count, bucket.hash, met);
    set_bucket(array, place, bucket);
}
