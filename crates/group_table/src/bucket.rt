//! The bytes of buckets.
ghost use Rattle.std.specs.Prelude.{◌≡◌, ◌≢◌, ◌<◌, ◌≤◌, ◌+◌, ◌*◌, Some, None, ℕ, length, MatchOption};
ghost use Rattle.std.specs.Int.{from_be_bytes, w32};
ghost use Rattle.group_table.specs.Buckets.{number_at, name_at, bucket_in, bucket_at, IsHashOf};

use chunk_layout::ChunkName;

/// How many bytes a bucket has.
pub(crate) const BUCKET: usize = 32;

/// What a bucket in use says of a group: where its key and its state lie, and the hash of its key.
#[derive(Clone, Copy)]
pub(crate) struct Bucket {
    pub(crate) key: ChunkName,
    pub(crate) state: ChunkName,
    pub(crate) hash: u32,
}

/// The number of four bytes, the highest first.
fn number(bytes: &[u8], at: usize) -> u32
    requires { at + 4 ≤ length bytes.now }
    ensures { result ≡ number_at bytes.now at }
{
    u32::from_be_bytes([bytes[at], bytes[at + 1], bytes[at + 2], bytes[at + 3]])
}

/// The name of twelve bytes.
fn name(bytes: &[u8], at: usize) -> ChunkName
    requires { at + 12 ≤ length bytes.now }
    ensures { result ≡ name_at bytes.now at }
{
    ChunkName {
        block: number(bytes, at),
        offset: number(bytes, at + 4),
        len: number(bytes, at + 8),
    }
}

/// Writes a number as four bytes.
fn set_number(bytes: &mut [u8], at: usize, number: u32)
    requires { at + 4 ≤ length bytes.old }
    ensures set { number_at bytes.new at ≡ number }
    ensures before { (other : ℕ) → other + 4 ≤ at → number_at bytes.new other ≡ number_at bytes.old other }
    ensures behind { (other : ℕ) → at + 4 ≤ other → number_at bytes.new other ≡ number_at bytes.old other }
    ensures len { length bytes.new ≡ length bytes.old }
{
    bytes[at..at + 4].copy_from_slice(&number.to_be_bytes());
}

/// Writes a name as twelve bytes.
fn set_name(bytes: &mut [u8], at: usize, name: ChunkName)
    requires { at + 12 ≤ length bytes.old }
    ensures set { name_at bytes.new at ≡ name }
    ensures before { (other : ℕ) → other + 4 ≤ at → number_at bytes.new other ≡ number_at bytes.old other }
    ensures behind { (other : ℕ) → at + 12 ≤ other → number_at bytes.new other ≡ number_at bytes.old other }
    ensures len { length bytes.new ≡ length bytes.old }
{
    set_number(bytes, at, name.block);
    set_number(bytes, at + 4, name.offset);
    set_number(bytes, at + 8, name.len);
}

impl Bucket {
    /// The bucket of 32 bytes, if it is in use.
    fn read(bytes: &[u8]) -> Option<Bucket>
        requires { length bytes.now ≡ 32 }
        ensures { result ≡ bucket_in bytes.now }
    {
        if number(bytes, 28) == 0 {
            return None;
        }
        Some(Bucket {
            key: name(bytes, 0),
            state: name(bytes, 12),
            hash: number(bytes, 24),
        })
    }

    /// The hash of the bucket of 32 bytes, if it is in use.
    fn read_hash(bytes: &[u8]) -> Option<u32>
        requires { length bytes.now ≡ 32 }
        ensures { MatchOption result (bucket_in bytes.now ≡ None) (IsHashOf (bucket_in bytes.now)) }
    {
        if number(bytes, 28) == 0 {
            return None;
        }
        Some(number(bytes, 24))
    }

    /// Writes a bucket in use.
    fn write(self, bytes: &mut [u8])
        requires { length bytes.old ≡ 32 }
        ensures bucket { bucket_in bytes.new ≡ Some self }
        ensures len { length bytes.new ≡ 32 }
    {
        set_name(bytes, 0, self.key);
        set_name(bytes, 12, self.state);
        set_number(bytes, 24, self.hash);
        set_number(bytes, 28, 1);
    }
}

/// The bucket at a place of an array, if it is in use.
pub(crate) fn bucket_at(array: &[u8], place: usize) -> Option<Bucket>
    requires { 32 * place + 32 ≤ length array.now }
    ensures { result ≡ bucket_at array.now place }
{
    let start = place * BUCKET;
    Bucket::read(&array[start..start + BUCKET])
}

/// The hash of the bucket at a place of an array, if it is in use: less to read than the bucket.
pub(crate) fn hash_at(array: &[u8], place: usize) -> Option<u32>
    requires { 32 * place + 32 ≤ length array.now }
    ensures { MatchOption result (bucket_at array.now place ≡ None) (IsHashOf (bucket_at array.now place)) }
{
    let start = place * BUCKET;
    Bucket::read_hash(&array[start..start + BUCKET])
}

/// Writes a bucket in use to a place of an array.
pub(crate) fn set_bucket(array: &mut [u8], place: usize, bucket: Bucket)
    requires { 32 * place + 32 ≤ length array.old }
    ensures len { length array.new ≡ length array.old }
    ensures set { bucket_at array.new place ≡ Some bucket }
    ensures others { (other : ℕ) → other ≢ place → bucket_at array.new other ≡ bucket_at array.old other }
{
    let start = place * BUCKET;
    bucket.write(&mut array[start..start + BUCKET]);
}
