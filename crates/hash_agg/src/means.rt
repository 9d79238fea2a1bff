//! What an aggregation may use.

ghost use Rattle.std.specs.Prelude.{◌≡◌, ◌≤◌, ◌<◌, ◌⊎◌, IfOk, IfErr};

use group_table::{KeyHash, Seed};
use std::marker::Model;
use thiserror::Error;

/// The least limit of an aggregation, in bytes.
pub const MIN_LIMIT: u64 = 65_536;

/// The greatest limit of an aggregation, in bytes.
pub const MAX_LIMIT: u64 = 1_099_511_627_776;

/// The default limit, in bytes.
pub const DEFAULT_LIMIT: u64 = 4_194_304;

/// The default seed.
pub const DEFAULT_SEED: Seed = Seed { low: 0, high: 0 };

/// A limit is less than the least one, or more than the greatest.
#[derive(Clone, Copy, Debug, PartialEq, Eq, Error)]
#[error("a limit is 65,536 to 1,099,511,627,776 bytes")]
pub struct LimitOutOfRange;

/// What an aggregation may use: a limit in bytes on the blocks of its table of groups, and a hash function. By this it spills what does not
/// fit the limit. The disk to which it spills is a separate argument.
///
/// The table itself finds keys by a hash function with a seed. No result and no page on the disk depends on the seed. But whoever knows it
/// can make many keys of one hash, with which the table is slow. So if others choose the keys, take a random seed.
#[derive(Drop)]
pub struct Means<H: KeyHash + Copy> {
    limit: u64,
    hash: H,
    seed: Seed,
}

impl<H: KeyHash + Copy> Model for Means<H> {
    ghost use Rattle.hash_agg.specs.Means.{MeansState, AreMeans};

    ghost Value = { MeansState H };

    ghost view = { λ m. record { limit = m.limit; hash = m.hash; seed = m.seed } };

    ghost invariant = { λ m. AreMeans m.limit };
}

impl<H: KeyHash + Copy> Means<H> {
    /// A limit in bytes, from 65,536 to 1,099,511,627,776 (1 TiB), and a hash function. The seed is a fixed one. Any other
    /// limit is `LimitOutOfRange`.
    pub fn new(limit: u64, hash: H) -> Result<Means<H>, LimitOutOfRange>
        ensures means { IfOk result (λ means. means ≡ record { limit = limit; hash = hash; seed = DEFAULT_SEED }) }
        ensures within { IfOk result (λ _. (MIN_LIMIT ≤ limit) × (limit ≤ MAX_LIMIT)) }
        ensures refused { IfErr result (λ _. (limit < MIN_LIMIT) ⊎ (MAX_LIMIT < limit)) }
    {
        if limit < MIN_LIMIT || limit > MAX_LIMIT {
            return Err(LimitOutOfRange);
        }
        Ok(Means {
            limit,
            hash,
            seed: DEFAULT_SEED,
        })
    }

    /// The default limit, of 4,194,304 bytes (4 MiB), and a hash function. The seed is a fixed one.
    pub fn usual(hash: H) -> Means<H>
        ensures { result ≡ record { limit = DEFAULT_LIMIT; hash = hash; seed = DEFAULT_SEED } }
    {
        Means {
            limit: DEFAULT_LIMIT,
            hash,
            seed: DEFAULT_SEED,
        }
    }

    /// The same means with another seed of the table.
    pub fn with_seed(self, seed: Seed) -> Means<H>
        ensures { result ≡ record self { seed = seed } }
    {
        Means {
            limit: self.limit,
            hash: self.hash,
            seed,
        }
    }

    /// The limit, in bytes.
    pub fn limit(&self) -> u64
        ensures limit { result ≡ self.now.limit }
        ensures within { (MIN_LIMIT ≤ result) × (result ≤ MAX_LIMIT) }
    {
        self.limit
    }

    /// The hash function.
    pub fn hash(&self) -> H
        ensures { result ≡ self.now.hash }
    {
        self.hash
    }

    /// The seed of the table.
    pub fn seed(&self) -> Seed
        ensures { result ≡ self.now.seed }
    {
        self.seed
    }
}
