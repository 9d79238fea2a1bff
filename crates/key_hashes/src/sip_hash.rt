//! The hash function SipHash-1-3, with a secret key.
ghost use Rattle.std.specs.Prelude.{◌≡◌, ◌+◌, ◌%◌, ◌^◌, ◌≤◌, ℕ, List, length};
ghost use Rattle.key_hashes.specs.SipHashes.{round, first_words, with_word, word_at, last_word, finished, sip_hash, low_hash};

use crate::hash::KeyHash;

/// The 128 bits from which a [`SipHash`] is made.
///
/// Take them from the system's source of random numbers, and keep them secret: whoever knows them can make many keys of one hash. The
/// contents of a table, and their order, do not depend on the seed.
#[derive(Clone, Copy, PartialEq, Eq)]
pub struct Seed {
    /// The first 64 bits: SipHash's `k0`.
    pub low: u64,
    /// The last 64 bits: SipHash's `k1`.
    pub high: u64,
}

/// The hash function SipHash-1-3 (J.-P. Aumasson, D. J. Bernstein: SipHash, a fast short-input PRF, 2012), of which the low 32 bits are
/// used.
///
/// It is designed so that nobody finds keys of one hash without the seed. No contract says that this holds.
#[derive(Clone, Copy)]
pub struct SipHash {
    seed: Seed,
}

/// The four words of the state between the words of a key.
#[derive(Clone, Copy)]
pub(crate) struct Words {
    v0: u64,
    v1: u64,
    v2: u64,
    v3: u64,
}

/// The state after one SipRound.
fn round(words: Words) -> Words
    ensures { result ≡ round words }
{
    let v0 = words.v0.wrapping_add(words.v1);
    let v2 = words.v2.wrapping_add(words.v3);
    let v1 = words.v1.rotate_left(13) ^ v0;
    let v3 = words.v3.rotate_left(16) ^ v2;
    let last0 = v0.rotate_left(32).wrapping_add(v3);
    let last2 = v2.wrapping_add(v1);
    Words {
        v0: last0,
        v1: v1.rotate_left(17) ^ last2,
        v2: last2.rotate_left(32),
        v3: v3.rotate_left(21) ^ last0,
    }
}

/// The state before the first word of a key.
fn first_words(seed: Seed) -> Words
    ensures { result ≡ first_words seed }
{
    Words {
        v0: seed.low ^ 0x736f6d6570736575,
        v1: seed.high ^ 0x646f72616e646f6d,
        v2: seed.low ^ 0x6c7967656e657261,
        v3: seed.high ^ 0x7465646279746573,
    }
}

/// The state after one more word.
fn with_word(words: Words, word: u64) -> Words
    ensures { result ≡ with_word words word }
{
    let Words { v0, v1, v2, v3 } = words;
    let Words { v0, v1, v2, v3 } = round(Words {
        v0,
        v1,
        v2,
        v3: v3 ^ word,
    });
    Words {
        v0: v0 ^ word,
        v1,
        v2,
        v3,
    }
}

/// The eight bytes of a key from a place on, the lowest first.
fn word_at(key: &[u8], at: usize) -> u64
    requires { at + 8 ≤ length key.now }
    ensures { result ≡ word_at key.now at }
{
    u64::from_le_bytes([
        key[at],
        key[at + 1],
        key[at + 2],
        key[at + 3],
        key[at + 4],
        key[at + 5],
        key[at + 6],
        key[at + 7],
    ])
}

/// The bytes of a key after its last whole word, and its length in the topmost byte.
fn last_word(key: &[u8]) -> u64
    ensures { result ≡ last_word key.now }
{
    let whole = key.len() / 8 * 8;
    let mut word = (key.len() as u64 % 256) << 56;
    for place in 0..key.len() % 8 {
        word |= u64::from(key[whole + place]) << (8 * place as u32);
    }
    word
}

/// The hash after the last word.
fn finished(words: Words) -> u64
    ensures { result ≡ finished words }
{
    let Words { v0, v1, v2, v3 } = words;
    let last = round(round(round(Words {
        v0,
        v1,
        v2: v2 ^ 0xff,
        v3,
    })));
    last.v0 ^ last.v1 ^ last.v2 ^ last.v3
}

impl SipHash {
    /// The hash function with this seed.
    pub fn new(seed: Seed) -> SipHash
        ensures { (key : List ℕ) → low_hash result key ≡ sip_hash seed key % 2 ^ 32 }
    {
        SipHash { seed }
    }
}

impl KeyHash for SipHash {
    ghost hash_of = { low_hash };

    fn key_hash(&self, key: &[u8]) -> u32 {
        let mut words = first_words(self.seed);
        for place in 0..key.len() / 8 {
            words = with_word(words, word_at(key, 8 * place));
        }
        (finished(with_word(words, last_word(key))) % 4294967296) as u32
    }
}
