//! Hash functions of keys.

ghost use Rattle.std.specs.Prelude.{◌≡◌, ◌*◌, ◌%◌, ℕ, List};
ghost use Rattle.key_hashes.specs.Hashes.{fnv_1a};

/// A hash function: from the bytes of a key to a number of 32 bits, by which the key is looked up.
///
/// Results are right with any function. If many keys have the same hash, a table of them is slow.
pub trait KeyHash {
    /// The hash of a key's bytes.
    ghost hash_of: { Self → List ℕ → ℕ };

    /// The hash of a key: always the same of the same bytes.
    fn key_hash(&self, key: &[u8]) -> u32
        ensures { result ≡ hash_of self.now key.now };
}

/// The hash function FNV-1a of 32 bits (G. Fowler, L. C. Noll, K.-P. Vo; RFC 9923).
#[derive(Clone, Copy, Debug, Default, PartialEq, Eq)]
pub struct Fnv1a;

impl KeyHash for Fnv1a {
    ghost hash_of = { λ _ key. fnv_1a key };

    fn key_hash(&self, key: &[u8]) -> u32 {
        let mut hash: u32 = 2166136261;
        for byte in key {
            hash = (hash ^ u32::from(*byte)).wrapping_mul(16777619);
        }
        hash
    }
}
