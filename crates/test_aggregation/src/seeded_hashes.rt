//! The hash function that has a seed.

use group_table::{KeyHash, Seed, SipHash};

/// The seed whose bytes are 0, 1, 2 and so on, as in the function's published vectors.
pub(crate) const RISING: Seed = Seed {
    low: 0x0706050403020100,
    high: 0x0f0e0d0c0b0a0908,
};

/// The secret that CPython makes of `PYTHONHASHSEED=42`.
pub(crate) const OF_PYTHON: Seed = Seed {
    low: 15875276455895994543,
    high: 13339868392117103041,
};

/// The hash of the first bytes of 0, 1, 2 and so on.
fn of_rising(len: usize) -> Option<u32> {
    let bytes: [u8; 16] = [0, 1, 2, 3, 4, 5, 6, 7, 8, 9, 10, 11, 12, 13, 14, 15];
    Some(SipHash::new(RISING).key_hash(bytes.get(..len)?))
}

// The low 32 bits of what SipHash-1-3 gives.
#[test]
fn hashes_are_those_of_sip_hash_1_3(rt: HostRuntime) {
    let told = [0, 1, 7, 8, 9, 15, 16].map(of_rising);
    let wanted = [
        84919516, 2102905491, 2612072768, 2368313998, 1812348388, 709990742, 2106624870,
    ];
    assert!(rt; told == wanted.map(Some));
}

// The low 32 bits of `hash` of CPython 3.11, whose hash function of bytes is SipHash-1-3.
#[test]
fn hashes_are_those_of_another_program(rt: HostRuntime) {
    let keys: [&[u8]; 4] = [
        b"a",
        b"foobar",
        b"oslo and bergen",
        b"a key of thirty-two bytes, no less",
    ];
    let told = keys.map(|key| SipHash::new(OF_PYTHON).key_hash(key));
    assert!(rt; told == [1452430622, 1301710370, 1968120336, 3402341386]);
}
