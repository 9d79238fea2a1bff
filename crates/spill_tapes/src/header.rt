//! The fronts of records on a tape.
ghost use Rattle.std.specs.Prelude.{◌≡◌, ◌+◌, ◌≤◌, ◌<◌, ℕ, length, get_or};
ghost use Rattle.spill_tapes.specs.Records.{number_at, header_of};

use crate::limits::FRONT;

/// The front of a record: its hash, its tag, and how many bytes follow.
#[derive(Clone, Copy)]
pub(crate) struct Header {
    pub(crate) hash: u32,
    pub(crate) tag: u8,
    pub(crate) len: u32,
}

/// The number of four bytes, the highest first.
#[tactic(auto, unfolding(crate::specs::Records::number_at))]
fn number(bytes: &[u8], at: usize) -> u32
    requires { at + 4 ≤ length bytes.now }
    ensures { result ≡ number_at bytes.now at }
{
    u32::from_be_bytes([bytes[at], bytes[at + 1], bytes[at + 2], bytes[at + 3]])
}

impl Header {
    /// The front of a record that has these bytes.
    pub(crate) fn read(bytes: &[u8]) -> Header
        requires { length bytes.now ≡ FRONT }
        ensures hash { result.hash ≡ number_at bytes.now 0 }
        ensures tag { result.tag ≡ get_or bytes.now 4 0 }
        ensures len { result.len ≡ number_at bytes.now 5 }
    {
        Header {
            hash: number(bytes, 0),
            tag: bytes[4],
            len: number(bytes, 5),
        }
    }

    /// Its bytes.
    #[tactic(auto, unfolding(crate::specs::Records::header_of))]
    pub(crate) fn to_bytes(self) -> [u8; FRONT]
        ensures { result ≡ header_of self.hash self.tag self.len }
    {
        let [a, b, c, d] = self.hash.to_be_bytes();
        let [e, f, g, h] = self.len.to_be_bytes();
        [a, b, c, d, self.tag, e, f, g, h]
    }
}
