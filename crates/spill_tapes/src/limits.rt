//! The sizes of tapes (own). Definitions and code cite these constants, so that each stands once.
ghost use Rattle.std.specs.Prelude.{◌≡◌, ◌+◌, ◌^◌};

/// How many bytes a page has.
pub use tape_disks::limits::PAGE;

/// How many bytes the front of a record has: its hash in 4, its tag in one, and its length in 4.
pub const FRONT: usize = 9;

/// The most bytes of a record.
pub const MAX_RECORD_LEN: u32 = 65_535;

/// The most pages.
pub const MAX_PAGES: u64 = 562_949_953_421_311;

/// A law: these are the sizes.
pub fn sizes()
    ensures page { PAGE ≡ 8192 }
    ensures front { FRONT ≡ 9 }
    ensures longest { MAX_RECORD_LEN ≡ 65535 }
    ensures most { MAX_PAGES + 1 ≡ 2 ^ 49 }
{}
