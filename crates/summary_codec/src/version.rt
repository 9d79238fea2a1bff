//! The versions of a summary file.

ghost use Rattle.std.specs.Prelude.{◌≡◌, ◌≤◌, ◌*◌};
ghost use Rattle.agg_protocol.specs.States.{most_rows};
ghost use Rattle.summary_codec.specs.Versions.{opening, most_batch_rows, last_number};

use grouping_model::limits::{LAST_NUMBER, MAX_ROWS};

/// The greatest number of a batch in a file of the first version.
pub const LAST_NUMBER_OF_FIRST: u32 = 2_147_483_647;

/// The most rows of a batch in a file of the first version.
pub const MAX_ROWS_OF_FIRST: u32 = 65_536;

/// A version of a summary file: what it begins with, and its bounds. Both versions have one layout. Files are written in the second.
#[derive(Clone, Copy)]
pub enum Version {
    /// `AGGSUM01`: numbers go to 2,147,483,647, and a batch has at most 65,536 rows.
    First,
    /// `AGGSUM02`: numbers and rows go to the limits of a batch.
    Second,
}

impl Version {
    /// What a file of the version begins with.
    pub(crate) fn opening(self) -> &'static [u8]
        ensures { result.now ≡ opening self }
    {
        match self {
            Version::First => b"AGGSUM01",
            Version::Second => b"AGGSUM02",
        }
    }

    /// The greatest number of a batch.
    pub(crate) fn last_number(self) -> u32
        ensures { result ≡ last_number self }
    {
        match self {
            Version::First => LAST_NUMBER_OF_FIRST,
            Version::Second => LAST_NUMBER,
        }
    }

    /// The most rows of a batch.
    pub(crate) fn most_batch_rows(self) -> u32
        ensures rows { result ≡ most_batch_rows self }
        ensures limit { result ≤ MAX_ROWS }
    {
        match self {
            Version::First => MAX_ROWS_OF_FIRST,
            Version::Second => MAX_ROWS,
        }
    }

    /// The most rows that the batches 1 to a number have.
    pub(crate) fn rows_upto(self, number: u32) -> u64
        ensures rows { result ≡ number * most_batch_rows self }
        ensures few { result ≤ most_rows }
    {
        u64::from(number) * u64::from(self.most_batch_rows())
    }
}
