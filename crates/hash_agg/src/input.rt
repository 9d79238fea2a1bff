//! What is aggregated.

ghost use Rattle.std.specs.Prelude.{◌≡◌, ◌<◌, Some, length, slice_get};
ghost use Rattle.hash_agg.specs.Inputs.{brought, rows_in, packings_in};

use group_runs::Run;
use packed_rows::PackedRows;

/// Rows, or the partial results of rows.
#[derive(Clone, Copy)]
pub enum Input<'a> {
    /// Rows of the query's table, packed.
    Rows(&'a [Vec<u8>]),
    /// The same, end to end in one string of bytes.
    Packed(&'a PackedRows),
    /// The groups of `run`, no state of which counts more than `rows` rows.
    Groups { run: &'a Run, rows: u64 },
}

impl<'a> Input<'a> {
    /// How many rows it has, or its states count at most.
    pub(crate) fn rows(&self) -> u64
        ensures { result ≡ rows_in (brought self.now) }
    {
        match self {
            Input::Rows(rows) => rows.len() as u64,
            Input::Packed(rows) => rows.len() as u64,
            Input::Groups { rows, .. } => *rows,
        }
    }
}

/// Packed rows: each by itself, or end to end in one string of bytes.
#[derive(Drop)]
pub(crate) enum Packings<'a> {
    Apart(&'a [Vec<u8>]),
    Concatenated(&'a PackedRows),
}

impl<'a> Packings<'a> {
    /// How many rows there are.
    pub(crate) fn len(&self) -> usize
        ensures { result ≡ length (packings_in self.now) }
    {
        match self {
            Packings::Apart(rows) => rows.len(),
            Packings::Concatenated(rows) => rows.len(),
        }
    }

    /// The row at a place.
    pub(crate) fn row(&self, place: usize) -> &'a [u8]
        requires { place < length (packings_in self.now) }
        ensures { slice_get (packings_in self.now) place ≡ Some result.now }
    {
        match self {
            Packings::Apart(rows) => match rows.get(place) {
                Some(row) => row,
                None => unreachable!(),
            },
            Packings::Concatenated(rows) => rows.row(place),
        }
    }
}
