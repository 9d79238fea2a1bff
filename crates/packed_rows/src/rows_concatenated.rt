//! Rows end to end.

ghost use Rattle.std.specs.Prelude.{◌≡◌, ◌<◌, ◌≤◌, ◌++◌, ◌∷◌, List, [], length, slice_get, slice_index_or, slice_range, Some};
ghost use Rattle.std.specs.Prelude.{IfOk, OnOk, OnErr};

use std::alloc::{AllocError, Global};
use std::marker::Model;

/// Rows in order, each as the bytes of its packing. In a clause they are a list.
///
/// The rows lie end to end, so a row takes no block of memory of its own.
#[derive(Drop)]
pub(crate) struct RowBlock {
    bytes: Vec<u8>,
    /// Where each row ends.
    ends: Vec<usize>,
}

impl Model for RowBlock {
    ghost use Rattle.std.specs.Prelude.{ℕ, List};
    ghost use Rattle.packed_rows.specs.ConcatenatedRows.{cut, AreRows};

    ghost Value = { List (List ℕ) };

    ghost view = { λ r. cut r.bytes.items 0 r.ends.items };

    ghost invariant = { λ r. AreRows r.bytes.items r.ends.items };
}

/// Where the first `rows` rows end, given where each row ends.
pub fn bound(ends: &[usize], rows: usize) -> usize
    requires { rows ≤ length ends.now }
    ensures { result ≡ slice_index_or (0 ∷ ends.now) rows 0 }
{
    if rows == 0 { 0 } else { ends[rows - 1] }
}

/// The bytes from one place up to another.
pub(crate) fn part(bytes: &[u8], from: usize, to: usize) -> &[u8]
    requires rises { from ≤ to }
    requires within { to ≤ length bytes.now }
    ensures { result.now ≡ slice_range bytes.now from to }
{
    &bytes[from..to]
}

impl RowBlock {
    /// No rows.
    pub(crate) fn new(alloc: Global) -> RowBlock
        ensures { result ≡ [] }
    {
        RowBlock {
            bytes: Vec::new(alloc),
            ends: Vec::new(alloc),
        }
    }

    /// Adds a row at the end. The only error is a failed allocation, which changes nothing.
    #[inline(always)]
    pub(crate) fn push(&mut self, packed: &[u8]) -> Result<(), AllocError>
        ensures pushed { OnOk result (self.new ≡ self.old ++ packed.now ∷ []) }
        ensures refused { OnErr result (self.new ≡ self.old) }
    {
        // With room for the end, nothing fails once the bytes were written.
        self.ends.reserve(1)?;
        self.bytes.extend_from_slice(packed)?;
        self.ends.push(self.bytes.len())?;
        Ok(())
    }

    /// How many rows there are.
    pub(crate) fn len(&self) -> usize
        ensures { result ≡ length self.now }
    {
        self.ends.len()
    }

    /// The bytes of a row, the first row being 0.
    pub(crate) fn row(&self, place: usize) -> &[u8]
        requires { place < length self.now }
        ensures { slice_get self.now place ≡ Some result.now }
    {
        let from = bound(&self.ends, place);
        part(&self.bytes, from, self.ends[place])
    }

    /// A copy of the rows, which has no more room than they take. The only error is a failed allocation.
    pub(crate) fn try_clone(&self, alloc: Global) -> Result<RowBlock, AllocError>
        ensures { IfOk result (λ copy. copy ≡ self.now) }
    {
        Ok(RowBlock {
            bytes: self.bytes.as_slice().to_vec(alloc)?,
            ends: self.ends.as_slice().to_vec(alloc)?,
        })
    }
}
