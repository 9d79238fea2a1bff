//! Packed rows, some of which may lie in a block with others.

ghost use Rattle.std.specs.Prelude.{◌≡◌, ◌<◌, ◌≤◌, ◌+◌, ◌++◌, ◌∷◌, ◌↔◌, List, [], drop, length, slice_get, take, Some, IsTrue};
ghost use Rattle.std.specs.Prelude.{IfOk, OnOk, OnErr};

use crate::rows_concatenated::RowBlock;
use std::alloc::{AllocError, Global};
use std::marker::Model;
use std::sync::Arc;

/// Where rows lie.
#[derive(Drop)]
enum Held {
    /// There are none.
    Nowhere,
    /// In a block of their own.
    Own(Box<RowBlock>),
    /// In a block that may have others before and behind them, and belong to others, too.
    Among {
        first: u16,
        count: u16,
        block: Arc<RowBlock>,
    },
}

/// Rows in order, each as the bytes of its packing. In a clause they are a list.
///
/// Rows lie end to end, so a row takes no block of memory of its own. Nor do the rows of small batches, if they are parts of what
/// [`gathered`](PackedRows::gathered) gives.
pub struct PackedRows {
    alloc: Global,
    held: Held,
}

// A caller that lets rows go need not look where they lie.
impl Drop for PackedRows {
    fn drop(self) {
        let PackedRows { alloc: _, held } = self;
        drop(held);
    }
}

impl Model for PackedRows {
    ghost use Rattle.std.specs.Prelude.{ℕ, List};
    ghost use Rattle.packed_rows.specs.SharedRows.{rows_held, AreThere};

    ghost Value = { List (List ℕ) };

    ghost view = { λ r. rows_held r.held };

    ghost invariant = { λ r. AreThere r.held };
}

// Rows that are kept by the million take no more than two words besides their bytes.
const _: () = prove!(size_of::<PackedRows>() == 16);

impl PackedRows {
    /// No rows.
    pub fn new(alloc: Global) -> PackedRows
        ensures { result ≡ [] }
    {
        PackedRows {
            alloc,
            held: Held::Nowhere,
        }
    }

    /// How many rows there are.
    pub fn len(&self) -> usize
        ensures { result ≡ length self.now }
    {
        match &self.held {
            Held::Nowhere => 0,
            Held::Own(block) => block.len(),
            Held::Among { count, .. } => *count as usize,
        }
    }

    /// Whether there are no rows.
    pub fn is_empty(&self) -> bool
        ensures { IsTrue result ↔ (self.now ≡ []) }
    {
        self.len() == 0
    }

    /// The bytes of a row, the first row being 0.
    pub fn row(&self, place: usize) -> &[u8]
        requires { place < length self.now }
        ensures { slice_get self.now place ≡ Some result.now }
    {
        match &self.held {
            Held::Nowhere => unreachable!(),
            Held::Own(block) => block.row(place),
            Held::Among { first, block, .. } => block.row(*first as usize + place),
        }
    }

    /// Adds a row at the end. The only error is a failed allocation, which changes nothing.
    #[inline(always)]
    pub fn push(&mut self, packed: &[u8]) -> Result<(), AllocError>
        ensures pushed { OnOk result (self.new ≡ self.old ++ packed.now ∷ []) }
        ensures refused { OnErr result (self.new ≡ self.old) }
    {
        if let Held::Own(block) = &mut self.held {
            return block.push(packed);
        }
        self.push_apart(packed)
    }

    /// The same, in a new block of their own.
    fn push_apart(&mut self, packed: &[u8]) -> Result<(), AllocError>
        ensures pushed { OnOk result (self.new ≡ self.old ++ packed.now ∷ []) }
        ensures refused { OnErr result (self.new ≡ self.old) }
    {
        let mut block = self.copied(0, self.len())?;
        block.push(packed)?;
        self.held = Held::Own(Box::new(self.alloc, block)?);
        Ok(())
    }

    /// A copy of so many rows from a place on, apart.
    fn copied(&self, first: usize, count: usize) -> Result<RowBlock, AllocError>
        requires { first + count ≤ length self.now }
        ensures { IfOk result (λ block. block ≡ take count (drop first self.now)) }
    {
        // No place is behind the last one.
        let _most = self.len();
        let mut block = RowBlock::new(self.alloc);
        for place in 0..count {
            block.push(self.row(first + place))?;
        }
        Ok(block)
    }

    /// Adds other rows at the end. The only error is a failed allocation, after which some of them are added.
    pub fn append(&mut self, other: &PackedRows) -> Result<(), AllocError>
        ensures { OnOk result (self.new ≡ self.old ++ other.now) }
    {
        for place in 0..other.len() {
            self.push(other.row(place))?;
        }
        Ok(())
    }

    /// Whether these are the same rows in the same order.
    pub fn same_rows(&self, other: &PackedRows) -> bool
        ensures { IsTrue result ↔ (self.now ≡ other.now) }
    {
        if self.len() != other.len() {
            return false;
        }
        for place in 0..self.len() {
            if self.row(place) != other.row(place) {
                return false;
            }
        }
        true
    }

    /// A copy of the rows. If they are part of what [`gathered`](PackedRows::gathered) gave, the copy lies in the same block. The only
    /// error is a failed allocation.
    pub fn try_clone(&self, alloc: Global) -> Result<PackedRows, AllocError>
        ensures { IfOk result (λ copy. copy ≡ self.now) }
    {
        let held = match &self.held {
            Held::Nowhere => Held::Nowhere,
            Held::Own(block) => Held::Own(Box::new(alloc, block.try_clone(alloc)?)?),
            Held::Among {
                first,
                count,
                block,
            } => Held::Among {
                first: *first,
                count: *count,
                block: Arc::try_clone(block)?,
            },
        };
        Ok(PackedRows { alloc, held })
    }

    /// A copy of the rows, the parts of which lie in one block with it, unless these are more than 65,535. The only error is a failed
    /// allocation.
    pub fn gathered(&self, alloc: Global) -> Result<PackedRows, AllocError>
        ensures { IfOk result (λ copy. copy ≡ self.now) }
    {
        match (&self.held, u16::try_from(self.len())) {
            (Held::Own(block), Ok(count)) => {
                let held = Held::Among {
                    first: 0,
                    count,
                    block: Arc::new(alloc, block.try_clone(alloc)?)?,
                };
                Ok(PackedRows { alloc, held })
            }
            _ => self.try_clone(alloc),
        }
    }

    /// So many rows from a place on. The only error is a failed allocation.
    pub fn part(&self, first: usize, count: usize) -> Result<PackedRows, AllocError>
        requires { first + count ≤ length self.now }
        ensures { IfOk result (λ part. part ≡ take count (drop first self.now)) }
    {
        let alloc = self.alloc;
        match &self.held {
            Held::Among {
                first: before,
                block,
                ..
            } => {
                let held = Held::Among {
                    first: *before + first as u16,
                    count: count as u16,
                    block: Arc::try_clone(block)?,
                };
                Ok(PackedRows { alloc, held })
            }
            _ => {
                let held = Held::Own(Box::new(alloc, self.copied(first, count)?)?);
                Ok(PackedRows { alloc, held })
            }
        }
    }
}
