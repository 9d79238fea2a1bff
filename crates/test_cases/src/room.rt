//! Where a call finds memory.

use crate::hoard::Hoard;
use std::alloc::{AllocError, Global};

/// Growths of so many bytes stand where a room of all memory is entered and left, for `bin/refuse_growths`, which refuses those between.
const ENTERED: usize = 1_000_003;

const LEFT: usize = 1_000_033;

/// Asks for so many bytes, and gives them back.
fn mark(alloc: Global, bytes: usize) -> Result<(), AllocError> {
    let marked = Vec::<u8>::with_capacity(alloc, bytes)?;
    drop(marked);
    Ok(())
}

/// Where a call finds memory, once it is entered.
#[derive(Drop)]
pub enum Room<'h> {
    /// All that there is.
    Open,
    /// The same, with a mark where it is entered and one where it is left.
    Marked(Global),
    /// So many bytes.
    Small(&'h mut Hoard, usize),
}

impl Room<'_> {
    /// From now on there is so much memory.
    pub fn enter(&mut self) -> Result<(), AllocError> {
        match self {
            Room::Open => Ok(()),
            Room::Marked(alloc) => mark(*alloc, ENTERED),
            Room::Small(hoard, bytes) => hoard.leave(*bytes),
        }
    }

    /// From now on there is enough again.
    pub fn leave(&mut self) {
        match self {
            Room::Open => {}
            Room::Marked(alloc) => {
                // Nothing hangs on the mark but where growths are refused.
                let _ = mark(*alloc, LEFT);
            }
            Room::Small(hoard, _) => hoard.give_back(),
        }
    }
}
