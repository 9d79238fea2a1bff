//! All memory of the process but so much, held by a test.

use std::alloc::{AllocError, Global};
use std::fs;
use std::test::*;

/// How many bytes a large block has at least.
const LARGE: usize = 1 << 20;

/// How many bytes a block has at least that is asked for by halves. Smaller ones are asked for grain by grain.
const SMALL: usize = 2048;

/// By how many bytes the allocator's blocks differ, and how many of these are the largest that are asked for grain by grain.
const GRAIN: usize = 16;

const GRAINS: usize = SMALL / GRAIN / 2 + 1;

/// How many blocks are set aside, of how many bytes each: rooms are made of them. Each block has some bytes beside.
const ASIDE: usize = 512;

const BLOCK: usize = 65_000;

/// How many blocks may be held.
const MAX_BLOCKS: usize = 1 << 17;

/// All memory that can be had but for a room, in blocks: those that are held all the while, and those that make a room as small as it is.
#[derive(Drop)]
pub struct Hoard {
    alloc: Global,
    kept: Vec<Vec<u8>>,
    around: Vec<Vec<u8>>,
}

/// Takes blocks of a size until there is none.
fn take_all(alloc: Global, blocks: &mut Vec<Vec<u8>>, size: usize) {
    for _ in 0..MAX_BLOCKS {
        let Ok(block) = Vec::with_capacity(alloc, size) else {
            return;
        };
        if blocks.push(block).is_err() {
            return;
        }
    }
}

/// Takes blocks of sizes that fall by halves, of each until there is none.
fn take_halves(alloc: Global, blocks: &mut Vec<Vec<u8>>, from: usize, to: usize) {
    let mut size = from;
    for _ in 0..usize::BITS {
        if size < to {
            return;
        }
        take_all(alloc, blocks, size);
        size /= 2;
    }
}

/// The first word of a file of the system, or nothing where there is none.
fn setting(rt: &HostRuntime, path: &str) -> Result<String, AllocError> {
    match fs::read_to_string(rt, path) {
        Ok(text) => Ok(text),
        Err(_) => Ok(String::new(rt.alloc())),
    }
}

/// Whether the system gives out addresses that no memory stands behind yet, and memory page by page: else who takes all addresses takes
/// the memory of all others.
fn gives_addresses(rt: &HostRuntime) -> Result<bool, AllocError> {
    let promises = setting(rt, "/proc/sys/vm/overcommit_memory")?;
    let pages = setting(rt, "/sys/kernel/mm/transparent_hugepage/enabled")?;
    Ok(!promises.starts_with('2') && !pages.contains("[always]"))
}

impl Hoard {
    /// Takes all memory but what rooms are made of.
    pub fn new(rt: &HostRuntime) -> Result<Hoard, Fail> {
        if !gives_addresses(rt)? {
            return Err(Fail::from(
                "no test can take all memory here: vm.overcommit_memory is 2, or transparent huge pages are always given",
            ));
        }
        Ok(Hoard::take(rt.alloc())?)
    }

    fn take(alloc: Global) -> Result<Hoard, AllocError> {
        let mut kept = Vec::with_capacity(alloc, MAX_BLOCKS)?;
        let mut around = Vec::with_capacity(alloc, MAX_BLOCKS)?;
        for _ in 0..ASIDE {
            around.push(Vec::with_capacity(alloc, BLOCK)?)?;
        }
        // Stands between these and what is not taken yet.
        kept.push(Vec::with_capacity(alloc, GRAIN)?)?;
        take_halves(alloc, &mut kept, 1 << 46, LARGE);
        take_halves(alloc, &mut kept, LARGE / 2, SMALL);
        around.clear();
        Ok(Hoard {
            alloc,
            kept,
            around,
        })
    }

    /// Holds all memory but this many bytes in one piece.
    pub fn leave(&mut self, room: usize) -> Result<(), AllocError> {
        let free = Vec::<u8>::with_capacity(self.alloc, room)?;
        take_halves(self.alloc, &mut self.around, LARGE, SMALL);
        for grains in (1..=GRAINS).rev() {
            take_all(self.alloc, &mut self.around, grains * GRAIN);
        }
        drop(free);
        Ok(())
    }

    /// Gives back what rooms are made of.
    pub fn give_back(&mut self) {
        self.around.clear();
    }
}
