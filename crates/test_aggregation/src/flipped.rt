//! A disk that changes what it gives back, and what an aggregation makes of it.

use crate::passes::refused;
use crate::towns::{COLUMNS, query};
use spill_tapes::{FlipDisk, MemDisk};
use std::alloc::Global;
use std::test::*;
use test_cases::expect_lines;

/// A query whose WHERE is true of all 385 towns.
const LOW_TOWNS: &str = "SELECT c, count(*), sum(d) FROM batches WHERE d < 1000 GROUP BY c";

/// A disk in memory that flips the bits of one number in the byte that another names.
fn flip_disk(alloc: Global, flip: &str) -> Result<FlipDisk<MemDisk>, Fail> {
    let (place, bits) = flip.split_once(' ').ok_or("no place and bits")?;
    let place: u64 = place.parse()?;
    let bits: u8 = bits.parse()?;
    if place >= 8192 || bits == 0 {
        return Err(Fail::from("no byte of a page, or no bits"));
    }
    Ok(FlipDisk::new(MemDisk::new(alloc), place, bits))
}

/// Why the groups of 385 towns are refused over such a disk.
fn flipped(rt: HostRuntime, flip: &str) -> Result<String, Fail> {
    let mut disk = flip_disk(rt.alloc(), flip)?;
    let query = query(rt, COLUMNS, LOW_TOWNS)?;
    let told = refused(rt, &query, &mut disk);
    drop(query);
    drop(disk);
    told
}

/// What is flipped of the record of a row on a tape. First its hash; its tag, to that of a group and to none; and the mark before the text
/// of its key, and the text. Then the mark before its number; and the number, first so that WHERE isn't true of it, and then so that it is.
/// That last row is another one of the query under the same key, which nothing tells from the one that was written.
const FLIPS: &str = "\
0 1 => Some(TapeDamaged)
3 128 => Some(TapeDamaged)
4 1 => Some(TapeDamaged)
4 4 => Some(TapeDamaged)
9 4 => Some(TapeDamaged)
10 1 => Some(TapeDamaged)
16 4 => Some(TapeDamaged)
17 64 => Some(TapeDamaged)
24 1 => None";

#[test]
fn a_record_that_was_changed_is_damage(rt: HostRuntime) -> Result<(), Fail> {
    expect_lines(rt, FLIPS, flipped)
}
