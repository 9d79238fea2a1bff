ghost use Rattle.std.specs.Prelude.{◌≡◌, ◌≤◌, IfOk, List, length};
ghost use Rattle.grouping_model.specs.Datum.{Row};
ghost use Rattle.agg_protocol.specs.States.{most_rows};
ghost use Rattle.having_filter.specs.Meaning.{meaning};
ghost use Rattle.hash_agg.specs.Inputs.{ArePackings};

use crate::towns::{COLUMNS, TOWNS, lines, packed, query};
use batch_reader::PackedRows;
use hash_agg::{Fnv1a, Input, KeyHash, Means, MemDisk, Run, TapeDisk, Work, aggregate};
use having_filter::Query;
use hex::encode;
use std::test::*;
use test_cases::{expect, expect_lines};

/// A hash function by which all keys have the same hash.
#[derive(Clone, Copy)]
pub(crate) struct Constant;

impl KeyHash for Constant {
    ghost hash_of = { λ _ key. 0 };

    fn key_hash(&self, _key: &[u8]) -> u32 {
        0
    }
}

/// So many rows of towns, packed.
fn rows_of(rt: HostRuntime, query: &Query, towns: u32) -> Result<PackedRows, Fail>
    ensures { IfOk result (λ packed. (rows : List Row)
        × ArePackings (meaning query.now).kinds packed rows
        × (length packed ≡ towns)) }
{
    let lines = lines(rt, towns, ";")?;
    let rows = packed(rt, query, towns, &lines);
    drop(lines);
    rows
}

/// The groups of rows, what these took, and how many pages of tape.
fn counted<H: KeyHash + Copy>(
    rt: HostRuntime,
    query: &Query,
    rows: &PackedRows,
    means: &Means<H>,
) -> Result<(Run, Work, u64), Fail>
    requires rows { (those : List Row) × ArePackings (meaning query.now).kinds rows.now those }
    requires few { length rows.now ≤ most_rows }
{
    let mut disk = MemDisk::new(rt.alloc());
    let aggregated = aggregate(rt.alloc(), query, &[Input::Packed(rows)], means, &mut disk);
    let pages = disk.writes();
    drop(disk);
    let (run, work) = aggregated?;
    Ok((run, work, pages))
}

/// The bytes of the last group's key and states.
fn last_group(rt: HostRuntime, run: &Run) -> Result<String, Fail> {
    let last = run.len().checked_sub(1).ok_or("no group")?;
    let (key, states) = run.group(last);
    let (key, states) = (encode(rt.alloc(), key)?, encode(rt.alloc(), states)?);
    Ok(format!(in rt.alloc(); "{key} {states}")?)
}

/// How many groups there are of some towns, whether they are the same as others, and the last of these.
fn told_of_runs(rt: HostRuntime, whole: &Run, parts: &Run) -> Result<String, Fail> {
    let last = last_group(rt, parts)?;
    Ok(format!(in rt.alloc(); "{} {} {last}", whole.len(), whole.same_groups(parts))?)
}

/// Behind what is told of groups, what they took.
fn with_work(rt: HostRuntime, told: &str, work: &Work, pages: u64) -> Result<String, Fail> {
    let (passes, spilled, held) = (work.passes, work.spilled, work.most_held);
    Ok(format!(in rt.alloc();
        "{told}: passes {passes}, spilled {spilled}, pages {pages}, held {held}"
    )?)
}

/// What is told of the groups of rows, beside those within the greatest limit.
fn compared_rows<H: KeyHash + Copy>(
    rt: HostRuntime,
    query: &Query,
    rows: &PackedRows,
    means: &Means<H>,
) -> Result<String, Fail>
    requires rows { (those : List Row) × ArePackings (meaning query.now).kinds rows.now those }
    requires few { length rows.now ≤ most_rows }
{
    let greatest = Means::new(1_099_511_627_776, Fnv1a)?;
    let (whole, _, _) = counted(rt, query, rows, &greatest)?;
    let (parts, work, pages) = counted(rt, query, rows, means)?;
    let told = told_of_runs(rt, &whole, &parts);
    drop(parts);
    drop(whole);
    with_work(rt, &told?, &work, pages)
}

/// How many groups there are of a row of each of so many towns. Then whether they are the same within a limit by a hash function, the last
/// of them, and what that takes.
pub(crate) fn limited<H: KeyHash + Copy>(
    rt: HostRuntime,
    towns: u32,
    limit: u64,
    hash: H,
) -> Result<String, Fail> {
    let means = Means::new(limit, hash)?;
    let query = query(rt, COLUMNS, TOWNS)?;
    let rows = rows_of(rt, &query, towns)?;
    let told = compared_rows(rt, &query, &rows, &means);
    drop(rows);
    drop(query);
    told
}

#[test]
fn a_limit_changes_nothing(rt: HostRuntime) -> Result<(), Fail> {
    // The first pass leaves 16 lists of some 1,200 rows, and the passes over these 256 of some 50. A table holds 384 groups, so 53
    // passes are the fewest that there can be.
    expect(
        limited(rt, 20_000, 65_536, Fnv1a),
        "20000 true 016b313939393900 0000000000000001000000000000000100000000000000000000000000004e1f: passes 273, spilled 33088, pages \
            322, held 57352",
    )
}

/// Limits, and what is told of the groups of 385 towns within them, all of which have one hash. At the 385th group the buckets are
/// doubled, to 1,024 beside the old 512.
const LIMITS: &str = "\
65536 => 385 true 016b3033383400 0000000000000001000000000000000100000000000000000000000000000180: passes 2, spilled 1, pages 1, held 57352
90127 => 385 true 016b3033383400 0000000000000001000000000000000100000000000000000000000000000180: passes 2, spilled 1, pages 1, held 57352
90128 => 385 true 016b3033383400 0000000000000001000000000000000100000000000000000000000000000180: passes 1, spilled 0, pages 0, held \
    90128";

/// What is told of the groups of 385 towns within a limit.
fn within(rt: HostRuntime, limit: &str) -> Result<String, Fail> {
    limited(rt, 385, limit.parse()?, Constant)
}

#[test]
fn a_group_too_many_is_spilled(rt: HostRuntime) -> Result<(), Fail> {
    expect_lines(rt, LIMITS, within)
}

/// Why the groups of rows are refused over a disk.
fn refused_rows<D: TapeDisk>(
    rt: HostRuntime,
    query: &Query,
    rows: &PackedRows,
    disk: &mut D,
) -> Result<String, Fail>
    requires rows { (those : List Row) × ArePackings (meaning query.now).kinds rows.now those }
    requires few { length rows.now ≤ most_rows }
{
    let means = Means::new(65_536, Fnv1a)?;
    let refused = aggregate(rt.alloc(), query, &[Input::Packed(rows)], &means, disk).err();
    Ok(format!(in rt.alloc(); "{refused:?}")?)
}

/// Why the groups of 385 towns, one of which is spilled, are refused over a disk.
pub(crate) fn refused<D: TapeDisk>(
    rt: HostRuntime,
    query: &Query,
    disk: &mut D,
) -> Result<String, Fail> {
    let rows = rows_of(rt, query, 385)?;
    let told = refused_rows(rt, query, &rows, disk);
    drop(rows);
    told
}
