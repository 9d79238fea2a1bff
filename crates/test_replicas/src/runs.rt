ghost use Rattle.std.specs.Prelude.{◌≡◌, IfOk, List, length};
ghost use Rattle.grouping_model.specs.Datum.{Row};
ghost use Rattle.hash_agg.specs.Inputs.{ArePackings};
ghost use Rattle.having_filter.specs.Meaning.{meaning};
ghost use Rattle.group_runs.specs.Standing.{IsRun};
ghost use Rattle.packed_rows.specs.View.{bytes_of};

use agg_protocol::AggKind;
use batch_reader::PackedRows;
use hash_agg::{Fnv1a, Input, Means, MemDisk, Run, SpillError, Work, aggregate, initial_states};
use having_filter::Query;
use hex::encode;
use std::alloc::{AllocError, Global};
use std::test::*;
use test_aggregation::{COLUMNS, TOWNS, packed, query};
use test_cases::{expect_lines, halves};

/// Packed rows, each in a vector of its own.
fn apart(rt: HostRuntime, rows: &PackedRows) -> Result<Vec<Vec<u8>>, Fail>
    ensures { IfOk result (λ apart. bytes_of apart.items ≡ rows.now) }
{
    let mut apart = Vec::new(rt.alloc());
    for place in 0..rows.len() {
        apart.push(rows.row(place).to_vec(rt.alloc())?)?;
    }
    Ok(apart)
}

/// The groups of so many rows.
fn groups(rt: HostRuntime, query: &Query, told: u32, lines: &str) -> Result<Run, Fail>
    ensures { IfOk result (λ run. IsRun (meaning query.now) told run) }
{
    let rows = packed(rt, query, told, lines)?;
    let (means, mut disk) = (Means::usual(Fnv1a), MemDisk::new(rt.alloc()));
    let grouped = aggregate(
        rt.alloc(),
        query,
        &[Input::Packed(&rows)],
        &means,
        &mut disk,
    );
    drop(disk);
    drop(rows);
    let (run, _) = grouped?;
    Ok(run)
}

/// The bytes of the key and of the states of a group.
fn shown_group(alloc: Global, key: &[u8], states: &[u8]) -> Result<String, AllocError> {
    let key = encode(alloc, key)?;
    let states = encode(alloc, states)?;
    format!(in alloc; "{key} {states};")
}

/// The same of a run's groups.
fn shown(alloc: Global, run: &Run) -> Result<String, AllocError> {
    let mut shown = String::new(alloc);
    for place in 0..run.len() {
        let (key, states) = run.group(place);
        let group = shown_group(alloc, key, states)?;
        shown.push_str(&group)?;
    }
    Ok(shown)
}

/// The groups of a run of one row and of two rows together.
fn united(
    rt: HostRuntime,
    query: &Query,
    early: &Run,
    late: &[Vec<u8>],
) -> Result<(Run, Work), SpillError>
    requires early { IsRun (meaning query.now) 1 early.now }
    requires late { (rows : List Row) × ArePackings (meaning query.now).kinds (bytes_of late.now) rows }
    requires two { length (bytes_of late.now) ≡ 2 }
{
    let inputs = [
        Input::Groups {
            run: early,
            rows: 1,
        },
        Input::Rows(late),
    ];
    let (means, mut disk) = (Means::usual(Fnv1a), MemDisk::new(rt.alloc()));
    let united = aggregate(rt.alloc(), query, &inputs, &means, &mut disk);
    drop(disk);
    united
}

/// The same of two lines.
fn united_with(rt: HostRuntime, query: &Query, early: &Run, more: &str) -> Result<(Run, Work), Fail>
    requires { IsRun (meaning query.now) 1 early.now }
{
    let rows = packed(rt, query, 2, more)?;
    let apart = apart(rt, &rows);
    drop(rows);
    let late = apart?;
    let united = united(rt, query, early, &late);
    drop(late);
    Ok(united?)
}

/// The groups of a row and of two more behind a `|`.
fn groups_of_three(rt: HostRuntime, query: &Query, lines: &str) -> Result<String, Fail> {
    let (first, more) = halves(lines, "|")?;
    let early = groups(rt, query, 1, first)?;
    let united = united_with(rt, query, &early, more);
    drop(early);
    let (run, _) = united?;
    let told = shown(rt.alloc(), &run);
    drop(run);
    Ok(told?)
}

/// A run of one group of no rows, and whether it was empty before and is so now.
fn pushed(rt: HostRuntime, query: &Query, key: &str) -> Result<String, Fail> {
    let states = initial_states(rt.alloc(), query.agg_kinds())?;
    let mut run = Run::new(rt.alloc());
    let before = run.is_empty();
    let pushed = run.push(key.as_bytes(), &states);
    drop(states);
    let (now, shown) = (run.is_empty(), shown(rt.alloc(), &run));
    drop(run);
    pushed?;
    Ok(format!(in rt.alloc(); "{before} {now} {}", shown?)?)
}

/// What is told of a case by the query of towns: `WHAT LINES`.
fn told_of(rt: HostRuntime, query: &Query, case: &str) -> Result<String, Fail> {
    let (what, lines) = halves(case, " ")?;
    match what {
        "three" => groups_of_three(rt, query, lines),
        _ => pushed(rt, query, lines),
    }
}

/// What is told of a case. Tests let go of what is large by `drop`, and hold it at no `?`: at the end of its block it costs ten times as
/// much proof.
fn told(rt: HostRuntime, case: &str) -> Result<String, Fail> {
    match query(rt, COLUMNS, TOWNS) {
        Ok(query) => {
            let told = told_of(rt, &query, case);
            drop(query);
            told
        }
        Err(fail) => Err(fail),
    }
}

/// A run is aggregated with rows. It takes a group of no rows.
const RUNS: &str = "\
three oslo,5|oslo,-2;bergen,7 => 0162657267656e00 0000000000000001000000000000000100000000000000000000000000000007;\
    016f736c6f00 0000000000000002000000000000000200000000000000000000000000000003;
group \u{2} => true false 02 0000000000000000000000000000000000000000000000000000000000000000;";

#[test]
fn runs_take_groups_and_rows(rt: HostRuntime) -> Result<(), Fail> {
    expect_lines(rt, RUNS, told)
}

// A frame of the stack a state would be too many here.
#[test]
fn states_of_any_length_begin(rt: HostRuntime) -> Result<(), Fail> {
    let kinds = Vec::from_elem(rt.alloc(), AggKind::Min, 1_000_000)?;
    let states = initial_states(rt.alloc(), &kinds)?;
    assert!(rt; states.len() == 9_000_000);
    Ok(())
}
