//! The aggregation of inputs.

ghost use Rattle.std.specs.Prelude.{◌≡◌, ◌≢◌, ◌≤◌, map, option_map, Some, IfOk, IfErr, IsTrue};
ghost use Rattle.std.specs.List.{AllByRecursion};
ghost use Rattle.tape_disks.specs.Calls.{failed};
ghost use Rattle.tape_disks.specs.Disk.{DiskFrame};
ghost use Rattle.spill_partitions.specs.Errors.{spill_faults};
ghost use Rattle.spill_partitions.specs.declared.error.SpillError.TheVariants.{TapeDamaged};
ghost use Rattle.agg_protocol.specs.States.{most_rows};
ghost use Rattle.having_filter.specs.Meaning.{meaning};
ghost use Rattle.hash_agg.specs.Added.{Continues, IsFirst, IsOver, IsSafeRun, MadeAll, MadeFirst, MadeLater, query_of};
ghost use Rattle.hash_agg.specs.Counting.{Took, no_work, told_work};
ghost use Rattle.hash_agg.specs.Inputs.{brought, all_rows, AreInputs, Aggregation, IsInput};
ghost use Rattle.hash_agg.specs.Passes.{seed_of};
ghost use Rattle.hash_agg.specs.Ran.{Ran, ended};

use crate::idle::IdleTable;
use crate::input::Input;
use crate::means::Means;
use crate::pass::{Buffers, Pass};
use crate::plan::Plan;
use crate::sorting::united;
use crate::work::Work;
use group_runs::Run;
use group_table::KeyHash;
use having_filter::Query;
use spill_partitions::SpillError;
use spill_tapes::TapeDisk;
use std::alloc::Global;

/// The groups of all inputs together, in the order of their keys: one for each distinct key of the selected rows and of
/// the groups given. Over no selected row and no group there is none, even without GROUP BY.
///
/// The rows are packed rows of the query's table. A run has packed keys of the columns of GROUP BY, in increasing
/// order. Its states are of the query's aggregates, and count at most `rows` rows each. All inputs together have at
/// most 2^62 - 1 rows, the most that a state counts.
///
/// A pass over the inputs takes the groups that fit the limit, and at least one. The rest goes to partitions on tapes, by fresh bits of the
/// hash, and a later pass reads each partition. So the limit and the hash function change only the time and the memory that an aggregation
/// takes (PostgreSQL 17, `src/backend/executor/nodeAgg.c`: hash aggregation in phases).
///
/// # Errors
///
/// `NoMemory`; `TapeFault` if the disk failed; and `TapeDamaged` if it gave back what was not written to it, so never over an honest disk.
/// Over any other disk the result is still a run of the query. It has at most as many groups as there are selected rows and groups given.
///
/// Beside the run it returns the work done. Over an honest disk, `aggregation_cost` predicts that work and the number of pages written from
/// the selected rows and the groups. It does so if the inputs have at most 2^62 - 1 groups. Over such a disk there are no more
/// passes than groups, or one over no group. Over any disk there is at least one pass, and the most bytes of blocks that it reports for its
/// table keep within the limit.
pub fn aggregate<H: KeyHash + Copy, D: TapeDisk>(
    alloc: Global,
    query: &Query,
    inputs: &[Input<'_>],
    means: &Means<H>,
    disk: &mut D,
) -> Result<(Run, Work), SpillError>
    requires inputs { AllByRecursion (IsInput (meaning query.now)) (map brought inputs.now) }
    requires few { all_rows (map brought inputs.now) ≤ most_rows }
    ensures aggregated { IfOk result (Aggregation (D.honest disk.old) (meaning query.now) (map brought inputs.now)) }
    ensures ran { Ran D.TapeDisk H.hash_of query.now means.now (Took (map brought inputs.now)) (ended result) disk.old no_work
        disk.new (told_work result) }
{
    aggregate_in(alloc, query, inputs, means, disk, &mut None)
}

/// As [`aggregate`], in a table that an earlier aggregation left, if it serves. Its own is left to the next one, unless it is refused.
pub(crate) fn aggregate_in<H: KeyHash + Copy, D: TapeDisk>(
    alloc: Global,
    query: &Query,
    inputs: &[Input<'_>],
    means: &Means<H>,
    disk: &mut D,
    idle: &mut Option<IdleTable>,
) -> Result<(Run, Work), SpillError>
    requires inputs { AllByRecursion (IsInput (meaning query.now)) (map brought inputs.now) }
    requires few { all_rows (map brought inputs.now) ≤ most_rows }
    ensures aggregated { IfOk result (Aggregation (D.honest disk.old) (meaning query.now) (map brought inputs.now)) }
    ensures ran { Ran D.TapeDisk H.hash_of query.now means.now (Took (map brought inputs.now)) (ended result) disk.old no_work
        disk.new (told_work result) }
    ensures seed { IfOk result (λ _. option_map seed_of idle.new ≡ Some means.now.seed) }
{
    let plan = Plan::new(alloc, query, rows_of_all(inputs), means.limit())?;
    let mut pass = Pass::new(alloc, plan, means, idle.take(), disk)?;
    match all_passes(alloc, disk, &mut pass, inputs) {
        Ok(made) => {
            *idle = Some(pass.end(means.seed()));
            Ok(made)
        }
        Err(error) => Err(error),
    }
}

/// Makes all passes over inputs, of which the first reads them.
fn all_passes<H: KeyHash + Drop, D: TapeDisk>(
    alloc: Global,
    disk: &mut D,
    pass: &mut Pass<'_, H>,
    inputs: &[Input<'_>],
) -> Result<(Run, Work), SpillError>
    requires first { IsFirst D.TapeDisk pass.old disk.old }
    requires inputs { AreInputs (query_of pass.old) pass.old.plan.most (map brought inputs.now) }
    requires most { pass.old.plan.most ≡ all_rows (map brought inputs.now) }
    ensures made { IfOk result (λ all. MadeAll H.hash_of D.TapeDisk (map brought inputs.now) pass.old disk.old no_work all.0 disk.new all.1) }
    ensures over { IfOk result (λ _. IsOver pass.new) }
    ensures finds { IfOk result (λ _. pass.new.groups.table.hash ≡ pass.old.groups.table.hash) }
    ensures undamaged { IfErr result (λ error. IsTrue (D.honest disk.old) → error ≢ TapeDamaged) }
    ensures disk { DiskFrame D.TapeDisk (failed spill_faults result) disk.old disk.new }
{
    let mut work = Work::none();
    let mut buffers = Buffers::new(alloc);
    let first = first_pass(alloc, disk, pass, inputs, &mut buffers, &mut work)?;
    let run = later_passes(alloc, disk, pass, first, &mut buffers, &mut work)?;
    Ok((run, work))
}

/// How many rows all inputs have, or their states count at most.
fn rows_of_all(inputs: &[Input<'_>]) -> u64
    requires { all_rows (map brought inputs.now) ≤ most_rows }
    ensures { result ≡ all_rows (map brought inputs.now) }
{
    let mut rows = 0;
    for input in inputs {
        rows += input.rows();
    }
    rows
}

/// Makes the first pass, over all inputs.
fn first_pass<H: KeyHash + Drop, D: TapeDisk>(
    alloc: Global,
    disk: &mut D,
    pass: &mut Pass<'_, H>,
    inputs: &[Input<'_>],
    buffers: &mut Buffers,
    work: &mut Work,
) -> Result<Run, SpillError>
    requires first { IsFirst D.TapeDisk pass.old disk.old }
    requires inputs { AreInputs (query_of pass.old) pass.old.plan.most (map brought inputs.now) }
    ensures made { IfOk result (λ run. MadeFirst H.hash_of D.TapeDisk (map brought inputs.now) pass.old disk.old work.old run pass.new
        disk.new work.new) }
    ensures undamaged { IfErr result (λ error. error ≢ TapeDamaged) }
    ensures disk { DiskFrame D.TapeDisk (failed spill_faults result) disk.old disk.new }
{
    let mut row = Vec::with_capacity(alloc, pass.plan.query.schema().width())?;
    for input in inputs {
        pass.add_input(disk, *input, &mut row, buffers)?;
    }
    pass.finish(alloc, disk, work)
}

/// Makes the passes over the partitions that are left, and unites their groups with those of the first.
fn later_passes<H: KeyHash + Drop, D: TapeDisk>(
    alloc: Global,
    disk: &mut D,
    pass: &mut Pass<'_, H>,
    run: Run,
    buffers: &mut Buffers,
    work: &mut Work,
) -> Result<Run, SpillError>
    requires over { IsOver pass.old }
    requires run { IsSafeRun (query_of pass.old) pass.old.plan.most run }
    requires counted { 1 ≤ work.old.passes }
    ensures over { IfOk result (λ _. IsOver pass.new) }
    ensures finds { IfOk result (λ _. pass.new.groups.table.hash ≡ pass.old.groups.table.hash) }
    ensures made { IfOk result (λ all. MadeLater H.hash_of D.TapeDisk pass.old disk.old run work.old all disk.new work.new) }
    ensures undamaged { IfErr result (λ error. Continues H.hash_of D.TapeDisk pass.old disk.old run work.old
        (λ pieces start writes. error ≢ TapeDamaged)) }
    ensures disk { DiskFrame D.TapeDisk (failed spill_faults result) disk.old disk.new }
{
    let mut others = Vec::new(alloc);
    let mut bytes = Vec::new(alloc);
    while pass.spill.begin_pass(disk) {
        pass.add_partition(alloc, disk, &mut bytes, buffers)?;
        let more = pass.finish(alloc, disk, work)?;
        others.push(more)?;
    }
    if others.is_empty() {
        return Ok(run); // Nothing was spilled.
    }
    united(alloc, &run, &others)
}
