//! More inputs for a run.

ghost use Rattle.std.specs.Prelude.{◌≡◌, ◌+◌, ◌≤◌, ◌∷◌, map, OnOk, OnErr};
ghost use Rattle.std.specs.List.{AllByRecursion};
ghost use Rattle.agg_protocol.specs.States.{most_rows};
ghost use Rattle.having_filter.specs.Meaning.{meaning};
ghost use Rattle.hash_agg.specs.Counting.{IsCounted};
ghost use Rattle.group_runs.specs.Standing.{IsRun};
ghost use Rattle.hash_agg.specs.Inputs.{Counted, brought, all_rows, Aggregated, IsInput};
ghost use Rattle.hash_agg.specs.Ran.{Ran, ended};

use crate::aggregation::aggregate_in;
use crate::executor::Executor;
use crate::input::Input;
use crate::means::Means;
use group_runs::Run;
use group_table::KeyHash;
use having_filter::Query;
use spill_partitions::SpillError;
use spill_tapes::TapeDisk;
use std::alloc::Global;

/// Adds inputs to a run, which becomes the run that `aggregate` gives of the run and the inputs together.
///
/// No state of the run counts more than `rows` rows, and with the rows of the inputs these are at most 2^62 - 1. The limit applies to the
/// groups of the inputs, which are then merged into the run. What their aggregation took is added to the work of the executor, whose table
/// it uses.
///
/// # Errors
///
/// Those of [`aggregate`](crate::aggregate). An error leaves the run and the work as they were.
pub fn fold<H: KeyHash + Copy, D: TapeDisk>(
    alloc: Global,
    query: &Query,
    run: &mut Run,
    rows: u64,
    more: &[Input<'_>],
    means: &Means<H>,
    disk: &mut D,
    executor: &mut Executor,
) -> Result<(), SpillError>
    requires run { IsRun (meaning query.now) rows run.old }
    requires inputs { AllByRecursion (IsInput (meaning query.now)) (map brought more.now) }
    requires few { rows + all_rows (map brought more.now) ≤ most_rows }
    ensures folded { OnOk result (Aggregated (D.honest disk.old) (meaning query.now) (Counted run.old rows ∷ map brought more.now)
        run.new) }
    ensures same { OnErr result (run.new ≡ run.old) }
    ensures ran { Ran D.TapeDisk H.hash_of query.now means.now (IsCounted (map brought more.now)) (ended result) disk.old executor.old
        disk.new executor.new }
{
    let _well_formed = query.schema();
    let (more, took) = aggregate_in(alloc, query, more, means, disk, &mut executor.idle)?;
    run.merge_from(alloc, query.agg_kinds(), &more)?;
    executor.work.add(took);
    Ok(())
}
