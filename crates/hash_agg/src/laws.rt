//! Laws of runs.

ghost use Rattle.std.specs.Prelude.{◌≡◌, ◌≤◌, ◌↔◌, ℕ, List, []};
ghost use Rattle.std.specs.List.{AllByRecursion};
ghost use Rattle.grouping_model.specs.Grouping.{Group, part};
ghost use Rattle.grouping_model.specs.Query.{Query};
ghost use Rattle.group_runs.specs.Runs.{Entry};
ghost use Rattle.group_runs.specs.Standing.{AreGroups, IsRun, IsGroupOf, run_bytes};

/// A run stands for groups exactly if it is their bytes, and they are groups that the query can have. So groups have exactly
/// one run, which is a function of them.
pub fn one_run()
    ensures { (query : Query) (most : ℕ) (run : List Entry) (groups : List Group) →
        AreGroups query most run groups ↔
        ((run ≡ run_bytes groups) × AllByRecursion (IsGroupOf query most) groups) }
{}

/// A run of groups that count at most this many rows is also a run for any higher bound.
pub fn more_rows()
    ensures groups { (query : Query) (m n : ℕ) (run : List Entry) (groups : List Group) →
        m ≤ n → AreGroups query m run groups → AreGroups query n run groups }
    ensures run { (query : Query) (m n : ℕ) (run : List Entry) →
        m ≤ n → IsRun query m run → IsRun query n run }
{}

/// Two runs that stand for the same groups are the same.
pub fn same_run()
    ensures { (query : Query) (m n : ℕ) (run other : List Entry) (groups : List Group) →
        AreGroups query m run groups → AreGroups query n other groups → run ≡ other }
{}

/// A run of no groups is a run of each query, and stands for the groups of no rows.
pub fn empty_run()
    ensures run { (query : Query) (most : ℕ) → IsRun query most [] }
    ensures groups { (query : Query) (most : ℕ) → AreGroups query most [] (part query []) }
{}
