//! What holds after the commands on files.

ghost use Rattle.std.specs.Prelude.{ℕ, Bool, List, Option, Result};
ghost use Rattle.grouping_model.specs.declared.delivered.Delivered.{Delivered};
ghost use Rattle.batch_reader.specs.File.{BatchFile};
ghost use Rattle.replica_merge.specs.Replicas.{Held};
ghost use Rattle.refusals.specs.declared.refusal.Refusal.{Refusal};
ghost use Rattle.command_replicas.specs.Outcomes.{AfterFeed, AfterMergedFile};
ghost use Rattle.command_replicas.specs.Results.{Feeds, MergesFile};

/// What holds after a batch file was fed, by the contract of `feed`.
pub fn fed_file()
    ensures { (honest : Bool) (file : Option BatchFile) (old new : Held) (result : Result Delivered Refusal) →
        Feeds honest file old new result → AfterFeed honest file old new result }
{}

/// What holds after a summary file was merged, by the contract of `merge`.
pub fn merged_file()
    ensures { (honest : Bool) (file : List ℕ) (old new : Held) (result : Result (Unit {0}) Refusal) →
        MergesFile honest file old new result → AfterMergedFile honest file old new result }
{}
