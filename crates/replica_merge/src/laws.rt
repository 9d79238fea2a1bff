//! Laws of merging.

ghost use Rattle.std.specs.Prelude.{◌≡◌, ◌≤◌, ◌↔◌, ℕ, Bool, List, [], Result, map, IsUtf8};
ghost use Rattle.grouping_model.specs.World.{World, IsWorld, Knowledge, nothing};
ghost use Rattle.grouping_model.specs.declared.delivered.Delivered.{Delivered};
ghost use Rattle.grouping_model.specs.Replies.{known_list};
ghost use Rattle.packed_rows.specs.Columns.{kinds};
ghost use Rattle.batch_reader.specs.declared.batch.Batch.{Batch};
ghost use Rattle.origin_prefix.specs.declared.error.RefusedBatch.{RefusedBatch};
ghost use Rattle.agg_protocol.specs.States.{most_rows};
ghost use Rattle.hash_agg.specs.Inputs.{all_rows};
ghost use Rattle.having_filter.specs.Kept.{IsCheckedQuery, by_names};
ghost use Rattle.summary_codec.specs.Reading.{IsSummaryIn, IsSummary};
ghost use Rattle.summary_codec.specs.Worlds.{IsWorldFile};
ghost use Rattle.summary_codec.specs.declared.version.Version.{Version};
ghost use Rattle.query_checks.specs.Checks.{Checked};
ghost use Rattle.query_checks.specs.Spelling.{spelling};
ghost use Rattle.replica_merge.specs.Lacking.{told_by, IsWithin, lacked};
ghost use Rattle.replica_merge.specs.Outcomes.{AfterDelivery, AfterJoin, AfterMerge};
ghost use Rattle.replica_merge.specs.Results.{DeliversBatch, JoinsReplicas, MergesReplicas};
ghost use Rattle.replica_merge.specs.declared.error.MergeError.{MergeError};
ghost use Rattle.replica_merge.specs.Replicas.{Parts, Held, told, Fits, AreHeldParts, IsMergeOf, MergesIn, SavedAlike, counted_part};

/// An empty replica, as [`Replica::new`](crate::Replica::new) makes it, fits each world and knows nothing. So what holds of replicas that
/// fit begins with it.
pub fn empty_replicas()
    ensures fits { (query : Checked) (world : World) → Fits world (record { query = query; parts = [] }) }
    ensures knows { told [] ≡ nothing }
{}

/// What holds after a delivery, by the contract of `deliver`.
pub fn delivered_batch()
    ensures { (honest : Bool) (old new : Held) (batch : Batch) (result : Result Delivered RefusedBatch) →
        DeliversBatch honest old batch new result → AfterDelivery honest old batch new result }
{}

/// What holds after a join, by the contract of `join`.
pub fn joined_replicas()
    ensures { (honest : Bool) (own theirs : Held) (result : Result Parts MergeError) →
        JoinsReplicas honest own theirs result → AfterJoin own theirs result }
{}

/// What holds after a merge, by the contract of `merge`.
pub fn merged_replicas()
    ensures { (honest : Bool) (old other new : Held) (result : Result (Unit {0}) MergeError) →
        MergesReplicas honest old other new result → AfterMerge honest old other new result }
{}

/// Merging commutes, associates and is idempotent, in what is known.
pub fn merged_knowledge()
    ensures commutative { (h i : Bool) (query : Checked) (a b ab ba : Parts) →
        IsMergeOf h query a b ab → IsMergeOf i query b a ba → told ab ≡ told ba }
    ensures associative { (h i j k : Bool) (query : Checked) (a b c ab bc left right : Parts) →
        IsMergeOf h query a b ab → IsMergeOf i query ab c left →
        IsMergeOf j query b c bc → IsMergeOf k query a bc right → told left ≡ told right }
    ensures idempotent { (honest : Bool) (query : Checked) (a aa : Parts) →
        IsMergeOf honest query a a aa → told aa ≡ told a }
{}

/// Replicas that fit one world and know the same batches save the same bytes.
pub fn same_files()
    ensures { (world : World) (query : Checked) (a b : Parts) → AreHeldParts query a → AreHeldParts query b →
        Fits world (record { query = query; parts = a }) → Fits world (record { query = query; parts = b }) →
        told a ≡ told b → SavedAlike query a b }
{}

/// Merging commutes, associates and is idempotent in saved bytes, too.
pub fn merged_files()
    ensures commutative { (world : World) (query : Checked) (a b ab ba : Parts) →
        MergesIn world query a b ab → MergesIn world query b a ba → SavedAlike query ab ba }
    ensures associative { (world : World) (query : Checked) (a b c ab bc left right : Parts) →
        MergesIn world query a b ab → MergesIn world query ab c left →
        MergesIn world query b c bc → MergesIn world query a bc right → SavedAlike query left right }
    ensures idempotent { (world : World) (query : Checked) (a aa : Parts) →
        MergesIn world query a a aa → SavedAlike query aa a }
{}

/// Where a replica takes in what another one has and it lacks, it knows and saves what it would after taking in the whole of the other. So
/// deltas serve that are doubled, lost, or sent in any order. The other may go by a list of what the replica knew before: what this tells
/// is known still.
pub fn merged_deltas()
    ensures knowledge { (h i : Bool) (query : Checked) (own theirs delta whole some : Parts) (known : Knowledge) →
        IsWithin known (told own) → told delta ≡ lacked (told theirs) known →
        IsMergeOf h query own theirs whole → IsMergeOf i query own delta some → told some ≡ told whole }
    ensures files { (world : World) (query : Checked) (own theirs delta whole some : Parts) (known : Knowledge) →
        IsWithin known (told own) → told delta ≡ lacked (told theirs) known →
        MergesIn world query own theirs whole → MergesIn world query own delta some → SavedAlike query some whole }
{}

/// The list of what a replica knows, as [`Replica::known`](crate::Replica::known) gives it, tells just that.
pub fn told_lists()
    ensures { (query : Checked) (parts : Parts) → AreHeldParts query parts → told_by (known_list (told parts)) ≡ told parts }
{}

/// The rows that a replica's prefixes may have, of all origins together, are fewer than 2^62, so a state may count them.
pub fn countable_rows()
    ensures { (query : Checked) (parts : Parts) → AreHeldParts query parts →
        all_rows (map counted_part parts) ≤ most_rows }
{}

/// Take the file, in either version, of a query, a world and what is known of this world. If it is read, it is read as the one replica of
/// the query that fits the world and knows just that. A query's text is UTF-8.
pub fn loaded_files_fit()
    ensures { (version : Version) (query : Checked) (world : World) (known : Knowledge) (bytes : List ℕ) (held : Held) →
        IsCheckedQuery query → IsUtf8 (spelling (by_names query)) → IsWorld (kinds query.columns) world →
        IsWorldFile version query world known bytes → IsSummary bytes held.query held.parts →
        (held.query ≡ query) × Fits world held × (told held.parts ≡ known) }
{}

/// Take a file that is read as a replica, and a world. The replica fits the world exactly if, in its version, the file is that of the
/// query, the world and what the replica knows.
pub fn files_that_fit()
    ensures { (version : Version) (world : World) (held : Held) (bytes : List ℕ) →
        IsWorld (kinds held.query.columns) world → IsSummaryIn version bytes held.query held.parts →
        (Fits world held ↔ IsWorldFile version held.query world (told held.parts) bytes) }
{}
