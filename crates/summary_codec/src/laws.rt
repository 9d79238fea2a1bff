//! Laws of summary files.

ghost use Rattle.std.specs.Prelude.{◌≡◌, ◌<◌, ◌++◌, ℕ, List, codes, slice_index, IsUtf8, IsTrue};
ghost use Rattle.packed_rows.specs.Columns.{kinds, printed};
ghost use Rattle.having_filter.specs.Kept.{IsCheckedQuery, by_names};
ghost use Rattle.query_checks.specs.Checks.{Checked};
ghost use Rattle.query_checks.specs.Spelling.{spelling};
ghost use Rattle.origin_prefix.specs.Held.{Parts, AreHeldParts};
ghost use Rattle.summary_codec.specs.File.{file_in, file_bytes};
ghost use Rattle.having_filter.specs.Meaning.{meaning};
ghost use Rattle.origin_prefix.specs.Fitting.{FitsOrigin};
ghost use Rattle.grouping_model.specs.World.{World, IsWorld, Knowledge, knows};
ghost use Rattle.summary_codec.specs.WorldFile.{world_part, world_file_in};
ghost use Rattle.summary_codec.specs.Worlds.{IsKnownOf, IsKnownWithin, IsWorldFile, world_parts};
ghost use Rattle.summary_codec.specs.Reading.{IsSummaryIn, IsSummary, IsSaved, HasFault};
ghost use Rattle.summary_codec.specs.Versions.{opening, last_number, most_batch_rows, AreWithin};
ghost use Rattle.summary_codec.specs.declared.error.SummaryError.{SummaryError};
ghost use Rattle.summary_codec.specs.declared.version.Version.{Version};
ghost use Rattle.summary_codec.specs.declared.version.Version.TheVariants.{First, Second};

/// What a file begins with, and its bounds, by its version.
pub fn versions_in_digits()
    ensures first { opening First ≡ codes "AGGSUM01" }
    ensures first_number { last_number First ≡ 2147483647 }
    ensures first_rows { most_batch_rows First ≡ 65536 }
    ensures second { opening Second ≡ codes "AGGSUM02" }
    ensures second_number { last_number Second ≡ 4294967295 }
    ensures second_rows { most_batch_rows Second ≡ 1048576 }
{}

/// A file is of one version, and what may be held is within the bounds of the second. What is read from a file of either is written as one
/// of the second, with the same bytes after its opening. From that it is read again.
pub fn versions()
    ensures one { (bytes : List ℕ) (version other : Version) (query those : Checked) (held parts : Parts) →
        IsSummaryIn version bytes query held → IsSummaryIn other bytes those parts → version ≡ other }
    ensures within { (query : Checked) (held : Parts) → AreHeldParts query held → AreWithin Second query held }
    ensures written_again { (version : Version) (behind : List ℕ) (query : Checked) (held : Parts) →
        IsSummaryIn version (opening version ++ behind) query held →
        (file_bytes query held ≡ opening Second ++ behind) × IsSaved (opening Second ++ behind) query held }
{}

/// Each query, with what is held for it, has one spelling in each version whose bounds it keeps, which is read back. Bytes that are read
/// are such a spelling. A query's texts are UTF-8.
pub fn one_spelling()
    ensures read_again { (version : Version) (query : Checked) (held : Parts) → IsCheckedQuery query →
        IsUtf8 (printed query.columns) → IsUtf8 (spelling (by_names query)) → AreHeldParts query held →
        AreWithin version query held → IsSummaryIn version (file_in version query held) query held }
    ensures spelled { (version : Version) (bytes : List ℕ) (query : Checked) (held : Parts) →
        IsSummaryIn version bytes query held → (bytes ≡ file_in version query held)
        × AreHeldParts query held × AreWithin version query held }
{}

/// Bytes have at most one reading, and at most one first fault.
pub fn one_reading()
    ensures one_reading { (bytes : List ℕ) (query other : Checked) (held those : Parts) →
        IsSummary bytes query held → IsSummary bytes other those → (query ≡ other) × (held ≡ those) }
    ensures one_fault { (bytes : List ℕ) (fault other : SummaryError) → HasFault bytes fault →
        HasFault bytes other → fault ≡ other }
{}

/// Any bytes have a reading or a first fault, and never both.
pub fn reading_or_fault()
    ensures not_both { (bytes : List ℕ) (query : Checked) (held : Parts) (fault : SummaryError) →
        IsSummary bytes query held → ¬ (HasFault bytes fault) }
    ensures not_neither { (bytes : List ℕ) → ((i : ℕ) → slice_index bytes i < 256) →
        ((query : Checked) (held : Parts) → ¬ (IsSummary bytes query held)) →
        ((fault : SummaryError) → ¬ (HasFault bytes fault)) → ⊥ }
{}

/// The file of a query, a world and what is known of it depends only on the rows of the known batches. So replicas that know the same
/// batches have equal files.
pub fn files_of_the_known()
    ensures { (version : Version) (query : Checked) (world other : World) (known : Knowledge) →
        ((origin number : ℕ) → IsTrue (knows known (origin, number)) →
        world origin number ≡ other origin number) →
        world_file_in version query world known ≡ world_file_in version query other known }
{}

/// The file of a query, a world and what is known of this world is a summary file. It is one of the query and of the parts that the world
/// has of what is known. So it is in each version whose bounds the known batches keep: in the second, each world's batches do. A query's
/// text is UTF-8.
pub fn files_of_worlds()
    ensures read { (version : Version) (query : Checked) (world : World) (known : Knowledge) (bytes : List ℕ) →
        IsCheckedQuery query → IsUtf8 (spelling (by_names query)) → IsWorld (kinds query.columns) world →
        IsKnownWithin version world known → IsWorldFile version query world known bytes →
        IsSummaryIn version bytes query (world_parts query world known) }
    ensures second { (query : Checked) (world : World) (known : Knowledge) → IsWorld (kinds query.columns) world →
        IsKnownWithin Second world known }
{}

/// The parts that a world has of what is known of it fit the world.
pub fn parts_of_worlds()
    ensures { (query : Checked) (world : World) (known : Knowledge) → IsCheckedQuery query →
        IsWorld (kinds query.columns) world → IsKnownOf world known → (origin : ℕ) →
        FitsOrigin (meaning query) world origin (world_part query world known origin).1 }
{}
