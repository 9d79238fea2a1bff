//! Laws beyond single calls: functions without effect, whose clauses are the laws.

ghost use Rattle.std.specs.Prelude.{◌≡◌, ◌≤◌, ℕ, List, decimal, IsSomeAnd};
ghost use Rattle.grouping_model.specs.Datum.{Row};
ghost use Rattle.grouping_model.specs.declared.limits.TheConstants.{LAST_NUMBER, LAST_ORIGIN};
ghost use Rattle.packed_rows.specs.Columns.{Column, kinds};
ghost use Rattle.batch_reader.specs.File.{FileFault, read_file};
ghost use Rattle.batch_reader.specs.Head.{ReadsBatchNumber, ReadsOrigin};
ghost use Rattle.batch_reader.specs.Rows.{ReadsRows};
ghost use Rattle.plain_batches.specs.Packed.{PacksPlain};
ghost use Rattle.plain_batches.specs.declared.layout.Layout.{Layout};

use batch_reader::BatchError;

/// `read_batch` reads the batch file of a plain CSV as the batch of its origin, number and rows. It refuses the file only if memory
/// runs out.
#[tactic(auto, using(crate::proofs::PackedLaws::reads_origin, crate::proofs::PackedLaws::reads_number))]
pub fn packed_batches_are_read()
    ensures refused { (columns : List Column) (layout : Layout) (origin number : ℕ) (csv file : List ℕ) (error : BatchError)
        → origin ≤ LAST_ORIGIN → 1 ≤ number → number ≤ LAST_NUMBER → PacksPlain columns layout origin number csv file
        → FileFault (kinds columns) (read_file file) error → error ≡ BatchError.NoMemory }
    ensures rows { (columns : List Column) (layout : Layout) (origin number : ℕ) (csv file : List ℕ)
        → (packed : PacksPlain columns layout origin number csv file)
        → IsSomeAnd (read_file file) (λ read. (rows : List Row) → ReadsRows (kinds columns) read.records rows
        → rows ≡ packed.values) }
    ensures origin { (origin : ℕ) → origin ≤ LAST_ORIGIN → ReadsOrigin (decimal origin) origin }
    ensures number { (number : ℕ) → 1 ≤ number → number ≤ LAST_NUMBER
        → ReadsBatchNumber (decimal number) number }
{}
