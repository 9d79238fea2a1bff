//! Groups in the order of their keys.

ghost use Rattle.std.specs.Prelude.{◌≡◌, ◌≢◌, ◌++◌, ◌∷◌, IfOk, IfErr, OnOk, slice_index};
ghost use Rattle.std.specs.List.{All};
ghost use Rattle.std.specs.List.Sorted.{IsPermutation};
ghost use Rattle.spill_partitions.specs.declared.error.SpillError.TheVariants.{TapeDamaged, TapeFault};
ghost use Rattle.group_runs.specs.Runs.{Rises};
ghost use Rattle.packed_rows.specs.ConcatenatedRows.{concatenated};
ghost use Rattle.hash_agg.specs.Passes.{AreOnce, IsAbbreviated, pairs};

use group_runs::Run;
use spill_partitions::SpillError;
use std::alloc::{AllocError, Global};

/// The key and the states of a group, after the first eight bytes of the key as a number: most keys are told apart by
/// these, without a look at the bytes themselves.
pub(crate) type AbbreviatedKey<'a> = (u64, (&'a [u8], &'a [u8]));

/// The byte at a place of a key, or 0 after its end.
fn byte_at(key: &[u8], place: usize) -> u8
    ensures { result ≡ slice_index key.now place }
{
    if place < key.len() { key[place] } else { 0 }
}

/// A group after the number that its key begins with.
pub(crate) fn abbreviated<'a>(key: &'a [u8], states: &'a [u8]) -> AbbreviatedKey<'a>
    ensures group { result.1 ≡ (key.entry, states.entry) }
    ensures abbreviated { IsAbbreviated result }
{
    let first = u64::from_be_bytes([
        byte_at(key, 0),
        byte_at(key, 1),
        byte_at(key, 2),
        byte_at(key, 3),
        byte_at(key, 4),
        byte_at(key, 5),
        byte_at(key, 6),
        byte_at(key, 7),
    ]);
    (first, (key, states))
}

/// Adds references to the groups of a run after others.
fn push_all<'a>(entries: &mut Vec<AbbreviatedKey<'a>>, run: &'a Run) -> Result<(), AllocError>
    ensures pushed { OnOk result (pairs entries.new.items ≡ pairs entries.old.items ++ run.now) }
    ensures abbreviated { OnOk result (All IsAbbreviated entries.old.items → All IsAbbreviated entries.new.items) }
{
    for place in 0..run.len() {
        let (key, states) = run.group(place);
        entries.push(abbreviated(key, states))?;
    }
    Ok(())
}

/// The groups of a run and of others as one run. `TapeDamaged` if two of them have the same key.
pub(crate) fn united(alloc: Global, first: &Run, others: &[Run]) -> Result<Run, SpillError>
    ensures sorted { IfOk result (IsPermutation (concatenated (first.now ∷ others.now))) }
    ensures rises { IfOk result Rises }
    ensures undamaged { IfErr result (λ error. AreOnce (concatenated (first.now ∷ others.now)) → error ≢ TapeDamaged) }
    ensures faultless { IfErr result (λ error. error ≢ TapeFault) }
{
    let mut entries = Vec::new(alloc);
    push_all(&mut entries, first)?;
    for run in others {
        push_all(&mut entries, run)?;
    }
    entries.sort()?; // It merges the runs, each of which is in order.
    sort_distinct(alloc, entries.as_mut_slice())
}

/// How many bytes the keys and the states of groups take, if all are as long as those of the first.
fn total_lengths(entries: &[AbbreviatedKey<'_>]) -> (usize, usize) {
    if entries.is_empty() {
        return (0, 0);
    }
    let (_, (key, states)) = entries[0];
    let count = entries.len();
    (
        count.saturating_mul(key.len()),
        count.saturating_mul(states.len()),
    )
}

/// Puts groups in the order of their keys. `TapeDamaged` if two of them have the same key.
pub(crate) fn sort_distinct(
    alloc: Global,
    entries: &mut [AbbreviatedKey<'_>],
) -> Result<Run, SpillError>
    requires abbreviated { All IsAbbreviated entries.old }
    ensures sorted { IfOk result (IsPermutation (pairs entries.old)) }
    ensures rises { IfOk result Rises }
    ensures undamaged { IfErr result (λ error. AreOnce (pairs entries.old) → error ≢ TapeDamaged) }
    ensures faultless { IfErr result (λ error. error ≢ TapeFault) }
{
    entries.sort_unstable();
    let (keys, states) = total_lengths(entries);
    let mut run = Run::with_capacity(alloc, entries.len(), keys, states)?;
    for place in 0..entries.len() {
        let (_, (key, states)) = entries[place];
        if place > 0 && entries[place - 1].1.0 == key {
            return Err(SpillError::TapeDamaged);
        }
        run.push(key, states)?;
    }
    Ok(run)
}
