//! The library for C: a summary inside another program, behind a slot that C holds.
#![tactic(auto)]

ghost use Rattle.std.specs.Prelude.{◌≡◌, ◌≢◌, ◌⊎◌, [], None, IsSome, IfSome, codes, length};
ghost use Rattle.engine.specs.Calls.{Creates, Loads, FeedsFile, FeedsRows, MergesFileSession, IsFileOf, IsTooLong, IsTableOf};
ghost use Rattle.engine.specs.Calls.{IsKnownText, IsQueryText, IsColumnsText, IsAnswerColumnsText};
ghost use Rattle.engine.specs.Statuses.{status_number, status_at};
ghost use Rattle.engine.specs.declared.status.Status.TheVariants.{Done, NoMemory, NoSuchName, NotOpen};
ghost use Rattle.engine_calls.specs.Calls.{OnSession, ForMemory, MergesWith, last_place};
ghost use Rattle.engine_calls.specs.declared.last.Asked.TheVariants.{Create, Feed, Load, Merge, Save};
ghost use Rattle.engine_c.specs.Exports.{kept_by, delivery_of, format_by, format_numbered, CallsSlot, AsksSlot, OpensSlot, FillsSlot, StaysFull};
ghost use Rattle.engine_c.specs.Exports.{GivesNothing, HandsOut, Fetches, Names, AsksReason, KeepsReason, MergesReason};

mod crossing;
mod delivery;
mod handle;
mod outcomes;
mod parts;
mod slot;

pub use crossing::slots_cross;
use delivery::Delivery;
use engine::{Format, Place, Seed, Status};
use outcomes::{delivery, format_by, format_numbered, hand_out, number_of};
use slot::{Slot, filled, taken, taken_or_new};
use std::alloc::Global;

/// Opens an empty session of a query over columns, both given as texts. An empty slot stays empty, and keeps no refusal, where there is no
/// memory for what it would keep.
#[unsafe(no_mangle)]
pub extern "C" fn agg_new(
    alloc: Global,
    slot: &mut Slot,
    columns: &[u8],
    query: &[u8],
    limit: u64,
    seed_low: u64,
    seed_high: u64,
) -> u32
    ensures opens { OpensSlot Create (Creates columns.now query.now limit (record { low = seed_low; high = seed_high }))
        slot.old.handle.kept slot.new.handle.kept result }
    ensures full { FillsSlot slot.old.handle.kept slot.new.handle.kept result }
{
    let Ok(mut kept) = taken_or_new(alloc, slot) else {
        return Status::NoMemory.number();
    };
    let seed = Seed {
        low: seed_low,
        high: seed_high,
    };
    let outcome = kept.create(columns, query, limit, seed);
    *slot = filled(kept);
    number_of(outcome)
}

/// Opens a session of the replica of a summary file. An empty slot stays empty as for [`agg_new`].
#[unsafe(no_mangle)]
pub extern "C" fn agg_load(
    alloc: Global,
    slot: &mut Slot,
    file: &[u8],
    limit: u64,
    seed_low: u64,
    seed_high: u64,
) -> u32
    ensures opens { OpensSlot Load (Loads file.now limit (record { low = seed_low; high = seed_high })) slot.old.handle.kept
        slot.new.handle.kept result }
    ensures full { FillsSlot slot.old.handle.kept slot.new.handle.kept result }
{
    let Ok(mut kept) = taken_or_new(alloc, slot) else {
        return Status::NoMemory.number();
    };
    let seed = Seed {
        low: seed_low,
        high: seed_high,
    };
    let outcome = kept.load(file, limit, seed);
    *slot = filled(kept);
    number_of(outcome)
}

/// Feeds a batch file.
#[unsafe(no_mangle)]
pub extern "C" fn agg_feed(
    alloc: Global,
    slot: &mut Slot,
    batch: &[u8],
    delivered: &mut Delivery,
) -> u32
    ensures feeds { CallsSlot (OnSession (FeedsFile batch.now)) (KeepsReason Feed) (λ told. delivered.new ≡ delivery_of told)
        slot.old.handle.kept slot.new.handle.kept result }
    ensures kept { result ≢ status_number Done → delivered.new ≡ delivered.old }
    ensures full { StaysFull slot.old.handle.kept slot.new.handle.kept }
{
    let Some(mut kept) = taken(alloc, slot) else {
        return Status::NotOpen.number();
    };
    let outcome = kept.feed(batch);
    *slot = filled(kept);
    let told = match outcome {
        Ok(told) => told,
        Err(status) => return status.number(),
    };
    *delivered = delivery(told);
    Status::Done.number()
}

/// Feeds the batch of an origin and a number, with rows in CSV, as many as declared.
#[unsafe(no_mangle)]
pub extern "C" fn agg_feed_rows(
    alloc: Global,
    slot: &mut Slot,
    origin: u32,
    number: u32,
    count: u32,
    rows: &[u8],
    delivered: &mut Delivery,
) -> u32
    ensures feeds { CallsSlot (OnSession (FeedsRows origin number count rows.now)) (KeepsReason Feed)
        (λ told. delivered.new ≡ delivery_of told) slot.old.handle.kept slot.new.handle.kept result }
    ensures kept { result ≢ status_number Done → delivered.new ≡ delivered.old }
    ensures full { StaysFull slot.old.handle.kept slot.new.handle.kept }
{
    let Some(mut kept) = taken(alloc, slot) else {
        return Status::NotOpen.number();
    };
    let outcome = kept.feed_rows(origin, number, count, rows);
    *slot = filled(kept);
    let told = match outcome {
        Ok(told) => told,
        Err(status) => return status.number(),
    };
    *delivered = delivery(told);
    Status::Done.number()
}

/// Merges the replica of another slot's session. Each slot is lent for the call alone, so that no slot is in both places: the function in
/// include/agg_merge.c, which C calls, refuses that before it calls this one.
#[unsafe(no_mangle)]
pub extern "C" fn agg_merge_apart(alloc: Global, into: &mut Slot, from: &mut Slot) -> u32
    ensures merges { CallsSlot (MergesWith (kept_by from.old.handle.kept).session) (MergesReason (kept_by from.old.handle.kept).session)
        GivesNothing into.old.handle.kept into.new.handle.kept result }
    ensures full { StaysFull into.old.handle.kept into.new.handle.kept }
    ensures from { from.new.handle.kept ≡ from.old.handle.kept }
{
    let Some(mut own) = taken(alloc, into) else {
        return Status::NotOpen.number();
    };
    let Some(theirs) = taken(alloc, from) else {
        *into = filled(own);
        return Status::NotOpen.number();
    };
    let outcome = own.merge(&theirs);
    *into = filled(own);
    *from = filled(theirs);
    number_of(outcome)
}

/// Merges the replica of a summary file.
#[unsafe(no_mangle)]
pub extern "C" fn agg_merge_bytes(alloc: Global, slot: &mut Slot, file: &[u8]) -> u32
    ensures merges { CallsSlot (OnSession (MergesFileSession file.now)) (KeepsReason Merge) GivesNothing slot.old.handle.kept
        slot.new.handle.kept result }
    ensures full { StaysFull slot.old.handle.kept slot.new.handle.kept }
{
    let Some(mut kept) = taken(alloc, slot) else {
        return Status::NotOpen.number();
    };
    let outcome = kept.merge_file(file);
    *slot = filled(kept);
    number_of(outcome)
}

/// Makes the summary file: `agg_fetch` fetches it.
#[unsafe(no_mangle)]
pub extern "C" fn agg_save(alloc: Global, slot: &mut Slot, wanted: &mut usize) -> u32
    ensures asks { AsksSlot (λ held file _. IsFileOf held file) IsTooLong (KeepsReason Save) GivesNothing slot.old.handle.kept
        slot.new.handle.kept wanted.new result }
    ensures full { StaysFull slot.old.handle.kept slot.new.handle.kept }
{
    let Some(mut kept) = taken(alloc, slot) else {
        return Status::NotOpen.number();
    };
    let outcome = kept.save();
    *wanted = kept.told().len();
    *slot = filled(kept);
    number_of(outcome)
}

/// Makes the list of what is known, a line for each origin: `agg_fetch` fetches it.
#[unsafe(no_mangle)]
pub extern "C" fn agg_known(alloc: Global, slot: &mut Slot, wanted: &mut usize) -> u32
    ensures asks { AsksSlot (λ held text _. IsKnownText held text) ForMemory AsksReason GivesNothing slot.old.handle.kept
        slot.new.handle.kept wanted.new result }
    ensures full { StaysFull slot.old.handle.kept slot.new.handle.kept }
{
    let Some(mut kept) = taken(alloc, slot) else {
        return Status::NotOpen.number();
    };
    let outcome = kept.known();
    *wanted = kept.told().len();
    *slot = filled(kept);
    number_of(outcome)
}

/// Makes the canonical text of the query: `agg_fetch` fetches it.
#[unsafe(no_mangle)]
pub extern "C" fn agg_query(alloc: Global, slot: &mut Slot, wanted: &mut usize) -> u32
    ensures asks { AsksSlot (λ held text _. IsQueryText held text) ForMemory AsksReason GivesNothing slot.old.handle.kept
        slot.new.handle.kept wanted.new result }
    ensures full { StaysFull slot.old.handle.kept slot.new.handle.kept }
{
    let Some(mut kept) = taken(alloc, slot) else {
        return Status::NotOpen.number();
    };
    let outcome = kept.query();
    *wanted = kept.told().len();
    *slot = filled(kept);
    number_of(outcome)
}

/// Makes the canonical text of the columns: `agg_fetch` fetches it.
#[unsafe(no_mangle)]
pub extern "C" fn agg_columns(alloc: Global, slot: &mut Slot, wanted: &mut usize) -> u32
    ensures asks { AsksSlot (λ held text _. IsColumnsText held text) ForMemory AsksReason GivesNothing slot.old.handle.kept
        slot.new.handle.kept wanted.new result }
    ensures full { StaysFull slot.old.handle.kept slot.new.handle.kept }
{
    let Some(mut kept) = taken(alloc, slot) else {
        return Status::NotOpen.number();
    };
    let outcome = kept.columns();
    *wanted = kept.told().len();
    *slot = filled(kept);
    number_of(outcome)
}

/// Makes the text of the answer's columns, each with its type: `agg_fetch` fetches it.
#[unsafe(no_mangle)]
pub extern "C" fn agg_answer_columns(alloc: Global, slot: &mut Slot, wanted: &mut usize) -> u32
    ensures asks { AsksSlot (λ held text _. IsAnswerColumnsText held text) ForMemory AsksReason GivesNothing slot.old.handle.kept
        slot.new.handle.kept wanted.new result }
    ensures full { StaysFull slot.old.handle.kept slot.new.handle.kept }
{
    let Some(mut kept) = taken(alloc, slot) else {
        return Status::NotOpen.number();
    };
    let outcome = kept.answer_columns();
    *wanted = kept.told().len();
    *slot = filled(kept);
    number_of(outcome)
}

/// Makes the answer's table in the format of a number, as [`agg_answer`] does. The numbers are 0 for CSV, 1 for columns below one another,
/// 2 for TSV and 3 for JSON; of any other there is no format, and nothing changes.
#[unsafe(no_mangle)]
pub extern "C" fn agg_table(
    alloc: Global,
    slot: &mut Slot,
    format: u32,
    rows: &mut usize,
    wanted: &mut usize,
) -> u32
    ensures asks { IfSome (format_numbered format) (λ named. AsksSlot (λ held text count. IsTableOf named held count text) ForMemory
        AsksReason (λ count. rows.new ≡ count) slot.old.handle.kept slot.new.handle.kept wanted.new result) }
    ensures none { format_numbered format ≡ None → result ≡ status_number NoSuchName }
    ensures same { format_numbered format ≡ None → slot.new.handle.kept ≡ slot.old.handle.kept }
    ensures full { StaysFull slot.old.handle.kept slot.new.handle.kept }
{
    match format_numbered(format) {
        Some(named) => table_in(alloc, slot, named, rows, wanted),
        None => Status::NoSuchName.number(),
    }
}

/// Makes the answer's table in CSV, or in columns below one another, and gives its number of rows: `agg_fetch` fetches the table.
#[unsafe(no_mangle)]
pub extern "C" fn agg_answer(
    alloc: Global,
    slot: &mut Slot,
    aligned: bool,
    rows: &mut usize,
    wanted: &mut usize,
) -> u32
    ensures asks { AsksSlot (λ held text count. IsTableOf (format_by aligned) held count text) ForMemory AsksReason
        (λ count. rows.new ≡ count) slot.old.handle.kept slot.new.handle.kept wanted.new result }
    ensures full { StaysFull slot.old.handle.kept slot.new.handle.kept }
{
    table_in(alloc, slot, format_by(aligned), rows, wanted)
}

/// Makes the sentence of the last refusal, and gives its place: `agg_fetch` fetches the sentence. Neither has anything if there was none.
#[unsafe(no_mangle)]
pub extern "C" fn agg_reason(
    alloc: Global,
    slot: &mut Slot,
    place: &mut Place,
    wanted: &mut usize,
) -> u32
    ensures place { result ≡ status_number Done → place.new ≡ last_place (kept_by slot.old.handle.kept).why }
    ensures none { result ≡ status_number Done → (kept_by slot.old.handle.kept).why ≡ None → (kept_by slot.new.handle.kept).told ≡ [] }
    ensures text { result ≡ status_number Done → IfSome (kept_by slot.old.handle.kept).reason
        (λ reason. (kept_by slot.new.handle.kept).told ≡ reason.text) }
    ensures session { (kept_by slot.new.handle.kept).session ≡ (kept_by slot.old.handle.kept).session }
    ensures last { (kept_by slot.new.handle.kept).why ≡ (kept_by slot.old.handle.kept).why }
    ensures reason { (kept_by slot.new.handle.kept).reason ≡ (kept_by slot.old.handle.kept).reason }
    ensures wanted { result ≡ status_number Done → wanted.new ≡ length (kept_by slot.new.handle.kept).told }
    ensures same { result ≢ status_number Done → kept_by slot.new.handle.kept ≡ kept_by slot.old.handle.kept }
    ensures ends { IsSome slot.old.handle.kept → (result ≡ status_number Done) ⊎ (result ≡ status_number NoMemory) }
    ensures empty { slot.old.handle.kept ≡ None → result ≡ status_number NotOpen }
    ensures full { StaysFull slot.old.handle.kept slot.new.handle.kept }
{
    let Some(mut kept) = taken(alloc, slot) else {
        return Status::NotOpen.number();
    };
    let outcome = kept.explain();
    *wanted = kept.told().len();
    *slot = filled(kept);
    let found = match outcome {
        Ok(found) => found,
        Err(status) => return status.number(),
    };
    *place = found;
    Status::Done.number()
}

/// Copies the last result to the bytes at `out`, if it fits, and gives its length.
#[unsafe(no_mangle)]
pub extern "C" fn agg_fetch(
    alloc: Global,
    slot: &mut Slot,
    out: &mut [u8],
    wanted: &mut usize,
) -> u32
    ensures fetches { Fetches slot.old.handle.kept out.old out.new wanted.new result }
    ensures same { slot.new.handle.kept ≡ slot.old.handle.kept }
{
    let Some(kept) = taken(alloc, slot) else {
        *wanted = 0;
        return Status::NotOpen.number();
    };
    let status = hand_out(kept.told(), out, wanted);
    *slot = filled(kept);
    status
}

/// Closes the session, and frees all memory of the slot, which is then empty and can be reused.
#[unsafe(no_mangle)]
pub extern "C" fn agg_close(alloc: Global, slot: &mut Slot) -> u32
    ensures emptied { slot.new.handle.kept ≡ None }
    ensures done { IsSome slot.old.handle.kept → result ≡ status_number Done }
    ensures empty { slot.old.handle.kept ≡ None → result ≡ status_number NotOpen }
{
    let Some(kept) = taken(alloc, slot) else {
        return Status::NotOpen.number();
    };
    drop(kept);
    Status::Done.number()
}

/// Copies the name of a status to the bytes at `out`, if it fits, and gives its length.
#[unsafe(no_mangle)]
pub extern "C" fn agg_status_name(status: u32, out: &mut [u8], wanted: &mut usize) -> u32
    ensures { Names (status_at status) out.old out.new wanted.new result }
{
    let Some(named) = Status::numbered(status) else {
        *wanted = 0;
        return Status::NoSuchName.number();
    };
    hand_out(named.name().as_bytes(), out, wanted)
}

/// Copies the version of the library to the bytes at `out`, if it fits, and gives its length.
#[unsafe(no_mangle)]
pub extern "C" fn agg_version(out: &mut [u8], wanted: &mut usize) -> u32
    ensures { HandsOut (codes "0.1.0") out.old out.new wanted.new result }
{
    hand_out(b"0.1.0", out, wanted)
}

/// Makes the answer's table in a format, and gives its number of rows.
fn table_in(
    alloc: Global,
    slot: &mut Slot,
    format: Format,
    rows: &mut usize,
    wanted: &mut usize,
) -> u32
    ensures asks { AsksSlot (λ held text count. IsTableOf format held count text) ForMemory AsksReason
        (λ count. rows.new ≡ count) slot.old.handle.kept slot.new.handle.kept wanted.new result }
    ensures full { StaysFull slot.old.handle.kept slot.new.handle.kept }
{
    let Some(mut kept) = taken(alloc, slot) else {
        return Status::NotOpen.number();
    };
    let outcome = kept.answer(format);
    *wanted = kept.told().len();
    *slot = filled(kept);
    let count = match outcome {
        Ok(count) => count,
        Err(status) => return status.number(),
    };
    *rows = count;
    Status::Done.number()
}
