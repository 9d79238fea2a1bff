//! From a file to a query and what is held of some origins.

ghost use Rattle.std.specs.Prelude.{◌≡◌, ◌≢◌, ◌≤◌, ◌++◌, ◌∷◌, ◌*◌, ◌⊎◌, ◌<◌, ℕ, List, [], Ok, Err, IfOk, IfErr, OnOk, IfNone, length, map};
ghost use Rattle.std.specs.Prelude.{true, IsTrue, ◌↔◌};
ghost use Rattle.grouping_model.specs.declared.limits.TheConstants.{LAST_ORIGIN};
ghost use Rattle.packed_rows.specs.Columns.{Column, kinds, IsSchemaText};
ghost use Rattle.group_parser.specs.Parsing.{Accepts, Refuses};
ghost use Rattle.group_parser.specs.declared.error.ParseError.{ParseError};
ghost use Rattle.summary_codec.specs.declared.error.SummaryError.TheVariants as fault;
ghost use Rattle.packed_rows.specs.Packing.{IsPacking};
ghost use Rattle.packed_rows.specs.View.{kinds_of};
ghost use Rattle.having_filter.specs.Meaning.{meaning};
ghost use Rattle.having_filter.specs.Kept.{IsCheckedQuery};
ghost use Rattle.std.specs.Cmp.Lexicographic.{slice_cmp};
ghost use Rattle.std.specs.Ordering.{nat_cmp};
ghost use Rattle.std.specs.declared.cmp.Ordering.TheVariants.{Less};
ghost use Rattle.agg_protocol.specs.States.{most_rows};
ghost use Rattle.group_runs.specs.Runs.{Entry, Rises, packed_keys};
ghost use Rattle.origin_prefix.specs.Parts.{Part, IsPartOf};
ghost use Rattle.origin_prefix.specs.Held.{AreHeldParts};
ghost use Rattle.summary_codec.specs.Gathered.{Rise};
ghost use Rattle.summary_codec.specs.Reading.{IsNext, AreStateBytes, states_width, each, group, row, batch, batches};
ghost use Rattle.summary_codec.specs.Reading.{contents, part, parts, text, heading, rest, body, schema, query, columns_in, query_in};
ghost use Rattle.summary_codec.specs.Reading.{IsSummary, HasFault};
ghost use Rattle.summary_codec.specs.declared.error.SummaryError.TheVariants.{NoMemory, BadPacked, BadState, BadSchema, NotCanonical};

use crate::error::SummaryError;
use crate::fields::Fields;
use crate::gathering::EarlyBatches;
use crate::version::Version;
use agg_library::StateRow;
use batch_reader::PackedRows;
use group_parser::{ParseError, parse};
use grouping_model::limits::LAST_ORIGIN;
use hash_agg::Run;
use having_filter::{Query, QueryError};
use origin_prefix::OriginPart;
use packed_rows::{RowError, Schema, Value, ValueKind, unpack_into};
use std::alloc::{AllocError, Global};
use std::collections::BTreeMap;
use std::str;

/// Checks that bytes are the packing of values of these kinds. The values are read into a buffer, which serves for many.
fn check_packing<'a>(
    kinds: &[ValueKind],
    packed: &'a [u8],
    values: &mut Vec<Value<'a>>,
) -> Result<(), SummaryError>
    ensures packed { OnOk result (IsPacking (kinds_of kinds.now) packed.now) }
    ensures fault { IfErr result (λ e. e ≢ NoMemory →
        (¬ (IsPacking (kinds_of kinds.now) packed.now)) × (e ≡ BadPacked)) }
{
    match unpack_into(kinds, packed, values) {
        Ok(()) => Ok(()),
        Err(RowError::NoMemory) => Err(SummaryError::NoMemory),
        Err(_) => Err(SummaryError::BadPacked),
    }
}

/// Whether bytes are below others.
fn is_below(one: &[u8], other: &[u8]) -> bool
    ensures { IsTrue result ↔ (slice_cmp nat_cmp one.now other.now ≡ Less) }
{
    one.cmp(other).is_lt()
}

/// Whether a key is above the keys of all groups.
fn is_key_above(run: &Run, key: &[u8]) -> bool
    ensures above { IsTrue result ↔ IsNext (slice_cmp nat_cmp) (packed_keys run.now) key.now }
    ensures rises { Rises run.now }
{
    match run.len().checked_sub(1) {
        Some(last) => is_below(run.group(last).0, key),
        None => true,
    }
}

/// Checks that bytes are the states of the aggregates of a query, which count at most so many rows.
fn check_states(query: &Query, states: &[u8], most: u64) -> Result<(), SummaryError>
    requires { most ≤ most_rows }
    ensures states { OnOk result (AreStateBytes (meaning query.now) most states.now) }
    ensures fault { IfErr result (λ e.
        (¬ (AreStateBytes (meaning query.now) most states.now)) × (e ≡ BadState)) }
{
    match StateRow::check(query.agg_kinds(), states, most) {
        Ok(()) => Ok(()),
        Err(_) => Err(SummaryError::BadState),
    }
}

/// How many bytes the states of a group have.
fn width_of_states(query: &Query) -> usize
    ensures { result ≡ states_width (meaning query.now) }
{
    StateRow::width(query.agg_kinds())
}

/// Reads a group behind those of a run, and puts it there.
#[tactic(auto, unfolding(crate::specs::Reading::group))]
fn read_group<'a>(
    query: &Query,
    most: u64,
    fields: &mut Fields<'a>,
    values: &mut Vec<Value<'a>>,
    run: &mut Run,
) -> Result<(), SummaryError>
    requires { most ≤ most_rows }
    ensures read { OnOk result ((entry : Entry)
        × group (meaning query.now) most run.old fields.old (Ok (entry, fields.new))
        × (run.new ≡ run.old ++ entry ∷ [])) }
    ensures fault { IfErr result (λ e. e ≢ NoMemory →
        group (meaning query.now) most run.old fields.old (Err e)) }
{
    let key = fields.sized()?;
    check_packing(query.key_kinds(), key, values)?;
    if !is_key_above(run, key) {
        return Err(SummaryError::NotCanonical);
    }
    let states = fields.take(width_of_states(query))?;
    check_states(query, states, most)?;
    run.push(key, states)?;
    Ok(())
}

/// Reads so many groups.
fn read_run(
    alloc: Global,
    query: &Query,
    most: u64,
    count: u64,
    fields: &mut Fields<'_>,
) -> Result<Run, SummaryError>
    requires { most ≤ most_rows }
    ensures read { IfOk result (λ run.
        each (group (meaning query.now) most) count [] fields.old (Ok (run, fields.new))) }
    ensures fault { IfErr result (λ e. e ≢ NoMemory →
        each (group (meaning query.now) most) count [] fields.old (Err e)) }
{
    let mut run = Run::new(alloc);
    let mut values = Vec::new(alloc);
    for _ in 0..count {
        read_group(query, most, fields, &mut values, &mut run)?;
    }
    Ok(run)
}

/// Reads a packed row behind others, and puts it there.
#[tactic(auto, unfolding(crate::specs::Reading::row))]
fn read_row<'a>(
    kinds: &[ValueKind],
    fields: &mut Fields<'a>,
    values: &mut Vec<Value<'a>>,
    rows: &mut PackedRows,
) -> Result<(), SummaryError>
    ensures read { OnOk result ((packed : List ℕ)
        × row (kinds_of kinds.now) rows.old fields.old (Ok (packed, fields.new))
        × (rows.new ≡ rows.old ++ packed ∷ [])) }
    ensures fault { IfErr result (λ e. e ≢ NoMemory →
        row (kinds_of kinds.now) rows.old fields.old (Err e)) }
{
    let packed = fields.sized()?;
    check_packing(kinds, packed, values)?;
    rows.push(packed)?;
    Ok(())
}

/// Reads so many packed rows.
fn read_rows(
    alloc: Global,
    kinds: &[ValueKind],
    count: u64,
    fields: &mut Fields<'_>,
) -> Result<PackedRows, SummaryError>
    ensures read { IfOk result (λ rows.
        each (row (kinds_of kinds.now)) count [] fields.old (Ok (rows, fields.new))) }
    ensures fault { IfErr result (λ e. e ≢ NoMemory →
        each (row (kinds_of kinds.now)) count [] fields.old (Err e)) }
{
    let mut rows = PackedRows::new(alloc);
    let mut values = Vec::new(alloc);
    for _ in 0..count {
        read_row(kinds, fields, &mut values, &mut rows)?;
    }
    Ok(rows)
}

/// Reads an early batch behind others, and puts it there.
#[tactic(auto, unfolding(crate::specs::Reading::batch))]
fn read_batch(
    alloc: Global,
    version: Version,
    schema: &Schema,
    prefix: u32,
    fields: &mut Fields<'_>,
    early: &mut EarlyBatches,
) -> Result<(), SummaryError>
    requires { Rise early.old }
    ensures read { OnOk result ((found : ℕ × List (List ℕ))
        × batch version (kinds schema.now) prefix early.old fields.old (Ok (found, fields.new))
        × (early.new ≡ early.old ++ found ∷ [])) }
    ensures rising { OnOk result (Rise early.new) }
    ensures fault { IfErr result (λ e. e ≢ NoMemory →
        batch version (kinds schema.now) prefix early.old fields.old (Err e)) }
{
    let number = fields.number_within(4, u64::from(version.last_number()))? as u32;
    if !early.may_follow(prefix, number) {
        return Err(SummaryError::NotCanonical);
    }
    let count = fields.number_within(4, u64::from(version.most_batch_rows()))?;
    let rows = read_rows(alloc, schema.kinds(), count, fields)?;
    early.push(number, rows)?;
    Ok(())
}

/// Reads so many early batches.
fn read_early(
    alloc: Global,
    version: Version,
    schema: &Schema,
    prefix: u32,
    count: u64,
    fields: &mut Fields<'_>,
) -> Result<BTreeMap<u32, PackedRows>, SummaryError>
    ensures read { IfOk result (λ early.
        each (batch version (kinds schema.now) prefix) count [] fields.old (Ok (early.entries, fields.new))) }
    ensures fault { IfErr result (λ e. e ≢ NoMemory →
        each (batch version (kinds schema.now) prefix) count [] fields.old (Err e)) }
{
    let mut early = EarlyBatches::new(alloc);
    for _ in 0..count {
        read_batch(alloc, version, schema, prefix, fields, &mut early)?;
    }
    Ok(early.into_map()?)
}

/// Reads the early batches behind a prefix, which are there where the prefix is 0.
#[tactic(auto, unfolding(crate::specs::Reading::batches))]
fn read_batches(
    alloc: Global,
    version: Version,
    schema: &Schema,
    prefix: u32,
    fields: &mut Fields<'_>,
) -> Result<BTreeMap<u32, PackedRows>, SummaryError>
    ensures read { IfOk result (λ early.
        batches version (kinds schema.now) prefix fields.old (Ok (early.entries, fields.new))) }
    ensures fault { IfErr result (λ e. e ≢ NoMemory →
        batches version (kinds schema.now) prefix fields.old (Err e)) }
{
    let count = fields.number(4)?;
    if prefix == 0 && count == 0 {
        return Err(SummaryError::NotCanonical);
    }
    read_early(alloc, version, schema, prefix, count, fields)
}

/// Reads the groups of a prefix, and the early batches behind it.
#[tactic(auto, unfolding(crate::specs::Reading::contents))]
fn read_contents(
    alloc: Global,
    version: Version,
    query: &Query,
    prefix: u32,
    fields: &mut Fields<'_>,
) -> Result<OriginPart, SummaryError>
    ensures read { IfOk result (λ part. contents version query.now prefix fields.old (Ok (part, fields.new))) }
    ensures fault { IfErr result (λ e. e ≢ NoMemory →
        contents version query.now prefix fields.old (Err e)) }
{
    let most = version.rows_upto(prefix);
    let groups = fields.number_within(8, most)?;
    let run = read_run(alloc, query, most, groups, fields)?;
    let early = read_batches(alloc, version, query.schema(), prefix, fields)?;
    Ok(OriginPart::from_fields(alloc, prefix, run, early))
}

/// Whether an origin is above those of all parts.
fn is_origin_above(parts: &BTreeMap<u16, OriginPart>, origin: u16) -> bool
    ensures { IsTrue result ↔
        IsNext nat_cmp (map (λ (held : ℕ × Part). held.0) parts.now.entries) origin }
{
    match parts.last_key_value() {
        Some((last, _)) => *last < origin,
        None => true,
    }
}

/// Puts a part behind those of other origins.
fn put_part(
    parts: &mut BTreeMap<u16, OriginPart>,
    origin: u16,
    part: OriginPart,
) -> Result<(), AllocError>
    requires { IsNext nat_cmp (map (λ (held : ℕ × Part). held.0) parts.old.entries) origin }
    ensures { OnOk result (parts.new.entries ≡ parts.old.entries ++ (origin, part) ∷ []) }
{
    match parts.insert(origin, part) {
        Ok(_) => Ok(()),
        Err(_) => Err(AllocError),
    }
}

/// Reads what is held of an origin behind others, and puts it there.
#[tactic(auto, unfolding(crate::specs::Reading::part))]
fn read_part(
    alloc: Global,
    version: Version,
    query: &Query,
    fields: &mut Fields<'_>,
    parts: &mut BTreeMap<u16, OriginPart>,
) -> Result<(), SummaryError>
    ensures read { OnOk result ((found : ℕ × Part)
        × part version query.now parts.old.entries fields.old (Ok (found, fields.new))
        × (parts.new.entries ≡ parts.old.entries ++ found ∷ [])) }
    ensures fault { IfErr result (λ e. e ≢ NoMemory →
        part version query.now parts.old.entries fields.old (Err e)) }
{
    let origin = fields.number_within(2, u64::from(LAST_ORIGIN))? as u16;
    if !is_origin_above(parts, origin) {
        return Err(SummaryError::NotCanonical);
    }
    let prefix = fields.number_within(4, u64::from(version.last_number()))? as u32;
    let part = read_contents(alloc, version, query, prefix, fields)?;
    put_part(parts, origin, part)?;
    Ok(())
}

/// Reads what is held of so many origins.
fn read_held(
    alloc: Global,
    version: Version,
    query: &Query,
    count: u64,
    fields: &mut Fields<'_>,
) -> Result<BTreeMap<u16, OriginPart>, SummaryError>
    ensures read { IfOk result (λ parts.
        each (part version query.now) count [] fields.old (Ok (parts.entries, fields.new))) }
    ensures fault { IfErr result (λ e. e ≢ NoMemory →
        each (part version query.now) count [] fields.old (Err e)) }
{
    let mut parts = BTreeMap::new(alloc);
    for _ in 0..count {
        read_part(alloc, version, query, fields, &mut parts)?;
    }
    Ok(parts)
}

/// Reads what is held of all origins.
#[tactic(auto, unfolding(crate::specs::Reading::parts))]
fn read_parts(
    alloc: Global,
    version: Version,
    query: &Query,
    fields: &mut Fields<'_>,
) -> Result<BTreeMap<u16, OriginPart>, SummaryError>
    ensures read { IfOk result (λ held. parts version query.now fields.old (Ok (held.entries, fields.new))) }
    ensures fault { IfErr result (λ e. e ≢ NoMemory → parts version query.now fields.old (Err e)) }
{
    let count = fields.number_within(2, u64::from(LAST_ORIGIN) + 1)?;
    read_held(alloc, version, query, count, fields)
}

/// Reads a text.
#[tactic(auto, unfolding(crate::specs::Reading::text))]
fn read_text<'a>(fields: &mut Fields<'a>) -> Result<&'a str, SummaryError>
    ensures read { IfOk result (λ found. text fields.old (Ok (found.now, fields.new))) }
    ensures fault { IfErr result (λ e. text fields.old (Err e)) }
{
    let bytes = fields.sized()?;
    match str::from_utf8(bytes) {
        Ok(text) => Ok(text),
        Err(_) => Err(SummaryError::NotCanonical),
    }
}

/// The columns that a text says.
fn parse_schema(alloc: Global, text: &str) -> Result<Schema, SummaryError>
    ensures parsed { IfOk result (λ schema. IsSchemaText text.now schema) }
    ensures fault { IfErr result (λ e. e ≢ NoMemory →
        ((columns : List Column) → ¬ (IsSchemaText text.now columns)) × (e ≡ BadSchema)) }
{
    match Schema::parse(alloc, text) {
        Ok(schema) => Ok(schema),
        Err(RowError::NoMemory) => Err(SummaryError::NoMemory),
        Err(RowError::BadSchema) => Err(SummaryError::BadSchema),
        Err(RowError::BadField { .. } | RowError::WrongWidth | RowError::BadPacked) => {
            unreachable!()
        }
    }
}

/// Checks that a text is the canonical one.
fn check_text(canonical: &str, text: &str) -> Result<(), SummaryError>
    ensures same { OnOk result (canonical.now ≡ text.now) }
    ensures fault { IfErr result (λ e. (canonical.now ≢ text.now) × (e ≡ NotCanonical)) }
{
    if canonical == text {
        return Ok(());
    }
    Err(SummaryError::NotCanonical)
}

/// Reads a schema's canonical text.
#[tactic(auto, unfolding(crate::specs::Reading::schema))]
fn read_schema(alloc: Global, fields: &mut Fields<'_>) -> Result<Schema, SummaryError>
    ensures read { IfOk result (λ found. schema fields.old (Ok (found, fields.new))) }
    ensures fault { IfErr result (λ e. e ≢ NoMemory → schema fields.old (Err e)) }
{
    let text = read_text(fields)?;
    let schema = parse_schema(alloc, text)?;
    let canonical = schema.print()?;
    check_text(canonical.as_str(), text)?;
    Ok(schema)
}

/// The query that a text says over columns.
fn parse_query(alloc: Global, schema: &Schema, text: &str) -> Result<Query, SummaryError>
    ensures parsed { IfOk result (λ query. Accepts schema.now text.now query) }
    ensures fault { IfErr result (λ e. e ≢ NoMemory →
        (why : ParseError) × Refuses schema.now text.now why × (e ≡ fault.Query why)) }
{
    match parse(alloc, schema, text) {
        Ok(query) => Ok(query),
        Err(ParseError::Query(QueryError::NoMemory)) => Err(SummaryError::NoMemory),
        Err(why) => Err(SummaryError::Query(why)),
    }
}

/// Reads a query's canonical text.
#[tactic(auto, unfolding(crate::specs::Reading::query))]
fn read_query(
    alloc: Global,
    schema: &Schema,
    fields: &mut Fields<'_>,
) -> Result<Query, SummaryError>
    ensures read { IfOk result (λ found. query schema.now fields.old (Ok (found, fields.new))) }
    ensures fault { IfErr result (λ e. e ≢ NoMemory → query schema.now fields.old (Err e)) }
{
    let text = read_text(fields)?;
    let query = parse_query(alloc, schema, text)?;
    check_text(query.spelling(), text)?;
    Ok(query)
}

/// Reads the schema and the query.
#[tactic(auto, unfolding(crate::specs::Reading::heading))]
fn parse_heading(alloc: Global, fields: &mut Fields<'_>) -> Result<Query, SummaryError>
    ensures read { IfOk result (λ query. heading fields.old (Ok (query, fields.new))) }
    ensures fault { IfErr result (λ e. e ≢ NoMemory → heading fields.old (Err e)) }
{
    let schema = read_schema(alloc, fields)?;
    read_query(alloc, &schema, fields)
}

/// Whether a text comes next. Where it does, it is taken.
fn takes_text(fields: &mut Fields<'_>, expected: &str) -> bool
    ensures { result ≡ true → text fields.old (Ok (expected.now, fields.new)) }
{
    match read_text(fields) {
        Ok(text) => text == expected,
        Err(_) => false,
    }
}

/// Whether the schema and the query come next. Where they do, they are taken.
fn takes_heading(known: &Query, fields: &mut Fields<'_>) -> Result<bool, AllocError>
    ensures { IfOk result (λ taken. taken ≡ true →
        heading fields.old (Ok (known.now, fields.new))) }
{
    let schema = known.schema().print()?;
    if !takes_text(fields, schema.as_str()) {
        return Ok(false);
    }
    Ok(takes_text(fields, known.spelling()))
}

/// Reads the schema and the query. Those of a query that is known are compared with its texts: it is shared, and nothing is parsed.
fn read_heading(
    alloc: Global,
    known: Option<&Query>,
    fields: &mut Fields<'_>,
) -> Result<Query, SummaryError>
    ensures read { IfOk result (λ query. heading fields.old (Ok (query, fields.new))) }
    ensures fault { IfErr result (λ e. e ≢ NoMemory → heading fields.old (Err e)) }
{
    let Some(known) = known else {
        return parse_heading(alloc, fields);
    };
    let mut ahead = fields.ahead();
    if !takes_heading(known, &mut ahead)? {
        return parse_heading(alloc, fields);
    }
    let query = known.try_clone()?;
    fields.go_on(&ahead);
    Ok(query)
}

/// Reads what is held of all origins, and that nothing follows.
#[tactic(auto, unfolding(crate::specs::Reading::rest))]
fn read_rest(
    alloc: Global,
    version: Version,
    query: &Query,
    fields: &mut Fields<'_>,
) -> Result<BTreeMap<u16, OriginPart>, SummaryError>
    ensures read { IfOk result (λ held. rest version query.now fields.old (Ok (held.entries, fields.new))) }
    ensures fault { IfErr result (λ e. e ≢ NoMemory → rest version query.now fields.old (Err e)) }
    ensures end { OnOk result (fields.new ≡ []) }
{
    let parts = read_parts(alloc, version, query, fields)?;
    fields.end()?;
    Ok(parts)
}

/// Reads what stands behind the opening of a file of a version, to its end.
#[tactic(auto, unfolding(crate::specs::Reading::body))]
fn read_body(
    alloc: Global,
    known: Option<&Query>,
    version: Version,
    fields: &mut Fields<'_>,
) -> Result<(Query, BTreeMap<u16, OriginPart>), SummaryError>
    ensures read { IfOk result (λ found. body version fields.old (Ok ((found.0, found.1.entries), []))) }
    ensures fault { IfErr result (λ e. e ≢ NoMemory → body version fields.old (Err e)) }
{
    let query = read_heading(alloc, known, fields)?;
    let parts = read_rest(alloc, version, &query, fields)?;
    Ok((query, parts))
}

/// The query and what is held of each origin, by ascending origin, in a summary file of either version. Any bytes are read: other bytes are
/// refused by the first fault from the left. Its time grows with the length of the bytes, and its memory with what it has read.
///
/// # Errors
///
/// The first of these: `NotASummary` for other first bytes; `Truncated` for an incomplete field; `BadSchema`, and the errors of
/// [`parse`], for the texts; `OutOfRange` for a number above its limit in the file's version; `BadPacked` for a key or a row; `BadState`
/// for a state row that denotes no states that count at most the prefix times the rows of a batch; `NotCanonical` for a text that isn't
/// canonical, for origins, keys or early numbers that aren't in ascending order, for an early number that isn't above the prefix and one
/// more, and for an origin of which nothing is held; `Trailing` for bytes after the last field. Or `NoMemory`.
pub fn decode(
    alloc: Global,
    bytes: &[u8],
) -> Result<(Query, BTreeMap<u16, OriginPart>), SummaryError>
    ensures read { IfOk result (λ found. IsSummary bytes.now found.0 found.1.entries) }
    // What is read may be held: no group counts more rows than its prefix may have.
    ensures held { IfOk result (λ found. AreHeldParts found.0 found.1.entries) }
    ensures fault { IfErr result (λ e. e ≢ NoMemory → HasFault bytes.now e) }
{
    decode_sharing(alloc, None, bytes)
}

/// The same as [`decode`], with the same errors. If the file has the given query, it is shared: it is held once, and its texts are compared
/// instead of parsed.
#[tactic(auto, unfolding(crate::specs::Reading::summary))]
pub fn decode_sharing(
    alloc: Global,
    known: Option<&Query>,
    bytes: &[u8],
) -> Result<(Query, BTreeMap<u16, OriginPart>), SummaryError>
    ensures read { IfOk result (λ found. IsSummary bytes.now found.0 found.1.entries) }
    ensures held { IfOk result (λ found. AreHeldParts found.0 found.1.entries) }
    ensures fault { IfErr result (λ e. e ≢ NoMemory → HasFault bytes.now e) }
{
    let mut fields = Fields::new(bytes);
    let version = fields.open()?;
    read_body(alloc, known, version, &mut fields)
}
