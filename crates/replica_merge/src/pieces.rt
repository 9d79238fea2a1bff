//! The rows of an answer over several origins, piece by piece.

ghost use Rattle.std.specs.Prelude.{◌≡◌, ◌≤◌, ◌↔◌, List, IsTrue, map, IfOk, OnOk};
ghost use Rattle.std.specs.List.{AllByRecursion, Any};
ghost use Rattle.agg_protocol.specs.States.{most_rows};
ghost use Rattle.grouping_model.specs.Aggregates.{Outcome};
ghost use Rattle.having_filter.specs.Meaning.{meaning};
ghost use Rattle.hash_agg.specs.Inputs.{all_rows, IsInput};
ghost use Rattle.replica_merge.specs.Replicas.{counted_part};
ghost use Rattle.replica_merge.specs.Pieces.{IsSpan, brought_to, left_by, AreNext, IsEnd, AreOfNext, bound_of};
ghost use Rattle.replica_merge.specs.Pieces.{IsCopy, HasGroups, HasLeft, IsPiece, ShowPiece, ShowLeft};

use group_answers::{RowSink, project_into, rows_of_run};
use hash_agg::Run;
use having_filter::Query;
use origin_prefix::OriginPart;
use std::alloc::{AllocError, Global};
use std::collections::BTreeMap;

/// About how many groups the runs of all origins give to a piece, so that it stays in the cache of a processor.
const PIECE_GROUPS: usize = 4096;

/// How many groups at least each origin gives to a piece on average, so that there are not too many pieces.
const SPAN_GROUPS: usize = 64;

/// The groups of an origin that come into a piece: those of its run from a place up to another. Those behind are left.
#[derive(Drop)]
pub(crate) struct Span<'a> {
    part: &'a OriginPart,
    from: usize,
    to: usize,
}

/// Of each origin a span of no groups, by ascending origin: all of its groups are left. The only error is out of memory.
pub(crate) fn spans_of<'a>(
    alloc: Global,
    parts: &'a BTreeMap<u16, OriginPart>,
) -> Result<Vec<Span<'a>>, AllocError>
    ensures left { IfOk result (λ spans. left_by spans.items ≡ map counted_part parts.now.entries) }
    ensures within { IfOk result (λ spans. AllByRecursion IsSpan spans.items) }
{
    let mut spans = Vec::with_capacity(alloc, parts.len())?;
    for (_, part) in parts {
        spans.push(Span {
            part,
            from: 0,
            to: 0,
        })?;
    }
    Ok(spans)
}

/// A copy of the groups of a span, or of none. The only error is out of memory.
fn copied(alloc: Global, spans: &[Span<'_>]) -> Result<Run, AllocError>
    requires within { AllByRecursion IsSpan spans.now }
    ensures { IfOk result (IsCopy spans.now) }
{
    match spans.first() {
        Some(span) => span.part.run().piece(alloc, span.from, span.to),
        None => Ok(Run::new(alloc)),
    }
}

/// The groups of all spans in one run, each once, with the states of all that have it.
///
/// The groups of a span are in key order already, so this is a merge sort. Each half of the spans is united, and the second run is added to
/// the first. So a group is copied once for each halving, not once for each span. The only error is out of memory.
fn united(alloc: Global, query: &Query, spans: &[Span<'_>]) -> Result<Run, AllocError>
    requires inputs { AllByRecursion (IsInput (meaning query.now)) (brought_to spans.now) }
    requires within { AllByRecursion IsSpan spans.now }
    requires few { all_rows (brought_to spans.now) ≤ most_rows }
    ensures { IfOk result (IsPiece (meaning query.now) spans.now) }
{
    if spans.len() < 2 {
        return copied(alloc, spans);
    }
    let (front, back) = spans.split_at(spans.len() / 2);
    let mut all = united(alloc, query, front)?;
    let more = united(alloc, query, back)?;
    all.merge_from(alloc, query.agg_kinds(), &more)?;
    Ok(all)
}

/// The key that bounds the next piece: that of a group `step` groups further on in the span that leaves the most. There is none if no more
/// than `most` groups are left, or only one of each span. The answer does not depend on it.
fn bounding_key<'a>(spans: &[Span<'a>], step: usize, most: usize) -> Option<&'a [u8]> {
    let mut total: usize = 0;
    let mut longest: usize = 0;
    let mut most_left: usize = 0;
    for at in 0..spans.len() {
        let span = &spans[at];
        let left = span.part.run().len().saturating_sub(span.to);
        total = total.saturating_add(left);
        if left > most_left {
            longest = at;
            most_left = left;
        }
    }
    let span = spans.get(longest)?;
    let run = span.part.run();
    let left = run.len().saturating_sub(span.to);
    if total <= most || left < 2 {
        return None;
    }
    Some(run.group(span.to + step.min(left - 1)).0)
}

/// Where the groups end that have keys below a key, of those that a span leaves; without a key, where all end. `step` is a guess of how
/// many they are.
fn end_below(span: &Span<'_>, step: usize, key: Option<&[u8]>) -> usize
    requires { IsSpan span.now }
    ensures { IsEnd (bound_of key.entry) span.now result }
{
    let run = span.part.run();
    match key {
        Some(key) => run.seek(span.to, step, key),
        None => run.len(),
    }
}

/// The spans of the groups that are left and have keys below a key, or without a key of all that are left. The only error is out of
/// memory.
fn spans_below<'a>(
    alloc: Global,
    spans: &[Span<'a>],
    step: usize,
    key: Option<&[u8]>,
) -> Result<Vec<Span<'a>>, AllocError>
    requires { AllByRecursion IsSpan spans.now }
    ensures { IfOk result (λ next. AreNext (bound_of key.entry) spans.now next.items) }
{
    let mut next = Vec::with_capacity(alloc, spans.len())?;
    for span in spans {
        let to = end_below(span, step, key);
        next.push(Span {
            part: span.part,
            from: span.to,
            to,
        })?;
    }
    Ok(next)
}

/// Whether a span has groups.
fn has_groups(spans: &[Span<'_>]) -> bool
    ensures { IsTrue result ↔ Any HasGroups spans.now }
{
    spans.iter().any(|span| span.from < span.to)
}

/// Whether a span leaves groups.
fn has_left(spans: &[Span<'_>]) -> bool
    ensures { IsTrue result ↔ Any HasLeft spans.now }
{
    spans.iter().any(|span| span.to < span.part.run().len())
}

/// The spans of the next piece, if groups are left. The only error is out of memory.
fn next_spans<'a>(
    alloc: Global,
    spans: &[Span<'a>],
    step: usize,
    most: usize,
) -> Result<Vec<Span<'a>>, AllocError>
    requires { AllByRecursion IsSpan spans.now }
    ensures { IfOk result (λ next. AreOfNext spans.now next.items) }
{
    let key = bounding_key(spans, step, most);
    let next = spans_below(alloc, spans, step, key)?;
    if has_groups(&next) {
        return Ok(next);
    }
    spans_below(alloc, spans, step, None)
}

/// How far the next piece reaches, after one that reached `step` groups further on. A piece has far fewer groups than `most`, or far more,
/// where the keys of the origins are spread unevenly. The answer does not depend on it.
fn next_step(spans: &[Span<'_>], step: usize, most: usize) -> usize {
    let mut size: usize = 0;
    for span in spans {
        size = size.saturating_add(span.to.saturating_sub(span.from));
    }
    if size < most / 2 {
        step.saturating_mul(2)
    } else if size / 2 > most {
        (step / 2).max(1)
    } else {
        step
    }
}

/// Gives a sink the rows of a piece, and says whether it has no groups. The only error is out of memory.
fn rows_of_piece<S: RowSink>(
    alloc: Global,
    query: &Query,
    spans: &[Span<'_>],
    rows: &mut S,
) -> Result<bool, AllocError>
    requires inputs { AllByRecursion (IsInput (meaning query.now)) (brought_to spans.now) }
    requires within { AllByRecursion IsSpan spans.now }
    requires few { all_rows (brought_to spans.now) ≤ most_rows }
    ensures { IfOk result (λ is_empty. (given : List (List Outcome)) × S.took rows.old rows.new given
        × ShowPiece (meaning query.now) spans.now given is_empty) }
{
    let run = united(alloc, query, spans)?;
    rows_of_run(alloc, query, &run, rows)?;
    Ok(run.is_empty())
}

/// Gives a sink the rows of the groups that spans leave, in key order: each group once, with the states of all that have it. Without groups
/// they are those of an answer over no rows. This takes memory for the groups of one piece, and not for all. The only error is out of
/// memory.
pub(crate) fn rows_of_left<S: RowSink>(
    alloc: Global,
    query: &Query,
    spans: Vec<Span<'_>>,
    rows: &mut S,
) -> Result<(), AllocError>
    requires inputs { AllByRecursion (IsInput (meaning query.now)) (left_by spans.items) }
    requires within { AllByRecursion IsSpan spans.items }
    requires few { all_rows (left_by spans.items) ≤ most_rows }
    ensures { OnOk result ((given : List (List Outcome)) × S.took rows.old rows.new given
        × ShowLeft (meaning query.now) spans.entry.items given) }
{
    let most = PIECE_GROUPS.max(spans.len().saturating_mul(SPAN_GROUPS));
    let mut step = most.checked_div(spans.len()).unwrap_or(1);
    let mut left = spans;
    let mut is_empty = true;
    while has_left(&left) {
        left = next_spans(alloc, &left, step, most)?;
        let none = rows_of_piece(alloc, query, &left, rows)?;
        is_empty = is_empty && none;
        step = next_step(&left, step, most);
    }
    if is_empty {
        return project_into(alloc, query, &Run::new(alloc), rows);
    }
    Ok(())
}
