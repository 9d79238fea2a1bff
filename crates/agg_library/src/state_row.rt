//! Rows of states: the states of some aggregates in their bytes, one after the other.

ghost use Rattle.std.specs.Prelude.{◌≡◌, ◌≤◌, ◌<◌, ◌+◌, ◌^◌, [], length, take, List, ℕ, slice_get, slice_set, OnOk, OnErr};
ghost use Rattle.std.specs.Option.{ForSome};
ghost use Rattle.grouping_model.specs.Aggregates as model;
ghost use Rattle.grouping_model.specs.Aggregates.{Partial, outcome};
ghost use Rattle.grouping_model.specs.Combining.{combine, combine_all};
ghost use Rattle.packed_rows.specs.View.{datum_of};
ghost use Rattle.agg_protocol.specs.Arguments.{Takes};
ghost use Rattle.agg_protocol.specs.Results.{outcome_of};
ghost use Rattle.agg_protocol.specs.States as states;
ghost use Rattle.agg_protocol.specs.States.{rows_of, most_rows};
ghost use Rattle.agg_protocol.specs.Kinds.{function_of, functions_of, kind_shape, kind_width, row_width};
ghost use Rattle.agg_library.specs.StateRows.{DenotesAll, initial_partials, partial_after, AllWithin, part_at, with_part};
ghost use Rattle.agg_library.specs.Combinations.{CanCombine, CanCombineOne, Combines, CombinesOne};
ghost use Rattle.agg_protocol.specs.declared.kind.AggKind.{AggKind};

use crate::counting::{CountRows, CountValues};
use crate::numbers::{BitAnd, BitOr, BitXor, Max, Min};
use crate::parts::{advance_part, check_part, combine_part, finish_part, init_part};
use crate::sums::Sum;
use crate::truths::{BoolAnd, BoolOr, Every};
use agg_protocol::{AggKind, BadState, ResultValue};
use packed_rows::Value;
use std::ops::Range;

// The most bytes that a state has: those of a sum.
const WIDEST: usize = 24;

// How many states are combined by recursion: as many as a query has aggregates.
const FEW: usize = 32;

// A function of an aggregate's type, at the aggregate of a kind.
macro_rules! at_kind {
    ($kind:expr, $function:ident($($argument:expr),*)) => {
        match $kind {
            AggKind::CountRows => $function::<CountRows>($($argument),*),
            AggKind::Count => $function::<CountValues>($($argument),*),
            AggKind::Sum => $function::<Sum>($($argument),*),
            AggKind::Min => $function::<Min>($($argument),*),
            AggKind::Max => $function::<Max>($($argument),*),
            AggKind::BitAnd => $function::<BitAnd>($($argument),*),
            AggKind::BitOr => $function::<BitOr>($($argument),*),
            AggKind::BitXor => $function::<BitXor>($($argument),*),
            AggKind::BoolAnd => $function::<BoolAnd>($($argument),*),
            AggKind::BoolOr => $function::<BoolOr>($($argument),*),
            AggKind::Every => $function::<Every>($($argument),*),
        }
    };
}

/// The calls on rows of states. A row has the states of some aggregates, one after the other with nothing between. It
/// denotes one partial result for each aggregate. No call takes memory.
pub struct StateRow;

impl StateRow {
    /// How many bytes a row of these states has. They are fewer than 2^64.
    pub fn width(kinds: &[AggKind]) -> usize
        requires { row_width kinds.now < 2 ^ 64 }
        ensures { result ≡ row_width kinds.now }
    {
        kinds.iter().map(|kind| kind.width()).sum()
    }

    /// Where in a row the bytes of the state at place `i` lie, the first place being 0.
    pub fn part(kinds: &[AggKind], i: usize) -> Range<usize>
        requires in_range { i < length kinds.now }
        requires fits { row_width kinds.now < 2 ^ 64 }
        ensures start { result.start ≡ row_width (take i kinds.now) }
        ensures end { result.end ≡ row_width (take (i + 1) kinds.now) }
    {
        Self::width(&kinds[..i])..Self::width(&kinds[..i + 1])
    }

    /// Moves the state of one aggregate on by one row (PostgreSQL 17, CREATE AGGREGATE: `sfunc` is called for each input
    /// row; 4.2.7: FILTER says which rows those are). `reach` is the row's argument, or `None` if the filter excludes
    /// the row. The argument is null or of the kind that the function takes (`AggKind::argument`); if it takes any
    /// kind, or each row, any value will do.
    ///
    /// # Errors
    ///
    /// `BadState` if the bytes are not a state that counts at most `most` rows, or if the state after the row would
    /// count more. The bytes are then as they were.
    pub fn advance(
        kind: AggKind,
        part: &mut [u8],
        reach: Option<Value<'_>>,
        most: u64,
    ) -> Result<(), BadState>
        requires most { most ≤ most_rows }
        requires takes { ForSome reach (λ value. Takes (function_of kind) (datum_of value)) }
        ensures ok { OnOk result ((p : Partial) × states.Denotes most (kind_shape kind) part.old p
            × states.Denotes most (kind_shape kind) part.new
            (partial_after (function_of kind) p reach.entry)) }
        ensures err { OnErr result
            ((p : Partial) → states.Denotes most (kind_shape kind) part.old p →
            most < rows_of (partial_after (function_of kind) p reach.entry)) }
        ensures unchanged { OnErr result (part.new ≡ part.old) }
    {
        at_kind!(kind, advance_part(part, reach, most))
    }

    /// The result of one aggregate (PostgreSQL 17, CREATE AGGREGATE: `finalfunc`). The bytes are
    /// one of its states.
    pub fn finish(kind: AggKind, part: &[u8]) -> ResultValue<'static>
        requires { (p : Partial) × states.Denotes most_rows (kind_shape kind) part.now p }
        ensures { (p : Partial) → states.Denotes most_rows (kind_shape kind) part.now p →
            outcome_of result ≡ outcome p }
    {
        at_kind!(kind, finish_part(part))
    }

    /// Writes the row of states before any row. It has the width of these states.
    pub fn init_into(kinds: &[AggKind], row: &mut [u8])
        requires { length row.old ≡ row_width kinds.now }
        ensures { DenotesAll 0 kinds.now row.new (initial_partials kinds.now) }
    {
        let mut start = 0;
        for kind in kinds {
            let end = start + kind.width();
            Self::init_one(*kind, &mut row[start..end]);
            start = end;
        }
    }

    /// Checks that the bytes are a row of states that count at most `most` rows each.
    ///
    /// # Errors
    ///
    /// `BadState` if they are not.
    pub fn check(kinds: &[AggKind], row: &[u8], most: u64) -> Result<(), BadState>
        requires { most ≤ most_rows }
        ensures ok { OnOk result ((ps : List Partial) × DenotesAll most kinds.now row.now ps) }
        ensures err { OnErr result ((ps : List Partial) → ¬ (DenotesAll most kinds.now row.now ps)) }
    {
        let mut rest = row;
        for kind in kinds {
            if rest.len() < kind.width() {
                return Err(BadState);
            }
            let (part, others) = rest.split_at(kind.width());
            Self::check_one(*kind, part, most)?;
            rest = others;
        }
        Self::check_end(rest)
    }

    // Checks that no bytes are left.
    fn check_end(rest: &[u8]) -> Result<(), BadState>
        ensures ok { OnOk result (rest.now ≡ []) }
        ensures err { OnErr result (¬ (rest.now ≡ [])) }
    {
        if rest.is_empty() {
            Ok(())
        } else {
            Err(BadState)
        }
    }

    /// Combines the row of states in `from` into the one in `into`, whose arguments come first (PostgreSQL 17, 36.12.4
    /// Partial Aggregation).
    ///
    /// # Errors
    ///
    /// `BadState` if either is not a row of states that count at most `most` rows each, or if a combined state would
    /// count more. The bytes of `into` are then as they were.
    pub fn combine_into(
        kinds: &[AggKind],
        into: &mut [u8],
        from: &[u8],
        most: u64,
    ) -> Result<(), BadState>
        requires { most ≤ most_rows }
        ensures ok { OnOk result ((ps qs : List Partial) × DenotesAll most kinds.now into.old ps
            × DenotesAll most kinds.now from.now qs
            × DenotesAll most kinds.now into.new (combine_all (functions_of kinds.now) ps qs)) }
        ensures err { OnErr result ((ps qs : List Partial) → DenotesAll most kinds.now into.old ps →
            DenotesAll most kinds.now from.now qs →
            ¬ (AllWithin most (combine_all (functions_of kinds.now) ps qs))) }
        ensures unchanged { OnErr result (into.new ≡ into.old) }
    {
        if kinds.len() <= FEW {
            return Self::combine_few(kinds, into, from, most);
        }
        Self::check_both(kinds, into, from, most)?;
        Self::combine_checked(kinds, into, from, most);
        Ok(())
    }

    // The same of few states: a frame of the stack a state.
    fn combine_few(
        kinds: &[AggKind],
        into: &mut [u8],
        from: &[u8],
        most: u64,
    ) -> Result<(), BadState>
        requires { most ≤ most_rows }
        ensures ok { OnOk result ((ps qs : List Partial) × DenotesAll most kinds.now into.old ps
            × DenotesAll most kinds.now from.now qs
            × DenotesAll most kinds.now into.new (combine_all (functions_of kinds.now) ps qs)) }
        ensures err { OnErr result ((ps qs : List Partial) → DenotesAll most kinds.now into.old ps →
            DenotesAll most kinds.now from.now qs →
            ¬ (AllWithin most (combine_all (functions_of kinds.now) ps qs))) }
        ensures unchanged { OnErr result (into.new ≡ into.old) }
    {
        let Some((kind, kinds)) = kinds.split_first() else {
            Self::check_end(into)?;
            return Self::check_end(from);
        };
        if into.len() < kind.width() || from.len() < kind.width() {
            return Err(BadState);
        }
        let (into, into_rest) = into.split_at_mut(kind.width());
        let (from, from_rest) = from.split_at(kind.width());
        // The state of both is kept until the rest is combined, so that an error changes nothing.
        let mut both = [0; WIDEST];
        let both = &mut both[..kind.width()];
        Self::combine_one(*kind, into, from, both, most)?;
        Self::combine_few(kinds, into_rest, from_rest, most)?;
        into.copy_from_slice(both);
        Ok(())
    }

    // Checks that two rows of states can be combined.
    fn check_both(kinds: &[AggKind], into: &[u8], from: &[u8], most: u64) -> Result<(), BadState>
        requires { most ≤ most_rows }
        ensures ok { OnOk result (CanCombine most kinds.now into.now from.now) }
        ensures err { OnErr result (¬ (CanCombine most kinds.now into.now from.now)) }
    {
        let (mut left, mut other) = (into, from);
        for kind in kinds {
            let width = kind.width();
            if left.len() < width || other.len() < width {
                return Err(BadState);
            }
            let (first, left_rest) = left.split_at(width);
            let (second, other_rest) = other.split_at(width);
            let mut both = [0; WIDEST];
            Self::combine_one(*kind, first, second, &mut both[..width], most)?;
            (left, other) = (left_rest, other_rest);
        }
        Self::check_end(left)?;
        Self::check_end(other)
    }

    // Combines two rows of states that can be combined.
    fn combine_checked(kinds: &[AggKind], into: &mut [u8], from: &[u8], most: u64)
        requires most { most ≤ most_rows }
        requires both { CanCombine most kinds.now into.old from.now }
        ensures { Combines most kinds.now into.old from.now into.new }
    {
        let mut start = 0;
        for kind in kinds {
            let end = start + kind.width();
            Self::combine_part_into(*kind, &mut into[start..end], &from[start..end], most);
            start = end;
        }
    }

    // Combines the states of one aggregate that can be combined.
    fn combine_part_into(kind: AggKind, into: &mut [u8], from: &[u8], most: u64)
        requires most { most ≤ most_rows }
        requires both { CanCombineOne most kind into.old from.now }
        ensures { CombinesOne most kind into.old from.now into.new }
    {
        let mut both = [0; WIDEST];
        let both = &mut both[..kind.width()];
        if let Ok(()) = Self::combine_one(kind, into, from, both, most) {
            into.copy_from_slice(both);
        }
    }

    // Writes the state of one aggregate before any row.
    fn init_one(kind: AggKind, part: &mut [u8])
        requires { length part.old ≡ kind_width kind }
        ensures { states.Denotes 0 (kind_shape kind) part.new
            (model.partial (function_of kind) []) }
    {
        at_kind!(kind, init_part(part))
    }

    // Checks the state of one aggregate.
    fn check_one(kind: AggKind, part: &[u8], most: u64) -> Result<(), BadState>
        requires { most ≤ most_rows }
        ensures ok { OnOk result
            ((p : Partial) × states.Denotes most (kind_shape kind) part.now p) }
        ensures err { OnErr result
            ((p : Partial) → ¬ (states.Denotes most (kind_shape kind) part.now p)) }
    {
        at_kind!(kind, check_part(part, most))
    }

    // Writes the state of one aggregate that two others combine to.
    fn combine_one(
        kind: AggKind,
        first: &[u8],
        second: &[u8],
        both: &mut [u8],
        most: u64,
    ) -> Result<(), BadState>
        requires most { most ≤ most_rows }
        requires wide { length both.old ≡ kind_width kind }
        ensures ok { OnOk result ((p q : Partial) × states.Denotes most (kind_shape kind) first.now p
            × states.Denotes most (kind_shape kind) second.now q
            × states.Denotes most (kind_shape kind) both.new (combine (function_of kind) p q)) }
        ensures err { OnErr result
            ((p q : Partial) → states.Denotes most (kind_shape kind) first.now p →
            states.Denotes most (kind_shape kind) second.now q →
            most < rows_of (combine (function_of kind) p q)) }
    {
        at_kind!(kind, combine_part(first, second, both, most))
    }
}

/// The part of a row at a place denotes the partial result at that place. Writing one part anew changes the partial
/// result at its place alone.
pub fn parts_of_rows()
    ensures read { (most : ℕ) (kinds : List AggKind) (row : List ℕ) (ps : List Partial) (i : ℕ)
        (kind : AggKind) (p : Partial) →
        DenotesAll most kinds row ps → slice_get kinds i ≡ Some kind → slice_get ps i ≡ Some p →
        states.Denotes most (kind_shape kind) (part_at kinds row i kind) p }
    ensures written { (most : ℕ) (kinds : List AggKind) (row : List ℕ) (ps : List Partial) (i : ℕ)
        (kind : AggKind) (part : List ℕ) (q : Partial) →
        DenotesAll most kinds row ps → slice_get kinds i ≡ Some kind →
        states.Denotes most (kind_shape kind) part q →
        DenotesAll most kinds (with_part kinds row i kind part) (slice_set ps i q) }
{}
