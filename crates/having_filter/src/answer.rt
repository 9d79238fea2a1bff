//! Answers.

ghost use Rattle.std.specs.Prelude.{◌≡◌, ◌<◌, ◌++◌, ◌∷◌, [], map, length, slice_get, slice_index_or, All, List, Some, IfSome, IsTrue, ◌↔◌};
ghost use Rattle.std.specs.Prelude.{IfOk, IsOk, OnOk, OnErr};
ghost use Rattle.grouping_model.specs.Aggregates.{Outcome, Plain};
ghost use Rattle.grouping_model.specs.Datum.{Null};
ghost use Rattle.agg_protocol.specs.Results.{outcome_of};
ghost use Rattle.grouping_model.specs.Order.{map_arrangement, terms_cmp, ordered, arranged};
ghost use Rattle.query_checks.specs.Arrangement.{arrangement_held};
ghost use Rattle.having_filter.specs.Answers.{rows_at, AreBelow};
ghost use Rattle.having_filter.specs.Meaning.{order_term};

use crate::cells::Values;
use crate::ordering::compare_by;
use agg_protocol::ResultValue;
use packed_rows::bound;
use query_checks::{Arrangement, OrderTerm};
use std::alloc::{AllocError, Global};
use std::cmp::Ordering;
use std::marker::Model;

/// The rows of an answer in the order in which they are made, by increasing key. Each has the values of the query's items.
///
/// The values of all rows lie in one run, so that a row takes no block of memory of its own.
#[derive(Drop)]
pub struct AnswerRows {
    values: Values,
    /// Where each row ends.
    ends: Vec<usize>,
}

impl Model for AnswerRows {
    ghost use Rattle.std.specs.Prelude.{List};
    ghost use Rattle.grouping_model.specs.Aggregates.{Outcome};

    ghost Value = { List (List Outcome) };

    ghost use Rattle.packed_rows.specs.ConcatenatedRows.{cut, AreRows};

    ghost view = { λ a. cut a.values 0 a.ends.items };

    ghost invariant = { λ a. AreRows a.values a.ends.items };
}

impl AnswerRows {
    /// No rows.
    pub fn new(alloc: Global) -> AnswerRows
        ensures { result ≡ [] }
    {
        AnswerRows {
            values: Values::new(alloc),
            ends: Vec::new(alloc),
        }
    }

    /// Adds a row at the end. The only error is a failed allocation, which changes nothing.
    pub fn push(&mut self, row: &[ResultValue<'_>]) -> Result<(), AllocError>
        ensures pushed { OnOk result (self.new ≡ self.old ++ map outcome_of row.now ∷ []) }
        ensures refused { OnErr result (self.new ≡ self.old) }
    {
        // With room for the end, nothing fails once the values stand there.
        self.ends.reserve(1)?;
        self.values.extend(row)?;
        self.ends.push(self.values.len())?;
        Ok(())
    }

    /// How many rows there are.
    pub fn len(&self) -> usize
        ensures { result ≡ length self.now }
    {
        self.ends.len()
    }

    /// Whether there are no rows.
    pub fn is_empty(&self) -> bool
        ensures { IsTrue result ↔ (self.now ≡ []) }
    {
        self.ends.is_empty()
    }

    /// How many items a row has, the first row being 0.
    pub fn width(&self, row: usize) -> usize
        requires { row < length self.now }
        ensures { result ≡ length (slice_index_or self.now row []) }
    {
        self.ends[row] - bound(&self.ends, row)
    }

    /// The item at a place of a row, the first row and the first item being 0.
    pub fn value(&self, row: usize, item: usize) -> ResultValue<'_>
        requires row { row < length self.now }
        requires item { item < length (slice_index_or self.now row []) }
        ensures { slice_get (slice_index_or self.now row []) item ≡ Some (outcome_of result) }
    {
        self.values.value(bound(&self.ends, row), item)
    }

    /// The item at a place of a row, and null if there is none.
    fn value_or_null(&self, row: usize, item: usize) -> ResultValue<'_>
        ensures { outcome_of result ≡ slice_index_or (slice_index_or self.now row []) item (Plain Null) }
    {
        if row < self.len() && item < self.width(row) {
            self.value(row, item)
        } else {
            ResultValue::Null
        }
    }

    /// How two rows compare by the terms of ORDER BY: by the first term that tells them apart.
    fn compare(&self, terms: &[OrderTerm], a: usize, b: usize) -> Ordering
        ensures { result ≡ terms_cmp (map order_term terms.now) (slice_index_or self.now a []) (slice_index_or self.now b []) }
    {
        for term in terms {
            match compare_by(
                *term,
                self.value_or_null(a, term.item),
                self.value_or_null(b, term.item),
            ) {
                Ordering::Equal => {}
                order => return order,
            }
        }
        Ordering::Equal
    }

    /// The places of the rows, from the first on.
    fn all_places(&self, alloc: Global) -> Result<Vec<usize>, AllocError>
        ensures rows { IfOk result (λ places. map (λ place. slice_index_or self.now place []) places.items ≡ self.now) }
        ensures below { IfOk result (λ places. All (λ place. place < length self.now) places.items) }
    {
        let count = self.len();
        let mut places = Vec::with_capacity(alloc, count)?;
        for place in 0..count {
            places.push(place)?;
        }
        Ok(places)
    }

    /// The places of the rows in the order of the terms of ORDER BY.
    fn places_in_order(&self, alloc: Global, terms: &[OrderTerm]) -> Result<Vec<usize>, AllocError>
        ensures rows { IfOk result (λ places. map (λ place. slice_index_or self.now place []) places.items
            ≡ ordered (map order_term terms.now) self.now) }
        ensures below { IfOk result (λ places. All (λ place. place < length self.now) places.items) }
    {
        let mut places = self.all_places(alloc)?;
        places.sort_by(|a, b| self.compare(terms, *a, *b))?;
        Ok(places)
    }
}

/// Where a row stands among the rows as they were made.
fn place_of(places: &Option<Vec<usize>>, row: usize) -> usize
    requires { IfSome places.now (λ places. row < length places.items) }
    ensures row { (rows : List (List Outcome)) → row < length (rows_at rows places.now) →
        slice_index_or (rows_at rows places.now) row [] ≡ slice_index_or rows result [] }
    ensures below { (rows : List (List Outcome)) → AreBelow rows places.now →
        row < length (rows_at rows places.now) → result < length rows }
{
    match places {
        None => row,
        Some(places) => places[row],
    }
}

/// The rows of an answer, in the order in which they are shown, with the values of the query's items in each.
#[derive(Drop)]
pub struct Answer {
    rows: AnswerRows,
    /// With ORDER BY, the places of the rows in its order.
    places: Option<Vec<usize>>,
}

impl Model for Answer {
    ghost use Rattle.std.specs.Prelude.{List};
    ghost use Rattle.grouping_model.specs.Aggregates.{Outcome};
    ghost use Rattle.having_filter.specs.Answers.{rows_at, AreBelow};

    ghost Value = { List (List Outcome) };

    ghost view = { λ a. rows_at a.rows a.places };

    ghost invariant = { λ a. AreBelow a.rows a.places };
}

impl Answer {
    /// The rows as the clauses after HAVING arrange them: sorted by the terms of ORDER BY. Rows that no term tells apart keep their
    /// order. Without terms it takes no memory. The only error is a failed allocation.
    pub fn arranged(
        alloc: Global,
        rows: AnswerRows,
        arrangement: &Arrangement,
    ) -> Result<Answer, AllocError>
        ensures arranged { IfOk result (λ answer. answer
            ≡ arranged (map_arrangement order_term (arrangement_held arrangement.now)) rows) }
        ensures without_terms { length arrangement.now.order.items ≡ 0 → IsOk result }
    {
        if arrangement.order.is_empty() {
            return Ok(Answer { rows, places: None });
        }
        let places = rows.places_in_order(alloc, &arrangement.order)?;
        Ok(Answer {
            rows,
            places: Some(places),
        })
    }

    /// How many rows there are.
    pub fn len(&self) -> usize
        ensures { result ≡ length self.now }
    {
        match &self.places {
            None => self.rows.len(),
            Some(places) => places.len(),
        }
    }

    /// Whether there are no rows.
    pub fn is_empty(&self) -> bool
        ensures { IsTrue result ↔ (self.now ≡ []) }
    {
        self.len() == 0
    }

    /// How many items a row has, the first row being 0.
    pub fn width(&self, row: usize) -> usize
        requires { row < length self.now }
        ensures { result ≡ length (slice_index_or self.now row []) }
    {
        self.rows.width(place_of(&self.places, row))
    }

    /// The item at a place of a row, the first row and the first item being 0.
    pub fn value(&self, row: usize, item: usize) -> ResultValue<'_>
        requires row { row < length self.now }
        requires item { item < length (slice_index_or self.now row []) }
        ensures { slice_get (slice_index_or self.now row []) item ≡ Some (outcome_of result) }
    {
        self.rows.value(place_of(&self.places, row), item)
    }
}
