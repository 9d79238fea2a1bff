//! The place of a refusal.

ghost use Rattle.std.specs.Prelude.{◌≡◌};
ghost use Rattle.refusals.specs.declared.refusal.Refusal.TheVariants.{Query, Batch};
ghost use Rattle.engine.specs.Places.{place_of, numbers};

use batch_reader::BatchError;
use group_parser::ParseError;
use replies::Refusal;

/// The place of a refusal, as numbers.
#[repr(C)]
#[derive(Clone, Copy, Debug, PartialEq, Eq)]
pub struct Place {
    /// What the numbers mean: 0 no place is known; 1 a byte of the query's text, from 0; 2 a row, from 0; 3 a row and a column, both from
    /// 0; 4 an origin; 5 an origin and the number of a batch.
    pub kind: u32,
    /// The first number, or 0.
    pub first: u64,
    /// The second number, or 0.
    pub second: u64,
}

impl Place {
    /// No place is known.
    pub const NONE: Place = Place {
        kind: 0,
        first: 0,
        second: 0,
    };

    /// The place of a refusal.
    pub fn of(why: Refusal) -> Place
        ensures { result ≡ place_of why }
    {
        match why {
            Refusal::Query(error) => Place::of_query(error),
            Refusal::Batch(error) => Place::of_batch(error),
            Refusal::OriginDisagrees {
                origin,
                number: None,
            } => Place::numbers(4, u64::from(origin), 0),
            Refusal::OriginDisagrees {
                origin,
                number: Some(number),
            } => Place::numbers(5, u64::from(origin), u64::from(number)),
            _ => Place::NONE,
        }
    }

    /// The place of what is wrong with a query's text.
    fn of_query(error: ParseError) -> Place
        ensures { result ≡ place_of (Query error) }
    {
        match error {
            ParseError::Syntax { at } => Place::numbers(1, at as u64, 0),
            ParseError::NumberTooLarge | ParseError::Query(_) => Place::NONE,
        }
    }

    /// The place of what is wrong with a batch.
    fn of_batch(error: BatchError) -> Place
        ensures { result ≡ place_of (Batch error) }
    {
        match error {
            BatchError::WrongWidth { row } => Place::numbers(2, row as u64, 0),
            BatchError::BadField { row, column } => Place::numbers(3, row as u64, column as u64),
            _ => Place::NONE,
        }
    }

    /// A place of these numbers.
    fn numbers(kind: u32, first: u64, second: u64) -> Place
        ensures { result ≡ numbers kind first second }
    {
        Place {
            kind,
            first,
            second,
        }
    }
}
