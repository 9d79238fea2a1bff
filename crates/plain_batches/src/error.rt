//! Why a plain CSV is not a batch.

ghost use Rattle.std.specs.Prelude.{◌≡◌};
ghost use Rattle.plain_batches.specs.declared.error.PackError.TheVariants.{NoMemory};

use std::alloc::AllocError;
use thiserror::Error;

/// Why a plain CSV is not a batch: the first that applies, in this order, `NoMemory` aside. `MissingColumn` and `RepeatedColumn` name
/// the first column that the header doesn't name exactly once. `BlankLine` comes before all faults of rows, and `WrongWidth` before
/// `TooManyRows` if the row is one of the first [`MAX_ROWS`](grouping_model::limits::MAX_ROWS). Columns of the schema, places in the
/// header and rows are counted from 0, and the header is not a row.
#[derive(Clone, Copy, Debug, PartialEq, Eq, Error)]
pub enum PackError {
    /// Memory ran out.
    #[error("out of memory")]
    NoMemory,
    /// A header is expected, and there is no record.
    #[error("the file has no header row")]
    NoHeader,
    /// The header names a column that the schema doesn't have; this is the first.
    #[error("name {place} of the header is not a column; names are counted from 0")]
    UnknownColumn { place: usize },
    /// The header doesn't name this column of the schema.
    #[error("the header lacks column {column}; columns are counted from 0")]
    MissingColumn { column: usize },
    /// The header names this column of the schema more than once.
    #[error("the header names column {column} more than once; columns are counted from 0")]
    RepeatedColumn { column: usize },
    /// A blank line may be a null, since a row is one field and an empty field is null. `csv` reads no record of it.
    #[error("a blank line, which may be a null in a table of one column")]
    BlankLine,
    /// A row has more or fewer fields than the header has names, or the schema columns.
    #[error("row {row} has more or fewer fields than there are columns; rows are counted from 0")]
    WrongWidth { row: usize },
    /// There are more rows than a batch may have.
    #[error("more rows than a batch may have")]
    TooManyRows,
    /// The batch file would be too long.
    #[error("the batch file would be too long")]
    TooLong,
    /// A row's field is not a value of its column.
    #[error("the field of row {row} and column {column} is not a value of its type; both are counted from 0")]
    BadField { row: usize, column: usize },
}

impl From<AllocError> for PackError {
    ghost from_gives = { λ _ e. e ≡ NoMemory };

    fn from(_error: AllocError) -> PackError {
        PackError::NoMemory
    }
}
