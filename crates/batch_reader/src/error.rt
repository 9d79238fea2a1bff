//! Why a batch is refused.

ghost use Rattle.std.specs.Prelude.{◌≡◌};
ghost use Rattle.batch_reader.specs.Names.{batch_name};
ghost use Rattle.batch_reader.specs.declared.error.BatchError.TheVariants.{NoMemory};

use std::alloc::AllocError;
use thiserror::Error;

/// Why a batch is refused. Of several errors the first in this order is given, `NoMemory` aside. `WrongWidth` and
/// `BadField` are those of the first row that is not a row of the schema. Rows and columns are counted from 0.
#[derive(Clone, Copy, Debug, PartialEq, Eq, Error)]
pub enum BatchError {
    /// An allocation failed.
    #[error("out of memory")]
    NoMemory,
    /// The header is missing or bad. Its origin is 0 to 1,023, and its number 1 to 4,294,967,295, in 1 to 10 digits each. That of a file is
    /// the first record, of four fields: `batch`, the origin, the number, and how many rows follow, in 1 to 9 digits.
    #[error("the batch has no header row, or its origin or number is out of range")]
    BadBatchHead,
    /// The header states more rows than a batch may have.
    #[error("the header states more rows than a batch may have")]
    TooManyRows,
    /// There are more or fewer rows than the header states.
    #[error("the batch has more or fewer rows than its header states")]
    RowCount,
    /// A row has more or fewer fields than the schema has columns.
    #[error("row {row} has more or fewer fields than there are columns; rows are counted from 0")]
    WrongWidth { row: usize },
    /// A field is not a value of its column.
    #[error("the field of row {row} and column {column} is not a value of its type; both are counted from 0")]
    BadField { row: usize, column: usize },
}

impl BatchError {
    /// The name of what is wrong with a batch, as replies show it.
    pub fn name(self) -> &'static str
        ensures { result.now ≡ batch_name self }
    {
        match self {
            BatchError::NoMemory => "NoMemory",
            BatchError::BadBatchHead => "BadBatchHead",
            BatchError::TooManyRows => "TooManyRows",
            BatchError::RowCount => "RowCount",
            BatchError::WrongWidth { .. } => "WrongWidth",
            BatchError::BadField { .. } => "BadField",
        }
    }
}

impl From<AllocError> for BatchError {
    ghost from_gives = { λ _ e. e ≡ NoMemory };

    fn from(_error: AllocError) -> BatchError {
        BatchError::NoMemory
    }
}
