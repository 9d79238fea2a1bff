//! Why a command, or a whole script, is refused.

ghost use Rattle.std.specs.Prelude.{◌≡◌};
ghost use Rattle.refusals.specs.Refusals.{columns_refusal, batch_refusal, query_refusal, summary_refusal, spill_refusal, join_refusal};
ghost use Rattle.refusals.specs.Refusals.{merge_refusal, refused_batch};
ghost use Rattle.refusals.specs.Names.{refusal_name};
ghost use Rattle.refusals.specs.declared.refusal.Refusal.TheVariants.{NoMemory, Limit};

use crate::error::RunError;
use batch_reader::BatchError;
use group_parser::ParseError;
use hash_agg::{LimitOutOfRange, SpillError};
use having_filter::QueryError;
use packed_rows::RowError;
use replica_merge::{JoinError, MergeError, RefusedBatch, SummaryError};
use std::alloc::AllocError;
use thiserror::Error;

/// Why a command or a script is refused. That of a limit, of a query's text, of a batch, of a summary file or of a run is an error of its
/// own type. A bad schema, another query, an origin that disagrees and an error of the tape disk are variants here. Out of memory is always
/// `NoMemory`.
#[derive(Clone, Copy, Debug, PartialEq, Eq, Error)]
pub enum Refusal {
    /// Memory ran out.
    #[error("out of memory")]
    NoMemory,
    /// The text is not a schema.
    #[error("the text is not a schema")]
    BadSchema,
    /// A limit is less than 65,536 bytes, or more than 1,099,511,627,776.
    #[error(transparent)]
    Limit(LimitOutOfRange),
    /// The text is not a query over the columns.
    #[error(transparent)]
    Query(ParseError),
    /// The fields and records of a `feed` are not a batch of the columns.
    #[error(transparent)]
    Batch(BatchError),
    /// The bytes are not a summary file.
    #[error(transparent)]
    Summary(SummaryError),
    /// Two replicas are not merged, since they answer different queries.
    #[error("the replicas answer different queries")]
    DifferentQuery,
    /// An origin gave one number to two different batches. The number is given if its batch is early. Else it is within equal prefixes that
    /// have different groups.
    #[error("an origin gave one number to two different batches")]
    OriginDisagrees {
        /// The origin.
        origin: u16,
        /// The number, if its batch is early.
        number: Option<u32>,
    },
    /// The tape disk failed.
    #[error("spilled records could not be written or read")]
    TapeFault,
    /// The tape disk returned data that was not written to it.
    #[error("spilled records were not read back as they were written")]
    TapeDamaged,
    /// The run stopped before the end of its script. Or a file is too long to be made, as `command_replicas::save` says.
    #[error(transparent)]
    Run(RunError),
    /// Not a command: an unknown word; a wrong number of fields; a text that isn't UTF-8; a bad name, number of rows or limit; or a command
    /// too early or a second time.
    #[error("not a command, or not allowed here")]
    BadCommand,
    /// No replica or saved file has this name.
    #[error("no replica or saved file has this name")]
    NoSuchName,
    /// A replica of this name exists already.
    #[error("a replica of this name exists already")]
    NameTaken,
}

impl From<AllocError> for Refusal {
    ghost from_gives = { λ _ refusal. refusal ≡ NoMemory };

    fn from(_error: AllocError) -> Refusal {
        Refusal::NoMemory
    }
}

impl From<RowError> for Refusal {
    ghost from_gives = { λ error refusal. refusal ≡ columns_refusal error };

    fn from(error: RowError) -> Refusal {
        match error {
            RowError::NoMemory => Refusal::NoMemory,
            _ => Refusal::BadSchema,
        }
    }
}

impl From<BatchError> for Refusal {
    ghost from_gives = { λ error refusal. refusal ≡ batch_refusal error };

    fn from(error: BatchError) -> Refusal {
        match error {
            BatchError::NoMemory => Refusal::NoMemory,
            error => Refusal::Batch(error),
        }
    }
}

impl From<ParseError> for Refusal {
    ghost from_gives = { λ error refusal. refusal ≡ query_refusal error };

    fn from(error: ParseError) -> Refusal {
        match error {
            ParseError::Query(QueryError::NoMemory) => Refusal::NoMemory,
            error => Refusal::Query(error),
        }
    }
}

impl From<SummaryError> for Refusal {
    ghost from_gives = { λ error refusal. refusal ≡ summary_refusal error };

    fn from(error: SummaryError) -> Refusal {
        match error {
            SummaryError::NoMemory => Refusal::NoMemory,
            error => Refusal::Summary(error),
        }
    }
}

impl From<SpillError> for Refusal {
    ghost from_gives = { λ error refusal. refusal ≡ spill_refusal error };

    fn from(error: SpillError) -> Refusal {
        match error {
            SpillError::NoMemory => Refusal::NoMemory,
            SpillError::TapeFault => Refusal::TapeFault,
            SpillError::TapeDamaged => Refusal::TapeDamaged,
        }
    }
}

impl From<RefusedBatch> for Refusal {
    ghost from_gives = { λ refused refusal. refusal ≡ refused_batch refused };

    fn from(refused: RefusedBatch) -> Refusal {
        Refusal::of_origin(refused.batch.origin, refused.why)
    }
}

impl From<MergeError> for Refusal {
    ghost from_gives = { λ error refusal. refusal ≡ merge_refusal error };

    fn from(error: MergeError) -> Refusal {
        match error {
            MergeError::DifferentQuery => Refusal::DifferentQuery,
            MergeError::NoMemory => Refusal::NoMemory,
            MergeError::Join { origin, why } => Refusal::of_origin(origin, why),
        }
    }
}

impl Refusal {
    /// The name of a refusal, as replies show it.
    pub fn name(self) -> &'static str
        ensures { result.now ≡ refusal_name self }
    {
        match self {
            Refusal::NoMemory => "NoMemory",
            Refusal::BadSchema => "BadSchema",
            Refusal::Limit(_) => "LimitOutOfRange",
            Refusal::Query(error) => error.name(),
            Refusal::Batch(error) => error.name(),
            Refusal::Summary(error) => error.name(),
            Refusal::DifferentQuery => "DifferentQuery",
            Refusal::OriginDisagrees { .. } => "OriginDisagrees",
            Refusal::TapeFault => "TapeFault",
            Refusal::TapeDamaged => "TapeDamaged",
            Refusal::Run(error) => error.name(),
            Refusal::BadCommand => "BadCommand",
            Refusal::NoSuchName => "NoSuchName",
            Refusal::NameTaken => "NameTaken",
        }
    }

    /// Why a batch or a part of an origin is not taken.
    pub fn of_origin(origin: u16, why: JoinError) -> Refusal
        ensures { result ≡ join_refusal origin why }
    {
        match why {
            JoinError::OriginDisagrees { number } => Refusal::OriginDisagrees { origin, number },
            JoinError::Spill(error) => Refusal::from(error),
        }
    }
}

impl From<LimitOutOfRange> for Refusal {
    ghost from_gives = { λ error refusal. refusal ≡ Limit error };

    fn from(error: LimitOutOfRange) -> Refusal {
        Refusal::Limit(error)
    }
}
