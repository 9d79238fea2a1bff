//! The statuses that calls return.

ghost use Rattle.std.specs.Prelude.{◌≡◌, Some};
ghost use Rattle.engine.specs.Statuses.{status_number, status_at, status_name, status_of, query_status, parse_status, batch_status};
ghost use Rattle.engine.specs.Statuses.{summary_status, run_status};
ghost use Rattle.refusals.specs.Names.{refusal_name};
ghost use Rattle.refusals.specs.declared.refusal.Refusal.{Refusal};
ghost use Rattle.engine.specs.declared.status.Status.{Status};

use batch_reader::BatchError;
use group_parser::ParseError;
use having_filter::QueryError;
use replica_merge::SummaryError;
use replies::{Refusal, RunError};

/// How a call ended. The numbers never change, and none is reused.
#[derive(Clone, Copy, Debug, PartialEq, Eq)]
pub enum Status {
    /// Success.
    Done = 0,
    /// Memory ran out.
    NoMemory = 1,
    /// The buffer for the result is too short. The call gives the length that is needed.
    TooShort = 2,
    /// No session is open.
    NotOpen = 3,
    /// A session is open already.
    AlreadyOpen = 4,
    /// A text isn't UTF-8, or there is no such format.
    BadCommand = 10,
    /// There is no replica, or nothing saved, of this name.
    NoSuchName = 11,
    /// There is a replica of this name already.
    NameTaken = 12,
    /// A limit is out of its range.
    LimitOutOfRange = 13,
    /// The text is not a schema.
    BadSchema = 14,
    /// A byte of the query begins no token, or begins one that no query can have there.
    Syntax = 20,
    /// An integer of the query is out of the range of 64 bits.
    NumberTooLarge = 21,
    /// The query names a column that does not exist.
    NoSuchColumn = 22,
    /// A column outside of an aggregate is not in GROUP BY.
    NotGrouped = 23,
    /// An operand or an argument is of the wrong kind.
    TypeMismatch = 24,
    /// An aggregate is used in WHERE or FILTER.
    AggregateHere = 25,
    /// There are too many items, keys or calls, or the text is too long.
    TooMany = 26,
    /// Conditions are nested too deeply.
    TooDeep = 27,
    /// A name in ORDER BY is that of two different items.
    AmbiguousOrder = 28,
    /// The head of a batch is bad, or its origin or its number is out of range.
    BadBatchHead = 30,
    /// More rows are declared than a batch may have.
    TooManyRows = 31,
    /// There are more or fewer rows than declared.
    RowCount = 32,
    /// A row has more or fewer fields than there are columns.
    WrongWidth = 33,
    /// A field is not a value of its column.
    BadField = 34,
    /// The bytes don't begin as a summary file does.
    NotASummary = 40,
    /// The summary file is cut short.
    Truncated = 41,
    /// Bytes follow the end of the summary file.
    Trailing = 42,
    /// The summary file isn't in its canonical form.
    NotCanonical = 43,
    /// A number of the summary file is out of range.
    OutOfRange = 44,
    /// A packed row or key of the summary file is damaged.
    BadPacked = 45,
    /// A state of the summary file is damaged.
    BadState = 46,
    /// The replicas answer different queries.
    DifferentQuery = 50,
    /// One number of an origin has two different batches.
    OriginDisagrees = 51,
    /// The tape disk failed.
    TapeFault = 60,
    /// The tape disk returned data that was not written to it.
    TapeDamaged = 61,
    /// A file would have, or has, more than 67,108,864 bytes.
    InputTooLong = 70,
    /// The input could not be read.
    ReadFault = 71,
    /// The output could not be written.
    WriteFault = 72,
}

/// The status of a query that its checks refuse.
fn query_status(error: QueryError) -> Status
    ensures { result ≡ query_status error }
{
    match error {
        QueryError::NoMemory => Status::NoMemory,
        QueryError::NoSuchColumn => Status::NoSuchColumn,
        QueryError::NotGrouped => Status::NotGrouped,
        QueryError::TypeMismatch => Status::TypeMismatch,
        QueryError::AggregateHere => Status::AggregateHere,
        QueryError::TooMany => Status::TooMany,
        QueryError::TooDeep => Status::TooDeep,
        QueryError::AmbiguousOrder => Status::AmbiguousOrder,
    }
}

/// The status of a fault in a query's text.
fn parse_status(error: ParseError) -> Status
    ensures { result ≡ parse_status error }
{
    match error {
        ParseError::Syntax { .. } => Status::Syntax,
        ParseError::NumberTooLarge => Status::NumberTooLarge,
        ParseError::Query(error) => query_status(error),
    }
}

/// The status of a fault in a batch.
fn batch_status(error: BatchError) -> Status
    ensures { result ≡ batch_status error }
{
    match error {
        BatchError::NoMemory => Status::NoMemory,
        BatchError::BadBatchHead => Status::BadBatchHead,
        BatchError::TooManyRows => Status::TooManyRows,
        BatchError::RowCount => Status::RowCount,
        BatchError::WrongWidth { .. } => Status::WrongWidth,
        BatchError::BadField { .. } => Status::BadField,
    }
}

/// The status of a fault in a summary file.
fn summary_status(error: SummaryError) -> Status
    ensures { result ≡ summary_status error }
{
    match error {
        SummaryError::NoMemory => Status::NoMemory,
        SummaryError::NotASummary => Status::NotASummary,
        SummaryError::Truncated => Status::Truncated,
        SummaryError::Trailing => Status::Trailing,
        SummaryError::NotCanonical => Status::NotCanonical,
        SummaryError::OutOfRange => Status::OutOfRange,
        SummaryError::BadSchema => Status::BadSchema,
        SummaryError::BadPacked => Status::BadPacked,
        SummaryError::BadState => Status::BadState,
        SummaryError::Query(error) => parse_status(error),
    }
}

/// The status of a run that stopped.
fn run_status(error: RunError) -> Status
    ensures { result ≡ run_status error }
{
    match error {
        RunError::NoMemory => Status::NoMemory,
        RunError::InputTooLong => Status::InputTooLong,
        RunError::ReadFault => Status::ReadFault,
        RunError::WriteFault => Status::WriteFault,
    }
}

impl From<Refusal> for Status {
    ghost from_gives = { λ why status. status ≡ status_of why };

    fn from(why: Refusal) -> Status {
        match why {
            Refusal::NoMemory => Status::NoMemory,
            Refusal::BadSchema => Status::BadSchema,
            Refusal::Limit(_) => Status::LimitOutOfRange,
            Refusal::Query(error) => parse_status(error),
            Refusal::Batch(error) => batch_status(error),
            Refusal::Summary(error) => summary_status(error),
            Refusal::DifferentQuery => Status::DifferentQuery,
            Refusal::OriginDisagrees { .. } => Status::OriginDisagrees,
            Refusal::TapeFault => Status::TapeFault,
            Refusal::TapeDamaged => Status::TapeDamaged,
            Refusal::Run(error) => run_status(error),
            Refusal::BadCommand => Status::BadCommand,
            Refusal::NoSuchName => Status::NoSuchName,
            Refusal::NameTaken => Status::NameTaken,
        }
    }
}

impl Status {
    /// The number of a status, as callers get it.
    pub fn number(self) -> u32
        ensures { result ≡ status_number self }
    {
        self as u32
    }

    /// The name of a status, which is that of the refusal, as replies show it.
    pub fn name(self) -> &'static str
        ensures { result.now ≡ status_name self }
    {
        match self {
            Status::Done => "Done",
            Status::NoMemory => "NoMemory",
            Status::TooShort => "TooShort",
            Status::NotOpen => "NotOpen",
            Status::AlreadyOpen => "AlreadyOpen",
            Status::BadCommand => "BadCommand",
            Status::NoSuchName => "NoSuchName",
            Status::NameTaken => "NameTaken",
            Status::LimitOutOfRange => "LimitOutOfRange",
            Status::BadSchema => "BadSchema",
            Status::Syntax => "Syntax",
            Status::NumberTooLarge => "NumberTooLarge",
            Status::NoSuchColumn => "NoSuchColumn",
            Status::NotGrouped => "NotGrouped",
            Status::TypeMismatch => "TypeMismatch",
            Status::AggregateHere => "AggregateHere",
            Status::TooMany => "TooMany",
            Status::TooDeep => "TooDeep",
            Status::AmbiguousOrder => "AmbiguousOrder",
            Status::BadBatchHead => "BadBatchHead",
            Status::TooManyRows => "TooManyRows",
            Status::RowCount => "RowCount",
            Status::WrongWidth => "WrongWidth",
            Status::BadField => "BadField",
            Status::NotASummary => "NotASummary",
            Status::Truncated => "Truncated",
            Status::Trailing => "Trailing",
            Status::NotCanonical => "NotCanonical",
            Status::OutOfRange => "OutOfRange",
            Status::BadPacked => "BadPacked",
            Status::BadState => "BadState",
            Status::DifferentQuery => "DifferentQuery",
            Status::OriginDisagrees => "OriginDisagrees",
            Status::TapeFault => "TapeFault",
            Status::TapeDamaged => "TapeDamaged",
            Status::InputTooLong => "InputTooLong",
            Status::ReadFault => "ReadFault",
            Status::WriteFault => "WriteFault",
        }
    }

    /// The status of a number, if there is one.
    pub fn numbered(number: u32) -> Option<Status>
        ensures { result ≡ status_at number }
    {
        match number {
            0 => Some(Status::Done),
            1 => Some(Status::NoMemory),
            2 => Some(Status::TooShort),
            3 => Some(Status::NotOpen),
            4 => Some(Status::AlreadyOpen),
            10 => Some(Status::BadCommand),
            11 => Some(Status::NoSuchName),
            12 => Some(Status::NameTaken),
            13 => Some(Status::LimitOutOfRange),
            14 => Some(Status::BadSchema),
            20 => Some(Status::Syntax),
            21 => Some(Status::NumberTooLarge),
            22 => Some(Status::NoSuchColumn),
            23 => Some(Status::NotGrouped),
            24 => Some(Status::TypeMismatch),
            25 => Some(Status::AggregateHere),
            26 => Some(Status::TooMany),
            27 => Some(Status::TooDeep),
            28 => Some(Status::AmbiguousOrder),
            30 => Some(Status::BadBatchHead),
            31 => Some(Status::TooManyRows),
            32 => Some(Status::RowCount),
            33 => Some(Status::WrongWidth),
            34 => Some(Status::BadField),
            40 => Some(Status::NotASummary),
            41 => Some(Status::Truncated),
            42 => Some(Status::Trailing),
            43 => Some(Status::NotCanonical),
            44 => Some(Status::OutOfRange),
            45 => Some(Status::BadPacked),
            46 => Some(Status::BadState),
            50 => Some(Status::DifferentQuery),
            51 => Some(Status::OriginDisagrees),
            60 => Some(Status::TapeFault),
            61 => Some(Status::TapeDamaged),
            70 => Some(Status::InputTooLong),
            71 => Some(Status::ReadFault),
            72 => Some(Status::WriteFault),
            _ => None,
        }
    }
}

/// The status of a refusal has the refusal's name.
#[tactic(auto, using(crate::proofs::StatusLaws::name_is))]
pub fn names_agree()
    ensures { (why : Refusal) → status_name (status_of why) ≡ refusal_name why }
{}

/// Each status has a number of its own.
#[tactic(auto, using(crate::proofs::StatusLaws::number_is))]
pub fn numbers_differ()
    ensures { (status : Status) → status_at (status_number status) ≡ Some status }
{}
