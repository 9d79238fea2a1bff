//! The texts of errors, as they are shown.

use batch_reader::BatchError;
use group_parser::ParseError;
use hash_agg::{LimitOutOfRange, SpillError};
use having_filter::QueryError;
use replica_merge::{JoinError, MergeError, SummaryError};
use replies::{Refusal, RunError};
use std::alloc::Global;
use std::fmt::{Debug, Display};
use std::test::*;
use test_cases::expect_lines;

/// The text of the error, among these, that has this name.
fn text_among<E: Debug + Display>(alloc: Global, errors: &[E], name: &str) -> Result<String, Fail> {
    for error in errors {
        let named = format!(in alloc; "{error:?}")?;
        if named.as_str() == name {
            return Ok(format!(in alloc; "{error}")?);
        }
    }
    Err(Fail::new("no such error"))
}

/// Refusals that have a text of their own.
const REFUSALS: [Refusal; 9] = [
    Refusal::NoMemory,
    Refusal::BadSchema,
    Refusal::DifferentQuery,
    Refusal::OriginDisagrees {
        origin: 3,
        number: Some(7),
    },
    Refusal::TapeFault,
    Refusal::TapeDamaged,
    Refusal::BadCommand,
    Refusal::NoSuchName,
    Refusal::NameTaken,
];

/// Their names and their texts.
const REFUSAL_TEXTS: &str = "\
NoMemory => out of memory
BadSchema => the text is not a schema
DifferentQuery => the replicas answer different queries
OriginDisagrees { origin: 3, number: Some(7) } => an origin gave one number to two different batches
TapeFault => spilled records could not be written or read
TapeDamaged => spilled records were not read back as they were written
BadCommand => not a command, or not allowed here
NoSuchName => no replica or saved file has this name
NameTaken => a replica of this name exists already";

#[test]
fn refusals_have_texts(rt: HostRuntime) -> Result<(), Fail> {
    expect_lines(
        rt,
        REFUSAL_TEXTS,
        |rt, name| text_among(rt.alloc(), &REFUSALS, name),
    )
}

/// Refusals that have the text of an error of a lower crate.
const LOWER_REFUSALS: [Refusal; 18] = [
    Refusal::Limit(LimitOutOfRange),
    Refusal::Query(ParseError::Syntax { at: 7 }),
    Refusal::Query(ParseError::NumberTooLarge),
    Refusal::Query(ParseError::Query(QueryError::NoSuchColumn)),
    Refusal::Query(ParseError::Query(QueryError::NotGrouped)),
    Refusal::Query(ParseError::Query(QueryError::TypeMismatch)),
    Refusal::Query(ParseError::Query(QueryError::AggregateHere)),
    Refusal::Query(ParseError::Query(QueryError::TooMany)),
    Refusal::Query(ParseError::Query(QueryError::TooDeep)),
    Refusal::Query(ParseError::Query(QueryError::AmbiguousOrder)),
    Refusal::Batch(BatchError::BadBatchHead),
    Refusal::Batch(BatchError::TooManyRows),
    Refusal::Batch(BatchError::RowCount),
    Refusal::Batch(BatchError::WrongWidth { row: 2 }),
    Refusal::Batch(BatchError::BadField { row: 2, column: 1 }),
    Refusal::Summary(SummaryError::NotASummary),
    Refusal::Run(RunError::InputTooLong),
    Refusal::Run(RunError::ReadFault),
];

/// Their names and their texts.
const LOWER_REFUSAL_TEXTS: &str = "\
Limit(LimitOutOfRange) => a limit is 65,536 to 1,099,511,627,776 bytes
Query(Syntax { at: 7 }) => syntax error at byte 7
Query(NumberTooLarge) => integer out of the range of 64 bits
Query(Query(NoSuchColumn)) => the column does not exist
Query(Query(NotGrouped)) => a column must be in GROUP BY or be used in an aggregate function
Query(Query(TypeMismatch)) => an operand or an argument has the wrong type
Query(Query(AggregateHere)) => aggregate functions are not allowed in WHERE or FILTER
Query(Query(TooMany)) => too many items, keys or aggregate calls, or the query is too long
Query(Query(TooDeep)) => conditions are nested too deeply
Query(Query(AmbiguousOrder)) => a name in ORDER BY is ambiguous
Batch(BadBatchHead) => the batch has no header row, or its origin or number is out of range
Batch(TooManyRows) => the header states more rows than a batch may have
Batch(RowCount) => the batch has more or fewer rows than its header states
Batch(WrongWidth { row: 2 }) => row 2 has more or fewer fields than there are columns; rows are counted from 0
Batch(BadField { row: 2, column: 1 }) => \
the field of row 2 and column 1 is not a value of its type; both are counted from 0
Summary(NotASummary) => not a summary file
Run(InputTooLong) => more than 67,108,864 bytes
Run(ReadFault) => the input could not be read";

#[test]
fn refusals_have_the_texts_of_lower_errors(rt: HostRuntime) -> Result<(), Fail> {
    expect_lines(
        rt,
        LOWER_REFUSAL_TEXTS,
        |rt, name| text_among(rt.alloc(), &LOWER_REFUSALS, name),
    )
}

/// What ends a run.
const RUN_ERRORS: [RunError; 4] = [
    RunError::NoMemory,
    RunError::InputTooLong,
    RunError::ReadFault,
    RunError::WriteFault,
];

/// Their names and their texts.
const RUN_ERROR_TEXTS: &str = "\
NoMemory => out of memory
InputTooLong => more than 67,108,864 bytes
ReadFault => the input could not be read
WriteFault => the output could not be written";

#[test]
fn what_ends_a_run_has_texts(rt: HostRuntime) -> Result<(), Fail> {
    expect_lines(
        rt,
        RUN_ERROR_TEXTS,
        |rt, name| text_among(rt.alloc(), &RUN_ERRORS, name),
    )
}

/// Why replicas are not merged.
const MERGE_ERRORS: [MergeError; 3] = [
    MergeError::DifferentQuery,
    MergeError::NoMemory,
    MergeError::Join {
        origin: 3,
        why: JoinError::OriginDisagrees { number: None },
    },
];

/// Their names and their texts.
const MERGE_ERROR_TEXTS: &str = "\
DifferentQuery => the replicas answer different queries
NoMemory => out of memory
Join { origin: 3, why: OriginDisagrees { number: None } } => two parts of one origin cannot be joined";

#[test]
fn errors_of_merges_have_texts(rt: HostRuntime) -> Result<(), Fail> {
    expect_lines(
        rt,
        MERGE_ERROR_TEXTS,
        |rt, name| text_among(rt.alloc(), &MERGE_ERRORS, name),
    )
}

/// Why a batch is not taken, or parts are not joined.
const JOIN_ERRORS: [JoinError; 4] = [
    JoinError::OriginDisagrees { number: Some(7) },
    JoinError::Spill(SpillError::NoMemory),
    JoinError::Spill(SpillError::TapeFault),
    JoinError::Spill(SpillError::TapeDamaged),
];

/// Their names and their texts.
const JOIN_ERROR_TEXTS: &str = "\
OriginDisagrees { number: Some(7) } => an origin gave one number to two different batches
Spill(NoMemory) => out of memory
Spill(TapeFault) => the tape disk failed
Spill(TapeDamaged) => the tape is damaged";

#[test]
fn errors_of_joins_have_texts(rt: HostRuntime) -> Result<(), Fail> {
    expect_lines(
        rt,
        JOIN_ERROR_TEXTS,
        |rt, name| text_among(rt.alloc(), &JOIN_ERRORS, name),
    )
}

/// Why bytes are not a summary file.
const SUMMARY_ERRORS: [SummaryError; 10] = [
    SummaryError::NoMemory,
    SummaryError::NotASummary,
    SummaryError::Truncated,
    SummaryError::Trailing,
    SummaryError::NotCanonical,
    SummaryError::OutOfRange,
    SummaryError::BadSchema,
    SummaryError::BadPacked,
    SummaryError::BadState,
    SummaryError::Query(ParseError::NumberTooLarge),
];

/// Their names and their texts.
const SUMMARY_ERROR_TEXTS: &str = "\
NoMemory => out of memory
NotASummary => not a summary file
Truncated => the summary file is cut short
Trailing => bytes follow the end of the summary file
NotCanonical => the summary file isn't in its canonical form
OutOfRange => a number of the summary file is out of range
BadSchema => the summary file has no valid schema
BadPacked => a packed row or key of the summary file is damaged
BadState => a state of the summary file is damaged
Query(NumberTooLarge) => integer out of the range of 64 bits";

#[test]
fn errors_of_summaries_have_texts(rt: HostRuntime) -> Result<(), Fail> {
    expect_lines(
        rt,
        SUMMARY_ERROR_TEXTS,
        |rt, name| text_among(rt.alloc(), &SUMMARY_ERRORS, name),
    )
}
