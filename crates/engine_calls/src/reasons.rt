//! The sentence on a refusal, as the program writes it on standard error.

ghost use Rattle.std.specs.Prelude.{◌≡◌, IfOk, IfSome, string_bytes};
ghost use Rattle.engine_calls.specs.Keeping.{text_of};

use crate::last::Last;
use engine::{Refusal, Replica};
use file_sentences::{FileKind, columns_reason, file_reason, query_reason};
use sentences::Reason;
use std::alloc::{AllocError, Global};
use std::str::from_utf8;

/// The reason why no session is opened of the texts of columns and a query.
pub(crate) fn opening_reason(
    alloc: Global,
    columns: &[u8],
    query: &[u8],
    why: Refusal,
) -> Result<Option<Reason>, AllocError> {
    match (why, from_utf8(columns), from_utf8(query)) {
        (Refusal::BadCommand, Ok(_), _) => {
            let said = String::from_str(alloc, "the text of the query is not UTF-8")?;
            Ok(Some(Reason::whole(alloc, said)))
        }
        (Refusal::BadCommand, Err(_), _) => {
            let said = String::from_str(alloc, "the text of the columns is not UTF-8")?;
            Ok(Some(Reason::whole(alloc, said)))
        }
        (Refusal::BadSchema, Ok(columns), _) => columns_reason(alloc, columns),
        (_, Ok(columns), Ok(query)) => query_reason(alloc, columns, query, why),
        _ => Ok(None),
    }
}

/// The reason why rows are not a batch for a replica. Lines are those of their batch file, whose first line is the head.
pub(crate) fn rows_reason(
    alloc: Global,
    replica: &Replica,
    origin: u32,
    number: u32,
    count: u32,
    rows: &[u8],
    why: Refusal,
) -> Result<Option<Reason>, AllocError> {
    let head = format!(in alloc; "batch,{origin},{number},{count}\n")?;
    let mut file = head.into_bytes();
    file.extend_from_slice(rows)?;
    file_reason(alloc, FileKind::Batch, replica, &file, why)
}

/// The reason why a summary file, or another replica, is not merged into a replica.
pub(crate) fn merging_reason(
    alloc: Global,
    replica: &Replica,
    file: &[u8],
    why: Refusal,
) -> Result<Option<Reason>, AllocError> {
    match why {
        // The program's sentence speaks of its first file, which does not exist here.
        Refusal::DifferentQuery => Ok(None),
        why => file_reason(alloc, FileKind::Summary, replica, file, why),
    }
}

/// The sentence on a refusal: its reason, or else its general sentence.
pub(crate) fn sentence(alloc: Global, last: &Last) -> Result<String, AllocError>
    ensures { IfOk result (λ text. IfSome last.now.reason (λ kept. string_bytes text ≡ text_of kept.reason)) }
{
    match &last.reason {
        Some(kept) => {
            let (said, picture) = (&kept.reason.said, &kept.reason.picture);
            format!(in alloc; "{said}{picture}")
        }
        None => {
            let why = last.why;
            format!(in alloc; "{why}")
        }
    }
}
