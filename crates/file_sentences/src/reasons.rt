//! Why a command's files and texts are refused.

use fault_sentences::{BatchText, no_summary, say_disagreement, say_query, say_schema};
use packed_rows::Schema;
use refusals::{Refusal, RunError};
use replica_merge::{KnownOrigin, Replica, SummaryError};
use sentences::{Plain, Quoted, Reason};
use std::alloc::{AllocError, Global};

/// Says why a text is not a schema.
pub fn columns_reason(alloc: Global, text: &str) -> Result<Option<Reason>, AllocError> {
    Ok(Some(say_schema(alloc, text)?))
}

/// Says why a text is not a query over the columns of another.
pub fn query_reason(
    alloc: Global,
    columns: &str,
    text: &str,
    why: Refusal,
) -> Result<Option<Reason>, AllocError> {
    match (why, Schema::parse(alloc, columns)) {
        (Refusal::Query(why), Ok(schema)) => {
            let reason = say_query(alloc, &schema, text, why);
            drop(schema);
            reason
        }
        _ => Ok(None),
    }
}

/// Says why the bytes of a file are not a summary.
pub fn summary_reason(
    alloc: Global,
    file: &[u8],
    why: Refusal,
) -> Result<Option<Reason>, AllocError> {
    match why {
        Refusal::Summary(SummaryError::NotASummary) => {
            Ok(Some(Reason::whole(alloc, no_summary(alloc, file)?)))
        }
        Refusal::Summary(SummaryError::Truncated) if file.is_empty() => {
            Ok(Some(Reason::whole(alloc, no_summary(alloc, file)?)))
        }
        Refusal::Summary(SummaryError::Truncated) => {
            let len = file.len();
            let said = format!(in alloc; "it was cut off after {len} bytes: copy it again")?;
            Ok(Some(Reason::whole(alloc, said)))
        }
        Refusal::Summary(why) => {
            let said = format!(in alloc;
                "{why}: the file is damaged; copy it again, or make it again from its batch files"
            )?;
            Ok(Some(Reason::whole(alloc, said)))
        }
        _ => Ok(None),
    }
}

/// A reason that is one text, where there is one.
fn whole(alloc: Global, said: Option<String>) -> Option<Reason> {
    match said {
        Some(said) => Some(Reason::whole(alloc, said)),
        None => None,
    }
}

/// Says why the bytes of a file are not a batch for a replica.
fn batch_reason(
    alloc: Global,
    replica: &Replica,
    file: &[u8],
    why: Refusal,
) -> Result<Option<Reason>, AllocError> {
    let said = match why {
        Refusal::Batch(why) => {
            BatchText::of_file(file).say(alloc, replica.query().schema(), why)?
        }
        Refusal::OriginDisagrees { origin, number } => {
            Some(say_disagreement(alloc, origin, number, None)?)
        }
        _ => None,
    };
    Ok(whole(alloc, said))
}

/// How many bytes of a query are shown.
const MAX_OF_QUERY: usize = 400;

/// The front of a text, whole where it is short.
fn front_of(text: &str) -> &str {
    match text.get(..text.floor_char_boundary(MAX_OF_QUERY)) {
        Some(front) if text.len() > MAX_OF_QUERY => front,
        _ => text,
    }
}

/// Says in what the queries of two replicas differ.
fn other_query(alloc: Global, ours: &Replica, theirs: &Replica) -> Result<String, AllocError> {
    let columns = theirs.query().schema().print()?;
    let our_columns = ours.query().schema().print()?;
    if columns.as_str() != our_columns.as_str() {
        let one = Plain(front_of(columns.as_str()));
        let other = Plain(front_of(our_columns.as_str()));
        return format!(in alloc; "its columns are {one}, and those of the first IN are {other}");
    }
    let one = Plain(front_of(theirs.query().spelling()));
    let other = Plain(front_of(ours.query().spelling()));
    format!(in alloc; "it answers {one}, and the first IN answers {other}")
}

/// Says in what the query of a summary file differs from that of a replica, if the file is read.
fn file_query(alloc: Global, replica: &Replica, file: &[u8]) -> Result<Option<String>, AllocError> {
    match Replica::load(alloc, file) {
        Ok(other) => {
            let said = other_query(alloc, replica, &other);
            drop(other);
            Ok(Some(said?))
        }
        Err(_) => Ok(None),
    }
}

/// The prefix of an origin, of what is known of each.
fn prefix_in(known: &[KnownOrigin], origin: u16) -> Option<u32> {
    for one in known {
        if one.origin == origin {
            return Some(one.upto);
        }
    }
    None
}

/// The prefix of an origin that a replica knows something of.
fn prefix_of(replica: &Replica, origin: u16) -> Result<Option<u32>, AllocError> {
    let known = replica.known()?;
    let prefix = prefix_in(&known, origin);
    drop(known);
    Ok(prefix)
}

/// Says why a file is not merged into a replica.
fn merge_reason(
    alloc: Global,
    replica: &Replica,
    file: &[u8],
    why: Refusal,
) -> Result<Option<Reason>, AllocError> {
    let said = match why {
        Refusal::DifferentQuery => file_query(alloc, replica, file)?,
        Refusal::OriginDisagrees { origin, number } => {
            let prefix = prefix_of(replica, origin)?;
            Some(say_disagreement(alloc, origin, number, prefix)?)
        }
        _ => return summary_reason(alloc, file, why),
    };
    Ok(whole(alloc, said))
}

/// What a file is to a replica that takes it.
#[derive(Clone, Copy)]
pub enum FileKind {
    /// A batch that is fed.
    Batch,
    /// A summary that is merged.
    Summary,
}

/// Says why a file is not taken into a replica.
pub fn file_reason(
    alloc: Global,
    kind: FileKind,
    replica: &Replica,
    file: &[u8],
    why: Refusal,
) -> Result<Option<Reason>, AllocError> {
    match kind {
        FileKind::Batch => batch_reason(alloc, replica, file, why),
        FileKind::Summary => merge_reason(alloc, replica, file, why),
    }
}

/// Says how long a summary that is too long would be.
pub fn saving_reason(
    alloc: Global,
    replica: &Replica,
    why: Refusal,
) -> Result<Option<Reason>, AllocError> {
    if why != Refusal::Run(RunError::InputTooLong) {
        return Ok(None);
    }
    let len = replica.saved_len()?;
    let said = format!(in alloc; "more than 67,108,864 bytes: it would have {len}")?;
    Ok(Some(Reason::whole(alloc, said)))
}

/// Says why the text of a limit is not a number of bytes.
pub fn limit_reason(alloc: Global, text: &str) -> Result<String, AllocError> {
    let given = Quoted(text.as_bytes());
    format!(in alloc;
        "{given} is not a number of bytes: write 1 to 19 digits, with or without k, m, g or t"
    )
}

/// Says that OUT is not written, since another command wrote it meanwhile.
pub fn replaced_reason(alloc: Global, out: &str) -> Result<Option<Reason>, AllocError> {
    let out = Plain(out);
    let said = format!(in alloc;
        "{out} was replaced by another command meanwhile: run this one again"
    )?;
    Ok(Some(Reason::whole(alloc, said)))
}
