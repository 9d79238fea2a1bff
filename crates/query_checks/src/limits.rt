//! The limits of a query.

ghost use Rattle.std.specs.Prelude.{◌≡◌, ◌≢◌, ◌<◌, ◌≤◌, map, length, false, true, IfOk, IfErr, string_bytes};
ghost use Rattle.std.specs.Str.{bytes_eq};
ghost use Rattle.packed_rows.specs.View.{texts_of};
ghost use Rattle.query_checks.specs.declared.error.QueryError.TheVariants.{NoMemory, TooMany};
ghost use Rattle.query_checks.specs.Arrangement.{asked_of};
ghost use Rattle.query_checks.specs.Sameness.{first_of_each};
ghost use Rattle.query_checks.specs.Spelling.{spelling};
ghost use Rattle.query_checks.specs.Checks.{has_too_many};

use crate::arrangement::arrangement_of;
use crate::calls::has_too_many_calls;
use crate::condition::RawQuery;
use crate::distinct::distinct;
use crate::error::QueryError;
use crate::spelling::spelled;
use grouping_model::limits::{MAX_ITEMS, MAX_KEYS, MAX_QUERY_LEN};
use std::alloc::{AllocError, Global};

/// Names, borrowed from their owners.
fn borrowed_names(alloc: Global, names: &[String]) -> Result<Vec<&str>, AllocError>
    ensures { IfOk result (λ borrowed. texts_of borrowed.items ≡ map string_bytes names.now) }
{
    let mut borrowed = Vec::with_capacity(alloc, names.len())?;
    for name in names {
        borrowed.push(name.as_str())?;
    }
    Ok(borrowed)
}

/// The distinct names of some, by the first of each. The search stops once there are more than a query may have keys.
fn distinct_names(alloc: Global, names: &[String]) -> Result<Vec<&str>, AllocError>
    ensures all { IfOk result (λ found. length found.items ≤ MAX_KEYS →
        texts_of found.items ≡ first_of_each bytes_eq (map string_bytes names.now)) }
    ensures more { IfOk result (λ found. MAX_KEYS < length found.items →
        MAX_KEYS < length (first_of_each bytes_eq (map string_bytes names.now))) }
{
    let borrowed = borrowed_names(alloc, names)?;
    let found = distinct(alloc, &borrowed, MAX_KEYS)?;
    Ok(found)
}

/// The canonical text of a query that keeps within the limits.
pub(crate) fn text_within(alloc: Global, raw: &RawQuery) -> Result<String, QueryError>
    ensures text { IfOk result (λ text. string_bytes text ≡ spelling (asked_of raw.now)) }
    ensures within { IfOk result (λ _. has_too_many (asked_of raw.now) ≡ false) }
    ensures refused { IfErr result (λ e. e ≢ NoMemory → e ≡ TooMany) }
    ensures too_many { IfErr result (λ e. e ≢ NoMemory → has_too_many (asked_of raw.now) ≡ true) }
{
    if raw.items.len() > MAX_ITEMS {
        return Err(QueryError::TooMany);
    }
    let keys = distinct_names(alloc, &raw.keys)?;
    if keys.len() > MAX_KEYS {
        return Err(QueryError::TooMany);
    }
    if has_too_many_calls(alloc, raw)? {
        return Err(QueryError::TooMany);
    }
    let arrangement = arrangement_of(alloc, raw)?;
    let text = spelled(alloc, raw, &keys, &arrangement)?;
    if text.len() > MAX_QUERY_LEN {
        return Err(QueryError::TooMany);
    }
    Ok(text)
}
