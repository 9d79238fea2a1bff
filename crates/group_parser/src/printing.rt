//! Writing a query again.

ghost use Rattle.std.specs.Prelude.{◌≡◌, IfOk, string_bytes};
ghost use Rattle.query_checks.specs.Spelling.{spelling};
ghost use Rattle.having_filter.specs.Kept.{by_names};
ghost use Rattle.group_parser.specs.Parsing.{Accepts};

use having_filter::Query;
use std::alloc::{AllocError, Global};

/// The canonical text of a query: key words in capitals, names in lower case, parentheses only where they are needed,
/// one space between words. `parse` reads it as this query. The only error is a failed allocation.
#[tactic(auto, using(crate::specs::Lemmas::PrintLaws::parsed_again))]
pub fn print(alloc: Global, query: &Query) -> Result<String, AllocError>
    ensures spelled { IfOk result (λ text. string_bytes text ≡ spelling (by_names query.now)) }
    ensures read_again { IfOk result (λ text.
        Accepts query.now.columns (string_bytes text) query.now) }
{
    let _schema = query.schema();
    String::from_str(alloc, query.spelling())
}
