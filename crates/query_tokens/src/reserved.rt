//! The reserved words.

ghost use Rattle.std.specs.Prelude.{◌≡◌};
ghost use Rattle.query_tokens.specs.Reserved.{is_reserved};

/// Whether a name in lower case is a reserved word, which can't name a column or an alias.
#[tactic(auto, unfolding(crate::specs::Reserved::is_reserved))]
pub fn is_reserved(name: &str) -> bool
    ensures { result ≡ is_reserved name.now }
{
    match name {
        "and"
        | "as"
        | "asc"
        | "by"
        | "desc"
        | "false"
        | "filter"
        | "from"
        | "group"
        | "having"
        | "is"
        | "not"
        | "null"
        | "nulls"
        | "or"
        | "order"
        | "select"
        | "true"
        | "unknown"
        | "where" => true,
        _ => false,
    }
}
