//! Laws of the grammar of queries.

ghost use Rattle.std.specs.Prelude.{◌≡◌, ℕ, true, List, [], Ok, Err};
ghost use Rattle.std.specs.List.{AllByRecursion};
ghost use Rattle.query_tokens.specs.Words.{Lexeme};
ghost use Rattle.query_tokens.specs.Spelling.{IsLexeme};
ghost use Rattle.packed_rows.specs.Columns.{printed};
ghost use Rattle.having_filter.specs.Kept as kept;
ghost use Rattle.having_filter.specs.Kept.{by_names};
ghost use Rattle.query_checks.specs.Checks.{Checked, all_of, filters_pass, is_shallow, are_shallow};
ghost use Rattle.query_checks.specs.Writable.{IsWritable, CanBeAsked};
ghost use Rattle.query_checks.specs.Arrangement.{CanBeArranged};
ghost use Rattle.query_checks.specs.Spelling.{spelling};
ghost use Rattle.query_checks.specs.Order.{Asked};
ghost use Rattle.query_grammar.specs.Queries.{IsQuery};
ghost use Rattle.query_grammar.specs.Reading.{Unexpected, Too_deep};
ghost use Rattle.query_grammar.specs.Whole.{query_at};
ghost use Rattle.query_grammar.specs.Laws.{IsUnexpected, IsTooDeep, IsSpelled};
ghost use Rattle.query_grammar.specs.Canonical.{canonical};

/// Tokens that are read as a query are one in the grammar, all of them.
#[tactic(auto, using(crate::specs::Lemmas::Faults::is_query))]
pub fn what_is_read_is_a_query()
    ensures { (limit : ℕ) (ts : List Lexeme) (q : Asked) (rest : List Lexeme) →
        query_at limit ts ≡ Ok (q, rest) → IsQuery limit ts q }
{}

/// Tokens that are a query in the grammar are read as it.
#[tactic(auto, using(crate::specs::Lemmas::Whole_complete::query_reads))]
pub fn what_is_a_query_is_read()
    ensures { (limit : ℕ) (ts : List Lexeme) (q : Asked) → IsQuery limit ts q →
        query_at limit ts ≡ Ok (q, []) }
{}

/// Tokens are one query at most.
#[tactic(auto, using(crate::specs::Lemmas::Whole_complete::one_query))]
pub fn one_query()
    ensures { (limit : ℕ) (ts : List Lexeme) (q r : Asked) → IsQuery limit ts q →
        IsQuery limit ts r → q ≡ r }
{}

/// Tokens are refused at the first one that no query can go on with, or at their end if there is none. The fault is the
/// number of parentheses if a query can go on with one more of them allowed, and else the token itself. And if there is
/// such a token, it is the one that is refused. So tokens have one first fault.
#[tactic(auto, using(crate::specs::Lemmas::Faults::is_unexpected, crate::specs::Lemmas::Faults::is_too_deep))]
pub fn refused_tokens()
    ensures unexpected { (limit : ℕ) (ts : List Lexeme) (left : ℕ) →
        query_at limit ts ≡ Err (Unexpected left) → IsUnexpected limit ts left }
    ensures too_deep { (limit : ℕ) (ts : List Lexeme) (left : ℕ) →
        query_at limit ts ≡ Err (Too_deep left) → IsTooDeep limit ts left }
    ensures unexpected_found { (limit : ℕ) (ts : List Lexeme) (left : ℕ) →
        IsUnexpected limit ts left → query_at limit ts ≡ Err (Unexpected left) }
    ensures too_deep_found { (limit : ℕ) (ts : List Lexeme) (left : ℕ) →
        IsTooDeep limit ts left → query_at limit ts ≡ Err (Too_deep left) }
{}

/// A query that is read from legal tokens can be written. All names are legal and not reserved, and numbers have 64
/// bits. No text has the character 0, and only a count of rows has no column.
#[tactic(auto, using(crate::specs::Lemmas::Writables::query_writable))]
pub fn what_is_a_query_can_be_written()
    ensures { (limit : ℕ) (ts : List Lexeme) (q : Asked) → IsQuery limit ts q →
        AllByRecursion IsLexeme ts → CanBeAsked q }
{}

/// The canonical text of a query says the query, if its conditions are nested at most 64 deep and places have 64 bits. It has each column
/// of GROUP BY once, and no alias that is the item's own name. Of ORDER BY it has the terms that order, by places.
#[tactic(auto, using(crate::specs::Lemmas::PrintedQuery::text_says))]
pub fn canonical_text_is_read()
    ensures { (q : Asked) → IsWritable q.written →
        all_of (filters_pass is_shallow) are_shallow q.written ≡ true →
        CanBeArranged (canonical q).arrangement →
        IsSpelled (spelling q) (canonical q) }
{}

/// Two checked queries whose schemas and canonical texts are the same are the same query.
#[tactic(auto, using(crate::specs::Lemmas::OneText::one_text))]
pub fn one_text_one_query()
    ensures { (q r : Checked) → kept.IsCheckedQuery q → kept.IsCheckedQuery r →
        printed q.columns ≡ printed r.columns →
        spelling (by_names q) ≡ spelling (by_names r) → q ≡ r }
{}
