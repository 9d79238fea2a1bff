//! Laws of parsing.

ghost use Rattle.std.specs.Prelude.{◌≡◌, ℕ, List, Ok, Err};
ghost use Rattle.packed_rows.specs.Columns.{Column};
ghost use Rattle.query_checks.specs.Checks.{Checked};
ghost use Rattle.group_parser.specs.Parsing.{Accepts, Refuses, parsing};
ghost use Rattle.group_parser.specs.declared.error.ParseError.{ParseError};

/// Exactly the texts that the grammar and the checks allow are parsed, each as one query. All others are refused, each
/// with one fault.
#[tactic(auto, using(crate::specs::Lemmas::ParseLaws::parses_accepts, crate::specs::Lemmas::ParseLaws::parses_refuses))]
pub fn exactly_the_grammar()
    ensures parsed { (columns : List Column) (text : List ℕ) (q : Checked) →
        Accepts columns text q → parsing columns text ≡ Ok q }
    ensures accepted { (columns : List Column) (text : List ℕ) (q : Checked) →
        parsing columns text ≡ Ok q → Accepts columns text q }
    ensures refused { (columns : List Column) (text : List ℕ) (error : ParseError) →
        parsing columns text ≡ Err error → Refuses columns text error }
    ensures fault { (columns : List Column) (text : List ℕ) (error : ParseError) →
        Refuses columns text error → parsing columns text ≡ Err error }
    ensures one_query { (columns : List Column) (text : List ℕ) (q r : Checked) →
        Accepts columns text q → Accepts columns text r → q ≡ r }
    ensures one_fault { (columns : List Column) (text : List ℕ) (a b : ParseError) →
        Refuses columns text a → Refuses columns text b → a ≡ b }
    ensures not_both { (columns : List Column) (text : List ℕ) (q : Checked) (error : ParseError) →
        Accepts columns text q → ¬ (Refuses columns text error) }
{}
