//! Laws of packings and of printed schemas.

ghost use Rattle.std.specs.Prelude.{◌≡◌, ◌++◌, List, ℕ};
ghost use Rattle.std.specs.Ordering.{nat_cmp};
ghost use Rattle.std.specs.Cmp.Lexicographic.{slice_cmp};
ghost use Rattle.grouping_model.specs.Datum.{Kind, Row, HasKinds, row_cmp};
ghost use Rattle.packed_rows.specs.Packing.{packing};
ghost use Rattle.packed_rows.specs.Columns.{Column, AreColumns, IsSchemaText, printed};

/// Packed keys of the same kinds compare by their bytes as the keys do. A packing shows where it ends. So what
/// follows two packings doesn't matter, and equal packings are of equal keys.
#[tactic(auto, using(crate::specs::Lemmas::PackingOrder::packed_order, crate::specs::Lemmas::PackingOrder::row_apart))]
pub fn packing_order()
    ensures order { (kinds : List Kind) (x y : Row) → HasKinds kinds x → HasKinds kinds y →
        slice_cmp nat_cmp (packing x) (packing y) ≡ row_cmp x y }
    ensures delimited { (kinds : List Kind) (x y : Row) (r s : List ℕ) → HasKinds kinds x →
        HasKinds kinds y → packing x ++ r ≡ packing y ++ s → (x ≡ y) × (r ≡ s) }
{}

/// A schema that is printed is read again as itself, and a text describes one schema at most. So parsing undoes
/// printing.
pub fn printed_schemas()
    ensures read_again { (columns : List Column) → AreColumns columns →
        IsSchemaText (printed columns) columns }
    ensures one_schema { (text : List ℕ) (a b : List Column) → IsSchemaText text a →
        IsSchemaText text b → a ≡ b }
{}
