//! Laws of parts.

ghost use Rattle.std.specs.Prelude.{◌≡◌, ◌≤◌, ◌||◌, ℕ, Bool, List, Some, IsTrue};
ghost use Rattle.grouping_model.specs.Datum.{Row};
ghost use Rattle.grouping_model.specs.World.{World, IsWorld};
ghost use Rattle.packed_rows.specs.Columns.{kinds};
ghost use Rattle.batch_reader.specs.Rows.{packings};
ghost use Rattle.std.specs.Ordering.{eq_by_cmp, nat_cmp};
ghost use Rattle.grouping_model.specs.Query.{Query};
ghost use Rattle.grouping_model.specs.declared.delivered.Delivered.{Delivered};
ghost use Rattle.query_checks.specs.Checks.{Checked};
ghost use Rattle.having_filter.specs.Meaning.{meaning};
ghost use Rattle.origin_prefix.specs.Fitting.{FitsOrigin};
ghost use Rattle.origin_prefix.specs.Parts.{Part, tells, IsPartOf, Delivers, Disagrees};
ghost use Rattle.origin_prefix.specs.Joins.{Joins, PartsDisagree, Includes, StaysJoined};

/// After a delivery a part tells one more number, and joined parts tell what either tells.
pub fn told_numbers()
    ensures delivered { (honest : Bool) (query : Checked) (q : Query) (old new : Part) (number : ℕ) (rows : List (List ℕ))
        (reply : Delivered) → IsPartOf query old → 1 ≤ number → Delivers honest q old number rows new reply →
        (m : ℕ) → tells new m ≡ (eq_by_cmp nat_cmp m number || tells old m) }
    ensures joined { (honest : Bool) (query : Checked) (q : Query) (a b new : Part) → IsPartOf query a →
        IsPartOf query b → Joins honest q a b new → (m : ℕ) → tells new m ≡ (tells a m || tells b m) }
{}

/// A part that fits a world still fits it after it takes a batch of the world.
pub fn delivered_parts_fit()
    ensures { (honest : Bool) → IsTrue honest → (query : Checked) (world : World) (origin number : ℕ) (old new : Part)
        (those : List Row) (reply : Delivered) → IsWorld (kinds query.columns) world →
        IsPartOf query old → FitsOrigin (meaning query) world origin old →
        world origin number ≡ Some those →
        Delivers honest (meaning query) old number (packings those) new reply →
        FitsOrigin (meaning query) world origin new }
{}

/// Parts that fit a world are joined to one that fits it.
pub fn joined_parts_fit()
    ensures { (honest : Bool) → IsTrue honest → (query : Checked) (world : World) (origin : ℕ) (a b new : Part) →
        IsWorld (kinds query.columns) world → FitsOrigin (meaning query) world origin a →
        FitsOrigin (meaning query) world origin b → Joins honest (meaning query) a b new →
        FitsOrigin (meaning query) world origin new }
{}

/// A part that fits a world is not refused for disagreement: neither with a batch of the world, nor with another part that fits it.
pub fn fitting_parts_agree()
    ensures batch { (query : Checked) (world : World) (origin number : ℕ) (old : Part)
        (those : List Row) → FitsOrigin (meaning query) world origin old →
        world origin number ≡ Some those → ¬ (Disagrees old number (packings those)) }
    ensures part { (query : Checked) (world : World) (origin : ℕ) (a b : Part) →
        FitsOrigin (meaning query) world origin a → FitsOrigin (meaning query) world origin b →
        ¬ (PartsDisagree a b) }
{}

/// Joining a part with one that it includes gives the same part.
pub fn included_parts()
    ensures { (query : Checked) (own other : Part) → IsPartOf query own → Includes own other → StaysJoined query own other }
{}
