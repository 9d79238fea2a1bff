//! The parts of a query over places, from the names of its columns or from other parts.

ghost use Rattle.std.specs.Prelude.{◌≡◌, ◌==◌, map, option_map, IfOk, string_bytes};
ghost use Rattle.query_checks.specs.Forms.{names_of, item_form, items_of, places_of, map_form, written_of};
ghost use Rattle.query_checks.specs.Checks.{place, placed};
ghost use Rattle.query_checks.specs.Arrangement.{asked_of, arrangement_held, arrangement_of};
ghost use Rattle.query_checks.specs.Sameness.{first_of_each};
ghost use Rattle.query_checks.specs.Spelling.{own_name, kept_alias};
ghost use Rattle.query_checks.specs.Parts.{written_of_parts};

use crate::arrangement::{Arrangement, arrangement_of};
use crate::condition::{AggCall, Cond, Item, RawQuery};
use crate::distinct::push_once;
use crate::mapping::{Mapping, mapped_clause, mapped_item};
use crate::spelling::{kept_alias, own_name};
use packed_rows::Schema;
use std::alloc::{AllocError, Global};

/// The parts of a query over the places of its columns, the first column of the table being 0.
#[derive(Drop)]
pub struct Parts {
    /// The items, each with its alias, if it has one.
    pub items: Vec<(Item<usize>, Option<String>)>,
    /// WHERE, if there is one.
    pub condition: Option<Cond<usize>>,
    /// The columns of GROUP BY.
    pub keys: Vec<usize>,
    /// HAVING, if there is one.
    pub having: Option<Cond<usize>>,
    /// How the rows of the answer are arranged.
    pub arrangement: Arrangement,
}

/// The place of a column, which is there.
fn place(schema: &Schema, name: &str) -> usize
    ensures { result ≡ place schema.now name.now }
{
    schema.place(name).unwrap_or(0)
}

/// From the names of columns to their places.
impl Mapping<String, usize> for Schema {
    ghost use Rattle.std.specs.Prelude.{None, string_bytes};
    ghost use Rattle.query_checks.specs.Checks.{place};

    ghost column_as = { λ columns name. place columns (string_bytes name) };

    ghost call_as = { λ _ call. None };

    fn column(&self, column: &String) -> usize {
        place(self, column.as_str())
    }

    fn call(&self, _call: &AggCall<String>) -> Option<usize> {
        None
    }
}

/// An item over places, with its alias unless that is the item's own name.
#[tactic(auto, using(crate::proofs::FormLaws::mapped_names))]
fn placed_item(
    alloc: Global,
    schema: &Schema,
    item: &(Item<String>, Option<String>),
) -> Result<(Item<usize>, Option<String>), AllocError>
    ensures form { IfOk result (λ i.
        item_form i.0 ≡ map_form (place schema.now) (names_of (item_form item.now.0))) }
    ensures alias { IfOk result (λ i. option_map string_bytes i.1
        ≡ kept_alias (own_name (names_of (item_form item.now.0))) (option_map string_bytes item.now.1)) }
{
    let alias = match kept_alias(own_name(&item.0), &item.1) {
        Some(alias) => Some(String::from_str(alloc, alias)?),
        None => None,
    };
    Ok((mapped_item(alloc, schema, &item.0)?, alias))
}

/// Items over places.
fn placed_items(
    alloc: Global,
    schema: &Schema,
    items: &[(Item<String>, Option<String>)],
) -> Result<Vec<(Item<usize>, Option<String>)>, AllocError>
    ensures { IfOk result (λ done. places_of done.items
        ≡ map (λ item. (map_form (place schema.now) item.0, kept_alias (own_name item.0) item.1))
        (items_of items.now)) }
{
    let mut done = Vec::with_capacity(alloc, items.len())?;
    for item in items {
        done.push(placed_item(alloc, schema, item)?)?;
    }
    Ok(done)
}

/// The distinct places of columns, by the first of each.
fn placed_keys(alloc: Global, schema: &Schema, names: &[String]) -> Result<Vec<usize>, AllocError>
    ensures { IfOk result (λ places. places.items
        ≡ first_of_each ◌==◌ (map (place schema.now) (map string_bytes names.now))) }
{
    let mut places = Vec::new(alloc);
    for name in names {
        push_once(&mut places, place(schema, name.as_str()))?;
    }
    Ok(places)
}

impl Parts {
    /// The parts of a query over the columns of a schema. A repeated column of GROUP BY counts once, by its first place. An alias that is
    /// the item's own name is dropped. So is a term of ORDER BY that doesn't mean exactly one item, or means that of an earlier term. The
    /// schema should have all columns of the query: any other name is taken for column 0. The only error is a failed allocation.
    #[tactic(auto, using(crate::proofs::FormLaws::clause_placed))]
    pub fn placed(alloc: Global, schema: &Schema, raw: &RawQuery) -> Result<Parts, AllocError>
        ensures written { IfOk result (λ p.
            written_of_parts p ≡ placed schema.now (written_of raw.now)) }
        ensures arrangement { IfOk result (λ p.
            arrangement_held p.arrangement ≡ arrangement_of (asked_of raw.now)) }
    {
        let keys = placed_keys(alloc, schema, &raw.keys)?;
        let condition = mapped_clause(alloc, schema, &raw.condition)?;
        let having = mapped_clause(alloc, schema, &raw.having)?;
        let items = placed_items(alloc, schema, &raw.items)?;
        let arrangement = arrangement_of(alloc, raw)?;
        Ok(Parts {
            items,
            condition,
            keys,
            having,
            arrangement,
        })
    }
}
