//! The checks of whole queries.

ghost use Rattle.std.specs.Prelude.{◌≡◌, ◌&&◌, true, map, option_map, string_bytes};
ghost use Rattle.std.specs.List.{list_all};
ghost use Rattle.std.specs.Option.{option_map_or};
ghost use Rattle.packed_rows.specs.View.{kinds_of};
ghost use Rattle.packed_rows.specs.Columns.{kinds};
ghost use Rattle.query_checks.specs.Forms.{form_of, item_form, names_of, items_of, places_of, written_of};
ghost use Rattle.query_checks.specs.Reads.{columns_pass, filters_pass, is_grouped_by, is_plain};
ghost use Rattle.query_checks.specs.Checks.{all_of, is_shallow, are_shallow, is_column, has_columns, operands_fit, condition_fits};
ghost use Rattle.query_checks.specs.Checks.{are_plain, kinds_fit, is_grouped};
ghost use Rattle.query_checks.specs.Order.{names_items};
ghost use Rattle.query_checks.specs.Arrangement.{asked_of};
ghost use Rattle.query_checks.specs.Parts.{written_of_parts};

use crate::checks::{
    PlainFilters, ShallowFilters, are_shallow, call_fits, condition_fits, is_grouped_by, is_plain,
};
use crate::condition::{AggCall, Cond, Item, RawQuery};
use crate::order::names_items;
use crate::parts::Parts;
use crate::reads::{Test, clause_everywhere, items_everywhere};
use packed_rows::{Schema, ValueKind};

/// Whether the FILTERs of all items are not too deep.
#[tactic(auto, using(crate::proofs::WholeLaws::items_shallow))]
fn items_are_shallow(items: &[(Item<String>, Option<String>)]) -> bool
    ensures { result ≡ list_all (λ item. filters_pass is_shallow item.0) (items_of items.now) }
{
    items_everywhere(items, &ShallowFilters)
}

/// Whether a condition, if there is one, and its FILTERs are not too deep.
#[tactic(auto, using(crate::proofs::FormLaws::filters_mapped, crate::proofs::FormLaws::depth_mapped))]
fn clause_is_shallow(clause: &Option<Cond<String>>) -> bool
    ensures { result ≡ option_map_or are_shallow (option_map (λ c. names_of (form_of c)) clause.now) true }
{
    match clause {
        Some(condition) => are_shallow(condition),
        None => true,
    }
}

/// Whether no condition of a query is too deep.
pub(crate) fn is_shallow_query(raw: &RawQuery) -> bool
    ensures { result ≡ all_of (filters_pass is_shallow) are_shallow (written_of raw.now) }
{
    items_are_shallow(&raw.items)
        && clause_is_shallow(&raw.condition)
        && clause_is_shallow(&raw.having)
}

/// Whether a schema has a column of this name.
fn is_column(schema: &Schema, name: &str) -> bool
    ensures { result ≡ is_column schema.now name.now }
{
    schema.place(name).is_some()
}

/// The test that a schema has the columns.
#[derive(Drop)]
struct Known<'a> {
    schema: &'a Schema,
}

impl<'a> Test<String> for Known<'a> {
    ghost use Rattle.std.specs.Prelude.{true, string_bytes};
    ghost use Rattle.std.specs.Option.{option_map_or};
    ghost use Rattle.query_checks.specs.Reads.{column_read};
    ghost use Rattle.query_checks.specs.Checks.{is_column};

    ghost passes = { λ t leaf. option_map_or (λ name. is_column t.schema.now (string_bytes name))
        (column_read leaf) true };

    fn column(&self, column: &String) -> bool {
        is_column(self.schema, column.as_str())
    }

    #[tactic(auto, using(crate::proofs::ReadLaws::column_of_call))]
    fn call(&self, call: &AggCall<String>) -> bool {
        match &call.column {
            Some(column) => is_column(self.schema, column.as_str()),
            None => true,
        }
    }
}

/// Whether a schema has all columns that items name.
fn items_are_known(schema: &Schema, items: &[(Item<String>, Option<String>)]) -> bool
    ensures { result ≡ list_all (λ item. columns_pass (is_column schema.now) item.0) (items_of items.now) }
{
    items_everywhere(items, &Known { schema })
}

/// Whether a schema has all columns that a clause names, if there is one.
#[tactic(auto, using(crate::proofs::WholeLaws::clause_known))]
fn clause_is_known(schema: &Schema, clause: &Option<Cond<String>>) -> bool
    ensures { result ≡ option_map_or (columns_pass (is_column schema.now))
        (option_map (λ c. names_of (form_of c)) clause.now) true }
{
    clause_everywhere(clause, &Known { schema })
}

/// Whether a schema has all columns of GROUP BY.
fn keys_are_known(schema: &Schema, names: &[String]) -> bool
    ensures { result ≡ list_all (is_column schema.now) (map string_bytes names.now) }
{
    names.iter().all(|name| is_column(schema, name.as_str()))
}

/// Whether a schema has all columns that a query names.
fn has_columns(schema: &Schema, raw: &RawQuery) -> bool
    ensures { result ≡ has_columns schema.now (written_of raw.now) }
{
    items_are_known(schema, &raw.items)
        && clause_is_known(schema, &raw.condition)
        && clause_is_known(schema, &raw.having)
        && keys_are_known(schema, &raw.keys)
}

/// Whether a schema has all columns that a query names, and all terms of its ORDER BY name items.
pub(crate) fn has_names(schema: &Schema, raw: &RawQuery) -> bool
    ensures { result ≡
        (has_columns schema.now (written_of raw.now) && names_items (asked_of raw.now)) }
{
    has_columns(schema, raw) && names_items(raw)
}

/// Whether no aggregate stands in a clause, if there is one.
fn clause_is_plain(clause: &Option<Cond<usize>>) -> bool
    ensures { result ≡ option_map_or is_plain (option_map form_of clause.now) true }
{
    match clause {
        Some(condition) => is_plain(condition),
        None => true,
    }
}

/// Whether no aggregate stands in WHERE or in a FILTER.
pub(crate) fn are_plain(parts: &Parts) -> bool
    ensures { result ≡ are_plain (written_of_parts parts.now) }
{
    items_everywhere(&parts.items, &PlainFilters)
        && clause_everywhere(&parts.condition, &PlainFilters)
        && clause_everywhere(&parts.having, &PlainFilters)
        && clause_is_plain(&parts.condition)
}

/// Whether the arguments and the FILTER of an item have kinds that fit.
fn item_fits(kinds: &[ValueKind], item: &Item<usize>) -> bool
    ensures { result ≡ operands_fit (kinds_of kinds.now) (item_form item.now) }
{
    match item {
        Item::Column(_) => true,
        Item::Call(call) => call_fits(kinds, call),
    }
}

/// Whether the arguments and FILTERs of all items have kinds that fit.
fn items_fit(kinds: &[ValueKind], items: &[(Item<usize>, Option<String>)]) -> bool
    ensures { result ≡ list_all (λ item. operands_fit (kinds_of kinds.now) item.0) (places_of items.now) }
{
    items.iter().all(|item| item_fits(kinds, &item.0))
}

/// Whether a clause, if there is one, has operands and arguments whose kinds fit.
fn clause_fits(kinds: &[ValueKind], clause: &Option<Cond<usize>>) -> bool
    ensures { result ≡
        option_map_or (condition_fits (kinds_of kinds.now)) (option_map form_of clause.now) true }
{
    match clause {
        Some(condition) => condition_fits(kinds, condition),
        None => true,
    }
}

/// Whether all operands and arguments of a query over the columns of a schema have kinds that fit.
pub(crate) fn kinds_fit_in(schema: &Schema, parts: &Parts) -> bool
    ensures { result ≡ kinds_fit (kinds schema.now) (written_of_parts parts.now) }
{
    kinds_fit(schema.kinds(), parts)
}

/// Whether all operands and arguments of a query over columns of these kinds have kinds that fit.
fn kinds_fit(kinds: &[ValueKind], parts: &Parts) -> bool
    ensures { result ≡ kinds_fit (kinds_of kinds.now) (written_of_parts parts.now) }
{
    items_fit(kinds, &parts.items)
        && clause_fits(kinds, &parts.condition)
        && clause_fits(kinds, &parts.having)
}

/// Whether an item is a call or a key.
#[tactic(auto, using(crate::proofs::ReadLaws::call_is_grouped))]
fn item_is_grouped(keys: &[usize], item: &Item<usize>) -> bool
    ensures { result ≡ is_grouped_by keys.now (item_form item.now) }
{
    match item {
        Item::Column(place) => keys.contains(place),
        Item::Call(_) => true,
    }
}

/// Whether all items are calls or keys.
fn items_are_grouped(keys: &[usize], items: &[(Item<usize>, Option<String>)]) -> bool
    ensures { result ≡ list_all (λ item. is_grouped_by keys.now item.0) (places_of items.now) }
{
    items.iter().all(|item| item_is_grouped(keys, &item.0))
}

/// Whether the columns of a clause, if there is one, that stand outside calls are keys.
fn clause_is_grouped(keys: &[usize], clause: &Option<Cond<usize>>) -> bool
    ensures { result ≡
        option_map_or (is_grouped_by keys.now) (option_map form_of clause.now) true }
{
    match clause {
        Some(condition) => is_grouped_by(keys, condition),
        None => true,
    }
}

/// Whether the columns of items and of HAVING that stand outside calls are keys.
pub(crate) fn is_grouped(parts: &Parts) -> bool
    ensures { result ≡ is_grouped (written_of_parts parts.now) }
{
    items_are_grouped(&parts.keys, &parts.items) && clause_is_grouped(&parts.keys, &parts.having)
}
