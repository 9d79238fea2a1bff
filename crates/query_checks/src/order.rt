//! ORDER BY: its terms, and the items that they mean.

ghost use Rattle.std.specs.Prelude.{◌≡◌, ◌&&◌, not, find, option_map, position, IfOk};
ghost use Rattle.std.specs.List.{list_any};
ghost use Rattle.std.specs.Str.{bytes_eq};
ghost use Rattle.std.specs.Option.{option_map_or};
ghost use Rattle.query_checks.specs.Forms.{item_form, names_of, item_of, items_of};
ghost use Rattle.query_checks.specs.Labels.{label_of};
ghost use Rattle.query_checks.specs.Sameness.{form_eq};
ghost use Rattle.query_checks.specs.Order.{target_of, term_of, By_name, has_name, item_at, item_meant, is_ambiguous, term_meant};
ghost use Rattle.query_checks.specs.Order.{order_of, names_items, is_ambiguously_ordered};
ghost use Rattle.query_checks.specs.Arrangement.{asked_of};

use crate::condition::{Item, RawQuery};
use crate::distinct::{Same, push_once};
use crate::same::is_same_item;
use crate::spelling::{kept_alias, own_name};
use std::alloc::{AllocError, Global};

/// What a term of ORDER BY names.
#[derive(Drop)]
pub enum OrderBy {
    /// An item by its name: its alias, or else that of its column or function.
    Name(String),
    /// An item by its place, the first being 1.
    Place(i64),
}

/// A term of ORDER BY before it is checked.
#[derive(Drop)]
pub struct RawTerm {
    pub target: OrderBy,
    pub descending: bool,
    /// Whether nulls come first, if the term has NULLS.
    pub nulls_first: Option<bool>,
}

/// A term of ORDER BY over the items of a query, the first being 0.
#[derive(Clone, Copy, Debug, PartialEq, Eq)]
pub struct OrderTerm {
    pub item: usize,
    pub descending: bool,
    pub nulls_first: bool,
}

impl Same for OrderTerm {
    ghost use Rattle.query_checks.specs.Sameness.{form_eq};
    ghost use Rattle.query_checks.specs.Order.{same_item};

    ghost same = { same_item };

    fn is_same(&self, other: &OrderTerm) -> bool {
        self.item == other.item
    }
}

/// The name of an item's column in the answer.
pub fn label(item: &(Item<String>, Option<String>)) -> &str
    ensures { result.now ≡ label_of (item_of item.now) }
{
    let own = own_name(&item.0);
    kept_alias(own, &item.1).unwrap_or(own)
}

/// Whether this is an item's name.
fn has_name(name: &str, item: &(Item<String>, Option<String>)) -> bool
    ensures { result ≡ has_name name.now (item_of item.now) }
{
    name == label(item)
}

/// The leftmost item of a name, by its place among the items.
fn place_of_name(items: &[(Item<String>, Option<String>)], name: &str) -> Option<usize>
    ensures { result ≡ position (λ item. has_name name.now (item_of item)) items.now }
{
    items.iter().position(|item| has_name(name, item))
}

/// The item at a place of this many, the first place being 1.
fn item_at(many: usize, place: i64) -> Option<usize>
    ensures { result ≡ item_at many place }
{
    if place < 1 {
        return None;
    }
    let place = place as usize;
    if place > many {
        return None;
    }
    Some(place - 1)
}

/// The item that a term means.
fn item_meant(items: &[(Item<String>, Option<String>)], target: &OrderBy) -> Option<usize>
    ensures { result ≡ item_meant (items_of items.now) (target_of target.now) }
{
    match target {
        OrderBy::Name(name) => place_of_name(items, name.as_str()),
        OrderBy::Place(place) => item_at(items.len(), *place),
    }
}

/// Whether an item has a name and isn't the same column or call as another item.
#[tactic(auto, using(crate::proofs::CountLaws::same_names))]
fn is_unlike(name: &str, other: &Item<String>, item: &(Item<String>, Option<String>)) -> bool
    ensures { result ≡ (has_name name.now (item_of item.now)
        && not (form_eq bytes_eq (names_of (item_form other.now)) (item_of item.now).0)) }
{
    has_name(name, item) && !is_same_item(other, &item.0)
}

/// Whether one of some items has a name and isn't the same column or call as another item.
fn has_unlike(items: &[(Item<String>, Option<String>)], name: &str, other: &Item<String>) -> bool
    ensures { result ≡ list_any (λ item. has_name name.now (item_of item)
        && not (form_eq bytes_eq (names_of (item_form other.now)) (item_of item).0)) items.now }
{
    items.iter().any(|item| is_unlike(name, other, item))
}

/// The leftmost item of a name.
fn item_of_name<'a>(
    items: &'a [(Item<String>, Option<String>)],
    name: &str,
) -> Option<&'a (Item<String>, Option<String>)>
    ensures { option_map (λ item. item.now) result
        ≡ find (λ item. has_name name.now (item_of item)) items.now }
{
    items.iter().find(|item| has_name(name, *item))
}

/// Whether two items of one name aren't the same column or call. Then one of them differs from the leftmost item of that name.
fn is_ambiguous_name(items: &[(Item<String>, Option<String>)], name: &str) -> bool
    ensures { result ≡ is_ambiguous (items_of items.now) (By_name name.now) }
{
    match item_of_name(items, name) {
        Some(leftmost) => has_unlike(items, name, &leftmost.0),
        None => false,
    }
}

/// Whether two items have the name that a term names and aren't the same column or call.
fn is_ambiguous(items: &[(Item<String>, Option<String>)], target: &OrderBy) -> bool
    ensures { result ≡ is_ambiguous (items_of items.now) (target_of target.now) }
{
    match target {
        OrderBy::Name(name) => is_ambiguous_name(items, name.as_str()),
        OrderBy::Place(_) => false,
    }
}

/// A term over the items, if it means exactly one. Unless it says otherwise, nulls come first if it is descending, and else last.
fn term_meant(items: &[(Item<String>, Option<String>)], term: &RawTerm) -> Option<OrderTerm>
    ensures { result ≡ term_meant (items_of items.now) (term_of term.now) }
{
    if is_ambiguous(items, &term.target) {
        return None;
    }
    match item_meant(items, &term.target) {
        Some(item) => Some(OrderTerm {
            item,
            descending: term.descending,
            nulls_first: term.nulls_first.unwrap_or(term.descending),
        }),
        None => None,
    }
}

/// The order of a query's answer: its terms that mean exactly one item, each unless one before it orders by this item.
pub(crate) fn order_of(alloc: Global, raw: &RawQuery) -> Result<Vec<OrderTerm>, AllocError>
    ensures { IfOk result (λ order. order.items ≡ order_of (asked_of raw.now)) }
{
    let mut order = Vec::new(alloc);
    for term in &raw.order {
        if let Some(found) = term_meant(&raw.items, term) {
            push_once(&mut order, found)?;
        }
    }
    Ok(order)
}

/// Whether each term of ORDER BY names an item.
pub(crate) fn names_items(raw: &RawQuery) -> bool
    ensures { result ≡ names_items (asked_of raw.now) }
{
    raw.order
        .iter()
        .all(|term| item_meant(&raw.items, &term.target).is_some())
}

/// Whether a term of ORDER BY names two items that aren't the same column or call.
pub(crate) fn is_ambiguously_ordered(raw: &RawQuery) -> bool
    ensures { result ≡ is_ambiguously_ordered (asked_of raw.now) }
{
    raw.order
        .iter()
        .any(|term| is_ambiguous(&raw.items, &term.target))
}
