//! The texts that are kept of a query.

ghost use Rattle.std.specs.Prelude.{◌≡◌, map, option_map, IfOk, string_bytes};
ghost use Rattle.query_checks.specs.Forms.{names_of, item_form, items_of};
ghost use Rattle.having_filter.specs.Kept.{label_of};

use query_checks::{Item, label};
use std::alloc::{AllocError, Global};

/// The texts that are kept of a query.
#[derive(Drop)]
pub(crate) struct Texts {
    /// Its canonical text.
    pub(crate) query: String,
    /// The names of the answer's columns.
    pub(crate) labels: Vec<String>,
    /// The text of its schema.
    pub(crate) schema: String,
}

/// The name of an item's column in the answer.
fn label_of(alloc: Global, item: &(Item<String>, Option<String>)) -> Result<String, AllocError>
    ensures { IfOk result (λ label. string_bytes label ≡ label_of
        (names_of (item_form item.now.0), option_map string_bytes item.now.1)) }
{
    String::from_str(alloc, label(item))
}

/// The names of the answer's columns.
pub(crate) fn labels_of(
    alloc: Global,
    items: &[(Item<String>, Option<String>)],
) -> Result<Vec<String>, AllocError>
    ensures { IfOk result (λ labels. map string_bytes labels.items
        ≡ map label_of (items_of items.now)) }
{
    let mut labels = Vec::with_capacity(alloc, items.len())?;
    for item in items {
        labels.push(label_of(alloc, item)?)?;
    }
    Ok(labels)
}
