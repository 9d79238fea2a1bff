//! The contexts of a table.
ghost use Rattle.std.specs.Prelude.{◌≡◌, ◌<◌, ◌≤◌, true, IfOk, IfErr, OnErr};
ghost use Rattle.context_tree.specs.Tree.{is_there, deleted};
ghost use Rattle.group_table.specs.Children.{AreMade, AreNew, IsRefused, IsRefusedOf, IsAsBefore, IsSameBySlot};

use crate::limits::LONGEST;
use context_tree::{ContextId, Kind, Tree, TreeError};

/// The three contexts of a table.
#[derive(Clone, Copy)]
pub(crate) struct Children {
    pub(crate) buckets: ContextId,
    pub(crate) keys: ContextId,
    pub(crate) states: ContextId,
}

/// Makes the contexts of a table below another: an `AllocSet`, a `Bump`, and a `Slab` of chunks of `width` bytes.
///
/// The errors are `StampsSpent` if fewer than three stamps are left, and `NoMemory`. After an error none of the three
/// contexts is left, though stamps may be spent.
pub(crate) fn make_children(
    tree: &mut Tree,
    parent: ContextId,
    width: u32,
) -> Result<Children, TreeError>
    requires there { is_there tree.old parent ≡ true }
    requires width { width ≤ LONGEST }
    ensures made { IfOk result (AreMade tree.old tree.new parent width) }
    ensures refused { IfErr result (IsRefused tree.old) }
    ensures as_before { OnErr result (IsAsBefore tree.old tree.new) }
{
    tree.is_whole();
    let buckets = tree.create(parent, Kind::AllocSet)?;
    tree.is_whole();
    match make_keys_and_states(tree, parent, width) {
        Ok((keys, states)) => Ok(Children {
            buckets,
            keys,
            states,
        }),
        Err(error) => {
            take_back(tree, buckets);
            Err(error)
        }
    }
}

/// Makes the contexts of the keys and of the states of a table. Neither is left if one is refused.
fn make_keys_and_states(
    tree: &mut Tree,
    parent: ContextId,
    width: u32,
) -> Result<(ContextId, ContextId), TreeError>
    requires there { is_there tree.old parent ≡ true }
    requires width { width ≤ LONGEST }
    ensures made { IfOk result (λ made. AreNew tree.old tree.new parent width made.0 made.1) }
    ensures refused { IfErr result (IsRefusedOf 2 tree.old) }
    ensures same { OnErr result (IsSameBySlot tree.old tree.new) }
{
    tree.is_whole();
    let keys = tree.create(parent, Kind::Bump)?;
    tree.is_whole();
    match tree.create(parent, Kind::Slab(width)) {
        Ok(states) => {
            tree.is_whole();
            Ok((keys, states))
        }
        Err(error) => {
            take_back(tree, keys);
            Err(error)
        }
    }
}

/// Deletes a context that is not the root.
fn take_back(tree: &mut Tree, id: ContextId)
    requires there { is_there tree.old id ≡ true }
    requires below { 0 < id.slot }
    ensures { tree.new ≡ deleted tree.old id }
{
    tree.delete(id).unwrap()
}
