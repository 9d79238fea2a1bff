//! The states of one group.

ghost use Rattle.std.specs.Prelude.{◌≡◌, ◌≤◌, IfOk, OnOk, OnErr};
ghost use Rattle.agg_protocol.specs.States.{most_rows};
ghost use Rattle.agg_protocol.specs.Kinds.{functions_of};
ghost use Rattle.agg_library.specs.StateRows.{initial_partials};
ghost use Rattle.group_runs.specs.Standing.{AreStates};
ghost use Rattle.group_runs.specs.Steps.{HaveRoomWithin, AreCombined, HaveRoomForMore, CombineWith};

use agg_library::{AggKind, MAX_COUNTED, StateRow};
use agg_protocol::BadState;
use std::alloc::{AllocError, Global};

/// The bytes of a group's states before any row, of these functions. The only error is a failed allocation.
pub fn initial_states(alloc: Global, kinds: &[AggKind]) -> Result<Vec<u8>, AllocError>
    ensures { IfOk result (λ states. AreStates (functions_of kinds.now) 0 states.items (initial_partials kinds.now)) }
{
    // A sum of widths could overflow. The length of a vector cannot.
    let mut states = Vec::new(alloc);
    for kind in kinds {
        states.resize(states.len() + kind.width(), 0)?;
    }
    StateRow::init_into(kinds, states.as_mut_slice());
    Ok(states)
}

/// Combines the states of a group with others of its key, which come after. The error is `BadState` if either are not
/// states of these functions, or if they would then count more than `most` rows. Then the states are unchanged.
pub fn combine_within(
    kinds: &[AggKind],
    states: &mut [u8],
    more: &[u8],
    most: u64,
) -> Result<(), BadState>
    requires most { most ≤ most_rows }
    ensures combined { OnOk result (AreCombined (functions_of kinds.now) most states.old more.now states.new) }
    ensures refused { OnErr result (¬ HaveRoomWithin (functions_of kinds.now) most states.old more.now) }
    ensures unchanged { OnErr result (states.new ≡ states.old) }
{
    StateRow::combine_into(kinds, states, more, most)
}

/// Combines the states of a group with others of its key, which come after.
pub(crate) fn combine_slice(kinds: &[AggKind], states: &mut [u8], more: &[u8])
    requires { HaveRoomForMore (functions_of kinds.now) states.old more.now }
    ensures { CombineWith (functions_of kinds.now) states.old more.now states.new }
{
    combine_within(kinds, states, more, MAX_COUNTED).unwrap();
}
