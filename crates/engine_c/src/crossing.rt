//! Slots go from thread to thread.

ghost use denote.Param.Send.{IsSend};
ghost use Rattle.engine_c.specs.contracts.slot.Slot as a_slot;

use crate::slot::Slot;

/// What may go to another thread.
fn crosses<T: Send>()
    ensures { IsSend T.row }
{}

/// A slot may go from one thread to another, and all that it holds goes with it.
pub fn slots_cross()
    ensures { IsSend a_slot.the_row }
{
    crosses::<Slot>();
}
