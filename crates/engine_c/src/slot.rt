//! Slots: what C holds between calls.

ghost use Rattle.std.specs.Prelude.{◌≡◌, None, Some, is_some, IfOk, OnOk, OnErr, IfSome, IfNone};
ghost use Rattle.engine_c.specs.Exports.{kept_by};

use crate::handle::Handle;
use crate::parts::Parts;
use engine_calls::Kept;
use std::alloc::{AllocError, Global};
use std::mem::replace;

/// What C holds between calls; `{0}` at first.
#[repr(C)]
#[derive(Drop)]
pub struct Slot {
    full: bool,
    pub(crate) handle: Handle,
    ghost tied: { full ≡ is_some handle.kept },
}

/// An empty slot.
pub(crate) fn empty(alloc: Global) -> Slot
    ensures { result.handle.kept ≡ None }
{
    Slot {
        full: false,
        handle: Handle::none(alloc),
    }
}

/// A slot that holds a box.
pub(crate) fn filled(kept: Box<Kept>) -> Slot
    ensures { result.handle.kept ≡ Some kept.value }
{
    Slot {
        full: true,
        handle: Handle::of_parts(Parts::of(kept)),
    }
}

/// The box of a slot, if it has one. The slot is empty afterwards.
pub(crate) fn taken(alloc: Global, slot: &mut Slot) -> Option<Box<Kept>>
    ensures emptied { slot.new.handle.kept ≡ None }
    ensures some { IfSome result (λ kept. slot.old.handle.kept ≡ Some kept.value) }
    ensures none { IfNone result (slot.old.handle.kept ≡ None) }
{
    let whole = replace(slot, empty(alloc));
    if whole.full {
        Some(whole.handle.into_parts().into_box())
    } else {
        None
    }
}

/// The box of a slot, or a new empty one. The slot is empty afterwards.
pub(crate) fn taken_or_new(alloc: Global, slot: &mut Slot) -> Result<Box<Kept>, AllocError>
    ensures emptied { slot.new.handle.kept ≡ None }
    ensures kept { IfOk result (λ kept. kept.value ≡ kept_by slot.old.handle.kept) }
    ensures none { OnErr result (slot.old.handle.kept ≡ None) }
{
    match taken(alloc, slot) {
        Some(kept) => Ok(kept),
        None => match Box::new(alloc, Kept::new(alloc)) {
            Ok(kept) => Ok(kept),
            Err(_) => Err(AllocError),
        },
    }
}
