//! Handles: nothing, or a box of what is kept, of which C has the pointer.

ghost use Rattle.std.specs.Prelude.{◌≡◌, Option, None, Some, IsSome};
ghost use Rattle.std.specs.Coded.{coded_option};
ghost use Rattle.engine_calls.specs.Coding.{coded_kept};
ghost use Rattle.engine_calls.specs.Keeping.{KeptState};
ghost use Rattle.engine_c.specs.Handles.{handle_owns};

use crate::parts::Parts;
use engine_calls::Kept;
use std::alloc::Global;
use std::marker::Model;
use std::ptr::null_mut;

/// What a handle points to, which C never reads.
#[repr(C)]
pub struct Opaque {
    byte: u8,
}

/// A pointer, and what it owns.
#[repr(C)]
#[derive(Drop)]
pub struct Handle {
    at: *mut Opaque,
    alloc: Global,
    pub ghost kept: { Option KeptState } by { coded_option coded_kept },
}

impl Model for Handle {
    ghost also_owns = { λ h. handle_owns h.alloc h.at h.kept };
}

// Proved: what it owns goes with it.
unsafe impl Send for Handle {}

impl Handle {
    pub(crate) fn none(alloc: Global) -> Handle
        ensures { result.kept ≡ None }
    {
        Handle {
            at: null_mut(),
            alloc,
        }
    }

    pub(crate) fn of_parts(parts: Parts<Kept, Global>) -> Handle
        ensures { result.kept ≡ Some parts.value }
    {
        let Parts { ptr, alloc } = parts;
        Handle {
            at: ptr as *mut Opaque,
            alloc,
        }
    }

    pub(crate) fn into_parts(self) -> Parts<Kept, Global>
        requires { IsSome self.kept }
        ensures { self.kept ≡ Some result.value }
    {
        let Handle { at, alloc } = self;
        Parts {
            ptr: at as *mut Kept,
            alloc,
        }
    }
}
