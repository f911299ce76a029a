// An owning pointer to a mounted image, or none, in a struct that C may hold.

ghost use Rattle.std.specs.Prelude.{◌≡◌, Option, None, Some, IsSome};
ghost use Rattle.littlefs_c.specs.HandleSlots.{handle_owns};
ghost use Rattle.littlefs_c.specs.declared.mounted.Mounted.{Mounted};

use crate::mounted::Mounted;
use littlefs_values::Parts;
use std::alloc::Global;
use std::marker::Model;

/// An owning pointer to a mounted image, or a pointer to nothing. The `alloc` field has no size.
#[repr(C)]
pub struct Slot {
    at: *mut u8,
    alloc: Global,
    pub ghost mounted: { Option Mounted },
}

impl Model for Slot {
    ghost also_owns = { λ s. handle_owns s.alloc s.at s.mounted };
}

unsafe impl Send for Slot {}

impl Slot {
    pub fn empty(at: *mut u8, alloc: Global) -> Slot
        ensures { result.mounted ≡ None }
    {
        Slot { at, alloc }
    }

    pub fn of_parts(parts: Parts<Mounted, Global>) -> Slot
        ensures { result.mounted ≡ Some parts.value }
    {
        let Parts { ptr, alloc } = parts;
        Slot {
            at: ptr as *mut u8,
            alloc,
        }
    }

    pub fn into_parts(self) -> Parts<Mounted, Global>
        requires { IsSome self.mounted }
        ensures { self.mounted ≡ Some result.value }
    {
        let Slot { at, alloc } = self;
        Parts {
            ptr: at as *mut Mounted,
            alloc,
        }
    }

    pub fn let_go(self)
        requires { self.mounted ≡ None }
    {
        let Slot { at: _, alloc: _ } = self;
    }
}
