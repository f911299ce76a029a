// A volume as C keeps it.

ghost use Rattle.std.specs.Prelude.{◌≡◌, Option, None, Some, option_map};
ghost use Rattle.littlefs_c.specs.HandleSlots.{mounted_count};

use crate::mounted::Mounted;
use crate::slot::Slot;
use littlefs_values::Parts;
use std::alloc::Global;
use std::mem::replace;
use std::ptr::null_mut;

/// The struct that C keeps for a volume. The struct is all zeros while nothing is mounted, and may
/// be sent to another thread.
#[repr(C)]
pub struct Handle {
    pub slot: Slot,
    pub is_open: u64,
    ghost agrees: { is_open ≡ mounted_count slot.mounted },
}

impl Handle {
    fn opened(b: Box<Mounted, Global>) -> Handle
        ensures { result.slot.mounted ≡ Some b.value }
    {
        Handle {
            slot: Slot::of_parts(Parts::of(b)),
            is_open: 1,
        }
    }

    // Returns the handle's mounted image, or None if nothing is mounted.
    fn into_mounted(self) -> Option<Box<Mounted, Global>>
        ensures { option_map (λ b. b.value) result ≡ self.slot.mounted }
    {
        let Handle { slot, is_open } = self;
        if is_open == 0 {
            slot.let_go();
            return None;
        }
        Some(slot.into_parts().into_box())
    }
}

impl Drop for Handle {
    fn drop(self) {
        drop(self.into_mounted());
    }
}

// A function of its own, because the checker can't plan a call of `null_mut` in a function that
// builds structs.
fn null() -> *mut u8 {
    null_mut()
}

// Takes the mounted image out of a handle, which is then empty. Returns None if the handle was
// already empty.
pub(crate) fn take_volume(alloc: Global, handle: &mut Handle) -> Option<Box<Mounted, Global>>
    ensures taken { option_map (λ b. b.value) result ≡ handle.old.slot.mounted }
    ensures left { handle.new.slot.mounted ≡ None }
{
    let slot = Slot::empty(null(), alloc);
    replace(handle, Handle { slot, is_open: 0 }).into_mounted()
}

// Puts a mounted image into a handle, and unmounts the image that was there.
pub(crate) fn put_volume(handle: &mut Handle, b: Box<Mounted, Global>)
    ensures { handle.new.slot.mounted ≡ Some b.value }
{
    *handle = Handle::opened(b);
}
