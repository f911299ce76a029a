// The kind of a slot, as the type of its name determines it.

ghost use Rattle.std.specs.Prelude.{◌≡◌, Some};
ghost use Rattle.lfs_model.specs.format.Content.{decoded_slot, kind_of_type};
ghost use Rattle.lfs_model.specs.format.Slots.{Slot as ModelSlot, is_superblock, is_superblock_kind};
ghost use Rattle.lfs_tag.specs.ContentView.{slot_view};
ghost use Rattle.lfs_tag.specs.KindView.{name_kind_view, is_superblock_name};

use crate::content::{NameOrStruct, Slot};
use crate::kinds::{DIRECTORY_NAME, FILE_NAME};

/// The kind of a slot, which the type of its name determines (SPEC.md of littlefs, "0x0xx
/// LFS_TYPE_NAME").
#[derive(Clone, Copy, Debug, PartialEq, Eq, Drop)]
pub enum SlotNameKind {
    File,
    Directory,
    /// The superblock, or any other type of name.
    Superblock,
}

impl SlotNameKind {
    /// Returns the kind of a slot whose name is `name`.
    pub fn of(name: &NameOrStruct<'_>) -> SlotNameKind
        ensures { name_kind_view result ≡ kind_of_type name.now.kind }
    {
        match name.kind {
            FILE_NAME => SlotNameKind::File,
            DIRECTORY_NAME => SlotNameKind::Directory,
            _ => SlotNameKind::Superblock,
        }
    }

    /// Returns whether the kind is `Superblock`.
    pub fn is_superblock(self) -> bool
        ensures { result ≡ is_superblock_kind (name_kind_view self) }
    {
        match self {
            SlotNameKind::Superblock => true,
            SlotNameKind::File => false,
            SlotNameKind::Directory => false,
        }
    }
}

impl Slot<'_> {
    /// Returns whether the slot is the superblock's, whose name is neither a file's nor a
    /// directory's.
    pub fn is_superblock(&self) -> bool
        ensures named { result ≡ is_superblock_name (slot_view self.now).name }
        ensures complete { (s : ModelSlot) → decoded_slot (slot_view self.now) ≡ Some s → result ≡ is_superblock s }
    {
        match self.name {
            Some(name) => SlotNameKind::of(&name).is_superblock(),
            None => false,
        }
    }
}
