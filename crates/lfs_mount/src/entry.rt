// The entry in a slot of a directory.

ghost use Rattle.std.specs.Prelude.{ℕ, ◌≡◌, ◌≤◌, is_some, length, map};
ghost use Rattle.std.specs.Option.{option_map};
ghost use Rattle.lfs_tag.specs.ContentView.{part_view, slot_view};
ghost use Rattle.lfs_tag.specs.StructView.{struct_view};
ghost use Rattle.lfs_mount.specs.DirectoryEntries.{IsNoEntryAt, raw_slot_entry, raw_reference, struct_reference};
ghost use Rattle.lfs_mount.specs.EntryView.{entry_view};

use lfs_tag::{NameOrStruct, Slot, SlotNameKind, Struct, is_name};

// An entry of a directory: its name and its struct.
#[derive(Clone, Copy, Drop)]
pub(crate) struct NamedStruct<'a> {
    pub name: &'a [u8],
    pub target: Struct<'a>,
}

// Returns the decoded struct if its type fits the type of the name.
fn struct_matching_name<'a>(
    name: &NameOrStruct<'_>,
    structure: &NameOrStruct<'a>,
) -> Option<Struct<'a>>
    ensures { option_map (λ s. struct_reference (struct_view s)) result ≡ raw_reference name.now.kind (part_view structure.now) }
{
    let Some(target) = Struct::of(structure) else {
        return None;
    };
    match (SlotNameKind::of(name), target) {
        (SlotNameKind::File, Struct::Inline(_)) => Some(target),
        (SlotNameKind::File, Struct::Ctz { .. }) => Some(target),
        (SlotNameKind::Directory, Struct::Branch(_)) => Some(target),
        _ => None,
    }
}

// Returns the entry in a slot of a directory (SPEC.md of littlefs, "Metadata types"). Returns None
// if and only if the slot lacks a name that a directory may have, or a struct that fits the type of
// the name.
pub(crate) fn slot_named_struct<'a>(slot: &Slot<'a>) -> Option<NamedStruct<'a>>
    ensures { option_map entry_view result ≡ raw_slot_entry (slot_view slot.now) }
{
    let (Some(name), Some(structure)) = (slot.name, slot.structure) else {
        return None;
    };
    if !is_name(name.bytes) {
        return None;
    }
    match struct_matching_name(&name, &structure) {
        Some(target) => Some(NamedStruct {
            name: name.bytes,
            target,
        }),
        None => None,
    }
}

pub(crate) fn is_file_or_directory(slot: &Slot<'_>) -> bool
    ensures { result ≡ is_some (raw_slot_entry (slot_view slot.now)) }
{
    slot_named_struct(slot).is_some()
}

// Returns the index of the first slot that has no valid entry. Returns the number of slots if all
// of them have valid entries.
pub(crate) fn first_invalid_slot(slots: &[Slot<'_>]) -> usize
    ensures holds { (other : ℕ) → IsNoEntryAt (map slot_view slots.now) other → IsNoEntryAt (map slot_view slots.now) result }
    ensures within { result ≤ length slots.now }
{
    for index in 0..slots.len() {
        if !is_file_or_directory(&slots[index]) {
            return index;
        }
    }
    slots.len()
}
