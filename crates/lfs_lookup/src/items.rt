// The entries of one pair.

ghost use Rattle.std.specs.Prelude.{◌≡◌, ◌++◌, IfOk, IfErr, OnOk, map};
ghost use Rattle.std.specs.Option.{option_map};
ghost use Rattle.lfs_model.specs.format.Slots.{PairContent as ModelContent};
ghost use Rattle.lfs_model.specs.format.Content.{decoded_struct};
ghost use Rattle.lfs_model.specs.layers.LoggedContent.{IsWellFormedSlot, AreWellFormed, IsNameOrStruct};
ghost use Rattle.lfs_thread.specs.CachedLog.{IsContentLog};
ghost use Rattle.lfs_tag.specs.ContentView.{part_view, slot_view};
ghost use Rattle.lfs_lookup.specs.ByName.{AreSortedShorterFirst};
ghost use Rattle.lfs_lookup.specs.Items.{item_view, items_view, optional_entry_list, visible_slot_entries, raw_entries, raw_entry, owned_view, slots_except};

use lfs_device::Error;
use lfs_tag::{Content, Log, NameOrStruct, Slot, Struct};
use std::alloc::{AllocError, Global};

/// The decoded struct of an entry (SPEC.md of littlefs, "0x2xx LFS_TYPE_STRUCT"): a file's
/// contents, or a directory's first pair.
#[derive(Drop)]
pub enum OwnedStruct {
    /// A copy of a file's inline bytes.
    Inline(Vec<u8>),
    /// The CTZ skip-list of a file: the number of its last block, and its size in bytes.
    Ctz { head: u32, size: u32 },
    /// The address of a directory's first pair.
    Branch([u32; 2]),
}

/// An entry of a directory.
#[derive(Drop)]
pub struct NameAndOwnedStruct {
    /// The bytes of the entry's name.
    pub name: Vec<u8>,
    /// The entry's struct.
    pub structure: OwnedStruct,
}

/// Decodes a slot's struct, and copies the inline bytes of a file.
pub fn owned_struct(alloc: Global, part: &NameOrStruct<'_>) -> Result<OwnedStruct, AllocError>
    requires { IsNameOrStruct 2 (part_view part.now) }
    ensures { IfOk result (λ s. owned_view s ≡ decoded_struct part.now.kind part.now.bytes.now) }
{
    match Struct::of(part).unwrap() {
        Struct::Inline(bytes) => {
            let bytes = Vec::from_slice(alloc, bytes)?;
            Ok(OwnedStruct::Inline(bytes))
        }
        Struct::Ctz { head, size } => Ok(OwnedStruct::Ctz { head, size }),
        Struct::Branch(pair) => Ok(OwnedStruct::Branch(pair)),
    }
}

// Returns the entry of a slot. Returns None for the superblock's slot, and for a slot that lacks a
// name or a struct.
fn item_of_slot(alloc: Global, slot: &Slot<'_>) -> Result<Option<NameAndOwnedStruct>, AllocError>
    requires { IsWellFormedSlot (slot_view slot.now) }
    ensures { IfOk result (λ item. option_map item_view item ≡ raw_entry (slot_view slot.now)) }
{
    let (Some(name), Some(part)) = (slot.name, slot.structure) else {
        return Ok(None);
    };
    if slot.is_superblock() {
        return Ok(None);
    }
    let structure = owned_struct(alloc, &part)?;
    let name = Vec::from_slice(alloc, name.bytes)?;
    Ok(Some(NameAndOwnedStruct { name, structure }))
}

// Appends the entry of a slot to `items` if the slot has one.
fn push_slot_item(
    alloc: Global,
    items: &mut Vec<NameAndOwnedStruct>,
    slot: &Slot<'_>,
) -> Result<(), AllocError>
    requires { IsWellFormedSlot (slot_view slot.now) }
    ensures { OnOk result (items_view items.new.items ≡ items_view items.old.items ++ optional_entry_list (raw_entry (slot_view slot.now))) }
{
    if let Some(item) = item_of_slot(alloc, slot)? {
        items.push(item)?;
    }
    Ok(())
}

// Returns the entries of the slots.
fn items_of_slots(alloc: Global, slots: &[Slot<'_>]) -> Result<Vec<NameAndOwnedStruct>, AllocError>
    requires { AreWellFormed (map slot_view slots.now) }
    ensures { IfOk result (λ items. items_view items.items ≡ raw_entries (map slot_view slots.now)) }
{
    let mut items = Vec::new(alloc);
    for slot in slots {
        push_slot_item(alloc, &mut items, slot)?;
    }
    Ok(items)
}

// Removes the slot with the id `moved`, if there is one.
fn remove_moved_slot(slots: &mut Vec<Slot<'_>>, moved: Option<usize>)
    ensures { map slot_view slots.new.items ≡ slots_except moved (map slot_view slots.old.items) }
{
    if let Some(id) = moved {
        if id < slots.len() {
            slots.remove(id);
        }
    }
}

// Returns the entries in a pair's log, without the slot with the id `moved`.
pub(crate) fn items_in_log(
    alloc: Global,
    log: &Log<'_>,
    moved: Option<usize>,
) -> Result<Vec<NameAndOwnedStruct>, Error>
    requires { (content : ModelContent) × IsContentLog log.now content }
    ensures items { (content : ModelContent) → IsContentLog log.now content → IfOk result (λ items. items_view items.items ≡ visible_slot_entries moved content.slots) }
    ensures errors { IfErr result (λ e. e ≡ Error.NoMemory) }
{
    let mut content = Content::read(alloc, log)?;
    remove_moved_slot(&mut content.slots, moved);
    let items = items_of_slots(alloc, &content.slots)?;
    Ok(items)
}

// Sorts entries by name. A name that is a prefix of another comes first.
pub(crate) fn sort_shorter_first(items: &mut Vec<NameAndOwnedStruct>)
    ensures { AreSortedShorterFirst (items_view items.old.items) (items_view items.new.items) }
{
    items.sort_unstable_by(|a, b| a.name.cmp(&b.name));
}
