// Copies of slots, which are written to another id or pair.

ghost use Rattle.std.specs.Prelude.{◌≡◌, ◌<◌, ◌++◌, Some, IfErr, IfOk, IsSome, OnOk, false, length, map};
ghost use Rattle.lfs_model.specs.format.Content.{RawContent, content_after, empty_raw_content, slot_of_id};
ghost use Rattle.lfs_model.specs.format.Log.{block_entries};
ghost use Rattle.lfs_model.specs.format.Slots.{PairContent as ModelContent};
ghost use Rattle.lfs_pair.specs.ChangeView.{changes_view};
ghost use Rattle.lfs_tag.specs.ContentView.{attribute_view, part_view, slot_view};
ghost use Rattle.lfs_thread.specs.CachedLog.{IsContentLog};
ghost use Rattle.lfs_thread.specs.ThreadSteps.{ThreadReportsErrors, OnlyReadsThread};
ghost use Rattle.lfs_operations.specs.RenamingSlots.{PairHasSlotId, slot_without_name_at};
ghost use Rattle.lfs_model.specs.layers.SlotChanges.{attribute_changes, slot_without_name, slot_creation_changes};
ghost use Rattle.lfs_operations.specs.RenamingView.{attribute_copy_view, slot_copy_view, struct_copy_view};

use lfs_device::{BlockDevice, Error};
use lfs_pair::Change;
use lfs_tag::{Attribute, Content, Log, NameOrStruct, Slot};
use lfs_thread::Thread;
use std::alloc::{AllocError, Global};

// A copy of a struct: its type and its bytes.
#[derive(Drop)]
pub(crate) struct StructCopy {
    kind: u16,
    bytes: Vec<u8>,
}

// A copy of an attribute: its type and its bytes.
#[derive(Drop)]
pub(crate) struct AttributeCopy {
    kind: u8,
    bytes: Vec<u8>,
}

// A copy of a slot without its name.
#[derive(Drop)]
pub(crate) struct SlotCopy {
    name_kind: u16,
    structure: StructCopy,
    attributes: Vec<AttributeCopy>,
}

fn copy_struct(alloc: Global, part: &NameOrStruct<'_>) -> Result<StructCopy, AllocError>
    ensures { IfOk result (λ copy. struct_copy_view copy ≡ part_view part.now) }
{
    let bytes = Vec::from_slice(alloc, part.bytes)?;
    Ok(StructCopy {
        kind: part.kind,
        bytes,
    })
}

fn copy_attribute(alloc: Global, attribute: &Attribute<'_>) -> Result<AttributeCopy, AllocError>
    ensures { IfOk result (λ copy. attribute_copy_view copy ≡ attribute_view attribute.now) }
{
    let bytes = Vec::from_slice(alloc, attribute.bytes)?;
    Ok(AttributeCopy {
        kind: attribute.kind,
        bytes,
    })
}

fn copy_attributes(
    alloc: Global,
    attributes: &[Attribute<'_>],
) -> Result<Vec<AttributeCopy>, AllocError>
    ensures { IfOk result (λ copies. map attribute_copy_view copies.items ≡ map attribute_view attributes.now) }
{
    let mut copies = Vec::new(alloc);
    for attribute in attributes {
        let copy = copy_attribute(alloc, attribute)?;
        copies.push(copy)?;
    }
    Ok(copies)
}

fn copy_slot(alloc: Global, slot: &Slot<'_>) -> Result<SlotCopy, AllocError>
    requires named { IsSome slot.now.name }
    requires structured { IsSome slot.now.structure }
    ensures { IfOk result (λ copy. slot_copy_view copy ≡ slot_without_name (slot_view slot.now)) }
{
    let name_kind = slot.name.unwrap().kind;
    let structure = copy_struct(alloc, &slot.structure.unwrap())?;
    let attributes = copy_attributes(alloc, &slot.attributes)?;
    Ok(SlotCopy {
        name_kind,
        structure,
        attributes,
    })
}

// Copies the slot with id `id` in a log, without the slot's name.
fn copy_log_slot(alloc: Global, log: &Log<'_>, id: u16) -> Result<SlotCopy, Error>
    requires { (content : ModelContent) × (IsContentLog log.now content × (id < length content.slots)) }
    ensures copied { (raw : RawContent) → content_after empty_raw_content (block_entries log.now) ≡ Some raw → IfOk result (λ copy. slot_copy_view copy ≡ slot_without_name (slot_of_id raw.slots id)) }
    ensures errors { IfErr result (λ e. e ≡ Error.NoMemory) }
{
    let content = Content::read(alloc, log)?;
    let copy = copy_slot(alloc, &content.slots[usize::from(id)])?;
    Ok(copy)
}

// Copies the slot with id `id` in a pair, without the slot's name. No error makes the thread fail.
pub(crate) fn copy_pair_slot<D: BlockDevice>(
    alloc: Global,
    thread: &mut Thread<D>,
    pair: usize,
    id: u16,
) -> Result<SlotCopy, Error>
    requires works { thread.old.failed ≡ false }
    requires there { PairHasSlotId thread.old.kept pair id }
    ensures copied { IfOk result (λ copy. slot_copy_view copy ≡ slot_without_name_at thread.old.kept pair id) }
    ensures only { OnlyReadsThread thread.old.kept thread.new.kept }
    ensures works { thread.new.failed ≡ false }
    ensures errors { ThreadReportsErrors thread.old.kept thread.new.kept result }
{
    thread.load_pair(pair)?;
    let copy = copy_log_slot(alloc, &thread.lend(pair).unwrap(), id)?;
    Ok(copy)
}

// Appends the changes that create a copied slot with id `id`, under a new name.
pub(crate) fn push_slot_changes<'a>(
    changes: &mut Vec<Change<'a>>,
    id: u16,
    name: &'a [u8],
    copy: &'a SlotCopy,
) -> Result<(), AllocError>
    ensures { OnOk result (changes_view changes.new.items ≡ changes_view changes.old.items ++ slot_creation_changes id name.now (slot_copy_view copy.now)) }
{
    changes.push(Change::Create {
        id,
        kind: copy.name_kind,
        name,
    })?;
    changes.push(Change::Struct {
        id,
        kind: copy.structure.kind,
        bytes: &copy.structure.bytes,
    })?;
    push_attribute_changes(changes, id, &copy.attributes)?;
    Ok(())
}

fn push_attribute_changes<'a>(
    changes: &mut Vec<Change<'a>>,
    id: u16,
    attributes: &'a [AttributeCopy],
) -> Result<(), AllocError>
    ensures { OnOk result (changes_view changes.new.items ≡ changes_view changes.old.items ++ attribute_changes id (map attribute_copy_view attributes.now)) }
{
    for attribute in attributes {
        changes.push(Change::Attr {
            id,
            attr: attribute.kind,
            bytes: &attribute.bytes,
        })?;
    }
    Ok(())
}
