// Reads of an attribute of the entry at a path.

ghost use Rattle.std.specs.Prelude.{◌≡◌, ◌<◌, ◌≤◌, ◌+◌, IfErr, IfOk, IfSome, IsSome, Some, length, slice_get};
ghost use Rattle.std.specs.Option.{option_copied, option_map};
ghost use Rattle.lfs_model.specs.session.TreeEdits.{node_attributes_of};
ghost use Rattle.lfs_model.specs.format.Content.{attribute_bytes};
ghost use Rattle.lfs_model.specs.crash.Frame.{ancestor_paths};
ghost use Rattle.lfs_model.specs.format.Slots.{Attributes, PairContent as ModelContent, Slot};
ghost use Rattle.lfs_model.specs.tree.Shown.{disk_tree};
ghost use Rattle.lfs_thread.specs.CachedLog.{IsContentLog, cached_log};
ghost use Rattle.lfs_lookup.specs.AttributeAt.{AreAttributesAt, IsAttribute, AttributeFitsTag, lookup_slot_position};
ghost use Rattle.lfs_lookup.specs.BytesAt.{IsSpotSlot};
ghost use Rattle.lfs_lookup.specs.Finds.{IsFoundNode};
ghost use Rattle.lfs_lookup.specs.LookupReading.{ReadsOrReports};
ghost use Rattle.lfs_lookup.specs.NameSearch.{EachSlotHasStruct};
ghost use Rattle.lfs_lookup.specs.Reads.{ReadsPathsOnce};
ghost use Rattle.lfs_lookup.specs.Searchable.{CanReadPair, CanReadCachedSlot, CanSearchFromRoot};

use crate::by_path::{look_up_path, node_of_lookup};
use crate::found_entries::FoundAttribute;
use crate::path::Path;
use crate::paths::VisiblePathLookup;
use crate::search::SlotPosition;
use lfs_device::{BlockDevice, Error};
use lfs_tag::kinds::ATTRIBUTE;
use lfs_tag::{Log, Steps, get};
use lfs_thread::Thread;
use std::alloc::{AllocError, Global};

// Returns the bytes of an attribute of a slot in a log. Returns None if the slot has no attribute
// of type `kind`.
fn attribute_in_log<'a>(log: &Log<'a>, kind: u8, id: u16) -> Option<&'a [u8]>
    requires { EachSlotHasStruct log.now }
    ensures short { IfSome result (λ bytes. length bytes.now ≤ 1022) }
    ensures is { (content : ModelContent) (slot : Slot) → IsContentLog log.now content → slice_get content.slots id ≡ Some slot → option_copied result ≡ attribute_bytes kind slot.attributes }
{
    get(log, ATTRIBUTE + u16::from(kind), id, &mut Steps::new())
}

// Copies the bytes, if there are any.
fn copy_optional_bytes(alloc: Global, bytes: Option<&[u8]>) -> Result<Option<Vec<u8>>, AllocError>
    ensures { IfOk result (λ found. option_map (λ v. v.items) found ≡ option_copied bytes.entry) }
{
    match bytes {
        Some(bytes) => {
            let copy = Vec::from_slice(alloc, bytes)?;
            Ok(Some(copy))
        }
        None => Ok(None),
    }
}

// Copies an attribute of a slot in a log.
fn copy_log_attribute(
    alloc: Global,
    log: &Log<'_>,
    kind: u8,
    id: u16,
) -> Result<Option<Vec<u8>>, Error>
    requires { EachSlotHasStruct log.now }
    ensures short { IfOk result AttributeFitsTag }
    ensures is { (content : ModelContent) (slot : Slot) → IsContentLog log.now content → slice_get content.slots id ≡ Some slot → IfOk result (IsAttribute kind slot.attributes) }
    ensures errors { IfErr result (λ e. e ≡ Error.NoMemory) }
{
    let found = copy_optional_bytes(alloc, attribute_in_log(log, kind, id))?;
    Ok(found)
}

// Returns an attribute of a slot. Loads the slot's block into the cache.
fn attribute_of_slot<D: BlockDevice>(
    alloc: Global,
    thread: &mut Thread<D>,
    slot: SlotPosition,
    kind: u8,
) -> Result<Option<Vec<u8>>, Error>
    requires can { CanReadPair thread.old slot.pair }
    requires cached_log { IsSome (cached_log thread.old slot.pair) }
    ensures short { IfOk result AttributeFitsTag }
    ensures is { (held : Slot) → IsSpotSlot thread.old.kept slot held → IfOk result (IsAttribute kind held.attributes) }
    ensures no_call { thread.new.kept ≡ thread.old.kept }
    ensures reading { ReadsOrReports thread.old thread.new result }
{
    thread.load_pair(slot.pair)?;
    copy_log_attribute(alloc, &thread.lend(slot.pair).unwrap(), kind, slot.id)
}

// Returns the slot that a look-up found, if any. The root directory has no slot.
pub(crate) fn slot_of_lookup(shown: VisiblePathLookup) -> Option<SlotPosition>
    ensures { result ≡ lookup_slot_position shown }
{
    match shown {
        VisiblePathLookup::File { slot, .. } => Some(slot),
        VisiblePathLookup::Directory { slot, .. } => Some(slot),
        _ => None,
    }
}

// Returns an attribute of the slot if there is a slot.
fn attribute_if_slot<D: BlockDevice>(
    alloc: Global,
    thread: &mut Thread<D>,
    slot: Option<SlotPosition>,
    kind: u8,
) -> Result<Option<Vec<u8>>, Error>
    requires { CanReadCachedSlot thread.old slot }
    ensures short { IfOk result AttributeFitsTag }
    ensures is { (attributes : Attributes) → AreAttributesAt thread.old.kept slot attributes → IfOk result (IsAttribute kind attributes) }
    ensures no_call { thread.new.kept ≡ thread.old.kept }
    ensures reading { ReadsOrReports thread.old thread.new result }
{
    match slot {
        Some(slot) => attribute_of_slot(alloc, thread, slot, kind),
        None => Ok(None),
    }
}

/// Looks up a path, and returns the entry's attribute of type `kind`, which has at most 1,022
/// bytes. The root directory has no attributes. Makes at most one read for each metadata pair of
/// the path's ancestor directories, and no read if all of these pairs are cached.
///
/// `root` is the index of the root directory's first pair.
///
/// Errors: `Io` if a read fails. `NoMemory` if memory can't be allocated.
pub fn find_attribute<D: BlockDevice>(
    alloc: Global,
    thread: &mut Thread<D>,
    root: usize,
    path: &Path<'_>,
    kind: u8,
) -> Result<FoundAttribute, Error>
    requires { CanSearchFromRoot thread.old root }
    ensures found { IfOk result (λ found. IsFoundNode (disk_tree thread.old.kept.disk thread.old.kept.pairs) path.now found.finding) }
    ensures short { IfOk result (λ found. AttributeFitsTag found.bytes) }
    ensures is { IfOk result (λ found. IsAttribute kind (node_attributes_of (disk_tree thread.old.kept.disk thread.old.kept.pairs path.now)) found.bytes) }
    ensures reads { ReadsPathsOnce (ancestor_paths path.now) thread.old thread.new }
    ensures reading { ReadsOrReports thread.old thread.new result }
{
    let shown = look_up_path(alloc, thread, root, path)?;
    let bytes = attribute_if_slot(alloc, thread, slot_of_lookup(shown), kind)?;
    // The proof needs the device's block size to show that a list has the size that its entry
    // states.
    let _device = thread.device();
    Ok(FoundAttribute {
        finding: node_of_lookup(shown),
        bytes,
    })
}
