// The number of bytes that an entry's attributes use in its metadata pair.

ghost use Rattle.std.specs.Prelude.{◌≡◌, ◌<◌, ◌+◌, IfErr, IfOk, IsSome, Some, false, length, map, slice_get};
ghost use Rattle.lfs_model.specs.session.TreeEdits.{node_attributes_of};
ghost use Rattle.lfs_model.specs.format.Content.{slot_of_id};
ghost use Rattle.lfs_model.specs.crash.Frame.{ancestor_paths};
ghost use Rattle.lfs_model.specs.layers.LoggedContent.{AttributesInOrder, AreWellFormed};
ghost use Rattle.lfs_model.specs.format.Slots.{PairContent as ModelContent, Slot as ModelSlot, attributes_size};
ghost use Rattle.lfs_model.specs.tree.Shown.{disk_tree};
ghost use Rattle.lfs_tag.specs.ContentView.{attribute_view, slot_view};
ghost use Rattle.lfs_thread.specs.CachedLog.{IsContentLog, cached_log};
ghost use Rattle.lfs_lookup.specs.AttributeAt.{IsAttributesSize};
ghost use Rattle.lfs_lookup.specs.BytesAt.{IsSpotSlot};
ghost use Rattle.lfs_lookup.specs.LookupReading.{ReadsOrReports};
ghost use Rattle.lfs_lookup.specs.NameSearch.{EachSlotHasStruct};
ghost use Rattle.lfs_lookup.specs.Reads.{ReadsPathsOnce};
ghost use Rattle.lfs_lookup.specs.Searchable.{CanSearchFromRoot};

use crate::attributes::slot_of_lookup;
use crate::by_path::look_up_path;
use crate::path::Path;
use crate::search::SlotPosition;
use lfs_device::{BlockDevice, Error};
use lfs_tag::{Attribute, Content, Log, Slot};
use lfs_thread::Thread;
use std::alloc::Global;

// Returns the number of bytes that the attributes use, including a tag of 4 bytes for each.
fn total_attributes_size(attributes: &[Attribute<'_>]) -> usize
    requires { AttributesInOrder 0 (map attribute_view attributes.now) }
    ensures { result ≡ attributes_size (map attribute_view attributes.now) }
{
    let mut size = 0;
    for attribute in attributes {
        size += 4 + attribute.bytes.len();
    }
    size
}

// Returns the size of the attributes of the slot with the given id, or 0 if there is no such slot.
fn slot_attributes_size(slots: &[Slot<'_>], id: u16) -> usize
    requires { AreWellFormed (map slot_view slots.now) }
    ensures { result ≡ attributes_size (slot_of_id (map slot_view slots.now) id).attributes }
{
    match slots.get(usize::from(id)) {
        Some(slot) => total_attributes_size(&slot.attributes),
        None => 0,
    }
}

// Returns the size of the attributes of the slot with the given id in a log.
fn log_attributes_size(alloc: Global, log: &Log<'_>, id: u16) -> Result<usize, Error>
    requires { EachSlotHasStruct log.now }
    ensures is { (content : ModelContent) (slot : ModelSlot) → IsContentLog log.now content → slice_get content.slots id ≡ Some slot → IfOk result (IsAttributesSize slot.attributes) }
    ensures errors { IfErr result (λ e. e ≡ Error.NoMemory) }
{
    let content = Content::read(alloc, log)?;
    Ok(slot_attributes_size(&content.slots, id))
}

// Returns the size of a slot's attributes. Loads the slot's block into the cache.
fn cached_attributes_size<D: BlockDevice>(
    alloc: Global,
    thread: &mut Thread<D>,
    slot: SlotPosition,
) -> Result<usize, Error>
    requires works { thread.old.failed ≡ false }
    requires below { slot.pair < length thread.old.kept.pairs }
    requires cached_log { IsSome (cached_log thread.old slot.pair) }
    ensures is { (held : ModelSlot) → IsSpotSlot thread.old.kept slot held → IfOk result (IsAttributesSize held.attributes) }
    ensures no_call { thread.new.kept ≡ thread.old.kept }
    ensures reading { ReadsOrReports thread.old thread.new result }
{
    thread.load_pair(slot.pair)?;
    log_attributes_size(alloc, &thread.lend(slot.pair).unwrap(), slot.id)
}

/// Returns the number of bytes that the attributes of the entry at `path` use in its metadata pair,
/// including a tag of 4 bytes for each attribute. Returns 0 if the path is the root's or has no
/// entry. Makes at most one read for each metadata pair of the path's ancestor directories, and no
/// read if all of these pairs are cached.
///
/// `root` is the index of the root directory's first pair.
///
/// Errors: `Io` if a read fails. `NoMemory` if memory can't be allocated.
pub fn attributes_size_at<D: BlockDevice>(
    alloc: Global,
    thread: &mut Thread<D>,
    root: usize,
    path: &Path<'_>,
) -> Result<usize, Error>
    requires { CanSearchFromRoot thread.old root }
    ensures is { IfOk result (IsAttributesSize (node_attributes_of (disk_tree thread.old.kept.disk thread.old.kept.pairs path.now))) }
    ensures reads { ReadsPathsOnce (ancestor_paths path.now) thread.old thread.new }
    ensures reading { ReadsOrReports thread.old thread.new result }
{
    let shown = look_up_path(alloc, thread, root, path)?;
    let Some(slot) = slot_of_lookup(shown) else {
        return Ok(0);
    };
    cached_attributes_size(alloc, thread, slot)
}
