// Changes of attributes by path, in an image that has nothing to recover.

ghost use Rattle.std.specs.Prelude.{◌≡◌, true, false};
ghost use Rattle.lfs_tree.specs.Permissions.{CanRemoveAttr, CanSetAttr};
ghost use Rattle.lfs_tree.specs.TreeCalls as call;
ghost use Rattle.lfs_tree.specs.TreeChanges.{CanChangeRecovered, AppliesOrFails};
ghost use Rattle.lfs_tree.specs.SlotChanges.{IsFoundSlot, is_entry_found};
ghost use Rattle.lfs_tree.specs.RootedThreads.{uncached_state};

use crate::entries_at::{find_at_path, lemma_block_facts};
use lfs_device::{BlockDevice, Error};
use lfs_lookup::{Path, PathLookup, SlotPosition};
use lfs_operations::{remove_attribute, set_attribute};
use lfs_thread::Thread;
use std::alloc::Global;

// Returns the slot of an entry that a look-up found.
fn found_entry_slot(found: PathLookup) -> SlotPosition
    requires { is_entry_found found ≡ true }
    ensures { IsFoundSlot found result }
{
    match found {
        PathLookup::Directory { slot, .. } | PathLookup::File { slot, .. } => slot,
        _ => unreachable!(),
    }
}

// Sets an attribute of the entry at a path.
//
// Errors: `Io` if a device call fails, or `NoMemory` if memory can't be allocated.
pub(crate) fn set_attr_at<D: BlockDevice>(
    alloc: Global,
    thread: &mut Thread<D>,
    root: usize,
    path: &Path<'_>,
    kind: u8,
    bytes: &[u8],
) -> Result<(), Error>
    requires rests { CanChangeRecovered thread.old root }
    requires can { CanSetAttr (uncached_state thread.old.kept true false) path.now kind bytes.now }
    ensures { AppliesOrFails thread.old (call.SetAttr path.now kind bytes.now) result thread.new }
{
    path.lemma_path_bytes();
    lemma_block_facts(thread);
    let target = find_at_path(alloc, thread, root, path)?;
    let slot = found_entry_slot(target.found);
    set_attribute(alloc, thread, slot.pair, slot.id, kind, bytes)
}

// Removes an attribute of the entry at a path.
//
// Errors: `Io` if a device call fails, or `NoMemory` if memory can't be allocated.
pub(crate) fn remove_attr_at<D: BlockDevice>(
    alloc: Global,
    thread: &mut Thread<D>,
    root: usize,
    path: &Path<'_>,
    kind: u8,
) -> Result<(), Error>
    requires rests { CanChangeRecovered thread.old root }
    requires can { CanRemoveAttr (uncached_state thread.old.kept true false) path.now kind }
    ensures { AppliesOrFails thread.old (call.RemoveAttr path.now kind) result thread.new }
{
    path.lemma_path_bytes();
    lemma_block_facts(thread);
    let target = find_at_path(alloc, thread, root, path)?;
    let slot = found_entry_slot(target.found);
    remove_attribute(alloc, thread, slot.pair, slot.id, kind)
}
