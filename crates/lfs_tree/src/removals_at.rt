// Removals by path, in an image that has nothing to recover.

ghost use Rattle.std.specs.Prelude.{◌≡◌, true, false, is_err, OnOk};
ghost use Rattle.lfs_tree.specs.SettledFiles.{ChangesOnlyMap};
ghost use Rattle.lfs_tree.specs.ThreadContents.{ThreadReportsFaults};
ghost use Rattle.lfs_model.specs.session.TreeEdits.{tree_removing};
ghost use Rattle.lfs_model.specs.tree.Tree.{Path as TreePath};
ghost use Rattle.lfs_model.specs.tree.Shown.{disk_tree};
ghost use Rattle.lfs_operations.specs.Dropping.{HasSameBlocksInFlight};
ghost use Rattle.lfs_operations.specs.Ready.{IsRecoveredWritableImage};
ghost use Rattle.lfs_operations.specs.Unlinking.{ReportsCommits};
ghost use Rattle.lfs_operations.specs.MovingSteps.{WritesThreadAndFree};
ghost use Rattle.lfs_tree.specs.Permissions.{CanRemoveEntry};
ghost use Rattle.lfs_tree.specs.TreeCalls as call;
ghost use Rattle.lfs_tree.specs.TreeChanges.{CanChangeRecovered, AppliesOrFails, PowerLossLeavesEither};
ghost use Rattle.lfs_tree.specs.Removals.{CanFreeList, CanRemoveFound, CanRemoveFile, HasRemovedEntry, RemovalKeepsUnrelatedBlocks};
ghost use Rattle.lfs_tree.specs.RootedThreads.{uncached_state};
ghost use Rattle.lfs_tree.specs.Working.{IsWorkingAndMeets};

use crate::entries_at::{find_at_path, lemma_block_facts};
use crate::files::replace_used_list;
use lfs_device::{BlockDevice, Error};
use lfs_file::{StoredList, lemma_settled_map};
use lfs_lookup::{FileStorage, Path, PathLookup, SlotPosition};
use lfs_operations::{remove_directory, remove_file};
use lfs_thread::Thread;
use std::alloc::Global;

// Frees the blocks of a file's CTZ skip-list in the block map, after the file's entry is removed.
// Does nothing for an inline file. Writes nothing to the device.
//
// Errors: `Io` if a read fails. The threaded list is then marked as failed.
pub(crate) fn free_file_blocks<D: BlockDevice>(
    thread: &mut Thread<D>,
    contents: FileStorage,
) -> Result<(), Error>
    requires { IsWorkingAndMeets thread.old (λ t. CanFreeList t contents) }
    ensures ready { OnOk result (IsRecoveredWritableImage thread.new.kept) }
    ensures flying { OnOk result (HasSameBlocksInFlight thread.old.kept.map thread.new.kept.map) }
    ensures only { ChangesOnlyMap thread.old.kept thread.new.kept }
    ensures failed { thread.new.failed ≡ is_err result }
    ensures reports { ThreadReportsFaults thread.old.kept thread.new.kept result }
{
    lemma_settled_map();
    match contents {
        FileStorage::Inline { .. } => Ok(()),
        FileStorage::List { head, size } => {
            let list = StoredList {
                head,
                size,
                in_flight: false,
            };
            let nothing = StoredList {
                head: 0,
                size: 0,
                in_flight: false,
            };
            replace_used_list(thread, list, nothing)
        }
    }
}

// Removes the file in a slot. The directory of the file begins with the pair of index `parent`.
fn remove_with_list<D: BlockDevice>(
    alloc: Global,
    thread: &mut Thread<D>,
    parent: usize,
    slot: SlotPosition,
    contents: FileStorage,
) -> Result<(), Error>
    requires { IsWorkingAndMeets thread.old (λ t. (path : TreePath) × CanRemoveFile t path parent slot contents) }
    ensures gone { OnOk result ((path : TreePath) → CanRemoveFile thread.old.kept path parent slot contents → HasRemovedEntry thread.old.kept path thread.new.kept) }
    ensures alone { OnOk result ((path : TreePath) → CanRemoveFile thread.old.kept path parent slot contents → RemovalKeepsUnrelatedBlocks thread.old.kept path thread.new.kept) }
    ensures errors { ReportsCommits thread.old thread.new result }
    ensures device { WritesThreadAndFree thread.old.kept thread.new.kept }
    ensures survives { (path : TreePath) → CanRemoveFile thread.old.kept path parent slot contents → PowerLossLeavesEither thread.old.kept thread.new.kept (tree_removing path (disk_tree thread.old.kept.disk thread.old.kept.pairs)) }
{
    remove_file(alloc, thread, slot.pair, slot.id, parent)?;
    free_file_blocks(thread, contents)
}

// Removes the entry that a look-up found, which is a file or an empty directory.
fn remove_found_entry<D: BlockDevice>(
    alloc: Global,
    thread: &mut Thread<D>,
    found: PathLookup,
) -> Result<(), Error>
    requires { IsWorkingAndMeets thread.old (λ t. (path : TreePath) × CanRemoveFound t path found) }
    ensures gone { OnOk result ((path : TreePath) → CanRemoveFound thread.old.kept path found → HasRemovedEntry thread.old.kept path thread.new.kept) }
    ensures alone { OnOk result ((path : TreePath) → CanRemoveFound thread.old.kept path found → RemovalKeepsUnrelatedBlocks thread.old.kept path thread.new.kept) }
    ensures errors { ReportsCommits thread.old thread.new result }
    ensures device { WritesThreadAndFree thread.old.kept thread.new.kept }
    ensures survives { (path : TreePath) → CanRemoveFound thread.old.kept path found → PowerLossLeavesEither thread.old.kept thread.new.kept (tree_removing path (disk_tree thread.old.kept.disk thread.old.kept.pairs)) }
{
    match found {
        PathLookup::File {
            parent,
            slot,
            contents,
        } => remove_with_list(alloc, thread, parent, slot, contents),
        PathLookup::Directory {
            parent,
            slot,
            first,
        } => remove_directory(alloc, thread, slot.pair, slot.id, parent, first),
        _ => unreachable!(),
    }
}

// Removes the file or the empty directory at a path.
//
// Errors: `Io` if a device call fails, or `NoMemory` if memory can't be allocated.
pub(crate) fn remove_at<D: BlockDevice>(
    alloc: Global,
    thread: &mut Thread<D>,
    root: usize,
    path: &Path<'_>,
) -> Result<(), Error>
    requires rests { CanChangeRecovered thread.old root }
    requires can { CanRemoveEntry (uncached_state thread.old.kept true false) path.now }
    ensures { AppliesOrFails thread.old (call.Remove path.now) result thread.new }
{
    path.lemma_path_bytes();
    lemma_block_facts(thread);
    let target = find_at_path(alloc, thread, root, path)?;
    remove_found_entry(alloc, thread, target.found)
}
