// Commits of a writer's contents by path, in an image that has nothing to recover.

ghost use Rattle.std.specs.Prelude.{◌≡◌, false, true, OnOk};
ghost use Rattle.lfs_tree.specs.ThreadContents.{ThreadReportsFaults};
ghost use Rattle.lfs_model.specs.session.TreeEdits.{tree_with_change};
ghost use Rattle.lfs_model.specs.session.Effects.{node_with_bytes};
ghost use Rattle.lfs_model.specs.tree.Shown.{disk_tree};
ghost use Rattle.lfs_operations.specs.Changing.{WritesPairAndTwoFree};
ghost use Rattle.lfs_operations.specs.Storing.{HasStoredContents, tree_with_contents};
ghost use Rattle.lfs_tree.specs.TreeChanges.{IsLaterOnSameDevice, CanChangeRecovered, ChangesTreeOrFails, PowerLossLeavesEither};
ghost use Rattle.lfs_tree.specs.RootedThreads.{uncached_state};
ghost use Rattle.lfs_tree.specs.OpenContents.{CanStoreContents, writer_contents_bytes};
ghost use Rattle.lfs_tree.specs.Stores.{CanCommitContents, CanPutContents, HasCommittedBytes, StoresBeforeRelocation, IsFoundFile, is_file_found, finished_list, list_in_storage, empty_list};
ghost use Rattle.lfs_tree.specs.Working.{IsWorkingAndMeets, WorksOrReportsFault};

use crate::entries_at::{find_at_path, lemma_block_facts};
use crate::files::{replace_used_list, write_remaining_draft};
use lfs_device::{BlockDevice, Error};
use lfs_file::{StoredList, WriterContents};
use lfs_lookup::{Path, PathLookup, SlotPosition};
use lfs_operations::set_struct;
use lfs_tag::ctz_bytes;
use lfs_tag::kinds::{CTZ_STRUCT, INLINE_STRUCT};
use lfs_thread::Thread;
use std::alloc::Global;

// The slot of a file, and its CTZ skip-list, which is empty for an inline file.
#[derive(Clone, Copy, Drop)]
struct FileSlot {
    spot: SlotPosition,
    list: StoredList,
}

// Returns an empty list.
fn empty_stored_list() -> StoredList
    ensures { result ≡ empty_list }
{
    StoredList {
        head: 0,
        size: 0,
        in_flight: false,
    }
}

// Returns the list that a file's entry refers to, or an empty list if the file is inline.
fn storage_list(contents: lfs_lookup::FileStorage) -> StoredList
    ensures { result ≡ list_in_storage contents }
{
    match contents {
        lfs_lookup::FileStorage::Inline { .. } => empty_stored_list(),
        lfs_lookup::FileStorage::List { head, size } => StoredList {
            head,
            size,
            in_flight: false,
        },
    }
}

// Returns the list of finished contents, or an empty list if the contents are in memory.
fn contents_list(contents: &WriterContents) -> StoredList
    ensures { result ≡ finished_list contents.now }
{
    match contents {
        WriterContents::Finished(stored) => *stored,
        _ => empty_stored_list(),
    }
}

// Returns the slot and the list of a file that a look-up found.
fn found_file_slot(found: PathLookup) -> FileSlot
    requires { is_file_found found ≡ true }
    ensures { IsFoundFile found result }
{
    match found {
        PathLookup::File { slot, contents, .. } => FileSlot {
            spot: slot,
            list: storage_list(contents),
        },
        _ => unreachable!(),
    }
}

// Commits finished contents to a file's slot. Doesn't update the block map.
fn put_contents<D: BlockDevice>(
    alloc: Global,
    thread: &mut Thread<D>,
    spot: SlotPosition,
    contents: &WriterContents,
) -> Result<(), Error>
    requires { IsWorkingAndMeets thread.old (λ t. CanPutContents t spot contents.now) }
    ensures stored { OnOk result ((can : CanPutContents thread.old.kept spot contents.now)
        → HasStoredContents thread.old.kept thread.new.kept can.can.path can.can.name (writer_contents_bytes thread.old.kept contents.now) can.come.gone can.come.come) }
    ensures works { OnOk result (thread.new.failed ≡ false) }
    ensures reports { ThreadReportsFaults thread.old.kept thread.new.kept result }
    ensures device { WritesPairAndTwoFree thread.old.kept spot.pair thread.new.kept }
    ensures survives { (can : CanPutContents thread.old.kept spot contents.now) → PowerLossLeavesEither thread.old.kept thread.new.kept (tree_with_contents thread.old.kept can.can.path can.can.name (writer_contents_bytes thread.old.kept contents.now)) }
{
    match contents {
        WriterContents::InMemory(list) => {
            set_struct(
                alloc,
                thread,
                spot.pair,
                spot.id,
                INLINE_STRUCT,
                list.buffered_content(),
            )
        }
        WriterContents::Finished(stored) => {
            let bytes = ctz_bytes(stored.head, stored.size);
            set_struct(alloc, thread, spot.pair, spot.id, CTZ_STRUCT, &bytes)
        }
        WriterContents::InHand(_) => unreachable!(),
    }
}

// Commits finished contents to the file at a path. Then marks the blocks of the new list as used,
// and frees the blocks that only the old list has.
//
// Errors: `Io` if a device call fails, or `NoMemory` if memory can't be allocated.
fn commit_contents_at<D: BlockDevice>(
    alloc: Global,
    thread: &mut Thread<D>,
    root: usize,
    path: &Path<'_>,
    contents: WriterContents,
) -> Result<(), Error>
    requires rests { CanChangeRecovered thread.old root }
    requires can { CanCommitContents thread.old.kept path.now contents }
    ensures done { OnOk result (HasCommittedBytes thread.old.kept path.now (writer_contents_bytes thread.old.kept contents) thread.new.kept) }
    ensures reports { WorksOrReportsFault thread.old thread.new result }
    ensures called { IsLaterOnSameDevice thread.old.kept thread.new.kept }
    ensures survives { PowerLossLeavesEither thread.old.kept thread.new.kept (tree_with_change path.now (node_with_bytes (writer_contents_bytes thread.old.kept contents)) (disk_tree thread.old.kept.disk thread.old.kept.pairs)) }
{
    lemma_block_facts(thread);
    // A proof needs the device's block size to see that a list has as many bytes as it says.
    let _device = thread.device();
    let target = find_at_path(alloc, thread, root, path)?;
    let file = found_file_slot(target.found);
    put_contents(alloc, thread, file.spot, &contents)?;
    replace_used_list(thread, file.list, contents_list(&contents))?;
    Ok(())
}

// Writes the unwritten part of a writer's contents, and commits the contents to the file at a path.
//
// Errors: `Io` if a device call fails, or `NoMemory` if memory can't be allocated.
pub(crate) fn store_contents_at<D: BlockDevice>(
    alloc: Global,
    thread: &mut Thread<D>,
    root: usize,
    path: &Path<'_>,
    contents: WriterContents,
) -> Result<(), Error>
    requires rests { CanChangeRecovered thread.old root }
    requires can { CanStoreContents (uncached_state thread.old.kept true false) path.now contents }
    ensures { ChangesTreeOrFails thread.old (StoresBeforeRelocation thread.old.kept path.now (writer_contents_bytes thread.old.kept contents))
        (tree_with_change path.now (node_with_bytes (writer_contents_bytes thread.old.kept contents)) (disk_tree thread.old.kept.disk thread.old.kept.pairs)) result thread.new }
{
    let finished = write_remaining_draft(alloc, thread, contents)?;
    commit_contents_at(alloc, thread, root, path, finished)
}
