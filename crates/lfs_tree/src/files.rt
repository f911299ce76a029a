// Changes to the contents of files that are open for writing. A thread, the threaded list of
// metadata pairs, has the device and the block map that these changes need.

ghost use Rattle.std.specs.Prelude.{◌≡◌, false, is_err, length, take, IfErr, IfOk, OnOk};
ghost use Rattle.lfs_model.specs.format.Disk.{inline_limit};
ghost use Rattle.lfs_model.specs.session.Writers.{written_contents, zero_padded};
ghost use Rattle.lfs_tree.specs.SettledFiles.{CanReplaceUsedList, ChangesOnlyMap, IsUsedListReplaced};
ghost use Rattle.lfs_tree.specs.ThreadContents.{CanWriteRemainingDraft, CanTruncate, CanWriteToContents, HaveContentsForm, KeepsPairs, ThreadReportsFaults, contents_list_blocks};
ghost use Rattle.lfs_file.specs.Contents.{contents_bytes, form_after_finish, contents_form};
ghost use Rattle.lfs_file.specs.Form.{truncated_form, written_form};
ghost use Rattle.lfs_file.specs.BlockOwners.{AreUsedAmong};

use lfs_device::{BlockDevice, Error};
use lfs_file::{
    StoredList, WriterContents, finish_contents, settle_list, truncate_contents, write_contents,
};
use lfs_thread::Thread;
use std::alloc::Global;

/// Writes `bytes`, at least one, at byte offset `place` of a writer's contents. Fills a gap before
/// `place` with zeros. Doesn't change any metadata pair.
///
/// New contents of at most the device's inline limit are kept in memory.
///
/// Errors: `Io` if a device call fails, or `NoMemory` if memory for a block can't be allocated.
/// After an error the contents are lost, but `thread` isn't marked as failed.
pub fn write_file<D: BlockDevice>(
    alloc: Global,
    thread: &mut Thread<D>,
    contents: WriterContents,
    place: u32,
    bytes: &[u8],
) -> Result<WriterContents, Error>
    requires works { thread.old.failed ≡ false }
    requires can { CanWriteToContents thread.old.kept contents place (length bytes.now) }
    ensures written { IfOk result (λ c. HaveContentsForm thread.new.kept c (written_contents (contents_bytes thread.old.kept.disk.blocks thread.old.kept.disk.block_size contents) place bytes.now)
        (written_form (inline_limit thread.old.kept.disk.profile thread.old.kept.disk.block_size) place (length bytes.now) (contents_form contents))) }
    ensures owned { IfOk result (λ c. AreUsedAmong thread.new.kept.map (contents_list_blocks thread.old.kept contents) (contents_list_blocks thread.new.kept c)) }
    ensures works { thread.new.failed ≡ false }
    ensures leaves { KeepsPairs thread.old.kept thread.new.kept }
    ensures reports { ThreadReportsFaults thread.old.kept thread.new.kept result }
{
    thread.with_device_map(|device, map| write_contents(alloc, device, map, contents, place, bytes))
}

/// Sets the size of a writer's contents in bytes: truncates them, or extends them with zeros.
/// Doesn't change any metadata pair.
///
/// If the size changes, new contents of at most the device's inline limit are kept in memory.
///
/// Errors: `Io` if a device call fails, or `NoMemory` if memory for a block can't be allocated.
/// After an error the contents are lost, but `thread` isn't marked as failed.
pub fn truncate_file<D: BlockDevice>(
    alloc: Global,
    thread: &mut Thread<D>,
    contents: WriterContents,
    size: u32,
) -> Result<WriterContents, Error>
    requires works { thread.old.failed ≡ false }
    requires can { CanTruncate thread.old.kept contents size }
    ensures truncated { IfOk result (λ c. HaveContentsForm thread.new.kept c (take size (zero_padded size (contents_bytes thread.old.kept.disk.blocks thread.old.kept.disk.block_size contents)))
        (truncated_form (inline_limit thread.old.kept.disk.profile thread.old.kept.disk.block_size) size (contents_form contents))) }
    ensures owned { IfOk result (λ c. AreUsedAmong thread.new.kept.map (contents_list_blocks thread.old.kept contents) (contents_list_blocks thread.new.kept c)) }
    ensures works { thread.new.failed ≡ false }
    ensures leaves { KeepsPairs thread.old.kept thread.new.kept }
    ensures reports { ThreadReportsFaults thread.old.kept thread.new.kept result }
{
    thread.with_device_map(|device, map| truncate_contents(alloc, device, map, contents, size))
}

/// Completes a writer's draft, which is contents that aren't synced yet. Writes the rest of the
/// draft, so that every block of its CTZ skip-list is on the device. Changes neither the bytes of
/// the contents nor any metadata pair.
///
/// Errors: `Io` if a device call fails, or `NoMemory` if memory for a block can't be allocated.
/// After an error the contents are lost, but `thread` isn't marked as failed.
pub fn write_remaining_draft<D: BlockDevice>(
    alloc: Global,
    thread: &mut Thread<D>,
    contents: WriterContents,
) -> Result<WriterContents, Error>
    requires works { thread.old.failed ≡ false }
    requires can { CanWriteRemainingDraft thread.old.kept contents }
    ensures finished { IfOk result (λ c. HaveContentsForm thread.new.kept c (contents_bytes thread.old.kept.disk.blocks thread.old.kept.disk.block_size contents) (form_after_finish (contents_form contents))) }
    ensures owned { IfOk result (λ c. AreUsedAmong thread.new.kept.map (contents_list_blocks thread.old.kept contents) (contents_list_blocks thread.new.kept c)) }
    ensures works { thread.new.failed ≡ false }
    ensures leaves { KeepsPairs thread.old.kept thread.new.kept }
    ensures reports { ThreadReportsFaults thread.old.kept thread.new.kept result }
{
    thread.with_device_map(|device, map| finish_contents(alloc, device, map, contents))
}

// Settles a list in a thread's block map: marks its blocks as used, and frees the blocks that only
// the list `before` has. Doesn't mark the thread as failed. After an error the block map can't be
// used.
fn update_block_map<D: BlockDevice>(
    thread: &mut Thread<D>,
    before: StoredList,
    stored: StoredList,
) -> Result<(), Error>
    requires works { thread.old.failed ≡ false }
    requires can { CanReplaceUsedList thread.old.kept before stored }
    ensures settled { OnOk result (IsUsedListReplaced thread.old.kept before stored thread.new.kept) }
    ensures errors { IfErr result (λ e. e ≡ Error.Io) }
    ensures only { ChangesOnlyMap thread.old.kept thread.new.kept }
    ensures works { thread.new.failed ≡ false }
    ensures reports { ThreadReportsFaults thread.old.kept thread.new.kept result }
{
    thread.with_device_map(|device, map| settle_list(device, map, before, stored))
}

/// Settles a complete CTZ skip-list after a commit that refers to it: marks the list's blocks as
/// used in the block map, and frees the blocks that only the list `before` has. Both `before` and
/// `stored` may be empty lists. Writes nothing to the device.
///
/// Errors: `Io` if a device call fails. The block map can't be used after an error, so `thread` is
/// marked as failed.
pub fn replace_used_list<D: BlockDevice>(
    thread: &mut Thread<D>,
    before: StoredList,
    stored: StoredList,
) -> Result<(), Error>
    requires works { thread.old.failed ≡ false }
    requires can { CanReplaceUsedList thread.old.kept before stored }
    ensures settled { OnOk result (IsUsedListReplaced thread.old.kept before stored thread.new.kept) }
    ensures errors { IfErr result (λ e. e ≡ Error.Io) }
    ensures only { ChangesOnlyMap thread.old.kept thread.new.kept }
    ensures failed { thread.new.failed ≡ is_err result }
    ensures reports { ThreadReportsFaults thread.old.kept thread.new.kept result }
{
    let result = update_block_map(thread, before, stored);
    if result.is_err() {
        thread.fail();
    }
    result
}
