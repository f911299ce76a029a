// Saves: calls of the session that store the changed bytes of a file.

ghost use Rattle.std.specs.Prelude.{◌≡◌, ◌≤◌, ◌+◌, ◌<◌, ◌^◌, ◌∷◌, [], ◌++◌, length, IfErr, IfOk, false, true, List, ℕ};
ghost use Rattle.lfs_model.specs.format.Disk.{profile_file_max};
ghost use Rattle.lfs_model.specs.session.Session.{file_block_count};
ghost use Rattle.lfs_model.specs.tree.Tree.{Path, Tree};
ghost use Rattle.lfs_lookup.specs.RefusalErrors.{is_refusal};
ghost use Rattle.lfs_tree.specs.TreeState.{visible_tree};
ghost use Rattle.lfs_model.specs.session.Operations as ops;
ghost use Rattle.lfs_fs.specs.CallEffects.{IsCall};
ghost use Rattle.lfs_volume.specs.Opened.{IsIdleSession, writing_flags};
ghost use Rattle.lfs_volume.specs.Saves.{CanSave, CanWriteDirtyRange, FailsSave, IsOpenedForWriting, IsFreeBlocksAnswer, IsSaveRefused, IsSaved, IsWritten, open_and_seek_operations, writing_operations};
ghost use Rattle.lfs_volume.specs.SessionCalls.{EndsAtErrorOperation, error_result};

use crate::dirty_range::DirtyRange;
use lfs_device::{BlockDevice, Error, Geometry};
use lfs_file::blocks_for;
use lfs_fs::{OpenFlags, Session};
use std::alloc::Global;

// Returns how many free blocks are needed to save a file of `size` bytes.
fn blocks_for_save(geometry: Geometry, size: u32) -> u64
    ensures need { result ≡ 2 + file_block_count geometry.profile geometry.block_size size }
    ensures few { result < 2 ^ 34 }
{
    if size <= geometry.inline_limit() {
        2
    } else {
        2 + u64::from(blocks_for(geometry.block_size, size))
    }
}

// Returns whether enough blocks are free to save a file of `size` bytes.
fn has_save_blocks<D: BlockDevice>(session: &Session<D>, size: u32) -> Result<bool, Error>
    ensures { session.now.tree.failed ≡ false → IsFreeBlocksAnswer session.now size result }
{
    let used = session.used_count()?;
    let geometry = session.device().geometry();
    Ok(u64::from(used) + blocks_for_save(geometry, size) <= u64::from(geometry.block_count))
}

// Opens a file for writing and sets its position to `from`. Returns the file's number in the
// session.
fn open_writer_at<D: BlockDevice>(
    alloc: Global,
    session: &mut Session<D>,
    path: &[u8],
    from: u32,
) -> Result<u32, Error>
    ensures opened { IfOk result (λ fd. IsIdleSession session.old (visible_tree session.old.tree) → IsOpenedForWriting session.old path.now from fd session.new) }
    ensures ended { IfErr result (λ e. IsIdleSession session.old (visible_tree session.old.tree) → EndsAtErrorOperation e session.old (open_and_seek_operations path.now from) session.new) }
    ensures refused { IfErr result (λ e. IsIdleSession session.old (visible_tree session.old.tree) → from ≤ profile_file_max session.old.tree.disk.profile → is_refusal e ≡ true → IsCall session.old (ops.Open path.now writing_flags) (error_result e) session.new) }
{
    let fd = session.open(alloc, path, OpenFlags::WRITE)?;
    session.seek(fd, from)?;
    Ok(fd)
}

// Truncates the open file if its new contents are shorter. Then writes the bytes of the dirty range, the
// range in which the new contents may differ from the stored ones.
fn write_dirty_range<D: BlockDevice>(
    alloc: Global,
    session: &mut Session<D>,
    fd: u32,
    bytes: &[u8],
    dirty_range: DirtyRange,
) -> Result<(), Error>
    requires order { dirty_range.from ≤ dirty_range.end }
    requires inside { dirty_range.end ≤ length bytes.now }
    requires small { length bytes.now < 2 ^ 32 }
    ensures written { IfOk result (λ _. (tree : Tree) (path : Path) (stored : List ℕ) → fd ≡ 0 → CanWriteDirtyRange session.old tree path stored bytes.now dirty_range → IsWritten session.old tree path stored bytes.now dirty_range session.new) }
    ensures ended { IfErr result (λ e. (tree : Tree) (path : Path) (stored : List ℕ) → fd ≡ 0 → CanWriteDirtyRange session.old tree path stored bytes.now dirty_range → EndsAtErrorOperation e session.old (writing_operations (length stored) bytes.now dirty_range) session.new) }
    ensures failed { IfErr result (λ e. (tree : Tree) (path : Path) (stored : List ℕ) → fd ≡ 0 → CanWriteDirtyRange session.old tree path stored bytes.now dirty_range → is_refusal e ≡ false) }
{
    let size = bytes.len() as u32;
    if size < session.size(fd)? {
        session.truncate(alloc, fd, size)?;
    }
    session.write(
        alloc,
        fd,
        &bytes[dirty_range.from as usize..dirty_range.end as usize],
    )?;
    Ok(())
}

// Stores the new bytes of a file. The new bytes may differ from the stored ones only in the range
// `dirty_range`. Checks that enough blocks are free before it writes anything. The tree changes only when
// the file is closed.
//
// Returns the same errors as the session's `open` for writing. Returns `NoSpace` if too few blocks
// are free for the save; the tree is unchanged in this case. Returns `Io` if a device call fails,
// and `NoMemory` if the session can't allocate memory. After `Io` or `NoMemory` the session has
// failed.
pub(crate) fn save<D: BlockDevice>(
    alloc: Global,
    session: &mut Session<D>,
    path: &[u8],
    bytes: &[u8],
    dirty_range: DirtyRange,
) -> Result<(), Error>
    requires order { dirty_range.from ≤ dirty_range.end }
    requires inside { dirty_range.end ≤ length bytes.now }
    requires small { length bytes.now < 2 ^ 32 }
    ensures saved { IfOk result (λ _. CanSave session.old path.now bytes.now dirty_range → IsSaved session.old path.now bytes.now dirty_range session.new) }
    ensures ended { IfErr result (λ e. CanSave session.old path.now bytes.now dirty_range → FailsSave e session.old path.now bytes.now dirty_range session.new) }
    ensures refused { IfErr result (λ e. CanSave session.old path.now bytes.now dirty_range → IsSaveRefused e session.old path.now bytes.now dirty_range session.new) }
{
    let fd = open_writer_at(alloc, session, path, dirty_range.from)?;
    let has_room = has_save_blocks(session, bytes.len() as u32)?;
    if has_room {
        write_dirty_range(alloc, session, fd, bytes, dirty_range)?;
        session.close(alloc, fd)
    } else {
        session.close(alloc, fd)?;
        Err(Error::NoSpace)
    }
}
