// Calls on a whole session.

ghost use Rattle.lfs_model.specs.session.Operations as ops;
ghost use Rattle.littlefs_flash.specs.Sessions.{IsCallOnBox, IsCountCall, IsGstateCall, IsInfoCall, IsOrderAnswer, IsReasonCall, IsUnitCall, IsUsedCall, IsWritableAnswer, ReadsInfo};

use crate::codes::{breach_result_code, gstate_code, order_code};
use lfs_device::{BlockDevice, Error};
use lfs_fs::Session;
use littlefs_values::{CLOSED, FsInfo, bool_code, count_code, unit_code};
use std::alloc::Global;

/// Closes all files, and mounts the flash again, even if the session has failed. Returns 0.
///
/// # Errors
///
/// Returns -77 if `held` is None. Returns -84 (`Corrupt`) if the flash holds no accepted image, -5
/// (`Io`) if a read failed, and -12 (`NoMemory`) if memory can't be allocated. After `Corrupt`,
/// `Io` or `NoMemory` the session has failed.
pub fn remount<D: BlockDevice + Drop>(
    alloc: Global,
    held: &mut Option<Box<Session<D>, Global>>,
) -> i64
    ensures { IsCallOnBox (IsUnitCall ops.Remount result) result held.old held.new }
{
    let Some(session) = held else {
        return CLOSED;
    };
    unit_code(session.remount(alloc))
}

/// Completes what a power loss left half done on the flash, without changing the tree. Returns 0.
///
/// # Errors
///
/// Returns -77 if `held` is None, or the negated number of the error that `Session::recover`
/// returns (docs/OPERATIONS.md).
pub fn recover<D: BlockDevice + Drop>(
    alloc: Global,
    held: &mut Option<Box<Session<D>, Global>>,
) -> i64
    ensures { IsCallOnBox (IsUnitCall ops.Recover result) result held.old held.new }
{
    let Some(session) = held else {
        return CLOSED;
    };
    unit_code(session.recover(alloc))
}

/// Returns the number of blocks that the image uses.
///
/// # Errors
///
/// Returns -77 if `held` is None, and -200 (`Failed`) if the session has failed.
pub fn used_blocks<D: BlockDevice + Drop>(held: &Option<Box<Session<D>, Global>>) -> i64
    ensures { IsCallOnBox (IsCountCall ops.UsedCount ops.Count result) result held.now held.now }
{
    let Some(session) = held else {
        return CLOSED;
    };
    count_code(session.used_count())
}

/// Returns 1 if the image uses a block, and 0 if the block is free.
///
/// # Errors
///
/// Returns -77 if `held` is None, -200 (`Failed`) if the session has failed, and -22 (`Invalid`) if
/// the image has no such block.
pub fn is_used<D: BlockDevice + Drop>(held: &Option<Box<Session<D>, Global>>, block: u32) -> i64
    ensures { IsCallOnBox (IsUsedCall block result) result held.now held.now }
{
    let Some(session) = held else {
        return CLOSED;
    };
    bool_code(session.is_used(block))
}

/// Returns what a recovery has to complete: 0 for nothing, 1 if metadata pairs may be orphans, 2 if
/// a move is pending, 3 for both.
///
/// # Errors
///
/// Returns -77 if `held` is None, and -200 (`Failed`) if the session has failed.
pub fn gstate<D: BlockDevice + Drop>(held: &Option<Box<Session<D>, Global>>) -> i64
    ensures { IsCallOnBox (IsGstateCall result) result held.now held.now }
{
    let Some(session) = held else {
        return CLOSED;
    };
    gstate_code(session.gstate())
}

/// Returns 0 if the image has littlefs's order of names, and 1 if it has the other order. If one
/// name begins with another, littlefs's order puts the longer name first.
///
/// # Errors
///
/// Returns -77 if `held` is None.
pub fn name_order<D: BlockDevice + Drop>(held: &Option<Box<Session<D>, Global>>) -> i64
    ensures { IsCallOnBox (IsOrderAnswer result) result held.now held.now }
{
    let Some(session) = held else {
        return CLOSED;
    };
    order_code(session.order())
}

/// Returns 1 if the session may write: it hasn't failed, and its image is in the writing profile.
/// Returns 0 otherwise. Doesn't access the device.
///
/// # Errors
///
/// Returns -77 if `held` is None.
pub fn is_writable<D: BlockDevice + Drop>(held: &Option<Box<Session<D>, Global>>) -> i64
    ensures { IsCallOnBox (IsWritableAnswer result) result held.now held.now }
{
    let Some(session) = held else {
        return CLOSED;
    };
    bool_code(Ok(session.is_writable()))
}

/// Returns 0 if the session may write, without accessing the device. Otherwise, reads the metadata
/// pairs, and returns the lowest number of a rule of the writing profile that the image breaks. The
/// numbers mean that the image was made with other limits (1), a file has too many bytes inline
/// (2), a directory continues in an empty pair (3), or a pair or an entry is too large (4).
///
/// # Errors
///
/// Returns -77 if `held` is None, and -200 (`Failed`) if the session has failed. Returns -5 (`Io`)
/// if a read failed, and -12 (`NoMemory`) if memory can't be allocated; the session has then
/// failed.
pub fn read_only_reason<D: BlockDevice + Drop>(
    alloc: Global,
    held: &mut Option<Box<Session<D>, Global>>,
) -> i64
    ensures { IsCallOnBox (IsReasonCall result) result held.old held.new }
{
    let Some(session) = held else {
        return CLOSED;
    };
    breach_result_code(session.read_only_reason(alloc))
}

// Reads the superblock's fields into `info`.
fn read_info<D: BlockDevice + Drop>(
    alloc: Global,
    session: &mut Session<D>,
    info: &mut FsInfo,
) -> Result<(), Error>
    ensures { ReadsInfo result info.old info.new session.old session.new }
{
    let fields = session.superblock(alloc)?;
    *info = FsInfo::of(&fields);
    Ok(())
}

/// Reads the superblock's fields into `info`: the version, the block size and count, and the
/// image's limits. Returns 0.
///
/// # Errors
///
/// Returns -77 if `held` is None, and -200 (`Failed`) if the session has failed. Returns -5 (`Io`)
/// if the read failed, and -12 (`NoMemory`) if memory can't be allocated; the session has then
/// failed. On error, `info` doesn't change.
pub fn stat_fs<D: BlockDevice + Drop>(
    alloc: Global,
    held: &mut Option<Box<Session<D>, Global>>,
    info: &mut FsInfo,
) -> i64
    ensures { IsCallOnBox (IsInfoCall info.old info.new result) result held.old held.new }
{
    let Some(session) = held else {
        return CLOSED;
    };
    unit_code(read_info(alloc, session, info))
}
