// Calls on the file or directory at a path.

ghost use Rattle.lfs_model.specs.session.Operations as ops;
ghost use Rattle.littlefs_flash.specs.Sessions.{IsCallOnBox, IsBytesCall, IsListCall, IsStatCall, IsUnitCall};

use lfs_device::BlockDevice;
use lfs_fs::Session;
use littlefs_values::{CLOSED, fill_with_bytes, fill_with_lines, size_code, unit_code, usize_code};
use std::alloc::Global;

/// Returns a file's size in bytes, or 4,294,967,296 for a directory.
///
/// # Errors
///
/// Returns -77 if `held` is None, or the negated number of the error that `Session::stat` returns
/// (docs/OPERATIONS.md).
pub fn stat_entry<D: BlockDevice + Drop>(
    alloc: Global,
    held: &mut Option<Box<Session<D>, Global>>,
    path: &[u8],
) -> i64
    ensures { IsCallOnBox (IsStatCall path.now result) result held.old held.new }
{
    let Some(session) = held else {
        return CLOSED;
    };
    size_code(session.stat(alloc, path))
}

/// Writes one line for each entry of a directory to the buffer if all lines fit, and returns their
/// total length in bytes. A line is `f SIZE NAME` for a file and `d 0 NAME` for a directory.
/// Doesn't change the buffer if the lines don't fit.
///
/// # Errors
///
/// Returns -77 if `held` is None, or the negated number of the error that `Session::list` returns
/// (docs/OPERATIONS.md). On error, the buffer doesn't change. The session still works if only the
/// lines caused `NoMemory`.
pub fn list_lines<D: BlockDevice + Drop>(
    alloc: Global,
    held: &mut Option<Box<Session<D>, Global>>,
    path: &[u8],
    buffer: &mut [u8],
) -> i64
    ensures { IsCallOnBox (IsListCall path.now result buffer.old buffer.new) result held.old held.new }
{
    let Some(session) = held else {
        return CLOSED;
    };
    usize_code(fill_with_lines(alloc, session.list(alloc, path), buffer))
}

/// Makes an empty directory, and returns 0.
///
/// # Errors
///
/// Returns -77 if `held` is None, or the negated number of the error that `Session::mkdir` returns
/// (docs/OPERATIONS.md).
pub fn mkdir<D: BlockDevice + Drop>(
    alloc: Global,
    held: &mut Option<Box<Session<D>, Global>>,
    path: &[u8],
) -> i64
    ensures { IsCallOnBox (IsUnitCall (ops.Mkdir path.now) result) result held.old held.new }
{
    let Some(session) = held else {
        return CLOSED;
    };
    unit_code(session.mkdir(alloc, path))
}

/// Removes a file or an empty directory, and returns 0.
///
/// # Errors
///
/// Returns -77 if `held` is None, or the negated number of the error that `Session::remove` returns
/// (docs/OPERATIONS.md).
pub fn remove_entry<D: BlockDevice + Drop>(
    alloc: Global,
    held: &mut Option<Box<Session<D>, Global>>,
    path: &[u8],
) -> i64
    ensures { IsCallOnBox (IsUnitCall (ops.Remove path.now) result) result held.old held.new }
{
    let Some(session) = held else {
        return CLOSED;
    };
    unit_code(session.remove(alloc, path))
}

/// Renames an entry, and returns 0. A file replaces a file at the new path, and a directory
/// replaces an empty directory.
///
/// # Errors
///
/// Returns -77 if `held` is None, or the negated number of the error that `Session::rename` returns
/// (docs/OPERATIONS.md).
pub fn rename_entry<D: BlockDevice + Drop>(
    alloc: Global,
    held: &mut Option<Box<Session<D>, Global>>,
    from: &[u8],
    to: &[u8],
) -> i64
    ensures { IsCallOnBox (IsUnitCall (ops.Rename from.now to.now) result) result held.old held.new }
{
    let Some(session) = held else {
        return CLOSED;
    };
    unit_code(session.rename(alloc, from, to))
}

/// Copies an entry's attribute of type `kind` to the buffer if it fits, and returns the attribute's
/// length in bytes. Doesn't change the buffer if the attribute doesn't fit.
///
/// # Errors
///
/// Returns -77 if `held` is None, or the negated number of the error that `Session::get_attr`
/// returns (docs/OPERATIONS.md). On error, the buffer doesn't change.
pub fn get_attr<D: BlockDevice + Drop>(
    alloc: Global,
    held: &mut Option<Box<Session<D>, Global>>,
    path: &[u8],
    kind: u8,
    buffer: &mut [u8],
) -> i64
    ensures { IsCallOnBox (IsBytesCall (ops.GetAttr path.now kind) result buffer.old buffer.new) result held.old held.new }
{
    let Some(session) = held else {
        return CLOSED;
    };
    fill_with_bytes(session.get_attr(alloc, path, kind), buffer)
}

/// Sets an entry's attribute of type `kind`, or replaces it if the entry already has one. Returns
/// 0.
///
/// # Errors
///
/// Returns -77 if `held` is None, or the negated number of the error that `Session::set_attr`
/// returns (docs/OPERATIONS.md).
pub fn set_attr<D: BlockDevice + Drop>(
    alloc: Global,
    held: &mut Option<Box<Session<D>, Global>>,
    path: &[u8],
    kind: u8,
    bytes: &[u8],
) -> i64
    ensures { IsCallOnBox (IsUnitCall (ops.SetAttr path.now kind bytes.now) result) result held.old held.new }
{
    let Some(session) = held else {
        return CLOSED;
    };
    unit_code(session.set_attr(alloc, path, kind, bytes))
}

/// Removes an entry's attribute of type `kind`, and returns 0.
///
/// # Errors
///
/// Returns -77 if `held` is None, or the negated number of the error that `Session::remove_attr`
/// returns (docs/OPERATIONS.md).
pub fn remove_attr<D: BlockDevice + Drop>(
    alloc: Global,
    held: &mut Option<Box<Session<D>, Global>>,
    path: &[u8],
    kind: u8,
) -> i64
    ensures { IsCallOnBox (IsUnitCall (ops.RemoveAttr path.now kind) result) result held.old held.new }
{
    let Some(session) = held else {
        return CLOSED;
    };
    unit_code(session.remove_attr(alloc, path, kind))
}
