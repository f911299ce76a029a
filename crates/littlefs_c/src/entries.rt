// Calls on the file or directory at a path.

ghost use Rattle.std.specs.Prelude.{◌≡◌, IfNone};
ghost use Rattle.lfs_model.specs.session.Operations as ops;
ghost use Rattle.lfs_volume.specs.Calls as calls;
ghost use Rattle.littlefs_c.specs.Volumes.{CallsVolume, IsBytesCall, IsListCall, IsStatCall, IsUnitCall, IsUnitOperation};

use crate::handle::{Handle, put_volume, take_volume};
use littlefs_values::{CLOSED, fill_with_bytes, fill_with_lines, size_code, unit_code, usize_code};
use std::alloc::Global;

/// Returns a file's size in bytes, or 4,294,967,296 for a directory.
///
/// # Errors
///
/// Returns -77 if nothing is mounted, or the negated number of the error that `Volume::stat`
/// returns (docs/OPERATIONS.md).
#[unsafe(no_mangle)]
pub extern "C" fn lfs_c_stat_at(alloc: Global, volume: &mut Handle, path: &[u8]) -> i64
    ensures { CallsVolume (IsStatCall path.now result) result volume.old.slot.mounted volume.new.slot.mounted }
{
    let Some(mut inner) = take_volume(alloc, volume) else {
        return CLOSED;
    };
    let answer = inner.volume.stat(alloc, path);
    put_volume(volume, inner);
    size_code(answer)
}

/// Writes one line for each entry of a directory to the buffer if all lines fit, and returns their
/// total length in bytes. A line is `f SIZE NAME` for a file and `d 0 NAME` for a directory. Lines
/// are in name order: a name precedes all longer names that begin with it. In a name, the backslash
/// and each byte outside of the range from the space to `~` are written as `\xNN`. Doesn't change
/// the buffer if the lines don't fit.
///
/// # Errors
///
/// Returns -77 if nothing is mounted, or the negated number of the error that `Volume::list`
/// returns (docs/OPERATIONS.md). On error, the buffer doesn't change.
#[unsafe(no_mangle)]
pub extern "C" fn lfs_c_list_at(
    alloc: Global,
    volume: &mut Handle,
    path: &[u8],
    buffer: &mut [u8],
) -> i64
    ensures call { CallsVolume (IsListCall path.now result buffer.old buffer.new) result volume.old.slot.mounted volume.new.slot.mounted }
    ensures closed { IfNone volume.old.slot.mounted (buffer.new ≡ buffer.old) }
{
    let Some(mut inner) = take_volume(alloc, volume) else {
        return CLOSED;
    };
    let answer = inner.volume.list(alloc, path);
    put_volume(volume, inner);
    usize_code(fill_with_lines(alloc, answer, buffer))
}

/// Makes an empty directory, and returns 0.
///
/// # Errors
///
/// Returns -77 if nothing is mounted, or the negated number of the error that `Volume::mkdir`
/// returns (docs/OPERATIONS.md).
#[unsafe(no_mangle)]
pub extern "C" fn lfs_c_mkdir_at(alloc: Global, volume: &mut Handle, path: &[u8]) -> i64
    ensures { CallsVolume (IsUnitOperation (ops.Mkdir path.now) result) result volume.old.slot.mounted volume.new.slot.mounted }
{
    let Some(mut inner) = take_volume(alloc, volume) else {
        return CLOSED;
    };
    let answer = inner.volume.mkdir(alloc, path);
    put_volume(volume, inner);
    unit_code(answer)
}

/// Removes a file or an empty directory, and returns 0.
///
/// # Errors
///
/// Returns -77 if nothing is mounted, or the negated number of the error that `Volume::remove`
/// returns (docs/OPERATIONS.md).
#[unsafe(no_mangle)]
pub extern "C" fn lfs_c_remove_at(alloc: Global, volume: &mut Handle, path: &[u8]) -> i64
    ensures { CallsVolume (IsUnitCall (calls.Perform (ops.Remove path.now)) result) result volume.old.slot.mounted volume.new.slot.mounted }
{
    let Some(mut inner) = take_volume(alloc, volume) else {
        return CLOSED;
    };
    let answer = inner.volume.remove(alloc, path);
    put_volume(volume, inner);
    unit_code(answer)
}

/// Renames an entry, and returns 0. A file replaces a file at the new path, and a directory
/// replaces an empty directory.
///
/// # Errors
///
/// Returns -77 if nothing is mounted, or the negated number of the error that `Volume::rename`
/// returns (docs/OPERATIONS.md).
#[unsafe(no_mangle)]
pub extern "C" fn lfs_c_rename_at(alloc: Global, volume: &mut Handle, from: &[u8], to: &[u8]) -> i64
    ensures { CallsVolume (IsUnitCall (calls.Perform (ops.Rename from.now to.now)) result) result volume.old.slot.mounted volume.new.slot.mounted }
{
    let Some(mut inner) = take_volume(alloc, volume) else {
        return CLOSED;
    };
    let answer = inner.volume.rename(alloc, from, to);
    put_volume(volume, inner);
    unit_code(answer)
}

/// Copies an entry's attribute of type `kind` to the buffer if it fits, and returns the attribute's
/// length in bytes. Doesn't change the buffer if the attribute doesn't fit.
///
/// # Errors
///
/// Returns -77 if nothing is mounted, or the negated number of the error that `Volume::get_attr`
/// returns (docs/OPERATIONS.md). On error, the buffer doesn't change.
#[unsafe(no_mangle)]
pub extern "C" fn lfs_c_get_attr_at(
    alloc: Global,
    volume: &mut Handle,
    path: &[u8],
    kind: u8,
    buffer: &mut [u8],
) -> i64
    ensures call { CallsVolume (IsBytesCall (ops.GetAttr path.now kind) result buffer.old buffer.new) result volume.old.slot.mounted volume.new.slot.mounted }
    ensures closed { IfNone volume.old.slot.mounted (buffer.new ≡ buffer.old) }
{
    let Some(mut inner) = take_volume(alloc, volume) else {
        return CLOSED;
    };
    let answer = inner.volume.get_attr(alloc, path, kind);
    put_volume(volume, inner);
    fill_with_bytes(answer, buffer)
}

/// Sets an entry's attribute of type `kind`, or replaces it if the entry already has one. Returns
/// 0.
///
/// # Errors
///
/// Returns -77 if nothing is mounted, or the negated number of the error that `Volume::set_attr`
/// returns (docs/OPERATIONS.md).
#[unsafe(no_mangle)]
pub extern "C" fn lfs_c_set_attr_at(
    alloc: Global,
    volume: &mut Handle,
    path: &[u8],
    kind: u8,
    bytes: &[u8],
) -> i64
    ensures { CallsVolume (IsUnitOperation (ops.SetAttr path.now kind bytes.now) result) result volume.old.slot.mounted volume.new.slot.mounted }
{
    let Some(mut inner) = take_volume(alloc, volume) else {
        return CLOSED;
    };
    let answer = inner.volume.set_attr(alloc, path, kind, bytes);
    put_volume(volume, inner);
    unit_code(answer)
}

/// Removes an entry's attribute of type `kind`, and returns 0.
///
/// # Errors
///
/// Returns -77 if nothing is mounted, or the negated number of the error that `Volume::remove_attr`
/// returns (docs/OPERATIONS.md).
#[unsafe(no_mangle)]
pub extern "C" fn lfs_c_remove_attr_at(
    alloc: Global,
    volume: &mut Handle,
    path: &[u8],
    kind: u8,
) -> i64
    ensures { CallsVolume (IsUnitOperation (ops.RemoveAttr path.now kind) result) result volume.old.slot.mounted volume.new.slot.mounted }
{
    let Some(mut inner) = take_volume(alloc, volume) else {
        return CLOSED;
    };
    let answer = inner.volume.remove_attr(alloc, path, kind);
    put_volume(volume, inner);
    unit_code(answer)
}
