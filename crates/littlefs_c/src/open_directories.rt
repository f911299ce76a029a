// Calls on open directories.

ghost use Rattle.std.specs.Prelude.{◌≡◌, IfNone};
ghost use Rattle.littlefs_c.specs.Directories.{RewindsDirectory};
ghost use Rattle.littlefs_c.specs.Volumes.{CallsVolume, IsDirClose, IsDirOpen, IsDirRead, IsDirRewind, IsDirSeek, IsDirTell};

use crate::directories::{
    close_directory, directory_position, read_directory, rewind_directory, seek_directory,
    store_open_directory,
};
use crate::entry_infos::EntryInfo;
use crate::handle::{Handle, put_volume, take_volume};
use crate::mounted::Mounted;
use lfs_volume::Error;
use littlefs_values::{CLOSED, bool_code, count_code, unit_code, usize_code};
use std::alloc::Global;

/// Opens a directory by reading the list of its entries, and returns its number, the lowest that is
/// free. Entries are in name order: a name precedes all longer names that begin with it. The
/// directory's position starts at 0, the index of the first entry.
///
/// # Errors
///
/// Returns -77 if nothing is mounted, or the negated number of the error that `Volume::list`
/// returns (docs/OPERATIONS.md). Also returns -12 (`NoMemory`) if the list can't be stored, in
/// which case the volume hasn't failed.
#[unsafe(no_mangle)]
pub extern "C" fn lfs_c_dir_open(alloc: Global, volume: &mut Handle, path: &[u8]) -> i64
    ensures { CallsVolume (IsDirOpen path.now result) result volume.old.slot.mounted volume.new.slot.mounted }
{
    let Some(mut inner) = take_volume(alloc, volume) else {
        return CLOSED;
    };
    let answer = inner.volume.list(alloc, path);
    let kept = store_open_directory(alloc, &mut inner.directories, path, answer);
    put_volume(volume, inner);
    count_code(kept)
}

/// Reads the entry at the position of an open directory into `entry`, advances the position by one
/// entry, and returns 1. Returns 0 at the end of the list. Copies the name to `name` if it fits; a
/// buffer of 255 bytes is always large enough.
///
/// # Errors
///
/// Returns -77 if nothing is mounted, and -9 (`BadFile`) if `dir` isn't the number of an open
/// directory.
#[unsafe(no_mangle)]
pub extern "C" fn lfs_c_dir_read(
    alloc: Global,
    volume: &mut Handle,
    dir: u32,
    entry: &mut EntryInfo,
    name: &mut [u8],
) -> i64
    ensures call { CallsVolume (IsDirRead dir entry.old entry.new name.old name.new result) result volume.old.slot.mounted volume.new.slot.mounted }
    ensures closed { IfNone volume.old.slot.mounted ((entry.new ≡ entry.old) × (name.new ≡ name.old)) }
{
    let Some(mut inner) = take_volume(alloc, volume) else {
        return CLOSED;
    };
    let answer = read_directory(&mut inner.directories, dir, entry, name);
    put_volume(volume, inner);
    bool_code(answer)
}

/// Sets the position of an open directory, an index into its list of entries. Returns 0.
///
/// # Errors
///
/// Returns -77 if nothing is mounted, -9 (`BadFile`) if `dir` isn't the number of an open
/// directory, and -22 (`Invalid`) if `position` is greater than the number of entries.
#[unsafe(no_mangle)]
pub extern "C" fn lfs_c_dir_seek(alloc: Global, volume: &mut Handle, dir: u32, position: u32) -> i64
    ensures { CallsVolume (IsDirSeek dir position result) result volume.old.slot.mounted volume.new.slot.mounted }
{
    let Some(mut inner) = take_volume(alloc, volume) else {
        return CLOSED;
    };
    let answer = seek_directory(&mut inner.directories, dir, position);
    put_volume(volume, inner);
    unit_code(answer)
}

/// Returns the position of an open directory, an index into its list of entries.
///
/// # Errors
///
/// Returns -77 if nothing is mounted, and -9 (`BadFile`) if `dir` isn't the number of an open
/// directory.
#[unsafe(no_mangle)]
pub extern "C" fn lfs_c_dir_tell(alloc: Global, volume: &mut Handle, dir: u32) -> i64
    ensures { CallsVolume (IsDirTell dir result) result volume.old.slot.mounted volume.new.slot.mounted }
{
    let Some(inner) = take_volume(alloc, volume) else {
        return CLOSED;
    };
    let answer = directory_position(&inner.directories, dir);
    put_volume(volume, inner);
    usize_code(answer)
}

// Lists an open directory of a mounted image again. `dir` is the directory's number.
fn rewind_mounted(alloc: Global, mounted: &mut Mounted, dir: u32) -> Result<(), Error>
    ensures { RewindsDirectory dir result mounted.old.volume mounted.old.directories.items mounted.new.volume mounted.new.directories.items }
{
    rewind_directory(alloc, &mut mounted.volume, &mut mounted.directories, dir)
}

/// Lists an open directory again by the path that opened it, and sets its position to 0. Returns 0.
///
/// # Errors
///
/// Returns -77 if nothing is mounted, -9 (`BadFile`) if `dir` isn't the number of an open
/// directory, or the negated number of the error that `Volume::list` returns (docs/OPERATIONS.md).
/// On error, the directory's list and position don't change.
#[unsafe(no_mangle)]
pub extern "C" fn lfs_c_dir_rewind(alloc: Global, volume: &mut Handle, dir: u32) -> i64
    ensures { CallsVolume (IsDirRewind dir result) result volume.old.slot.mounted volume.new.slot.mounted }
{
    let Some(mut inner) = take_volume(alloc, volume) else {
        return CLOSED;
    };
    let answer = rewind_mounted(alloc, &mut inner, dir);
    put_volume(volume, inner);
    unit_code(answer)
}

/// Closes an open directory and frees its number. Returns 0.
///
/// # Errors
///
/// Returns -77 if nothing is mounted, and -9 (`BadFile`) if `dir` isn't the number of an open
/// directory.
#[unsafe(no_mangle)]
pub extern "C" fn lfs_c_dir_close(alloc: Global, volume: &mut Handle, dir: u32) -> i64
    ensures { CallsVolume (IsDirClose dir result) result volume.old.slot.mounted volume.new.slot.mounted }
{
    let Some(mut inner) = take_volume(alloc, volume) else {
        return CLOSED;
    };
    let answer = close_directory(&mut inner.directories, dir);
    put_volume(volume, inner);
    unit_code(answer)
}
