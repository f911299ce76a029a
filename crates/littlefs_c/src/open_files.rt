// Calls on open files.

ghost use Rattle.std.specs.Prelude.{◌≡◌, ◌≤◌, ◌<◌, ◌^◌, IfNone, IfOk, MatchResult, drop, length};
ghost use Rattle.lfs_model.specs.session.Operations as ops;
ghost use Rattle.lfs_volume.specs.Calls as calls;
ghost use Rattle.lfs_volume.specs.VolumeCalls.{IsVolumeCall};
ghost use Rattle.littlefs_c.specs.Volumes.{CallsVolume, IsCountCall, IsReadCall, IsUnitCall, read_result};
ghost use Rattle.littlefs_values.specs.Flags.{flags_of_number};

use crate::handle::{Handle, put_volume, take_volume};
use crate::noted::ImageDevice;
use bitflags::Flags;
use lfs_volume::{Error, OpenFlags, Volume};
use littlefs_values::{CLOSED, count_code, unit_code, usize_code};
use std::alloc::Global;

/// Opens a file, and returns its number, the lowest that is free. The bits of `flags` select
/// reading, writing or both. Any number of files may be open, and a file may be open several times.
///
/// # Errors
///
/// Returns -77 if nothing is mounted, or the negated number of the error that `Volume::open`
/// returns (docs/OPERATIONS.md).
#[unsafe(no_mangle)]
pub extern "C" fn lfs_c_open(alloc: Global, volume: &mut Handle, path: &[u8], flags: u32) -> i64
    ensures { CallsVolume (IsCountCall (calls.Open path.now (flags_of_number flags)) ops.Opened result) result volume.old.slot.mounted volume.new.slot.mounted }
{
    let Some(mut inner) = take_volume(alloc, volume) else {
        return CLOSED;
    };
    let answer = inner
        .volume
        .open(alloc, path, OpenFlags::from_bits_retain(flags));
    put_volume(volume, inner);
    count_code(answer)
}

// Reads an open file into a buffer, and returns the number of bytes read.
fn read_file(
    alloc: Global,
    volume: &mut Volume<ImageDevice>,
    file: u32,
    buffer: &mut [u8],
) -> Result<usize, Error>
    ensures call { IsVolumeCall volume.old (calls.Read file (length buffer.old)) (read_result result buffer.new) volume.new }
    ensures rest { MatchResult result (λ n. (n ≤ length buffer.old) × (drop n buffer.new ≡ drop n buffer.old)) (λ e. buffer.new ≡ buffer.old) }
    ensures small { IfOk result (λ n. n < 2 ^ 63) }
{
    match volume.read_into(alloc, file, buffer) {
        Ok(count) => Ok(count),
        Err(error) => Err(error),
    }
}

/// Reads an open file from its position into the buffer, and returns the number of bytes read.
/// Fills the whole buffer unless the file ends first, and doesn't change the rest of the buffer.
/// Advances the position by the number of bytes read.
///
/// # Errors
///
/// Returns -77 if nothing is mounted, or the negated number of the error that `Volume::read_into`
/// returns (docs/OPERATIONS.md). On error, the buffer doesn't change.
#[unsafe(no_mangle)]
pub extern "C" fn lfs_c_file_read(
    alloc: Global,
    volume: &mut Handle,
    file: u32,
    buffer: &mut [u8],
) -> i64
    ensures call { CallsVolume (IsReadCall file result buffer.old buffer.new) result volume.old.slot.mounted volume.new.slot.mounted }
    ensures closed { IfNone volume.old.slot.mounted (buffer.new ≡ buffer.old) }
{
    let Some(mut inner) = take_volume(alloc, volume) else {
        return CLOSED;
    };
    let answer = read_file(alloc, &mut inner.volume, file, buffer);
    put_volume(volume, inner);
    usize_code(answer)
}

/// Writes bytes at the position of a file that is open for writing, or at the file's end if it was
/// opened to append. Returns the number of bytes written. A sync or a close of the file commits the
/// written bytes.
///
/// # Errors
///
/// Returns -77 if nothing is mounted, or the negated number of the error that `Volume::write`
/// returns (docs/OPERATIONS.md).
#[unsafe(no_mangle)]
pub extern "C" fn lfs_c_file_write(
    alloc: Global,
    volume: &mut Handle,
    file: u32,
    bytes: &[u8],
) -> i64
    ensures { CallsVolume (IsCountCall (calls.Write file bytes.now) ops.Count result) result volume.old.slot.mounted volume.new.slot.mounted }
{
    let Some(mut inner) = take_volume(alloc, volume) else {
        return CLOSED;
    };
    let answer = inner.volume.write(alloc, file, bytes);
    put_volume(volume, inner);
    count_code(answer)
}

/// Sets the position of an open file, in bytes from its beginning. Returns 0.
///
/// # Errors
///
/// Returns -77 if nothing is mounted, or the negated number of the error that `Volume::seek`
/// returns (docs/OPERATIONS.md).
#[unsafe(no_mangle)]
pub extern "C" fn lfs_c_file_seek(
    alloc: Global,
    volume: &mut Handle,
    file: u32,
    position: u32,
) -> i64
    ensures { CallsVolume (IsUnitCall (calls.Seek file position) result) result volume.old.slot.mounted volume.new.slot.mounted }
{
    let Some(mut inner) = take_volume(alloc, volume) else {
        return CLOSED;
    };
    let answer = inner.volume.seek(file, position);
    put_volume(volume, inner);
    unit_code(answer)
}

/// Returns the position of an open file, in bytes from its beginning.
///
/// # Errors
///
/// Returns -77 if nothing is mounted, -200 (`Failed`) if the volume has failed, and -9 (`BadFile`)
/// if `file` isn't the number of an open file.
#[unsafe(no_mangle)]
pub extern "C" fn lfs_c_file_tell(alloc: Global, volume: &mut Handle, file: u32) -> i64
    ensures { CallsVolume (IsCountCall (calls.Tell file) ops.Count result) result volume.old.slot.mounted volume.new.slot.mounted }
{
    let Some(inner) = take_volume(alloc, volume) else {
        return CLOSED;
    };
    let answer = inner.volume.position(file);
    put_volume(volume, inner);
    count_code(answer)
}

/// Returns the size of an open file in bytes, including changes that aren't synced.
///
/// # Errors
///
/// Returns -77 if nothing is mounted, -200 (`Failed`) if the volume has failed, and -9 (`BadFile`)
/// if `file` isn't the number of an open file.
#[unsafe(no_mangle)]
pub extern "C" fn lfs_c_file_size(alloc: Global, volume: &mut Handle, file: u32) -> i64
    ensures { CallsVolume (IsCountCall (calls.Size file) ops.Count result) result volume.old.slot.mounted volume.new.slot.mounted }
{
    let Some(inner) = take_volume(alloc, volume) else {
        return CLOSED;
    };
    let answer = inner.volume.size(file);
    put_volume(volume, inner);
    count_code(answer)
}

/// Truncates a file that is open for writing to `size` bytes, or extends it with zeros. Doesn't
/// change the file's position. Returns 0.
///
/// # Errors
///
/// Returns -77 if nothing is mounted, or the negated number of the error that `Volume::truncate`
/// returns (docs/OPERATIONS.md).
#[unsafe(no_mangle)]
pub extern "C" fn lfs_c_file_truncate(
    alloc: Global,
    volume: &mut Handle,
    file: u32,
    size: u32,
) -> i64
    ensures { CallsVolume (IsUnitCall (calls.Truncate file size) result) result volume.old.slot.mounted volume.new.slot.mounted }
{
    let Some(mut inner) = take_volume(alloc, volume) else {
        return CLOSED;
    };
    let answer = inner.volume.truncate(alloc, file, size);
    put_volume(volume, inner);
    unit_code(answer)
}

/// Commits the changes of an open file, and returns 0.
///
/// # Errors
///
/// Returns -77 if nothing is mounted, or the negated number of the error that `Volume::sync`
/// returns (docs/OPERATIONS.md).
#[unsafe(no_mangle)]
pub extern "C" fn lfs_c_file_sync(alloc: Global, volume: &mut Handle, file: u32) -> i64
    ensures { CallsVolume (IsUnitCall (calls.Sync file) result) result volume.old.slot.mounted volume.new.slot.mounted }
{
    let Some(mut inner) = take_volume(alloc, volume) else {
        return CLOSED;
    };
    let answer = inner.volume.sync(alloc, file);
    put_volume(volume, inner);
    unit_code(answer)
}

/// Commits the changes of an open file, and closes it. Frees the file's number even if the commit
/// is refused. Returns 0.
///
/// # Errors
///
/// Returns -77 if nothing is mounted, or the negated number of the error that `Volume::close`
/// returns (docs/OPERATIONS.md).
#[unsafe(no_mangle)]
pub extern "C" fn lfs_c_file_close(alloc: Global, volume: &mut Handle, file: u32) -> i64
    ensures { CallsVolume (IsUnitCall (calls.Close file) result) result volume.old.slot.mounted volume.new.slot.mounted }
{
    let Some(mut inner) = take_volume(alloc, volume) else {
        return CLOSED;
    };
    let answer = inner.volume.close(alloc, file);
    put_volume(volume, inner);
    unit_code(answer)
}
