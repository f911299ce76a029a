// Calls on a whole volume and its image.

ghost use Rattle.std.specs.Prelude.{◌≡◌, ◌^◌, ◌<◌, IfNone};
ghost use Rattle.lfs_model.specs.session.Operations as ops;
ghost use Rattle.littlefs_c.specs.Volumes.{CallsVolume, CopiesImage, CopiesImageRange, IsAnswerFromSession, IsBoolCall, IsCountOperation, IsDiskImage, IsRemountCall, IsUnitOperation};

use crate::handle::{Handle, put_volume, take_volume};
use crate::noted::ImageDevice;
use lfs_volume::Volume;
use littlefs_values::{
    CLOSED, bool_code, copy_from_offset, copy_if_fitting, count_code, unit_code,
};
use std::alloc::Global;

/// Closes all files and directories, and mounts the image again, even if the volume has failed.
/// Returns 0.
///
/// # Errors
///
/// Returns -77 if nothing is mounted. Returns -12 (`NoMemory`) if memory can't be allocated; the
/// volume has then failed.
#[unsafe(no_mangle)]
pub extern "C" fn lfs_c_remount(alloc: Global, volume: &mut Handle) -> i64
    ensures { CallsVolume (IsRemountCall result) result volume.old.slot.mounted volume.new.slot.mounted }
{
    let Some(mut inner) = take_volume(alloc, volume) else {
        return CLOSED;
    };
    inner.directories.clear();
    let answer = inner.volume.remount(alloc);
    put_volume(volume, inner);
    unit_code(answer)
}

/// Completes what a power loss left half done in the image, without changing the tree. Returns 0.
///
/// # Errors
///
/// Returns -77 if nothing is mounted, or the negated number of the error that `Volume::recover`
/// returns (docs/OPERATIONS.md).
#[unsafe(no_mangle)]
pub extern "C" fn lfs_c_recover(alloc: Global, volume: &mut Handle) -> i64
    ensures { CallsVolume (IsUnitOperation ops.Recover result) result volume.old.slot.mounted volume.new.slot.mounted }
{
    let Some(mut inner) = take_volume(alloc, volume) else {
        return CLOSED;
    };
    let answer = inner.volume.recover(alloc);
    put_volume(volume, inner);
    unit_code(answer)
}

/// Returns the number of blocks that the image uses.
///
/// # Errors
///
/// Returns -77 if nothing is mounted, and -200 (`Failed`) if the volume has failed.
#[unsafe(no_mangle)]
pub extern "C" fn lfs_c_used_blocks(alloc: Global, volume: &mut Handle) -> i64
    ensures { CallsVolume (IsCountOperation ops.UsedCount ops.Count result) result volume.old.slot.mounted volume.new.slot.mounted }
{
    let Some(inner) = take_volume(alloc, volume) else {
        return CLOSED;
    };
    let answer = inner.volume.used_count();
    put_volume(volume, inner);
    count_code(answer)
}

/// Returns 1 if the image uses a block, and 0 if the block is free.
///
/// # Errors
///
/// Returns -77 if nothing is mounted, -200 (`Failed`) if the volume has failed, and -22 (`Invalid`)
/// if the image has no such block.
#[unsafe(no_mangle)]
pub extern "C" fn lfs_c_is_used(alloc: Global, volume: &mut Handle, block: u32) -> i64
    ensures { CallsVolume (IsBoolCall (ops.IsUsed block) ops.Yes result) result volume.old.slot.mounted volume.new.slot.mounted }
{
    let Some(inner) = take_volume(alloc, volume) else {
        return CLOSED;
    };
    let answer = inner.volume.is_used(block);
    put_volume(volume, inner);
    bool_code(answer)
}

// Borrows the bytes of a volume's image.
fn image_of_volume(volume: &Volume<ImageDevice>) -> &[u8]
    ensures { IsDiskImage volume.now.session.tree.disk result.now }
{
    volume.device().inner().inner().bytes()
}

// Copies a volume's image to a buffer if it fits, and returns the image's size in bytes.
fn copy_image(volume: &Volume<ImageDevice>, buffer: &mut [u8]) -> usize
    ensures copied { CopiesImage volume.now.session result buffer.old buffer.new }
    ensures small { result < 2 ^ 63 }
{
    copy_if_fitting(image_of_volume(volume), buffer)
}

/// Copies the image to the buffer if it fits, and returns the image's size in bytes. Doesn't change
/// the buffer if the image doesn't fit. Works even if the volume has failed.
///
/// # Errors
///
/// Returns -77 if nothing is mounted.
#[unsafe(no_mangle)]
pub extern "C" fn lfs_c_image(alloc: Global, volume: &mut Handle, buffer: &mut [u8]) -> i64
    ensures call { CallsVolume (IsAnswerFromSession (λ s room. CopiesImage s room buffer.old buffer.new) result) result volume.old.slot.mounted volume.new.slot.mounted }
    ensures closed { IfNone volume.old.slot.mounted (buffer.new ≡ buffer.old) }
{
    let Some(inner) = take_volume(alloc, volume) else {
        return CLOSED;
    };
    let room = copy_image(&inner.volume, buffer);
    put_volume(volume, inner);
    room as i64
}

// Copies a part of a volume's image to a buffer, and returns the part's length in bytes.
fn copy_image_range(volume: &Volume<ImageDevice>, offset: usize, buffer: &mut [u8]) -> usize
    ensures copied { CopiesImageRange volume.now.session offset result buffer.old buffer.new }
    ensures small { result < 2 ^ 63 }
{
    copy_from_offset(image_of_volume(volume), offset, buffer)
}

/// Copies the image's bytes to the buffer, starting at `offset` in the image, and returns the
/// number of bytes copied. Stops when the buffer is full or the image ends, and copies nothing if
/// `offset` is past the end.
///
/// # Errors
///
/// Returns -77 if nothing is mounted.
#[unsafe(no_mangle)]
pub extern "C" fn lfs_c_image_part(
    alloc: Global,
    volume: &mut Handle,
    offset: usize,
    buffer: &mut [u8],
) -> i64
    ensures call { CallsVolume (IsAnswerFromSession (λ s count. CopiesImageRange s offset count buffer.old buffer.new) result) result volume.old.slot.mounted volume.new.slot.mounted }
    ensures closed { IfNone volume.old.slot.mounted (buffer.new ≡ buffer.old) }
{
    let Some(inner) = take_volume(alloc, volume) else {
        return CLOSED;
    };
    let count = copy_image_range(&inner.volume, offset, buffer);
    put_volume(volume, inner);
    count as i64
}
