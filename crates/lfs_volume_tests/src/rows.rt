// Calls of a volume with their expected results.

use lfs_device::{BlockDevice, Error, Geometry, RamDevice};
use lfs_volume::{OpenFlags, Volume, format};
use std::alloc::Global;

/// A call of a volume. Each variant has the name of a method, and its fields are the arguments.
#[derive(Clone, Copy)]
pub enum Call<'a> {
    Open(&'a [u8], OpenFlags),
    Read(u32, u32),
    Write(u32, &'a [u8]),
    Seek(u32, u32),
    Position(u32),
    Size(u32),
    Truncate(u32, u32),
    Sync(u32),
    Close(u32),
    Mkdir(&'a [u8]),
    Remove(&'a [u8]),
    Rename(&'a [u8], &'a [u8]),
    // The size of a file in the tree.
    Stat(&'a [u8]),
    Remount,
}

/// The expected result of a call.
#[derive(Clone, Copy)]
pub enum ExpectedResult<'a> {
    Done,
    Number(u32),
    Bytes(&'a [u8]),
    Refused(Error),
}

/// A call and its expected result.
pub type Row<'a> = (Call<'a>, ExpectedResult<'a>);

fn is_done(answer: Result<(), Error>, want: ExpectedResult<'_>) -> bool {
    match answer {
        Ok(()) => matches!(want, ExpectedResult::Done),
        Err(error) => matches!(want, ExpectedResult::Refused(wanted) if wanted == error),
    }
}

fn is_number(answer: Result<u32, Error>, want: ExpectedResult<'_>) -> bool {
    match answer {
        Ok(number) => matches!(want, ExpectedResult::Number(wanted) if wanted == number),
        Err(error) => matches!(want, ExpectedResult::Refused(wanted) if wanted == error),
    }
}

fn are_bytes(answer: Result<Vec<u8>, Error>, want: ExpectedResult<'_>) -> bool {
    match answer {
        Ok(bytes) => matches!(want, ExpectedResult::Bytes(wanted) if wanted == bytes.as_slice()),
        Err(error) => matches!(want, ExpectedResult::Refused(wanted) if wanted == error),
    }
}

fn is_expected_size<D: BlockDevice>(
    alloc: Global,
    volume: &mut Volume<D>,
    path: &[u8],
    want: ExpectedResult<'_>,
) -> bool {
    match volume.stat(alloc, path) {
        Ok(stat) => matches!(want, ExpectedResult::Number(wanted) if wanted == stat.size),
        Err(error) => matches!(want, ExpectedResult::Refused(wanted) if wanted == error),
    }
}

// Returns whether a call has the expected result.
fn has_expected_result<D: BlockDevice>(
    alloc: Global,
    volume: &mut Volume<D>,
    call: Call<'_>,
    want: ExpectedResult<'_>,
) -> bool {
    match call {
        Call::Open(path, flags) => is_number(volume.open(alloc, path, flags), want),
        Call::Read(handle, count) => are_bytes(volume.read(alloc, handle, count), want),
        Call::Write(handle, bytes) => is_number(volume.write(alloc, handle, bytes), want),
        Call::Seek(handle, position) => is_done(volume.seek(handle, position), want),
        Call::Position(handle) => is_number(volume.position(handle), want),
        Call::Size(handle) => is_number(volume.size(handle), want),
        Call::Truncate(handle, size) => is_done(volume.truncate(alloc, handle, size), want),
        Call::Sync(handle) => is_done(volume.sync(alloc, handle), want),
        Call::Close(handle) => is_done(volume.close(alloc, handle), want),
        Call::Mkdir(path) => is_done(volume.mkdir(alloc, path), want),
        Call::Remove(path) => is_done(volume.remove(alloc, path), want),
        Call::Rename(from, to) => is_done(volume.rename(alloc, from, to), want),
        Call::Stat(path) => is_expected_size(alloc, volume, path, want),
        Call::Remount => is_done(volume.remount(alloc), want),
    }
}

/// Performs the calls on a volume. Returns the index of the first call with an unexpected result.
pub fn first_unexpected_call<D: BlockDevice>(
    alloc: Global,
    volume: &mut Volume<D>,
    rows: &[Row<'_>],
) -> Option<usize> {
    for (index, row) in rows.iter().enumerate() {
        if !has_expected_result(alloc, volume, row.0, row.1) {
            return Some(index);
        }
    }
    None
}

/// Makes a volume on a device in memory with `block_count` blocks of 1,024 bytes.
pub fn new_volume(alloc: Global, block_count: u32) -> Result<Volume<RamDevice>, Error> {
    let device = RamDevice::blank(alloc, Geometry::new(1024, 128, block_count)?)?;
    match format(alloc, device) {
        Ok(volume) => Ok(volume),
        Err((_, error)) => Err(error),
    }
}

/// Performs the calls on a new volume. Returns the index of the first call with an unexpected
/// result.
pub fn run_on_volume(
    alloc: Global,
    block_count: u32,
    rows: &[Row<'_>],
) -> Result<Option<usize>, Error> {
    let mut volume = new_volume(alloc, block_count)?;
    Ok(first_unexpected_call(alloc, &mut volume, rows))
}
