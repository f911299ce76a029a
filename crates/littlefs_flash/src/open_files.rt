// Calls on open files.

ghost use Rattle.lfs_model.specs.session.Operations as ops;
ghost use Rattle.lfs_fs.specs.FileAnswers.{IsFileQueryResult, file_position, file_size};
ghost use Rattle.littlefs_flash.specs.Sessions.{IsCallOnBox, IsCountCall, IsFileAnswer, IsReadCall, IsUnitCall};
ghost use Rattle.littlefs_values.specs.Flags.{flags_of_number};

use bitflags::Flags;
use lfs_device::BlockDevice;
use lfs_fs::{OpenFlags, Session};
use littlefs_values::{CLOSED, count_code, unit_code, usize_code};
use std::alloc::Global;

/// Opens a file in the mode that the bits of `flags` select, and returns its number, the lowest
/// that is free. At most one file is open for writing, and at most 16 for reading.
///
/// # Errors
///
/// Returns -77 if `held` is None, or the negated number of the error that `Session::open` returns
/// (docs/OPERATIONS.md).
pub fn file_open<D: BlockDevice + Drop>(
    alloc: Global,
    held: &mut Option<Box<Session<D>, Global>>,
    path: &[u8],
    flags: u32,
) -> i64
    ensures { IsCallOnBox (IsCountCall (ops.Open path.now (flags_of_number flags)) ops.Opened result) result held.old held.new }
{
    let Some(session) = held else {
        return CLOSED;
    };
    count_code(session.open(alloc, path, OpenFlags::from_bits_retain(flags)))
}

/// Reads an open file from its position into the buffer, and returns the number of bytes read.
/// Fills the whole buffer unless the file ends first, and doesn't change the rest of the buffer.
/// Advances the position by the number of bytes read.
///
/// # Errors
///
/// Returns -77 if `held` is None, or the negated number of the error that `Session::read_into`
/// returns (docs/OPERATIONS.md). If the call is refused, the buffer doesn't change.
pub fn file_read<D: BlockDevice + Drop>(
    held: &mut Option<Box<Session<D>, Global>>,
    file: u32,
    buffer: &mut [u8],
) -> i64
    ensures { IsCallOnBox (IsReadCall file result buffer.old buffer.new) result held.old held.new }
{
    let Some(session) = held else {
        return CLOSED;
    };
    usize_code(session.read_into(file, buffer))
}

/// Writes bytes at the position of a file that is open for writing, or at the file's end if it was
/// opened to append. Returns the number of bytes written. A sync or a close of the file commits the
/// written bytes.
///
/// # Errors
///
/// Returns -77 if `held` is None, or the negated number of the error that `Session::write` returns
/// (docs/OPERATIONS.md).
pub fn file_write<D: BlockDevice + Drop>(
    alloc: Global,
    held: &mut Option<Box<Session<D>, Global>>,
    file: u32,
    bytes: &[u8],
) -> i64
    ensures { IsCallOnBox (IsCountCall (ops.Write file bytes.now) ops.Count result) result held.old held.new }
{
    let Some(session) = held else {
        return CLOSED;
    };
    count_code(session.write(alloc, file, bytes))
}

/// Sets the position of an open file, in bytes from its beginning. Returns 0.
///
/// # Errors
///
/// Returns -77 if `held` is None, or the negated number of the error that `Session::seek` returns
/// (docs/OPERATIONS.md).
pub fn file_seek<D: BlockDevice + Drop>(
    held: &mut Option<Box<Session<D>, Global>>,
    file: u32,
    position: u32,
) -> i64
    ensures { IsCallOnBox (IsUnitCall (ops.Seek file position) result) result held.old held.new }
{
    let Some(session) = held else {
        return CLOSED;
    };
    unit_code(session.seek(file, position))
}

/// Returns the position of an open file, in bytes from its beginning.
///
/// # Errors
///
/// Returns -77 if `held` is None, -200 (`Failed`) if the session has failed, and -9 (`BadFile`) if
/// `file` isn't the number of an open file.
pub fn file_tell<D: BlockDevice + Drop>(held: &Option<Box<Session<D>, Global>>, file: u32) -> i64
    ensures { IsCallOnBox (IsFileAnswer (λ s r. IsFileQueryResult file_position s file r) result) result held.now held.now }
{
    let Some(session) = held else {
        return CLOSED;
    };
    count_code(session.position(file))
}

/// Returns the size of an open file in bytes. The size of a file that is open for writing includes
/// changes that aren't synced.
///
/// # Errors
///
/// Returns -77 if `held` is None, -200 (`Failed`) if the session has failed, and -9 (`BadFile`) if
/// `file` isn't the number of an open file.
pub fn file_size<D: BlockDevice + Drop>(held: &Option<Box<Session<D>, Global>>, file: u32) -> i64
    ensures { IsCallOnBox (IsFileAnswer (λ s r. IsFileQueryResult file_size s file r) result) result held.now held.now }
{
    let Some(session) = held else {
        return CLOSED;
    };
    count_code(session.size(file))
}

/// Truncates a file that is open for writing to `size` bytes, or extends it with zeros. Doesn't
/// change the file's position. Returns 0.
///
/// # Errors
///
/// Returns -77 if `held` is None, or the negated number of the error that `Session::truncate`
/// returns (docs/OPERATIONS.md).
pub fn file_truncate<D: BlockDevice + Drop>(
    alloc: Global,
    held: &mut Option<Box<Session<D>, Global>>,
    file: u32,
    size: u32,
) -> i64
    ensures { IsCallOnBox (IsUnitCall (ops.Truncate file size) result) result held.old held.new }
{
    let Some(session) = held else {
        return CLOSED;
    };
    unit_code(session.truncate(alloc, file, size))
}

/// Commits the changes of an open file, and returns 0.
///
/// # Errors
///
/// Returns -77 if `held` is None, or the negated number of the error that `Session::sync` returns
/// (docs/OPERATIONS.md).
pub fn file_sync<D: BlockDevice + Drop>(
    alloc: Global,
    held: &mut Option<Box<Session<D>, Global>>,
    file: u32,
) -> i64
    ensures { IsCallOnBox (IsUnitCall (ops.Sync file) result) result held.old held.new }
{
    let Some(session) = held else {
        return CLOSED;
    };
    unit_code(session.sync(alloc, file))
}

/// Commits the changes of an open file, closes it and frees its number. Returns 0.
///
/// # Errors
///
/// Returns -77 if `held` is None, or the negated number of the error that `Session::close` returns
/// (docs/OPERATIONS.md).
pub fn file_close<D: BlockDevice + Drop>(
    alloc: Global,
    held: &mut Option<Box<Session<D>, Global>>,
    file: u32,
) -> i64
    ensures { IsCallOnBox (IsUnitCall (ops.Close file) result) result held.old held.new }
{
    let Some(session) = held else {
        return CLOSED;
    };
    unit_code(session.close(alloc, file))
}
