// Writes and reads of files for the benchmarks against littlefs's own code.

use crate::files::{CountingSession, file_path, write_new_file};
use lfs_device::Error;
use lfs_fs::OpenFlags;
use std::alloc::Global;

fn append_open_flags() -> OpenFlags {
    OpenFlags::WRITE | OpenFlags::CREATE | OpenFlags::APPEND
}

fn replace_open_flags() -> OpenFlags {
    OpenFlags::WRITE | OpenFlags::CREATE | OpenFlags::TRUNCATE
}

/// Appends bytes to a file, which is created if it is missing.
pub fn append_bytes_to_file(
    alloc: Global,
    session: &mut CountingSession,
    path: &[u8],
    bytes: &[u8],
) -> Result<(), Error> {
    let fd = session.open(alloc, path, append_open_flags())?;
    session.write(alloc, fd, bytes)?;
    session.close(alloc, fd)
}

/// Replaces the contents of a file, or creates the file.
pub fn replace_file_contents(
    alloc: Global,
    session: &mut CountingSession,
    path: &[u8],
    bytes: &[u8],
) -> Result<(), Error> {
    let fd = session.open(alloc, path, replace_open_flags())?;
    session.write(alloc, fd, bytes)?;
    session.close(alloc, fd)
}

/// A piece that is written to a file several times.
#[derive(Clone, Copy)]
pub struct Pieces<'a> {
    pub path: &'a [u8],
    pub bytes: &'a [u8],
    pub count: u32,
    /// Whether the pieces are appended to the file, each with a sync after it.
    pub are_appended: bool,
}

/// Opens a file, which is created if it is missing, writes pieces to it, and closes it.
#[inline(never)]
pub fn write_pieces(
    alloc: Global,
    session: &mut CountingSession,
    pieces: Pieces<'_>,
) -> Result<(), Error> {
    let flags = if pieces.are_appended {
        append_open_flags()
    } else {
        OpenFlags::WRITE | OpenFlags::CREATE
    };
    let fd = session.open(alloc, pieces.path, flags)?;
    for _ in 0..pieces.count {
        session.write(alloc, fd, pieces.bytes)?;
        if pieces.are_appended {
            session.sync(alloc, fd)?;
        }
    }
    session.close(alloc, fd)
}

/// Opens a file, appends bytes and closes the file, `count` times.
pub fn open_and_append(
    alloc: Global,
    session: &mut CountingSession,
    bytes: &[u8],
    count: u32,
) -> Result<(), Error> {
    for _ in 0..count {
        append_bytes_to_file(alloc, session, b"/log", bytes)?;
    }
    Ok(())
}

/// Writes a file that repeats a piece `count` times.
pub fn write_file_in_pieces(
    alloc: Global,
    session: &mut CountingSession,
    path: &[u8],
    piece: &[u8],
    count: u32,
) -> Result<(), Error> {
    let pieces = Pieces {
        path,
        bytes: piece,
        count,
        are_appended: false,
    };
    write_pieces(alloc, session, pieces)
}

/// Appends bytes to an open file and syncs it, `count` times.
pub fn append_and_sync(
    alloc: Global,
    session: &mut CountingSession,
    bytes: &[u8],
    count: u32,
) -> Result<(), Error> {
    let pieces = Pieces {
        path: b"/log",
        bytes,
        count,
        are_appended: true,
    };
    write_pieces(alloc, session, pieces)
}

/// Reads `count` pieces of a file into the buffer `piece`.
pub fn read_file_in_pieces(
    alloc: Global,
    session: &mut CountingSession,
    path: &[u8],
    piece: &mut [u8],
    count: u32,
) -> Result<(), Error> {
    let fd = session.open(alloc, path, OpenFlags::READ)?;
    for _ in 0..count {
        session.read_into(fd, piece)?;
    }
    session.close(alloc, fd)
}

/// Reads a piece at pseudorandom offsets of a file of 1 MiB, `count` times.
pub fn read_at_random_positions(
    alloc: Global,
    session: &mut CountingSession,
    piece: &mut [u8],
    count: u32,
) -> Result<(), Error> {
    let fd = session.open(alloc, b"/big", OpenFlags::READ)?;
    let mut state = 1u32;
    for _ in 0..count {
        state = state.wrapping_mul(1_103_515_245).wrapping_add(12345);
        session.seek(fd, (state >> 8) % 1_048_000)?;
        session.read_into(fd, piece)?;
    }
    session.close(alloc, fd)
}

/// Overwrites ten bytes near the beginning of a file of 1 MiB, `count` times.
pub fn overwrite_bytes_repeatedly(
    alloc: Global,
    session: &mut CountingSession,
    count: u32,
) -> Result<(), Error> {
    for _ in 0..count {
        let fd = session.open(alloc, b"/big", OpenFlags::WRITE)?;
        session.seek(fd, 10)?;
        session.write(alloc, fd, &[b'w'; 10])?;
        session.close(alloc, fd)?;
    }
    Ok(())
}

/// Replaces the contents of a file with four other bytes, `count` times.
pub fn replace_small_file_repeatedly(
    alloc: Global,
    session: &mut CountingSession,
    count: u32,
) -> Result<(), Error> {
    let mut bytes = [b'a'; 4];
    for number in 0..count {
        bytes[0] = (number & 255) as u8;
        replace_file_contents(alloc, session, b"/f90000", &bytes)?;
    }
    Ok(())
}

/// Nearly fills the root's metadata pair with seven files of 512 bytes.
pub fn fill_root_pair_nearly(alloc: Global, session: &mut CountingSession) -> Result<(), Error> {
    write_new_file(alloc, session, b"/f90000", b"hell")?;
    for number in 0..7 {
        let path = file_path(alloc, number, 0)?;
        write_new_file(alloc, session, path.as_slice(), &[b'x'; 512])?;
    }
    Ok(())
}

/// Writes ten bytes to an open file, `count` times.
pub fn write_ten_bytes_repeatedly(
    alloc: Global,
    session: &mut CountingSession,
    count: u32,
) -> Result<(), Error> {
    let fd = session.open(alloc, b"/tiny", OpenFlags::WRITE | OpenFlags::CREATE)?;
    for _ in 0..count {
        session.write(alloc, fd, b"0123456789")?;
    }
    session.close(alloc, fd)
}
