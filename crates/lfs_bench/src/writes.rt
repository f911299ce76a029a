// A benchmark that writes a file in pieces of 4 KiB, in a session on a device in memory.

use crate::counting_device::{CountingDevice, Counts};
use lfs_device::{Error, Geometry, RamDevice};
use lfs_file::blocks_for;
use lfs_fs::{OpenFlags, Session, format};
use std::alloc::Global;
use std::io;
use std::time::Instant;

const BLOCK: u32 = 4096;

const PIECE: u32 = 4096;

type Writing = Session<CountingDevice<RamDevice>>;

// Returns the piece that is written repeatedly.
fn pseudorandom_file_piece() -> [u8; PIECE as usize] {
    let mut state = 1u32;
    let mut piece = [0; PIECE as usize];
    for byte in piece.iter_mut() {
        state = state.wrapping_mul(1_103_515_245).wrapping_add(12345);
        *byte = (state >> 16 & 0xff) as u8;
    }
    piece
}

// Begins a session on an empty file system with enough free blocks for `pieces` pieces, and opens a
// new file.
fn open_new_file(alloc: Global, pieces: u32) -> Result<(Writing, u32), Error> {
    let blocks = pieces.saturating_add(pieces / 64).saturating_add(16);
    let device = RamDevice::blank(alloc, Geometry::new(BLOCK, 256, blocks)?)?;
    let mut session = format(alloc, CountingDevice::new(alloc, device)).map_err(|(
        _,
        error,
    )| error)?;
    let fd = session.open(alloc, b"/file", OpenFlags::WRITE | OpenFlags::CREATE)?;
    Ok((session, fd))
}

// Writes the pieces, and closes the file.
fn write_pieces_and_close(
    alloc: Global,
    session: &mut Writing,
    fd: u32,
    pieces: u32,
) -> Result<(), Error> {
    let piece = pseudorandom_file_piece();
    for _ in 0..pieces {
        session.write(alloc, fd, &piece)?;
    }
    session.close(alloc, fd)
}

// Returns whether the file consists of `pieces` pieces.
fn file_has_pieces(alloc: Global, session: &mut Writing, pieces: u32) -> Result<bool, Error> {
    let piece = pseudorandom_file_piece();
    let fd = session.open(alloc, b"/file", OpenFlags::READ)?;
    for _ in 0..pieces {
        if session.read(alloc, fd, PIECE)?.as_slice() != piece.as_slice() {
            return Ok(false);
        }
    }
    let is_end = session.read(alloc, fd, PIECE)?.is_empty();
    Ok(is_end)
}

fn print_write_call_counts(rt: &HostRuntime, pieces: u32, counts: Counts) -> io::Result<()> {
    println!(rt;
        "{} blocks, {} erases, {} programs, {} of them in turn",
        blocks_for(BLOCK, pieces.saturating_mul(PIECE)),
        counts.erases,
        counts.programs,
        counts.in_turn
    )
}

/// Writes `pieces` pieces. Prints the number of the file's blocks, the erases and programs of its
/// writes and its close, and whether the bytes can be read back. Prints the nanoseconds on standard
/// error for bench/writes.py.
pub fn benchmark_file_writes(rt: &HostRuntime, pieces: u32) -> io::Result<()> {
    let (mut session, fd) = match open_new_file(rt.alloc(), pieces) {
        Ok(open_new_file) => open_new_file,
        Err(error) => return println!(rt; "{error:?}"),
    };
    let before = session.device().counts();
    let start = Instant::now(rt)?;
    let written = write_pieces_and_close(rt.alloc(), &mut session, fd, pieces);
    let time = start.elapsed(rt)?;
    print_write_call_counts(rt, pieces, session.device().counts().since(&before))?;
    let is_read = written.is_ok() && file_has_pieces(rt.alloc(), &mut session, pieces) == Ok(true);
    println!(rt; "read as written: {is_read}")?;
    eprintln!(rt; "{}", time.as_nanos())
}
