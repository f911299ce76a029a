// The wear of a device that is mounted many times.

use crate::contents::{append_bytes_to_file, replace_file_contents};
use crate::files::{CountingSession, file_path, make_directories};
use lfs_device::Error;
use lfs_fs::mount;
use std::alloc::Global;

const FILE: [u8; 700] = [b'x'; 700];

// Appends to a log, which is removed once it has more than 40,000 bytes.
fn append_log(alloc: Global, session: &mut CountingSession, bytes: &[u8]) -> Result<(), Error> {
    append_bytes_to_file(alloc, session, b"/log", bytes)?;
    if session.stat(alloc, b"/log")?.size > 40000 {
        session.remove(alloc, b"/log")?;
    }
    Ok(())
}

// Performs one pseudorandom operation: replaces a file, appends to a log, or removes a file if it
// exists.
fn perform_pseudorandom_operation(
    alloc: Global,
    session: &mut CountingSession,
    state: u32,
) -> Result<(), Error> {
    let path = file_path(alloc, (state >> 8) % 12, 3)?;
    let kind = (state >> 16) % 10;
    if kind < 5 {
        let size = (state >> 20) as usize % 700;
        return replace_file_contents(alloc, session, path.as_slice(), &FILE[..size]);
    }
    if kind < 9 {
        return append_log(alloc, session, &FILE[..64]);
    }
    match session.remove(alloc, path.as_slice()) {
        Err(Error::NoEnt) => Ok(()),
        removed => removed,
    }
}

// Ends a session and mounts its device again, as a reboot does.
fn mount_again(alloc: Global, session: CountingSession) -> Result<CountingSession, Error> {
    match mount(alloc, session.unmount()) {
        Ok(session) => Ok(session),
        Err((_, error)) => Err(error),
    }
}

/// Performs `count` pseudorandom operations, and mounts again after every 20th. Returns the last
/// session.
pub fn perform_pseudorandom_operations(
    alloc: Global,
    session: CountingSession,
    count: u32,
) -> Result<CountingSession, Error> {
    let mut session = session;
    make_directories(alloc, &mut session, 3)?;
    let mut state = 1u32;
    for number in 0..count {
        state = state.wrapping_mul(1_103_515_245).wrapping_add(12345);
        perform_pseudorandom_operation(alloc, &mut session, state)?;
        if number % 20 == 19 {
            session = mount_again(alloc, session)?;
        }
    }
    Ok(session)
}

/// Mounts the device `count` times, and appends 100 bytes to a log after each mount. Returns the
/// last session.
pub fn append_each_mount(
    alloc: Global,
    session: CountingSession,
    count: u32,
) -> Result<CountingSession, Error> {
    let mut session = session;
    for _ in 0..count {
        session = mount_again(alloc, session)?;
        append_log(alloc, &mut session, &FILE[..100])?;
    }
    Ok(session)
}

/// Mounts the device `count` times, and rewrites a counter after each mount. Returns the last
/// session.
pub fn rewrite_each_mount(
    alloc: Global,
    session: CountingSession,
    count: u32,
) -> Result<CountingSession, Error> {
    let mut session = session;
    for _ in 0..count {
        session = mount_again(alloc, session)?;
        replace_file_contents(alloc, &mut session, b"/count", b"1234")?;
    }
    Ok(session)
}
