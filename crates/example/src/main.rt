// SPDX-License-Identifier: BSD-3-Clause
//! Examples of file systems in memory. The first example makes a directory, writes a file, mounts
//! the device again, and reads the file. The others show a device of your own that keeps settings,
//! a counter and a log, the recovery after a power loss, and a list of operations.
#![tactic(auto)]

mod operations;
mod own_device;
mod recovery;

use lfs_device::{Error, Geometry, RamDevice};
use lfs_fs::{OpenFlags, Session, format};
use std::alloc::Global;
use std::{io, str};

// Formats a small device of 8 blocks of 1,024 bytes with pages of 128, so that the interpreter of
// `rt try` finishes soon.
fn new_session(alloc: Global) -> Result<Session<RamDevice>, Error> {
    let device = RamDevice::blank(alloc, Geometry::new(1024, 128, 8)?)?;
    format(alloc, device).map_err(|(_, error)| error)
}

// Writes a file, mounts the device again, and returns the bytes that it reads from the file.
fn write_and_read(alloc: Global) -> Result<Vec<u8>, Error> {
    let mut session = new_session(alloc)?;
    session.mkdir(alloc, b"/log")?;
    let new_file = OpenFlags::WRITE.union(OpenFlags::CREATE);
    let file = session.open(alloc, b"/log/today", new_file)?;
    session.write(alloc, file, b"21.5 degrees")?;
    session.close(alloc, file)?;
    session.remount(alloc)?;
    let file = session.open(alloc, b"/log/today", OpenFlags::READ)?;
    session.read(alloc, file, 100)
}

fn main(rt: HostRuntime) -> io::Result<()> {
    match write_and_read(rt.alloc()) {
        Ok(bytes) => println!(rt;
            "/log/today: {}",
            str::from_utf8(&bytes).unwrap_or("no text")
        )?,
        Err(error) => println!(rt; "error {error:?} {}", error.number())?,
    }
    own_device::print_used_blocks(&rt)?;
    own_device::print_kept_files(&rt)?;
    recovery::print_stopped_renames(&rt)?;
    operations::print_example_replies(&rt)
}
