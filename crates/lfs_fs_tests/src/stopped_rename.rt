// A test of the paths that exist after a power loss during a rename.

use crate::recovery::rename_and_recover;
use crate::short_scripts::device_with_file_to_move;
use lfs_device::{CountedCalls, Error, FaultDevice};
use lfs_fs::{OpenFlags, mount};
use std::alloc::Global;
use std::test::Fail;

// Loses power at the `nth` program of a rename. Returns whether the file then exists at its old
// path, and whether it exists at the new one.
fn paths_after_rename(alloc: Global, nth: u64) -> Result<(bool, bool), Error> {
    let device = device_with_file_to_move(alloc, OpenFlags::WRITE | OpenFlags::CREATE)?;
    let stopping = FaultDevice::new(device, CountedCalls::Program, nth, true);
    let session = mount(alloc, stopping).map_err(|(_, error)| error)?;
    let mut session = rename_and_recover(alloc, session, b"/s/f", b"/g")?;
    let old = session.stat(alloc, b"/s/f").is_ok();
    Ok((old, session.stat(alloc, b"/g").is_ok()))
}

#[test]
fn a_stopped_rename_is_done_or_not(rt: HostRuntime) -> Result<(), Fail> {
    assert_eq!(rt; paths_after_rename(rt.alloc(), 1), Ok((true, false)));
    assert_eq!(rt; paths_after_rename(rt.alloc(), 2), Ok((false, true)));
    Ok(())
}
