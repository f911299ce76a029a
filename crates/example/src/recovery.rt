// A power loss during a rename, and the recovery from it.

use lfs_device::{CountedCalls, Error, FaultDevice, Geometry, RamDevice};
use lfs_fs::{format, mount};
use std::alloc::Global;
use std::io;

// Returns a device that lost power at the `nth` program of a rename.
fn device_stopped_in_rename(alloc: Global, nth: u64) -> Result<RamDevice, Error> {
    let device = RamDevice::blank(alloc, Geometry::new(1024, 128, 8)?)?;
    let mut session = format(alloc, device).map_err(|(_, error)| error)?;
    session.mkdir(alloc, b"/draft")?;
    let device = FaultDevice::new(session.unmount(), CountedCalls::Program, nth, true);
    let mut session = mount(alloc, device).map_err(|(_, error)| error)?;
    // `rename` returns `Io` because the device loses power.
    let _ = session.rename(alloc, b"/draft", b"/final");
    Ok(session.unmount().into_inner())
}

// Returns the path that exists after a power loss, a mount and a recovery: the old one or the new
// one.
fn path_after_rename_recovery(alloc: Global, nth: u64) -> Result<&'static str, Error> {
    let device = device_stopped_in_rename(alloc, nth)?;
    let mut session = mount(alloc, device).map_err(|(_, error)| error)?;
    session.recover(alloc)?;
    let is_old = session.stat(alloc, b"/draft").is_ok();
    Ok(if is_old { "/draft" } else { "/final" })
}

/// Prints the path that exists after a power loss at each of the rename's first two programs.
pub fn print_stopped_renames(rt: &HostRuntime) -> io::Result<()> {
    for nth in 1..3u64 {
        match path_after_rename_recovery(rt.alloc(), nth) {
            Ok(path) => println!(rt; "power lost at program {nth}: {path}")?,
            Err(error) => println!(rt; "error {error:?}")?,
        }
    }
    Ok(())
}
