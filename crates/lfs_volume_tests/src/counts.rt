// Tests of the device calls that a sync makes.

use bitflags::Flags;
use lfs_device::{CountedCalls, Error, FaultDevice, Geometry, RamDevice};
use lfs_volume::{OpenFlags, Volume, format};
use std::alloc::Global;
use std::test::Fail;

type CountedDevice = FaultDevice<RamDevice>;

// Makes a volume on a device that counts erases, with a file of 4,000 bytes that is open as number
// 0.
fn volume_with_file(alloc: Global) -> Result<Volume<CountedDevice>, Error> {
    let device = RamDevice::blank(alloc, Geometry::new(1024, 128, 32)?)?;
    let counted = FaultDevice::new(device, CountedCalls::Erase, 1_000_000, false);
    let mut volume = match format(alloc, counted) {
        Ok(volume) => volume,
        Err((_, error)) => return Err(error),
    };
    let both = OpenFlags::READ | OpenFlags::WRITE;
    volume.open(alloc, b"/a", both | OpenFlags::CREATE)?;
    volume.write(alloc, 0, &[7u8; 4000])?;
    volume.sync(alloc, 0)?;
    Ok(volume)
}

// Changes the byte at `at`, syncs, and returns the number of erases that the sync made.
fn erases_of_sync(
    alloc: Global,
    volume: &mut Volume<CountedDevice>,
    at: u32,
) -> Result<u64, Error> {
    volume.seek(0, at)?;
    volume.write(alloc, 0, b"!")?;
    let before = volume.device().calls(CountedCalls::Erase);
    volume.sync(alloc, 0)?;
    Ok(
        volume
            .device()
            .calls(CountedCalls::Erase)
            .saturating_sub(before),
    )
}

// In blocks of 1,024 bytes, the first four blocks of a CTZ skip-list hold 1,024, 1,020, 1,016 and
// 1,020 bytes, so the file needs four blocks. A sync keeps the blocks before the first changed
// byte.
#[test]
fn a_sync_stores_what_differs(rt: HostRuntime) -> Result<(), Fail> {
    let mut volume = volume_with_file(rt.alloc())?;
    assert_eq!(rt; erases_of_sync(rt.alloc(), &mut volume, 3999)?, 1);
    assert_eq!(rt; erases_of_sync(rt.alloc(), &mut volume, 2044)?, 2);
    assert_eq!(rt; erases_of_sync(rt.alloc(), &mut volume, 0)?, 4);
    Ok(())
}

#[test]
fn a_sync_without_a_change_calls_nothing(rt: HostRuntime) -> Result<(), Fail> {
    let alloc = rt.alloc();
    let mut volume = volume_with_file(alloc)?;
    let before = volume.device().calls(CountedCalls::Any);
    volume.sync(alloc, 0)?;
    assert_eq!(rt; volume.device().calls(CountedCalls::Any), before);
    Ok(())
}
