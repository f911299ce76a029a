// Devices with a new file system or a given image, and sessions on them.

use lfs_device::{BlockDevice, Error, Geometry, RamDevice};
use lfs_fixtures::{BlockContents, FixtureEntries, image_with_commit};
use lfs_fs::{Session, format, mount};
use std::alloc::Global;

/// What a device contains.
#[derive(Clone, Copy)]
pub enum Start<'a> {
    /// A new file system on a device with this block size, page size and block count.
    Fresh(u32, u32, u32),
    /// An image of 16 blocks of 4,096 bytes: the entries after the superblock, and the contents of
    /// other blocks.
    Image(FixtureEntries<'a>, &'a [(usize, BlockContents<'a>)]),
}

/// Mounts a device, and drops it if the mount fails.
pub fn mount_image<D: BlockDevice + Drop>(alloc: Global, device: D) -> Result<Session<D>, Error> {
    match mount(alloc, device) {
        Ok(session) => Ok(session),
        Err((_, error)) => Err(error),
    }
}

// Formats a device, and drops it if the format fails.
fn format_blank<D: BlockDevice + Drop>(alloc: Global, device: D) -> Result<Session<D>, Error> {
    match format(alloc, device) {
        Ok(session) => Ok(session),
        Err((_, error)) => Err(error),
    }
}

/// Returns a device in memory with the contents that `start` describes.
pub fn device_with_start_image(alloc: Global, start: Start<'_>) -> Result<RamDevice, Error> {
    match start {
        Start::Fresh(block_size, page, block_count) => {
            let geometry = Geometry::new(block_size, page, block_count)?;
            let session = format_blank(alloc, RamDevice::blank(alloc, geometry)?)?;
            Ok(session.unmount())
        }
        Start::Image(entries, others) => {
            let bytes = image_with_commit(alloc, entries, others)?;
            RamDevice::from_bytes(Geometry::new(4096, 256, 16)?, bytes)
        }
    }
}

/// Returns a device in memory with the same bytes.
pub fn copy_device(alloc: Global, device: &RamDevice) -> Result<RamDevice, Error> {
    let bytes = Vec::from_slice(alloc, device.bytes())?;
    RamDevice::from_bytes(device.geometry(), bytes)
}
