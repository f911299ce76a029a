// Calls that mount, format and unmount a volume in a handle.

ghost use Rattle.std.specs.Prelude.{◌≡◌, [], pos, None, IfOk, IfErr};
ghost use Rattle.littlefs_c.specs.Images.{IsImageDevice};
ghost use Rattle.littlefs_c.specs.Configs.{IsValidConfig, config_profile};
ghost use Rattle.littlefs_c.specs.Mounts.{PutsVolumeInHandle, FormatsImage, IsHandleCallCode, IsBlankDevice, MountsImage, MountsWithImageLimits, PreventsFormat, PreventsMount};

use crate::config::ImageConfig;
use crate::handle::{Handle, put_volume, take_volume};
use crate::image::new_image_device;
use crate::mounted::Mounted;
use crate::noted::{ImageDevice, Noted, image_device};
use lfs_device::{Geometry, RamDevice};
use lfs_volume::{Error, Volume, format_ordered, mount, mount_with_limits};
use littlefs_values::unit_code;
use std::alloc::Global;

// Returns a mounted image of a volume, without open directories.
fn new_mounted(alloc: Global, volume: Volume<ImageDevice>) -> Mounted
    ensures volume { result.volume ≡ volume }
    ensures none { result.directories.items ≡ [] }
{
    Mounted {
        volume,
        directories: Vec::new(alloc),
    }
}

// Moves a mounted image into a box. Errors: `NoMemory` if memory can't be allocated.
fn box_mounted(alloc: Global, mounted: Mounted) -> Result<Box<Mounted, Global>, Error>
    ensures ok { IfOk result (λ b. b.value ≡ mounted) }
    ensures err { IfErr result (λ e. e ≡ Error.NoMemory) }
{
    match Box::new(alloc, mounted) {
        Ok(b) => Ok(b),
        Err(_) => Err(Error::NoMemory),
    }
}

// Returns a device in memory with a copy of an image, as `config` describes it. Errors: `Invalid`
// if a field is out of range or the bytes aren't an image of that geometry. `NoMemory` if memory
// can't be allocated.
fn copy_of_image(alloc: Global, config: &ImageConfig, image: &[u8]) -> Result<RamDevice, Error>
    ensures ok { IfOk result (λ d. IsValidConfig config.now × IsImageDevice config.now.block_size config.now.page (config_profile config.now) image.now d) }
    ensures err { IfErr result (PreventsMount config.now image.now) }
{
    if !config.is_valid() {
        return Err(Error::Invalid);
    }
    let profile = config.profile();
    new_image_device(alloc, image, config.block_size, config.page, profile)
}

// Mounts a volume over a copy of an image, with the limits of `config`.
fn mount_volume(alloc: Global, config: &ImageConfig, image: &[u8]) -> Result<Mounted, Error>
    ensures ok { IfOk result (MountsImage config.now image.now) }
    ensures err { IfErr result (PreventsMount config.now image.now) }
{
    let ram = copy_of_image(alloc, config, image)?;
    let profile = config.profile();
    match mount(alloc, image_device(alloc, ram, profile)) {
        Ok(volume) => Ok(new_mounted(alloc, volume)),
        Err((_device, error)) => Err(error),
    }
}

// Mounts a volume over a copy of an image, with the limits that the image's superblock states.
fn mount_limited_volume(alloc: Global, config: &ImageConfig, image: &[u8]) -> Result<Mounted, Error>
    ensures ok { IfOk result (MountsWithImageLimits config.now image.now) }
    ensures err { IfErr result (PreventsMount config.now image.now) }
{
    let ram = copy_of_image(alloc, config, image)?;
    let profile = config.profile();
    match mount_with_limits(alloc, Noted::new(alloc, ram), profile) {
        Ok(volume) => Ok(new_mounted(alloc, volume)),
        Err((_device, error)) => Err(error),
    }
}

// Mounts a copy of an image, and puts the volume into an empty handle.
fn mount_into_handle(
    alloc: Global,
    volume: &mut Handle,
    config: &ImageConfig,
    image: &[u8],
) -> Result<(), Error>
    ensures { PutsVolumeInHandle (MountsImage config.now image.now) (PreventsMount config.now image.now) result volume.old.slot.mounted volume.new.slot.mounted }
{
    if let Some(open) = take_volume(alloc, volume) {
        put_volume(volume, open);
        return Err(Error::Busy);
    }
    let inner = mount_volume(alloc, config, image)?;
    let b = box_mounted(alloc, inner)?;
    put_volume(volume, b);
    Ok(())
}

/// Mounts a copy of an image, and returns 0. If the image's names fit either order, the volume uses
/// littlefs's order, which puts longer names first.
///
/// # Errors
///
/// Returns -16 (`Busy`) if the handle already has a volume. Returns -22 (`Invalid`) if a field of
/// `config` is out of range, or if the bytes aren't an image of that geometry. Returns -84
/// (`Corrupt`) if the image is accepted in neither order of names, and -12 (`NoMemory`) if memory
/// can't be allocated. On error, the handle doesn't change.
#[unsafe(no_mangle)]
pub extern "C" fn lfs_c_mount(
    alloc: Global,
    volume: &mut Handle,
    config: &ImageConfig,
    image: &[u8],
) -> i64
    ensures { IsHandleCallCode (MountsImage config.now image.now) (PreventsMount config.now image.now) result volume.old.slot.mounted volume.new.slot.mounted }
{
    unit_code(mount_into_handle(alloc, volume, config, image))
}

// Mounts a copy of an image with the image's own limits, and puts the volume into an empty handle.
fn mount_limited_handle(
    alloc: Global,
    volume: &mut Handle,
    config: &ImageConfig,
    image: &[u8],
) -> Result<(), Error>
    ensures { PutsVolumeInHandle (MountsWithImageLimits config.now image.now) (PreventsMount config.now image.now) result volume.old.slot.mounted volume.new.slot.mounted }
{
    if let Some(open) = take_volume(alloc, volume) {
        put_volume(volume, open);
        return Err(Error::Busy);
    }
    let inner = mount_limited_volume(alloc, config, image)?;
    let b = box_mounted(alloc, inner)?;
    put_volume(volume, b);
    Ok(())
}

/// Mounts a copy of an image as [`lfs_c_mount`] does, but with the limits that the image's
/// superblock states. Thus an image that was made with lower limits can be changed without
/// exceeding them. Returns 0.
///
/// # Errors
///
/// Returns the errors of [`lfs_c_mount`]. On error, the handle doesn't change.
#[unsafe(no_mangle)]
pub extern "C" fn lfs_c_mount_with_limits(
    alloc: Global,
    volume: &mut Handle,
    config: &ImageConfig,
    image: &[u8],
) -> i64
    ensures { IsHandleCallCode (MountsWithImageLimits config.now image.now) (PreventsMount config.now image.now) result volume.old.slot.mounted volume.new.slot.mounted }
{
    unit_code(mount_limited_handle(alloc, volume, config, image))
}

// Returns a device in memory with `block_count` blocks, in which every byte is 255.
fn blank_device(alloc: Global, config: &ImageConfig, block_count: u32) -> Result<RamDevice, Error>
    ensures ok { IfOk result (IsBlankDevice config.now block_count) }
    ensures err { IfErr result (PreventsFormat config.now block_count) }
{
    if !config.is_valid() {
        return Err(Error::Invalid);
    }
    let geometry = Geometry::new(config.block_size, config.page, block_count)?;
    RamDevice::blank(alloc, geometry.with_profile(config.profile()))
}

// Makes an empty file system of `block_count` blocks, and returns a mounted volume over it.
fn format_volume(alloc: Global, config: &ImageConfig, block_count: u32) -> Result<Mounted, Error>
    ensures ok { IfOk result (FormatsImage config.now block_count) }
    ensures err { IfErr result (PreventsFormat config.now block_count) }
{
    let ram = blank_device(alloc, config, block_count)?;
    let device = image_device(alloc, ram, config.profile());
    match format_ordered(alloc, device, config.name_order()) {
        Ok(volume) => Ok(new_mounted(alloc, volume)),
        // A device in memory never fails, so the only possible error is `NoMemory`.
        Err((_device, error)) => Err(error),
    }
}

// Makes an empty file system, and puts its volume into an empty handle.
fn format_into_handle(
    alloc: Global,
    volume: &mut Handle,
    config: &ImageConfig,
    block_count: u32,
) -> Result<(), Error>
    ensures { PutsVolumeInHandle (FormatsImage config.now block_count) (PreventsFormat config.now block_count) result volume.old.slot.mounted volume.new.slot.mounted }
{
    if let Some(open) = take_volume(alloc, volume) {
        put_volume(volume, open);
        return Err(Error::Busy);
    }
    let inner = format_volume(alloc, config, block_count)?;
    let b = box_mounted(alloc, inner)?;
    put_volume(volume, b);
    Ok(())
}

/// Makes an empty file system of `block_count` blocks, and mounts it. Every byte outside of blocks
/// 0 and 1 is 255. Returns 0.
///
/// # Errors
///
/// Returns -16 (`Busy`) if the handle already has a volume, -22 (`Invalid`) if a field of `config`
/// or `block_count` is out of range, and -12 (`NoMemory`) if memory can't be allocated. On error,
/// the handle doesn't change.
#[unsafe(no_mangle)]
pub extern "C" fn lfs_c_mkfs(
    alloc: Global,
    volume: &mut Handle,
    config: &ImageConfig,
    block_count: u32,
) -> i64
    ensures { IsHandleCallCode (FormatsImage config.now block_count) (PreventsFormat config.now block_count) result volume.old.slot.mounted volume.new.slot.mounted }
{
    unit_code(format_into_handle(alloc, volume, config, block_count))
}

/// Unmounts a volume, and frees its memory. Writes nothing, so changes that aren't synced are lost.
/// Returns 0, even if nothing is mounted.
#[unsafe(no_mangle)]
pub extern "C" fn lfs_c_unmount(alloc: Global, volume: &mut Handle) -> i64
    ensures closed { volume.new.slot.mounted ≡ None }
    ensures code { result ≡ pos 0 }
{
    drop(take_volume(alloc, volume));
    0
}
