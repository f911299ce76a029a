// Tests of the calls that a volume forwards to its session, and of the ways to mount.

use crate::rows::new_volume;
use bitflags::Flags;
use lfs_device::{Error, Geometry, RamDevice};
use lfs_volume::{
    Kind, NameOrder, OpenFlags, Profile, Superblock, Volume, format, format_ordered, mount,
    mount_with_limits,
};
use std::alloc::Global;
use std::test::Fail;

// A format uses two blocks, and a directory uses two more.
#[test]
fn volume_answers_like_its_session(rt: HostRuntime) -> Result<(), Fail> {
    let alloc = rt.alloc();
    let mut volume = new_volume(alloc, 16)?;
    volume.mkdir(alloc, b"/d")?;
    volume.set_attr(alloc, b"/d", 7, b"blue")?;
    assert_eq!(rt;
        volume.get_attr(alloc, b"/d", 7)?.as_slice(),
        b"blue".as_slice()
    );
    volume.remove_attr(alloc, b"/d", 7)?;
    assert!(rt; volume.get_attr(alloc, b"/d", 7).is_err());
    assert_eq!(rt; volume.list(alloc, b"/")?.len(), 1);
    assert_eq!(rt; volume.used_count()?, 4);
    assert!(rt; volume.is_used(1)?);
    assert!(rt; volume.is_used(16).is_err());
    volume.recover(alloc)?;
    assert_eq!(rt; volume.gstate()?.moving, None);
    Ok(())
}

#[test]
fn a_buffer_is_filled_from_its_beginning(rt: HostRuntime) -> Result<(), Fail> {
    let alloc = rt.alloc();
    let mut volume = new_volume(alloc, 16)?;
    let new = OpenFlags::READ | OpenFlags::WRITE | OpenFlags::CREATE;
    let one = volume.open(alloc, b"/a", new)?;
    volume.write(alloc, one, b"abc")?;
    volume.seek(one, 1)?;
    let mut buf = [b'.'; 4];
    assert_eq!(rt; volume.read_into(alloc, one, &mut buf)?, 2);
    assert_eq!(rt; buf.as_slice(), b"bc..".as_slice());
    assert_eq!(rt; volume.read_into(alloc, one, &mut buf)?, 0);
    Ok(())
}

// Without another profile, the limits are littlefs's own.
fn has_own_limits(superblock: Superblock) -> bool {
    superblock.block_size == 1024
        && superblock.block_count == 16
        && superblock.name_max == 255
        && superblock.file_max == 2_147_483_647
        && superblock.attr_max == 1022
}

#[test]
fn image_is_described_as_by_the_session(rt: HostRuntime) -> Result<(), Fail> {
    let alloc = rt.alloc();
    let mut volume = new_volume(alloc, 16)?;
    assert!(rt; !volume.has_failed());
    assert!(rt; volume.is_writable());
    assert!(rt; volume.read_only_reason(alloc)?.is_none());
    assert_eq!(rt; volume.order(), NameOrder::LongerFirst);
    assert!(rt; has_own_limits(volume.superblock(alloc)?));
    Ok(())
}

fn blank_device(alloc: Global) -> Result<RamDevice, Error> {
    RamDevice::blank(alloc, Geometry::new(1024, 128, 16)?)
}

fn kind_at_a(alloc: Global, volume: &mut Volume<RamDevice>) -> Result<Kind, Error> {
    Ok(volume.stat(alloc, b"/a")?.kind)
}

#[test]
fn an_unmounted_device_is_mounted_again(rt: HostRuntime) -> Result<(), Fail> {
    let alloc = rt.alloc();
    let mut first = format(alloc, blank_device(alloc)?).map_err(|(_, error)| error)?;
    first.mkdir(alloc, b"/a")?;
    let mut second = mount(alloc, first.unmount()).map_err(|(_, error)| error)?;
    assert_eq!(rt; kind_at_a(alloc, &mut second)?, Kind::Dir);
    let mut third = mount_with_limits(alloc, second.unmount(), Profile::new()).map_err(|(
        _,
        error,
    )| error)?;
    assert_eq!(rt; third.stat(alloc, b"/a")?.kind, Kind::Dir);
    Ok(())
}

#[test]
fn a_format_takes_either_order(rt: HostRuntime) -> Result<(), Fail> {
    let alloc = rt.alloc();
    let mut volume = format_ordered(alloc, blank_device(alloc)?, NameOrder::ShorterFirst).map_err(|(
        _,
        error,
    )| error)?;
    assert_eq!(rt; volume.order(), NameOrder::ShorterFirst);
    volume.mkdir(alloc, b"/a")?;
    Ok(())
}
