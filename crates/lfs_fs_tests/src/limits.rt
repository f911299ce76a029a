// Tests of images that were made with lower limits than the format's.

use crate::answers::ExpectedReply::{Done, Refused};
use crate::answers::Row;
use crate::row_runs::first_operation_with_wrong_reply;
use lfs_device::{BlockDevice, Error, Geometry, RamDevice};
use lfs_fs::Op::{Mkdir, Remount};
use lfs_fs::{Profile, Profiled, Session, format, mount, mount_with_limits};
use std::alloc::Global;
use std::test::Fail;

const NAME_OF_32: &[u8] = b"/0123456789abcdef0123456789abcdef";

const NAME_OF_33: &[u8] = b"/0123456789abcdef0123456789abcdefg";

// Returns a device with an empty image whose names have at most 32 bytes.
fn device_with_short_names(alloc: Global) -> Result<RamDevice, Error> {
    let device = RamDevice::blank(alloc, Geometry::new(4096, 256, 16)?)?;
    let profile = Profile {
        name_max: 32,
        ..Profile::new()
    };
    match format(alloc, Profiled::new(device, profile)) {
        Ok(session) => Ok(session.unmount().into_inner()),
        Err((_, error)) => Err(error),
    }
}

// Returns the superblock's limit of names, and the index of the first operation with an unexpected
// reply.
fn name_max_and_wrong_reply<D: BlockDevice>(
    alloc: Global,
    session: &mut Session<D>,
    rows: &[Row<'_>],
) -> Result<(u32, Option<usize>), Error> {
    let superblock = session.superblock(alloc)?;
    let wrong = first_operation_with_wrong_reply(alloc, session, rows)?;
    Ok((superblock.name_max, wrong))
}

fn mount_without_limits(alloc: Global) -> Result<(u32, Option<usize>), Error> {
    let mut session = mount(alloc, device_with_short_names(alloc)?).map_err(|(_, error)| error)?;
    let rows = [(Mkdir(b"/d"), Refused(Error::ReadOnly))];
    name_max_and_wrong_reply(alloc, &mut session, &rows)
}

fn mount_within_limits(alloc: Global) -> Result<(u32, Option<usize>), Error> {
    let device = device_with_short_names(alloc)?;
    let mut session = mount_with_limits(alloc, device, Profile::new()).map_err(|(_, error)| error)?;
    let rows = [
        (Mkdir(b"/d"), Done),
        (Mkdir(NAME_OF_33), Refused(Error::NameTooLong)),
        (Mkdir(NAME_OF_32), Done),
        (Remount, Done),
        (Mkdir(NAME_OF_33), Refused(Error::NameTooLong)),
        (Mkdir(b"/e"), Done),
    ];
    name_max_and_wrong_reply(alloc, &mut session, &rows)
}

#[test]
fn an_image_is_written_within_its_limits(rt: HostRuntime) -> Result<(), Fail> {
    assert_eq!(rt; mount_without_limits(rt.alloc()), Ok((32, None)));
    assert_eq!(rt; mount_within_limits(rt.alloc()), Ok((32, None)));
    Ok(())
}
