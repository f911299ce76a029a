// Tests of files that don't fit on the device, and of devices that fail.

use crate::rows::Call::{Close, Open, Read, Remount, Size, Stat, Sync, Truncate, Write};
use crate::rows::ExpectedResult::{Bytes, Done, Number, Refused};
use crate::rows::{Row, first_unexpected_call, run_on_volume};
use bitflags::Flags;
use lfs_device::{CountedCalls, Error, FaultDevice, Geometry, RamDevice};
use lfs_volume::{OpenFlags, format};
use std::alloc::Global;
use std::test::Fail;

// After a format, six of eight blocks are free. A sync reserves two free blocks, so a file of four
// blocks can be stored, and a file of five can't.
#[test]
fn a_sync_without_room_changes_nothing(rt: HostRuntime) -> Result<(), Fail> {
    let new = OpenFlags::READ | OpenFlags::WRITE | OpenFlags::CREATE;
    let four = [7u8; 4000];
    let rows: [Row<'_>; 16] = [
        (Open(b"/a", new), Number(0)),
        (Write(0, b"small"), Number(5)),
        (Sync(0), Done),
        (Write(0, &four), Number(4000)),
        (Write(0, &four), Number(4000)),
        (Sync(0), Refused(Error::NoSpace)),
        (Stat(b"/a"), Number(5)),
        (Size(0), Number(8005)),
        (Truncate(0, 4000), Done),
        (Sync(0), Done),
        (Stat(b"/a"), Number(4000)),
        (Write(0, &four), Number(4000)),
        (Close(0), Refused(Error::NoSpace)),
        (Read(0, 1), Refused(Error::BadFile)),
        (Open(b"/a", OpenFlags::READ), Number(0)),
        (Size(0), Number(4000)),
    ];
    assert_eq!(rt; run_on_volume(rt.alloc(), 8, &rows)?, None);
    Ok(())
}

// A refused close frees the handle. Another handle still has the bytes, and can store them.
#[test]
fn a_refused_close_leaves_bytes_to_other_handles(rt: HostRuntime) -> Result<(), Fail> {
    let new = OpenFlags::READ | OpenFlags::WRITE | OpenFlags::CREATE;
    let four = [7u8; 4000];
    let rows: [Row<'_>; 10] = [
        (Open(b"/a", new), Number(0)),
        (Open(b"/a", new), Number(1)),
        (Write(0, &four), Number(4000)),
        (Write(0, &four), Number(4000)),
        (Close(0), Refused(Error::NoSpace)),
        (Size(0), Refused(Error::BadFile)),
        (Size(1), Number(8000)),
        (Truncate(1, 3000), Done),
        (Close(1), Done),
        (Stat(b"/a"), Number(3000)),
    ];
    assert_eq!(rt; run_on_volume(rt.alloc(), 8, &rows)?, None);
    Ok(())
}

fn run_on_failing(alloc: Global, rows: &[Row<'_>]) -> Result<Option<usize>, Error> {
    let device = RamDevice::blank(alloc, Geometry::new(1024, 128, 16)?)?;
    match format(
        alloc,
        FaultDevice::new(device, CountedCalls::Program, 3, false),
    ) {
        Ok(mut volume) => Ok(first_unexpected_call(alloc, &mut volume, rows)),
        Err((_, error)) => Err(error),
    }
}

#[test]
fn a_failed_volume_answers_so_until_a_remount(rt: HostRuntime) -> Result<(), Fail> {
    let new = OpenFlags::READ | OpenFlags::WRITE | OpenFlags::CREATE;
    let rows: [Row<'_>; 8] = [
        (Open(b"/a", new), Number(0)),
        (Write(0, b"bytes"), Number(5)),
        (Sync(0), Refused(Error::Io)),
        (Size(0), Refused(Error::Failed)),
        (Open(b"/a", new), Refused(Error::Failed)),
        (Remount, Done),
        (Open(b"/a", new), Number(0)),
        (Read(0, 9), Bytes(b"")),
    ];
    assert_eq!(rt; run_on_failing(rt.alloc(), &rows)?, None);
    Ok(())
}
