// Tests that rename, replace and remove files while they are open.

use crate::rows::Call::{Close, Mkdir, Open, Read, Remove, Rename, Seek, Stat, Sync, Write};
use crate::rows::ExpectedResult::{Bytes, Done, Number, Refused};
use crate::rows::{Row, run_on_volume};
use bitflags::Flags;
use lfs_device::Error;
use lfs_volume::OpenFlags;
use std::test::Fail;

#[test]
fn a_removed_file_keeps_its_bytes_for_its_handles(rt: HostRuntime) -> Result<(), Fail> {
    let new = OpenFlags::READ | OpenFlags::WRITE | OpenFlags::CREATE;
    let rows: [Row<'_>; 14] = [
        (Open(b"/a", new), Number(0)),
        (Write(0, b"kept"), Number(4)),
        (Close(0), Done),
        (Open(b"/a", new), Number(0)),
        (Remove(b"/a"), Done),
        (Stat(b"/a"), Refused(Error::NoEnt)),
        (Read(0, 9), Bytes(b"kept")),
        (Write(0, b"!"), Number(1)),
        (Sync(0), Done),
        (Stat(b"/a"), Refused(Error::NoEnt)),
        (Open(b"/a", new), Number(1)),
        (Read(1, 9), Bytes(b"")),
        (Close(0), Done),
        (Stat(b"/a"), Number(0)),
    ];
    assert_eq!(rt; run_on_volume(rt.alloc(), 16, &rows)?, None);
    Ok(())
}

#[test]
fn an_open_file_goes_with_its_path(rt: HostRuntime) -> Result<(), Fail> {
    let new = OpenFlags::READ | OpenFlags::WRITE | OpenFlags::CREATE;
    let rows: [Row<'_>; 12] = [
        (Mkdir(b"/d"), Done),
        (Open(b"/d/a", new), Number(0)),
        (Open(b"/dd", new), Number(1)),
        (Write(0, b"moved"), Number(5)),
        (Write(1, b"stays"), Number(5)),
        (Rename(b"/d", b"/e"), Done),
        (Close(0), Done),
        (Close(1), Done),
        (Stat(b"/d/a"), Refused(Error::NoEnt)),
        (Stat(b"/e/a"), Number(5)),
        (Stat(b"/dd"), Number(5)),
        (Rename(b"/e/a", b"/e/a"), Done),
    ];
    assert_eq!(rt; run_on_volume(rt.alloc(), 32, &rows)?, None);
    Ok(())
}

#[test]
fn a_replaced_file_keeps_its_bytes_for_its_handles(rt: HostRuntime) -> Result<(), Fail> {
    let new = OpenFlags::READ | OpenFlags::WRITE | OpenFlags::CREATE;
    let rows: [Row<'_>; 13] = [
        (Open(b"/a", new), Number(0)),
        (Write(0, b"new"), Number(3)),
        (Open(b"/b", new), Number(1)),
        (Write(1, b"old"), Number(3)),
        (Close(1), Done),
        (Open(b"/b", new), Number(1)),
        (Rename(b"/a", b"/b"), Done),
        (Read(1, 9), Bytes(b"old")),
        (Write(0, b"er"), Number(2)),
        (Close(0), Done),
        (Close(1), Done),
        (Stat(b"/b"), Number(5)),
        (Seek(1, 0), Refused(Error::BadFile)),
    ];
    assert_eq!(rt; run_on_volume(rt.alloc(), 16, &rows)?, None);
    Ok(())
}

// A refused call doesn't change the paths of open files.
#[test]
fn refused_renames_and_removes_change_nothing(rt: HostRuntime) -> Result<(), Fail> {
    let new = OpenFlags::READ | OpenFlags::WRITE | OpenFlags::CREATE;
    let rows: [Row<'_>; 12] = [
        (Mkdir(b"/d"), Done),
        (Open(b"/d/a", new), Number(0)),
        (Open(b"/b", new), Number(1)),
        (Write(0, b"one"), Number(3)),
        (Write(1, b"two"), Number(3)),
        (Remove(b"/d"), Refused(Error::NotEmpty)),
        (Rename(b"/b", b"/d"), Refused(Error::IsDir)),
        (Rename(b"/d", b"/d/e"), Refused(Error::Invalid)),
        (Close(0), Done),
        (Close(1), Done),
        (Stat(b"/d/a"), Number(3)),
        (Stat(b"/b"), Number(3)),
    ];
    assert_eq!(rt; run_on_volume(rt.alloc(), 32, &rows)?, None);
    Ok(())
}
