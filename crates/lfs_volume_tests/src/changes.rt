// Tests that read and write files through several handles.

use crate::rows::Call::{
    Close, Open, Position, Read, Remount, Seek, Size, Stat, Sync, Truncate, Write,
};
use crate::rows::ExpectedResult::{Bytes, Done, Number, Refused};
use crate::rows::{Row, run_on_volume};
use bitflags::Flags;
use lfs_device::Error;
use lfs_volume::OpenFlags;
use std::test::Fail;

#[test]
fn handles_on_one_path_see_one_contents(rt: HostRuntime) -> Result<(), Fail> {
    let new = OpenFlags::READ | OpenFlags::WRITE | OpenFlags::CREATE;
    let rows: [Row<'_>; 16] = [
        (Open(b"/a", new), Number(0)),
        (Stat(b"/a"), Number(0)),
        (Open(b"/a", OpenFlags::READ), Number(1)),
        (Write(0, b"hello"), Number(5)),
        (Read(1, 9), Bytes(b"hello")),
        (Size(1), Number(5)),
        (Stat(b"/a"), Number(0)),
        (Seek(0, 1), Done),
        (Read(0, 2), Bytes(b"el")),
        (Write(0, b"ICOPTER"), Number(7)),
        (Position(0), Number(10)),
        (Read(1, 9), Bytes(b"OPTER")),
        (Close(1), Done),
        (Stat(b"/a"), Number(10)),
        (Read(1, 1), Refused(Error::BadFile)),
        (Close(0), Done),
    ];
    assert_eq!(rt; run_on_volume(rt.alloc(), 16, &rows)?, None);
    Ok(())
}

#[test]
fn what_is_written_is_there_after_a_remount(rt: HostRuntime) -> Result<(), Fail> {
    let new = OpenFlags::READ | OpenFlags::WRITE | OpenFlags::CREATE;
    let both = OpenFlags::READ | OpenFlags::WRITE;
    let rows: [Row<'_>; 19] = [
        (Open(b"/a", new), Number(0)),
        (Write(0, b"0123456789"), Number(10)),
        (Sync(0), Done),
        (Seek(0, 4), Done),
        (Write(0, b"xy"), Number(2)),
        (Sync(0), Done),
        (Truncate(0, 8), Done),
        (Seek(0, 12), Done),
        (Write(0, b"z"), Number(1)),
        (Close(0), Done),
        (Remount, Done),
        (Open(b"/a", both), Number(0)),
        (Read(0, 99), Bytes(b"0123xy67\0\0\0\0z")),
        (Truncate(0, 2), Done),
        (Size(0), Number(2)),
        // Changes that aren't synced are lost.
        (Remount, Done),
        (Open(b"/a", OpenFlags::READ), Number(0)),
        (Read(0, 99), Bytes(b"0123xy67\0\0\0\0z")),
        (Write(0, b"no"), Refused(Error::BadFile)),
    ];
    assert_eq!(rt; run_on_volume(rt.alloc(), 16, &rows)?, None);
    Ok(())
}

#[test]
fn appending_handles_write_at_the_end(rt: HostRuntime) -> Result<(), Fail> {
    let appending = OpenFlags::WRITE | OpenFlags::CREATE | OpenFlags::APPEND;
    let rows: [Row<'_>; 9] = [
        (Open(b"/log", appending), Number(0)),
        (Open(b"/log", appending), Number(1)),
        (Write(0, b"one"), Number(3)),
        (Write(1, b"two"), Number(3)),
        (Write(0, b"three"), Number(5)),
        (Close(0), Done),
        (Open(b"/log", OpenFlags::READ), Number(0)),
        (Read(0, 99), Bytes(b"onetwothree")),
        (Read(1, 1), Refused(Error::BadFile)),
    ];
    assert_eq!(rt; run_on_volume(rt.alloc(), 16, &rows)?, None);
    Ok(())
}

#[test]
fn flags_are_checked(rt: HostRuntime) -> Result<(), Fail> {
    let both = OpenFlags::READ | OpenFlags::WRITE;
    let exclusive = OpenFlags::WRITE | OpenFlags::CREATE | OpenFlags::EXCLUSIVE;
    let rows: [Row<'_>; 9] = [
        (Open(b"/a", OpenFlags::READ), Refused(Error::NoEnt)),
        (
            Open(b"/a", OpenFlags::READ | OpenFlags::CREATE),
            Refused(Error::Invalid),
        ),
        (
            Open(b"/a", OpenFlags::WRITE | OpenFlags::EXCLUSIVE),
            Refused(Error::Invalid),
        ),
        (Open(b"/a", OpenFlags::CREATE), Refused(Error::Invalid)),
        (Open(b"/a", exclusive), Number(0)),
        (Open(b"/a", exclusive), Refused(Error::Exist)),
        (Write(0, b"old"), Number(3)),
        (Open(b"/a", both | OpenFlags::TRUNCATE), Number(1)),
        (Size(0), Number(0)),
    ];
    assert_eq!(rt; run_on_volume(rt.alloc(), 16, &rows)?, None);
    Ok(())
}

// Without another limit, a file's size and a position are at most 2,147,483,647 bytes.
#[test]
fn positions_sizes_and_handles_are_checked(rt: HostRuntime) -> Result<(), Fail> {
    let new = OpenFlags::READ | OpenFlags::WRITE | OpenFlags::CREATE;
    let rows: [Row<'_>; 16] = [
        (Open(b"/a", new), Number(0)),
        (Write(0, b"same"), Number(4)),
        (Seek(0, 2_147_483_647), Done),
        (Seek(0, 2_147_483_648), Refused(Error::Invalid)),
        (Position(0), Number(2_147_483_647)),
        (Read(0, 9), Bytes(b"")),
        (Write(0, b"x"), Refused(Error::TooBig)),
        (Truncate(0, 2_147_483_648), Refused(Error::TooBig)),
        (Size(0), Number(4)),
        (Seek(7, 0), Refused(Error::BadFile)),
        (Write(7, b"x"), Refused(Error::BadFile)),
        (Size(7), Refused(Error::BadFile)),
        (Position(7), Refused(Error::BadFile)),
        (Truncate(7, 0), Refused(Error::BadFile)),
        (Sync(7), Refused(Error::BadFile)),
        (Close(7), Refused(Error::BadFile)),
    ];
    assert_eq!(rt; run_on_volume(rt.alloc(), 16, &rows)?, None);
    Ok(())
}
