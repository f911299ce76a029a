// Tests of the calls for C, in sessions on a flash in memory.

use lfs_device::{CountedCalls, FaultDevice, Geometry, RamDevice};
use lfs_fs::{Profile, Profiled, Session, format, mount};
use littlefs_flash::{
    FsInfo, file_close, file_open, file_read, file_seek, file_size, file_sync, file_tell,
    file_truncate, file_write, get_attr, gstate, is_used, is_writable, list_lines, mkdir,
    name_order, read_only_reason, recover, remount, remove_attr, remove_entry, rename_entry,
    set_attr, stat_entry, stat_fs, used_blocks,
};
use std::alloc::Global;
use std::test::Fail;

const READ: u32 = 0x1;

const WRITE: u32 = 0x2;

const WRITE_CREATE: u32 = 0x102;

type Held = Option<Box<Session<RamDevice>, Global>>;

// Returns a session on an empty file system in memory.
fn session_in_memory(alloc: Global) -> Held {
    let geometry = Geometry::new(4096, 256, 16).ok()?;
    let device = RamDevice::blank(alloc, geometry).ok()?.with_blank_checks();
    let session = format(alloc, device).ok()?;
    Box::new(alloc, session).ok()
}

// Returns a session on a file system with a file of four bytes.
fn session_with_log(alloc: Global) -> Held {
    let mut held = session_in_memory(alloc);
    file_open(alloc, &mut held, b"/log", WRITE_CREATE);
    file_write(alloc, &mut held, 0, b"21.5");
    file_close(alloc, &mut held, 0);
    held
}

// Returns a session on a file system with a directory that has an attribute.
fn session_with_directory(alloc: Global) -> Held {
    let mut held = session_in_memory(alloc);
    mkdir(alloc, &mut held, b"/a");
    set_attr(alloc, &mut held, b"/a", 7, b"on");
    held
}

#[test]
fn a_file_is_written(rt: HostRuntime) -> Result<(), Fail> {
    let alloc = rt.alloc();
    let mut held = session_in_memory(alloc);
    assert_eq!(rt; file_open(alloc, &mut held, b"/log", WRITE_CREATE), 0);
    assert_eq!(rt; file_write(alloc, &mut held, 0, b"21.5 degrees"), 12);
    assert_eq!(rt; file_tell(&held, 0), 12);
    Ok(())
}

#[test]
fn a_file_is_synced(rt: HostRuntime) -> Result<(), Fail> {
    let alloc = rt.alloc();
    let mut held = session_with_log(alloc);
    assert_eq!(rt; file_open(alloc, &mut held, b"/log", WRITE), 0);
    assert_eq!(rt; file_write(alloc, &mut held, 0, b"21.6 degrees"), 12);
    assert_eq!(rt; stat_entry(alloc, &mut held, b"/log"), 4);
    assert_eq!(rt; file_sync(alloc, &mut held, 0), 0);
    assert_eq!(rt; stat_entry(alloc, &mut held, b"/log"), 12);
    Ok(())
}

#[test]
fn a_file_is_truncated(rt: HostRuntime) -> Result<(), Fail> {
    let alloc = rt.alloc();
    let mut held = session_with_log(alloc);
    assert_eq!(rt; file_open(alloc, &mut held, b"/log", WRITE), 0);
    assert_eq!(rt; file_truncate(alloc, &mut held, 0, 2), 0);
    assert_eq!(rt; file_size(&held, 0), 2);
    assert_eq!(rt; file_close(alloc, &mut held, 0), 0);
    assert_eq!(rt; stat_entry(alloc, &mut held, b"/log"), 2);
    Ok(())
}

#[test]
fn a_file_is_read_into_a_buffer(rt: HostRuntime) -> Result<(), Fail> {
    let alloc = rt.alloc();
    let mut held = session_with_log(alloc);
    assert_eq!(rt; file_open(alloc, &mut held, b"/log", READ), 0);
    assert_eq!(rt; file_seek(&mut held, 0, 1), 0);
    let mut buffer = [7u8; 5];
    assert_eq!(rt; file_read(&mut held, 0, &mut buffer), 3);
    assert_eq!(rt; &buffer[..], b"1.5\x07\x07".as_slice());
    assert_eq!(rt; file_tell(&held, 0), 4);
    Ok(())
}

#[test]
fn no_file_is_open(rt: HostRuntime) -> Result<(), Fail> {
    let alloc = rt.alloc();
    let mut held = session_in_memory(alloc);
    let mut buffer = [0u8; 2];
    assert_eq!(rt; file_read(&mut held, 0, &mut buffer), -9);
    assert_eq!(rt; file_size(&held, 0), -9);
    Ok(())
}

#[test]
fn a_directory_is_made_and_renamed(rt: HostRuntime) -> Result<(), Fail> {
    let alloc = rt.alloc();
    let mut held = session_in_memory(alloc);
    assert_eq!(rt; mkdir(alloc, &mut held, b"/a"), 0);
    assert_eq!(rt; mkdir(alloc, &mut held, b"/a"), -17);
    assert_eq!(rt; rename_entry(alloc, &mut held, b"/a", b"/b"), 0);
    assert_eq!(rt; stat_entry(alloc, &mut held, b"/b"), 4_294_967_296);
    Ok(())
}

#[test]
fn lines_are_listed_if_they_fit(rt: HostRuntime) -> Result<(), Fail> {
    let alloc = rt.alloc();
    let mut held = session_with_directory(alloc);
    let mut buffer = [7u8; 6];
    assert_eq!(rt; list_lines(alloc, &mut held, b"/", &mut buffer[..5]), 6);
    assert_eq!(rt; buffer[0], 7);
    assert_eq!(rt; list_lines(alloc, &mut held, b"/", &mut buffer), 6);
    assert_eq!(rt; &buffer[..], b"d 0 a\n".as_slice());
    Ok(())
}

#[test]
fn a_directory_is_removed(rt: HostRuntime) -> Result<(), Fail> {
    let alloc = rt.alloc();
    let mut held = session_with_directory(alloc);
    assert_eq!(rt; remove_entry(alloc, &mut held, b"/a"), 0);
    assert_eq!(rt; stat_entry(alloc, &mut held, b"/a"), -2);
    Ok(())
}

#[test]
fn an_attribute_is_removed(rt: HostRuntime) -> Result<(), Fail> {
    let alloc = rt.alloc();
    let mut held = session_with_directory(alloc);
    let mut buffer = [0u8; 2];
    assert_eq!(rt; get_attr(alloc, &mut held, b"/a", 7, &mut buffer), 2);
    assert_eq!(rt; &buffer[..], b"on".as_slice());
    assert_eq!(rt; remove_attr(alloc, &mut held, b"/a", 7), 0);
    assert_eq!(rt; get_attr(alloc, &mut held, b"/a", 7, &mut buffer), -61);
    Ok(())
}

#[test]
fn used_blocks_are_reported(rt: HostRuntime) -> Result<(), Fail> {
    let alloc = rt.alloc();
    let held = session_in_memory(alloc);
    assert_eq!(rt; used_blocks(&held), 2);
    assert_eq!(rt; is_used(&held, 1), 1);
    assert_eq!(rt; is_used(&held, 2), 0);
    assert_eq!(rt; is_used(&held, 16), -22);
    Ok(())
}

#[test]
fn clean_image_needs_no_recovery(rt: HostRuntime) -> Result<(), Fail> {
    let alloc = rt.alloc();
    let mut held = session_in_memory(alloc);
    assert_eq!(rt; gstate(&held), 0);
    assert_eq!(rt; recover(alloc, &mut held), 0);
    Ok(())
}

#[test]
fn the_superblock_is_read(rt: HostRuntime) -> Result<(), Fail> {
    let alloc = rt.alloc();
    let mut held = session_in_memory(alloc);
    let mut info = FsInfo {
        version: 0,
        block_size: 0,
        block_count: 0,
        name_max: 0,
        file_max: 0,
        attr_max: 0,
    };
    assert_eq!(rt; stat_fs(alloc, &mut held, &mut info), 0);
    assert_eq!(rt; info.version, 0x2_0000);
    assert_eq!(rt; (info.block_size, info.block_count), (4096, 16));
    assert_eq!(rt;
        (info.name_max, info.file_max, info.attr_max),
        (255, 2_147_483_647, 1022)
    );
    Ok(())
}

// Returns a session with the format's own limits, on an image whose names have at most 32 bytes.
fn session_with_other_limits(alloc: Global) -> Held {
    let geometry = Geometry::new(4096, 256, 16).ok()?;
    let device = RamDevice::blank(alloc, geometry).ok()?;
    let profile = Profile {
        name_max: 32,
        ..Profile::new()
    };
    let made = format(alloc, Profiled::new(device, profile)).ok()?;
    let session = mount(alloc, made.unmount().into_inner()).ok()?;
    Box::new(alloc, session).ok()
}

#[test]
fn a_new_image_is_written(rt: HostRuntime) -> Result<(), Fail> {
    let alloc = rt.alloc();
    let mut held = session_in_memory(alloc);
    assert_eq!(rt; name_order(&held), 0);
    assert_eq!(rt; is_writable(&held), 1);
    assert_eq!(rt; read_only_reason(alloc, &mut held), 0);
    Ok(())
}

#[test]
fn an_image_with_other_limits_is_only_read(rt: HostRuntime) -> Result<(), Fail> {
    let alloc = rt.alloc();
    let mut held = session_with_other_limits(alloc);
    assert_eq!(rt; is_writable(&held), 0);
    assert_eq!(rt; read_only_reason(alloc, &mut held), 1);
    assert_eq!(rt; mkdir(alloc, &mut held, b"/a"), -30);
    Ok(())
}

#[test]
fn without_a_session_the_answer_is_minus_77(rt: HostRuntime) -> Result<(), Fail> {
    let alloc = rt.alloc();
    let mut held: Held = None;
    assert_eq!(rt; mkdir(alloc, &mut held, b"/a"), -77);
    assert_eq!(rt; used_blocks(&held), -77);
    assert_eq!(rt; name_order(&held), -77);
    assert_eq!(rt; is_writable(&held), -77);
    assert_eq!(rt; read_only_reason(alloc, &mut held), -77);
    Ok(())
}

// Returns a session on a flash that fails at the first program after the format.
fn session_with_failing_device(
    alloc: Global,
) -> Option<Box<Session<FaultDevice<RamDevice>>, Global>> {
    let geometry = Geometry::new(4096, 256, 16).ok()?;
    let device = RamDevice::blank(alloc, geometry).ok()?;
    let device = FaultDevice::new(device, CountedCalls::Program, 2, false);
    let session = format(alloc, device).ok()?;
    Box::new(alloc, session).ok()
}

#[test]
fn a_fault_ends_the_session_until_a_remount(rt: HostRuntime) -> Result<(), Fail> {
    let alloc = rt.alloc();
    let mut held = session_with_failing_device(alloc);
    assert_eq!(rt; mkdir(alloc, &mut held, b"/a"), -5);
    assert_eq!(rt; mkdir(alloc, &mut held, b"/a"), -200);
    assert_eq!(rt; remount(alloc, &mut held), 0);
    assert_eq!(rt; stat_entry(alloc, &mut held, b"/a"), -2);
    assert_eq!(rt; mkdir(alloc, &mut held, b"/a"), 0);
    Ok(())
}
