// Tests the bytes of a session's commits on a device that reports that the bytes after a log are
// blank.

use crate::answers::ExpectedReply::{Done, Fd};
use crate::answers::Row;
use crate::row_runs::first_operation_with_wrong_reply;
use crate::starts::mount_image;
use lfs_device::{Error, Geometry, RamDevice};
use lfs_fs::Op::{Close, Open, Remove, SetAttr};
use lfs_fs::{OpenFlags, Session, format};
use std::alloc::Global;
use std::test::Fail;

// The superblock's commit: the revision count, the superblock's name and struct, and a checksum.
const SUPERBLOCK: [u8; 52] = [
    0x01, 0x00, 0x00, 0x00, 0xf0, 0x0f, 0xff, 0xf7, 0x6c, 0x69, 0x74, 0x74, 0x6c, 0x65, 0x66, 0x73,
    0x2f, 0xe0, 0x00, 0x10, 0x00, 0x00, 0x02, 0x00, 0x00, 0x10, 0x00, 0x00, 0x10, 0x00, 0x00, 0x00,
    0xff, 0x00, 0x00, 0x00, 0xff, 0xff, 0xff, 0x7f, 0xfe, 0x03, 0x00, 0x00, 0x70, 0x1f, 0xfc, 0xc8,
    0x4a, 0x7f, 0x27, 0xf3,
];

// The commit that creates the file `b` after the superblock.
const FILE_B: [u8; 21] = [
    0x10, 0x1f, 0xf8, 0xd0, 0x40, 0x00, 0x00, 0x01, 0x62, 0x20, 0x00, 0x00, 0x01, 0x70, 0x1f, 0xf8,
    0xef, 0xa8, 0xc4, 0xff, 0x1e,
];

// The commit that creates the file `a` before `b`.
const FILE_A: [u8; 21] = [
    0x10, 0x1f, 0xf8, 0xef, 0x40, 0x00, 0x00, 0x01, 0x61, 0x20, 0x00, 0x00, 0x01, 0x70, 0x1f, 0xf8,
    0xef, 0x2f, 0x08, 0x30, 0xda,
];

// The commit that removes `a`.
const NO_FILE_A: [u8; 12] = [
    0x1f, 0xff, 0xf8, 0xef, 0x1f, 0xff, 0xf8, 0xf8, 0xe4, 0xe0, 0xd4, 0x27,
];

// The commit that adds an attribute to `b`.
const ATTRIBUTE: [u8; 13] = [
    0x64, 0x1f, 0xf8, 0xf9, 0x78, 0x64, 0x1f, 0xf8, 0xf6, 0x9a, 0x37, 0xc9, 0x3a,
];

// Returns a session on an empty image, on a device that knows which bytes are blank.
fn session_on_blank_device(alloc: Global) -> Result<Session<RamDevice>, Error> {
    let device = RamDevice::blank(alloc, Geometry::new(4096, 256, 16)?)?.with_blank_checks();
    match format(alloc, device) {
        Ok(session) => mount_image(alloc, session.unmount()),
        Err((_, error)) => Err(error),
    }
}

const MARKING: Row<'static> = (SetAttr(b"/b", 0x41, b"x"), Done);

// Each commit begins on a new page. The superblock's commit and 15 others fill a block, so the next
// commit goes to the other block of the pair.
#[test]
fn commits_are_appended(rt: HostRuntime) -> Result<(), Fail> {
    let alloc = rt.alloc();
    let new = OpenFlags::WRITE | OpenFlags::CREATE;
    let mut session = session_on_blank_device(alloc)?;
    let rows = [
        (Open(b"/b", new), Fd(0)),
        (Close(0), Done),
        (Open(b"/a", new), Fd(0)),
        (Close(0), Done),
        (Remove(b"/a"), Done),
        MARKING,
    ];
    assert_eq!(rt;
        first_operation_with_wrong_reply(alloc, &mut session, &rows),
        Ok(None)
    );
    for (start, commit) in [
        (0usize, SUPERBLOCK.as_slice()),
        (256, &FILE_B),
        (512, &FILE_A),
        (768, &NO_FILE_A),
        (1024, &ATTRIBUTE),
    ] {
        let behind = session.device().bytes().get(start..).unwrap_or_default();
        assert!(rt; behind.starts_with(commit), "{start}");
    }
    for (times, revision) in [(11, 0xff), (1, 2)] {
        for _ in 0..times {
            assert_eq!(rt;
                first_operation_with_wrong_reply(alloc, &mut session, &[MARKING]),
                Ok(None)
            );
        }
        assert_eq!(rt; session.device().bytes().get(4096), Some(&revision));
    }
    Ok(())
}
