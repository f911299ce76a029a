// Short scripts on devices that already contain files.

use crate::answers::ExpectedReply::{Done, Fd, Items};
use crate::answers::Row;
use crate::row_runs::first_operation_with_wrong_reply;
use crate::scripts::{ExpectedTree, Script};
use crate::starts::{Start, device_with_start_image, mount_image};
use lfs_device::{Error, RamDevice};
use lfs_fixtures::BlockContents;
use lfs_fs::Op::{Close, List, Mkdir, Open, Recover, Remove, Rename};
use lfs_fs::OpenFlags;
use std::alloc::Global;

const A: &[u8] =
    b"aaaaaaaaaaaaaaaaaaaaaaaaaaaaaaaaaaaaaaaaaaaaaaaaaaaaaaaaaaaaaaaaaaaaaaaaaaaaaaaaaaaaaaaaaaaaaaaaaaaaaaaaaaaaaaaaaaaaaaaaaaaaaaaaaaaaaaaaaaaaaaaaaaaaaaaaaaaaaaaaaaaaaaaaaaaaaaaaaaaaaaaaaaaaaaaaaaaaaaaa";

const AT_A: &[u8] =
    b"/aaaaaaaaaaaaaaaaaaaaaaaaaaaaaaaaaaaaaaaaaaaaaaaaaaaaaaaaaaaaaaaaaaaaaaaaaaaaaaaaaaaaaaaaaaaaaaaaaaaaaaaaaaaaaaaaaaaaaaaaaaaaaaaaaaaaaaaaaaaaaaaaaaaaaaaaaaaaaaaaaaaaaaaaaaaaaaaaaaaaaaaaaaaaaaaaaaaaaaaa";

const B: &[u8] =
    b"bbbbbbbbbbbbbbbbbbbbbbbbbbbbbbbbbbbbbbbbbbbbbbbbbbbbbbbbbbbbbbbbbbbbbbbbbbbbbbbbbbbbbbbbbbbbbbbbbbbbbbbbbbbbbbbbbbbbbbbbbbbbbbbbbbbbbbbbbbbbbbbbbbbbbbbbbbbbbbbbbbbbbbbbbbbbbbbbbbbbbbbbbbbbbbbbbbbbbbbb";

const AT_B: &[u8] =
    b"/bbbbbbbbbbbbbbbbbbbbbbbbbbbbbbbbbbbbbbbbbbbbbbbbbbbbbbbbbbbbbbbbbbbbbbbbbbbbbbbbbbbbbbbbbbbbbbbbbbbbbbbbbbbbbbbbbbbbbbbbbbbbbbbbbbbbbbbbbbbbbbbbbbbbbbbbbbbbbbbbbbbbbbbbbbbbbbbbbbbbbbbbbbbbbbbbbbbbbbbb";

const C: &[u8] =
    b"cccccccccccccccccccccccccccccccccccccccccccccccccccccccccccccccccccccccccccccccccccccccccccccccccccccccccccccccccccccccccccccccccccccccccccccccccccccccccccccccccccccccccccccccccccccccccccccccccccccccc";

const AT_C: &[u8] =
    b"/cccccccccccccccccccccccccccccccccccccccccccccccccccccccccccccccccccccccccccccccccccccccccccccccccccccccccccccccccccccccccccccccccccccccccccccccccccccccccccccccccccccccccccccccccccccccccccccccccccccccc";

const D: &[u8] =
    b"dddddddddddddddddddddddddddddddddddddddddddddddddddddddddddddddddddddddddddddddddddddddddddddddddddddddddddddddddddddddddddddddddddddddddddddddddddddddddddddddddddddddddddddddddddddddddddddddddddddddd";

const AT_D: &[u8] =
    b"/dddddddddddddddddddddddddddddddddddddddddddddddddddddddddddddddddddddddddddddddddddddddddddddddddddddddddddddddddddddddddddddddddddddddddddddddddddddddddddddddddddddddddddddddddddddddddddddddddddddddd";

const PAIR: &[u8] = &[2, 0, 0, 0, 3, 0, 0, 0];

// An image with a pending move: the file in the directory `d` already exists as `g`.
const MOVING: Start<'static> = Start::Image(
    &[
        (0x4010_0400, b""),
        (0x0020_0401, b"d"),
        (0x2000_0408, PAIR),
        (0x4010_0800, b""),
        (0x0010_0801, b"g"),
        (0x2010_0802, b"hi"),
        (0x600f_fc08, PAIR),
        (0x7fff_fc0c, &[0, 0, 0xf0, 0x4f, 2, 0, 0, 0, 3, 0, 0, 0]),
    ],
    &[(
        2,
        BlockContents::Commit(&[(0x0010_0001, b"f"), (0x2010_0002, b"hi")]),
    )],
);

/// Completes a pending move, and whatever else is left half done.
pub const RECOVERY: [Row<'static>; 1] = [(Recover, Done)];

/// Moves a file out of its directory.
pub const RENAMING: Script<'static> = Script {
    rows: &[(Rename(b"/s/f", b"/g"), Done)],
    trees: &[
        (
            &[
                (List(b"/"), Items(&[(b"s", None)])),
                (List(b"/s"), Items(&[(b"f", Some(0))])),
            ],
            Some(4),
        ),
        (
            &[
                (List(b"/"), Items(&[(b"g", Some(0)), (b"s", None)])),
                (List(b"/s"), Items(&[])),
            ],
            Some(4),
        ),
    ],
    behind: &[0, 1],
};

// Makes a directory on an image with a pending move, which must be completed first.
const MAKING: Script<'static> = Script {
    rows: &[(Mkdir(b"/e"), Done)],
    trees: &[
        (
            &[
                (List(b"/"), Items(&[(b"d", None), (b"g", Some(2))])),
                (List(b"/d"), Items(&[])),
            ],
            Some(4),
        ),
        (
            &[
                (
                    List(b"/"),
                    Items(&[(b"d", None), (b"e", None), (b"g", Some(2))]),
                ),
                (List(b"/d"), Items(&[])),
                (List(b"/e"), Items(&[])),
            ],
            Some(6),
        ),
    ],
    behind: &[0, 1],
};

const FOUR: ExpectedTree<'static> = (
    &[(
        List(b"/"),
        Items(&[(A, Some(0)), (B, Some(0)), (C, Some(0)), (D, Some(0))]),
    )],
    Some(4),
);

// Removes four files that are in two metadata pairs. A split divided the files between the pairs at
// any place.
const REMOVING: Script<'static> = Script {
    rows: &[
        (Remove(AT_B), Done),
        (Remove(AT_C), Done),
        (Remove(AT_D), Done),
        (Remove(AT_A), Done),
    ],
    trees: &[
        FOUR,
        (
            &[(
                List(b"/"),
                Items(&[(A, Some(0)), (C, Some(0)), (D, Some(0))]),
            )],
            None,
        ),
        (&[(List(b"/"), Items(&[(A, Some(0)), (D, Some(0))]))], None),
        (&[(List(b"/"), Items(&[(A, Some(0))]))], None),
        (&[(List(b"/"), Items(&[]))], Some(2)),
    ],
    behind: &[0, 1, 2, 3, 4],
};

fn operations_that_make_file(new: OpenFlags) -> [Row<'static>; 3] {
    [
        (Mkdir(b"/s"), Done),
        (Open(b"/s/f", new), Fd(0)),
        (Close(0), Done),
    ]
}

fn operations_that_make_four_files(new: OpenFlags) -> [Row<'static>; 8] {
    [
        (Open(AT_B, new), Fd(0)),
        (Close(0), Done),
        (Open(AT_C, new), Fd(0)),
        (Close(0), Done),
        (Open(AT_D, new), Fd(0)),
        (Close(0), Done),
        (Open(AT_A, new), Fd(0)),
        (Close(0), Done),
    ]
}

// Returns a device on which these operations were performed.
fn device_after_operations(
    alloc: Global,
    start: Start<'_>,
    rows: &[Row<'_>],
) -> Result<RamDevice, Error> {
    let mut session = mount_image(alloc, device_with_start_image(alloc, start)?)?;
    match first_operation_with_wrong_reply(alloc, &mut session, rows)? {
        None => Ok(session.unmount()),
        Some(_) => Err(Error::Invalid),
    }
}

/// Returns the device for the script `RENAMING`.
pub fn device_with_file_to_move(alloc: Global, new: OpenFlags) -> Result<RamDevice, Error> {
    device_after_operations(
        alloc,
        Start::Fresh(4096, 256, 16),
        &operations_that_make_file(new),
    )
}

/// Returns the scripts that make a directory and remove files, each with its device.
pub fn making_and_removing_scripts(
    alloc: Global,
    new: OpenFlags,
) -> Result<[(RamDevice, Script<'static>); 2], Error> {
    Ok([
        (device_with_start_image(alloc, MOVING)?, MAKING),
        (
            device_after_operations(
                alloc,
                Start::Fresh(1024, 128, 64),
                &operations_that_make_four_files(new),
            )?,
            REMOVING,
        ),
    ])
}
