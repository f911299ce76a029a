// Tests on devices with a block that can't be written.

use crate::answers::ExpectedReply::{Bytes, Count, Done, Fd, Items};
use crate::answers::Row;
use crate::failed_sessions::FaultyRamDevice;
use crate::row_runs::first_operation_with_wrong_reply;
use crate::starts::{Start, copy_device, device_with_start_image, mount_image};
use lfs_device::{Error, FaultDevice, RamDevice};
use lfs_fs::Op::{Close, List, Mkdir, Open, Read, Remove, Write};
use lfs_fs::{OpenFlags, Session};
use std::alloc::Global;
use std::test::Fail;

const BLOCKS: u32 = 24;

const CONTENTS: [u8; 3000] = [b'x'; 3000];

// Operations that are repeated together after a failure.
type Step = [Row<'static>; 3];

fn written_file(path: &'static [u8], new: OpenFlags) -> Step {
    [
        (Open(path, new), Fd(0)),
        (Write(0, &CONTENTS), Count(3000)),
        (Close(0), Done),
    ]
}

// Returns steps that allocate free blocks for pairs and CTZ skip-lists, and that finally empty the
// root.
fn steps() -> [Step; 5] {
    let new = OpenFlags::WRITE | OpenFlags::CREATE | OpenFlags::TRUNCATE;
    [
        [
            (Mkdir(b"/d"), Done),
            (List(b"/d"), Items(&[])),
            (List(b"/"), Items(&[(b"d", None)])),
        ],
        written_file(b"/d/f", new),
        written_file(b"/d/f", new),
        [
            (Open(b"/d/f", OpenFlags::READ), Fd(0)),
            (Read(0, 3000), Bytes(&CONTENTS)),
            (Close(0), Done),
        ],
        [
            (Remove(b"/d/f"), Done),
            (Remove(b"/d"), Done),
            (List(b"/"), Items(&[])),
        ],
    ]
}

// Performs a step, and repeats it once if it returned `Io`, after a remount. Returns the number of
// failed tries, at most two.
fn count_failed_tries(
    alloc: Global,
    session: &mut Session<FaultyRamDevice>,
    step: &Step,
) -> Result<u32, Error> {
    for failed in 0..2u32 {
        match first_operation_with_wrong_reply(alloc, session, step) {
            Ok(None) => return Ok(failed),
            Ok(Some(_)) => return Err(Error::Invalid),
            Err(Error::Io) => session.remount(alloc)?,
            Err(error) => return Err(error),
        }
    }
    Ok(2)
}

// Performs the steps `rounds` times on a device with a bad block. Returns the number of failed
// tries, and whether each step succeeded at the latest on its second try.
fn count_failed_rounds(
    alloc: Global,
    empty: &RamDevice,
    bad_block: u32,
    rounds: u32,
) -> Result<(u32, bool), Error> {
    let device = FaultDevice::with_bad_block(copy_device(alloc, empty)?, bad_block);
    let mut session = mount_image(alloc, device)?;
    let mut failures = 0u32;
    for _ in 0..rounds {
        for step in &steps() {
            let failed = count_failed_tries(alloc, &mut session, step)?;
            failures = failures.saturating_add(failed);
            if failed == 2 {
                return Ok((failures, false));
            }
        }
    }
    Ok((failures, true))
}

// Whichever block outside of the root's pair is bad, some step fails on it, and then succeeds on
// other blocks.
#[test]
fn steps_succeed_beside_a_bad_block(rt: HostRuntime) -> Result<(), Fail> {
    let empty = device_with_start_image(rt.alloc(), Start::Fresh(1024, 128, BLOCKS))?;
    for block in 2..BLOCKS {
        let (failures, succeeds) = count_failed_rounds(rt.alloc(), &empty, block, 6)?;
        assert!(rt; succeeds && failures > 0, "{block}: {failures}");
    }
    Ok(())
}

// The root's pair doesn't move to other blocks, so a step that failed on it fails again.
#[test]
fn steps_end_at_a_bad_block_of_the_root(rt: HostRuntime) -> Result<(), Fail> {
    let empty = device_with_start_image(rt.alloc(), Start::Fresh(1024, 128, BLOCKS))?;
    for block in 0..2u32 {
        let (_, succeeds) = count_failed_rounds(rt.alloc(), &empty, block, 6)?;
        assert!(rt; !succeeds, "{block}");
    }
    Ok(())
}
