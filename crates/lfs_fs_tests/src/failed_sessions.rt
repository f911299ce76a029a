// The replies of a session that has failed.

use crate::answers::ExpectedReply::Refused;
use crate::answers::{ExpectedReply, Row};
use crate::row_runs::first_operation_with_wrong_reply;
use lfs_device::{CountedCalls, Error, FaultDevice, RamDevice};
use lfs_fs::Op::{
    Close, GetAttr, Gstate, IsUsed, List, Mkdir, Open, Read, RemoveAttr, Seek, Stat, UsedCount,
};
use lfs_fs::{OpenFlags, Session};
use std::alloc::Global;

/// A device in memory that fails in one of its calls.
pub type FaultyRamDevice = FaultDevice<RamDevice>;

const FAILED: ExpectedReply<'static> = Refused(Error::Failed);

// A failed session refuses these operations without checking even their paths.
const AFTER: [Row<'static>; 13] = [
    (Stat(b"/"), FAILED),
    (Stat(b"d"), FAILED),
    (List(b"/"), FAILED),
    (Mkdir(b"/d"), FAILED),
    (GetAttr(b"/d", 0x41), FAILED),
    (RemoveAttr(b"/d", 0x41), FAILED),
    (Open(b"/d", OpenFlags::READ), FAILED),
    (Read(0, 1), FAILED),
    (Seek(0, 1), FAILED),
    (Close(0), FAILED),
    (Gstate, FAILED),
    (IsUsed(99), FAILED),
    (UsedCount, FAILED),
];

/// Returns whether a session replies that it has failed, without calling the device.
pub fn has_session_failed(
    alloc: Global,
    session: &mut Session<FaultyRamDevice>,
) -> Result<bool, Error> {
    let before = session.device().calls(CountedCalls::Any);
    let wrong = first_operation_with_wrong_reply(alloc, session, &AFTER)?;
    Ok(wrong.is_none() && session.device().calls(CountedCalls::Any) == before)
}
