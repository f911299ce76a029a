// Performs operations and compares their replies with the expected ones.

use crate::answers::{Row, is_expected_reply};
use lfs_device::{BlockDevice, Error};
use lfs_fs::Session;
use std::alloc::Global;

/// Performs all operations in one run of the session. Returns the index of the first operation with
/// an unexpected reply, or None if all replies are as expected.
pub fn first_operation_with_wrong_reply<D: BlockDevice>(
    alloc: Global,
    session: &mut Session<D>,
    rows: &[Row<'_>],
) -> Result<Option<usize>, Error> {
    let mut ops = Vec::new(alloc);
    for (op, _) in rows {
        ops.push(*op)?;
    }
    let replies = session.run(alloc, ops.as_slice())?;
    for (index, (reply, (_, answer))) in replies.iter().zip(rows).enumerate() {
        if !is_expected_reply(reply, *answer) {
            return Ok(Some(index));
        }
    }
    if replies.len() == rows.len() {
        Ok(None)
    } else {
        Ok(Some(replies.len()))
    }
}
