// A script that loses nothing if one of its allocations fails. bench/fail_alloc.py runs it once for
// each allocation.

use crate::answers::ExpectedReply::Done;
use crate::row_runs::first_operation_with_wrong_reply;
use crate::scripts::{
    LENGTH, has_consistent_tree, long_script, operations_of_long_script,
    perform_expected_operations,
};
use crate::starts::{Start, device_with_start_image, mount_image};
use lfs_device::Error;
use lfs_fs::Op::Remount;
use lfs_fs::OpenFlags;
use std::alloc::Global;
use std::test::Fail;

// Returns whether the script completes, or ends with `NoMemory` and a remount then finds the tree
// from before or after the failed operation.
fn is_tree_kept_without_memory(alloc: Global) -> Result<bool, Error> {
    let rows = operations_of_long_script(OpenFlags::WRITE | OpenFlags::CREATE);
    let script = long_script(&rows);
    let mut session = mount_image(
        alloc,
        device_with_start_image(alloc, Start::Fresh(1024, 128, 64))?,
    )?;
    match perform_expected_operations(alloc, &mut session, script.rows) {
        (done, None) => Ok(done == LENGTH),
        (done, Some(error)) => Ok(
            error == Error::NoMemory
                && first_operation_with_wrong_reply(
                    alloc,
                    &mut session,
                    &[(Remount, Done)],
                )?.is_none()
                && has_consistent_tree(alloc, &mut session, &script, done)?,
        ),
    }
}

#[test]
fn nothing_is_lost_where_memory_is_refused(rt: HostRuntime) -> Result<(), Fail> {
    let holds = match is_tree_kept_without_memory(rt.alloc()) {
        Ok(holds) => holds,
        Err(error) => error == Error::NoMemory,
    };
    assert_eq!(rt; holds, true);
    Ok(())
}
