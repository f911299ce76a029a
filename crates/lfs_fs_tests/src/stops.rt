// Tests of scripts on devices that lose power, and of one script on a device that fails in one
// call.

use crate::answers::ExpectedReply::Done;
use crate::answers::Row;
use crate::failed_sessions::{FaultyRamDevice, has_session_failed};
use crate::row_runs::first_operation_with_wrong_reply;
use crate::scripts::{
    LENGTH, Script, current_tree_index, has_consistent_tree, long_script,
    operations_of_long_script, perform_expected_operations,
};
use crate::short_scripts::{
    RECOVERY, RENAMING, device_with_file_to_move, making_and_removing_scripts,
};
use crate::starts::{Start, copy_device, device_with_start_image, mount_image};
use lfs_device::{CountedCalls, Erased, Error, FaultDevice, RamDevice};
use lfs_fs::Op::Remount;
use lfs_fs::{OpenFlags, mount};
use std::alloc::Global;
use std::test::Fail;

// Returns a small device with an empty file system.
fn small_formatted_device(alloc: Global) -> Result<RamDevice, Error> {
    device_with_start_image(alloc, Start::Fresh(1024, 128, 64))
}

// Returns a copy of a device whose `nth` call fails. If `stops` is true, all later calls fail too.
fn device_copy_with_fault(
    alloc: Global,
    device: &RamDevice,
    erased: Erased,
    nth: u64,
    stops: bool,
) -> Result<FaultyRamDevice, Error> {
    let copy = copy_device(alloc, device)?.with_erase_behavior(erased);
    Ok(FaultDevice::new(copy, CountedCalls::Any, nth, stops))
}

// Performs operations until the device loses power. Returns the number of completed operations, and
// the device.
fn run_until_loss(
    alloc: Global,
    device: FaultyRamDevice,
    rows: &[Row<'_>],
) -> Result<(usize, RamDevice), Error> {
    let mut session = match mount(alloc, device) {
        Ok(session) => session,
        Err((device, error)) => {
            return if error == Error::Io {
                Ok((0, device.into_inner()))
            } else {
                Err(error)
            };
        }
    };
    let (done, error) = perform_expected_operations(alloc, &mut session, rows);
    match error {
        Some(error) if error != Error::Io => Err(error),
        _ => Ok((done, session.unmount().into_inner())),
    }
}

// Performs a script on a device that loses power. Returns the number of completed operations, and
// whether a mount of what is left shows that nothing was lost.
fn outcome_of_stopped_script(
    alloc: Global,
    device: FaultyRamDevice,
    script: &Script<'_>,
) -> Result<(usize, bool), Error> {
    let (done, left) = run_until_loss(alloc, device, script.rows)?;
    let mut session = mount_image(alloc, left)?;
    let is_right = has_consistent_tree(alloc, &mut session, script, done)?;
    Ok((done, is_right))
}

// Returns copies of a device that lose power before, during and after the `nth` call.
fn copies_with_loss(
    alloc: Global,
    device: &RamDevice,
    erased: Erased,
    nth: u64,
) -> Result<[FaultyRamDevice; 3], Error> {
    let before = device_copy_with_fault(alloc, device, erased, nth, true)?;
    let within = device_copy_with_fault(alloc, device, erased, nth, true)?.torn(20);
    let behind = device_copy_with_fault(alloc, device, erased, nth, true)?.whole();
    Ok([before, within, behind])
}

// Performs a script with a power loss before, during and after the `nth` call. Returns whether
// nothing was lost in any case, and whether the script was completed in each case.
fn survives_power_loss(
    alloc: Global,
    device: &RamDevice,
    erased: Erased,
    script: &Script<'_>,
    nth: u64,
) -> Result<(bool, bool), Error> {
    let mut are_right = true;
    let mut are_whole = true;
    for copy in copies_with_loss(alloc, device, erased, nth)? {
        let (done, is_right) = outcome_of_stopped_script(alloc, copy, script)?;
        are_right &= is_right;
        are_whole &= done == script.rows.len();
    }
    Ok((are_right, are_whole))
}

// Makes the device lose power at each of its calls, up to the first number of a call that the
// script doesn't make. Returns that number, or None if a power loss destroyed something.
fn count_survived_calls(
    alloc: Global,
    device: &RamDevice,
    erased: Erased,
    script: &Script<'_>,
) -> Result<Option<u64>, Error> {
    for nth in 1..1000u64 {
        let (are_right, are_whole) = survives_power_loss(alloc, device, erased, script, nth)?;
        if !are_right {
            return Ok(None);
        }
        if are_whole {
            return Ok(Some(nth));
        }
    }
    Ok(None)
}

// Returns whether the long script survives a power loss at each call. The script programs a file's
// five blocks twice and a directory's two blocks, and makes at least eight commits.
fn survives_stop_at_each_call(alloc: Global, erased: Erased) -> Result<bool, Error> {
    let rows = operations_of_long_script(OpenFlags::WRITE | OpenFlags::CREATE);
    let calls = count_survived_calls(
        alloc,
        &small_formatted_device(alloc)?,
        erased,
        &long_script(&rows),
    )?;
    Ok(calls.is_some_and(|calls| calls > 20))
}

const ERASED: [Erased; 3] = [Erased::Fill(0xff), Erased::Fill(0), Erased::Keep];

#[test]
fn nothing_is_lost_where_a_device_stops(rt: HostRuntime) -> Result<(), Fail> {
    for erased in ERASED {
        assert_eq!(rt;
            survives_stop_at_each_call(rt.alloc(), erased),
            Ok(true),
            "{erased:?}"
        );
    }
    Ok(())
}

// Returns whether the scripts that make a directory and remove files survive a power loss at each
// call. Each script mounts and makes at least two commits.
fn other_scripts_survive_stops(alloc: Global, new: OpenFlags) -> Result<bool, Error> {
    for (device, script) in &making_and_removing_scripts(alloc, new)? {
        let calls = count_survived_calls(alloc, device, Erased::Fill(0xff), script)?;
        if !calls.is_some_and(|calls| calls > 4) {
            return Ok(false);
        }
    }
    Ok(true)
}

#[test]
fn nothing_is_lost_in_other_scripts(rt: HostRuntime) -> Result<(), Fail> {
    let new = OpenFlags::WRITE | OpenFlags::CREATE;
    assert_eq!(rt; other_scripts_survive_stops(rt.alloc(), new), Ok(true));
    Ok(())
}

// Makes the device lose power at each call of a recovery. Returns the number of the first call that
// the recovery doesn't make, or None if a power loss changed the tree.
fn count_recovery_calls(
    alloc: Global,
    left: &RamDevice,
    script: &Script<'_>,
    done: usize,
) -> Result<Option<u64>, Error> {
    let mut session = mount_image(alloc, copy_device(alloc, left)?)?;
    let tree = current_tree_index(alloc, &mut session, script, done)?;
    let recovery = Script {
        rows: &RECOVERY,
        trees: script.trees,
        behind: &[tree, tree],
    };
    count_survived_calls(alloc, left, Erased::Fill(0xff), &recovery)
}

// Makes the device lose power at each call of a rename, and then at each call of the recovery that
// follows. Returns the number of the first call that the rename doesn't make, or None if a power
// loss destroyed something.
fn count_rename_calls(alloc: Global, device: &RamDevice) -> Result<Option<u64>, Error> {
    let calls = count_survived_calls(alloc, device, Erased::Fill(0xff), &RENAMING)?;
    for nth in 1..calls.unwrap_or(0) {
        for copy in copies_with_loss(alloc, device, Erased::Fill(0xff), nth)? {
            let (done, left) = run_until_loss(alloc, copy, RENAMING.rows)?;
            if count_recovery_calls(alloc, &left, &RENAMING, done)?.is_none() {
                return Ok(None);
            }
        }
    }
    Ok(calls)
}

#[test]
fn nothing_is_lost_where_a_recovery_stops(rt: HostRuntime) -> Result<(), Fail> {
    let device = device_with_file_to_move(rt.alloc(), OpenFlags::WRITE | OpenFlags::CREATE)?;
    let calls = count_rename_calls(rt.alloc(), &device)?;
    assert!(rt; calls.is_some_and(|calls| calls > 4), "{calls:?}");
    Ok(())
}

// Performs the long script on a device that fails in one call. Returns the number of completed
// operations, and whether the session then failed and a remount showed that nothing was lost.
fn outcome_of_script_with_failure(
    alloc: Global,
    empty: &RamDevice,
    script: &Script<'_>,
    nth: u64,
) -> Result<(usize, bool), Error> {
    let device = device_copy_with_fault(alloc, empty, Erased::Fill(0xff), nth, false)?;
    let mut session = match mount(alloc, device) {
        Ok(session) => session,
        Err((_, error)) => return Ok((0, error == Error::Io)),
    };
    match perform_expected_operations(alloc, &mut session, script.rows) {
        (done, None) => Ok((done, done == LENGTH)),
        (done, Some(error)) => {
            let is_right = error == Error::Io
                && has_session_failed(alloc, &mut session)?
                && first_operation_with_wrong_reply(
                    alloc,
                    &mut session,
                    &[(Remount, Done)],
                )?.is_none()
                && has_consistent_tree(alloc, &mut session, script, done)?;
            Ok((done, is_right))
        }
    }
}

// Makes each call of the long script fail in turn. Returns the number of the first call that the
// script doesn't make, or None if a failure destroyed something.
fn count_reported_failures(alloc: Global) -> Result<Option<u64>, Error> {
    let rows = operations_of_long_script(OpenFlags::WRITE | OpenFlags::CREATE);
    let script = long_script(&rows);
    let empty = small_formatted_device(alloc)?;
    for nth in 1..1000u64 {
        let (done, is_right) = outcome_of_script_with_failure(alloc, &empty, &script, nth)?;
        if !is_right {
            return Ok(None);
        }
        if done == LENGTH {
            return Ok(Some(nth));
        }
    }
    Ok(None)
}

#[test]
fn nothing_is_lost_where_a_call_fails(rt: HostRuntime) -> Result<(), Fail> {
    let calls = count_reported_failures(rt.alloc())?;
    assert!(rt; calls.is_some_and(|calls| calls > 20), "{calls:?}");
    Ok(())
}
