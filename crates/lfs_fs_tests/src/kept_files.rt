// Tests of an application's settings, counter and log after power losses.

use crate::starts::copy_device;
use lfs_device::{BlockDevice, CountedCalls, Error, FaultDevice, Geometry, RamDevice};
use lfs_fs::{OpenFlags, Session, mount};
use saved_files::{
    append_to_log, format_and_save, increment_counter, read_counter, read_settings, save_settings,
    set_counter, start,
};
use std::alloc::Global;
use std::test::Fail;

type PowerLossDevice = FaultDevice<RamDevice>;

// What the application changes.
#[derive(Clone, Copy, Debug)]
enum Change {
    Settings,
    Counter,
    Log,
}

// Returns a device with settings, a counter and a log.
fn device_with_files(alloc: Global) -> Result<RamDevice, Error> {
    let blank = RamDevice::blank(alloc, Geometry::new(1024, 128, 32)?)?;
    let mut session = format_and_save(alloc, blank, b"old")?;
    set_counter(&mut session, alloc, 41)?;
    append_to_log(&mut session, alloc, b"first ")?;
    Ok(session.unmount())
}

fn make_change<D: BlockDevice>(
    session: &mut Session<D>,
    alloc: Global,
    change: Change,
) -> Result<(), Error> {
    match change {
        Change::Settings => save_settings(session, alloc, b"new"),
        Change::Counter => match increment_counter(session, alloc) {
            Ok(_) => Ok(()),
            Err(error) => Err(error),
        },
        Change::Log => append_to_log(session, alloc, b"second "),
    }
}

fn read_log(session: &mut Session<RamDevice>, alloc: Global) -> Result<Vec<u8>, Error> {
    let file = session.open(alloc, b"/log", OpenFlags::READ)?;
    let size = session.size(file)?;
    let bytes = session.read(alloc, file, size)?;
    session.close(alloc, file)?;
    Ok(bytes)
}

// Returns whether the next start finds the new state: true for the new state, false for the old
// one. Returns None if it finds neither.
fn has_new_state(alloc: Global, device: RamDevice, change: Change) -> Result<Option<bool>, Error> {
    let mut session = start(alloc, device)?;
    let settings = read_settings(&mut session, alloc)?;
    let number = read_counter(&mut session, alloc)?;
    let log = read_log(&mut session, alloc)?;
    let seen = (settings.as_slice(), number, log.as_slice());
    let old: (&[u8], u32, &[u8]) = (b"old", 41, b"first ");
    let new: (&[u8], u32, &[u8]) = match change {
        Change::Settings => (b"new", 41, b"first "),
        Change::Counter => (b"old", 42, b"first "),
        Change::Log => (b"old", 41, b"first second "),
    };
    if seen == old {
        return Ok(Some(false));
    }
    Ok(if seen == new { Some(true) } else { None })
}

// Makes a change on a device that loses power. Returns whether the change succeeded, and which
// state the next start finds.
fn outcome_of_change(
    alloc: Global,
    device: PowerLossDevice,
    change: Change,
) -> Result<(bool, Option<bool>), Error> {
    let (is_done, left) = match mount(alloc, device) {
        Ok(mut session) => {
            let is_done = make_change(&mut session, alloc, change).is_ok();
            (is_done, session.unmount().into_inner())
        }
        Err((device, _)) => (false, device.into_inner()),
    };
    Ok((is_done, has_new_state(alloc, left, change)?))
}

// Returns copies of a device that lose power before, during and after the `nth` call.
fn copies_losing_power(
    alloc: Global,
    device: &RamDevice,
    nth: u64,
) -> Result<[PowerLossDevice; 3], Error> {
    let before = FaultDevice::new(copy_device(alloc, device)?, CountedCalls::Any, nth, true);
    let within = FaultDevice::new(copy_device(alloc, device)?, CountedCalls::Any, nth, true);
    let behind = FaultDevice::new(copy_device(alloc, device)?, CountedCalls::Any, nth, true);
    Ok([before, within.torn(20), behind.whole()])
}

// Returns the number of power losses after which a start finds the old state, and the number after
// which it finds the new one. Returns None if a start finds neither.
fn count_old_new(alloc: Global, change: Change) -> Result<Option<(u64, u64)>, Error> {
    let device = device_with_files(alloc)?;
    let (mut old, mut new) = (0u64, 0u64);
    for nth in 1..200u64 {
        let mut are_done = true;
        for copy in copies_losing_power(alloc, &device, nth)? {
            let (is_done, found) = outcome_of_change(alloc, copy, change)?;
            are_done &= is_done;
            match found {
                None => return Ok(None),
                Some(false) => old = old.saturating_add(1),
                Some(true) => new = new.saturating_add(1),
            }
        }
        if are_done {
            return Ok(Some((old, new)));
        }
    }
    Ok(None)
}

// Returns whether a start after each power loss finds the old state or the new one, and finds each
// of them more than three times.
fn change_survives_loss(alloc: Global, change: Change) -> Result<bool, Error> {
    Ok(count_old_new(alloc, change)?.is_some_and(|(old, new)| old > 3 && new > 3))
}

#[test]
fn settings_are_old_or_new_after_a_stop(rt: HostRuntime) -> Result<(), Fail> {
    assert_eq!(rt;
        change_survives_loss(rt.alloc(), Change::Settings),
        Ok(true)
    );
    Ok(())
}

#[test]
fn counter_is_old_or_new_after_a_stop(rt: HostRuntime) -> Result<(), Fail> {
    assert_eq!(rt; change_survives_loss(rt.alloc(), Change::Counter), Ok(true));
    Ok(())
}

#[test]
fn log_has_whole_entries_after_a_stop(rt: HostRuntime) -> Result<(), Fail> {
    assert_eq!(rt; change_survives_loss(rt.alloc(), Change::Log), Ok(true));
    Ok(())
}

// Appends pairs of letters, each in a session of its own. In each session the device loses power
// one call later than in the previous session. Returns the log.
fn log_of_stopped_sessions(alloc: Global) -> Result<Vec<u8>, Error> {
    let mut device = device_with_files(alloc)?;
    for letter in b'a'..=b'z' {
        let nth = u64::from(letter - b'a') + 1;
        let stopping = FaultDevice::new(device, CountedCalls::Any, nth, true).torn(9);
        device = match mount(alloc, stopping) {
            Ok(mut session) => {
                let _ = append_to_log(&mut session, alloc, &[letter, letter]);
                session.unmount().into_inner()
            }
            Err((stopped, _)) => stopped.into_inner(),
        };
    }
    let mut session = start(alloc, device)?;
    read_log(&mut session, alloc)
}

// Returns whether the letters form pairs of equal letters in alphabetical order.
fn are_pairs_in_order(letters: &[u8]) -> bool {
    letters.len().is_multiple_of(2)
        && letters.chunks_exact(2).all(|pair| pair[0] == pair[1])
        && letters.windows(2).all(|two| two[0] <= two[1])
}

#[test]
fn log_of_many_stops_has_whole_entries(rt: HostRuntime) -> Result<(), Fail> {
    let log = log_of_stopped_sessions(rt.alloc())?;
    let entries = log.strip_prefix(b"first ").unwrap_or_default();
    assert!(rt;
        entries.len() > 4 && are_pairs_in_order(entries),
        "{entries:?}"
    );
    Ok(())
}
