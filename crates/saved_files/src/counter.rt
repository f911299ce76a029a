// A counter in a file that is rewritten in place. A close commits the whole file at once.

ghost use Rattle.std.specs.Prelude.{◌≡◌, IfOk, OnOk};
ghost use Rattle.lfs_fs.specs.SessionView.{system_state};
ghost use Rattle.lfs_fs.specs.Starts.{IsReachableByCalls};
ghost use Rattle.saved_files.specs.Working.{KeepsWorkingBetween};
ghost use Rattle.saved_files.specs.Counter.{ReadsCounterAs, IncrementsCounterTo, SetsCounterTo, CounterReadSurvivesLoss, IncrementSurvivesPowerLoss, SetCounterSurvivesLoss, number_of};

use crate::files::{read_file, saving_flags, write_file};
use lfs_device::{BlockDevice, Error};
use lfs_fs::Session;
use std::alloc::Global;

// Returns the first four bytes as a little-endian number, or 0 if there are fewer than four bytes.
fn number_of(bytes: &[u8]) -> u32
    ensures { result ≡ number_of bytes.now }
{
    if bytes.len() < 4 {
        return 0;
    }
    u32::from_le_bytes([bytes[0], bytes[1], bytes[2], bytes[3]])
}

/// Returns the counter's number.
///
/// # Errors
///
/// Returns the errors of [`read_file`], such as `NoEnt` if the counter was never set.
pub fn read_counter<D: BlockDevice>(session: &mut Session<D>, alloc: Global) -> Result<u32, Error>
    ensures survives { CounterReadSurvivesLoss (system_state session.old) (system_state session.new) }
    ensures lived { IsReachableByCalls (system_state session.old) (system_state session.new) }
    ensures works { OnOk result (KeepsWorkingBetween (system_state session.old) (system_state session.new)) }
    ensures is { IfOk result (λ number. ReadsCounterAs number (system_state session.old) (system_state session.new)) }
{
    let bytes = read_file(session, alloc, b"/counter")?;
    Ok(number_of(&bytes))
}

/// Sets the counter to `number`. If power is lost during the call, the next start reads the old
/// number or `number`. A counter that was never set counts as 0.
///
/// # Errors
///
/// Returns the errors of [`write_file`].
pub fn set_counter<D: BlockDevice>(
    session: &mut Session<D>,
    alloc: Global,
    number: u32,
) -> Result<(), Error>
    ensures survives { SetCounterSurvivesLoss (system_state session.old) number (system_state session.new) }
    ensures lived { IsReachableByCalls (system_state session.old) (system_state session.new) }
    ensures set { OnOk result (SetsCounterTo number (system_state session.old) (system_state session.new)) }
{
    write_file(
        session,
        alloc,
        b"/counter",
        saving_flags(),
        &number.to_le_bytes(),
    )?;
    Ok(())
}

/// Increments the counter, and returns the new number. If power is lost during the call, the next
/// start reads the old number or the new one.
///
/// # Errors
///
/// Returns `TooBig` if the number is `u32::MAX`, or else the errors of [`read_counter`] and
/// [`write_file`].
pub fn increment_counter<D: BlockDevice>(
    session: &mut Session<D>,
    alloc: Global,
) -> Result<u32, Error>
    ensures survives { IncrementSurvivesPowerLoss (system_state session.old) (system_state session.new) }
    ensures lived { IsReachableByCalls (system_state session.old) (system_state session.new) }
    ensures raised { IfOk result (λ number. IncrementsCounterTo number (system_state session.old) (system_state session.new)) }
{
    let number = read_counter(session, alloc)?;
    if number == u32::MAX {
        return Err(Error::TooBig);
    }
    write_file(
        session,
        alloc,
        b"/counter",
        saving_flags(),
        &(number + 1).to_le_bytes(),
    )?;
    Ok(number + 1)
}
