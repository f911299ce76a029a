// Functions that settings, counter and log share: they mount a device, and write or read a whole
// file.

ghost use Rattle.std.specs.Prelude.{◌≡◌, true, IfOk, OnOk};
ghost use Rattle.lfs_model.specs.format.Disk.{disk_with_order};
ghost use Rattle.lfs_model.specs.crash.RepeatedPowerLoss.{IsJustMounted};
ghost use Rattle.lfs_model.specs.crash.Stops.{ErasesCleanly};
ghost use Rattle.lfs_model.specs.session.History.{AllCallsSince};
ghost use Rattle.lfs_model.specs.session.Run.{SystemState};
ghost use Rattle.lfs_thread.specs.Kept.{disk_of_device};
ghost use Rattle.lfs_fs.specs.FlagsView.{flags_view};
ghost use Rattle.lfs_fs.specs.SessionView.{system_state};
ghost use Rattle.lfs_model.specs.crash.LifeTrees.{HasWritableDiskTree};
ghost use Rattle.lfs_fs.specs.Starts.{IsReachableByCalls};
ghost use Rattle.saved_files.specs.Working.{KeepsWorkingBetween};
ghost use Rattle.saved_files.specs.Writing.{ReadsFile, ReadSurvivesPowerLoss, WriteSurvivesPowerLoss, WritesFile, saving_flags, appending_flags};

use lfs_device::{BlockDevice, Error, RamDevice, lemma_ram_premises};
use lfs_fs::{OpenFlags, Session, mount};
use std::alloc::Global;

/// Mounts a device when the application starts, and checks that its image may be written.
///
/// # Errors
///
/// Returns `ReadOnly` if the image may not be written, or else the errors of [`mount`].
pub fn start<D: BlockDevice + Drop>(alloc: Global, device: D) -> Result<Session<D>, Error>
    ensures mounted { IfOk result (λ session. IsJustMounted (disk_with_order session.tree.disk.order (disk_of_device D.BlockDevice device)) (system_state session)) }
    ensures may { IfOk result (λ session. HasWritableDiskTree (system_state session)) }
{
    let session = match mount(alloc, device) {
        Ok(session) => session,
        Err((_, error)) => return Err(error),
    };
    if !session.is_writable() {
        return Err(Error::ReadOnly);
    }
    Ok(session)
}

// Returns the flags that make a write replace the whole file.
pub(crate) fn saving_flags() -> OpenFlags
    ensures { flags_view result ≡ saving_flags }
{
    OpenFlags::WRITE
        .union(OpenFlags::CREATE)
        .union(OpenFlags::TRUNCATE)
}

// Returns the flags that make a write append to the file.
pub(crate) fn appending_flags() -> OpenFlags
    ensures { flags_view result ≡ appending_flags }
{
    OpenFlags::WRITE
        .union(OpenFlags::CREATE)
        .union(OpenFlags::APPEND)
}

/// Opens a file, writes bytes, and closes the file. If power is lost during the call, the next
/// start finds the whole file from before the write or from after it, because the close commits all
/// bytes at once. A new file may also be empty then.
///
/// # Errors
///
/// Returns the errors of `open`, `write` and `close`. A refused write leaves the file open, so that
/// the next call of this function returns `Busy`.
pub fn write_file<D: BlockDevice>(
    session: &mut Session<D>,
    alloc: Global,
    path: &[u8],
    flags: OpenFlags,
    bytes: &[u8],
) -> Result<(), Error>
    requires writes { (flags_view flags).write ≡ true }
    ensures survives { WriteSurvivesPowerLoss path.now (flags_view flags) bytes.now (system_state session.old) (system_state session.new) }
    ensures lived { IsReachableByCalls (system_state session.old) (system_state session.new) }
    ensures works { OnOk result (KeepsWorkingBetween (system_state session.old) (system_state session.new)) }
    ensures written { OnOk result (WritesFile path.now (flags_view flags) bytes.now (system_state session.old) (system_state session.new)) }
{
    let file = session.open(alloc, path, flags)?;
    session.write(alloc, file, bytes)?;
    session.close(alloc, file)?;
    Ok(())
}

/// Returns all bytes of a file. If power is lost during the call, the next start finds the file
/// unchanged.
///
/// # Errors
///
/// Returns `NoEnt` if there is no file, or else the errors of `open`, `size`, `read` and `close`.
pub fn read_file<D: BlockDevice>(
    session: &mut Session<D>,
    alloc: Global,
    path: &[u8],
) -> Result<Vec<u8>, Error>
    ensures survives { ReadSurvivesPowerLoss path.now (system_state session.old) (system_state session.new) }
    ensures lived { IsReachableByCalls (system_state session.old) (system_state session.new) }
    ensures works { OnOk result (KeepsWorkingBetween (system_state session.old) (system_state session.new)) }
    ensures read { IfOk result (λ bytes. ReadsFile path.now bytes.items (system_state session.old) (system_state session.new)) }
{
    let reader = session.open(alloc, path, OpenFlags::READ)?;
    let size = session.size(reader)?;
    let bytes = session.read(alloc, reader, size)?;
    session.close(alloc, reader)?;
    Ok(bytes)
}

/// Proves that each erase of a device in memory meets the premise about erases. Does nothing at run
/// time.
pub fn memory_erases_cleanly(session: &Session<RamDevice>)
    ensures { (from : SystemState) → IsReachableByCalls from (system_state session.now) → AllCallsSince ErasesCleanly from.calls (system_state session.now).calls }
{
    lemma_ram_premises();
    let _ = session.device();
}
