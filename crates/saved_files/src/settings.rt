// Settings are written to a second file, which is then renamed to replace the first.

ghost use Rattle.std.specs.Prelude.{ℕ, ◌≡◌, ◌⊎◌, List, Option, Some, IfOk, OnOk};
ghost use Rattle.lfs_model.specs.format.Disk.{Disk};
ghost use Rattle.lfs_model.specs.session.Session.{Session as SessionState};
ghost use Rattle.lfs_model.specs.session.State.{Healthy};
ghost use Rattle.lfs_fs.specs.SessionView.{system_state};
ghost use Rattle.lfs_fs.specs.Starts.{IsReachableByCalls};
ghost use Rattle.lfs_model.specs.crash.LifeTrees.{HasMountableTree};
ghost use Rattle.saved_files.specs.Settings.{AreInterruptedSaves, FirstSaveSurvivesLoss, IsOneOfSettings, SavesSettings, SaveSurvivesPowerLoss, settings_in};

use crate::files::{memory_erases_cleanly, read_file, saving_flags, write_file};
use lfs_device::{BlockDevice, Error, RamDevice};
use lfs_fs::{Session, format};
use std::alloc::Global;

/// Saves settings. If power is lost during the call, the next start reads the old settings or the
/// new ones.
///
/// # Errors
///
/// Returns the errors of [`write_file`] and of a rename.
pub fn save_settings<D: BlockDevice>(
    session: &mut Session<D>,
    alloc: Global,
    bytes: &[u8],
) -> Result<(), Error>
    ensures survives { SaveSurvivesPowerLoss (system_state session.old) bytes.now (system_state session.new) }
    ensures lived { IsReachableByCalls (system_state session.old) (system_state session.new) }
    ensures saved { OnOk result (SavesSettings (system_state session.old) bytes.now (system_state session.new)) }
{
    write_file(session, alloc, b"/settings.new", saving_flags(), bytes)?;
    session.rename(alloc, b"/settings.new", b"/settings")?;
    Ok(())
}

/// Formats a device in memory, and saves settings on it. Unlike the contract of [`save_settings`],
/// the contract of this function has no premise about the device.
///
/// # Errors
///
/// Returns the errors of [`format`](lfs_fs::format) and of [`save_settings`].
pub fn format_and_save(
    alloc: Global,
    device: RamDevice,
    bytes: &[u8],
) -> Result<Session<RamDevice>, Error>
    ensures { IfOk result (λ session. FirstSaveSurvivesLoss bytes.now (system_state session)) }
{
    let mut session = match format(alloc, device) {
        Ok(session) => session,
        Err((_, error)) => return Err(error),
    };
    save_settings(&mut session, alloc, bytes)?;
    memory_erases_cleanly(&session);
    Ok(session)
}

/// Proves that settings survive a power loss in each of several saves. The next start finds the
/// settings from before the first save, or those of one of the saves.
pub fn settings_survive_any_losses()
    ensures { (disk left : Disk) (old : Option (List ℕ)) (saves : List (List ℕ)) → HasMountableTree (λ tree. settings_in tree ≡ old) disk → AreInterruptedSaves disk saves left
        → HasMountableTree (λ tree. (settings_in tree ≡ old) ⊎ IsOneOfSettings saves (settings_in tree)) left }
{}

/// Returns all bytes of the settings.
///
/// # Errors
///
/// Returns the errors of [`read_file`], such as `NoEnt` if no settings were saved.
pub fn read_settings<D: BlockDevice>(
    session: &mut Session<D>,
    alloc: Global,
) -> Result<Vec<u8>, Error>
    ensures { IfOk result (λ bytes. (s : SessionState) → (system_state session.old).state ≡ Healthy s → settings_in s.tree ≡ Some bytes.items) }
{
    let bytes = read_file(session, alloc, b"/settings")?;
    Ok(bytes)
}
