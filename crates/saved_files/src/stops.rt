// Settings on a device that loses power.

ghost use Rattle.std.specs.Prelude.{IfOk};
ghost use Rattle.lfs_fs.specs.SessionView.{system_state};
ghost use Rattle.saved_files.specs.Settings.{FindsEitherSettings};

use crate::files::start;
use crate::settings::save_settings;
use lfs_device::{Error, FaultDevice, RamDevice, lemma_ram_premises};
use lfs_fs::Session;
use std::alloc::Global;

/// Saves settings on a device that may lose power during the save, and mounts what is left on it.
/// The returned session has the old settings or the new ones.
///
/// # Errors
///
/// Returns `Invalid` if the device may have torn a program, because a torn program may leave any
/// bytes. Otherwise, returns the errors of [`start`].
pub fn save_and_remount(
    alloc: Global,
    mut session: Session<FaultDevice<RamDevice>>,
    bytes: &[u8],
) -> Result<Session<RamDevice>, Error>
    ensures { IfOk result (λ next. FindsEitherSettings (system_state session) bytes.now (system_state next)) }
{
    lemma_ram_premises();
    let _ = save_settings(&mut session, alloc, bytes);
    let device = session.unmount();
    if device.may_tear_calls() {
        return Err(Error::Invalid);
    }
    device.lemma_premises_hold();
    let next = start(alloc, device.into_inner())?;
    Ok(next)
}
