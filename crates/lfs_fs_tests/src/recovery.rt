// Functions that mount and recover a device after a power loss, with a proof of what they find.

ghost use Rattle.std.specs.Prelude.{◌≡◌};
ghost use Rattle.lfs_model.specs.format.Disk.{Disk, disk_with_order};
ghost use Rattle.lfs_model.specs.session.Operations as ops;
ghost use Rattle.lfs_model.specs.crash.PowerLoss.{HasEitherTree};
ghost use Rattle.lfs_model.specs.crash.Premises.{MeetsPowerLossPremises};
ghost use Rattle.lfs_model.specs.crash.RepeatedPowerLoss.{IsJustMounted, SameBytes};
ghost use Rattle.lfs_model.specs.tree.Tree.{Tree};
ghost use Rattle.lfs_model.specs.declared.order.NameOrder.{NameOrder};
ghost use Rattle.lfs_device.specs.RamDevice.{ram_geometry, ram_blocks};
ghost use Rattle.lfs_device.specs.DeviceDisk.{disk_of_blocks};
ghost use Rattle.lfs_fs.specs.SessionView.{system_state};
ghost use Rattle.lfs_fs_tests.specs.Recovered.{RecoversEitherTree, RecoversFromPowerLoss};

use lfs_device::{Error, FaultDevice, RamDevice, lemma_ram_premises};
use lfs_fs::{Session, mount};
use lfs_model::power_loss_leaves_disk_with_safe_tree;
use std::alloc::Global;

// Recovers a session that was just mounted.
fn recover_session(
    alloc: Global,
    mut session: Session<RamDevice>,
) -> Result<Session<RamDevice>, Error>
    ensures { (left other : Disk) (before after : Tree) → HasEitherTree left before after → SameBytes left other → IsJustMounted other (system_state session)
        → RecoversEitherTree before after result }
{
    power_loss_leaves_disk_with_safe_tree();
    match session.recover(alloc) {
        Ok(()) => Ok(session),
        Err(error) => Err(error),
    }
}

// Mounts a device, and recovers its image.
fn recover_device(alloc: Global, device: RamDevice) -> Result<Session<RamDevice>, Error>
    ensures { (order : NameOrder) (before after : Tree) → HasEitherTree (disk_with_order order (disk_of_blocks (ram_geometry device) (ram_blocks device))) before after
        → RecoversEitherTree before after result }
{
    match mount(alloc, device) {
        Ok(session) => recover_session(alloc, session),
        Err((_, error)) => Err(error),
    }
}

/// Mounts a device that lost power, and recovers its image.
///
/// # Errors
///
/// Returns `Invalid` if a program of the device may have been torn, because its bytes are then
/// unknown. Returns `NoMemory` if memory can't be allocated.
pub fn recover_after_loss(
    alloc: Global,
    session: Session<FaultDevice<RamDevice>>,
) -> Result<Session<RamDevice>, Error>
    ensures { (before after : Tree) → (MeetsPowerLossPremises session.tree.history → HasEitherTree session.tree.disk before after) → RecoversEitherTree before after result }
{
    lemma_ram_premises();
    let device = session.unmount();
    if device.may_tear_calls() {
        return Err(Error::Invalid);
    }
    device.lemma_premises_hold();
    recover_device(alloc, device.into_inner())
}

/// Renames a path on a device that may lose power, and then mounts and recovers what is left. The
/// returned session has the tree from before the rename or from after it.
///
/// # Errors
///
/// Returns the errors of [`recover_after_loss`].
pub fn rename_and_recover(
    alloc: Global,
    mut session: Session<FaultDevice<RamDevice>>,
    from: &[u8],
    to: &[u8],
) -> Result<Session<RamDevice>, Error>
    ensures { RecoversFromPowerLoss (system_state session) (ops.Rename from.now to.now) result }
{
    let _ = session.rename(alloc, from, to);
    recover_after_loss(alloc, session)
}
