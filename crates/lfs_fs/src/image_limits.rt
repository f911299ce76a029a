// A mount that adopts the image's limits.

ghost use Rattle.std.specs.Prelude.{◌≡◌, ◌↔◌, ◌⊎◌, IsTrue, List, IfErr, IfOk};
ghost use Rattle.lfs_device.specs.DeviceDisk.{disk_with_profile};
ghost use Rattle.lfs_model.specs.format.Disk.{disk_with_order};
ghost use Rattle.lfs_model.specs.crash.RepeatedPowerLoss.{IsJustMounted};
ghost use Rattle.lfs_model.specs.format.Thread.{Pair};
ghost use Rattle.lfs_model.specs.tree.View.{IsAccepted};
ghost use Rattle.lfs_model.specs.declared.order.NameOrder.{NameOrder};
ghost use Rattle.lfs_model.specs.declared.order.NameOrder.TheVariants.{LongerFirst, ShorterFirst};
ghost use Rattle.lfs_thread.specs.Kept.{disk_of_device};
ghost use Rattle.lfs_fs.specs.ImageLimits.{BeginsWithImageLimits, ReturnsUnchangedDevice};
ghost use Rattle.lfs_fs.specs.SessionView.{BeginsByMount, system_state};

use crate::session::{Session, mount};
use lfs_device::{BlockDevice, Error, Profile, Profiled};
use std::alloc::Global;

// Returns whether two profiles have the same limits on names, files and attributes.
fn have_same_limits(one: &Profile, other: &Profile) -> bool
    ensures { IsTrue result ↔ ((one.now.name_max ≡ other.now.name_max) × (one.now.file_max ≡ other.now.file_max) × (one.now.attr_max ≡ other.now.attr_max)) }
{
    one.name_max == other.name_max
        && one.file_max == other.file_max
        && one.attr_max == other.attr_max
}

// Mounts the image on a device with the given profile.
fn mount_with_profile<D: BlockDevice>(
    alloc: Global,
    device: D,
    profile: Profile,
) -> Result<Session<Profiled<D>>, (D, Error)>
    ensures begun { IfOk result (λ s. BeginsByMount (disk_with_order s.tree.disk.order (disk_with_profile profile (disk_of_device D.BlockDevice device))) (D.history device) s) }
    ensures state { IfOk result (λ s. IsJustMounted (disk_with_order s.tree.disk.order (disk_with_profile profile (disk_of_device D.BlockDevice device))) (system_state s)) }
    ensures longer { IfOk result (λ s. s.tree.disk.order ≡ ShorterFirst → (ps : List Pair) → ¬ IsAccepted (disk_with_order LongerFirst (disk_with_profile profile (disk_of_device D.BlockDevice device))) ps) }
    ensures corrupt { IfErr result (λ e. e.1 ≡ Error.Corrupt → (order : NameOrder) (ps : List Pair) → ¬ IsAccepted (disk_with_order order (disk_with_profile profile (disk_of_device D.BlockDevice device))) ps) }
    ensures errors { IfErr result (λ e. (e.1 ≡ Error.Io) ⊎ (e.1 ≡ Error.Corrupt) ⊎ (e.1 ≡ Error.NoMemory)) }
    ensures back { IfErr result (λ e. ReturnsUnchangedDevice D.BlockDevice device e.0 e.1) }
{
    match mount(alloc, Profiled::new(device, profile)) {
        Ok(session) => Ok(session),
        Err((device, error)) => Err((device.into_inner(), error)),
    }
}

/// Mounts the image on a device as [`mount`] does, with a profile whose limits are replaced by the
/// image's. An image that was made with lower limits may therefore be changed, and stays within its
/// limits. Only reads the device.
///
/// A limit in the superblock is ignored if it is 0 or above the format's own limit. If a limit is
/// ignored, the profile's limit stays, and the image isn't in the writing profile.
///
/// # Errors
///
/// `Corrupt` if the device has no accepted image in either order of names, in a version that the
/// profile accepts. `Io` if a read fails. `NoMemory` if memory can't be allocated. An error also
/// returns the device.
pub fn mount_with_limits<D: BlockDevice>(
    alloc: Global,
    device: D,
    profile: Profile,
) -> Result<Session<Profiled<D>>, (D, Error)>
    ensures begun { IfOk result (BeginsWithImageLimits (disk_of_device D.BlockDevice device) (D.history device) profile) }
    ensures state { IfOk result (λ s. IsJustMounted (disk_with_order s.tree.disk.order (disk_with_profile s.tree.disk.profile (disk_of_device D.BlockDevice device))) (system_state s)) }
    ensures longer { IfOk result (λ s. s.tree.disk.order ≡ ShorterFirst → (ps : List Pair) → ¬ IsAccepted (disk_with_order LongerFirst (disk_with_profile s.tree.disk.profile (disk_of_device D.BlockDevice device))) ps) }
    ensures corrupt { IfErr result (λ e. e.1 ≡ Error.Corrupt → (order : NameOrder) (ps : List Pair) → ¬ IsAccepted (disk_with_order order (disk_with_profile profile (disk_of_device D.BlockDevice device))) ps) }
    ensures errors { IfErr result (λ e. (e.1 ≡ Error.Io) ⊎ (e.1 ≡ Error.Corrupt) ⊎ (e.1 ≡ Error.NoMemory)) }
    ensures back { IfErr result (λ e. ReturnsUnchangedDevice D.BlockDevice device e.0 e.1) }
{
    let mut session = mount_with_profile(alloc, device, profile)?;
    match session.superblock(alloc) {
        Ok(superblock) => {
            let limits = superblock.limit_profile(profile);
            if have_same_limits(&limits, &profile) {
                return Ok(session);
            }
            mount_with_profile(alloc, session.unmount().into_inner(), limits)
        }
        Err(error) => Err((session.unmount().into_inner(), error)),
    }
}
