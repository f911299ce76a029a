// Mounts and formats a device for a volume.

ghost use Rattle.std.specs.Prelude.{◌≡◌, ◌⊎◌, List, [], IfErr, IfOk};
ghost use Rattle.lfs_device.specs.DeviceDisk.{disk_with_profile};
ghost use Rattle.lfs_model.specs.declared.order.NameOrder.{NameOrder};
ghost use Rattle.lfs_model.specs.declared.order.NameOrder.TheVariants.{LongerFirst, ShorterFirst};
ghost use Rattle.lfs_model.specs.format.Disk.{SameGeometry, disk_with_order};
ghost use Rattle.lfs_model.specs.format.Thread.{Pair, address_blocks, superblock_pair_address};
ghost use Rattle.lfs_model.specs.tree.Fresh.{empty_tree};
ghost use Rattle.lfs_model.specs.tree.View.{IsAccepted};
ghost use Rattle.lfs_model.specs.session.State.{Healthy, mounted_session};
ghost use Rattle.lfs_model.specs.crash.RepeatedPowerLoss.{IsJustMounted};
ghost use Rattle.lfs_thread.specs.Kept.{disk_of_device, kept_in_order};
ghost use Rattle.lfs_thread.specs.ThreadDevice.{GivesDeviceBack};
ghost use Rattle.lfs_tree.specs.Formats.{IsFormatError, IsFreshlyFormatted, WritesOnlyFirstTwoBlocks};
ghost use Rattle.lfs_tree.specs.TreeState.{kept_thread};
ghost use Rattle.lfs_fs.specs.ImageLimits.{BeginsWithImageLimits, ReturnsUnchangedDevice};
ghost use Rattle.lfs_fs.specs.SessionView.{BeginsByMount, system_state};
ghost use Rattle.lfs_volume.specs.VolumeCalls.{HasNoHandles};

use crate::volume::{Volume, begin};
use lfs_device::{BlockDevice, Error};
use lfs_fs::{NameOrder, Profile, Profiled};
use std::alloc::Global;

/// Mounts a device as `lfs_fs::mount` does, and returns a volume over the session. No file is open.
///
/// # Errors
///
/// Returns the same errors as `lfs_fs::mount`, with the device.
pub fn mount<D: BlockDevice>(alloc: Global, device: D) -> Result<Volume<D>, (D, Error)>
    ensures begun { IfOk result (λ v. HasNoHandles v × BeginsByMount (disk_with_order v.session.tree.disk.order (disk_of_device D.BlockDevice device)) (D.history device) v.session) }
    ensures state { IfOk result (λ v. IsJustMounted (disk_with_order v.session.tree.disk.order (disk_of_device D.BlockDevice device)) (system_state v.session)) }
    ensures longer { IfOk result (λ v. v.session.tree.disk.order ≡ ShorterFirst → (ps : List Pair) → ¬ IsAccepted (disk_with_order LongerFirst (disk_of_device D.BlockDevice device)) ps) }
    ensures corrupt { IfErr result (λ e. e.1 ≡ Error.Corrupt → (order : NameOrder) (ps : List Pair) → ¬ IsAccepted (disk_with_order order (disk_of_device D.BlockDevice device)) ps) }
    ensures errors { IfErr result (λ e. (e.1 ≡ Error.Io) ⊎ (e.1 ≡ Error.Corrupt) ⊎ (e.1 ≡ Error.NoMemory)) }
    ensures back { IfErr result (λ e. GivesDeviceBack D.BlockDevice device e.0 e.1) }
{
    match lfs_fs::mount(alloc, device) {
        Ok(session) => Ok(begin(alloc, session)),
        Err(back) => Err(back),
    }
}

/// Mounts a device with the limits of its image, as `lfs_fs::mount_with_limits` does, and returns a
/// volume over the session. No file is open.
///
/// # Errors
///
/// Returns the same errors as `lfs_fs::mount_with_limits`, with the device.
pub fn mount_with_limits<D: BlockDevice>(
    alloc: Global,
    device: D,
    profile: Profile,
) -> Result<Volume<Profiled<D>>, (D, Error)>
    ensures begun { IfOk result (λ v. HasNoHandles v × BeginsWithImageLimits (disk_of_device D.BlockDevice device) (D.history device) profile v.session) }
    ensures state { IfOk result (λ v. IsJustMounted (disk_with_order v.session.tree.disk.order (disk_with_profile v.session.tree.disk.profile (disk_of_device D.BlockDevice device))) (system_state v.session)) }
    ensures longer { IfOk result (λ v. v.session.tree.disk.order ≡ ShorterFirst → (ps : List Pair) → ¬ IsAccepted (disk_with_order LongerFirst (disk_with_profile v.session.tree.disk.profile (disk_of_device D.BlockDevice device))) ps) }
    ensures corrupt { IfErr result (λ e. e.1 ≡ Error.Corrupt → (order : NameOrder) (ps : List Pair) → ¬ IsAccepted (disk_with_order order (disk_with_profile profile (disk_of_device D.BlockDevice device))) ps) }
    ensures errors { IfErr result (λ e. (e.1 ≡ Error.Io) ⊎ (e.1 ≡ Error.Corrupt) ⊎ (e.1 ≡ Error.NoMemory)) }
    ensures back { IfErr result (λ e. ReturnsUnchangedDevice D.BlockDevice device e.0 e.1) }
{
    match lfs_fs::mount_with_limits(alloc, device, profile) {
        Ok(session) => Ok(begin(alloc, session)),
        Err(back) => Err(back),
    }
}

/// Writes an empty file system to a device in littlefs's own order of names, and returns a volume
/// over it. No file is open.
///
/// # Errors
///
/// Returns the same errors as [`format_ordered`], with the device.
pub fn format<D: BlockDevice>(alloc: Global, device: D) -> Result<Volume<D>, (D, Error)>
    ensures formatted { IfOk result (λ v. HasNoHandles v × IsFreshlyFormatted (kept_thread v.session.tree)) }
    ensures state { IfOk result (λ v. (system_state v.session).state ≡ Healthy (mounted_session empty_tree)) }
    ensures geometry { IfOk result (λ v. SameGeometry (disk_with_order LongerFirst (disk_of_device D.BlockDevice device)) v.session.tree.disk) }
    ensures calls { IfOk result (λ v. WritesOnlyFirstTwoBlocks (kept_in_order D.BlockDevice LongerFirst device [] []) (kept_thread v.session.tree)) }
    ensures back { IfErr result (λ e. IsFormatError D.BlockDevice (address_blocks superblock_pair_address) device e.0 e.1) }
{
    format_ordered(alloc, device, NameOrder::LongerFirst)
}

/// Writes an empty file system to a device as `lfs_fs::format_ordered` does, and returns a volume
/// over it. No file is open.
///
/// # Errors
///
/// Returns the same errors as `lfs_fs::format_ordered`, with the device.
pub fn format_ordered<D: BlockDevice>(
    alloc: Global,
    device: D,
    order: NameOrder,
) -> Result<Volume<D>, (D, Error)>
    ensures formatted { IfOk result (λ v. HasNoHandles v × IsFreshlyFormatted (kept_thread v.session.tree)) }
    ensures state { IfOk result (λ v. (system_state v.session).state ≡ Healthy (mounted_session empty_tree)) }
    ensures geometry { IfOk result (λ v. SameGeometry (disk_with_order order (disk_of_device D.BlockDevice device)) v.session.tree.disk) }
    ensures calls { IfOk result (λ v. WritesOnlyFirstTwoBlocks (kept_in_order D.BlockDevice order device [] []) (kept_thread v.session.tree)) }
    ensures back { IfErr result (λ e. IsFormatError D.BlockDevice (address_blocks superblock_pair_address) device e.0 e.1) }
{
    match lfs_fs::format_ordered(alloc, device, order) {
        Ok(session) => Ok(begin(alloc, session)),
        Err(back) => Err(back),
    }
}
