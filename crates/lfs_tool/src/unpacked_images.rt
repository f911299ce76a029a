// Unpacking images.

ghost use Rattle.std.specs.Prelude.{◌≡◌, ◌⊎◌, ◌<◌, ◌^◌, IfErr, IfOk, OnErr, OnOk, false, length};
ghost use Rattle.lfs_device.specs.RamDevice.{ram_blocks, ram_geometry};
ghost use Rattle.lfs_device.specs.DeviceDisk.{disk_of_blocks as shown};
ghost use Rattle.lfs_model.specs.tree.View.{IsWellFormedList};
ghost use Rattle.lfs_tool.specs.Actions.{AddsAction};
ghost use Rattle.lfs_tool.specs.Unpackings.{HaveWellFormedLists, FailsUnpackingDisk, FailsUnpackingImage, IsStillMounted, HasDoneActionsPrefix, HasDoneActions, HasUnpackedDisk, HasUnpackedImage, ReportsTargetFaults, path_struct_action, path_struct_actions};
ghost use Rattle.lfs_thread.specs.ThreadSteps.{OnlyReadsThread};
ghost use Rattle.lfs_lookup.specs.FileBytes.{struct_file_bytes};
ghost use Rattle.lfs_lookup.specs.Items.{owned_view};
ghost use Rattle.lfs_lookup.specs.TreeWalk.{tree_item_view, tree_items_view};
ghost use Rattle.lfs_tool.specs.Reports.{ReportsNewFault};
ghost use Rattle.lfs_model.specs.format.Disk.{Disk, disk_of_image};
ghost use Rattle.lfs_model.specs.declared.order.NameOrder.TheVariants.{LongerFirst};

use crate::image_devices::{MountedImage, mount_and_walk, ram_device_of};
use crate::{FileError, FilesAndBytes, FollowsProgress, ImageLayout, Target, ToolError};
use lfs_device::{Error, RamDevice};
use lfs_lookup::{OwnedStruct, TreeItem, read_struct_bytes};
use lfs_thread::Thread;
use std::alloc::Global;

// Returns the bytes of a file in an image in memory.
fn file_bytes(
    alloc: Global,
    thread: &mut Thread<RamDevice>,
    structure: &OwnedStruct,
) -> Result<Vec<u8>, ToolError>
    requires works { thread.old.failed ≡ false }
    requires list { IsWellFormedList thread.old.kept.disk (owned_view structure.now) }
    ensures bytes { IfOk result (λ bytes. bytes.items ≡ struct_file_bytes thread.old.kept.disk (owned_view structure.now)) }
    ensures only { OnlyReadsThread thread.old.kept thread.new.kept }
    ensures works { thread.new.failed ≡ false }
    ensures err { IfErr result (λ e. e ≡ ToolError.Fs Error.NoMemory) }
{
    match read_struct_bytes(alloc, thread, structure) {
        Ok(bytes) => Ok(bytes),
        Err(error) => {
            // A device in memory never fails, so memory ran out.
            let _device = thread.device();
            Err(ToolError::Fs(error))
        }
    }
}

/// Returns the tool's error for an error of a target.
pub fn target_tool_error(error: FileError) -> ToolError
    ensures { (error ≡ FileError.Fault × (result ≡ ToolError.Output)) ⊎ (error ≡ FileError.NoMemory × (result ≡ ToolError.Fs Error.NoMemory)) }
{
    match error {
        FileError::Fault => ToolError::Output,
        FileError::NoMemory => ToolError::Fs(Error::NoMemory),
    }
}

// Makes the folder of an item in the target, or writes its file with these bytes.
fn put_item_bytes<T: Target>(
    alloc: Global,
    item: &TreeItem,
    bytes: &[u8],
    target: &mut T,
) -> Result<(), ToolError>
    ensures done { (disk : Disk) → bytes.now ≡ struct_file_bytes disk (owned_view item.now.structure) → OnOk result (AddsAction (T.done target.old) (T.done target.new) (path_struct_action disk (tree_item_view item.now))) }
    ensures undone { OnErr result (T.done target.new ≡ T.done target.old) }
    ensures reports { ReportsTargetFaults (T.has_failed target.old) (T.has_failed target.new) result }
{
    let result = match &item.structure {
        OwnedStruct::Branch(_) => target.make_folder(alloc, &item.path),
        _ => target.put_file(alloc, &item.path, bytes),
    };
    match result {
        Ok(()) => Ok(()),
        Err(error) => Err(target_tool_error(error)),
    }
}

fn unpack_tree_item<T: Target>(
    alloc: Global,
    thread: &mut Thread<RamDevice>,
    item: &TreeItem,
    target: &mut T,
) -> Result<(), ToolError>
    requires works { thread.old.failed ≡ false }
    requires list { IsWellFormedList thread.old.kept.disk (owned_view item.now.structure) }
    ensures done { OnOk result (AddsAction (T.done target.old) (T.done target.new) (path_struct_action thread.old.kept.disk (tree_item_view item.now))) }
    ensures undone { OnErr result (T.done target.new ≡ T.done target.old) }
    ensures only { (OnlyReadsThread thread.old.kept thread.new.kept) × (thread.new.failed ≡ false) }
    ensures reports { ReportsTargetFaults (T.has_failed target.old) (T.has_failed target.new) result }
{
    let bytes = file_bytes(alloc, thread, &item.structure)?;
    put_item_bytes(alloc, item, &bytes, target)
}

fn counts_of_item(item: &TreeItem) -> FilesAndBytes {
    match &item.structure {
        OwnedStruct::Inline(bytes) => FilesAndBytes::one_file(bytes.len()),
        OwnedStruct::Ctz { size, .. } => FilesAndBytes::one_file(*size as usize),
        OwnedStruct::Branch(_) => FilesAndBytes::default(),
    }
}

fn counts_of_items(items: &[TreeItem]) -> FilesAndBytes {
    let mut whole = FilesAndBytes::default();
    for item in items {
        whole = whole.plus(counts_of_item(item));
    }
    whole
}

fn unpack_tree_items<T: Target, F: FollowsProgress>(
    alloc: Global,
    thread: &mut Thread<RamDevice>,
    items: &[TreeItem],
    target: &mut T,
    progress: &mut F,
) -> Result<(), ToolError>
    requires works { thread.old.failed ≡ false }
    requires lists { HaveWellFormedLists thread.old.kept.disk (tree_items_view items.now) }
    ensures done { OnOk result (HasDoneActions (T.done target.old) (T.done target.new) (path_struct_actions thread.old.kept.disk (tree_items_view items.now))) }
    ensures begun { OnErr result (HasDoneActionsPrefix (T.done target.old) (T.done target.new) (path_struct_actions thread.old.kept.disk (tree_items_view items.now))) }
    ensures only { OnOk result ((OnlyReadsThread thread.old.kept thread.new.kept) × (thread.new.failed ≡ false)) }
    ensures reports { ReportsTargetFaults (T.has_failed target.old) (T.has_failed target.new) result }
{
    progress.begin(counts_of_items(items));
    for item in items {
        unpack_tree_item(alloc, thread, item, target)?;
        progress.add(counts_of_item(item));
    }
    Ok(())
}

fn unpack_ram_device<T: Target, F: FollowsProgress>(
    alloc: Global,
    device: RamDevice,
    target: &mut T,
    progress: &mut F,
) -> Result<MountedImage, ToolError>
    ensures done { OnOk result (HasUnpackedDisk (shown (ram_geometry device) (ram_blocks device)) (T.done target.old) (T.done target.new)) }
    ensures mounted { IfOk result (IsStillMounted (shown (ram_geometry device) (ram_blocks device))) }
    ensures failed { IfErr result (FailsUnpackingDisk (shown (ram_geometry device) (ram_blocks device)) (T.done target.old) (T.done target.new)) }
    ensures output { ReportsNewFault ToolError.Output (T.has_failed target.old) (T.has_failed target.new) result }
{
    let mut image = match mount_and_walk(alloc, device) {
        Ok(image) => image,
        Err(error) => return Err(ToolError::Fs(error)),
    };
    match unpack_tree_items(alloc, &mut image.thread, &image.items, target, progress) {
        Ok(()) => Ok(image),
        Err(error) => Err(error),
    }
}

/// Unpacks an image into a target, in the order of `items_of_image`: makes a folder for each
/// directory, and writes each file with its bytes. Nothing is done before the image is accepted.
/// After an error, only a prefix of these actions has been done. `progress` receives the number of
/// files and bytes in the image, and is updated after each entry. Returns the mounted image.
///
/// # Errors
/// - `Fs` with any error of `items_of_image`.
/// - `Output` if the target fails.
pub fn unpack<T: Target, F: FollowsProgress>(
    alloc: Global,
    image: Vec<u8>,
    layout: ImageLayout,
    target: &mut T,
    progress: &mut F,
) -> Result<MountedImage, ToolError>
    ensures done { OnOk result (HasUnpackedImage layout image.items (T.done target.old) (T.done target.new)) }
    ensures mounted { IfOk result (IsStillMounted (disk_of_image layout.block_size layout.page layout.profile LongerFirst image.items)) }

    // If the target failed or memory ran out, only the first actions, if any, have been done.
    ensures failed { IfErr result (FailsUnpackingImage layout image.items (T.done target.old) (T.done target.new)) }
    ensures output { ReportsNewFault ToolError.Output (T.has_failed target.old) (T.has_failed target.new) result }
{
    match ram_device_of(image, layout) {
        Ok(device) => unpack_ram_device(alloc, device, target, progress),
        Err(error) => Err(ToolError::Fs(error)),
    }
}
