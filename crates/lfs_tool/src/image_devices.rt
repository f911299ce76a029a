// Images as block devices in memory.

ghost use Rattle.std.specs.Prelude.{◌≡◌, ◌<◌, ◌/◌, ◌%◌, ◌^◌, [], IfErr, IfOk, OnOk, length};
ghost use Rattle.lfs_device.specs.RamDevice.{ram_blocks, ram_geometry, ram_history};
ghost use Rattle.lfs_device.specs.DeviceDisk.{disk_of_blocks as shown};
ghost use Rattle.lfs_model.specs.format.Disk.{IsWholeImage, disk_of_image};
ghost use Rattle.lfs_model.specs.format.Geometry.{IsValidGeometry};
ghost use Rattle.lfs_model.specs.declared.order.NameOrder.TheVariants.{LongerFirst};
ghost use Rattle.lfs_tool.specs.Listings.{IsWalkedThread, IsMountError};
ghost use Rattle.lfs_tool.specs.Unpackings.{CanFindAttributes};
ghost use Rattle.lfs_lookup.specs.AttributeAt.{IsAttribute};
ghost use Rattle.lfs_lookup.specs.TreeWalk.{tree_items_view};
ghost use Rattle.lfs_model.specs.format.Thread.{count_before_root};
ghost use Rattle.lfs_model.specs.session.TreeEdits.{node_attributes_of};
ghost use Rattle.lfs_model.specs.tree.Shown.{disk_tree};

use crate::stream::IMAGE_MAX;
use crate::{ImageLayout, geometry_of_sizes};
use lfs_device::{Error, Geometry, RamDevice};
use lfs_lookup::{Path, TreeItem, find_attribute, walk_tree};
use lfs_mount::mount_image;
use lfs_thread::Thread;
use std::alloc::Global;

fn geometry_of_length(len: usize, layout: ImageLayout) -> Result<Geometry, Error>
    requires { len < 2 ^ 32 }
    ensures sizes { IfOk result (λ g. (g.block_size ≡ layout.block_size) × (g.page ≡ layout.page) × (g.profile ≡ layout.profile)) }
    ensures count { IfOk result (λ g. (g.block_count ≡ len / layout.block_size) × (len % layout.block_size ≡ 0)) }
    ensures err { IfErr result (λ e. (e ≡ Error.Invalid) × (len % layout.block_size ≡ 0 → ¬ IsValidGeometry layout.block_size layout.page (len / layout.block_size))) }
{
    let geometry = geometry_of_sizes(len as u32, layout.block_size, layout.page)?;
    Ok(geometry.with_profile(layout.profile))
}

/// Returns a device in memory that contains an image.
///
/// # Errors
/// `Invalid` if and only if no image of this layout has this length.
pub fn ram_device_of(image: Vec<u8>, layout: ImageLayout) -> Result<RamDevice, Error>
    ensures image { OnOk result (IsWholeImage layout.block_size layout.page image.items) }
    ensures disk { IfOk result (λ d. shown (ram_geometry d) (ram_blocks d) ≡ disk_of_image layout.block_size layout.page layout.profile LongerFirst image.items) }
    ensures no_call { IfOk result (λ d. ram_history d ≡ []) }
    ensures err { IfErr result (λ e. (e ≡ Error.Invalid) × (¬ IsWholeImage layout.block_size layout.page image.items)) }
{
    if image.len() > IMAGE_MAX {
        return Err(Error::Invalid);
    }
    let geometry = geometry_of_length(image.len(), layout)?;
    RamDevice::from_bytes(geometry, image)
}

/// A mounted image, with all its files and directories.
#[derive(Drop)]
pub struct MountedImage {
    pub(crate) thread: Thread<RamDevice>,
    // The index of the root directory's first pair in the thread.
    pub(crate) root: usize,
    /// The files and directories, in the order of `items_of_image`.
    pub items: Vec<TreeItem>,
}

impl MountedImage {
    /// Returns the attribute of type `kind` of the file or directory at a path, or None if there is
    /// none.
    ///
    /// # Errors
    /// `NoMemory` if memory can't be allocated.
    pub fn attribute(
        &mut self,
        alloc: Global,
        path: &Path<'_>,
        kind: u8,
    ) -> Result<Option<Vec<u8>>, Error>
        requires { CanFindAttributes self.old }
        ensures is { IfOk result (IsAttribute kind (node_attributes_of (disk_tree self.old.thread.kept.disk self.old.thread.kept.pairs path.now))) }
        ensures can { CanFindAttributes self.new }
        ensures err { IfErr result (λ e. e ≡ Error.NoMemory) }
    {
        match find_attribute(alloc, &mut self.thread, self.root, path, kind) {
            Ok(found) => Ok(found.bytes),
            Err(error) => {
                // A device in memory never fails, so memory ran out.
                let _device = self.thread.device();
                Err(error)
            }
        }
    }
}

// Mounts an image in an order of names that it is accepted in, and walks its tree.
pub(crate) fn mount_and_walk(alloc: Global, device: RamDevice) -> Result<MountedImage, Error>
    ensures items { IfOk result (λ m. IsWalkedThread (shown (ram_geometry device) (ram_blocks device)) m.thread (tree_items_view m.items.items)) }
    ensures root { IfOk result (λ m. m.root ≡ count_before_root m.thread.kept.pairs) }
    ensures err { IfErr result (IsMountError (shown (ram_geometry device) (ram_blocks device))) }
{
    let (mut thread, root) = match mount_image(alloc, device) {
        Ok(image) => (image.thread, image.findings.root),
        Err((_device, error)) => return Err(error),
    };
    match walk_tree(alloc, &mut thread) {
        Ok(items) => Ok(MountedImage {
            thread,
            root,
            items,
        }),
        Err(error) => {
            // A device in memory never fails, so memory ran out.
            let _device = thread.device();
            Err(error)
        }
    }
}
