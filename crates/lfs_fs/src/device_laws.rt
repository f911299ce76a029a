// What a session knows about its device.

ghost use Rattle.lfs_fs.specs.DeviceLaws.{DeviceConforms};

use lfs_device::BlockDevice;
use lfs_tree::Tree;

// Proves that the device's calls meet the contract of a block device. Does nothing at run time.
pub(crate) fn lemma_calls_conform<D: BlockDevice>(tree: &Tree<D>)
    ensures { DeviceConforms tree.now }
{
    let _device = tree.device();
}
