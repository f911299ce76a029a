ghost use Rattle.std.specs.Prelude.{◌<◌};
ghost use Rattle.lfs_device.specs.Bytes.{AreByteBlocks};

use lfs_device::BlockDevice;

/// Proves that the blocks of any device consist of bytes.
pub fn lemma_device_bytes<D: BlockDevice>(_device: &D)
    ensures { AreByteBlocks (D.blocks _device.now) }
{}
