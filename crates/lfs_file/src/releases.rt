// Releases blocks in flight.

ghost use Rattle.std.specs.Prelude.{◌≡◌, ◌≤◌, ◌<◌, ◌∷◌, [], length, drop, OnOk};
ghost use Rattle.lfs_model.specs.format.SkipLists.{AreListBlocks, blocks_to_head};
ghost use Rattle.lfs_device.specs.DeviceCalls.{ReadsOnlyOrIo};
ghost use Rattle.lfs_file.specs.Hand.{KeepsUsedBlocks};
ghost use Rattle.lfs_file.specs.Releases.{ReleasesInFlight};

use crate::head_before_block;
use lfs_blocks::BlockMap;
use lfs_device::{BlockDevice, Error};

// Releases a block if it is in flight. A used block stays used.
pub(crate) fn release_block(map: &mut BlockMap, block: u32)
    requires { block < length map.old }
    ensures { ReleasesInFlight map.old map.new (block ∷ []) }
{
    if !map.is_used(block) {
        map.release(block);
    }
}

/// Releases the in-flight blocks of a list from the index `from` on, starting with the last block.
/// Used blocks stay used. The list has `count` blocks, and its last block is `head`.
///
/// Errors: `Io` if a device call fails.
pub(crate) fn release_list_from<D: BlockDevice>(
    dev: &mut D,
    map: &mut BlockMap,
    head: u32,
    count: u32,
    from: u32,
) -> Result<(), Error>
    requires chain { AreListBlocks (D.blocks dev.old) count head }
    requires map { length map.old ≡ length (D.blocks dev.old) }
    requires within { from ≤ count }
    ensures released { OnOk result (ReleasesInFlight map.old map.new (drop from (blocks_to_head (D.blocks dev.old) count head))) }
    ensures map { KeepsUsedBlocks map.old map.new }
    ensures reading { ReadsOnlyOrIo D.BlockDevice dev.old dev.new result }
{
    let mut block = head;
    let mut index = count;
    'releasing: while index > from {
        release_block(map, block);
        index -= 1;
        block = head_before_block(dev, block, index)?;
    }
    Ok(())
}
