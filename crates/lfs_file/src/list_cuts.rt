// Truncates stored lists.

ghost use Rattle.std.specs.Prelude.{◌≤◌, take, IfOk};
ghost use Rattle.lfs_device.specs.DeviceCalls.{ReadsOnlyOrIo};
ghost use Rattle.lfs_file.specs.Hand.{IsFinishedList, KeepsUsedBlocks, stored_list_bytes};
ghost use Rattle.lfs_file.specs.HandWrites.{IsFinishedOf};
ghost use Rattle.lfs_file.specs.BlockOwners.{HasOnlyBlocksOf};

use crate::list_ends::release_base_from;
use crate::stored_list::StoredList;
use crate::{blocks_for, truncated_head};
use lfs_blocks::BlockMap;
use lfs_device::{BlockDevice, Error};

/// Truncates a stored list to its first `keep` bytes, where `keep` is from 1 to the list's size.
/// The old and the new list share their blocks. Releases the in-flight blocks past the cut.
/// Allocates no memory and writes nothing.
///
/// Errors: `Io` if a device call fails.
pub(crate) fn shorten_stored_list<D: BlockDevice>(
    dev: &mut D,
    map: &mut BlockMap,
    stored: StoredList,
    keep: u32,
) -> Result<StoredList, Error>
    requires stored { IsFinishedList map.old (D.blocks dev.old) (D.geometry dev.old).block_size stored }
    requires length { (1 ≤ keep) × (keep ≤ stored.size) }
    ensures cut { IfOk result (λ s. IsFinishedOf map.new (D.blocks dev.new) (D.geometry dev.old) s keep (take keep (stored_list_bytes (D.blocks dev.old) (D.geometry dev.old).block_size stored))) }
    ensures front { IfOk result (HasOnlyBlocksOf (D.geometry dev.old).block_size (D.blocks dev.old) stored (D.blocks dev.new)) }
    ensures map { KeepsUsedBlocks map.old map.new }
    ensures reading { ReadsOnlyOrIo D.BlockDevice dev.old dev.new result }
{
    let head = truncated_head(dev, stored.head, stored.size, keep)?;
    let count = blocks_for(dev.geometry().block_size, keep);
    release_base_from(dev, map, stored, count)?;
    Ok(StoredList {
        head,
        size: keep,
        in_flight: stored.in_flight,
    })
}
