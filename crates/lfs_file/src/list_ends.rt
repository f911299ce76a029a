// Completes drafts.

ghost use Rattle.std.specs.Prelude.{◌≡◌, ◌≤◌, ◌+◌, if◌then◌else◌, [], drop, length, true, OnOk, IfOk};
ghost use Rattle.lfs_model.specs.layers.BlockSets.{used_count};
ghost use Rattle.lfs_model.specs.format.SkipLists.{skip_list_block_count};
ghost use Rattle.lfs_device.specs.DeviceCalls.{ReadsOnlyOrIo};
ghost use Rattle.lfs_file.specs.Outcomes.{WritesUnusedBlocks};
ghost use Rattle.lfs_file.specs.Bases.{IsListOrEmpty, blocks_of_list};
ghost use Rattle.lfs_file.specs.Hand.{KeepsUsedBlocks};
ghost use Rattle.lfs_file.specs.Releases.{ReleasesInFlight};
ghost use Rattle.lfs_file.specs.BaseRoom.{in_flight_limit};
ghost use Rattle.lfs_file.specs.HandWrites.{IsFinishedOf, CanEndUnfinished, unfinished_bytes, unfinished_length};
ghost use Rattle.lfs_file.specs.BlockOwners.{AreFromBase};

use crate::block_copies::copy_stored_tail;
use crate::blocks_for;
use crate::releases::release_list_from;
use crate::stored_list::StoredList;
use crate::writes::PendingList;
use lfs_blocks::BlockMap;
use lfs_device::{BlockDevice, Error};
use std::alloc::Global;

// Releases the in-flight blocks of an old list from the index `shared` on, if the list may have
// any.
pub(crate) fn release_base_from<D: BlockDevice>(
    dev: &mut D,
    map: &mut BlockMap,
    base: StoredList,
    shared: u32,
) -> Result<(), Error>
    requires base { IsListOrEmpty (D.blocks dev.old) (D.geometry dev.old).block_size base.head base.size }
    requires map { length map.old ≡ length (D.blocks dev.old) }
    requires within { shared ≤ skip_list_block_count (D.geometry dev.old).block_size base.size }
    ensures released { OnOk result (ReleasesInFlight map.old map.new (if base.in_flight then drop shared (blocks_of_list (D.blocks dev.old) (D.geometry dev.old).block_size base.head base.size) else [])) }
    ensures map { KeepsUsedBlocks map.old map.new }
    ensures reading { ReadsOnlyOrIo D.BlockDevice dev.old dev.new result }
{
    if !base.in_flight {
        return Ok(());
    }
    let block_size = dev.geometry().block_size;
    let count = blocks_for(block_size, base.size);
    release_list_from(dev, map, base.head, count, shared)?;
    Ok(())
}

/// Completes a draft. Copies the remaining bytes of the old list, writes the last block, and
/// releases the in-flight blocks that are only in the old list. The bytes of the contents don't
/// change.
///
/// Requires enough free blocks for the bytes that are copied.
///
/// Errors: `NoMemory` if memory can't be allocated. `Io` if a device call fails.
pub(crate) fn complete_draft<D: BlockDevice>(
    alloc: Global,
    dev: &mut D,
    map: &mut BlockMap,
    hand: PendingList,
) -> Result<StoredList, Error>
    requires going { CanEndUnfinished map.old (D.blocks dev.old) (D.geometry dev.old) hand }
    requires room { used_count map.old + in_flight_limit (D.geometry dev.old).block_size hand.base + skip_list_block_count (D.geometry dev.old).block_size hand.base.size ≤ length map.old }
    ensures ended { IfOk result (λ s. IsFinishedOf map.new (D.blocks dev.new) (D.geometry dev.old) s (unfinished_length hand) (unfinished_bytes (D.blocks dev.old) hand)) }
    ensures own { IfOk result (AreFromBase map.new (D.geometry dev.old).block_size (D.blocks dev.old) hand.base (D.blocks dev.new)) }
    ensures writing { WritesUnusedBlocks D.BlockDevice map.old map.new dev.old dev.new result }
{
    let PendingList { list, base, shared } = hand;
    let mut list = list;
    copy_stored_tail(alloc, dev, map, &mut list, base)?;
    let (head, size) = list.finish(dev)?;
    release_base_from(dev, map, base, shared)?;
    Ok(StoredList {
        head,
        size,
        in_flight: true,
    })
}
