// Updates the map once a commit refers to a list.

ghost use Rattle.std.specs.Prelude.{◌≡◌, ◌≤◌, ◌<◌, ◌+◌, ◌-◌, ◌*◌, ◌∷◌, ◌++◌, ℕ, [], drop, length, OnOk};
ghost use Rattle.lfs_model.specs.layers.BlockSets.{Used};
ghost use Rattle.lfs_model.specs.session.History.{read_count};
ghost use Rattle.lfs_model.specs.format.SkipLists.{AreListBlocks, blocks_to_head};
ghost use Rattle.lfs_file.specs.BlockOwners.{stored_blocks};
ghost use Rattle.lfs_device.specs.DeviceCalls.{ReadsOnlyOrIo};
ghost use Rattle.lfs_file.specs.Outcomes.{ReadsAtMost};
ghost use Rattle.lfs_file.specs.SettledMaps.{CanSettleList, SettlesList, KeepsOtherStates, SetsState, used_or_free};
ghost use Rattle.lfs_file.specs.SharedBlocks.{IsSharedCount, unshared_count};

use crate::shared_blocks::shared_block_count;
use crate::stored_list::StoredList;
use crate::{blocks_for, head_before_block};
use lfs_blocks::BlockMap;
use lfs_device::{BlockDevice, Error};

// Marks a block as used, whatever its state is.
fn make_block_used(map: &mut BlockMap, block: u32)
    requires { block < length map.old }
    ensures { SetsState Used map.old map.new (block ∷ []) }
{
    if map.is_in_flight(block) {
        map.settle(block);
        return;
    }
    map.mark(block);
}

// Marks a block as used or free, whatever its state is.
fn set_used(map: &mut BlockMap, block: u32, used: bool)
    requires { block < length map.old }
    ensures { SetsState (used_or_free used) map.old map.new (block ∷ []) }
{
    if used {
        make_block_used(map, block);
        return;
    }
    map.release(block);
}

// Marks the blocks of a list from the index `from` on as used or free, starting with the last
// block.
fn set_list_from<D: BlockDevice>(
    dev: &mut D,
    map: &mut BlockMap,
    head: u32,
    count: u32,
    from: u32,
    used: bool,
) -> Result<(), Error>
    requires chain { AreListBlocks (D.blocks dev.old) count head }
    requires map { length map.old ≡ length (D.blocks dev.old) }
    requires within { from ≤ count }
    ensures put { OnOk result (SetsState (used_or_free used) map.old map.new (drop from (blocks_to_head (D.blocks dev.old) count head))) }
    ensures others { KeepsOtherStates map.old map.new (blocks_to_head (D.blocks dev.old) count head) }
    ensures reading { ReadsAtMost D.BlockDevice dev.old dev.new (count - from) result }
{
    let mut block = head;
    let mut index = count;
    'putting: while index > from {
        set_used(map, block, used);
        index -= 1;
        block = head_before_block(dev, block, index - from)?;
    }
    Ok(())
}

/// Settles a stored list in the map once a commit refers to the list. The blocks of `stored` become
/// used, and the blocks that are only in the file's old list `before` become free. Blocks that are
/// in both lists must be used before the call.
///
/// A list of no bytes has no blocks. The blocks that the lists share at their beginnings aren't
/// read, and each other block is read at most twice.
///
/// Errors: `Io` if a device call fails. After an error, the states of both lists' blocks are
/// unspecified, so the caller must read the image again.
pub fn settle_list<D: BlockDevice>(
    dev: &mut D,
    map: &mut BlockMap,
    before: StoredList,
    stored: StoredList,
) -> Result<(), Error>
    requires { CanSettleList map.old (D.blocks dev.old) (D.geometry dev.old).block_size before stored }
    ensures settled { OnOk result (SettlesList map.old map.new (stored_blocks (D.blocks dev.old) (D.geometry dev.old).block_size before) (stored_blocks (D.blocks dev.old) (D.geometry dev.old).block_size stored)) }
    ensures others { KeepsOtherStates map.old map.new (stored_blocks (D.blocks dev.old) (D.geometry dev.old).block_size before ++ stored_blocks (D.blocks dev.old) (D.geometry dev.old).block_size stored) }
    ensures reading { ReadsOnlyOrIo D.BlockDevice dev.old dev.new result }
    ensures few { (n : ℕ) → IsSharedCount (stored_blocks (D.blocks dev.old) (D.geometry dev.old).block_size before) (stored_blocks (D.blocks dev.old) (D.geometry dev.old).block_size stored) n → OnOk result (read_count (D.history dev.new) ≤ read_count (D.history dev.old)
        + 2 * unshared_count (stored_blocks (D.blocks dev.old) (D.geometry dev.old).block_size before) (stored_blocks (D.blocks dev.old) (D.geometry dev.old).block_size stored) n) }
{
    let block_size = dev.geometry().block_size;
    let gone = blocks_for(block_size, before.size);
    let kept = blocks_for(block_size, stored.size);
    let shared = shared_block_count(dev, before.head, gone, stored.head, kept)?;
    set_list_from(dev, map, before.head, gone, shared, false)?;
    set_list_from(dev, map, stored.head, kept, shared, true)?;
    Ok(())
}
