// Counts the blocks that two lists share.

ghost use Rattle.std.specs.Prelude.{◌≡◌, ◌≤◌, ◌<◌, ◌+◌, ◌-◌, min, slice_index, IfOk};
ghost use Rattle.lfs_model.specs.session.History.{read_count};
ghost use Rattle.lfs_model.specs.format.SkipLists.{AreListBlocks, blocks_to_head};
ghost use Rattle.lfs_device.specs.DeviceCalls.{ReadsOnlyOrIo};
ghost use Rattle.lfs_file.specs.Outcomes.{ReadsAtMost};
ghost use Rattle.lfs_file.specs.SharedBlocks.{IsSharedCount, unshared_count};

use crate::head_before_block;
use lfs_device::{BlockDevice, Error};

// Returns the last of a list's first `index` blocks.
fn list_block_before<D: BlockDevice>(
    dev: &mut D,
    head: u32,
    count: u32,
    index: u32,
) -> Result<u32, Error>
    requires chain { AreListBlocks (D.blocks dev.old) count head }
    requires within { index ≤ count }
    ensures block { IfOk result (λ b. 0 < index → b ≡ slice_index (blocks_to_head (D.blocks dev.old) count head) (index - 1)) }
    ensures reading { ReadsAtMost D.BlockDevice dev.old dev.new (count - index) result }
{
    let mut block = head;
    let mut at = count;
    'going: while at > index {
        at -= 1;
        block = head_before_block(dev, block, at)?;
    }
    Ok(block)
}

/// Returns the number of blocks that two lists share at their beginnings. `count` and `other_count`
/// are the lists' numbers of blocks, and `head` and `other` are their last blocks.
///
/// Costs one read for each block that the lists don't share, and no read if one of the lists has no
/// blocks.
///
/// Errors: `Io` if a device call fails.
pub(crate) fn shared_block_count<D: BlockDevice>(
    dev: &mut D,
    head: u32,
    count: u32,
    other: u32,
    other_count: u32,
) -> Result<u32, Error>
    requires chain { AreListBlocks (D.blocks dev.old) count head }
    requires other { AreListBlocks (D.blocks dev.old) other_count other }
    ensures shared { IfOk result (IsSharedCount (blocks_to_head (D.blocks dev.old) count head) (blocks_to_head (D.blocks dev.old) other_count other)) }
    ensures reading { ReadsOnlyOrIo D.BlockDevice dev.old dev.new result }
    ensures few { IfOk result (λ n. read_count (D.history dev.new) ≤ read_count (D.history dev.old)
        + unshared_count (blocks_to_head (D.blocks dev.old) count head) (blocks_to_head (D.blocks dev.old) other_count other) n) }
    ensures none { min count other_count ≡ 0 → read_count (D.history dev.new) ≡ read_count (D.history dev.old) }
{
    let mut index = count.min(other_count);
    if index == 0 {
        return Ok(0);
    }
    let mut block = list_block_before(dev, head, count, index)?;
    let mut twin = list_block_before(dev, other, other_count, index)?;
    'sharing: while index > 0 {
        if block == twin {
            return Ok(index);
        }
        index -= 1;
        block = head_before_block(dev, block, index)?;
        twin = head_before_block(dev, twin, index)?;
    }
    Ok(0)
}
