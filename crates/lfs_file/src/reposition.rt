// Continues drafts at another offset.

ghost use Rattle.std.specs.Prelude.{◌≡◌, ◌≢◌, ◌≤◌, ◌<◌, ◌+◌, ◌^◌, length, min, IfOk};
ghost use Rattle.lfs_model.specs.layers.BlockSets.{used_count};
ghost use Rattle.lfs_model.specs.format.SkipLists.{skip_list_block_count};
ghost use Rattle.lfs_model.specs.session.Writers.{written_contents};
ghost use Rattle.lfs_file.specs.Outcomes.{WritesUnusedBlocks};
ghost use Rattle.lfs_file.specs.Contents.{write_room};
ghost use Rattle.lfs_file.specs.Form as form;
ghost use Rattle.lfs_file.specs.Growing.{growing_size};
ghost use Rattle.lfs_file.specs.BaseRoom.{in_flight_limit};
ghost use Rattle.lfs_file.specs.HandWrites.{EndsAtPlace, IsUnfinishedTo, CanEndUnfinished, TakesOldBase, unfinished_bytes, unfinished_length};

use crate::list_ends::complete_draft;
use crate::list_starts::start_draft;
use crate::writes::{PendingList, fill_and_write};
use lfs_blocks::BlockMap;
use lfs_device::{BlockDevice, Error};
use std::alloc::Global;

/// Returns a draft whose new list ends at offset `place`, which must be within the contents. If the
/// new list of `hand` ends elsewhere, completes `hand` and starts another draft over the result.
/// The bytes of the contents don't change.
///
/// Requires enough free blocks for the remaining bytes of the old list, if `hand` has to be
/// completed.
///
/// Errors: `NoMemory` if memory can't be allocated. `Io` if a device call fails.
pub(crate) fn reposition_draft<D: BlockDevice>(
    alloc: Global,
    dev: &mut D,
    map: &mut BlockMap,
    hand: PendingList,
    place: u32,
) -> Result<PendingList, Error>
    requires going { CanEndUnfinished map.old (D.blocks dev.old) (D.geometry dev.old) hand }
    requires within { place ≤ unfinished_length hand }
    requires room { growing_size hand.list ≢ place →
        used_count map.old + in_flight_limit (D.geometry dev.old).block_size hand.base + skip_list_block_count (D.geometry dev.old).block_size hand.base.size ≤ length map.old }
    ensures turned { IfOk result (λ h. IsUnfinishedTo map.new (D.blocks dev.new) (D.geometry dev.old) h place (unfinished_bytes (D.blocks dev.old) hand)) }
    ensures over { IfOk result (TakesOldBase map.new (D.geometry dev.old).block_size (D.blocks dev.old) hand place (D.blocks dev.new)) }
    ensures writing { WritesUnusedBlocks D.BlockDevice map.old map.new dev.old dev.new result }
{
    if hand.list.size() == place {
        return Ok(hand);
    }
    let base = complete_draft(alloc, dev, map, hand)?;
    let hand = start_draft(alloc, dev, base, place)?;
    Ok(hand)
}

/// Writes at least one byte at offset `place` of a draft. If the offset is past the end of the
/// contents, zeros fill the gap.
///
/// Requires enough free blocks for the draft, and for a second draft if the bytes don't continue
/// the new list.
///
/// Errors: `NoMemory` if memory can't be allocated. `Io` if a device call fails.
pub(crate) fn write_at_position<D: BlockDevice>(
    alloc: Global,
    dev: &mut D,
    map: &mut BlockMap,
    hand: PendingList,
    place: u32,
    bytes: &[u8],
) -> Result<PendingList, Error>
    requires going { CanEndUnfinished map.old (D.blocks dev.old) (D.geometry dev.old) hand }
    requires bytes { (1 ≤ length bytes.now) × (place + length bytes.now < 2 ^ 31) }
    requires room { used_count map.old + write_room (D.geometry dev.old).block_size place (length bytes.now) (form.InHand (growing_size hand.list) hand.base.size hand.base.in_flight) ≤ length map.old }
    ensures written { IfOk result (λ h. EndsAtPlace map.new (D.blocks dev.new) (D.geometry dev.old) h (place + length bytes.now)
        (written_contents (unfinished_bytes (D.blocks dev.old) hand) place bytes.now)) }
    ensures over { IfOk result (TakesOldBase map.new (D.geometry dev.old).block_size (D.blocks dev.old) hand (min place (unfinished_length hand)) (D.blocks dev.new)) }
    ensures writing { WritesUnusedBlocks D.BlockDevice map.old map.new dev.old dev.new result }
{
    let length = hand.list.size().max(hand.base.size);
    let turned = reposition_draft(alloc, dev, map, hand, place.min(length))?;
    let mut hand = turned;
    fill_and_write(alloc, dev, map, &mut hand, place, bytes)?;
    Ok(hand)
}
