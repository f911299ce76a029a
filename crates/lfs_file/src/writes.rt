// Drafts, and writes to drafts.

ghost use Rattle.std.specs.Prelude.{◌≡◌, ◌<◌, ◌+◌, ◌++◌, ◌^◌, ◌&&◌, ◌==◌, length, OnOk};
ghost use Rattle.std.specs.Bool.{OnFalse, OnTrue};
ghost use Rattle.lfs_model.specs.session.Writers.{written_contents};
ghost use Rattle.lfs_device.specs.DeviceCalls.{ReportsIoOrNoMemory};
ghost use Rattle.lfs_file.specs.Growing.{fits_unwritten_block, growing_size};
ghost use Rattle.lfs_file.specs.ContentsCalls.{CallKeepsUsed};
ghost use Rattle.lfs_file.specs.Hand.{KeepsUsedBlocks};
ghost use Rattle.lfs_file.specs.HandWrites.{EndsAtPlace, unfinished_bytes};
ghost use Rattle.lfs_file.specs.BlockOwners.{KeepsStoredBlocks};
ghost use Rattle.lfs_file.specs.CallPremises.{CanAppendToUnfinished, CanFillAndWrite};

use crate::Extender;
use crate::extensions::extend_list;
use crate::stored_list::StoredList;
use crate::zeros::write_zeros;
use lfs_blocks::BlockMap;
use lfs_device::{BlockDevice, Error};
use std::alloc::Global;

/// A draft, which is a list that is being rewritten. `list` is the new list, which has the first
/// bytes of the contents, and `base` is the old list, which has the bytes after them. The two lists
/// share their first `shared` blocks. If `base` has no bytes, there is no old list.
#[derive(Drop)]
pub struct PendingList {
    pub list: Extender,
    pub base: StoredList,
    pub shared: u32,
}

/// Writes bytes at offset `place` in memory and returns true if the draft's new list ends there and
/// the bytes don't fill its partial block. Otherwise, returns false and changes nothing.
///
/// Requires that the bytes end before offset 2,147,483,648.
pub(crate) fn buffer_within_block(hand: &mut PendingList, place: u32, bytes: &[u8]) -> bool
    requires { place + length bytes.now < 2 ^ 31 }
    ensures fits { result ≡ ((growing_size hand.old.list == place) && fits_unwritten_block hand.old.list (length bytes.now)) }
    ensures written { OnTrue result (hand.new ≡ record hand.old { list = record hand.old.list { rest = hand.old.list.rest ++ bytes.now } }) }
    ensures same { OnFalse result (hand.new ≡ hand.old) }
{
    hand.list.size() == place && hand.list.push_within_block(bytes)
}

/// Writes at least one byte at the end of the draft's new list.
///
/// Requires enough free blocks for the bytes.
///
/// Errors: `Io` if a device call fails. `NoMemory` if memory can't be allocated. After an error,
/// the draft can only be dropped.
pub(crate) fn append_to_draft<D: BlockDevice>(
    alloc: Global,
    dev: &mut D,
    map: &mut BlockMap,
    hand: &mut PendingList,
    bytes: &[u8],
) -> Result<(), Error>
    requires { CanAppendToUnfinished map.old (D.blocks dev.old) (D.geometry dev.old) hand.old (length bytes.now) }
    ensures written { OnOk result (EndsAtPlace map.new (D.blocks dev.new) (D.geometry dev.old) hand.new (growing_size hand.old.list + length bytes.now)
        (written_contents (unfinished_bytes (D.blocks dev.old) hand.old) (growing_size hand.old.list) bytes.now)) }
    ensures base { KeepsStoredBlocks (D.geometry dev.old).block_size (D.blocks dev.old) hand.old.base (D.blocks dev.new) hand.new.base }
    ensures map { KeepsUsedBlocks map.old map.new }
    ensures device { CallKeepsUsed D.BlockDevice map.old dev.old dev.new }
    ensures reports { ReportsIoOrNoMemory D.BlockDevice dev.old dev.new result }
{
    extend_list(alloc, dev, map, &mut hand.list, bytes)?;
    Ok(())
}

/// Writes at least one byte at offset `place`, at the end of the draft's new list. If the offset is
/// past the end of the contents, zeros fill the gap.
///
/// Requires enough free blocks for the bytes.
///
/// Errors: `Io` if a device call fails. `NoMemory` if memory can't be allocated. After an error,
/// the draft can only be dropped.
pub(crate) fn fill_and_write<D: BlockDevice>(
    alloc: Global,
    dev: &mut D,
    map: &mut BlockMap,
    hand: &mut PendingList,
    place: u32,
    bytes: &[u8],
) -> Result<(), Error>
    requires { CanFillAndWrite map.old (D.blocks dev.old) (D.geometry dev.old) hand.old place (length bytes.now) }
    ensures written { OnOk result (EndsAtPlace map.new (D.blocks dev.new) (D.geometry dev.old) hand.new (place + length bytes.now)
        (written_contents (unfinished_bytes (D.blocks dev.old) hand.old) place bytes.now)) }
    ensures base { KeepsStoredBlocks (D.geometry dev.old).block_size (D.blocks dev.old) hand.old.base (D.blocks dev.new) hand.new.base }
    ensures map { KeepsUsedBlocks map.old map.new }
    ensures device { CallKeepsUsed D.BlockDevice map.old dev.old dev.new }
    ensures reports { ReportsIoOrNoMemory D.BlockDevice dev.old dev.new result }
{
    let gap = place - hand.list.size();
    write_zeros(alloc, dev, map, hand, gap)?;
    append_to_draft(alloc, dev, map, hand, bytes)?;
    Ok(())
}
