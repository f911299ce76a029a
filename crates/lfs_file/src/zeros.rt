// Fills gaps with zeros.

ghost use Rattle.std.specs.Prelude.{◌<◌, ◌+◌, replicate, OnOk};
ghost use Rattle.lfs_model.specs.session.Writers.{written_contents};
ghost use Rattle.lfs_device.specs.DeviceCalls.{ReportsIoOrNoMemory};
ghost use Rattle.lfs_file.specs.Growing.{growing_size};
ghost use Rattle.lfs_file.specs.ContentsCalls.{CallKeepsUsed};
ghost use Rattle.lfs_file.specs.Hand.{KeepsUsedBlocks};
ghost use Rattle.lfs_file.specs.HandWrites.{AreZerosWritten, unfinished_bytes};
ghost use Rattle.lfs_file.specs.BlockOwners.{KeepsStoredBlocks};
ghost use Rattle.lfs_file.specs.CallPremises.{CanWriteZeros};

use crate::writes::{PendingList, append_to_draft};
use lfs_blocks::BlockMap;
use lfs_device::{BlockDevice, Error};
use std::alloc::Global;

/// Writes `count` zeros at the end of the draft's new list.
///
/// Requires enough free blocks for the zeros.
///
/// Errors: `Io` if a device call fails. `NoMemory` if memory can't be allocated. After an error,
/// the draft can only be dropped.
pub(crate) fn write_zeros<D: BlockDevice>(
    alloc: Global,
    dev: &mut D,
    map: &mut BlockMap,
    hand: &mut PendingList,
    count: u32,
) -> Result<(), Error>
    requires { CanWriteZeros map.old (D.blocks dev.old) (D.geometry dev.old) hand.old count }
    ensures zeroed { OnOk result (AreZerosWritten map.new (D.blocks dev.new) (D.geometry dev.old) hand.new count (growing_size hand.old.list + count)
        (written_contents (unfinished_bytes (D.blocks dev.old) hand.old) (growing_size hand.old.list) (replicate count 0))) }
    ensures base { KeepsStoredBlocks (D.geometry dev.old).block_size (D.blocks dev.old) hand.old.base (D.blocks dev.new) hand.new.base }
    ensures map { KeepsUsedBlocks map.old map.new }
    ensures device { CallKeepsUsed D.BlockDevice map.old dev.old dev.new }
    ensures reports { ReportsIoOrNoMemory D.BlockDevice dev.old dev.new result }
{
    let mut done = 0;
    'zeroing: while done < count {
        let zeros = [0; 512];
        let part = (count - done).min(512);
        append_to_draft(alloc, dev, map, hand, &zeros[..part as usize])?;
        done += part;
    }
    Ok(())
}
