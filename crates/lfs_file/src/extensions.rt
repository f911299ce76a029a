// Extends a list with free blocks of the map.

ghost use Rattle.std.specs.Prelude.{◌<◌, ◌+◌, ◌++◌, length, OnOk};
ghost use Rattle.lfs_device.specs.DeviceCalls.{ReportsIoOrNoMemory};
ghost use Rattle.lfs_file.specs.Growing.{unwritten_block, growing_bytes, growing_size};
ghost use Rattle.lfs_file.specs.ContentsCalls.{KeepsTakenBlocks};
ghost use Rattle.lfs_file.specs.Extensions.{IsExtended};
ghost use Rattle.lfs_file.specs.TakenBlocks.{ChangesOnlyFree};
ghost use Rattle.lfs_file.specs.CallPremises.{CanExtendList};

use crate::Extender;
use crate::taken_blocks::take_blocks;
use lfs_blocks::BlockMap;
use lfs_device::{BlockDevice, Error};
use std::alloc::Global;

/// Appends bytes to a list, in blocks that the call allocates from the map.
///
/// Requires at least one byte, and as many free blocks as the bytes need. The blocks of the list
/// must not be free in the map.
///
/// Errors: `Io` if a device call fails. `NoMemory` if memory can't be allocated. After an error,
/// the list can only be dropped.
pub(crate) fn extend_list<D: BlockDevice>(
    alloc: Global,
    dev: &mut D,
    map: &mut BlockMap,
    list: &mut Extender,
    bytes: &[u8],
) -> Result<(), Error>
    requires { CanExtendList map.old (D.blocks dev.old) (D.geometry dev.old) list.old (length bytes.now) }
    ensures extended { OnOk result (IsExtended map.old (D.blocks dev.old) list.old
        (growing_bytes (D.blocks dev.old) list.old ++ bytes.now) (growing_size list.old + length bytes.now) map.new (D.blocks dev.new) list.new) }
    // No block that was used or in flight changes, except the list's partial block.
    ensures map { ChangesOnlyFree map.old map.new }
    ensures device { KeepsTakenBlocks D.BlockDevice map.old (unwritten_block list.old) dev.old dev.new }
    ensures reports { ReportsIoOrNoMemory D.BlockDevice dev.old dev.new result }
{
    let count = list.needed(bytes.len() as u32);
    let blocks = take_blocks(alloc, map, count)?;
    list.push(dev, bytes, blocks.as_slice())?;
    Ok(())
}
