// Copies bytes of an old list to the end of a new list.

ghost use Rattle.std.specs.Prelude.{◌≡◌, ◌≤◌, ◌<◌, ◌+◌, ◌-◌, length, max, drop, IfOk, OnOk};
ghost use Rattle.lfs_device.specs.DeviceCalls.{ReadsOnlyOrIo, ReadsOnly, ReportsIoOrNoMemory};
ghost use Rattle.lfs_model.specs.session.History.{read_count};
ghost use Rattle.lfs_model.specs.format.SkipLists.{AreListBlocks, blocks_to_head};
ghost use Rattle.lfs_file.specs.BaseCopies.{CanAppendBase, HasBlockBytes};
ghost use Rattle.lfs_file.specs.Outcomes.{WritesFreeOrUnwritten};
ghost use Rattle.lfs_file.specs.Extensions.{IsExtended};
ghost use Rattle.lfs_file.specs.Growing.{unwritten_block, growing_size};
ghost use Rattle.lfs_file.specs.Hand.{bytes_over_base};

use crate::extensions::extend_list;
use crate::stored_list::StoredList;
use crate::{Extender, blocks_for, head_before_block, place};
use lfs_blocks::BlockMap;
use lfs_device::{BlockDevice, Error};
use std::alloc::Global;

/// Appends to `list` the bytes of `base` that are past the end of `list`, if there are any.
///
/// Requires enough free blocks for the appended bytes. The blocks of `base` must not be free in the
/// map, and must not include the block that `list` still has to write.
///
/// Errors: `Io` if a device call fails. `NoMemory` if memory can't be allocated. After an error,
/// `list` can only be dropped.
pub(crate) fn copy_stored_tail<D: BlockDevice>(
    alloc: Global,
    dev: &mut D,
    map: &mut BlockMap,
    list: &mut Extender,
    base: StoredList,
) -> Result<(), Error>
    requires { CanAppendBase map.old (D.blocks dev.old) (D.geometry dev.old) list.old base }
    ensures extended { OnOk result (IsExtended map.old (D.blocks dev.old) list.old (bytes_over_base (D.blocks dev.old) list.old.geometry.block_size list.old base)
        (max (growing_size list.old) base.size) map.new (D.blocks dev.new) list.new) }
    ensures writing { WritesFreeOrUnwritten D.BlockDevice map.old map.new (unwritten_block list.old) dev.old dev.new result }
{
    if list.size() >= base.size {
        return Ok(());
    }
    let block_size = dev.geometry().block_size;
    let mut chunk = Vec::from_elem(alloc, 0u8, block_size as usize)?;
    append_by_block(alloc, dev, map, list, base, chunk.as_mut_slice())?;
    Ok(())
}

// Appends to `list` the bytes of `base` that are past the end of `list`, one block at a time,
// through the buffer `chunk`.
fn append_by_block<D: BlockDevice>(
    alloc: Global,
    dev: &mut D,
    map: &mut BlockMap,
    list: &mut Extender,
    base: StoredList,
    chunk: &mut [u8],
) -> Result<(), Error>
    requires can { CanAppendBase map.old (D.blocks dev.old) (D.geometry dev.old) list.old base }
    requires behind { growing_size list.old < base.size }
    requires chunk { length chunk.old ≡ list.old.geometry.block_size }
    ensures extended { OnOk result (IsExtended map.old (D.blocks dev.old) list.old (bytes_over_base (D.blocks dev.old) list.old.geometry.block_size list.old base)
        (max (growing_size list.old) base.size) map.new (D.blocks dev.new) list.new) }
    ensures writing { WritesFreeOrUnwritten D.BlockDevice map.old map.new (unwritten_block list.old) dev.old dev.new result }
{
    let block_size = dev.geometry().block_size;
    let (from, _) = place(block_size, list.size());
    let blocks = blocks_from_index(
        alloc,
        dev,
        base.head,
        blocks_for(block_size, base.size),
        from,
    )?;
    'copying: while list.size() < base.size {
        let pos = list.size();
        let (index, off) = place(block_size, pos);
        let block = blocks[(index - from) as usize];
        let count = read_from_block(dev, block, off, base.size - pos, chunk)?;
        extend_list(alloc, dev, map, list, &chunk[..count])?;
    }
    Ok(())
}

// Returns the blocks of a list from the index `from` on. The list has `count` blocks, and its last
// block is `head`.
fn blocks_from_index<D: BlockDevice>(
    alloc: Global,
    dev: &mut D,
    head: u32,
    count: u32,
    from: u32,
) -> Result<Vec<u32>, Error>
    requires chain { AreListBlocks (D.blocks dev.old) count head }
    requires within { from ≤ count }
    ensures blocks { IfOk result (λ v. v.items ≡ drop from (blocks_to_head (D.blocks dev.old) count head)) }
    ensures device { ReadsOnly D.BlockDevice dev.old dev.new }
    ensures reports { ReportsIoOrNoMemory D.BlockDevice dev.old dev.new result }
    // The list is walked once, with at most one read for each of the returned blocks.
    ensures few { OnOk result (read_count (D.history dev.new) ≤ read_count (D.history dev.old) + (count - from)) }
{
    let mut blocks = Vec::from_elem(alloc, 0u32, (count - from) as usize)?;
    let mut block = head;
    let mut index = count;
    'going: while index > from {
        index -= 1;
        blocks[(index - from) as usize] = block;
        block = head_before_block(dev, block, index - from)?;
    }
    Ok(blocks)
}

// Reads at most `most` bytes of a block from an offset on. Returns the number of bytes that were
// read.
fn read_from_block<D: BlockDevice>(
    dev: &mut D,
    block: u32,
    off: u32,
    most: u32,
    buf: &mut [u8],
) -> Result<usize, Error>
    requires place { (block < (D.geometry dev.old).block_count) × (off < (D.geometry dev.old).block_size) }
    requires some { 1 ≤ most }
    requires room { length buf.old ≡ (D.geometry dev.old).block_size }
    ensures read { IfOk result (HasBlockBytes (D.blocks dev.old) (D.geometry dev.old).block_size block off most buf.new) }
    ensures reading { ReadsOnlyOrIo D.BlockDevice dev.old dev.new result }
    ensures few { read_count (D.history dev.new) ≡ read_count (D.history dev.old) + 1 }
{
    let count = (buf.len() - off as usize).min(most as usize);
    dev.read(block, off, &mut buf[..count])?;
    Ok(count)
}
