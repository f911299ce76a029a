// Contents that are in memory.

ghost use Rattle.std.specs.Prelude.{◌≡◌, ◌≤◌, ◌<◌, ◌+◌, false, length, take, IfOk};
ghost use Rattle.lfs_model.specs.format.Blocks.{Blocks};
ghost use Rattle.lfs_model.specs.layers.BlockSets.{BlockStates};
ghost use Rattle.lfs_model.specs.session.Writers.{written_contents};
ghost use Rattle.lfs_device.specs.declared.geometry.Geometry.{Geometry};
ghost use Rattle.lfs_file.specs.BaseRoom.{HasGrowthRoom};
ghost use Rattle.lfs_device.specs.DeviceCalls.{ReadsOnlyOrNoMemory};
ghost use Rattle.lfs_file.specs.Outcomes.{WritesUnusedBlocks};
ghost use Rattle.lfs_file.specs.Bases.{IsListOrEmpty};
ghost use Rattle.lfs_file.specs.Contents.{IsInMemory, IsBuffered, buffered_bytes};
ghost use Rattle.lfs_file.specs.Hand.{stored_list_bytes};
ghost use Rattle.lfs_file.specs.HandWrites.{EndsAtPlace, IsUnfinishedTo};

use crate::stored_list::StoredList;
use crate::writes::{PendingList, fill_and_write};
use crate::{Extender, read_at};
use lfs_blocks::BlockMap;
use lfs_device::{BlockDevice, Error};
use std::alloc::Global;

/// Loads the first `keep` bytes of a stored list into the buffer of a new extender.
///
/// Requires that the list has at least `keep` bytes, and that `keep` is less than the block size.
///
/// Errors: `NoMemory` if memory for a block can't be allocated. `Io` if a device call fails.
pub fn load_first_bytes<D: BlockDevice>(
    alloc: Global,
    dev: &mut D,
    stored: StoredList,
    keep: u32,
) -> Result<Extender, Error>
    requires base { IsListOrEmpty (D.blocks dev.old) (D.geometry dev.old).block_size stored.head stored.size }
    requires within { keep ≤ stored.size }
    requires short { keep < (D.geometry dev.old).block_size }
    ensures resting { IfOk result (IsBuffered (D.geometry dev.old)) }
    ensures bytes { IfOk result (λ list. buffered_bytes list ≡ take keep (stored_list_bytes (D.blocks dev.old) (D.geometry dev.old).block_size stored)) }
    ensures reading { ReadsOnlyOrNoMemory D.BlockDevice dev.old dev.new result }
{
    let mut list = Extender::start_empty(alloc, dev.geometry())?;
    list.replace_buffered(&[]);
    let mut chunk = [0; 512];
    'loading: while list.size() < keep {
        let pos = list.size();
        let count = read_at(dev, stored.head, stored.size, pos, &mut chunk)?;
        let part = count.min((keep - pos) as usize);
        list.write_buffered_at(pos, &chunk[..part]);
    }
    Ok(list)
}

/// Turns contents in memory into a draft without an old list.
pub(crate) fn list_without_base(list: Extender) -> PendingList
    ensures begun { (map : BlockStates) (disk : Blocks) (now : Geometry) → IsInMemory map disk now list → IsUnfinishedTo map disk now result (length (buffered_bytes list)) (buffered_bytes list) }
    ensures base { (result.base.size ≡ 0) × (result.base.in_flight ≡ false) }
{
    let base = StoredList {
        head: 0,
        size: 0,
        in_flight: false,
    };
    PendingList {
        list,
        base,
        shared: 0,
    }
}

/// Writes at least one byte at an offset of contents in memory. Returns all contents as a draft
/// without an old list.
///
/// Requires that the written bytes end at or after the end of the contents. Requires enough free
/// blocks for the contents.
///
/// Errors: `NoMemory` if memory can't be allocated. `Io` if a device call fails.
pub(crate) fn begin_from_memory<D: BlockDevice>(
    alloc: Global,
    dev: &mut D,
    map: &mut BlockMap,
    list: Extender,
    place: u32,
    bytes: &[u8],
) -> Result<PendingList, Error>
    requires quiet { IsInMemory map.old (D.blocks dev.old) (D.geometry dev.old) list }
    requires behind { length (buffered_bytes list) ≤ place + length bytes.now }
    requires room { HasGrowthRoom map.old (D.geometry dev.old).block_size place (place + length bytes.now) 0 }
    ensures written { IfOk result (λ h. EndsAtPlace map.new (D.blocks dev.new) (D.geometry dev.old) h (place + length bytes.now) (written_contents (buffered_bytes list) place bytes.now)) }
    ensures base { IfOk result (λ h. (h.base.size ≡ 0) × (h.base.in_flight ≡ false)) }
    ensures writing { WritesUnusedBlocks D.BlockDevice map.old map.new dev.old dev.new result }
{
    let mut list = list;
    let keep = list.size().min(place);
    list.truncate_buffered(keep);
    let mut hand = list_without_base(list);
    fill_and_write(alloc, dev, map, &mut hand, place, bytes)?;
    Ok(hand)
}
