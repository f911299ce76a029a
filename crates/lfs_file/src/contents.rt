// The contents of a file that is open for writing, and writes to these contents.

ghost use Rattle.std.specs.Prelude.{◌≡◌, ◌<◌, ◌+◌, length, IfOk, IfErr};
ghost use Rattle.lfs_model.specs.format.Blocks.{Blocks};
ghost use Rattle.lfs_model.specs.layers.BlockSets.{BlockStates};
ghost use Rattle.lfs_model.specs.session.Writers.{written_contents};
ghost use Rattle.lfs_device.specs.DeviceCalls.{ReportsIoOrNoMemory};
ghost use Rattle.lfs_file.specs.ContentsCalls.{CallKeepsUsed};
ghost use Rattle.lfs_file.specs.Contents.{CanWriteContents, HaveBytesInForm, NoneInFlight, contents_bytes, contents_form, buffered_bytes, memory_limit};
ghost use Rattle.lfs_file.specs.FinishedWrites.{CanOverwriteFinished};
ghost use Rattle.lfs_file.specs.Form as form;
ghost use Rattle.lfs_file.specs.Form.{written_form};
ghost use Rattle.lfs_file.specs.Hand.{KeepsUsedBlocks, stored_list_bytes};
ghost use Rattle.lfs_file.specs.HandWrites.{EndsAtPlace, unfinished_bytes};
ghost use Rattle.lfs_file.specs.BlockOwners.{AreUsedAmong, KeepsStoredBlocks, contents_blocks};

use crate::Extender;
use crate::list_starts::start_draft;
use crate::memory::{begin_from_memory, load_first_bytes};
use crate::reposition::write_at_position;
use crate::stored_list::StoredList;
use crate::writes::{PendingList, buffer_within_block, fill_and_write};
use lfs_blocks::BlockMap;
use lfs_device::{BlockDevice, Error, Geometry};
use std::alloc::Global;

/// The contents of a file that is open for writing, in one of three forms.
#[derive(Drop)]
pub enum WriterContents {
    /// All bytes are in the extender's buffer, and none are in a block. The contents are at most as
    /// long as the limit for inline files.
    InMemory(Extender),
    /// All bytes are in a stored list, which is entirely on the device.
    Finished(StoredList),
    /// The contents are in a draft: the first bytes are in a new list, and the bytes after them are
    /// in the old list.
    InHand(PendingList),
}

/// Makes contents in memory from the bytes of an inline file, or from no bytes for a new file.
///
/// Requires that `bytes` is shorter than a block.
///
/// Errors: `NoMemory` if memory for a block can't be allocated.
pub fn contents_in_memory(
    alloc: Global,
    geometry: Geometry,
    bytes: &[u8],
) -> Result<WriterContents, Error>
    requires { length bytes.now < geometry.block_size }
    ensures holds { IfOk result (λ c. (map : BlockStates) (disk : Blocks) → NoneInFlight map disk → HaveBytesInForm map disk geometry c bytes.now (form.InMemory (length bytes.now))) }
    ensures errors { IfErr result (λ e. e ≡ Error.NoMemory) }
{
    let mut list = Extender::start_empty(alloc, geometry)?;
    list.replace_buffered(bytes);
    Ok(WriterContents::InMemory(list))
}

// Writes bytes to contents in memory. If the contents become longer than the inline limit, moves
// them to a draft.
fn write_in_memory<D: BlockDevice>(
    alloc: Global,
    dev: &mut D,
    map: &mut BlockMap,
    list: Extender,
    place: u32,
    bytes: &[u8],
) -> Result<WriterContents, Error>
    requires { CanWriteContents map.old (D.blocks dev.old) (D.geometry dev.old) (WriterContents.InMemory list) place (length bytes.now) }
    ensures written { IfOk result (λ c. HaveBytesInForm map.new (D.blocks dev.new) (D.geometry dev.old) c
        (written_contents (buffered_bytes list) place bytes.now) (written_form (memory_limit (D.geometry dev.old)) place (length bytes.now) (form.InMemory (length (buffered_bytes list))))) }
    ensures owned { IfOk result (λ c. AreUsedAmong map.new (contents_blocks (D.blocks dev.old) (D.geometry dev.old).block_size (WriterContents.InMemory list)) (contents_blocks (D.blocks dev.new) (D.geometry dev.old).block_size c)) }
    ensures map { KeepsUsedBlocks map.old map.new }
    ensures device { CallKeepsUsed D.BlockDevice map.old dev.old dev.new }
    ensures reports { ReportsIoOrNoMemory D.BlockDevice dev.old dev.new result }
{
    let size = list.size().max(place + bytes.len() as u32);
    if size <= dev.geometry().inline_limit() {
        let mut list = list;
        list.write_buffered_at(place, bytes);
        return Ok(WriterContents::InMemory(list));
    }
    let hand = begin_from_memory(alloc, dev, map, list, place, bytes)?;
    Ok(WriterContents::InHand(hand))
}

// Starts a draft over a stored list and writes bytes at an offset.
fn begin_with_bytes<D: BlockDevice>(
    alloc: Global,
    dev: &mut D,
    map: &mut BlockMap,
    stored: StoredList,
    place: u32,
    bytes: &[u8],
) -> Result<PendingList, Error>
    requires { CanOverwriteFinished map.old (D.blocks dev.old) (D.geometry dev.old).block_size stored place (length bytes.now) }
    ensures written { IfOk result (λ h. EndsAtPlace map.new (D.blocks dev.new) (D.geometry dev.old) h (place + length bytes.now)
        (written_contents (stored_list_bytes (D.blocks dev.old) (D.geometry dev.old).block_size stored) place bytes.now)) }
    ensures base { IfOk result (λ h. KeepsStoredBlocks (D.geometry dev.old).block_size (D.blocks dev.old) stored (D.blocks dev.new) h.base) }
    ensures map { KeepsUsedBlocks map.old map.new }
    ensures device { CallKeepsUsed D.BlockDevice map.old dev.old dev.new }
    ensures reports { ReportsIoOrNoMemory D.BlockDevice dev.old dev.new result }
{
    let begun = start_draft(alloc, dev, stored, place.min(stored.size))?;
    let mut hand = begun;
    fill_and_write(alloc, dev, map, &mut hand, place, bytes)?;
    Ok(hand)
}

// Writes bytes to contents in a stored list. Loads contents within the inline limit into memory; a
// list that short has no blocks in flight.
fn write_over_finished<D: BlockDevice>(
    alloc: Global,
    dev: &mut D,
    map: &mut BlockMap,
    stored: StoredList,
    place: u32,
    bytes: &[u8],
) -> Result<WriterContents, Error>
    requires { CanWriteContents map.old (D.blocks dev.old) (D.geometry dev.old) (WriterContents.Finished stored) place (length bytes.now) }
    ensures written { IfOk result (λ c. HaveBytesInForm map.new (D.blocks dev.new) (D.geometry dev.old) c
        (written_contents (stored_list_bytes (D.blocks dev.old) (D.geometry dev.old).block_size stored) place bytes.now) (written_form (memory_limit (D.geometry dev.old)) place (length bytes.now) (form.Finished stored.size stored.in_flight))) }
    ensures owned { IfOk result (λ c. AreUsedAmong map.new (contents_blocks (D.blocks dev.old) (D.geometry dev.old).block_size (WriterContents.Finished stored)) (contents_blocks (D.blocks dev.new) (D.geometry dev.old).block_size c)) }
    ensures map { KeepsUsedBlocks map.old map.new }
    ensures device { CallKeepsUsed D.BlockDevice map.old dev.old dev.new }
    ensures reports { ReportsIoOrNoMemory D.BlockDevice dev.old dev.new result }
{
    let size = stored.size.max(place + bytes.len() as u32);
    if size <= dev.geometry().inline_limit() {
        let mut list = load_first_bytes(alloc, dev, stored, stored.size)?;
        list.write_buffered_at(place, bytes);
        return Ok(WriterContents::InMemory(list));
    }
    let hand = begin_with_bytes(alloc, dev, map, stored, place, bytes)?;
    Ok(WriterContents::InHand(hand))
}

// Writes bytes to contents in a draft.
fn write_to_unfinished<D: BlockDevice>(
    alloc: Global,
    dev: &mut D,
    map: &mut BlockMap,
    hand: PendingList,
    place: u32,
    bytes: &[u8],
) -> Result<WriterContents, Error>
    requires { CanWriteContents map.old (D.blocks dev.old) (D.geometry dev.old) (WriterContents.InHand hand) place (length bytes.now) }
    ensures written { IfOk result (λ c. HaveBytesInForm map.new (D.blocks dev.new) (D.geometry dev.old) c
        (written_contents (unfinished_bytes (D.blocks dev.old) hand) place bytes.now) (written_form (memory_limit (D.geometry dev.old)) place (length bytes.now) (contents_form (WriterContents.InHand hand)))) }
    ensures owned { IfOk result (λ c. AreUsedAmong map.new (contents_blocks (D.blocks dev.old) (D.geometry dev.old).block_size (WriterContents.InHand hand)) (contents_blocks (D.blocks dev.new) (D.geometry dev.old).block_size c)) }
    ensures map { KeepsUsedBlocks map.old map.new }
    ensures device { CallKeepsUsed D.BlockDevice map.old dev.old dev.new }
    ensures reports { ReportsIoOrNoMemory D.BlockDevice dev.old dev.new result }
{
    let mut hand = hand;
    if buffer_within_block(&mut hand, place, bytes) {
        return Ok(WriterContents::InHand(hand));
    }
    let hand = write_at_position(alloc, dev, map, hand, place, bytes)?;
    Ok(WriterContents::InHand(hand))
}

/// Writes at least one byte at offset `place` of the contents. If the offset is past the end of the
/// contents, zeros fill the gap.
///
/// After the call, contents of at most the device's inline limit are in memory. Longer contents are
/// written to free blocks. The caller must have reserved as many free blocks as the contents may
/// need.
///
/// Errors: `Io` if a device call fails. `NoMemory` if memory for a block can't be allocated. After
/// an error, the contents are lost.
pub fn write_contents<D: BlockDevice>(
    alloc: Global,
    dev: &mut D,
    map: &mut BlockMap,
    contents: WriterContents,
    place: u32,
    bytes: &[u8],
) -> Result<WriterContents, Error>
    requires { CanWriteContents map.old (D.blocks dev.old) (D.geometry dev.old) contents place (length bytes.now) }
    ensures written { IfOk result (λ c. HaveBytesInForm map.new (D.blocks dev.new) (D.geometry dev.old) c
        (written_contents (contents_bytes (D.blocks dev.old) (D.geometry dev.old).block_size contents) place bytes.now) (written_form (memory_limit (D.geometry dev.old)) place (length bytes.now) (contents_form contents))) }
    ensures owned { IfOk result (λ c. AreUsedAmong map.new (contents_blocks (D.blocks dev.old) (D.geometry dev.old).block_size contents) (contents_blocks (D.blocks dev.new) (D.geometry dev.old).block_size c)) }
    ensures map { KeepsUsedBlocks map.old map.new }
    ensures device { CallKeepsUsed D.BlockDevice map.old dev.old dev.new }
    ensures reports { ReportsIoOrNoMemory D.BlockDevice dev.old dev.new result }
{
    match contents {
        WriterContents::InMemory(list) => write_in_memory(alloc, dev, map, list, place, bytes),
        WriterContents::Finished(stored) => write_over_finished(
            alloc, dev, map, stored, place, bytes,
        ),
        WriterContents::InHand(hand) => write_to_unfinished(alloc, dev, map, hand, place, bytes),
    }
}
