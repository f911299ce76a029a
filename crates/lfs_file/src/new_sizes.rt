// Changes the size of contents.

ghost use Rattle.std.specs.Prelude.{◌≡◌, ◌≤◌, ◌<◌, ◌+◌, ◌^◌, length, take, true, false, IfOk};
ghost use Rattle.lfs_model.specs.layers.BlockSets.{used_count};
ghost use Rattle.lfs_model.specs.session.Writers.{zero_padded};
ghost use Rattle.lfs_device.specs.DeviceCalls.{ReadsOnlyOrNoMemory, ReportsIoOrNoMemory};
ghost use Rattle.lfs_file.specs.Outcomes.{WritesUnusedBlocks};
ghost use Rattle.lfs_file.specs.ContentsCalls.{CallKeepsUsed};
ghost use Rattle.lfs_file.specs.Contents.{CanTruncateContents, HaveBytesInForm, IsInMemory, contents_bytes, contents_form, buffered_bytes, memory_limit, truncation_room};
ghost use Rattle.lfs_file.specs.Form as form;
ghost use Rattle.lfs_file.specs.Form.{truncated_form};
ghost use Rattle.lfs_file.specs.Hand.{IsFinishedList, KeepsUsedBlocks, stored_list_bytes};
ghost use Rattle.lfs_file.specs.BaseRoom.{HasGrowthRoom, in_flight_limit};
ghost use Rattle.lfs_file.specs.HandWrites.{EndsAtPlace, CanEndUnfinished, TakesOldBase, unfinished_bytes, unfinished_length};
ghost use Rattle.lfs_file.specs.BlockOwners.{AreUsedAmong, KeepsStoredBlocks, contents_blocks};

use crate::Extender;
use crate::completion::release_in_flight;
use crate::contents::WriterContents;
use crate::list_cuts::shorten_stored_list;
use crate::list_ends::complete_draft;
use crate::list_starts::start_draft;
use crate::memory::{list_without_base, load_first_bytes};
use crate::reposition::reposition_draft;
use crate::stored_list::StoredList;
use crate::writes::PendingList;
use crate::zeros::write_zeros;
use lfs_blocks::BlockMap;
use lfs_device::{BlockDevice, Error};
use std::alloc::Global;

// Pads contents in memory with zeros to `size` bytes, in a draft without an old list.
fn fill_memory_contents<D: BlockDevice>(
    alloc: Global,
    dev: &mut D,
    map: &mut BlockMap,
    list: Extender,
    size: u32,
) -> Result<PendingList, Error>
    requires quiet { IsInMemory map.old (D.blocks dev.old) (D.geometry dev.old) list }
    requires room { HasGrowthRoom map.old (D.geometry dev.old).block_size (length (buffered_bytes list)) size 0 }
    ensures filled { IfOk result (λ h. EndsAtPlace map.new (D.blocks dev.new) (D.geometry dev.old) h size (take size (zero_padded size (buffered_bytes list)))) }
    ensures base { IfOk result (λ h. (h.base.size ≡ 0) × (h.base.in_flight ≡ false)) }
    ensures writing { WritesUnusedBlocks D.BlockDevice map.old map.new dev.old dev.new result }
{
    let gap = size - list.size();
    let mut hand = list_without_base(list);
    write_zeros(alloc, dev, map, &mut hand, gap)?;
    Ok(hand)
}

// Truncates contents in memory, or pads them with zeros, to `size` bytes.
fn truncate_in_memory<D: BlockDevice>(
    alloc: Global,
    dev: &mut D,
    map: &mut BlockMap,
    list: Extender,
    size: u32,
) -> Result<WriterContents, Error>
    requires { CanTruncateContents map.old (D.blocks dev.old) (D.geometry dev.old) (WriterContents.InMemory list) size }
    ensures truncated { IfOk result (λ c. HaveBytesInForm map.new (D.blocks dev.new) (D.geometry dev.old) c
        (take size (zero_padded size (buffered_bytes list))) (truncated_form (memory_limit (D.geometry dev.old)) size (form.InMemory (length (buffered_bytes list))))) }
    ensures owned { IfOk result (λ c. AreUsedAmong map.new (contents_blocks (D.blocks dev.old) (D.geometry dev.old).block_size (WriterContents.InMemory list)) (contents_blocks (D.blocks dev.new) (D.geometry dev.old).block_size c)) }
    ensures writing { WritesUnusedBlocks D.BlockDevice map.old map.new dev.old dev.new result }
{
    if size > dev.geometry().inline_limit() {
        let hand = fill_memory_contents(alloc, dev, map, list, size)?;
        return Ok(WriterContents::InHand(hand));
    }
    let mut list = list;
    list.truncate_buffered(list.size().min(size));
    list.write_buffered_at(size, &[]);
    Ok(WriterContents::InMemory(list))
}

// Loads the first bytes of a stored list into memory and pads them with zeros to `size` bytes if
// necessary. Releases all blocks in flight.
fn shorten_to_memory<D: BlockDevice>(
    alloc: Global,
    dev: &mut D,
    map: &mut BlockMap,
    stored: StoredList,
    size: u32,
) -> Result<Extender, Error>
    requires stored { IsFinishedList map.old (D.blocks dev.old) (D.geometry dev.old).block_size stored }
    requires short { size < (D.geometry dev.old).block_size }
    ensures quiet { IfOk result (IsInMemory map.new (D.blocks dev.new) (D.geometry dev.old)) }
    ensures bytes { IfOk result (λ list. buffered_bytes list ≡ take size (zero_padded size (stored_list_bytes (D.blocks dev.old) (D.geometry dev.old).block_size stored))) }
    ensures map { KeepsUsedBlocks map.old map.new }
    ensures reading { ReadsOnlyOrNoMemory D.BlockDevice dev.old dev.new result }
{
    let mut list = load_first_bytes(alloc, dev, stored, stored.size.min(size))?;
    list.write_buffered_at(size, &[]);
    release_in_flight(map);
    Ok(list)
}

// Pads a stored list with zeros to `size` bytes, in a draft over the list.
fn fill_finished_list<D: BlockDevice>(
    alloc: Global,
    dev: &mut D,
    map: &mut BlockMap,
    stored: StoredList,
    size: u32,
) -> Result<PendingList, Error>
    requires stored { IsFinishedList map.old (D.blocks dev.old) (D.geometry dev.old).block_size stored }
    requires room { HasGrowthRoom map.old (D.geometry dev.old).block_size stored.size size (in_flight_limit (D.geometry dev.old).block_size stored) }
    ensures filled { IfOk result (λ h. EndsAtPlace map.new (D.blocks dev.new) (D.geometry dev.old) h size
        (take size (zero_padded size (stored_list_bytes (D.blocks dev.old) (D.geometry dev.old).block_size stored)))) }
    ensures base { IfOk result (λ h. KeepsStoredBlocks (D.geometry dev.old).block_size (D.blocks dev.old) stored (D.blocks dev.new) h.base) }
    ensures writing { WritesUnusedBlocks D.BlockDevice map.old map.new dev.old dev.new result }
{
    let begun = start_draft(alloc, dev, stored, stored.size)?;
    let mut hand = begun;
    write_zeros(alloc, dev, map, &mut hand, size - stored.size)?;
    Ok(hand)
}

// Truncates a stored list, or pads it with zeros, to `size` bytes.
fn truncate_finished_list<D: BlockDevice>(
    alloc: Global,
    dev: &mut D,
    map: &mut BlockMap,
    stored: StoredList,
    size: u32,
) -> Result<WriterContents, Error>
    requires { CanTruncateContents map.old (D.blocks dev.old) (D.geometry dev.old) (WriterContents.Finished stored) size }
    ensures truncated { IfOk result (λ c. HaveBytesInForm map.new (D.blocks dev.new) (D.geometry dev.old) c
        (take size (zero_padded size (stored_list_bytes (D.blocks dev.old) (D.geometry dev.old).block_size stored))) (truncated_form (memory_limit (D.geometry dev.old)) size (form.Finished stored.size stored.in_flight))) }
    ensures owned { IfOk result (λ c. AreUsedAmong map.new (contents_blocks (D.blocks dev.old) (D.geometry dev.old).block_size (WriterContents.Finished stored)) (contents_blocks (D.blocks dev.new) (D.geometry dev.old).block_size c)) }
    ensures writing { WritesUnusedBlocks D.BlockDevice map.old map.new dev.old dev.new result }
{
    if size == stored.size {
        return Ok(WriterContents::Finished(stored));
    }
    if size <= dev.geometry().inline_limit() {
        let list = shorten_to_memory(alloc, dev, map, stored, size)?;
        return Ok(WriterContents::InMemory(list));
    }
    if stored.size < size {
        let hand = fill_finished_list(alloc, dev, map, stored, size)?;
        return Ok(WriterContents::InHand(hand));
    }
    let cut = shorten_stored_list(dev, map, stored, size)?;
    Ok(WriterContents::Finished(cut))
}

// Pads a draft with zeros to `size` bytes.
fn lengthen_unfinished_list<D: BlockDevice>(
    alloc: Global,
    dev: &mut D,
    map: &mut BlockMap,
    hand: PendingList,
    size: u32,
) -> Result<PendingList, Error>
    requires going { CanEndUnfinished map.old (D.blocks dev.old) (D.geometry dev.old) hand }
    requires longer { (unfinished_length hand < size) × (size < 2 ^ 31) }
    requires room { used_count map.old + truncation_room (D.geometry dev.old).block_size size (contents_form (WriterContents.InHand hand)) ≤ length map.old }
    ensures lengthened { IfOk result (λ h. EndsAtPlace map.new (D.blocks dev.new) (D.geometry dev.old) h size
        (take size (zero_padded size (unfinished_bytes (D.blocks dev.old) hand)))) }
    ensures over { IfOk result (TakesOldBase map.new (D.geometry dev.old).block_size (D.blocks dev.old) hand (unfinished_length hand) (D.blocks dev.new)) }
    ensures writing { WritesUnusedBlocks D.BlockDevice map.old map.new dev.old dev.new result }
{
    let length = hand.list.size().max(hand.base.size);
    let turned = reposition_draft(alloc, dev, map, hand, length)?;
    let mut hand = turned;
    write_zeros(alloc, dev, map, &mut hand, size - length)?;
    Ok(hand)
}

// Completes a draft, and truncates the stored list to `size` bytes.
fn shorten_unfinished_list<D: BlockDevice>(
    alloc: Global,
    dev: &mut D,
    map: &mut BlockMap,
    hand: PendingList,
    size: u32,
) -> Result<WriterContents, Error>
    requires can { CanTruncateContents map.old (D.blocks dev.old) (D.geometry dev.old) (WriterContents.InHand hand) size }
    requires shorter { size < unfinished_length hand }
    ensures truncated { IfOk result (λ c. HaveBytesInForm map.new (D.blocks dev.new) (D.geometry dev.old) c
        (take size (zero_padded size (unfinished_bytes (D.blocks dev.old) hand))) (truncated_form (memory_limit (D.geometry dev.old)) size (form.Finished (unfinished_length hand) true))) }
    ensures owned { IfOk result (λ c. AreUsedAmong map.new (contents_blocks (D.blocks dev.old) (D.geometry dev.old).block_size (WriterContents.InHand hand)) (contents_blocks (D.blocks dev.new) (D.geometry dev.old).block_size c)) }
    ensures writing { WritesUnusedBlocks D.BlockDevice map.old map.new dev.old dev.new result }
{
    let stored = complete_draft(alloc, dev, map, hand)?;
    let cut = truncate_finished_list(alloc, dev, map, stored, size)?;
    Ok(cut)
}

// Truncates a draft, or pads it with zeros, to `size` bytes.
fn truncate_unfinished_list<D: BlockDevice>(
    alloc: Global,
    dev: &mut D,
    map: &mut BlockMap,
    hand: PendingList,
    size: u32,
) -> Result<WriterContents, Error>
    requires { CanTruncateContents map.old (D.blocks dev.old) (D.geometry dev.old) (WriterContents.InHand hand) size }
    ensures truncated { IfOk result (λ c. HaveBytesInForm map.new (D.blocks dev.new) (D.geometry dev.old) c
        (take size (zero_padded size (unfinished_bytes (D.blocks dev.old) hand))) (truncated_form (memory_limit (D.geometry dev.old)) size (contents_form (WriterContents.InHand hand)))) }
    ensures owned { IfOk result (λ c. AreUsedAmong map.new (contents_blocks (D.blocks dev.old) (D.geometry dev.old).block_size (WriterContents.InHand hand)) (contents_blocks (D.blocks dev.new) (D.geometry dev.old).block_size c)) }
    ensures writing { WritesUnusedBlocks D.BlockDevice map.old map.new dev.old dev.new result }
{
    let length = hand.list.size().max(hand.base.size);
    if size == length {
        return Ok(WriterContents::InHand(hand));
    }
    if length < size {
        let hand = lengthen_unfinished_list(alloc, dev, map, hand, size)?;
        return Ok(WriterContents::InHand(hand));
    }
    let cut = shorten_unfinished_list(alloc, dev, map, hand, size)?;
    Ok(cut)
}

/// Truncates the contents, or pads them with zeros, to `size` bytes. Does nothing if the contents
/// already have this size.
///
/// If the size changes, contents of at most the device's inline limit are in memory after the call.
/// The caller must have reserved as many free blocks as the contents may need.
///
/// Errors: `Io` if a device call fails. `NoMemory` if memory for a block can't be allocated. After
/// an error, the contents are lost.
pub fn truncate_contents<D: BlockDevice>(
    alloc: Global,
    dev: &mut D,
    map: &mut BlockMap,
    contents: WriterContents,
    size: u32,
) -> Result<WriterContents, Error>
    requires { CanTruncateContents map.old (D.blocks dev.old) (D.geometry dev.old) contents size }
    ensures truncated { IfOk result (λ c. HaveBytesInForm map.new (D.blocks dev.new) (D.geometry dev.old) c
        (take size (zero_padded size (contents_bytes (D.blocks dev.old) (D.geometry dev.old).block_size contents))) (truncated_form (memory_limit (D.geometry dev.old)) size (contents_form contents))) }
    ensures owned { IfOk result (λ c. AreUsedAmong map.new (contents_blocks (D.blocks dev.old) (D.geometry dev.old).block_size contents) (contents_blocks (D.blocks dev.new) (D.geometry dev.old).block_size c)) }
    ensures map { KeepsUsedBlocks map.old map.new }
    ensures device { CallKeepsUsed D.BlockDevice map.old dev.old dev.new }
    ensures reports { ReportsIoOrNoMemory D.BlockDevice dev.old dev.new result }
{
    match contents {
        WriterContents::InMemory(list) => truncate_in_memory(alloc, dev, map, list, size),
        WriterContents::Finished(stored) => truncate_finished_list(alloc, dev, map, stored, size),
        WriterContents::InHand(hand) => truncate_unfinished_list(alloc, dev, map, hand, size),
    }
}
