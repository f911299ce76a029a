// Completes contents for a commit, or releases their blocks.

ghost use Rattle.std.specs.Prelude.{ℕ, IfOk};
ghost use Rattle.lfs_model.specs.layers.BlockSets.{IsInFlight};
ghost use Rattle.lfs_device.specs.DeviceCalls.{ReportsIoOrNoMemory};
ghost use Rattle.lfs_file.specs.ContentsCalls.{CallKeepsUsed};
ghost use Rattle.lfs_file.specs.Contents.{CanFinishContents, HaveBytesInForm, contents_bytes, form_after_finish, contents_form};
ghost use Rattle.lfs_file.specs.Hand.{KeepsUsedBlocks};
ghost use Rattle.lfs_file.specs.BlockOwners.{AreUsedAmong, contents_blocks};

use crate::contents::WriterContents;
use crate::list_ends::complete_draft;
use crate::releases::release_block;
use lfs_blocks::BlockMap;
use lfs_device::{BlockDevice, Error};
use std::alloc::Global;

/// Completes a draft, which is a list that is being rewritten, so that all contents are in a stored
/// list. Contents that aren't in a draft are returned unchanged. The bytes of the contents don't
/// change.
///
/// Requires enough free blocks for the bytes that the draft has to copy from its old list.
///
/// Errors: `Io` if a device call fails. `NoMemory` if memory can't be allocated. After an error,
/// the contents are lost.
pub fn finish_contents<D: BlockDevice>(
    alloc: Global,
    dev: &mut D,
    map: &mut BlockMap,
    contents: WriterContents,
) -> Result<WriterContents, Error>
    requires { CanFinishContents map.old (D.blocks dev.old) (D.geometry dev.old) contents }
    ensures finished { IfOk result (λ c. HaveBytesInForm map.new (D.blocks dev.new) (D.geometry dev.old) c
        (contents_bytes (D.blocks dev.old) (D.geometry dev.old).block_size contents) (form_after_finish (contents_form contents))) }
    ensures owned { IfOk result (λ c. AreUsedAmong map.new (contents_blocks (D.blocks dev.old) (D.geometry dev.old).block_size contents) (contents_blocks (D.blocks dev.new) (D.geometry dev.old).block_size c)) }
    ensures map { KeepsUsedBlocks map.old map.new }
    ensures device { CallKeepsUsed D.BlockDevice map.old dev.old dev.new }
    ensures reports { ReportsIoOrNoMemory D.BlockDevice dev.old dev.new result }
{
    match contents {
        WriterContents::InMemory(list) => Ok(WriterContents::InMemory(list)),
        WriterContents::Finished(stored) => Ok(WriterContents::Finished(stored)),
        WriterContents::InHand(hand) => {
            let stored = complete_draft(alloc, dev, map, hand)?;
            Ok(WriterContents::Finished(stored))
        }
    }
}

/// Releases all blocks in flight without reading from the device. Only the open writer has blocks
/// in flight.
pub fn release_in_flight(map: &mut BlockMap)
    ensures none { (b : ℕ) → ¬ (IsInFlight map.new b) }
    ensures map { KeepsUsedBlocks map.old map.new }
{
    let block_count = map.block_count();
    let mut block = 0;
    'abandoning: while block < block_count {
        release_block(map, block);
        block += 1;
    }
}
