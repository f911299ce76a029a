// Makes new pairs from two blocks.

ghost use Rattle.std.specs.Prelude.{◌≡◌, ◌<◌, false, length, IfErr, IfOk, OnOk};
ghost use Rattle.lfs_device.specs.DeviceDisk.{disk_of_blocks};
ghost use Rattle.lfs_device.specs.DeviceCalls.{ReportsFaults};
ghost use Rattle.lfs_model.specs.format.Blocks.{block_bytes};
ghost use Rattle.lfs_model.specs.format.Content.{has_commit};
ghost use Rattle.lfs_model.specs.format.Slots.{address_of_array};
ghost use Rattle.lfs_tag.specs.ContentView.{content_view};
ghost use Rattle.lfs_pair.specs.ChangeView.{changes_view};
ghost use Rattle.lfs_pair.specs.Commits.{HasWrittenContent};
ghost use Rattle.lfs_pair.specs.Writing.{ChangesReadingFew, WritesOnlyBlock, WritesTheseBlocks};
ghost use Rattle.lfs_pair.specs.FreshPair.{CanMakeFresh, CanWriteFreshPair, ErasedOneMore, IsWriteError, HasFreshContent, IsFreshPair};
ghost use Rattle.lfs_model.specs.format.Thread.{address_blocks};

use crate::change::Change;
use crate::contents::content_from_empty;
use crate::pair::Pair;
use crate::programs::rewrite_block;
use lfs_device::{BlockDevice, Error};
use lfs_tag::{Content, Log};
use std::alloc::Global;

// The revision count of a new pair.
pub(crate) const FIRST_REVISION: u32 = 1;

// The zeros for a page of the maximum size.
const ZEROS: [u8; 512] = [0; 512];

// Erases a block and makes sure that it has no log. An erase may leave any bytes, even the old log.
// If the block still has a log, its first page is programmed with zeros. `buf` must be as long as a
// block.
fn erase_cleanly<D: BlockDevice>(dev: &mut D, block: u32, buf: &mut [u8]) -> Result<(), Error>
    requires in_device { block < (D.geometry dev.old).block_count }
    requires buf { length buf.old ≡ (D.geometry dev.old).block_size }
    ensures cleared { OnOk result (has_commit (block_bytes (D.blocks dev.new) block) ≡ false) }
    ensures buf { length buf.new ≡ length buf.old }
    ensures clears { OnOk result (ErasedOneMore 0 (D.history dev.old) (D.history dev.new)) }
    ensures writes { WritesOnlyBlock D.BlockDevice 1 block dev.old dev.new result }
{
    let page = dev.geometry().page as usize;
    dev.erase(block)?;
    dev.read(block, 0, buf)?;
    if Log::read(buf).has_commit() {
        dev.prog(block, 0, &ZEROS[..page])?;
    }
    Ok(())
}

// Makes a pair from two blocks. The first block becomes active, with this content and this revision
// count.
pub(crate) fn write_fresh_pair<D: BlockDevice>(
    dev: &mut D,
    blocks: [u32; 2],
    revision: u32,
    content: &Content<'_>,
    buf: &mut [u8],
) -> Result<Pair, Error>
    requires { CanWriteFreshPair (disk_of_blocks (D.geometry dev.old) (D.blocks dev.old)) (address_of_array blocks) (content_view content.now) (length buf.old) }

    ensures holds { IfOk result (λ pair. HasWrittenContent (disk_of_blocks (D.geometry dev.new) (D.blocks dev.new)) (D.history dev.new) (address_of_array blocks) pair (content_view content.now)) }
    ensures fresh { IfOk result (λ pair. HasFreshContent revision (content_view content.now) (disk_of_blocks (D.geometry dev.new) (D.blocks dev.new)) (address_of_array blocks) pair) }
    ensures buf { length buf.new ≡ length buf.old }
    ensures clears { OnOk result (ErasedOneMore 1 (D.history dev.old) (D.history dev.new)) }
    ensures writes { WritesTheseBlocks D.BlockDevice 2 (address_blocks (address_of_array blocks)) dev.old dev.new result }
{
    let [first, second] = blocks;
    erase_cleanly(dev, second, buf)?;
    let written = rewrite_block(dev, first, revision, content, buf)?;
    Ok(Pair::written(blocks, first, revision, written, content))
}

impl Pair {
    /// Makes a new pair from two blocks, whatever bytes they contain, and commits changes to it.
    /// Both blocks are erased, and the first one becomes active, with revision count 1. An erase
    /// may leave any bytes, even an old log. Therefore, if the second block still has a log after
    /// its erase, its first page is programmed with zeros before the first block is written. The
    /// call reads from the device at most twice.
    ///
    /// Errors: `NoMemory` if memory for a block and the slots can't be allocated; in this case, the
    /// device isn't called. `Io` if a device call fails. After `Io`, or after a power loss during
    /// the call, the two blocks may contain any bytes. No other block changes.
    ///
    /// Requires two different block numbers below the device's number of blocks. The format must
    /// allow the changes in an empty log, and each slot must have a name after the changes. The
    /// content must [`fit`](crate::content_fits) in a pair.
    pub fn fresh<D: BlockDevice>(
        alloc: Global,
        dev: &mut D,
        blocks: [u32; 2],
        changes: &[Change<'_>],
    ) -> Result<Pair, Error>
        requires { CanMakeFresh (disk_of_blocks (D.geometry dev.old) (D.blocks dev.old)) (address_of_array blocks) (changes_view changes.now) }

        ensures fresh { IfOk result (λ pair. IsFreshPair (D.history dev.old) (changes_view changes.now) (disk_of_blocks (D.geometry dev.new) (D.blocks dev.new)) (D.history dev.new) (address_of_array blocks) pair) }
        ensures error { IfErr result (λ e. IsWriteError dev.old dev.new e) }
        ensures device { ChangesReadingFew D.BlockDevice 2 (address_blocks (address_of_array blocks)) dev.old dev.new }
        ensures faults { ReportsFaults D.BlockDevice dev.old dev.new result }
    {
        let content = content_from_empty(alloc, changes)?;
        let block_size = dev.geometry().block_size as usize;
        let mut buf = Vec::from_elem(alloc, 0u8, block_size)?;
        let pair = write_fresh_pair(dev, blocks, FIRST_REVISION, &content, &mut buf)?;
        Ok(pair)
    }
}
