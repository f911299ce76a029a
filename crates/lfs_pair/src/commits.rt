// Commits changes to a pair, by an append or a compaction.

ghost use Rattle.std.specs.Prelude.{◌≡◌, ◌+◌, ◌≤◌, true, false, IfErr, IfNone, IfOk, IfSome, OnErr, OnOk, Some, length};
ghost use Rattle.lfs_device.specs.DeviceDisk.{disk_of_blocks};
ghost use Rattle.lfs_device.specs.DeviceCalls.{ReportsFaults, ReportsOnlyIo};
ghost use Rattle.lfs_model.specs.session.History.{AllCallsSince, HoldsAtLosses};
ghost use Rattle.lfs_model.specs.crash.Stops.{ErasesCleanly, LeftByLoss};
ghost use Rattle.lfs_tag.specs.ContentView.{content_view};
ghost use Rattle.lfs_model.specs.format.Blocks.{block_bytes};
ghost use Rattle.lfs_model.specs.format.Content.{RawContent};
ghost use Rattle.lfs_pair.specs.Pair.{IsTrueHeader, header_address};
ghost use Rattle.lfs_pair.specs.ChangeView.{changes_view};
ghost use Rattle.lfs_pair.specs.Commits.{AppendsByHeader, IsPairAddress, CanAppendChanges, CanCommitWithBlock, CanCompact, CompactsContent, CommitFails, IsEndBlank, LossLeavesChanged, LossLeavesNew, RefusesAppend, changed_pair_content};
ghost use Rattle.lfs_pair.specs.Endings.{CommitReturns};
ghost use Rattle.lfs_pair.specs.Writing.{OnlyAsksBlank, ChangesReadingFew, WritesTheseBlocks};
ghost use Rattle.lfs_model.specs.format.Thread.{address_blocks};

use crate::change::Change;
use crate::contents::changed_content;
use crate::entries::push_changes;
use crate::pair::Pair;
use crate::programs::{WrittenCommit, append_commit, rewrite_block};
use crate::size::content_fits;
use lfs_device::{BlockDevice, Error};
use lfs_tag::{CommitBuilder, Content};
use std::alloc::Global;

/// The outcome of a commit.
#[derive(Clone, Copy, Debug, PartialEq, Eq, Drop)]
pub enum Outcome {
    /// The changes are committed to the pair.
    Done,
    /// The changed content doesn't fit in a pair, so nothing was written.
    Full,
}

/// Commits changes to a pair (DESIGN.md of littlefs, "Metadata pairs"). The commit is atomic: a
/// power loss during the call leaves the pair with all of the changes or with none of them.
///
/// The changes are appended to the active block's log if the padded commit fits there and the bytes
/// after the log are unprogrammed (erased, and not programmed since). Otherwise, the pair is
/// compacted: the other block is erased, and the changed content is written to it. After a
/// [`fetch`](crate::fetch), the first commit asks the device whether the bytes after the log are
/// blank. The call reads from the device at most once.
///
/// `block` must contain the bytes of the active block. If the call returns Ok, `block` contains the
/// bytes that the previously active block has on the device.
///
/// Returns [`Outcome::Full`] if and only if the changed content doesn't fit in a pair
/// ([`content_fits`]). A call that returns `Full` writes nothing and leaves the pair unchanged.
///
/// Errors: `NoMemory` if memory for the slots and for a block can't be allocated; in this case,
/// nothing is written. `Io` if a device call fails; in this case, the pair's blocks may have
/// changed. After an error, `pair` is unchanged and `block` is unspecified, so the caller must
/// fetch the pair again.
///
/// The atomicity of a commit depends on two properties of the device. An erase must leave a block
/// without a log, or with a log that has the block's old revision count. An interrupted program
/// must leave the block's old log or its new one; at offset 0, it may also leave no log.
///
/// Requires that `pair` describes the pair on the device, that the format allows the changes, and
/// that each slot has a name after the changes.
pub fn commit<D: BlockDevice>(
    alloc: Global,
    dev: &mut D,
    pair: &mut Pair,
    block: &mut [u8],
    changes: &[Change<'_>],
) -> Result<Outcome, Error>
    requires { CanCommitWithBlock (disk_of_blocks (D.geometry dev.old) (D.blocks dev.old)) (D.history dev.old) pair.old (changes_view changes.now) block.old }

    ensures ends { CommitReturns D.BlockDevice (changes_view changes.now) dev.old dev.new pair.old pair.new block.new result }
    ensures error { IfErr result (λ e. CommitFails D.BlockDevice dev.old dev.new pair.old pair.new e) }
    ensures device { ChangesReadingFew D.BlockDevice 1 (address_blocks (header_address pair.old)) dev.old dev.new }
    ensures faults { ReportsFaults D.BlockDevice dev.old dev.new result }
    ensures stops { AllCallsSince ErasesCleanly (D.history dev.old) (D.history dev.new)
        → HoldsAtLosses LeftByLoss (D.history dev.old) (D.history dev.new) (LossLeavesChanged (disk_of_blocks (D.geometry dev.old) (D.blocks dev.old)) (header_address pair.old) (changes_view changes.now)) }
{
    let geometry = dev.geometry();
    let content = changed_content(alloc, pair, block, changes)?;
    if !content_fits(&content, geometry) {
        return Ok(Outcome::Full);
    }
    let header = pair.with_content(&content);
    drop(content);
    let mut buf = Vec::from_elem(alloc, 0u8, geometry.block_size as usize)?;
    if let Some(written) = append_changes(dev, pair, block, changes, &mut buf)? {
        *pair = header.with_end(written);
        return Ok(Outcome::Done);
    }
    // The append borrowed the block that the content borrows from, so the content is computed
    // again.
    let content = changed_content(alloc, pair, block, changes)?;
    compact(dev, pair, &content, &mut buf)?;
    Ok(Outcome::Done)
}

// Returns whether the bytes after a pair's log are unprogrammed. Asks the device if the pair hasn't
// been written since it was fetched.
fn is_end_blank<D: BlockDevice>(dev: &mut D, pair: &Pair) -> Result<bool, Error>
    requires address { IsPairAddress (disk_of_blocks (D.geometry dev.old) (D.blocks dev.old)) (header_address pair.now) }
    requires pair { (held : RawContent) × IsTrueHeader (disk_of_blocks (D.geometry dev.old) (D.blocks dev.old)) (D.history dev.old) pair.now held }

    ensures yes { result ≡ Ok true → IsEndBlank (D.geometry dev.old) (D.history dev.old) (D.history dev.new) pair.now }
    ensures no { result ≡ Ok false → (pair.now.is_fetched ≡ true) × (D.history dev.new ≡ D.history dev.old) }
    ensures asks { OnlyAsksBlank D.BlockDevice dev.old dev.new }
    ensures reports { ReportsOnlyIo D.BlockDevice dev.old dev.new result }
{
    if !pair.is_fetched {
        return Ok(true);
    }
    let geometry = dev.geometry();
    let end = pair.end as u32;
    if end % geometry.page != 0 {
        return Ok(false);
    }
    let is_blank = dev.is_unprogrammed(pair.active, end, geometry.block_size - end)?;
    Ok(is_blank)
}

// Appends the changes to the log of the active block if they fit and the bytes after the log are
// unprogrammed. `block` contains the bytes of the active block, before and after the call. Returns
// the new end of the log, or None if the changes weren't appended.
fn append_changes<D: BlockDevice>(
    dev: &mut D,
    pair: &Pair,
    block: &mut [u8],
    changes: &[Change<'_>],
    buf: &mut [u8],
) -> Result<Option<WrittenCommit>, Error>
    requires { CanAppendChanges (disk_of_blocks (D.geometry dev.old) (D.blocks dev.old)) (D.history dev.old) pair.now block.old (changes_view changes.now) (length buf.old) }

    ensures appends { IfOk result (λ o. IfSome o (λ written. AppendsByHeader (disk_of_blocks (D.geometry dev.old) (D.blocks dev.old)) (D.history dev.old) pair.now (changes_view changes.now)
        (disk_of_blocks (D.geometry dev.new) (D.blocks dev.new)) (D.history dev.new) written.end written.last)) }
    ensures no_room { IfOk result (λ o. IfNone o (RefusesAppend D.BlockDevice (changes_view changes.now) dev.old dev.new pair.now pair.now)) }
    ensures block { OnOk result (block.new ≡ block_bytes (D.blocks dev.new) pair.now.active) }
    ensures writes { WritesTheseBlocks D.BlockDevice 0 (address_blocks (header_address pair.now)) dev.old dev.new result }
    ensures stops { (c : RawContent) → changed_pair_content (disk_of_blocks (D.geometry dev.old) (D.blocks dev.old)) (header_address pair.now) (changes_view changes.now) ≡ Some c
        → HoldsAtLosses LeftByLoss (D.history dev.old) (D.history dev.new) (LossLeavesNew (disk_of_blocks (D.geometry dev.old) (D.blocks dev.old)) (header_address pair.now) c) }
{
    let geometry = dev.geometry();
    let mut builder = CommitBuilder::new(geometry.page, buf, pair.last, None);
    push_changes(&mut builder, changes);
    let room = geometry.block_size - pair.end as u32;
    if room < builder.end_on_page() {
        return Ok(None);
    }
    let is_blank = is_end_blank(dev, pair)?;
    if !is_blank {
        return Ok(None);
    }
    let written = append_commit(dev, pair.active, pair.end as u32, builder, block)?;
    Ok(Some(written))
}

// Writes the content to the pair's inactive block, which then becomes the active one.
pub(crate) fn compact<D: BlockDevice>(
    dev: &mut D,
    pair: &mut Pair,
    content: &Content<'_>,
    buf: &mut [u8],
) -> Result<(), Error>
    requires { CanCompact (disk_of_blocks (D.geometry dev.old) (D.blocks dev.old)) pair.old (content_view content.now) (length buf.old) }

    ensures buf { length buf.new ≡ length buf.old }
    ensures done { OnOk result (CompactsContent (disk_of_blocks (D.geometry dev.old) (D.blocks dev.old)) (D.history dev.old) pair.old (content_view content.now)
        (disk_of_blocks (D.geometry dev.new) (D.blocks dev.new)) (D.history dev.new) pair.new) }
    ensures err_pair { OnErr result (pair.new ≡ pair.old) }
    ensures writes { WritesTheseBlocks D.BlockDevice 1 (address_blocks (header_address pair.old)) dev.old dev.new result }
    ensures stops { AllCallsSince ErasesCleanly (D.history dev.old) (D.history dev.new)
        → HoldsAtLosses LeftByLoss (D.history dev.old) (D.history dev.new) (LossLeavesNew (disk_of_blocks (D.geometry dev.old) (D.blocks dev.old)) (header_address pair.old) (content_view content.now)) }
{
    let other = pair.inactive_block();
    let revision = pair.revision.wrapping_add(1);
    let written = rewrite_block(dev, other, revision, content, buf)?;
    *pair = Pair::written(pair.blocks, other, revision, written, content);
    Ok(())
}
