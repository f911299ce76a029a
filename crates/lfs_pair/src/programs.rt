// Programs commits into blocks of the device.

ghost use Rattle.std.specs.Prelude.{◌≡◌, ◌<◌, ◌≤◌, ◌+◌, length, IfOk, OnOk};
ghost use Rattle.lfs_device.specs.DeviceDisk.{disk_of_blocks};
ghost use Rattle.lfs_device.specs.DeviceCalls.{ReadsOnly, ReportsOnlyIo};
ghost use Rattle.lfs_model.specs.format.Blocks.{block_bytes, overwritten_at};
ghost use Rattle.lfs_model.specs.session.History.{AllCallsSince, HoldsAtLosses, read_count};
ghost use Rattle.lfs_model.specs.layers.Commit.{encoded_size, four_bytes_at, aligned_commit_end};
ghost use Rattle.lfs_model.specs.crash.Stops.{ErasesCleanly, LeftByLoss};
ghost use Rattle.lfs_model.specs.layers.WrittenContent.{content_entries};
ghost use Rattle.lfs_tag.specs.ContentView.{content_view};
ghost use Rattle.lfs_pair.specs.Writing.{BlockGetsCommit, BytesGetCommit, CanAppendCommit, CanProgramCommit, CanWriteAnew, IsWrittenAnew, EndsBeforeUnprogrammed, LossLeavesCommit, LossLeavesRewritten, DiffersInBlock, ProgramsOnce, WritesOnlyBlock};

use crate::entries::push_content;
use lfs_device::{BlockDevice, Error};
use lfs_tag::{CommitBuilder, Content, Tag};

// The end of a commit that was written.
#[derive(Clone, Copy, Drop)]
pub(crate) struct WrittenCommit {
    // The block offset in bytes at which the commit ends.
    pub end: usize,
    // The tag that the next commit's first tag is XORed with.
    pub last: Tag,
}

// Reads the four bytes of a block at an offset. Returns None if the block has fewer than four bytes
// there.
fn read_four_bytes<D: BlockDevice>(
    dev: &mut D,
    block: u32,
    at: u32,
) -> Result<Option<[u8; 4]>, Error>
    requires in_device { block < (D.geometry dev.old).block_count }
    requires in_block { at ≤ (D.geometry dev.old).block_size }
    ensures bytes { IfOk result (λ next. next ≡ four_bytes_at (block_bytes (D.blocks dev.old) block) at) }
    ensures device { ReadsOnly D.BlockDevice dev.old dev.new }
    ensures reports { ReportsOnlyIo D.BlockDevice dev.old dev.new result }
    ensures few { read_count (D.history dev.new) ≤ read_count (D.history dev.old) + 1 }
{
    if dev.geometry().block_size - at < 4 {
        return Ok(None);
    }
    let mut next = [0; 4];
    dev.read(block, at, &mut next)?;
    Ok(Some(next))
}

// Appends a commit to a block at offset `at`. Requires that the block is unprogrammed from there
// on. `bytes` contains the block's bytes, before and after the call.
pub(crate) fn append_commit<D: BlockDevice>(
    dev: &mut D,
    block: u32,
    at: u32,
    builder: CommitBuilder<'_>,
    bytes: &mut [u8],
) -> Result<WrittenCommit, Error>
    requires { CanAppendCommit (D.geometry dev.old) (D.blocks dev.old) (D.history dev.old) builder block at bytes.old }

    ensures adds { IfOk result (λ written. BytesGetCommit builder.entry at written.end bytes.old bytes.new (block_bytes (D.blocks dev.new) block)) }
    ensures written { IfOk result (λ written. EndsBeforeUnprogrammed (disk_of_blocks (D.geometry dev.new) (D.blocks dev.new)) (D.history dev.new) block written.end written.last) }
    ensures writes { WritesOnlyBlock D.BlockDevice 0 block dev.old dev.new result }
    ensures programs { OnOk result (ProgramsOnce (D.history dev.old) (D.history dev.new)) }
    ensures stops { HoldsAtLosses LeftByLoss (D.history dev.old) (D.history dev.new) (DiffersInBlock block (LossLeavesCommit builder.entry at) (D.blocks dev.old)) }
{
    let end = at + builder.end_on_page();
    let next = four_bytes(bytes, end);
    let last = builder.last_commit_tag(next);
    let pages = builder.finish(next)?;
    dev.prog(block, at, pages)?;
    overwrite_bytes(bytes, at as usize, pages);
    Ok(WrittenCommit {
        end: end as usize,
        last,
    })
}

// Overwrites the bytes of `all` that start at offset `at`.
fn overwrite_bytes(all: &mut [u8], at: usize, bytes: &[u8])
    requires { at + length bytes.now ≤ length all.old }
    ensures { all.new ≡ overwritten_at all.old at bytes.now }
{
    all[at..at + bytes.len()].copy_from_slice(bytes);
}

// Returns the four bytes at an offset, or None if there are fewer than four.
fn four_bytes(bytes: &[u8], at: u32) -> Option<[u8; 4]>
    requires { at ≤ length bytes.now }
    ensures { result ≡ four_bytes_at bytes.now at }
{
    match bytes[at as usize..].first_chunk() {
        Some(next) => Some(*next),
        None => None,
    }
}

// Programs the first commit of a block. Requires that the whole block is unprogrammed.
fn program_first_commit<D: BlockDevice>(
    dev: &mut D,
    block: u32,
    builder: CommitBuilder<'_>,
) -> Result<WrittenCommit, Error>
    requires { CanProgramCommit (D.geometry dev.old) (D.blocks dev.old) (D.history dev.old) builder block 0 }

    ensures adds { IfOk result (λ written. BlockGetsCommit builder.entry 0 written.end (block_bytes (D.blocks dev.old) block) (block_bytes (D.blocks dev.new) block)) }
    ensures written { IfOk result (λ written. EndsBeforeUnprogrammed (disk_of_blocks (D.geometry dev.new) (D.blocks dev.new)) (D.history dev.new) block written.end written.last) }
    ensures writes { WritesOnlyBlock D.BlockDevice 1 block dev.old dev.new result }
    ensures programs { OnOk result (ProgramsOnce (D.history dev.old) (D.history dev.new)) }
    ensures stops { HoldsAtLosses LeftByLoss (D.history dev.old) (D.history dev.new) (DiffersInBlock block (LossLeavesCommit builder.entry 0) (D.blocks dev.old)) }
{
    let end = builder.end_on_page();
    let next = read_four_bytes(dev, block, end)?;
    let last = builder.last_commit_tag(next);
    let pages = builder.finish(next)?;
    dev.prog(block, 0, pages)?;
    Ok(WrittenCommit {
        end: end as usize,
        last,
    })
}

// Erases a block and writes a content into it as the block's first commit. `buf` must be as long as
// a block.
pub(crate) fn rewrite_block<D: BlockDevice>(
    dev: &mut D,
    block: u32,
    revision: u32,
    content: &Content<'_>,
    buf: &mut [u8],
) -> Result<WrittenCommit, Error>
    requires { CanWriteAnew (D.geometry dev.old) block (content_view content.now) (length buf.old) }

    ensures size { IfOk result (λ written. written.end ≡ aligned_commit_end (D.geometry dev.old).page (4 + encoded_size (content_entries (content_view content.now)))) }
    ensures written { IfOk result (λ written. EndsBeforeUnprogrammed (disk_of_blocks (D.geometry dev.new) (D.blocks dev.new)) (D.history dev.new) block written.end written.last) }
    ensures anew { OnOk result (IsWrittenAnew revision (content_view content.now) (block_bytes (D.blocks dev.new) block) (D.history dev.old) (D.history dev.new)) }
    ensures writes { WritesOnlyBlock D.BlockDevice 1 block dev.old dev.new result }
    ensures stops { AllCallsSince ErasesCleanly (D.history dev.old) (D.history dev.new)
        → HoldsAtLosses LeftByLoss (D.history dev.old) (D.history dev.new) (DiffersInBlock block (LossLeavesRewritten revision (content_view content.now)) (D.blocks dev.old)) }
{
    let page = dev.geometry().page;
    let before = Tag::from_bits(0xffff_ffff);
    let mut builder = CommitBuilder::new(page, buf, before, Some(revision));
    push_content(&mut builder, content);
    dev.erase(block)?;
    let written = program_first_commit(dev, block, builder)?;
    Ok(written)
}
