// Reads the header of a pair from the device.

ghost use Rattle.std.specs.Prelude.{◌≡◌, ◌+◌, ◌<◌, true, IfOk, IfErr};
ghost use Rattle.lfs_model.specs.format.Blocks.{block_bytes};
ghost use Rattle.lfs_device.specs.DeviceDisk.{disk_of_blocks};
ghost use Rattle.lfs_device.specs.DeviceCalls.{ReadsOnly, ReportsFaults, ReportsOnlyIo};
ghost use Rattle.lfs_model.specs.session.History.{read_count};
ghost use Rattle.lfs_model.specs.format.Slots.{address_of_array};
ghost use Rattle.lfs_model.specs.format.Log.{block_revision};
ghost use Rattle.lfs_model.specs.format.Content.{RawContent};
ghost use Rattle.lfs_pair.specs.Pair.{AreTwoBlocks, FetchFinds, HeaderDescribesLog, later_block_first};
ghost use Rattle.lfs_pair.specs.Fetching.{FetchFails, FetchReads, HeaderFails, CandidateDescribesLog, ReadsTwice};

use crate::block_logs::ActiveBlockCandidate;
use crate::pair::Pair;
use byteorder::{ByteOrder, LittleEndian};
use lfs_device::{BlockDevice, Error, read_block};
use lfs_tag::{Log, Summary, is_later_than};
use std::alloc::Global;

// Makes the header of a pair. `bytes` contains the bytes of the active block, and `head` is what
// was read from that block's log.
fn fetched_header(
    alloc: Global,
    blocks: [u32; 2],
    active: u32,
    head: ActiveBlockCandidate,
    bytes: &[u8],
) -> Result<Pair, Error>
    requires { CandidateDescribesLog bytes.now head }
    ensures describes { IfOk result (λ pair. (held : RawContent) × HeaderDescribesLog bytes.now pair held) }
    ensures blocks { IfOk result (λ pair. pair.blocks ≡ blocks) }
    ensures active { IfOk result (λ pair. pair.active ≡ active) }
    ensures fetched { IfOk result (λ pair. pair.is_fetched ≡ true) }
    ensures fails { HeaderFails bytes.now result }
{
    let log = Log::with_known_end(bytes, head.end, head.last);
    let summary = Summary::read(alloc, &log)?;
    Ok(Pair {
        blocks,
        active,
        end: head.end,
        last: head.last,
        revision: head.revision,
        slot_count: summary.slot_count,
        tail: summary.tail,
        move_state: summary.move_state,
        is_complete: summary.is_complete,
        is_fetched: true,
    })
}

// Reads the revision count of a block.
fn read_revision<D: BlockDevice>(dev: &mut D, block: u32) -> Result<u32, Error>
    requires { block < (D.geometry dev.old).block_count }
    ensures revision { IfOk result (λ revision. revision ≡ block_revision (block_bytes (D.blocks dev.old) block)) }
    ensures errors { IfErr result (λ e. e ≡ Error.Io) }
    ensures faults { ReportsFaults D.BlockDevice dev.old dev.new result }
    ensures device { ReadsOnly D.BlockDevice dev.old dev.new }
    ensures once { read_count (D.history dev.new) ≡ read_count (D.history dev.old) + 1 }
{
    let mut bytes = [0; 4];
    dev.read(block, 0, &mut bytes)?;
    Ok(LittleEndian::read_u32(&bytes))
}

// Returns the two blocks of a pair, with the later revision count first. If neither revision count
// is later, the blocks keep their order.
fn later_revision_first<D: BlockDevice>(dev: &mut D, blocks: [u32; 2]) -> Result<[u32; 2], Error>
    requires first { (address_of_array blocks).0 < (D.geometry dev.old).block_count }
    requires second { (address_of_array blocks).1 < (D.geometry dev.old).block_count }
    ensures later { IfOk result (λ later. address_of_array later ≡ later_block_first (disk_of_blocks (D.geometry dev.old) (D.blocks dev.old)) (address_of_array blocks)) }
    ensures reports { ReportsOnlyIo D.BlockDevice dev.old dev.new result }
    ensures device { ReadsOnly D.BlockDevice dev.old dev.new }
    ensures twice { ReadsTwice (D.history dev.old) (D.history dev.new) result }
{
    let [first, second] = blocks;
    let first_revision = read_revision(dev, first)?;
    let second_revision = read_revision(dev, second)?;
    if is_later_than(first_revision, second_revision) {
        Ok([second, first])
    } else {
        Ok([first, second])
    }
}

/// Returns the header of the metadata pair in two blocks (SPEC.md of littlefs, "Metadata pairs").
/// The header says which block is active, where its log ends, and what the log contains apart from
/// the slots. `fetch` reads both revision counts and then the block with the later one. If the
/// block with the later revision count has no commit, the other block is read as well. A successful
/// call costs three or four reads. Allocates memory for the blocks that are read, and two bytes for
/// each slot. Writes nothing to the device.
///
/// Errors: `Corrupt` if neither block has a commit, or if the log of the active block is malformed.
/// `Io` if a read fails. `NoMemory` if memory for the blocks and the slots can't be allocated.
///
/// Requires two different block numbers below the device's number of blocks.
pub fn fetch<D: BlockDevice>(alloc: Global, dev: &mut D, blocks: [u32; 2]) -> Result<Pair, Error>
    requires { AreTwoBlocks (D.geometry dev.old).block_count (address_of_array blocks) }
    ensures ok { IfOk result (λ pair. FetchFinds (disk_of_blocks (D.geometry dev.old) (D.blocks dev.old)) (D.history dev.new) (address_of_array blocks) pair) }
    ensures fails { FetchFails D.BlockDevice (address_of_array blocks) dev.old dev.new result }
    ensures device { ReadsOnly D.BlockDevice dev.old dev.new }
    ensures reads { FetchReads (disk_of_blocks (D.geometry dev.old) (D.blocks dev.old)) (address_of_array blocks) (D.history dev.old) (D.history dev.new) result }
{
    let [later, other] = later_revision_first(dev, blocks)?;
    let bytes = read_block(alloc, dev, later)?;
    let head = ActiveBlockCandidate::of(&bytes);
    if head.has_commit {
        return fetched_header(alloc, blocks, later, head, &bytes);
    }
    let other_bytes = read_block(alloc, dev, other)?;
    let other_head = ActiveBlockCandidate::of(&other_bytes);
    if !other_head.has_commit {
        return Err(Error::Corrupt);
    }
    fetched_header(alloc, blocks, other, other_head, &other_bytes)
}
