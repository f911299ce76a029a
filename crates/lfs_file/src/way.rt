// The walk from the last block of a list back to the first block.

ghost use Rattle.std.specs.Prelude.{◌≡◌, ◌≤◌, ◌<◌, ◌+◌, ◌*◌, ◌↔◌, length, OnOk, IfOk, IfErr, IsErrOf, IsTrue, slice_index};
ghost use Rattle.lfs_device.specs.DeviceCalls.{ReadsOnly, ReportsFaults};
ghost use Rattle.lfs_model.specs.session.History.{read_count};
ghost use Rattle.lfs_model.specs.format.SkipLists.{AreListBlocks, blocks_to_head, word_at};
ghost use Rattle.lfs_file.specs.FileCalls.{ReadsOrCorrupt};
ghost use Rattle.lfs_file.specs.Right.{ArePointersCopied};
ghost use Rattle.lfs_file.specs.Way.{IsIndexVisited, HasNotedWalk, ReadsUnlessNoted, visit_count};
ghost use Rattle.lfs_file.specs.CallPremises.{CanCopyPointers};

use crate::read::{pointer_count_at, read_into_range};
use byteorder::{ByteOrder, LittleEndian};
use lfs_device::{BlockDevice, Error};

// The blocks on the walk, with their pointers. Each block is in the row whose number is the number
// of trailing zeros of the block's index. No two blocks on the walk have the same row.
#[derive(Drop)]
pub(crate) struct WalkedBlocks {
    pub blocks: [u32; 32],
    // Each row has 32 words of 4 bytes.
    pub words: [u8; 4096],
}

impl WalkedBlocks {
    // Makes an empty walk.
    pub fn new() -> Self {
        Self {
            blocks: [0; 32],
            words: [0; 4096],
        }
    }
}

// Returns the little-endian 32-bit word at an offset.
pub(crate) fn word_of_slice(words: &[u8], at: usize) -> u32
    requires { at + 4 ≤ length words.now }
    ensures { result ≡ word_at words.now at }
{
    LittleEndian::read_u32(&words[at..at + 4])
}

// Returns whether the block at `index` is on the walk.
fn is_index_visited(index: u32, last: u32) -> bool
    requires some { 0 < index }
    requires order { index ≤ last }
    ensures { IsTrue result ↔ IsIndexVisited last index }
{
    last - index < 1 << index.trailing_zeros()
}

// Returns the first block of a list, and records the blocks on the walk to it. Reads each of these
// blocks once.
pub(crate) fn find_first_block<D: BlockDevice>(
    dev: &mut D,
    head: u32,
    last: u32,
    way: &mut WalkedBlocks,
) -> Result<u32, Error>
    ensures found { AreListBlocks (D.blocks dev.old) (last + 1) head → IfOk result (λ b. b ≡ slice_index (blocks_to_head (D.blocks dev.old) (last + 1) head) 0) }
    ensures in_range { IfOk result (λ b. b < (D.geometry dev.old).block_count) }
    ensures corrupt { IsErrOf result Error.Corrupt → ¬ AreListBlocks (D.blocks dev.old) (last + 1) head }
    ensures noted { OnOk result (HasNotedWalk (D.blocks dev.old) head last 0 way.new) }
    ensures reading { ReadsOrCorrupt D.BlockDevice dev.old dev.new result }
    ensures few { OnOk result (read_count (D.history dev.new) ≤ read_count (D.history dev.old) + visit_count last last) }
{
    let count = dev.geometry().block_count;
    let mut block = head;
    let mut at = last;
    while at > 0 {
        if block >= count {
            return Err(Error::Corrupt);
        }
        let zeros = at.trailing_zeros();
        let row = 128 * zeros as usize;
        read_into_range(dev, block, 0, &mut way.words, row, 4 * (zeros + 1))?;
        way.blocks[zeros as usize] = block;
        block = word_of_slice(&way.words, row + 4 * zeros as usize);
        at -= 1 << zeros;
    }
    if block >= count {
        return Err(Error::Corrupt);
    }
    Ok(block)
}

// Copies the pointers of a block of the list to `words`. Costs one read if the block isn't on the
// walk.
pub(crate) fn copy_pointers<D: BlockDevice>(
    dev: &mut D,
    block: u32,
    index: u32,
    last: u32,
    way: &WalkedBlocks,
    words: &mut [u8],
) -> Result<(), Error>
    requires { CanCopyPointers (D.blocks dev.old) (D.geometry dev.old).block_count block last index words.old way.now }
    ensures noted { OnOk result (ArePointersCopied (D.blocks dev.old) block index words.old words.new) }
    ensures device { ReadsOnly D.BlockDevice dev.old dev.new }
    ensures faults { ReportsFaults D.BlockDevice dev.old dev.new result }
    ensures errors { IfErr result (λ e. e ≡ Error.Io) }
    ensures reads { ReadsUnlessNoted way.now last index block (D.history dev.old) (D.history dev.new) }
{
    let zeros = index.trailing_zeros() as usize;
    if is_index_visited(index, last) && way.blocks[zeros] == block {
        let len = 4 * (zeros + 1);
        words[..len].copy_from_slice(&way.words[128 * zeros..128 * zeros + len]);
        return Ok(());
    }
    read_into_range(dev, block, 0, words, 0, 4 * pointer_count_at(index))?;
    Ok(())
}
