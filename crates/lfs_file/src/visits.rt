ghost use Rattle.std.specs.Prelude.{◌≡◌, ◌≤◌, ◌<◌, ◌+◌, ◌*◌, true, false, length, OnOk, IfOk, IsErrOf, reverse};
ghost use Rattle.std.specs.List.{FoldsTo};
ghost use Rattle.lfs_model.specs.format.Blocks.{block_bytes};
ghost use Rattle.lfs_model.specs.format.SkipLists.{IsSkipList, blocks_to_head, skip_list_block_count, word_at};
ghost use Rattle.lfs_file.specs.FileCalls.{ReadsOrCorrupt};
ghost use Rattle.lfs_file.specs.Right.{LaterPointersName, ArePointersCopied};
ghost use Rattle.lfs_file.specs.Way.{ReadsUnlessNoted};
ghost use Rattle.lfs_file.specs.CallPremises.{CanFollowBlock};
ghost use Rattle.lfs_file.specs.BlockCalls.{ChecksBlock, IsListReadOnce};

use crate::blocks_for;
use crate::way::{WalkedBlocks, copy_pointers, find_first_block, word_of_slice};
use lfs_device::{BlockDevice, Error};

// Returns whether all pointers of later blocks to this index refer to `block`.
fn pointers_agree(words: &[u8], block: u32, index: u32, last: u32) -> bool
    requires order { index ≤ last }
    requires room { length words.now ≡ 128 }
    ensures yes { result ≡ true → LaterPointersName words.now block index last }
    ensures no { result ≡ false → ¬ LaterPointersName words.now block index last }
{
    if index == last {
        return true;
    }
    let most = index.trailing_zeros().min((last - index).ilog2());
    for k in 0..most + 1 {
        if word_of_slice(words, 4 * k as usize) != block {
            return false;
        }
    }
    true
}

// Returns the block to which pointer 0 of `block` refers, and copies the pointers of `block` to
// `words`. Costs one read, or none if the block was on the walk. Returns `Corrupt` if the block
// isn't on the device, or if a pointer to its index refers to another block.
fn check_block<D: BlockDevice>(
    dev: &mut D,
    block: u32,
    index: u32,
    last: u32,
    way: &WalkedBlocks,
    words: &mut [u8],
) -> Result<u32, Error>
    requires { CanFollowBlock (D.blocks dev.old) last index words.old way.now }
    ensures word { IfOk result (λ word. word ≡ word_at (block_bytes (D.blocks dev.old) block) 0) }
    ensures noted { OnOk result (ArePointersCopied (D.blocks dev.old) block index words.old words.new) }
    ensures checks { ChecksBlock (D.geometry dev.old).block_count block last index words.old result }
    ensures reading { ReadsOrCorrupt D.BlockDevice dev.old dev.new result }
    ensures reads { ReadsUnlessNoted way.now last index block (D.history dev.old) (D.history dev.new) }
{
    if block >= dev.geometry().block_count || !pointers_agree(words, block, index, last) {
        return Err(Error::Corrupt);
    }
    copy_pointers(dev, block, index, last, way, words)?;
    Ok(word_of_slice(words, 0))
}

/// Visits each block of a file's list once, starting with the last block, and checks the list. The
/// last block of the list is `head`, and the list has `size` bytes.
///
/// Returns Ok only if the list is well formed (DESIGN.md of littlefs, "CTZ skip-lists"). A
/// well-formed list has 1 to 2,147,483,647 bytes, and all of its blocks are on the device and
/// differ from each other. Each pointer of a well-formed list refers to the block that the format
/// requires.
///
/// Costs fewer reads than the list has blocks. Allocates no memory, but needs about 4 KiB of stack.
///
/// Errors: `Corrupt` if the list isn't well formed, in which case some blocks may have been
/// visited. `Io` if a device call fails.
pub fn walk<D: BlockDevice, F: FnMut(u32)>(
    dev: &mut D,
    head: u32,
    size: u32,
    visit: &mut F,
) -> Result<(), Error>
    requires { F.IsAlwaysCallable visit.old }
    ensures listed { OnOk result (IsListReadOnce (D.blocks dev.old) (D.geometry dev.old).block_size head size (D.history dev.old) (D.history dev.new)) }
    ensures corrupt { IsErrOf result Error.Corrupt → ¬ IsSkipList (D.blocks dev.old) (D.geometry dev.old).block_size head size }
    ensures visited { OnOk result (FoldsTo (λ p x q. F.step p x tt q) visit.old
        (reverse (blocks_to_head (D.blocks dev.old) (skip_list_block_count (D.geometry dev.old).block_size size) head)) visit.new) }
    ensures callable { F.IsAlwaysCallable visit.new }
    ensures reading { ReadsOrCorrupt D.BlockDevice dev.old dev.new result }
{
    let geometry = dev.geometry();
    if size == 0 || size > 0x7fff_ffff {
        return Err(Error::Corrupt);
    }
    let last = blocks_for(geometry.block_size, size) - 1;
    if last >= geometry.block_count {
        return Err(Error::Corrupt);
    }
    // If any block occurred twice, the first one would, because equal blocks have equal
    // predecessors.
    let mut way = WalkedBlocks::new();
    let first = find_first_block(dev, head, last, &mut way)?;
    let mut words = [0; 128];
    let mut block = head;
    let mut index = last;
    while index > 0 {
        let before = check_block(dev, block, index, last, &way, &mut words)?;
        if block == first {
            return Err(Error::Corrupt);
        }
        visit(block);
        block = before;
        index -= 1;
    }
    if block != first {
        return Err(Error::Corrupt);
    }
    if !pointers_agree(&words, block, 0, last) {
        return Err(Error::Corrupt);
    }
    visit(block);
    Ok(())
}
