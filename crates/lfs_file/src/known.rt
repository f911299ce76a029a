// A cache of the blocks of a list that reads have found, by index.

ghost use Rattle.std.specs.Prelude.{◌≡◌, ◌≢◌, ◌≤◌, ◌<◌, ◌+◌, ◌-◌, ◌*◌, ℕ, List, length, min, take, drop, OnOk, IfOk, IfSome, IsErrOf, slice_index, slice_range};
ghost use Rattle.lfs_model.specs.format.Blocks.{block_bytes};
ghost use Rattle.lfs_model.specs.session.History.{CallEvent, read_count};
ghost use Rattle.lfs_model.specs.format.SkipLists.{AreListBlocks, IsSkipList, blocks_to_head, skip_list_block_count, list_bytes, word_at};
ghost use Rattle.lfs_file.specs.FileCalls.{ReadsOrCorrupt};
ghost use Rattle.lfs_file.specs.Known.{OnlyBelowKnown, AreKnownBlocks, FindsFew, IsKnownIndex, ReadsKnownList, no_known_blocks, index_row as row_seen};
ghost use Rattle.lfs_file.specs.CallPremises.{HasBlockBefore, PointerInRange};
ghost use Rattle.lfs_file.specs.BlockCalls.{FindsKnownBlock, ReadsUnlessKnown};

use crate::part::BlockPart;
use crate::read::{pointer_count_at, read_block_before, read_block_pointer, read_into_range};
use crate::{blocks_for, place};
use lfs_device::{BlockDevice, Error};

/// An index cache of a CTZ skip-list: the blocks that reads have found, each with its index. The
/// cached blocks are on the walk to the byte at which the last read ended. A read that continues at
/// that byte follows few pointers, or none.
///
/// After a read, the caller sets `end` in order to recognize a later read that continues at this
/// position.
///
/// The block at an index is in the row whose number is the number of trailing zeros of the index. A
/// row without a block has the index 2^32 - 1.
#[derive(Clone, Copy)]
pub struct IndexCache {
    pub indices: [u32; 32],
    pub blocks: [u32; 32],
    /// The position at which the last read ended, in bytes from the start of the file. The position
    /// is 2^32 - 1 before the first read.
    pub end: u32,
}

// Returns the row of the block at an index. Index 0 is in the last row.
fn index_row(index: u32) -> usize
    ensures { result ≡ row_seen index }
{
    index.trailing_zeros().min(31) as usize
}

impl IndexCache {
    /// Makes an empty cache.
    pub fn new() -> IndexCache
        ensures empty { result ≡ no_known_blocks }
        ensures blocks { (all : List ℕ) → AreKnownBlocks all result }
    {
        IndexCache {
            indices: [u32::MAX; 32],
            blocks: [0; 32],
            end: u32::MAX,
        }
    }

    // Adds the block at an index to the cache.
    pub(crate) fn note(&mut self, index: u32, block: u32)
        ensures blocks { (all : List ℕ) → AreKnownBlocks all self.old → block ≡ slice_index all index → AreKnownBlocks all self.new }
        ensures known { IsKnownIndex self.new index }
        ensures others { (i : ℕ) → row_seen i ≢ row_seen index → IsKnownIndex self.old i → IsKnownIndex self.new i }
        ensures below { (count : ℕ) → index < count → OnlyBelowKnown count self.old → OnlyBelowKnown count self.new }
    {
        let row = index_row(index);
        self.indices[row] = index;
        self.blocks[row] = block;
    }

    // Returns the nearest block at or after an index, with the block's own index. The returned
    // block is a cached block or the head.
    fn nearest_known_block(&self, head: u32, last: u32, index: u32) -> (u32, u32)
        requires { index ≤ last }
        ensures low { index ≤ result.0 }
        ensures high { result.0 ≤ last }
        ensures block { (all : List ℕ) → AreKnownBlocks all self.now → length all ≡ last + 1 → head ≡ slice_index all last → result.1 ≡ slice_index all result.0 }
        ensures near { (i : ℕ) → IsKnownIndex self.now i → index ≤ i → i ≤ last → result.0 ≤ i }
    {
        if index == last {
            return (last, head);
        }
        let mut at = last;
        let mut block = head;
        for row in 0..32 {
            let other = self.indices[row];
            if index <= other && other < at {
                at = other;
                block = self.blocks[row];
            }
        }
        (at, block)
    }

    // Returns the block at `index` of a list whose head is at the index `last`, and caches the
    // blocks on the walk. Each step follows the longest pointer that doesn't overshoot.
    pub(crate) fn find_block<D: BlockDevice>(
        &mut self,
        dev: &mut D,
        head: u32,
        last: u32,
        index: u32,
    ) -> Result<u32, Error>
        requires { index ≤ last }
        ensures found { FindsKnownBlock (D.blocks dev.old) last head index self.old self.new result }
        ensures in_range { IfOk result (λ b. b < (D.geometry dev.old).block_count) }
        ensures corrupt { IsErrOf result Error.Corrupt → AreListBlocks (D.blocks dev.old) (last + 1) head → ¬ AreKnownBlocks (blocks_to_head (D.blocks dev.old) (last + 1) head) self.old }
        ensures reading { ReadsOrCorrupt D.BlockDevice dev.old dev.new result }
        ensures few { OnOk result (FindsFew self.old last index self.new (D.history dev.old) (D.history dev.new)) }
    {
        let (mut at, mut block) = self.nearest_known_block(head, last, index);
        while at > index {
            let skip = at.trailing_zeros().min((at - index).ilog2());
            block = read_block_pointer(dev, block, skip)?;
            at -= 1 << skip;
            self.note(at, block);
        }
        if block >= dev.geometry().block_count {
            return Err(Error::Corrupt);
        }
        self.note(index, block);
        Ok(block)
    }

    // Returns the block at `index`, to which pointer `k` of `block` refers. If the block isn't
    // cached, reads the pointer and caches the block.
    pub(crate) fn block_at_pointer<D: BlockDevice>(
        &mut self,
        dev: &mut D,
        block: u32,
        k: u32,
        index: u32,
    ) -> Result<u32, Error>
        requires { PointerInRange k index }
        ensures found { (all : List ℕ) → AreKnownBlocks all self.old → index < length all → word_at (block_bytes (D.blocks dev.old) block) (4 * k) ≡ slice_index all index → IfOk result (λ b. b ≡ slice_index all index) × AreKnownBlocks all self.new }
        ensures below { (count : ℕ) → index < count → OnlyBelowKnown count self.old → OnlyBelowKnown count self.new }
        ensures corrupt { IsErrOf result Error.Corrupt → (D.geometry dev.old).block_count ≤ block }
        ensures reading { ReadsOrCorrupt D.BlockDevice dev.old dev.new result }
        ensures calls { ReadsUnlessKnown self.old self.new index (D.history dev.old) (D.history dev.new) }
    {
        let row = index_row(index);
        if self.indices[row] == index {
            return Ok(self.blocks[row]);
        }
        let found = read_block_pointer(dev, block, k)?;
        self.note(index, found);
        Ok(found)
    }

    // Returns the block before `block`, which is at `index` in the list. Requires that `index` is
    // at least 1. If the block before isn't cached, reads its address from `block`.
    fn block_before<D: BlockDevice>(
        &self,
        dev: &mut D,
        block: u32,
        index: u32,
    ) -> Result<u32, Error>
        requires { HasBlockBefore (D.geometry dev.old).block_count block index }
        ensures found { (all : List ℕ) → AreKnownBlocks all self.now → index < length all → word_at (block_bytes (D.blocks dev.old) block) 0 ≡ slice_index all (index - 1) → IfOk result (λ b. b ≡ slice_index all (index - 1)) }
        ensures in_range { IfOk result (λ b. b < (D.geometry dev.old).block_count) }
        ensures corrupt { (all : List ℕ) → IsErrOf result Error.Corrupt → AreKnownBlocks all self.now → index < length all → word_at (block_bytes (D.blocks dev.old) block) 0 ≡ slice_index all (index - 1) → (D.geometry dev.old).block_count ≤ slice_index all (index - 1) }
        ensures reading { ReadsOrCorrupt D.BlockDevice dev.old dev.new result }
        ensures few { read_count (D.history dev.new) ≤ read_count (D.history dev.old) + 1 }
    {
        let row = index_row(index - 1);
        if self.indices[row] != index - 1 {
            let block = read_block_before(dev, block)?;
            return Ok(block);
        }
        if self.blocks[row] >= dev.geometry().block_count {
            return Err(Error::Corrupt);
        }
        Ok(self.blocks[row])
    }

    /// Returns the range of a cached block that contains a file's bytes from position `pos` on. The
    /// range is as long as `room` and the file's `size` allow. Returns None if there are no bytes
    /// to read, if the bytes aren't all in one block, or if their block isn't cached. The cache
    /// must belong to the file's list. Doesn't call the device.
    pub fn find_cached_part<D: BlockDevice>(
        &self,
        dev: &D,
        size: u32,
        pos: u32,
        room: usize,
    ) -> Option<BlockPart>
        ensures inside { IfSome result (λ p. (p.block < (D.geometry dev.now).block_count) × (p.offset + p.len ≤ (D.geometry dev.now).block_size)) }
        ensures len { IfSome result (λ p. p.len ≡ min room (size - pos)) }
        ensures bytes { (head : ℕ) → IsSkipList (D.blocks dev.now) (D.geometry dev.now).block_size head size → AreKnownBlocks (blocks_to_head (D.blocks dev.now) (skip_list_block_count (D.geometry dev.now).block_size size) head) self.now
            → IfSome result (λ p. slice_range (block_bytes (D.blocks dev.now) p.block) p.offset (p.offset + p.len) ≡ slice_range (list_bytes (D.blocks dev.now) (D.geometry dev.now).block_size head size) pos (pos + p.len)) }
        ensures few { (old new : List CallEvent) → read_count new ≤ read_count old + 1 → IfSome result (λ p. ReadsKnownList (D.geometry dev.now).block_size size pos room self.now self.now old new) }
    {
        let geometry = dev.geometry();
        if pos >= size || room == 0 {
            return None;
        }
        let len = room.min((size - pos) as usize) as u32;
        let (index, offset) = place(geometry.block_size, pos);
        let (last, _) = place(geometry.block_size, pos + len - 1);
        let row = index_row(index);
        let block = self.blocks[row];
        if last != index || self.indices[row] != index || block >= geometry.block_count {
            return None;
        }
        Some(BlockPart { block, offset, len })
    }

    /// Reads a file's bytes from position `pos` on into the buffer, as many as the buffer and the
    /// file's `size` allow. Returns the number of bytes that were read. The last block of the
    /// file's list is `head`, and the cache must belong to that list.
    ///
    /// The walk to the last block of the read starts at the nearest cached block and follows the
    /// longest pointers that don't overshoot (DESIGN.md of littlefs, "CTZ skip-lists"). For each
    /// earlier block of the read, one pointer is read unless the block is cached.
    ///
    /// Errors: `Corrupt` if a pointer refers to a block outside the device, which never happens in
    /// a well-formed list. `Io` if a device call fails. After an error, the buffer may contain any
    /// bytes. If the list isn't well formed, the call may also return Ok with any bytes.
    pub fn read_at<D: BlockDevice>(
        &mut self,
        dev: &mut D,
        head: u32,
        size: u32,
        pos: u32,
        buf: &mut [u8],
    ) -> Result<usize, Error>
        ensures count { IfOk result (λ n. (n ≡ min (length buf.old) (size - pos)) × (drop n buf.new ≡ drop n buf.old)) }
        ensures bytes { IsSkipList (D.blocks dev.old) (D.geometry dev.old).block_size head size → AreKnownBlocks (blocks_to_head (D.blocks dev.old) (skip_list_block_count (D.geometry dev.old).block_size size) head) self.old
            → IfOk result (λ n. take n buf.new ≡ slice_range (list_bytes (D.blocks dev.old) (D.geometry dev.old).block_size head size) pos (pos + n)) }
        ensures corrupt { IsErrOf result Error.Corrupt → IsSkipList (D.blocks dev.old) (D.geometry dev.old).block_size head size → ¬ AreKnownBlocks (blocks_to_head (D.blocks dev.old) (skip_list_block_count (D.geometry dev.old).block_size size) head) self.old }
        ensures known { IsSkipList (D.blocks dev.old) (D.geometry dev.old).block_size head size → AreKnownBlocks (blocks_to_head (D.blocks dev.old) (skip_list_block_count (D.geometry dev.old).block_size size) head) self.old
            → AreKnownBlocks (blocks_to_head (D.blocks dev.old) (skip_list_block_count (D.geometry dev.old).block_size size) head) self.new }
        ensures reading { ReadsOrCorrupt D.BlockDevice dev.old dev.new result }
        ensures few { OnOk result (ReadsKnownList (D.geometry dev.old).block_size size pos (length buf.old) self.old self.new (D.history dev.old) (D.history dev.new)) }
    {
        let block_size = dev.geometry().block_size;
        if pos >= size || buf.is_empty() {
            return Ok(0);
        }
        let len = buf.len().min((size - pos) as usize);
        let mut left = len as u32;
        let (index, _) = place(block_size, pos + left - 1);
        let mut block = self.find_block(dev, head, blocks_for(block_size, size) - 1, index)?;
        'blocks: loop {
            let (index, off) = place(block_size, pos + left - 1);
            let part = left.min(off + 1 - 4 * pointer_count_at(index));
            left -= part;
            read_into_range(dev, block, off + 1 - part, buf, left as usize, part)?;
            if left == 0 {
                return Ok(len);
            }
            block = self.block_before(dev, block, index)?;
        }
    }
}
