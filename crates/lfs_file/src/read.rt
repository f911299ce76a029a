ghost use Rattle.std.specs.Prelude.{◌≡◌, ◌≤◌, ◌<◌, ◌+◌, ◌*◌, ◌^◌, ℕ, ◌-◌, ◌++◌, min, length, take, drop, OnOk, IfOk, IsErrOf, slice_index, slice_range};
ghost use Rattle.lfs_model.specs.format.Blocks.{block_bytes};
ghost use Rattle.lfs_device.specs.DeviceCalls.{ReadsOnlyOrIo};
ghost use Rattle.lfs_model.specs.session.History.{read_count};
ghost use Rattle.lfs_file.specs.FileCalls.{ReadsOrCorrupt};
ghost use Rattle.lfs_file.specs.Known.{WalksFew};
ghost use Rattle.lfs_model.specs.format.SkipLists.{AreListBlocks, IsSkipList, IsByteInListBlock, blocks_to_head, skip_list_block_count, list_bytes, pointer_count, word_at};

use crate::known::IndexCache;
use byteorder::{ByteOrder, LittleEndian};
use lfs_device::{BlockDevice, Error};

// Returns pointer `k` of a block, or `Corrupt` if the device has no such block.
pub(crate) fn read_block_pointer<D: BlockDevice>(
    dev: &mut D,
    block: u32,
    k: u32,
) -> Result<u32, Error>
    requires { k ≤ 32 }
    ensures word { IfOk result (λ word. word ≡ word_at (block_bytes (D.blocks dev.old) block) (4 * k)) }
    ensures in_range { OnOk result (block < (D.geometry dev.old).block_count) }
    ensures corrupt { IsErrOf result Error.Corrupt → (D.geometry dev.old).block_count ≤ block }
    ensures reading { ReadsOrCorrupt D.BlockDevice dev.old dev.new result }
    ensures few { read_count (D.history dev.new) ≤ read_count (D.history dev.old) + 1 }
{
    if block >= dev.geometry().block_count {
        return Err(Error::Corrupt);
    }
    let mut word = [0; 4];
    dev.read(block, 4 * k, &mut word)?;
    Ok(LittleEndian::read_u32(&word))
}

// Returns the block at an index of a list whose head is at the index `last`.
pub(crate) fn find_block_at<D: BlockDevice>(
    dev: &mut D,
    head: u32,
    last: u32,
    index: u32,
) -> Result<u32, Error>
    requires { index ≤ last }
    ensures found { AreListBlocks (D.blocks dev.old) (last + 1) head → IfOk result (λ b. b ≡ slice_index (blocks_to_head (D.blocks dev.old) (last + 1) head) index) }
    ensures in_range { IfOk result (λ b. b < (D.geometry dev.old).block_count) }
    ensures corrupt { IsErrOf result Error.Corrupt → ¬ AreListBlocks (D.blocks dev.old) (last + 1) head }
    ensures reading { ReadsOrCorrupt D.BlockDevice dev.old dev.new result }
    ensures few { OnOk result (WalksFew last index (D.history dev.old) (D.history dev.new)) }
{
    IndexCache::new().find_block(dev, head, last, index)
}

// Returns the block to which pointer 0 of a block refers, or `Corrupt` if the device has no such
// block.
pub(crate) fn read_block_before<D: BlockDevice>(dev: &mut D, block: u32) -> Result<u32, Error>
    requires { block < (D.geometry dev.old).block_count }
    ensures word { IfOk result (λ word. word ≡ word_at (block_bytes (D.blocks dev.old) block) 0) }
    ensures in_range { IfOk result (λ b. b < (D.geometry dev.old).block_count) }
    ensures corrupt { IsErrOf result Error.Corrupt → (D.geometry dev.old).block_count ≤ word_at (block_bytes (D.blocks dev.old) block) 0 }
    ensures reading { ReadsOrCorrupt D.BlockDevice dev.old dev.new result }
    ensures few { read_count (D.history dev.new) ≤ read_count (D.history dev.old) + 1 }
{
    let word = read_block_pointer(dev, block, 0)?;
    if word >= dev.geometry().block_count {
        return Err(Error::Corrupt);
    }
    Ok(word)
}

/// Returns the block before `block` in a list, to which pointer 0 of `block` refers. `count` is the
/// number of blocks before `block`. If `count` is 0, returns 0 without a read.
///
/// Errors: `Corrupt` if the pointer refers to a block outside the device. `Io` if a device call
/// fails.
pub fn head_before_block<D: BlockDevice>(dev: &mut D, block: u32, count: u32) -> Result<u32, Error>
    requires { block < (D.geometry dev.old).block_count }
    ensures word { IfOk result (λ word. 0 < count → word ≡ word_at (block_bytes (D.blocks dev.old) block) 0) }
    ensures in_range { IfOk result (λ b. b < (D.geometry dev.old).block_count) }
    ensures corrupt { IsErrOf result Error.Corrupt → (0 < count) × ((D.geometry dev.old).block_count ≤ word_at (block_bytes (D.blocks dev.old) block) 0) }
    ensures reading { ReadsOrCorrupt D.BlockDevice dev.old dev.new result }
    ensures few { read_count (D.history dev.new) ≤ read_count (D.history dev.old) + 1 }
{
    if count == 0 {
        return Ok(0);
    }
    let head = read_block_before(dev, block)?;
    Ok(head)
}

// Returns the number of pointers with which the list's block at an index begins.
pub(crate) fn pointer_count_at(index: u32) -> u32
    ensures { result ≡ pointer_count index }
{
    if index == 0 {
        0
    } else {
        index.trailing_zeros() + 1
    }
}

// Reads `len` bytes of a block, starting at offset `off`, into the buffer at `start`.
pub(crate) fn read_into_range<D: BlockDevice>(
    dev: &mut D,
    block: u32,
    off: u32,
    buf: &mut [u8],
    start: usize,
    len: u32,
) -> Result<(), Error>
    requires in_device { block < (D.geometry dev.old).block_count }
    requires in_block { off + len ≤ (D.geometry dev.old).block_size }
    requires in_buffer { start + len ≤ length buf.old }
    ensures bytes { OnOk result (buf.new ≡ take start buf.old ++ (take len (drop off (block_bytes (D.blocks dev.old) block)) ++ drop (start + len) buf.old)) }
    ensures reading { ReadsOnlyOrIo D.BlockDevice dev.old dev.new result }
    ensures few { read_count (D.history dev.new) ≡ read_count (D.history dev.old) + 1 }
{
    dev.read(block, off, &mut buf[start..start + len as usize])?;
    Ok(())
}

/// Reads a file's bytes from position `pos` on into the buffer, as many as the buffer and the
/// file's `size` allow. Returns the number of bytes that were read. The last block of the file's
/// list is `head`.
///
/// The walk to the last block of the read follows the longest pointers that don't overshoot
/// (DESIGN.md of littlefs, "CTZ skip-lists"). For each earlier block of the read, one pointer is
/// read.
///
/// Errors: `Corrupt` if a pointer refers to a block outside the device, which never happens in a
/// well-formed list. `Io` if a device call fails. After an error, the buffer may contain any bytes.
/// If the list isn't well formed, the call may also return Ok with any bytes.
pub fn read_at<D: BlockDevice>(
    dev: &mut D,
    head: u32,
    size: u32,
    pos: u32,
    buf: &mut [u8],
) -> Result<usize, Error>
    ensures count { IfOk result (λ n. (n ≡ min (length buf.old) (size - pos)) × (drop n buf.new ≡ drop n buf.old)) }
    ensures bytes { IsSkipList (D.blocks dev.old) (D.geometry dev.old).block_size head size →
        IfOk result (λ n. take n buf.new ≡ slice_range (list_bytes (D.blocks dev.old) (D.geometry dev.old).block_size head size) pos (pos + n)) }
    ensures corrupt { IsErrOf result Error.Corrupt → ¬ IsSkipList (D.blocks dev.old) (D.geometry dev.old).block_size head size }
    ensures reading { ReadsOrCorrupt D.BlockDevice dev.old dev.new result }
    // The walk costs at most twice as many reads as the binary logarithm of the list's number of
    // blocks, rounded up. After the walk, each block costs at most two reads.
    ensures few { (m first last off end : ℕ) → skip_list_block_count (D.geometry dev.old).block_size size ≤ 2 ^ m
        → IsByteInListBlock (D.geometry dev.old).block_size pos first off
        → IsByteInListBlock (D.geometry dev.old).block_size (pos + min (length buf.old) (size - pos) - 1) last end
        → OnOk result (read_count (D.history dev.new) ≤ read_count (D.history dev.old) + 2 * m + 2 * (last - first) + 1) }
{
    IndexCache::new().read_at(dev, head, size, pos, buf)
}
