ghost use Rattle.std.specs.Prelude.{◌≡◌, ◌≤◌, ◌<◌, ◌+◌, ◌-◌, ◌*◌, ◌^◌, ◌++◌, ◌∷◌, [], length, take, replicate, OnOk, IfOk, IfErr};
ghost use Rattle.std.specs.Bool.{OnFalse, OnTrue};
ghost use Rattle.lfs_device.specs.DeviceCalls.{ChangesTheseBlocks, ChangesOneBlock, ReadsOnly, ReportsIoOrNoMemory, ReportsOnlyIo};
ghost use Rattle.lfs_file.specs.Counts.{WritesEachOnce};
ghost use Rattle.lfs_file.specs.Extending.{CanFinishList, CanPushBytes, CanResumeList, HasBufferedBytes, HasPushedBytes, IsResumedList, IsEmptyList};
ghost use Rattle.lfs_file.specs.FewReads.{FillsFew, ResumesFew, WritesLastFew};
ghost use Rattle.lfs_file.specs.Fields.{IsExtender, growing_view};
ghost use Rattle.lfs_file.specs.Finished.{ListHoldsBytes};
ghost use Rattle.lfs_file.specs.Growing.{IsAllBuffered, HasUnwrittenAmong, growing_blocks, fits_unwritten_block, growing_bytes, growing_size, appended_count, block_for_push, unwritten_block};
ghost use Rattle.lfs_model.specs.format.Blocks.{overwritten_at};
ghost use Rattle.lfs_model.specs.session.Writers.{written_contents as with_bytes};
ghost use Rattle.lfs_model.specs.format.SkipLists.{skip_list_block_count};
ghost use Rattle.lfs_file.specs.CallPremises.{CanFillBlock, CanWriteLastBlock};
ghost use Rattle.lfs_file.specs.BlockCalls.{FillsOneBlock, FinishCalls, HasFilledBlock, HasAppendedBlock};

use crate::block::{FullBlocks, write_block};
use crate::read::{find_block_at, pointer_count_at, read_into_range};
use crate::{RestLocation, blocks_for, place};
use lfs_device::{BlockDevice, Error, Geometry};
use std::alloc::Global;
use std::marker::Model;

/// A CTZ skip-list to which bytes can be appended (DESIGN.md of littlefs, "CTZ skip-lists"). The
/// caller passes in the blocks, and each block is programmed once it is full.
///
/// The extender buffers the bytes of one block. Short contents can be in the buffer alone, without
/// a block. The methods `replace_buffered`, `write_buffered_at` and `truncate_buffered` change such
/// contents, and `push` moves them into blocks.
///
/// In contracts, the value of an extender is the list so far: its full blocks, and the bytes after
/// them.
#[derive(Drop)]
pub struct Extender {
    // Each write moves the extender through several layers, so its fields are on the heap.
    state: Box<ExtenderState>,
}

// The fields of an extender.
#[derive(Drop)]
struct ExtenderState {
    geometry: Geometry,
    buffer: Vec<u8>,
    front: FullBlocks,
    filled: u32,
    size: u32,
    stand: RestLocation,
}

impl Model for Extender {
    ghost use Rattle.lfs_file.specs.Growing.{GrowingList};

    ghost Value = { GrowingList };

    ghost use Rattle.lfs_file.specs.FewReads.{FillsFew, WritesLastFew};
    ghost use Rattle.lfs_file.specs.Fields.{IsExtender, growing_view};

    ghost view = { λ e. growing_view e.state.value };

    ghost invariant = { λ e. IsExtender e.state.value };
}

// Overwrites the bytes of `all` that start at offset `at`.
fn overwrite_buffer_bytes(all: &mut Vec<u8>, at: usize, bytes: &[u8])
    requires { at + length bytes.now ≤ length all.old.items }
    ensures { all.new.items ≡ overwritten_at all.old.items at bytes.now }
{
    all[at..at + bytes.len()].copy_from_slice(bytes);
}

// Fills the bytes from offset `at` up to offset `end` with `byte`.
fn fill_buffer_range(all: &mut Vec<u8>, at: usize, end: usize, byte: u8)
    requires order { at ≤ end }
    requires within { end ≤ length all.old.items }
    ensures { all.new.items ≡ overwritten_at all.old.items at (replicate (end - at) byte) }
{
    all[at..end].fill(byte);
}

impl Extender {
    // Makes an extender from its fields.
    fn of_state(alloc: Global, state: ExtenderState) -> Result<Extender, Error>
        requires { IsExtender state }
        ensures list { IfOk result (λ list. list ≡ growing_view state) }
        ensures error { IfErr result (λ e. e ≡ Error.NoMemory) }
    {
        let state = Box::new(alloc, state)?;
        Ok(Extender { state })
    }

    /// Makes an extender for an empty list.
    ///
    /// Errors: `NoMemory` if memory for a block can't be allocated.
    #[inline(never)]
    pub fn start_empty(alloc: Global, geometry: Geometry) -> Result<Extender, Error>
        ensures started { IfOk result (IsEmptyList geometry) }
        ensures errors { IfErr result (λ e. e ≡ Error.NoMemory) }
    {
        let buffer = Vec::from_elem(alloc, 0u8, geometry.block_size as usize)?;
        let state = ExtenderState {
            geometry,
            buffer,
            front: FullBlocks::new(),
            filled: 0,
            size: 0,
            stand: RestLocation::Closed,
        };
        Extender::of_state(alloc, state)
    }

    /// Makes an extender for the first `keep` bytes of a list, where `keep` is from 1 to `size`.
    /// `head` is the list's last block, and `size` is the list's size in bytes. Requires a
    /// well-formed list.
    ///
    /// Errors: `NoMemory` if memory for a block can't be allocated. `Io` if a device call fails.
    pub fn resume<D: BlockDevice>(
        alloc: Global,
        dev: &mut D,
        head: u32,
        size: u32,
        keep: u32,
    ) -> Result<Extender, Error>
        requires { CanResumeList (D.blocks dev.old) (D.geometry dev.old).block_size head size keep }
        ensures resumed { IfOk result (IsResumedList (D.blocks dev.old) (D.geometry dev.old) head size keep) }
        ensures device { ReadsOnly D.BlockDevice dev.old dev.new }
        ensures few { OnOk result (ResumesFew (D.geometry dev.old).block_size size keep (D.history dev.old) (D.history dev.new)) }
        ensures reports { ReportsIoOrNoMemory D.BlockDevice dev.old dev.new result }
    {
        let geometry = dev.geometry();
        let block_size = geometry.block_size;
        let mut list = Extender::start_empty(alloc, geometry)?;
        let (index, off) = place(block_size, keep - 1);
        let block = find_block_at(dev, head, blocks_for(block_size, size) - 1, index)?;
        let state = &mut *list.state;
        state.size = keep;
        if off + 1 == block_size {
            state.front.count = index + 1;
            state.front.head = block;
            state.filled = 4 * pointer_count_at(index + 1);
            return Ok(list);
        }
        read_into_range(dev, block, 0, state.buffer.as_mut_slice(), 0, off + 1)?;
        state
            .front
            .begin_before_block(index, state.buffer.as_slice());
        state.filled = off + 1;
        state.stand = RestLocation::Shared(block);
        Ok(list)
    }

    /// Replaces the contents with `bytes`, which stay in memory without a block. Drops what the
    /// extender contained before.
    ///
    /// Requires that `bytes` is shorter than a block.
    pub fn replace_buffered(&mut self, bytes: &[u8])
        requires { length bytes.now < self.old.geometry.block_size }
        ensures { HasBufferedBytes self.old.geometry self.new bytes.now }
    {
        let state = &mut *self.state;
        overwrite_buffer_bytes(&mut state.buffer, 0, bytes);
        state.front = FullBlocks::new();
        state.filled = bytes.len() as u32;
        state.size = state.filled;
        state.stand = RestLocation::Held;
    }

    /// Returns the contents. Requires that all contents are in memory and none are in a block.
    pub fn buffered_content(&self) -> &[u8]
        requires { IsAllBuffered self.now }
        ensures { result.now ≡ self.now.rest }
    {
        let state = &*self.state;
        &state.buffer[..state.filled as usize]
    }

    /// Overwrites the contents with `bytes` from offset `at` on. If the offset is past the end of
    /// the contents, zeros fill the gap. Requires that all contents are in memory and none are in a
    /// block. The contents must stay shorter than a block.
    pub fn write_buffered_at(&mut self, at: u32, bytes: &[u8])
        requires held { IsAllBuffered self.old }
        requires room { at + length bytes.now < self.old.geometry.block_size }
        ensures { HasBufferedBytes self.old.geometry self.new (with_bytes self.old.rest at bytes.now) }
    {
        let state = &mut *self.state;
        let from = state.filled.max(at);
        fill_buffer_range(&mut state.buffer, state.filled as usize, from as usize, 0);
        overwrite_buffer_bytes(&mut state.buffer, at as usize, bytes);
        state.filled = state.filled.max(at + bytes.len() as u32);
        state.size = state.filled;
    }

    /// Truncates the contents to their first `len` bytes. Requires that all contents are in memory
    /// and none are in a block. The contents must have at least `len` bytes.
    pub fn truncate_buffered(&mut self, len: u32)
        requires held { IsAllBuffered self.old }
        requires within { len ≤ length self.old.rest }
        ensures { HasBufferedBytes self.old.geometry self.new (take len self.old.rest) }
    {
        let state = &mut *self.state;
        state.filled = len;
        state.size = len;
    }

    /// Returns the size of the list in bytes.
    pub fn size(&self) -> u32
        ensures { result ≡ growing_size self.now }
    {
        self.state.size
    }

    /// Returns the number of full blocks, which are all on the device.
    pub fn full_block_count(&self) -> u32
        ensures { result ≡ self.now.full }
    {
        self.state.front.count
    }

    /// Returns the number of blocks that a [`push`](Extender::push) of `n` bytes needs. The full
    /// blocks of a resumed list are shared with the old list. A resumed list's partial last block
    /// isn't shared but copied, so the number includes a block for the copy.
    ///
    /// Requires that `n` is at least 1 and that the list's size plus `n` is at most 2,147,483,647.
    pub fn needed(&self, n: u32) -> u32
        requires some { 1 ≤ n }
        requires room { growing_size self.now + n < 2 ^ 31 }
        ensures count { result ≡ appended_count self.now n }
        ensures within { self.now.full + length (unwritten_block self.now) ≤ skip_list_block_count self.now.geometry.block_size (growing_size self.now + n) }
    {
        let state = &*self.state;
        let begun = match state.stand {
            RestLocation::Handed(_) => 1,
            _ => 0,
        };
        // Bytes that fit in the partial block need no other block.
        if begun == 1 && n <= state.geometry.block_size - state.filled {
            return 0;
        }
        blocks_for(state.geometry.block_size, state.size + n) - (state.front.count + begun)
    }

    /// Appends bytes in memory and returns true if they fit in the buffered partial block without
    /// filling it. Otherwise, returns false and changes nothing.
    ///
    /// Requires that the list's size plus the number of bytes is at most 2,147,483,647.
    pub(crate) fn push_within_block(&mut self, bytes: &[u8]) -> bool
        requires { growing_size self.old + length bytes.now < 2 ^ 31 }
        ensures fits { result ≡ fits_unwritten_block self.old (length bytes.now) }
        ensures pushed { OnTrue result (self.new ≡ record self.old { rest = self.old.rest ++ bytes.now }) }
        ensures same { OnFalse result (self.new ≡ self.old) }
    {
        let state = &mut *self.state;
        let RestLocation::Handed(_) = state.stand else {
            return false;
        };
        if bytes.len() >= (state.geometry.block_size - state.filled) as usize {
            return false;
        }
        overwrite_buffer_bytes(&mut state.buffer, state.filled as usize, bytes);
        state.filled += bytes.len() as u32;
        state.size += bytes.len() as u32;
        true
    }

    // Returns the block for the next bytes, and the number of passed-in blocks that are then in
    // use.
    fn next_push_block(&self, blocks: &[u32], used: usize) -> (u32, usize)
        requires { unwritten_block self.now ≡ [] → used < length blocks.now }
        ensures { result ≡ block_for_push self.now.stand blocks.now used }
    {
        match self.state.stand {
            RestLocation::Handed(block) => (block, used),
            _ => (blocks[used], used + 1),
        }
    }

    // Buffers as many bytes as fit in the current block, and programs the block if it is full.
    // Returns the number of bytes that were buffered.
    fn fill_current_block<D: BlockDevice>(
        &mut self,
        dev: &mut D,
        bytes: &[u8],
        block: u32,
    ) -> Result<usize, Error>
        requires { CanFillBlock D.BlockDevice dev.old self.old block (length bytes.now) }
        ensures filled { IfOk result (λ n. HasFilledBlock (D.blocks dev.old) (D.blocks dev.new) self.old self.new block n bytes.now) }
        ensures calls { OnOk result (FillsOneBlock self.old self.new (D.history dev.old) (D.history dev.new)) }
        ensures waits { OnOk result (HasUnwrittenAmong (block ∷ []) self.new) }
        ensures device { ChangesOneBlock D.BlockDevice block dev.old dev.new }
        ensures io { ReportsOnlyIo D.BlockDevice dev.old dev.new result }
    {
        let state = &mut *self.state;
        let block_size = state.geometry.block_size;
        let start = state.filled as usize;
        let n = bytes.len().min(block_size as usize - start);
        overwrite_buffer_bytes(&mut state.buffer, start, &bytes[..n]);
        if start + n < block_size as usize {
            state.filled += n as u32;
            state.size += n as u32;
            state.stand = RestLocation::Handed(block);
            return Ok(n);
        }
        let buffer = state.buffer.as_mut_slice();
        write_block(dev, &mut state.front, block, buffer, block_size)?;
        state.front.add(block);
        state.filled = 4 * pointer_count_at(state.front.count);
        state.size += n as u32;
        state.stand = RestLocation::Closed;
        Ok(n)
    }

    /// Appends bytes in the blocks that are passed in. Each block is erased and programmed once it
    /// is full.
    ///
    /// Requires at least one byte, and exactly as many blocks as [`needed`](Extender::needed)
    /// returns. The block numbers must differ from each other, be below the device's number of
    /// blocks, and not belong to the list. The device must hold the list as the extender's last
    /// call left it. The extended list must have at most 2,147,483,647 bytes.
    ///
    /// Errors: `Io` if a device call fails. After an error, the extender can only be dropped.
    pub fn push<D: BlockDevice>(
        &mut self,
        dev: &mut D,
        bytes: &[u8],
        blocks: &[u32],
    ) -> Result<(), Error>
        requires { CanPushBytes D.BlockDevice dev.old self.old bytes.now blocks.now }
        ensures pushed { OnOk result (HasPushedBytes (D.blocks dev.old) self.old bytes.now blocks.now (D.blocks dev.new) self.new) }
        // A block that becomes full is erased once and programmed once.
        ensures writes { OnOk result (WritesEachOnce self.old.full self.new.full (D.history dev.old) (D.history dev.new)) }
        ensures few { OnOk result (FillsFew self.old self.new (D.history dev.old) (D.history dev.new)) }
        ensures device { ChangesTheseBlocks D.BlockDevice (unwritten_block self.old ++ blocks.now) dev.old dev.new }
        ensures io { ReportsOnlyIo D.BlockDevice dev.old dev.new result }
    {
        let mut done = 0;
        let mut used = 0;
        while done < bytes.len() {
            let (block, taken) = self.next_push_block(blocks, used);
            done += self.fill_current_block(dev, &bytes[done..], block)?;
            used = taken;
        }
        Ok(())
    }

    // Pads the current block to whole pages and programs it.
    fn write_last_block<D: BlockDevice>(&mut self, dev: &mut D, block: u32) -> Result<(), Error>
        requires { CanWriteLastBlock D.BlockDevice dev.old self.old block }
        ensures block { OnOk result (HasAppendedBlock (D.blocks dev.old) (D.blocks dev.new) self.old.full self.old.head block (length self.old.rest) self.old.rest) }
        ensures writes { OnOk result (WritesEachOnce 0 1 (D.history dev.old) (D.history dev.new)) }
        ensures few { OnOk result (WritesLastFew self.old (D.history dev.old) (D.history dev.new)) }
        ensures device { ChangesOneBlock D.BlockDevice block dev.old dev.new }
        ensures io { ReportsOnlyIo D.BlockDevice dev.old dev.new result }
    {
        let state = &mut *self.state;
        let end = state.filled.next_multiple_of(state.geometry.page);
        fill_buffer_range(&mut state.buffer, state.filled as usize, end as usize, 0xff);
        let buffer = state.buffer.as_mut_slice();
        write_block(dev, &mut state.front, block, buffer, end)?;
        Ok(())
    }

    /// Ends the list and programs its partial last block if there is one. Returns the address of
    /// the list's last block, and the list's size in bytes. If nothing was pushed since
    /// [`resume`](Extender::resume), the last block belongs to the old list.
    ///
    /// Requires that the list has at least one byte and isn't in the buffer alone. The device must
    /// hold the list as the extender's last call left it.
    ///
    /// Errors: `Io` if a device call fails.
    pub fn finish<D: BlockDevice>(mut self, dev: &mut D) -> Result<(u32, u32), Error>
        requires { CanFinishList D.BlockDevice dev.old self }
        ensures finished { IfOk result (λ r. ListHoldsBytes (D.blocks dev.new) self.geometry.block_size r.0 r.1 (growing_bytes (D.blocks dev.old) self) (growing_blocks (D.blocks dev.old) self)) }
        ensures size { IfOk result (λ r. r.1 ≡ growing_size self) }
        ensures calls { FinishCalls self (D.blocks dev.old) (D.blocks dev.new) (D.history dev.old) (D.history dev.new) result }
        ensures device { ChangesTheseBlocks D.BlockDevice (unwritten_block self) dev.old dev.new }
        ensures io { ReportsOnlyIo D.BlockDevice dev.old dev.new result }
    {
        let state = &*self.state;
        let head = state.front.head;
        let size = state.size;
        match state.stand {
            RestLocation::Closed => Ok((head, size)),
            RestLocation::Held => Ok((head, size)),
            RestLocation::Shared(block) => Ok((block, size)),
            RestLocation::Handed(block) => {
                self.write_last_block(dev, block)?;
                Ok((block, size))
            }
        }
    }
}
