ghost use Rattle.std.specs.Prelude.{◌≡◌, ◌≤◌, ◌<◌, ◌↔◌, ◌%◌, ℕ, Some, length, replicate, slice_get, slice_set, IsTrue, IfErr, IfNone, IfOk, IfSome};
ghost use Rattle.std.specs.Bool.{OnFalse, OnTrue};
ghost use Rattle.lfs_model.specs.layers.BlockSets.{IsFree, IsInFlight, IsUsedBlock, used_count};
ghost use Rattle.lfs_model.specs.layers.BlockSets.BlockState.{Free, InFlight, Used};
ghost use Rattle.lfs_blocks.specs.Marks.{use_view};
ghost use Rattle.lfs_blocks.specs.Next.{IsNextFree};

use crate::marks::{BlockUse, Marks};
use lfs_device::Error;
use std::alloc::Global;
use std::marker::Model;

/// The state of each block of a device: free, used or in flight. A block in flight is allocated,
/// but no commit refers to it yet. The map serves the purpose of littlefs's lookahead buffer, but
/// covers all blocks at once (DESIGN.md of littlefs, "The block allocator").
///
/// In contracts, the map is the list of the blocks' states, indexed by block number.
#[derive(Drop)]
pub struct BlockMap {
    marks: Vec<Marks>,
    block_count: u32,
    used_count: u32,
    // The number at which the next search for a free block begins, modulo the number of blocks.
    next: u32,
}

impl Model for BlockMap {
    ghost use Rattle.std.specs.Prelude.{List};
    ghost use Rattle.lfs_model.specs.layers.BlockSets.{BlockState};
    ghost use Rattle.lfs_blocks.specs.BlockMap.{MarksCountUsed, marks_states};

    ghost Value = { List BlockState };

    ghost view = { λ map. marks_states map.marks.items map.block_count };

    ghost invariant = { λ map. MarksCountUsed map.marks.items map.block_count map.used_count };
}

impl BlockMap {
    /// Makes a map of `block_count` blocks, all of them free. Allocates 16 bytes for every 64
    /// blocks. No other method allocates memory.
    ///
    /// Errors: `NoMemory` if memory can't be allocated.
    pub fn new(alloc: Global, block_count: u32) -> Result<BlockMap, Error>
        ensures free { IfOk result (λ map. map ≡ replicate block_count Free) }
        ensures error { IfErr result (λ e. e ≡ Error.NoMemory) }
    {
        let marks = Vec::from_elem(alloc, Marks::all_free(), block_count.div_ceil(64) as usize)?;
        Ok(BlockMap {
            marks,
            block_count,
            used_count: 0,
            next: 0,
        })
    }

    /// Returns the number of blocks in the map.
    pub fn block_count(&self) -> u32
        ensures { result ≡ length self.now }
    {
        self.block_count
    }

    /// Returns whether a block is used. A block in flight isn't used. Requires a block number below
    /// [`block_count`](BlockMap::block_count).
    pub fn is_used(&self, block: u32) -> bool
        requires { block < length self.now }
        ensures { IsTrue result ↔ IsUsedBlock self.now block }
    {
        self.state(block).is_used()
    }

    /// Returns whether a block is in flight. Requires a block number below
    /// [`block_count`](BlockMap::block_count).
    pub fn is_in_flight(&self, block: u32) -> bool
        requires { block < length self.now }
        ensures { IsTrue result ↔ IsInFlight self.now block }
    {
        self.state(block).is_in_flight()
    }

    /// Returns whether a block is free. Requires a block number below
    /// [`block_count`](BlockMap::block_count).
    pub fn is_free(&self, block: u32) -> bool
        requires { block < length self.now }
        ensures { IsTrue result ↔ IsFree self.now block }
    {
        self.state(block) == BlockUse::Free
    }

    /// Returns the number of used blocks, not counting blocks in flight.
    pub fn used_count(&self) -> u32
        ensures { result ≡ used_count self.now }
    {
        self.used_count
    }

    /// Marks a free block as used and returns true. If the block isn't free, returns false and
    /// changes nothing.
    pub fn mark(&mut self, block: u32) -> bool
        requires { block < length self.old }
        ensures free { IsTrue result ↔ IsFree self.old block }
        ensures marked { OnTrue result (self.new ≡ slice_set self.old block Used) }
        ensures same { OnFalse result (self.new ≡ self.old) }
    {
        let is_free = self.state(block) == BlockUse::Free;
        if is_free {
            self.set_block_state(block, BlockUse::Used);
        }
        is_free
    }

    /// Allocates a free block, which is in flight until it is settled or released. Returns None if
    /// and only if no block is free.
    ///
    /// The search for a free block begins at [`next_start`](BlockMap::next_start) and wraps around
    /// after the last block.
    pub fn take(&mut self) -> Option<u32>
        ensures was_free { IfSome result (IsFree self.old) }
        ensures taken { IfSome result (λ block. self.new ≡ slice_set self.old block InFlight) }
        ensures none { IfNone result ((block : ℕ) → ¬ (IsFree self.old block)) }
        ensures same { IfNone result (self.new ≡ self.old) }
    {
        let number = self.next;
        self.take_from(number)
    }

    /// Allocates the first free block at or after `number`, modulo the number of blocks. The search
    /// wraps around after the last block. Returns None if and only if no block is free.
    pub fn take_from(&mut self, number: u32) -> Option<u32>
        ensures next { IfSome result (IsNextFree self.old (number % length self.old)) }
        ensures taken { IfSome result (λ block. self.new ≡ slice_set self.old block InFlight) }
        ensures none { IfNone result ((block : ℕ) → ¬ (IsFree self.old block)) }
        ensures same { IfNone result (self.new ≡ self.old) }
    {
        let block = self.next_free(number)?;
        self.set_block_state(block, BlockUse::InFlight);
        self.next = block + 1;
        Some(block)
    }

    /// Makes the next search of [`take`](BlockMap::take) begin at the first free block at or after
    /// `number`, modulo the number of blocks. Returns the first free block without allocating it,
    /// and changes no block's state. If no block is free, returns None, and the search begins at
    /// `number`.
    pub fn start_search_at(&mut self, number: u32) -> Option<u32>
        ensures next { IfSome result (IsNextFree self.old (number % length self.old)) }
        ensures none { IfNone result ((block : ℕ) → ¬ (IsFree self.old block)) }
        ensures same { self.new ≡ self.old }
    {
        let block = self.next_free(number);
        self.next = block.unwrap_or(number);
        block
    }

    /// Returns the number at which the next search of [`take`](BlockMap::take) begins, modulo the
    /// number of blocks. The search begins after the block that `take` or `take_from` allocated
    /// last, unless [`start_search_at`](BlockMap::start_search_at) has moved its start.
    pub fn next_start(&self) -> u32 {
        self.next
    }

    /// Allocates the free block `block`, which is then in flight. Doesn't change where the next
    /// search of [`take`](BlockMap::take) begins.
    pub fn take_at(&mut self, block: u32)
        requires { IsFree self.old block }
        ensures { self.new ≡ slice_set self.old block InFlight }
    {
        self.set_block_state(block, BlockUse::InFlight);
    }

    /// Makes a block free, whatever its state is.
    pub fn release(&mut self, block: u32)
        requires { block < length self.old }
        ensures { self.new ≡ slice_set self.old block Free }
    {
        self.set_block_state(block, BlockUse::Free);
    }

    /// Marks a block in flight as used. Callers settle a block once a commit refers to it.
    pub fn settle(&mut self, block: u32)
        requires { IsInFlight self.old block }
        ensures { self.new ≡ slice_set self.old block Used }
    {
        self.set_block_state(block, BlockUse::Used);
    }

    fn state(&self, block: u32) -> BlockUse
        requires { block < length self.now }
        ensures { slice_get self.now block ≡ Some (use_view result) }
    {
        self.marks[block as usize / 64].state(block % 64)
    }

    fn set_block_state(&mut self, block: u32, state: BlockUse)
        requires { block < length self.old }
        ensures { self.new ≡ slice_set self.old block (use_view state) }
    {
        let marks = &mut self.marks[block as usize / 64];
        let was = marks.state(block % 64);
        *marks = marks.with_state(block % 64, state);
        self.used_count -= u32::from(was.is_used());
        self.used_count += u32::from(state.is_used());
    }

    // Returns the first free block at or after `number`, modulo the number of blocks. Wraps around
    // after the last block.
    fn next_free(&self, number: u32) -> Option<u32>
        ensures next { IfSome result (IsNextFree self.now (number % length self.now)) }
        ensures not_last { IfSome result (λ block. block < u32.MAX) }
        ensures none { IfNone result ((block : ℕ) → ¬ (IsFree self.now block)) }
    {
        if self.block_count == 0 {
            return None;
        }
        match self.first_free_from(number % self.block_count) {
            Some(block) => Some(block),
            None => self.first_free_from(0),
        }
    }

    // Returns the first free block at or after `start`, without wrapping around.
    fn first_free_from(&self, start: u32) -> Option<u32>
        requires { start ≤ length self.now }
        ensures found { IfSome result (IsFree self.now) }
        ensures behind { IfSome result (λ found. start ≤ found) }
        ensures first { IfSome result (λ found. (block : ℕ) → start ≤ block → block < found → ¬ (IsFree self.now block)) }
        ensures not_last { IfSome result (λ block. block < u32.MAX) }
        ensures none { IfNone result ((block : ℕ) → start ≤ block → ¬ (IsFree self.now block)) }
    {
        let block_count = self.block_count as usize;
        let mut place = start % 64;
        for index in start as usize / 64..self.marks.len() {
            if let Some(free) = self.marks[index].first_free(place) {
                let block = index * 64 + free as usize;
                return if block < block_count {
                    Some(block as u32)
                } else {
                    None
                };
            }
            place = 0;
        }
        None
    }
}
