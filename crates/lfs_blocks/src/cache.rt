ghost use Rattle.std.specs.Prelude.{◌≡◌, ◌⊎◌, ◌<◌, ◌≤◌, ◌+◌, ℕ, List, [], is_some, length, slice_range, unwrap_or, IfErr, IfOk, IfSome, None, OnErr, OnOk, option_copied, option_map, true, IfNone};
ghost use Rattle.std.specs.Bool.{OnFalse, OnTrue};
ghost use Rattle.std.specs.Borrow.{sem};
ghost use Rattle.std.specs.Option.{option_copied_mut};
ghost use Rattle.lfs_model.specs.format.Blocks.{block_bytes};
ghost use Rattle.lfs_model.specs.layers.Cache.{cache_limit, cached_bytes, cache_with, cache_without};
ghost use Rattle.lfs_device.specs.DeviceCalls.{ReadsOnlyOrIo, ReadsOnlyOrNoMemory, ReadsOnly, ReportsFaults};
ghost use Rattle.lfs_model.specs.session.History.{read_count};
ghost use Rattle.lfs_model.specs.layers.BlockSets.{IsUsedBlock};
ghost use Rattle.lfs_blocks.specs.UsedBlocks.{AreCachedUsed, KeepsUsed};
ghost use Rattle.lfs_blocks.specs.BlockReads.{ReadsUnlessCached, ReadsOnceUncached};

use crate::block_map::BlockMap;
use lfs_device::{BlockDevice, Error, read_block};
use lru::LruCache;
use std::alloc::Global;
use std::marker::Model;
use std::num::NonZeroUsize;

/// A cache of at most eight blocks of a device, each with the bytes that it had when it was read.
///
/// In contracts, the cache is a list of block numbers and their bytes, with the most recent block
/// first. The cache doesn't notice changes to the device. Before programming or erasing a block, a
/// caller must call [`Cache::forget`] or write the same bytes through [`Cache::lend_mut`].
#[derive(Drop)]
pub struct Cache {
    alloc: Global,
    recent: LruCache<u32, Vec<u8>>,
}

impl Model for Cache {
    ghost use Rattle.std.specs.Prelude.{ℕ, List};
    ghost use Rattle.lfs_blocks.specs.CacheView.{CachesAtMostEight, cached_view};

    ghost Value = { List (ℕ × List ℕ) };

    ghost view = { λ cache. cached_view cache.recent.entries };

    ghost invariant = { λ cache. CachesAtMostEight cache.recent };
}

impl Cache {
    ghost use Rattle.lfs_blocks.specs.CacheLends.{lends_block};

    /// Makes an empty cache with memory for eight entries.
    ///
    /// Errors: `NoMemory` if memory can't be allocated.
    pub fn new(alloc: Global) -> Result<Cache, Error>
        ensures empty { IfOk result (λ cache. cache ≡ []) }
        ensures error { IfErr result (λ e. e ≡ Error.NoMemory) }
    {
        let capacity = NonZeroUsize::new(8).unwrap();
        let recent = LruCache::new(alloc, capacity)?;
        Ok(Cache { alloc, recent })
    }

    /// Makes `block` the most recent block of the cache. A block that isn't cached is read whole,
    /// with one read of the device. If the cache already has eight other blocks, it evicts the
    /// least recent one. For a cached block, `fill` reads and allocates nothing. Requires a block
    /// number below the device's number of blocks.
    ///
    /// Errors: `Io` if the read fails. `NoMemory` if memory for the block can't be allocated. After
    /// an error, the cache is unchanged.
    pub fn fill<D: BlockDevice>(&mut self, device: &mut D, block: u32) -> Result<(), Error>
        requires { block < (D.geometry device.old).block_count }
        ensures filled { OnOk result (self.new
            ≡ cache_with self.old block (unwrap_or (cached_bytes self.old block) (block_bytes (D.blocks device.old) block))) }
        ensures err { OnErr result (self.new ≡ self.old) }
        ensures few { length self.new ≤ cache_limit }
        ensures calls { ReadsUnlessCached D.BlockDevice (cached_bytes self.old block) block device.old device.new result }
        ensures reading { ReadsOnlyOrNoMemory D.BlockDevice device.old device.new result }
    {
        if self.promote(block) {
            return Ok(());
        }
        let bytes = read_block(self.alloc, device, block)?;
        self.add_uncached_block(block, bytes)?;
        Ok(())
    }

    /// Fills the buffer with the bytes of a block, starting at `offset`. If the block is cached,
    /// `read` neither calls the device nor changes the cache. Otherwise, the whole block is read
    /// with one read of the device and becomes the most recent block of the cache. If memory for
    /// the block can't be allocated, only the requested bytes are read, and the cache doesn't
    /// change.
    ///
    /// Requires a block number below the device's number of blocks, and a range within the block.
    /// If the block is cached, its cached bytes must equal the bytes on the device.
    ///
    /// Errors: `Io` if the read fails.
    pub fn read<D: BlockDevice>(
        &mut self,
        device: &mut D,
        block: u32,
        offset: u32,
        buf: &mut [u8],
    ) -> Result<(), Error>
        requires inside { (block < (D.geometry device.old).block_count) × (offset + length buf.old ≤ (D.geometry device.old).block_size) }
        requires current { IfSome (cached_bytes self.old block) (λ bytes. bytes ≡ block_bytes (D.blocks device.old) block) }
        ensures bytes { OnOk result (buf.new ≡ slice_range (block_bytes (D.blocks device.old) block) offset (offset + length buf.old)) }
        ensures cached { (self.new ≡ self.old) ⊎ (self.new ≡ cache_with self.old block (block_bytes (D.blocks device.old) block)) }
        ensures few { ReadsOnceUncached D.BlockDevice (cached_bytes self.old block) device.old device.new }
        ensures reading { ReadsOnlyOrIo D.BlockDevice device.old device.new result }
    {
        if let Some(bytes) = self.lend(block) {
            copy_range(bytes, offset, buf);
            return Ok(());
        }
        match read_block(self.alloc, device, block) {
            Ok(bytes) => {
                copy_range(&bytes, offset, buf);
                self.keep(block, bytes);
                Ok(())
            }
            Err(Error::NoMemory) => read_range(device, block, offset, buf),
            Err(error) => Err(error),
        }
    }

    /// Borrows the bytes of a cached block without making it more recent. Returns None if the block
    /// isn't cached.
    pub fn lend(&self, block: u32) -> Option<&[u8]>
        ensures { option_copied result ≡ cached_bytes self.now block }
    {
        match self.recent.peek(&block) {
            Some(bytes) => Some(bytes.as_slice()),
            None => None,
        }
    }

    /// Mutably borrows the bytes of a cached block without making it more recent. Returns None if
    /// the block isn't cached.
    pub fn lend_mut(&mut self, block: u32) -> Option<&mut Vec<u8>>
        ensures* lends { sem 𝓛 (lends_block self.entry block result) }
        ensures bytes { option_map (λ v. v.items) (option_copied_mut result) ≡ cached_bytes self.old block }
    {
        self.recent.peek_mut(&block)
    }

    /// Removes a block from the cache if it is cached. Doesn't call the device or allocate memory.
    pub fn forget(&mut self, block: u32)
        ensures { self.new ≡ cache_without self.old block }
    {
        self.recent.pop(&block);
    }

    /// Removes all blocks from the cache. Doesn't call the device or allocate memory.
    pub fn clear(&mut self)
        ensures { self.new ≡ [] }
    {
        self.recent.clear();
    }

    /// Removes all blocks from the cache that `map` doesn't mark as used. Doesn't call the device
    /// or allocate memory.
    pub fn forget_unused(&mut self, map: &BlockMap)
        ensures { KeepsUsed map.now self.old self.new }
    {
        for _ in 0..8 {
            match self.find_unused(map) {
                Some(block) => self.forget(block),
                None => return,
            }
        }
        self.clear();
    }

    // Returns a cached block that `map` doesn't mark as used, if there is one.
    fn find_unused(&self, map: &BlockMap) -> Option<u32>
        ensures { IfNone result (AreCachedUsed map.now self.now) }
    {
        for entry in self.recent.iter() {
            if !is_used_among(map, *entry.0) {
                return Some(*entry.0);
            }
        }
        None
    }

    // Caches a block with these bytes as the most recent one, if memory for its entry can be
    // allocated. If the cache already has eight blocks, evicts the least recent one. Requires that
    // the block isn't cached.
    fn keep(&mut self, block: u32, bytes: Vec<u8>)
        requires { cached_bytes self.old block ≡ None }
        ensures { (self.new ≡ self.old) ⊎ (self.new ≡ cache_with self.old block bytes.items) }
    {
        match self.add_uncached_block(block, bytes) {
            Ok(()) => {}
            Err(_) => {}
        }
    }

    // Makes a block the most recent one if it is cached. Returns whether the block is cached.
    fn promote(&mut self, block: u32) -> bool
        ensures cached_log { result ≡ is_some (cached_bytes self.old block) }
        ensures first { OnTrue result ((other : List ℕ) → self.new ≡ cache_with self.old block (unwrap_or (cached_bytes self.old block) other)) }
        ensures same { OnFalse result (self.new ≡ self.old) }
        ensures few { length self.new ≤ cache_limit }
    {
        self.recent.promote(&block)
    }

    // Caches a block as the most recent one. If the cache already has eight blocks, evicts the
    // least recent one. Requires that the block isn't cached.
    fn add_uncached_block(&mut self, block: u32, bytes: Vec<u8>) -> Result<(), Error>
        requires { cached_bytes self.old block ≡ None }
        ensures first { OnOk result (self.new ≡ cache_with self.old block bytes.items) }
        ensures err { OnErr result (self.new ≡ self.old) }
        ensures few { length self.new ≤ cache_limit }
        ensures error { IfErr result (λ e. e ≡ Error.NoMemory) }
    {
        self.recent.put(block, bytes)?;
        Ok(())
    }
}

// Returns whether the map includes this block and marks it as used.
fn is_used_among(map: &BlockMap, block: u32) -> bool
    ensures { result ≡ true → IsUsedBlock map.now block }
{
    block < map.block_count() && map.is_used(block)
}

// Fills the buffer with the bytes that start at `offset`.
fn copy_range(bytes: &[u8], offset: u32, buf: &mut [u8])
    requires { offset + length buf.old ≤ length bytes.now }
    ensures { buf.new ≡ slice_range bytes.now offset (offset + length buf.old) }
{
    let start = offset as usize;
    let end = start + buf.len();
    buf.copy_from_slice(&bytes[start..end]);
}

// Fills the buffer with the bytes of a block on the device, starting at `offset`.
fn read_range<D: BlockDevice>(
    device: &mut D,
    block: u32,
    offset: u32,
    buf: &mut [u8],
) -> Result<(), Error>
    requires inside { (block < (D.geometry device.old).block_count) × (offset + length buf.old ≤ (D.geometry device.old).block_size) }
    ensures bytes { OnOk result (buf.new ≡ slice_range (block_bytes (D.blocks device.old) block) offset (offset + length buf.old)) }
    ensures few { read_count (D.history device.new) ≡ read_count (D.history device.old) + 1 }
    ensures device { ReadsOnly D.BlockDevice device.old device.new }
    ensures faults { ReportsFaults D.BlockDevice device.old device.new result }
    ensures errors { IfErr result (λ e. e ≡ Error.Io) }
{
    device.read(block, offset, buf)?;
    Ok(())
}
