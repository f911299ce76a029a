ghost use Rattle.std.specs.Prelude.{ℕ, ◌+◌, ◌≤◌, if◌then◌else◌, None, Some, ◌↔◌, IfOk, ◌≡◌, IsTrue, true, ◌<◌, length, false, is_err, [], replicate, slice_set, IfErr, IfNone, IfSome, IsSome, OnOk, ◌-◌, min, take, drop, slice_range};
ghost use Rattle.std.specs.Option.{option_map};
ghost use Rattle.lfs_model.specs.format.Content.{current_block};
ghost use Rattle.lfs_model.specs.format.Disk.{disk_with_order};
ghost use Rattle.lfs_model.specs.layers.BlockSets.{IsFree, IsInFlight, IsUsedBlock, used_count};
ghost use Rattle.lfs_model.specs.layers.BlockSets.BlockState.{Free, InFlight};
ghost use Rattle.lfs_file.specs.Known.{AreKnownBlocks, ReadsKnownList};
ghost use Rattle.lfs_model.specs.tree.Shown.{struct_blocks};
ghost use Rattle.lfs_model.specs.format.SkipLists.{IsSkipList, list_bytes};
ghost use Rattle.lfs_model.specs.session.History.{read_count};
ghost use Rattle.lfs_model.specs.format.Slots.{Ctz, address_of_array};
ghost use Rattle.lfs_model.specs.format.Thread.{pairs_gstate, is_hard_tail, address_blocks, addresses_blocks};
ghost use Rattle.lfs_tag.specs.ContentView.{tail_view};
ghost use Rattle.lfs_tag.specs.FieldsView.{move_view};
ghost use Rattle.lfs_pair.specs.ChangeView.{changes_view};
ghost use Rattle.lfs_blocks.specs.Next.{BeginsAt};
ghost use Rattle.lfs_blocks.specs.UsedBlocks.{KeepsUsed};
ghost use Rattle.lfs_thread.specs.Beside.{CanRunWork, HasRunWork, HasGeometry, KeepsPairBlocks, WorkMayReturn, BelongToThread};
ghost use Rattle.lfs_thread.specs.ThreadDevice.{GivesDeviceBack, CleanLossLeaves};
ghost use Rattle.lfs_thread.specs.Kept.{IsCacheCurrent, IsKept, WasKeptOnDevice, disk_of_device, kept_in_order};
ghost use Rattle.lfs_thread.specs.CachedLog.{IsContentLog, cached_log, loaded_cache, reads_unless_cached};
ghost use Rattle.lfs_thread.specs.Joins.{CanHold, IsJoined, LossLeavesJoined, reads_behind};
ghost use Rattle.lfs_thread.specs.Moves.{CanMoveNext, IsNextMoved, LossLeavesNextMoved, pair_revision};
ghost use Rattle.lfs_thread.specs.MountErrors.{IsThreadViolation, error_of_mount};
ghost use Rattle.lfs_thread.specs.HeaderReading.{IsReadThread};
ghost use Rattle.lfs_thread.specs.Unloads.{CanUnload, IsUnloaded, LossLeavesUnloaded, changes_of_unload};
ghost use Rattle.lfs_thread.specs.ThreadSteps.{CanSplitAt, CanChangePair, CanDropNext, CanThreadIn, ThreadReportsErrors, ThreadReportsKeepingOthers, RefusesThreading, IsThreadedIn, LossLeavesThreaded, IsPairCommitted, IsNextDropped, LossLeavesPair, LossLeavesThreadSplit, OnlyReadsThread, RefusesChanges, HasSplit, ChangesWithinReads, thread_pair};

use crate::cached_pairs::commit_cached;
use crate::deltas::headers_gstate;
use crate::drops::drop_next_pair;
use crate::headers::read_thread_headers;
use crate::joins::{Behind, join_pair};
use crate::list_reads::read_part_cached;
use crate::mount_error::MountError;
use crate::parts::ThreadParts;
use crate::splits::split_pair;
use lfs_blocks::{BlockMap, Cache};
use lfs_device::{BlockDevice, Error, Geometry};
use lfs_file::{IndexCache, read_at};
use lfs_model::NameOrder;
use lfs_pair::{Change, Outcome};
use lfs_tag::{Log, MoveState, Tail, has_hard_tail};
use std::alloc::Global;
use std::marker::Model;

/// Keeps a device's metadata pairs in memory, in the order of littlefs's threaded linked-list (the
/// *thread*). Also owns the device, a block map, and a cache of the blocks that were read most
/// recently.
///
/// A pair's index is its position in the thread, counted from 0. Most methods require that the
/// thread hasn't failed. The thread fails if a method that writes metadata returns an error. The
/// device may then differ from the pairs in memory, so the caller must read the thread again.
/// Contracts model a thread that hasn't failed as the metadata pairs that its device stores.
#[derive(Drop)]
pub struct Thread<D: BlockDevice> {
    // No part except `order` depends on the order of names.
    parts: ThreadParts<D>,
    has_failed: bool,
}

impl<D: BlockDevice> Model for Thread<D> {
    ghost use Rattle.std.specs.Prelude.{◌≡◌, false};
    ghost use Rattle.lfs_thread.specs.Kept.{AreKeptParts, ThreadView, kept_in_order};

    ghost Value = { ThreadView };

    ghost view = { λ t. record {
      kept = kept_in_order D.BlockDevice t.parts.order t.parts.device t.parts.pairs.items t.parts.map;
      cache = t.parts.cache;
      failed = t.has_failed;
    } };

    ghost invariant = { λ t. t.has_failed ≡ false → AreKeptParts D.BlockDevice t.parts };
}

impl<D: BlockDevice> Thread<D> {
    /// Reads a device's thread: the pair of blocks 0 and 1, then each pair that the previous pair's
    /// tail points to (SPEC.md of littlefs, "The metadata tree"). Fetches each pair once and writes
    /// nothing. The new block map marks the pairs' blocks as used and all other blocks as free.
    ///
    /// The order of names is that of littlefs's own code until [`set_order`](Thread::set_order)
    /// changes it.
    ///
    /// Errors: `Corrupt` only if the device's thread is invalid. The error contains the rule that
    /// the device breaks. An address is out of range (`OutOfRange`), a block occurs twice
    /// (`OneBlock`, `TwoPairs`), or a pair has no valid log whose slots all have a name and a
    /// struct (`NoContent`). `Io` if a read fails. `NoMemory` if memory can't be allocated for the
    /// headers, the map, or a block and its slots. Every error also returns the device.
    pub fn read(alloc: Global, mut device: D) -> Result<Thread<D>, (D, MountError)>
        ensures read { IfOk result (IsReadThread D.BlockDevice device) }
        ensures broken { IfErr result (λ e. IsThreadViolation (disk_of_device D.BlockDevice device) e.1) }
        ensures back { IfErr result (λ e. GivesDeviceBack D.BlockDevice device e.0 (error_of_mount e.1)) }
    {
        let block_count = device.geometry().block_count;
        let mut pairs = Vec::new(alloc);
        let (cache, mut map) = match cache_and_map(alloc, block_count) {
            Ok(parts) => parts,
            Err(_) => return Err((device, MountError::NoMemory)),
        };
        match read_thread_headers(alloc, &mut device, &mut pairs, &mut map) {
            Ok(()) => Ok(Thread {
                parts: ThreadParts {
                    device,
                    order: NameOrder::LongerFirst,
                    cache,
                    pairs,
                    map,
                },
                has_failed: false,
            }),
            Err(error) => Err((device, error)),
        }
    }

    /// Splits the thread into its parts, so that the caller can work on all of them at once.
    /// [`Thread::from_parts`] puts the parts together again. Requires that the thread hasn't
    /// failed.
    pub fn into_parts(self) -> ThreadParts<D>
        requires works { self.failed ≡ false }
        ensures kept { IsKept D.BlockDevice result.device result.pairs.items result.map }
        ensures same { kept_in_order D.BlockDevice result.order result.device result.pairs.items result.map ≡ self.kept }
        ensures current { IsCacheCurrent (D.blocks result.device) result.cache }
        ensures cache { result.cache ≡ self.cache }
    {
        self.parts
    }

    /// Builds a thread from its parts. Requires that the headers were once those of the device's
    /// thread, and that the device has only been read since then. Requires that the map marks the
    /// pairs' blocks as used. Requires that each cached block has the same bytes as on the device.
    pub fn from_parts(parts: ThreadParts<D>) -> Thread<D>
        requires kept { WasKeptOnDevice D.BlockDevice parts.device parts.pairs.items parts.map }
        requires current { IsCacheCurrent (D.blocks parts.device) parts.cache }
        ensures works { result.failed ≡ false }
        ensures kept { result.kept ≡ kept_in_order D.BlockDevice parts.order parts.device parts.pairs.items parts.map }
        ensures cache { result.cache ≡ parts.cache }
    {
        Thread {
            parts,
            has_failed: false,
        }
    }

    /// Returns a reference to the device, even if the thread has failed.
    pub fn device(&self) -> &D
        ensures disk { disk_with_order self.now.kept.disk.order (disk_of_device D.BlockDevice result.now) ≡ self.now.kept.disk }
        ensures history { D.history result.now ≡ self.now.kept.history }
    {
        &self.parts.device
    }

    /// Returns the order by which the names in each directory are sorted.
    pub fn order(&self) -> NameOrder
        ensures { result ≡ self.now.kept.disk.order }
    {
        self.parts.order
    }

    /// Sets the order by which the names in each directory are sorted. The order of names doesn't
    /// affect any other part of the thread.
    pub fn set_order(&mut self, order: NameOrder)
        ensures { self.new ≡ record self.old { kept = record self.old.kept { disk = disk_with_order order self.old.kept.disk } } }
    {
        self.parts.order = order;
    }

    /// Consumes the thread and returns its device, even if the thread has failed.
    pub fn into_device(self) -> D
        ensures disk { disk_with_order self.kept.disk.order (disk_of_device D.BlockDevice result) ≡ self.kept.disk }
        ensures history { D.history result ≡ self.kept.history }
    {
        self.parts.device
    }

    /// Returns the global state, which is the XOR of all pairs' gstate deltas (DESIGN.md of
    /// littlefs, "The move problem").
    pub fn state(&self) -> MoveState
        requires works { self.now.failed ≡ false }
        ensures { move_view result ≡ pairs_gstate self.now.kept.pairs }
    {
        headers_gstate(&self.parts.pairs)
    }

    /// Returns the number of metadata pairs.
    pub fn len(&self) -> usize
        ensures { result ≡ length self.now.kept.pairs }
    {
        self.parts.pairs.len()
    }

    /// Returns the two blocks of the pair at `index`, in the order of the tail that points to the
    /// pair.
    pub fn blocks_of_pair(&self, index: usize) -> [u32; 2]
        requires { index < length self.now.kept.pairs }
        ensures { address_of_array result ≡ (thread_pair self.now.kept index).at }
    {
        self.parts.pairs[index].blocks
    }

    /// Returns the number of slots (littlefs's file ids) in the pair at `index`.
    pub fn slot_count(&self, index: usize) -> usize
        requires works { self.now.failed ≡ false }
        requires below { index < length self.now.kept.pairs }
        ensures { result ≡ length (thread_pair self.now.kept index).content.slots }
    {
        self.parts.pairs[index].slot_count
    }

    /// Returns the revision count of the active block of the pair at `index`.
    pub fn revision(&self, index: usize) -> u32
        requires works { self.now.failed ≡ false }
        requires below { index < length self.now.kept.pairs }
        ensures { pair_revision self.now.kept.disk (thread_pair self.now.kept index).at ≡ Some result }
    {
        self.parts.pairs[index].revision
    }

    /// Returns the index of the next pair of the same directory if the pair at `index` has a hard
    /// tail (SPEC.md of littlefs, "0x601 LFS_TYPE_HARDTAIL"). Returns None if the pair's tail is
    /// soft or missing.
    pub fn next(&self, index: usize) -> Option<usize>
        requires works { self.now.failed ≡ false }
        requires below { index < length self.now.kept.pairs }
        ensures next { result ≡ (if is_hard_tail (thread_pair self.now.kept index).content.tail then Some (index + 1) else None) }
        ensures below { IfSome result (λ next. next < length self.now.kept.pairs) }
    {
        if has_hard_tail(self.parts.pairs[index].tail) {
            Some(index + 1)
        } else {
            None
        }
    }

    /// Returns the tail of the pair at `index`. The tail points to the next pair, and is hard if
    /// that pair continues the same directory. Returns None for the last pair of the thread.
    pub fn tail_of_pair(&self, index: usize) -> Option<Tail>
        requires works { self.now.failed ≡ false }
        requires below { index < length self.now.kept.pairs }
        ensures { option_map tail_view result ≡ (thread_pair self.now.kept index).content.tail }
    {
        self.parts.pairs[index].tail
    }

    /// Returns the gstate delta that the pair at `index` stores.
    pub fn delta(&self, index: usize) -> MoveState
        requires works { self.now.failed ≡ false }
        requires below { index < length self.now.kept.pairs }
        ensures { move_view result ≡ (thread_pair self.now.kept index).content.move }
    {
        self.parts.pairs[index].move_state
    }

    /// Reads the active block of the pair at `index` into the cache, unless the block is already
    /// cached. Makes at most one read. The cache keeps the eight blocks that were loaded most
    /// recently.
    ///
    /// Errors: `Io` if the read fails. `NoMemory` if memory for the block can't be allocated.
    /// Neither error makes the thread fail, and neither changes the pairs or the map.
    pub fn load_pair(&mut self, index: usize) -> Result<(), Error>
        requires works { self.old.failed ≡ false }
        requires below { index < length self.old.kept.pairs }
        ensures cached_log { OnOk result (IsSome (cached_log self.new index)) }
        ensures no_call { IsSome (cached_log self.old index) → self.new.kept ≡ self.old.kept }
        ensures only { OnlyReadsThread self.old.kept self.new.kept }
        ensures few { read_count self.new.kept.history ≤ read_count self.old.kept.history + 1 }
        ensures works { self.new.failed ≡ false }
        ensures errors { ThreadReportsErrors self.old.kept self.new.kept result }
        // The cache keeps the eight blocks that were loaded most recently.
        ensures recent { OnOk result (self.new.cache ≡ loaded_cache self.old index) }
    {
        let block = self.parts.pairs[index].active;
        self.parts.cache.fill(&mut self.parts.device, block)
    }

    /// Borrows the log of the pair at `index` from the cache, without computing the log's checksums
    /// again. Returns None if the pair's active block isn't cached.
    pub fn lend(&self, index: usize) -> Option<Log<'_>>
        requires works { self.now.failed ≡ false }
        requires below { index < length self.now.kept.pairs }
        ensures lent { result ≡ cached_log self.now index }
        ensures holds { IfSome result (λ log. IsContentLog log (thread_pair self.now.kept index).content) }
        ensures holder { IfSome result (λ log. current_block self.now.kept.disk (thread_pair self.now.kept index).at ≡ Some log) }
    {
        let pair = &self.parts.pairs[index];
        match self.parts.cache.lend(pair.active) {
            Some(block) => Some(Log::with_known_end(block, pair.end, pair.last)),
            None => None,
        }
    }

    /// Reads bytes of a CTZ skip-list from offset `pos` into the buffer, until the buffer is full
    /// or the list ends. Returns the number of bytes read. The list's last block is `head`, and its
    /// size in bytes is `size`. Requires a well-formed list; every list in an accepted image is
    /// well formed. Doesn't use the cache.
    ///
    /// Errors: `Io` if a read fails. The contents of the buffer are then unspecified.
    pub fn read_list(
        &mut self,
        head: u32,
        size: u32,
        pos: u32,
        buf: &mut [u8],
    ) -> Result<usize, Error>
        requires works { self.old.failed ≡ false }
        requires list { IsSkipList self.old.kept.disk.blocks self.old.kept.disk.block_size head size }
        ensures count { IfOk result (λ n. (n ≡ min (length buf.old) (size - pos)) × (drop n buf.new ≡ drop n buf.old)) }
        ensures bytes { IfOk result (λ n. take n buf.new ≡ slice_range (list_bytes self.old.kept.disk.blocks self.old.kept.disk.block_size head size) pos (pos + n)) }
        ensures only { OnlyReadsThread self.old.kept self.new.kept }
        ensures same { (self.new.failed ≡ false) × (self.new.cache ≡ self.old.cache) }
        ensures errors { ThreadReportsErrors self.old.kept self.new.kept result }
    {
        read_at(&mut self.parts.device, head, size, pos, buf)
    }

    /// Reads bytes of a CTZ skip-list as [`read_list`](Thread::read_list) does, but starts its walk
    /// at the nearest block in `known`. `known` is the list's index cache, which maps indices of
    /// the list to block numbers. Adds the blocks on the walk to the index cache, and records where
    /// the read ends.
    ///
    /// A read that begins where the previous one ended, and stays within one block of the index
    /// cache, loads that whole block into the thread's cache. If memory for the block can't be
    /// allocated, reads only the requested bytes. A read within a cached block doesn't call the
    /// device.
    ///
    /// Errors: `Io` if a read fails. The contents of the buffer are then unspecified.
    pub fn read_known_list(
        &mut self,
        head: u32,
        size: u32,
        known: &mut IndexCache,
        pos: u32,
        buf: &mut [u8],
    ) -> Result<usize, Error>
        requires works { self.old.failed ≡ false }
        requires list { IsSkipList self.old.kept.disk.blocks self.old.kept.disk.block_size head size }
        requires blocks { AreKnownBlocks (struct_blocks self.old.kept.disk (Ctz head size)) known.old }
        ensures read { IfOk result (λ n. (n ≡ min (length buf.old) (size - pos)) × (take n buf.new ≡ slice_range (list_bytes self.old.kept.disk.blocks self.old.kept.disk.block_size head size) pos (pos + n))) }
        ensures blocks { AreKnownBlocks (struct_blocks self.old.kept.disk (Ctz head size)) known.new }
        ensures only { OnlyReadsThread self.old.kept self.new.kept }
        ensures works { self.new.failed ≡ false }
        ensures errors { ThreadReportsErrors self.old.kept self.new.kept result }
        ensures few { OnOk result (ReadsKnownList self.old.kept.disk.block_size size pos (length buf.old) known.old known.new self.old.kept.history self.new.kept.history) }
    {
        let goes_on = known.end == pos;
        known.end = pos + buf.len().min(size.saturating_sub(pos) as usize) as u32;
        if let Some(part) = known.find_cached_part(&self.parts.device, size, pos, buf.len()) {
            let is_cached = self.parts.cache.lend(part.block).is_some();
            if goes_on || is_cached {
                return read_part_cached(&mut self.parts.device, &mut self.parts.cache, part, buf);
            }
        }
        known.read_at(&mut self.parts.device, head, size, pos, buf)
    }

    /// Allocates a free block and returns its number. An allocated block is in flight until a
    /// commit refers to it. Returns None if and only if no block is free.
    pub fn take(&mut self) -> Option<u32>
        ensures was_free { IfSome result (IsFree self.old.kept.map) }
        ensures taken { IfSome result (λ block. self.new ≡ record self.old { kept = record self.old.kept { map = slice_set self.old.kept.map block InFlight } }) }
        ensures none { IfNone result ((block : ℕ) → ¬ IsFree self.old.kept.map block) }
        ensures same { IfNone result (self.new ≡ self.old) }
    {
        match self.parts.map.take() {
            Some(block) => Some(block),
            None => None,
        }
    }

    /// Allocates the free block `block` and marks it as in flight.
    pub fn take_at(&mut self, block: u32)
        requires { IsFree self.old.kept.map block }
        ensures { self.new ≡ record self.old { kept = record self.old.kept { map = slice_set self.old.kept.map block InFlight } } }
    {
        self.parts.map.take_at(block);
    }

    /// Frees a block that is in flight. Callers release only blocks to which no commit refers.
    pub fn release(&mut self, block: u32)
        requires { IsInFlight self.old.kept.map block }
        ensures { self.new ≡ record self.old { kept = record self.old.kept { map = slice_set self.old.kept.map block Free } } }
    {
        self.parts.map.release(block);
    }

    /// Commits changes to the pair at `index`. The changes may alter the pair's gstate delta, and
    /// whether its tail is hard. Requires that the tail still points to the same pair afterwards.
    /// Doesn't read the active block if it is cached. A block to which the changes are appended is
    /// cached afterwards.
    ///
    /// Returns `Full`, and writes nothing, if the changed content doesn't fit the pair.
    ///
    /// Errors: `Io` if a call of the device fails. `NoMemory`, with nothing written, if memory
    /// can't be allocated for the slots and for up to two blocks. After either error, the thread
    /// has failed.
    pub fn commit_pair_changes(
        &mut self,
        alloc: Global,
        index: usize,
        changes: &[Change<'_>],
    ) -> Result<Outcome, Error>
        requires works { self.old.failed ≡ false }
        requires can { CanChangePair self.old.kept index (changes_view changes.now) }
        ensures done { result ≡ Ok Outcome.Done → IsPairCommitted self.old.kept index (changes_view changes.now) self.new.kept }
        ensures full { result ≡ Ok Outcome.Full → RefusesChanges self.old.kept index (changes_view changes.now) self.new.kept }
        ensures failed { self.new.failed ≡ is_err result }
        ensures errors { ThreadReportsErrors self.old.kept self.new.kept result }
        ensures device { ChangesWithinReads (1 + reads_unless_cached (cached_log self.old index)) (address_blocks (thread_pair self.old.kept index).at) self.old.kept self.new.kept }
        ensures stops { CleanLossLeaves self.old.kept.history self.new.kept.history (LossLeavesPair self.old.kept index (changes_view changes.now)) }
    {
        let pair = &mut self.parts.pairs[index];
        let outcome = commit_cached(
            alloc,
            &mut self.parts.device,
            &mut self.parts.cache,
            pair,
            changes,
        );
        self.has_failed = outcome.is_err();
        outcome
    }

    /// Commits changes to the pair at `index` and splits it in two. The old pair keeps the first
    /// slots and its gstate delta. The new pair, in the two blocks `fresh`, follows the old one in
    /// the thread and gets the other slots and the tail. Requires that the tail still points to the
    /// same pair after the changes. Requires that both new blocks are in flight, and marks them as
    /// used.
    ///
    /// Errors are those of [`commit_pair_changes`](Thread::commit_pair_changes).
    pub fn split(
        &mut self,
        alloc: Global,
        index: usize,
        fresh: [u32; 2],
        changes: &[Change<'_>],
    ) -> Result<(), Error>
        requires works { self.old.failed ≡ false }
        requires can { CanSplitAt self.old.kept index (address_of_array fresh) (changes_view changes.now) }
        ensures done { OnOk result (HasSplit self.old.kept index (address_of_array fresh) (changes_view changes.now) self.new.kept) }
        ensures failed { self.new.failed ≡ is_err result }
        ensures errors { ThreadReportsErrors self.old.kept self.new.kept result }
        ensures device { ChangesWithinReads (3 + reads_unless_cached (cached_log self.old index)) (addresses_blocks (thread_pair self.old.kept index).at (address_of_array fresh)) self.old.kept self.new.kept }
        ensures stops { CleanLossLeaves self.old.kept.history self.new.kept.history (LossLeavesThreadSplit self.old.kept index (address_of_array fresh) (changes_view changes.now)) }
    {
        let result = split_pair(alloc, &mut self.parts, index, fresh, changes);
        self.has_failed = result.is_err();
        result
    }

    /// Inserts an empty pair into the thread after the pair at `index`, in the two blocks `fresh`.
    /// The new pair gets the old tail of the pair at `index`. Then commits the changes to the pair
    /// at `index`. The changes must set this pair's tail to the new pair. Requires that both new
    /// blocks are in flight, and marks them as used.
    ///
    /// Returns `Full` if the changed content doesn't fit the pair at `index`. In that case, no tail
    /// points to the new pair, and its blocks stay in flight.
    ///
    /// Errors are those of [`commit_pair_changes`](Thread::commit_pair_changes), except that
    /// `NoMemory` may be returned after the two new blocks were written.
    pub fn thread_in(
        &mut self,
        alloc: Global,
        index: usize,
        fresh: [u32; 2],
        changes: &[Change<'_>],
    ) -> Result<Outcome, Error>
        requires works { self.old.failed ≡ false }
        requires can { CanThreadIn self.old.kept index (address_of_array fresh) (changes_view changes.now) }
        ensures done { result ≡ Ok Outcome.Done → IsThreadedIn self.old.kept index (address_of_array fresh) (changes_view changes.now) self.new.kept }
        ensures full { result ≡ Ok Outcome.Full → RefusesThreading self.old.kept index (address_of_array fresh) (changes_view changes.now) self.new.kept }
        ensures failed { self.new.failed ≡ is_err result }
        ensures errors { ThreadReportsKeepingOthers (address_blocks (address_of_array fresh)) self.old.kept self.new.kept result }
        ensures device { ChangesWithinReads (3 + reads_unless_cached (cached_log self.old index)) (addresses_blocks (thread_pair self.old.kept index).at (address_of_array fresh)) self.old.kept self.new.kept }
        ensures stops { CleanLossLeaves self.old.kept.history self.new.kept.history (LossLeavesThreaded self.old.kept index (address_of_array fresh) (changes_view changes.now)) }
    {
        self.join(alloc, index, Behind::Empty, fresh, changes)
    }

    // Writes a new pair into the two blocks `fresh`, with the content that `behind` selects. Then
    // commits the changes, which set the tail to the new pair, to the pair at `index`.
    //
    // Returns `Full` and errors in the same cases as `thread_in`.
    fn join(
        &mut self,
        alloc: Global,
        index: usize,
        behind: Behind,
        fresh: [u32; 2],
        changes: &[Change<'_>],
    ) -> Result<Outcome, Error>
        requires works { self.old.failed ≡ false }
        requires can { CanThreadIn self.old.kept index (address_of_array fresh) (changes_view changes.now) }
        requires holds { CanHold self.old.kept index behind }
        ensures done { result ≡ Ok Outcome.Done → IsJoined self.old.kept index behind (address_of_array fresh) (changes_view changes.now) self.new.kept }
        ensures full { result ≡ Ok Outcome.Full → RefusesThreading self.old.kept index (address_of_array fresh) (changes_view changes.now) self.new.kept }
        ensures failed { self.new.failed ≡ is_err result }
        ensures errors { ThreadReportsKeepingOthers (address_blocks (address_of_array fresh)) self.old.kept self.new.kept result }
        ensures device { ChangesWithinReads (reads_behind behind + 1 + reads_unless_cached (cached_log self.old index)) (addresses_blocks (thread_pair self.old.kept index).at (address_of_array fresh)) self.old.kept self.new.kept }
        ensures stops { CleanLossLeaves self.old.kept.history self.new.kept.history (LossLeavesJoined self.old.kept index behind (address_of_array fresh) (changes_view changes.now)) }
    {
        let outcome = join_pair(alloc, &mut self.parts, index, behind, fresh, changes);
        self.has_failed = outcome.is_err();
        outcome
    }

    /// Drops the pair after the one at `index` from the thread. Commits the changes to the pair at
    /// `index`. The changes must set this pair's tail to the target of the dropped pair's tail.
    /// Frees the blocks of the dropped pair.
    ///
    /// Returns `Full` and errors in the same cases as
    /// [`commit_pair_changes`](Thread::commit_pair_changes).
    pub fn drop_next(
        &mut self,
        alloc: Global,
        index: usize,
        changes: &[Change<'_>],
    ) -> Result<Outcome, Error>
        requires works { self.old.failed ≡ false }
        requires can { CanDropNext self.old.kept index (changes_view changes.now) }
        ensures done { result ≡ Ok Outcome.Done → IsNextDropped self.old.kept index (changes_view changes.now) self.new.kept }
        ensures full { result ≡ Ok Outcome.Full → RefusesChanges self.old.kept index (changes_view changes.now) self.new.kept }
        ensures failed { self.new.failed ≡ is_err result }
        ensures errors { ThreadReportsErrors self.old.kept self.new.kept result }
        ensures device { ChangesWithinReads (1 + reads_unless_cached (cached_log self.old index)) (address_blocks (thread_pair self.old.kept index).at) self.old.kept self.new.kept }
        ensures stops { CleanLossLeaves self.old.kept.history self.new.kept.history (LossLeavesPair self.old.kept index (changes_view changes.now)) }
    {
        let outcome = drop_next_pair(alloc, &mut self.parts, index, changes);
        self.has_failed = outcome.is_err();
        outcome
    }

    /// Relocates the pair after the one at `index` to the two blocks `fresh`. The relocated pair
    /// keeps its slots, tail and gstate delta, and gets the next revision count. Then commits to
    /// the pair at `index` a hard tail that points to the relocated pair. Requires that the pair at
    /// `index` already has a hard tail. Requires that both new blocks are in flight. Marks the new
    /// blocks as used and frees the old ones.
    ///
    /// Also requires that each of the two pairs still fits into a block after a compaction.
    ///
    /// Errors are those of [`thread_in`](Thread::thread_in).
    pub fn move_next(&mut self, alloc: Global, index: usize, fresh: [u32; 2]) -> Result<(), Error>
        requires works { self.old.failed ≡ false }
        requires can { CanMoveNext self.old.kept index (address_of_array fresh) }
        ensures done { OnOk result (IsNextMoved self.old.kept index (address_of_array fresh) self.new.kept) }
        ensures failed { self.new.failed ≡ is_err result }
        ensures errors { ThreadReportsKeepingOthers (address_blocks (address_of_array fresh)) self.old.kept self.new.kept result }
        ensures device { ChangesWithinReads (4 + reads_unless_cached (cached_log self.old index)) (addresses_blocks (thread_pair self.old.kept index).at (address_of_array fresh)) self.old.kept self.new.kept }
        ensures stops { CleanLossLeaves self.old.kept.history self.new.kept.history (LossLeavesNextMoved self.old.kept index (address_of_array fresh)) }
    {
        let tail = Change::Tail {
            hard: true,
            pair: Some(fresh),
        };
        // Lets the proof use the invariant of the thread.
        let _ = &self.parts;
        match self.join(alloc, index, Behind::Next, fresh, &[tail]) {
            Ok(Outcome::Done) => Ok(()),
            Ok(Outcome::Full) => unreachable!(),
            Err(error) => Err(error),
        }
    }

    /// Moves slots of the pair at `index` into a new pair after it, in the two blocks `fresh`.
    /// First writes all slots and the tail of the old pair to the new pair, with the next revision
    /// count. Then changes the old pair by one commit, so that it keeps only its first `keep` slots
    /// and its gstate delta, and has a hard tail to the new pair. Requires that both new blocks are
    /// in flight, and marks them as used.
    ///
    /// Also requires that the old pair has at least `keep` slots, and that it still fits into a
    /// block after a compaction.
    ///
    /// Errors are those of [`thread_in`](Thread::thread_in).
    pub fn unload(
        &mut self,
        alloc: Global,
        index: usize,
        fresh: [u32; 2],
        keep: u16,
    ) -> Result<(), Error>
        requires works { self.old.failed ≡ false }
        requires can { CanUnload self.old.kept index (address_of_array fresh) keep }
        ensures done { OnOk result (IsUnloaded self.old.kept index (address_of_array fresh) keep self.new.kept) }
        ensures failed { self.new.failed ≡ is_err result }
        ensures errors { ThreadReportsKeepingOthers (address_blocks (address_of_array fresh)) self.old.kept self.new.kept result }
        ensures device { ChangesWithinReads (4 + reads_unless_cached (cached_log self.old index)) (addresses_blocks (thread_pair self.old.kept index).at (address_of_array fresh)) self.old.kept self.new.kept }
        ensures stops { CleanLossLeaves self.old.kept.history self.new.kept.history (LossLeavesUnloaded self.old.kept index (address_of_array fresh) keep) }
    {
        // Lets the proof use the invariant of the thread.
        let _ = &self.parts;
        let count = self.slot_count(index) - usize::from(keep);
        let changes = match unload_changes(alloc, fresh, keep, count) {
            Ok(changes) => changes,
            Err(error) => {
                self.fail();
                return Err(error);
            }
        };
        match self.join(alloc, index, Behind::Slots, fresh, &changes) {
            Ok(Outcome::Done) => Ok(()),
            Ok(Outcome::Full) => unreachable!(),
            Err(error) => Err(error),
        }
    }

    /// Calls `work` with the device and the block map, and returns the result of `work`. Callers
    /// use this method to write a file's list into blocks that aren't used, or to mark a committed
    /// list's blocks as used. Requires that `work` changes no used block, and that the pairs'
    /// blocks stay used. Removes blocks that aren't used from the cache before it calls `work`.
    pub fn with_device_map<X, F: FnOnce(&mut D, &mut BlockMap) -> X>(&mut self, work: F) -> X
        requires works { self.old.failed ≡ false }
        requires can { (device : D) (map : BlockMap) → BelongToThread D.BlockDevice self.old.kept device map → CanRunWork F.FnOnce work device map }
        requires leaves { (device : D) (map : BlockMap) (x : X) (later : D) (later_map : BlockMap) → BelongToThread D.BlockDevice self.old.kept device map
            → WorkMayReturn F.FnOnce work device map x later later_map → KeepsPairBlocks D.BlockDevice self.old.kept device map later later_map }
        ensures ran { HasRunWork D.BlockDevice F.FnOnce work self.old.kept result self.new.kept }
        ensures pairs { self.new.kept.pairs ≡ self.old.kept.pairs }
        ensures works { self.new.failed ≡ false }
        ensures cache { KeepsUsed self.old.kept.map self.old.cache self.new.cache }
    {
        self.parts.cache.forget_unused(&self.parts.map);
        work(&mut self.parts.device, &mut self.parts.map)
    }

    /// Marks the thread as failed, for callers whose work on the thread's parts went wrong.
    pub fn fail(&mut self)
        ensures { self.new ≡ record self.old { failed = true } }
    {
        self.has_failed = true;
    }

    /// Returns whether the thread has failed.
    pub fn has_failed(&self) -> bool
        ensures { result ≡ self.now.failed }
    {
        self.has_failed
    }

    /// Builds a failed thread from its parts. The device may have any contents.
    pub fn failed_thread(parts: ThreadParts<D>) -> Thread<D>
        ensures failed { result.failed ≡ true }
        ensures kept { result.kept ≡ kept_in_order D.BlockDevice parts.order parts.device parts.pairs.items parts.map }
    {
        Thread {
            parts,
            has_failed: true,
        }
    }

    /// Returns the geometry of the device.
    pub fn geometry(&self) -> Geometry
        ensures { HasGeometry result self.now.kept.disk }
    {
        self.parts.device.geometry()
    }

    /// Returns the number of used blocks.
    pub fn used_count(&self) -> u32
        ensures { result ≡ used_count self.now.kept.map }
    {
        self.parts.map.used_count()
    }

    /// Makes [`take`](Thread::take) begin its search at the first free block from `number` on,
    /// modulo the number of blocks. Returns that block, or None if and only if no block is free.
    pub fn start_search_at(&mut self, number: u32) -> Option<u32>
        ensures begins { BeginsAt self.old.kept.map number result }
        ensures same { self.new ≡ self.old }
    {
        self.parts.map.start_search_at(number)
    }

    /// Returns the block number, modulo the number of blocks, at which [`take`](Thread::take)
    /// begins its search.
    pub fn next_start(&self) -> u32 {
        self.parts.map.next_start()
    }

    /// Returns whether `block` is free, that is, neither used nor in flight. Requires that `block`
    /// is less than the device's number of blocks.
    pub fn is_free(&self, block: u32) -> bool
        requires { block < length self.now.kept.map }
        ensures { IsTrue result ↔ IsFree self.now.kept.map block }
    {
        self.parts.map.is_free(block)
    }

    /// Returns whether `block` is used. A block in flight isn't used. Requires that `block` is less
    /// than the device's number of blocks.
    pub fn is_used(&self, block: u32) -> bool
        requires { block < length self.now.kept.map }
        ensures { IsTrue result ↔ IsUsedBlock self.now.kept.map block }
    {
        self.parts.map.is_used(block)
    }
}

// Creates an empty cache, and a map of `block_count` free blocks.
fn cache_and_map(alloc: Global, block_count: u32) -> Result<(Cache, BlockMap), Error>
    ensures empty { IfOk result (λ parts. parts.0 ≡ []) }
    ensures free { IfOk result (λ parts. parts.1 ≡ replicate block_count Free) }
    ensures error { IfErr result (λ e. e ≡ Error.NoMemory) }
{
    let cache = Cache::new(alloc)?;
    let map = BlockMap::new(alloc, block_count)?;
    Ok((cache, map))
}

// Returns the changes that delete the `count` slots after the first `keep` slots, and set a hard
// tail to the new pair.
fn unload_changes<'a>(
    alloc: Global,
    fresh: [u32; 2],
    keep: u16,
    count: usize,
) -> Result<Vec<Change<'a>>, Error>
    ensures changes { IfOk result (λ changes. changes_view changes.items ≡ changes_of_unload (address_of_array fresh) keep count) }
    ensures errors { IfErr result (λ e. e ≡ Error.NoMemory) }
{
    let mut changes = Vec::from_elem(alloc, Change::Delete { id: keep }, count)?;
    changes.push(Change::Tail {
        hard: true,
        pair: Some(fresh),
    })?;
    Ok(changes)
}
