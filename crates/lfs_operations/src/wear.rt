// Wear leveling, which relocates worn pairs.

ghost use Rattle.std.specs.Prelude.{◌≡◌, ◌<◌, ◌-◌, Any, false, length, IfOk, IfSome, OnOk};
ghost use Rattle.std.specs.Bool.{OnTrue};
ghost use Rattle.lfs_model.specs.crash.PowerLoss.{SurvivesLossSince};
ghost use Rattle.lfs_model.specs.format.Slots.{address_of_array};
ghost use Rattle.lfs_model.specs.session.Moved.{is_worn};
ghost use Rattle.lfs_model.specs.tree.Shown.{disk_tree};
ghost use Rattle.lfs_thread.specs.ThreadSteps.{thread_pair};
ghost use Rattle.lfs_operations.specs.Changing.{AreTwoFreeBlocks, WritesPairAndTwoFree, WritesThreadAndTwoFree};
ghost use Rattle.lfs_operations.specs.Making.{ReportsDirectoryCreation};
ghost use Rattle.lfs_operations.specs.Wear.{CanRelocateWornPair, CanMovePairSlots, CanExpandSuperblockChain, CanRelocate, IsNonRootFirstPair, HasRelocated, HasFreeBlocksForSplit, IsWornPairRelocated, IsRelocationPlanFor, AreWornPairSlotsMoved, IsSuperblockChainExpanded};

use crate::changes::{allocate_two_blocks, mark_blocks_allocated};
use lfs_device::{BlockDevice, Error};
use lfs_thread::{Thread, number_at_address};
use std::alloc::Global;

/// A plan to relocate a worn pair, which is made before an operation and carried out after the
/// operation.
#[derive(Clone, Copy, Drop)]
pub struct RelocationPlan {
    /// Two free blocks for the pair.
    pub fresh: [u32; 2],
    /// The address of the pair to which the relocation commits.
    pub at: [u32; 2],
    /// The largest number of blocks that may be used after a relocation that adds a pair.
    pub limit: u32,
}

// Returns whether a pair is worn, which means that its revision count is a multiple of the
// profile's `pair_cycles`. If `pair_cycles` is 0, no pair is worn.
fn is_worn_pair<D: BlockDevice>(thread: &Thread<D>, index: usize) -> bool
    requires works { thread.now.failed ≡ false }
    requires below { index < length thread.now.kept.pairs }
    ensures { result ≡ is_worn thread.now.kept.disk (thread_pair thread.now.kept index) }
{
    let cycles = thread.geometry().profile.pair_cycles;
    cycles != 0 && thread.revision(index) % cycles == 0
}

// Returns whether the pair is worn or, if `soon` is true, would be worn after one more erase.
fn is_relocation_due<D: BlockDevice>(thread: &Thread<D>, index: usize, soon: bool) -> bool
    requires works { thread.now.failed ≡ false }
    requires below { index < length thread.now.kept.pairs }
{
    let cycles = thread.geometry().profile.pair_cycles;
    let revision = thread.revision(index) as u64 + soon as u64;
    cycles != 0 && revision % cycles as u64 == 0
}

// Returns whether two more blocks may be used: the number of used blocks then stays within `limit`,
// and at least an eighth of all blocks stays free.
fn has_free_blocks_for_move<D: BlockDevice>(thread: &Thread<D>, limit: u32) -> bool
    ensures { OnTrue result (HasFreeBlocksForSplit thread.now.kept limit) }
{
    let used = thread.used_count() as u64 + 2;
    used <= limit as u64 && 8 * used <= 7 * thread.geometry().block_count as u64
}

// Returns whether the pair has slots and is the first pair of a directory other than the root.
fn is_non_root_first_pair<D: BlockDevice>(thread: &Thread<D>, root: usize, index: usize) -> bool
    requires works { thread.now.failed ≡ false }
    requires below { index < length thread.now.kept.pairs }
    ensures { OnTrue result (IsNonRootFirstPair thread.now.kept root index) }
{
    index > root && thread.next(index - 1).is_none() && thread.slot_count(index) > 0
}

// Returns the index of the pair to which the relocation of the pair at `index` commits. Returns
// None if the pair at `index` can't be relocated.
fn relocation_commit_pair<D: BlockDevice>(
    thread: &Thread<D>,
    root: usize,
    index: usize,
) -> Option<usize>
    requires works { thread.now.failed ≡ false }
    requires below { index < length thread.now.kept.pairs }
    ensures { IfSome result (λ committed. committed < length thread.now.kept.pairs) }
{
    if index > 0 && thread.next(index - 1).is_some() {
        return Some(index - 1);
    }
    let unloads = index == 0 && root == 0 || is_non_root_first_pair(thread, root, index);
    if unloads && has_free_blocks_for_move(thread, u32::MAX) {
        Some(index)
    } else {
        None
    }
}

// Searches for a pair that is due for relocation, beginning at the index `start` modulo the number
// of pairs. Returns the address of the pair to which the relocation commits.
fn find_relocation_target<D: BlockDevice>(
    thread: &Thread<D>,
    root: usize,
    start: usize,
    soon: bool,
) -> Option<[u32; 2]>
    requires { thread.now.failed ≡ false }
    ensures { IfSome result (λ at. Any (λ p. p.at ≡ address_of_array at) thread.now.kept.pairs) }
{
    let count = thread.len();
    for step in 0..count {
        let index = start.wrapping_add(step) % count;
        if is_relocation_due(thread, index, soon) {
            if let Some(committed) = relocation_commit_pair(thread, root, index) {
                return Some(thread.blocks_of_pair(committed));
            }
        }
    }
    None
}

// Returns a number that changes with each compaction of a pair.
fn revisions_sum<D: BlockDevice>(thread: &Thread<D>) -> usize
    requires { thread.now.failed ≡ false }
{
    let mut sum = 0u32;
    for index in 0..thread.len() {
        sum = sum.wrapping_add(thread.revision(index));
    }
    sum as usize
}

// Returns the address of the pair to which a relocation commits. Prefers a worn pair to one that
// would be worn after one more erase. Rotates among the latter, so that one that is never written
// doesn't keep the others from being relocated.
fn choose_relocation_target<D: BlockDevice>(thread: &Thread<D>, root: usize) -> Option<[u32; 2]>
    requires { thread.now.failed ≡ false }
    ensures { IfSome result (λ at. Any (λ p. p.at ≡ address_of_array at) thread.now.kept.pairs) }
{
    if thread.geometry().profile.pair_cycles == 0 {
        return None;
    }
    match find_relocation_target(thread, root, 0, false) {
        Some(at) => Some(at),
        None => find_relocation_target(thread, root, revisions_sum(thread), true),
    }
}

// Finds two free blocks without allocating them. Returns None if fewer than two blocks are free.
fn find_free_pair<D: BlockDevice>(thread: &mut Thread<D>) -> Option<[u32; 2]>
    ensures free { IfSome result (λ fresh. AreTwoFreeBlocks thread.old.kept.map (address_of_array fresh)) }
    ensures same { thread.new ≡ thread.old }
{
    let Some(fresh) = allocate_two_blocks(thread) else {
        return None;
    };
    thread.release(fresh[1]);
    thread.release(fresh[0]);
    Some(fresh)
}

/// Plans the relocation of a worn pair, before an operation that allocates at most `room` blocks.
/// Returns None if fewer than two blocks are free. Also returns None if none of the pairs that can
/// be relocated is worn or would be worn after one more erase. Doesn't access the device.
///
/// A pair is worn if its revision count is a multiple of the profile's `pair_cycles`
/// (`block_cycles` of littlefs). If `pair_cycles` is 0, no pair is worn.
pub fn plan_move<D: BlockDevice>(
    thread: &mut Thread<D>,
    root: usize,
    room: u32,
) -> Option<RelocationPlan>
    requires works { thread.old.failed ≡ false }
    ensures plan { IfSome result (IsRelocationPlanFor thread.old.kept room) }
    ensures same { thread.new ≡ thread.old }
{
    let Some(at) = choose_relocation_target(thread, root) else {
        return None;
    };
    let Some(fresh) = find_free_pair(thread) else {
        return None;
    };
    let limit = thread.used_count().saturating_add(room);
    Some(RelocationPlan { fresh, at, limit })
}

// Relocates a worn pair to two free blocks. Requires that the pair follows a hard tail, which is
// changed to point to the new blocks. Such a pair isn't its directory's first, or it is the root's
// first pair after the superblock chain. Frees the pair's old blocks, and continues its revision
// count.
fn relocate_pair<D: BlockDevice>(
    alloc: Global,
    thread: &mut Thread<D>,
    index: usize,
    fresh: [u32; 2],
) -> Result<(), Error>
    requires works { thread.old.failed ≡ false }
    requires can { CanRelocateWornPair thread.old.kept index (address_of_array fresh) }
    ensures moved { OnOk result (IsWornPairRelocated thread.old.kept index (address_of_array fresh) thread.new.kept) }
    ensures errors { ReportsDirectoryCreation thread.old thread.new result }
    ensures device { WritesPairAndTwoFree thread.old.kept (index - 1) thread.new.kept }
    ensures survives { SurvivesLossSince thread.old.kept.disk thread.old.kept.history thread.new.kept.history
        (disk_tree thread.old.kept.disk thread.old.kept.pairs) (disk_tree thread.old.kept.disk thread.old.kept.pairs) }
{
    mark_blocks_allocated(thread, fresh);
    thread.move_next(alloc, index - 1, fresh)?;
    Ok(())
}

// Moves all slots of a worn pair into a new pair after it, in two free blocks. Requires that the
// worn pair is the first one of a directory other than the root. The worn pair stays in the thread
// without slots, and the new pair can be relocated later.
fn move_all_slots<D: BlockDevice>(
    alloc: Global,
    thread: &mut Thread<D>,
    index: usize,
    fresh: [u32; 2],
) -> Result<(), Error>
    requires works { thread.old.failed ≡ false }
    requires can { CanMovePairSlots thread.old.kept index (address_of_array fresh) }
    ensures unloaded { OnOk result (AreWornPairSlotsMoved thread.old.kept index (address_of_array fresh) thread.new.kept) }
    ensures errors { ReportsDirectoryCreation thread.old thread.new result }
    ensures device { WritesPairAndTwoFree thread.old.kept index thread.new.kept }
    ensures survives { SurvivesLossSince thread.old.kept.disk thread.old.kept.history thread.new.kept.history
        (disk_tree thread.old.kept.disk thread.old.kept.pairs) (disk_tree thread.old.kept.disk thread.old.kept.pairs) }
{
    mark_blocks_allocated(thread, fresh);
    thread.unload(alloc, index, fresh, 0)?;
    Ok(())
}

// Extends the superblock chain if the thread's first pair is worn. Moves all slots into a new pair
// after the first one, in two free blocks, together with a copy of the superblock. The new pair
// becomes the root directory's first pair, and can be relocated later. The thread's first pair
// keeps only the superblock.
fn expand_superblock<D: BlockDevice>(
    alloc: Global,
    thread: &mut Thread<D>,
    fresh: [u32; 2],
) -> Result<(), Error>
    requires works { thread.old.failed ≡ false }
    requires can { CanExpandSuperblockChain thread.old.kept (address_of_array fresh) }
    ensures expanded { OnOk result (IsSuperblockChainExpanded thread.old.kept (address_of_array fresh) thread.new.kept) }
    ensures errors { ReportsDirectoryCreation thread.old thread.new result }
    ensures device { WritesPairAndTwoFree thread.old.kept 0 thread.new.kept }
    ensures survives { SurvivesLossSince thread.old.kept.disk thread.old.kept.history thread.new.kept.history
        (disk_tree thread.old.kept.disk thread.old.kept.pairs) (disk_tree thread.old.kept.disk thread.old.kept.pairs) }
{
    mark_blocks_allocated(thread, fresh);
    thread.unload(alloc, 0, fresh, 1)?;
    Ok(())
}

/// Relocates at most one worn pair, as planned before an operation (DESIGN.md of littlefs, "Wear
/// leveling"). Returns the index of the root directory's first pair, which is one greater than
/// before if the superblock chain was extended.
///
/// A pair that follows a hard tail is relocated to the plan's two blocks. If the worn pair is the
/// first of a directory or of the thread, its slots move into a new pair in these blocks. This
/// happens only if at least an eighth of all blocks stays free.
///
/// Errors: `Io` if a call of the device fails. `NoMemory` if memory for a pair's block can't be
/// allocated. After either error, the thread has failed, and the image still has the same tree.
pub fn relocate<D: BlockDevice>(
    alloc: Global,
    thread: &mut Thread<D>,
    root: usize,
    plan: RelocationPlan,
) -> Result<usize, Error>
    requires { CanRelocate thread.old root plan }
    ensures done { IfOk result (HasRelocated thread.old.kept plan thread.new.kept) }
    ensures errors { ReportsDirectoryCreation thread.old thread.new result }
    ensures device { WritesThreadAndTwoFree thread.old.kept thread.new.kept }
    ensures survives { SurvivesLossSince thread.old.kept.disk thread.old.kept.history thread.new.kept.history
        (disk_tree thread.old.kept.disk thread.old.kept.pairs) (disk_tree thread.old.kept.disk thread.old.kept.pairs) }
{
    let Some(index) = number_at_address(thread, plan.at) else {
        return Ok(root);
    };
    if !thread.is_free(plan.fresh[0]) || !thread.is_free(plan.fresh[1]) {
        return Ok(root);
    }
    if let Some(next) = thread.next(index) {
        if is_worn_pair(thread, next) {
            relocate_pair(alloc, thread, next, plan.fresh)?;
            return Ok(root);
        }
    }
    if !is_worn_pair(thread, index) || !has_free_blocks_for_move(thread, plan.limit) {
        return Ok(root);
    }
    if index == 0 && root == 0 {
        expand_superblock(alloc, thread, plan.fresh)?;
        return Ok(1);
    }
    if is_non_root_first_pair(thread, root, index) {
        move_all_slots(alloc, thread, index, plan.fresh)?;
    }
    Ok(root)
}
