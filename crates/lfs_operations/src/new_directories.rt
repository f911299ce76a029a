// Creation of empty directories.

ghost use Rattle.std.specs.Prelude.{◌≡◌, ◌<◌, ◌^◌, ℕ, false, length, Err, OnOk};
ghost use Rattle.lfs_device.specs.Bytes.{AreByteBlocks};
ghost use Rattle.lfs_model.specs.format.Disk.{block_count};
ghost use Rattle.lfs_model.specs.crash.PowerLoss.{HasEitherTree, SurvivesLossSince};
ghost use Rattle.lfs_model.specs.format.Slots.{address_of_array};
ghost use Rattle.lfs_model.specs.tree.Shown.{disk_tree};
ghost use Rattle.lfs_model.specs.layers.Steps.{with_sync_inverted};
ghost use Rattle.lfs_tag.specs.FieldsView.{move_view};
ghost use Rattle.lfs_thread.specs.ThreadDevice.{CleanLossLeaves};
ghost use Rattle.lfs_thread.specs.ThreadSteps.{IsThreadedIn, LossLeavesThreaded, ChangesThreadBlocks, thread_pair};
ghost use Rattle.lfs_operations.specs.Changing.{CanCommitOrSplit, LeftByCommitOrSplit, AreCommittedOrSplit, ReportsCommitOrSplit, WritesPairAndTwoFree};
ghost use Rattle.lfs_operations.specs.Making.{AreBothChangedOrDropped, CanLinkPairAfter, CanMakeDirectoryAt, IsDirectoryMade, ReportsPairLink, ReportsDirectoryCreation, WritesPairsAndFourFree, entry_changes, directory_entry_changes, threading_changes, tree_with_directory};
ghost use Rattle.lfs_model.specs.layers.StepResults.{IsDirectoryEnd};
ghost use Rattle.lfs_model.specs.format.Thread.{address_blocks, addresses_blocks};

use crate::changes::{allocate_two_blocks, commit_or_split};
use lfs_device::{BlockDevice, Error};
use lfs_pair::Change;
use lfs_tag::kinds::{DIRECTORY_NAME, DIRECTORY_STRUCT};
use lfs_tag::{MoveState, pair_bytes};
use lfs_thread::Thread;
use std::alloc::Global;

// Proves that a device's blocks consist of bytes, and that the number of blocks fits 32 bits.
pub(crate) fn lemma_device_facts<D: BlockDevice>(thread: &Thread<D>)
    ensures count { block_count thread.now.kept.disk < 2 ^ 32 }
    ensures bytes { AreByteBlocks thread.now.kept.disk.blocks }
{
    let _count = thread.device().geometry().block_count;
}

// Returns the index of the last pair of a directory, which is found along hard tails from the pair
// at `index`.
fn last_directory_pair<D: BlockDevice>(thread: &Thread<D>, index: usize) -> usize
    requires works { thread.now.failed ≡ false }
    requires below { index < length thread.now.kept.pairs }
    ensures { IsDirectoryEnd thread.now.kept.pairs index result }
{
    let mut last = index;
    while let Some(next) = thread.next(last) {
        last = next;
    }
    last
}

// Returns a gstate delta with its sync bit flipped. A commit of this delta flips the sync bit of
// the global state.
fn flip_sync_bit(delta: &MoveState) -> MoveState
    ensures { move_view result ≡ with_sync_inverted (move_view delta.now) }
{
    MoveState {
        sync: !delta.sync,
        kind: delta.kind,
        id: delta.id,
        pair: delta.pair,
    }
}

// Inserts a new pair without slots into the thread, after the last pair of a directory. Sets the
// sync bit, because no entry points to the new pair yet.
fn link_pair_after<D: BlockDevice>(
    alloc: Global,
    thread: &mut Thread<D>,
    last: usize,
    fresh: [u32; 2],
) -> Result<(), Error>
    requires works { thread.old.failed ≡ false }
    requires can { CanLinkPairAfter thread.old.kept last (address_of_array fresh) }
    ensures is_joined { OnOk result (IsThreadedIn thread.old.kept last (address_of_array fresh) (threading_changes thread.old.kept last (address_of_array fresh)) thread.new.kept) }
    ensures errors { ReportsPairLink thread.old thread.new (address_of_array fresh) result }
    ensures device { ChangesThreadBlocks (addresses_blocks (thread_pair thread.old.kept last).at (address_of_array fresh)) thread.old.kept thread.new.kept }
    ensures stops { CleanLossLeaves thread.old.kept.history thread.new.kept.history (LossLeavesThreaded thread.old.kept last (address_of_array fresh) (threading_changes thread.old.kept last (address_of_array fresh))) }
{
    let changes = [
        Change::Tail {
            hard: false,
            pair: Some(fresh),
        },
        Change::Move {
            state: flip_sync_bit(&thread.delta(last)),
        },
    ];
    // The pair reserves space for a tail and a gstate delta, so this commit never needs a split.
    thread.thread_in(alloc, last, fresh, &changes)?;
    Ok(())
}

// Creates an entry with a directory's struct in a pair, and flips the sync bit.
fn create_entry_flipping<'a, D: BlockDevice>(
    alloc: Global,
    thread: &mut Thread<D>,
    pair: usize,
    id: u16,
    name: &'a [u8],
    branch: &'a [u8],
) -> Result<(), Error>
    requires works { thread.old.failed ≡ false }
    requires can { CanCommitOrSplit thread.old.kept pair (entry_changes thread.old.kept pair id name.now branch.now) }
    ensures is_put { OnOk result (AreCommittedOrSplit thread.old.kept pair (entry_changes thread.old.kept pair id name.now branch.now) thread.new.kept) }
    ensures errors { ReportsCommitOrSplit thread.old thread.new pair (entry_changes thread.old.kept pair id name.now branch.now) result }
    ensures device { WritesPairAndTwoFree thread.old.kept pair thread.new.kept }
    ensures stops { CleanLossLeaves thread.old.kept.history thread.new.kept.history (LeftByCommitOrSplit thread.old.kept pair (entry_changes thread.old.kept pair id name.now branch.now)) }
{
    let changes = [
        Change::Create {
            id,
            kind: DIRECTORY_NAME,
            name,
        },
        Change::Struct {
            id,
            kind: DIRECTORY_STRUCT,
            bytes: branch,
        },
        Change::Move {
            state: flip_sync_bit(&thread.delta(pair)),
        },
    ];
    commit_or_split(alloc, thread, pair, &changes)
}

// Creates the entry of the directory whose first pair is at address `at`, and clears the sync bit.
fn create_subdirectory_entry<D: BlockDevice>(
    alloc: Global,
    thread: &mut Thread<D>,
    pair: usize,
    id: u16,
    name: &[u8],
    at: [u32; 2],
) -> Result<(), Error>
    requires works { thread.old.failed ≡ false }
    requires can { CanCommitOrSplit thread.old.kept pair (directory_entry_changes thread.old.kept pair id name.now (address_of_array at)) }
    ensures is_put { OnOk result (AreCommittedOrSplit thread.old.kept pair (directory_entry_changes thread.old.kept pair id name.now (address_of_array at)) thread.new.kept) }
    ensures errors { ReportsCommitOrSplit thread.old thread.new pair (directory_entry_changes thread.old.kept pair id name.now (address_of_array at)) result }
    ensures device { WritesPairAndTwoFree thread.old.kept pair thread.new.kept }
    ensures stops { CleanLossLeaves thread.old.kept.history thread.new.kept.history (LeftByCommitOrSplit thread.old.kept pair (directory_entry_changes thread.old.kept pair id name.now (address_of_array at))) }
{
    let branch = pair_bytes(at);
    create_entry_flipping(alloc, thread, pair, id, name, &branch)
}

/// Creates an empty directory, with an entry of id `id` in the pair with index `pair`. Requires
/// that the new name belongs at id `id` in the order of names (DESIGN.md of littlefs, "The metadata
/// tree"). The first commit inserts the directory's own pair into the thread after the parent's
/// last pair, and sets the sync bit. The second commit creates the entry and clears the sync bit.
/// If the entry doesn't fit its pair, that pair is split. Requires four free blocks: two for the
/// directory, and two for a split.
///
/// Errors: `Io` if a call of the device fails. `NoMemory` if memory for a pair's slots and its
/// block can't be allocated. After either error, the thread has failed. After an error, the new
/// pair may remain in the thread as an orphan, which a recovery drops.
pub fn make_directory<D: BlockDevice>(
    alloc: Global,
    thread: &mut Thread<D>,
    pair: usize,
    id: u16,
    name: &[u8],
) -> Result<(), Error>
    requires works { thread.old.failed ≡ false }
    requires can { CanMakeDirectoryAt thread.old.kept pair id name.now }
    ensures made { OnOk result ((can : CanMakeDirectoryAt thread.old.kept pair id name.now) → IsDirectoryMade thread.old.kept thread.new.kept can.path name.now) }
    ensures alters { OnOk result (AreBothChangedOrDropped thread.old.kept pair thread.new.kept) }
    ensures errors { ReportsDirectoryCreation thread.old thread.new result }
    ensures device { WritesPairsAndFourFree thread.old.kept pair thread.new.kept }
    ensures stands { result ≡ Err Error.NoMemory → (can : CanMakeDirectoryAt thread.old.kept pair id name.now) → HasEitherTree thread.new.kept.disk
        (disk_tree thread.old.kept.disk thread.old.kept.pairs) (tree_with_directory thread.old.kept can.path name.now) }
    ensures survives { (can : CanMakeDirectoryAt thread.old.kept pair id name.now) → SurvivesLossSince thread.old.kept.disk thread.old.kept.history thread.new.kept.history
        (disk_tree thread.old.kept.disk thread.old.kept.pairs) (tree_with_directory thread.old.kept can.path name.now) }
{
    let last = last_directory_pair(thread, pair);
    lemma_device_facts(thread);
    let Some(fresh) = allocate_two_blocks(thread) else {
        return Err(Error::NoSpace);
    };
    link_pair_after(alloc, thread, last, fresh)?;
    lemma_device_facts(thread);
    create_subdirectory_entry(alloc, thread, pair, id, name, fresh)
}
