// Removals of empty directories.

ghost use Rattle.std.specs.Prelude.{◌≡◌, ◌<◌, ◌-◌, length, false, OnOk};
ghost use Rattle.lfs_model.specs.crash.PowerLoss.{SurvivesLossSince};
ghost use Rattle.lfs_model.specs.tree.Shown.{disk_tree};
ghost use Rattle.lfs_model.specs.layers.Steps.{sync_bit_delta};
ghost use Rattle.lfs_tag.specs.FieldsView.{move_view};
ghost use Rattle.lfs_thread.specs.ThreadDevice.{CleanLossLeaves};
ghost use Rattle.lfs_thread.specs.ThreadSteps.{ChangesThreadBlocks, thread_pair};
ghost use Rattle.lfs_operations.specs.Removing.{ReportsCommit, tree_without_entry, removal_written_address};
ghost use Rattle.lfs_operations.specs.Unlinking.{ArePredecessorsChangedOrDropped, CanRemoveDirectory, CanUnlinkEntry, IsDirectoryRemoved, IsEntryUnlinked, LeftByUnlink, ReportsCommits, pair_index_after_unlink};
ghost use Rattle.lfs_model.specs.format.Thread.{address_blocks, addresses_blocks};

use crate::changes::commit_without_split;
use crate::drops::drop_pair_at;
use crate::removals::must_drop_pair;
use lfs_device::{BlockDevice, Error};
use lfs_pair::Change;
use lfs_tag::MoveState;
use lfs_thread::{Thread, gstate_xor_delta};
use std::alloc::Global;

// Returns the gstate delta that flips the sync bit.
pub(crate) fn sync_flip_delta() -> MoveState
    ensures { move_view result ≡ sync_bit_delta }
{
    MoveState {
        sync: true,
        kind: 0,
        id: 0,
        pair: [0, 0],
    }
}

// Removes the entry of a directory from its parent's pair. The same commit flips the sync bit,
// because the directory's own pair becomes an orphan (DESIGN.md of littlefs, "The move problem").
// Drops the parent's pair if it has no other slot and isn't the first of its directory.
fn unlink_directory_entry<D: BlockDevice>(
    alloc: Global,
    thread: &mut Thread<D>,
    pair: usize,
    id: u16,
    first: usize,
) -> Result<(), Error>
    requires works { thread.old.failed ≡ false }
    requires can { CanUnlinkEntry thread.old.kept pair id first }
    ensures is_unlinked { OnOk result (IsEntryUnlinked thread.old.kept pair id first thread.new.kept) }
    ensures errors { ReportsCommit thread.old thread.new result }
    ensures device { ChangesThreadBlocks (address_blocks (removal_written_address thread.old.kept pair first)) thread.old.kept thread.new.kept }
    ensures stops { CleanLossLeaves thread.old.kept.history thread.new.kept.history (LeftByUnlink thread.old.kept pair id first) }
{
    let turn = sync_flip_delta();
    if must_drop_pair(thread, pair, first) {
        drop_pair_at(alloc, thread, pair, &turn)
    } else {
        let state = gstate_xor_delta(&thread.delta(pair), &turn);
        let changes = [Change::Delete { id }, Change::Move { state }];
        // The remaining content fits, so this commit never needs a split.
        commit_without_split(alloc, thread, pair, &changes)
    }
}

// Returns the index of the pair `gone` after the removal of an entry in the pair with index `pair`.
fn index_after_unlinking<D: BlockDevice>(
    thread: &Thread<D>,
    pair: usize,
    first: usize,
    gone: usize,
) -> usize
    requires works { thread.now.failed ≡ false }
    requires below { pair < length thread.now.kept.pairs }
    ensures { result ≡ pair_index_after_unlink thread.now.kept pair first gone }
{
    if must_drop_pair(thread, pair, first) && pair < gone {
        gone - 1
    } else {
        gone
    }
}

/// Removes an empty directory, whose entry has id `id` in the pair with index `pair`. The parent's
/// first pair has index `first`, and the directory's own pair has index `gone`. The first commit
/// removes the entry and sets the sync bit, because the directory's own pair becomes an orphan. The
/// second commit drops that pair and clears the sync bit (DESIGN.md of littlefs, "The move
/// problem"). If the entry's pair has no other slot and isn't the parent's first pair, the first
/// commit drops the entry's pair.
///
/// Errors: `Io` if a call of the device fails. `NoMemory` if memory for a pair's slots and its
/// block can't be allocated. After either error, the thread has failed, and the directory's entry
/// may already be removed.
pub fn remove_directory<D: BlockDevice>(
    alloc: Global,
    thread: &mut Thread<D>,
    pair: usize,
    id: u16,
    first: usize,
    gone: usize,
) -> Result<(), Error>
    requires works { thread.old.failed ≡ false }
    requires can { CanRemoveDirectory thread.old.kept pair id first gone }
    ensures is_removed { OnOk result ((take : CanRemoveDirectory thread.old.kept pair id first gone) → IsDirectoryRemoved thread.old.kept thread.new.kept take.can.path take.can.name) }
    ensures alters { OnOk result (ArePredecessorsChangedOrDropped thread.old.kept pair first gone thread.new.kept) }
    ensures errors { ReportsCommits thread.old thread.new result }
    ensures device { ChangesThreadBlocks (addresses_blocks (removal_written_address thread.old.kept pair first) (thread_pair thread.old.kept (gone - 1)).at) thread.old.kept thread.new.kept }
    ensures survives { (take : CanRemoveDirectory thread.old.kept pair id first gone) → SurvivesLossSince thread.old.kept.disk thread.old.kept.history thread.new.kept.history
        (disk_tree thread.old.kept.disk thread.old.kept.pairs) (tree_without_entry thread.old.kept take.can.path take.can.name) }
{
    let own = index_after_unlinking(thread, pair, first, gone);
    unlink_directory_entry(alloc, thread, pair, id, first)?;
    drop_pair_at(alloc, thread, own, &MoveState::none())
}
