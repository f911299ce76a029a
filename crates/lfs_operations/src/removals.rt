// Removals of files.

ghost use Rattle.std.specs.Prelude.{◌≡◌, ◌<◌, ◌-◌, length, false, true, OnOk};
ghost use Rattle.lfs_model.specs.crash.PowerLoss.{SurvivesLossSince};
ghost use Rattle.lfs_model.specs.tree.Shown.{disk_tree};
ghost use Rattle.lfs_thread.specs.ThreadSteps.{ChangesThreadBlocks};
ghost use Rattle.lfs_operations.specs.Changing.{IsPairChangedOrDropped};
ghost use Rattle.lfs_operations.specs.Editing.{editable_slot};
ghost use Rattle.lfs_operations.specs.Removing.{CanRemoveIn, IsFileRemoved, ReportsCommit, drops_pair_after_removal, tree_without_entry, removal_written_address};
ghost use Rattle.lfs_model.specs.format.Thread.{address_blocks};

use crate::changes::commit_without_split;
use crate::drops::drop_pair_at;
use lfs_device::{BlockDevice, Error};
use lfs_pair::Change;
use lfs_tag::MoveState;
use lfs_thread::Thread;
use std::alloc::Global;

// Returns whether a pair must be dropped when one of its slots is deleted. That is the case if the
// pair has no other slot and isn't the first of its directory.
pub(crate) fn must_drop_pair<D: BlockDevice>(thread: &Thread<D>, pair: usize, first: usize) -> bool
    requires works { thread.now.failed ≡ false }
    requires below { pair < length thread.now.kept.pairs }
    ensures { result ≡ drops_pair_after_removal thread.now.kept pair first }
{
    pair != first && thread.slot_count(pair) == 1
}

/// Removes the file with id `id` in the pair with index `pair` from its directory, whose first pair
/// has index `first`. If the pair has no other slot and isn't the directory's first, drops the pair
/// and gives its tail to the previous pair. The blocks of the file's list stay used in the map
/// until the caller frees them.
///
/// Errors: `Io` if a call of the device fails. `NoMemory`, with nothing written, if memory for the
/// pair's slots and its block can't be allocated. After either error, the thread has failed.
pub fn remove_file<D: BlockDevice>(
    alloc: Global,
    thread: &mut Thread<D>,
    pair: usize,
    id: u16,
    first: usize,
) -> Result<(), Error>
    requires works { thread.old.failed ≡ false }
    requires can { CanRemoveIn thread.old.kept pair id first }
    ensures is_removed { OnOk result ((take : CanRemoveIn thread.old.kept pair id first) → IsFileRemoved thread.old.kept thread.new.kept take.can.path take.can.name (editable_slot take.can).struct) }
    ensures alters { OnOk result (drops_pair_after_removal thread.old.kept pair first ≡ true → IsPairChangedOrDropped thread.old.kept (pair - 1) thread.new.kept) }
    ensures errors { ReportsCommit thread.old thread.new result }
    ensures device { ChangesThreadBlocks (address_blocks (removal_written_address thread.old.kept pair first)) thread.old.kept thread.new.kept }
    ensures survives { (take : CanRemoveIn thread.old.kept pair id first) → SurvivesLossSince thread.old.kept.disk thread.old.kept.history thread.new.kept.history
        (disk_tree thread.old.kept.disk thread.old.kept.pairs) (tree_without_entry thread.old.kept take.can.path take.can.name) }
{
    if must_drop_pair(thread, pair, first) {
        drop_pair_at(alloc, thread, pair, &MoveState::none())
    } else {
        // The remaining content fits, so this commit never needs a split.
        commit_without_split(alloc, thread, pair, &[Change::Delete { id }])
    }
}
