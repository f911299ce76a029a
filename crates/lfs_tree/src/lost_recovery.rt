// Recovery: completes what a power loss left half done.

ghost use Rattle.std.specs.Prelude.{◌≡◌, true, OnOk};
ghost use Rattle.lfs_model.specs.format.Slots.{zero_gstate};
ghost use Rattle.lfs_model.specs.format.Thread.{pairs_blocks, pairs_gstate, count_before_root};
ghost use Rattle.lfs_model.specs.tree.Shown.{disk_tree};
ghost use Rattle.lfs_operations.specs.Recovering.{CanDropPairs, slots_of_pairs_at};
ghost use Rattle.lfs_thread.specs.ThreadSteps.{ChangesThreadBlocks};
ghost use Rattle.lfs_tree.specs.TreeChanges.{IsLaterOnSameDevice, ChangesTreeOrFails, PowerLossLeavesEither};
ghost use Rattle.lfs_tree.specs.RootedThreads.{IsSoundWithRoot};
ghost use Rattle.lfs_tree.specs.LostLists.{slots_lists};
ghost use Rattle.lfs_tree.specs.Recoveries.{CanDropUnreached, HasDroppedUnreached, HasRecovered};
ghost use Rattle.lfs_tree.specs.Working.{IsWorkingAndMeets, WorksOrReportsFault};

use crate::entries_at::lemma_block_facts;
use crate::lost_lists::{free_lists, lists_of_pairs};
use crate::orphans::find_unreached_pairs;
use lfs_device::{BlockDevice, Error};
use lfs_file::StoredList;
use lfs_operations::{drop_unreached_pairs, end_move};
use lfs_thread::Thread;
use std::alloc::Global;

// Drops the orphans `numbers`, and frees the CTZ skip-lists that their slots refer to. No move is
// pending.
//
// Errors: `Io` if a device call fails, or `NoMemory` if memory can't be allocated.
fn drop_with_lists<D: BlockDevice>(
    alloc: Global,
    thread: &mut Thread<D>,
    numbers: &[usize],
    lists: &[StoredList],
) -> Result<(), Error>
    requires can { IsWorkingAndMeets thread.old (λ t. CanDropPairs t numbers.now) }
    requires lists { lists.now ≡ slots_lists (slots_of_pairs_at thread.old.kept.pairs numbers.now) }
    ensures dropped { OnOk result (HasDroppedUnreached thread.old.kept thread.new.kept) }
    ensures reports { WorksOrReportsFault thread.old thread.new result }
    ensures device { ChangesThreadBlocks (pairs_blocks thread.old.kept.pairs) thread.old.kept thread.new.kept }
    ensures survives { PowerLossLeavesEither thread.old.kept thread.new.kept (disk_tree thread.old.kept.disk thread.old.kept.pairs) }
{
    drop_unreached_pairs(alloc, thread, numbers)?;
    free_lists(thread, lists)?;
    Ok(())
}

// Drops all orphans, the pairs of directories that no path leads to, with their files. No move is
// pending, and the root directory begins with the pair of index `root`.
//
// Returns the same errors as `drop_with_lists`.
fn drop_unreached_directories<D: BlockDevice>(
    alloc: Global,
    thread: &mut Thread<D>,
    root: usize,
) -> Result<(), Error>
    requires can { IsWorkingAndMeets thread.old CanDropUnreached }
    requires root { root ≡ count_before_root thread.old.kept.pairs }
    ensures dropped { OnOk result (HasDroppedUnreached thread.old.kept thread.new.kept) }
    ensures reports { WorksOrReportsFault thread.old thread.new result }
    ensures called { IsLaterOnSameDevice thread.old.kept thread.new.kept }
    ensures survives { PowerLossLeavesEither thread.old.kept thread.new.kept (disk_tree thread.old.kept.disk thread.old.kept.pairs) }
{
    lemma_block_facts(thread);
    let numbers = find_unreached_pairs(alloc, thread, root)?;
    // Read the lists before dropping the pairs that refer to them.
    let lists = lists_of_pairs(alloc, thread, &numbers)?;
    drop_with_lists(alloc, thread, &numbers, &lists)?;
    Ok(())
}

// Completes a pending move and drops the orphans that a power loss left.
//
// Returns the same errors as `drop_unreached_directories`.
pub(crate) fn recover_thread<D: BlockDevice>(
    alloc: Global,
    thread: &mut Thread<D>,
    root: usize,
) -> Result<(), Error>
    requires rooted { IsSoundWithRoot thread.old root true }
    requires left { pairs_gstate thread.old.kept.pairs ≡ zero_gstate → ⊥ }
    ensures { ChangesTreeOrFails thread.old (HasRecovered thread.old.kept) (disk_tree thread.old.kept.disk thread.old.kept.pairs) result thread.new }
{
    end_move(alloc, thread)?;
    drop_unreached_directories(alloc, thread, root)
}
