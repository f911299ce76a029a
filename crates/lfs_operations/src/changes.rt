// Changes of a pair, which is split if the changed content doesn't fit.

ghost use Rattle.std.specs.Prelude.{◌≡◌, ◌≤◌, ◌+◌, false, IfSome, IfNone, OnOk};
ghost use Rattle.lfs_model.specs.session.History.{read_count};
ghost use Rattle.lfs_model.specs.format.Slots.{address_of_array};
ghost use Rattle.lfs_pair.specs.ChangeView.{changes_view};
ghost use Rattle.lfs_thread.specs.ThreadDevice.{CleanLossLeaves};
ghost use Rattle.lfs_model.specs.format.Thread.{address_blocks};
ghost use Rattle.lfs_thread.specs.ThreadSteps.{ChangesThreadBlocks, IsPairCommitted, LossLeavesPair, thread_pair};
ghost use Rattle.lfs_operations.specs.Removing.{ReportsCommit};
ghost use Rattle.lfs_operations.specs.Changing.{AreTwoFreeBlocks, CanCommit, CanCommitOrSplit, HasTwoFreeBlocks, IsPairSplit, LeftBySplit, LeftByCommitOrSplit, AreCommittedOrSplit, ReportsAllocatingCommit, ReportsCommitOrSplit, WritesPairAndTwoFree, map_allocating_two};

use lfs_device::{BlockDevice, Error};
use lfs_pair::{Change, Outcome};
use lfs_thread::Thread;
use std::alloc::Global;

// Allocates two free blocks, which are in flight afterwards. Returns None, and allocates nothing,
// if fewer than two blocks are free.
pub(crate) fn allocate_two_blocks<D: BlockDevice>(thread: &mut Thread<D>) -> Option<[u32; 2]>
    ensures were_free { IfSome result (λ fresh. AreTwoFreeBlocks thread.old.kept.map (address_of_array fresh)) }
    ensures taken { IfSome result (λ fresh. thread.new ≡ record thread.old { kept = record thread.old.kept { map = map_allocating_two thread.old.kept.map (address_of_array fresh) } }) }
    ensures none { IfNone result (HasTwoFreeBlocks thread.old.kept.map → ⊥) }
    ensures same { IfNone result (thread.new ≡ thread.old) }
{
    let Some(first) = thread.take() else {
        return None;
    };
    let Some(second) = thread.take() else {
        thread.release(first);
        return None;
    };
    Some([first, second])
}

// Allocates the two given free blocks, which are in flight afterwards.
pub(crate) fn mark_blocks_allocated<D: BlockDevice>(thread: &mut Thread<D>, blocks: [u32; 2])
    requires { AreTwoFreeBlocks thread.old.kept.map (address_of_array blocks) }
    ensures { thread.new ≡ record thread.old { kept = record thread.old.kept { map = map_allocating_two thread.old.kept.map (address_of_array blocks) } } }
{
    thread.take_at(blocks[0]);
    thread.take_at(blocks[1]);
}

// Commits changes to a pair while splitting it, with two free blocks for the new pair. Returns
// `NoSpace` if fewer than two blocks are free.
#[tactic(auto, using(crate::proofs::Putting::read_at_most))]
fn commit_and_split<D: BlockDevice>(
    alloc: Global,
    thread: &mut Thread<D>,
    index: usize,
    changes: &[Change<'_>],
) -> Result<(), Error>
    requires works { thread.old.failed ≡ false }
    requires can { CanCommitOrSplit thread.old.kept index (changes_view changes.now) }
    ensures is_cut { OnOk result (IsPairSplit thread.old.kept index (changes_view changes.now) thread.new.kept) }
    ensures errors { ReportsAllocatingCommit thread.old thread.new result }
    ensures device { WritesPairAndTwoFree thread.old.kept index thread.new.kept }
    ensures few { read_count thread.new.kept.history ≤ read_count thread.old.kept.history + 4 }
    ensures stops { CleanLossLeaves thread.old.kept.history thread.new.kept.history (LeftBySplit thread.old.kept index (changes_view changes.now)) }
{
    let Some(fresh) = allocate_two_blocks(thread) else {
        return Err(Error::NoSpace);
    };
    thread.split(alloc, index, fresh, changes)
}

// Commits changes to a pair, and splits the pair if the changed content doesn't fit.
#[tactic(auto, using(crate::proofs::Putting::read_at_most))]
pub(crate) fn commit_or_split<D: BlockDevice>(
    alloc: Global,
    thread: &mut Thread<D>,
    index: usize,
    changes: &[Change<'_>],
) -> Result<(), Error>
    requires works { thread.old.failed ≡ false }
    requires can { CanCommitOrSplit thread.old.kept index (changes_view changes.now) }
    ensures is_put { OnOk result (AreCommittedOrSplit thread.old.kept index (changes_view changes.now) thread.new.kept) }
    ensures errors { ReportsCommitOrSplit thread.old thread.new index (changes_view changes.now) result }
    ensures device { WritesPairAndTwoFree thread.old.kept index thread.new.kept }
    ensures few { read_count thread.new.kept.history ≤ read_count thread.old.kept.history + 6 }
    ensures stops { CleanLossLeaves thread.old.kept.history thread.new.kept.history (LeftByCommitOrSplit thread.old.kept index (changes_view changes.now)) }
{
    match thread.commit_pair_changes(alloc, index, changes)? {
        Outcome::Done => Ok(()),
        Outcome::Full => commit_and_split(alloc, thread, index, changes),
    }
}

// Commits changes to a pair. Requires that the changed content fits, so the commit never needs a
// split.
pub(crate) fn commit_without_split<D: BlockDevice>(
    alloc: Global,
    thread: &mut Thread<D>,
    index: usize,
    changes: &[Change<'_>],
) -> Result<(), Error>
    requires works { thread.old.failed ≡ false }
    requires can { CanCommit thread.old.kept index (changes_view changes.now) }
    ensures is_changed { OnOk result (IsPairCommitted thread.old.kept index (changes_view changes.now) thread.new.kept) }
    ensures errors { ReportsCommit thread.old thread.new result }
    ensures device { ChangesThreadBlocks (address_blocks (thread_pair thread.old.kept index).at) thread.old.kept thread.new.kept }
    ensures stops { CleanLossLeaves thread.old.kept.history thread.new.kept.history (LossLeavesPair thread.old.kept index (changes_view changes.now)) }
{
    thread.commit_pair_changes(alloc, index, changes)?;
    Ok(())
}
