// Recovery, which completes the operation that a power loss interrupted.

ghost use Rattle.std.specs.Prelude.{◌≡◌, ◌<◌, ◌+◌, ◌-◌, ◌&&◌, false, OnOk, length, if◌then◌else◌, IfNone, IfSome, Option, Some};
ghost use Rattle.lfs_model.specs.crash.PowerLoss.{SurvivesLossSince};
ghost use Rattle.lfs_model.specs.session.Recovery.{IsRecovered};
ghost use Rattle.lfs_model.specs.format.Slots.{zero_gstate};
ghost use Rattle.lfs_model.specs.format.Thread.{pairs_blocks, pairs_gstate, address_blocks};
ghost use Rattle.lfs_model.specs.tree.View.{IsAccepted};
ghost use Rattle.lfs_model.specs.tree.Shown.{disk_tree};
ghost use Rattle.lfs_model.specs.layers.Steps.{HasNoMove};
ghost use Rattle.lfs_tag.specs.FieldsView.{move_view};
ghost use Rattle.lfs_thread.specs.ThreadDevice.{CleanLossLeaves};
ghost use Rattle.lfs_thread.specs.ThreadSteps.{complete_after, IsPairCommitted, LossLeavesPair, ChangesThreadBlocks, thread_pair};
ghost use Rattle.lfs_operations.specs.Deltas.{content_reaching_gstate, CanSetGstate, tail_is_hard, gstate_changes, delta_reaching_gstate};
ghost use Rattle.lfs_operations.specs.Recovering.{CanClearSync, CanDropPairs, HasCompletedRecovery, IsSyncCleared, ReportsRecovery, gstate_while_dropping};
ghost use Rattle.lfs_operations.specs.EndingMove.{CanEndMove, HasEndedMove, HasMovedSlot, drops_pair_after_move};
ghost use Rattle.lfs_operations.specs.Removing.{ReportsCommit};

use crate::changes::commit_without_split;
use crate::drops::drop_pair_at;
use crate::moves;
use crate::new_directories::lemma_device_facts;
use lfs_device::{BlockDevice, Error};
use lfs_pair::Change;
use lfs_tag::MoveState;
use lfs_tag::kinds::DELETE;
use lfs_thread::{Thread, gstate_xor_delta, number_at_address};
use std::alloc::Global;

// Returns the new gstate delta of a pair. This delta makes the global state `wanted`.
fn delta_for_gstate<D: BlockDevice>(
    thread: &Thread<D>,
    index: usize,
    wanted: &MoveState,
) -> MoveState
    requires works { thread.now.failed ≡ false }
    requires below { index < length thread.now.kept.pairs }
    ensures { move_view result ≡ delta_reaching_gstate thread.now.kept index (move_view wanted.now) }
{
    let change = gstate_xor_delta(wanted, &thread.state());
    gstate_xor_delta(&change, &thread.delta(index))
}

// Returns whether a pair's tail is hard.
fn is_tail_hard<D: BlockDevice>(thread: &Thread<D>, index: usize) -> bool
    requires works { thread.now.failed ≡ false }
    requires below { index < length thread.now.kept.pairs }
    ensures { result ≡ tail_is_hard thread.now.kept index }
{
    thread.next(index).is_some()
}

// Commits a new gstate delta to a pair, so that the global state becomes `wanted`.
fn set_gstate_in<D: BlockDevice>(
    alloc: Global,
    thread: &mut Thread<D>,
    index: usize,
    wanted: &MoveState,
) -> Result<(), Error>
    requires works { thread.old.failed ≡ false }
    requires can { CanSetGstate thread.old.kept index (move_view wanted.now) }
    ensures is_set { OnOk result (IsPairCommitted thread.old.kept index (gstate_changes thread.old.kept index (move_view wanted.now)) thread.new.kept) }
    ensures errors { ReportsCommit thread.old thread.new result }
    ensures made { complete_after thread.old.kept index (gstate_changes thread.old.kept index (move_view wanted.now)) ≡ Some (content_reaching_gstate thread.old.kept index (move_view wanted.now)) }
    ensures device { ChangesThreadBlocks (address_blocks (thread_pair thread.old.kept index).at) thread.old.kept thread.new.kept }
    ensures stops { CleanLossLeaves thread.old.kept.history thread.new.kept.history (LossLeavesPair thread.old.kept index (gstate_changes thread.old.kept index (move_view wanted.now))) }
{
    lemma_device_facts(thread);
    let state = delta_for_gstate(thread, index, wanted);
    // The pair keeps its slots, so this commit never needs a split.
    commit_without_split(alloc, thread, index, &[Change::Move { state }])
}

// Returns the global state after the drop of an orphan: zero if the orphan is the last one, or the
// current state otherwise.
fn gstate_after_drop<D: BlockDevice>(thread: &Thread<D>, is_last: bool) -> MoveState
    requires { thread.now.failed ≡ false }
    ensures { move_view result ≡ gstate_while_dropping thread.now.kept is_last }
{
    if is_last {
        MoveState::none()
    } else {
        thread.state()
    }
}

// Clears the sync bit if it is set. Requires that there are no orphans.
fn clear_sync_bit<D: BlockDevice>(alloc: Global, thread: &mut Thread<D>) -> Result<(), Error>
    requires works { thread.old.failed ≡ false }
    requires can { CanClearSync thread.old.kept }
    ensures nothing { pairs_gstate thread.old.kept.pairs ≡ zero_gstate → thread.new.kept ≡ thread.old.kept }
    ensures is_cleared { OnOk result (IsSyncCleared thread.old.kept thread.new.kept) }
    ensures errors { ReportsCommit thread.old thread.new result }
    ensures device { ChangesThreadBlocks (pairs_blocks thread.old.kept.pairs) thread.old.kept thread.new.kept }
    ensures survives { SurvivesLossSince thread.old.kept.disk thread.old.kept.history thread.new.kept.history
        (disk_tree thread.old.kept.disk thread.old.kept.pairs) (disk_tree thread.old.kept.disk thread.old.kept.pairs) }
{
    if thread.state().sync {
        let last = thread.len() - 1;
        set_gstate_in(alloc, thread, last, &MoveState::none())
    } else {
        Ok(())
    }
}

/// Drops all orphans, which are the pairs of directories to which no path leads. Each orphan is
/// dropped by one commit to the previous pair (DESIGN.md of littlefs, "The move problem"). The last
/// commit also clears the sync bit. If the sync bit is set but there is no orphan, one commit
/// clears the bit. Writes nothing if the image needs no recovery.
///
/// Requires that no move is pending, and that `unreached` contains the indices of all orphans in
/// ascending order. The blocks of the orphans' files stay used in the map until the caller frees
/// them.
///
/// Errors: `Io` if a call of the device fails. `NoMemory` if memory for a pair's slots and its
/// block can't be allocated. After either error, the thread has failed.
pub fn drop_unreached_pairs<D: BlockDevice>(
    alloc: Global,
    thread: &mut Thread<D>,
    unreached: &[usize],
) -> Result<(), Error>
    requires works { thread.old.failed ≡ false }
    requires can { CanDropPairs thread.old.kept unreached.now }
    ensures nothing { IsRecovered thread.old.kept.pairs → thread.new.kept ≡ thread.old.kept }
    ensures recovered { OnOk result (HasCompletedRecovery thread.old.kept unreached.now thread.new.kept) }
    ensures errors { ReportsRecovery thread.old thread.new result }
    ensures device { ChangesThreadBlocks (pairs_blocks thread.old.kept.pairs) thread.old.kept thread.new.kept }
    ensures survives { SurvivesLossSince thread.old.kept.disk thread.old.kept.history thread.new.kept.history
        (disk_tree thread.old.kept.disk thread.old.kept.pairs) (disk_tree thread.old.kept.disk thread.old.kept.pairs) }
{
    for dropped in 0..unreached.len() {
        let behind = unreached[dropped] - dropped;
        let wanted = gstate_after_drop(thread, dropped + 1 == unreached.len());
        drop_pair_at(alloc, thread, behind, &wanted)?;
    }
    clear_sync_bit(alloc, thread)
}

// Returns the index of the pair that has the slot of a pending move. Returns None if no move is
// pending.
fn moved_slot_pair<D: BlockDevice>(thread: &Thread<D>, state: &MoveState) -> Option<usize>
    requires accepted { IsAccepted thread.now.kept.disk thread.now.kept.pairs }
    requires state { move_view state.now ≡ pairs_gstate thread.now.kept.pairs }
    ensures there { IfSome result (HasMovedSlot thread.now.kept) }
    ensures none { IfNone result (HasNoMove (pairs_gstate thread.now.kept.pairs)) }
{
    if state.kind != DELETE {
        return None;
    }
    number_at_address(thread, state.pair)
}

// Returns whether a pair has exactly one slot and follows a hard tail.
fn is_droppable_pair<D: BlockDevice>(thread: &Thread<D>, index: usize) -> bool
    requires works { thread.now.failed ≡ false }
    requires below { index < length thread.now.kept.pairs }
    ensures { result ≡ drops_pair_after_move thread.now.kept index }
{
    index > 0 && thread.slot_count(index) == 1 && is_tail_hard(thread, index - 1)
}

/// Ends a pending move by one commit, which deletes the slot to which the move refers (DESIGN.md of
/// littlefs, "The move problem"). If that slot is the only one of its pair, and the pair isn't the
/// first of its directory, the commit drops the pair. Writes nothing if no move is pending.
///
/// Errors: `Io` if a call of the device fails. `NoMemory` if memory for a pair's slots and its
/// block can't be allocated. After either error, the thread has failed.
pub fn end_move<D: BlockDevice>(alloc: Global, thread: &mut Thread<D>) -> Result<(), Error>
    requires works { thread.old.failed ≡ false }
    requires can { CanEndMove thread.old.kept }
    ensures nothing { HasNoMove (pairs_gstate thread.old.kept.pairs) → thread.new.kept ≡ thread.old.kept }
    ensures ended { OnOk result (HasEndedMove thread.old.kept thread.new.kept) }
    ensures errors { ReportsRecovery thread.old thread.new result }
    ensures device { ChangesThreadBlocks (pairs_blocks thread.old.kept.pairs) thread.old.kept thread.new.kept }
    ensures survives { SurvivesLossSince thread.old.kept.disk thread.old.kept.history thread.new.kept.history
        (disk_tree thread.old.kept.disk thread.old.kept.pairs) (disk_tree thread.old.kept.disk thread.old.kept.pairs) }
{
    let state = thread.state();
    let Some(index) = moved_slot_pair(thread, &state) else {
        return Ok(());
    };
    let goes = is_droppable_pair(thread, index);
    lemma_device_facts(thread);
    moves::end_move(alloc, thread, index, state.id, goes)
}
