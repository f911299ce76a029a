// Renames across pairs, and ends of moves.

ghost use Rattle.std.specs.Prelude.{◌≡◌, ◌<◌, ◌-◌, ◌^◌, [], ◌∷◌, ◌++◌, true, false, length, IfOk, OnOk};
ghost use Rattle.lfs_model.specs.layers.Changes.{PutMove};
ghost use Rattle.lfs_model.specs.format.Slots.{gstate_xor};
ghost use Rattle.lfs_operations.specs.RenamingView.{slot_copy_view};
ghost use Rattle.lfs_model.specs.layers.SlotChanges.{slot_creation_changes};
ghost use Rattle.lfs_model.specs.layers.LoggedContent.{AreU32Addresses};
ghost use Rattle.lfs_model.specs.crash.PowerLoss.{SurvivesLossSince};
ghost use Rattle.lfs_model.specs.format.Thread.{pairs_gstate, address_blocks};
ghost use Rattle.lfs_model.specs.tree.Shown.{disk_tree};
ghost use Rattle.lfs_tag.specs.FieldsView.{move_view};
ghost use Rattle.lfs_thread.specs.ThreadSteps.{ChangesThreadBlocks, thread_pair};
ghost use Rattle.lfs_pair.specs.ChangeView.{changes_view};
ghost use Rattle.lfs_operations.specs.Altering.{WritesChangedPairsOrFree};
ghost use Rattle.lfs_operations.specs.Changing.{WritesThreadAndTwoFree};
ghost use Rattle.lfs_operations.specs.MoveEnds.{CanEndMoveAt, HasEndedMoveAt, move_ending_written_pair, delta_without_move};
ghost use Rattle.lfs_model.specs.layers.StepResults.{gstate_with_move, gstate_without_move};
ghost use Rattle.lfs_operations.specs.MovingSteps.{CanCopyAndEndMove, IsMoveCopiedAndEnded, PowerLossKeepsEitherTree, ReportsAllocatingCommits, WritesPairsAndTwoFree, move_ending_pair, pair_index_after_insertion};
ghost use Rattle.lfs_operations.specs.MovingAcross.{CanMoveBetweenPairs, CanReplaceDirectoryBetweenPairs, IsMovedBetweenPairs, IsRenamedBetweenPairs, move_start_changes, removal_changes, route_blocks, tree_with_entry_moved};
ghost use Rattle.lfs_operations.specs.Removing.{ReportsCommit};

use crate::changes::{commit_or_split, commit_without_split};
use crate::drops::drop_pair_at;
use crate::removals::must_drop_pair;
use crate::slot_copies::{SlotCopy, copy_pair_slot, push_slot_changes};
use lfs_device::{BlockDevice, Error};
use lfs_pair::Change;
use lfs_tag::MoveState;
use lfs_tag::kinds::DELETE;
use lfs_thread::{Thread, gstate_xor_delta, number_at_address};
use std::alloc::{AllocError, Global};

/// The source and the target of a rename across pairs.
#[derive(Clone, Copy)]
pub struct Route {
    /// The index in the thread of the entry's old pair.
    pub old_pair: usize,
    /// The entry's id in the old pair.
    pub old_id: u16,
    /// The index of the first pair of the entry's old directory.
    pub first: usize,
    /// The index in the thread of the entry's new pair.
    pub new_pair: usize,
    /// The entry's id in the new pair.
    pub new_id: u16,
}

// Returns the gstate delta of a pair that ends the pending move.
fn delta_without_move<D: BlockDevice>(thread: &Thread<D>, pair: usize) -> MoveState
    requires works { thread.now.failed ≡ false }
    requires below { pair < length thread.now.kept.pairs }
    ensures delta { move_view result ≡ delta_without_move thread.now.kept pair }
    ensures address { AreU32Addresses (move_view result).pair }
{
    let mut state = thread.state();
    state.sync = false;
    let delta = thread.delta(pair);
    gstate_xor_delta(&state, &delta)
}

// Deletes the slot to which a pending move refers, and ends the move. Keeps the slot's pair in the
// thread.
fn end_move_committing<D: BlockDevice>(
    alloc: Global,
    thread: &mut Thread<D>,
    pair: usize,
    id: u16,
) -> Result<(), Error>
    requires works { thread.old.failed ≡ false }
    requires can { CanEndMoveAt thread.old.kept pair id false }
    ensures ended { OnOk result (HasEndedMoveAt thread.old.kept pair id false thread.new.kept) }
    ensures errors { ReportsCommit thread.old thread.new result }
    ensures device { ChangesThreadBlocks (address_blocks (thread_pair thread.old.kept pair).at) thread.old.kept thread.new.kept }
    ensures survives { SurvivesLossSince thread.old.kept.disk thread.old.kept.history thread.new.kept.history
        (disk_tree thread.old.kept.disk thread.old.kept.pairs) (disk_tree thread.old.kept.disk thread.old.kept.pairs) }
{
    let state = delta_without_move(thread, pair);
    // The remaining content fits, so this commit never needs a split.
    let changes = [Change::Delete { id }, Change::Move { state }];
    commit_without_split(alloc, thread, pair, &changes)
}

// Returns the global state without its pending move.
fn gstate_ending_move<D: BlockDevice>(thread: &Thread<D>) -> MoveState
    requires { thread.now.failed ≡ false }
    ensures { move_view result ≡ gstate_without_move (pairs_gstate thread.now.kept.pairs) }
{
    let mut state = MoveState::none();
    state.sync = thread.state().sync;
    state
}

// Drops a pair whose only slot is that of a pending move, and ends the move.
fn end_move_dropping<D: BlockDevice>(
    alloc: Global,
    thread: &mut Thread<D>,
    pair: usize,
    id: u16,
) -> Result<(), Error>
    requires works { thread.old.failed ≡ false }
    requires can { CanEndMoveAt thread.old.kept pair id true }
    ensures ended { OnOk result (HasEndedMoveAt thread.old.kept pair id true thread.new.kept) }
    ensures errors { ReportsCommit thread.old thread.new result }
    ensures device { ChangesThreadBlocks (address_blocks (thread_pair thread.old.kept (pair - 1)).at) thread.old.kept thread.new.kept }
    ensures survives { SurvivesLossSince thread.old.kept.disk thread.old.kept.history thread.new.kept.history
        (disk_tree thread.old.kept.disk thread.old.kept.pairs) (disk_tree thread.old.kept.disk thread.old.kept.pairs) }
{
    let state = gstate_ending_move(thread);
    drop_pair_at(alloc, thread, pair, &state)
}

// Deletes the slot to which a pending move refers, and ends the move. If `goes` is true, drops the
// slot's pair, which must have no other slot and must not be its directory's first. This is the
// second step of a rename across pairs.
pub(crate) fn end_move<D: BlockDevice>(
    alloc: Global,
    thread: &mut Thread<D>,
    pair: usize,
    id: u16,
    goes: bool,
) -> Result<(), Error>
    requires works { thread.old.failed ≡ false }
    requires can { CanEndMoveAt thread.old.kept pair id goes }
    ensures ended { OnOk result (HasEndedMoveAt thread.old.kept pair id goes thread.new.kept) }
    ensures errors { ReportsCommit thread.old thread.new result }
    ensures device { ChangesThreadBlocks (address_blocks (thread_pair thread.old.kept (move_ending_written_pair pair goes)).at) thread.old.kept thread.new.kept }
    ensures survives { SurvivesLossSince thread.old.kept.disk thread.old.kept.history thread.new.kept.history
        (disk_tree thread.old.kept.disk thread.old.kept.pairs) (disk_tree thread.old.kept.disk thread.old.kept.pairs) }
{
    if goes {
        end_move_dropping(alloc, thread, pair, id)
    } else {
        end_move_committing(alloc, thread, pair, id)
    }
}

// Returns the index of a pair after `fresh` pairs were inserted after the pair `other`.
fn index_after_insertion(pair: usize, other: usize, fresh: usize) -> usize
    requires { pair_index_after_insertion pair other fresh < 2 ^ 64 }
    ensures { result ≡ pair_index_after_insertion pair other fresh }
{
    if pair < other { pair } else { pair + fresh }
}

// Commits changes, which set a move, to the new pair. Then ends the move in the old pair, which has
// the slot to which the move refers.
fn copy_then_end<D: BlockDevice>(
    alloc: Global,
    thread: &mut Thread<D>,
    route: Route,
    goes: bool,
    changes: &[Change<'_>],
) -> Result<(), Error>
    requires works { thread.old.failed ≡ false }
    requires can { CanCopyAndEndMove thread.old.kept route.old_pair route.old_id goes route.new_pair (changes_view changes.now) }
    ensures done { OnOk result (IsMoveCopiedAndEnded thread.old.kept route.old_pair route.old_id goes route.new_pair (changes_view changes.now) thread.new.kept) }
    ensures errors { ReportsAllocatingCommits thread.old thread.new route.new_pair (changes_view changes.now) result }
    ensures device { WritesPairsAndTwoFree thread.old.kept (move_ending_written_pair route.old_pair goes) route.new_pair thread.new.kept }
    ensures survives { PowerLossKeepsEitherTree thread.old.kept route.new_pair (changes_view changes.now) thread.new.kept }
{
    let before = thread.len();
    commit_or_split(alloc, thread, route.new_pair, changes)?;
    let fresh = thread.len() - before;
    let pair = index_after_insertion(route.old_pair, route.new_pair, fresh);
    end_move(alloc, thread, pair, route.old_id, goes)
}

// Returns the gstate delta of the new pair that sets a move of the old slot. The delta also sets
// the sync bit if `sync` is true. Requires that no move is pending.
fn move_start_delta<D: BlockDevice>(thread: &Thread<D>, route: Route, sync: bool) -> MoveState
    requires works { thread.now.failed ≡ false }
    requires old_below { route.old_pair < length thread.now.kept.pairs }
    requires new_below { route.new_pair < length thread.now.kept.pairs }
    ensures delta { move_view result ≡ gstate_xor (gstate_with_move sync (thread_pair thread.now.kept route.old_pair).at route.old_id) (thread_pair thread.now.kept route.new_pair).content.move }
    ensures address { AreU32Addresses (thread_pair thread.now.kept route.old_pair).at }
{
    let pair = thread.blocks_of_pair(route.old_pair);
    let state = MoveState {
        sync,
        kind: DELETE,
        id: route.old_id,
        pair,
    };
    let delta = thread.delta(route.new_pair);
    gstate_xor_delta(&state, &delta)
}

// Appends the change that deletes the slot with id `id`, if `replaces` is true.
pub(crate) fn push_slot_removal<'a>(
    changes: &mut Vec<Change<'a>>,
    replaces: bool,
    id: u16,
) -> Result<(), AllocError>
    ensures { OnOk result (changes_view changes.new.items ≡ changes_view changes.old.items ++ removal_changes replaces id) }
{
    if replaces {
        changes.push(Change::Delete { id })?;
    }
    Ok(())
}

// Returns the changes that set a gstate delta and create a copied slot at id `id`. If `replaces` is
// true, they delete the slot with that id first.
fn move_start_changes<'a>(
    alloc: Global,
    state: MoveState,
    replaces: bool,
    id: u16,
    name: &'a [u8],
    copy: &'a SlotCopy,
) -> Result<Vec<Change<'a>>, AllocError>
    ensures { IfOk result (λ changes. changes_view changes.items ≡ PutMove (move_view state) ∷ (removal_changes replaces id ++ slot_creation_changes id name.now (slot_copy_view copy.now))) }
{
    let mut changes = Vec::new(alloc);
    changes.push(Change::Move { state })?;
    push_slot_removal(&mut changes, replaces, id)?;
    push_slot_changes(&mut changes, id, name, copy)?;
    Ok(changes)
}

// Copies an entry into another pair, and sets a move that refers to the old slot. Then deletes the
// old slot, and ends the move. If `replaces` is true, first deletes the slot with the new id. If
// `sync` is true, sets the sync bit together with the move.
fn move_between_pairs<D: BlockDevice>(
    alloc: Global,
    thread: &mut Thread<D>,
    route: Route,
    replaces: bool,
    sync: bool,
    name: &[u8],
) -> Result<(), Error>
    requires works { thread.old.failed ≡ false }
    requires can { CanMoveBetweenPairs replaces sync thread.old.kept route name.now }
    ensures moved { OnOk result (IsMovedBetweenPairs replaces sync thread.old.kept route name.now thread.new.kept) }
    ensures errors { ReportsAllocatingCommits thread.old thread.new route.new_pair (move_start_changes replaces sync thread.old.kept route name.now) result }
    ensures device { WritesPairsAndTwoFree thread.old.kept (move_ending_pair thread.old.kept route.old_pair route.first) route.new_pair thread.new.kept }
    ensures survives { (rename : CanMoveBetweenPairs replaces sync thread.old.kept route name.now) → SurvivesLossSince thread.old.kept.disk thread.old.kept.history thread.new.kept.history
        (disk_tree thread.old.kept.disk thread.old.kept.pairs) (tree_with_entry_moved thread.old.kept rename.old.path rename.old.name rename.path name.now) }
{
    let goes = must_drop_pair(thread, route.old_pair, route.first);
    let copy = copy_pair_slot(alloc, thread, route.old_pair, route.old_id)?;
    let state = move_start_delta(thread, route, sync);
    let changes = move_start_changes(alloc, state, replaces, route.new_id, name, &copy)?;
    copy_then_end(alloc, thread, route, goes, &changes)
}

/// Renames an entry to a name that belongs in another pair, in the same directory or in another
/// one. If `replaces` is true, the entry replaces the file with the new id. The entry keeps its
/// struct and its attributes (DESIGN.md of littlefs, "The move problem"). The first commit copies
/// the entry under its new name, and sets a move that refers to the old slot. Until the second
/// commit, the old slot counts as deleted. The second commit deletes the old slot and ends the
/// move. The blocks of a replaced file's list stay used in the map until the caller frees them.
///
/// Drops the old pair if it has no other slot and isn't the first of its directory. If the entry
/// doesn't fit the new pair, splits the new pair, which allocates two free blocks.
///
/// Errors: `NoSpace`, with nothing changed, if the new pair must be split and fewer than two blocks
/// are free. `Io` if a call of the device fails. `NoMemory` if memory can't be allocated for the
/// pairs' slots, a copy of the entry and the pairs' blocks. After `Io` and `NoMemory`, the thread
/// hasn't failed if the error occurred before the first commit, while the entry was read. If `Io`
/// or `NoMemory` occurs later, the thread has failed. The device may then have only the first of
/// the two commits, and already has the new tree in that case.
pub fn rename_across<D: BlockDevice>(
    alloc: Global,
    thread: &mut Thread<D>,
    route: Route,
    replaces: bool,
    name: &[u8],
) -> Result<(), Error>
    requires works { thread.old.failed ≡ false }
    requires can { CanMoveBetweenPairs replaces false thread.old.kept route name.now }
    ensures renamed { OnOk result ((rename : CanMoveBetweenPairs replaces false thread.old.kept route name.now)
        → IsRenamedBetweenPairs thread.old.kept thread.new.kept rename.old.path rename.old.name rename.path name.now rename.gone) }
    ensures alters { OnOk result (WritesChangedPairsOrFree thread.old.kept (route_blocks replaces thread.old.kept route) thread.new.kept) }
    ensures errors { ReportsAllocatingCommits thread.old thread.new route.new_pair (move_start_changes replaces false thread.old.kept route name.now) result }
    ensures device { WritesPairsAndTwoFree thread.old.kept (move_ending_pair thread.old.kept route.old_pair route.first) route.new_pair thread.new.kept }
    ensures survives { (rename : CanMoveBetweenPairs replaces false thread.old.kept route name.now) → SurvivesLossSince thread.old.kept.disk thread.old.kept.history thread.new.kept.history
        (disk_tree thread.old.kept.disk thread.old.kept.pairs) (tree_with_entry_moved thread.old.kept rename.old.path rename.old.name rename.path name.now) }
{
    move_between_pairs(alloc, thread, route, replaces, false, name)
}

/// Renames an entry over an empty directory whose entry is in another pair, in the same parent
/// directory or in another one. The replaced directory's own pair has index `gone`. Works like a
/// rename over a file by [`rename_across`], except that the first commit also sets the sync bit. A
/// third commit drops the replaced directory's own pair, which has become an orphan, and clears the
/// sync bit.
///
/// Errors are those of [`rename_across`].
pub fn replace_across_pairs<D: BlockDevice>(
    alloc: Global,
    thread: &mut Thread<D>,
    route: Route,
    gone: usize,
    name: &[u8],
) -> Result<(), Error>
    requires works { thread.old.failed ≡ false }
    requires can { CanReplaceDirectoryBetweenPairs thread.old.kept route name.now gone }
    ensures renamed { OnOk result ((rename : CanReplaceDirectoryBetweenPairs thread.old.kept route name.now gone)
        → IsRenamedBetweenPairs thread.old.kept thread.new.kept rename.onto.old.path rename.onto.old.name rename.onto.path name.now []) }
    ensures alters { OnOk result (WritesChangedPairsOrFree thread.old.kept (route_blocks true thread.old.kept route) thread.new.kept) }
    ensures errors { ReportsAllocatingCommits thread.old thread.new route.new_pair (move_start_changes true true thread.old.kept route name.now) result }
    ensures device { WritesThreadAndTwoFree thread.old.kept thread.new.kept }
    ensures survives { (rename : CanReplaceDirectoryBetweenPairs thread.old.kept route name.now gone) → SurvivesLossSince thread.old.kept.disk thread.old.kept.history thread.new.kept.history
        (disk_tree thread.old.kept.disk thread.old.kept.pairs) (tree_with_entry_moved thread.old.kept rename.onto.old.path rename.onto.old.name rename.onto.path name.now) }
{
    let at = thread.blocks_of_pair(gone);
    move_between_pairs(alloc, thread, route, true, true, name)?;
    // The pair's index may have changed, because pairs before it may have been inserted or dropped.
    match number_at_address(thread, at) {
        Some(index) => drop_pair_at(alloc, thread, index, &MoveState::none()),
        None => Ok(()),
    }
}
