// Drops of pairs from the thread.

ghost use Rattle.std.specs.Prelude.{◌≡◌, ◌<◌, ◌-◌, Some, length, false, OnOk};
ghost use Rattle.std.specs.Option.{option_map};
ghost use Rattle.lfs_model.specs.format.Thread.{address_blocks};
ghost use Rattle.lfs_pair.specs.ChangeView.{change_view, changes_view};
ghost use Rattle.lfs_tag.specs.ContentView.{tail_view};
ghost use Rattle.lfs_tag.specs.FieldsView.{move_view};
ghost use Rattle.lfs_thread.specs.ThreadDevice.{CleanLossLeaves};
ghost use Rattle.lfs_thread.specs.ThreadSteps.{ChangesThreadBlocks, complete_after, thread_pair, tail_change};
ghost use Rattle.lfs_operations.specs.Dropping.{CanDropAt, IsPairDropped, LeftByDrop, delta_after_drop, dropping_changes, content_after_drop};
ghost use Rattle.lfs_model.specs.layers.StepResults.{predecessor_tail_after_drop};
ghost use Rattle.lfs_operations.specs.Removing.{ReportsCommit};

use lfs_device::{BlockDevice, Error};
use lfs_pair::Change;
use lfs_tag::{MoveState, Tail, has_hard_tail};
use lfs_thread::{Thread, gstate_xor_delta};
use std::alloc::Global;

// Returns the change that sets a pair's tail for the drop of the next pair. `front` is the pair's
// old tail, and `gone` is the tail of the dropped pair.
fn predecessor_tail_change(front: Option<Tail>, gone: Option<Tail>) -> Change<'static>
    ensures { change_view result ≡ tail_change (predecessor_tail_after_drop (option_map tail_view front) (option_map tail_view gone)) }
{
    match gone {
        None => Change::Tail {
            hard: false,
            pair: None,
        },
        Some(tail) => Change::Tail {
            hard: has_hard_tail(front) && tail.hard,
            pair: Some(tail.pair),
        },
    }
}

// Returns the new gstate delta of the pair before the dropped one. This delta makes the global
// state `state`.
fn predecessor_new_delta<D: BlockDevice>(
    thread: &Thread<D>,
    index: usize,
    state: &MoveState,
) -> MoveState
    requires works { thread.now.failed ≡ false }
    requires above { 0 < index }
    requires below { index < length thread.now.kept.pairs }
    ensures { move_view result ≡ delta_after_drop thread.now.kept (index - 1) (move_view state.now) }
{
    let both = gstate_xor_delta(&thread.delta(index - 1), &thread.delta(index));
    let turned = gstate_xor_delta(&thread.state(), state);
    gstate_xor_delta(&both, &turned)
}

// Returns the changes that set the tail and the gstate delta of the pair before the dropped one.
fn changes_for_drop<D: BlockDevice>(
    thread: &Thread<D>,
    index: usize,
    state: &MoveState,
) -> [Change<'static>; 2]
    requires works { thread.now.failed ≡ false }
    requires can { CanDropAt thread.now.kept index (move_view state.now) }
    ensures are { changes_view result ≡ dropping_changes thread.now.kept (index - 1) (move_view state.now) }
    ensures made { complete_after thread.now.kept (index - 1) (changes_view result) ≡ Some (content_after_drop thread.now.kept (index - 1) (move_view state.now)) }
{
    // The proof needs that a device's blocks consist of bytes, so that the tail can be written
    // again.
    let _device = thread.device();
    [
        predecessor_tail_change(thread.tail_of_pair(index - 1), thread.tail_of_pair(index)),
        Change::Move {
            state: predecessor_new_delta(thread, index, state),
        },
    ]
}

// Drops a pair from the thread by one commit to the previous pair. The previous pair gets the
// dropped pair's tail, and the gstate delta that makes the global state `state` (DESIGN.md of
// littlefs, "The move problem"). Frees the blocks of the dropped pair.
//
// Errors: `Io` if a call of the device fails. `NoMemory`, with nothing written, if memory for the
// pair's slots and its block can't be allocated. After either error, the thread has failed.
pub(crate) fn drop_pair_at<D: BlockDevice>(
    alloc: Global,
    thread: &mut Thread<D>,
    index: usize,
    state: &MoveState,
) -> Result<(), Error>
    requires works { thread.old.failed ≡ false }
    requires can { CanDropAt thread.old.kept index (move_view state.now) }
    ensures is_dropped { OnOk result (IsPairDropped thread.old.kept (index - 1) (move_view state.now) thread.new.kept) }
    ensures errors { ReportsCommit thread.old thread.new result }
    ensures device { ChangesThreadBlocks (address_blocks (thread_pair thread.old.kept (index - 1)).at) thread.old.kept thread.new.kept }
    ensures stops { CleanLossLeaves thread.old.kept.history thread.new.kept.history (LeftByDrop thread.old.kept (index - 1) (move_view state.now)) }
{
    let changes = changes_for_drop(thread, index, state);
    // The slots stay, and a pair reserves room for tail and delta, so the commit never needs a
    // split.
    thread.drop_next(alloc, index - 1, &changes)?;
    Ok(())
}
