// The check of the move in a thread's global state.

ghost use Rattle.std.specs.Prelude.{◌≡◌, ◌++◌, ◌∷◌, Err, IfErr, List, OnOk, false, map, true};
ghost use Rattle.lfs_model.specs.format.Disk.{Disk};
ghost use Rattle.lfs_model.specs.format.Slots.{address_of_array};
ghost use Rattle.lfs_model.specs.format.Thread.{Pair as ThreadPair};
ghost use Rattle.lfs_model.specs.tree.View.{HasValidMove};
ghost use Rattle.lfs_model.specs.layers.Violations.{PairsBreak};
ghost use Rattle.lfs_model.specs.declared.violations.Violation.{Violation};
ghost use Rattle.lfs_pair.specs.Pair.{header_address};
ghost use Rattle.lfs_tag.specs.FieldsView.{move_view};
ghost use Rattle.lfs_mount.specs.MoveChecks.{HeadersHaveGstate, MoveSourceIsEntry, is_move_within_pairs, is_among_addresses};

use lfs_model::Violation;
use lfs_pair::{Pair, is_same_pair};
use lfs_tag::MoveState;
use lfs_tag::kinds::DELETE;
use lfs_thread::MountError;

// Returns whether one of the pairs has this address.
fn has_pair_at(address: [u32; 2], pairs: &[Pair]) -> bool
    ensures { result ≡ is_among_addresses (address_of_array address) (map header_address pairs.now) }
{
    for pair in pairs {
        if is_same_pair(address, pair.blocks) {
            return true;
        }
    }
    false
}

// Checks the move in the global state against the headers of the directories' pairs (SPEC.md of
// littlefs, "0x7ff LFS_TYPE_MOVESTATE"). The move is valid if none is pending and its fields are
// zero, or if it deletes a slot in one of the pairs. The pass over the slots checks later that the
// slot has a valid entry.
//
// Errors: `Corrupt`, with the rule `Move`, if and only if the move is invalid.
pub(crate) fn check_move(state: &MoveState, pairs: &[Pair]) -> Result<(), MountError>
    ensures ok { OnOk result (is_move_within_pairs (move_view state.now) (map header_address pairs.now) ≡ true) }
    ensures corrupt { IfErr result (λ e. (e ≡ MountError.Corrupt Violation.Move) × (is_move_within_pairs (move_view state.now) (map header_address pairs.now) ≡ false)) }
    ensures right { OnOk result ((chain : List ThreadPair) (p : ThreadPair) (rest : List ThreadPair)
        → HeadersHaveGstate (move_view state.now) pairs.now chain p rest → MoveSourceIsEntry (move_view state.now) (p ∷ rest) → HasValidMove (chain ++ p ∷ rest) (move_view state.now)) }
    ensures broken { (v : Violation) → result ≡ Err (MountError.Corrupt v) → (disk : Disk) (chain : List ThreadPair) (p : ThreadPair) (rest : List ThreadPair)
        → HeadersHaveGstate (move_view state.now) pairs.now chain p rest → PairsBreak disk (chain ++ p ∷ rest) v }
{
    if is_move_within(state, pairs) {
        Ok(())
    } else {
        Err(MountError::Corrupt(Violation::Move))
    }
}

// Returns whether no move is pending, or the pending move deletes a slot in one of the pairs.
fn is_move_within(state: &MoveState, pairs: &[Pair]) -> bool
    ensures { result ≡ is_move_within_pairs (move_view state.now) (map header_address pairs.now) }
{
    let is_none = state.kind == 0 && state.id == 0 && state.pair[0] == 0 && state.pair[1] == 0;
    is_none || (state.kind == DELETE && has_pair_at(state.pair, pairs))
}
