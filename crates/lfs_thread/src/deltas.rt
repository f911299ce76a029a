// The global state, computed from the headers of the pairs.

ghost use Rattle.std.specs.Prelude.{◌≡◌, map};
ghost use Rattle.std.specs.List.{fold};
ghost use Rattle.lfs_model.specs.format.Slots.{gstate_xor, zero_gstate};
ghost use Rattle.lfs_tag.specs.FieldsView.{move_view};

use lfs_pair::Pair;
use lfs_tag::MoveState;

// Returns the global state, which is the XOR of all pairs' gstate deltas (DESIGN.md of littlefs,
// "The move problem").
pub(crate) fn headers_gstate(pairs: &[Pair]) -> MoveState
    ensures { move_view result ≡ fold gstate_xor zero_gstate (map (λ p. move_view p.move_state) pairs.now) }
{
    let mut state = MoveState::none();
    for pair in pairs {
        state = gstate_xor_delta(&state, &pair.move_state);
    }
    state
}

/// Returns the XOR of two gstate deltas, or of the global state and a delta. If one pair's delta is
/// XORed with `delta`, then so is the global state.
pub fn gstate_xor_delta(state: &MoveState, delta: &MoveState) -> MoveState
    ensures { move_view result ≡ gstate_xor (move_view state.now) (move_view delta.now) }
{
    MoveState {
        sync: state.sync != delta.sync,
        kind: state.kind ^ delta.kind,
        id: state.id ^ delta.id,
        pair: [state.pair[0] ^ delta.pair[0], state.pair[1] ^ delta.pair[1]],
    }
}
