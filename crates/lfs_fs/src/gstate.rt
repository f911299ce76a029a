// The global state (gstate) in the form that a caller receives.

ghost use Rattle.std.specs.Prelude.{◌≡◌};
ghost use Rattle.lfs_tag.specs.FieldsView.{move_view};
ghost use Rattle.lfs_fs.specs.GstateView.{returned_gstate_reply, gstate_reply_from_disk};

use lfs_tag::MoveState;
use lfs_tag::kinds::DELETE;

/// The global state (see "The move problem" in littlefs's DESIGN.md).
#[derive(Clone, Copy, Debug, PartialEq, Eq)]
pub struct Gstate {
    /// Whether there may be an orphan: a metadata pair in the threaded list that belongs to no
    /// directory in the tree.
    pub sync: bool,
    /// The pair and the id of a slot that counts as deleted because its move isn't complete, or
    /// None if no move is pending.
    pub moving: Option<([u32; 2], u16)>,
}

pub(crate) fn gstate_from_move(state: &MoveState) -> Gstate
    ensures { returned_gstate_reply result ≡ gstate_reply_from_disk (move_view state.now) }
{
    let moving = if state.kind == DELETE {
        Some((state.pair, state.id))
    } else {
        None
    };
    Gstate {
        sync: state.sync,
        moving,
    }
}
