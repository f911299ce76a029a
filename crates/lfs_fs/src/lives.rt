// Calls and runs of a session as turns of its life. A life is a sequence of calls (turns), each of
// which was answered or failed.

ghost use Rattle.std.specs.Prelude.{◌≡◌, List, [], ◌∷◌, ◌++◌, None, Result, Ok};
ghost use Rattle.lfs_device.specs.declared.error.Error.{Error};
ghost use Rattle.lfs_model.specs.format.Blocks.{Blocks};
ghost use Rattle.lfs_model.specs.format.Disk.{Disk};
ghost use Rattle.lfs_model.specs.session.History.{CallEvent};
ghost use Rattle.lfs_model.specs.session.Operations.{Operation, Reply};
ghost use Rattle.lfs_model.specs.session.Run.{SystemState};
ghost use Rattle.lfs_model.specs.crash.Lives.{Turn, IsTurn, IsLife, IsRunInTurns};
ghost use Rattle.lfs_model.specs.crash.LifeTrees.{HasWritableDiskTree};
ghost use Rattle.lfs_model.specs.crash.Performed.{IsPerformed};
ghost use Rattle.lfs_model.specs.crash.ReadBounds.{accepted_operation};
ghost use Rattle.lfs_model.specs.crash.RepeatedPowerLoss.{LeftInCall};
ghost use Rattle.lfs_fs.specs.CallEffects.{IsCall};
ghost use Rattle.lfs_fs.specs.ReadOnly.{IsWritableSession};
ghost use Rattle.lfs_fs.specs.SessionView.{BeginsByMount, FailsRun, SessionView, system_state};
ghost use Rattle.lfs_fs.specs.Starts.{IsReachableByCalls};
ghost use Rattle.lfs_fs.specs.Turns.{turn_of};

/// Proves that each call is a turn of its session's life, where a life is a sequence of calls that
/// were answered or failed. Calls in any order therefore form a life, and so does a run that
/// failed. The laws of lives in `lfs_model` say what the state of the session is, and what a power
/// loss leaves.
pub fn calls_make_session_histories()
    ensures call { (old : SessionView) (op : Operation) (r : Result Reply Error) (new : SessionView) → IsCall old op r new → IsTurn (system_state old) (turn_of op r (system_state new)) }
    ensures further { (from : SystemState) (turns : List Turn) (a b : SessionView) (op : Operation) (r : Result Reply Error) → IsLife from turns (system_state a) → IsCall a op r b
        → IsLife from (turns ++ turn_of op r (system_state b) ∷ []) (system_state b) }
    ensures lives { (old : SessionView) (op : Operation) (r : Result Reply Error) (new : SessionView) → IsCall old op r new → IsReachableByCalls (system_state old) (system_state new) }
    ensures failed_run { (e : Error) (from : SystemState) (operations : List Operation) (to : SystemState) → FailsRun e from operations to → (turns : List Turn) × IsRunInTurns from operations turns to }
{}

/// Proves that a call that returns a reply meets the contract of a run, even if it follows another
/// call. In particular, the bounds on the reads of a run apply to single calls.
pub fn answered_calls_keep_read_bounds()
    ensures first { (old : SessionView) (op : Operation) (reply : Reply) (new : SessionView) → IsCall old op (Ok reply) new → IsPerformed None (system_state old) op reply (system_state new) }
    ensures next { (a b c : SessionView) (op next : Operation) (reply answer : Reply) → IsCall a op (Ok reply) b → IsCall b next (Ok answer) c
        → IsPerformed (accepted_operation op reply) (system_state b) next answer (system_state c) }
{}

/// Proves that a session that may write meets the premises of the laws on power loss, and that a
/// power loss during a mount leaves the disk unchanged.
pub fn power_loss_in_mount_changes_nothing()
    ensures writable { (h : SessionView) → IsWritableSession h → HasWritableDiskTree (system_state h) }
    ensures stopped { (disk : Disk) (history : List CallEvent) (h : SessionView) (blocks : Blocks) → BeginsByMount disk history h → LeftInCall history h.tree.history blocks → blocks ≡ disk.blocks }
{}
