// Laws of the session's calls that a volume makes.

ghost use Rattle.std.specs.Prelude.{◌≡◌, ◌++◌, List, Ok, Result, false};
ghost use Rattle.lfs_device.specs.declared.error.Error.{Error};
ghost use Rattle.lfs_lookup.specs.RefusalErrors.{is_refusal};
ghost use Rattle.lfs_model.specs.session.Operations.{Operation, Reply};
ghost use Rattle.lfs_model.specs.session.Run.{HealthyHasDiskTree, SystemState};
ghost use Rattle.lfs_model.specs.crash.Lives.{IsLife, IsLifeOfRun, IsRunInTurns, Turn};
ghost use Rattle.lfs_model.specs.crash.LifeHeadline.{LifeMatchesDisk};
ghost use Rattle.lfs_model.specs.crash.RepeatedPowerLoss.{MeetsCrashSafetyPremises};
ghost use Rattle.lfs_fs.specs.SessionView.{SessionView, system_state};
ghost use Rattle.lfs_fs.specs.Turns.{IsCrashSafeRun};
ghost use Rattle.lfs_volume.specs.SessionCalls.{MayChangeTreeOnce, EndsAtErrorOperation};
ghost use Rattle.lfs_volume.specs.Calls.{Call};
ghost use Rattle.lfs_volume.specs.Stops.{LossLeavesEitherTree};
ghost use Rattle.lfs_volume.specs.Volume.{VolumeView};
ghost use Rattle.lfs_volume.specs.VolumeCalls.{IsVolumeCall};

/// Proves that the session calls that a volume makes in each of its calls form a life of the
/// session, even if the volume fails. A life is a sequence of calls that were answered or failed.
/// After each call, the session of a volume that hasn't failed has the tree that its disk shows.
/// The session survives a power loss during any call of the volume, and any number of further power
/// losses.
pub fn volume_call_is_session_calls()
    ensures call { (old new : VolumeView) (call : Call) (result : Result Reply Error) → IsVolumeCall old call result new → (turns : List Turn) × IsLife (system_state old.session) turns (system_state new.session) }
    ensures shows { (old new : VolumeView) (call : Call) (result : Result Reply Error) → IsVolumeCall old call result new → HealthyHasDiskTree old.session.tree.disk (system_state old.session).state → HealthyHasDiskTree new.session.tree.disk (system_state new.session).state }
    ensures lived { (old new : SessionView) (operations : List Operation) → MayChangeTreeOnce old operations new → (replies : List Reply) × IsLifeOfRun (system_state old) operations replies (system_state new) }
    ensures headline { (from : SystemState) (turns : List Turn) (old new : SessionView) (operations : List Operation) → HealthyHasDiskTree from.disk from.state → IsLife from turns (system_state old) → MayChangeTreeOnce old operations new
        → (replies : List Reply) × ((life : IsLifeOfRun (system_state old) operations replies (system_state new)) × LifeMatchesDisk from (turns ++ life.turns) (system_state new)) }
    ensures survives { (old new : SessionView) (operations : List Operation) → MayChangeTreeOnce old operations new → MeetsCrashSafetyPremises (system_state old) (system_state new) → IsCrashSafeRun (system_state old) operations (system_state new) }
    ensures ended { (e : Error) (old new : SessionView) (operations : List Operation) → EndsAtErrorOperation e old operations new → is_refusal e ≡ false → (turns : List Turn) × IsRunInTurns (system_state old) operations turns (system_state new) }
{}

/// Proves that a power loss during a call to which the volume replied leaves the tree from before
/// the call or the tree from after it.
pub fn power_loss_leaves_old_or_new_tree()
    ensures call { (old new : VolumeView) (call : Call) (reply : Reply) → old.session.tree.failed ≡ false → IsVolumeCall old call (Ok reply) new → LossLeavesEitherTree old.session new.session }
    ensures steps { (old new : SessionView) (operations : List Operation) → MayChangeTreeOnce old operations new → LossLeavesEitherTree old new }
{}

/// Proves that a call to which a working volume replies, even with a refusal, leaves the volume
/// working.
pub fn volume_works_after_each_reply()
    ensures { (old new : VolumeView) (call : Call) (reply : Reply) → old.session.tree.failed ≡ false → IsVolumeCall old call (Ok reply) new → new.session.tree.failed ≡ false }
{}
