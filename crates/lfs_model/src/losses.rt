// Runs that an error ends, and power losses.

ghost use Rattle.std.specs.Prelude.{◌≡◌, ◌⊎◌, ◌≢◌, ℕ, false, List, [], ◌∷◌, ◌++◌, None, codes};
ghost use Rattle.lfs_model.specs.format.Blocks.{Blocks};
ghost use Rattle.lfs_model.specs.session.History.{CallEvent, Read, call_event, AllCallsSince, LeftByLatestCall};
ghost use Rattle.lfs_model.specs.format.Disk.{Disk};
ghost use Rattle.lfs_model.specs.crash.FailedCalls.{FailLikeLossSince};
ghost use Rattle.lfs_model.specs.tree.Fresh.{empty_tree};
ghost use Rattle.lfs_model.specs.crash.Conformance.{CallsConform};
ghost use Rattle.lfs_model.specs.session.Operations as ops;
ghost use Rattle.lfs_model.specs.session.Operations.{Operation, Reply};
ghost use Rattle.lfs_model.specs.session.Run.{HealthyHasDiskTree, IsTreeStep, SystemState};
ghost use Rattle.lfs_model.specs.crash.Failure.{OperationFails};
ghost use Rattle.lfs_model.specs.crash.Performed.{FailsDuringRun};
ghost use Rattle.lfs_model.specs.crash.PowerLoss.{HasEitherTree, SurvivesLossSince, SurvivesStoppedCalls, SurvivesPowerLoss, with_blocks};
ghost use Rattle.lfs_model.specs.crash.Standing.{SameConformingDevice};
ghost use Rattle.lfs_model.specs.crash.Stops.{ErasesCleanly};
ghost use Rattle.lfs_model.specs.tree.Tree.{Tree};
ghost use Rattle.lfs_model.specs.crash.Lives.{Turn, IsLife, FailLikeLossBeforeLast, answered};
ghost use Rattle.lfs_model.specs.crash.RepeatedPowerLoss.{RecoversTree, KeepsTree, LeftInCall, SurvivesLossInLife, LeftByLife, LeftByLosses, MeetsCrashSafetyPremises, CrashSafe};
ghost use Rattle.lfs_model.specs.examples.Images.{small_image, two_commit_image};
ghost use Rattle.lfs_model.specs.examples.Runs.{fresh_state, failed_state, state_after_open, blockless_disk, repeated_reads};

/// A run ends when its session fails. All operations before the failing one have been applied.
pub fn session_failure_ends_run_of_operations()
    ensures second { FailsDuringRun fresh_state (ops.Stat (codes "/") ∷ ops.Mkdir (codes "/d") ∷ ops.UsedCount ∷ []) failed_state }
    ensures goes_on { FailsDuringRun fresh_state (ops.Stat (codes "/") ∷ []) fresh_state → ⊥ }
{}

/// A failed session makes no device call until a remount. A failing remount writes nothing, and
/// neither does a failing rename of a path to itself, or an operation that fails on a disk that
/// isn't accepted.
pub fn failure_of_nonwriting_operation_writes_nothing()
    ensures no_call { OperationFails failed_state (ops.Stat (codes "/")) (record failed_state { calls = repeated_reads 1 }) → ⊥ }
    ensures no_write { OperationFails fresh_state ops.Remount (record failed_state { disk = two_commit_image }) → ⊥ }
    ensures no_other_blocks { OperationFails fresh_state ops.Remount (record failed_state { calls = repeated_reads 1 }) → ⊥ }
    ensures itself { OperationFails fresh_state (ops.Rename (codes "/a") (codes "/a")) (record failed_state { calls = state_after_open.calls }) → ⊥ }
    ensures unwritten { OperationFails (record fresh_state { disk = blockless_disk }) (ops.Mkdir (codes "/d")) (record failed_state { disk = blockless_disk; calls = state_after_open.calls }) → ⊥ }
{}

/// A power loss in an operation leaves the tree from before or after the operation. A mount and a
/// recovery keep that tree.
pub fn power_loss_leaves_disk_with_safe_tree()
    ensures no_call { SurvivesPowerLoss fresh_state (ops.Stat (codes "/")) fresh_state }
    ensures lost { SurvivesPowerLoss fresh_state (ops.Stat (codes "/")) (record fresh_state { disk = blockless_disk }) → ⊥ }
    ensures restored { RecoversTree empty_tree ops.Done small_image }
    ensures other_tree { RecoversTree (λ path. None) ops.Done small_image → ⊥ }

    // A disk with the old or the new tree keeps that tree through a mount and a recovery.
    ensures left { (disk : Disk) (before after : Tree) → HasEitherTree disk before after
        → (tree : Tree) × (((tree ≡ before) ⊎ (tree ≡ after)) × KeepsTree tree disk) }
{}

/// A mount and a recovery keep the empty tree of a fresh disk. A disk without blocks has no tree to
/// keep.
pub fn fresh_disk_keeps_its_tree()
    ensures safe { KeepsTree empty_tree small_image }
    ensures not_safe { (tree : Tree) → KeepsTree tree blockless_disk → ⊥ }
{}

/// A session's life survives a power loss at any point, and any number of power losses after it.
pub fn power_loss_is_survived()
    ensures life { (from : SystemState) (turns : List Turn) (to : SystemState) → IsLife from turns to → FailLikeLossBeforeLast from turns → MeetsCrashSafetyPremises from to → CrashSafe from turns to }

    // A session on a fresh disk may lose power. The loss leaves neither a disk without blocks nor
    // another tree. If no operation had begun, the disk has its old tree.
    ensures may { MeetsCrashSafetyPremises fresh_state fresh_state }
    ensures survived { SurvivesLossInLife fresh_state (answered (ops.Stat (codes "/")) (ops.StatIs None) fresh_state ∷ []) fresh_state small_image }
    ensures none_begun { (to : SystemState) → IsLife fresh_state [] to → (left : Disk) (s : SurvivesLossInLife fresh_state [] to left) → s.tree ≡ empty_tree }
    ensures not_lost { (turns : List Turn) (to : SystemState) → SurvivesLossInLife fresh_state turns to blockless_disk → ⊥ }
    ensures not_changed { (turns : List Turn) (to : SystemState) (s : SurvivesLossInLife fresh_state turns to small_image) → s.tree ≡ (λ path. None) → ⊥ }
{}

/// One power loss, or several in a row, may leave a fresh disk. No power loss leaves a disk without
/// blocks.
pub fn repeated_power_losses_keep_tree()
    ensures once { LeftByLife small_image small_image }
    ensures again { LeftByLosses small_image (small_image ∷ small_image ∷ []) }
    ensures not_all { LeftByLife small_image blockless_disk → ⊥ }
    ensures in_a_read { (blocks : Blocks) → LeftInCall [] (call_event (Read 0 0 4) blocks blocks false ∷ []) blocks }
    ensures not_in_none { (blocks : Blocks) → LeftInCall [] [] blocks → ⊥ }
{}

/// An operation that survives a power loss in each of its calls also survives one at its end, when
/// the disk has the tree that the definitions specify.
pub fn operation_surviving_stopped_calls_survives_power_loss()
    ensures { (from to : SystemState) (op : Operation) (reply : Reply) → HealthyHasDiskTree from.disk from.state → IsTreeStep from op reply to → SurvivesStoppedCalls from op to → SurvivesPowerLoss from op to }
{}

/// After an operation's last call, a conforming device holds what a power loss in that call may
/// leave, even if an error ended the operation.
pub fn disk_after_last_call_is_power_loss_outcome()
    ensures left { (disk : Disk) (old new : List CallEvent) (first last : Blocks) (before after : Tree) → old ≢ [] → LeftByLatestCall old first → LeftByLatestCall new last → CallsConform new
        → SurvivesLossSince disk old new before after → AllCallsSince ErasesCleanly old new → FailLikeLossSince old new
        → HasEitherTree (with_blocks first disk) before after → HasEitherTree (with_blocks last disk) before after }
    ensures called { (from to : SystemState) → from.calls ≢ [] → LeftByLatestCall from.calls from.disk.blocks → LeftByLatestCall to.calls to.disk.blocks → CallsConform to.calls
        → to.disk ≡ with_blocks to.disk.blocks from.disk → SameConformingDevice from to }
    ensures survives_loss { (from to : SystemState) (op : Operation) → HealthyHasDiskTree from.disk from.state → SameConformingDevice from to → SurvivesStoppedCalls from op to → SurvivesPowerLoss from op to }

    // A device that isn't called keeps its bytes.
    ensures silent { SameConformingDevice fresh_state failed_state }
    ensures lost { SameConformingDevice fresh_state (record fresh_state { disk = blockless_disk }) → ⊥ }
{}
