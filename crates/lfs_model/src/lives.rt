// Lives of a session. A life is a list of turns, each an operation that was answered or that an
// error ended.

ghost use Rattle.std.specs.Prelude.{◌≡◌, true, false, List, [], ◌∷◌, ◌++◌, Option, Some, None, codes};
ghost use Rattle.lfs_model.specs.format.Disk.{disk_with_order};
ghost use Rattle.lfs_model.specs.declared.order.NameOrder.TheVariants.{LongerFirst};
ghost use Rattle.lfs_model.specs.session.Operations as ops;
ghost use Rattle.lfs_model.specs.session.Operations.{Operation, Reply, Failed};
ghost use Rattle.lfs_model.specs.session.Run.{SystemState, HealthyHasDiskTree, IsStep, IsTreeStep};
ghost use Rattle.lfs_model.specs.crash.Performed.{ArePerformed, IsRun};
ghost use Rattle.lfs_model.specs.crash.Lives.{Turn, IsTurn, IsLife, IsLifeOfRun, IsRunInTurns, FailLikeLossBeforeLast, answered, failed, only_last_may_fail};
ghost use Rattle.lfs_model.specs.crash.LifeHeadline.{AnswersAsDisk, AreAnswers, LifeMatchesDisk};
ghost use Rattle.lfs_model.specs.examples.Images.{small_image};
ghost use Rattle.lfs_model.specs.examples.Runs.{fresh_state, failed_state, state_after_open};

/// `IsStep` implies `IsTreeStep`, which says nothing about where slots are.
pub fn steps_with_layout_are_tree_steps()
    ensures { (from to : SystemState) (op : Operation) (reply : Reply) → IsStep from op reply to → IsTreeStep from op reply to }
{}

/// Two consecutive lives of a session are one life, and a life can be split after any turn.
pub fn lives_are_joined()
    ensures joined { (turns more : List Turn) (a b c : SystemState) → IsLife a turns b → IsLife b more c → IsLife a (turns ++ more) c }
    ensures parted { (turns more : List Turn) (a c : SystemState) → IsLife a (turns ++ more) c → (b : SystemState) × (IsLife a turns b × IsLife b more c) }
    ensures one { (turn : Turn) (a : SystemState) → IsTurn a turn → IsLife a (turn ∷ []) turn.to }
{}

/// A run is a life with one turn for each operation that it performs. An error can end only the
/// last turn of a run.
pub fn runs_are_lives()
    ensures performed { (before : Option Operation) (operations : List Operation) (replies : List Reply) (from to : SystemState) → ArePerformed before from operations replies to → IsLifeOfRun from operations replies to }
    ensures run { (from : SystemState) (operations : List Operation) (to : SystemState) → IsRun from operations to → (turns : List Turn) × IsRunInTurns from operations turns to }

    // If an error ended only the last turn, nothing is assumed about the calls that failed.
    ensures last { (from : SystemState) (turns : List Turn) → only_last_may_fail turns ≡ true → FailLikeLossBeforeLast from turns }
{}

/// A session that works agrees with its disk at every moment of its life.
pub fn session_agrees_with_its_disk_all_its_life()
    ensures { (from : SystemState) (turns : List Turn) (at : SystemState) → HealthyHasDiskTree from.disk from.state → IsLife from turns at → LifeMatchesDisk from turns at }
{}

/// After an operation has failed, a session answers only with refusals until a remount succeeds.
pub fn session_lives_on_after_error()
    ensures asked { IsLife fresh_state (answered (ops.Stat (codes "/")) (ops.StatIs None) fresh_state ∷ []) fresh_state }
    ensures ended { IsLife fresh_state (answered (ops.Stat (codes "/")) (ops.StatIs None) fresh_state ∷ failed (ops.Mkdir (codes "/d")) failed_state ∷ []) failed_state }
    ensures again { IsLife failed_state (answered (ops.Stat (codes "/")) (ops.Refused Failed) failed_state ∷ answered ops.Remount ops.Done (record fresh_state { disk = disk_with_order LongerFirst small_image }) ∷ [])
        (record fresh_state { disk = disk_with_order LongerFirst small_image }) }

    // No reply has another size. No session works after an operation that failed, and a failed
    // session answers only with `Failed`.
    ensures not_answered { (to : SystemState) → IsLife fresh_state (answered (ops.Stat (codes "/")) (ops.StatIs (Some 5)) to ∷ []) to → ⊥ }
    ensures not_ended { IsLife fresh_state (failed (ops.Mkdir (codes "/d")) fresh_state ∷ []) fresh_state → ⊥ }
    ensures not_again { (next to : SystemState) → IsLife fresh_state (failed (ops.Mkdir (codes "/d")) next ∷ answered (ops.Stat (codes "/")) (ops.StatIs None) to ∷ []) to → ⊥ }
{}

/// A session on a fresh disk agrees with its disk, and a failed session doesn't. `only_last_may_fail` says
/// whether an error ended no turn except perhaps the last one.
pub fn fresh_session_agrees_with_its_disk()
    ensures matches { LifeMatchesDisk fresh_state (answered (ops.Stat (codes "/")) (ops.StatIs None) fresh_state ∷ []) fresh_state }
    ensures not_answered { AreAnswers fresh_state (answered (ops.Stat (codes "/")) (ops.StatIs (Some 5)) fresh_state ∷ []) fresh_state → ⊥ }
    ensures not_failed { AnswersAsDisk failed_state → ⊥ }
    ensures last { only_last_may_fail (answered (ops.Stat (codes "/")) (ops.StatIs None) fresh_state ∷ failed (ops.Mkdir (codes "/d")) failed_state ∷ []) ≡ true }
    ensures not_last { only_last_may_fail (failed (ops.Mkdir (codes "/d")) failed_state ∷ answered (ops.Stat (codes "/")) (ops.Refused Failed) failed_state ∷ []) ≡ false }
{}
