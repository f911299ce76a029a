// What a device may hold after a power loss in one of its calls.

ghost use Rattle.std.specs.Prelude.{◌≡◌, ℕ, ◌+◌, ◌≤◌, ◌<◌, List, [], ◌∷◌, ◌++◌, length, replicate, take, true, false, Contains};
ghost use Rattle.lfs_model.specs.format.Blocks.{Blocks, block_bytes, programmed};
ghost use Rattle.lfs_model.specs.session.History.{DeviceCall, Program, Erase, AllCallsSince, CallEvent, call_event};
ghost use Rattle.lfs_model.specs.crash.Conformance.{CallsConform};
ghost use Rattle.lfs_model.specs.crash.Stops.{power_loss_may_leave, LeftByLoss, ErasesCleanly, HasNoLog};
ghost use Rattle.lfs_model.specs.crash.PowerLoss.{FailsLikeLoss};
ghost use Rattle.lfs_model.specs.crash.Premises.{MeetsPowerLossPremises};
ghost use Rattle.lfs_model.specs.layers.BlockBytes.{unwritten_bytes};
ghost use Rattle.lfs_model.specs.examples.Images.{small_commit, appending_commit, small_block, two_commit_block, later_revision_block};

/// A power loss in a call leaves the disk from before the call, the disk from after the whole call,
/// or a torn commit that doesn't count.
pub fn power_loss_in_call_leaves_log_before_or_after()
    ensures before { (call : DeviceCall) (disk : Blocks) → power_loss_may_leave call disk disk }
    ensures whole { (block off : ℕ) (bytes : List ℕ) (disk : Blocks) → block < length disk → off + length bytes ≤ length (block_bytes disk block)
        → power_loss_may_leave (Program block off bytes) disk (programmed disk block off bytes) }

    // Only ten bytes of a second commit were stored.
    ensures torn { (after : Blocks) → LeftByLoss (call_event (Program 0 128 appending_commit) ((small_commit ++ unwritten_bytes 896) ∷ []) after true)
        ((small_commit ++ take 10 appending_commit ++ unwritten_bytes 886) ∷ []) }
{}

/// A power loss in an erase leaves the block without a log, or with a log that has the old revision
/// count, such as a prefix of the old log. The block never has a log with a later revision count.
pub fn stopped_erase_leaves_no_later_log()
    ensures none { (after : Blocks) → LeftByLoss (call_event (Erase 0) (two_commit_block ∷ []) after true) (unwritten_bytes 1024 ∷ []) }
    ensures beginning { (after : Blocks) → LeftByLoss (call_event (Erase 0) (two_commit_block ∷ []) after true) (small_block ∷ []) }
    ensures later { (after : Blocks) → LeftByLoss (call_event (Erase 0) (two_commit_block ∷ []) after true) (later_revision_block ∷ []) → ⊥ }

    // The promises about power losses assume that a successful erase doesn't leave a later log
    // either.
    ensures clean { ErasesCleanly (call_event (Erase 0) (two_commit_block ∷ []) (small_block ∷ []) false) }
    ensures not_clean { ErasesCleanly (call_event (Erase 0) (two_commit_block ∷ []) (later_revision_block ∷ []) false) → ⊥ }

    // A failed call may leave one of the outcomes of a power loss in that call, or something else.
    ensures failed { FailsLikeLoss (call_event (Erase 0) (two_commit_block ∷ []) (small_block ∷ []) true)
        × (FailsLikeLoss (call_event (Erase 0) (two_commit_block ∷ []) (later_revision_block ∷ []) true) → ⊥) }
{}

/// The disk after a successful call is also a possible outcome of a power loss in that call,
/// provided that no erase leaves a later log.
pub fn conforming_call_leaves_possible_power_loss_outcome()
    ensures { (history : List CallEvent) (e : CallEvent) → CallsConform history → Contains history e → e.failed ≡ false → ErasesCleanly e → LeftByLoss e e.after }
{}

/// A block filled with one repeated byte has no log, so an erase that fills a block with one byte
/// leaves no log.
pub fn block_of_repeated_byte_has_no_log()
    ensures { (size byte : ℕ) → byte < 256 → HasNoLog (replicate size byte) }
{}

/// If all calls to a device meet the premises about power loss, so do the calls since any earlier
/// moment. A history without calls meets these premises. A propositionally truncated proof of the
/// premises is enough.
pub fn device_premises_hold_for_later_calls()
    ensures none { MeetsPowerLossPremises [] }
    ensures held { (history : List CallEvent) → ∥ MeetsPowerLossPremises history ∥₁ → MeetsPowerLossPremises history }
    ensures since { (older events : List CallEvent) → MeetsPowerLossPremises (events ++ older) → AllCallsSince ErasesCleanly older (events ++ older) × AllCallsSince FailsLikeLoss older (events ++ older) }
{}
