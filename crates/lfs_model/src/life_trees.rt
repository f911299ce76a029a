// What the turns of a session's life determine. A turn is one operation that was answered, or that
// an error ended.

ghost use Rattle.std.specs.Prelude.{◌≡◌, ℕ, true, false, List, [], ◌∷◌, Some, None, codes};
ghost use Rattle.lfs_model.specs.format.Disk.{Disk};
ghost use Rattle.lfs_model.specs.tree.Tree.{DirectoryNode, Tree};
ghost use Rattle.lfs_model.specs.tree.Fresh.{IsFreshDisk, empty_tree};
ghost use Rattle.lfs_model.specs.session.TreeEdits.{tree_creating};
ghost use Rattle.lfs_model.specs.session.History.{AllCallsSince};
ghost use Rattle.lfs_model.specs.crash.Stops.{ErasesCleanly};
ghost use Rattle.lfs_model.specs.session.Operations as ops;
ghost use Rattle.lfs_model.specs.session.Operations.{FlagsOfOpen, Operation, Reply, Exist};
ghost use Rattle.lfs_model.specs.session.Session.{OpenFile, OpenFilesByNumber, Session, DiskSummary, file_numbered, files_with_file};
ghost use Rattle.lfs_model.specs.session.State.{Healthy, is_remount, mounted_session};
ghost use Rattle.lfs_model.specs.session.Run.{SystemState, IsTreeStep, is_refusal};
ghost use Rattle.lfs_model.specs.session.Accepted.{IsAcceptedOpen, IsAcceptedStep};
ghost use Rattle.lfs_model.specs.crash.Lives.{Turn, IsLife, answered, failed, all_answered, only_last_may_fail};
ghost use Rattle.lfs_model.specs.crash.RepeatedPowerLoss.{IsJustMounted, KeepsTree, LeftBetween, MeetsCrashSafetyPremises, SameBytes};
ghost use Rattle.lfs_model.specs.crash.LifeTrees.{IsTreeOfLife, LeavesTreeOfLife, HasWritableDiskTree, HasMountableTree};
ghost use Rattle.lfs_model.specs.examples.Sessions.{creating_flags, read_flags};
ghost use Rattle.lfs_model.specs.examples.Images.{small_image};
ghost use Rattle.lfs_model.specs.examples.Runs.{fresh_state, failed_state, blockless_disk};

/// An operation that isn't refused has passed its checks and has its defined effect.
pub fn accepted_operations_have_their_effect()
    ensures effect { (from to : SystemState) (op : Operation) (reply : Reply) (s : Session) → from.state ≡ Healthy s → is_remount op ≡ false → is_refusal reply ≡ false → IsTreeStep from op reply to → IsAcceptedStep from s op reply to }
    ensures open { (from to : SystemState) (s : Session) (path : List ℕ) (flags : FlagsOfOpen) (fd : ℕ) → from.state ≡ Healthy s → IsTreeStep from (ops.Open path flags) (ops.Opened fd) to → IsAcceptedOpen s path flags fd }

    // The open file that is stored under a number is found under that number.
    ensures file { (files : OpenFilesByNumber) (fd : ℕ) (old new : OpenFile) → file_numbered files fd ≡ Some old → file_numbered (files_with_file files fd (Some new)) fd ≡ Some new }

    // A missing file is created if the flags of the open say so.
    ensures made { IsAcceptedOpen (mounted_session empty_tree) (codes "/b") creating_flags 0 }
    ensures not_made { IsAcceptedOpen (mounted_session empty_tree) (codes "/b") read_flags 0 → ⊥ }
{}

/// A power loss at any point of a session's life leaves one of that life's trees, and the next
/// session that mounts the disk has this tree.
pub fn power_loss_leaves_a_tree_of_the_life()
    ensures { (around : DiskSummary) (s : Session) (from : SystemState) (turns : List Turn) (to : SystemState) (left : Disk) → from.state ≡ Healthy s → only_last_may_fail turns ≡ true → IsLife from turns to → MeetsCrashSafetyPremises from to
        → LeftBetween from to left → LeavesTreeOfLife around s turns left }
{}

/// After a power loss a session can mount the disk. Each session that mounts the disk has a tree of
/// the interrupted session's life.
pub fn session_mounts_disk_after_power_loss()
    ensures mounts { (around : DiskSummary) (s : Session) (turns : List Turn) (left : Disk) → LeavesTreeOfLife around s turns left → (begin : SystemState) × (SameBytes left begin.disk × IsJustMounted begin.disk begin) }
    ensures has { (around : DiskSummary) (s : Session) (turns : List Turn) (left : Disk) → LeavesTreeOfLife around s turns left → (begin : SystemState) → SameBytes left begin.disk → (mounts : IsJustMounted begin.disk begin)
        → IsTreeOfLife around s turns mounts.tree }
    ensures keeps { (tree : Tree) (left : Disk) → KeepsTree tree left → HasMountableTree (λ t. t ≡ tree) left }

    // A session can mount a fresh disk, and then has the empty tree. No session can mount a disk
    // without blocks.
    ensures fresh { HasMountableTree (λ tree. tree ≡ empty_tree) small_image }
    ensures no_other { HasMountableTree (λ tree. tree [] ≡ None) small_image → ⊥ }
    ensures none { (tree : Tree) → HasMountableTree (λ t. t ≡ tree) blockless_disk → ⊥ }
{}

/// A session may lose power after a format, after a recovery that isn't refused, and after any
/// turns that were answered. The only other premise of the promise on power loss is about the
/// device's erases.
pub fn premises_hold_after_format_and_recovery()
    ensures fresh { (at : SystemState) → IsFreshDisk at.disk → at.state ≡ Healthy (mounted_session empty_tree) → HasWritableDiskTree at }
    ensures recovered { (from to : SystemState) (s : Session) → from.state ≡ Healthy s → IsTreeStep from ops.Recover ops.Done to → HasWritableDiskTree to }
    ensures goes_on { (from : SystemState) (turns : List Turn) (to : SystemState) → HasWritableDiskTree from → IsLife from turns to → all_answered turns ≡ true → HasWritableDiskTree to }
    ensures premises { (from to : SystemState) → HasWritableDiskTree from → AllCallsSince ErasesCleanly from.calls to.calls → MeetsCrashSafetyPremises from to }
    ensures may { HasWritableDiskTree fresh_state }
    ensures may_not { HasWritableDiskTree failed_state → ⊥ }
{}

/// A life in which a directory is made has two trees, one without the directory and one with it. A
/// refused operation adds no tree.
pub fn trees_of_life_are_defined_by_turns()
    ensures first { (around : DiskSummary) (a b : SystemState) → IsTreeOfLife around (mounted_session empty_tree) (answered (ops.Mkdir (codes "/d")) ops.Done a ∷ []) empty_tree }
    ensures after { (around : DiskSummary) (a b : SystemState) → IsTreeOfLife around (mounted_session empty_tree) (answered (ops.Mkdir (codes "/d")) ops.Done a ∷ answered (ops.Mkdir (codes "/d")) (ops.Refused Exist) b ∷ [])
        (tree_creating (codes "d" ∷ []) (DirectoryNode [] []) empty_tree) }
    ensures failed { (around : DiskSummary) (a b : SystemState) → IsTreeOfLife around (mounted_session empty_tree) (failed (ops.Mkdir (codes "/d")) a ∷ []) (tree_creating (codes "d" ∷ []) (DirectoryNode [] []) empty_tree) }
    ensures not_refused { (around : DiskSummary) (b : SystemState) → IsTreeOfLife around (mounted_session empty_tree) (answered (ops.Mkdir (codes "/d")) (ops.Refused Exist) b ∷ []) (λ path. None) → ⊥ }
{}
