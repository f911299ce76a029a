// Small examples that show what meets this crate's definitions, and what doesn't.

ghost use Rattle.std.specs.Prelude.{ℕ, ◌≡◌, List, true, false, [], ◌∷◌, Some, None, codes};
ghost use Rattle.lfs_model.specs.tree.Tree.{FileNode, DirectoryNode};
ghost use Rattle.lfs_model.specs.tree.Fresh.{empty_tree};
ghost use Rattle.lfs_model.specs.session.Operations as ops;
ghost use Rattle.lfs_model.specs.session.TreeEdits.{tree_creating};
ghost use Rattle.lfs_model.specs.crash.Lives.{answered};
ghost use Rattle.lfs_model.specs.examples.Images.{small_image};
ghost use Rattle.lfs_model.specs.examples.Runs.{fresh_state, failed_state, blockless_disk};
ghost use Rattle.lfs_model.specs.crash.LifeTrees.{HasMountableTree};
ghost use Rattle.saved_files.specs.Working.{LossLeavesTreeWith, KeepsWorkingBetween, never_remounts};
ghost use Rattle.saved_files.specs.Writing.{IsBeforeOrAfterWrite, IsWritten, SameAtOtherPaths, appending_flags, bytes_if_file, bytes_after_write, saving_flags};
ghost use Rattle.saved_files.specs.Settings.{AreInterruptedSaves, IsInterruptedSave, IsEither, IsOneOfSettings, SavesSettings, settings_in, settings_path};
ghost use Rattle.saved_files.specs.Counter.{ReadsCounterAs, IncrementsCounterTo, SetsCounterTo, counter_in, number_of};
ghost use Rattle.saved_files.specs.Log.{AreSequentialAppends, AreInterruptedAppends, AreInterruptedSessions, HasPrefixOfEntries, HasPrefixPerSession, IsCompletedAppend};

/// A session keeps working while it answers each operation and isn't remounted. If the session
/// makes no call, a power loss doesn't change its tree.
pub fn session_works_on_while_it_answers()
    ensures works { KeepsWorkingBetween fresh_state fresh_state }
    ensures failed { KeepsWorkingBetween fresh_state failed_state → ⊥ }
    ensures stays { never_remounts (answered (ops.Stat (codes "/")) (ops.StatIs None) fresh_state ∷ []) ≡ true }
    ensures remounts { never_remounts (answered ops.Remount ops.Done fresh_state ∷ []) ≡ false }
    ensures survives { LossLeavesTreeWith (λ tree. tree ≡ empty_tree) fresh_state fresh_state }
    ensures lost { LossLeavesTreeWith (λ tree. ⊥) fresh_state fresh_state → ⊥ }
{}

/// A freshly formatted disk can be mounted, and a disk without blocks can't.
pub fn formatted_disk_can_be_mounted()
    ensures starts { HasMountableTree (λ tree. tree ≡ empty_tree) small_image }
    ensures none { HasMountableTree (λ tree. tree ≡ empty_tree) blockless_disk → ⊥ }
{}

/// A write replaces the bytes of a file or appends to them. A directory has no bytes.
pub fn file_has_the_written_bytes()
    ensures saved { bytes_after_write (codes "a" ∷ []) saving_flags (codes "old") (codes "new") ≡ codes "new" }
    ensures appended { bytes_after_write (codes "a" ∷ []) appending_flags (codes "old") (codes "new") ≡ codes "oldnew" }
    ensures file { bytes_if_file (Some (FileNode [] (codes "a"))) ≡ Some (codes "a") }
    ensures directory { bytes_if_file (Some (DirectoryNode [] [])) ≡ None }
    ensures same { SameAtOtherPaths (codes "a" ∷ []) empty_tree (tree_creating (codes "a" ∷ []) (FileNode [] []) empty_tree) }
    ensures other { SameAtOtherPaths (codes "b" ∷ []) empty_tree (tree_creating (codes "a" ∷ []) (FileNode [] []) empty_tree) → ⊥ }
{}

/// A new file may be empty after a power loss, but it never contains only a part of the written
/// bytes.
pub fn file_is_written_whole()
    ensures written { IsWritten (codes "a" ∷ []) saving_flags (codes "bc") empty_tree (tree_creating (codes "a" ∷ []) (FileNode [] (codes "bc")) empty_tree) }
    ensures not_written { IsWritten (codes "a" ∷ []) saving_flags (codes "bc") empty_tree empty_tree → ⊥ }
    ensures empty { IsBeforeOrAfterWrite (codes "a" ∷ []) saving_flags (codes "bc") empty_tree (tree_creating (codes "a" ∷ []) (FileNode [] []) empty_tree) }
    ensures part { IsBeforeOrAfterWrite (codes "a" ∷ []) saving_flags (codes "bc") empty_tree (tree_creating (codes "a" ∷ []) (FileNode [] (codes "b")) empty_tree) → ⊥ }
{}

/// After a power loss, the settings are the old ones or the new ones.
pub fn settings_are_old_or_new()
    ensures none { settings_in empty_tree ≡ None }
    ensures some { settings_in (tree_creating settings_path (FileNode [] (codes "a")) empty_tree) ≡ Some (codes "a") }
    ensures either { IsEither None (codes "ab") (Some (codes "ab")) }
    ensures part { IsEither None (codes "ab") (Some (codes "a")) → ⊥ }
    ensures one { IsOneOfSettings (codes "a" ∷ codes "b" ∷ []) (Some (codes "b")) }
    ensures other { IsOneOfSettings (codes "a" ∷ []) None → ⊥ }
{}

/// A counter is stored as four little-endian bytes.
pub fn counter_is_four_bytes()
    ensures number { number_of (1 ∷ 2 ∷ 0 ∷ 0 ∷ []) ≡ 513 }
    ensures short { number_of (1 ∷ 2 ∷ 0 ∷ []) ≡ 0 }
    ensures none { counter_in empty_tree ≡ 0 }
    ensures counts { ReadsCounterAs 0 fresh_state fresh_state }
    ensures miscounts { ReadsCounterAs 1 fresh_state fresh_state → ⊥ }
{}

/// A session that made no call hasn't changed the counter, the settings or the log.
pub fn nothing_is_done_without_call()
    ensures set { SetsCounterTo 0 fresh_state fresh_state }
    ensures not_set { SetsCounterTo 1 fresh_state fresh_state → ⊥ }
    ensures not_raised { IncrementsCounterTo 1 fresh_state fresh_state → ⊥ }
    ensures not_saved { SavesSettings fresh_state (codes "a") fresh_state → ⊥ }
    ensures not_logged { IsCompletedAppend fresh_state (codes "a") fresh_state → ⊥ }
    ensures no_append { AreSequentialAppends fresh_state [] fresh_state → ⊥ }
{}

/// A log never contains a part of an entry, and its entries are in the order of the sessions.
pub fn log_has_whole_entries()
    ensures begins { HasPrefixOfEntries (codes "a") (codes "bc" ∷ codes "d" ∷ []) (codes "abc") }
    ensures part { HasPrefixOfEntries (codes "a") (codes "bc" ∷ codes "d" ∷ []) (codes "ab") → ⊥ }
    ensures sessions { HasPrefixPerSession [] ((codes "a" ∷ codes "b" ∷ []) ∷ (codes "c" ∷ []) ∷ []) (codes "ac") }
    ensures other_order { HasPrefixPerSession [] (((1 ∷ []) ∷ []) ∷ ((2 ∷ []) ∷ []) ∷ []) (2 ∷ 1 ∷ []) → ⊥ }
{}

/// Power may be lost before the first device call of a save or an append. No sequence of power
/// losses leaves a disk without blocks.
pub fn power_loss_may_interrupt_saves()
    ensures save { IsInterruptedSave small_image (codes "a") small_image }
    ensures saves { AreInterruptedSaves small_image (codes "a" ∷ codes "b" ∷ []) small_image }
    ensures not_lost { (saves : List (List ℕ)) → AreInterruptedSaves small_image saves blockless_disk → ⊥ }
    ensures appends { AreInterruptedAppends small_image (codes "a" ∷ []) small_image }
    ensures sessions { AreInterruptedSessions small_image ((codes "a" ∷ []) ∷ (codes "b" ∷ []) ∷ []) small_image }
    ensures log_not_lost { (sessions : List (List (List ℕ))) → AreInterruptedSessions small_image sessions blockless_disk → ⊥ }
{}
