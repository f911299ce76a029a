// The disk's bytes after each step as a file is written, synced, closed, renamed and removed.

ghost use Rattle.std.specs.Prelude.{List, [], ◌∷◌, codes};
ghost use Rattle.lfs_model.specs.format.Disk.{Disk};
ghost use Rattle.lfs_model.specs.format.Thread.{Pair};
ghost use Rattle.lfs_model.specs.session.History.{CallEvent};
ghost use Rattle.lfs_model.specs.session.Operations as ops;
ghost use Rattle.lfs_model.specs.session.State.{Healthy};
ghost use Rattle.lfs_model.specs.session.Run.{IsDiskEffect, IsStep};
ghost use Rattle.lfs_model.specs.crash.PowerLoss.{SurvivesPowerLoss};
ghost use Rattle.lfs_model.specs.examples.Sessions.{write_flags};
ghost use Rattle.lfs_model.specs.examples.Runs.{blockless_disk, image_after_open, state_after_open, root_with_file, root_and_unreached_pair, repeated_reads};
ghost use Rattle.lfs_model.specs.examples.Written.{image_after_sync, image_after_rename, programming, renamed_commit, root_and_empty_pair, opened_session, synced_session, closed_session, renamed_session, removed_session, state_after_write, state_after_sync, state_after_close, state_after_reopen, state_after_rename, state_after_remove};

/// After a write of two bytes, the bytes are only in memory. The write makes no device call and
/// leaves the disk unchanged.
pub fn unsynced_bytes_are_not_visible()
    ensures turn { IsStep state_after_open (ops.Write 0 (codes "hi")) (ops.Count 2) state_after_write }
    ensures not_shown { IsStep state_after_open (ops.Write 0 (codes "hi")) (ops.Count 2) (record state_after_write { disk = image_after_sync; calls = state_after_sync.calls }) → ⊥ }
{}

/// A sync commits the written bytes by a single program. After a power loss in the sync, the file
/// has its old bytes or its new ones. A close after the sync makes no device call.
pub fn sync_commits_written_bytes()
    ensures turn { IsStep state_after_write (ops.Sync 0) ops.Done state_after_sync }
    ensures not_uncommitted { IsStep state_after_write (ops.Sync 0) ops.Done (record state_after_write { state = Healthy synced_session }) → ⊥ }
    ensures survives { SurvivesPowerLoss state_after_write (ops.Sync 0) state_after_sync }
    ensures not_lost { SurvivesPowerLoss state_after_write (ops.Sync 0) (record state_after_sync { disk = blockless_disk }) → ⊥ }
    ensures closed { IsStep state_after_sync (ops.Close 0) ops.Done state_after_close }
{}

/// A rename commits the file under its new name, and a remove deletes the file.
pub fn file_is_renamed_and_removed()
    ensures renamed { IsStep state_after_close (ops.Rename (codes "/b") (codes "/c")) ops.Done state_after_rename }
    ensures not_kept { IsStep state_after_close (ops.Rename (codes "/b") (codes "/c")) ops.Done (record state_after_close { state = Healthy renamed_session }) → ⊥ }
    ensures removed { IsStep state_after_rename (ops.Remove (codes "/c")) ops.Done state_after_remove }
    ensures not_left { IsStep state_after_rename (ops.Remove (codes "/c")) ops.Done (record state_after_rename { state = Healthy removed_session }) → ⊥ }
{}

/// The disk stays unchanged if an existing file is opened, a file is renamed to itself, or nothing
/// is left to recover.
pub fn needless_operation_leaves_disk_unchanged()
    ensures opened { IsStep state_after_close (ops.Open (codes "/b") write_flags) (ops.Opened 0) state_after_reopen }
    ensures itself { IsStep state_after_close (ops.Rename (codes "/b") (codes "/b")) ops.Done state_after_close }
    ensures recovered { IsStep state_after_close ops.Recover ops.Done state_after_close }
{}

/// A query, or an open of an existing file, may not change the disk. A rename of a file to itself
/// may not program, nor may a recovery with nothing to recover. A sync of a clean file may not even
/// read.
pub fn needless_operation_writes_nothing()
    ensures asks { (calls : List CallEvent) (qs : List Pair) → IsDiskEffect image_after_sync (root_with_file (codes "b") (codes "hi")) closed_session (ops.Stat (codes "/b")) calls image_after_rename qs → ⊥ }
    ensures opens { (calls : List CallEvent) (qs : List Pair) → IsDiskEffect image_after_sync (root_with_file (codes "b") (codes "hi")) closed_session (ops.Open (codes "/b") write_flags) calls image_after_rename qs → ⊥ }
    ensures itself { (qs : List Pair) → IsDiskEffect image_after_sync (root_with_file (codes "b") (codes "hi")) closed_session (ops.Rename (codes "/b") (codes "/b"))
        (programming 768 renamed_commit image_after_sync image_after_sync ∷ []) image_after_sync qs → ⊥ }
    ensures nothing_left { (qs : List Pair) → IsDiskEffect image_after_sync (root_with_file (codes "b") (codes "hi")) closed_session ops.Recover
        (programming 768 renamed_commit image_after_sync image_after_sync ∷ []) image_after_sync qs → ⊥ }
    ensures silent { (qs : List Pair) → IsDiskEffect image_after_sync (root_with_file (codes "b") (codes "hi")) synced_session (ops.Sync 0) (repeated_reads 1) image_after_sync qs → ⊥ }
{}

/// A write may not make its bytes visible on the disk. A mkdir or a query may not leave anything to
/// recover, and a query may not leave an empty pair.
pub fn operation_keeps_disk_in_profile()
    ensures fills { (calls : List CallEvent) → IsDiskEffect image_after_open (root_with_file (codes "b") []) opened_session (ops.Write 0 (codes "hi")) calls image_after_sync (root_with_file (codes "b") (codes "hi")) → ⊥ }
    ensures recovered { (calls : List CallEvent) (new : Disk) → IsDiskEffect image_after_sync (root_with_file (codes "b") (codes "hi")) closed_session (ops.Mkdir (codes "/d")) calls new root_and_unreached_pair → ⊥ }
    ensures stays { (calls : List CallEvent) (new : Disk) → IsDiskEffect image_after_sync (root_with_file (codes "b") (codes "hi")) closed_session (ops.Stat (codes "/b")) calls new root_and_unreached_pair → ⊥ }
    ensures profile { (calls : List CallEvent) (new : Disk) → IsDiskEffect image_after_sync (root_with_file (codes "b") (codes "hi")) closed_session (ops.Stat (codes "/b")) calls new root_and_empty_pair → ⊥ }
{}
