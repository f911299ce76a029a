// Examples of the definitions of a volume.

ghost use Rattle.std.specs.Prelude.{◌≡◌, ◌≢◌, ◌∷◌, ◌++◌, ℕ, List, [], codes, false, length, replicate, true, None, Ok, Some};
ghost use Rattle.lfs_model.specs.session.Operations as ops;
ghost use Rattle.lfs_model.specs.session.Operations.{BadFile, Exist, Failed, Invalid, NoEnt, NoSpace, NotEmpty, TooBig};
ghost use Rattle.lfs_model.specs.examples.Sessions.{creating_flags, read_flags, write_flags};
ghost use Rattle.lfs_tree.specs.TreeState.{visible_tree};
ghost use Rattle.lfs_fs.specs.SessionView.{SessionView};
ghost use Rattle.lfs_volume.specs.declared.handles.Handle.{Handle};
ghost use Rattle.lfs_volume.specs.declared.dirty_range.DirtyRange.{DirtyRange};
ghost use Rattle.lfs_volume.specs.Calls.{Call, Close, Open, Perform, Read, Seek, Size, Sync, Tell, Truncate, Write, may_need_memory, renamed_path};
ghost use Rattle.lfs_volume.specs.Examples.{fresh_volume, new_flags, volume_with_open_file, volume_after, volume_replies};
ghost use Rattle.lfs_volume.specs.DirtyRanges.{DiffersInDirtyRange, DiffersOnlyWithinRange, extend_dirty_range, resize_dirty_range};
ghost use Rattle.lfs_volume.specs.Opened.{LeadsToFile};
ghost use Rattle.lfs_volume.specs.Volume.{VolumeView, loaded_node, opened_node, resized_node, stored_bytes, unlinked_node, written_node};
ghost use Rattle.lfs_volume.specs.VolumeCalls.{IsSoundNode, IsSoundVolume, IsVolumeCall};

/// Shows that a file is opened for reading, writing or both. `CREATE`, `TRUNCATE` and `APPEND`
/// require `WRITE`, and `EXCLUSIVE` requires `CREATE`.
pub fn flags_of_volume_are_checked()
    ensures { volume_replies 16
        (Open (codes "/a") read_flags ∷ Open (codes "/a") (record read_flags { create = true })
        ∷ Open (codes "/a") (record write_flags { exclusive = true }) ∷ Open (codes "/a") (record read_flags { unknown = true })
        ∷ Open (codes "/a") (record creating_flags { exclusive = true }) ∷ Open (codes "/a") (record creating_flags { exclusive = true })
        ∷ Open (codes "/a") (record write_flags { read = true; truncate = true }) ∷ [])
        ≡ ops.Refused NoEnt ∷ ops.Refused Invalid ∷ ops.Refused Invalid ∷ ops.Refused Invalid ∷ ops.Opened 0 ∷ ops.Refused Exist
        ∷ ops.Opened 1 ∷ [] }
{}

/// Shows that an open returns the lowest free handle. A call with a handle that isn't open is
/// refused, and so is a read or a write for which the handle wasn't opened.
pub fn open_returns_lowest_free_handle()
    ensures { volume_replies 16
        (Open (codes "/a") creating_flags ∷ Open (codes "/b") new_flags ∷ Open (codes "/a") read_flags ∷ Close 1
        ∷ Open (codes "/c") new_flags ∷ Open (codes "/d") new_flags ∷ Close 7 ∷ Read 0 1 ∷ Write 2 (codes "x") ∷ Tell 7 ∷ [])
        ≡ ops.Opened 0 ∷ ops.Opened 1 ∷ ops.Opened 2 ∷ ops.Done ∷ ops.Opened 1 ∷ ops.Opened 3
        ∷ ops.Refused BadFile ∷ ops.Refused BadFile ∷ ops.Refused BadFile ∷ ops.Refused BadFile ∷ [] }
{}

/// Shows that handles on the same path share the file's contents, while each has its own position.
/// The tree has the new contents after a sync.
pub fn handles_share_one_contents()
    ensures { volume_replies 16
        (Open (codes "/a") new_flags ∷ Open (codes "/a") read_flags ∷ Write 0 (codes "hello") ∷ Read 1 2 ∷ Tell 0 ∷ Tell 1
        ∷ Size 1 ∷ Perform (ops.Stat (codes "/a")) ∷ Sync 1 ∷ Perform (ops.Stat (codes "/a")) ∷ Seek 0 1 ∷ Write 0 (codes "u")
        ∷ Seek 1 0 ∷ Read 1 9 ∷ Truncate 0 2 ∷ Size 1 ∷ [])
        ≡ ops.Opened 0 ∷ ops.Opened 1 ∷ ops.Count 5 ∷ ops.Bytes (codes "he") ∷ ops.Count 5 ∷ ops.Count 2
        ∷ ops.Count 5 ∷ ops.StatIs (Some 0) ∷ ops.Done ∷ ops.StatIs (Some 5) ∷ ops.Done ∷ ops.Count 1
        ∷ ops.Done ∷ ops.Bytes (codes "hullo") ∷ ops.Done ∷ ops.Count 2 ∷ [] }
{}

/// Shows that positions and sizes above the maximum size of a file are refused.
pub fn positions_past_limit_are_refused()
    ensures { volume_replies 16
        (Open (codes "/a") new_flags ∷ Seek 0 2147483647 ∷ Seek 0 2147483648 ∷ Tell 0 ∷ Write 0 (codes "x") ∷ Write 0 []
        ∷ Truncate 0 2147483648 ∷ Read 0 9 ∷ Size 0 ∷ [])
        ≡ ops.Opened 0 ∷ ops.Done ∷ ops.Refused Invalid ∷ ops.Count 2147483647 ∷ ops.Refused TooBig ∷ ops.Count 0
        ∷ ops.Refused TooBig ∷ ops.Bytes [] ∷ ops.Count 0 ∷ [] }
{}

/// Shows that open files move with a directory that is renamed. A file doesn't move if its path
/// only begins with the same characters.
pub fn renaming_directory_moves_open_files()
    ensures replies { volume_replies 16
        (Perform (ops.Mkdir (codes "/d")) ∷ Open (codes "/d/a") new_flags ∷ Open (codes "/dd") new_flags ∷ Write 0 (codes "moved")
        ∷ Write 1 (codes "stays") ∷ Perform (ops.Rename (codes "/d") (codes "/e")) ∷ Close 0 ∷ Close 1
        ∷ Perform (ops.Stat (codes "/d/a")) ∷ Perform (ops.Stat (codes "/e/a")) ∷ Perform (ops.Stat (codes "/dd"))
        ∷ Perform (ops.Remove (codes "/e")) ∷ [])
        ≡ ops.Done ∷ ops.Opened 0 ∷ ops.Opened 1 ∷ ops.Count 5 ∷ ops.Count 5 ∷ ops.Done ∷ ops.Done ∷ ops.Done
        ∷ ops.Refused NoEnt ∷ ops.StatIs (Some 5) ∷ ops.StatIs (Some 5) ∷ ops.Refused NotEmpty ∷ [] }
    ensures moves { renamed_path (codes "/d") (codes "/e") (opened_node (codes "/d/a") 0) ≡ Some (codes "/e/a") }
    ensures itself { renamed_path (codes "/d") (codes "/e") (opened_node (codes "/d") 0) ≡ Some (codes "/e") }
    ensures stays { renamed_path (codes "/d") (codes "/e") (opened_node (codes "/dd") 0) ≡ None }
    ensures removed { renamed_path (codes "/d") (codes "/e") (unlinked_node (opened_node (codes "/d") 0)) ≡ None }
{}

/// Shows that a file that was removed or replaced can still be read and written through its open
/// handles, and that no sync brings the file back.
pub fn removed_file_stays_open()
    ensures removed { volume_replies 16
        (Open (codes "/a") new_flags ∷ Write 0 (codes "kept") ∷ Close 0 ∷ Open (codes "/a") new_flags ∷ Perform (ops.Remove (codes "/a"))
        ∷ Perform (ops.Stat (codes "/a")) ∷ Read 0 9 ∷ Write 0 (codes "!") ∷ Sync 0 ∷ Perform (ops.Stat (codes "/a"))
        ∷ Open (codes "/a") new_flags ∷ Size 0 ∷ Size 1 ∷ [])
        ≡ ops.Opened 0 ∷ ops.Count 4 ∷ ops.Done ∷ ops.Opened 0 ∷ ops.Done
        ∷ ops.Refused NoEnt ∷ ops.Bytes (codes "kept") ∷ ops.Count 1 ∷ ops.Done ∷ ops.Refused NoEnt
        ∷ ops.Opened 1 ∷ ops.Count 5 ∷ ops.Count 0 ∷ [] }
    ensures replaced { volume_replies 16
        (Open (codes "/a") new_flags ∷ Write 0 (codes "new") ∷ Open (codes "/b") new_flags ∷ Write 1 (codes "older")
        ∷ Perform (ops.Rename (codes "/a") (codes "/b")) ∷ Close 0 ∷ Close 1 ∷ Perform (ops.Stat (codes "/b"))
        ∷ Perform (ops.Stat (codes "/a")) ∷ [])
        ≡ ops.Opened 0 ∷ ops.Count 3 ∷ ops.Opened 1 ∷ ops.Count 5 ∷ ops.Done ∷ ops.Done ∷ ops.Done ∷ ops.StatIs (Some 3)
        ∷ ops.Refused NoEnt ∷ [] }
{}

/// Shows that a sync needs two free blocks, and the blocks of a CTZ skip-list of the file's size.
/// If the sync is refused, the bytes stay in memory until the file is closed, and are then lost.
pub fn sync_without_free_blocks_is_refused()
    ensures full { volume_replies 6
        (Open (codes "/a") new_flags ∷ Write 0 (replicate 128 7) ∷ Write 0 (replicate 128 7) ∷ Sync 0 ∷ Write 0 (replicate 20 7) ∷ Sync 0
        ∷ Perform (ops.Stat (codes "/a")) ∷ Size 0 ∷ Close 0 ∷ Size 0 ∷ Perform (ops.Stat (codes "/a")) ∷ [])
        ≡ ops.Opened 0 ∷ ops.Count 128 ∷ ops.Count 128 ∷ ops.Refused NoSpace ∷ ops.Count 20 ∷ ops.Refused NoSpace
        ∷ ops.StatIs (Some 0) ∷ ops.Count 276 ∷ ops.Refused NoSpace ∷ ops.Refused BadFile ∷ ops.StatIs (Some 0) ∷ [] }
    ensures fits { volume_replies 6
        (Open (codes "/a") new_flags ∷ Write 0 (replicate 128 7) ∷ Write 0 (replicate 124 7) ∷ Sync 0 ∷ Perform (ops.Stat (codes "/a")) ∷ [])
        ≡ ops.Opened 0 ∷ ops.Count 128 ∷ ops.Count 124 ∷ ops.Done ∷ ops.StatIs (Some 252) ∷ [] }
{}

/// Shows that bytes outside the dirty range never differ from the stored ones. The dirty range grows when bytes
/// are written or appended, and is truncated with the contents.
pub fn changed_bytes_are_in_dirty_range()
    ensures first { extend_dirty_range None 3 5 ≡ record { from = 3; end = 5 } }
    ensures grows { extend_dirty_range (Some (record { from = 3; end = 5 })) 7 9 ≡ record { from = 3; end = 9 } }
    ensures longer { resize_dirty_range (Some (record { from = 3; end = 5 })) 6 8 ≡ record { from = 3; end = 8 } }
    ensures shorter { resize_dirty_range (Some (record { from = 3; end = 5 })) 6 4 ≡ record { from = 3; end = 4 } }
    ensures within { DiffersOnlyWithinRange (1 ∷ 2 ∷ 3 ∷ 4 ∷ []) (1 ∷ 2 ∷ 0 ∷ 4 ∷ []) (record { from = 2; end = 3 }) }
    ensures behind { DiffersOnlyWithinRange (1 ∷ 2 ∷ 3 ∷ 4 ∷ []) (1 ∷ 2 ∷ 0 ∷ 5 ∷ []) (record { from = 2; end = 3 }) → ⊥ }
    ensures same { DiffersInDirtyRange (1 ∷ 2 ∷ []) (1 ∷ 2 ∷ []) None }
    ensures other { DiffersInDirtyRange (1 ∷ 2 ∷ []) (1 ∷ 3 ∷ []) None → ⊥ }
{}

/// Shows the effects of writes, truncations and removals on an open file of four bytes.
pub fn node_is_changed_in_memory()
    ensures written { written_node 1 (codes "XY") (codes "abcd") (opened_node (codes "/a") 4) ≡ record { path = Some (codes "/a"); size = 4; contents = Some (codes "aXYd"); dirty_range = Some (record { from = 1; end = 3 }) } }
    ensures gap { written_node 5 (codes "X") (codes "abcd") (opened_node (codes "/a") 4) ≡ record { path = Some (codes "/a"); size = 6; contents = Some (codes "abcd" ++ 0 ∷ codes "X"); dirty_range = Some (record { from = 4; end = 6 }) } }
    ensures cut { resized_node 2 (codes "abcd") (opened_node (codes "/a") 4) ≡ record { path = Some (codes "/a"); size = 2; contents = Some (codes "ab"); dirty_range = Some (record { from = 2; end = 2 }) } }
    ensures unchanged { resized_node 4 (codes "abcd") (opened_node (codes "/a") 4) ≡ opened_node (codes "/a") 4 }
    ensures removed { unlinked_node (loaded_node (codes "abcd") (opened_node (codes "/a") 4)) ≡ record { path = None; size = 4; contents = Some (codes "abcd"); dirty_range = None } }
{}

/// Shows which calls may allocate memory for the volume itself, and which never do.
pub fn growing_calls_may_need_memory()
    ensures open { may_need_memory fresh_volume (Open (codes "/a") read_flags) ≡ true }
    ensures longer { may_need_memory volume_with_open_file (Write 0 (codes "abcde")) ≡ true }
    ensures within { may_need_memory volume_with_open_file (Write 0 (codes "abcd")) ≡ false }
    ensures cut { may_need_memory volume_with_open_file (Truncate 0 3) ≡ false }
    ensures sync { may_need_memory volume_with_open_file (Sync 0) ≡ false }
    ensures rename { may_need_memory volume_with_open_file (Perform (ops.Rename (codes "/a") (codes "/b"))) ≡ true }
{}

/// Shows that a volume that has failed replies `Failed` to each call and changes nothing. A failed
/// volume never replies `Done`.
pub fn failed_volume_changes_nothing()
    ensures refused { (v : VolumeView) (call : Call) → v.session.tree.failed ≡ true → IsVolumeCall v call (Ok (ops.Refused Failed)) v }
    ensures other { (v w : VolumeView) (call : Call) → v.session.tree.failed ≡ true → IsVolumeCall v call (Ok ops.Done) w → ⊥ }
{}

/// Shows that a volume without handles is sound if its session hasn't failed and has no open file.
/// A volume isn't sound if a handle refers to no node. A node isn't sound if its bytes aren't in
/// memory and it has a dirty range, or if its size isn't that of its file.
pub fn sound_handles_name_existing_nodes()
    ensures empty { (h : SessionView) → h.tree.failed ≡ false → h.files ≡ [] → IsSoundVolume (record { session = h; nodes = []; handles = [] }) }
    ensures handle { (h : SessionView) (g : Handle) → IsSoundVolume (record { session = h; nodes = []; handles = Some g ∷ [] }) → ⊥ }
    ensures size { (h : SessionView) (path : List ℕ) (size : ℕ) → length (stored_bytes (visible_tree h.tree) (Some path)) ≢ size → IsSoundNode h (opened_node path size) → ⊥ }
    ensures dirty_range { (h : SessionView) (path : List ℕ) (size : ℕ) (dirty_range : DirtyRange) → IsSoundNode h (record (opened_node path size) { dirty_range = Some dirty_range }) → ⊥ }
{}

/// Shows that the path of a file in the tree leads to a file, while the root's path and the path of
/// a missing entry don't.
pub fn only_absolute_path_leads_to_file()
    ensures file { LeadsToFile (volume_after 16 (Open (codes "/a") new_flags ∷ [])).tree (codes "/a") }
    ensures none { LeadsToFile (volume_after 16 (Open (codes "/a") new_flags ∷ [])).tree (codes "/b") → ⊥ }
    ensures root { LeadsToFile (volume_after 16 (Open (codes "/a") new_flags ∷ [])).tree (codes "/") → ⊥ }
    ensures beneath { LeadsToFile (volume_after 16 (Open (codes "/a") new_flags ∷ [])).tree (codes "/a/b") → ⊥ }
    ensures form { LeadsToFile (volume_after 16 (Open (codes "/a") new_flags ∷ [])).tree (codes "a") → ⊥ }
{}
