// What each operation checks, in which order, and how queries of the disk are answered.

ghost use Rattle.std.specs.Prelude.{◌≡◌, true, false, [], ◌∷◌, ◌++◌, filter, Some, None, replicate, codes};
ghost use Rattle.lfs_model.specs.format.Slots.{zero_gstate};
ghost use Rattle.lfs_model.specs.session.Operations as ops;
ghost use Rattle.lfs_model.specs.session.Operations.{NoEnt, BadFile, Exist, NotDir, IsDir, Invalid, NoSpace, ReadOnly, NameTooLong, NotEmpty, NoAttr, EntryFull};
ghost use Rattle.lfs_model.specs.session.State.{mounted_session};
ghost use Rattle.lfs_model.specs.tree.Fresh.{empty_tree};
ghost use Rattle.lfs_model.specs.crash.Frame.{refused_before_search, needs_session_alone};
ghost use Rattle.lfs_model.specs.examples.Runs.{all_refusals, writer_session};
ghost use Rattle.lfs_model.specs.examples.Sessions.{writable_summary, replies_to_operations, fresh_replies, with_used_count, read_flags, write_flags, creating_flags};

/// A disk outside the writing profile can only be read. An operation that would change such a disk
/// is refused with `ReadOnly` before any other check.
pub fn read_only_is_checked_first()
    ensures { replies_to_operations (λ used. record (writable_summary 4096 256 16 used) { writable = false }) (mounted_session empty_tree) (with_used_count 2
        (ops.Open [] write_flags ∷ ops.Open (codes "/a") (record write_flags { read = true }) ∷ ops.Mkdir [] ∷ ops.Remove (codes "/")
        ∷ ops.Rename (codes "/") [] ∷ ops.SetAttr (codes "/") 0x41 [] ∷ ops.RemoveAttr (codes "/x/y") 0x41 ∷ ops.Recover
        ∷ ops.Open [] read_flags ∷ ops.Write 0 [] ∷ ops.ListAll (codes "/") ∷ ops.Stat (codes "/") ∷ ops.GetAttr (codes "/") 0x41 ∷ []))
        ≡ ops.Refused ReadOnly ∷ ops.Refused ReadOnly ∷ ops.Refused ReadOnly ∷ ops.Refused ReadOnly
        ∷ ops.Refused ReadOnly ∷ ops.Refused ReadOnly ∷ ops.Refused ReadOnly ∷ ops.Refused ReadOnly
        ∷ ops.Refused Invalid ∷ ops.Refused BadFile ∷ ops.Items [] ∷ ops.StatIs None ∷ ops.Refused Invalid ∷ [] }
{}

/// Lists the refusals that need no look-up, and the operations that need neither the device nor
/// memory.
pub fn some_refusals_need_no_look_up()
    ensures made { filter (refused_before_search (ops.Mkdir (codes "/d"))) all_refusals ≡ BadFile ∷ Invalid ∷ ReadOnly ∷ ops.Failed ∷ [] }
    ensures written { filter (refused_before_search (ops.Write 0 [])) all_refusals ≡ all_refusals }
    ensures remounted { refused_before_search ops.Remount ops.Failed ≡ false }
    ensures moved { filter (needs_session_alone (writer_session [] true [])) (ops.Seek 0 1 ∷ ops.Read 0 1 ∷ ops.Write 0 [] ∷ ops.Sync 0 ∷ ops.UsedCount ∷ [])
        ≡ ops.Seek 0 1 ∷ ops.Write 0 [] ∷ ops.UsedCount ∷ [] }
{}

/// Queries of a disk report its global state, whether a block is used, and how many blocks are
/// used.
pub fn queries_of_disk_are_answered()
    ensures plain { replies_to_operations (writable_summary 4096 256 16) (mounted_session empty_tree) (with_used_count 1
        (ops.AskGstate ∷ ops.IsUsed 0 ∷ ops.IsUsed 15 ∷ ops.IsUsed 16 ∷ ops.UsedCount ∷ ops.Recover ∷ []))
        ≡ ops.GstateIs false None ∷ ops.Yes true ∷ ops.Yes false ∷ ops.Refused Invalid ∷ ops.Count 1 ∷ ops.Done ∷ [] }
    ensures set_move { replies_to_operations (λ used. record (writable_summary 4096 256 16 used) { gstate = record zero_gstate { sync = true; kind = 0x4ff; id = 3; pair = (3, 2) } }) (mounted_session empty_tree)
        (with_used_count 4 (ops.AskGstate ∷ []))
        ≡ ops.GstateIs true (Some ((3, 2), 3)) ∷ [] }
{}

/// If only one block is free, a rename, a `SetAttr` or a truncation is refused with `NoSpace`. A
/// remove needs no free block.
pub fn changes_need_two_free_blocks()
    ensures { fresh_replies 1024 128 4
        (with_used_count 2 (ops.Open (codes "/a") creating_flags ∷ ops.Write 0 (1 ∷ []) ∷ ops.Close 0 ∷ [])
        ++ with_used_count 3 (ops.Rename (codes "/a") (codes "/b") ∷ ops.Rename (codes "/a") (codes "/a") ∷ ops.SetAttr (codes "/a") 0x41 []
        ∷ ops.RemoveAttr (codes "/a") 0x41 ∷ ops.Open (codes "/a") (record write_flags { truncate = true })
        ∷ ops.Open (codes "/a") write_flags ∷ ops.Truncate 0 0 ∷ ops.Truncate 0 1 ∷ ops.Write 0 [] ∷ ops.Close 0 ∷ ops.Remove (codes "/a") ∷ []))
        ≡ ops.Opened 0 ∷ ops.Count 1 ∷ ops.Done
        ∷ ops.Refused NoSpace ∷ ops.Refused NoSpace ∷ ops.Refused NoSpace ∷ ops.Refused NoAttr ∷ ops.Refused NoSpace
        ∷ ops.Opened 0 ∷ ops.Refused NoSpace ∷ ops.Done ∷ ops.Count 0 ∷ ops.Done ∷ ops.Done ∷ [] }
{}

/// A rename is refused if the new name is too long, or doesn't fit a pair together with the entry's
/// attributes. The parents of the old path are checked before those of the new path.
pub fn rename_counts_size_of_new_name()
    ensures { fresh_replies 1024 128 64 (with_used_count 2
        (ops.Open (codes "/a") creating_flags ∷ ops.Close 0 ∷ ops.SetAttr (codes "/a") 0x41 (replicate 200 1)
        ∷ ops.Rename (codes "/a") (47 ∷ replicate 255 97) ∷ ops.Rename (47 ∷ replicate 256 97) (47 ∷ replicate 256 97)
        ∷ ops.Rename (codes "/x/y") (codes "/a/b") ∷ ops.Rename (codes "/a") (codes "/x/y") ∷ ops.Rename (codes "/a/b") (codes "/x/y") ∷ []))
        ≡ ops.Opened 0 ∷ ops.Done ∷ ops.Done ∷ ops.Refused EntryFull ∷ ops.Refused NameTooLong ∷ ops.Refused NoEnt ∷ ops.Refused NoEnt ∷ ops.Refused NotDir ∷ [] }
{}

/// A write that doesn't begin where the last write ended makes its writer nonsequential. A
/// truncation that lengthens the file moves the end of the last write, and a sync forgets that end.
/// A nonsequential writer needs four blocks here, and three are free.
pub fn truncate_and_sync_change_end_of_last_write()
    ensures gap { fresh_replies 1024 128 5 (with_used_count 2
        (ops.Open (codes "/a") creating_flags ∷ ops.Write 0 (replicate 500 7) ∷ ops.Seek 0 600 ∷ ops.Write 0 (1 ∷ []) ∷ ops.Seek 0 0 ∷ ops.Write 0 (1 ∷ []) ∷ []))
        ≡ ops.Opened 0 ∷ ops.Count 500 ∷ ops.Done ∷ ops.Count 1 ∷ ops.Done ∷ ops.Refused NoSpace ∷ [] }
    ensures lengthened { fresh_replies 1024 128 5 (with_used_count 2
        (ops.Open (codes "/a") creating_flags ∷ ops.Truncate 0 500 ∷ ops.Write 0 (1 ∷ []) ∷ ops.Seek 0 500 ∷ ops.Write 0 (1 ∷ []) ∷ []))
        ≡ ops.Opened 0 ∷ ops.Done ∷ ops.Refused NoSpace ∷ ops.Done ∷ ops.Count 1 ∷ [] }
    ensures synced { fresh_replies 1024 128 6
        (with_used_count 2 (ops.Open (codes "/a") creating_flags ∷ ops.Write 0 (replicate 500 7) ∷ ops.Sync 0 ∷ [])
        ++ with_used_count 3 (ops.Seek 0 0 ∷ ops.Write 0 (1 ∷ []) ∷ []))
        ≡ ops.Opened 0 ∷ ops.Count 500 ∷ ops.Done ∷ ops.Done ∷ ops.Count 1 ∷ [] }
{}

/// The first check that fails decides with which error an operation is refused.
pub fn first_failing_check_decides_refusal()
    ensures directories { fresh_replies 4096 256 64 ((2, ops.Mkdir (codes "/d")) ∷ with_used_count 4
        (ops.Open (codes "/d") (record creating_flags { exclusive = true }) ∷ ops.Open (codes "/d") creating_flags ∷ ops.Open (codes "/") read_flags
        ∷ ops.Open (codes "/d/f") creating_flags ∷ ops.Remove (codes "/d") ∷ ops.Remove (codes "/") ∷ ops.GetAttr (codes "/") 0 ∷ ops.RemoveAttr (codes "/") 0
        ∷ ops.Rename (codes "/x/y") (codes "/d/f/z") ∷ ops.Rename (codes "/d/f/z") (codes "/x/y") ∷ []))
        ≡ ops.Done ∷ ops.Refused Exist ∷ ops.Refused IsDir ∷ ops.Refused IsDir ∷ ops.Opened 0 ∷ ops.Refused NotEmpty
        ∷ ops.Refused Invalid ∷ ops.Refused Invalid ∷ ops.Refused Invalid ∷ ops.Refused NoEnt ∷ ops.Refused NotDir ∷ [] }
    ensures readers { fresh_replies 4096 256 16 (with_used_count 2
        (ops.Open (codes "/a") creating_flags ∷ ops.Write 0 (codes "hello") ∷ ops.Close 0 ∷ ops.Open (codes "/a") read_flags ∷ ops.Sync 0 ∷ ops.Seek 0 3 ∷ ops.Read 0 9
        ∷ ops.Truncate 0 0 ∷ ops.Seek 7 2147483648 ∷ ops.Truncate 7 2147483648 ∷ []))
        ≡ ops.Opened 0 ∷ ops.Count 5 ∷ ops.Done ∷ ops.Opened 0 ∷ ops.Done ∷ ops.Done ∷ ops.Bytes (codes "lo")
        ∷ ops.Refused BadFile ∷ ops.Refused BadFile ∷ ops.Refused BadFile ∷ [] }
{}
