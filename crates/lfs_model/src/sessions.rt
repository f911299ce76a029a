// Replies of sessions that begin with a fresh disk.

ghost use Rattle.std.specs.Prelude.{◌≡◌, true, [], ◌∷◌, ◌++◌, Some, None, replicate, codes};
ghost use Rattle.lfs_model.specs.format.Disk.{default_profile};
ghost use Rattle.lfs_model.specs.session.Operations as ops;
ghost use Rattle.lfs_model.specs.session.Operations.{NoEnt, BadFile, Busy, Exist, NotDir, IsDir, Invalid, TooBig, NoSpace, NameTooLong, NotEmpty, NoAttr, EntryFull, Failed};
ghost use Rattle.lfs_model.specs.session.State.{SessionHealth, HasFailed, Healthy, mounted_session, result_and_health};
ghost use Rattle.lfs_model.specs.tree.Fresh.{empty_tree};
ghost use Rattle.lfs_model.specs.examples.Sessions.{writable_summary, fresh_replies, replies_to_operations, with_used_count, no_flags, read_flags, write_flags, creating_flags};

/// A malformed path is refused with `Invalid`, and a name of more than 255 bytes with
/// `NameTooLong`.
pub fn paths_are_checked()
    ensures forms { fresh_replies 4096 256 16 (with_used_count 2
        (ops.Stat [] ∷ ops.Stat (codes "a") ∷ ops.Stat (codes "/a/") ∷ ops.Stat (codes "//a") ∷ ops.Stat (codes "/.") ∷ ops.Stat (codes "/a/../b")
        ∷ ops.Stat (47 ∷ 0 ∷ []) ∷ ops.Stat (codes "/") ∷ ops.Stat (codes "/a") ∷ ops.Stat (codes "/a/b") ∷ []))
        ≡ ops.Refused Invalid ∷ ops.Refused Invalid ∷ ops.Refused Invalid ∷ ops.Refused Invalid
        ∷ ops.Refused Invalid ∷ ops.Refused Invalid
        ∷ ops.Refused Invalid ∷ ops.StatIs None ∷ ops.Refused NoEnt ∷ ops.Refused NoEnt ∷ [] }
    ensures lengths { fresh_replies 4096 256 16 (with_used_count 2
        (ops.Mkdir (47 ∷ replicate 255 97) ∷ ops.Mkdir (47 ∷ replicate 256 97) ∷ ops.Mkdir (codes "/")
        ∷ ops.Mkdir (codes "/x/y") ∷ ops.Mkdir (codes "/littlefs") ∷ []))
        ≡ ops.Done ∷ ops.Refused NameTooLong ∷ ops.Refused Exist ∷ ops.Refused NoEnt ∷ ops.Done ∷ [] }
{}

/// An open is refused with `Invalid` if its flags are unknown or incompatible.
pub fn flags_are_checked()
    ensures refused { fresh_replies 4096 256 16 (with_used_count 2
        (ops.Open (codes "/a") no_flags ∷ ops.Open (codes "/a") (record creating_flags { read = true })
        ∷ ops.Open (codes "/a") (record read_flags { create = true })
        ∷ ops.Open (codes "/a") (record write_flags { exclusive = true })
        ∷ ops.Open (codes "/a") (record read_flags { unknown = true }) ∷ ops.Open (codes "/a") write_flags ∷ []))
        ≡ ops.Refused Invalid ∷ ops.Refused Invalid ∷ ops.Refused Invalid ∷ ops.Refused Invalid
        ∷ ops.Refused Invalid ∷ ops.Refused NoEnt ∷ [] }

    // The `truncate` flag empties a file at the next sync or close. The `append` flag makes each
    // write begin at the end of the file.
    ensures used { fresh_replies 4096 256 16 (with_used_count 2
        (ops.Open (codes "/a") creating_flags ∷ ops.Write 0 (codes "hello") ∷ ops.Close 0
        ∷ ops.Open (codes "/a") (record creating_flags { exclusive = true })
        ∷ ops.Open (codes "/a") (record write_flags { append = true }) ∷ ops.Write 0 (codes "!") ∷ ops.Close 0
        ∷ ops.Open (codes "/a") read_flags ∷ ops.Read 0 9 ∷ ops.Close 0
        ∷ ops.Open (codes "/a") (record write_flags { truncate = true }) ∷ ops.Stat (codes "/a") ∷ ops.Close 0
        ∷ ops.Stat (codes "/a") ∷ []))
        ≡ ops.Opened 0 ∷ ops.Count 5 ∷ ops.Done ∷ ops.Refused Exist
        ∷ ops.Opened 0 ∷ ops.Count 1 ∷ ops.Done
        ∷ ops.Opened 0 ∷ ops.Bytes (codes "hello!") ∷ ops.Done
        ∷ ops.Opened 0 ∷ ops.StatIs (Some 6) ∷ ops.Done ∷ ops.StatIs (Some 0) ∷ [] }
{}

/// A session keeps the position of each open file, fills gaps with zeros, and refuses to exceed the
/// largest file size.
pub fn file_positions_are_kept()
    ensures { fresh_replies 1024 128 64 (with_used_count 2
        (ops.Open (codes "/a") creating_flags ∷ ops.Seek 0 2147483647 ∷ ops.Write 0 (0 ∷ []) ∷ ops.Write 0 []
        ∷ ops.Seek 0 2147483648 ∷ ops.Truncate 0 2147483648
        ∷ ops.Seek 0 3 ∷ ops.Write 0 (codes "x") ∷ ops.Stat (codes "/a") ∷ ops.Sync 0 ∷ ops.Stat (codes "/a")
        ∷ ops.Sync 0 ∷ ops.Close 0
        ∷ ops.Open (codes "/a") read_flags ∷ ops.Read 0 2 ∷ ops.Read 0 9 ∷ ops.Read 0 9 ∷ []))
        ≡ ops.Opened 0 ∷ ops.Done ∷ ops.Refused TooBig ∷ ops.Count 0 ∷ ops.Refused Invalid ∷ ops.Refused TooBig
        ∷ ops.Done ∷ ops.Count 1 ∷ ops.StatIs (Some 0) ∷ ops.Done ∷ ops.StatIs (Some 4) ∷ ops.Done ∷ ops.Done
        ∷ ops.Opened 0 ∷ ops.Bytes (0 ∷ 0 ∷ []) ∷ ops.Bytes (0 ∷ 120 ∷ []) ∷ ops.Bytes [] ∷ [] }
{}

/// A session has at most one writer and 16 readers, and can neither remove nor rename an open file.
pub fn open_files_are_busy()
    ensures { fresh_replies 4096 256 16 (with_used_count 2
        (ops.Open (codes "/a") creating_flags ∷ ops.Open (codes "/b") creating_flags ∷ ops.Open (codes "/a") read_flags
        ∷ ops.Remove (codes "/a") ∷ ops.Close 0
        ∷ replicate 17 (ops.Open (codes "/a") read_flags)
        ++ ops.Open (codes "/a") write_flags ∷ ops.Open (codes "/b") creating_flags ∷ ops.Read 16 1 ∷ ops.Write 0 []
        ∷ ops.Read 17 1
        ∷ ops.Rename (codes "/a") (codes "/c") ∷ ops.Rename (codes "/b") (codes "/a") ∷ ops.Close 3 ∷ ops.Read 3 1
        ∷ ops.Open (codes "/a") read_flags ∷ []))
        ≡ ops.Opened 0 ∷ ops.Refused Busy ∷ ops.Refused Busy ∷ ops.Refused Busy ∷ ops.Done
        ∷ ops.Opened 0 ∷ ops.Opened 1 ∷ ops.Opened 2 ∷ ops.Opened 3 ∷ ops.Opened 4 ∷ ops.Opened 5 ∷ ops.Opened 6
        ∷ ops.Opened 7
        ∷ ops.Opened 8 ∷ ops.Opened 9 ∷ ops.Opened 10 ∷ ops.Opened 11 ∷ ops.Opened 12 ∷ ops.Opened 13
        ∷ ops.Opened 14 ∷ ops.Opened 15 ∷ ops.Refused Busy
        ∷ ops.Refused Busy ∷ ops.Opened 16 ∷ ops.Refused BadFile ∷ ops.Refused BadFile ∷ ops.Refused BadFile
        ∷ ops.Refused Busy ∷ ops.Refused Busy ∷ ops.Done ∷ ops.Refused BadFile ∷ ops.Opened 3 ∷ [] }
{}

/// A rename replaces a file or an empty directory, and moves a directory with everything below it.
pub fn rename_moves_subtree()
    ensures onto_itself { fresh_replies 4096 256 16 (with_used_count 2
        (ops.Rename (codes "/a") (codes "/a/b/c") ∷ ops.Rename (codes "/") (codes "/a")
        ∷ ops.Rename (codes "/a") (codes "/b") ∷ ops.Open (codes "/a") creating_flags ∷ ops.Remove (codes "/a")
        ∷ ops.Close 0
        ∷ ops.Rename (codes "/a") (codes "/a") ∷ ops.Rename (codes "/a") (codes "/a/b/c") ∷ []))
        ≡ ops.Refused Invalid ∷ ops.Refused Invalid ∷ ops.Refused NoEnt ∷ ops.Opened 0 ∷ ops.Refused Busy ∷ ops.Done
        ∷ ops.Done ∷ ops.Refused Invalid ∷ [] }

    // After the only file of a directory is moved away, the directory can be removed.
    ensures across { fresh_replies 4096 256 16
        ((2, ops.Mkdir (codes "/s")) ∷ with_used_count 4 (ops.Open (codes "/s/f") creating_flags ∷ ops.Close 0
        ∷ ops.Remove (codes "/s") ∷ ops.Rename (codes "/s/f") (codes "/g") ∷ ops.Remove (codes "/s") ∷ [])
        ++ (2, ops.ListAll (codes "/")) ∷ [])
        ≡ ops.Done ∷ ops.Opened 0 ∷ ops.Done ∷ ops.Refused NotEmpty ∷ ops.Done ∷ ops.Done
        ∷ ops.Items (record { name = codes "g"; size = Some 0 } ∷ []) ∷ [] }

    // A directory moves with all entries below it, and may replace an empty directory.
    ensures directories { fresh_replies 4096 256 64
        ((2, ops.Mkdir (codes "/a")) ∷ (4, ops.Mkdir (codes "/a/b")) ∷ (6, ops.Mkdir (codes "/c")) ∷ with_used_count 8
        (ops.Open (codes "/a/b/f") creating_flags ∷ ops.Write 0 (codes "hello") ∷ ops.Rename (codes "/a") (codes "/c")
        ∷ ops.Close 0 ∷ ops.SetAttr (codes "/a") 0x41 (codes "x")
        ∷ ops.Rename (codes "/c") (codes "/a") ∷ ops.Rename (codes "/a") (codes "/c") ∷ ops.Stat (codes "/a")
        ∷ ops.Stat (codes "/c/b/f") ∷ ops.GetAttr (codes "/c") 0x41
        ∷ ops.Rename (codes "/c/b/f") (codes "/c/b") ∷ ops.Rename (codes "/c/b/f") (codes "/c")
        ∷ ops.Open (codes "/g") creating_flags ∷ ops.Close 0 ∷ ops.Rename (codes "/c") (codes "/g")
        ∷ ops.Stat (codes "/g/x")
        ∷ ops.Rename (codes "/c/b/f") (codes "/g") ∷ ops.Stat (codes "/g") ∷ ops.ListAll (codes "/c")
        ∷ ops.ListAll (codes "/c/b") ∷ ops.ListAll (codes "/g") ∷ []))
        ≡ ops.Done ∷ ops.Done ∷ ops.Done
        ∷ ops.Opened 0 ∷ ops.Count 5 ∷ ops.Refused Busy ∷ ops.Done ∷ ops.Done
        ∷ ops.Refused NotEmpty ∷ ops.Done ∷ ops.Refused NoEnt ∷ ops.StatIs (Some 5) ∷ ops.Bytes (codes "x")
        ∷ ops.Refused IsDir ∷ ops.Refused IsDir ∷ ops.Opened 0 ∷ ops.Done ∷ ops.Refused NotDir ∷ ops.Refused NotDir
        ∷ ops.Done ∷ ops.StatIs (Some 5) ∷ ops.Items (record { name = codes "b"; size = None } ∷ []) ∷ ops.Items []
        ∷ ops.Refused NotDir ∷ [] }
{}

/// An operation is refused with `NoSpace` if too few blocks are free. Blocks that an open writer
/// may need don't count as free.
pub fn space_for_blocks_is_checked()
    ensures two_blocks { fresh_replies 1024 128 2 ((2, ops.Open (codes "/a") creating_flags) ∷ []) ≡ ops.Refused NoSpace ∷ [] }
    ensures four_blocks { fresh_replies 1024 128 4 (with_used_count 2
        (ops.Mkdir (codes "/d") ∷ ops.Open (codes "/a") creating_flags ∷ ops.Write 0 (1 ∷ []) ∷ ops.Mkdir (codes "/d")
        ∷ ops.Close 0 ∷ ops.UsedCount ∷ []))
        ≡ ops.Refused NoSpace ∷ ops.Opened 0 ∷ ops.Count 1 ∷ ops.Refused NoSpace ∷ ops.Done ∷ ops.Count 2 ∷ [] }

    // 5,000 bytes need five blocks. A write elsewhere makes the writer nonsequential, and such a
    // writer needs the blocks twice.
    ensures not_turned { fresh_replies 1024 128 13
        (with_used_count 2 (ops.Open (codes "/a") creating_flags ∷ ops.Write 0 (replicate 5000 7) ∷ ops.Seek 0 10
        ∷ ops.Write 0 (1 ∷ []) ∷ ops.Close 0 ∷ []) ++ (7, ops.Stat (codes "/a")) ∷ [])
        ≡ ops.Opened 0 ∷ ops.Count 5000 ∷ ops.Done ∷ ops.Refused NoSpace ∷ ops.Done ∷ ops.StatIs (Some 5000) ∷ [] }
    ensures turned { fresh_replies 1024 128 14
        (with_used_count 2 (ops.Open (codes "/a") creating_flags ∷ ops.Write 0 (replicate 5000 7) ∷ ops.Seek 0 10
        ∷ ops.Write 0 (1 ∷ []) ∷ ops.Seek 0 20 ∷ ops.Write 0 (1 ∷ []) ∷ ops.Close 0 ∷ [])
        ++ (7, ops.Stat (codes "/a")) ∷ [])
        ≡ ops.Opened 0 ∷ ops.Count 5000 ∷ ops.Done ∷ ops.Count 1 ∷ ops.Done ∷ ops.Count 1 ∷ ops.Done
        ∷ ops.StatIs (Some 5000) ∷ [] }
    ensures truncated { fresh_replies 1024 128 13
        (with_used_count 2 (ops.Open (codes "/a") creating_flags ∷ ops.Write 0 (replicate 5000 7) ∷ ops.Truncate 0 4000
        ∷ ops.Truncate 0 5000 ∷ ops.Close 0 ∷ []) ++ (6, ops.Stat (codes "/a")) ∷ [])
        ≡ ops.Opened 0 ∷ ops.Count 5000 ∷ ops.Done ∷ ops.Refused NoSpace ∷ ops.Done ∷ ops.StatIs (Some 4000) ∷ [] }
{}

/// A name and its attributes may need at most half of a metadata pair. In these examples half a
/// pair has 428 bytes, of which 128 are reserved for inline contents.
pub fn entry_size_limits_attributes()
    ensures limit { fresh_replies 1024 128 64 (with_used_count 2
        (ops.Open (47 ∷ replicate 255 97) creating_flags ∷ ops.Close 0
        ∷ ops.SetAttr (47 ∷ replicate 255 97) 0x41 (replicate 33 1)
        ∷ ops.SetAttr (47 ∷ replicate 255 97) 0x41 (replicate 34 2)
        ∷ ops.GetAttr (47 ∷ replicate 255 97) 0x41 ∷ ops.RemoveAttr (47 ∷ replicate 255 97) 0x41
        ∷ ops.GetAttr (47 ∷ replicate 255 97) 0x41 ∷ ops.RemoveAttr (47 ∷ replicate 255 97) 0x41 ∷ []))
        ≡ ops.Opened 0 ∷ ops.Done ∷ ops.Done ∷ ops.Refused EntryFull
        ∷ ops.Bytes (replicate 33 1) ∷ ops.Done ∷ ops.Refused NoAttr ∷ ops.Refused NoAttr ∷ [] }

    // A missing file is reported before an overlong attribute, and an overlong attribute before a
    // full entry.
    ensures order { fresh_replies 1024 128 64 (with_used_count 2
        (ops.SetAttr (codes "/none") 0x41 (replicate 1023 1) ∷ ops.Open (codes "/f") creating_flags
        ∷ ops.SetAttr (codes "/f") 0x41 (replicate 1023 1) ∷ ops.SetAttr (codes "/f") 0x41 (replicate 1022 1)
        ∷ ops.SetAttr (codes "/") 0x41 [] ∷ []))
        ≡ ops.Refused NoEnt ∷ ops.Opened 0 ∷ ops.Refused TooBig ∷ ops.Refused EntryFull ∷ ops.Refused Invalid ∷ [] }
{}

/// Shows the replies of a session that makes a directory, writes a file in it, moves the file to
/// the root, and reads it there.
pub fn example_session_gets_these_replies()
    ensures { fresh_replies 1024 128 64
        ((2, ops.Mkdir (codes "/d")) ∷ with_used_count 4 (ops.Open (codes "/d/f") creating_flags ∷ ops.Write 0 (replicate 5000 7)
        ∷ ops.Seek 0 10 ∷ ops.Write 0 (1 ∷ []) ∷ ops.Close 0 ∷ [])
        ++ with_used_count 9 (ops.SetAttr (codes "/d/f") 0x41 (codes "x") ∷ ops.Rename (codes "/d/f") (codes "/g")
        ∷ ops.Remove (codes "/d") ∷ [])
        ++ with_used_count 7 (ops.ListAll (codes "/") ∷ ops.Open (codes "/g") read_flags ∷ ops.Read 0 5000 ∷ ops.Close 0
        ∷ ops.GetAttr (codes "/g") 0x41 ∷ ops.UsedCount ∷ []))
        ≡ ops.Done ∷ ops.Opened 0 ∷ ops.Count 5000 ∷ ops.Done ∷ ops.Count 1 ∷ ops.Done
        ∷ ops.Done ∷ ops.Done ∷ ops.Done
        ∷ ops.Items (record { name = codes "g"; size = Some 5000 } ∷ []) ∷ ops.Opened 0 ∷ ops.Bytes (replicate 10 7
        ++ 1 ∷ replicate 4989 7) ∷ ops.Done ∷ ops.Bytes (codes "x") ∷ ops.Count 7 ∷ [] }
{}

/// A failed session refuses every operation except a remount, which begins a new session with the
/// disk's tree.
pub fn failed_session_refuses_all_but_remount()
    ensures stat { result_and_health (writable_summary 4096 256 16 2) (Some empty_tree) HasFailed (ops.Stat (codes "/")) ≡ (Some (ops.Refused Failed), HasFailed) }
    ensures remount { result_and_health (writable_summary 4096 256 16 2) (Some empty_tree) HasFailed ops.Remount ≡ (Some ops.Done, Healthy (mounted_session empty_tree)) }
    ensures after_it { result_and_health (writable_summary 4096 256 16 2) (Some empty_tree) (Healthy (mounted_session empty_tree)) (ops.Stat (codes "/d")) ≡ (Some (ops.Refused NoEnt), Healthy (mounted_session empty_tree)) }
    ensures not_accepted { (state : SessionHealth) → result_and_health (writable_summary 4096 256 16 2) None state ops.Remount ≡ (None, HasFailed) }
{}

/// A profile can lower the limits on names, files and attributes.
pub fn profile_lowers_limits()
    ensures { replies_to_operations (λ used. record (writable_summary 4096 256 16 used) { profile = record default_profile { name_max = 3; file_max = 5; attr_max = 2 } }) (mounted_session empty_tree)
        (with_used_count 2
        (ops.Mkdir (codes "/abc") ∷ ops.Mkdir (codes "/abcd") ∷ ops.Open (codes "/abcd") creating_flags ∷ ops.Rename (codes "/abc") (codes "/abcd")
        ∷ ops.Open (codes "/f") creating_flags ∷ ops.Write 0 (codes "hello") ∷ ops.Write 0 (codes "!") ∷ ops.Truncate 0 6 ∷ ops.Seek 0 5 ∷ ops.Seek 0 6
        ∷ ops.SetAttr (codes "/abc") 0x41 (codes "xy") ∷ ops.SetAttr (codes "/abc") 0x41 (codes "xyz") ∷ []))
        ≡ ops.Done ∷ ops.Refused NameTooLong ∷ ops.Refused NameTooLong ∷ ops.Refused NameTooLong
        ∷ ops.Opened 0 ∷ ops.Count 5 ∷ ops.Refused TooBig ∷ ops.Refused TooBig ∷ ops.Done ∷ ops.Refused Invalid
        ∷ ops.Done ∷ ops.Refused TooBig ∷ [] }
{}
