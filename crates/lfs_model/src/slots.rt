// How operations change slots, and the pairs that hold them.

ghost use Rattle.std.specs.Prelude.{◌≡◌, true, false, List, [], ◌∷◌, ◌++◌, filter, replicate, Some, None, codes};
ghost use Rattle.lfs_model.specs.format.Disk.{default_profile};
ghost use Rattle.lfs_model.specs.format.Disk.{Disk, SameGeometry, block_count};
ghost use Rattle.lfs_model.specs.format.Slots.{Inline, Ctz};
ghost use Rattle.lfs_model.specs.format.Thread.{Pair};
ghost use Rattle.lfs_model.specs.session.Operations as ops;
ghost use Rattle.lfs_model.specs.session.Operations.{Operation};
ghost use Rattle.lfs_model.specs.session.History.{CallEvent};
ghost use Rattle.lfs_model.specs.session.Session.{Session};
ghost use Rattle.lfs_model.specs.tree.View.{IsAccepted};
ghost use Rattle.lfs_model.specs.session.State.{mounted_session};
ghost use Rattle.lfs_model.specs.tree.Fresh.{empty_tree, superblock_slot};
ghost use Rattle.lfs_model.specs.session.Recovery.{recovers_first};
ghost use Rattle.lfs_model.specs.session.SlotEdits.{file_slot, directory_slot, IsStructOfBytes, EditsSlots};
ghost use Rattle.lfs_model.specs.session.Layout.{removed_directory_addresses, IsPairSplitOrDropped, IsLayoutAfterRecovery};
ghost use Rattle.lfs_model.specs.session.Moved.{IsPairRelocated, IsFirstPairEmptied, IsSuperblockExpanded, IsOnePairRelocated, IsLayoutAfterRelocation};
ghost use Rattle.lfs_model.specs.crash.Frame.{is_session_query};
ghost use Rattle.lfs_model.specs.layers.Keeping.{vacates_path, may_store_at, struct_at, KeepsOtherStructs};
ghost use Rattle.lfs_model.specs.session.Run.{is_read_only, writes_or_truncates, needs_no_device, renames_itself, edits_slots};
ghost use Rattle.lfs_model.specs.examples.Sessions.{creating_flags, read_flags};
ghost use Rattle.lfs_model.specs.examples.Images.{small_disk_with, small_image, large_image};
ghost use Rattle.lfs_model.specs.examples.Runs.{pair_with_tail, example_tail, root_with_directory_d, worn_pairs_image, root_and_directory, root_and_two_pairs, root_with_file, long_attribute_slot, slot_with_list, each_operation, reader_session, writer_session};

/// Classifies operations by what they do to the disk: recover it first, only read it, change an
/// open file's contents, or make no device call.
pub fn operations_are_classified_by_disk_effect()
    ensures recover { filter recovers_first each_operation
        ≡ ops.Open (codes "/b") creating_flags ∷ ops.Mkdir (codes "/d") ∷ ops.Remove (codes "/b") ∷ ops.Rename (codes "/a") (codes "/b")
        ∷ ops.SetAttr (codes "/b") 0x41 [] ∷ ops.RemoveAttr (codes "/b") 0x41 ∷ ops.Recover ∷ [] }
    ensures ask { filter (is_read_only (reader_session [])) each_operation
        ≡ ops.Open (codes "/b") read_flags ∷ ops.Read 0 1 ∷ ops.Seek 0 1 ∷ ops.Close 0 ∷ ops.ListAll (codes "/") ∷ ops.Stat (codes "/") ∷ ops.GetAttr (codes "/b") 0x41
        ∷ ops.AskGstate ∷ ops.IsUsed 0 ∷ ops.UsedCount ∷ ops.Remount ∷ [] }
    ensures unseen { filter writes_or_truncates each_operation ≡ ops.Write 0 [] ∷ ops.Truncate 0 1 ∷ [] }
    ensures kept { filter is_session_query each_operation ≡ ops.AskGstate ∷ ops.IsUsed 0 ∷ ops.UsedCount ∷ [] }
    ensures itself { filter renames_itself each_operation ≡ ops.Rename (codes "/a") (codes "/a") ∷ [] }
{}

/// A sync or a close commits a file if the file is dirty, and makes no device call if the file is
/// clean.
pub fn operations_on_open_file_are_classified()
    ensures dirty { filter (edits_slots (writer_session [] true [])) (ops.Sync 0 ∷ ops.Close 0 ∷ ops.Write 0 [] ∷ ops.Sync 1 ∷ []) ≡ ops.Sync 0 ∷ ops.Close 0 ∷ [] }
    ensures clean { filter (needs_no_device (writer_session [] false [])) each_operation
        ≡ ops.Write 0 [] ∷ ops.Sync 0 ∷ ops.Close 0 ∷ ops.AskGstate ∷ ops.IsUsed 0 ∷ ops.UsedCount ∷ [] }
    ensures sized { filter (needs_no_device (writer_session [] true (codes "hi"))) (ops.Truncate 0 2 ∷ ops.Truncate 0 3 ∷ ops.Truncate 1 2 ∷ ops.Write 0 (codes "!") ∷ []) ≡ ops.Truncate 0 2 ∷ [] }
{}

/// Shows how operations change slots: a mkdir adds one, a rename moves one, and a remove takes one
/// away.
pub fn operations_edit_slots()
    ensures made { EditsSlots large_image root_and_two_pairs (mounted_session empty_tree) (ops.Mkdir (codes "/e")) (pair_with_tail (8, 9) [] None ∷ []) root_and_two_pairs
        (root_and_directory (directory_slot (codes "e") (8, 9) ∷ []) (file_slot (codes "a") ∷ [])) }
    ensures no_pair { (new : List Pair) → EditsSlots large_image root_and_two_pairs (mounted_session empty_tree) (ops.Mkdir (codes "/e")) [] root_and_two_pairs new → ⊥ }
    ensures moved { EditsSlots large_image root_and_two_pairs (mounted_session empty_tree) (ops.Rename (codes "/d/a") (codes "/e")) [] root_and_two_pairs
        (root_and_directory (file_slot (codes "e") ∷ []) []) }

    // A rename also moves the struct, so the file has the same bytes under its new name.
    ensures other_bytes { EditsSlots large_image (root_with_file (codes "a") (codes "x")) (mounted_session empty_tree) (ops.Rename (codes "/a") (codes "/b")) []
        (root_with_file (codes "a") (codes "x")) (root_with_file (codes "b") (codes "y")) → ⊥ }
    ensures removed { EditsSlots large_image root_and_two_pairs (mounted_session empty_tree) (ops.Remove (codes "/d/a")) [] root_and_two_pairs (root_and_directory [] []) }
    ensures no_slot { (new : List Pair) → EditsSlots large_image root_and_two_pairs (mounted_session empty_tree) (ops.Remove (codes "/x")) [] root_and_two_pairs new → ⊥ }
{}

/// A sync of a dirty file commits the file's new struct.
pub fn sync_commits_struct()
    ensures { EditsSlots large_image (root_with_file (codes "a") []) (writer_session (codes "a" ∷ []) true (codes "hi")) (ops.Sync 0) []
        (root_with_file (codes "a") []) (root_with_file (codes "a") (codes "hi")) }
{}

/// A rename replaces the slot at the new path. Setting or removing an attribute changes the slot of
/// its entry.
pub fn slots_and_attributes_are_replaced()
    ensures onto { EditsSlots large_image (root_and_directory (file_slot (codes "e") ∷ []) (file_slot (codes "a") ∷ [])) (mounted_session empty_tree) (ops.Rename (codes "/d/a") (codes "/e")) []
        (root_and_directory (file_slot (codes "e") ∷ []) (file_slot (codes "a") ∷ [])) (root_and_directory (file_slot (codes "e") ∷ []) []) }
    ensures set { EditsSlots large_image (root_and_directory [] (file_slot (codes "a") ∷ [])) (mounted_session empty_tree) (ops.SetAttr (codes "/d/a") 0x41 (replicate 500 1)) []
        (root_and_directory [] (file_slot (codes "a") ∷ [])) (root_and_directory [] (long_attribute_slot (codes "a") ∷ [])) }
    ensures unset { EditsSlots large_image root_and_two_pairs (mounted_session empty_tree) (ops.SetAttr (codes "/d/a") 0x41 (codes "x")) [] root_and_two_pairs root_and_two_pairs → ⊥ }
    ensures removed { EditsSlots large_image (root_and_directory [] (long_attribute_slot (codes "a") ∷ [])) (mounted_session empty_tree) (ops.RemoveAttr (codes "/d/a") 0x41) []
        (root_and_directory [] (long_attribute_slot (codes "a") ∷ [])) (root_and_directory [] (file_slot (codes "a") ∷ [])) }
    ensures clean { EditsSlots large_image root_and_two_pairs (writer_session (codes "a" ∷ []) false (codes "hi")) (ops.Sync 0) [] root_and_two_pairs root_and_two_pairs }
    ensures uncommitted { EditsSlots large_image (root_with_file (codes "a") []) (writer_session (codes "a" ∷ []) true (codes "hi")) (ops.Sync 0) []
        (root_with_file (codes "a") []) (root_with_file (codes "a") []) → ⊥ }
{}

/// A file is stored inline if its size is at most an eighth of a block and at most the profile's
/// `inline_max`.
pub fn inline_limit_is_eighth_of_block()
    ensures inline { IsStructOfBytes small_image (replicate 128 7) (Inline (replicate 128 7)) }
    ensures too_long { IsStructOfBytes small_image (replicate 129 7) (Inline (replicate 129 7)) → ⊥ }
    ensures lower { IsStructOfBytes (record small_image { profile = record default_profile { inline_max = 16 } }) (replicate 16 7) (Inline (replicate 16 7)) }
    ensures past_lower { IsStructOfBytes (record small_image { profile = record default_profile { inline_max = 16 } }) (replicate 17 7) (Inline (replicate 17 7)) → ⊥ }
    ensures too_short { IsStructOfBytes small_image (replicate 128 7) (Ctz 1 128) → ⊥ }
    ensures list { IsStructOfBytes (small_disk_with (replicate 1024 7)) (replicate 1024 7) (Ctz 0 1024) }
{}

/// A pair is split if its slots don't fit, and dropped if it has no slots and isn't the first pair
/// of its directory.
pub fn pairs_are_split_and_dropped()
    ensures cut { IsPairSplitOrDropped small_image true ⊥ (pair_with_tail (2, 3) (long_attribute_slot (codes "a") ∷ long_attribute_slot (codes "b") ∷ []) None)
        (pair_with_tail (2, 3) (long_attribute_slot (codes "a") ∷ []) None ∷ pair_with_tail (4, 5) (long_attribute_slot (codes "b") ∷ []) None ∷ []) }
    ensures not_whole { (q : Pair) → IsPairSplitOrDropped small_image true ⊥ (pair_with_tail (2, 3) (long_attribute_slot (codes "a") ∷ long_attribute_slot (codes "b") ∷ []) None) (q ∷ []) → ⊥ }
    ensures dropped { IsPairSplitOrDropped small_image false ⊥ (pair_with_tail (2, 3) [] None) [] }
    ensures not_kept { (q : Pair) → IsPairSplitOrDropped small_image false ⊥ (pair_with_tail (2, 3) [] None) (q ∷ []) → ⊥ }
    ensures first_stays { IsPairSplitOrDropped small_image true ⊥ (pair_with_tail (2, 3) [] None) [] → ⊥ }
{}

/// If the profile's `pair_cycles` is 0, no pair moves because of wear, so each slot is where the
/// operation itself puts it. With every profile, an operation may also leave all worn pairs in
/// place.
pub fn unset_pair_cycles_relocate_no_pair()
    ensures laid_out { (disk new : Disk) (ps qs : List Pair) (s : Session) (op : Operation) (calls : List CallEvent) → disk.profile.pair_cycles ≡ 0
        → IsLayoutAfterRelocation disk ps s op calls new qs → IsLayoutAfterRecovery disk ps s op new qs }
    ensures unmoved { (disk new : Disk) (ps qs : List Pair) (s : Session) (op : Operation) (calls : List CallEvent) → SameGeometry disk new → IsAccepted new qs
        → IsLayoutAfterRecovery disk ps s op new qs → IsLayoutAfterRelocation disk ps s op calls new qs }
{}

/// A worn pair moves to other blocks as a whole, or moves all its slots to a new pair that follows
/// it. A pair that isn't worn stays where it is.
pub fn worn_pair_is_relocated()
    ensures moved { IsPairRelocated (worn_pairs_image 1) root_and_two_pairs
        (root_with_directory_d ∷ pair_with_tail (4, 5) (file_slot (codes "a") ∷ []) (example_tail true (8, 9)) ∷ pair_with_tail (8, 9) (file_slot (codes "z") ∷ []) None ∷ []) }
    ensures unloaded { (new : Disk) → block_count new ≡ 16 → IsFirstPairEmptied (worn_pairs_image 1) root_and_two_pairs new
        (root_with_directory_d ∷ pair_with_tail (4, 5) [] (example_tail true (8, 9)) ∷ pair_with_tail (8, 9) (file_slot (codes "a") ∷ []) (example_tail true (6, 7)) ∷ pair_with_tail (6, 7) (file_slot (codes "z") ∷ []) None ∷ []) }

    // The first pair keeps its superblock, and a second superblock goes with the entries.
    ensures root { (new : Disk) → block_count new ≡ 16 → IsSuperblockExpanded (worn_pairs_image 1) root_and_two_pairs new
        (pair_with_tail (0, 1) (superblock_slot default_profile 4096 16 ∷ []) (example_tail true (8, 9)) ∷ record root_with_directory_d { at = (8, 9) }
        ∷ pair_with_tail (4, 5) (file_slot (codes "a") ∷ []) (example_tail true (6, 7)) ∷ pair_with_tail (6, 7) (file_slot (codes "z") ∷ []) None ∷ []) }

    // Eight of nine blocks would be used, which is more than seven eighths.
    ensures no_room { (new : Disk) → block_count new ≡ 9 → IsFirstPairEmptied (worn_pairs_image 1) root_and_two_pairs new
        (root_with_directory_d ∷ pair_with_tail (4, 5) [] (example_tail true (8, 9)) ∷ pair_with_tail (8, 9) (file_slot (codes "a") ∷ []) (example_tail true (6, 7)) ∷ pair_with_tail (6, 7) (file_slot (codes "z") ∷ []) None ∷ []) → ⊥ }
    ensures not_worn { (new : Disk) (qs : List Pair) → IsOnePairRelocated (worn_pairs_image 2) root_and_two_pairs new qs → ⊥ }

    // The first pair of a directory doesn't move as a whole, because no hard tail points to it.
    ensures not_first { IsPairRelocated (worn_pairs_image 1) root_and_two_pairs
        (pair_with_tail (0, 1) root_with_directory_d.content.slots (example_tail true (8, 9)) ∷ pair_with_tail (8, 9) (file_slot (codes "a") ∷ []) (example_tail true (6, 7)) ∷ pair_with_tail (6, 7) (file_slot (codes "z") ∷ []) None ∷ []) → ⊥ }
    ensures no_cycles { (new : Disk) (qs : List Pair) → IsOnePairRelocated (worn_pairs_image 0) root_and_two_pairs new qs → ⊥ }
{}

/// A directory is dropped if it is removed or if a rename replaces it.
pub fn replaced_directory_is_dropped()
    ensures removed { removed_directory_addresses root_and_two_pairs (ops.Remove (codes "/d")) ≡ (4, 5) ∷ [] }
    ensures file { removed_directory_addresses root_and_two_pairs (ops.Remove (codes "/d/a")) ≡ [] }
    ensures replaced { removed_directory_addresses root_and_two_pairs (ops.Rename (codes "/e") (codes "/d")) ≡ (4, 5) ∷ [] }
    ensures itself { removed_directory_addresses root_and_two_pairs (ops.Rename (codes "/d") (codes "/d")) ≡ [] }
{}

/// A remove or a rename affects the files at and below its paths, and no other files.
pub fn only_files_of_operation_are_stored_or_moved()
    ensures beneath { vacates_path (ops.Remove (codes "/d")) (codes "d" ∷ codes "a" ∷ []) ≡ true }
    ensures onto { vacates_path (ops.Rename (codes "/a") (codes "/b")) (codes "b" ∷ []) ≡ true }
    ensures beside { vacates_path (ops.Rename (codes "/d/a") (codes "/d/b")) (codes "d" ∷ codes "z" ∷ []) ≡ false }
    ensures none { filter (λ op. vacates_path op (codes "b" ∷ [])) each_operation ≡ ops.Remove (codes "/b") ∷ ops.Rename (codes "/a") (codes "/b") ∷ [] }
{}

/// Only a sync or a close may store the contents of an open file, and only at that file's path.
pub fn only_sync_and_close_store_contents()
    ensures stored { filter (λ op. may_store_at (writer_session (codes "b" ∷ []) true []) op (codes "b" ∷ [])) each_operation ≡ ops.Sync 0 ∷ ops.Close 0 ∷ [] }
    ensures elsewhere { may_store_at (writer_session (codes "b" ∷ []) true []) (ops.Sync 0) (codes "a" ∷ []) ≡ false }
    ensures not_open { may_store_at (writer_session (codes "b" ∷ []) true []) (ops.Sync 1) (codes "b" ∷ []) ≡ false }
{}

/// A file that an operation doesn't store, move or remove keeps its struct, and not only its bytes.
pub fn other_files_keep_their_structs()
    ensures committed { (disk : Disk) → KeepsOtherStructs disk (root_with_file (codes "a") []) (writer_session (codes "a" ∷ []) true (codes "hi")) (ops.Sync 0) (root_with_file (codes "a") (codes "hi")) }
    ensures changed { (disk : Disk) → KeepsOtherStructs disk (root_with_file (codes "a") []) (mounted_session empty_tree) (ops.Mkdir (codes "/d")) (root_with_file (codes "a") (codes "hi")) → ⊥ }
    ensures other_list { (disk : Disk) → KeepsOtherStructs disk (root_and_directory [] (slot_with_list (codes "a") 8 8189 ∷ [])) (mounted_session empty_tree) (ops.Remove (codes "/d/z"))
        (root_and_directory [] (slot_with_list (codes "a") 9 8189 ∷ [])) → ⊥ }
    ensures same_list { struct_at (root_and_directory [] (slot_with_list (codes "a") 8 8189 ∷ [])) (codes "d" ∷ codes "a" ∷ []) ≡ Some (Ctz 8 8189) }
{}
