// More rules of accepted images and of the writing profile.

ghost use Rattle.std.specs.Prelude.{◌≡◌, true, false, [], ◌∷◌, ◌++◌, Some, codes};
ghost use Rattle.lfs_model.specs.format.Disk.{default_profile};
ghost use Rattle.lfs_model.specs.format.Slots.{zero_gstate};
ghost use Rattle.lfs_model.specs.tree.Tree.{DirectoryNode};
ghost use Rattle.lfs_model.specs.format.EntryTypes.{create_tag_type, file_name_type, directory_name_type, superblock_name_type, directory_struct_type, inline_struct_type};
ghost use Rattle.lfs_model.specs.tree.View.{HasDiskView, superblock_entry};
ghost use Rattle.lfs_model.specs.tree.Fresh.{superblock_bytes};
ghost use Rattle.lfs_model.specs.layers.WrittenContent.{log_entry, address_bytes, tail_entry};
ghost use Rattle.lfs_model.specs.layers.BlockBytes.{directory_slot_entries, move_state_entry};
ghost use Rattle.lfs_model.specs.examples.Images.{nodes_view, IsNotAccepted, IsNotWritable, root_block_with, pair_block_with, blocks_image};
ghost use Rattle.lfs_model.specs.examples.Violations.{empty_pair_image, large_entry_image};

/// The global state is the bitwise exclusive or of the deltas of all pairs. Two deltas with the
/// sync bit cancel each other out.
pub fn gstate_deltas_of_pairs_are_xored()
    ensures { HasDiskView
        (blocks_image (root_block_with (directory_slot_entries 1 (codes "d") (2, 3) ++ tail_entry false (Some (2, 3)) ∷ move_state_entry 0x80000000 (0, 0) ∷ []) 0x39b2fed9 159)
        (pair_block_with (move_state_entry 0x80000000 (0, 0) ∷ []) 0x9b565c67 228 ∷ []))
        (nodes_view (([], DirectoryNode [] (codes "d" ∷ [])) ∷ (codes "d" ∷ [], DirectoryNode [] []) ∷ [])
        zero_gstate (0 ∷ 1 ∷ 2 ∷ 3 ∷ [])) }
{}

/// An image isn't accepted if a slot has no struct, or a struct that doesn't match the type of its
/// name.
pub fn slot_with_mismatched_struct_is_not_accepted()
    ensures file_branch { IsNotAccepted (blocks_image (root_block_with (log_entry file_name_type 1 (codes "a") ∷ log_entry directory_struct_type 1 (address_bytes (2, 3)) ∷ []) 0x8e56fb44 187) []) }
    ensures directory_inline { IsNotAccepted (blocks_image (root_block_with (log_entry directory_name_type 1 (codes "a") ∷ log_entry inline_struct_type 1 [] ∷ []) 0xc5617482 195) []) }
    ensures no_struct { IsNotAccepted (blocks_image (root_block_with (log_entry file_name_type 1 (codes "a") ∷ []) 0xa5473ef5 199) []) }
    ensures move_elsewhere { IsNotAccepted (blocks_image (root_block_with (move_state_entry 0x4ff00000 (2, 3) ∷ []) 0x28c977b8 188) []) }
{}

/// An image isn't accepted if the first entry isn't the superblock's name, or if a later entry
/// changes that name.
pub fn bad_first_entry_is_not_accepted()
    ensures renamed { IsNotAccepted (blocks_image (root_block_with (log_entry superblock_name_type 0 (codes "LITTLEFS") ∷ []) 0x912d6571 192) []) }
    ensures create_first { IsNotAccepted (blocks_image (pair_block_with (log_entry create_tag_type 0 [] ∷ superblock_entry ∷ log_entry inline_struct_type 0 (superblock_bytes default_profile 4096 16) ∷ []) 0x914ab51c 200) []) }
{}

/// An image with an overlarge entry, or with an empty pair that continues a directory, may not be
/// written.
pub fn overlarge_entry_or_empty_pair_is_not_writable()
    ensures charge { IsNotWritable large_entry_image }
    ensures empty_pair { IsNotWritable empty_pair_image }
{}
