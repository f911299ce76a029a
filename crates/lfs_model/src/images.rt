// Images that are accepted, and the trees that they show.

ghost use Rattle.std.specs.Prelude.{◌≡◌, true, false, [], ◌∷◌, ◌++◌, Some, replicate, codes};
ghost use Rattle.byteorder.specs.Endian.{little_bytes};
ghost use Rattle.lfs_model.specs.format.Names.{same_name};
ghost use Rattle.lfs_model.specs.declared.limits.AcceptedVersions.TheVariants.{AlsoTwoOne};
ghost use Rattle.lfs_model.specs.format.Disk.{Disk, default_profile};
ghost use Rattle.lfs_model.specs.format.Slots.{zero_gstate};
ghost use Rattle.lfs_model.specs.format.Thread.{pairs_gstate};
ghost use Rattle.lfs_model.specs.tree.Tree.{FileNode, DirectoryNode};
ghost use Rattle.lfs_model.specs.session.TreeEdits.{tree_creating};
ghost use Rattle.lfs_model.specs.tree.View.{HasDiskView, IsAccepted};
ghost use Rattle.lfs_model.specs.tree.Profile.{IsWritable};
ghost use Rattle.lfs_model.specs.tree.Shown.{disk_tree, used_blocks};
ghost use Rattle.lfs_model.specs.tree.Fresh.{IsFreshDisk, fresh_pair, empty_tree};
ghost use Rattle.lfs_model.specs.layers.WrittenContent.{tail_entry};
ghost use Rattle.lfs_model.specs.layers.BlockBytes.{unwritten_bytes, block_padded, inline_file_entries, list_file_entries, directory_slot_entries, move_state_entry, superblock_entries, checksum_entry, metadata_block_bytes};
ghost use Rattle.lfs_model.specs.examples.Images.{nodes_view, IsNotAccepted, IsNotWritable, small_image, large_image, shifted_slot_block, shifted_slot_image, image_on_zeroed_storage, two_commit_image, large_disk_with, root_block_with, pair_block_with, superblock_struct_with, disk_with_versions, superblock_entries_with, root_struct_block, blocks_image};
ghost use Rattle.lfs_model.specs.examples.Violations.{long_inline_image, short_name_limit_image};

/// A fresh image is accepted and may be written. A fresh image has an empty root directory, and
/// uses only blocks 0 and 1.
pub fn fresh_image_is_accepted()
    ensures accepted { (disk : Disk) → IsFreshDisk disk → IsAccepted disk (fresh_pair disk ∷ []) }
    ensures writable { (disk : Disk) → IsFreshDisk disk → IsWritable disk (fresh_pair disk ∷ []) }
    ensures shows { (disk : Disk) → disk_tree disk (fresh_pair disk ∷ []) ≡ empty_tree }
    ensures gstate { (disk : Disk) → pairs_gstate (fresh_pair disk ∷ []) ≡ zero_gstate }
    ensures used { (disk : Disk) → used_blocks disk (fresh_pair disk ∷ []) ≡ 0 ∷ 1 ∷ [] }
{}

/// The example images `small_image` and `large_image` are fresh images.
pub fn fresh_images_are_these_bytes()
    ensures small { IsFreshDisk small_image }
    ensures large { IsFreshDisk large_image }
{}

/// An image with one file shows exactly that file.
pub fn image_shows_its_only_file()
    ensures shifted { HasDiskView shifted_slot_image
        (nodes_view (([], DirectoryNode [] (codes "b" ∷ []))
        ∷ (codes "b" ∷ [], FileNode ((0x41, codes "x") ∷ []) []) ∷ [])
        zero_gstate (0 ∷ 1 ∷ [])) }
    ensures inline { HasDiskView (blocks_image (root_block_with (inline_file_entries 1 (codes "a") (codes "hello")) 0xe787463a 190) [])
        (nodes_view (([], DirectoryNode [] (codes "a" ∷ []))
        ∷ (codes "a" ∷ [], FileNode [] (codes "hello")) ∷ [])
        zero_gstate (0 ∷ 1 ∷ [])) }

    // The tree is that of the fresh image with an empty file added.
    ensures appended { HasDiskView two_commit_image (record {
      tree = tree_creating (codes "b" ∷ []) (FileNode []
          []) empty_tree;
      gstate = zero_gstate;
      used = 0 ∷ 1 ∷ [];
    }) }

    // The erased bytes of this storage are zero.
    ensures zeroed { HasDiskView image_on_zeroed_storage
        (nodes_view (([], DirectoryNode [] (codes "b" ∷ []))
        ∷ (codes "b" ∷ [], FileNode [] []) ∷ [])
        zero_gstate (0 ∷ 1 ∷ [])) }

    // The file has three blocks. The last block has one byte, after the addresses of the second and
    // the first block.
    ensures list { HasDiskView
        (blocks_image (root_block_with (list_file_entries 1 (codes "a") 4 8189) 0xaa94cc85 187)
        (replicate 4096 97
        ∷ (little_bytes 4 2 ++ replicate 4092 98)
        ∷ block_padded 4096 (little_bytes 4 3 ++ little_bytes 4 2 ++ 99 ∷ []) ∷ []))
        (nodes_view (([], DirectoryNode [] (codes "a" ∷ []))
        ∷ (codes "a" ∷ [], FileNode [] (replicate 4096 97 ++ replicate 4092 98 ++ 99 ∷ [])) ∷ [])
        zero_gstate (0 ∷ 1 ∷ 2 ∷ 3 ∷ 4 ∷ [])) }
{}

/// Of the two blocks of a pair, the image shows the one with the later revision count.
pub fn later_block_of_pair_is_shown()
    // Block 1 is a fresh root with an earlier revision count than block 0.
    ensures first { HasDiskView
        (large_disk_with (shifted_slot_block ∷ metadata_block_bytes 4096 0xffffffff (superblock_entries default_profile 4096 16 ++ checksum_entry 0xc3e1dffc 204 ∷ []) ∷ []))
        (nodes_view (([], DirectoryNode [] (codes "b" ∷ []))
        ∷ (codes "b" ∷ [], FileNode ((0x41, codes "x") ∷ []) []) ∷ [])
        zero_gstate (0 ∷ 1 ∷ [])) }

    // Block 1 has a file and a later revision count than block 0.
    ensures second { HasDiskView
        (large_disk_with (root_block_with [] 0xf3277f4a 204 ∷ metadata_block_bytes 4096 2 (superblock_entries default_profile 4096 16 ++ inline_file_entries 1 (codes "a") (codes "hello") ++ checksum_entry 0xe6da60eb 190 ∷ []) ∷ []))
        (nodes_view (([], DirectoryNode [] (codes "a" ∷ []))
        ∷ (codes "a" ∷ [], FileNode [] (codes "hello")) ∷ [])
        zero_gstate (0 ∷ 1 ∷ [])) }
{}

/// A directory consists of the pair that its entry points to, and of all pairs that hard tails join
/// to that pair.
pub fn directory_consists_of_joined_pairs()
    // The entry may give the two blocks in either order. If the two revision counts are equal, the
    // first block in the tail is active.
    ensures either_order { HasDiskView
        (blocks_image (root_block_with (directory_slot_entries 1 (codes "d") (3, 2) ++ tail_entry false (Some (2, 3)) ∷ []) 0x73136a7f 175)
        (pair_block_with (inline_file_entries 0 (codes "x") (codes "hi")) 0x99061daa 233
        ∷ pair_block_with (inline_file_entries 0 (codes "f") (codes "hi")) 0x6586f267 233 ∷ []))
        (nodes_view (([], DirectoryNode [] (codes "d" ∷ []))
        ∷ (codes "d" ∷ [], DirectoryNode [] (codes "x" ∷ []))
        ∷ (codes "d" ∷ codes "x" ∷ [], FileNode [] (codes "hi")) ∷ [])
        zero_gstate (0 ∷ 1 ∷ 2 ∷ 3 ∷ [])) }
    ensures two_pairs { HasDiskView
        (blocks_image (root_block_with (directory_slot_entries 1 (codes "d") (4, 5) ++ tail_entry false (Some (4, 5)) ∷ []) 0x8a1d57fc 175)
        (unwritten_bytes 4096 ∷ unwritten_bytes 4096
        ∷ pair_block_with (inline_file_entries 0 (codes "a") (codes "hi") ++ tail_entry true (Some (6, 7)) ∷ []) 0xd0dc452b 221 ∷ unwritten_bytes 4096
        ∷ pair_block_with (inline_file_entries 0 (codes "z") (codes "hi")) 0xc16aa46b 233 ∷ []))
        (nodes_view (([], DirectoryNode [] (codes "d" ∷ []))
        ∷ (codes "d" ∷ [], DirectoryNode [] (codes "a" ∷ codes "z" ∷ []))
        ∷ (codes "d" ∷ codes "a" ∷ [], FileNode [] (codes "hi"))
        ∷ (codes "d" ∷ codes "z" ∷ [], FileNode [] (codes "hi")) ∷ [])
        zero_gstate (0 ∷ 1 ∷ 4 ∷ 5 ∷ 6 ∷ 7 ∷ [])) }
{}

/// A slot that a pending move refers to isn't shown.
pub fn moved_slot_is_hidden()
    // The file "f" of the pair {2, 3} was moved to "g" in the root, and its old slot is still
    // there.
    ensures old_place { HasDiskView
        (blocks_image (root_block_with (directory_slot_entries 1 (codes "d") (2, 3) ++ inline_file_entries 2 (codes "g") (codes "hi") ++ tail_entry false (Some (2, 3)) ∷ move_state_entry 0x4ff00000 (2, 3) ∷ []) 0x3341c275 148)
        (pair_block_with (inline_file_entries 0 (codes "f") (codes "hi")) 0x6586f267 233 ∷ []))
        (nodes_view (([], DirectoryNode [] (codes "d" ∷ codes "g" ∷ []))
        ∷ (codes "d" ∷ [], DirectoryNode [] [])
        ∷ (codes "g" ∷ [], FileNode [] (codes "hi")) ∷ [])
        (record { sync = false; kind = 0x4ff; id = 0; pair = (2, 3) }) (0 ∷ 1 ∷ 2 ∷ 3 ∷ [])) }

    // The move refers to one of two slots of the same name. The moved slot doesn't count, nor does
    // its list, which begins past the last block.
    ensures same_name { HasDiskView
        (blocks_image (root_block_with (list_file_entries 1 (codes "f") 16 5 ++ inline_file_entries 2 (codes "f") (codes "hi") ++ move_state_entry 0x4ff00400 (0, 1) ∷ []) 0x13066eaa 160) [])
        (nodes_view (([], DirectoryNode [] (codes "f" ∷ []))
        ∷ (codes "f" ∷ [], FileNode [] (codes "hi")) ∷ [])
        (record { sync = false; kind = 0x4ff; id = 1; pair = (0, 1) }) (0 ∷ 1 ∷ [])) }
{}

/// An image with a pair that no directory entry leads to is accepted only if the sync bit is set.
pub fn unreached_pair_needs_sync_bit()
    ensures with_it { HasDiskView
        (blocks_image (root_block_with (tail_entry false (Some (2, 3)) ∷ move_state_entry 0x80000000 (0, 0) ∷ []) 0x45859103 176)
        (pair_block_with [] 0x43f29ceb 244 ∷ []))
        (nodes_view (([], DirectoryNode [] []) ∷ [])
        (record { sync = true; kind = 0; id = 0; pair = (0, 0) }) (0 ∷ 1 ∷ 2 ∷ 3 ∷ [])) }
    ensures without { IsNotAccepted
        (blocks_image (root_block_with (tail_entry false (Some (2, 3)) ∷ []) 0xb7c275fc 192)
        (pair_block_with [] 0x43f29ceb 244 ∷ [])) }
{}

/// A tail with two null addresses ends the threaded linked-list.
pub fn null_tail_ends_thread()
    ensures { HasDiskView (blocks_image (root_block_with (tail_entry false (Some (0xffffffff, 0xffffffff)) ∷ []) 0xcb81f586 192) [])
        (nodes_view (([], DirectoryNode [] []) ∷ []) zero_gstate (0 ∷ 1 ∷ [])) }
{}

/// The root directory begins at the last pair of the superblock chain.
pub fn root_begins_at_end_of_superblock_chain()
    ensures expanded { HasDiskView
        (blocks_image (root_block_with (tail_entry true (Some (2, 3)) ∷ []) 0xef8649c3 192)
        (root_block_with (inline_file_entries 1 (codes "a") (codes "hi")) 0xa7a04ca1 193 ∷ []))
        (nodes_view (([], DirectoryNode [] (codes "a" ∷ []))
        ∷ (codes "a" ∷ [], FileNode [] (codes "hi")) ∷ [])
        zero_gstate (0 ∷ 1 ∷ 2 ∷ 3 ∷ [])) }

    ensures three_pairs { HasDiskView
        (blocks_image (root_block_with (tail_entry true (Some (2, 3)) ∷ []) 0xef8649c3 192)
        (root_block_with (tail_entry true (Some (4, 5)) ∷ []) 0xc6d4e5a4 192 ∷ unwritten_bytes 4096
        ∷ root_block_with (inline_file_entries 1 (codes "a") (codes "hi")) 0xa7a04ca1 193 ∷ []))
        (nodes_view (([], DirectoryNode [] (codes "a" ∷ []))
        ∷ (codes "a" ∷ [], FileNode [] (codes "hi")) ∷ [])
        zero_gstate (0 ∷ 1 ∷ 2 ∷ 3 ∷ 4 ∷ 5 ∷ [])) }

    // A second pair without a superblock continues the root directory.
    ensures follower { HasDiskView
        (blocks_image (root_block_with (tail_entry true (Some (2, 3)) ∷ []) 0xef8649c3 192)
        (pair_block_with (inline_file_entries 0 (codes "a") (codes "hi")) 0x4cbde7e4 233 ∷ []))
        (nodes_view (([], DirectoryNode [] (codes "a" ∷ []))
        ∷ (codes "a" ∷ [], FileNode [] (codes "hi")) ∷ [])
        zero_gstate (0 ∷ 1 ∷ 2 ∷ 3 ∷ [])) }

    // The first pair's superblock has version 2.0, and the second pair's has version 2.1.
    ensures two_versions { HasDiskView
        (disk_with_versions AlsoTwoOne (blocks_image (root_block_with (tail_entry true (Some (2, 3)) ∷ []) 0xef8649c3 192)
        (pair_block_with (superblock_entries_with (superblock_struct_with 0x00020001 4096 255) ++ inline_file_entries 1 (codes "a") (codes "hi")) 0xe9294708 193 ∷ [])))
        (nodes_view (([], DirectoryNode [] (codes "a" ∷ []))
        ∷ (codes "a" ∷ [], FileNode [] (codes "hi")) ∷ [])
        zero_gstate (0 ∷ 1 ∷ 2 ∷ 3 ∷ [])) }
{}

/// All superblocks of a chain must agree, and each pair before the last one may have no other slot.
pub fn bad_superblock_chain_is_refused()
    // The superblock of the second pair states 17 blocks.
    ensures other_bytes { IsNotAccepted
        (blocks_image (root_block_with (tail_entry true (Some (2, 3)) ∷ []) 0xef8649c3 192)
        (pair_block_with (superblock_entries default_profile 4096 17 ++ inline_file_entries 1 (codes "a") (codes "hi")) 0xa947a470 193 ∷ [])) }
    ensures other_version { IsNotAccepted
        (blocks_image (root_block_with (tail_entry true (Some (2, 3)) ∷ []) 0xef8649c3 192)
        (pair_block_with (superblock_entries_with (superblock_struct_with 0x00020001 4096 255) ++ inline_file_entries 1 (codes "a") (codes "hi")) 0xe9294708 193 ∷ [])) }

    // The first pair has a file in addition to its superblock.
    ensures not_alone { IsNotAccepted
        (blocks_image (root_block_with (inline_file_entries 1 (codes "z") [] ++ tail_entry true (Some (2, 3)) ∷ []) 0xfc3d37d9 183)
        (root_block_with [] 0xf3277f4a 204 ∷ [])) }
{}

/// Pairs without slots may precede a superblock that was moved to another pair.
pub fn moved_superblock_is_read()
    ensures moved { HasDiskView
        (blocks_image (pair_block_with (tail_entry true (Some (2, 3)) ∷ []) 0x9f96c0e0 232)
        (root_block_with (inline_file_entries 1 (codes "a") (codes "hi")) 0xa7a04ca1 193 ∷ []))
        (nodes_view (([], DirectoryNode [] (codes "a" ∷ []))
        ∷ (codes "a" ∷ [], FileNode [] (codes "hi")) ∷ [])
        zero_gstate (0 ∷ 1 ∷ 2 ∷ 3 ∷ [])) }

    // The first pair has a copy of the superblock, and a pair without slots comes between the two
    // superblocks.
    ensures between { HasDiskView
        (blocks_image (root_block_with (tail_entry true (Some (2, 3)) ∷ []) 0xef8649c3 192)
        (pair_block_with (tail_entry true (Some (4, 5)) ∷ []) 0xb6c46c87 232 ∷ unwritten_bytes 4096
        ∷ root_block_with (inline_file_entries 1 (codes "a") (codes "hi")) 0xa7a04ca1 193 ∷ []))
        (nodes_view (([], DirectoryNode [] (codes "a" ∷ []))
        ∷ (codes "a" ∷ [], FileNode [] (codes "hi")) ∷ [])
        zero_gstate (0 ∷ 1 ∷ 2 ∷ 3 ∷ 4 ∷ 5 ∷ [])) }

    // No superblock follows the pair without slots, so that pair is the second one of the root
    // directory.
    ensures no_more { HasDiskView
        (blocks_image (root_block_with (tail_entry true (Some (2, 3)) ∷ []) 0xef8649c3 192)
        (pair_block_with (tail_entry true (Some (4, 5)) ∷ []) 0xb6c46c87 232 ∷ unwritten_bytes 4096
        ∷ pair_block_with (inline_file_entries 0 (codes "a") (codes "hi")) 0x4cbde7e4 233 ∷ []))
        (nodes_view (([], DirectoryNode [] (codes "a" ∷ []))
        ∷ (codes "a" ∷ [], FileNode [] (codes "hi")) ∷ [])
        zero_gstate (0 ∷ 1 ∷ 2 ∷ 3 ∷ 4 ∷ 5 ∷ [])) }

    // A soft tail doesn't continue the chain, and the chain must have a superblock.
    ensures soft { IsNotAccepted
        (blocks_image (pair_block_with (tail_entry false (Some (2, 3)) ∷ []) 0xc7d2fcdf 232)
        (root_block_with (inline_file_entries 1 (codes "a") (codes "hi")) 0xa7a04ca1 193 ∷ [])) }
    ensures none { IsNotAccepted
        (blocks_image (pair_block_with (tail_entry true (Some (2, 3)) ∷ []) 0x9f96c0e0 232)
        (pair_block_with (inline_file_entries 0 (codes "a") (codes "hi")) 0x4cbde7e4 233 ∷ [])) }
{}

/// An image outside the writing profile is accepted and shows its tree, but may not be written.
pub fn image_outside_profile_is_read_only()
    // The file has 600 inline bytes, and at most 512 are written.
    ensures long_entry { HasDiskView long_inline_image
        (nodes_view (([], DirectoryNode [] (codes "a" ∷ []))
        ∷ (codes "a" ∷ [], FileNode [] (replicate 600 97)) ∷ [])
        zero_gstate (0 ∷ 1 ∷ [])) }
    ensures long_entry_read_only { IsNotWritable long_inline_image }

    // The superblock limits names to 32 bytes.
    ensures name_limit { HasDiskView short_name_limit_image
        (nodes_view (([], DirectoryNode [] []) ∷ []) zero_gstate (0 ∷ 1 ∷ [])) }
    ensures name_limit_read_only { IsNotWritable short_name_limit_image }

    // The superblock has version 2.1, which the profile accepts.
    ensures newer { HasDiskView (disk_with_versions AlsoTwoOne (blocks_image (root_struct_block (superblock_struct_with 0x00020001 4096 255) 0xf2928257) []))
        (nodes_view (([], DirectoryNode [] []) ∷ []) zero_gstate (0 ∷ 1 ∷ [])) }
{}
