// Images that aren't accepted. Their checksums are correct unless a clause says otherwise.

ghost use Rattle.std.specs.Prelude.{true, false, [], ◌∷◌, ◌++◌, Some, replicate, codes};
ghost use Rattle.byteorder.specs.Endian.{little_bytes};
ghost use Rattle.lfs_model.specs.declared.limits.AcceptedVersions.TheVariants.{AlsoTwoOne};
ghost use Rattle.lfs_model.specs.layers.WrittenContent.{tail_entry};
ghost use Rattle.lfs_model.specs.layers.BlockBytes.{unwritten_bytes, block_padded, inline_file_entries, list_file_entries, directory_slot_entries, move_state_entry};
ghost use Rattle.lfs_model.specs.examples.Images.{IsNotAccepted, root_block_with, pair_block_with, blocks_image, resized_image, superblock_struct_with, root_struct_block, disk_with_versions};

/// The threaded linked-list of metadata pairs must end, stay within the disk, and contain no block
/// twice.
pub fn bad_thread_is_not_accepted()
    // The root's tail points to the root itself.
    ensures itself { IsNotAccepted (blocks_image (root_block_with (tail_entry false (Some (0, 1)) ∷ []) 0x19dcec1e 192) []) }
    ensures block_twice { IsNotAccepted (blocks_image (root_block_with (tail_entry false (Some (2, 2)) ∷ []) 0x7b687562 192)
        (pair_block_with [] 0x43f29ceb 244 ∷ [])) }
    ensures one_null { IsNotAccepted (blocks_image (root_block_with (tail_entry false (Some (2, 0xffffffff)) ∷ []) 0xa3905289 192) []) }

    // Block 2 has a commit, and block 16 doesn't exist.
    ensures out_of_range { IsNotAccepted (blocks_image (root_block_with (tail_entry false (Some (2, 16)) ∷ []) 0x45f64334 192)
        (pair_block_with [] 0x43f29ceb 244 ∷ [])) }
    ensures unwritten_pair { IsNotAccepted (blocks_image (root_block_with (tail_entry false (Some (2, 3)) ∷ []) 0xb7c275fc 192) []) }
{}

/// A directory's entry must point to the first pair of a directory, and no two entries may point to
/// the same directory.
pub fn bad_directory_address_is_not_accepted()
    ensures root { IsNotAccepted (blocks_image (root_block_with (directory_slot_entries 1 (codes "d") (0, 1)) 0xe27bd4d5 187) []) }
    ensures twice { IsNotAccepted
        (blocks_image (root_block_with (directory_slot_entries 1 (codes "d") (2, 3) ++ directory_slot_entries 2 (codes "e") (2, 3) ++ tail_entry false (Some (2, 3)) ∷ []) 0x9b4a311a 158)
        (pair_block_with [] 0x43f29ceb 244 ∷ [])) }
    ensures absent { IsNotAccepted (blocks_image (root_block_with (directory_slot_entries 1 (codes "d") (2, 3)) 0x4c654d37 187)
        (pair_block_with [] 0x43f29ceb 244 ∷ [])) }

    // The entry points to a pair that continues the root directory.
    ensures follower { IsNotAccepted
        (blocks_image (root_block_with (directory_slot_entries 1 (codes "d") (2, 3) ++ tail_entry true (Some (2, 3)) ∷ []) 0xcf150821 175)
        (pair_block_with [] 0x43f29ceb 244 ∷ [])) }
{}

/// Names must be well-formed, and in ascending order within their directory.
pub fn bad_name_is_not_accepted()
    ensures descending { IsNotAccepted (blocks_image (root_block_with (inline_file_entries 1 (codes "b") [] ++ inline_file_entries 2 (codes "a")
        []) 0x5f10df56 186) []) }
    ensures twice { IsNotAccepted (blocks_image (root_block_with (inline_file_entries 1 (codes "a") [] ++ inline_file_entries 2 (codes "a")
        []) 0xb5960234 186) []) }
    ensures dot { IsNotAccepted (blocks_image (root_block_with (inline_file_entries 1 (codes ".") []) 0x78002b02 195) []) }
    ensures slash { IsNotAccepted (blocks_image (root_block_with (inline_file_entries 1 (codes "a/b") []) 0xd9b0dbad 193) []) }
    ensures long { IsNotAccepted (blocks_image (root_block_with (inline_file_entries 1 (replicate 256 97) []) 0xe28fdd43 196) []) }

    // The names are in two pairs of one directory.
    ensures across { IsNotAccepted
        (blocks_image (root_block_with (inline_file_entries 1 (codes "b") [] ++ tail_entry true (Some (2, 3)) ∷ []) 0x922b2c43 183)
        (pair_block_with (inline_file_entries 0 (codes "a") (codes "hi")) 0x4cbde7e4 233 ∷ [])) }
{}

/// A file's CTZ skip-list must stay within the disk, have 1 to 2,147,483,647 bytes and correct
/// pointers, and share no block.
pub fn bad_skip_list_is_not_accepted()
    ensures shared { IsNotAccepted
        (blocks_image (root_block_with (list_file_entries 1 (codes "a") 2 10 ++ list_file_entries 2 (codes "b") 2 10) 0xc767c5eb 170)
        (block_padded 4096 (codes "0123456789") ∷ [])) }
    ensures of_the_root { IsNotAccepted (blocks_image (root_block_with (list_file_entries 1 (codes "a") 1 10) 0x560f4ae1 187) []) }
    ensures head { IsNotAccepted (blocks_image (root_block_with (list_file_entries 1 (codes "a") 16 10) 0xc1b2eb72 187) []) }
    ensures empty { IsNotAccepted (blocks_image (root_block_with (list_file_entries 1 (codes "a") 2 0) 0xb05184d9 187) []) }
    ensures too_long { IsNotAccepted (blocks_image (root_block_with (list_file_entries 1 (codes "a") 2 0x80000000) 0x01b7344b 187) []) }

    // Pointer 1 of the third block points to the second block instead of the first.
    ensures pointer { IsNotAccepted
        (blocks_image (root_block_with (list_file_entries 1 (codes "a") 4 8189) 0xaa94cc85 187)
        (replicate 4096 97
        ∷ (little_bytes 4 2 ++ replicate 4092 98)
        ∷ block_padded 4096 (little_bytes 4 3 ++ little_bytes 4 3 ++ 99 ∷ []) ∷ [])) }
{}

/// Apart from the sync bit, the global state must be zero or refer to an existing slot other than
/// the superblock's.
pub fn move_naming_no_entry_is_not_accepted()
    ensures id_alone { IsNotAccepted (blocks_image (root_block_with (move_state_entry 0x00000400 (0, 0) ∷ []) 0x33e0939e 188) []) }
    ensures superblock { IsNotAccepted (blocks_image (root_block_with (move_state_entry 0x4ff00000 (0, 1) ∷ []) 0x86d7ee5a 188) []) }
    ensures no_slot { IsNotAccepted (blocks_image (root_block_with (move_state_entry 0x4ff00400 (0, 1) ∷ []) 0x0cab8b39 188) []) }
    ensures other_type { IsNotAccepted (blocks_image (root_block_with (move_state_entry 0x00100000 (0, 0) ∷ []) 0xdf2eca91 188) []) }
{}

/// The superblock must state the disk's block size and block count, and an accepted version.
pub fn bad_superblock_is_not_accepted()
    // A fresh image of 16 blocks is cut to 2 blocks, or lengthened to 17.
    ensures cut { IsNotAccepted (resized_image 2) }
    ensures lengthened { IsNotAccepted (resized_image 17) }
    ensures version { IsNotAccepted (blocks_image (root_struct_block (superblock_struct_with 0x00020001 4096 255) 0xf2928257) []) }
    // Version 2.2 isn't accepted even if version 2.1 is.
    ensures later_version { IsNotAccepted (disk_with_versions AlsoTwoOne (blocks_image (root_struct_block (superblock_struct_with 0x00020002 4096 255) 0xf04c8570) [])) }
    ensures block_size { IsNotAccepted (blocks_image (root_struct_block (superblock_struct_with 0x00020000 8192 255) 0xf0b0f59e) []) }

    // Nothing was ever written to this storage.
    ensures unwritten { IsNotAccepted (blocks_image (unwritten_bytes 4096) []) }
{}
