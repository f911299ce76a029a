// CTZ skip-lists in blocks of 1,024 bytes.

ghost use Rattle.std.specs.Prelude.{◌≡◌, ℕ, [], ◌∷◌, ◌++◌, map, replicate};
ghost use Rattle.lfs_model.specs.format.Disk.{default_profile};
ghost use Rattle.lfs_model.specs.format.SkipLists.{IsByteInListBlock, IsSkipList, skip_list_block_count, blocks_to_head, list_bytes, pointer_count, block_capacity};
ghost use Rattle.lfs_model.specs.session.Session.{file_block_count};
ghost use Rattle.lfs_model.specs.examples.Images.{three_block_list, three_block_list_with, cyclic_list_blocks};

/// The size of a CTZ skip-list determines how many blocks it has. A block's index in the list
/// determines how many pointers and how many bytes of the file the block holds.
pub fn skip_list_size_gives_block_count()
    ensures blocks { map (skip_list_block_count 1024) (0 ∷ 1 ∷ 1024 ∷ 1025 ∷ 2044 ∷ 2045 ∷ 3060 ∷ 3061 ∷ 4080 ∷ 4081 ∷ [])
        ≡ 0 ∷ 1 ∷ 1 ∷ 2 ∷ 2 ∷ 3 ∷ 3 ∷ 4 ∷ 4 ∷ 5 ∷ [] }
    ensures pointers { map pointer_count (0 ∷ 1 ∷ 2 ∷ 3 ∷ 4 ∷ 5 ∷ 6 ∷ 7 ∷ 8 ∷ []) ≡ 0 ∷ 1 ∷ 2 ∷ 1 ∷ 3 ∷ 1 ∷ 2 ∷ 1 ∷ 4 ∷ [] }
    ensures capacities { map (block_capacity 1024) (0 ∷ 1 ∷ 2 ∷ 3 ∷ 4 ∷ []) ≡ 1024 ∷ 1020 ∷ 1016 ∷ 1020 ∷ 1012 ∷ [] }

    // The block index and the offset in that block of the file's bytes 1023, 1024, 2043, 2044 and
    // 4080.
    ensures places { IsByteInListBlock 1024 1023 0 1023 × IsByteInListBlock 1024 1024 1 4 × IsByteInListBlock 1024 2043 1 1023 × IsByteInListBlock 1024 2044 2 8 × IsByteInListBlock 1024 4080 4 12 }

    // A file of at most an eighth of a block has no list.
    ensures inline { map (file_block_count default_profile 1024) (128 ∷ 129 ∷ []) ≡ 0 ∷ 1 ∷ [] }
{}

/// A CTZ skip-list of 2,045 bytes in blocks 5, 6 and 7 consists of the bytes that these blocks hold
/// after their pointers.
pub fn bytes_of_skip_list_are_read()
    ensures list { IsSkipList three_block_list 1024 7 2045 }
    ensures blocks { blocks_to_head three_block_list (skip_list_block_count 1024 2045) 7 ≡ 5 ∷ 6 ∷ 7 ∷ [] }
    ensures bytes { list_bytes three_block_list 1024 7 2045 ≡ replicate 1024 1 ++ replicate 1020 2 ++ 3 ∷ [] }

    // If the first pointers of the blocks form a cycle, the list never reaches its first block.
    ensures round { IsSkipList cyclic_list_blocks 1024 7 2045 → ⊥ }

    // Pointer 1 of the last block points to the second block instead of the first.
    ensures wrong_pointer { IsSkipList (three_block_list_with 6) 1024 7 2045 → ⊥ }
{}
