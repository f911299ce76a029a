// The checksum and the log of a block.

ghost use Rattle.std.specs.Prelude.{◌≡◌, ℕ, ◌+◌, ◌≤◌, ◌<◌, ◌^◌, ◌++◌, true, false, List, [], ◌∷◌, Some, None, length, take, slice_set, All, codes};
ghost use Rattle.byteorder.specs.Endian.{little_bytes};
ghost use Rattle.lfs_model.specs.format.Crc.{IsCrcFrom, crc_of};
ghost use Rattle.lfs_model.specs.format.Log.{LogEntry, AreCommits, chain_of, block_revision};
ghost use Rattle.lfs_model.specs.format.Content.{has_commit, is_later, later_committed_block};
ghost use Rattle.lfs_model.specs.format.EntryTypes.{create_tag_type, no_id};
ghost use Rattle.lfs_model.specs.layers.WrittenContent.{log_entry};
ghost use Rattle.lfs_model.specs.layers.BlockBytes.{unwritten_bytes, metadata_block_bytes, checksum_entry};
ghost use Rattle.lfs_model.specs.examples.Images.{IsNotAccepted, small_block, small_disk_with, bad_checksum_block, shifted_slot_block};

/// `crc_of` computes the remainder of the polynomial division that defines the checksum. No other
/// 32-bit number is this remainder.
pub fn checksum_is_remainder()
    ensures small { (start : ℕ) (bytes : List ℕ) → start < 2 ^ 32 → All (λ b. b < 2 ^ 8) bytes → crc_of start bytes < 2 ^ 32 }
    ensures remainder { (start : ℕ) (bytes : List ℕ) → start < 2 ^ 32 → All (λ b. b < 2 ^ 8) bytes
        → IsCrcFrom start bytes (crc_of start bytes) }
    ensures only { (start : ℕ) (bytes : List ℕ) (other : ℕ) → start < 2 ^ 32 → All (λ b. b < 2 ^ 8) bytes → other < 2 ^ 32
        → IsCrcFrom start bytes other → other ≡ crc_of start bytes }
    ensures example { crc_of 0xffffffff (codes "123456789") ≡ 0x340bc6d9 }
{}

/// A block's log is the longest chain of commits in the block, and every other chain of commits
/// there is a prefix of the log.
pub fn log_is_longest_commit_sequence()
    ensures chain { (block : List ℕ) → AreCommits block (chain_of block).commits (chain_of block).end (chain_of block).last }
    ensures longest { (block : List ℕ) (others : List (List LogEntry)) (end last : ℕ) → AreCommits block others end last
        → length others ≤ length (chain_of block).commits }
    ensures beginning { (block : List ℕ) (others : List (List LogEntry)) (end last : ℕ) → AreCommits block others end last
        → take (length others) (chain_of block).commits ≡ others }
{}

/// A log ends before the first commit with a wrong checksum, and no commit after that one counts.
pub fn altered_commit_ends_log()
    // One bit of the only commit's checksum is inverted.
    ensures no_log { (k : ℕ) → k < 32 → (chain_of (bad_checksum_block k)).commits ≡ [] }
    ensures no_image { (k : ℕ) → k < 32 → IsNotAccepted (small_disk_with (bad_checksum_block k)) }

    // One of five commits is altered: a data byte of the second, the checksum of the fourth, or the
    // struct of the first.
    ensures second { chain_of (slice_set shifted_slot_block 264 0x63)
        ≡ record { commits = take 1 (chain_of shifted_slot_block).commits; end = 256; last = 0x500ffcd0 } }
    ensures fourth { chain_of (slice_set shifted_slot_block 776 0x1b)
        ≡ record { commits = take 3 (chain_of shifted_slot_block).commits; end = 768; last = 0x500ffcef } }
    ensures first { (chain_of (slice_set shifted_slot_block 20 0x01)).commits ≡ [] }
    ensures whole { length (chain_of shifted_slot_block).commits ≡ 5 }
{}

/// A commit's padding may contain any bytes.
pub fn padding_may_be_any_bytes()
    ensures { (k : ℕ) → k < 76 → (chain_of (slice_set small_block (52 + k) 0x00)).end ≡ 128 }
{}

/// A commit ends with a checksum entry of type 0x500 or 0x501 that has 4 to 1,022 bytes. The
/// checksum covers everything before it, including its own tag.
pub fn checksum_ends_commit()
    ensures shortest { has_commit (metadata_block_bytes 64 1 (log_entry create_tag_type 0 [] ∷ checksum_entry 0x3316d230 0 ∷ [])) ≡ true }
    ensures longest { has_commit (metadata_block_bytes 1100 1 (log_entry create_tag_type 0 [] ∷ checksum_entry 0x45539af1 1018 ∷ []))
        ≡ true }
    ensures other_type { has_commit (metadata_block_bytes 64 1 (log_entry create_tag_type 0 []
        ∷ log_entry 0x501 no_id (little_bytes 4 0x2f307140) ∷ [])) ≡ true }
{}

/// An entry with a bad checksum, or with padding that reaches past the end of the block, ends no
/// commit.
pub fn bad_checksum_ends_no_commit()
    // The checksum has only three bytes, its entry has another type of the same class, or it
    // doesn't cover its own tag.
    ensures too_short { has_commit (metadata_block_bytes 64 1 (log_entry create_tag_type 0 []
        ∷ log_entry 0x500 no_id (little_bytes 3 0xad724793) ∷ [])) ≡ false }
    ensures no_checksum { has_commit (metadata_block_bytes 64 1 (log_entry create_tag_type 0 []
        ∷ log_entry 0x502 no_id (little_bytes 4 0x0b5b94d0) ∷ [])) ≡ false }
    ensures not_its_tag { has_commit (metadata_block_bytes 64 1 (log_entry create_tag_type 0 [] ∷ checksum_entry 0x0ffefba6 0 ∷ [])) ≡ false }

    // The padding reaches past the end of the block, the padding ends within the block, or the
    // block has no checksum at all.
    ensures past_the_end { has_commit (take 64 (metadata_block_bytes 64 1 (log_entry create_tag_type 0 [] ∷ checksum_entry 0x7ea4b368 96 ∷ [])))
        ≡ false }
    ensures within { has_commit (metadata_block_bytes 64 1 (log_entry create_tag_type 0 [] ∷ checksum_entry 0x7ea4b368 96 ∷ [])) ≡ true }
    ensures absent { has_commit (unwritten_bytes 64) ≡ false }
{}

/// If both blocks of a pair have a commit, the block with the later revision count is active. If
/// only one block has a commit, that block is active.
pub fn later_block_is_current()
    ensures second { (a b : List ℕ) → has_commit a ≡ true → has_commit b ≡ true → is_later (block_revision a) (block_revision b) ≡ true
        → later_committed_block a b ≡ Some b }
    ensures first { (a b : List ℕ) → has_commit a ≡ true → has_commit b ≡ true → is_later (block_revision a) (block_revision b)
        ≡ false → later_committed_block a b ≡ Some a }
    ensures only_second { (a b : List ℕ) → has_commit a ≡ false → has_commit b ≡ true → later_committed_block a b ≡ Some b }
    ensures only_first { (a b : List ℕ) → has_commit a ≡ true → has_commit b ≡ false → later_committed_block a b ≡ Some a }
    ensures neither { (a b : List ℕ) → has_commit a ≡ false → has_commit b ≡ false → later_committed_block a b ≡ None }
{}

/// The sign of the difference of two revision counts decides which of them is later.
pub fn revisions_compare_by_signed_difference()
    ensures later { is_later 1 2 ≡ true }
    ensures earlier { is_later 2 1 ≡ false }
    ensures wrapped { is_later 0xffffffff 0 ≡ true }
    ensures before_wrapping { is_later 0 0xffffffff ≡ false }
    ensures farthest { is_later 0 0x7fffffff ≡ true }
{}

/// Neither of two revision counts is later if they are equal or differ by 2^31.
pub fn neither_revision_is_later()
    ensures equal { is_later 5 5 ≡ false }
    ensures half { is_later 0 0x80000000 ≡ false }
    ensures half_back { is_later 0x80000000 0 ≡ false }
{}
