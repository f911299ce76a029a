// Images of which each breaks one rule, and images that break none.

ghost use Rattle.std.specs.Prelude.{[], ◌∷◌};
ghost use Rattle.lfs_model.specs.declared.breaches.OtherLimit.TheVariants as limit;
ghost use Rattle.lfs_model.specs.declared.breaches.ProfileBreach.{ProfileBreach};
ghost use Rattle.lfs_model.specs.declared.breaches.ProfileBreach.TheVariants as breach;
ghost use Rattle.lfs_model.specs.declared.violations.Violation.{Violation};
ghost use Rattle.lfs_model.specs.declared.violations.Violation.TheVariants as violation;
ghost use Rattle.lfs_model.specs.format.Disk.{Disk};
ghost use Rattle.lfs_model.specs.tree.Fresh.{IsFreshDisk};
ghost use Rattle.lfs_model.specs.layers.Violations.{Breaks};
ghost use Rattle.lfs_model.specs.examples.Violations.{BreaksProfileRule, absent_block_image, same_block_pair_image, tail_to_root_image, unwritten_pair_image, later_version_image, bad_move_image, create_first_image, dot_name_image, empty_list_image, empty_pair_image, unsorted_names_image, shared_directory_image, large_entry_image, long_inline_image, dangling_directory_image, shared_block_image, short_name_limit_image, differing_superblocks_image, orphan_pair_image, no_superblock_image};

/// Each of these images breaks one rule about the tails from pair to pair.
pub fn bad_threads_break_rules()
    ensures out_of_range { Breaks absent_block_image (violation.OutOfRange (2 ∷ 16 ∷ [])) }
    ensures one_block { Breaks same_block_pair_image (violation.OneBlock (2 ∷ 2 ∷ [])) }
    ensures two_pairs { Breaks tail_to_root_image (violation.TwoPairs (0 ∷ 1 ∷ []) 0) }
    ensures no_content { Breaks unwritten_pair_image (violation.NoContent (2 ∷ 3 ∷ [])) }

    // A fresh image breaks no rule.
    ensures none { (disk : Disk) (v : Violation) → IsFreshDisk disk → ¬ Breaks disk v }
{}

/// Each of these images breaks one rule about superblocks.
pub fn bad_superblocks_break_rules()
    ensures no_superblock { Breaks no_superblock_image violation.NoSuperblock }
    ensures first_entry { Breaks create_first_image (violation.FirstEntry (0 ∷ 1 ∷ [])) }
    ensures superblock { Breaks later_version_image (violation.Superblock (0 ∷ 1 ∷ [])) }
    ensures other_superblock { Breaks differing_superblocks_image (violation.OtherSuperblock (2 ∷ 3 ∷ [])) }
{}

/// Each of these images breaks one rule about entries or directories.
pub fn bad_directories_break_rules()
    ensures entry { Breaks dot_name_image (violation.Entry (0 ∷ 1 ∷ []) 1) }
    ensures names { Breaks unsorted_names_image (violation.Names (0 ∷ 1 ∷ [])) }
    ensures branch { Breaks dangling_directory_image (violation.Branch (0 ∷ 1 ∷ [])) }
    ensures two_paths { Breaks shared_directory_image (violation.TwoPaths (2 ∷ 3 ∷ [])) }
    ensures no_path { Breaks orphan_pair_image (violation.NoPath (2 ∷ 3 ∷ [])) }
{}

/// Each of these images breaks one rule about moves or CTZ skip-lists.
pub fn bad_lists_break_rules()
    ensures set_move { Breaks bad_move_image violation.Move }
    ensures list { Breaks empty_list_image (violation.List (0 ∷ 1 ∷ []) 1) }
    ensures two_owners { Breaks shared_block_image (violation.TwoOwners (0 ∷ 1 ∷ []) 2 2) }
{}

/// Each of these accepted images breaks one rule of the writing profile.
pub fn accepted_images_may_break_profile()
    ensures differing_limit_options { BreaksProfileRule short_name_limit_image (breach.OtherLimits (0 ∷ 1 ∷ []) 0 (limit.Name 32)) }
    ensures long_inline { BreaksProfileRule long_inline_image (breach.LongInline (0 ∷ 1 ∷ []) 1) }
    ensures empty_pair { BreaksProfileRule empty_pair_image (breach.EmptyPair (2 ∷ 3 ∷ [])) }
    ensures too_large { BreaksProfileRule large_entry_image (breach.TooLarge (0 ∷ 1 ∷ [])) }

    // A fresh image breaks no rule.
    ensures none { (disk : Disk) (b : ProfileBreach) → IsFreshDisk disk → ¬ BreaksProfileRule disk b }
{}
