// Laws of the definitions that several crates above this one use.

ghost use Rattle.std.specs.Prelude.{◌≡◌, ◌≤◌, ◌<◌, ◌⊎◌, ℕ, ◌+◌, true, List, [], ◌∷◌, ◌++◌, length, drop, sum_by, slice_get, Some, None, All, Contains, codes};
ghost use Rattle.std.specs.List.{insert};
ghost use Rattle.std.specs.Option.{option_map};
ghost use Rattle.lfs_model.specs.format.Blocks.{Blocks, HasBlockSizes, SameExceptBlocks};
ghost use Rattle.lfs_model.specs.layers.BlockSets.{BlockStates, IsInFlight, IsUsedBlock, in_flight_count, used_count};
ghost use Rattle.lfs_model.specs.format.Content.{RawSlot, RawContent, decoded_content};
ghost use Rattle.lfs_model.specs.format.EntryTypes.{file_name_type, directory_name_type, superblock_name_type};
ghost use Rattle.lfs_model.specs.layers.Cut.{AreSplittable, IsFittingSplit};
ghost use Rattle.lfs_model.specs.crash.Frame.{directory_pair_count};
ghost use Rattle.lfs_model.specs.format.Disk.{Disk, pair_capacity, half_pair_capacity, slots_limit};
ghost use Rattle.lfs_model.specs.crash.FailedCalls.{FailLikeLossSince, LeftByLatestLoss, LeftByFailure};
ghost use Rattle.lfs_model.specs.session.History.{CallEvent, AllCallsSince, fault_count};
ghost use Rattle.lfs_model.specs.session.InDirectory.{IsPairAt, IsPositionOfName, IsInsertionPosition, joined_pair_count};
ghost use Rattle.lfs_model.specs.format.SkipLists.{skip_list_block_count, blocks_to_head, IsSkipList, list_bytes};
ghost use Rattle.lfs_model.specs.layers.LoggedContent.{IsNameOrStruct, AreWellFormed, IsWellFormed};
ghost use Rattle.lfs_model.specs.format.Names.{Name};
ghost use Rattle.lfs_model.specs.crash.PowerLoss.{HasEitherTree, SurvivesLossSince, with_blocks};
ghost use Rattle.lfs_model.specs.session.SlotEdits.{slot_of_path};
ghost use Rattle.lfs_model.specs.format.Slots.{Slot, PairContent, FitsInPair, zero_gstate};
ghost use Rattle.lfs_model.specs.crash.Stops.{LeftByLoss, ErasesCleanly};
ghost use Rattle.lfs_model.specs.format.Thread.{Pair, pairs_gstate, begins_with_superblock};
ghost use Rattle.lfs_model.specs.tree.Tree.{Path, Tree};
ghost use Rattle.lfs_model.specs.declared.limits.Profile.{Profile};
ghost use Rattle.lfs_model.specs.tree.Profile.{IsWritableEntry};
ghost use Rattle.lfs_model.specs.tree.View.{IsAccepted, superblock_entry};
ghost use Rattle.lfs_model.specs.tree.Shown.{IsDirectoryAtPath};
ghost use Rattle.lfs_model.specs.layers.WrittenContent.{raw_slot_size, content_entries};

/// Slots can be split between two pairs if all but one of them fit in a pair, and that one needs at
/// most half a pair.
pub fn full_pair_can_be_split()
    ensures cut { (block_size page : ℕ) (front : List RawSlot) (s : RawSlot) (back : List RawSlot) → raw_slot_size s ≤ half_pair_capacity block_size page
        → sum_by raw_slot_size front + sum_by raw_slot_size back ≤ pair_capacity block_size page → length front + length back ≤ slots_limit
        → AreSplittable block_size page (front ++ s ∷ back) }

    // An entry within the profile's limits is added to a pair whose slots fitted, or replaces one
    // of these slots.
    ensures comes { (profile : Profile) (block_size page : ℕ) (raw : RawContent) (c old : PairContent) (id : ℕ) (s : Slot) → 1024 ≤ block_size → IsWellFormed raw → decoded_content raw ≡ Some c
        → c.slots ≡ insert old.slots id s → IsWritableEntry profile block_size page s → FitsInPair block_size page old → AreSplittable block_size page raw.slots }
    ensures changes { (profile : Profile) (block_size page : ℕ) (raw : RawContent) (c old : PairContent) (front : List Slot) (was s : Slot) (back : List Slot) → 1024 ≤ block_size → IsWellFormed raw
        → decoded_content raw ≡ Some c → old.slots ≡ front ++ was ∷ back → c.slots ≡ front ++ s ∷ back → IsWritableEntry profile block_size page s → FitsInPair block_size page old
        → AreSplittable block_size page raw.slots }

    // If the slots don't fit in one pair, neither part of a split is empty.
    ensures inside { (block_size page : ℕ) (raw : RawContent) (c : PairContent) (at : ℕ) → IsWellFormed raw → decoded_content raw ≡ Some c → (FitsInPair block_size page c → ⊥)
        → IsFittingSplit block_size page raw.slots at → (1 ≤ at) × (at < length raw.slots) }
{}

/// Every name has the type of a file, a directory or a superblock. If slot 0 is the superblock, a
/// compacted log begins with the superblock's name entry.
pub fn superblock_is_written_first()
    ensures types { (kind : ℕ) (bytes : List ℕ) → IsNameOrStruct 0 (kind, bytes) → (kind ≡ file_name_type) ⊎ ((kind ≡ directory_name_type) ⊎ (kind ≡ superblock_name_type)) }
    ensures first { (raw : RawContent) (c : PairContent) → AreWellFormed raw.slots → decoded_content raw ≡ Some c → begins_with_superblock c.slots ≡ true
        → option_map (λ (s : Slot). s.name) (slice_get c.slots 0) ≡ Some (codes "littlefs") → slice_get (content_entries raw) 0 ≡ Some superblock_entry }
{}

/// After a failed call the disk has the tree from before or after the operation, if that call left
/// what a power loss in it may leave.
pub fn failed_call_leaves_what_power_loss_leaves()
    ensures newest { (disk : Disk) (old new : List CallEvent) (blocks : Blocks) (before after : Tree) → SurvivesLossSince disk old new before after → AllCallsSince ErasesCleanly old new
        → fault_count old < fault_count new → LeftByLatestLoss LeftByLoss new blocks → HasEitherTree (with_blocks blocks disk) before after }
    ensures failed { (disk : Disk) (old new : List CallEvent) (blocks : Blocks) (before after : Tree) → SurvivesLossSince disk old new before after → AllCallsSince ErasesCleanly old new
        → FailLikeLossSince old new → fault_count old < fault_count new → LeftByFailure new blocks → HasEitherTree (with_blocks blocks disk) before after }
{}

/// A CTZ skip-list has exactly as many bytes as its size says, and these bytes stay the same while
/// only other blocks change.
pub fn skip_list_keeps_its_bytes()
    ensures size { (disk : Blocks) (block_size block_count head size : ℕ) → 1024 ≤ block_size → HasBlockSizes block_size block_count disk → IsSkipList disk block_size head size
        → length (list_bytes disk block_size head size) ≡ size }
    ensures more { (block_size small large : ℕ) → small ≤ large → skip_list_block_count block_size small ≤ skip_list_block_count block_size large }
    ensures stays { (old new : Blocks) (bs : List ℕ) (block_size head size : ℕ) → SameExceptBlocks bs old new
        → All (λ c. All (λ b. b ≡ c → ⊥) bs) (blocks_to_head old (skip_list_block_count block_size size) head) → IsSkipList old block_size head size
        → IsSkipList new block_size head size × (list_bytes new block_size head size ≡ list_bytes old block_size head size) }
{}

/// Neither the number of used blocks nor the number of blocks in flight exceeds the length of a
/// list that contains all of them. Blocks in flight are allocated, but aren't in any commit yet.
pub fn list_with_all_used_blocks_bounds_their_count()
    ensures flying { (sets : BlockStates) (bs : List ℕ) → ((b : ℕ) → IsInFlight sets b → Contains bs b) → in_flight_count sets ≤ length bs }
    ensures used { (sets : BlockStates) (bs : List ℕ) → ((b : ℕ) → IsUsedBlock sets b → Contains bs b) → used_count sets ≤ length bs }
{}

/// A search of a directory's pairs finds exactly the entry at the path of the searched name, and
/// covers as many pairs as the directory has.
pub fn search_finds_entry_at_path()
    ensures stands { (disk : Disk) (ps : List Pair) (path : Path) (at : ℕ × ℕ) (first pair id : ℕ) (name : Name) → IsAccepted disk ps → pairs_gstate ps ≡ zero_gstate → IsDirectoryAtPath ps path at
        → IsPairAt ps at first → (s : IsPositionOfName ps first name pair id) → slot_of_path ps (path ++ name ∷ []) ≡ Some s.stands.slot }
    ensures absent { (disk : Disk) (ps : List Pair) (path : Path) (at : ℕ × ℕ) (first pair id : ℕ) (name : Name) → IsAccepted disk ps → pairs_gstate ps ≡ zero_gstate → IsDirectoryAtPath ps path at
        → IsPairAt ps at first → IsInsertionPosition disk.order ps first name pair id → slot_of_path ps (path ++ name ∷ []) ≡ None }
    ensures reads { (disk : Disk) (ps : List Pair) (path : Path) (at : ℕ × ℕ) (first : ℕ) → IsAccepted disk ps → IsDirectoryAtPath ps path at → IsPairAt ps at first
        → joined_pair_count (drop first ps) ≡ directory_pair_count ps path }
{}
