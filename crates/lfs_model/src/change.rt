// How changes affect the contents of a pair.

ghost use Rattle.std.specs.Prelude.{◌≡◌, ℕ, false, true, [], ◌∷◌, ◌++◌, map, replicate, Some, None, codes};
ghost use Rattle.lfs_model.specs.format.Slots.{Slot, FitsInPair, zero_gstate};
ghost use Rattle.lfs_model.specs.format.Log.{LogEntry};
ghost use Rattle.lfs_model.specs.format.Content.{RawContent, empty_raw_content, content_after};
ghost use Rattle.lfs_model.specs.layers.WrittenContent.{content_entries};
ghost use Rattle.lfs_model.specs.layers.LoggedContent.{IsStorable};
ghost use Rattle.lfs_model.specs.layers.Changes.{Delete, PutAttribute, RemoveAttribute, PutTail, PutMove, entries_of_changes, content_with_changes};
ghost use Rattle.lfs_model.specs.examples.Images.{raw_superblock, raw_empty_file, slots_content, shifting_changes};

/// A list of changes has the same effect as the log entries that are written for it.
pub fn changes_act_as_their_log_entries()
    // "b" is created, "a" is created before it and removed again, and "b" gets an attribute.
    ensures shifted { content_with_changes (slots_content (raw_superblock ∷ [])) shifting_changes
        ≡ Some (slots_content (raw_superblock ∷ record (raw_empty_file (codes "b")) { attributes = (0x41, codes "x") ∷ [] } ∷ [])) }
    ensures tags { map (λ (e : LogEntry). e.tag) (entries_of_changes shifting_changes)
        ≡ 0x40100400 ∷ 0x00100401 ∷ 0x20100400 ∷ 0x40100400 ∷ 0x00100401 ∷ 0x20100400 ∷ 0x4ff00400 ∷ 0x34100401 ∷ [] }
    ensures removed { content_with_changes (slots_content (raw_empty_file (codes "a") ∷ [])) (PutAttribute 0 0x41 (codes "x") ∷ RemoveAttribute 0 0x42 ∷ RemoveAttribute 0 0x41 ∷ [])
        ≡ Some (slots_content (raw_empty_file (codes "a") ∷ [])) }
    ensures none { (c : RawContent) → content_with_changes c [] ≡ Some c }
    ensures absent { content_with_changes (slots_content (raw_superblock ∷ [])) (Delete 1 ∷ []) ≡ None }

    // The contents from which a compacted block is written are read back from it.
    ensures written { (c : RawContent) → IsStorable c → content_after empty_raw_content (content_entries c) ≡ Some c }
{}

/// A change of the tail or of the move state replaces the old value.
pub fn changes_replace_tail_and_move()
    ensures tail { content_with_changes (slots_content []) (PutTail false (Some (2, 3)) ∷ PutMove (record zero_gstate { sync = true }) ∷ [])
        ≡ Some (record { slots = []; tail = Some (record { hard = false; to = (2, 3) }); move = record zero_gstate { sync = true } }) }
    ensures no_tail { content_with_changes (record { slots = []; tail = Some (record { hard = false; to = (2, 3) }); move = record zero_gstate { sync = true } }) (PutTail true None ∷ PutMove zero_gstate ∷ [])
        ≡ Some empty_raw_content }
{}

/// Contents that fit a metadata pair can be written by a compaction.
pub fn fitting_content_is_storable()
    ensures { IsStorable (slots_content (raw_superblock ∷ record (raw_empty_file (codes "b")) { attributes = (0x41, codes "x") ∷ [] } ∷ [])) }
{}

/// A metadata pair has at most 1,000 slots.
pub fn pair_has_at_most_1000_slots()
    ensures { (s : Slot) → FitsInPair 65536 512 (record { slots = replicate 1001 s; tail = None; move = zero_gstate }) → ⊥ }
{}
