// What the entries of a log mean.

ghost use Rattle.std.specs.Prelude.{◌≡◌, ℕ, ◌<◌, ◌^◌, true, false, [], ◌∷◌, ◌++◌, Some, None, codes};
ghost use Rattle.std.specs.declared.cmp.Ordering.TheVariants.{Less};
ghost use Rattle.lfs_model.specs.format.Names.{name_cmp};
ghost use Rattle.lfs_model.specs.declared.order.NameOrder.TheVariants.{ShorterFirst, LongerFirst};
ghost use Rattle.lfs_model.specs.format.Tag.{IsValidTag, make_tag, tag_type, tag_id, tag_length};
ghost use Rattle.lfs_model.specs.format.Slots.{Gstate, zero_gstate, gstate_xor};
ghost use Rattle.lfs_model.specs.format.Content.{empty_raw_content, empty_slot, content_after};
ghost use Rattle.lfs_model.specs.format.EntryTypes.{unpacked_gstate, create_tag_type, delete_tag_type, file_name_type, superblock_name_type, inline_struct_type, directory_struct_type, ctz_struct_type, soft_tail_type, hard_tail_type, move_state_type, no_id};
ghost use Rattle.lfs_model.specs.layers.Lookup.{IsNameId, IsInsertionId, bytes_at};
ghost use Rattle.lfs_model.specs.examples.Images.{raw_superblock, raw_empty_file};
ghost use Rattle.lfs_model.specs.layers.WrittenContent.{log_entry, tail_entry};
ghost use Rattle.lfs_model.specs.layers.BlockBytes.{inline_file_entries, move_state_entry};

/// A tag consists of a type of 11 bits, an id of 10 bits and a length of 10 bits.
pub fn tag_encodes_its_fields()
    ensures kind { (kind id len : ℕ) → kind < 2 ^ 11 → id < 2 ^ 10 → len < 2 ^ 10 → tag_type (make_tag kind id len) ≡ kind }
    ensures id { (kind id len : ℕ) → kind < 2 ^ 11 → id < 2 ^ 10 → len < 2 ^ 10 → tag_id (make_tag kind id len) ≡ id }
    ensures len { (kind id len : ℕ) → kind < 2 ^ 11 → id < 2 ^ 10 → len < 2 ^ 10 → tag_length (make_tag kind id len) ≡ len }
    ensures valid { (kind id len : ℕ) → kind < 2 ^ 11 → id < 2 ^ 10 → len < 2 ^ 10 → IsValidTag (make_tag kind id len) }
    ensures whole { (tag : ℕ) → IsValidTag tag → make_tag (tag_type tag) (tag_id tag) (tag_length tag) ≡ tag }
{}

/// Shows three tags as the 32-bit numbers that are stored.
pub fn tags_have_specified_numbers()
    ensures create { make_tag create_tag_type 3 0 ≡ 0x40100c00 }
    ensures soft_tail { make_tag soft_tail_type no_id 8 ≡ 0x600ffc08 }
    ensures move_state { make_tag move_state_type no_id 12 ≡ 0x7ffffc0c }
{}

/// A move state has the sync bit, a type and an id in its first word, followed by the address of a
/// pair. The lowest ten bits of the first word are ignored.
pub fn move_state_encodes_its_fields()
    ensures set_move { unpacked_gstate 0x4ff00800 (2, 3) ≡ record { sync = false; kind = 0x4ff; id = 2; pair = (2, 3) } }
    ensures sync { unpacked_gstate 0x80000000 (0, 0) ≡ record { sync = true; kind = 0; id = 0; pair = (0, 0) } }
    ensures ignored { unpacked_gstate 0x000003ff (0, 0) ≡ zero_gstate }
    ensures ended { (g : Gstate) → gstate_xor g g ≡ zero_gstate }
    ensures kept { (g : Gstate) → gstate_xor g zero_gstate ≡ g }
{}

/// The entries of a log, applied in order, determine the slots of a metadata pair.
pub fn log_entries_make_slots()
    // "b" is created, "a" is created before it and removed again, and "b" gets an attribute.
    ensures shifted { content_after empty_raw_content
        (log_entry create_tag_type 0 [] ∷ inline_file_entries 0 (codes "b") []
        ++ log_entry create_tag_type 0 [] ∷ inline_file_entries 0 (codes "a") []
        ++ log_entry delete_tag_type 0 [] ∷ log_entry 0x341 0 (codes "x") ∷ [])
        ≡ Some (record empty_raw_content { slots = record { name = Some (file_name_type, codes "b"); struct = Some (inline_struct_type, []); attributes = (0x41, codes "x") ∷ [] } ∷ [] }) }

    // A name entry with an id past the last slot creates all slots up to that id.
    ensures extended { content_after empty_raw_content (log_entry file_name_type 1 (codes "a") ∷ [])
        ≡ Some (record empty_raw_content { slots = empty_slot ∷ record empty_slot { name = Some (file_name_type, codes "a") } ∷ [] }) }

    // Attributes are ordered by type. The last value of a type counts, unless a later entry removed
    // the attribute.
    ensures attributes { content_after empty_raw_content
        (log_entry file_name_type 0 (codes "a")
        ∷ log_entry 0x342 0 (codes "y") ∷ log_entry 0x341 0 (codes "x") ∷ log_entry 0x343 0 (codes "z")
        ∷ log_entry 0x342 0 (codes "w") ∷ record { tag = make_tag 0x343 0 0x3ff; bytes = [] } ∷ record { tag = make_tag 0x344 0 0x3ff; bytes = [] } ∷ [])
        ≡ Some (record empty_raw_content { slots = record empty_slot { name = Some (file_name_type, codes "a"); attributes = (0x41, codes "x") ∷ (0x42, codes "w") ∷ [] } ∷ [] }) }
{}

/// Only the last tail and the last move state of a log count, and the ids in their tags are
/// ignored.
pub fn last_tail_and_move_count()
    ensures tail { content_after empty_raw_content (tail_entry false (Some (2, 3)) ∷ tail_entry true (Some (4, 5)) ∷ [])
        ≡ Some (record empty_raw_content { tail = Some (record { hard = true; to = (4, 5) }) }) }
    ensures no_tail { content_after empty_raw_content (tail_entry true (Some (2, 3)) ∷ tail_entry true None ∷ []) ≡ Some empty_raw_content }
    ensures any_id { content_after empty_raw_content (log_entry soft_tail_type 0 (tail_entry false None).bytes ∷ [])
        ≡ Some empty_raw_content }
    ensures move_state { content_after empty_raw_content (move_state_entry 0x4ff00400 (0, 1) ∷ move_state_entry 0x80000000 (0, 0) ∷ [])
        ≡ Some (record empty_raw_content { move = record zero_gstate { sync = true } }) }
{}

/// An entry of an unknown type makes a log malformed.
pub fn log_with_bad_entry_is_malformed()
    ensures unknown_name { content_after empty_raw_content (log_entry 0x003 0 (codes "a") ∷ []) ≡ None }
    ensures unknown_class { content_after empty_raw_content (log_entry file_name_type 0 (codes "a") ∷ log_entry 0x100 0 [] ∷ []) ≡ None }
    ensures unknown_struct { content_after empty_raw_content (log_entry file_name_type 0 (codes "a") ∷ log_entry 0x203 0 [] ∷ []) ≡ None }
    ensures unknown_splice { content_after empty_raw_content (log_entry 0x402 0 [] ∷ []) ≡ None }
    ensures unknown_tail { content_after empty_raw_content (log_entry 0x602 no_id (tail_entry false None).bytes ∷ []) ≡ None }
    ensures unknown_move { content_after empty_raw_content (log_entry 0x7fe no_id (move_state_entry 0 (0, 0)).bytes ∷ []) ≡ None }
{}

/// A log is malformed if a delete, a struct or an attribute refers to a slot that doesn't exist, or
/// if a create would leave a gap between slots.
pub fn entry_of_absent_slot_is_malformed()
    ensures create_past_the_end { content_after empty_raw_content (log_entry create_tag_type 1 [] ∷ []) ≡ None }
    ensures delete_absent { content_after empty_raw_content (log_entry delete_tag_type 0 [] ∷ []) ≡ None }
    ensures struct_absent { content_after empty_raw_content (log_entry inline_struct_type 0 [] ∷ []) ≡ None }
    ensures attribute_absent { content_after empty_raw_content (log_entry 0x341 0 [] ∷ []) ≡ None }
{}

/// A struct or an attribute for a slot without a name makes a log malformed, and so does a name
/// without an id.
pub fn entry_without_name_is_malformed()
    ensures struct_without_name { content_after empty_raw_content (log_entry create_tag_type 0 [] ∷ log_entry inline_struct_type 0 [] ∷ []) ≡ None }
    ensures attribute_without_name { content_after empty_raw_content (log_entry create_tag_type 0 [] ∷ log_entry 0x341 0 [] ∷ []) ≡ None }
    ensures name_without_id { content_after empty_raw_content (log_entry file_name_type no_id (codes "a") ∷ []) ≡ None }
{}

/// A name or a struct of a wrong length makes a log malformed.
pub fn slot_entry_length_is_checked()
    ensures superblock_len { content_after empty_raw_content (log_entry superblock_name_type 0 (codes "little") ∷ []) ≡ None }
    ensures directory_len { content_after empty_raw_content (log_entry file_name_type 0 (codes "a") ∷ log_entry directory_struct_type 0 (codes "1234567") ∷ []) ≡ None }
    ensures list_len { content_after empty_raw_content (log_entry file_name_type 0 (codes "a") ∷ log_entry ctz_struct_type 0 (codes "123456789") ∷ []) ≡ None }
    ensures removed_name { content_after empty_raw_content (record { tag = make_tag file_name_type 0 0x3ff; bytes = [] } ∷ []) ≡ None }
{}

/// A create, a delete, a tail or a move state of a wrong length makes a log malformed.
pub fn create_and_tail_lengths_are_checked()
    ensures create_len { content_after empty_raw_content (log_entry create_tag_type 0 (codes "1") ∷ []) ≡ None }
    ensures delete_len { content_after empty_raw_content (log_entry create_tag_type 0 [] ∷ log_entry delete_tag_type 0 (codes "1") ∷ [])
        ≡ None }
    ensures tail_len { content_after empty_raw_content (log_entry hard_tail_type no_id (codes "1234") ∷ []) ≡ None }
    ensures move_len { content_after empty_raw_content (log_entry move_state_type no_id (codes "12345678") ∷ []) ≡ None }
{}

/// Shows the id at which a name is found among slots, or at which a new name is inserted. The
/// superblock's slot and a slot that is to be skipped don't count.
pub fn id_of_name_among_slots_is_found()
    ensures found { IsNameId (codes "b") None (raw_superblock ∷ raw_empty_file (codes "b") ∷ []) 1 }
    ensures before { IsInsertionId ShorterFirst (codes "a") None (raw_superblock ∷ raw_empty_file (codes "b") ∷ []) 1 }
    ensures behind { IsInsertionId ShorterFirst (codes "littlefs") None (raw_superblock ∷ raw_empty_file (codes "b") ∷ []) 2 }
    ensures passed_over { IsInsertionId ShorterFirst (codes "b") (Some 1) (raw_superblock ∷ raw_empty_file (codes "b") ∷ []) 2 }
    ensures second { IsNameId (codes "b") (Some 1) (raw_superblock ∷ raw_empty_file (codes "b") ∷ raw_empty_file (codes "b") ∷ []) 2 }
{}

/// If one name is a prefix of another, the `NameOrder` decides which of them comes first.
pub fn name_order_ranks_prefixes()
    ensures longer { name_cmp LongerFirst (codes "log.old") (codes "log") ≡ Less }
    ensures shorter { name_cmp ShorterFirst (codes "log") (codes "log.old") ≡ Less }
{}

/// The bytes of a slot's name, struct or attribute are found by the type of the entry and the id of
/// the slot.
pub fn slot_bytes_are_found_by_type_and_id()
    ensures name { bytes_at (raw_superblock ∷ raw_empty_file (codes "b") ∷ []) file_name_type 1 ≡ Some (codes "b") }
    ensures structure { bytes_at (raw_superblock ∷ raw_empty_file (codes "b") ∷ []) inline_struct_type 1 ≡ Some [] }
    ensures attribute { bytes_at (record (raw_empty_file (codes "b")) { attributes = (0x41, codes "x") ∷ [] } ∷ []) 0x341 0
        ≡ Some (codes "x") }
{}

/// No bytes are found for a type that the slot lacks, for an id without a slot, or for a create.
pub fn absent_slot_bytes_are_none()
    ensures no_attribute { bytes_at (record (raw_empty_file (codes "b")) { attributes = (0x41, codes "x") ∷ [] } ∷ []) 0x342 0 ≡ None }
    ensures other_name { bytes_at (raw_superblock ∷ []) file_name_type 0 ≡ None }
    ensures other_struct { bytes_at (raw_empty_file (codes "b") ∷ []) ctz_struct_type 0 ≡ None }
    ensures absent { bytes_at (raw_superblock ∷ []) file_name_type 1 ≡ None }
    ensures splice { bytes_at (raw_superblock ∷ []) create_tag_type 0 ≡ None }
{}
