// Laws of the forms of contents, for the session that uses this crate. Each form fits the session's
// writer, and the blocks that the session reserves are enough. Another law states the map after a
// list is settled.

ghost use Rattle.std.specs.Prelude.{◌≡◌, ◌≤◌, ◌<◌, ◌+◌, ◌-◌, ℕ, false, max, Contains, List, ◌∷◌, length};
ghost use Rattle.lfs_model.specs.layers.BlockSets.{AreUsed, BlockStates};
ghost use Rattle.lfs_model.specs.format.Disk.{inline_limit};
ghost use Rattle.lfs_model.specs.declared.limits.Profile.{Profile};
ghost use Rattle.lfs_model.specs.session.Operations.{FlagsOfOpen};
ghost use Rattle.lfs_model.specs.session.Session.{FileWriter, reserved_for_writer};
ghost use Rattle.lfs_model.specs.layers.Steps.{occurrence_count};
ghost use Rattle.lfs_model.specs.session.Writers.{synced_writer, truncated_writer, writer_after_write, opened_writer, write_position};
ghost use Rattle.lfs_model.specs.tree.Tree.{Path};
ghost use Rattle.lfs_file.specs.Contents.{FormFitsLimit, NeedsTruncateRoom, finish_room, truncation_room, write_room};
ghost use Rattle.lfs_file.specs.Form.{ContentsForm, InMemory, Finished, IsWriterForm, form_in_flight, form_size, synced_form, truncated_form, written_form};
ghost use Rattle.lfs_file.specs.SettledMaps.{SettlesList};

/// Proves that, after each call of a writer, the form of the contents fits the state of the
/// session's writer.
pub fn lemma_forms_fit()
    ensures opened_inline { (profile : Profile) (block_size : ℕ) (path : Path) (flags : FlagsOfOpen) (bytes : List ℕ) → length (opened_writer path flags bytes).contents ≤ inline_limit profile block_size
        → IsWriterForm profile block_size (InMemory (length (opened_writer path flags bytes).contents)) (opened_writer path flags bytes) }
    ensures opened_list { (profile : Profile) (block_size : ℕ) (path : Path) (flags : FlagsOfOpen) (bytes : List ℕ) → IsWriterForm profile block_size (Finished (length (opened_writer path flags bytes).contents) false) (opened_writer path flags bytes) }
    ensures moved { (profile : Profile) (block_size place : ℕ) (form : ContentsForm) (w : FileWriter) → IsWriterForm profile block_size form w → IsWriterForm profile block_size form (record w { position = place }) }
    ensures written { (profile : Profile) (block_size : ℕ) (form : ContentsForm) (w : FileWriter) (byte : ℕ) (bytes : List ℕ) → IsWriterForm profile block_size form w
        → IsWriterForm profile block_size (written_form (inline_limit profile block_size) (write_position w) (length (byte ∷ bytes)) form) (writer_after_write w (byte ∷ bytes)) }
    ensures truncated { (profile : Profile) (block_size : ℕ) (form : ContentsForm) (w : FileWriter) (size : ℕ) → IsWriterForm profile block_size form w → IsWriterForm profile block_size (truncated_form (inline_limit profile block_size) size form) (truncated_writer w size) }
    ensures synced { (profile : Profile) (block_size : ℕ) (form : ContentsForm) (w : FileWriter) → IsWriterForm profile block_size form w → IsWriterForm profile block_size (synced_form form) (synced_writer w) }
{}

/// Proves that a session reserves enough blocks for each call of a writer.
pub fn lemma_reserve_suffices()
    ensures covers { (profile : Profile) (block_size : ℕ) (form : ContentsForm) (w : FileWriter) → IsWriterForm profile block_size form w → form_in_flight block_size form ≤ reserved_for_writer profile block_size w - 2 }
    ensures large { (profile : Profile) (block_size : ℕ) (form : ContentsForm) (w : FileWriter) → IsWriterForm profile block_size form w → FormFitsLimit (inline_limit profile block_size) form }
    ensures write { (profile : Profile) (block_size : ℕ) (form : ContentsForm) (w : FileWriter) (byte : ℕ) (bytes : List ℕ) (used all : ℕ) → IsWriterForm profile block_size form w → used + reserved_for_writer profile block_size (writer_after_write w (byte ∷ bytes)) ≤ all
        → inline_limit profile block_size < max (form_size form) (write_position w + length (byte ∷ bytes)) → used + write_room block_size (write_position w) (length (byte ∷ bytes)) form ≤ all }
    ensures truncate { (profile : Profile) (block_size : ℕ) (form : ContentsForm) (w : FileWriter) (size used all : ℕ) → IsWriterForm profile block_size form w → used + reserved_for_writer profile block_size w ≤ all → used + reserved_for_writer profile block_size (truncated_writer w size) ≤ all
        → NeedsTruncateRoom (inline_limit profile block_size) size form → used + truncation_room block_size size form ≤ all }
    ensures end { (profile : Profile) (block_size : ℕ) (form : ContentsForm) (w : FileWriter) (used all : ℕ) → IsWriterForm profile block_size form w → used + reserved_for_writer profile block_size w ≤ all → used + finish_room block_size form ≤ all }
{}

/// Proves that settling a list turns a map of the old image's used blocks into a map of the new
/// image's used blocks. The blocks that are only in the old list become free, and the blocks of the
/// new list become used.
pub fn lemma_settled_map()
    ensures { (sets later : BlockStates) (owned used before now gone come : List ℕ) → AreUsed sets owned → ((b : ℕ) → occurrence_count b owned ≤ 1) → ((b : ℕ) → occurrence_count b owned + occurrence_count b come ≡ occurrence_count b used + occurrence_count b gone)
        → ((b : ℕ) → occurrence_count b now + occurrence_count b gone ≡ occurrence_count b come + occurrence_count b before) → ((b : ℕ) → Contains now b → Contains used b) → SettlesList sets later before now → AreUsed later used }
{}
