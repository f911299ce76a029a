// Proofs that an operation leaves the contents of open files unchanged, and uses few blocks.

ghost use Rattle.std.specs.Prelude.{◌≡◌, ◌≤◌, ◌+◌, false, length, true};
ghost use Rattle.lfs_model.specs.layers.BlockSets.{in_flight_count};
ghost use Rattle.lfs_model.specs.layers.Keeping.{vacates_path};
ghost use Rattle.lfs_model.specs.session.Operations.{Operation};
ghost use Rattle.lfs_model.specs.tree.Tree.{Path};
ghost use Rattle.lfs_tree.specs.KeptFiles.{max_allocated_blocks};
ghost use Rattle.lfs_tree.specs.OpenContents.{AreTreeContents, writer_contents_bytes};
ghost use Rattle.lfs_tree.specs.TreeState.{IsOperationApplied, IsSoundState, TreeState, tree_summary, kept_thread};
ghost use Rattle.lfs_file.specs.Contents.{contents_form};
ghost use Rattle.lfs_file.specs.Form.{form_in_flight};
ghost use Rattle.lfs_file.specs.declared.contents.WriterContents.{WriterContents};

/// Proves that an operation that neither removes nor moves an open file keeps the contents of the
/// file's writer, even if they aren't synced. Also bounds the number of blocks in flight, which are
/// allocated but not yet committed.
pub fn lemma_contents_stay()
    ensures over { (old new : TreeState) (op : Operation) (path : Path) (contents : WriterContents) → AreTreeContents old path contents → IsSoundState old → IsOperationApplied old op new → vacates_path op path ≡ false → AreTreeContents new path contents }
    ensures bytes { (old new : TreeState) (op : Operation) (path : Path) (contents : WriterContents) → AreTreeContents old path contents → IsSoundState old → IsOperationApplied old op new → vacates_path op path ≡ false
        → writer_contents_bytes (kept_thread new) contents ≡ writer_contents_bytes (kept_thread old) contents }
    ensures flying { (t : TreeState) (path : Path) (contents : WriterContents) → AreTreeContents t path contents → in_flight_count t.map ≤ form_in_flight t.disk.block_size (contents_form contents) }
{}

/// Proves that an operation increases the number of used blocks by at most `max_allocated_blocks`.
pub fn lemma_few_blocks()
    ensures { (old new : TreeState) (op : Operation) → IsSoundState old → old.writable ≡ true → IsOperationApplied old op new → length (tree_summary new).used ≤ length (tree_summary old).used + max_allocated_blocks op }
{}
