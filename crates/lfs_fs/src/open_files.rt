// How changes of the tree affect open files.

ghost use Rattle.std.specs.Prelude.{◌≤◌};
ghost use Rattle.lfs_model.specs.layers.BlockSets.{in_flight_count};
ghost use Rattle.lfs_model.specs.session.Operations.{Operation};
ghost use Rattle.lfs_model.specs.session.Session.{reserved_for_writers};
ghost use Rattle.lfs_tree.specs.TreeState.{IsOperationApplied, TreeState};
ghost use Rattle.lfs_fs.specs.FileView.{RuntimeFiles, files_view, writers_among};
ghost use Rattle.lfs_fs.specs.SessionView.{IsReady};
ghost use Rattle.lfs_fs.specs.OpenFilesStay.{OpenFilesStayReady, KeepsWriterFiles, AffectsNoOpenFile};

use lfs_file::lemma_reserve_suffices;
use lfs_tree::{lemma_contents_stay, lemma_few_blocks};

// Proves that at most as many blocks are allocated without a commit as the session reserves. Also
// proves that an operation on other entries doesn't change the contents of a writer.
pub(crate) fn lemma_files_stay()
    ensures few { (t : TreeState) (files : RuntimeFiles) → IsReady t files → in_flight_count t.map ≤ reserved_for_writers t.disk.profile t.disk.block_size (files_view t files) }
    ensures stay { (old new : TreeState) (op : Operation) (files : RuntimeFiles) → IsReady old files → AffectsNoOpenFile old op files → KeepsWriterFiles old new (writers_among files) → IsOperationApplied old op new → OpenFilesStayReady old new files }
{
    lemma_contents_stay();
    lemma_few_blocks();
    lemma_reserve_suffices();
}
