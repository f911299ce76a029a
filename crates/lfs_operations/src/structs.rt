// Changes of files' structs.

ghost use Rattle.std.specs.Prelude.{◌≡◌, ◌∷◌, [], false, OnOk};
ghost use Rattle.lfs_model.specs.layers.Changes.{PutStruct};
ghost use Rattle.lfs_model.specs.crash.PowerLoss.{SurvivesLossSince};
ghost use Rattle.lfs_model.specs.tree.Shown.{disk_tree};
ghost use Rattle.lfs_operations.specs.Changing.{ReportsCommitOrSplit, WritesPairAndTwoFree};
ghost use Rattle.lfs_operations.specs.Storing.{CanSetStruct, HasStoredContents, tree_with_contents};

use crate::changes::commit_or_split;
use lfs_device::{BlockDevice, Error};
use lfs_pair::Change;
use lfs_thread::Thread;
use std::alloc::Global;

/// Sets the struct of the file with id `id` in the pair with index `pair`. The struct consists of
/// the file's inline bytes, or of the head and the size of a CTZ skip-list that is already on the
/// device (SPEC.md of littlefs, "0x2xx LFS_TYPE_STRUCT"). If the struct doesn't fit, splits the
/// pair, which allocates two free blocks.
///
/// Doesn't update the block map. Blocks of the new list that are in flight stay in flight, and
/// blocks of the old list stay used until the caller updates the map.
///
/// Errors are those of [`create_file`](crate::create_file).
pub fn set_struct<D: BlockDevice>(
    alloc: Global,
    thread: &mut Thread<D>,
    pair: usize,
    id: u16,
    kind: u16,
    bytes: &[u8],
) -> Result<(), Error>
    requires works { thread.old.failed ≡ false }
    requires can { CanSetStruct thread.old.kept pair id kind bytes.now }
    ensures is_stored { OnOk result ((store : CanSetStruct thread.old.kept pair id kind bytes.now)
        → HasStoredContents thread.old.kept thread.new.kept store.can.path store.can.name store.contents store.gone store.come) }
    ensures errors { ReportsCommitOrSplit thread.old thread.new pair (PutStruct id kind bytes.now ∷ []) result }
    ensures device { WritesPairAndTwoFree thread.old.kept pair thread.new.kept }
    ensures survives { (store : CanSetStruct thread.old.kept pair id kind bytes.now) → SurvivesLossSince thread.old.kept.disk thread.old.kept.history thread.new.kept.history
        (disk_tree thread.old.kept.disk thread.old.kept.pairs) (tree_with_contents thread.old.kept store.can.path store.can.name store.contents) }
{
    let changes = [Change::Struct { id, kind, bytes }];
    commit_or_split(alloc, thread, pair, &changes)
}
