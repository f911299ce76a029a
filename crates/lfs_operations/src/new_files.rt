// Creation of empty files.

ghost use Rattle.std.specs.Prelude.{◌≡◌, ◌≤◌, ◌+◌, false, OnOk};
ghost use Rattle.lfs_model.specs.session.History.{read_count};
ghost use Rattle.lfs_model.specs.crash.PowerLoss.{SurvivesLossSince};
ghost use Rattle.lfs_model.specs.tree.Shown.{disk_tree};
ghost use Rattle.lfs_operations.specs.Changing.{IsPairChangedOrDropped, ReportsCommitOrSplit, WritesPairAndTwoFree};
ghost use Rattle.lfs_operations.specs.Creating.{CanCreateIn, IsFileCreated, creation_changes, tree_with_file};

use crate::changes::commit_or_split;
use lfs_device::{BlockDevice, Error};
use lfs_pair::Change;
use lfs_tag::kinds::{FILE_NAME, INLINE_STRUCT};
use lfs_thread::Thread;
use std::alloc::Global;

/// Creates an empty file, as a slot with id `id` and an inline struct of no bytes in the pair with
/// index `pair`. Requires that the new name belongs at id `id` in the order of names. If the slot
/// doesn't fit, splits the pair, which allocates two free blocks (DESIGN.md of littlefs, "Metadata
/// pairs"). Makes at most six reads.
///
/// Errors: `NoSpace`, with nothing changed, if the pair must be split and fewer than two blocks are
/// free. `Io` if a call of the device fails. `NoMemory`, with nothing written, if memory for the
/// pair's slots and its block can't be allocated. After `Io` and `NoMemory`, the thread has failed.
pub fn create_file<D: BlockDevice>(
    alloc: Global,
    thread: &mut Thread<D>,
    pair: usize,
    id: u16,
    name: &[u8],
) -> Result<(), Error>
    requires works { thread.old.failed ≡ false }
    requires can { CanCreateIn thread.old.kept pair id name.now }
    ensures created { OnOk result ((can : CanCreateIn thread.old.kept pair id name.now) → IsFileCreated thread.old.kept thread.new.kept can.path name.now) }
    ensures alters { OnOk result (IsPairChangedOrDropped thread.old.kept pair thread.new.kept) }
    ensures errors { ReportsCommitOrSplit thread.old thread.new pair (creation_changes id name.now) result }
    ensures device { WritesPairAndTwoFree thread.old.kept pair thread.new.kept }
    ensures few { read_count thread.new.kept.history ≤ read_count thread.old.kept.history + 6 }
    ensures survives { (can : CanCreateIn thread.old.kept pair id name.now) → SurvivesLossSince thread.old.kept.disk thread.old.kept.history thread.new.kept.history
        (disk_tree thread.old.kept.disk thread.old.kept.pairs) (tree_with_file thread.old.kept can.path name.now) }
{
    let changes = [
        Change::Create {
            id,
            kind: FILE_NAME,
            name,
        },
        Change::Struct {
            id,
            kind: INLINE_STRUCT,
            bytes: &[],
        },
    ];
    commit_or_split(alloc, thread, pair, &changes)
}
