// Renames within a pair.

ghost use Rattle.std.specs.Prelude.{◌≡◌, ◌∷◌, ◌++◌, IfOk, OnOk, false};
ghost use Rattle.lfs_model.specs.layers.Changes.{Delete};
ghost use Rattle.lfs_model.specs.crash.PowerLoss.{SurvivesLossSince};
ghost use Rattle.lfs_model.specs.tree.Shown.{disk_tree};
ghost use Rattle.lfs_pair.specs.ChangeView.{changes_view};
ghost use Rattle.lfs_operations.specs.Changing.{WritesPairAndTwoFree};
ghost use Rattle.lfs_operations.specs.MovingAcross.{removal_changes};
ghost use Rattle.lfs_operations.specs.Renaming.{CanRenameInPair, IsRenamedInPair, ReportsReadCommitOrSplit, id_after_removal, renaming_changes, tree_with_entry_renamed};
ghost use Rattle.lfs_operations.specs.RenamingView.{slot_copy_view};
ghost use Rattle.lfs_model.specs.layers.SlotChanges.{slot_creation_changes};

use crate::changes::commit_or_split;
use crate::moves::push_slot_removal;
use crate::slot_copies::{SlotCopy, copy_pair_slot, push_slot_changes};
use lfs_device::{BlockDevice, Error};
use lfs_pair::Change;
use lfs_thread::Thread;
use std::alloc::{AllocError, Global};

// Returns what the id `place` becomes when the slot with id `id` is deleted.
pub(crate) fn id_after_removed(id: u16, place: u16) -> u16
    ensures { result ≡ id_after_removal id place }
{
    if id < place { place - 1 } else { place }
}

// Returns the changes that delete the slot with an id, and create its copy at another id.
fn renaming_changes<'a>(
    alloc: Global,
    id: u16,
    to: PairPlace,
    name: &'a [u8],
    copy: &'a SlotCopy,
) -> Result<Vec<Change<'a>>, AllocError>
    ensures { IfOk result (λ changes. changes_view changes.items ≡ Delete id ∷ (removal_changes to.replaces (id_after_removal id to.id) ++ slot_creation_changes (id_after_removal id to.id) name.now (slot_copy_view copy.now))) }
{
    let place = id_after_removed(id, to.id);
    let mut changes = Vec::new(alloc);
    changes.push(Change::Delete { id })?;
    push_slot_removal(&mut changes, to.replaces, place)?;
    push_slot_changes(&mut changes, place, name, copy)?;
    Ok(changes)
}

/// The target of a rename within a pair.
#[derive(Clone, Copy)]
pub struct PairPlace {
    /// The new id, counted while the old slot still exists.
    pub id: u16,
    /// Whether the renamed entry replaces the slot with the new id.
    pub replaces: bool,
}

/// Renames the entry with id `id` to a name that belongs in the same pair, or over a file in the
/// same pair. The entry keeps its struct and its attributes. One commit deletes the entry's slot
/// and that of a replaced file, and creates a copy of the entry under the new name (DESIGN.md of
/// littlefs, "The move problem"). If the copy doesn't fit, splits the pair, which allocates two
/// free blocks. The blocks of a replaced file's list stay used in the map until the caller frees
/// them.
///
/// Errors: `NoSpace`, with nothing changed, if the pair must be split and fewer than two blocks are
/// free. `Io` if a call of the device fails. `NoMemory`, with nothing written, if memory can't be
/// allocated for the pair's slots, a copy of the entry and the pair's block. After `Io` and
/// `NoMemory`, the thread has failed, unless the error occurred while the entry was read and
/// copied.
pub fn rename<D: BlockDevice>(
    alloc: Global,
    thread: &mut Thread<D>,
    pair: usize,
    id: u16,
    to: PairPlace,
    name: &[u8],
) -> Result<(), Error>
    requires works { thread.old.failed ≡ false }
    requires can { CanRenameInPair to.replaces thread.old.kept pair id to.id name.now }
    ensures renamed { OnOk result ((rename : CanRenameInPair to.replaces thread.old.kept pair id to.id name.now) → IsRenamedInPair thread.old.kept thread.new.kept rename.can.path rename.can.name name.now rename.gone) }
    ensures errors { ReportsReadCommitOrSplit thread.old thread.new pair (renaming_changes to.replaces thread.old.kept pair id to.id name.now) result }
    ensures device { WritesPairAndTwoFree thread.old.kept pair thread.new.kept }
    ensures survives { (rename : CanRenameInPair to.replaces thread.old.kept pair id to.id name.now) → SurvivesLossSince thread.old.kept.disk thread.old.kept.history thread.new.kept.history
        (disk_tree thread.old.kept.disk thread.old.kept.pairs) (tree_with_entry_renamed thread.old.kept rename.can.path rename.can.name name.now) }
{
    let copy = copy_pair_slot(alloc, thread, pair, id)?;
    let changes = renaming_changes(alloc, id, to, name, &copy)?;
    commit_or_split(alloc, thread, pair, &changes)
}
