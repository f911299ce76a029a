// Renames over an empty directory whose entry is in the same pair.

ghost use Rattle.std.specs.Prelude.{◌≡◌, ◌-◌, ◌∷◌, IfOk, OnOk, false};
ghost use Rattle.lfs_model.specs.layers.Changes.{Delete, PutMove};
ghost use Rattle.lfs_model.specs.crash.PowerLoss.{SurvivesLossSince};
ghost use Rattle.lfs_model.specs.tree.Shown.{disk_tree};
ghost use Rattle.lfs_tag.specs.FieldsView.{move_view};
ghost use Rattle.lfs_pair.specs.ChangeView.{changes_view};
ghost use Rattle.lfs_thread.specs.ThreadSteps.{ChangesThreadBlocks, thread_pair};
ghost use Rattle.lfs_operations.specs.Altering.{WritesChangedPairsOrFree};
ghost use Rattle.lfs_operations.specs.Renaming.{id_after_removal, tree_with_entry_renamed};
ghost use Rattle.lfs_operations.specs.RenamingOver.{CanRenameOverDirectory, CanReplaceDirectory, IsRenamedOverDirectory, IsDirectoryReplaced, ReportsReadCommit, ReportsReadCommits};
ghost use Rattle.lfs_operations.specs.RenamingView.{slot_copy_view};
ghost use Rattle.lfs_model.specs.layers.SlotChanges.{slot_creation_changes};
ghost use Rattle.lfs_model.specs.format.Thread.{address_blocks, addresses_blocks};

use crate::changes::commit_without_split;
use crate::directory_removals::sync_flip_delta;
use crate::drops::drop_pair_at;
use crate::renames::id_after_removed;
use crate::slot_copies::{SlotCopy, copy_pair_slot, push_slot_changes};
use lfs_device::{BlockDevice, Error};
use lfs_pair::Change;
use lfs_tag::MoveState;
use lfs_thread::{Thread, gstate_xor_delta};
use std::alloc::{AllocError, Global};

// Returns the changes that set a gstate delta, delete the slots with the ids `id` and `place`, and
// put a copy of the slot `id` in place of the slot `place`.
fn changes_replacing_directory<'a>(
    alloc: Global,
    state: MoveState,
    id: u16,
    place: u16,
    name: &'a [u8],
    copy: &'a SlotCopy,
) -> Result<Vec<Change<'a>>, AllocError>
    ensures { IfOk result (λ changes. changes_view changes.items ≡ PutMove (move_view state) ∷ Delete id ∷ Delete (id_after_removal id place) ∷ slot_creation_changes (id_after_removal id place) name.now (slot_copy_view copy.now)) }
{
    let place = id_after_removed(id, place);
    let mut changes = Vec::new(alloc);
    changes.push(Change::Move { state })?;
    changes.push(Change::Delete { id })?;
    changes.push(Change::Delete { id: place })?;
    push_slot_changes(&mut changes, place, name, copy)?;
    Ok(changes)
}

// Renames the entry with id `id` over a directory whose entry has id `place` in the same pair. Both
// entries must have the same parent. The replaced directory's own pair remains in the thread as an
// orphan, so the commit sets the sync bit (DESIGN.md of littlefs, "The move problem").
//
// Errors: `Io` if a call of the device fails. `NoMemory`, with nothing written, if memory can't be
// allocated for the pair's slots, a copy of the entry and the pair's block. After either error, the
// thread has failed, unless the error occurred while the entry was read and copied.
pub(crate) fn rename_over_directory<D: BlockDevice>(
    alloc: Global,
    thread: &mut Thread<D>,
    pair: usize,
    id: u16,
    place: u16,
    name: &[u8],
) -> Result<(), Error>
    requires works { thread.old.failed ≡ false }
    requires can { CanReplaceDirectory thread.old.kept pair id place name.now }
    ensures renamed { OnOk result ((rename : CanReplaceDirectory thread.old.kept pair id place name.now) → IsDirectoryReplaced thread.old.kept thread.new.kept pair id place rename.can.path rename.can.name name.now) }
    ensures errors { ReportsReadCommit thread.old thread.new result }
    ensures device { ChangesThreadBlocks (address_blocks (thread_pair thread.old.kept pair).at) thread.old.kept thread.new.kept }
    ensures survives { (rename : CanReplaceDirectory thread.old.kept pair id place name.now) → SurvivesLossSince thread.old.kept.disk thread.old.kept.history thread.new.kept.history
        (disk_tree thread.old.kept.disk thread.old.kept.pairs) (tree_with_entry_renamed thread.old.kept rename.can.path rename.can.name name.now) }
{
    let copy = copy_pair_slot(alloc, thread, pair, id)?;
    let state = gstate_xor_delta(&thread.delta(pair), &sync_flip_delta());
    let changes = changes_replacing_directory(alloc, state, id, place, name, &copy)?;
    // One slot replaces two: it has the name of one and the other contents of the other, so this
    // commit never needs a split.
    commit_without_split(alloc, thread, pair, &changes)
}

/// An empty directory whose entry is in a given pair.
#[derive(Clone, Copy)]
pub struct EmptyDirectory {
    /// The id of the directory's entry.
    pub id: u16,
    /// The index in the thread of the directory's own pair.
    pub own_pair: usize,
}

/// Renames the entry with id `id` over an empty directory whose entry is in the same pair and has
/// the same parent. The renamed entry gets the directory's name, and keeps its struct and
/// attributes. The first commit also sets the sync bit. The second commit drops the replaced
/// directory's own pair, which has become an orphan, and clears the sync bit (DESIGN.md of
/// littlefs, "The move problem").
///
/// Errors: `Io` if a call of the device fails. `NoMemory` if memory can't be allocated for a pair's
/// slots, a copy of the entry and a pair's block. After either error, the thread has failed, unless
/// the error occurred while the entry was read and copied. After an error, the device may have only
/// the first of the two commits, and then already has the new tree.
pub fn rename_onto_directory<D: BlockDevice>(
    alloc: Global,
    thread: &mut Thread<D>,
    pair: usize,
    id: u16,
    to: EmptyDirectory,
    name: &[u8],
) -> Result<(), Error>
    requires works { thread.old.failed ≡ false }
    requires can { CanRenameOverDirectory thread.old.kept pair id to.id name.now to.own_pair }
    ensures renamed { OnOk result ((rename : CanRenameOverDirectory thread.old.kept pair id to.id name.now to.own_pair)
        → IsRenamedOverDirectory thread.old.kept thread.new.kept rename.over.can.path rename.over.can.name name.now) }
    ensures alters { OnOk result (WritesChangedPairsOrFree thread.old.kept (address_blocks (thread_pair thread.old.kept pair).at) thread.new.kept) }
    ensures errors { ReportsReadCommits thread.old thread.new result }
    ensures device { ChangesThreadBlocks (addresses_blocks (thread_pair thread.old.kept pair).at (thread_pair thread.old.kept (to.own_pair - 1)).at) thread.old.kept thread.new.kept }
    ensures survives { (rename : CanRenameOverDirectory thread.old.kept pair id to.id name.now to.own_pair) → SurvivesLossSince thread.old.kept.disk thread.old.kept.history thread.new.kept.history
        (disk_tree thread.old.kept.disk thread.old.kept.pairs) (tree_with_entry_renamed thread.old.kept rename.over.can.path rename.over.can.name name.now) }
{
    rename_over_directory(alloc, thread, pair, id, to.id, name)?;
    drop_pair_at(alloc, thread, to.own_pair, &MoveState::none())
}
