// Renames by path, in an image that has nothing to recover.

ghost use Rattle.std.specs.Prelude.{ℕ, ◌≡◌, false, true, List, IfOk, IfSome, IsSome, OnOk};
ghost use Rattle.lfs_model.specs.format.Slots.{zero_gstate};
ghost use Rattle.lfs_model.specs.format.Thread.{pairs_gstate};
ghost use Rattle.lfs_model.specs.session.Refusals.{path_or_root};
ghost use Rattle.lfs_model.specs.session.TreeEdits.{tree_renaming, same_path};
ghost use Rattle.lfs_model.specs.tree.Tree.{Path};
ghost use Rattle.lfs_model.specs.tree.Shown.{disk_tree};
ghost use Rattle.lfs_lookup.specs.LookupReading.{ReadsOrReports};
ghost use Rattle.lfs_operations.specs.MovingSteps.{WritesThreadAndFree};
ghost use Rattle.lfs_tree.specs.Permissions.{CanRenamePath};
ghost use Rattle.lfs_tree.specs.TreeCalls as call;
ghost use Rattle.lfs_tree.specs.TreeCalls.{AppliesCallOrFails};
ghost use Rattle.lfs_tree.specs.TreeChanges.{CanChangeRecovered, AppliesOrFails, PowerLossLeavesEither};
ghost use Rattle.lfs_tree.specs.SlotChanges.{is_entry_found};
ghost use Rattle.lfs_tree.specs.RootedThreads.{uncached_state};
ghost use Rattle.lfs_tree.specs.MovedEntries.{CanMoveOntoDirectory, CanMoveOntoFile, CanMoveOntoFound, CanMoveEntryTo, HasMovedEntry, HasMovedReplacingFile, IsFoundSource, WorksOrReportsIo};
ghost use Rattle.lfs_tree.specs.RenameLookup.{AreRenameResults};
ghost use Rattle.lfs_tree.specs.TreeState.{kept_thread};

use crate::answers::fail_on_error;
use crate::entries_at::{last_name_of, lemma_block_facts};
use crate::removals_at::free_file_blocks;
use crate::rename_paths::{RenameTargets, targets_or_lookup};
use crate::tree::Tree;
use lfs_device::{BlockDevice, Error};
use lfs_lookup::{FileStorage, Path, PathLookup, SlotPosition};
use lfs_operations::{
    EmptyDirectory, PairPlace, Route, rename, rename_across, rename_onto_directory,
    replace_across_pairs,
};
use lfs_thread::Thread;
use std::alloc::Global;

// The slot of an entry, and the index of the first pair of its parent directory.
#[derive(Clone, Copy, Drop)]
pub(crate) struct RenameSource {
    pub(crate) slot: SlotPosition,
    pub(crate) first: usize,
}

// The entry to be renamed, the result of looking up its new path, and the last name of that path.
#[derive(Drop)]
struct RenamePlan<'a> {
    source: RenameSource,
    target: PathLookup,
    name: &'a [u8],
}

// Returns the slot of an entry that a look-up found, and the first pair of its parent directory.
fn found_rename_source(found: PathLookup) -> RenameSource
    requires { is_entry_found found ≡ true }
    ensures { IsFoundSource found result }
{
    match found {
        PathLookup::Directory { parent, slot, .. } | PathLookup::File { parent, slot, .. } =>
            RenameSource {
                slot,
                first: parent,
            },
        _ => unreachable!(),
    }
}

// Moves an entry to a slot in its own pair or in another one. If `replaces` is set, removes the
// file in that slot, but doesn't free the file's list in the block map.
fn move_entry<D: BlockDevice>(
    alloc: Global,
    thread: &mut Thread<D>,
    source: RenameSource,
    place: SlotPosition,
    replaces: bool,
    name: &[u8],
) -> Result<(), Error>
    requires works { thread.old.failed ≡ false }
    requires can { (from to : Path) × CanMoveEntryTo replaces thread.old.kept from to source place name.now }
    ensures moved { OnOk result ((from to : Path) (can : CanMoveEntryTo replaces thread.old.kept from to source place name.now) → HasMovedReplacingFile thread.old.kept from to can.gone thread.new.kept) }
    ensures errors { WorksOrReportsIo thread.old thread.new result }
    ensures device { WritesThreadAndFree thread.old.kept thread.new.kept }
    ensures survives { (from to : Path) → CanMoveEntryTo replaces thread.old.kept from to source place name.now → PowerLossLeavesEither thread.old.kept thread.new.kept (tree_renaming from to (disk_tree thread.old.kept.disk thread.old.kept.pairs)) }
{
    let from = source.slot;
    if from.pair == place.pair {
        let to = PairPlace {
            id: place.id,
            replaces,
        };
        rename(alloc, thread, from.pair, from.id, to, name)
    } else {
        let route = Route {
            old_pair: from.pair,
            old_id: from.id,
            first: source.first,
            new_pair: place.pair,
            new_id: place.id,
        };
        rename_across(alloc, thread, route, replaces, name)
    }
}

// Moves an entry to the slot of a file, and removes the file.
fn move_onto_file<D: BlockDevice>(
    alloc: Global,
    thread: &mut Thread<D>,
    source: RenameSource,
    slot: SlotPosition,
    contents: FileStorage,
    name: &[u8],
) -> Result<(), Error>
    requires works { thread.old.failed ≡ false }
    requires can { (from to : Path) × CanMoveOntoFile thread.old.kept from to source slot contents name.now }
    ensures shifted { OnOk result ((from to : Path) → CanMoveOntoFile thread.old.kept from to source slot contents name.now → HasMovedEntry thread.old.kept from to thread.new.kept) }
    ensures errors { WorksOrReportsIo thread.old thread.new result }
    ensures device { WritesThreadAndFree thread.old.kept thread.new.kept }
    ensures survives { (from to : Path) → CanMoveOntoFile thread.old.kept from to source slot contents name.now → PowerLossLeavesEither thread.old.kept thread.new.kept (tree_renaming from to (disk_tree thread.old.kept.disk thread.old.kept.pairs)) }
{
    move_entry(alloc, thread, source, slot, true, name)?;
    free_file_blocks(thread, contents)
}

// Moves an entry to the slot of an empty directory, and removes the directory, whose own pair has
// the index `gone`.
fn move_onto_directory<D: BlockDevice>(
    alloc: Global,
    thread: &mut Thread<D>,
    source: RenameSource,
    slot: SlotPosition,
    gone: usize,
    name: &[u8],
) -> Result<(), Error>
    requires works { thread.old.failed ≡ false }
    requires can { (from to : Path) × CanMoveOntoDirectory thread.old.kept from to source slot gone name.now }
    ensures shifted { OnOk result ((from to : Path) → CanMoveOntoDirectory thread.old.kept from to source slot gone name.now → HasMovedEntry thread.old.kept from to thread.new.kept) }
    ensures errors { WorksOrReportsIo thread.old thread.new result }
    ensures device { WritesThreadAndFree thread.old.kept thread.new.kept }
    ensures survives { (from to : Path) → CanMoveOntoDirectory thread.old.kept from to source slot gone name.now → PowerLossLeavesEither thread.old.kept thread.new.kept (tree_renaming from to (disk_tree thread.old.kept.disk thread.old.kept.pairs)) }
{
    let from = source.slot;
    if from.pair == slot.pair {
        let to = EmptyDirectory {
            id: slot.id,
            own_pair: gone,
        };
        rename_onto_directory(alloc, thread, from.pair, from.id, to, name)
    } else {
        let route = Route {
            old_pair: from.pair,
            old_id: from.id,
            first: source.first,
            new_pair: slot.pair,
            new_id: slot.id,
        };
        replace_across_pairs(alloc, thread, route, gone, name)
    }
}

// Finds the entry to be renamed, and the entry at its new path, if any. Looks up the paths unless
// `known` has the results.
fn look_up_move<'a, D: BlockDevice>(
    alloc: Global,
    thread: &mut Thread<D>,
    root: usize,
    from: &Path<'_>,
    to: &Path<'a>,
    known: Option<RenameTargets>,
) -> Result<RenamePlan<'a>, Error>
    requires rests { CanChangeRecovered thread.old root }
    requires can { CanRenamePath (uncached_state thread.old.kept true false) from.now to.now }
    requires apart { same_path from.now to.now ≡ false }
    requires known { IfSome known (AreRenameResults thread.old.kept from.now to.now) }
    ensures can { IfOk result (λ found. CanMoveOntoFound thread.new.kept from.now to.now found.source found.target found.name.now) }
    ensures paths { OnOk result ((given to_given : List ℕ) × (path_or_root given ≡ from.now) × (path_or_root to_given ≡ to.now)) }
    ensures reading { ReadsOrReports thread.old thread.new result }
{
    from.lemma_path_bytes();
    to.lemma_path_bytes();
    to.lemma_valid_names();
    lemma_block_facts(thread);
    let names = to.names(alloc)?;
    let targets = targets_or_lookup(alloc, thread, root, from, to, known)?;
    let source = found_rename_source(targets.entry);
    Ok(RenamePlan {
        source,
        target: targets.target,
        name: last_name_of(&names),
    })
}

// Renames an entry. The new path has no entry, a file, or an empty directory. Looks up the paths
// unless `known` has the results.
//
// Errors: `Io` if a device call fails, or `NoMemory` if memory can't be allocated.
pub(crate) fn rename_at<D: BlockDevice>(
    alloc: Global,
    thread: &mut Thread<D>,
    root: usize,
    from: &Path<'_>,
    to: &Path<'_>,
    known: Option<RenameTargets>,
) -> Result<(), Error>
    requires rests { CanChangeRecovered thread.old root }
    requires can { CanRenamePath (uncached_state thread.old.kept true false) from.now to.now }
    requires apart { same_path from.now to.now ≡ false }
    requires known { IfSome known (AreRenameResults thread.old.kept from.now to.now) }
    ensures { AppliesOrFails thread.old (call.Rename from.now to.now) result thread.new }
{
    let found = look_up_move(alloc, thread, root, from, to, known)?;
    match found.target {
        PathLookup::Nothing { place, .. } => {
            move_entry(alloc, thread, found.source, place, false, found.name)
        }
        PathLookup::File { slot, contents, .. } => {
            move_onto_file(alloc, thread, found.source, slot, contents, found.name)
        }
        PathLookup::Directory { slot, first, .. } => {
            move_onto_directory(alloc, thread, found.source, slot, first, found.name)
        }
        _ => unreachable!(),
    }
}

impl<D: BlockDevice> Tree<D> {
    /// Renames or moves an entry, and replaces a file or an empty directory at the new path. A
    /// directory moves with all entries beneath it.
    ///
    /// `known` is the result of calling [`look_up_rename`](Tree::look_up_rename) immediately before
    /// this call. If something is left to recover, `known` is None, and this call recovers first
    /// and looks up the paths again.
    ///
    /// Errors: `Io` if a device call fails, or `NoMemory` if memory can't be allocated. After an
    /// error the tree has failed.
    pub fn rename(
        &mut self,
        alloc: Global,
        from: &Path<'_>,
        to: &Path<'_>,
        known: Option<RenameTargets>,
    ) -> Result<(), Error>
        requires can { CanRenamePath self.old from.now to.now }
        requires apart { same_path from.now to.now ≡ false }
        requires known { IfSome known (AreRenameResults (kept_thread self.old) from.now to.now) }
        requires looked_up { pairs_gstate self.old.pairs ≡ zero_gstate → IsSome known }
        ensures { AppliesCallOrFails self.old (call.Rename from.now to.now) result self.new }
    {
        let plan = self.plan_and_recover(alloc, 2)?;
        let renamed = rename_at(alloc, &mut self.thread, self.root, from, to, known);
        fail_on_error(&mut self.thread, &renamed);
        self.relocate(alloc, plan, renamed)
    }
}
