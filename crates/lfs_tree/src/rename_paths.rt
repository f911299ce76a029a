// The look-ups of a rename's two paths before anything is written.

ghost use Rattle.std.specs.Prelude.{◌≡◌, ◌≤◌, ◌+◌, ◌++◌, true, false, IfOk, IfSome, IsSome, sum_by};
ghost use Rattle.lfs_model.specs.crash.Frame.{directory_pair_count, ancestor_paths};
ghost use Rattle.lfs_model.specs.session.History.{read_count};
ghost use Rattle.lfs_model.specs.tree.Shown.{disk_tree};
ghost use Rattle.lfs_model.specs.format.Slots.{zero_gstate};
ghost use Rattle.lfs_model.specs.format.Thread.{pairs_gstate};
ghost use Rattle.lfs_lookup.specs.Finds.{IsFoundNode, has_entry_beneath};
ghost use Rattle.lfs_lookup.specs.LookupPaths.{IsResultOfPath};
ghost use Rattle.lfs_lookup.specs.LookupReading.{ReadsOrReports};
ghost use Rattle.lfs_tree.specs.TreeChanges.{CanChangeRecovered};
ghost use Rattle.lfs_tree.specs.RootedThreads.{IsSoundWithRoot};
ghost use Rattle.lfs_tree.specs.RenameLookup.{AreRenameResults, AreRenameFindings, rename_parents, lookup_without_parent};
ghost use Rattle.lfs_tree.specs.TreeState.{ReadsTreeOrFails, kept_thread, visible_tree};

use crate::answers::fail_on_error;
use crate::entries_at::find_at_path;
use crate::tree::Tree;
use lfs_device::{BlockDevice, Error};
use lfs_lookup::{
    FoundNode, NodeAndEmptiness, Path, PathLookup, VisiblePathLookup, attributes_size_at,
    find_node, found_directory_index, has_entries, node_of_lookup, path_has_entries,
};
use lfs_thread::Thread;
use std::alloc::Global;

/// The results of looking up the two paths of a rename in an image that has nothing to recover. If
/// [`rename`](Tree::rename) receives these results, it needs no look-ups of its own.
#[derive(Clone, Copy, Drop)]
pub struct RenameTargets {
    pub(crate) entry: PathLookup,
    pub(crate) target: PathLookup,
}

/// The results of looking up the two paths of a rename.
#[derive(Drop)]
pub struct RenameLookup {
    /// The entry at the old path, if there is one.
    pub entry: FoundNode,
    /// The entry at the new path, if there is one, and whether it is a directory that has entries.
    pub target: NodeAndEmptiness,
    /// The size in bytes of all attributes of the entry at the old path, each with its 4-byte tag.
    pub attributes_size: usize,
    /// The results to pass to [`rename`](Tree::rename), or None if the image must be recovered
    /// first.
    pub targets: Option<RenameTargets>,
}

// Returns the result of a look-up without the parent directory and the slot of a missing name.
pub(crate) fn to_visible_lookup(found: PathLookup) -> VisiblePathLookup
    ensures { result ≡ lookup_without_parent found }
{
    match found {
        PathLookup::Root => VisiblePathLookup::Root,
        PathLookup::Directory { slot, first, .. } => VisiblePathLookup::Directory { slot, first },
        PathLookup::File { slot, contents, .. } => VisiblePathLookup::File { slot, contents },
        PathLookup::Nothing { .. } => VisiblePathLookup::Nothing,
        PathLookup::ParentIsFile => VisiblePathLookup::ParentIsFile,
        PathLookup::ParentIsMissing => VisiblePathLookup::ParentIsMissing,
    }
}

// Looks up the two paths of a rename.
fn find_rename_targets<D: BlockDevice>(
    alloc: Global,
    thread: &mut Thread<D>,
    root: usize,
    from: &Path<'_>,
    to: &Path<'_>,
) -> Result<RenameTargets, Error>
    requires { CanChangeRecovered thread.old root }
    ensures targets { IfOk result (AreRenameResults thread.old.kept from.now to.now) }
    ensures few { read_count thread.new.kept.history ≤ read_count thread.old.kept.history + sum_by (directory_pair_count thread.old.kept.pairs) (ancestor_paths from.now ++ ancestor_paths to.now) }
    ensures reading { ReadsOrReports thread.old thread.new result }
{
    let entry = find_at_path(alloc, thread, root, from)?;
    let target = find_at_path(alloc, thread, root, to)?;
    Ok(RenameTargets {
        entry: entry.found,
        target: target.found,
    })
}

// Returns the results of looking up the two paths of a rename. Looks up the paths unless `known`
// has the results.
pub(crate) fn targets_or_lookup<D: BlockDevice>(
    alloc: Global,
    thread: &mut Thread<D>,
    root: usize,
    from: &Path<'_>,
    to: &Path<'_>,
    known: Option<RenameTargets>,
) -> Result<RenameTargets, Error>
    requires rests { CanChangeRecovered thread.old root }
    requires known { IfSome known (AreRenameResults thread.old.kept from.now to.now) }
    ensures targets { IfOk result (AreRenameResults thread.old.kept from.now to.now) }
    ensures reading { ReadsOrReports thread.old thread.new result }
{
    match known {
        Some(targets) => Ok(targets),
        None => find_rename_targets(alloc, thread, root, from, to),
    }
}

// Returns the node that a look-up found, and whether it is a directory that has entries.
fn node_and_emptiness<D: BlockDevice>(
    alloc: Global,
    thread: &mut Thread<D>,
    root: usize,
    _path: &Path<'_>,
    found: PathLookup,
) -> Result<NodeAndEmptiness, Error>
    requires rests { CanChangeRecovered thread.old root }
    requires leads { IsResultOfPath thread.old.kept _path.now found }
    ensures found { IfOk result (λ inside. IsFoundNode (disk_tree thread.old.kept.disk thread.old.kept.pairs) _path.now inside.finding) }
    ensures has { IfOk result (λ inside. inside.has_entries ≡ has_entry_beneath (disk_tree thread.old.kept.disk thread.old.kept.pairs) _path.now) }
    ensures few { read_count thread.new.kept.history ≤ read_count thread.old.kept.history + directory_pair_count thread.old.kept.pairs _path.now }
    ensures reading { ReadsOrReports thread.old thread.new result }
{
    let shown = to_visible_lookup(found);
    let has_entries = has_entries(alloc, thread, found_directory_index(root, shown))?;
    // A proof needs the device's block size to see that a list has as many bytes as its entry says.
    let _device = thread.device();
    Ok(NodeAndEmptiness {
        finding: node_of_lookup(shown),
        has_entries,
    })
}

// Looks up the two paths of a rename in an image that has nothing to recover.
fn rename_lookup_recovered<D: BlockDevice>(
    alloc: Global,
    thread: &mut Thread<D>,
    root: usize,
    from: &Path<'_>,
    to: &Path<'_>,
) -> Result<RenameLookup, Error>
    requires { CanChangeRecovered thread.old root }
    ensures found { IfOk result (AreRenameFindings (disk_tree thread.old.kept.disk thread.old.kept.pairs) from.now to.now) }
    ensures targets { IfOk result (λ found. IfSome found.targets (AreRenameResults thread.old.kept from.now to.now)) }
    ensures handed_on { IfOk result (λ found. IsSome found.targets) }
    ensures few { read_count thread.new.kept.history ≤ read_count thread.old.kept.history + sum_by (directory_pair_count thread.old.kept.pairs) (rename_parents from.now to.now) }
    ensures reading { ReadsOrReports thread.old thread.new result }
{
    let targets = find_rename_targets(alloc, thread, root, from, to)?;
    let attributes_size = attributes_size_at(alloc, thread, root, from)?;
    let target = node_and_emptiness(alloc, thread, root, to, targets.target)?;
    // A proof needs the device's block size to see that a list has as many bytes as its entry says.
    let _device = thread.device();
    Ok(RenameLookup {
        entry: node_of_lookup(to_visible_lookup(targets.entry)),
        target,
        attributes_size,
        targets: Some(targets),
    })
}

// Looks up the two paths of a rename in an image that must be recovered first.
fn rename_lookup_unrecovered<D: BlockDevice>(
    alloc: Global,
    thread: &mut Thread<D>,
    root: usize,
    from: &Path<'_>,
    to: &Path<'_>,
) -> Result<RenameLookup, Error>
    requires { IsSoundWithRoot thread.old root true }
    ensures found { IfOk result (AreRenameFindings (disk_tree thread.old.kept.disk thread.old.kept.pairs) from.now to.now) }
    ensures targets { IfOk result (λ found. IfSome found.targets (AreRenameResults thread.old.kept from.now to.now)) }
    ensures few { read_count thread.new.kept.history ≤ read_count thread.old.kept.history + sum_by (directory_pair_count thread.old.kept.pairs) (rename_parents from.now to.now) }
    ensures reading { ReadsOrReports thread.old thread.new result }
{
    let entry = find_node(alloc, thread, root, from)?;
    let target = path_has_entries(alloc, thread, root, to)?;
    let attributes_size = attributes_size_at(alloc, thread, root, from)?;
    Ok(RenameLookup {
        entry,
        target,
        attributes_size,
        targets: None,
    })
}

// Looks up the two paths of a rename.
fn rename_targets<D: BlockDevice>(
    alloc: Global,
    thread: &mut Thread<D>,
    root: usize,
    from: &Path<'_>,
    to: &Path<'_>,
) -> Result<RenameLookup, Error>
    requires { IsSoundWithRoot thread.old root true }
    ensures found { IfOk result (AreRenameFindings (disk_tree thread.old.kept.disk thread.old.kept.pairs) from.now to.now) }
    ensures targets { IfOk result (λ found. IfSome found.targets (AreRenameResults thread.old.kept from.now to.now)) }
    ensures handed_on { pairs_gstate thread.old.kept.pairs ≡ zero_gstate → IfOk result (λ found. IsSome found.targets) }
    ensures few { read_count thread.new.kept.history ≤ read_count thread.old.kept.history + sum_by (directory_pair_count thread.old.kept.pairs) (rename_parents from.now to.now) }
    ensures reading { ReadsOrReports thread.old thread.new result }
{
    let state = thread.state();
    if state.is_none() {
        rename_lookup_recovered(alloc, thread, root, from, to)
    } else {
        rename_lookup_unrecovered(alloc, thread, root, from, to)
    }
}

impl<D: BlockDevice> Tree<D> {
    /// Looks up the two paths of a rename. If nothing is left to recover, [`rename`](Tree::rename)
    /// needs no look-ups of its own. Makes at most two reads for each metadata pair of the old
    /// path's parent directories. Makes at most one read for each pair of the new path's parent
    /// directories and of the directory at the new path.
    ///
    /// Errors: `Io` if a read fails, or `NoMemory` if memory can't be allocated. After an error the
    /// tree has failed.
    pub fn look_up_rename(
        &mut self,
        alloc: Global,
        from: &Path<'_>,
        to: &Path<'_>,
    ) -> Result<RenameLookup, Error>
        requires works { self.old.failed ≡ false }
        requires writable { self.old.writable ≡ true }
        ensures asks { ReadsTreeOrFails self.old result self.new }
        ensures found { IfOk result (AreRenameFindings (visible_tree self.old) from.now to.now) }
        ensures targets { IfOk result (λ found. IfSome found.targets (AreRenameResults (kept_thread self.new) from.now to.now)) }
        ensures handed_on { pairs_gstate self.old.pairs ≡ zero_gstate → IfOk result (λ found. IsSome found.targets) }
        ensures few { read_count self.new.history ≤ read_count self.old.history + sum_by (directory_pair_count self.old.pairs) (rename_parents from.now to.now) }
    {
        let found = rename_targets(alloc, &mut self.thread, self.root, from, to);
        fail_on_error(&mut self.thread, &found);
        found
    }
}
