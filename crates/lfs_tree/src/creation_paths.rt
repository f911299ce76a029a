// The look-up of a new file's path before anything is written.

ghost use Rattle.std.specs.Prelude.{◌≡◌, ◌≤◌, ◌+◌, true, false, IfOk, IfSome, IsSome, sum_by};
ghost use Rattle.lfs_model.specs.crash.Frame.{directory_pair_count, ancestor_paths};
ghost use Rattle.lfs_model.specs.session.History.{read_count};
ghost use Rattle.lfs_model.specs.tree.Shown.{disk_tree};
ghost use Rattle.lfs_model.specs.format.Slots.{zero_gstate};
ghost use Rattle.lfs_model.specs.format.Thread.{pairs_gstate};
ghost use Rattle.lfs_lookup.specs.Finds.{IsFoundNode};
ghost use Rattle.lfs_lookup.specs.LookupReading.{ReadsOrReports};
ghost use Rattle.lfs_tree.specs.CreationPaths.{IsCreationResult};
ghost use Rattle.lfs_tree.specs.RootedThreads.{IsSoundWithRoot};
ghost use Rattle.lfs_tree.specs.TreeChanges.{CanChangeRecovered};
ghost use Rattle.lfs_tree.specs.TreeState.{ReadsTreeOrFails, kept_thread, visible_tree};

use crate::answers::fail_on_error;
use crate::entries_at::find_at_path;
use crate::rename_paths::to_visible_lookup;
use crate::tree::Tree;
use lfs_device::{BlockDevice, Error};
use lfs_lookup::{FoundNode, Path, PathLookup, find_node, node_of_lookup};
use lfs_thread::Thread;
use std::alloc::Global;

/// The result of looking up the path of a file to be created.
#[derive(Drop)]
pub struct CreationLookup {
    /// The entry at the path, if there is one.
    pub entry: FoundNode,
    /// The result to pass to [`create`](Tree::create), or None if the image must be recovered
    /// first.
    pub target: Option<PathLookup>,
}

// Looks up the path in an image that has nothing to recover.
fn creation_lookup_recovered<D: BlockDevice>(
    alloc: Global,
    thread: &mut Thread<D>,
    root: usize,
    path: &Path<'_>,
) -> Result<CreationLookup, Error>
    requires { CanChangeRecovered thread.old root }
    ensures found { IfOk result (λ found. IsFoundNode (disk_tree thread.old.kept.disk thread.old.kept.pairs) path.now found.entry) }
    ensures target { IfOk result (λ found. IfSome found.target (IsCreationResult thread.old.kept path.now)) }
    ensures handed_on { IfOk result (λ found. IsSome found.target) }
    ensures few { read_count thread.new.kept.history ≤ read_count thread.old.kept.history + sum_by (directory_pair_count thread.old.kept.pairs) (ancestor_paths path.now) }
    ensures reading { ReadsOrReports thread.old thread.new result }
{
    let target = find_at_path(alloc, thread, root, path)?;
    // A proof needs the device's block size to see that a list has as many bytes as its entry says.
    let _device = thread.device();
    Ok(CreationLookup {
        entry: node_of_lookup(to_visible_lookup(target.found)),
        target: Some(target.found),
    })
}

// Looks up the path in an image that must be recovered first.
fn creation_lookup_unrecovered<D: BlockDevice>(
    alloc: Global,
    thread: &mut Thread<D>,
    root: usize,
    path: &Path<'_>,
) -> Result<CreationLookup, Error>
    requires { IsSoundWithRoot thread.old root true }
    ensures found { IfOk result (λ found. IsFoundNode (disk_tree thread.old.kept.disk thread.old.kept.pairs) path.now found.entry) }
    ensures target { IfOk result (λ found. IfSome found.target (IsCreationResult thread.old.kept path.now)) }
    ensures few { read_count thread.new.kept.history ≤ read_count thread.old.kept.history + sum_by (directory_pair_count thread.old.kept.pairs) (ancestor_paths path.now) }
    ensures reading { ReadsOrReports thread.old thread.new result }
{
    let entry = find_node(alloc, thread, root, path)?;
    Ok(CreationLookup {
        entry,
        target: None,
    })
}

// Looks up the path of a file to be created.
fn creation_lookup<D: BlockDevice>(
    alloc: Global,
    thread: &mut Thread<D>,
    root: usize,
    path: &Path<'_>,
) -> Result<CreationLookup, Error>
    requires { IsSoundWithRoot thread.old root true }
    ensures found { IfOk result (λ found. IsFoundNode (disk_tree thread.old.kept.disk thread.old.kept.pairs) path.now found.entry) }
    ensures target { IfOk result (λ found. IfSome found.target (IsCreationResult thread.old.kept path.now)) }
    ensures handed_on { pairs_gstate thread.old.kept.pairs ≡ zero_gstate → IfOk result (λ found. IsSome found.target) }
    ensures few { read_count thread.new.kept.history ≤ read_count thread.old.kept.history + sum_by (directory_pair_count thread.old.kept.pairs) (ancestor_paths path.now) }
    ensures reading { ReadsOrReports thread.old thread.new result }
{
    let state = thread.state();
    if state.is_none() {
        creation_lookup_recovered(alloc, thread, root, path)
    } else {
        creation_lookup_unrecovered(alloc, thread, root, path)
    }
}

impl<D: BlockDevice> Tree<D> {
    /// Looks up the path of a file to be created. If nothing is left to recover,
    /// [`create`](Tree::create) needs no look-up of its own. Makes at most one read for each
    /// metadata pair of the path's parent directories.
    ///
    /// Errors: `Io` if a read fails, or `NoMemory` if memory can't be allocated. After an error the
    /// tree has failed.
    pub fn look_up_creation(
        &mut self,
        alloc: Global,
        path: &Path<'_>,
    ) -> Result<CreationLookup, Error>
        requires works { self.old.failed ≡ false }
        requires writable { self.old.writable ≡ true }
        ensures asks { ReadsTreeOrFails self.old result self.new }
        ensures found { IfOk result (λ found. IsFoundNode (visible_tree self.old) path.now found.entry) }
        ensures target { IfOk result (λ found. IfSome found.target (IsCreationResult (kept_thread self.new) path.now)) }
        ensures handed_on { pairs_gstate self.old.pairs ≡ zero_gstate → IfOk result (λ found. IsSome found.target) }
        ensures few { read_count self.new.history ≤ read_count self.old.history + sum_by (directory_pair_count self.old.pairs) (ancestor_paths path.now) }
    {
        let found = creation_lookup(alloc, &mut self.thread, self.root, path);
        fail_on_error(&mut self.thread, &found);
        found
    }
}
