// Look-ups of paths in a thread.

ghost use Rattle.std.specs.Prelude.{◌≡◌, ◌≤◌, ◌+◌, ◌++◌, [], ◌∷◌, IfOk, None, sum_by};
ghost use Rattle.lfs_model.specs.crash.Frame.{directory_pair_count, ancestor_paths};
ghost use Rattle.lfs_model.specs.session.History.{read_count};
ghost use Rattle.lfs_model.specs.format.Slots.{zero_gstate};
ghost use Rattle.lfs_model.specs.format.Thread.{pairs_gstate};
ghost use Rattle.lfs_model.specs.tree.Shown.{disk_tree};
ghost use Rattle.lfs_lookup.specs.AtPath.{InlineFitsTag, FoundInlineFitsTag, ParentsAllowLookup, IsLookupResult, node_or_refusal, found_directory_pair_index, storage_size};
ghost use Rattle.lfs_lookup.specs.AttributeAt.{IsFoundPairCached};
ghost use Rattle.lfs_lookup.specs.Finds.{IsFoundNode, has_entry_beneath};
ghost use Rattle.lfs_lookup.specs.declared.found_entries.Node.TheVariants.{Directory, File, Nothing};
ghost use Rattle.lfs_lookup.specs.LookupReading.{ReadsOrReports};
ghost use Rattle.lfs_lookup.specs.Reads.{ReadsDirectoriesOnce};
ghost use Rattle.lfs_lookup.specs.Searchable.{CanSearchFromRoot};

use crate::directory::has_entries;
use crate::entry::FileStorage;
use crate::found_entries::{FoundNode, Node, NodeAndEmptiness};
use crate::path::Path;
use crate::paths::{VisiblePathLookup, look_up_visible, moved_slot_position};
use crate::refusal::{Refusal, to_refusal};
use lfs_device::{BlockDevice, Error};
use lfs_thread::Thread;
use std::alloc::Global;

/// Looks up a path. Treats the slot to which a pending move refers as deleted (DESIGN.md of
/// littlefs, "The move problem"). Makes at most one read for each metadata pair of the path's
/// ancestor directories, and no read if all of these pairs are cached. If the global state is zero
/// and each pair of the ancestor directories has a slot, makes at most 1 + log2 n reads in a
/// directory of n pairs. The pair of the slot that was found is cached afterwards.
///
/// `root` is the index of the root directory's first pair.
///
/// Errors: `Io` if a read fails. `NoMemory` if memory can't be allocated.
pub fn look_up_path<D: BlockDevice>(
    alloc: Global,
    thread: &mut Thread<D>,
    root: usize,
    path: &Path<'_>,
) -> Result<VisiblePathLookup, Error>
    requires { CanSearchFromRoot thread.old root }
    ensures shown { IfOk result (IsLookupResult thread.old.kept path.now) }
    ensures cached_log { IfOk result (IsFoundPairCached thread.new) }
    ensures reads { ReadsDirectoriesOnce (pairs_gstate thread.old.kept.pairs ≡ zero_gstate) ParentsAllowLookup (ancestor_paths path.now) thread.old thread.new result }
    ensures reading { ReadsOrReports thread.old thread.new result }
{
    let names = path.names(alloc)?;
    let state = thread.state();
    let moved = moved_slot_position(thread, &state);
    look_up_visible(thread, root, &names, moved)
}

// Returns the size of a file in bytes.
fn stored_file_size(contents: FileStorage) -> u32
    requires { InlineFitsTag contents }
    ensures { result ≡ storage_size contents }
{
    match contents {
        FileStorage::Inline { len } => len as u32,
        FileStorage::List { size, .. } => size,
    }
}

// Returns the result of a look-up that found a file.
fn found_file_node(contents: FileStorage) -> FoundNode
    requires { InlineFitsTag contents }
    ensures { result ≡ record { fault = None; node = File (storage_size contents) } }
{
    FoundNode {
        fault: None,
        node: Node::File {
            size: stored_file_size(contents),
        },
    }
}

// Returns the result of a look-up that found no entry. `fault` is the error that a parent causes,
// if any.
fn found_no_node(fault: Option<Refusal>) -> FoundNode
    ensures { result ≡ record { fault = fault; node = Nothing } }
{
    FoundNode {
        fault,
        node: Node::Nothing,
    }
}

// Returns the result of a look-up that found a directory.
fn found_directory_node() -> FoundNode
    ensures { result ≡ record { fault = None; node = Directory } }
{
    FoundNode {
        fault: None,
        node: Node::Directory,
    }
}

/// Converts the result of a look-up to the entry that was found, or to the error that a parent
/// causes.
pub fn node_of_lookup(shown: VisiblePathLookup) -> FoundNode
    requires { FoundInlineFitsTag shown }
    ensures { result ≡ node_or_refusal shown }
{
    match shown {
        VisiblePathLookup::Root => found_directory_node(),
        VisiblePathLookup::Directory { .. } => found_directory_node(),
        VisiblePathLookup::File { contents, .. } => found_file_node(contents),
        VisiblePathLookup::Nothing => found_no_node(None),
        VisiblePathLookup::ParentIsFile => found_no_node(Some(to_refusal(Error::NotDir))),
        VisiblePathLookup::ParentIsMissing => found_no_node(Some(to_refusal(Error::NoEnt))),
    }
}

/// Returns the index of the first pair of the directory that a look-up found. Returns None if the
/// look-up found no directory. `root` is the index of the root directory's first pair.
pub fn found_directory_index(root: usize, shown: VisiblePathLookup) -> Option<usize>
    ensures { result ≡ found_directory_pair_index root shown }
{
    match shown {
        VisiblePathLookup::Root => Some(root),
        VisiblePathLookup::Directory { first, .. } => Some(first),
        _ => None,
    }
}

/// Looks up a path. Returns a directory, a file with its size in bytes, or nothing. If a parent is
/// missing or isn't a directory, also returns the error to report. Makes at most one read for each
/// metadata pair of the path's ancestor directories, and no read if all of these pairs are cached.
///
/// `root` is the index of the root directory's first pair.
///
/// Errors: `Io` if a read fails. `NoMemory` if memory can't be allocated.
pub fn find_node<D: BlockDevice>(
    alloc: Global,
    thread: &mut Thread<D>,
    root: usize,
    path: &Path<'_>,
) -> Result<FoundNode, Error>
    requires { CanSearchFromRoot thread.old root }
    ensures found { IfOk result (IsFoundNode (disk_tree thread.old.kept.disk thread.old.kept.pairs) path.now) }
    ensures reads { ReadsDirectoriesOnce (pairs_gstate thread.old.kept.pairs ≡ zero_gstate) (λ found. found.fault ≡ None) (ancestor_paths path.now) thread.old thread.new result }
    ensures reading { ReadsOrReports thread.old thread.new result }
{
    let shown = look_up_path(alloc, thread, root, path)?;
    // The proof needs the device's block size to show that a list has the size that its entry
    // states.
    let _device = thread.device();
    Ok(node_of_lookup(shown))
}

/// Looks up a path, and returns whether it leads to a directory that has entries. Makes at most one
/// read for each metadata pair of the directory at the path and of its ancestors.
///
/// `root` is the index of the root directory's first pair.
///
/// Errors: `Io` if a read fails. `NoMemory` if memory can't be allocated.
pub fn path_has_entries<D: BlockDevice>(
    alloc: Global,
    thread: &mut Thread<D>,
    root: usize,
    path: &Path<'_>,
) -> Result<NodeAndEmptiness, Error>
    requires { CanSearchFromRoot thread.old root }
    ensures found { IfOk result (λ inside. IsFoundNode (disk_tree thread.old.kept.disk thread.old.kept.pairs) path.now inside.finding) }
    ensures has { IfOk result (λ inside. inside.has_entries ≡ has_entry_beneath (disk_tree thread.old.kept.disk thread.old.kept.pairs) path.now) }
    ensures few { read_count thread.new.kept.history ≤ read_count thread.old.kept.history + sum_by (directory_pair_count thread.old.kept.pairs) (ancestor_paths path.now ++ path.now ∷ []) }
    ensures reading { ReadsOrReports thread.old thread.new result }
{
    let shown = look_up_path(alloc, thread, root, path)?;
    let has_entries = has_entries(alloc, thread, found_directory_index(root, shown))?;
    // The proof needs the device's block size to show that a list has the size that its entry
    // states.
    let _device = thread.device();
    Ok(NodeAndEmptiness {
        finding: node_of_lookup(shown),
        has_entries,
    })
}
