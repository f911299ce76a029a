// Look-ups of paths, from the root down.

ghost use Rattle.std.specs.Prelude.{◌≡◌, None, ◌<◌, ◌≤◌, ◌+◌, IfOk, map, sum_by, ◌++◌, ◌∷◌, [], drop};
ghost use Rattle.lfs_model.specs.crash.Frame.{directory_pair_count, ancestor_paths};
ghost use Rattle.lfs_model.specs.session.History.{read_count};
ghost use Rattle.lfs_model.specs.session.InDirectory.{joined_pair_count};
ghost use Rattle.lfs_model.specs.format.Slots.{zero_gstate};
ghost use Rattle.lfs_model.specs.tree.Tree.{Path};
ghost use Rattle.lfs_model.specs.tree.View.{IsAccepted};
ghost use Rattle.lfs_tag.specs.FieldsView.{move_view};
ghost use Rattle.lfs_lookup.specs.AtPath.{ParentsAllowLookup};
ghost use Rattle.lfs_lookup.specs.AttributeAt.{IsFoundPairCached};
ghost use Rattle.lfs_lookup.specs.Halves.{ReadsAtMostBinarySearches, ReadsAtMostBinarySearch};
ghost use Rattle.lfs_lookup.specs.LookupReading.{ReadsOrReports};
ghost use Rattle.lfs_lookup.specs.NameSearch.{IsOnlyMovedSlot};
ghost use Rattle.lfs_lookup.specs.LookupPaths.{LeadsToPair, IsPathParent, IsParentAt, IsVisibleNameLookup, IsNameLookupResult, IsResultOfPath, IsVisibleLookupResult, parent_refusal};
ghost use Rattle.lfs_lookup.specs.Reads.{ReadsDirectoryOnce, ReadsDirectoriesOnce};
ghost use Rattle.lfs_lookup.specs.Searchable.{CanSearchRecovered, CanSearchHidingMoved};

use crate::entry::{FileOrDirectory, FileStorage};
use crate::search::{NamePositionInDirectory, SlotPosition, find_name, find_visible};
use lfs_device::{BlockDevice, Error};
use lfs_tag::MoveState;
use lfs_tag::kinds::DELETE;
use lfs_thread::{Thread, number_at_address};

// The result of a search for a directory.
#[derive(Clone, Copy, Debug, PartialEq, Eq, Drop)]
pub(crate) enum Parent {
    // A directory: the index of its first pair.
    Directory(usize),
    // The path leads to a file.
    File,
    // There is no entry.
    Nothing,
}

/// The result of looking up a path. In each variant, `parent` is the index of the first pair of the
/// directory that has, or would have, the path's last name.
#[derive(Clone, Copy, Debug, PartialEq, Eq, Drop)]
pub enum PathLookup {
    /// The root directory, which has no slot.
    Root,
    /// A directory whose first pair has index `first`.
    Directory {
        parent: usize,
        slot: SlotPosition,
        first: usize,
    },
    /// A file, whose bytes are stored as `contents` says.
    File {
        parent: usize,
        slot: SlotPosition,
        contents: FileStorage,
    },
    /// No entry. A new entry would be inserted before the slot `place`.
    Nothing {
        parent: usize,
        place: SlotPosition,
    },
    /// A component before the last one is a file.
    ParentIsFile,
    /// A component before the last one is missing.
    ParentIsMissing,
}

/// The result of looking up a path if the slot of a pending move counts as deleted. Unlike
/// [`PathLookup`], this type doesn't say where a missing name would be inserted.
#[derive(Clone, Copy, Debug, PartialEq, Eq, Drop)]
pub enum VisiblePathLookup {
    /// The root directory, which has no slot.
    Root,
    /// A directory whose first pair has index `first`.
    Directory {
        slot: SlotPosition,
        first: usize,
    },
    /// A file, whose bytes are stored as `contents` says.
    File {
        slot: SlotPosition,
        contents: FileStorage,
    },
    /// No entry.
    Nothing,
    /// A component before the last one is a file.
    ParentIsFile,
    /// A component before the last one is missing.
    ParentIsMissing,
}

// Returns the slot that counts as deleted because the pending move in `state` refers to it
// (DESIGN.md of littlefs, "The move problem"). Returns None if no move is pending.
pub(crate) fn moved_slot_position<D: BlockDevice>(
    thread: &Thread<D>,
    state: &MoveState,
) -> Option<SlotPosition>
    requires { IsAccepted thread.now.kept.disk thread.now.kept.pairs }
    ensures hides { IsOnlyMovedSlot (move_view state.now) result 0 thread.now.kept.pairs }
    ensures none { move_view state.now ≡ zero_gstate → result ≡ None }
{
    if state.kind != DELETE {
        return None;
    }
    match number_at_address(thread, state.pair) {
        Some(pair) => Some(SlotPosition { pair, id: state.id }),
        None => None,
    }
}

// Finds a subdirectory by its name. The slot `moved` counts as deleted.
fn find_subdirectory<D: BlockDevice>(
    thread: &mut Thread<D>,
    first: usize,
    name: &[u8],
    moved: Option<SlotPosition>,
) -> Result<Parent, Error>
    requires can { CanSearchHidingMoved thread.old moved }
    requires reached { (path : Path) × LeadsToPair thread.old.kept.pairs path first }
    ensures answer { IfOk result (λ parent. (path : Path) → LeadsToPair thread.old.kept.pairs path first → IsParentAt thread.old.kept (path ++ name.now ∷ []) parent) }
    ensures reads { ReadsDirectoryOnce moved first thread.old thread.new result }
    ensures reading { ReadsOrReports thread.old thread.new result }
{
    match find_visible(thread, first, name, moved)? {
        Some((_, FileOrDirectory::Directory(at))) => {
            let next = number_at_address(thread, at).unwrap();
            Ok(Parent::Directory(next))
        }
        Some((_, FileOrDirectory::File(_))) => Ok(Parent::File),
        None => Ok(Parent::Nothing),
    }
}

// Finds the directory at a path. The slot `moved` counts as deleted. `root` is the index of the
// root directory's first pair. Stops at the first name that isn't a directory's. Makes at most one
// read for each pair of the directory's ancestors.
//
// Errors are those of `find_name`.
pub(crate) fn find_directory<D: BlockDevice>(
    thread: &mut Thread<D>,
    root: usize,
    path: &[&[u8]],
    moved: Option<SlotPosition>,
) -> Result<Parent, Error>
    requires can { CanSearchHidingMoved thread.old moved }
    requires root { LeadsToPair thread.old.kept.pairs [] root }
    ensures answer { IfOk result (IsPathParent thread.old.kept (map (λ name. name.now) path.now)) }
    ensures reads { ReadsDirectoriesOnce (moved ≡ None) (λ parent. parent_refusal parent ≡ None) (ancestor_paths (map (λ name. name.now) path.now)) thread.old thread.new result }
    ensures reading { ReadsOrReports thread.old thread.new result }
{
    let mut first = root;
    for name in path {
        first = match find_subdirectory(thread, first, name, moved)? {
            Parent::Directory(next) => next,
            Parent::File => return Ok(Parent::File),
            Parent::Nothing => return Ok(Parent::Nothing),
        };
    }
    Ok(Parent::Directory(first))
}

// Finds a name in a directory.
fn search_directory<D: BlockDevice>(
    thread: &mut Thread<D>,
    parent: usize,
    name: &[u8],
) -> Result<PathLookup, Error>
    requires can { CanSearchRecovered thread.old }
    requires reached { (above : Path) × LeadsToPair thread.old.kept.pairs above parent }
    ensures answer { IfOk result (λ found. (above : Path) → LeadsToPair thread.old.kept.pairs above parent → IsNameLookupResult thread.old.kept.disk.order thread.old.kept.pairs above name.now found) }
    ensures few { read_count thread.new.kept.history ≤ read_count thread.old.kept.history + joined_pair_count (drop parent thread.old.kept.pairs) }
    ensures halves { ReadsAtMostBinarySearch thread.old thread.new parent }
    ensures reading { ReadsOrReports thread.old thread.new result }
{
    match find_name(thread, parent, name)? {
        NamePositionInDirectory::Found(slot, FileOrDirectory::Directory(at)) => {
            let first = number_at_address(thread, at).unwrap();
            Ok(PathLookup::Directory {
                parent,
                slot,
                first,
            })
        }
        NamePositionInDirectory::Found(slot, FileOrDirectory::File(contents)) => Ok(
            PathLookup::File {
                parent,
                slot,
                contents,
            },
        ),
        NamePositionInDirectory::Place(place) => Ok(PathLookup::Nothing { parent, place }),
    }
}

/// Looks up a path, given as a list of names, from the root down. `root` is the index of the root
/// directory's first pair. Makes at most one read for each metadata pair of the path's ancestor
/// directories. If each pair of the ancestor directories has a slot, makes at most 1 + log2 n reads
/// in a directory of n pairs.
///
/// Errors: `Io` if a read fails. `NoMemory` if memory for a block can't be allocated. Neither error
/// makes the thread fail.
pub fn look_up<D: BlockDevice>(
    thread: &mut Thread<D>,
    root: usize,
    path: &[&[u8]],
) -> Result<PathLookup, Error>
    requires can { CanSearchRecovered thread.old }
    requires root { LeadsToPair thread.old.kept.pairs [] root }
    ensures answer { IfOk result (IsResultOfPath thread.old.kept (map (λ name. name.now) path.now)) }
    ensures few { read_count thread.new.kept.history ≤ read_count thread.old.kept.history + sum_by (directory_pair_count thread.old.kept.pairs) (ancestor_paths (map (λ name. name.now) path.now)) }
    ensures halves { ReadsAtMostBinarySearches thread.old thread.new (ancestor_paths (map (λ name. name.now) path.now)) }
    ensures reading { ReadsOrReports thread.old thread.new result }
{
    let Some((name, above)) = path.split_last() else {
        return Ok(PathLookup::Root);
    };
    match find_directory(thread, root, above, None)? {
        Parent::Directory(parent) => search_directory(thread, parent, name),
        Parent::File => Ok(PathLookup::ParentIsFile),
        Parent::Nothing => Ok(PathLookup::ParentIsMissing),
    }
}

// Finds a name in a directory. The slot `moved` counts as deleted.
fn look_up_name<D: BlockDevice>(
    thread: &mut Thread<D>,
    parent: usize,
    name: &[u8],
    moved: Option<SlotPosition>,
) -> Result<VisiblePathLookup, Error>
    requires can { CanSearchHidingMoved thread.old moved }
    requires reached { (above : Path) × LeadsToPair thread.old.kept.pairs above parent }
    ensures answer { IfOk result (λ shown. (above : Path) → LeadsToPair thread.old.kept.pairs above parent → IsVisibleNameLookup thread.old.kept.pairs moved (above ++ name.now ∷ []) shown) }
    ensures cached_log { IfOk result (IsFoundPairCached thread.new) }
    ensures reads { ReadsDirectoryOnce moved parent thread.old thread.new result }
    ensures reading { ReadsOrReports thread.old thread.new result }
{
    match find_visible(thread, parent, name, moved)? {
        Some((slot, FileOrDirectory::Directory(at))) => {
            let first = number_at_address(thread, at).unwrap();
            Ok(VisiblePathLookup::Directory { slot, first })
        }
        Some((slot, FileOrDirectory::File(contents))) => Ok(VisiblePathLookup::File {
            slot,
            contents,
        }),
        None => Ok(VisiblePathLookup::Nothing),
    }
}

// Looks up a path as `look_up` does, except that the slot `moved`, to which a pending move refers,
// counts as deleted (DESIGN.md of littlefs, "The move problem"). The block of the slot that was
// found is cached afterwards.
//
// Errors are those of `find_name`.
pub(crate) fn look_up_visible<D: BlockDevice>(
    thread: &mut Thread<D>,
    root: usize,
    path: &[&[u8]],
    moved: Option<SlotPosition>,
) -> Result<VisiblePathLookup, Error>
    requires can { CanSearchHidingMoved thread.old moved }
    requires root { LeadsToPair thread.old.kept.pairs [] root }
    ensures answer { IfOk result (IsVisibleLookupResult thread.old.kept moved (map (λ name. name.now) path.now)) }
    ensures cached_log { IfOk result (IsFoundPairCached thread.new) }
    ensures reads { ReadsDirectoriesOnce (moved ≡ None) ParentsAllowLookup (ancestor_paths (map (λ name. name.now) path.now)) thread.old thread.new result }
    ensures reading { ReadsOrReports thread.old thread.new result }
{
    let Some((name, above)) = path.split_last() else {
        return Ok(VisiblePathLookup::Root);
    };
    match find_directory(thread, root, above, moved)? {
        Parent::Directory(parent) => look_up_name(thread, parent, name, moved),
        Parent::File => Ok(VisiblePathLookup::ParentIsFile),
        Parent::Nothing => Ok(VisiblePathLookup::ParentIsMissing),
    }
}
