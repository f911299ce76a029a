// Operations by path, in an image that has nothing to recover.

ghost use Rattle.std.specs.Prelude.{◌≡◌, ◌≤◌, ◌+◌, map, sum_by, true, false, IfOk, IfSome, IsSome};
ghost use Rattle.lfs_device.specs.Bytes.{AreByteBlocks};
ghost use Rattle.lfs_model.specs.crash.Frame.{directory_pair_count, ancestor_paths};
ghost use Rattle.lfs_model.specs.session.History.{read_count};
ghost use Rattle.lfs_model.specs.session.TreeEdits.{last_name};
ghost use Rattle.lfs_tree.specs.Permissions.{CanCreateFile, CanMakeDirectory};
ghost use Rattle.lfs_tree.specs.CreationPaths.{IsCreationResult};
ghost use Rattle.lfs_tree.specs.TreeCalls as call;
ghost use Rattle.lfs_tree.specs.TreeChanges.{CanChangeRecovered, AppliesOrFails, IsMissingNameSlot, IsLookupWithName, is_nothing_found};
ghost use Rattle.lfs_tree.specs.RootedThreads.{uncached_state};
ghost use Rattle.lfs_lookup.specs.LookupReading.{ReadsOrReports};

use lfs_device::{BlockDevice, Error};
use lfs_lookup::{Path, PathLookup, SlotPosition, look_up};
use lfs_operations::{create_file, make_directory};
use lfs_thread::Thread;
use std::alloc::Global;

// Proves two facts about any device: blocks have at least 1,024 bytes, and each byte is below 256.
pub(crate) fn lemma_block_facts<D: BlockDevice>(thread: &Thread<D>)
    ensures large { 1024 ≤ thread.now.kept.disk.block_size }
    ensures bytes { AreByteBlocks thread.now.kept.disk.blocks }
{
    let _size = thread.device().geometry().block_size;
}

// Returns the last of the names, or an empty name if there are none.
pub(crate) fn last_name_of<'a>(names: &[&'a [u8]]) -> &'a [u8]
    ensures { result.now ≡ last_name (map (λ name. name.now) names.now) }
{
    match names.split_last() {
        Some((name, _)) => name,
        None => &[],
    }
}

// Returns the pair index and the id at which an entry with the missing name belongs.
fn insertion_slot(found: PathLookup) -> SlotPosition
    requires { is_nothing_found found ≡ true }
    ensures { IsMissingNameSlot found result }
{
    match found {
        PathLookup::Nothing { place, .. } => place,
        _ => unreachable!(),
    }
}

// The result of looking up a path, and the last name of the path.
#[derive(Drop)]
pub(crate) struct FoundAtPath<'a> {
    pub(crate) found: PathLookup,
    pub(crate) name: &'a [u8],
}

// Looks up a path.
pub(crate) fn find_at_path<'a, D: BlockDevice>(
    alloc: Global,
    thread: &mut Thread<D>,
    root: usize,
    path: &Path<'a>,
) -> Result<FoundAtPath<'a>, Error>
    requires { CanChangeRecovered thread.old root }
    ensures target { IfOk result (λ target. IsLookupWithName thread.old.kept path.now target.found target.name.now) }
    ensures few { read_count thread.new.kept.history ≤ read_count thread.old.kept.history + sum_by (directory_pair_count thread.old.kept.pairs) (ancestor_paths path.now) }
    ensures reading { ReadsOrReports thread.old thread.new result }
{
    let names = path.names(alloc)?;
    let found = look_up(thread, root, &names)?;
    Ok(FoundAtPath {
        found,
        name: last_name_of(&names),
    })
}

// Returns the result of looking up a path, and the path's last name. Looks up the path unless
// `known` has the result.
fn lookup_unless_known<'a, D: BlockDevice>(
    alloc: Global,
    thread: &mut Thread<D>,
    root: usize,
    path: &Path<'a>,
    known: Option<PathLookup>,
) -> Result<FoundAtPath<'a>, Error>
    requires rests { CanChangeRecovered thread.old root }
    requires known { IfSome known (IsCreationResult thread.old.kept path.now) }
    ensures target { IfOk result (λ target. IsLookupWithName thread.old.kept path.now target.found target.name.now) }
    ensures unread { IsSome known → read_count thread.new.kept.history ≡ read_count thread.old.kept.history }
    ensures reading { ReadsOrReports thread.old thread.new result }
{
    let Some(found) = known else {
        return find_at_path(alloc, thread, root, path);
    };
    let names = path.names(alloc)?;
    Ok(FoundAtPath {
        found,
        name: last_name_of(&names),
    })
}

// Creates an empty file at a path that has no entry. Looks up the path unless `known` has the
// result.
//
// Errors: `Io` if a device call fails, or `NoMemory` if memory can't be allocated.
pub(crate) fn create_empty_file<D: BlockDevice>(
    alloc: Global,
    thread: &mut Thread<D>,
    root: usize,
    path: &Path<'_>,
    known: Option<PathLookup>,
) -> Result<(), Error>
    requires rests { CanChangeRecovered thread.old root }
    requires can { CanCreateFile (uncached_state thread.old.kept true false) path.now }
    requires known { IfSome known (IsCreationResult thread.old.kept path.now) }
    ensures does { AppliesOrFails thread.old (call.Create path.now) result thread.new }
    ensures few { IsSome known → read_count thread.new.kept.history ≤ read_count thread.old.kept.history + 6 }
{
    path.lemma_path_bytes();
    path.lemma_valid_names();
    lemma_block_facts(thread);
    let target = lookup_unless_known(alloc, thread, root, path, known)?;
    let place = insertion_slot(target.found);
    create_file(alloc, thread, place.pair, place.id, target.name)
}

// Makes an empty directory at a path that has no entry.
//
// Errors: `Io` if a device call fails, or `NoMemory` if memory can't be allocated.
pub(crate) fn make_directory_at<D: BlockDevice>(
    alloc: Global,
    thread: &mut Thread<D>,
    root: usize,
    path: &Path<'_>,
) -> Result<(), Error>
    requires rests { CanChangeRecovered thread.old root }
    requires can { CanMakeDirectory (uncached_state thread.old.kept true false) path.now }
    ensures { AppliesOrFails thread.old (call.Mkdir path.now) result thread.new }
{
    path.lemma_path_bytes();
    path.lemma_valid_names();
    lemma_block_facts(thread);
    let target = find_at_path(alloc, thread, root, path)?;
    let place = insertion_slot(target.found);
    make_directory(alloc, thread, place.pair, place.id, target.name)
}
