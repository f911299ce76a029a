// The search for the directories to which a path from the root leads.

ghost use Rattle.std.specs.Prelude.{◌≡◌, ◌++◌, ◌<◌, All, Bool, Err, IfErr, IfOk, IfSome, IsErrOf, None, Ok, Some, false, length, map, slice_get, true};
ghost use Rattle.lfs_model.specs.format.Slots.{address_of_array};
ghost use Rattle.lfs_model.specs.declared.order.NameOrder.{NameOrder};
ghost use Rattle.lfs_model.specs.declared.violations.Violation.{Violation};
ghost use Rattle.lfs_mount.specs.Directories.{IsDirectoryTreeOrViolation, BreaksGraphRule};
ghost use Rattle.lfs_mount.specs.DirectoryView.{graph_view};
ghost use Rattle.lfs_mount.specs.Orders.{violation_in_order};
ghost use Rattle.lfs_mount.specs.Reaching.{AreVisitedMarks, AreReachedMarks, VisitsNewDirectories, OccursTwice};

use crate::orders::{NameOrderSet, OrderViolations};
use lfs_model::{NameOrder, Violation};
use lfs_thread::MountError;
use std::alloc::Global;

// A directory, as found by the pass over its pairs.
#[derive(Drop)]
pub(crate) struct Directory {
    // The orders of names in which the directory's entries are sorted.
    pub rises_in: NameOrderSet,
    // Whether each entry that points to a directory points to one in the thread.
    pub leads: bool,
    // The list indices of the subdirectories, in the order of the directory's entries.
    pub branches: Vec<u32>,
}

// Marks the given directories as found. Returns the first one that was already marked, if any.
fn mark_subdirectories_visited(
    is_found: &mut Vec<bool>,
    found: &mut Vec<u32>,
    branches: &[u32],
) -> Result<Option<u32>, MountError>
    requires marked { AreVisitedMarks is_found.old.items found.old.items }
    requires within { All (λ b. b < length is_found.old.items) branches.now }
    ensures found { result ≡ Ok None → VisitsNewDirectories is_found.old.items found.old.items branches.now is_found.new.items found.new.items }
    ensures twice { IfOk result (λ branch. IfSome branch (OccursTwice (found.old.items ++ branches.now))) }
    ensures within { IfOk result (λ branch. IfSome branch (λ b. b < length is_found.old.items)) }
    ensures error { IfErr result (λ e. e ≡ MountError.NoMemory) }
{
    for &branch in branches {
        let place = branch as usize;
        if is_found[place] {
            return Ok(Some(branch));
        }
        is_found[place] = true;
        found.push(branch)?;
    }
    Ok(None)
}

// Returns, for each directory, whether it is reached from the root, which is the first in the list.
// The search visits each directory and each subdirectory once. `addresses` are the addresses of the
// directories' first pairs.
//
// Errors: `Corrupt` if a reached directory isn't sorted in this order, if it has an entry that
// points to no directory in the thread, or if it is reached twice. `NoMemory` if memory can't be
// allocated.
fn reached_directories(
    alloc: Global,
    directories: &[Directory],
    addresses: &[[u32; 2]],
    order: NameOrder,
) -> Result<Vec<bool>, MountError>
    requires some { 0 < length directories.now }
    requires within { All (λ d. All (λ b. b < length directories.now) d.branches.items) directories.now }
    requires places { length addresses.now ≡ length directories.now }
    ensures reached { IfOk result (λ marks. AreReachedMarks (graph_view order directories.now) marks.items) }
    ensures broken { (v : Violation) (sync : Bool) → result ≡ Err (MountError.Corrupt v) → BreaksGraphRule order (graph_view order directories.now) (map address_of_array addresses.now) sync v }
    ensures errors { ¬ IsErrOf result MountError.Io }
{
    let mut is_found = Vec::from_elem(alloc, false, directories.len())?;
    let mut found = Vec::new(alloc);
    is_found[0] = true;
    found.push(0)?;
    let mut next = 0;
    while next < found.len() {
        let place = found[next] as usize;
        let directory = &directories[place];
        let pair = addresses[place];
        if !directory.rises_in.contains(order) {
            return Err(MountError::Corrupt(Violation::Names { pair }));
        }
        if !directory.leads {
            return Err(MountError::Corrupt(Violation::Branch { pair }));
        }
        if let Some(branch) = mark_subdirectories_visited(
            &mut is_found,
            &mut found,
            &directory.branches,
        )? {
            let pair = addresses[branch as usize];
            return Err(MountError::Corrupt(Violation::TwoPaths { pair }));
        }
        next += 1;
    }
    Ok(is_found)
}

// Returns the index of the first directory that isn't reached, or None if all are reached.
fn first_unreached_directory(is_reached: &[bool]) -> Option<usize>
    ensures unreached { IfSome result (λ place. slice_get is_reached.now place ≡ Some false) }
    ensures none { result ≡ None → All (λ reached. reached ≡ true) is_reached.now }
{
    for place in 0..is_reached.len() {
        if !is_reached[place] {
            return Some(place);
        }
    }
    None
}

// Returns a rule that the directories of a thread break in an order of names, or None if they break
// none. The names in each reached directory must be sorted, and its entries must point to
// directories in the thread. No directory may be reached twice. Each directory must be reached
// unless the sync bit is set.
fn find_directory_violation(
    alloc: Global,
    directories: &[Directory],
    addresses: &[[u32; 2]],
    order: NameOrder,
    sync: bool,
) -> Result<Option<Violation>, MountError>
    requires some { 0 < length directories.now }
    requires within { All (λ d. All (λ b. b < length directories.now) d.branches.items) directories.now }
    requires places { length addresses.now ≡ length directories.now }
    ensures found { IfOk result (IsDirectoryTreeOrViolation order (graph_view order directories.now) (map address_of_array addresses.now) sync) }
    ensures error { IfErr result (λ e. e ≡ MountError.NoMemory) }
{
    let is_reached = match reached_directories(alloc, directories, addresses, order) {
        Ok(is_reached) => is_reached,
        Err(MountError::Corrupt(violation)) => return Ok(Some(violation)),
        Err(error) => return Err(error),
    };
    if sync {
        return Ok(None);
    }
    match first_unreached_directory(&is_reached) {
        Some(place) => Ok(Some(Violation::NoPath {
            pair: addresses[place],
        })),
        None => Ok(None),
    }
}

// Returns, for each order of names, a rule that the directories of a thread break, or None.
// `addresses` are the addresses of the directories' first pairs.
pub(crate) fn find_directory_violations(
    alloc: Global,
    directories: &[Directory],
    addresses: &[[u32; 2]],
    sync: bool,
) -> Result<OrderViolations, MountError>
    requires some { 0 < length directories.now }
    requires within { All (λ d. All (λ b. b < length directories.now) d.branches.items) directories.now }
    requires places { length addresses.now ≡ length directories.now }
    ensures found { IfOk result (λ found. (order : NameOrder) → IsDirectoryTreeOrViolation order (graph_view order directories.now) (map address_of_array addresses.now) sync (violation_in_order order found)) }
    ensures error { IfErr result (λ e. e ≡ MountError.NoMemory) }
{
    let longer_first = find_directory_violation(
        alloc,
        directories,
        addresses,
        NameOrder::LongerFirst,
        sync,
    )?;
    let shorter_first = find_directory_violation(
        alloc,
        directories,
        addresses,
        NameOrder::ShorterFirst,
        sync,
    )?;
    Ok(OrderViolations {
        longer_first,
        shorter_first,
    })
}
