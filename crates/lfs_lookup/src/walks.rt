// A walk of all entries beneath the root.

ghost use Rattle.std.specs.Prelude.{◌≡◌, ◌++◌, ◌<◌, IfOk, OnOk, false, length, reverse};
ghost use Rattle.lfs_model.specs.format.Thread.{pairs_gstate};
ghost use Rattle.lfs_model.specs.tree.View.{IsAccepted};
ghost use Rattle.lfs_tag.specs.FieldsView.{move_view};
ghost use Rattle.lfs_lookup.specs.Items.{item_view, items_view, owned_view};
ghost use Rattle.lfs_lookup.specs.LookupReading.{ReadsOrReports};
ghost use Rattle.lfs_lookup.specs.TreeWalk.{PushesEntriesBelow, AreEntriesPushed, HasFirstPairIfDirectory, AreWalkItems, pairs_addresses, with_full_path, tree_item_view, tree_items_view, with_full_paths};

use crate::addresses::thread_addresses;
use crate::directory::directory_items;
use crate::items::{NameAndOwnedStruct, OwnedStruct, sort_shorter_first};
use lfs_device::{BlockDevice, Error};
use lfs_tag::MoveState;
use lfs_thread::{PairAddressList, Thread};
use std::alloc::{AllocError, Global};

/// An entry of the tree, with its path.
#[derive(Drop)]
pub struct TreeItem {
    /// The path of the entry from the root, with a `/` before each name.
    pub path: Vec<u8>,
    /// The entry's struct.
    pub structure: OwnedStruct,
}

// Converts an entry of the directory at `path` to one with a full path.
fn tree_item_beneath(
    alloc: Global,
    path: &[u8],
    item: NameAndOwnedStruct,
) -> Result<TreeItem, AllocError>
    ensures { IfOk result (λ found. tree_item_view found ≡ with_full_path path.now (item_view item)) }
{
    let mut below = Vec::from_slice(alloc, path)?;
    below.push(b'/')?;
    below.extend_from_slice(&item.name)?;
    Ok(TreeItem {
        path: below,
        structure: item.structure,
    })
}

// Pushes the entries of the directory at a path in reverse order, so that the first is on top.
fn push_beneath_path(
    alloc: Global,
    pending: &mut Vec<TreeItem>,
    path: &[u8],
    mut items: Vec<NameAndOwnedStruct>,
) -> Result<(), AllocError>
    ensures { OnOk result (tree_items_view pending.new.items ≡ tree_items_view pending.old.items ++ reverse (with_full_paths path.now (items_view items.items))) }
{
    while let Some(item) = items.pop() {
        let found = tree_item_beneath(alloc, path, item)?;
        pending.push(found)?;
    }
    Ok(())
}

// Pushes the entries of the directory whose first pair has index `first` in reverse name order, so
// that the first name is on top.
fn push_directory_items<D: BlockDevice>(
    alloc: Global,
    thread: &mut Thread<D>,
    state: &MoveState,
    first: usize,
    path: &[u8],
    pending: &mut Vec<TreeItem>,
) -> Result<(), Error>
    requires works { thread.old.failed ≡ false }
    requires below { first < length thread.old.kept.pairs }
    requires state { move_view state.now ≡ pairs_gstate thread.old.kept.pairs }
    ensures pushed { OnOk result (AreEntriesPushed thread.old.kept.pairs path.now first (tree_items_view pending.old.items) (tree_items_view pending.new.items)) }
    ensures reading { ReadsOrReports thread.old thread.new result }
{
    let mut items = directory_items(alloc, thread, state, first)?;
    sort_shorter_first(&mut items);
    push_beneath_path(alloc, pending, path, items)?;
    Ok(())
}

// Pushes the entries of a directory. Pushes nothing for a file.
fn push_below_entry<D: BlockDevice>(
    alloc: Global,
    thread: &mut Thread<D>,
    addresses: &PairAddressList,
    state: &MoveState,
    found: &TreeItem,
    pending: &mut Vec<TreeItem>,
) -> Result<(), Error>
    requires works { thread.old.failed ≡ false }
    requires all { addresses.now ≡ pairs_addresses thread.old.kept.pairs }
    requires begins { HasFirstPairIfDirectory thread.old.kept.pairs (owned_view found.now.structure) }
    requires state { move_view state.now ≡ pairs_gstate thread.old.kept.pairs }
    ensures pushed { OnOk result (PushesEntriesBelow thread.old.kept.pairs (tree_item_view found.now) (tree_items_view pending.old.items) (tree_items_view pending.new.items)) }
    ensures reading { ReadsOrReports thread.old thread.new result }
{
    if let OwnedStruct::Branch(to) = found.structure {
        let first = addresses.find(to).unwrap() as usize;
        push_directory_items(alloc, thread, state, first, &found.path, pending)?;
    }
    Ok(())
}

/// Returns all entries beneath the root, depth first and sorted by name; a name that is a prefix of
/// another comes first. Each directory is followed by the entries beneath it, and then by the next
/// name.
///
/// Errors: `Io` if a read fails. `NoMemory` if memory for a block, its slots or the entries can't
/// be allocated.
pub fn walk_tree<D: BlockDevice>(
    alloc: Global,
    thread: &mut Thread<D>,
) -> Result<Vec<TreeItem>, Error>
    requires works { thread.old.failed ≡ false }
    requires accepted { IsAccepted thread.old.kept.disk thread.old.kept.pairs }
    ensures walked { IfOk result (λ found. AreWalkItems thread.old.kept.disk thread.old.kept.pairs (tree_items_view found.items)) }
    ensures reading { ReadsOrReports thread.old thread.new result }
{
    let state = thread.state();
    let addresses = thread_addresses(alloc, thread)?;
    let mut walked = Vec::new(alloc);
    let mut pending = Vec::new(alloc);
    // The pairs of the superblock's chain, which may precede the root, have no entries.
    push_directory_items(alloc, thread, &state, 0, b"", &mut pending)?;
    while let Some(found) = pending.pop() {
        push_below_entry(alloc, thread, &addresses, &state, &found, &mut pending)?;
        walked.push(found)?;
    }
    Ok(walked)
}
