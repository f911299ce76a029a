// Orphans: the metadata pairs of directories that no path leads to.

ghost use Rattle.std.specs.Prelude.{◌≡◌, ◌<◌, ◌≤◌, ◌++◌, ◌∷◌, [], IfOk, OnOk, false, if◌then◌else◌, length, replicate, slice_index_or};
ghost use Rattle.lfs_model.specs.format.Thread.{count_before_root};
ghost use Rattle.lfs_model.specs.tree.View.{IsAccepted};
ghost use Rattle.lfs_model.specs.layers.StepResults.{AreUnreachedNumbers};
ghost use Rattle.lfs_lookup.specs.Items.{item_view, items_view};
ghost use Rattle.lfs_lookup.specs.ProfileChecks.{follows_hard_tail_at};
ghost use Rattle.lfs_lookup.specs.LookupReading.{ReadsOrReports};
ghost use Rattle.lfs_tree.specs.Orphans.{DirectoriesBegin, AreReachedMarked, MarksAndQueues, IsFirstPairOfStruct, IsFirstPairOfNamed};
ghost use Rattle.lfs_lookup.specs.TreeWalk.{HasFirstPairIfDirectory};

use lfs_device::{BlockDevice, Error};
use lfs_lookup::{NameAndOwnedStruct, OwnedStruct, directory_items, follows_hard_tail};
use lfs_thread::{Thread, number_at_address};
use std::alloc::{AllocError, Global};

// Makes `count` marks that aren't set.
fn fresh_marks(alloc: Global, count: usize) -> Result<Vec<bool>, AllocError>
    ensures { IfOk result (λ marks. marks.items ≡ replicate count false) }
{
    vec![in alloc; false; count]
}

// Marks a pair and queues it for a visit of its directory. Does nothing if the pair is marked
// already.
fn mark_reached(
    marks: &mut Vec<bool>,
    pending: &mut Vec<usize>,
    number: usize,
) -> Result<(), AllocError>
    requires { number < length marks.old.items }
    ensures { OnOk result (MarksAndQueues (λ n. n ≡ number) marks.old.items pending.old.items marks.new.items pending.new.items) }
{
    if !marks[number] {
        marks[number] = true;
        pending.push(number)?;
    }
    Ok(())
}

// If an entry is a directory, marks the directory's first pair.
fn mark_directory<D: BlockDevice>(
    thread: &Thread<D>,
    item: &NameAndOwnedStruct,
    marks: &mut Vec<bool>,
    pending: &mut Vec<usize>,
) -> Result<(), AllocError>
    requires accepted { IsAccepted thread.now.kept.disk thread.now.kept.pairs }
    requires begins { HasFirstPairIfDirectory thread.now.kept.pairs (item_view item.now).struct }
    requires len { length marks.old.items ≡ length thread.now.kept.pairs }
    ensures { OnOk result (MarksAndQueues (IsFirstPairOfStruct thread.now.kept.pairs (item_view item.now).struct) marks.old.items pending.old.items marks.new.items pending.new.items) }
{
    if let OwnedStruct::Branch(to) = item.structure {
        let number = number_at_address(thread, to).unwrap();
        mark_reached(marks, pending, number)?;
    }
    Ok(())
}

// Marks the first pair of each directory among the entries `items`.
fn mark_directories<D: BlockDevice>(
    thread: &Thread<D>,
    mut items: Vec<NameAndOwnedStruct>,
    marks: &mut Vec<bool>,
    pending: &mut Vec<usize>,
) -> Result<(), AllocError>
    requires accepted { IsAccepted thread.now.kept.disk thread.now.kept.pairs }
    requires begin { DirectoriesBegin thread.now.kept.pairs (items_view items.items) }
    requires len { length marks.old.items ≡ length thread.now.kept.pairs }
    ensures { OnOk result (MarksAndQueues (IsFirstPairOfNamed thread.now.kept.pairs (items_view items.items)) marks.old.items pending.old.items marks.new.items pending.new.items) }
{
    while let Some(item) = items.pop() {
        mark_directory(thread, &item, marks, pending)?;
    }
    Ok(())
}

// Returns one mark for each pair of the threaded list. A mark is set if a path leads to the
// directory that begins with the pair.
fn mark_reached_directories<D: BlockDevice>(
    alloc: Global,
    thread: &mut Thread<D>,
    root: usize,
) -> Result<Vec<bool>, Error>
    requires works { thread.old.failed ≡ false }
    requires accepted { IsAccepted thread.old.kept.disk thread.old.kept.pairs }
    requires root { root ≡ count_before_root thread.old.kept.pairs }
    ensures marks { IfOk result (λ marks. AreReachedMarked thread.old.kept.pairs marks.items) }
    ensures reading { ReadsOrReports thread.old thread.new result }
{
    let state = thread.state();
    let mut marks = fresh_marks(alloc, thread.len())?;
    let mut pending = Vec::new(alloc);
    mark_reached(&mut marks, &mut pending, root)?;
    while let Some(first) = pending.pop() {
        let items = directory_items(alloc, thread, &state, first)?;
        mark_directories(thread, items, &mut marks, &mut pending)?;
    }
    Ok(marks)
}

// Returns whether a path leads to the directory of the pair `index`. If a hard tail refers to the
// pair, the result is `before`, the result for the pair before it.
fn is_pair_reached<D: BlockDevice>(
    thread: &Thread<D>,
    root: usize,
    marks: &[bool],
    index: usize,
    before: bool,
) -> bool
    requires works { thread.now.failed ≡ false }
    requires below { index < length thread.now.kept.pairs }
    requires len { length marks.now ≡ length thread.now.kept.pairs }
    ensures { result ≡ (if follows_hard_tail_at root thread.now.kept.pairs index then before else slice_index_or marks.now index false) }
{
    if follows_hard_tail(thread, root, index) {
        before
    } else {
        marks[index]
    }
}

// Appends a pair index unless a path leads to the pair.
fn push_if_unreached(
    numbers: &mut Vec<usize>,
    index: usize,
    is_reached: bool,
) -> Result<(), AllocError>
    ensures { OnOk result (numbers.new.items ≡ (if is_reached then numbers.old.items else numbers.old.items ++ index ∷ [])) }
{
    if !is_reached {
        numbers.push(index)?;
    }
    Ok(())
}

// Returns the indices of all pairs whose directory's first pair isn't marked.
fn unreached_pair_indices<D: BlockDevice>(
    alloc: Global,
    thread: &Thread<D>,
    root: usize,
    marks: &[bool],
) -> Result<Vec<usize>, AllocError>
    requires works { thread.now.failed ≡ false }
    requires root { root ≡ count_before_root thread.now.kept.pairs }
    requires few { root ≤ length thread.now.kept.pairs }
    requires marks { AreReachedMarked thread.now.kept.pairs marks.now }
    ensures { IfOk result (λ numbers. AreUnreachedNumbers thread.now.kept.pairs numbers.items) }
{
    let mut numbers = Vec::new(alloc);
    let mut is_reached = true;
    for index in root..thread.len() {
        is_reached = is_pair_reached(thread, root, marks, index, is_reached);
        push_if_unreached(&mut numbers, index, is_reached)?;
    }
    Ok(numbers)
}

// Returns the indices of all orphans: the pairs of directories that no path leads to. The root
// directory begins with the pair of index `root`.
//
// Errors: `Io` if a read fails, or `NoMemory` if memory can't be allocated.
pub(crate) fn find_unreached_pairs<D: BlockDevice>(
    alloc: Global,
    thread: &mut Thread<D>,
    root: usize,
) -> Result<Vec<usize>, Error>
    requires works { thread.old.failed ≡ false }
    requires accepted { IsAccepted thread.old.kept.disk thread.old.kept.pairs }
    requires root { root ≡ count_before_root thread.old.kept.pairs }
    ensures unreached { IfOk result (λ numbers. AreUnreachedNumbers thread.old.kept.pairs numbers.items) }
    ensures reading { ReadsOrReports thread.old thread.new result }
{
    let marks = mark_reached_directories(alloc, thread, root)?;
    let numbers = unreached_pair_indices(alloc, thread, root, &marks)?;
    Ok(numbers)
}
