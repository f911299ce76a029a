// The entries of a pair and of a directory.

ghost use Rattle.std.specs.Prelude.{◌≡◌, ◌<◌, ◌≤◌, ◌+◌, ◌∷◌, [], Some, IfOk, IfSome, drop, false, length, map};
ghost use Rattle.lfs_model.specs.format.Slots.{address_of_array};
ghost use Rattle.lfs_model.specs.format.Thread.{pairs_gstate, unmoved_entries};
ghost use Rattle.lfs_model.specs.session.History.{read_count};
ghost use Rattle.lfs_tag.specs.FieldsView.{move_view};
ghost use Rattle.lfs_thread.specs.ThreadSteps.{thread_pair};
ghost use Rattle.lfs_lookup.specs.CachedPairs.{ArePairsCached, KeepsCachedPairs};
ghost use Rattle.lfs_lookup.specs.AtPath.{has_entries_from};
ghost use Rattle.lfs_lookup.specs.Items.{items_view, named_struct};
ghost use Rattle.lfs_lookup.specs.Listed.{AreDirectoryEntries, joined_pairs, hard_tail_count_from, moved_slot_id, hard_tail_chain_from, directory_entries_from};
ghost use Rattle.lfs_lookup.specs.LookupReading.{ReadsOrReports};
ghost use Rattle.lfs_lookup.specs.Searchable.{CanReadPair};

use crate::items::{NameAndOwnedStruct, items_in_log};
use lfs_device::{BlockDevice, Error};
use lfs_pair::is_same_pair;
use lfs_tag::MoveState;
use lfs_tag::kinds::DELETE;
use lfs_thread::Thread;
use std::alloc::Global;

// Returns the id of the slot to which a pending move refers, if that slot is in the pair at address
// `at`.
fn moved_id_in(state: &MoveState, at: [u32; 2]) -> Option<usize>
    ensures { result ≡ moved_slot_id (move_view state.now) (address_of_array at) }
{
    if state.kind == DELETE && is_same_pair(state.pair, at) {
        Some(usize::from(state.id))
    } else {
        None
    }
}

// Returns the entries of one pair, without the slot to which a move in `state` refers.
fn pair_items<D: BlockDevice>(
    alloc: Global,
    thread: &mut Thread<D>,
    state: &MoveState,
    index: usize,
) -> Result<Vec<NameAndOwnedStruct>, Error>
    requires can { CanReadPair thread.old index }
    requires state { move_view state.now ≡ pairs_gstate thread.old.kept.pairs }
    ensures items { IfOk result (λ items. items_view items.items ≡ map named_struct (unmoved_entries (pairs_gstate thread.old.kept.pairs) (thread_pair thread.old.kept index))) }
    ensures few { read_count thread.new.kept.history ≤ read_count thread.old.kept.history + 1 }
    ensures loads { KeepsCachedPairs (thread_pair thread.old.kept index ∷ []) thread.old thread.new result }
    ensures reading { ReadsOrReports thread.old thread.new result }
{
    thread.load_pair(index)?;
    let moved = moved_id_in(state, thread.blocks_of_pair(index));
    items_in_log(alloc, &thread.lend(index).unwrap(), moved)
}

/// Returns the entries of one pair in the order of their slots. Leaves out the superblock, and the
/// slot to which a pending move refers (DESIGN.md of littlefs, "The move problem").
///
/// Errors: `Io` if the pair's block can't be read. `NoMemory` if memory for the block, its slots or
/// the entries can't be allocated.
pub fn pair_entries<D: BlockDevice>(
    alloc: Global,
    thread: &mut Thread<D>,
    index: usize,
) -> Result<Vec<NameAndOwnedStruct>, Error>
    requires works { thread.old.failed ≡ false }
    requires below { index < length thread.old.kept.pairs }
    ensures items { IfOk result (λ items. items_view items.items ≡ map named_struct (unmoved_entries (pairs_gstate thread.old.kept.pairs) (thread_pair thread.old.kept index))) }
    ensures few { read_count thread.new.kept.history ≤ read_count thread.old.kept.history + 1 }
    ensures reading { ReadsOrReports thread.old thread.new result }
{
    let state = thread.state();
    pair_items(alloc, thread, &state, index)
}

/// Returns the entries of the directory whose first pair has index `first`. `state` is the thread's
/// global state. Makes at most one read for each pair of the directory, and no read if all of these
/// pairs are cached.
///
/// Errors: `Io` if a read fails. `NoMemory` if memory can't be allocated.
pub fn directory_items<D: BlockDevice>(
    alloc: Global,
    thread: &mut Thread<D>,
    state: &MoveState,
    first: usize,
) -> Result<Vec<NameAndOwnedStruct>, Error>
    requires can { CanReadPair thread.old first }
    requires state { move_view state.now ≡ pairs_gstate thread.old.kept.pairs }
    ensures items { IfOk result (λ items. items_view items.items ≡ directory_entries_from thread.old.kept.pairs (Some first)) }
    ensures few { read_count thread.new.kept.history ≤ read_count thread.old.kept.history + hard_tail_count_from thread.old.kept.pairs (Some first) }
    ensures kept { ArePairsCached thread.old (joined_pairs (drop first thread.old.kept.pairs)) → read_count thread.new.kept.history ≡ read_count thread.old.kept.history }
    ensures reading { ReadsOrReports thread.old thread.new result }
{
    let mut items = Vec::new(alloc);
    let mut pair = Some(first);
    while let Some(index) = pair {
        let mut more = pair_items(alloc, thread, state, index)?;
        items.append(&mut more)?;
        pair = thread.next(index);
    }
    Ok(items)
}

/// Returns the entries of the directory whose first pair has index `first`, in the order of the
/// directory's pairs along the hard tails (SPEC.md of littlefs, "0x601 LFS_TYPE_HARDTAIL"). In an
/// accepted image, the entries are sorted in the disk's order of names. Makes at most one read for
/// each pair of the directory, and no read if all of these pairs are cached.
///
/// Errors are those of [`pair_entries`].
pub fn directory_pair_entries<D: BlockDevice>(
    alloc: Global,
    thread: &mut Thread<D>,
    first: usize,
) -> Result<Vec<NameAndOwnedStruct>, Error>
    requires { CanReadPair thread.old first }
    ensures items { IfOk result (λ items. items_view items.items ≡ directory_entries_from thread.old.kept.pairs (Some first)) }
    ensures entries { IfOk result (λ items. AreDirectoryEntries thread.old.kept.disk thread.old.kept.pairs first (items_view items.items)) }
    ensures few { read_count thread.new.kept.history ≤ read_count thread.old.kept.history + hard_tail_count_from thread.old.kept.pairs (Some first) }
    ensures kept { ArePairsCached thread.old (joined_pairs (drop first thread.old.kept.pairs)) → read_count thread.new.kept.history ≡ read_count thread.old.kept.history }
    ensures reading { ReadsOrReports thread.old thread.new result }
{
    let state = thread.state();
    let items = directory_items(alloc, thread, &state, first)?;
    Ok(items)
}

// Returns the entries of the directory whose first pair has index `from`, or no entries if `from`
// is None.
pub(crate) fn items_if_directory<D: BlockDevice>(
    alloc: Global,
    thread: &mut Thread<D>,
    from: Option<usize>,
) -> Result<Vec<NameAndOwnedStruct>, Error>
    requires works { thread.old.failed ≡ false }
    requires below { IfSome from (λ first. first < length thread.old.kept.pairs) }
    ensures items { IfOk result (λ items. items_view items.items ≡ directory_entries_from thread.old.kept.pairs from) }
    ensures few { read_count thread.new.kept.history ≤ read_count thread.old.kept.history + hard_tail_count_from thread.old.kept.pairs from }
    ensures kept { ArePairsCached thread.old (hard_tail_chain_from thread.old.kept.pairs from) → read_count thread.new.kept.history ≡ read_count thread.old.kept.history }
    ensures reading { ReadsOrReports thread.old thread.new result }
{
    match from {
        Some(first) => directory_pair_entries(alloc, thread, first),
        None => Ok(Vec::new(alloc)),
    }
}

/// Returns whether the directory whose first pair has index `from` has an entry. Returns false if
/// `from` is None. Makes at most one read for each pair of the directory.
///
/// Errors are those of [`pair_entries`].
pub fn has_entries<D: BlockDevice>(
    alloc: Global,
    thread: &mut Thread<D>,
    from: Option<usize>,
) -> Result<bool, Error>
    requires works { thread.old.failed ≡ false }
    requires below { IfSome from (λ first. first < length thread.old.kept.pairs) }
    ensures has { IfOk result (λ has. has ≡ has_entries_from thread.old.kept.pairs from) }
    ensures few { read_count thread.new.kept.history ≤ read_count thread.old.kept.history + hard_tail_count_from thread.old.kept.pairs from }
    ensures reading { ReadsOrReports thread.old thread.new result }
{
    let mut pair = from;
    while let Some(index) = pair {
        let items = pair_entries(alloc, thread, index)?;
        if items.len() > 0 {
            return Ok(true);
        }
        pair = thread.next(index);
    }
    Ok(false)
}
