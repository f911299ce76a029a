// Searches for names in a directory, along its metadata pairs.

ghost use Rattle.std.specs.Prelude.{◌≡◌, ◌<◌, ◌≤◌, ◌+◌, ◌-◌, ◌/◌, ◌∷◌, [], false, length, drop, IfOk, IfSome, IsSome, OnOk};
ghost use Rattle.lfs_model.specs.session.History.{read_count};
ghost use Rattle.lfs_model.specs.session.InDirectory.{HaveNoSuperblock, joined_pair_count};
ghost use Rattle.lfs_model.specs.format.Slots.{PairContent};
ghost use Rattle.lfs_thread.specs.CachedLog.{IsContentLog, cached_log};
ghost use Rattle.lfs_thread.specs.ThreadSteps.{thread_pair};
ghost use Rattle.lfs_lookup.specs.CachedPairs.{KeepsCachedPairs};
ghost use Rattle.lfs_lookup.specs.Listed.{joined_pairs};
ghost use Rattle.lfs_lookup.specs.LookupReading.{ReadsOrReports};
ghost use Rattle.lfs_lookup.specs.Halves.{LastHasNoHardTail};
ghost use Rattle.lfs_lookup.specs.NameSearch.{IsNamePositionInDirectory, IsNamePositionInPair, IsVisibleNameResult, EachSlotHasStruct, AreDirectoryNamesSorted, CachesFoundPair, SearchStartsAt, skipped_id};
ghost use Rattle.lfs_lookup.specs.Reads.{ReadsDirectoryOnce};
ghost use Rattle.lfs_lookup.specs.Searchable.{CanReadPair};

use crate::entry::{FileOrDirectory, entry_of_struct};
use lfs_device::{BlockDevice, Error};
use lfs_model::NameOrder;
use lfs_tag::{Log, Lookup, Steps, find, struct_of_slot};
use lfs_thread::Thread;

/// The position of a slot: the index of its pair in the thread, and its id in the pair.
#[derive(Clone, Copy, Debug, PartialEq, Eq, Drop)]
pub struct SlotPosition {
    pub pair: usize,
    pub id: u16,
}

// The result of a search for a name in a directory.
#[derive(Clone, Copy, Debug, PartialEq, Eq, Drop)]
pub(crate) enum NamePositionInDirectory {
    // The slot that has the name, and the entry in that slot.
    Found(SlotPosition, FileOrDirectory),
    // The directory doesn't have the name, which would be inserted before this slot.
    Place(SlotPosition),
}

// The result of a search for a name in a pair.
#[derive(Drop)]
enum NamePositionInPair {
    Found(u16, FileOrDirectory),
    Place(u16),
}

// Finds a name among the slots of a log. Skips the slot with the id `skip`.
fn find_in_log(
    log: &Log<'_>,
    order: NameOrder,
    name: &[u8],
    skip: Option<u16>,
) -> NamePositionInPair
    requires { EachSlotHasStruct log.now }
    ensures { (content : PairContent) → IsContentLog log.now content → IsNamePositionInPair order skip content.slots name.now result }
{
    match find(log, order, name, skip) {
        Lookup::Found(id) => {
            let structure = struct_of_slot(log, id, &mut Steps::new()).unwrap();
            NamePositionInPair::Found(id, entry_of_struct(&structure))
        }
        Lookup::Place(id) => NamePositionInPair::Place(id),
    }
}

// Finds a name in one pair. Skips the slot with the id `skip`.
fn find_in_pair<D: BlockDevice>(
    thread: &mut Thread<D>,
    pair: usize,
    name: &[u8],
    skip: Option<u16>,
) -> Result<NamePositionInPair, Error>
    requires { CanReadPair thread.old pair }
    ensures answer { IfOk result (IsNamePositionInPair thread.old.kept.disk.order skip (thread_pair thread.old.kept pair).content.slots name.now) }
    ensures cached_log { OnOk result (IsSome (cached_log thread.new pair)) }
    ensures few { read_count thread.new.kept.history ≤ read_count thread.old.kept.history + 1 }
    ensures loads { KeepsCachedPairs (thread_pair thread.old.kept pair ∷ []) thread.old thread.new result }
    ensures reading { ReadsOrReports thread.old thread.new result }
{
    thread.load_pair(pair)?;
    let order = thread.order();
    let log = thread.lend(pair).unwrap();
    Ok(find_in_log(&log, order, name, skip))
}

// Returns the index after the last pair of the directory whose first pair has index `first`. A
// directory continues along hard tails (SPEC.md of littlefs, "0x601 LFS_TYPE_HARDTAIL").
fn directory_end<D: BlockDevice>(thread: &Thread<D>, first: usize) -> usize
    requires works { thread.now.failed ≡ false }
    requires below { first < length thread.now.kept.pairs }
    ensures count { result ≡ first + joined_pair_count (drop first thread.now.kept.pairs) }
    ensures within { result ≤ length thread.now.kept.pairs }
    ensures soft { LastHasNoHardTail (joined_pairs (drop first thread.now.kept.pairs)) }
{
    let count = thread.len();
    let mut pair = first;
    while let Some(next) = thread.next(pair) {
        pair = next;
    }
    if pair < count { pair + 1 } else { count }
}

// Returns the index of the pair to search next, among the pairs from `low` to just before `high`.
// This is the middle pair, or the pair `low` if the middle one has no slots.
fn middle_search_pair<D: BlockDevice>(thread: &Thread<D>, low: usize, high: usize) -> usize
    requires works { thread.now.failed ≡ false }
    requires some { low < high }
    requires below { high ≤ length thread.now.kept.pairs }
    ensures within { (low ≤ result) × (result < high) }
    ensures middle { 0 < length (thread_pair thread.now.kept (low + (high - low) / 2)).content.slots → result ≡ low + (high - low) / 2 }
    ensures low { length (thread_pair thread.now.kept result).content.slots ≡ 0 → result ≡ low }
{
    let middle = low + (high - low) / 2;
    if thread.slot_count(middle) > 0 {
        middle
    } else {
        low
    }
}

// Returns the index of the pair at which the search of a directory begins: the first pair, or the
// next one if the first has no slots. So a new name isn't written to a first pair that was emptied.
fn first_searched_pair<D: BlockDevice>(thread: &Thread<D>, first: usize) -> usize
    requires can { CanReadPair thread.now first }
    ensures { SearchStartsAt thread.now.kept first result }
{
    match thread.next(first) {
        Some(next) if thread.slot_count(first) == 0 => next,
        _ => first,
    }
}

// Searches as `find_name` does, in the directory's pairs from index `first` on.
fn binary_search_name<D: BlockDevice>(
    thread: &mut Thread<D>,
    first: usize,
    name: &[u8],
) -> Result<NamePositionInDirectory, Error>
    requires can { CanReadPair thread.old first }
    requires entries { HaveNoSuperblock (drop (first + 1) thread.old.kept.pairs) }
    ensures answer { IfOk result (IsNamePositionInDirectory thread.old.kept.disk.order thread.old.kept.pairs first name.now) }
    ensures cached_log { IfOk result (CachesFoundPair thread.new) }
    ensures reads { ReadsDirectoryOnce None first thread.old thread.new result }
    ensures reading { ReadsOrReports thread.old thread.new result }
{
    let mut low = first;
    let mut high = directory_end(thread, first);
    let mut spot = SlotPosition { pair: first, id: 0 };
    while low < high {
        let pair = middle_search_pair(thread, low, high);
        let count = thread.slot_count(pair);
        if count == 0 && pair > first {
            // This pair has no names, and all names before it are less.
            low = pair + 1;
            continue;
        }
        let id = match find_in_pair(thread, pair, name, None)? {
            NamePositionInPair::Found(id, entry) => return Ok(NamePositionInDirectory::Found(
                SlotPosition { pair, id },
                entry,
            )),
            NamePositionInPair::Place(id) => id,
        };
        if id == 0 && count > 0 {
            // All names from this pair on are greater.
            high = pair;
            continue;
        }
        spot = SlotPosition { pair, id };
        if usize::from(id) < count {
            return Ok(NamePositionInDirectory::Place(spot));
        }
        // All names up to this pair are less.
        low = pair + 1;
    }
    Ok(NamePositionInDirectory::Place(spot))
}

// Finds a name in the directory whose first pair has index `first`, or finds where the name would
// be inserted. Ignores a pending move, unlike `find_visible`. The search is binary because a
// directory's names are sorted along its pairs. Makes at most one read for each pair of the
// directory, and at most 1 + log2 n reads if each of its n pairs has a slot.
//
// Errors: `Io` if a read fails. `NoMemory` if memory for a block can't be allocated. Neither error
// makes the thread fail.
pub(crate) fn find_name<D: BlockDevice>(
    thread: &mut Thread<D>,
    first: usize,
    name: &[u8],
) -> Result<NamePositionInDirectory, Error>
    requires can { CanReadPair thread.old first }
    requires entries { HaveNoSuperblock (drop (first + 1) thread.old.kept.pairs) }
    ensures answer { IfOk result (IsNamePositionInDirectory thread.old.kept.disk.order thread.old.kept.pairs first name.now) }
    ensures cached_log { IfOk result (CachesFoundPair thread.new) }
    ensures reads { ReadsDirectoryOnce None first thread.old thread.new result }
    ensures reading { ReadsOrReports thread.old thread.new result }
{
    let start = first_searched_pair(thread, first);
    binary_search_name(thread, start, name)
}

// Finds the entry with a name in one pair after another. The slot `moved` counts as deleted. All
// other clauses are those of `find_visible`.
fn linear_search_name<D: BlockDevice>(
    thread: &mut Thread<D>,
    first: usize,
    name: &[u8],
    moved: Option<SlotPosition>,
) -> Result<Option<(SlotPosition, FileOrDirectory)>, Error>
    requires { CanReadPair thread.old first }
    ensures answer { IfOk result (IsVisibleNameResult thread.old.kept.pairs moved first name.now) }
    ensures cached_log { IfOk result (λ found. IfSome found (λ f. IsSome (cached_log thread.new f.0.pair))) }
    ensures few { read_count thread.new.kept.history ≤ read_count thread.old.kept.history + joined_pair_count (drop first thread.old.kept.pairs) }
    ensures loads { KeepsCachedPairs (joined_pairs (drop first thread.old.kept.pairs)) thread.old thread.new result }
    ensures reading { ReadsOrReports thread.old thread.new result }
{
    let mut pair = first;
    loop {
        let skip = id_to_skip(moved, pair);
        match find_in_pair(thread, pair, name, skip)? {
            NamePositionInPair::Found(id, entry) => return Ok(Some((
                SlotPosition { pair, id },
                entry,
            ))),
            NamePositionInPair::Place(_) => {}
        }
        pair = match thread.next(pair) {
            Some(next) => next,
            None => return Ok(None),
        };
    }
}

/// Finds the entry with a name in the directory whose first pair has index `first`. The slot
/// `moved`, to which a pending move refers, counts as deleted (DESIGN.md of littlefs, "The move
/// problem"). Returns None if no entry has the name. The pair that has the name is cached
/// afterwards.
///
/// Makes at most one read for each pair of the directory, and no read if all of these pairs are
/// cached. If `moved` is None, the search is binary: it makes at most 1 + log2 n reads if each of
/// the directory's n pairs has a slot. A binary search requires that the directory's names are
/// sorted, as in an accepted image, and that no later pair of the thread has a superblock.
///
/// Errors: `Io` if a read fails. `NoMemory` if memory for a block can't be allocated. Neither error
/// makes the thread fail.
pub fn find_visible<D: BlockDevice>(
    thread: &mut Thread<D>,
    first: usize,
    name: &[u8],
    moved: Option<SlotPosition>,
) -> Result<Option<(SlotPosition, FileOrDirectory)>, Error>
    requires can { CanReadPair thread.old first }
    requires in_order { moved ≡ None → AreDirectoryNamesSorted thread.old.kept.disk.order thread.old.kept.pairs first }
    ensures answer { IfOk result (IsVisibleNameResult thread.old.kept.pairs moved first name.now) }
    ensures cached_log { IfOk result (λ found. IfSome found (λ f. IsSome (cached_log thread.new f.0.pair))) }
    ensures reads { ReadsDirectoryOnce moved first thread.old thread.new result }
    ensures reading { ReadsOrReports thread.old thread.new result }
{
    match moved {
        Some(_) => linear_search_name(thread, first, name, moved),
        None => match find_name(thread, first, name)? {
            NamePositionInDirectory::Found(spot, entry) => Ok(Some((spot, entry))),
            NamePositionInDirectory::Place(_) => Ok(None),
        },
    }
}

// Returns the id to skip in a pair, if any.
fn id_to_skip(moved: Option<SlotPosition>, pair: usize) -> Option<u16>
    ensures { result ≡ skipped_id moved pair }
{
    match moved {
        Some(spot) if spot.pair == pair => Some(spot.id),
        _ => None,
    }
}
