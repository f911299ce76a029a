// A search for a name among a log's slots.

ghost use Rattle.std.specs.Prelude.{◌≡◌, ℕ, ◌+◌, ◌≤◌, ◌<◌, ◌^◌, [], length, map, max, slice_set, IsTrue, Some, None};
ghost use Rattle.std.specs.List.{insert, remove};
ghost use Rattle.arrayvec.specs.ArrayVec.{array_vec_len};
ghost use Rattle.lfs_model.specs.format.Log.{block_entries};
ghost use Rattle.lfs_model.specs.format.Content.{RawContent, content_after, empty_raw_content, slot_of_id};
ghost use Rattle.lfs_tag.specs.Find.{ordering_comparison, comparison_with_entry, comparison_with_slot, padded_comparisons, comparisons_after_splice, comparisons_after_entry, comparisons_after, is_wanted, is_skipped, is_wanted_slot, first_wanted_slot};
ghost use Rattle.lfs_tag.specs.FindView.{IsNameLookup, lookup_of_comparisons};
ghost use Rattle.lfs_tag.specs.LogEntryView.{log_entry_view};

use crate::entry::Entry;
use crate::kinds::{CREATE, NAME_CLASS, SPLICE_CLASS, SUPERBLOCK_NAME};
use crate::log::Log;
use crate::names::name_cmp;
use crate::search::name_of_slot;
use crate::slot_count::slot_count;
use crate::steps::Steps;
use arrayvec::ArrayVec;
use lfs_model::NameOrder;
use std::cmp::Ordering;

/// The result of a search for a name among a log's slots.
#[derive(Clone, Copy, Debug, PartialEq, Eq, Drop)]
pub enum Lookup {
    /// The smallest id whose slot has the name.
    Found(u16),
    /// No slot has the name. The id is that of the first slot with a greater name, or the number of
    /// slots if no name is greater. A new slot with the name belongs there.
    Place(u16),
}

const BLOCK_MAX: usize = 65536;

// The maximum number of slots for which one pass over a log's entries suffices.
const ROOM: usize = 1024;

// The comparison of a slot's name with the wanted name.
#[derive(Clone, Copy, Default, Drop)]
enum NameComparison {
    // The slot has no name, has the superblock's name, or has a name less than the wanted one.
    #[default]
    NoneOrLess,
    Same,
    Greater,
}

type Ranks = ArrayVec<NameComparison, ROOM>;

/// Finds a name among a log's slots and returns its id. If no slot has the name, returns the id at
/// which the name belongs, before the first slot whose name is greater in `order`. Superblock slots
/// and the slot `skip` keep their ids but are never found.
///
/// Requires a log that isn't malformed, in a block of at most 65,536 bytes; otherwise the result is
/// unspecified. Doesn't allocate memory. If the log never has more than 1,024 slots, `find` reads
/// the entries once and compares each name once. Otherwise, `find` searches the log for each slot's
/// name.
pub fn find(log: &Log<'_>, order: NameOrder, name: &[u8], skip: Option<u16>) -> Lookup
    ensures { (c : RawContent) → content_after empty_raw_content (block_entries log.now) ≡ Some c → length log.now ≤ 2 ^ 16 → IsNameLookup order name.now skip c.slots result }
{
    if BLOCK_MAX < log.block().len() {
        return Lookup::Place(0);
    }
    let mut ranks = Ranks::new();
    if comparisons_of_slots(&mut ranks, log, order, name) {
        find_by_comparisons(&ranks, skip)
    } else {
        find_by_ids(log, order, name, skip)
    }
}

// Returns the wanted name's id, or the id at which it belongs, given the comparisons of all slots.
fn find_by_comparisons(ranks: &[NameComparison], skip: Option<u16>) -> Lookup
    requires { length ranks.now < 2 ^ 16 }
    ensures { result ≡ lookup_of_comparisons skip ranks.now }
{
    let found = first_wanted(ranks, true, skip);
    if found < ranks.len() {
        Lookup::Found(found as u16)
    } else {
        Lookup::Place(first_wanted(ranks, false, skip) as u16)
    }
}

// Returns the wanted name's id, or the id at which it belongs, by searching the log for each slot's
// name. The log may have any number of slots.
fn find_by_ids(log: &Log<'_>, order: NameOrder, name: &[u8], skip: Option<u16>) -> Lookup
    requires { length log.now ≤ 2 ^ 16 }
    ensures { (c : RawContent) → content_after empty_raw_content (block_entries log.now) ≡ Some c → result ≡ lookup_of_comparisons skip (map (comparison_with_slot order name.now) c.slots) }
{
    let count = slot_count(log);
    let found = first_wanted_id(log, order, name, true, skip, count);
    if found < count {
        Lookup::Found(found as u16)
    } else {
        Lookup::Place(first_wanted_id(log, order, name, false, skip, count) as u16)
    }
}

// Searches for the wanted name if `same` is set, otherwise for a greater name. Returns the first
// matching id below `count`, or `count` if no slot matches. The slot `skip` never matches.
fn first_wanted_id(
    log: &Log<'_>,
    order: NameOrder,
    name: &[u8],
    same: bool,
    skip: Option<u16>,
    count: usize,
) -> usize
    requires { count < 2 ^ 16 }
    ensures first { (c : RawContent) → content_after empty_raw_content (block_entries log.now) ≡ Some c → count ≡ length c.slots → result ≡ first_wanted_slot same skip 0 (map (comparison_with_slot order name.now) c.slots) }
    ensures within { result ≤ count }
{
    for id in 0..count {
        let rank = compare_slot_name(log, order, name, id as u16);
        if named_as_wanted(same, skip, id, rank) {
            return id;
        }
    }
    count
}

// Compares a slot's name with the wanted name.
fn compare_slot_name(log: &Log<'_>, order: NameOrder, name: &[u8], id: u16) -> NameComparison
    ensures { (c : RawContent) → content_after empty_raw_content (block_entries log.now) ≡ Some c → result ≡ comparison_with_slot order name.now (slot_of_id c.slots id) }
{
    match name_of_slot(log, id, &mut Steps::new()) {
        Some(part) if part.kind != SUPERBLOCK_NAME => comparison_by_ordering(name_cmp(
            order, name, part.bytes,
        )),
        _ => NameComparison::NoneOrLess,
    }
}

// Compares the names of all slots of a log with the wanted name. Returns false if `ranks` is too
// short for all slots.
#[tactic(auto, using(crate::proofs::Ranks::few_entries))]
fn comparisons_of_slots(ranks: &mut Ranks, log: &Log<'_>, order: NameOrder, name: &[u8]) -> bool
    requires { ranks.old.items ≡ [] }
    ensures { IsTrue result → ranks.new.items ≡ comparisons_after order name.now [] (block_entries log.now) }
{
    for entry in log.entries() {
        if !apply_to_comparisons(ranks, order, name, &entry) {
            return false;
        }
    }
    true
}

// Applies an entry to the comparisons. Returns false if `ranks` is too short for another slot.
fn apply_to_comparisons(ranks: &mut Ranks, order: NameOrder, name: &[u8], entry: &Entry<'_>) -> bool
    ensures { IsTrue result → ranks.new.items ≡ comparisons_after_entry order name.now ranks.old.items (log_entry_view entry.now) }
{
    let class = entry.tag.class();
    if class == NAME_CLASS {
        let rank = compare_with_entry(order, name, entry);
        set_comparison(ranks, usize::from(entry.tag.id()), rank);
        true
    } else if class == SPLICE_CLASS {
        splice_comparisons(ranks, entry)
    } else {
        true
    }
}

// Compares the name that an entry sets with the wanted name.
fn compare_with_entry(order: NameOrder, name: &[u8], entry: &Entry<'_>) -> NameComparison
    ensures { result ≡ comparison_with_entry order name.now (log_entry_view entry.now) }
{
    if entry.tag.kind() == SUPERBLOCK_NAME {
        NameComparison::NoneOrLess
    } else {
        comparison_by_ordering(name_cmp(order, name, entry.bytes))
    }
}

// Converts the ordering of the wanted name and a slot's name to a comparison.
fn comparison_by_ordering(ordering: Ordering) -> NameComparison
    ensures { result ≡ ordering_comparison ordering }
{
    match ordering {
        Ordering::Less => NameComparison::Greater,
        Ordering::Equal => NameComparison::Same,
        Ordering::Greater => NameComparison::NoneOrLess,
    }
}

// Sets the comparison of a slot. If the slot doesn't exist, first appends slots without a name up
// to and including `id`.
fn set_comparison(ranks: &mut Ranks, id: usize, rank: NameComparison)
    requires { id < 1024 }
    ensures { ranks.new.items ≡ slice_set (padded_comparisons ranks.old.items id) id rank }
{
    pad_comparisons(ranks, id);
    ranks[id] = rank;
}

// Appends slots without a name until the slot `id` exists.
fn pad_comparisons(ranks: &mut Ranks, id: usize)
    requires { id < 1024 }
    ensures ranks { ranks.new.items ≡ padded_comparisons ranks.old.items id }
    ensures long { id < array_vec_len ranks.new }
{
    while ranks.len() <= id {
        ranks.push(NameComparison::NoneOrLess);
    }
}

// Applies a create or a delete. Returns false if `ranks` is too short for another slot.
fn splice_comparisons(ranks: &mut Ranks, entry: &Entry<'_>) -> bool
    ensures { IsTrue result → ranks.new.items ≡ comparisons_after_splice ranks.old.items (log_entry_view entry.now) }
{
    let id = usize::from(entry.tag.id());
    if entry.tag.kind() == CREATE {
        if ranks.is_full() {
            return false;
        }
        if id <= ranks.len() {
            ranks.insert(id, NameComparison::NoneOrLess);
        }
    } else if id < ranks.len() {
        ranks.remove(id);
    }
    true
}

// Searches for the wanted name if `same` is set, otherwise for a greater name. Returns the first
// matching id, or the number of slots if no slot matches. The slot `skip` never matches.
fn first_wanted(ranks: &[NameComparison], same: bool, skip: Option<u16>) -> usize
    ensures first { result ≡ first_wanted_slot same skip 0 ranks.now }
    ensures within { result ≤ length ranks.now }
{
    for (id, rank) in ranks.iter().enumerate() {
        if named_as_wanted(same, skip, id, *rank) {
            return id;
        }
    }
    ranks.len()
}

fn named_as_wanted(same: bool, skip: Option<u16>, id: usize, rank: NameComparison) -> bool
    ensures { result ≡ is_wanted_slot same skip id rank }
{
    is_as_wanted(same, rank) && !skips_id(skip, id)
}

fn is_as_wanted(same: bool, rank: NameComparison) -> bool
    ensures { result ≡ is_wanted same rank }
{
    match rank {
        NameComparison::NoneOrLess => false,
        NameComparison::Same => same,
        NameComparison::Greater => !same,
    }
}

fn skips_id(skip: Option<u16>, id: usize) -> bool
    ensures { result ≡ is_skipped skip id }
{
    match skip {
        Some(skipped) => usize::from(skipped) == id,
        None => false,
    }
}
