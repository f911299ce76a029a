// A search for the newest entry of a type for an id, from the end of the log backward.

ghost use Rattle.std.specs.Prelude.{◌≡◌, ℕ, ◌+◌, ◌-◌, ◌≤◌, ◌<◌, ◌^◌, ◌/◌, length, reverse, min, Some};
ghost use Rattle.std.specs.Option.{option_copied, option_map};
ghost use Rattle.lfs_model.specs.format.Log.{block_entries};
ghost use Rattle.lfs_model.specs.format.Content.{RawContent, content_after, empty_raw_content, slot_of_id};
ghost use Rattle.lfs_model.specs.layers.Lookup.{bytes_at, bytes_if_type};
ghost use Rattle.lfs_tag.specs.ContentView.{part_view};
ghost use Rattle.lfs_tag.specs.EntrySearch.{splice_effect_of, slot_effect, found_in_entries, searched_count};
ghost use Rattle.lfs_tag.specs.VerdictView.{entry_effect_view};
ghost use Rattle.lfs_tag.specs.LogEntryView.{log_entry_view};

use crate::content::NameOrStruct;
use crate::entries::Entries;
use crate::entry::Entry;
use crate::kinds::{ATTRIBUTE_CLASS, CREATE, NAME_CLASS, SPLICE_CLASS, STRUCT_CLASS};
use crate::log::Log;
use crate::steps::Steps;

// What an entry says about the slot that has a given id after the entry.
enum EntryEffect<'a> {
    // The slot's name, struct or attribute after the entry, or None if it has none.
    Holds(Option<NameOrStruct<'a>>),
    // The entry says nothing about the slot, which had this id before the entry.
    Was(u64),
}

// Returns what a create or a delete says about the slot that has this id after the entry.
fn splice_effect<'a>(entry: &Entry<'a>, id: u64) -> EntryEffect<'a>
    requires { id < 2 ^ 64 - 1 }
    ensures { entry_effect_view result ≡ splice_effect_of (log_entry_view entry.now) id }
{
    let at = u64::from(entry.tag.id());
    if entry.tag.kind() == CREATE {
        if at == id {
            EntryEffect::Holds(None)
        } else {
            EntryEffect::Was(if at < id { id - 1 } else { id })
        }
    } else {
        EntryEffect::Was(if at <= id { id + 1 } else { id })
    }
}

// Returns what an entry says about the slot that has this id after the entry, for the type `kind`.
fn effect_on_id<'a>(entry: &Entry<'a>, kind: u16, id: u64) -> EntryEffect<'a>
    requires { id < 2 ^ 64 - 1 }
    ensures { entry_effect_view result ≡ slot_effect (log_entry_view entry.now) kind id }
{
    let tag = entry.tag;
    let class = tag.class();
    let at = u64::from(tag.id());
    if class == SPLICE_CLASS {
        return splice_effect(entry, id);
    }
    let is_about = at == id
        && class < SPLICE_CLASS
        && class == kind >> 8
        && (class != ATTRIBUTE_CLASS || tag.kind() == kind);
    if !is_about {
        EntryEffect::Was(id)
    } else if tag.has_removal_length() {
        EntryEffect::Holds(None)
    } else {
        EntryEffect::Holds(Some(NameOrStruct {
            kind: tag.kind(),
            bytes: entry.bytes,
        }))
    }
}

// Searches the entries from the newest to the oldest. Returns what was found and the number of
// entries that were examined.
fn search_newest<'a>(
    mut entries: Entries<'a>,
    kind: u16,
    mut id: u64,
) -> (Option<NameOrStruct<'a>>, u64)
    requires { id + length entries < 2 ^ 63 }
    ensures found { option_map part_view result.0 ≡ found_in_entries (reverse entries.entry) kind id }
    ensures looks { result.1 ≡ searched_count (reverse entries.entry) kind id }
{
    let mut looks = 0;
    while let Some(entry) = entries.next_back() {
        looks += 1;
        match effect_on_id(&entry, kind, id) {
            EntryEffect::Holds(part) => return (part, looks),
            EntryEffect::Was(earlier) => id = earlier,
        }
    }
    (None, looks)
}

// Returns what the newest matching entry sets for a slot, or None. An entry matches if it sets an
// attribute of type `kind`, or a name or struct of any type in the class of `kind`. Adds the number
// of examined entries to `steps`.
fn newest_of_slot<'a>(
    log: &Log<'a>,
    kind: u16,
    id: u16,
    steps: &mut Steps,
) -> Option<NameOrStruct<'a>>
    ensures found { option_map part_view result ≡ found_in_entries (reverse (block_entries log.now)) kind id }
    ensures steps { steps.new ≡ min (steps.old + searched_count (reverse (block_entries log.now)) kind id) (2 ^ 64 - 1) }
    ensures bound { steps.new ≤ steps.old + length (block_entries log.now) }
{
    let found = search_newest(log.entries(), kind, u64::from(id));
    steps.add(found.1);
    found.0
}

// Returns the bytes of a name, struct or attribute if its type is `kind`.
fn matching_bytes<'a>(part: Option<NameOrStruct<'a>>, kind: u16) -> Option<&'a [u8]>
    ensures { option_copied result ≡ bytes_if_type kind (option_map part_view part.entry) }
{
    match part {
        Some(part) if part.kind == kind => Some(part.bytes),
        _ => None,
    }
}

/// Returns the bytes of a slot's name, struct or attribute of type `kind`. Returns None if and only
/// if the slot has no name, struct or attribute of type `kind`.
///
/// Requires a log that isn't malformed. Adds the number of entries that the search examined, which
/// is at most the number of entries in the log, to `steps`.
pub fn get<'a>(log: &Log<'a>, kind: u16, id: u16, steps: &mut Steps) -> Option<&'a [u8]>
    ensures held { (c : RawContent) → content_after empty_raw_content (block_entries log.now) ≡ Some c → option_copied result ≡ bytes_at c.slots kind id }
    ensures steps { steps.new ≡ min (steps.old + searched_count (reverse (block_entries log.now)) kind id) (2 ^ 64 - 1) }
    ensures bound { steps.new ≤ steps.old + length (block_entries log.now) }
{
    matching_bytes(newest_of_slot(log, kind, id, steps), kind)
}

/// Returns a slot's name and the name's type, or None if the slot has no name or doesn't exist.
/// Requires a log that isn't malformed. Adds the number of entries that the search examined to
/// `steps`.
pub fn name_of_slot<'a>(log: &Log<'a>, id: u16, steps: &mut Steps) -> Option<NameOrStruct<'a>>
    ensures held { (c : RawContent) → content_after empty_raw_content (block_entries log.now) ≡ Some c → option_map part_view result ≡ (slot_of_id c.slots id).name }
    ensures steps { steps.new ≡ min (steps.old + searched_count (reverse (block_entries log.now)) 0 id) (2 ^ 64 - 1) }
    ensures bound { steps.new ≤ steps.old + length (block_entries log.now) }
{
    newest_of_slot(log, NAME_CLASS << 8, id, steps)
}

/// Returns a slot's struct and the struct's type, or None if the slot has no struct or doesn't
/// exist. Requires a log that isn't malformed. Adds the number of entries that the search examined
/// to `steps`.
pub fn struct_of_slot<'a>(log: &Log<'a>, id: u16, steps: &mut Steps) -> Option<NameOrStruct<'a>>
    ensures held { (c : RawContent) → content_after empty_raw_content (block_entries log.now) ≡ Some c → option_map part_view result ≡ (slot_of_id c.slots id).struct }
    ensures steps { steps.new ≡ min (steps.old + searched_count (reverse (block_entries log.now)) 0x200 id) (2 ^ 64 - 1) }
    ensures bound { steps.new ≤ steps.old + length (block_entries log.now) }
{
    newest_of_slot(log, STRUCT_CLASS << 8, id, steps)
}
