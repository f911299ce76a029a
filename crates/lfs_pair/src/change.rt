// Changes to the content of a pair.

ghost use Rattle.std.specs.Prelude.{◌≡◌, ◌<◌, ◌≤◌, ◌^◌, ◌++◌, true, [], ◌∷◌, length, Some};
ghost use Rattle.std.specs.List.{list_all};
ghost use Rattle.std.specs.Option.{option_map};
ghost use Rattle.lfs_model.specs.format.Slots.{address_of_array};
ghost use Rattle.lfs_model.specs.format.Content.{content_after_entry, content_after};
ghost use Rattle.lfs_model.specs.format.EntryTypes.{tail_if_not_null as tail_with_pair};
ghost use Rattle.lfs_model.specs.layers.WrittenContent.{log_entry, tail_or_null};
ghost use Rattle.lfs_model.specs.layers.Changes.{change_entries, entries_of_changes, is_storable, RemoveAttribute};
ghost use Rattle.lfs_tag.specs.ContentView.{content_view, tail_view};
ghost use Rattle.lfs_tag.specs.ContentGives.{GivesWithMemory};
ghost use Rattle.lfs_pair.specs.ChangeView.{change_view, changes_view};

use lfs_tag::kinds::{ATTRIBUTE, CREATE, DELETE};
use lfs_tag::{Content, ContentError, Entry, MoveState, NULL_ADDRESS, Tag, Tail};
use std::alloc::Global;

/// A change to the content of a pair. Changes are applied in order, so an id refers to the slots
/// that result from the preceding changes.
#[derive(Clone, Copy, Drop)]
pub enum Change<'a> {
    /// Inserts a slot with a name at the id, which is at most the number of slots. `kind` is the
    /// type of the name.
    Create { id: u16, kind: u16, name: &'a [u8] },
    /// Removes the slot at the id, after which each greater id decreases by one.
    Delete { id: u16 },
    /// Sets the struct of the slot at the id. `kind` is the type of the struct.
    Struct { id: u16, kind: u16, bytes: &'a [u8] },
    /// Sets an attribute of the slot at the id and replaces one of the same type. The attribute's
    /// value has at most 1,022 bytes.
    Attr { id: u16, attr: u8, bytes: &'a [u8] },
    /// Removes the attribute of type `attr` from the slot at the id, if the slot has one.
    NoAttr { id: u16, attr: u8 },
    /// Sets the pair's tail, or removes it if `pair` is None.
    Tail { hard: bool, pair: Option<[u32; 2]> },
    /// Sets the pair's delta of the global state.
    Move { state: MoveState },
}

// Applies an entry with these fields to the content.
fn apply_entry_fields<'a>(
    alloc: Global,
    content: &mut Content<'a>,
    kind: u16,
    id: u16,
    bytes: &'a [u8],
) -> Result<(), ContentError>
    requires kind { kind < 2 ^ 11 }
    requires id { id < 2 ^ 10 }
    requires bytes { length bytes.now ≤ 1022 }
    ensures { GivesWithMemory (λ _. content_view content.new) result (content_after_entry (content_view content.old) (log_entry kind id bytes.now)) }
{
    let tag = Tag::new(kind, id, bytes.len() as u16);
    content.apply_next_entry(alloc, &Entry { tag, bytes })?;
    Ok(())
}

// Applies to the content an entry that removes an attribute.
fn apply_attribute_removal(
    alloc: Global,
    content: &mut Content<'_>,
    id: u16,
    attr: u8,
) -> Result<(), ContentError>
    requires { id < 2 ^ 10 }
    ensures { GivesWithMemory (λ _. content_view content.new) result (content_after (content_view content.old) (change_entries (RemoveAttribute id attr))) }
{
    let tag = Tag::new(ATTRIBUTE + u16::from(attr), id, 0x3ff);
    content.apply_next_entry(alloc, &Entry { tag, bytes: &[] })?;
    Ok(())
}

// Returns the tail that a change sets, or None if the change has no pair or two null addresses.
fn tail_unless_null(hard: bool, pair: Option<[u32; 2]>) -> Option<Tail>
    ensures { option_map tail_view result ≡ tail_with_pair hard (tail_or_null (option_map address_of_array pair)) }
{
    match pair {
        None => None,
        Some(pair) => {
            if pair[0] == NULL_ADDRESS && pair[1] == NULL_ADDRESS {
                None
            } else {
                Some(Tail { hard, pair })
            }
        }
    }
}

// Applies one change to the content. Returns the same errors as [`apply_all_changes`].
pub(crate) fn apply_change<'a>(
    alloc: Global,
    content: &mut Content<'a>,
    change: &Change<'a>,
) -> Result<(), ContentError>
    requires { is_storable (change_view change.now) ≡ true }
    ensures { GivesWithMemory (λ _. content_view content.new) result (content_after (content_view content.old) (change_entries (change_view change.now))) }
{
    match *change {
        Change::Create { id, kind, name } => {
            apply_entry_fields(alloc, content, CREATE, id, &[])?;
            apply_entry_fields(alloc, content, kind, id, name)?;
            Ok(())
        }
        Change::Delete { id } => {
            apply_entry_fields(alloc, content, DELETE, id, &[])?;
            Ok(())
        }
        Change::Struct { id, kind, bytes } => {
            apply_entry_fields(alloc, content, kind, id, bytes)?;
            Ok(())
        }
        Change::Attr { id, attr, bytes } => {
            apply_entry_fields(alloc, content, ATTRIBUTE + u16::from(attr), id, bytes)?;
            Ok(())
        }
        Change::NoAttr { id, attr } => {
            apply_attribute_removal(alloc, content, id, attr)?;
            Ok(())
        }
        Change::Tail { hard, pair } => {
            content.tail = tail_unless_null(hard, pair);
            Ok(())
        }
        Change::Move { state } => {
            content.move_state = state;
            Ok(())
        }
    }
}

/// Applies changes to the content of a pair, in order. Each change must be storable: an id must be
/// below 0x3ff, a type must be that of a name or a struct, and data must have at most 1,022 bytes.
/// A move state must have a type below 2,048 and an id below 1,024.
///
/// Errors: `NoMemory` if memory can't be allocated. `Malformed` if the format doesn't allow one of
/// the changes (SPEC.md of littlefs, "Metadata types"). The format allows neither a create with an
/// id above the number of slots, nor a delete, struct or attribute for an id that doesn't exist.
/// The format allows neither a struct or attribute for a slot without a name, nor an undefined type
/// or length. After an error, the content is unspecified.
pub fn apply_all_changes<'a>(
    alloc: Global,
    content: &mut Content<'a>,
    changes: &[Change<'a>],
) -> Result<(), ContentError>
    requires { list_all is_storable (changes_view changes.now) ≡ true }
    ensures { GivesWithMemory (λ _. content_view content.new) result (content_after (content_view content.old) (entries_of_changes (changes_view changes.now))) }
{
    for change in changes {
        match apply_change(alloc, content, change) {
            Ok(()) => {}
            Err(error) => return Err(error),
        }
    }
    Ok(())
}
