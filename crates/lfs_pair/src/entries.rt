// Pushes the entries of changes and contents into a commit.

ghost use Rattle.std.specs.Prelude.{◌≡◌, ◌≢◌, ◌+◌, ◌/◌, ◌<◌, ◌≤◌, ◌^◌, true, [], ◌∷◌, length, map};
ghost use Rattle.std.specs.List.{list_all};
ghost use Rattle.std.specs.Option.{option_map};
ghost use Rattle.lfs_model.specs.format.Slots.{address_of_array};
ghost use Rattle.lfs_model.specs.layers.LoggedContent.{AttributesInOrder, IsWellFormedSlot, AreWellFormed, IsWellFormed, MoveStateFits, IsNameOrStructIfAny};
ghost use Rattle.lfs_model.specs.layers.WrittenContent.{name_or_struct_entries, attribute_entries, slot_entries, entries_of_slots, tail_entries, tail_entry, move_entry, move_state_entries, content_entries, log_entry};
ghost use Rattle.lfs_model.specs.layers.Changes.{change_entries, entries_of_changes, is_storable, RemoveAttribute};
ghost use Rattle.lfs_tag.specs.ContentView.{part_view, attribute_view, slot_view, tail_view, content_view};
ghost use Rattle.lfs_tag.specs.FieldsView.{move_view};
ghost use Rattle.lfs_pair.specs.ChangeView.{change_view, changes_view};
ghost use Rattle.lfs_pair.specs.Writing.{commit_with_entries};

use crate::change::Change;
use lfs_tag::kinds::{ATTRIBUTE, CREATE, DELETE, HARD_TAIL, MOVE_STATE, SOFT_TAIL};
use lfs_tag::{
    Attribute, CommitBuilder, Content, MoveState, NULL_ADDRESS, NameOrStruct, Slot, Tag, Tail,
    move_state_bytes, pair_bytes,
};

// Pushes an entry with these fields.
fn push_log_entry(builder: &mut CommitBuilder<'_>, kind: u16, id: u16, bytes: &[u8])
    requires kind { kind < 2 ^ 11 }
    requires other { kind / 2 ^ 8 ≢ 5 }
    requires id { id < 2 ^ 10 }
    requires bytes { length bytes.now ≤ 1022 }
    ensures { builder.new ≡ commit_with_entries (log_entry kind id bytes.now ∷ []) builder.old }
{
    builder.push(Tag::new(kind, id, bytes.len() as u16), bytes);
}

// Pushes an entry that removes an attribute.
fn push_attribute_removal(builder: &mut CommitBuilder<'_>, id: u16, attr: u8)
    requires { id < 2 ^ 10 }
    ensures { builder.new ≡ commit_with_entries (change_entries (RemoveAttribute id attr)) builder.old }
{
    builder.push(Tag::new(ATTRIBUTE + u16::from(attr), id, Tag::REMOVED), &[]);
}

// Pushes a tail, with two null addresses if `pair` is None.
fn push_tail(builder: &mut CommitBuilder<'_>, hard: bool, pair: Option<[u32; 2]>)
    ensures { builder.new ≡ commit_with_entries (tail_entry hard (option_map address_of_array pair) ∷ []) builder.old }
{
    let kind = if hard { HARD_TAIL } else { SOFT_TAIL };
    let pair = pair.unwrap_or([NULL_ADDRESS, NULL_ADDRESS]);
    push_log_entry(builder, kind, Tag::NO_ID, &pair_bytes(pair));
}

// Pushes a move state.
fn push_move(builder: &mut CommitBuilder<'_>, state: &MoveState)
    requires { MoveStateFits (move_view state.now) }
    ensures { builder.new ≡ commit_with_entries (move_entry (move_view state.now) ∷ []) builder.old }
{
    push_log_entry(builder, MOVE_STATE, Tag::NO_ID, &move_state_bytes(state));
}

// ---- changes

// Pushes the entries of a change.
fn push_change(builder: &mut CommitBuilder<'_>, change: &Change<'_>)
    requires { is_storable (change_view change.now) ≡ true }
    ensures { builder.new ≡ commit_with_entries (change_entries (change_view change.now)) builder.old }
{
    match *change {
        Change::Create { id, kind, name } => {
            push_log_entry(builder, CREATE, id, &[]);
            push_log_entry(builder, kind, id, name);
        }
        Change::Delete { id } => push_log_entry(builder, DELETE, id, &[]),
        Change::Struct { id, kind, bytes } => push_log_entry(builder, kind, id, bytes),
        Change::Attr { id, attr, bytes } => {
            push_log_entry(builder, ATTRIBUTE + u16::from(attr), id, bytes);
        }
        Change::NoAttr { id, attr } => push_attribute_removal(builder, id, attr),
        Change::Tail { hard, pair } => push_tail(builder, hard, pair),
        Change::Move { state } => push_move(builder, &state),
    }
}

// Pushes the entries of all changes, in order.
pub(crate) fn push_changes(builder: &mut CommitBuilder<'_>, changes: &[Change<'_>])
    requires { list_all is_storable (changes_view changes.now) ≡ true }
    ensures { builder.new ≡ commit_with_entries (entries_of_changes (changes_view changes.now)) builder.old }
{
    for change in changes {
        push_change(builder, change);
    }
}

// ---- contents

// Pushes a name or a struct, if there is one.
fn push_part(builder: &mut CommitBuilder<'_>, id: u16, part: &Option<NameOrStruct<'_>>, class: u16)
    requires id { id < 2 ^ 10 }
    requires class { class < 5 }
    requires part { IsNameOrStructIfAny class (option_map part_view part.now) }
    ensures { builder.new ≡ commit_with_entries (name_or_struct_entries id (option_map part_view part.now)) builder.old }
{
    if let Some(part) = part {
        push_log_entry(builder, part.kind, id, part.bytes);
    }
}

// Pushes the attributes of a slot.
fn push_attributes(builder: &mut CommitBuilder<'_>, id: u16, attributes: &[Attribute<'_>])
    requires id { id < 2 ^ 10 }
    requires attributes { AttributesInOrder 0 (map attribute_view attributes.now) }
    ensures { builder.new ≡ commit_with_entries (attribute_entries id (map attribute_view attributes.now)) builder.old }
{
    for attribute in attributes {
        push_log_entry(
            builder,
            ATTRIBUTE + u16::from(attribute.kind),
            id,
            attribute.bytes,
        );
    }
}

// Pushes a slot: its name, its struct and its attributes.
fn push_slot(builder: &mut CommitBuilder<'_>, id: u16, slot: &Slot<'_>)
    requires id { id < 2 ^ 10 }
    requires parts { IsWellFormedSlot (slot_view slot.now) }
    ensures { builder.new ≡ commit_with_entries (slot_entries id (slot_view slot.now)) builder.old }
{
    push_part(builder, id, &slot.name, 0);
    push_part(builder, id, &slot.structure, 2);
    push_attributes(builder, id, &slot.attributes);
}

// Pushes the slots in order, starting at id 0.
fn push_slots(builder: &mut CommitBuilder<'_>, slots: &[Slot<'_>])
    requires few { length slots.now < 0x3ff }
    requires parts { AreWellFormed (map slot_view slots.now) }
    ensures { builder.new ≡ commit_with_entries (entries_of_slots 0 (map slot_view slots.now)) builder.old }
{
    let mut id = 0;
    for slot in slots {
        push_slot(builder, id, slot);
        id += 1;
    }
}

// Pushes a tail, if there is one.
fn push_optional_tail(builder: &mut CommitBuilder<'_>, tail: &Option<Tail>)
    ensures { builder.new ≡ commit_with_entries (tail_entries (option_map tail_view tail.now)) builder.old }
{
    if let Some(tail) = tail {
        push_tail(builder, tail.hard, Some(tail.pair));
    }
}

// Pushes a move state, unless it is zero.
fn push_optional_move(builder: &mut CommitBuilder<'_>, state: &MoveState)
    requires { MoveStateFits (move_view state.now) }
    ensures { builder.new ≡ commit_with_entries (move_state_entries (move_view state.now)) builder.old }
{
    if !state.is_none() {
        push_move(builder, state);
    }
}

// Pushes the entries that write the content into an empty log. These are each slot's name, struct
// and attributes in ascending order of type, then the tail if there is one, and then the move state
// unless it is zero.
pub(crate) fn push_content(builder: &mut CommitBuilder<'_>, content: &Content<'_>)
    requires logged { IsWellFormed (content_view content.now) }
    requires few { length (content_view content.now).slots < 0x3ff }
    ensures { builder.new ≡ commit_with_entries (content_entries (content_view content.now)) builder.old }
{
    push_slots(builder, &content.slots);
    push_optional_tail(builder, &content.tail);
    push_optional_move(builder, &content.move_state);
}
