// The content of a log, which is the result of applying its entries in order.

ghost use Rattle.std.specs.Prelude.{◌≡◌, ℕ, ◌+◌, ◌≤◌, ◌<◌, ◌++◌, [], ◌∷◌, length, map, OnOk, IfOk, IsTrue, remove, insert, vec_len, is_some, filter, not, ◌==◌, Some, None};
ghost use Rattle.std.specs.Option.{option_map};
ghost use Rattle.lfs_model.specs.format.Log.{block_entries};
ghost use Rattle.lfs_model.specs.format.EntryTypes.{is_known_tag, has_needed_id, entry_tail};
ghost use Rattle.lfs_model.specs.format.Content.{attributes_with, attributes_after, empty_slot, slot_of_id, slot_changed_at, padded_slots, slots_after, content_after_entry, content_after, empty_raw_content};
ghost use Rattle.lfs_model.specs.format.Thread.{is_hard_tail};
ghost use Rattle.lfs_tag.specs.LogEntryView.{log_entry_view};
ghost use Rattle.lfs_tag.specs.ContentView.{part_view, attribute_view, slot_view, tail_view, content_view, index_for_attribute};
ghost use Rattle.lfs_tag.specs.ContentGives.{GivesWithMemory};

use crate::entry::Entry;
use crate::fields::{MoveState, NULL_ADDRESS, address_from_bytes, move_from_bytes};
use crate::kinds::{
    ATTRIBUTE_CLASS, CHECKSUM_CLASS, CREATE, CTZ_STRUCT, DELETE, DIRECTORY_NAME, DIRECTORY_STRUCT,
    FILE_NAME, HARD_TAIL, INLINE_STRUCT, MOVE_CLASS, MOVE_STATE, NAME_CLASS, SOFT_TAIL,
    STRUCT_CLASS, SUPERBLOCK_NAME, TAIL_CLASS,
};
use crate::log::Log;
use crate::tag::Tag;
use lfs_device::Error;
use std::alloc::{AllocError, Global};

/// The type of a name or a struct, and its bytes, which are borrowed from the block.
#[derive(Clone, Copy, Drop)]
pub struct NameOrStruct<'a> {
    pub kind: u16,
    pub bytes: &'a [u8],
}

/// The 8-bit type of a user attribute, and its bytes, which are borrowed from the block.
#[derive(Clone, Copy, Drop)]
pub struct Attribute<'a> {
    pub kind: u8,
    pub bytes: &'a [u8],
}

/// A slot: the name, the struct and the user attributes that a log holds for one id. A slot may
/// lack a name or a struct if other software wrote the image.
#[derive(Drop)]
pub struct Slot<'a> {
    pub name: Option<NameOrStruct<'a>>,
    pub structure: Option<NameOrStruct<'a>>,
    /// The attributes in ascending order of their types. Each type occurs at most once.
    pub attributes: Vec<Attribute<'a>>,
}

/// A pair's tail, which is the address of the next pair in the linked list of all metadata pairs. A
/// hard tail continues the same directory, and a soft tail leads to another one (SPEC.md of
/// littlefs, "0x6xx LFS_TYPE_TAIL").
#[derive(Clone, Copy, Debug, PartialEq, Eq, Drop)]
pub struct Tail {
    pub hard: bool,
    pub pair: [u32; 2],
}

/// Returns whether there is a hard tail, which means that the directory continues in the next pair.
pub fn has_hard_tail(tail: Option<Tail>) -> bool
    ensures { result ≡ is_hard_tail (option_map tail_view tail) }
{
    match tail {
        None => false,
        Some(tail) => tail.hard,
    }
}

/// The content of a log: its slots in order of their ids, its last tail and its last move state. A
/// tail that consists of two null addresses counts as None.
#[derive(Drop)]
pub struct Content<'a> {
    pub slots: Vec<Slot<'a>>,
    pub tail: Option<Tail>,
    pub move_state: MoveState,
}

/// The reason why the content of a log can't be read.
#[derive(Clone, Copy, Debug, PartialEq, Eq, Drop)]
pub enum ContentError {
    /// An entry has a type that the format doesn't define, a length that doesn't match its type, or
    /// an id that isn't allowed at that point of the log.
    Malformed,
    /// Memory can't be allocated.
    NoMemory,
}

impl From<AllocError> for ContentError {
    ghost use Rattle.lfs_tag.specs.declared.content.ContentError.TheVariants.{NoMemory};

    ghost from_gives = { λ _ e. e ≡ NoMemory };

    fn from(_error: AllocError) -> ContentError {
        ContentError::NoMemory
    }
}

/// Converts `Malformed` to `Corrupt`, and `NoMemory` to the error of the same name.
impl From<ContentError> for Error {
    ghost use Rattle.lfs_tag.specs.ContentGives.{content_error};

    ghost from_gives = { λ c e. e ≡ content_error c };

    fn from(error: ContentError) -> Error {
        match error {
            ContentError::Malformed => Error::Corrupt,
            ContentError::NoMemory => Error::NoMemory,
        }
    }
}

// Returns whether the format defines the tag's type and the tag's length matches that type.
pub(crate) fn is_format_tag(tag: Tag) -> bool
    ensures { result ≡ is_known_tag tag }
{
    let kind = tag.kind();
    let len = tag.len();
    let is_attribute = tag.class() == ATTRIBUTE_CLASS;
    if tag.has_removal_length() {
        return is_attribute;
    }
    match kind {
        FILE_NAME | DIRECTORY_NAME | INLINE_STRUCT => true,
        SUPERBLOCK_NAME | DIRECTORY_STRUCT | CTZ_STRUCT | SOFT_TAIL | HARD_TAIL => len == 8,
        CREATE | DELETE => len == 0,
        MOVE_STATE => len == 12,
        _ => is_attribute,
    }
}

// Returns whether the tag has the id of a slot or its type needs no slot.
pub(crate) fn has_needed_slot(tag: Tag) -> bool
    ensures { result ≡ has_needed_id tag }
{
    CHECKSUM_CLASS <= tag.class() || tag.id() != Tag::NO_ID
}

fn empty_slot<'a>(alloc: Global) -> Slot<'a>
    ensures { slot_view result ≡ empty_slot }
{
    Slot {
        name: None,
        structure: None,
        attributes: Vec::new(alloc),
    }
}

// Returns the index of the first attribute whose type is `kind` or greater, or the number of
// attributes if there is none.
fn attribute_index(attributes: &[Attribute<'_>], kind: u8) -> usize
    ensures { result ≡ index_for_attribute kind (map attribute_view attributes.now) }
{
    for (i, attribute) in attributes.iter().enumerate() {
        if kind <= attribute.kind {
            return i;
        }
    }
    attributes.len()
}

// Sets an attribute and replaces one of the same type. The list stays sorted by type.
fn set_attribute<'a>(
    attributes: &mut Vec<Attribute<'a>>,
    attribute: Attribute<'a>,
) -> Result<(), AllocError>
    ensures { OnOk result (map attribute_view attributes.new.items ≡ attributes_with attribute.entry.kind attribute.entry.bytes.now (map attribute_view attributes.old.items)) }
{
    let place = attribute_index(attributes, attribute.kind);
    if place < attributes.len() && attributes[place].kind == attribute.kind {
        attributes[place] = attribute;
    } else {
        attributes.insert(place, attribute)?;
    }
    Ok(())
}

// Removes the attribute of the type `kind` if there is one.
fn remove_attribute(attributes: &mut Vec<Attribute<'_>>, kind: u8)
    ensures { attributes.new.items ≡ filter (λ a. not (a.kind == kind)) attributes.old.items }
{
    attributes.retain(|attribute| attribute.kind != kind);
}

// Appends empty slots until the slot `id` exists.
fn pad_slots(alloc: Global, slots: &mut Vec<Slot<'_>>, id: usize) -> Result<(), AllocError>
    requires { id < 1024 }
    ensures filled { OnOk result (map slot_view slots.new.items ≡ padded_slots (map slot_view slots.old.items) id) }
    ensures long { OnOk result (id < vec_len slots.new) }
{
    while slots.len() <= id {
        slots.push(empty_slot(alloc))?;
    }
    Ok(())
}

// Sets a slot's name. If the slot doesn't exist, first appends empty slots up to and including
// `id`.
fn set_slot_name<'a>(
    alloc: Global,
    slots: &mut Vec<Slot<'a>>,
    id: usize,
    part: NameOrStruct<'a>,
) -> Result<(), AllocError>
    requires { id < 1024 }
    ensures { OnOk result (map slot_view slots.new.items ≡ slot_changed_at (λ s. record s { name = Some (part_view part.entry) }) (padded_slots (map slot_view slots.old.items) id) id) }
{
    pad_slots(alloc, slots, id)?;
    let slot = &mut slots[id];
    slot.name = Some(part);
    Ok(())
}

// Sets a slot's struct.
fn set_slot_struct<'a>(slots: &mut Vec<Slot<'a>>, id: usize, part: NameOrStruct<'a>)
    requires { id < vec_len slots.old }
    ensures { map slot_view slots.new.items ≡ slot_changed_at (λ s. record s { struct = Some (part_view part.entry) }) (map slot_view slots.old.items) id }
{
    let slot = &mut slots[id];
    slot.structure = Some(part);
}

// Sets or removes an attribute of a slot, according to the entry.
fn change_attribute<'a>(
    slots: &mut Vec<Slot<'a>>,
    id: usize,
    entry: &Entry<'a>,
) -> Result<(), AllocError>
    requires { id < vec_len slots.old }
    ensures { OnOk result (map slot_view slots.new.items ≡ slot_changed_at (λ s. record s { attributes = attributes_after (log_entry_view entry.now) s.attributes }) (map slot_view slots.old.items) id) }
{
    let slot = &mut slots[id];
    let kind = entry.tag.chunk();
    if entry.tag.has_removal_length() {
        remove_attribute(&mut slot.attributes, kind);
    } else {
        let bytes = entry.bytes;
        set_attribute(&mut slot.attributes, Attribute { kind, bytes })?;
    }
    Ok(())
}

// Returns whether the slot `id` exists and has a name.
fn is_slot_named(slots: &[Slot<'_>], id: usize) -> bool
    ensures value { result ≡ is_some (slot_of_id (map slot_view slots.now) id).name }
    ensures there { IsTrue result → id < length slots.now }
{
    if id < slots.len() {
        slots[id].name.is_some()
    } else {
        false
    }
}

// Inserts an empty slot at `id`.
fn insert_empty_slot(alloc: Global, slots: &mut Vec<Slot<'_>>, id: usize) -> Result<(), AllocError>
    requires { id ≤ vec_len slots.old }
    ensures { OnOk result (map slot_view slots.new.items ≡ insert (map slot_view slots.old.items) id empty_slot) }
{
    slots.insert(id, empty_slot(alloc))?;
    Ok(())
}

// Removes the slot `id`.
fn remove_slot(slots: &mut Vec<Slot<'_>>, id: usize)
    requires { id < vec_len slots.old }
    ensures { map slot_view slots.new.items ≡ remove (map slot_view slots.old.items) id }
{
    slots.remove(id);
}

// Applies an entry other than a checksum, a tail or a move state to the slots.
fn apply_to_slots<'a>(
    alloc: Global,
    slots: &mut Vec<Slot<'a>>,
    entry: &Entry<'a>,
) -> Result<(), ContentError>
    ensures { GivesWithMemory (λ _. map slot_view slots.new.items) result (slots_after (map slot_view slots.old.items) (log_entry_view entry.now)) }
{
    let kind = entry.tag.kind();
    let class = entry.tag.class();
    let id = usize::from(entry.tag.id());
    let bytes = entry.bytes;
    let is_named = is_slot_named(slots, id);
    if class == NAME_CLASS {
        set_slot_name(alloc, slots, id, NameOrStruct { kind, bytes })?;
        Ok(())
    } else if kind == CREATE {
        if id <= slots.len() {
            insert_empty_slot(alloc, slots, id)?;
            Ok(())
        } else {
            Err(ContentError::Malformed)
        }
    } else if kind == DELETE {
        if id < slots.len() {
            remove_slot(slots, id);
            Ok(())
        } else {
            Err(ContentError::Malformed)
        }
    } else if !is_named {
        Err(ContentError::Malformed)
    } else if class == STRUCT_CLASS {
        set_slot_struct(slots, id, NameOrStruct { kind, bytes });
        Ok(())
    } else {
        change_attribute(slots, id, entry)?;
        Ok(())
    }
}

// Returns the tail that an entry sets, or None if the entry consists of two null addresses.
pub(crate) fn tail_set_by(entry: &Entry<'_>) -> Option<Tail>
    requires { 8 ≤ length entry.now.bytes.now }
    ensures { option_map tail_view result ≡ entry_tail (log_entry_view entry.now) }
{
    let pair = address_from_bytes(entry.bytes);
    if pair[0] == NULL_ADDRESS && pair[1] == NULL_ADDRESS {
        None
    } else {
        Some(Tail {
            hard: entry.tag.kind() == HARD_TAIL,
            pair,
        })
    }
}

// Applies an entry to the content.
fn apply_to_content<'a>(
    alloc: Global,
    content: &mut Content<'a>,
    entry: &Entry<'a>,
) -> Result<(), ContentError>
    ensures { GivesWithMemory (λ _. content_view content.new) result (content_after_entry (content_view content.old) (log_entry_view entry.now)) }
{
    let tag = entry.tag;
    let class = tag.class();
    if class == CHECKSUM_CLASS {
        return Ok(());
    }
    if !is_format_tag(tag) || !has_needed_slot(tag) {
        return Err(ContentError::Malformed);
    }
    if class == TAIL_CLASS {
        content.tail = tail_set_by(entry);
        Ok(())
    } else if class == MOVE_CLASS {
        content.move_state = move_from_bytes(entry.bytes);
        Ok(())
    } else {
        apply_to_slots(alloc, &mut content.slots, entry)?;
        Ok(())
    }
}

impl<'a> Content<'a> {
    /// Reads the content of a log by applying the log's entries in order (SPEC.md of littlefs,
    /// "Metadata tags"). Names, structs and attributes are borrowed from the block, not copied.
    ///
    /// Errors: `Malformed` if the log is malformed. `NoMemory` if memory for slots or attributes
    /// can't be allocated.
    pub fn read(alloc: Global, log: &Log<'a>) -> Result<Content<'a>, ContentError>
        ensures content { IfOk result (λ c. content_after empty_raw_content (block_entries log.now) ≡ Some (content_view c)) }
        ensures malformed { result ≡ Err ContentError.Malformed → content_after empty_raw_content (block_entries log.now) ≡ None }
    {
        Content::read_with_room(alloc, log, 0)
    }

    /// Reads the content of a log like [`read`](Content::read), but first reserves memory for
    /// `slot_count` slots. The list of slots grows further only if the log has more slots at some
    /// point.
    ///
    /// Errors: the same as those of [`read`](Content::read).
    pub fn read_with_room(
        alloc: Global,
        log: &Log<'a>,
        slot_count: usize,
    ) -> Result<Content<'a>, ContentError>
        ensures content { IfOk result (λ c. content_after empty_raw_content (block_entries log.now) ≡ Some (content_view c)) }
        ensures malformed { result ≡ Err ContentError.Malformed → content_after empty_raw_content (block_entries log.now) ≡ None }
    {
        let mut content = Content {
            slots: Vec::with_capacity(alloc, slot_count)?,
            tail: None,
            move_state: MoveState::none(),
        };
        for entry in log.entries() {
            if let Err(error) = apply_to_content(alloc, &mut content, &entry) {
                return Err(error);
            }
        }
        Ok(content)
    }

    /// Applies one more entry, as if it were the last entry of the log.
    ///
    /// Errors: the same as those of [`read`](Content::read). After an error, the content is
    /// unspecified.
    pub fn apply_next_entry(&mut self, alloc: Global, entry: &Entry<'a>) -> Result<(), ContentError>
        ensures { GivesWithMemory (λ _. content_view self.new) result (content_after_entry (content_view self.old) (log_entry_view entry.now)) }
    {
        apply_to_content(alloc, self, entry)?;
        Ok(())
    }
}
