// The content of a log without the slots themselves.

ghost use Rattle.std.specs.Prelude.{◌≡◌, ℕ, ◌<◌, ◌≤◌, OnOk, IfOk, IsTrue, length, true, vec_len, Some, None};
ghost use Rattle.std.specs.List.{insert, remove, list_all};
ghost use Rattle.lfs_model.specs.format.Log.{block_entries};
ghost use Rattle.lfs_model.specs.format.Content.{RawContent, content_after, empty_raw_content};
ghost use Rattle.lfs_tag.specs.LogEntryView.{log_entry_view};
ghost use Rattle.lfs_tag.specs.ContentGives.{GivesWithMemory};
ghost use Rattle.lfs_tag.specs.Summary.{IsLogSummary, empty_mark, id_mark, marks_with_change, padded_marks, is_complete_mark, marks_after_entry, outline_view, outline_after_entry, outline_after, empty_outline};

use crate::content::{ContentError, Tail, has_needed_slot, is_format_tag, tail_set_by};
use crate::entry::Entry;
use crate::fields::{MoveState, move_from_bytes};
use crate::kinds::{
    CHECKSUM_CLASS, CREATE, DELETE, MOVE_CLASS, NAME_CLASS, STRUCT_CLASS, TAIL_CLASS,
};
use crate::log::Log;
use std::alloc::{AllocError, Global};

/// A summary of a log's [`Content`](crate::Content), with the number of slots instead of the slots.
#[derive(Clone, Copy, Debug, PartialEq, Eq, Drop)]
pub struct Summary {
    pub slot_count: usize,
    pub tail: Option<Tail>,
    pub move_state: MoveState,
    /// Whether each slot has a name and a struct.
    pub is_complete: bool,
}

// Which parts a slot has.
#[derive(Clone, Copy, Drop)]
struct SlotSummary {
    has_name: bool,
    has_struct: bool,
}

// The summary of the entries read so far.
#[derive(Drop)]
struct PartialSummary {
    marks: Vec<SlotSummary>,
    tail: Option<Tail>,
    move_state: MoveState,
}

impl Summary {
    /// Returns a summary of the content that [`Content::read`](crate::Content::read) would return.
    /// Allocates two bytes for each slot.
    ///
    /// Errors: `Malformed` if the log is malformed. `NoMemory` if memory can't be allocated.
    #[tactic(auto, using(crate::proofs::Summaries::no_content_where_none))]
    pub fn read(alloc: Global, log: &Log<'_>) -> Result<Summary, ContentError>
        ensures summary { IfOk result (λ s. (c : RawContent) × IsLogSummary log.now c s) }
        ensures malformed { result ≡ Err ContentError.Malformed → content_after empty_raw_content (block_entries log.now) ≡ None }
    {
        let outline = match read_outline(alloc, log) {
            Ok(outline) => outline,
            Err(error) => return Err(error),
        };
        Ok(Summary {
            slot_count: outline.marks.len(),
            tail: outline.tail,
            move_state: outline.move_state,
            is_complete: are_marks_complete(&outline.marks),
        })
    }
}

fn read_outline(alloc: Global, log: &Log<'_>) -> Result<PartialSummary, ContentError>
    ensures outline { IfOk result (λ o. outline_after empty_outline (block_entries log.now) ≡ Some (outline_view o)) }
    ensures malformed { result ≡ Err ContentError.Malformed → outline_after empty_outline (block_entries log.now) ≡ None }
{
    let mut outline = PartialSummary {
        marks: Vec::new(alloc),
        tail: None,
        move_state: MoveState::none(),
    };
    for entry in log.entries() {
        if let Err(error) = apply_to_outline(&mut outline, &entry) {
            return Err(error);
        }
    }
    Ok(outline)
}

fn are_marks_complete(marks: &[SlotSummary]) -> bool
    ensures { result ≡ list_all is_complete_mark marks.now }
{
    marks.iter().all(|mark| mark.has_name && mark.has_struct)
}

// Applies an entry to the summary.
fn apply_to_outline(outline: &mut PartialSummary, entry: &Entry<'_>) -> Result<(), ContentError>
    ensures { GivesWithMemory (λ _. outline_view outline.new) result (outline_after_entry (outline_view outline.old) (log_entry_view entry.now)) }
{
    let tag = entry.tag;
    let class = tag.class();
    if class == CHECKSUM_CLASS {
        return Ok(());
    }
    if !is_format_tag(tag) || !has_needed_slot(tag) {
        return Err(ContentError::Malformed);
    }
    if class == TAIL_CLASS {
        outline.tail = tail_set_by(entry);
        Ok(())
    } else if class == MOVE_CLASS {
        outline.move_state = move_from_bytes(entry.bytes);
        Ok(())
    } else {
        apply_to_marks(&mut outline.marks, entry)?;
        Ok(())
    }
}

// Applies an entry other than a checksum, a tail or a move state to the marks of the slots.
fn apply_to_marks(marks: &mut Vec<SlotSummary>, entry: &Entry<'_>) -> Result<(), ContentError>
    ensures { GivesWithMemory (λ _. marks.new.items) result (marks_after_entry marks.old.items (log_entry_view entry.now)) }
{
    let kind = entry.tag.kind();
    let class = entry.tag.class();
    let id = usize::from(entry.tag.id());
    let is_named = is_named_mark(marks, id);
    if class == NAME_CLASS {
        mark_named(marks, id)?;
        Ok(())
    } else if kind == CREATE {
        if id <= marks.len() {
            insert_empty_mark(marks, id)?;
            Ok(())
        } else {
            Err(ContentError::Malformed)
        }
    } else if kind == DELETE {
        if id < marks.len() {
            marks.remove(id);
            Ok(())
        } else {
            Err(ContentError::Malformed)
        }
    } else if !is_named {
        Err(ContentError::Malformed)
    } else if class == STRUCT_CLASS {
        mark_struct(marks, id);
        Ok(())
    } else {
        Ok(())
    }
}

// Returns whether the slot `id` exists and has a name.
fn is_named_mark(marks: &[SlotSummary], id: usize) -> bool
    ensures value { result ≡ (id_mark marks.now id).has_name }
    ensures there { IsTrue result → id < length marks.now }
{
    if id < marks.len() {
        marks[id].has_name
    } else {
        false
    }
}

// Marks a slot as named. If the slot doesn't exist, first appends marks of empty slots up to and
// including `id`.
fn mark_named(marks: &mut Vec<SlotSummary>, id: usize) -> Result<(), AllocError>
    requires { id < 1024 }
    ensures { OnOk result (marks.new.items ≡ marks_with_change (λ m. record m { has_name = true }) (padded_marks marks.old.items id) id) }
{
    pad_marks(marks, id)?;
    marks[id].has_name = true;
    Ok(())
}

// Appends marks of empty slots until the slot `id` exists.
fn pad_marks(marks: &mut Vec<SlotSummary>, id: usize) -> Result<(), AllocError>
    requires { id < 1024 }
    ensures filled { OnOk result (marks.new.items ≡ padded_marks marks.old.items id) }
    ensures long { OnOk result (id < vec_len marks.new) }
{
    if marks.len() <= id {
        marks.resize(id + 1, NO_MARK)?;
    }
    Ok(())
}

const NO_MARK: SlotSummary = SlotSummary {
    has_name: false,
    has_struct: false,
};

fn mark_struct(marks: &mut Vec<SlotSummary>, id: usize)
    requires { id < vec_len marks.old }
    ensures { marks.new.items ≡ marks_with_change (λ m. record m { has_struct = true }) marks.old.items id }
{
    marks[id].has_struct = true;
}

fn insert_empty_mark(marks: &mut Vec<SlotSummary>, id: usize) -> Result<(), AllocError>
    requires { id ≤ vec_len marks.old }
    ensures { OnOk result (marks.new.items ≡ insert marks.old.items id empty_mark) }
{
    marks.insert(id, NO_MARK)?;
    Ok(())
}
