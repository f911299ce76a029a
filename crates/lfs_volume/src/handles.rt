// Handles, through which a program reads and writes open files.

ghost use Rattle.std.specs.Prelude.{◌≡◌, ◌<◌, IfErr, IfOk, OnOk, is_none, slice_set, vec_capacity, vec_len, None, Some};
ghost use Rattle.std.specs.List.{position_or_len};
ghost use Rattle.std.specs.Option.{option_map};
ghost use Rattle.lfs_volume.specs.Volume.{entry_at, with_position};
ghost use Rattle.lfs_volume.specs.Calls.{free_entry_index, named, refers_to_node, new_handle, with_entry};
ghost use Rattle.lfs_fs.specs.FlagsView.{flags_view};

use bitflags::Flags;
use lfs_device::Error;
use lfs_fs::OpenFlags;

/// A handle on the open file `nodes[node]`. The position of a handle is the offset in bytes at
/// which its next read or write begins. A handle that appends writes only at the end of the file.
#[derive(Clone, Copy)]
pub struct Handle {
    pub node: usize,
    pub position: u32,
    pub reads: bool,
    pub writes: bool,
    pub appends: bool,
}

// Returns a handle on a node. The position of the handle is 0.
pub(crate) fn new_handle(node: usize, flags: OpenFlags) -> Handle
    ensures { result ≡ new_handle node (flags_view flags) }
{
    Handle {
        node,
        position: 0,
        reads: flags.contains(OpenFlags::READ),
        writes: flags.contains(OpenFlags::WRITE),
        appends: flags.contains(OpenFlags::APPEND),
    }
}

// Returns the handle with the number `handle`, or None if there is none.
pub(crate) fn handle_at(handles: &[Option<Handle>], handle: u32) -> Option<Handle>
    ensures { result ≡ entry_at handles.now handle }
{
    match handles.get(handle as usize) {
        Some(entry) => *entry,
        None => None,
    }
}

// Returns the lowest free index of a table, or the table's length if no index is free.
pub(crate) fn free_entry_index<T>(entries: &[Option<T>]) -> usize
    ensures { result ≡ position_or_len is_none entries.now }
{
    let mut number = 0;
    for entry in entries {
        if entry.is_none() {
            return number;
        }
        number += 1;
    }
    number
}

// Reserves memory for one more entry. Returns `NoMemory` if this memory can't be allocated.
pub(crate) fn reserve_entry<T>(entries: &mut Vec<Option<T>>) -> Result<(), Error>
    ensures same { entries.new.items ≡ entries.old.items }
    ensures room { OnOk result (vec_len entries.new < vec_capacity entries.new) }
    ensures none { IfErr result (λ e. e ≡ Error.NoMemory) }
{
    match entries.reserve(1) {
        Ok(()) => Ok(()),
        Err(_) => Err(Error::NoMemory),
    }
}

// Returns the number for the next handle, which is the lowest free one. Returns `NoMemory` if this
// number doesn't fit in a `u32`.
pub(crate) fn free_number(handles: &[Option<Handle>]) -> Result<u32, Error>
    ensures is { IfOk result (λ n. n ≡ free_entry_index handles.now) }
    ensures none { IfErr result (λ e. e ≡ Error.NoMemory) }
{
    let number = free_entry_index(handles);
    if number > u32::MAX as usize {
        return Err(Error::NoMemory);
    }
    Ok(number as u32)
}

// Sets the entry at an index, or appends the entry if the table is shorter.
pub(crate) fn put_entry<T: Drop>(entries: &mut Vec<Option<T>>, index: usize, entry: T)
    requires { vec_len entries.old < vec_capacity entries.old }
    ensures { entries.new.items ≡ with_entry entries.old.items index (Some entry) }
{
    if index < entries.len() {
        entries[index] = Some(entry);
    } else {
        entries.push_reserved(Some(entry));
    }
}

// Frees an index of a table.
pub(crate) fn free_entry_at<T: Drop>(entries: &mut Vec<Option<T>>, index: usize)
    ensures { entries.new.items ≡ slice_set entries.old.items index None }
{
    if index < entries.len() {
        entries[index] = None;
    }
}

// Returns whether a handle refers to the node with the index `node`.
pub(crate) fn is_named(handles: &[Option<Handle>], node: usize) -> bool
    ensures { result ≡ named handles.now node }
{
    for entry in handles {
        if refers_to_node(entry, node) {
            return true;
        }
    }
    false
}

fn refers_to_node(entry: &Option<Handle>, node: usize) -> bool
    ensures { result ≡ refers_to_node node entry.now }
{
    match entry {
        Some(handle) => handle.node == node,
        None => false,
    }
}

// Sets the position of a handle.
pub(crate) fn set_position(handles: &mut Vec<Option<Handle>>, handle: u32, position: u32)
    ensures { handles.new.items ≡ slice_set handles.old.items handle (option_map (with_position position) (entry_at handles.old.items handle)) }
{
    let index = handle as usize;
    if index < handles.len() {
        if let Some(found) = &mut handles[index] {
            found.position = position;
        }
    }
}
