// The table of a volume's nodes, which are its open files.

ghost use Rattle.std.specs.Prelude.{◌≡◌, ◌+◌, ◌<◌, ◌≤◌, ◌^◌, [], if◌then◌else◌, IfErr, IfOk, IfSome, OnErr, OnOk, List, ℕ, None, Some, drop, false, length, map, slice_set, take, unwrap_or, vec_capacity, vec_len};
ghost use Rattle.std.specs.List.{position_or_len};
ghost use Rattle.std.specs.Option.{option_and_then, option_map};
ghost use Rattle.lfs_tree.specs.TreeState.{visible_tree};
ghost use Rattle.lfs_volume.specs.Calls.{nodes_with_change_at, has_path, is_at_or_beneath, renamed_path, named, node_index_for_path, nodes_after_open, with_path, nodes_with_paths, nodes_without_path};
ghost use Rattle.lfs_volume.specs.Opened.{IsIdleSession};
ghost use Rattle.lfs_volume.specs.SessionCalls.{FailsInCalls};
ghost use Rattle.lfs_volume.specs.Volume.{NodeView, entry_at, resized_node, write_offset, written_node};
ghost use Rattle.lfs_volume.specs.VolumeCalls.{AreStoredBytes, FailsNodeSync, FailsSyncAt, IsLoadedAt, IsNodeLoaded, IsNodeSynced, IsSoundAt, IsSoundNode, IsSyncedAt};

use crate::bytes::{bytes_after, bytes_from, copy_of};
use crate::handles::{Handle, free_entry_index, is_named, put_entry};
use crate::loads::load;
use crate::node::Node;
use crate::saves::save;
use lfs_device::{BlockDevice, Error};
use lfs_fs::Session;
use std::alloc::{AllocError, Global};

// Returns the index of the node with the path `path`, or the length of the table if there is none.
pub(crate) fn find_node_index(nodes: &[Option<Node>], path: &[u8]) -> usize
    ensures { result ≡ position_or_len (has_path path.now) nodes.now }
{
    let mut number = 0;
    for entry in nodes {
        if is_at_path(entry, path) {
            return number;
        }
        number += 1;
    }
    number
}

fn is_at_path(entry: &Option<Node>, path: &[u8]) -> bool
    ensures { result ≡ has_path path.now entry.now }
{
    match entry {
        Some(node) => node.has_path(path),
        None => false,
    }
}

// Returns the stored bytes of a node's file, or no bytes if the file was removed or replaced.
//
// Returns the same errors as `load`.
fn stored_bytes<D: BlockDevice>(
    alloc: Global,
    session: &mut Session<D>,
    node: &Node,
    spare: &mut Vec<u8>,
) -> Result<Vec<u8>, Error>
    ensures are { IfOk result (λ v. IsIdleSession session.old (visible_tree session.old.tree) → AreStoredBytes session.old node.now session.new v.items) }
    ensures failed { IfErr result (λ e. IsIdleSession session.old (visible_tree session.old.tree) → IsSoundNode session.old node.now → FailsInCalls e session.old session.new) }
{
    match node.path() {
        Some(path) => {
            let bytes = load(alloc, session, path, spare)?;
            Ok(bytes)
        }
        None => Ok(Vec::new(alloc)),
    }
}

// Loads a node's bytes into memory if they aren't in memory yet.
//
// Returns the same errors as `load`. Returns `Corrupt` if the size of the file isn't that of the
// node, which never happens in a volume.
pub(crate) fn load_node<D: BlockDevice>(
    alloc: Global,
    session: &mut Session<D>,
    node: &mut Node,
    spare: &mut Vec<u8>,
) -> Result<(), Error>
    ensures loaded { IfOk result (λ _. IsIdleSession session.old (visible_tree session.old.tree) → IsSoundNode session.old node.old → IsNodeLoaded session.old node.old session.new node.new) }
    ensures failed { IfErr result (λ e. IsIdleSession session.old (visible_tree session.old.tree) → IsSoundNode session.old node.old → FailsInCalls e session.old session.new) }
{
    if node.is_loaded() {
        return Ok(());
    }
    let bytes = stored_bytes(alloc, session, node, spare)?;
    if bytes.len() != node.size() as usize {
        return Err(Error::Corrupt);
    }
    node.set_contents(bytes);
    Ok(())
}

// Stores the changes of a node. Does nothing if there are no changes, or if the node has no path.
//
// Returns the same errors as `save`.
pub(crate) fn sync_node<D: BlockDevice>(
    alloc: Global,
    session: &mut Session<D>,
    node: &mut Node,
) -> Result<(), Error>
    ensures synced { IfOk result (λ _. IsIdleSession session.old (visible_tree session.old.tree) → IsSoundNode session.old node.old → IsNodeSynced session.old node.old session.new node.new) }
    ensures ended { IfErr result (λ e. IsIdleSession session.old (visible_tree session.old.tree) → IsSoundNode session.old node.old → FailsNodeSync e session.old node.old session.new) }
    ensures kept { OnErr result (node.new ≡ node.old) }
{
    let Some(dirty_range) = node.dirty_range() else {
        return Ok(());
    };
    let Some(path) = node.path() else {
        return Ok(());
    };
    let Some(contents) = node.contents() else {
        return Ok(());
    };
    save(alloc, session, path, contents, dirty_range)?;
    node.mark_synced();
    Ok(())
}

// Loads the bytes of the node with the index `number` into memory, if there is such a node.
pub(crate) fn load_node_at<D: BlockDevice>(
    alloc: Global,
    session: &mut Session<D>,
    nodes: &mut Vec<Option<Node>>,
    number: usize,
    spare: &mut Vec<u8>,
) -> Result<(), Error>
    ensures loaded { IfOk result (λ _. IsIdleSession session.old (visible_tree session.old.tree) → IsSoundAt session.old nodes.old.items number → IsLoadedAt session.old nodes.old.items number session.new nodes.new.items) }
    ensures failed { IfErr result (λ e. IsIdleSession session.old (visible_tree session.old.tree) → IsSoundAt session.old nodes.old.items number → FailsInCalls e session.old session.new) }
{
    if number >= nodes.len() {
        return Ok(());
    }
    match &mut nodes[number] {
        Some(node) => {
            load_node(alloc, session, node, spare)?;
            Ok(())
        }
        None => Ok(()),
    }
}

// Stores the changes of the node with the index `number`, if there is such a node.
pub(crate) fn sync_node_at<D: BlockDevice>(
    alloc: Global,
    session: &mut Session<D>,
    nodes: &mut Vec<Option<Node>>,
    number: usize,
) -> Result<(), Error>
    ensures synced { IfOk result (λ _. IsIdleSession session.old (visible_tree session.old.tree) → IsSoundAt session.old nodes.old.items number → IsSyncedAt session.old nodes.old.items number session.new nodes.new.items) }
    ensures ended { IfErr result (λ e. IsIdleSession session.old (visible_tree session.old.tree) → IsSoundAt session.old nodes.old.items number → FailsSyncAt e session.old nodes.old.items number session.new) }
    ensures kept { OnErr result (nodes.new.items ≡ nodes.old.items) }
{
    if number >= nodes.len() {
        return Ok(());
    }
    match &mut nodes[number] {
        Some(node) => {
            sync_node(alloc, session, node)?;
            Ok(())
        }
        None => Ok(()),
    }
}

// Returns the node with the index `number`, if there is one.
pub(crate) fn node_at(nodes: &[Option<Node>], number: usize) -> Option<&Node>
    ensures { option_map (λ n. n.now) result ≡ entry_at nodes.now number }
{
    match nodes.get(number) {
        Some(Some(node)) => Some(node),
        _ => None,
    }
}

// Returns at most `count` bytes of a node's contents from the offset `at`.
pub(crate) fn bytes_of(node: &Node, at: u32, count: usize) -> &[u8]
    ensures few { length result.now ≤ count }
    ensures are { result.now ≡ take count (drop at (unwrap_or node.now.contents [])) }
    ensures fits { at + length result.now < 2 ^ 32 }
{
    match node.contents() {
        Some(contents) => bytes_from(contents, at as usize, count),
        None => &[],
    }
}

// Returns the offset at which a handle's next write begins.
pub(crate) fn write_offset(found: Handle, node: &Node) -> u32
    ensures { result ≡ write_offset found node.now }
{
    if found.appends {
        node.size()
    } else {
        found.position
    }
}

// Removes the node with the index `number` from the table and returns it, if there is one.
fn take_node(nodes: &mut Vec<Option<Node>>, number: usize) -> Option<Node>
    ensures { nodes.new.items ≡ slice_set nodes.old.items number None }
{
    if number >= nodes.len() {
        return None;
    }
    nodes[number].take()
}

// Removes the node with the index `number` from the table if no handle refers to it. May move the
// memory of the node's contents to `spare`.
pub(crate) fn drop_unreferenced_node(
    handles: &[Option<Handle>],
    nodes: &mut Vec<Option<Node>>,
    number: usize,
    spare: &mut Vec<u8>,
)
    ensures { nodes.new.items ≡ (if named handles.now number then nodes.old.items else slice_set nodes.old.items number None) }
{
    if !is_named(handles, number) {
        if let Some(node) = take_node(nodes, number) {
            node.recycle_contents(spare);
        }
    }
}

// Writes bytes to the contents of the node with the index `number`, which are in memory.
pub(crate) fn write_at(
    nodes: &mut Vec<Option<Node>>,
    number: usize,
    at: u32,
    bytes: &[u8],
) -> Result<(), Error>
    requires { at + length bytes.now < 2 ^ 31 }
    ensures ok { OnOk result ((n : NodeView) (old : List ℕ) → entry_at nodes.old.items number ≡ Some n → n.contents ≡ Some old → nodes.new.items ≡ slice_set nodes.old.items number (Some (written_node at bytes.now old n))) }
    ensures none { IfErr result (λ e. e ≡ Error.NoMemory) }
    ensures err { OnErr result (nodes.new.items ≡ nodes.old.items) }
    ensures full { OnErr result (IfSome (entry_at nodes.old.items number) (λ n. n.size < at + length bytes.now)) }
{
    if number >= nodes.len() {
        return Ok(());
    }
    match &mut nodes[number] {
        Some(node) => match node.write(at, bytes) {
            Ok(()) => Ok(()),
            Err(_) => Err(Error::NoMemory),
        },
        None => Ok(()),
    }
}

// Resizes the contents of the node with the index `number`, which are in memory, to `size` bytes.
pub(crate) fn resize_at(
    nodes: &mut Vec<Option<Node>>,
    number: usize,
    size: u32,
) -> Result<(), Error>
    ensures ok { OnOk result ((n : NodeView) (old : List ℕ) → entry_at nodes.old.items number ≡ Some n → n.contents ≡ Some old → nodes.new.items ≡ slice_set nodes.old.items number (Some (resized_node size old n))) }
    ensures none { IfErr result (λ e. e ≡ Error.NoMemory) }
    ensures err { OnErr result (nodes.new.items ≡ nodes.old.items) }
    ensures full { OnErr result (IfSome (entry_at nodes.old.items number) (λ n. n.size < size)) }
{
    if number >= nodes.len() {
        return Ok(());
    }
    match &mut nodes[number] {
        Some(node) => match node.resize(size) {
            Ok(()) => Ok(()),
            Err(_) => Err(Error::NoMemory),
        },
        None => Ok(()),
    }
}

// Makes the contents of the node with the index `number` empty.
fn clear_node_at(alloc: Global, nodes: &mut Vec<Option<Node>>, number: usize)
    ensures { nodes.new.items ≡ slice_set nodes.old.items number (option_map (resized_node 0 []) (entry_at nodes.old.items number)) }
{
    if number >= nodes.len() {
        return;
    }
    match &mut nodes[number] {
        Some(node) => node.clear(alloc),
        None => {}
    }
}

// Returns the index of the node with the path `path`. If there is none, adds a node with this size.
// The table has memory for one more entry.
fn find_or_add(nodes: &mut Vec<Option<Node>>, path: Vec<u8>, size: u32) -> usize
    requires { vec_len nodes.old < vec_capacity nodes.old }
    ensures number { result ≡ node_index_for_path nodes.old.items path.items }
    ensures nodes { nodes.new.items ≡ nodes_after_open path.items size false nodes.old.items }
{
    let open = find_node_index(nodes, &path);
    if open < nodes.len() {
        return open;
    }
    let number = free_entry_index(nodes);
    put_entry(nodes, number, Node::opened(path, size));
    number
}

// Returns the index of the node of an opened file, and empties the node if the open truncates the
// file. The table has memory for one more entry.
pub(crate) fn open_node(
    alloc: Global,
    nodes: &mut Vec<Option<Node>>,
    path: Vec<u8>,
    size: u32,
    truncates: bool,
) -> usize
    requires { vec_len nodes.old < vec_capacity nodes.old }
    ensures number { result ≡ node_index_for_path nodes.old.items path.items }
    ensures nodes { nodes.new.items ≡ nodes_after_open path.items size truncates nodes.old.items }
{
    let number = find_or_add(nodes, path, size);
    if !truncates {
        return number;
    }
    clear_node_at(alloc, nodes, number);
    number
}

// Removes the path from the node that has it, if there is one.
pub(crate) fn unlink_path(nodes: &mut Vec<Option<Node>>, path: &[u8])
    ensures { nodes.new.items ≡ nodes_without_path path.now nodes.old.items }
{
    let number = find_node_index(nodes, path);
    if number >= nodes.len() {
        return;
    }
    if let Some(node) = &mut nodes[number] {
        node.unlink();
    }
}

// Returns whether `path` is `old`, or is beneath it.
fn is_at_or_beneath(old: &[u8], path: &[u8]) -> bool
    ensures { result ≡ is_at_or_beneath old.now path.now }
{
    path.starts_with(old)
        && (path.len() == old.len() || bytes_after(path, old.len()).starts_with(b"/"))
}

// Returns the new path of a node after a rename, or None if the rename doesn't move the node.
fn renamed_path(
    alloc: Global,
    entry: &Option<Node>,
    from: &[u8],
    to: &[u8],
) -> Result<Option<Vec<u8>>, AllocError>
    ensures { IfOk result (λ o. option_map (λ p. p.items) o ≡ option_and_then (renamed_path from.now to.now) entry.now) }
{
    let Some(node) = entry else {
        return Ok(None);
    };
    let Some(path) = node.path() else {
        return Ok(None);
    };
    if !is_at_or_beneath(from, path) {
        return Ok(None);
    }
    let mut moved = copy_of(alloc, to)?;
    moved.extend_from_slice(bytes_after(path, from.len()))?;
    Ok(Some(moved))
}

// Returns for each index the new path of its node after a rename, or None if the rename doesn't
// move the node.
pub(crate) fn renamed_paths(
    alloc: Global,
    nodes: &[Option<Node>],
    from: &[u8],
    to: &[u8],
) -> Result<Vec<Option<Vec<u8>>>, AllocError>
    ensures { IfOk result (λ v. map (option_map (λ p. p.items)) v.items ≡ map (option_and_then (renamed_path from.now to.now)) nodes.now) }
{
    let mut paths = Vec::new(alloc);
    for entry in nodes {
        let path = renamed_path(alloc, entry, from, to)?;
        paths.push(path)?;
    }
    Ok(paths)
}

// Sets the path of the node with the index `number`, unless `path` is None.
fn set_renamed_path(nodes: &mut Vec<Option<Node>>, number: usize, path: Option<Vec<u8>>)
    ensures { nodes.new.items ≡ nodes_with_change_at number (with_path (option_map (λ p. p.items) path)) nodes.old.items }
{
    let Some(path) = path else {
        return;
    };
    if number >= nodes.len() {
        return;
    }
    if let Some(node) = &mut nodes[number] {
        node.set_path(path);
    }
}

// Sets the new path of each node that a rename moves.
pub(crate) fn set_renamed_paths(nodes: &mut Vec<Option<Node>>, mut paths: Vec<Option<Vec<u8>>>)
    ensures { nodes.new.items ≡ nodes_with_paths (map (option_map (λ p. p.items)) paths.items) nodes.old.items }
{
    while let Some(path) = paths.pop() {
        set_renamed_path(nodes, paths.len(), path);
    }
}
