// The checks of each operation, in order.

ghost use Rattle.std.specs.Prelude.{if◌then◌else◌, nat_lt, ◌+◌, ◌≡◌, ◌<◌, ◌^◌, ℕ, List, [], length, map, true, false, is_none, is_some, unwrap_or};
ghost use Rattle.lfs_model.specs.session.Operations as ops;
ghost use Rattle.lfs_model.specs.session.Session.{exceeds_half_pair};
ghost use Rattle.lfs_model.specs.format.Disk.{block_count, profile_attr_max, profile_file_max, profile_name_max};
ghost use Rattle.lfs_fs.specs.FileView.{open_file_at, files_view, writers_block_reserve, draft_block_reserve, writer_if_any};
ghost use Rattle.lfs_model.specs.session.Refusals.{path_or_root};
ghost use Rattle.lfs_model.specs.session.Effects.{listed_entries_at, node_file_size};
ghost use Rattle.lfs_fs.specs.FlagsView.{flags_view};
ghost use Rattle.lfs_model.specs.session.TreeEdits.{is_directory, last_name, node_attributes_of};
ghost use Rattle.lfs_model.specs.format.Content.{attribute_bytes};
ghost use Rattle.lfs_fs.specs.EntryPaths.{entry_path};
ghost use Rattle.lfs_fs.specs.SessionView.{IsChecksResult, IsReadlessResult, IsCheckedWritableFile, IsReadableFile, IsReady, PassesChecksBeforeEntry, refusal_by_checks, session_view};
ghost use Rattle.lfs_fs.specs.LookUps.{ReadsSearchedPairsOnce, CachedLookupReadsNothing, CachesSearchedDirectories};
ghost use Rattle.lfs_lookup.specs.Finds.{is_directory_node, listed_item_view, node_size_if_file, stat_view};
ghost use Rattle.lfs_tree.specs.TreeState.{tree_summary, visible_tree};
ghost use Rattle.lfs_model.specs.format.Slots.{Attributes, attributes_size};
ghost use Rattle.lfs_fs.specs.Replacements.{IncludesReplacedAttribute, replaced_attribute_size};

use crate::check_order::{are_both_true, find_first_refusal, value_or_refusal};
use crate::files::{Files, draft_blocks_reserved};
use crate::flags::OpenFlags;
use bitflags::Flags;
use lfs_device::{BlockDevice, Error};
use lfs_lookup::{
    FileContents, FoundFile, ListItem, Node, Path, PathLookup, Refusal, Stat, refuse_if,
};
use lfs_tree::Tree;
use std::alloc::Global;

// Returns whether a new entry with a name of `name_len` bytes would be too large for its metadata
// pair.
fn new_entry_exceeds_limit<D: BlockDevice>(tree: &Tree<D>, name_len: usize) -> bool
    requires { name_len < 2 ^ 63 }
    ensures { (name : List ℕ) → length name ≡ name_len → result ≡ exceeds_half_pair (tree_summary tree.now) name [] }
{
    exceeds_entry_limit(tree, name_len, 0)
}

// Returns whether an entry would be too large for its metadata pair, given the lengths in bytes of
// its name and its attributes.
pub(crate) fn exceeds_entry_limit<D: BlockDevice>(
    tree: &Tree<D>,
    name_len: usize,
    attributes_len: usize,
) -> bool
    requires { name_len < 2 ^ 63 }
    ensures { (name : List ℕ) (attributes : Attributes) → length name ≡ name_len → attributes_size attributes ≡ attributes_len → result ≡ exceeds_half_pair (tree_summary tree.now) name attributes }
{
    let geometry = tree.geometry();
    let entry = 4 + name_len as u64 + (4 + u64::from(geometry.struct_limit()));
    u64::from(geometry.entry_size_limit()) < entry.saturating_add(attributes_len as u64)
}

// Returns whether the profile doesn't allow a name of `name_len` bytes.
pub(crate) fn exceeds_name_max<D: BlockDevice>(tree: &Tree<D>, name_len: usize) -> bool
    ensures { result ≡ nat_lt (profile_name_max tree.now.disk.profile) name_len }
{
    name_len > tree.geometry().name_max() as usize
}

// Returns whether the profile doesn't allow a file of `size` bytes.
fn exceeds_file_max<D: BlockDevice>(tree: &Tree<D>, size: u64) -> bool
    ensures longer { result ≡ nat_lt (profile_file_max tree.now.disk.profile) size }
    ensures small { result ≡ false → size < 2 ^ 31 }
{
    size > u64::from(tree.geometry().file_max())
}

// Returns whether the profile doesn't allow an attribute of `len` bytes.
fn exceeds_attr_max<D: BlockDevice>(tree: &Tree<D>, len: usize) -> bool
    ensures { result ≡ nat_lt (profile_attr_max tree.now.disk.profile) len }
{
    len > tree.geometry().attr_max() as usize
}

// Returns whether fewer than `need` blocks are free, apart from those reserved for a writer.
pub(crate) fn lacks_free_blocks<D: BlockDevice>(tree: &Tree<D>, files: &Files, need: u32) -> bool
    requires works { tree.now.failed ≡ false }
    requires small { need < 16 }
    ensures { result ≡ nat_lt (block_count tree.now.disk) (length (tree_summary tree.now).used + writers_block_reserve tree.now.disk.profile tree.now.disk.block_size files.now + need) }
{
    let geometry = tree.geometry();
    let held = files.reserved_block_count(geometry);
    (geometry.block_count as u64) < tree.used_count() as u64 + held + need as u64
}

/// Returns the kind and size of the entry at a path, or the refusal of the first check that fails.
pub fn check_and_stat<D: BlockDevice>(
    alloc: Global,
    tree: &mut Tree<D>,
    files: &Files,
    bytes: &[u8],
) -> Result<Stat, Error>
    ensures checks { IsChecksResult (session_view tree.old files.now) (ops.Stat bytes.now) (λ stat. node_file_size (visible_tree tree.old (path_or_root bytes.now)) ≡ stat_view stat) result tree.new }
    ensures few { ReadsSearchedPairsOnce tree.old (ops.Stat bytes.now) tree.new }
    ensures kept { CachedLookupReadsNothing tree.old (ops.Stat bytes.now) tree.new }
    ensures hand { CachesSearchedDirectories tree.old (ops.Stat bytes.now) result tree.new }
{
    if tree.has_failed() {
        return Err(Error::Failed);
    }
    let Some(path) = Path::parse(bytes) else {
        return Err(Error::Invalid);
    };
    let found = tree.look_up(alloc, &path)?;
    let checks = [
        found.fault,
        refuse_if(found.node.is_nothing(), Error::NoEnt),
    ];
    value_or_refusal(&checks, Stat::from_size(found.node.size()))
}

/// Returns the parsed path of a directory that may be made, or the refusal of the first check that
/// fails.
pub fn check_mkdir<'a, D: BlockDevice>(
    alloc: Global,
    tree: &mut Tree<D>,
    files: &Files,
    bytes: &'a [u8],
) -> Result<Path<'a>, Error>
    requires { tree.old.failed ≡ false → IsReady tree.old files.now }
    ensures { IsChecksResult (session_view tree.old files.now) (ops.Mkdir bytes.now) (λ path. path ≡ path_or_root bytes.now) result tree.new }
{
    if tree.has_failed() {
        return Err(Error::Failed);
    }
    if !tree.is_writable() {
        return Err(Error::ReadOnly);
    }
    let Some(path) = Path::parse(bytes) else {
        return Err(Error::Invalid);
    };
    let found = tree.look_up(alloc, &path)?;
    let checks = [
        found.fault,
        refuse_if(exceeds_name_max(tree, path.name_len()), Error::NameTooLong),
        refuse_if(!found.node.is_nothing(), Error::Exist),
        refuse_if(
            new_entry_exceeds_limit(tree, path.name_len()),
            Error::EntryFull,
        ),
        refuse_if(lacks_free_blocks(tree, files, 4), Error::NoSpace),
    ];
    value_or_refusal(&checks, path)
}

/// Checks whether the position of the open file `fd` may be set to `position`.
pub fn check_seek<D: BlockDevice>(
    tree: &Tree<D>,
    files: &Files,
    fd: u32,
    position: u32,
) -> Result<(), Error>
    ensures { IsReadlessResult (session_view tree.now files.now) (ops.Seek fd position) (λ _. is_some (open_file_at files.now fd) ≡ true) result }
{
    if tree.has_failed() {
        return Err(Error::Failed);
    }
    if !files.is_open(fd) {
        return Err(Error::BadFile);
    }
    if exceeds_file_max(tree, position as u64) {
        return Err(Error::Invalid);
    }
    Ok(())
}

/// Returns the contents of a file that may be opened for reading, or the refusal of the first check
/// that fails.
pub fn check_open_reader<D: BlockDevice>(
    alloc: Global,
    tree: &mut Tree<D>,
    files: &Files,
    bytes: &[u8],
    flags: OpenFlags,
) -> Result<FileContents, Error>
    requires { (flags_view flags).write ≡ false }
    ensures { IsChecksResult (session_view tree.old files.now) (ops.Open bytes.now (flags_view flags)) (IsReadableFile tree.old (files_view tree.old files.now) bytes.now) result tree.new }
{
    if tree.has_failed() {
        return Err(Error::Failed);
    }
    let Some(path) = Path::parse(bytes) else {
        return Err(Error::Invalid);
    };
    if !flags.is_allowed() {
        return Err(Error::Invalid);
    }
    let found = tree.find_file(alloc, &path)?;
    let FoundFile { finding, contents } = found;
    let checks = [
        finding.fault,
        refuse_if(finding.node.is_nothing(), Error::NoEnt),
        refuse_if(finding.node.is_directory(), Error::IsDir),
        refuse_if(files.prevents_reader_at(bytes), Error::Busy),
    ];
    let none = FileContents::Inline(Vec::new(alloc));
    value_or_refusal(&checks, contents.unwrap_or(none))
}

/// A file that may be opened for writing.
#[derive(Drop)]
pub struct WritableFile<'a> {
    pub path: Path<'a>,
    /// The file's size in bytes, or None if the file is to be created.
    pub size: Option<u32>,
    /// The result of looking up the path, or None if the image must be recovered first.
    pub target: Option<PathLookup>,
}

// Returns whether too few blocks are free to truncate a file of `size` bytes to 0 bytes.
fn lacks_truncate_blocks<D: BlockDevice>(tree: &Tree<D>, size: Option<u32>) -> bool
    requires { tree.now.failed ≡ false }
    ensures { result ≡ nat_lt (block_count tree.now.disk) (length (tree_summary tree.now).used + (if nat_lt 0 (unwrap_or size 0) then 2 else 0)) }
{
    let need = if size.unwrap_or(0) > 0 { 2 } else { 0 };
    (tree.geometry().block_count as u64) < tree.used_count() as u64 + need
}

// Returns the refusal, if any, of opening a path without an entry for writing.
fn creation_refusal<D: BlockDevice>(
    tree: &Tree<D>,
    files: &Files,
    bytes: &[u8],
    name_len: usize,
    flags: OpenFlags,
) -> Option<Refusal>
    requires ready { IsReady tree.now files.now }
    requires passes { PassesChecksBeforeEntry tree.now bytes.now (flags_view flags) }
    requires absent { is_none (visible_tree tree.now (path_or_root bytes.now)) ≡ true }
    requires len { length (last_name (path_or_root bytes.now)) ≡ name_len }
    requires bound { name_len < 2 ^ 63 }
    ensures { result ≡ refusal_by_checks (session_view tree.now files.now) (ops.Open bytes.now (flags_view flags)) }
{
    if !flags.contains(OpenFlags::CREATE) {
        return refuse_if(true, Error::NoEnt);
    }
    let checks = [
        refuse_if(exceeds_name_max(tree, name_len), Error::NameTooLong),
        refuse_if(files.prevents_writer_at(bytes), Error::Busy),
        refuse_if(new_entry_exceeds_limit(tree, name_len), Error::EntryFull),
        refuse_if(lacks_free_blocks(tree, files, 2), Error::NoSpace),
    ];
    find_first_refusal(&checks)
}

// Returns the refusal, if any, of opening an existing entry for writing.
fn existing_entry_refusal<D: BlockDevice>(
    tree: &Tree<D>,
    files: &Files,
    bytes: &[u8],
    node: Node,
    flags: OpenFlags,
) -> Option<Refusal>
    requires passes { PassesChecksBeforeEntry tree.now bytes.now (flags_view flags) }
    requires there { is_none (visible_tree tree.now (path_or_root bytes.now)) ≡ false }
    requires directories { is_directory (visible_tree tree.now (path_or_root bytes.now)) ≡ is_directory_node node }
    requires sizes { node_file_size (visible_tree tree.now (path_or_root bytes.now)) ≡ node_size_if_file node }
    ensures { result ≡ refusal_by_checks (session_view tree.now files.now) (ops.Open bytes.now (flags_view flags)) }
{
    let truncates = flags.contains(OpenFlags::TRUNCATE);
    let checks = [
        refuse_if(flags.contains(OpenFlags::EXCLUSIVE), Error::Exist),
        refuse_if(node.is_directory(), Error::IsDir),
        refuse_if(files.prevents_writer_at(bytes), Error::Busy),
        refuse_if(
            are_both_true(truncates, lacks_truncate_blocks(tree, node.size())),
            Error::NoSpace,
        ),
    ];
    find_first_refusal(&checks)
}

/// Checks whether a file may be opened or created for writing, and returns the result of looking up
/// its path.
pub fn check_open_writer<'a, D: BlockDevice>(
    alloc: Global,
    tree: &mut Tree<D>,
    files: &Files,
    bytes: &'a [u8],
    flags: OpenFlags,
) -> Result<WritableFile<'a>, Error>
    requires write { (flags_view flags).write ≡ true }
    requires ready { tree.old.failed ≡ false → IsReady tree.old files.now }
    ensures { IsChecksResult (session_view tree.old files.now) (ops.Open bytes.now (flags_view flags)) (IsCheckedWritableFile (visible_tree tree.old) tree.new bytes.now) result tree.new }
{
    if tree.has_failed() {
        return Err(Error::Failed);
    }
    if !tree.is_writable() {
        return Err(Error::ReadOnly);
    }
    let Some(path) = Path::parse(bytes) else {
        return Err(Error::Invalid);
    };
    if !flags.is_allowed() {
        return Err(Error::Invalid);
    }
    let found = tree.look_up_creation(alloc, &path)?;
    if let Some(fault) = found.entry.fault {
        return Err(fault.error());
    }
    let node = found.entry.node;
    let refusal = if node.is_nothing() {
        creation_refusal(tree, files, bytes, path.name_len(), flags)
    } else {
        existing_entry_refusal(tree, files, bytes, node, flags)
    };
    let file = WritableFile {
        path,
        size: node.size(),
        target: found.target,
    };
    value_or_refusal(&[refusal], file)
}

// Parses a path. Returns None if the path isn't well formed, or is the root.
pub(crate) fn parse_entry_path<'a>(bytes: &'a [u8]) -> Option<Path<'a>>
    ensures { result ≡ entry_path bytes.now }
{
    if bytes.len() == 1 {
        None
    } else {
        Path::parse(bytes)
    }
}

/// Returns the entries of a directory in name order, or the refusal of the first check that fails.
pub fn check_and_list<D: BlockDevice>(
    alloc: Global,
    tree: &mut Tree<D>,
    files: &Files,
    bytes: &[u8],
) -> Result<Vec<ListItem>, Error>
    ensures checks { IsChecksResult (session_view tree.old files.now) (ops.ListAll bytes.now) (λ items. listed_entries_at (visible_tree tree.old) (path_or_root bytes.now) ≡ map listed_item_view items.items) result tree.new }
    ensures few { ReadsSearchedPairsOnce tree.old (ops.ListAll bytes.now) tree.new }
    ensures kept { CachedLookupReadsNothing tree.old (ops.ListAll bytes.now) tree.new }
{
    if tree.has_failed() {
        return Err(Error::Failed);
    }
    let Some(path) = Path::parse(bytes) else {
        return Err(Error::Invalid);
    };
    let listing = tree.list(alloc, &path)?;
    let node = listing.finding.node;
    let checks = [
        listing.finding.fault,
        refuse_if(node.is_nothing(), Error::NoEnt),
        refuse_if(node.is_file(), Error::NotDir),
    ];
    value_or_refusal(&checks, listing.items)
}

/// Returns the bytes of an attribute, or the refusal of the first check that fails.
pub fn check_get_attr<D: BlockDevice>(
    alloc: Global,
    tree: &mut Tree<D>,
    files: &Files,
    bytes: &[u8],
    kind: u8,
) -> Result<Vec<u8>, Error>
    ensures checks { IsChecksResult (session_view tree.old files.now) (ops.GetAttr bytes.now kind) (λ v. unwrap_or (attribute_bytes kind (node_attributes_of (visible_tree tree.old (path_or_root bytes.now)))) [] ≡ v.items) result tree.new }
    ensures few { ReadsSearchedPairsOnce tree.old (ops.GetAttr bytes.now kind) tree.new }
    ensures kept { CachedLookupReadsNothing tree.old (ops.GetAttr bytes.now kind) tree.new }
{
    if tree.has_failed() {
        return Err(Error::Failed);
    }
    let Some(path) = parse_entry_path(bytes) else {
        return Err(Error::Invalid);
    };
    let found = tree.get_attr(alloc, &path, kind)?;
    let checks = [
        found.finding.fault,
        refuse_if(found.finding.node.is_nothing(), Error::NoEnt),
        refuse_if(found.bytes.is_none(), Error::NoAttr),
    ];
    value_or_refusal(&checks, found.bytes.unwrap_or(Vec::new(alloc)))
}

/// Returns the parsed path of an entry whose attribute may be removed, or the refusal of the first
/// check that fails.
pub fn check_remove_attr<'a, D: BlockDevice>(
    alloc: Global,
    tree: &mut Tree<D>,
    files: &Files,
    bytes: &'a [u8],
    kind: u8,
) -> Result<Path<'a>, Error>
    ensures { IsChecksResult (session_view tree.old files.now) (ops.RemoveAttr bytes.now kind) (λ path. path ≡ path_or_root bytes.now) result tree.new }
{
    if tree.has_failed() {
        return Err(Error::Failed);
    }
    if !tree.is_writable() {
        return Err(Error::ReadOnly);
    }
    let Some(path) = parse_entry_path(bytes) else {
        return Err(Error::Invalid);
    };
    let found = tree.get_attr(alloc, &path, kind)?;
    let checks = [
        found.finding.fault,
        refuse_if(found.finding.node.is_nothing(), Error::NoEnt),
        refuse_if(found.bytes.is_none(), Error::NoAttr),
    ];
    value_or_refusal(&checks, path)
}

/// Returns the parsed path of an entry that may be removed, or the refusal of the first check that
/// fails.
pub fn check_remove<'a, D: BlockDevice>(
    alloc: Global,
    tree: &mut Tree<D>,
    files: &Files,
    bytes: &'a [u8],
) -> Result<Path<'a>, Error>
    ensures { IsChecksResult (session_view tree.old files.now) (ops.Remove bytes.now) (λ path. path ≡ path_or_root bytes.now) result tree.new }
{
    if tree.has_failed() {
        return Err(Error::Failed);
    }
    if !tree.is_writable() {
        return Err(Error::ReadOnly);
    }
    let Some(path) = parse_entry_path(bytes) else {
        return Err(Error::Invalid);
    };
    let inside = tree.look_up_node(alloc, &path)?;
    let checks = [
        inside.finding.fault,
        refuse_if(inside.finding.node.is_nothing(), Error::NoEnt),
        refuse_if(inside.has_entries, Error::NotEmpty),
        refuse_if(files.is_open_at(bytes), Error::Busy),
    ];
    value_or_refusal(&checks, path)
}

// Returns how many bytes an entry's attributes and their tags will need after an attribute of `len`
// bytes replaces `replaced`.
fn replaced_attributes_size(taken: usize, replaced: &Option<Vec<u8>>, len: usize) -> usize
    requires { IncludesReplacedAttribute taken replaced.now len }
    ensures { result + replaced_attribute_size replaced.now ≡ taken + (4 + len) }
{
    let gone = match replaced {
        Some(bytes) => 4 + bytes.len(),
        None => 0,
    };
    taken + (4 + len) - gone
}

/// Returns the parsed path of an entry whose attribute may be set, or the refusal of the first
/// check that fails.
pub fn check_set_attr<'a, D: BlockDevice>(
    alloc: Global,
    tree: &mut Tree<D>,
    files: &Files,
    bytes: &'a [u8],
    kind: u8,
    value: &[u8],
) -> Result<Path<'a>, Error>
    requires { tree.old.failed ≡ false → IsReady tree.old files.now }
    ensures { IsChecksResult (session_view tree.old files.now) (ops.SetAttr bytes.now kind value.now) (λ path. path ≡ path_or_root bytes.now) result tree.new }
{
    if tree.has_failed() {
        return Err(Error::Failed);
    }
    if !tree.is_writable() {
        return Err(Error::ReadOnly);
    }
    let Some(path) = parse_entry_path(bytes) else {
        return Err(Error::Invalid);
    };
    let found = tree.get_attr(alloc, &path, kind)?;
    let taken = tree.attributes_size(alloc, &path)?;
    let size = replaced_attributes_size(taken, &found.bytes, value.len());
    let checks = [
        found.finding.fault,
        refuse_if(found.finding.node.is_nothing(), Error::NoEnt),
        refuse_if(exceeds_attr_max(tree, value.len()), Error::TooBig),
        refuse_if(
            exceeds_entry_limit(tree, path.name_len(), size),
            Error::EntryFull,
        ),
        refuse_if(lacks_free_blocks(tree, files, 2), Error::NoSpace),
    ];
    value_or_refusal(&checks, path)
}

// Returns whether too few blocks are free to reserve those for a writer with `size` bytes.
fn lacks_writer_blocks<D: BlockDevice>(tree: &Tree<D>, has_turned: bool, size: u32) -> bool
    requires { tree.now.failed ≡ false }
    ensures { result ≡ nat_lt (block_count tree.now.disk) (length (tree_summary tree.now).used + draft_block_reserve tree.now.disk.profile tree.now.disk.block_size has_turned size) }
{
    let geometry = tree.geometry();
    let held = draft_blocks_reserved(geometry, has_turned, size);
    (geometry.block_count as u64) < tree.used_count() as u64 + held
}

/// Checks whether the writer `fd` may write the bytes.
pub fn check_write<D: BlockDevice>(
    tree: &Tree<D>,
    files: &Files,
    fd: u32,
    bytes: &[u8],
) -> Result<(), Error>
    requires { tree.now.failed ≡ false → IsReady tree.now files.now }
    ensures { IsReadlessResult (session_view tree.now files.now) (ops.Write fd bytes.now) (λ _. is_some (writer_if_any (open_file_at files.now fd)) ≡ true) result }
{
    if tree.has_failed() {
        return Err(Error::Failed);
    }
    let Some(writer) = files.writer(fd) else {
        return Err(Error::BadFile);
    };
    if bytes.is_empty() {
        return Ok(());
    }
    let place = writer.place();
    if exceeds_file_max(tree, place as u64 + bytes.len() as u64) {
        return Err(Error::TooBig);
    }
    let size = writer.size.max(place + bytes.len() as u32);
    if lacks_writer_blocks(
        tree,
        writer.nonsequential_after_change(place.min(writer.size)),
        size,
    ) {
        return Err(Error::NoSpace);
    }
    Ok(())
}

/// Checks whether the contents of the writer `fd` may be resized to `size` bytes.
pub fn check_truncate<D: BlockDevice>(
    tree: &Tree<D>,
    files: &Files,
    fd: u32,
    size: u32,
) -> Result<(), Error>
    requires { tree.now.failed ≡ false → IsReady tree.now files.now }
    ensures { IsReadlessResult (session_view tree.now files.now) (ops.Truncate fd size) (λ _. is_some (writer_if_any (open_file_at files.now fd)) ≡ true) result }
{
    if tree.has_failed() {
        return Err(Error::Failed);
    }
    let Some(writer) = files.writer(fd) else {
        return Err(Error::BadFile);
    };
    if exceeds_file_max(tree, size as u64) {
        return Err(Error::TooBig);
    }
    if size != writer.size && lacks_writer_blocks(tree, writer.nonsequential_after_resize(), size) {
        return Err(Error::NoSpace);
    }
    Ok(())
}

/// Checks whether a file is open under the number `fd`.
pub fn check_is_open<D: BlockDevice>(tree: &Tree<D>, files: &Files, fd: u32) -> Result<(), Error>
    ensures { IsReadlessResult (session_view tree.now files.now) (ops.Close fd) (λ _. is_some (open_file_at files.now fd) ≡ true) result }
{
    if tree.has_failed() {
        return Err(Error::Failed);
    }
    if !files.is_open(fd) {
        return Err(Error::BadFile);
    }
    Ok(())
}

/// Checks whether the file `fd` may be synced, which requires only that it is open.
pub fn check_sync_file<D: BlockDevice>(tree: &Tree<D>, files: &Files, fd: u32) -> Result<(), Error>
    ensures { IsReadlessResult (session_view tree.now files.now) (ops.Sync fd) (λ _. is_some (open_file_at files.now fd) ≡ true) result }
{
    if tree.has_failed() {
        return Err(Error::Failed);
    }
    if !files.is_open(fd) {
        return Err(Error::BadFile);
    }
    Ok(())
}
