ghost use Rattle.std.specs.Prelude.{◌≡◌, ◌+◌, ◌++◌, ◌∷◌, [], IfOk, IsErrOf, MatchOption, None, OnOk, Some, drop, false, length, map, true, ◌==◌};
ghost use Rattle.std.specs.List.{list_any};
ghost use Rattle.lfs_model.specs.format.Names.{slash_byte};
ghost use Rattle.lfs_tool.specs.SourceTrees.{is_folder, listed_view};
ghost use Rattle.lfs_tool.specs.MemorySources.{file_bytes_at, has_no_bytes, is_directly_in, memory_view, name_in_folder, names_in_folder, memory_source};

use crate::file_error::copy_bytes;
use crate::{FileError, ListedName, Source, SourceEntry, SourceKind};
use std::alloc::Global;

/// A source that holds its files and folders in memory. If two entries have the same path, the
/// first one is read.
///
/// `list` never returns `Fault`, and `read` returns it only if there is no file at the path. The
/// `len` of a listed name is always 0.
#[derive(Drop)]
pub struct MemorySource {
    /// The files and folders, in any order.
    pub held: Vec<SourceEntry>,
    // Whether the last call was a `read` of a path without a file.
    has_failed: bool,
}

impl MemorySource {
    /// Makes a source of these entries, in any order. If two entries have the same path, the first
    /// one is read.
    pub fn new(held: Vec<SourceEntry>) -> MemorySource
        ensures held { result.held ≡ held }
        ensures fault { result.has_failed ≡ false }
    {
        MemorySource {
            held,
            has_failed: false,
        }
    }
}

fn has_slash(name: &[u8]) -> bool
    ensures { result ≡ list_any (λ b. b == slash_byte) name.now }
{
    name.iter().any(|b| *b == b'/')
}

// Returns the last name of a path, if the path is directly in the folder.
fn child_name<'a>(folder: &[u8], path: &'a [u8]) -> Option<&'a [u8]>
    ensures { MatchOption result (is_directly_in folder.now path.now ≡ false)
        (λ name. (is_directly_in folder.now path.now ≡ true) × (name.now ≡ drop (length folder.now + 1) path.now)) }
{
    let at = folder.len();
    if at >= path.len() || &path[..at] != folder || path[at] != b'/' {
        return None;
    }
    let name = &path[at + 1..];
    if has_slash(name) { None } else { Some(name) }
}

fn memory_entry_kind(held: &SourceEntry) -> SourceKind
    ensures { is_folder result ≡ has_no_bytes (memory_view held.now).1 }
{
    match &held.bytes {
        Some(_) => SourceKind::File,
        None => SourceKind::Folder,
    }
}

// Appends the name of an entry, if the entry is directly in the folder.
fn push_child_name(
    alloc: Global,
    names: &mut Vec<ListedName>,
    folder: &[u8],
    held: &SourceEntry,
) -> Result<(), FileError>
    ensures names { OnOk result (map listed_view names.new.items ≡ map listed_view names.old.items ++ name_in_folder folder.now (memory_view held.now)) }
    ensures memory { (e : _) → result ≡ Err e → e ≡ FileError.NoMemory }
{
    let Some(name) = child_name(folder, held.path.as_slice()) else {
        return Ok(());
    };
    let name = copy_bytes(alloc, name)?;
    let listed = ListedName {
        name,
        kind: memory_entry_kind(held),
        len: 0,
        modified: held.modified,
    };
    names.push(listed).map_err(|_| FileError::NoMemory)
}

// Returns the names of the entries that are directly in the folder.
fn child_names(
    alloc: Global,
    held: &[SourceEntry],
    folder: &[u8],
) -> Result<Vec<ListedName>, FileError>
    ensures names { IfOk result (λ v. map listed_view v.items ≡ names_in_folder (map memory_view held.now) folder.now) }
    ensures memory { (e : _) → result ≡ Err e → e ≡ FileError.NoMemory }
{
    let mut names = Vec::new(alloc);
    for one in held {
        push_child_name(alloc, &mut names, folder, one)?;
    }
    Ok(names)
}

impl Source for MemorySource {
    ghost shown = { λ s. Some (memory_source (map memory_view s.held.items)) };

    ghost has_failed = { λ s. s.has_failed };

    fn list(&mut self, alloc: Global, folder: &[u8]) -> Result<Vec<ListedName>, FileError>
        ensures names { IfOk result (λ v. map listed_view v.items ≡ names_in_folder (map memory_view self.old.held.items) folder.now) }
        ensures held { self.new.held ≡ self.old.held }
        ensures kept { self.new.has_failed ≡ false }
        ensures never { ¬ IsErrOf result FileError.Fault }
    {
        self.has_failed = false;
        child_names(alloc, self.held.as_slice(), folder)
    }

    fn read(&mut self, alloc: Global, file: &[u8], _listed_len: u64) -> Result<Vec<u8>, FileError>
        ensures bytes { IfOk result (λ v. file_bytes_at (map memory_view self.old.held.items) file.now ≡ Some v.items) }
        ensures held { self.new.held ≡ self.old.held }
        ensures kept { OnOk result (self.new.has_failed ≡ false) }
        ensures missing { IsErrOf result FileError.Fault → file_bytes_at (map memory_view self.old.held.items) file.now ≡ None }
        ensures fault { IsErrOf result FileError.Fault → self.new.has_failed ≡ true }
        ensures no_memory { IsErrOf result FileError.NoMemory → self.new.has_failed ≡ false }
    {
        self.has_failed = false;
        for held in &self.held {
            if held.path.as_slice() == file {
                if let Some(bytes) = &held.bytes {
                    return copy_bytes(alloc, bytes.as_slice());
                }
                break;
            }
        }
        self.has_failed = true;
        Err(FileError::Fault)
    }
}
