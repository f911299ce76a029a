ghost use Rattle.std.specs.Prelude.{◌≡◌, ◌++◌, ◌∷◌, [], IfOk, IfSome, IsErrOf, OnOk, false, map, reverse, true};
ghost use Rattle.lfs_model.specs.layers.Source.{HaveBadOrRepeatedNames, source_names, path_in_folder};
ghost use Rattle.lfs_tool.specs.SourceTrees.{IsUnchangedIfKnown, is_folder, listed_view};
ghost use Rattle.lfs_tool.specs.MemorySources.{optional_bytes_view};
ghost use Rattle.lfs_tool.specs.SourceEntries.{AreSourceEntries, AreSortedFolderNames, HasFaultOr, HasBadNames, HasSourceContents, pending_entry_view, paths_in_folder};

use crate::names::{are_valid_names, sort_names};
use crate::{FileError, ListedName, Source, SourceKind};
use std::alloc::Global;

/// A file or a folder of a source.
#[derive(Debug, Drop)]
pub struct SourceEntry {
    /// The path of the file or the folder, with a `/` before each name.
    pub path: Vec<u8>,
    /// The bytes of a file, or None for a folder.
    pub bytes: Option<Vec<u8>>,
    /// The time of the last modification in seconds since 1970, or None if it is unknown, before
    /// 1970 or after 2106.
    pub modified: Option<u32>,
}

// A file or a folder that has been listed but not read yet.
#[derive(Debug, Drop)]
struct PendingEntry {
    path: Vec<u8>,
    kind: SourceKind,
    len: u64,
    modified: Option<u32>,
}

// Returns the path of a name in a folder.
fn join_path(alloc: Global, folder: &[u8], name: &[u8]) -> Result<Vec<u8>, FileError>
    ensures path { IfOk result (λ v. v.items ≡ path_in_folder folder.now name.now) }
    ensures memory { (e : _) → result ≡ Err e → e ≡ FileError.NoMemory }
{
    let len = folder.len().saturating_add(1).saturating_add(name.len());
    let mut path = Vec::with_capacity(alloc, len).map_err(|_| FileError::NoMemory)?;
    path.extend_from_slice(folder)
        .map_err(|_| FileError::NoMemory)?;
    path.push(b'/').map_err(|_| FileError::NoMemory)?;
    path.extend_from_slice(name)
        .map_err(|_| FileError::NoMemory)?;
    Ok(path)
}

// Returns the names in a folder, sorted by name.
fn sorted_names<S: Source>(
    alloc: Global,
    source: &mut S,
    folder: &[u8],
) -> Result<Vec<ListedName>, FileError>
    ensures names { IfOk result (λ v. AreSortedFolderNames (S.shown source.old) folder.now (map listed_view v.items)) }
    ensures shown { IsUnchangedIfKnown (S.shown source.old) (S.shown source.new) }
    ensures kept { OnOk result (S.has_failed source.new ≡ false) }
    ensures fault { IsErrOf result FileError.Fault
        → HasFaultOr (S.has_failed source.new) (IfSome (S.shown source.old) (λ s. HaveBadOrRepeatedNames (source_names (s.names folder.now)))) }
    ensures no_memory { IsErrOf result FileError.NoMemory → S.has_failed source.new ≡ false }
{
    let mut names = source.list(alloc, folder)?;
    sort_names(&mut names);
    if !are_valid_names(names.as_slice()) {
        return Err(FileError::Fault);
    }
    Ok(names)
}

fn push_pending_entry(waiting: &mut Vec<PendingEntry>, one: PendingEntry) -> Result<(), FileError>
    ensures waiting { OnOk result (waiting.new.items ≡ waiting.old.items ++ one ∷ []) }
    ensures memory { (e : _) → result ≡ Err e → e ≡ FileError.NoMemory }
{
    waiting.push(one).map_err(|_| FileError::NoMemory)
}

fn push_pending_names(
    alloc: Global,
    folder: &[u8],
    names: &[ListedName],
    waiting: &mut Vec<PendingEntry>,
) -> Result<(), FileError>
    ensures places { OnOk result (map pending_entry_view waiting.new.items ≡ map pending_entry_view waiting.old.items ++ paths_in_folder folder.now (map listed_view names.now)) }
    ensures memory { (e : _) → result ≡ Err e → e ≡ FileError.NoMemory }
{
    for one in names {
        let path = join_path(alloc, folder, one.name.as_slice())?;
        let entry = PendingEntry {
            path,
            kind: one.kind,
            len: one.len,
            modified: one.modified,
        };
        push_pending_entry(waiting, entry)?;
    }
    Ok(())
}

// Appends the names in a folder to the pending ones, in reverse order, so that the first name is
// last.
fn push_folder_names<S: Source>(
    alloc: Global,
    source: &mut S,
    folder: &[u8],
    waiting: &mut Vec<PendingEntry>,
) -> Result<(), FileError>
    ensures within { OnOk result ((within : _) × (AreSortedFolderNames (S.shown source.old) folder.now within
        × (map pending_entry_view waiting.new.items ≡ map pending_entry_view waiting.old.items ++ reverse (paths_in_folder folder.now within)))) }
    ensures shown { IsUnchangedIfKnown (S.shown source.old) (S.shown source.new) }
    ensures kept { OnOk result (S.has_failed source.new ≡ false) }
    ensures fault { IsErrOf result FileError.Fault
        → HasFaultOr (S.has_failed source.new) (IfSome (S.shown source.old) (λ s. HaveBadOrRepeatedNames (source_names (s.names folder.now)))) }
    ensures no_memory { IsErrOf result FileError.NoMemory → S.has_failed source.new ≡ false }
{
    let mut names = sorted_names(alloc, source, folder)?;
    names.reverse();
    push_pending_names(alloc, folder, names.as_slice(), waiting)?;
    Ok(())
}

// Returns the bytes of a file. For a folder, returns None and appends its names to the pending
// ones.
fn read_pending_entry<S: Source>(
    alloc: Global,
    source: &mut S,
    one: &PendingEntry,
    waiting: &mut Vec<PendingEntry>,
) -> Result<Option<Vec<u8>>, FileError>
    ensures holds { IfOk result (λ bytes. (within : _) × (HasSourceContents (S.shown source.old) one.now.path.items (is_folder one.now.kind) (optional_bytes_view bytes) within
        × (map pending_entry_view waiting.new.items ≡ map pending_entry_view waiting.old.items ++ reverse (paths_in_folder one.now.path.items within)))) }
    ensures shown { IsUnchangedIfKnown (S.shown source.old) (S.shown source.new) }
    ensures kept { OnOk result (S.has_failed source.new ≡ false) }
    ensures fault { IsErrOf result FileError.Fault
        → HasFaultOr (S.has_failed source.new)
        ((is_folder one.now.kind ≡ true) × IfSome (S.shown source.old) (λ s. HaveBadOrRepeatedNames (source_names (s.names one.now.path.items)))) }
    ensures no_memory { IsErrOf result FileError.NoMemory → S.has_failed source.new ≡ false }
{
    match one.kind {
        SourceKind::Folder => {
            push_folder_names(alloc, source, one.path.as_slice(), waiting)?;
            Ok(None)
        }
        SourceKind::File => {
            let bytes = source.read(alloc, one.path.as_slice(), one.len)?;
            Ok(Some(bytes))
        }
    }
}

fn push_source_entry(entries: &mut Vec<SourceEntry>, entry: SourceEntry) -> Result<(), FileError>
    ensures entries { OnOk result (entries.new.items ≡ entries.old.items ++ entry ∷ []) }
    ensures memory { (e : _) → result ≡ Err e → e ≡ FileError.NoMemory }
{
    entries.push(entry).map_err(|_| FileError::NoMemory)
}

/// Reads all files and folders of a source, depth first and in name order. A folder comes before
/// its entries.
///
/// # Errors
/// - `Fault` if the source can't be read, or if a folder has two equal names or a name that a path
///   can't contain: an empty one, `.`, `..`, or one with a byte 0x00 or `/`.
/// - `NoMemory` if memory can't be allocated.
pub fn read_tree<S: Source>(alloc: Global, source: &mut S) -> Result<Vec<SourceEntry>, FileError>
    ensures entries { IfOk result (λ v. AreSourceEntries (S.shown source.old) v.items) }
    ensures shown { IsUnchangedIfKnown (S.shown source.old) (S.shown source.new) }
    ensures kept { OnOk result (S.has_failed source.new ≡ false) }
    ensures fault { IsErrOf result FileError.Fault → HasFaultOr (S.has_failed source.new) (IfSome (S.shown source.old) HasBadNames) }
    ensures no_memory { IsErrOf result FileError.NoMemory → S.has_failed source.new ≡ false }
{
    let mut entries = Vec::new(alloc);
    let mut waiting = Vec::new(alloc);
    push_folder_names(alloc, source, b"", &mut waiting)?;
    // Each iteration appends an entry, so memory runs out long before the loop ends.
    for _ in 0..u64::MAX {
        let Some(one) = waiting.pop() else {
            return Ok(entries);
        };
        let bytes = read_pending_entry(alloc, source, &one, &mut waiting)?;
        let entry = SourceEntry {
            path: one.path,
            bytes,
            modified: one.modified,
        };
        push_source_entry(&mut entries, entry)?;
    }
    Err(FileError::NoMemory)
}
