// The contents of a file, as an open reader keeps them.

ghost use Rattle.std.specs.Prelude.{◌≡◌, ◌<◌, IfOk, IsSome, List, false};
ghost use Rattle.lfs_model.specs.crash.Frame.{ancestor_paths};
ghost use Rattle.lfs_model.specs.tree.Shown.{disk_tree};
ghost use Rattle.lfs_model.specs.format.Slots.{Inline, Slot};
ghost use Rattle.lfs_thread.specs.CachedLog.{cached_log};
ghost use Rattle.lfs_lookup.specs.BytesAt.{IsFileAt};
ghost use Rattle.lfs_lookup.specs.FileContents.{AreStructContents, AreContentsAt};
ghost use Rattle.lfs_lookup.specs.Finds.{IsFoundNode};
ghost use Rattle.lfs_lookup.specs.LookupReading.{ReadsOrReports};
ghost use Rattle.lfs_lookup.specs.Reads.{ReadsPathsOnce};
ghost use Rattle.lfs_lookup.specs.Searchable.{CanSearchFromRoot};

use crate::by_path::{look_up_path, node_of_lookup};
use crate::bytes::{read_inline_at, slot_of_file};
use crate::entry::FileStorage;
use crate::found_entries::FoundNode;
use crate::path::Path;
use crate::search::SlotPosition;
use lfs_device::{BlockDevice, Error};
use lfs_thread::Thread;
use std::alloc::Global;

/// The contents of a file, as its entry stores them.
#[derive(Drop)]
pub enum FileContents {
    /// A copy of the file's inline bytes.
    Inline(Vec<u8>),
    /// A CTZ skip-list: the number of its last block, and its size in bytes.
    List { head: u32, size: u32 },
}

/// The entry at a path, and its contents if it is a file.
#[derive(Drop)]
pub struct FoundFile {
    pub finding: FoundNode,
    /// The contents of the file, or None if the path doesn't lead to a file.
    pub contents: Option<FileContents>,
}

// Returns the contents of the file in a slot whose block is cached.
fn contents_of_slot<D: BlockDevice>(
    alloc: Global,
    thread: &mut Thread<D>,
    slot: SlotPosition,
    contents: FileStorage,
) -> Result<FileContents, Error>
    requires works { thread.old.failed ≡ false }
    requires cached_log { IsSome (cached_log thread.old slot.pair) }
    requires file { (held : Slot) × IsFileAt thread.old.kept slot contents held }
    ensures is { (held : Slot) → IsFileAt thread.old.kept slot contents held → IfOk result (AreStructContents held.struct) }
    ensures no_call { thread.new.kept ≡ thread.old.kept }
    ensures reading { ReadsOrReports thread.old thread.new result }
{
    match contents {
        FileStorage::Inline { len } => {
            let bytes = read_inline_at(alloc, thread, slot, 0, len)?;
            Ok(FileContents::Inline(bytes))
        }
        FileStorage::List { head, size } => Ok(FileContents::List { head, size }),
    }
}

/// Looks up a path, and returns the contents of the file at the path, if there is one. Makes at
/// most one read for each metadata pair of the path's ancestor directories, and no read if all of
/// these pairs are cached.
///
/// `root` is the index of the root directory's first pair.
///
/// Errors: `Io` if a read fails. `NoMemory` if memory can't be allocated.
pub fn find_file_contents<D: BlockDevice>(
    alloc: Global,
    thread: &mut Thread<D>,
    root: usize,
    path: &Path<'_>,
) -> Result<FoundFile, Error>
    requires { CanSearchFromRoot thread.old root }
    ensures found { IfOk result (λ found. IsFoundNode (disk_tree thread.old.kept.disk thread.old.kept.pairs) path.now found.finding) }
    ensures contents { IfOk result (λ found. AreContentsAt thread.old.kept path.now found.contents) }
    ensures reads { ReadsPathsOnce (ancestor_paths path.now) thread.old thread.new }
    ensures reading { ReadsOrReports thread.old thread.new result }
{
    let shown = look_up_path(alloc, thread, root, path)?;
    // The proof needs the device's block size to show that a list has the size that its entry
    // states.
    let _device = thread.device();
    let finding = node_of_lookup(shown);
    let Some((slot, contents)) = slot_of_file(shown) else {
        return Ok(FoundFile {
            finding,
            contents: None,
        });
    };
    let contents = contents_of_slot(alloc, thread, slot, contents)?;
    Ok(FoundFile {
        finding,
        contents: Some(contents),
    })
}
