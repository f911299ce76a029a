// The contents of files that are open for reading.

ghost use Rattle.std.specs.Prelude.{◌≡◌, ◌≤◌, ◌<◌, ◌+◌, ◌-◌, ◌^◌, List, ℕ, IfOk, OnOk, drop, false, length, min, take};
ghost use Rattle.lfs_model.specs.crash.Frame.{ancestor_paths};
ghost use Rattle.lfs_model.specs.tree.Shown.{struct_blocks, disk_tree};
ghost use Rattle.lfs_model.specs.format.Slots.{Ctz, Inline};
ghost use Rattle.lfs_model.specs.tree.Tree.{Path as ModelPath};
ghost use Rattle.lfs_model.specs.session.TreeEdits.{file_bytes};
ghost use Rattle.lfs_model.specs.tree.View.{IsWellFormedList};
ghost use Rattle.lfs_file.specs.Known.{AreKnownBlocks, ReadsKnownList};
ghost use Rattle.lfs_lookup.specs.LookupReading.{ReadsOrReports};
ghost use Rattle.lfs_lookup.specs.FileContents.{ContentsFitTag, IsStorageAt, AreContentsAt, contents_struct};
ghost use Rattle.lfs_lookup.specs.Finds.{IsFoundNode};
ghost use Rattle.lfs_tree.specs.TreeReads.{ReadsPairsOnce};
ghost use Rattle.lfs_tree.specs.TreeState.{ReadsTreeOrFails, kept_thread, visible_tree};

use crate::answers::fail_on_error;
use crate::tree::Tree;
use lfs_device::{BlockDevice, Error};
use lfs_file::IndexCache;
use lfs_lookup::{FileContents, FoundFile, Path, find_file_contents};
use lfs_thread::Thread;
use std::alloc::Global;

impl<D: BlockDevice> Tree<D> {
    /// Looks up a path. If the path leads to a file, returns the file's contents too. Reads each
    /// metadata pair of the path's parent directories at most once, and none if all of these pairs
    /// are cached.
    ///
    /// Errors: `Io` if a read fails, or `NoMemory` if memory can't be allocated. After an error the
    /// tree has failed.
    pub fn find_file(&mut self, alloc: Global, path: &Path<'_>) -> Result<FoundFile, Error>
        requires { self.old.failed ≡ false }
        ensures asks { ReadsTreeOrFails self.old result self.new }
        ensures found { IfOk result (λ found. IsFoundNode (visible_tree self.old) path.now found.finding) }
        ensures contents { IfOk result (λ found. AreContentsAt (kept_thread self.old) path.now found.contents) }
        ensures few { ReadsPairsOnce (ancestor_paths path.now) self.old self.new.history }
    {
        let found = find_file_contents(alloc, &mut self.thread, self.root, path);
        fail_on_error(&mut self.thread, &found);
        found
    }

    /// Reads the bytes of a file from byte offset `position` into a buffer, up to the end of the
    /// buffer or of the file. Returns the number of bytes read, and leaves the rest of the buffer
    /// unchanged. Looks up no path, and reads inline bytes from memory. Finds the blocks of a CTZ
    /// skip-list starting at the nearest block in `known`, and adds the blocks on the way to
    /// `known`. A sequential read within a block reads the whole block into the cache if memory for
    /// it can be allocated.
    ///
    /// Errors: `Io` if a read fails. The tree has then failed, and the contents of the buffer are
    /// unspecified.
    pub fn read(
        &mut self,
        contents: &FileContents,
        known: &mut IndexCache,
        position: u32,
        buf: &mut [u8],
    ) -> Result<usize, Error>
        requires works { self.old.failed ≡ false }
        requires there { (path : ModelPath) × IsStorageAt self.old.pairs path contents.now }
        requires blocks { AreKnownBlocks (struct_blocks self.old.disk (contents_struct contents.now)) known.old }
        ensures asks { ReadsTreeOrFails self.old result self.new }
        ensures bytes { (path : ModelPath) → IsStorageAt self.old.pairs path contents.now → IfOk result (λ n. take n buf.new ≡ take (length buf.old) (drop position (file_bytes (visible_tree self.old path)))) }
        ensures count { IfOk result (λ n. (n ≤ length buf.old) × (position + n < 2 ^ 32) × (drop n buf.new ≡ drop n buf.old)) }
        ensures none { (own : List ℕ) → contents_struct contents.now ≡ Inline own → self.new.history ≡ self.old.history }
        ensures blocks { AreKnownBlocks (struct_blocks self.old.disk (contents_struct contents.now)) known.new }
        ensures few { (head size : ℕ) → contents_struct contents.now ≡ Ctz head size → OnOk result (ReadsKnownList self.old.disk.block_size size position (length buf.old) known.old known.new self.old.history self.new.history) }
    {
        let count = read_known_contents(&mut self.thread, contents, known, position, buf);
        fail_on_error(&mut self.thread, &count);
        count
    }

    /// Returns the size in bytes of a file with the given contents. Doesn't access the device.
    pub fn size_of_contents(&self, contents: &FileContents) -> u32
        requires works { self.now.failed ≡ false }
        requires there { (path : ModelPath) × IsStorageAt self.now.pairs path contents.now }
        ensures size { (path : ModelPath) → IsStorageAt self.now.pairs path contents.now → result ≡ length (file_bytes (visible_tree self.now path)) }
        ensures list { (head size : ℕ) → contents_struct contents.now ≡ Ctz head size → result ≡ size }
    {
        let _device = self.thread.device();
        match contents {
            FileContents::Inline(bytes) => bytes.len() as u32,
            FileContents::List { head: _, size } => *size,
        }
    }
}

// Copies the bytes from `position` on into the buffer, up to the end of the buffer or of the bytes.
// Returns the number of bytes copied.
fn copy_from_position(bytes: &[u8], position: u32, buf: &mut [u8]) -> usize
    ensures count { result ≡ min (length buf.old) (length bytes.now - position) }
    ensures bytes { take result buf.new ≡ take (length buf.old) (drop position bytes.now) }
    ensures rest { drop result buf.new ≡ drop result buf.old }
{
    let rest = &bytes[bytes.len().min(position as usize)..];
    let count = rest.len().min(buf.len());
    buf[..count].copy_from_slice(&rest[..count]);
    count
}

// Reads the bytes of a file from `position` on into the buffer. `known` has blocks of the file's
// CTZ skip-list whose addresses are known.
fn read_known_contents<D: BlockDevice>(
    thread: &mut Thread<D>,
    contents: &FileContents,
    known: &mut IndexCache,
    position: u32,
    buf: &mut [u8],
) -> Result<usize, Error>
    requires works { thread.old.failed ≡ false }
    requires fits { ContentsFitTag contents.now }
    requires list { IsWellFormedList thread.old.kept.disk (contents_struct contents.now) }
    requires blocks { AreKnownBlocks (struct_blocks thread.old.kept.disk (contents_struct contents.now)) known.old }
    ensures bytes { (path : ModelPath) → IsStorageAt thread.old.kept.pairs path contents.now → IfOk result (λ n. take n buf.new ≡ take (length buf.old) (drop position (file_bytes (disk_tree thread.old.kept.disk thread.old.kept.pairs path)))) }
    ensures count { IfOk result (λ n. (n ≤ length buf.old) × (position + n < 2 ^ 32) × (drop n buf.new ≡ drop n buf.old)) }
    ensures none { (own : List ℕ) → contents_struct contents.now ≡ Inline own → thread.new ≡ thread.old }
    ensures blocks { AreKnownBlocks (struct_blocks thread.old.kept.disk (contents_struct contents.now)) known.new }
    ensures reading { ReadsOrReports thread.old thread.new result }
    ensures few { (head size : ℕ) → contents_struct contents.now ≡ Ctz head size → OnOk result (ReadsKnownList thread.old.kept.disk.block_size size position (length buf.old) known.old known.new thread.old.kept.history thread.new.kept.history) }
{
    match contents {
        FileContents::Inline(bytes) => Ok(copy_from_position(bytes, position, buf)),
        FileContents::List { head, size } => {
            let count = buf.len().min(size.saturating_sub(position) as usize);
            thread.read_known_list(*head, *size, known, position, &mut buf[..count])
        }
    }
}
