// The contents of files that are open for writing.

ghost use Rattle.std.specs.Prelude.{◌≡◌, [], false, true, length, take, IfErr, IfOk, OnErr, OnOk};
ghost use Rattle.lfs_model.specs.session.TreeEdits.{file_bytes, tree_with_change, is_file};
ghost use Rattle.lfs_model.specs.layers.BlockSets.{in_flight_count};
ghost use Rattle.lfs_model.specs.format.Disk.{inline_limit};
ghost use Rattle.lfs_model.specs.session.Writers.{written_contents, zero_padded};
ghost use Rattle.lfs_model.specs.session.Effects.{node_with_bytes};
ghost use Rattle.lfs_model.specs.tree.Tree.{Path as ModelPath};
ghost use Rattle.lfs_tree.specs.OpenContents.{CanOpenWriterOf, CanStoreContents, CanTruncateIn, CanWriteIn, ContentsHaveBytesInForm, IsOpenedForm, AreTreeContents, IsStoreApplied, WritesUnusedOrFails, writer_contents_bytes, kept_thread};
ghost use Rattle.lfs_tree.specs.TreeState.{ReadsTreeOrFails, IsFailedTree, FailedByReading, HasErrorCause, PowerLossesLeaveEither, visible_tree};
ghost use Rattle.lfs_file.specs.Contents.{contents_form};
ghost use Rattle.lfs_file.specs.Form as form;
ghost use Rattle.lfs_file.specs.Form.{truncated_form, written_form};

use crate::answers::fail_on_error;
use crate::contents_at::store_contents_at;
use crate::files::{truncate_file, write_file};
use crate::opened_contents::{empty_writer_contents, open_contents_at};
use crate::tree::Tree;
use lfs_device::{BlockDevice, Error};
use lfs_file::WriterContents;
use lfs_lookup::Path;
use std::alloc::Global;

impl<D: BlockDevice> Tree<D> {
    /// Returns the contents of a file for a new writer. Reads the bytes of an inline file into
    /// memory, but only refers to the CTZ skip-list of any other file.
    ///
    /// Errors: `Io` if a read fails, or `NoMemory` if memory can't be allocated. After an error the
    /// tree has failed.
    pub fn open_writer_contents(
        &mut self,
        alloc: Global,
        path: &Path<'_>,
    ) -> Result<WriterContents, Error>
        requires { CanOpenWriterOf self.old path.now }
        ensures asks { ReadsTreeOrFails self.old result self.new }
        ensures over { IfOk result (AreTreeContents self.new path.now) }
        ensures bytes { IfOk result (λ c. writer_contents_bytes (kept_thread self.new) c ≡ file_bytes (visible_tree self.old path.now)) }
        ensures form { IfOk result (λ c. IsOpenedForm self.old.disk.profile self.old.disk.block_size (length (file_bytes (visible_tree self.old path.now))) (contents_form c)) }
    {
        let contents = open_contents_at(alloc, &mut self.thread, self.root, path);
        fail_on_error(&mut self.thread, &contents);
        contents
    }

    /// Returns empty contents for the writer of an empty file, or of a file that is truncated when
    /// it is opened.
    ///
    /// Errors: `NoMemory` if memory can't be allocated. After an error the tree has failed.
    pub fn empty_contents(&mut self, alloc: Global) -> Result<WriterContents, Error>
        requires works { self.old.failed ≡ false }
        requires idle { in_flight_count self.old.map ≡ 0 }
        ensures same { OnOk result (self.new ≡ self.old) }
        ensures over { (path : ModelPath) → is_file (visible_tree self.old path) ≡ true → IfOk result (AreTreeContents self.new path) }
        ensures bytes { IfOk result (λ c. writer_contents_bytes (kept_thread self.new) c ≡ []) }
        ensures form { IfOk result (λ c. contents_form c ≡ form.InMemory 0) }
        ensures broken { OnErr result (FailedByReading self.old self.new) }
        ensures errors { IfErr result (HasErrorCause self.old self.new) }
    {
        let contents = empty_writer_contents(alloc, &self.thread);
        fail_on_error(&mut self.thread, &contents);
        contents
    }

    /// Writes `bytes`, at least one, at byte offset `place` of a writer's contents. Fills a gap
    /// before `place` with zeros. Doesn't change the image.
    ///
    /// Errors: `Io` if a device call fails, or `NoMemory` if memory can't be allocated. After an
    /// error the contents are lost, and the tree has failed.
    pub fn write(
        &mut self,
        alloc: Global,
        contents: WriterContents,
        place: u32,
        bytes: &[u8],
    ) -> Result<WriterContents, Error>
        requires { CanWriteIn self.old contents place (length bytes.now) }
        ensures over { (path : ModelPath) → AreTreeContents self.old path contents → IfOk result (AreTreeContents self.new path) }
        ensures written { IfOk result (ContentsHaveBytesInForm self.new (written_contents (writer_contents_bytes (kept_thread self.old) contents) place bytes.now)
            (written_form (inline_limit self.old.disk.profile self.old.disk.block_size) place (length bytes.now) (contents_form contents))) }
        ensures writes { WritesUnusedOrFails self.old result self.new }
    {
        let written = write_file(alloc, &mut self.thread, contents, place, bytes);
        fail_on_error(&mut self.thread, &written);
        written
    }

    /// Sets the size of a writer's contents in bytes: truncates them, or extends them with zeros.
    /// Doesn't change the image.
    ///
    /// Returns the same errors as [`write`](Tree::write).
    pub fn truncate(
        &mut self,
        alloc: Global,
        contents: WriterContents,
        size: u32,
    ) -> Result<WriterContents, Error>
        requires { CanTruncateIn self.old contents size }
        ensures over { (path : ModelPath) → AreTreeContents self.old path contents → IfOk result (AreTreeContents self.new path) }
        ensures truncated { IfOk result (ContentsHaveBytesInForm self.new (take size (zero_padded size (writer_contents_bytes (kept_thread self.old) contents)))
            (truncated_form (inline_limit self.old.disk.profile self.old.disk.block_size) size (contents_form contents))) }
        ensures writes { WritesUnusedOrFails self.old result self.new }
    {
        let truncated = truncate_file(alloc, &mut self.thread, contents, size);
        fail_on_error(&mut self.thread, &truncated);
        truncated
    }

    /// Commits a writer's contents to its file. Afterwards no block is in flight, that is,
    /// allocated but not yet committed. May relocate one worn metadata pair.
    ///
    /// Returns the same errors as [`write`](Tree::write).
    pub fn commit_writer_contents(
        &mut self,
        alloc: Global,
        path: &Path<'_>,
        contents: WriterContents,
    ) -> Result<(), Error>
        requires { CanStoreContents self.old path.now contents }
        ensures stored { OnOk result (IsStoreApplied self.old path.now (writer_contents_bytes (kept_thread self.old) contents) self.new) }
        ensures broken { OnErr result (IsFailedTree self.old self.new) }
        ensures errors { IfErr result (HasErrorCause self.old self.new) }
        ensures survives { PowerLossesLeaveEither self.old self.new (tree_with_change path.now (node_with_bytes (writer_contents_bytes (kept_thread self.old) contents)) (visible_tree self.old)) }
    {
        let plan = self.plan_move(2);
        let stored = store_contents_at(alloc, &mut self.thread, self.root, path, contents);
        fail_on_error(&mut self.thread, &stored);
        self.relocate(alloc, plan, stored)
    }
}
