// The open files.

ghost use Rattle.std.specs.Prelude.{◌==◌, ℕ, if◌then◌else◌, nat_lt, ◌≡◌, ◌<◌, ◌≤◌, ◌^◌, ◌||◌, [], ◌∷◌, false, nat_le, length, None, Some, IfOk, IfErr, OnOk, OnErr, true, is_none, is_some, slice_get, slice_set, vec_len};
ghost use Rattle.std.specs.List.{list_any};
ghost use Rattle.std.specs.Option.{option_flatten, option_map};
ghost use Rattle.lfs_model.specs.session.TreeEdits.{same_path, tree_with_change};
ghost use Rattle.lfs_model.specs.session.Operations.{parse_path};
ghost use Rattle.lfs_model.specs.session.Session.{has_open_file};
ghost use Rattle.lfs_model.specs.session.Effects.{node_with_bytes};
ghost use Rattle.lfs_model.specs.session.Writers.{synced_writer, truncated_writer, turns_writer, writer_after_write};
ghost use Rattle.lfs_model.specs.session.Refusals.{path_or_root, path_unusable};
ghost use Rattle.lfs_file.specs.Known.{no_known_blocks};
ghost use Rattle.lfs_fs.specs.RenamePaths.{prevents_rename};
ghost use Rattle.lfs_tree.specs.OpenContents.{IsStoreApplied, KeepsImage};
ghost use Rattle.lfs_tree.specs.TreeState.{HasErrorCause, IsFailedTree, IsSoundState, PowerLossesLeaveEither, TreeState, visible_tree};
ghost use Rattle.lfs_fs.specs.WriterChanges.{CanSaveWriter, CanTruncateTo, CanWriteBytes, ChangesWriterAt, IsChangedWriter, IsSavedWriter};
ghost use Rattle.lfs_fs.specs.declared.files.Writer.{Writer as WriterSeen};
ghost use Rattle.lfs_fs.specs.FileView.{last_change_end, open_file_at, files_view, draft_or_stored_bytes, is_open_where, is_writer_with_draft, lowest_free_fd, writers_block_reserve, writer_block_reserve, draft_block_reserve, file_with_index_cache, file_with_position, files_with_entry, as_reader, readers_among, is_draft_nonsequential, writer_if_any, writer_view, writers_among, open_file_position};

use crate::owned_path::OwnedPath;
use crate::writers::{save_writer, truncate_writer, write_to_draft};
use lfs_device::{BlockDevice, Error, Geometry};
use lfs_file::{IndexCache, WriterContents, blocks_for};
use lfs_lookup::FileContents;
use lfs_tree::Tree;
use std::alloc::Global;
use std::marker::Model;

/// The number of an open file. An operation may be passed a number that no `open` returned.
pub type Fd = u32;

/// A file that is open for reading.
#[derive(Drop)]
pub struct Reader {
    pub path: OwnedPath,
    pub position: u32,
    /// The contents of the file according to its entry, which don't change while the file is open.
    pub contents: FileContents,
    /// The blocks of the file's CTZ skip-list that reads have found.
    pub known: IndexCache,
}

/// A file that is open for writing.
#[derive(Drop)]
pub struct Writer {
    pub path: OwnedPath,
    pub position: u32,
    /// The length of the contents in bytes.
    pub size: u32,
    /// Whether the writer writes only at the end of the file.
    pub appends: bool,
    /// The contents with changes that aren't synced, or None if there are no such changes.
    pub unsaved: Option<UnsavedContents>,
}

/// The contents of a writer with changes that aren't synced.
#[derive(Drop)]
pub struct UnsavedContents {
    pub contents: WriterContents,
    /// Whether a change began at another offset than the end of the previous change. Such a writer
    /// is nonsequential, and needs the blocks of a second CTZ skip-list.
    pub has_turned: bool,
    /// The end of the last change, in bytes from the beginning of the file.
    pub last_end: Option<u32>,
}

#[derive(Drop)]
pub enum OpenFile {
    Reading(Reader),
    Writing(Writer),
}

impl Writer {
    /// Returns the position in bytes at which the next write begins.
    pub fn place(&self) -> u32
        ensures { result ≡ (if self.now.appends then self.now.size else self.now.position) }
    {
        if self.appends {
            self.size
        } else {
            self.position
        }
    }

    /// Returns whether the writer will be nonsequential after a change that begins at byte `begin`.
    pub fn nonsequential_after_change(&self, begin: u32) -> bool
        ensures { result ≡ (is_draft_nonsequential self.now.unsaved || turns_writer (last_change_end self.now.unsaved) begin) }
    {
        match &self.unsaved {
            Some(unsaved) => unsaved.has_turned || is_nonsequential_change(unsaved.last_end, begin),
            None => false,
        }
    }

    /// Returns whether the writer will be nonsequential after a change of its size.
    pub fn nonsequential_after_resize(&self) -> bool
        ensures { result ≡ (is_draft_nonsequential self.now.unsaved || is_some (last_change_end self.now.unsaved)) }
    {
        match &self.unsaved {
            Some(unsaved) => unsaved.has_turned || unsaved.last_end.is_some(),
            None => false,
        }
    }

    /// Returns the new value of `last_end` after the size is changed to `new_size`.
    pub fn end_after_resize(&self, new_size: u32) -> Option<u32>
        ensures { result ≡ (if nat_lt self.now.size new_size then Some new_size else last_change_end self.now.unsaved) }
    {
        match &self.unsaved {
            Some(unsaved) => resized_last_end(self.size, new_size, unsaved.last_end),
            None => resized_last_end(self.size, new_size, None),
        }
    }

    // Returns the number of free blocks that are reserved for the writer.
    fn reserved_block_count(&self, geometry: Geometry) -> u64
        ensures held { result ≡ writer_block_reserve geometry.profile geometry.block_size self.now }
        ensures few { result < 2 ^ 34 }
    {
        match &self.unsaved {
            Some(unsaved) => draft_blocks_reserved(geometry, unsaved.has_turned, self.size),
            None => 0,
        }
    }
}

fn resized_last_end(size: u32, new_size: u32, last_end: Option<u32>) -> Option<u32>
    ensures { result ≡ (if nat_lt size new_size then Some new_size else last_end) }
{
    if size < new_size {
        Some(new_size)
    } else {
        last_end
    }
}

fn is_nonsequential_change(last_end: Option<u32>, begin: u32) -> bool
    ensures { result ≡ turns_writer last_end begin }
{
    match last_end {
        Some(end) => end != begin,
        None => false,
    }
}

/// The open files by number: at most 16 readers and at most one writer.
#[derive(Drop)]
pub struct Files {
    entries: Vec<Option<OpenFile>>,
}

impl Model for Files {
    ghost use Rattle.std.specs.Prelude.{◌≤◌, length, vec_len};
    ghost use Rattle.lfs_fs.specs.FileView.{RuntimeFiles, readers_among, writers_among};

    ghost Value = { RuntimeFiles };

    ghost view = { λ f. f.entries.items };

    ghost invariant = { λ f. (vec_len f.entries ≤ 17) × ((length (readers_among f.entries.items) ≤ 16) × (length (writers_among f.entries.items) ≤ 1)) };
}

impl Files {
    pub fn without_open_files(alloc: Global) -> Files
        ensures { result ≡ [] }
    {
        Files {
            entries: Vec::new(alloc),
        }
    }

    // Returns the number of free blocks that are reserved for the open writer.
    pub(crate) fn reserved_block_count(&self, geometry: Geometry) -> u64
        ensures held { result ≡ writers_block_reserve geometry.profile geometry.block_size self.now }
        ensures few { result < 2 ^ 34 }
    {
        count_reserved_blocks(&self.entries, geometry)
    }

    // Returns whether no reader may be opened at the path, because it has a writer or 16 readers
    // are open.
    pub(crate) fn prevents_reader_at(&self, path: &[u8]) -> bool
        requires { is_some (parse_path path.now) ≡ true }
        ensures { result ≡ (list_any (λ w. same_path (path_or_root path.now) w.path) (writers_among self.now) || nat_le 16 (length (readers_among self.now))) }
    {
        writers_have_path(&self.entries, path) || reader_count(&self.entries) >= 16
    }

    /// Adds a reader at position 0. Returns the reader's number, which is the lowest free number.
    ///
    /// Errors: `NoMemory` if memory for the file can't be allocated.
    pub fn add_reader(
        &mut self,
        alloc: Global,
        path: &[u8],
        contents: FileContents,
    ) -> Result<u32, Error>
        requires path { is_some (parse_path path.now) ≡ true }
        requires few { length (readers_among self.old) < 16 }
        ensures number { IfOk result (λ fd. fd ≡ lowest_free_fd self.old) }
        ensures added { OnOk result (self.new ≡ files_with_entry self.old (lowest_free_fd self.old) (Some (OpenFile.Reading (record { path = path_or_root path.now; position = 0; contents = contents; known = no_known_blocks })))) }
        ensures same { OnErr result (self.new ≡ self.old) }
        ensures error { IfErr result (λ e. e ≡ Error.NoMemory) }
    {
        let reader = Reader {
            path: OwnedPath::of(alloc, path)?,
            position: 0,
            contents,
            known: IndexCache::new(),
        };
        let number = free_number(&self.entries);
        set_table_entry(&mut self.entries, number, Some(OpenFile::Reading(reader)))?;
        Ok(number as u32)
    }

    /// Returns a reference to the reader with the number `fd`, if there is one.
    pub fn reader(&self, fd: u32) -> Option<&Reader>
        ensures { option_map (λ r. r.now) result ≡ as_reader (open_file_at self.now fd) }
    {
        match self.entries.get(fd as usize) {
            Some(Some(OpenFile::Reading(reader))) => Some(reader),
            _ => None,
        }
    }

    // Returns a reference to the writer with the number `fd`, if there is one.
    pub(crate) fn writer(&self, fd: u32) -> Option<&Writer>
        ensures { option_map (λ w. w.now) result ≡ writer_if_any (open_file_at self.now fd) }
    {
        match self.entries.get(fd as usize) {
            Some(Some(OpenFile::Writing(writer))) => Some(writer),
            _ => None,
        }
    }

    // Returns the position of the open file `fd`.
    pub(crate) fn position(&self, fd: u32) -> Option<u32>
        ensures { result ≡ option_map open_file_position (open_file_at self.now fd) }
    {
        match self.entries.get(fd as usize) {
            Some(Some(OpenFile::Reading(reader))) => Some(reader.position),
            Some(Some(OpenFile::Writing(writer))) => Some(writer.position),
            _ => None,
        }
    }

    // Returns whether a file is open for writing.
    pub(crate) fn is_writing(&self) -> bool
        ensures { result ≡ nat_lt 0 (length (writers_among self.now)) }
    {
        is_writing(&self.entries)
    }

    // Returns whether no writer may be opened at the path, because a writer is open or the path's
    // file is open.
    pub(crate) fn prevents_writer_at(&self, path: &[u8]) -> bool
        requires { is_some (parse_path path.now) ≡ true }
        ensures { (t : TreeState) → result ≡ (nat_lt 0 (length (writers_among self.now)) || has_open_file (same_path (path_or_root path.now)) (files_view t self.now)) }
    {
        self.is_writing() || self.is_open_at(path)
    }

    /// Allocates an entry for one more open file. Returns the file's number, which is the lowest
    /// free number.
    pub fn reserve_number(&mut self) -> Result<u32, Error>
        requires { writers_among self.old ≡ [] }
        ensures number { IfOk result (λ fd. fd ≡ lowest_free_fd self.old) }
        ensures room { OnOk result (self.new ≡ files_with_entry self.old (lowest_free_fd self.old) None) }
        ensures same { OnErr result (self.new ≡ self.old) }
        ensures error { IfErr result (λ e. e ≡ Error.NoMemory) }
    {
        let number = free_number(&self.entries);
        reserve_in_table(&mut self.entries, number)?;
        Ok(number as u32)
    }

    /// Adds a writer under a reserved number.
    pub fn add_writer(&mut self, fd: u32, writer: Writer)
        requires inside { fd < length self.old }
        requires free { open_file_at self.old fd ≡ None }
        requires none { writers_among self.old ≡ [] }
        ensures { self.new ≡ slice_set self.old fd (Some (OpenFile.Writing writer)) }
    {
        set_in_table(&mut self.entries, fd as usize, OpenFile::Writing(writer));
    }

    // Writes bytes, at least one, by the writer `fd`.
    //
    // Errors: `Io` if a device call fails, or `NoMemory` if memory can't be allocated. After an
    // error the tree has failed, and the writer can't be used.
    pub(crate) fn write<D: BlockDevice>(
        &mut self,
        alloc: Global,
        tree: &mut Tree<D>,
        fd: u32,
        bytes: &[u8],
    ) -> Result<(), Error>
        requires { (w : WriterSeen) × (open_file_at self.old fd ≡ Some (OpenFile.Writing w)) × CanWriteBytes tree.old w bytes.now }
        ensures written { (w : WriterSeen) → open_file_at self.old fd ≡ Some (OpenFile.Writing w) → ChangesWriterAt self.old fd (λ v. OnOk result (IsChangedWriter tree.new (writer_after_write (writer_view tree.old w) bytes.now) v)) self.new }
        ensures beside { OnOk result (KeepsImage tree.old tree.new) }
        ensures broken { OnErr result (IsFailedTree tree.old tree.new) }
        ensures errors { IfErr result (HasErrorCause tree.old tree.new) }
        ensures survives { IsSoundState tree.old → PowerLossesLeaveEither tree.old tree.new (visible_tree tree.old) }
    {
        write_in_table(alloc, tree, &mut self.entries, fd as usize, bytes)
    }

    // Sets the size of the contents of the writer `fd`.
    //
    // Errors: `Io` if a device call fails, or `NoMemory` if memory can't be allocated. After an
    // error the tree has failed, and the writer can't be used.
    pub(crate) fn truncate<D: BlockDevice>(
        &mut self,
        alloc: Global,
        tree: &mut Tree<D>,
        fd: u32,
        new_size: u32,
    ) -> Result<(), Error>
        requires { (w : WriterSeen) × (open_file_at self.old fd ≡ Some (OpenFile.Writing w)) × CanTruncateTo tree.old w new_size }
        ensures written { (w : WriterSeen) → open_file_at self.old fd ≡ Some (OpenFile.Writing w) → ChangesWriterAt self.old fd (λ v. OnOk result (IsChangedWriter tree.new (truncated_writer (writer_view tree.old w) new_size) v)) self.new }
        ensures beside { OnOk result (KeepsImage tree.old tree.new) }
        ensures broken { OnErr result (IsFailedTree tree.old tree.new) }
        ensures errors { IfErr result (HasErrorCause tree.old tree.new) }
        ensures survives { IsSoundState tree.old → PowerLossesLeaveEither tree.old tree.new (visible_tree tree.old) }
    {
        truncate_in_table(alloc, tree, &mut self.entries, fd as usize, new_size)
    }

    // Commits the changes of the writer `fd` to the tree.
    //
    // Errors: `Io` if a device call fails, or `NoMemory` if memory can't be allocated. After an
    // error the tree has failed, and the writer can't be used.
    pub(crate) fn save<D: BlockDevice>(
        &mut self,
        alloc: Global,
        tree: &mut Tree<D>,
        fd: u32,
    ) -> Result<(), Error>
        requires { (w : WriterSeen) × (open_file_at self.old fd ≡ Some (OpenFile.Writing w)) × CanSaveWriter tree.old w }
        ensures stored { (w : WriterSeen) → open_file_at self.old fd ≡ Some (OpenFile.Writing w) → OnOk result (IsStoreApplied tree.old w.path (draft_or_stored_bytes tree.old w.path w.unsaved) tree.new) }
        ensures saved { (w : WriterSeen) → open_file_at self.old fd ≡ Some (OpenFile.Writing w) → ChangesWriterAt self.old fd (λ v. OnOk result (IsSavedWriter tree.new (synced_writer (writer_view tree.old w)) v)) self.new }
        ensures broken { OnErr result (IsFailedTree tree.old tree.new) }
        ensures errors { IfErr result (HasErrorCause tree.old tree.new) }
        ensures survives { (w : WriterSeen) → open_file_at self.old fd ≡ Some (OpenFile.Writing w) → PowerLossesLeaveEither tree.old tree.new (tree_with_change w.path (node_with_bytes (draft_or_stored_bytes tree.old w.path w.unsaved)) (visible_tree tree.old)) }
    {
        save_in_table(alloc, tree, &mut self.entries, fd as usize)
    }

    pub(crate) fn is_open(&self, fd: u32) -> bool
        ensures { result ≡ is_some (open_file_at self.now fd) }
    {
        match self.entries.get(fd as usize) {
            Some(entry) => entry.is_some(),
            None => false,
        }
    }

    /// Returns whether the open file `fd` has changes that aren't synced.
    pub fn is_unsaved_at(&self, fd: u32) -> bool
        ensures { result ≡ is_writer_with_draft (open_file_at self.now fd) }
    {
        match self.entries.get(fd as usize) {
            Some(entry) => is_unsaved(entry),
            None => false,
        }
    }

    /// Returns whether the contents of the writer `fd` have `size` bytes.
    pub fn writer_has_size(&self, fd: u32, size: u32) -> bool
        ensures { (w : _) → writer_if_any (open_file_at self.now fd) ≡ Some w → result ≡ (size == w.size) }
    {
        match self.writer(fd) {
            Some(writer) => size == writer.size,
            None => false,
        }
    }

    // Returns whether a file is open at the path `path`.
    pub(crate) fn is_open_at(&self, path: &[u8]) -> bool
        requires { is_some (parse_path path.now) ≡ true }
        ensures { (t : TreeState) → result ≡ has_open_file (same_path (path_or_root path.now)) (files_view t self.now) }
    {
        files_have_path(&self.entries, path)
    }

    // Returns whether an open file prevents a rename. The file may be at the old path, beneath it,
    // or at the new path.
    pub(crate) fn prevents_rename_of(&self, from: &[u8], to: &[u8]) -> bool
        requires entry { path_unusable (parse_path from.now) ≡ false }
        requires given { is_some (parse_path to.now) ≡ true }
        ensures { (t : TreeState) → result ≡ has_open_file (prevents_rename (path_or_root from.now) (path_or_root to.now)) (files_view t self.now) }
    {
        files_prevent_rename(&self.entries, from, to)
    }

    /// Sets the position of an open file, in bytes.
    pub fn seek(&mut self, fd: u32, position: u32)
        requires { is_some (open_file_at self.old fd) ≡ true }
        ensures { self.new ≡ slice_set self.old fd (option_map (file_with_position position) (open_file_at self.old fd)) }
    {
        seek_in_table(&mut self.entries, fd as usize, position);
    }

    /// Stores which blocks of its CTZ skip-list an open reader has found.
    pub fn set_index_cache(&mut self, fd: u32, known: IndexCache)
        requires { is_some (open_file_at self.old fd) ≡ true }
        ensures { self.new ≡ slice_set self.old fd (option_map (file_with_index_cache known) (open_file_at self.old fd)) }
    {
        set_table_cache(&mut self.entries, fd as usize, known);
    }

    /// Closes an open file.
    pub fn close(&mut self, fd: u32)
        requires { is_some (open_file_at self.old fd) ≡ true }
        ensures { self.new ≡ slice_set self.old fd None }
    {
        close_in_table(&mut self.entries, fd as usize);
    }

    /// Closes all files.
    pub fn clear(&mut self)
        ensures { self.new ≡ [] }
    {
        self.entries.clear();
    }
}

fn seek_in_table(entries: &mut Vec<Option<OpenFile>>, index: usize, position: u32)
    requires { index < vec_len entries.old }
    ensures files { entries.new.items ≡ slice_set entries.old.items index (option_map (file_with_position position) (option_flatten (slice_get entries.old.items index))) }
    ensures len { vec_len entries.new ≡ vec_len entries.old }
{
    match &mut entries[index] {
        Some(OpenFile::Reading(reader)) => reader.position = position,
        Some(OpenFile::Writing(writer)) => writer.position = position,
        None => {}
    }
}

fn set_table_cache(entries: &mut Vec<Option<OpenFile>>, index: usize, known: IndexCache)
    requires { index < vec_len entries.old }
    ensures files { entries.new.items ≡ slice_set entries.old.items index (option_map (file_with_index_cache known) (option_flatten (slice_get entries.old.items index))) }
    ensures len { vec_len entries.new ≡ vec_len entries.old }
{
    if let Some(OpenFile::Reading(reader)) = &mut entries[index] {
        reader.known = known;
    }
}

// Writes bytes by the writer in an entry. Changes the entry in place, since moving the writer out
// costs a third of a short write.
fn write_in_table<D: BlockDevice>(
    alloc: Global,
    tree: &mut Tree<D>,
    entries: &mut Vec<Option<OpenFile>>,
    index: usize,
    bytes: &[u8],
) -> Result<(), Error>
    requires { (w : WriterSeen) × (open_file_at entries.old.items index ≡ Some (OpenFile.Writing w)) × CanWriteBytes tree.old w bytes.now }
    ensures written { (w : WriterSeen) → open_file_at entries.old.items index ≡ Some (OpenFile.Writing w) → ChangesWriterAt entries.old.items index (λ v. OnOk result (IsChangedWriter tree.new (writer_after_write (writer_view tree.old w) bytes.now) v)) entries.new.items }
    ensures len { vec_len entries.new ≡ vec_len entries.old }
    ensures beside { OnOk result (KeepsImage tree.old tree.new) }
    ensures broken { OnErr result (IsFailedTree tree.old tree.new) }
    ensures errors { IfErr result (HasErrorCause tree.old tree.new) }
    ensures survives { IsSoundState tree.old → PowerLossesLeaveEither tree.old tree.new (visible_tree tree.old) }
{
    match &mut entries[index] {
        Some(OpenFile::Writing(writer)) => write_to_draft(alloc, tree, writer, bytes),
        _ => unreachable!(),
    }
}

// Sets the size of the contents of the writer in an entry. Changes the entry in place, as
// `write_in_table` does.
fn truncate_in_table<D: BlockDevice>(
    alloc: Global,
    tree: &mut Tree<D>,
    entries: &mut Vec<Option<OpenFile>>,
    index: usize,
    new_size: u32,
) -> Result<(), Error>
    requires { (w : WriterSeen) × (open_file_at entries.old.items index ≡ Some (OpenFile.Writing w)) × CanTruncateTo tree.old w new_size }
    ensures written { (w : WriterSeen) → open_file_at entries.old.items index ≡ Some (OpenFile.Writing w) → ChangesWriterAt entries.old.items index (λ v. OnOk result (IsChangedWriter tree.new (truncated_writer (writer_view tree.old w) new_size) v)) entries.new.items }
    ensures len { vec_len entries.new ≡ vec_len entries.old }
    ensures beside { OnOk result (KeepsImage tree.old tree.new) }
    ensures broken { OnErr result (IsFailedTree tree.old tree.new) }
    ensures errors { IfErr result (HasErrorCause tree.old tree.new) }
    ensures survives { IsSoundState tree.old → PowerLossesLeaveEither tree.old tree.new (visible_tree tree.old) }
{
    match &mut entries[index] {
        Some(OpenFile::Writing(writer)) => truncate_writer(alloc, tree, writer, new_size),
        _ => unreachable!(),
    }
}

// Commits the changes of the writer in an entry to the tree. Changes the entry in place.
fn save_in_table<D: BlockDevice>(
    alloc: Global,
    tree: &mut Tree<D>,
    entries: &mut Vec<Option<OpenFile>>,
    index: usize,
) -> Result<(), Error>
    requires { (w : WriterSeen) × (open_file_at entries.old.items index ≡ Some (OpenFile.Writing w)) × CanSaveWriter tree.old w }
    ensures stored { (w : WriterSeen) → open_file_at entries.old.items index ≡ Some (OpenFile.Writing w) → OnOk result (IsStoreApplied tree.old w.path (draft_or_stored_bytes tree.old w.path w.unsaved) tree.new) }
    ensures saved { (w : WriterSeen) → open_file_at entries.old.items index ≡ Some (OpenFile.Writing w) → ChangesWriterAt entries.old.items index (λ v. OnOk result (IsSavedWriter tree.new (synced_writer (writer_view tree.old w)) v)) entries.new.items }
    ensures len { vec_len entries.new ≡ vec_len entries.old }
    ensures broken { OnErr result (IsFailedTree tree.old tree.new) }
    ensures errors { IfErr result (HasErrorCause tree.old tree.new) }
    ensures survives { (w : WriterSeen) → open_file_at entries.old.items index ≡ Some (OpenFile.Writing w) → PowerLossesLeaveEither tree.old tree.new (tree_with_change w.path (node_with_bytes (draft_or_stored_bytes tree.old w.path w.unsaved)) (visible_tree tree.old)) }
{
    match &mut entries[index] {
        Some(OpenFile::Writing(writer)) => save_writer(alloc, tree, writer),
        _ => unreachable!(),
    }
}

fn set_in_table(entries: &mut Vec<Option<OpenFile>>, index: usize, file: OpenFile)
    requires { index < vec_len entries.old }
    ensures files { entries.new.items ≡ slice_set entries.old.items index (Some file) }
    ensures len { vec_len entries.new ≡ vec_len entries.old }
{
    entries[index] = Some(file);
}

fn close_in_table(entries: &mut Vec<Option<OpenFile>>, index: usize)
    requires { index < vec_len entries.old }
    ensures files { entries.new.items ≡ slice_set entries.old.items index None }
    ensures len { vec_len entries.new ≡ vec_len entries.old }
{
    entries[index] = None;
}

// Returns the number of free blocks that are reserved for the writer, or 0 if there is no writer.
fn count_reserved_blocks(entries: &[Option<OpenFile>], geometry: Geometry) -> u64
    requires { length (writers_among entries.now) ≤ 1 }
    ensures held { result ≡ writers_block_reserve geometry.profile geometry.block_size entries.now }
    ensures few { result < 2 ^ 34 }
{
    for entry in entries {
        if let Some(OpenFile::Writing(writer)) = entry {
            return writer.reserved_block_count(geometry);
        }
    }
    0
}

// Returns the number of free blocks that are reserved for unsynced contents of `size` bytes.
pub(crate) fn draft_blocks_reserved(geometry: Geometry, has_turned: bool, size: u32) -> u64
    ensures held { result ≡ draft_block_reserve geometry.profile geometry.block_size has_turned size }
    ensures few { result < 2 ^ 34 }
{
    if size <= geometry.inline_limit() {
        return 2;
    }
    let blocks = blocks_for(geometry.block_size, size) as u64;
    if has_turned {
        2 + 2 * blocks
    } else {
        2 + blocks
    }
}

fn is_unsaved(entry: &Option<OpenFile>) -> bool
    ensures { result ≡ is_writer_with_draft entry.now }
{
    match entry {
        Some(OpenFile::Writing(writer)) => writer.unsaved.is_some(),
        _ => false,
    }
}

fn is_writing(entries: &[Option<OpenFile>]) -> bool
    ensures { result ≡ nat_lt 0 (length (writers_among entries.now)) }
{
    for entry in entries {
        if matches!(entry, Some(OpenFile::Writing(_))) {
            return true;
        }
    }
    false
}

// Returns whether a writer is open at the path `path`.
fn writers_have_path(entries: &[Option<OpenFile>], path: &[u8]) -> bool
    requires { is_some (parse_path path.now) ≡ true }
    ensures { result ≡ list_any (λ w. same_path (path_or_root path.now) w.path) (writers_among entries.now) }
{
    for entry in entries {
        if is_writer_at(entry, path) {
            return true;
        }
    }
    false
}

fn is_writer_at(entry: &Option<OpenFile>, path: &[u8]) -> bool
    requires { is_some (parse_path path.now) ≡ true }
    ensures { result ≡ list_any (λ w. same_path (path_or_root path.now) w.path) (writers_among (entry.now ∷ [])) }
{
    match entry {
        Some(OpenFile::Writing(writer)) => writer.path.path_has_bytes(path),
        _ => false,
    }
}

fn files_have_path(entries: &[Option<OpenFile>], path: &[u8]) -> bool
    requires { is_some (parse_path path.now) ≡ true }
    ensures { result ≡ list_any (is_open_where (same_path (path_or_root path.now))) entries.now }
{
    for entry in entries {
        if is_path_open(entry, path) {
            return true;
        }
    }
    false
}

fn is_path_open(entry: &Option<OpenFile>, path: &[u8]) -> bool
    requires { is_some (parse_path path.now) ≡ true }
    ensures { result ≡ is_open_where (same_path (path_or_root path.now)) entry.now }
{
    match entry {
        Some(OpenFile::Reading(reader)) => reader.path.path_has_bytes(path),
        Some(OpenFile::Writing(writer)) => writer.path.path_has_bytes(path),
        None => false,
    }
}

// Returns the number of open readers.
fn reader_count(entries: &[Option<OpenFile>]) -> usize
    ensures { result ≡ length (readers_among entries.now) }
{
    let mut count = 0;
    for entry in entries {
        if is_reader(entry) {
            count += 1;
        }
    }
    count
}

fn is_reader(entry: &Option<OpenFile>) -> bool
    ensures { result ≡ is_some (as_reader entry.now) }
{
    matches!(entry, Some(OpenFile::Reading(_)))
}

// Returns the lowest free number.
fn free_number(entries: &[Option<OpenFile>]) -> usize
    ensures { result ≡ lowest_free_fd entries.now }
{
    let mut number = 0;
    for entry in entries {
        if entry.is_none() {
            return number;
        }
        number += 1;
    }
    number
}

// Allocates an entry for a free number, which is at most the length of the table.
fn reserve_in_table(entries: &mut Vec<Option<OpenFile>>, number: usize) -> Result<(), Error>
    requires inside { number ≤ vec_len entries.old }
    requires few { number < 17 }
    requires free { open_file_at entries.old.items number ≡ None }
    ensures few { vec_len entries.old ≤ 17 → vec_len entries.new ≤ 17 }
    ensures put { OnOk result (entries.new.items ≡ files_with_entry entries.old.items number None) }
    ensures same { OnErr result (entries.new.items ≡ entries.old.items) }
    ensures error { IfErr result (λ e. e ≡ Error.NoMemory) }
{
    if number == entries.len() {
        entries.push(None)?;
    }
    Ok(())
}

// Stores an entry under a number that is at most the length of the table.
fn set_table_entry(
    entries: &mut Vec<Option<OpenFile>>,
    number: usize,
    entry: Option<OpenFile>,
) -> Result<(), Error>
    requires inside { number ≤ vec_len entries.old }
    requires few { number < 17 }
    ensures few { vec_len entries.old ≤ 17 → vec_len entries.new ≤ 17 }
    ensures put { OnOk result (entries.new.items ≡ files_with_entry entries.old.items number entry) }
    ensures same { OnErr result (entries.new.items ≡ entries.old.items) }
    ensures error { IfErr result (λ e. e ≡ Error.NoMemory) }
{
    if number < entries.len() {
        entries[number] = entry;
        Ok(())
    } else if entries.push(entry).is_err() {
        Err(Error::NoMemory)
    } else {
        Ok(())
    }
}

// Returns whether an open file prevents a rename. The file may be at the old path, beneath it, or
// at the new path.
fn files_prevent_rename(entries: &[Option<OpenFile>], from: &[u8], to: &[u8]) -> bool
    requires entry { path_unusable (parse_path from.now) ≡ false }
    requires given { is_some (parse_path to.now) ≡ true }
    ensures { result ≡ list_any (is_open_where (prevents_rename (path_or_root from.now) (path_or_root to.now))) entries.now }
{
    for entry in entries {
        if file_prevents_rename(entry, from, to) {
            return true;
        }
    }
    false
}

fn file_prevents_rename(entry: &Option<OpenFile>, from: &[u8], to: &[u8]) -> bool
    requires entry { path_unusable (parse_path from.now) ≡ false }
    requires given { is_some (parse_path to.now) ≡ true }
    ensures { result ≡ is_open_where (prevents_rename (path_or_root from.now) (path_or_root to.now)) entry.now }
{
    match entry {
        Some(OpenFile::Reading(reader)) => reader.path.is_within(from)
            || reader.path.path_has_bytes(to),
        Some(OpenFile::Writing(writer)) => writer.path.is_within(from)
            || writer.path.path_has_bytes(to),
        None => false,
    }
}
