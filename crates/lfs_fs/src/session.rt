ghost use Rattle.lfs_model.specs.session.Operations as ops;
ghost use Rattle.lfs_model.specs.session.Operations.{Operation, Reply as Answer};
ghost use Rattle.lfs_fs.specs.Replies.{reply_from};
ghost use Rattle.std.specs.Prelude.{◌≡◌, ◌⊎◌, ◌↔◌, ◌++◌, ◌+◌, ◌≤◌, None, Some, false, true, List, [], drop, length, map, take, All, IfOk, IfErr, IsTrue, MatchResult, OnOk};
ghost use Rattle.lfs_model.specs.format.Disk.{SameGeometry, disk_with_order};
ghost use Rattle.lfs_model.specs.format.Thread.{Pair, address_blocks};
ghost use Rattle.lfs_model.specs.tree.Fresh.{empty_tree};
ghost use Rattle.lfs_model.specs.session.Headline.{HasDiskTree, SessionMatchesDisk};
ghost use Rattle.lfs_model.specs.session.History.{fault_count, read_count};
ghost use Rattle.lfs_model.specs.tree.Profile.{image_superblock_fields};
ghost use Rattle.lfs_model.specs.session.State.{Healthy, mounted_session};
ghost use Rattle.lfs_model.specs.session.Run.{AreSteps, SystemState};
ghost use Rattle.lfs_model.specs.crash.Performed.{ArePerformed};
ghost use Rattle.lfs_model.specs.crash.RepeatedPowerLoss.{IsJustMounted, MeetsCrashSafetyPremises};
ghost use Rattle.lfs_model.specs.crash.PowerLoss.{SurvivesPowerLoss};
ghost use Rattle.lfs_model.specs.declared.order.NameOrder.{NameOrder};
ghost use Rattle.lfs_model.specs.declared.order.NameOrder.TheVariants.{LongerFirst, ShorterFirst};
ghost use Rattle.lfs_thread.specs.ThreadDevice.{GivesDeviceBack};
ghost use Rattle.lfs_thread.specs.Kept.{disk_of_device, kept_in_order};
ghost use Rattle.lfs_model.specs.format.Thread.{superblock_pair_address};
ghost use Rattle.lfs_model.specs.tree.View.{IsAccepted};
ghost use Rattle.lfs_lookup.specs.Finds.{listed_item_view, stat_view};
ghost use Rattle.lfs_lookup.specs.RefusalErrors.{is_refusal};
ghost use Rattle.lfs_tag.specs.FieldsView.{superblock_view};
ghost use Rattle.lfs_tree.specs.Formats.{IsFormatError, IsFreshlyFormatted, WritesOnlyFirstTwoBlocks};
ghost use Rattle.lfs_tree.specs.TreeState.{kept_thread};
ghost use Rattle.lfs_fs.specs.GstateView.{returned_gstate_reply};
ghost use Rattle.lfs_fs.specs.ImageLimits.{FailedByRead, OnlyReadsSession};
ghost use Rattle.lfs_fs.specs.ReadOnly.{IsReadOnlyReason, IsWritableSession};
ghost use Rattle.lfs_fs.specs.Turns.{IsCrashSafeRun};
ghost use Rattle.lfs_fs.specs.SessionView.{BeginsByMount, FailsRun, system_state};
ghost use Rattle.lfs_fs.specs.FlagsView.{flags_view};
ghost use Rattle.lfs_fs.specs.OpView.{HasRefusalError, op_view, result_view, reply_view};
ghost use Rattle.lfs_fs.specs.CallEffects.{IsCall};
ghost use Rattle.lfs_fs.specs.ReaderReads.{BoundsFileReads};
ghost use Rattle.lfs_fs.specs.FileAnswers.{IsFileQueryResult, file_position, file_size};

use crate::checks::{
    check_and_list, check_and_stat, check_get_attr, check_is_open, check_mkdir, check_open_reader,
    check_open_writer, check_remove, check_remove_attr, check_seek, check_set_attr,
    check_sync_file, check_truncate, check_write,
};
use crate::device_laws::lemma_calls_conform;
use crate::files::{Fd, Files};
use crate::flags::OpenFlags;
use crate::gstate::{Gstate, gstate_from_move};
use crate::open_files::lemma_files_stay;
use crate::owned_path::OwnedPath;
use crate::reads::bytes_for_reader;
use crate::rename_checks::check_rename;
use crate::run::{
    Op, Reply, reply_of_bool, reply_of_bytes, reply_of_count, reply_of_fd, reply_of_gstate,
    reply_of_items, reply_of_stat, reply_of_unit,
};
use crate::writers::{create_and_open, open_existing_file};
use bitflags::Flags;
use lfs_device::{BlockDevice, Error};
use lfs_lookup::{ListItem as Item, Stat};
use lfs_model::{NameOrder, ProfileBreach};
use lfs_tag::Superblock;
use lfs_tree::Tree;
use std::alloc::Global;
use std::marker::Model;

/// A mounted file system and its open files.
///
/// A path is `/`, or a sequence of names with a `/` before each name. Names are bytes. A call may
/// be refused or may fail. A refused call writes nothing and changes nothing. A call fails with
/// `Io` if a device call fails, and with `NoMemory` if memory can't be allocated. After a call has
/// failed, each call except [`remount`](Session::remount) returns `Failed`.
///
/// The documentation of each call lists its refusals in the order of the call's checks. Each limit
/// in bytes is the format's limit, which the device's profile may lower. A call that returns
/// `ReadOnly`, `BadFile`, `Invalid` or `Failed` hasn't called the device. A refused
/// [`write`](Session::write) or [`truncate`](Session::truncate) hasn't called the device either.
#[derive(Drop)]
pub struct Session<D: BlockDevice> {
    tree: Tree<D>,
    files: Files,
}

impl<D: BlockDevice> Model for Session<D> {
    ghost use Rattle.lfs_fs.specs.SessionView.{SessionView, session_view};
    ghost use Rattle.lfs_fs.specs.DeviceLaws.{HasSessionInvariant};

    ghost Value = { SessionView };

    ghost view = { λ s. session_view s.tree s.files };

    ghost invariant = { λ s. HasSessionInvariant s.tree s.files };
}

impl<D: BlockDevice> Session<D> {
    /// Returns the kind of the entry at a path, and the size in bytes if the entry is a file. Makes
    /// at most one read for each metadata pair of the path's parent directories.
    ///
    /// # Errors
    ///
    /// `Invalid` if the path isn't well formed. `NoEnt` if a parent is missing, or `NotDir` if it
    /// is a file. `NoEnt` if the path has no entry.
    pub fn stat(&mut self, alloc: Global, path: &[u8]) -> Result<Stat, Error>
        ensures { IsCall self.old (ops.Stat path.now) (reply_from (λ stat. ops.StatIs (stat_view stat)) result) self.new }
    {
        check_and_stat(alloc, &mut self.tree, &self.files, path)
    }

    /// Returns the entries of a directory in name order. Makes at most one read for each metadata
    /// pair of the directory and of its parent directories.
    ///
    /// # Errors
    ///
    /// `Invalid` if the path isn't well formed. `NoEnt` if a parent is missing, or `NotDir` if it
    /// is a file. `NoEnt` if the path has no entry. `NotDir` if the entry is a file.
    pub fn list(&mut self, alloc: Global, path: &[u8]) -> Result<Vec<Item>, Error>
        ensures { IsCall self.old (ops.ListAll path.now) (reply_from (λ items. ops.Items (map listed_item_view items.items)) result) self.new }
    {
        check_and_list(alloc, &mut self.tree, &self.files, path)
    }

    /// Returns the bytes of an entry's attribute of type `kind`. Makes at most one read for each
    /// metadata pair of the path's parent directories.
    ///
    /// # Errors
    ///
    /// `Invalid` if the path isn't well formed, or is the root. `NoEnt` if a parent is missing, or
    /// `NotDir` if it is a file. `NoEnt` if the path has no entry. `NoAttr` if the entry has no
    /// attribute of this type.
    pub fn get_attr(&mut self, alloc: Global, path: &[u8], kind: u8) -> Result<Vec<u8>, Error>
        ensures { IsCall self.old (ops.GetAttr path.now kind) (reply_from (λ v. ops.Bytes v.items) result) self.new }
    {
        check_get_attr(alloc, &mut self.tree, &self.files, path, kind)
    }

    /// Returns the global state. Doesn't access the device. Is refused only if the session has
    /// failed.
    pub fn gstate(&self) -> Result<Gstate, Error>
        ensures { IsCall self.now ops.AskGstate (reply_from returned_gstate_reply result) self.now }
    {
        if self.tree.has_failed() {
            return Err(Error::Failed);
        }
        Ok(gstate_from_move(&self.tree.gstate()))
    }

    /// Returns whether the image uses a block. Doesn't access the device.
    ///
    /// # Errors
    ///
    /// `Invalid` if `block` isn't below the number of blocks.
    pub fn is_used(&self, block: u32) -> Result<bool, Error>
        ensures { IsCall self.now (ops.IsUsed block) (reply_from ops.Yes result) self.now }
    {
        if self.tree.has_failed() {
            return Err(Error::Failed);
        }
        if block >= self.tree.geometry().block_count {
            return Err(Error::Invalid);
        }
        Ok(self.tree.is_used(block))
    }

    /// Returns the number of blocks that the image uses. Doesn't access the device. Is refused only
    /// if the session has failed.
    pub fn used_count(&self) -> Result<u32, Error>
        ensures { IsCall self.now ops.UsedCount (reply_from ops.Count result) self.now }
    {
        if self.tree.has_failed() {
            return Err(Error::Failed);
        }
        Ok(self.tree.used_count())
    }

    /// Makes an empty directory. Recovers first, as [`recover`](Session::recover) does.
    ///
    /// # Errors
    ///
    /// `ReadOnly` if the image isn't in the writing profile. `Invalid` if the path isn't well
    /// formed. `NoEnt` if a parent is missing, or `NotDir` if it is a file. `NameTooLong` if the
    /// name has more than 255 bytes, or more than the profile allows. `Exist` if the path already
    /// has an entry. `EntryFull` if the name is too long for a metadata pair. `NoSpace` if fewer
    /// than four blocks are free.
    pub fn mkdir(&mut self, alloc: Global, path: &[u8]) -> Result<(), Error>
        ensures { IsCall self.old (ops.Mkdir path.now) (reply_from (λ _. ops.Done) result) self.new }
    {
        lemma_files_stay();
        let path = check_mkdir(alloc, &mut self.tree, &self.files, path)?;
        let answer = self.tree.mkdir(alloc, &path);
        lemma_calls_conform(&self.tree);
        answer
    }

    /// Removes a file or an empty directory. Recovers first, as [`recover`](Session::recover) does.
    ///
    /// # Errors
    ///
    /// `ReadOnly` if the image isn't in the writing profile. `Invalid` if the path isn't well
    /// formed, or is the root. `NoEnt` if a parent is missing, or `NotDir` if it is a file. `NoEnt`
    /// if the path has no entry. `NotEmpty` if the directory has entries. `Busy` if the file is
    /// open.
    pub fn remove(&mut self, alloc: Global, path: &[u8]) -> Result<(), Error>
        ensures { IsCall self.old (ops.Remove path.now) (reply_from (λ _. ops.Done) result) self.new }
    {
        lemma_files_stay();
        let path = check_remove(alloc, &mut self.tree, &self.files, path)?;
        let answer = self.tree.remove(alloc, &path);
        lemma_calls_conform(&self.tree);
        answer
    }

    /// Renames or moves an entry, and replaces a file or an empty directory at the new path. A
    /// directory moves with all entries beneath it. Recovers first, as
    /// [`recover`](Session::recover) does. If the two paths are the same, checks the call but
    /// changes nothing.
    ///
    /// # Errors
    ///
    /// `ReadOnly` if the image isn't in the writing profile. `Invalid` if a path isn't well formed
    /// or is the root, or if the new path is beneath the old one. `NoEnt` if a parent is missing,
    /// or `NotDir` if it is a file, where the old path is checked first. `NameTooLong` if the new
    /// name has more than 255 bytes, or more than the profile allows. `NoEnt` if the old path has
    /// no entry. `NotDir` if a directory would replace a file. `IsDir` if a file would replace a
    /// directory. `NotEmpty` if the replaced directory has entries. `Busy` if a file at the old
    /// path, beneath it or at the new path is open. `EntryFull` if the new name and the attributes
    /// are too large for a metadata pair. `NoSpace` if fewer than two blocks are free.
    pub fn rename(&mut self, alloc: Global, from: &[u8], to: &[u8]) -> Result<(), Error>
        ensures { IsCall self.old (ops.Rename from.now to.now) (reply_from (λ _. ops.Done) result) self.new }
    {
        lemma_files_stay();
        let renaming = check_rename(alloc, &mut self.tree, &self.files, from, to)?;
        if renaming.is_same {
            return Ok(());
        }
        let answer = self
            .tree
            .rename(alloc, &renaming.from, &renaming.to, renaming.targets);
        lemma_calls_conform(&self.tree);
        answer
    }

    /// Sets an entry's attribute of type `kind`, and replaces its old value, if there is one. The
    /// value has at most 1,022 bytes, or fewer if the profile has a lower limit. Recovers first, as
    /// [`recover`](Session::recover) does.
    ///
    /// # Errors
    ///
    /// `ReadOnly` if the image isn't in the writing profile. `Invalid` if the path isn't well
    /// formed, or is the root. `NoEnt` if a parent is missing, or `NotDir` if it is a file. `NoEnt`
    /// if the path has no entry. `TooBig` if the value is too long. `EntryFull` if the name and the
    /// attributes are too large for a metadata pair. `NoSpace` if fewer than two blocks are free.
    pub fn set_attr(
        &mut self,
        alloc: Global,
        path: &[u8],
        kind: u8,
        value: &[u8],
    ) -> Result<(), Error>
        ensures { IsCall self.old (ops.SetAttr path.now kind value.now) (reply_from (λ _. ops.Done) result) self.new }
    {
        lemma_files_stay();
        let path = check_set_attr(alloc, &mut self.tree, &self.files, path, kind, value)?;
        let answer = self.tree.set_attr(alloc, &path, kind, value);
        lemma_calls_conform(&self.tree);
        answer
    }

    /// Removes an entry's attribute of type `kind`. Recovers first, as
    /// [`recover`](Session::recover) does.
    ///
    /// # Errors
    ///
    /// `ReadOnly` if the image isn't in the writing profile. `Invalid` if the path isn't well
    /// formed, or is the root. `NoEnt` if a parent is missing, or `NotDir` if it is a file. `NoEnt`
    /// if the path has no entry. `NoAttr` if the entry has no attribute of this type.
    pub fn remove_attr(&mut self, alloc: Global, path: &[u8], kind: u8) -> Result<(), Error>
        ensures { IsCall self.old (ops.RemoveAttr path.now kind) (reply_from (λ _. ops.Done) result) self.new }
    {
        lemma_files_stay();
        let path = check_remove_attr(alloc, &mut self.tree, &self.files, path, kind)?;
        let answer = self.tree.remove_attr(alloc, &path, kind);
        lemma_calls_conform(&self.tree);
        answer
    }

    /// Completes a move that a power loss left half done, and drops orphans: directories that no
    /// path leads to. The tree of files and directories doesn't change. Writes nothing if nothing
    /// is left to recover.
    ///
    /// # Errors
    ///
    /// `ReadOnly` if the image isn't in the writing profile.
    pub fn recover(&mut self, alloc: Global) -> Result<(), Error>
        ensures { IsCall self.old ops.Recover (reply_from (λ _. ops.Done) result) self.new }
    {
        lemma_files_stay();
        if self.tree.has_failed() {
            return Err(Error::Failed);
        }
        if !self.tree.is_writable() {
            return Err(Error::ReadOnly);
        }
        let answer = self.tree.recover(alloc);
        lemma_calls_conform(&self.tree);
        answer
    }

    // Opens a file for reading.
    fn open_reader(&mut self, alloc: Global, path: &[u8], flags: OpenFlags) -> Result<Fd, Error>
        requires { (flags_view flags).write ≡ false }
        ensures { IsCall self.old (ops.Open path.now (flags_view flags)) (reply_from ops.Opened result) self.new }
    {
        let contents = check_open_reader(alloc, &mut self.tree, &self.files, path, flags)?;
        let answer = self.files.add_reader(alloc, path, contents);
        if answer.is_err() {
            self.tree.fail();
        }
        answer
    }

    // Opens a file for writing.
    fn open_writer(&mut self, alloc: Global, path: &[u8], flags: OpenFlags) -> Result<Fd, Error>
        requires { (flags_view flags).write ≡ true }
        ensures { IsCall self.old (ops.Open path.now (flags_view flags)) (reply_from ops.Opened result) self.new }
    {
        let found = check_open_writer(alloc, &mut self.tree, &self.files, path, flags)?;
        let Ok(owned) = OwnedPath::of(alloc, path) else {
            self.tree.fail();
            return Err(Error::NoMemory);
        };
        let Ok(number) = self.files.reserve_number() else {
            self.tree.fail();
            return Err(Error::NoMemory);
        };
        let writer = match found.size {
            Some(size) => {
                let answer = open_existing_file(alloc, &mut self.tree, owned, size, flags);
                lemma_calls_conform(&self.tree);
                answer?
            }
            None => {
                let answer = create_and_open(alloc, &mut self.tree, owned, flags, found.target);
                lemma_calls_conform(&self.tree);
                answer?
            }
        };
        self.files.add_writer(number, writer);
        Ok(number)
    }

    /// Opens a file for reading or for writing. Returns the file's number: the lowest one that
    /// isn't in use. At most one file may be open for writing, and at most 16 for reading. Opening
    /// a file for writing recovers first, as [`recover`](Session::recover) does. A new file is
    /// committed to the tree at once.
    ///
    /// # Errors
    ///
    /// `ReadOnly` if the file is opened for writing and the image isn't in the writing profile.
    /// `Invalid` if the path isn't well formed, or the flags aren't allowed together. `NoEnt` if a
    /// parent is missing, or `NotDir` if it is a file. `NameTooLong` if the name of a new file has
    /// more than 255 bytes, or more than the profile allows. `NoEnt` if the path has no entry and
    /// the flags don't include [`CREATE`](OpenFlags::CREATE). `Exist` if the path already has an
    /// entry and the flags include [`EXCLUSIVE`](OpenFlags::EXCLUSIVE). `IsDir` if the entry is a
    /// directory. `Busy`, for writing, if any file is open for writing, or this file is open for
    /// reading. `Busy`, for reading, if this file is open for writing, or 16 files are open for
    /// reading. `EntryFull` if the name of a new file is too long for a metadata pair. `NoSpace` if
    /// fewer than two blocks are free, and the call creates a file or truncates a file that isn't
    /// empty.
    pub fn open(&mut self, alloc: Global, path: &[u8], flags: OpenFlags) -> Result<Fd, Error>
        ensures { IsCall self.old (ops.Open path.now (flags_view flags)) (reply_from ops.Opened result) self.new }
    {
        if flags.contains(OpenFlags::WRITE) {
            self.open_writer(alloc, path, flags)
        } else {
            self.open_reader(alloc, path, flags)
        }
    }

    /// Writes bytes at the position of a file that is open for writing, or at its end if the file
    /// was opened with [`APPEND`](OpenFlags::APPEND). Returns the number of bytes written, which is
    /// the length of `bytes`. Fills a gap before the bytes with zeros, and sets the position to
    /// their end. The bytes are committed to the tree when the file is synced or closed.
    ///
    /// # Errors
    ///
    /// `BadFile` if no file is open for writing under the number `fd`. `TooBig` if the file would
    /// have more than 2,147,483,647 bytes, or more than the profile allows. `NoSpace` if too few
    /// blocks are free for the file's new contents.
    pub fn write(&mut self, alloc: Global, fd: Fd, bytes: &[u8]) -> Result<u32, Error>
        ensures { IsCall self.old (ops.Write fd bytes.now) (reply_from ops.Count result) self.new }
    {
        check_write(&self.tree, &self.files, fd, bytes)?;
        if bytes.is_empty() {
            return Ok(0);
        }
        let answer = self.files.write(alloc, &mut self.tree, fd, bytes);
        lemma_calls_conform(&self.tree);
        answer?;
        Ok(bytes.len() as u32)
    }

    /// Sets the size in bytes of a file that is open for writing: truncates the file, or extends it
    /// with zeros. The file's position doesn't change.
    ///
    /// # Errors
    ///
    /// `BadFile` if no file is open for writing under the number `fd`. `TooBig` if the size is
    /// above 2,147,483,647, or above the profile's limit for files. `NoSpace` if too few blocks are
    /// free for the file's new contents.
    pub fn truncate(&mut self, alloc: Global, fd: Fd, size: u32) -> Result<(), Error>
        ensures { IsCall self.old (ops.Truncate fd size) (reply_from (λ _. ops.Done) result) self.new }
    {
        check_truncate(&self.tree, &self.files, fd, size)?;
        if self.files.writer_has_size(fd, size) {
            return Ok(());
        }
        let answer = self.files.truncate(alloc, &mut self.tree, fd, size);
        lemma_calls_conform(&self.tree);
        answer
    }

    /// Commits the changes of an open file to the tree. Does nothing if there are no changes, or if
    /// the file is open for reading.
    ///
    /// # Errors
    ///
    /// `BadFile` if no file is open under the number `fd`.
    pub fn sync(&mut self, alloc: Global, fd: Fd) -> Result<(), Error>
        ensures { IsCall self.old (ops.Sync fd) (reply_from (λ _. ops.Done) result) self.new }
    {
        check_sync_file(&self.tree, &self.files, fd)?;
        if !self.files.is_unsaved_at(fd) {
            return Ok(());
        }
        let answer = self.files.save(alloc, &mut self.tree, fd);
        lemma_calls_conform(&self.tree);
        answer
    }

    /// Reads at most `count` bytes of an open file from its position. Returns fewer bytes at the
    /// end of the file, and none after it. Advances the position by the number of bytes read.
    ///
    /// An open file remembers the blocks of its CTZ skip-list that its reads have found. A read
    /// that ends in the same block as the previous read follows no pointer. A read that begins
    /// where the previous one ended, within a block, reads the whole block into the cache. Further
    /// reads of a cached block don't access the device.
    ///
    /// # Errors
    ///
    /// `BadFile` if no file is open for reading under the number `fd`.
    pub fn read(&mut self, alloc: Global, fd: Fd, count: u32) -> Result<Vec<u8>, Error>
        ensures call { IsCall self.old (ops.Read fd count) (reply_from (λ v. ops.Bytes v.items) result) self.new }
        ensures few { OnOk result (BoundsFileReads self.old fd count self.new) }
    {
        if self.tree.has_failed() {
            return Err(Error::Failed);
        }
        let Some(reader) = self.files.reader(fd) else {
            return Err(Error::BadFile);
        };
        let mut known = reader.known;
        let bytes = bytes_for_reader(alloc, &mut self.tree, reader, &mut known, count)?;
        let position = reader.position + bytes.len() as u32;
        self.files.set_index_cache(fd, known);
        self.files.seek(fd, position);
        Ok(bytes)
    }

    /// Reads bytes of an open file from its position into a buffer, up to the end of the buffer or
    /// of the file. Returns the number of bytes read, and advances the position by this number.
    /// Leaves the rest of the buffer unchanged. Makes the same reads of the device as
    /// [`read`](Session::read). Allocates memory only to cache a block, and succeeds without the
    /// cache if memory can't be allocated. A refused call leaves the buffer unchanged. After `Io`
    /// the contents of the buffer are unspecified.
    ///
    /// # Errors
    ///
    /// `BadFile` if no file is open for reading under the number `fd`.
    pub fn read_into(&mut self, fd: Fd, buf: &mut [u8]) -> Result<usize, Error>
        ensures call { IsCall self.old (ops.Read fd (length buf.old)) (reply_from (λ n. ops.Bytes (take n buf.new)) result) self.new }
        ensures stays { MatchResult result (λ n. (n ≤ length buf.old) × (drop n buf.new ≡ drop n buf.old)) (λ e. is_refusal e ≡ true → buf.new ≡ buf.old) }
        ensures few { OnOk result (BoundsFileReads self.old fd (length buf.old) self.new) }
    {
        if self.tree.has_failed() {
            return Err(Error::Failed);
        }
        let Some(reader) = self.files.reader(fd) else {
            return Err(Error::BadFile);
        };
        let mut known = reader.known;
        let count = self
            .tree
            .read(&reader.contents, &mut known, reader.position, buf)?;
        let position = reader.position + count as u32;
        self.files.set_index_cache(fd, known);
        self.files.seek(fd, position);
        Ok(count)
    }

    /// Sets the position of an open file, in bytes from its beginning. The position may be after
    /// the end of the file.
    ///
    /// # Errors
    ///
    /// `BadFile` if no file is open under the number `fd`. `Invalid` if the position is above
    /// 2,147,483,647, or above the profile's limit for files.
    pub fn seek(&mut self, fd: Fd, position: u32) -> Result<(), Error>
        ensures { IsCall self.old (ops.Seek fd position) (reply_from (λ _. ops.Done) result) self.new }
    {
        check_seek(&self.tree, &self.files, fd, position)?;
        self.files.seek(fd, position);
        Ok(())
    }

    /// Returns the position of an open file, in bytes from its beginning. Doesn't access the
    /// device.
    ///
    /// # Errors
    ///
    /// `BadFile` if no file is open under the number `fd`.
    pub fn position(&self, fd: Fd) -> Result<u32, Error>
        ensures { IsFileQueryResult file_position self.now fd result }
    {
        if self.tree.has_failed() {
            return Err(Error::Failed);
        }
        match self.files.position(fd) {
            Some(position) => Ok(position),
            None => Err(Error::BadFile),
        }
    }

    /// Returns the size of an open file in bytes. The size of a file that is open for writing
    /// includes changes that aren't synced. Doesn't access the device.
    ///
    /// # Errors
    ///
    /// `BadFile` if no file is open under the number `fd`.
    pub fn size(&self, fd: Fd) -> Result<u32, Error>
        ensures { IsFileQueryResult file_size self.now fd result }
    {
        if self.tree.has_failed() {
            return Err(Error::Failed);
        }
        if let Some(writer) = self.files.writer(fd) {
            return Ok(writer.size);
        }
        match self.files.reader(fd) {
            Some(reader) => Ok(self.tree.size_of_contents(&reader.contents)),
            None => Err(Error::BadFile),
        }
    }

    /// Commits the changes of an open file to the tree, closes the file, and frees its number.
    ///
    /// # Errors
    ///
    /// `BadFile` if no file is open under the number `fd`.
    pub fn close(&mut self, alloc: Global, fd: Fd) -> Result<(), Error>
        ensures { IsCall self.old (ops.Close fd) (reply_from (λ _. ops.Done) result) self.new }
    {
        check_is_open(&self.tree, &self.files, fd)?;
        if !self.files.is_unsaved_at(fd) {
            self.files.close(fd);
            return Ok(());
        }
        let answer = self.files.save(alloc, &mut self.tree, fd);
        lemma_calls_conform(&self.tree);
        answer?;
        self.files.close(fd);
        Ok(())
    }

    /// Closes all files and mounts the device again, even after an error. Changes that aren't
    /// synced are lost. Infers the order of names again, as [`mount`] does.
    ///
    /// # Errors
    ///
    /// `Corrupt` if the device has no accepted image in either order of names. `Io` if a read
    /// fails. `NoMemory` if memory can't be allocated. After an error the session has failed.
    pub fn remount(&mut self, alloc: Global) -> Result<(), Error>
        ensures { IsCall self.old ops.Remount (reply_from (λ _. ops.Done) result) self.new }
    {
        self.files.clear();
        let answer = self.tree.remount(alloc);
        lemma_calls_conform(&self.tree);
        answer
    }

    /// Returns a reference to the device in the state that the last call left.
    pub fn device(&self) -> &D
        ensures disk { disk_with_order self.now.tree.disk.order (disk_of_device D.BlockDevice result.now) ≡ self.now.tree.disk }
        ensures history { D.history result.now ≡ self.now.tree.history }
    {
        self.tree.device()
    }

    /// Ends the session and returns the device. Writes nothing, so changes that aren't synced are
    /// lost.
    pub fn unmount(self) -> D
        ensures disk { disk_with_order self.tree.disk.order (disk_of_device D.BlockDevice result) ≡ self.tree.disk }
        ensures history { D.history result ≡ self.tree.history }
    {
        self.tree.into_device()
    }

    /// Returns the order of names in the image's directories: whether a name comes before or after
    /// the longer names that begin with it. The result of [`list`](Session::list) doesn't depend on
    /// the order of names, since `list` always returns the shorter name first.
    pub fn order(&self) -> NameOrder
        ensures { result ≡ self.now.tree.disk.order }
    {
        self.tree.order()
    }

    /// Returns the image's superblock: its version, its block size and count, and its limits. Makes
    /// at most one read. An image whose limits differ from those of the session's profile isn't in
    /// the writing profile. [`mount_with_limits`](crate::mount_with_limits) adopts the limits of an
    /// image.
    ///
    /// # Errors
    ///
    /// `Io` if the read fails. `NoMemory` if memory can't be allocated. After an error the session
    /// has failed.
    pub fn superblock(&mut self, alloc: Global) -> Result<Superblock, Error>
        ensures is { IfOk result (λ f. image_superblock_fields self.old.tree.pairs ≡ Some (superblock_view f)) }
        ensures read { OnOk result (OnlyReadsSession self.old self.new) }
        ensures failed { IfErr result (FailedByRead self.old self.new) }
        ensures few { read_count self.new.tree.history ≤ read_count self.old.tree.history + 1 }
    {
        if self.tree.has_failed() {
            return Err(Error::Failed);
        }
        let superblock = self.tree.superblock(alloc);
        lemma_calls_conform(&self.tree);
        superblock
    }

    /// Returns whether the session has failed. Each call of a failed session, except
    /// [`remount`](Session::remount), is refused as `Failed`. Doesn't access the device.
    pub fn has_failed(&self) -> bool
        ensures { result ≡ self.now.tree.failed }
    {
        self.tree.has_failed()
    }

    /// Returns whether the session may write, which means that it hasn't failed and its image is in
    /// the writing profile. If the session may write, no operation is refused as `ReadOnly`, and
    /// [`run`](Session::run) survives a power loss. Doesn't access the device.
    pub fn is_writable(&self) -> bool
        ensures { IsTrue result ↔ IsWritableSession self.now }
    {
        if self.tree.has_failed() {
            return false;
        }
        self.tree.is_writable()
    }

    /// Returns why the image is read only: a rule of the writing profile that the image breaks, and
    /// where it breaks it. Returns None, without a device call, if and only if the session may
    /// write. Only reads the metadata pairs, and writes nothing.
    ///
    /// If the image breaks several rules, returns the first of these: a limit that differs from the
    /// profile's, inline contents that are too long, an empty pair, and a pair that is too large.
    ///
    /// # Errors
    ///
    /// `Failed` if the session has failed. `Io` if a read fails. `NoMemory` if memory can't be
    /// allocated. After `Io` or `NoMemory` the session has failed.
    pub fn read_only_reason(&mut self, alloc: Global) -> Result<Option<ProfileBreach>, Error>
        ensures is { IfOk result (IsReadOnlyReason self.old) }
        ensures read { OnOk result (OnlyReadsSession self.old self.new) }
        ensures failed { IfErr result (FailedByRead self.old self.new) }
        ensures silent { IsWritableSession self.old → self.new ≡ self.old }
    {
        if self.tree.has_failed() {
            return Err(Error::Failed);
        }
        if self.tree.is_writable() {
            return Ok(None);
        }
        let breach = self.tree.profile_breach(alloc);
        lemma_calls_conform(&self.tree);
        breach
    }

    // Performs one operation. Returns a refusal as a reply. After an error the session has failed.
    fn perform(&mut self, alloc: Global, op: Op<'_>) -> Result<Reply, Error>
        ensures call { IsCall self.old (op_view op.entry) (result_view result) self.new }
        ensures named { IfOk result HasRefusalError }
    {
        match op {
            Op::Open(path, flags) => reply_of_fd(self.open(alloc, path, flags)),
            Op::Read(fd, count) => reply_of_bytes(self.read(alloc, fd, count)),
            Op::Seek(fd, position) => reply_of_unit(self.seek(fd, position)),
            Op::Write(fd, bytes) => reply_of_count(self.write(alloc, fd, bytes)),
            Op::Truncate(fd, size) => reply_of_unit(self.truncate(alloc, fd, size)),
            Op::Sync(fd) => reply_of_unit(self.sync(alloc, fd)),
            Op::Close(fd) => reply_of_unit(self.close(alloc, fd)),
            Op::Mkdir(path) => reply_of_unit(self.mkdir(alloc, path)),
            Op::List(path) => reply_of_items(self.list(alloc, path)),
            Op::Stat(path) => reply_of_stat(self.stat(alloc, path)),
            Op::GetAttr(path, kind) => reply_of_bytes(self.get_attr(alloc, path, kind)),
            Op::Remove(path) => reply_of_unit(self.remove(alloc, path)),
            Op::Rename(from, to) => reply_of_unit(self.rename(alloc, from, to)),
            Op::SetAttr(path, kind, value) => reply_of_unit(self.set_attr(
                alloc, path, kind, value,
            )),
            Op::RemoveAttr(path, kind) => reply_of_unit(self.remove_attr(alloc, path, kind)),
            Op::Gstate => reply_of_gstate(self.gstate()),
            Op::IsUsed(block) => reply_of_bool(self.is_used(block)),
            Op::UsedCount => reply_of_count(self.used_count()),
            Op::Recover => reply_of_unit(self.recover(alloc)),
            Op::Remount => reply_of_unit(self.remount(alloc)),
        }
    }

    fn fail(&mut self)
        ensures failed { self.new ≡ record self.old { tree = record self.old.tree { failed = true } } }
        ensures survives_loss { (op : Operation) → SurvivesPowerLoss (system_state self.old) op (system_state self.new) }
    {
        self.tree.fail();
    }

    /// Performs operations in order, and returns a reply for each. A refusal is a reply, too, and
    /// the run continues after it.
    ///
    /// # Errors
    ///
    /// Returns `Io`, `NoMemory` or, from a remount, `Corrupt`. After an error the session has
    /// failed. All operations before the failed one have been performed.
    pub fn run(&mut self, alloc: Global, ops: &[Op<'_>]) -> Result<Vec<Reply>, Error>
        ensures performed { IfOk result (λ replies. ArePerformed None (system_state self.old) (map op_view ops.now) (map reply_view replies.items) (system_state self.new)) }
        ensures named { IfOk result (λ replies. All HasRefusalError replies.items) }
        ensures no_fault { OnOk result (fault_count self.new.tree.history ≡ fault_count self.old.tree.history) }
        ensures headline { IfOk result (λ replies. (from : SystemState) (done : List Operation) (answers : List Answer) → HasDiskTree from → AreSteps from done answers (system_state self.old)
            → SessionMatchesDisk from (done ++ map op_view ops.now) (answers ++ map reply_view replies.items) (system_state self.new)) }
        ensures survives { MeetsCrashSafetyPremises (system_state self.old) (system_state self.new) → IsCrashSafeRun (system_state self.old) (map op_view ops.now) (system_state self.new) }
        ensures ended { IfErr result (λ e. FailsRun e (system_state self.old) (map op_view ops.now) (system_state self.new)) }
    {
        let mut replies = Vec::new(alloc);
        for op in ops {
            if replies.reserve(1).is_err() {
                self.fail();
                return Err(Error::NoMemory);
            }
            match self.perform(alloc, *op) {
                Ok(reply) => replies.push_reserved(reply),
                Err(error) => return Err(error),
            }
        }
        Ok(replies)
    }
}

/// Mounts the image on a device, and infers the order of names in its directories. If both orders
/// fit the names, the order is littlefs's own, `LongerFirst`. Only reads the device.
///
/// An image whose limits differ from those of the device's profile isn't in the writing profile.
/// [`mount_with_limits`](crate::mount_with_limits) adopts the image's limits.
///
/// # Errors
///
/// `Corrupt` if the device has no accepted image in either order of names. `Io` if a read fails.
/// `NoMemory` if memory can't be allocated. An error also returns the device.
pub fn mount<D: BlockDevice>(alloc: Global, device: D) -> Result<Session<D>, (D, Error)>
    ensures begun { IfOk result (λ s. BeginsByMount (disk_with_order s.tree.disk.order (disk_of_device D.BlockDevice device)) (D.history device) s) }
    ensures state { IfOk result (λ s. IsJustMounted (disk_with_order s.tree.disk.order (disk_of_device D.BlockDevice device)) (system_state s)) }
    ensures longer { IfOk result (λ s. s.tree.disk.order ≡ ShorterFirst → (ps : List Pair) → ¬ IsAccepted (disk_with_order LongerFirst (disk_of_device D.BlockDevice device)) ps) }
    ensures corrupt { IfErr result (λ e. e.1 ≡ Error.Corrupt → (order : NameOrder) (ps : List Pair) → ¬ IsAccepted (disk_with_order order (disk_of_device D.BlockDevice device)) ps) }
    ensures errors { IfErr result (λ e. (e.1 ≡ Error.Io) ⊎ (e.1 ≡ Error.Corrupt) ⊎ (e.1 ≡ Error.NoMemory)) }
    ensures back { IfErr result (λ e. GivesDeviceBack D.BlockDevice device e.0 e.1) }
{
    match Tree::mount(alloc, device) {
        Ok(tree) => {
            lemma_calls_conform(&tree);
            Ok(Session {
                tree,
                files: Files::without_open_files(alloc),
            })
        }
        Err(back) => Err(back),
    }
}

/// Makes an empty file system on a device as [`format_ordered`] does, with littlefs's own order of
/// names, `LongerFirst`.
///
/// # Errors
///
/// Returns the same errors as [`format_ordered`].
pub fn format<D: BlockDevice>(alloc: Global, device: D) -> Result<Session<D>, (D, Error)>
    ensures formatted { IfOk result (λ s. IsFreshlyFormatted (kept_thread s.tree)) }
    ensures state { IfOk result (λ s. (system_state s).state ≡ Healthy (mounted_session empty_tree)) }
    ensures geometry { IfOk result (λ s. SameGeometry (disk_with_order LongerFirst (disk_of_device D.BlockDevice device)) s.tree.disk) }
    ensures calls { IfOk result (λ s. WritesOnlyFirstTwoBlocks (kept_in_order D.BlockDevice LongerFirst device [] []) (kept_thread s.tree)) }
    ensures back { IfErr result (λ e. IsFormatError D.BlockDevice (address_blocks superblock_pair_address) device e.0 e.1) }
{
    format_ordered(alloc, device, NameOrder::LongerFirst)
}

/// Makes an empty file system on a device, and returns a session over it. Erases blocks 0 and 1,
/// and writes no other block (see "0x0ff LFS_TYPE_SUPERBLOCK" in littlefs's SPEC.md). Directories
/// will store their names in the order `order`. The image doesn't record the order of names, but a
/// mount infers it.
///
/// # Errors
///
/// `Io` if a device call fails; the two blocks may then contain any bytes. `NoMemory` if memory
/// can't be allocated; in this case nothing is written. An error also returns the device.
pub fn format_ordered<D: BlockDevice>(
    alloc: Global,
    device: D,
    order: NameOrder,
) -> Result<Session<D>, (D, Error)>
    ensures formatted { IfOk result (λ s. IsFreshlyFormatted (kept_thread s.tree)) }
    ensures state { IfOk result (λ s. (system_state s).state ≡ Healthy (mounted_session empty_tree)) }
    ensures geometry { IfOk result (λ s. SameGeometry (disk_with_order order (disk_of_device D.BlockDevice device)) s.tree.disk) }
    ensures calls { IfOk result (λ s. WritesOnlyFirstTwoBlocks (kept_in_order D.BlockDevice order device [] []) (kept_thread s.tree)) }
    ensures back { IfErr result (λ e. IsFormatError D.BlockDevice (address_blocks superblock_pair_address) device e.0 e.1) }
{
    match Tree::format(alloc, device, order) {
        Ok(tree) => {
            lemma_calls_conform(&tree);
            Ok(Session {
                tree,
                files: Files::without_open_files(alloc),
            })
        }
        Err(back) => Err(back),
    }
}
