// A volume and its calls.

ghost use Rattle.std.specs.Prelude.{◌≡◌, ◌↔◌, ◌+◌, ◌<◌, ◌≤◌, ◌^◌, ℕ, [], false, true, IfErr, IfOk, IsTrue, MatchResult, Ok, OnOk, Some, drop, length, map, take, unwrap_or};
ghost use Rattle.lfs_model.specs.format.Disk.{disk_with_order, profile_file_max};
ghost use Rattle.lfs_model.specs.format.Names.{same_name};
ghost use Rattle.lfs_model.specs.tree.Profile.{image_superblock_fields};
ghost use Rattle.lfs_model.specs.session.History.{read_count};
ghost use Rattle.lfs_model.specs.session.Operations as ops;
ghost use Rattle.lfs_tag.specs.FieldsView.{superblock_view};
ghost use Rattle.lfs_thread.specs.Kept.{disk_of_device};
ghost use Rattle.lfs_fs.specs.FlagsView.{flags_view};
ghost use Rattle.lfs_fs.specs.GstateView.{returned_gstate_reply};
ghost use Rattle.lfs_fs.specs.ImageLimits.{FailedByRead, OnlyReadsSession};
ghost use Rattle.lfs_fs.specs.ReadOnly.{IsReadOnlyReason, IsWritableSession};
ghost use Rattle.lfs_fs.specs.Replies.{reply_from};
ghost use Rattle.lfs_lookup.specs.Finds.{listed_item_view, stat_view};
ghost use Rattle.lfs_volume.specs.Calls as calls;
ghost use Rattle.lfs_volume.specs.SessionCalls.{error_result};
ghost use Rattle.lfs_volume.specs.Volume.{NodeView, VolumeView, entry_at};
ghost use Rattle.lfs_volume.specs.VolumeCalls.{IsAllowedWriteOffset, HasSameOpenFiles, IsHandleDropped, IsHandleLookup, IsReadyToRead, IsVolumeRemount, IsSessionCall, IsSoundVolume, WriteExceedsFileMax, IsVolumeCall, IsWorkingSession};

use crate::bytes::{copied, copy_into};
use crate::flags::{allows_volume_flags, session_flags, truncates};
use crate::handles::{
    Handle, free_entry_at, free_number, handle_at, new_handle, put_entry, reserve_entry,
    set_position,
};
use crate::loads::find_file;
use crate::node::{Node, is_same_path};
use crate::nodes::{
    bytes_of, drop_unreferenced_node, find_node_index, load_node_at, node_at, open_node,
    renamed_paths, resize_at, set_renamed_paths, sync_node_at, unlink_path, write_at, write_offset,
};
use lfs_device::{BlockDevice, Error};
use lfs_fs::{Gstate, Item, NameOrder, OpenFlags, ProfileBreach, Session, Stat, Superblock};
use std::alloc::Global;
use std::marker::Model;

/// A volume: a tree of files on a device, and any number of open files.
///
/// A file may be open under several handles, each for reading, writing or both. A write by one
/// handle is visible to all handles of the file at once. Each handle has its own position. A sync
/// or a close commits the changes of a file to the tree. An open file may be renamed or removed.
///
/// A call may be refused or may fail. A refused call changes nothing. A call fails with `Io` if a
/// device call fails, and with `NoMemory` if the underlying session can't allocate memory. A
/// remount may also fail with `Corrupt`. After a call has failed, each call except
/// [`remount`](Volume::remount) returns `Failed`. If the volume can't allocate its own memory for a
/// handle or for the bytes of a file, the call also returns `NoMemory`, but changes nothing, and
/// the volume hasn't failed.
#[derive(Drop)]
pub struct Volume<D: BlockDevice> {
    session: Session<D>,
    nodes: Vec<Option<Node>>,
    handles: Vec<Option<Handle>>,
    // Memory of a closed file's contents, to be reused for the next file that is loaded.
    spare: Vec<u8>,
}

impl<D: BlockDevice> Model for Volume<D> {
    ghost use Rattle.lfs_volume.specs.Volume.{VolumeView};
    ghost use Rattle.lfs_volume.specs.VolumeCalls.{IsSoundIfWorking};

    ghost Value = { VolumeView };

    ghost view = { λ v. record { session = v.session; nodes = v.nodes.items; handles = v.handles.items } };

    ghost invariant = { λ v. IsSoundIfWorking (record { session = v.session; nodes = v.nodes.items; handles = v.handles.items }) };
}

impl<D: BlockDevice> Volume<D> {
    // Returns `Failed` if the session has failed.
    fn check_not_failed(&self) -> Result<(), Error>
        ensures works { OnOk result (IsWorkingSession self.now.session) }
        ensures sound { OnOk result (IsSoundVolume self.now) }
        ensures failed { IfErr result (λ e. (e ≡ Error.Failed) × (self.now.session.tree.failed ≡ true)) }
    {
        self.session.used_count()?;
        Ok(())
    }

    // Returns the handle with the number `handle`. Returns `Failed` if the session has failed.
    fn find_handle(&self, handle: u32) -> Result<Handle, Error>
        ensures found { IsHandleLookup self.now handle result }
        ensures sound { OnOk result (IsSoundVolume self.now) }
    {
        self.check_not_failed()?;
        match handle_at(&self.handles, handle) {
            Some(found) => Ok(found),
            None => Err(Error::BadFile),
        }
    }

    /// Opens a file for reading, for writing or for both. Returns the number of a new handle, which
    /// is the lowest one that isn't in use. The position of the handle is 0. A new file is
    /// committed to the tree at once. A file that is truncated becomes empty for all its handles at
    /// once, and in the tree after a sync.
    ///
    /// # Errors
    ///
    /// `Invalid` if the flags aren't allowed together. All other errors are those of a session's
    /// `open`, for writing if the flags include `WRITE`, but never `Busy`.
    pub fn open(&mut self, alloc: Global, path: &[u8], flags: OpenFlags) -> Result<u32, Error>
        ensures { IsVolumeCall self.old (calls.Open path.now (flags_view flags)) (reply_from ops.Opened result) self.new }
    {
        self.check_not_failed()?;
        if !allows_volume_flags(flags) {
            return Err(Error::Invalid);
        }
        reserve_entry(&mut self.handles)?;
        reserve_entry(&mut self.nodes)?;
        let own_path = copied(alloc, path)?;
        let number = free_number(&self.handles)?;
        let size = find_file(alloc, &mut self.session, path, session_flags(flags))?;
        let node = open_node(alloc, &mut self.nodes, own_path, size, truncates(flags));
        put_entry(&mut self.handles, number as usize, new_handle(node, flags));
        Ok(number)
    }

    // Returns the maximum size of a file in bytes.
    fn file_max(&self) -> u32
        ensures { result ≡ profile_file_max self.now.session.tree.disk.profile }
    {
        self.session.device().geometry().file_max()
    }

    // Returns the handle with the number `handle`, which must be open for reading. Loads the bytes
    // of its file into memory.
    fn find_readable_handle(&mut self, alloc: Global, handle: u32) -> Result<Handle, Error>
        ensures found { IfOk result (λ h. IsReadyToRead self.old handle h self.new) }
        ensures ended { IfErr result (λ e. (count : ℕ) → IsVolumeCall self.old (calls.Read handle count) (error_result e) self.new) }
    {
        let found = self.find_handle(handle)?;
        if !found.reads {
            return Err(Error::BadFile);
        }
        load_node_at(
            alloc,
            &mut self.session,
            &mut self.nodes,
            found.node,
            &mut self.spare,
        )?;
        Ok(found)
    }

    // Returns at most `count` bytes from a handle's position.
    fn bytes_at(&self, found: Handle, count: usize) -> &[u8]
        ensures few { length result.now ≤ count }
        ensures are { (n : NodeView) → entry_at self.now.nodes found.node ≡ Some n → result.now ≡ take count (drop found.position (unwrap_or n.contents [])) }
        ensures fits { found.position + length result.now < 2 ^ 32 }
    {
        match node_at(&self.nodes, found.node) {
            Some(node) => bytes_of(node, found.position, count),
            None => &[],
        }
    }

    /// Reads at most `count` bytes of a file from the handle's position. Returns fewer bytes at the
    /// end of the file. Advances the position by the number of bytes read.
    ///
    /// # Errors
    ///
    /// `BadFile` if no handle with the number `handle` is open for reading.
    pub fn read(&mut self, alloc: Global, handle: u32, count: u32) -> Result<Vec<u8>, Error>
        ensures { IsVolumeCall self.old (calls.Read handle count) (reply_from (λ v. ops.Bytes v.items) result) self.new }
    {
        let found = self.find_readable_handle(alloc, handle)?;
        let bytes = copied(alloc, self.bytes_at(found, count as usize))?;
        let position = found.position + bytes.len() as u32;
        set_position(&mut self.handles, handle, position);
        Ok(bytes)
    }

    /// Reads bytes of a file into a buffer, and advances the position as [`read`](Volume::read)
    /// does. Returns the number of bytes read, and leaves the rest of the buffer unchanged. An
    /// error leaves the whole buffer unchanged.
    ///
    /// # Errors
    ///
    /// `BadFile` if no handle with the number `handle` is open for reading.
    pub fn read_into(&mut self, alloc: Global, handle: u32, buf: &mut [u8]) -> Result<usize, Error>
        ensures call { IfOk result (λ n. IsVolumeCall self.old (calls.Read handle (length buf.old)) (Ok (ops.Bytes (take n buf.new))) self.new) }
        ensures rest { MatchResult result (λ n. (n ≤ length buf.old) × (drop n buf.new ≡ drop n buf.old)) (λ _. buf.new ≡ buf.old) }
        ensures ended { IfErr result (λ e. IsVolumeCall self.old (calls.Read handle (length buf.old)) (error_result e) self.new) }
    {
        let found = self.find_readable_handle(alloc, handle)?;
        let bytes = self.bytes_at(found, buf.len());
        copy_into(buf, bytes);
        let count = bytes.len();
        set_position(&mut self.handles, handle, found.position + count as u32);
        Ok(count)
    }

    // Returns the offset at which a handle would write `count` bytes. Returns `TooBig` if the
    // profile doesn't allow a file of the resulting size.
    fn checked_write_offset(&self, found: Handle, count: usize) -> Result<u32, Error>
        ensures fits { IfOk result (λ at. IsAllowedWriteOffset self.now found count at) }
        ensures small { IfOk result (λ at. at + count < 2 ^ 31) }
        ensures long { IfErr result (λ e. (e ≡ Error.TooBig) × WriteExceedsFileMax self.now found count) }
    {
        let Some(node) = node_at(&self.nodes, found.node) else {
            return Err(Error::TooBig);
        };
        let at = write_offset(found, node);
        let end = (at as usize).saturating_add(count);
        if end.max(node.size() as usize) > self.file_max() as usize {
            return Err(Error::TooBig);
        }
        Ok(at)
    }

    /// Writes bytes at the handle's position, or at the end of the file if the handle was opened
    /// with `APPEND`. Returns the number of bytes written. Fills a gap before the bytes with zeros,
    /// and sets the position to their end. A sync or a close commits the bytes to the tree. Writes
    /// either all of the bytes or none.
    ///
    /// # Errors
    ///
    /// `BadFile` if no handle with the number `handle` is open for writing. `TooBig` if the file
    /// would have more bytes than the profile allows.
    pub fn write(&mut self, alloc: Global, handle: u32, bytes: &[u8]) -> Result<u32, Error>
        ensures { IsVolumeCall self.old (calls.Write handle bytes.now) (reply_from ops.Count result) self.new }
    {
        let found = self.find_handle(handle)?;
        if !found.writes {
            return Err(Error::BadFile);
        }
        if bytes.len() == 0 {
            return Ok(0);
        }
        let at = self.checked_write_offset(found, bytes.len())?;
        load_node_at(
            alloc,
            &mut self.session,
            &mut self.nodes,
            found.node,
            &mut self.spare,
        )?;
        write_at(&mut self.nodes, found.node, at, bytes)?;
        let count = bytes.len() as u32;
        set_position(&mut self.handles, handle, at + count);
        Ok(count)
    }

    /// Sets the position of a handle, in bytes from the beginning of the file. The position may be
    /// after the end of the file.
    ///
    /// # Errors
    ///
    /// `BadFile` if no handle has the number `handle`. `Invalid` if the position is above the
    /// profile's limit for files.
    pub fn seek(&mut self, handle: u32, position: u32) -> Result<(), Error>
        ensures { IsVolumeCall self.old (calls.Seek handle position) (reply_from (λ _. ops.Done) result) self.new }
    {
        self.find_handle(handle)?;
        if position > self.file_max() {
            return Err(Error::Invalid);
        }
        set_position(&mut self.handles, handle, position);
        Ok(())
    }

    /// Returns the position of a handle, in bytes from the beginning of the file.
    ///
    /// # Errors
    ///
    /// `BadFile` if no handle has the number `handle`.
    pub fn position(&self, handle: u32) -> Result<u32, Error>
        ensures { IsVolumeCall self.now (calls.Tell handle) (reply_from ops.Count result) self.now }
    {
        Ok(self.find_handle(handle)?.position)
    }

    /// Returns the size of an open file in bytes. The size includes changes that aren't synced.
    ///
    /// # Errors
    ///
    /// `BadFile` if no handle has the number `handle`.
    pub fn size(&self, handle: u32) -> Result<u32, Error>
        ensures { IsVolumeCall self.now (calls.Size handle) (reply_from ops.Count result) self.now }
    {
        let found = self.find_handle(handle)?;
        match node_at(&self.nodes, found.node) {
            Some(node) => Ok(node.size()),
            None => Err(Error::BadFile),
        }
    }

    /// Sets the size of an open file in bytes: truncates the file, or extends it with zeros.
    /// Doesn't change the positions of handles.
    ///
    /// # Errors
    ///
    /// `BadFile` if no handle with the number `handle` is open for writing. `TooBig` if the size is
    /// above the profile's limit for files.
    pub fn truncate(&mut self, alloc: Global, handle: u32, size: u32) -> Result<(), Error>
        ensures { IsVolumeCall self.old (calls.Truncate handle size) (reply_from (λ _. ops.Done) result) self.new }
    {
        let found = self.find_handle(handle)?;
        if !found.writes {
            return Err(Error::BadFile);
        }
        if size > self.file_max() {
            return Err(Error::TooBig);
        }
        load_node_at(
            alloc,
            &mut self.session,
            &mut self.nodes,
            found.node,
            &mut self.spare,
        )?;
        resize_at(&mut self.nodes, found.node, size)?;
        Ok(())
    }

    /// Commits the changes of an open file to the tree. Does nothing if there are no changes, or if
    /// the file was removed.
    ///
    /// # Errors
    ///
    /// `BadFile` if no handle has the number `handle`. `NoSpace` if too few blocks are free: a sync
    /// needs two blocks, and the blocks of a CTZ skip-list of the file's size.
    pub fn sync(&mut self, alloc: Global, handle: u32) -> Result<(), Error>
        ensures { IsVolumeCall self.old (calls.Sync handle) (reply_from (λ _. ops.Done) result) self.new }
    {
        let found = self.find_handle(handle)?;
        sync_node_at(alloc, &mut self.session, &mut self.nodes, found.node)?;
        Ok(())
    }

    /// Syncs an open file, and closes the handle even if the sync fails or is refused. Changes that
    /// couldn't be synced are lost unless another handle is open on the file.
    ///
    /// # Errors
    ///
    /// Returns the same errors as [`sync`](Volume::sync).
    pub fn close(&mut self, alloc: Global, handle: u32) -> Result<(), Error>
        ensures { IsVolumeCall self.old (calls.Close handle) (reply_from (λ _. ops.Done) result) self.new }
    {
        let found = self.find_handle(handle)?;
        match sync_node_at(alloc, &mut self.session, &mut self.nodes, found.node) {
            Ok(()) => {
                self.drop_handle(handle, found);
                Ok(())
            }
            Err(error) => {
                self.drop_handle(handle, found);
                Err(error)
            }
        }
    }

    // Frees a handle's number, and drops the node if no other handle refers to it.
    fn drop_handle(&mut self, handle: u32, found: Handle)
        ensures { IsHandleDropped self.old handle found self.new }
    {
        free_entry_at(&mut self.handles, handle as usize);
        drop_unreferenced_node(&self.handles, &mut self.nodes, found.node, &mut self.spare);
    }

    /// Returns the kind of the entry at a path, and the size in bytes if the entry is a file. The
    /// size doesn't include changes that aren't synced.
    ///
    /// # Errors
    ///
    /// Returns the same errors as a session's `stat`.
    pub fn stat(&mut self, alloc: Global, path: &[u8]) -> Result<Stat, Error>
        ensures { IsSessionCall self.old (ops.Stat path.now) (reply_from (λ stat. ops.StatIs (stat_view stat)) result) self.new }
    {
        self.session.stat(alloc, path)
    }

    /// Returns the entries of a directory in name order. The sizes of files don't include changes
    /// that aren't synced.
    ///
    /// # Errors
    ///
    /// Returns the same errors as a session's `list`.
    pub fn list(&mut self, alloc: Global, path: &[u8]) -> Result<Vec<Item>, Error>
        ensures { IsSessionCall self.old (ops.ListAll path.now) (reply_from (λ items. ops.Items (map listed_item_view items.items)) result) self.new }
    {
        self.session.list(alloc, path)
    }

    /// Returns the bytes of an entry's attribute of type `kind`.
    ///
    /// # Errors
    ///
    /// Returns the same errors as a session's `get_attr`.
    pub fn get_attr(&mut self, alloc: Global, path: &[u8], kind: u8) -> Result<Vec<u8>, Error>
        ensures { IsSessionCall self.old (ops.GetAttr path.now kind) (reply_from (λ v. ops.Bytes v.items) result) self.new }
    {
        self.session.get_attr(alloc, path, kind)
    }

    /// Returns the global state.
    ///
    /// # Errors
    ///
    /// `Failed` if the volume has failed.
    pub fn gstate(&self) -> Result<Gstate, Error>
        ensures { IsSessionCall self.now ops.AskGstate (reply_from returned_gstate_reply result) self.now }
    {
        self.session.gstate()
    }

    /// Returns whether the image uses a block.
    ///
    /// # Errors
    ///
    /// `Invalid` if the image has no block with this number.
    pub fn is_used(&self, block: u32) -> Result<bool, Error>
        ensures { IsSessionCall self.now (ops.IsUsed block) (reply_from ops.Yes result) self.now }
    {
        self.session.is_used(block)
    }

    /// Returns the number of blocks that the image uses.
    ///
    /// # Errors
    ///
    /// `Failed` if the volume has failed.
    pub fn used_count(&self) -> Result<u32, Error>
        ensures { IsSessionCall self.now ops.UsedCount (reply_from ops.Count result) self.now }
    {
        self.session.used_count()
    }

    /// Makes an empty directory.
    ///
    /// # Errors
    ///
    /// Returns the same errors as a session's `mkdir`.
    pub fn mkdir(&mut self, alloc: Global, path: &[u8]) -> Result<(), Error>
        ensures { IsSessionCall self.old (ops.Mkdir path.now) (reply_from (λ _. ops.Done) result) self.new }
    {
        self.session.mkdir(alloc, path)
    }

    /// Sets an entry's attribute of type `kind`.
    ///
    /// # Errors
    ///
    /// Returns the same errors as a session's `set_attr`.
    pub fn set_attr(
        &mut self,
        alloc: Global,
        path: &[u8],
        kind: u8,
        value: &[u8],
    ) -> Result<(), Error>
        ensures { IsSessionCall self.old (ops.SetAttr path.now kind value.now) (reply_from (λ _. ops.Done) result) self.new }
    {
        self.session.set_attr(alloc, path, kind, value)
    }

    /// Removes an entry's attribute of type `kind`.
    ///
    /// # Errors
    ///
    /// Returns the same errors as a session's `remove_attr`.
    pub fn remove_attr(&mut self, alloc: Global, path: &[u8], kind: u8) -> Result<(), Error>
        ensures { IsSessionCall self.old (ops.RemoveAttr path.now kind) (reply_from (λ _. ops.Done) result) self.new }
    {
        self.session.remove_attr(alloc, path, kind)
    }

    /// Completes what a power loss left half done in the image.
    ///
    /// # Errors
    ///
    /// Returns the same errors as a session's `recover`.
    pub fn recover(&mut self, alloc: Global) -> Result<(), Error>
        ensures { IsSessionCall self.old ops.Recover (reply_from (λ _. ops.Done) result) self.new }
    {
        self.session.recover(alloc)
    }

    /// Removes a file or an empty directory. An open file that is removed keeps its bytes for its
    /// handles, and no sync brings the file back.
    ///
    /// # Errors
    ///
    /// Returns the same errors as a session's `remove`, but never `Busy`.
    pub fn remove(&mut self, alloc: Global, path: &[u8]) -> Result<(), Error>
        ensures { IsVolumeCall self.old (calls.Perform (ops.Remove path.now)) (reply_from (λ _. ops.Done) result) self.new }
    {
        self.check_not_failed()?;
        let place = find_node_index(&self.nodes, path);
        load_node_at(
            alloc,
            &mut self.session,
            &mut self.nodes,
            place,
            &mut self.spare,
        )?;
        self.session.remove(alloc, path)?;
        unlink_path(&mut self.nodes, path);
        Ok(())
    }

    /// Renames or moves an entry. Open files at the old path or beneath it move with the entry. An
    /// open file that is replaced at the new path keeps its bytes for its handles.
    ///
    /// # Errors
    ///
    /// Returns the same errors as a session's `rename`, but never `Busy`.
    pub fn rename(&mut self, alloc: Global, from: &[u8], to: &[u8]) -> Result<(), Error>
        ensures { IsVolumeCall self.old (calls.Perform (ops.Rename from.now to.now)) (reply_from (λ _. ops.Done) result) self.new }
    {
        if is_same_path(from, to) {
            return self.session.rename(alloc, from, to);
        }
        self.rename_apart(alloc, from, to)
    }

    // Renames or moves an entry to a different path.
    fn rename_apart(&mut self, alloc: Global, from: &[u8], to: &[u8]) -> Result<(), Error>
        requires { same_name from.now to.now ≡ false }
        ensures { IsVolumeCall self.old (calls.Perform (ops.Rename from.now to.now)) (reply_from (λ _. ops.Done) result) self.new }
    {
        self.check_not_failed()?;
        let place = find_node_index(&self.nodes, to);
        load_node_at(
            alloc,
            &mut self.session,
            &mut self.nodes,
            place,
            &mut self.spare,
        )?;
        let paths = renamed_paths(alloc, &self.nodes, from, to)?;
        self.session.rename(alloc, from, to)?;
        unlink_path(&mut self.nodes, to);
        set_renamed_paths(&mut self.nodes, paths);
        Ok(())
    }

    /// Closes all handles and mounts the device again, even after an error. Changes that aren't
    /// synced are lost.
    ///
    /// # Errors
    ///
    /// Returns the same errors as a session's `remount`.
    pub fn remount(&mut self, alloc: Global) -> Result<(), Error>
        ensures { IsVolumeRemount self.old (reply_from (λ _. ops.Done) result) self.new }
    {
        self.handles.clear();
        self.nodes.clear();
        self.session.remount(alloc)
    }

    /// Returns whether the volume has failed. In a failed volume, each call that can fail, except
    /// [`remount`](Volume::remount), returns `Failed`. Doesn't access the device.
    pub fn has_failed(&self) -> bool
        ensures { result ≡ self.now.session.tree.failed }
    {
        self.session.has_failed()
    }

    /// Returns whether files may be written, which means that the volume hasn't failed and its
    /// image is in the writing profile. If files may be written, no call is refused as `ReadOnly`.
    /// Doesn't access the device.
    pub fn is_writable(&self) -> bool
        ensures { IsTrue result ↔ IsWritableSession self.now.session }
    {
        self.session.is_writable()
    }

    /// Returns why the image is read only, as a session's `read_only_reason` does. Returns None,
    /// without a device call, if and only if the volume may write.
    ///
    /// # Errors
    ///
    /// `Failed` if the volume has failed. `Io` if a read fails. `NoMemory` if memory can't be
    /// allocated. After `Io` or `NoMemory` the volume has failed.
    pub fn read_only_reason(&mut self, alloc: Global) -> Result<Option<ProfileBreach>, Error>
        ensures is { IfOk result (IsReadOnlyReason self.old.session) }
        ensures read { OnOk result (OnlyReadsSession self.old.session self.new.session) }
        ensures failed { IfErr result (FailedByRead self.old.session self.new.session) }
        ensures silent { IsWritableSession self.old.session → self.new ≡ self.old }
        ensures tables { HasSameOpenFiles self.old self.new }
    {
        self.session.read_only_reason(alloc)
    }

    /// Returns the order of names in the image's directories. The result of [`list`](Volume::list)
    /// doesn't depend on the order of names, since `list` always returns a shorter name before the
    /// longer names that begin with it.
    pub fn order(&self) -> NameOrder
        ensures { result ≡ self.now.session.tree.disk.order }
    {
        self.session.order()
    }

    /// Returns the image's superblock: its version, its block size and count, and its limits. Makes
    /// at most one read.
    ///
    /// # Errors
    ///
    /// `Failed` if the volume has failed. `Io` if the read fails. `NoMemory` if memory can't be
    /// allocated. After `Io` or `NoMemory` the volume has failed.
    pub fn superblock(&mut self, alloc: Global) -> Result<Superblock, Error>
        ensures is { IfOk result (λ f. image_superblock_fields self.old.session.tree.pairs ≡ Some (superblock_view f)) }
        ensures read { OnOk result (OnlyReadsSession self.old.session self.new.session) }
        ensures failed { IfErr result (FailedByRead self.old.session self.new.session) }
        ensures few { read_count self.new.session.tree.history ≤ read_count self.old.session.tree.history + 1 }
        ensures tables { HasSameOpenFiles self.old self.new }
    {
        self.session.superblock(alloc)
    }

    /// Returns a reference to the device in the state that the last call left.
    pub fn device(&self) -> &D
        ensures disk { disk_with_order self.now.session.tree.disk.order (disk_of_device D.BlockDevice result.now) ≡ self.now.session.tree.disk }
        ensures history { D.history result.now ≡ self.now.session.tree.history }
    {
        self.session.device()
    }

    /// Ends the volume and returns the device. Writes nothing, so changes that aren't synced are
    /// lost.
    pub fn unmount(self) -> D
        ensures disk { disk_with_order self.session.tree.disk.order (disk_of_device D.BlockDevice result) ≡ self.session.tree.disk }
        ensures history { D.history result ≡ self.session.tree.history }
    {
        self.session.unmount()
    }
}

// Returns a volume over a session in which no file is open.
pub(crate) fn begin<D: BlockDevice>(alloc: Global, session: Session<D>) -> Volume<D>
    requires { session.files ≡ [] }
    ensures { result ≡ record { session = session; nodes = []; handles = [] } }
{
    Volume {
        session,
        nodes: Vec::new(alloc),
        handles: Vec::new(alloc),
        spare: Vec::new(alloc),
    }
}
