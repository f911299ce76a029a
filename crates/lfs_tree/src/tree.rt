// A mounted image that is read and changed by path.

ghost use Rattle.std.specs.Prelude.{◌≡◌, ◌<◌, ◌==◌, ◌≤◌, ◌+◌, ◌^◌, ◌++◌, ◌∷◌, List, [], length, map, true, false, None, Some, IfOk, IfErr, IfSome, IsSome, OnErr, OnOk, sum_by};
ghost use Rattle.std.specs.List.{list_any};
ghost use Rattle.std.specs.Option.{option_map};
ghost use Rattle.lfs_model.specs.session.History.{read_count};
ghost use Rattle.lfs_model.specs.crash.Frame.{directory_pair_count, ancestor_paths};
ghost use Rattle.lfs_model.specs.session.TreeEdits.{node_attributes_of};
ghost use Rattle.lfs_model.specs.format.Content.{attribute_bytes};
ghost use Rattle.lfs_model.specs.tree.Profile.{image_superblock_fields};
ghost use Rattle.lfs_model.specs.layers.ProfileBreaches.{IsBreachIfAny};
ghost use Rattle.lfs_model.specs.format.Slots.{zero_gstate};
ghost use Rattle.lfs_model.specs.format.Thread.{Pair, superblock_pair_address, pairs_gstate, address_blocks};
ghost use Rattle.lfs_model.specs.tree.View.{IsAccepted};
ghost use Rattle.lfs_model.specs.format.Disk.{SameGeometry, block_count, disk_with_order};
ghost use Rattle.lfs_model.specs.declared.order.NameOrder.{NameOrder};
ghost use Rattle.lfs_model.specs.declared.order.NameOrder.TheVariants.{LongerFirst, ShorterFirst};
ghost use Rattle.lfs_model.specs.session.Effects.{listed_entries_at};
ghost use Rattle.lfs_mount.specs.MountFaults.{MountMayReport};
ghost use Rattle.lfs_tag.specs.FieldsView.{move_view, superblock_view};
ghost use Rattle.lfs_thread.specs.ThreadDevice.{GivesDeviceBack};
ghost use Rattle.lfs_thread.specs.Kept.{disk_of_device, kept_in_order};
ghost use Rattle.lfs_tree.specs.Permissions.{CanCreateFile, CanMakeDirectory, CanRemoveEntry, CanRemoveAttr, CanSetAttr};
ghost use Rattle.lfs_lookup.specs.CachedPairs.{AreFewOnePairDirectories};
ghost use Rattle.lfs_tree.specs.CreationPaths.{IsCreationResult};
ghost use Rattle.lfs_tree.specs.TreeCalls as call;
ghost use Rattle.lfs_tree.specs.TreeCalls.{AppliesCallOrFails};
ghost use Rattle.lfs_tree.specs.TreeReads.{HasCachedDirectories, ReadsSixAtMost, ReadsPairsOnce};
ghost use Rattle.lfs_tree.specs.Recoveries.{HasRecovered};
ghost use Rattle.lfs_lookup.specs.AttributeAt.{IsAttributesSize};
ghost use Rattle.lfs_lookup.specs.Finds.{IsFoundNode, has_entry_beneath, listed_item_view};
ghost use Rattle.lfs_tree.specs.Formats.{IsFormatError, IsFreshlyFormatted, WritesOnlyFirstTwoBlocks};
ghost use Rattle.lfs_tree.specs.TreeState.{ReadsTreeOrFails, FailedByReading, HasMountCause, IsMountedTree, IsRemountedTree, IsSoundState, tree_summary, kept_thread, visible_tree};

use crate::answers::fail_on_error;
use crate::attributes_at::{remove_attr_at, set_attr_at};
use crate::entries_at::{create_empty_file, make_directory_at};
use crate::formats::format;
use crate::lost_recovery::recover_thread;
use crate::remounts::{SpareThreadParts, mount_again};
use crate::removals_at::remove_at;
use core::mem::replace_with;
use lfs_device::{BlockDevice, Error, Geometry};
use lfs_lookup::{
    FoundAttribute, FoundNode, Listing, NodeAndEmptiness, Path, PathLookup, attributes_size_at,
    find_attribute, find_node, find_profile_breach, list_directory, path_has_entries,
};
use lfs_model::{NameOrder, ProfileBreach};
use lfs_mount::mount_image;
use lfs_tag::{MoveState, Superblock};
use lfs_thread::Thread;
use std::alloc::Global;
use std::marker::Model;

/// A mounted littlefs image on a device. The device's profile accepts the image's on-disk version.
///
/// If the profile's `pair_cycles` isn't 0, each change may relocate one worn metadata pair: a pair
/// whose revision count is a multiple of `pair_cycles`.
///
/// After an error the tree has failed, and the caller must call [`remount`](Tree::remount) before
/// using it again.
#[derive(Drop)]
pub struct Tree<D: BlockDevice> {
    // The threaded list of all metadata pairs. It is marked as failed when a call of the tree
    // fails.
    pub(crate) thread: Thread<D>,
    // The index of the root directory's first pair.
    pub(crate) root: usize,
    pub(crate) is_writable: bool,
}

impl<D: BlockDevice> Model for Tree<D> {
    ghost use Rattle.lfs_tree.specs.RootedThreads.{IsSoundUnlessFailed, thread_state};
    ghost use Rattle.lfs_tree.specs.TreeState.{TreeState};

    ghost Value = { TreeState };

    ghost view = { λ t. thread_state t.thread t.is_writable };

    ghost invariant = { λ t. IsSoundUnlessFailed t.thread t.root t.is_writable };
}

impl<D: BlockDevice> Tree<D> {
    /// Mounts the image on a device, and infers the order of names in its directories. If both
    /// orders fit the names, the order is `LongerFirst`. Only reads the device.
    ///
    /// Errors: `Corrupt` if the device has no accepted image in either order of names. `Io` if a
    /// read fails, or `NoMemory` if memory can't be allocated. An error also returns the device.
    pub fn mount(alloc: Global, device: D) -> Result<Tree<D>, (D, Error)>
        ensures mounted { IfOk result (λ t. IsMountedTree (disk_with_order t.disk.order (disk_of_device D.BlockDevice device)) (D.history device) t) }
        ensures longer { IfOk result (λ t. t.disk.order ≡ ShorterFirst → (ps : List Pair) → ¬ IsAccepted (disk_with_order LongerFirst (disk_of_device D.BlockDevice device)) ps) }
        ensures corrupt { IfErr result (λ e. e.1 ≡ Error.Corrupt → (order : NameOrder) (ps : List Pair) → ¬ IsAccepted (disk_with_order order (disk_of_device D.BlockDevice device)) ps) }
        ensures errors { IfErr result (λ e. MountMayReport e.1) }
        ensures back { IfErr result (λ e. GivesDeviceBack D.BlockDevice device e.0 e.1) }
    {
        let mut image = mount_image(alloc, device)?;
        let root = image.findings.root;
        match find_profile_breach(alloc, &mut image.thread, root) {
            Ok(breach) => Ok(Tree {
                thread: image.thread,
                root,
                is_writable: breach.is_none(),
            }),
            Err(error) => Err((image.thread.into_device(), error)),
        }
    }

    /// Formats a device as [`format`](crate::format) does, and returns a tree over the empty file
    /// system.
    ///
    /// Returns the same errors as [`format`](crate::format).
    pub fn format(alloc: Global, device: D, order: NameOrder) -> Result<Tree<D>, (D, Error)>
        ensures works { IfOk result (λ t. (t.failed ≡ false) × (t.writable ≡ true)) }
        ensures sound { IfOk result IsSoundState }
        ensures formatted { IfOk result (λ t. IsFreshlyFormatted (kept_thread t)) }
        ensures geometry { IfOk result (λ t. SameGeometry (disk_with_order order (disk_of_device D.BlockDevice device)) t.disk) }
        ensures calls { IfOk result (λ t. WritesOnlyFirstTwoBlocks (kept_in_order D.BlockDevice order device [] []) (kept_thread t)) }
        ensures back { IfErr result (λ e. IsFormatError D.BlockDevice (address_blocks superblock_pair_address) device e.0 e.1) }
    {
        match format(alloc, device, order) {
            Ok(thread) => Ok(Tree {
                thread,
                root: 0,
                is_writable: true,
            }),
            Err(back) => Err(back),
        }
    }

    /// Mounts the device again, even after an error, and infers the order of names again.
    /// Afterwards no block is in flight, that is, allocated but not yet committed. The search for
    /// free blocks continues after the last allocated block, so an operation that failed with `Io`
    /// can be retried on another block.
    ///
    /// Returns the same errors as [`mount`](Tree::mount). After an error the tree has failed.
    pub fn remount(&mut self, alloc: Global) -> Result<(), Error>
        ensures mounted { OnOk result (IsRemountedTree self.old self.new) }
        ensures broken { OnErr result (FailedByReading self.old self.new) }
        ensures errors { IfErr result (HasMountCause self.old self.new) }
    {
        match SpareThreadParts::new(alloc, self.thread.next_start()) {
            Ok(spare) => {
                replace_with(self, spare, mount_again)?;
                Ok(())
            }
            Err(error) => {
                self.thread.fail();
                Err(error)
            }
        }
    }

    /// Returns a reference to the device in the state that the last call left, even if that call
    /// failed.
    pub fn device(&self) -> &D
        ensures disk { disk_with_order self.now.disk.order (disk_of_device D.BlockDevice result.now) ≡ self.now.disk }
        ensures history { D.history result.now ≡ self.now.history }
    {
        self.thread.device()
    }

    /// Returns the device in the state that the last call left, even if that call failed.
    pub fn into_device(self) -> D
        ensures disk { disk_with_order self.disk.order (disk_of_device D.BlockDevice result) ≡ self.disk }
        ensures history { D.history result ≡ self.history }
    {
        self.thread.into_device()
    }

    /// Returns the order of names in the image's directories.
    pub fn order(&self) -> NameOrder
        ensures { result ≡ self.now.disk.order }
    {
        self.thread.order()
    }

    /// Returns whether the tree has failed.
    pub fn has_failed(&self) -> bool
        ensures { result ≡ self.now.failed }
    {
        self.thread.has_failed()
    }

    /// Returns whether the image is in the writing profile, which means that it may be written.
    pub fn is_writable(&self) -> bool
        ensures { result ≡ self.now.writable }
    {
        self.is_writable
    }

    /// Returns the geometry of the device.
    pub fn geometry(&self) -> Geometry
        ensures block_size { result.block_size ≡ self.now.disk.block_size }
        ensures page { result.page ≡ self.now.disk.page }
        ensures profile { result.profile ≡ self.now.disk.profile }
        ensures block_count { result.block_count ≡ block_count self.now.disk }
    {
        self.device().geometry()
    }

    /// Marks the tree as failed. A session calls this if it can't allocate memory of its own.
    pub fn fail(&mut self)
        ensures { self.new ≡ record self.old { failed = true } }
    {
        self.thread.fail();
    }

    /// Returns the number of blocks that the image uses.
    pub fn used_count(&self) -> u32
        requires { self.now.failed ≡ false }
        ensures { result ≡ length (tree_summary self.now).used }
    {
        self.thread.used_count()
    }

    /// Returns whether the image uses the block `block`, which must be below the number of blocks.
    pub fn is_used(&self, block: u32) -> bool
        requires works { self.now.failed ≡ false }
        requires below { block < block_count self.now.disk }
        ensures { result ≡ list_any (λ b. b == block) (tree_summary self.now).used }
    {
        self.thread.is_used(block)
    }

    /// Returns the global state (see "The move problem" in littlefs's DESIGN.md).
    pub fn gstate(&self) -> MoveState
        requires { self.now.failed ≡ false }
        ensures { move_view result ≡ (tree_summary self.now).gstate }
    {
        self.thread.state()
    }

    /// Returns the image's superblock. Makes at most one read.
    ///
    /// Errors: `Io` if the read fails, or `NoMemory` if memory can't be allocated. After an error
    /// the tree has failed.
    pub fn superblock(&mut self, alloc: Global) -> Result<Superblock, Error>
        requires { self.old.failed ≡ false }
        ensures asks { ReadsTreeOrFails self.old result self.new }
        ensures is { IfOk result (λ f. image_superblock_fields self.old.pairs ≡ Some (superblock_view f)) }
        ensures few { read_count self.new.history ≤ read_count self.old.history + 1 }
    {
        let superblock = lfs_lookup::superblock(alloc, &mut self.thread, self.root);
        fail_on_error(&mut self.thread, &superblock);
        superblock
    }

    /// Returns a rule of the writing profile that the image breaks, and where the image breaks it.
    /// Returns None if and only if the image may be written. Only reads the device.
    ///
    /// Errors: `Io` if a read fails, or `NoMemory` if memory can't be allocated. After an error the
    /// tree has failed.
    pub fn profile_breach(&mut self, alloc: Global) -> Result<Option<ProfileBreach>, Error>
        requires { self.old.failed ≡ false }
        ensures asks { ReadsTreeOrFails self.old result self.new }
        ensures is { IfOk result (IsBreachIfAny self.old.disk self.old.pairs) }
    {
        let breach = find_profile_breach(alloc, &mut self.thread, self.root);
        fail_on_error(&mut self.thread, &breach);
        breach
    }

    /// Looks up a path. Reads each metadata pair of the path's parent directories at most once, and
    /// none if all of these pairs are cached. If there are at most eight parent directories and
    /// each has one pair, a look-up that isn't refused leaves their pairs cached.
    ///
    /// Errors: `Io` if a read fails, or `NoMemory` if memory can't be allocated. After an error the
    /// tree has failed.
    pub fn look_up(&mut self, alloc: Global, path: &Path<'_>) -> Result<FoundNode, Error>
        requires { self.old.failed ≡ false }
        ensures asks { ReadsTreeOrFails self.old result self.new }
        ensures found { IfOk result (IsFoundNode (visible_tree self.old) path.now) }
        ensures few { ReadsPairsOnce (ancestor_paths path.now) self.old self.new.history }
        ensures hand { AreFewOnePairDirectories self.old.pairs (ancestor_paths path.now) → IfOk result (λ found. found.fault ≡ None → HasCachedDirectories self.new (ancestor_paths path.now)) }
    {
        let found = find_node(alloc, &mut self.thread, self.root, path);
        fail_on_error(&mut self.thread, &found);
        found
    }

    /// Looks up a path, and returns its entry, and whether the entry is a directory that isn't
    /// empty. Makes at most one read for each metadata pair of the directory at the path and of its
    /// parent directories.
    ///
    /// Errors: `Io` if a read fails, or `NoMemory` if memory can't be allocated. After an error the
    /// tree has failed.
    pub fn look_up_node(
        &mut self,
        alloc: Global,
        path: &Path<'_>,
    ) -> Result<NodeAndEmptiness, Error>
        requires { self.old.failed ≡ false }
        ensures asks { ReadsTreeOrFails self.old result self.new }
        ensures found { IfOk result (λ inside. IsFoundNode (visible_tree self.old) path.now inside.finding) }
        ensures has { IfOk result (λ inside. inside.has_entries ≡ has_entry_beneath (visible_tree self.old) path.now) }
        ensures few { read_count self.new.history ≤ read_count self.old.history + sum_by (directory_pair_count self.old.pairs) (ancestor_paths path.now ++ path.now ∷ []) }
    {
        let inside = path_has_entries(alloc, &mut self.thread, self.root, path);
        fail_on_error(&mut self.thread, &inside);
        inside
    }

    /// Looks up a path, and returns an attribute of its entry. An attribute has at most 1,022
    /// bytes. Reads each metadata pair of the path's parent directories at most once, and none if
    /// all of these pairs are cached.
    ///
    /// Errors: `Io` if a read fails, or `NoMemory` if memory can't be allocated. After an error the
    /// tree has failed.
    pub fn get_attr(
        &mut self,
        alloc: Global,
        path: &Path<'_>,
        kind: u8,
    ) -> Result<FoundAttribute, Error>
        requires { self.old.failed ≡ false }
        ensures asks { ReadsTreeOrFails self.old result self.new }
        ensures found { IfOk result (λ found. IsFoundNode (visible_tree self.old) path.now found.finding) }
        ensures bytes { IfOk result (λ found. (option_map (λ v. v.items) found.bytes ≡ attribute_bytes kind (node_attributes_of (visible_tree self.old path.now))) × IfSome found.bytes (λ v. length v.items ≤ 1022)) }
        ensures few { ReadsPairsOnce (ancestor_paths path.now) self.old self.new.history }
    {
        let found = find_attribute(alloc, &mut self.thread, self.root, path, kind);
        fail_on_error(&mut self.thread, &found);
        found
    }

    /// Returns how many bytes the attributes of the entry at a path use in its metadata pair. The
    /// size of each attribute includes its 4-byte tag. Returns 0 if the path has no entry. Makes at
    /// most one read for each metadata pair of the path's parent directories, and none if all of
    /// these pairs are cached.
    ///
    /// Errors: `Io` if a read fails, or `NoMemory` if memory can't be allocated. After an error the
    /// tree has failed.
    pub fn attributes_size(&mut self, alloc: Global, path: &Path<'_>) -> Result<usize, Error>
        requires { self.old.failed ≡ false }
        ensures asks { ReadsTreeOrFails self.old result self.new }
        ensures size { IfOk result (IsAttributesSize (node_attributes_of (visible_tree self.old path.now))) }
        ensures few { ReadsPairsOnce (ancestor_paths path.now) self.old self.new.history }
    {
        let size = attributes_size_at(alloc, &mut self.thread, self.root, path);
        fail_on_error(&mut self.thread, &size);
        size
    }

    /// Looks up a path. If the path leads to a directory, returns the directory's entries too.
    /// Reads each metadata pair of the directory and of its parent directories at most once, and
    /// none if all of these pairs are cached.
    ///
    /// Errors: `Io` if a read fails, or `NoMemory` if memory can't be allocated. After an error the
    /// tree has failed.
    pub fn list(&mut self, alloc: Global, path: &Path<'_>) -> Result<Listing, Error>
        requires { self.old.failed ≡ false }
        ensures asks { ReadsTreeOrFails self.old result self.new }
        ensures found { IfOk result (λ listing. IsFoundNode (visible_tree self.old) path.now listing.finding) }
        ensures items { IfOk result (λ listing. map listed_item_view listing.items.items ≡ listed_entries_at (visible_tree self.old) path.now) }
        ensures few { ReadsPairsOnce (ancestor_paths path.now ++ path.now ∷ []) self.old self.new.history }
    {
        let listing = list_directory(alloc, &mut self.thread, self.root, path);
        fail_on_error(&mut self.thread, &listing);
        listing
    }

    /// Makes an empty directory at a path that has no entry.
    ///
    /// Recovers first, as [`recover`](Tree::recover) does.
    ///
    /// Errors: `Io` if a device call fails, or `NoMemory` if memory can't be allocated. After an
    /// error the tree has failed.
    pub fn mkdir(&mut self, alloc: Global, path: &Path<'_>) -> Result<(), Error>
        requires { CanMakeDirectory self.old path.now }
        ensures { AppliesCallOrFails self.old (call.Mkdir path.now) result self.new }
    {
        let plan = self.plan_and_recover(alloc, 4)?;
        let made = make_directory_at(alloc, &mut self.thread, self.root, path);
        fail_on_error(&mut self.thread, &made);
        self.relocate(alloc, plan, made)
    }

    /// Creates an empty file at a path that has no entry. Makes at most six reads if nothing is
    /// left to recover and the profile's `pair_cycles` is 0.
    ///
    /// `known` is the result of calling [`look_up_creation`](Tree::look_up_creation) immediately
    /// before this call. If something is left to recover, `known` is None, and this call recovers
    /// first and looks up the path again.
    ///
    /// Errors: `Io` if a device call fails, or `NoMemory` if memory can't be allocated. After an
    /// error the tree has failed.
    pub fn create(
        &mut self,
        alloc: Global,
        path: &Path<'_>,
        known: Option<PathLookup>,
    ) -> Result<(), Error>
        requires can { CanCreateFile self.old path.now }
        requires known { IfSome known (IsCreationResult (kept_thread self.old) path.now) }
        requires looked_up { pairs_gstate self.old.pairs ≡ zero_gstate → IsSome known }
        ensures does { AppliesCallOrFails self.old (call.Create path.now) result self.new }
        ensures few { self.old.disk.profile.pair_cycles ≡ 0 → ReadsSixAtMost self.old self.new.history }
    {
        let plan = self.plan_and_recover(alloc, 2)?;
        let created = create_empty_file(alloc, &mut self.thread, self.root, path, known);
        fail_on_error(&mut self.thread, &created);
        self.relocate(alloc, plan, created)
    }

    /// Removes a file or an empty directory.
    ///
    /// Recovers first, as [`recover`](Tree::recover) does.
    ///
    /// Errors: `Io` if a device call fails, or `NoMemory` if memory can't be allocated. After an
    /// error the tree has failed.
    pub fn remove(&mut self, alloc: Global, path: &Path<'_>) -> Result<(), Error>
        requires { CanRemoveEntry self.old path.now }
        ensures { AppliesCallOrFails self.old (call.Remove path.now) result self.new }
    {
        let plan = self.plan_and_recover(alloc, 0)?;
        let removed = remove_at(alloc, &mut self.thread, self.root, path);
        fail_on_error(&mut self.thread, &removed);
        self.relocate(alloc, plan, removed)
    }

    /// Sets an attribute of an entry, and replaces an attribute that has the same type.
    ///
    /// Recovers first, as [`recover`](Tree::recover) does.
    ///
    /// Errors: `Io` if a device call fails, or `NoMemory` if memory can't be allocated. After an
    /// error the tree has failed.
    pub fn set_attr(
        &mut self,
        alloc: Global,
        path: &Path<'_>,
        kind: u8,
        bytes: &[u8],
    ) -> Result<(), Error>
        requires { CanSetAttr self.old path.now kind bytes.now }
        ensures { AppliesCallOrFails self.old (call.SetAttr path.now kind bytes.now) result self.new }
    {
        let plan = self.plan_and_recover(alloc, 2)?;
        let set = set_attr_at(alloc, &mut self.thread, self.root, path, kind, bytes);
        fail_on_error(&mut self.thread, &set);
        self.relocate(alloc, plan, set)
    }

    /// Completes a move that a power loss left half done, and drops orphans: directories that no
    /// path leads to (see "The move problem" in littlefs's DESIGN.md). Drops the entries in
    /// orphans, and frees the blocks of their files. Makes no device call if nothing is left to
    /// recover.
    ///
    /// Errors: `Io` if a device call fails, or `NoMemory` if memory can't be allocated. After an
    /// error the tree has failed.
    pub fn recover(&mut self, alloc: Global) -> Result<(), Error>
        requires works { self.old.failed ≡ false }
        requires writable { self.old.writable ≡ true }
        ensures does { AppliesCallOrFails self.old call.Recover result self.new }
        ensures settled { OnOk result (HasRecovered (kept_thread self.old) (kept_thread self.new)) }
        ensures idle { pairs_gstate self.old.pairs ≡ zero_gstate → self.new ≡ self.old }
    {
        if self.gstate().is_none() {
            return Ok(());
        }
        let recovered = recover_thread(alloc, &mut self.thread, self.root);
        fail_on_error(&mut self.thread, &recovered);
        recovered
    }

    /// Removes an attribute of an entry.
    ///
    /// Recovers first, as [`recover`](Tree::recover) does.
    ///
    /// Errors: `Io` if a device call fails, or `NoMemory` if memory can't be allocated. After an
    /// error the tree has failed.
    pub fn remove_attr(&mut self, alloc: Global, path: &Path<'_>, kind: u8) -> Result<(), Error>
        requires { CanRemoveAttr self.old path.now kind }
        ensures { AppliesCallOrFails self.old (call.RemoveAttr path.now kind) result self.new }
    {
        let plan = self.plan_and_recover(alloc, 0)?;
        let removed = remove_attr_at(alloc, &mut self.thread, self.root, path, kind);
        fail_on_error(&mut self.thread, &removed);
        self.relocate(alloc, plan, removed)
    }
}
