// Changes of entries' attributes.

ghost use Rattle.std.specs.Prelude.{◌≡◌, ◌∷◌, [], false, OnOk};
ghost use Rattle.lfs_model.specs.layers.Changes.{PutAttribute};
ghost use Rattle.lfs_model.specs.format.Content.{attributes_with, attributes_without};
ghost use Rattle.lfs_model.specs.crash.PowerLoss.{SurvivesLossSince};
ghost use Rattle.lfs_model.specs.tree.Shown.{disk_tree};
ghost use Rattle.lfs_thread.specs.ThreadSteps.{ChangesThreadBlocks, thread_pair};
ghost use Rattle.lfs_operations.specs.Changing.{ReportsCommitOrSplit, WritesPairAndTwoFree};
ghost use Rattle.lfs_operations.specs.Editing.{CanEditIn, CanSetAttribute, HasRemovedAttribute, HasSetAttribute, tree_setting_attributes};
ghost use Rattle.lfs_operations.specs.Removing.{ReportsCommit};
ghost use Rattle.lfs_model.specs.format.Thread.{address_blocks};

use crate::changes::{commit_or_split, commit_without_split};
use lfs_device::{BlockDevice, Error};
use lfs_pair::Change;
use lfs_thread::Thread;
use std::alloc::Global;

/// Sets an attribute of the entry with id `id` in the pair with index `pair`. Replaces the entry's
/// attribute of the same type, if there is one (SPEC.md of littlefs, "0x3xx LFS_TYPE_USERATTR"). If
/// the attribute doesn't fit, splits the pair, which allocates two free blocks. Requires that the
/// attribute has at most 1,022 bytes, and that the entry with the attribute uses at most half of a
/// pair.
///
/// Errors are those of [`create_file`](crate::create_file).
pub fn set_attribute<D: BlockDevice>(
    alloc: Global,
    thread: &mut Thread<D>,
    pair: usize,
    id: u16,
    kind: u8,
    bytes: &[u8],
) -> Result<(), Error>
    requires works { thread.old.failed ≡ false }
    requires can { CanSetAttribute thread.old.kept pair id kind bytes.now }
    ensures is_set { OnOk result ((set : CanSetAttribute thread.old.kept pair id kind bytes.now) → HasSetAttribute thread.old.kept thread.new.kept set.can.path set.can.name kind bytes.now) }
    ensures errors { ReportsCommitOrSplit thread.old thread.new pair (PutAttribute id kind bytes.now ∷ []) result }
    ensures device { WritesPairAndTwoFree thread.old.kept pair thread.new.kept }
    ensures survives { (set : CanSetAttribute thread.old.kept pair id kind bytes.now) → SurvivesLossSince thread.old.kept.disk thread.old.kept.history thread.new.kept.history
        (disk_tree thread.old.kept.disk thread.old.kept.pairs) (tree_setting_attributes thread.old.kept set.can.path set.can.name (attributes_with kind bytes.now)) }
{
    let changes = [Change::Attr {
        id,
        attr: kind,
        bytes,
    }];
    commit_or_split(alloc, thread, pair, &changes)
}

/// Removes the attribute of type `kind`, if there is one, from the entry with id `id` in the pair
/// with index `pair`.
///
/// Errors are those of [`remove_file`](crate::remove_file).
pub fn remove_attribute<D: BlockDevice>(
    alloc: Global,
    thread: &mut Thread<D>,
    pair: usize,
    id: u16,
    kind: u8,
) -> Result<(), Error>
    requires works { thread.old.failed ≡ false }
    requires can { CanEditIn thread.old.kept pair id }
    ensures is_removed { OnOk result ((can : CanEditIn thread.old.kept pair id) → HasRemovedAttribute thread.old.kept thread.new.kept can.path can.name kind) }
    ensures errors { ReportsCommit thread.old thread.new result }
    ensures device { ChangesThreadBlocks (address_blocks (thread_pair thread.old.kept pair).at) thread.old.kept thread.new.kept }
    ensures survives { (can : CanEditIn thread.old.kept pair id) → SurvivesLossSince thread.old.kept.disk thread.old.kept.history thread.new.kept.history
        (disk_tree thread.old.kept.disk thread.old.kept.pairs) (tree_setting_attributes thread.old.kept can.path can.name (attributes_without kind)) }
{
    // The remaining content fits, so this commit never needs a split.
    commit_without_split(alloc, thread, pair, &[Change::NoAttr { id, attr: kind }])
}
