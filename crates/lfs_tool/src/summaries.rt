// The summary of an accepted image.

ghost use Rattle.std.specs.Prelude.{◌≡◌, ◌↔◌, ◌≤◌, IfOk, IsTrue, OnOk, count_by, false, length};
ghost use Rattle.lfs_model.specs.layers.BlockSets.{AreUsed};
ghost use Rattle.lfs_model.specs.format.Disk.{default_profile};
ghost use Rattle.lfs_model.specs.layers.ProfileBreaches.{IsBreachIfAny};
ghost use Rattle.lfs_model.specs.tree.Shown.{used_blocks};
ghost use Rattle.lfs_model.specs.format.Thread.{count_before_root};
ghost use Rattle.lfs_model.specs.tree.View.{IsAccepted};
ghost use Rattle.lfs_tag.specs.FieldsView.{move_view};
ghost use Rattle.lfs_thread.specs.ThreadSteps.{OnlyReadsThread};
ghost use Rattle.lfs_lookup.specs.Items.{owned_view};
ghost use Rattle.lfs_tool.specs.ImageSummaries.{HasSummary, IsReportedSuperblock, lowered_inline_max, is_file_item, is_file_struct, gstate_needs_recovery};

use crate::verdict::ImageSummary;
use lfs_device::{BlockDevice, Error, Geometry, Profile};
use lfs_lookup::{OwnedStruct, TreeItem, find_profile_breach, superblock, walk_tree};
use lfs_tag::{MoveState, Superblock};
use lfs_thread::Thread;
use std::alloc::Global;

fn is_file(structure: &OwnedStruct) -> bool
    ensures { result ≡ is_file_struct (owned_view structure.now) }
{
    match structure {
        OwnedStruct::Inline(_) => true,
        OwnedStruct::Ctz { .. } => true,
        OwnedStruct::Branch(_) => false,
    }
}

fn count_files(items: &[TreeItem]) -> usize
    ensures count { result ≡ count_by is_file_item items.now }
    ensures below { result ≤ length items.now }
{
    let mut count = 0;
    for item in items {
        if is_file(&item.structure) {
            count += 1;
        }
    }
    count
}

fn has_unfinished_operation(state: &MoveState) -> bool
    ensures { result ≡ gstate_needs_recovery (move_view state.now) }
{
    state.sync || state.kind != 0
}

// Returns the profile's limit for inline files in bytes, or None unless it is less than what the
// block size allows.
fn lowered_inline_max(geometry: &Geometry) -> Option<u32>
    ensures { result ≡ lowered_inline_max geometry.now.profile geometry.now.block_size }
{
    let most = (geometry.block_size / 8).min(1022);
    let inline_max = geometry.profile.inline_max;
    (inline_max < most).then_some(inline_max)
}

fn is_default_profile(profile: &Profile) -> bool
    ensures { IsTrue result ↔ (profile.now ≡ default_profile) }
{
    *profile == Profile::new()
}

// Returns the superblock of the image, or None if the profile is the default one.
fn superblock_to_report<D: BlockDevice>(
    alloc: Global,
    thread: &mut Thread<D>,
    root: usize,
) -> Result<Option<Superblock>, Error>
    requires works { thread.old.failed ≡ false }
    requires accepted { IsAccepted thread.old.kept.disk thread.old.kept.pairs }
    requires root { root ≡ count_before_root thread.old.kept.pairs }
    ensures told { IfOk result (IsReportedSuperblock thread.old.kept.disk.profile thread.old.kept.pairs) }
    ensures only { (OnlyReadsThread thread.old.kept thread.new.kept) × (thread.new.failed ≡ false) }
{
    let geometry = thread.geometry();
    if is_default_profile(&geometry.profile) {
        return Ok(None);
    }
    let superblock = superblock(alloc, thread, root)?;
    Ok(Some(superblock))
}

pub(crate) fn summary_of_thread<D: BlockDevice>(
    alloc: Global,
    thread: &mut Thread<D>,
    root: usize,
) -> Result<ImageSummary, Error>
    requires works { thread.old.failed ≡ false }
    requires accepted { IsAccepted thread.old.kept.disk thread.old.kept.pairs }
    requires used { AreUsed thread.old.kept.map (used_blocks thread.old.kept.disk thread.old.kept.pairs) }
    requires root { root ≡ count_before_root thread.old.kept.pairs }
    ensures summary { IfOk result (HasSummary thread.old.kept.disk thread.old.kept.pairs) }
    ensures only { OnOk result (OnlyReadsThread thread.old.kept thread.new.kept) }
{
    let items = walk_tree(alloc, thread)?;
    let superblock = superblock_to_report(alloc, thread, root)?;
    let breach = find_profile_breach(alloc, thread, root)?;
    let files = count_files(&items);
    let state = thread.state();
    let geometry = thread.geometry();
    Ok(ImageSummary {
        files,
        directories: items.len() - files,
        used: thread.used_count(),
        blocks: geometry.block_count,
        recover: has_unfinished_operation(&state),
        superblock,
        inline_max: lowered_inline_max(&geometry),
        breach,
    })
}
