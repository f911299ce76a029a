// Commits and splits of pairs whose active blocks are cached.

ghost use Rattle.std.specs.Prelude.{◌≡◌, ◌+◌, IfErr, IfOk, OnOk};
ghost use Rattle.lfs_device.specs.DeviceCalls.{ReportsFaults};
ghost use Rattle.lfs_device.specs.DeviceDisk.{disk_of_blocks};
ghost use Rattle.lfs_model.specs.layers.Cache.{cached_bytes, cache_without};
ghost use Rattle.lfs_model.specs.format.Slots.{address_of_array};
ghost use Rattle.lfs_model.specs.format.Thread.{address_blocks, addresses_blocks};
ghost use Rattle.lfs_pair.specs.ChangeView.{changes_view};
ghost use Rattle.lfs_pair.specs.Commits.{CommitFails, LossLeavesChanged};
ghost use Rattle.lfs_pair.specs.Pair.{header_address};
ghost use Rattle.lfs_pair.specs.Split.{LossLeavesSplit};
ghost use Rattle.lfs_pair.specs.Writing.{ChangesReadingFew};
ghost use Rattle.lfs_thread.specs.CachedLog.{reads_unless_cached};
ghost use Rattle.lfs_thread.specs.CachedSteps.{CanCommitCached, CanSplitCached, CommitsCached, SplitsCached};
ghost use Rattle.lfs_thread.specs.ThreadDevice.{CleanLossLeaves};

use lfs_blocks::Cache;
use lfs_device::{BlockDevice, Error};
use lfs_pair::{Change, Outcome, Pair, commit, split};
use std::alloc::Global;

// Removes both blocks of a pair from the cache.
pub(crate) fn forget_cached_pair(cache: &mut Cache, blocks: [u32; 2])
    ensures { cache.new ≡ cache_without (cache_without cache.old (address_of_array blocks).0) (address_of_array blocks).1 }
{
    cache.forget(blocks[0]);
    cache.forget(blocks[1]);
}

// Commits changes to a pair. First reads the pair's active block into the cache if the block isn't
// cached yet. At Ok, each cached block still has the same bytes as on the device.
//
// Errors are those of a commit. After an error, the cache may differ from the device.
pub(crate) fn commit_cached<D: BlockDevice>(
    alloc: Global,
    dev: &mut D,
    cache: &mut Cache,
    pair: &mut Pair,
    changes: &[Change<'_>],
) -> Result<Outcome, Error>
    requires { CanCommitCached D.BlockDevice dev.old cache.old pair.old (changes_view changes.now) }

    ensures ends { CommitsCached D.BlockDevice (changes_view changes.now) dev.old dev.new pair.old pair.new cache.new result }
    ensures error { IfErr result (λ e. CommitFails D.BlockDevice dev.old dev.new pair.old pair.new e) }
    ensures device { ChangesReadingFew D.BlockDevice (1 + reads_unless_cached (cached_bytes cache.old pair.old.active)) (address_blocks (header_address pair.old)) dev.old dev.new }
    ensures faults { ReportsFaults D.BlockDevice dev.old dev.new result }
    ensures stops { CleanLossLeaves (D.history dev.old) (D.history dev.new) (LossLeavesChanged (disk_of_blocks (D.geometry dev.old) (D.blocks dev.old)) (header_address pair.old) (changes_view changes.now)) }
{
    cache.forget(pair.inactive_block());
    cache.fill(dev, pair.active)?;
    match cache.lend_mut(pair.active) {
        Some(block) => commit(alloc, dev, pair, block, changes),
        None => unreachable!(),
    }
}

// Commits changes to a pair and splits it. First reads the pair's active block into the cache if
// the block isn't cached yet. Requires that the new pair's blocks aren't cached.
//
// Errors are those of a split. After an error, the cache may differ from the device.
pub(crate) fn split_cached<D: BlockDevice>(
    alloc: Global,
    dev: &mut D,
    cache: &mut Cache,
    pair: &mut Pair,
    fresh: [u32; 2],
    changes: &[Change<'_>],
) -> Result<Pair, Error>
    requires { CanSplitCached D.BlockDevice dev.old cache.old pair.old (address_of_array fresh) (changes_view changes.now) }

    ensures splits { IfOk result (SplitsCached D.BlockDevice (changes_view changes.now) dev.old dev.new pair.old pair.new cache.new (address_of_array fresh)) }
    ensures error { IfErr result (λ e. CommitFails D.BlockDevice dev.old dev.new pair.old pair.new e) }
    ensures device { ChangesReadingFew D.BlockDevice (3 + reads_unless_cached (cached_bytes cache.old pair.old.active)) (addresses_blocks (header_address pair.old) (address_of_array fresh)) dev.old dev.new }
    ensures faults { ReportsFaults D.BlockDevice dev.old dev.new result }
    ensures stops { CleanLossLeaves (D.history dev.old) (D.history dev.new) (LossLeavesSplit (disk_of_blocks (D.geometry dev.old) (D.blocks dev.old)) (header_address pair.old) (address_of_array fresh) (changes_view changes.now)) }
{
    cache.forget(pair.inactive_block());
    cache.fill(dev, pair.active)?;
    match cache.lend(pair.active) {
        Some(block) => split(alloc, dev, pair, fresh, block, changes),
        None => unreachable!(),
    }
}
