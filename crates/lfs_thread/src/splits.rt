// Splits of pairs of the thread.

ghost use Rattle.std.specs.Prelude.{◌+◌, OnOk};
ghost use Rattle.lfs_model.specs.format.Slots.{address_of_array};
ghost use Rattle.lfs_pair.specs.ChangeView.{changes_view};
ghost use Rattle.lfs_thread.specs.Parts.{ChangesKeptParts};
ghost use Rattle.lfs_thread.specs.ThreadDevice.{CleanLossLeaves, ReportsWritingNothing};
ghost use Rattle.lfs_thread.specs.Kept.{AreKeptParts, kept_parts};
ghost use Rattle.lfs_thread.specs.CachedLog.{cached_block_log, reads_unless_cached};
ghost use Rattle.lfs_thread.specs.ThreadSteps.{CanSplitAt, LossLeavesThreadSplit, HasSplit, thread_pair};
ghost use Rattle.lfs_model.specs.format.Thread.{addresses_blocks};

use crate::cached_pairs::{forget_cached_pair, split_cached};
use crate::parts::ThreadParts;
use lfs_device::{BlockDevice, Error};
use lfs_pair::Change;
use std::alloc::Global;

// Splits the pair at `index`. The new pair follows it in the thread, in two blocks that must be in
// flight and are used afterwards. After an error, the headers, the map and the cache are
// unspecified.
pub(crate) fn split_pair<D: BlockDevice>(
    alloc: Global,
    parts: &mut ThreadParts<D>,
    index: usize,
    fresh: [u32; 2],
    changes: &[Change<'_>],
) -> Result<(), Error>
    requires kept { AreKeptParts D.BlockDevice parts.old }
    requires can { CanSplitAt (kept_parts D.BlockDevice parts.old) index (address_of_array fresh) (changes_view changes.now) }
    ensures parts { ChangesKeptParts D.BlockDevice (3 + reads_unless_cached (cached_block_log (kept_parts D.BlockDevice parts.old) parts.old.cache index)) (addresses_blocks (thread_pair (kept_parts D.BlockDevice parts.old) index).at (address_of_array fresh)) parts.old parts.new result }
    ensures is_split { OnOk result (HasSplit (kept_parts D.BlockDevice parts.old) index (address_of_array fresh) (changes_view changes.now)
        (kept_parts D.BlockDevice parts.new)) }
    ensures errors { ReportsWritingNothing D.BlockDevice parts.old.device parts.new.device result }
    ensures stops { CleanLossLeaves (D.history parts.old.device) (D.history parts.new.device)
        (LossLeavesThreadSplit (kept_parts D.BlockDevice parts.old) index (address_of_array fresh) (changes_view changes.now)) }
{
    let mut pair = parts.pairs[index];
    // Allocates memory for the new pair's header before anything is written.
    parts.pairs.insert(index + 1, pair)?;
    forget_cached_pair(&mut parts.cache, fresh);
    let fresh_pair = split_cached(
        alloc,
        &mut parts.device,
        &mut parts.cache,
        &mut pair,
        fresh,
        changes,
    )?;
    parts.pairs[index] = pair;
    parts.pairs[index + 1] = fresh_pair;
    parts.map.settle(fresh[0]);
    parts.map.settle(fresh[1]);
    Ok(())
}
