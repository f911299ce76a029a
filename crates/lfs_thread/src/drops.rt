// Drops of pairs from the thread.

ghost use Rattle.std.specs.Prelude.{◌+◌};
ghost use Rattle.lfs_pair.specs.ChangeView.{changes_view};
ghost use Rattle.lfs_thread.specs.Parts.{ChangesKeptParts, EndsByOutcome};
ghost use Rattle.lfs_thread.specs.ThreadDevice.{CleanLossLeaves, ReportsWritingNothing};
ghost use Rattle.lfs_thread.specs.Kept.{AreKeptParts, kept_parts};
ghost use Rattle.lfs_thread.specs.CachedLog.{cached_block_log, reads_unless_cached};
ghost use Rattle.lfs_thread.specs.ThreadSteps.{CanDropNext, IsNextDropped, LossLeavesPair, RefusesChanges, thread_pair};
ghost use Rattle.lfs_model.specs.format.Thread.{address_blocks};

use crate::cached_pairs::commit_cached;
use crate::parts::ThreadParts;
use lfs_device::{BlockDevice, Error};
use lfs_pair::{Change, Outcome};
use std::alloc::Global;

// Drops the pair after the one at `index`. Commits changes to the pair at `index` that set its tail
// to the target of the dropped pair's tail, and frees the dropped pair's blocks. After an error,
// the headers, the map and the cache are unspecified.
pub(crate) fn drop_next_pair<D: BlockDevice>(
    alloc: Global,
    parts: &mut ThreadParts<D>,
    index: usize,
    changes: &[Change<'_>],
) -> Result<Outcome, Error>
    requires kept { AreKeptParts D.BlockDevice parts.old }
    requires can { CanDropNext (kept_parts D.BlockDevice parts.old) index (changes_view changes.now) }
    ensures parts { ChangesKeptParts D.BlockDevice (1 + reads_unless_cached (cached_block_log (kept_parts D.BlockDevice parts.old) parts.old.cache index)) (address_blocks (thread_pair (kept_parts D.BlockDevice parts.old) index).at) parts.old parts.new result }
    ensures ends { EndsByOutcome result
        (IsNextDropped (kept_parts D.BlockDevice parts.old) index (changes_view changes.now) (kept_parts D.BlockDevice parts.new))
        (RefusesChanges (kept_parts D.BlockDevice parts.old) index (changes_view changes.now) (kept_parts D.BlockDevice parts.new)) }
    ensures errors { ReportsWritingNothing D.BlockDevice parts.old.device parts.new.device result }
    ensures stops { CleanLossLeaves (D.history parts.old.device) (D.history parts.new.device)
        (LossLeavesPair (kept_parts D.BlockDevice parts.old) index (changes_view changes.now)) }
{
    let pair = &mut parts.pairs[index];
    let outcome = commit_cached(alloc, &mut parts.device, &mut parts.cache, pair, changes)?;
    if let Outcome::Full = outcome {
        return Ok(Outcome::Full);
    }
    let gone = parts.pairs.remove(index + 1);
    parts.map.release(gone.blocks[0]);
    parts.map.release(gone.blocks[1]);
    Ok(Outcome::Done)
}
