// Starts drafts over stored lists.

ghost use Rattle.std.specs.Prelude.{◌≡◌, ◌≤◌, IfOk};
ghost use Rattle.lfs_device.specs.DeviceCalls.{ReadsOnly, ReportsIoOrNoMemory};
ghost use Rattle.lfs_model.specs.layers.BlockSets.{BlockStates};
ghost use Rattle.lfs_file.specs.Bases.{IsListOrEmpty};
ghost use Rattle.lfs_file.specs.Hand.{IsFinishedList, stored_list_bytes};
ghost use Rattle.lfs_file.specs.HandWrites.{IsUnfinishedTo};

use crate::Extender;
use crate::stored_list::StoredList;
use crate::writes::PendingList;
use lfs_device::{BlockDevice, Error};
use std::alloc::Global;

/// Starts a draft over a stored list. The draft's new list has the first `keep` bytes of the stored
/// list. The bytes of the contents don't change.
///
/// Requires that the stored list has at least `keep` bytes.
///
/// Errors: `NoMemory` if memory for a block can't be allocated. `Io` if a device call fails.
pub(crate) fn start_draft<D: BlockDevice>(
    alloc: Global,
    dev: &mut D,
    base: StoredList,
    keep: u32,
) -> Result<PendingList, Error>
    requires base { IsListOrEmpty (D.blocks dev.old) (D.geometry dev.old).block_size base.head base.size }
    requires within { keep ≤ base.size }
    ensures begun { IfOk result (λ h. (map : BlockStates) → IsFinishedList map (D.blocks dev.old) (D.geometry dev.old).block_size base
        → IsUnfinishedTo map (D.blocks dev.old) (D.geometry dev.old) h keep (stored_list_bytes (D.blocks dev.old) (D.geometry dev.old).block_size base)) }
    ensures base { IfOk result (λ h. h.base ≡ base) }
    ensures device { ReadsOnly D.BlockDevice dev.old dev.new }
    ensures reports { ReportsIoOrNoMemory D.BlockDevice dev.old dev.new result }
{
    if keep == 0 {
        let list = Extender::start_empty(alloc, dev.geometry())?;
        return Ok(PendingList {
            list,
            base,
            shared: 0,
        });
    }
    let list = Extender::resume(alloc, dev, base.head, base.size, keep)?;
    let shared = list.full_block_count();
    Ok(PendingList { list, base, shared })
}
