ghost use Rattle.std.specs.Prelude.{◌≤◌, ◌<◌, ◌+◌, ◌*◌, ◌^◌, ℕ, take, OnOk, IfOk, IsErrOf};
ghost use Rattle.lfs_file.specs.FileCalls.{ReadsOrCorrupt};
ghost use Rattle.lfs_file.specs.Finished.{ListHoldsBytes};
ghost use Rattle.lfs_model.specs.session.History.{read_count};
ghost use Rattle.lfs_model.specs.format.SkipLists.{IsSkipList, blocks_to_head, skip_list_block_count, list_bytes};
ghost use Rattle.lfs_file.specs.CallPremises.{IsFrontSize};

use crate::read::find_block_at;
use crate::{blocks_for, place};
use lfs_device::{BlockDevice, Error};

/// Returns the last block of the list that consists of a file's first `keep` bytes, where `keep` is
/// from 1 to `size`. The last block of the file's list is `head`, and the list has `size` bytes.
/// The two lists share their blocks, so nothing is written. Reads only pointers, and allocates no
/// memory.
///
/// Errors: `Corrupt` if a pointer on the walk refers to a block outside the device, which never
/// happens in a well-formed list. `Io` if a device call fails.
pub fn truncated_head<D: BlockDevice>(
    dev: &mut D,
    head: u32,
    size: u32,
    keep: u32,
) -> Result<u32, Error>
    requires { IsFrontSize keep size }
    ensures front { IsSkipList (D.blocks dev.old) (D.geometry dev.old).block_size head size →
        IfOk result (λ h. ListHoldsBytes (D.blocks dev.old) (D.geometry dev.old).block_size h keep
        (take keep (list_bytes (D.blocks dev.old) (D.geometry dev.old).block_size head size))
        (take (skip_list_block_count (D.geometry dev.old).block_size keep) (blocks_to_head (D.blocks dev.old) (skip_list_block_count (D.geometry dev.old).block_size size) head))) }
    ensures in_range { IfOk result (λ h. h < (D.geometry dev.old).block_count) }
    ensures corrupt { IsErrOf result Error.Corrupt → ¬ IsSkipList (D.blocks dev.old) (D.geometry dev.old).block_size head size }
    ensures reading { ReadsOrCorrupt D.BlockDevice dev.old dev.new result }
    // The walk costs at most twice as many reads as the binary logarithm of the list's number of
    // blocks, rounded up.
    ensures few { (m : ℕ) → skip_list_block_count (D.geometry dev.old).block_size size ≤ 2 ^ m → OnOk result (read_count (D.history dev.new) ≤ read_count (D.history dev.old) + 2 * m) }
{
    let block_size = dev.geometry().block_size;
    let (index, _) = place(block_size, keep - 1);
    let block = find_block_at(dev, head, blocks_for(block_size, size) - 1, index)?;
    Ok(block)
}
