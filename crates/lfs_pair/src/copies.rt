// Copies a pair to two other blocks.

ghost use Rattle.std.specs.Prelude.{◌≡◌, IfErr, IfOk};
ghost use Rattle.lfs_device.specs.DeviceCalls.{ReportsFaults};
ghost use Rattle.lfs_device.specs.DeviceDisk.{disk_of_blocks};
ghost use Rattle.lfs_model.specs.format.Slots.{address_of_array};
ghost use Rattle.lfs_model.specs.format.Thread.{address_blocks};
ghost use Rattle.lfs_pair.specs.ChangeView.{changes_view};
ghost use Rattle.lfs_pair.specs.Copies.{CanCopyPair, IsPairCopied, IsCopyError};
ghost use Rattle.lfs_pair.specs.Writing.{ChangesReadingFew};

use crate::change::Change;
use crate::contents::changed_content;
use crate::fresh::write_fresh_pair;
use crate::pair::Pair;
use lfs_device::{BlockDevice, Error, read_block};
use std::alloc::Global;

/// Copies a pair, with changes, to the two blocks `fresh`, and returns the header of the new pair.
/// Without changes, the new pair has the same slots, tail and delta of the global state. The new
/// revision count is that of `pair` plus one, modulo 2^32. Both blocks of `fresh` are erased,
/// whatever bytes they contain, and the first one becomes active, as in [`Pair::fresh`]. The call
/// reads from the device at most three times.
///
/// The call changes only the blocks of `fresh`, and a power loss during the call may leave any
/// bytes in them.
///
/// Errors: `NoMemory` if memory for two blocks and the slots can't be allocated; in this case,
/// nothing is written. `Io` if a device call fails.
///
/// Requires everything that [`commit`](crate::commit) requires of `pair` and `changes`. The changed
/// content must [`fit`](crate::content_fits) in a pair. The block numbers in `fresh` must differ
/// and be below the device's number of blocks.
pub fn copy<D: BlockDevice>(
    alloc: Global,
    dev: &mut D,
    pair: &Pair,
    fresh: [u32; 2],
    changes: &[Change<'_>],
) -> Result<Pair, Error>
    requires { CanCopyPair (disk_of_blocks (D.geometry dev.old) (D.blocks dev.old)) (D.history dev.old) pair.now (address_of_array fresh) (changes_view changes.now) }

    ensures copied { IfOk result (λ copy. IsPairCopied (disk_of_blocks (D.geometry dev.old) (D.blocks dev.old)) (D.history dev.old) (changes_view changes.now) pair.now
        (disk_of_blocks (D.geometry dev.new) (D.blocks dev.new)) (D.history dev.new) (address_of_array fresh) copy) }
    ensures error { IfErr result (λ e. IsCopyError D.BlockDevice dev.old dev.new e) }
    ensures device { ChangesReadingFew D.BlockDevice 3 (address_blocks (address_of_array fresh)) dev.old dev.new }
    ensures faults { ReportsFaults D.BlockDevice dev.old dev.new result }
{
    let block = read_block(alloc, dev, pair.active)?;
    let content = changed_content(alloc, pair, &block, changes)?;
    let block_size = dev.geometry().block_size as usize;
    let mut buf = Vec::from_elem(alloc, 0u8, block_size)?;
    let revision = pair.revision.wrapping_add(1);
    let copy = write_fresh_pair(dev, fresh, revision, &content, &mut buf)?;
    Ok(copy)
}
