// Splits a full pair in two.

ghost use Rattle.std.specs.Prelude.{◌≡◌, ◌+◌, IfErr, IfOk};
ghost use Rattle.lfs_device.specs.DeviceDisk.{disk_of_blocks};
ghost use Rattle.lfs_device.specs.DeviceCalls.{ReportsFaults};
ghost use Rattle.lfs_model.specs.session.History.{AllCallsSince, HoldsAtLosses};
ghost use Rattle.lfs_model.specs.format.Slots.{address_of_array};
ghost use Rattle.lfs_model.specs.crash.Stops.{ErasesCleanly, LeftByLoss};
ghost use Rattle.lfs_tag.specs.ContentView.{content_view};
ghost use Rattle.lfs_pair.specs.Pair.{header_address};
ghost use Rattle.lfs_pair.specs.Commits.{CommitFails};
ghost use Rattle.lfs_pair.specs.ChangeView.{changes_view};
ghost use Rattle.lfs_pair.specs.HalfCut.{AreSplittable};
ghost use Rattle.lfs_pair.specs.Writing.{ChangesReadingFew};
ghost use Rattle.lfs_pair.specs.Split.{CanSplitWithBlock, SplitsPair, LossLeavesSplit, IsContentCut};
ghost use Rattle.lfs_model.specs.format.Thread.{addresses_blocks};

use crate::change::Change;
use crate::commits::compact;
use crate::contents::changed_content;
use crate::cut::middle_cut;
use crate::fresh::{FIRST_REVISION, write_fresh_pair};
use crate::pair::Pair;
use lfs_device::{BlockDevice, Error, Geometry};
use lfs_tag::{Content, MoveState, Tail};
use std::alloc::Global;

/// Commits changes to a pair and splits it in two (DESIGN.md of littlefs, "The directory tree").
/// The later slots and the old tail move to a new pair in the two blocks `fresh`. The old pair
/// keeps the first slots and its delta of the global state, and gets a hard tail that refers to the
/// new pair. Returns the header of the new pair.
///
/// `block` must contain the bytes of the active block. The call reads from the device at most three
/// times.
///
/// The call writes the new pair first. A power loss during the call therefore leaves the old pair
/// with its old content, or both pairs with their new contents. The guarantee for a power loss
/// depends on the properties of the device that [`commit`](crate::commit) describes.
///
/// Errors: the same as those of [`commit`](crate::commit). After an error, `pair` is unchanged but
/// the device may have changed, so the caller must fetch the pair again.
///
/// Requires everything that [`commit`](crate::commit) requires. The slots must be divisible into
/// two parts that each [`fit`](crate::content_fits) in a pair. The two block numbers in `fresh`
/// must differ, be below the device's number of blocks, and not belong to the old pair.
pub fn split<D: BlockDevice>(
    alloc: Global,
    dev: &mut D,
    pair: &mut Pair,
    fresh: [u32; 2],
    block: &[u8],
    changes: &[Change<'_>],
) -> Result<Pair, Error>
    requires { CanSplitWithBlock (disk_of_blocks (D.geometry dev.old) (D.blocks dev.old)) (D.history dev.old) pair.old (address_of_array fresh) (changes_view changes.now) block.now }

    ensures splits { IfOk result (λ fresh_pair. SplitsPair (disk_of_blocks (D.geometry dev.old) (D.blocks dev.old)) (D.history dev.old) (changes_view changes.now) pair.old (address_of_array fresh)
        (disk_of_blocks (D.geometry dev.new) (D.blocks dev.new)) (D.history dev.new) pair.new fresh_pair) }
    ensures error { IfErr result (λ e. CommitFails D.BlockDevice dev.old dev.new pair.old pair.new e) }
    ensures device { ChangesReadingFew D.BlockDevice 3 (addresses_blocks (header_address pair.old) (address_of_array fresh)) dev.old dev.new }
    ensures faults { ReportsFaults D.BlockDevice dev.old dev.new result }
    ensures stops { AllCallsSince ErasesCleanly (D.history dev.old) (D.history dev.new)
        → HoldsAtLosses LeftByLoss (D.history dev.old) (D.history dev.new) (LossLeavesSplit (disk_of_blocks (D.geometry dev.old) (D.blocks dev.old)) (header_address pair.old) (address_of_array fresh) (changes_view changes.now)) }
{
    let geometry = dev.geometry();
    let mut front = changed_content(alloc, pair, block, changes)?;
    let back = split_off_back(&mut front, fresh, geometry)?;
    let mut buf = Vec::from_elem(alloc, 0u8, geometry.block_size as usize)?;
    let fresh_pair = write_fresh_pair(dev, fresh, FIRST_REVISION, &back, &mut buf)?;
    compact(dev, pair, &front, &mut buf)?;
    Ok(fresh_pair)
}

// Splits off the slots after the cut, and returns them with the content's tail. The content gets a
// hard tail that refers to the pair `fresh`.
fn split_off_back<'a>(
    content: &mut Content<'a>,
    fresh: [u32; 2],
    geometry: Geometry,
) -> Result<Content<'a>, Error>
    requires { AreSplittable geometry.block_size geometry.page (content_view content.old).slots }
    ensures parts { IfOk result (λ back. IsContentCut geometry.block_size geometry.page (content_view content.old) (address_of_array fresh) (content_view content.new) (content_view back)) }
    ensures errors { IfErr result (λ e. e ≡ Error.NoMemory) }
{
    let cut = middle_cut(&content.slots, geometry);
    let slots = content.slots.split_off(cut)?;
    let back = Content {
        slots,
        tail: content.tail,
        move_state: MoveState::none(),
    };
    content.tail = Some(Tail {
        hard: true,
        pair: fresh,
    });
    Ok(back)
}
