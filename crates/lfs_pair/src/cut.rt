// Divides a full pair's slots into two parts.

ghost use Rattle.std.specs.Prelude.{map};
ghost use Rattle.lfs_tag.specs.ContentView.{slot_view};
ghost use Rattle.lfs_pair.specs.HalfCut.{AreSplittable, IsHalfCut};

use crate::size::{fits_pair, slot_size, slots_size};
use lfs_device::Geometry;
use lfs_tag::Slot;

// Returns the number of slots that stay in the first part. Of all cuts into two parts that each fit
// in a pair, this is the last one with at most half of the bytes in the first part. Both parts then
// have free space for later commits. If there is no such cut, this is the first cut into parts that
// fit.
pub(crate) fn middle_cut(slots: &[Slot<'_>], geometry: Geometry) -> usize
    requires { AreSplittable geometry.block_size geometry.page (map slot_view slots.now) }
    ensures { IsHalfCut geometry.block_size geometry.page (map slot_view slots.now) result }
{
    let total = slots_size(slots);
    let mut cut = 0;
    let mut front = 0;
    for slot in slots {
        let longer = front + slot_size(slot);
        let back_fits = fits_pair(slots.len() - cut, total - front, geometry);
        if !fits_pair(cut + 1, longer, geometry) || (back_fits && 2 * longer > total) {
            return cut;
        }
        cut += 1;
        front = longer;
    }
    cut
}
