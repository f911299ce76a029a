// The size of a pair's slots.

ghost use Rattle.std.specs.Prelude.{◌≡◌, ℕ, ◌+◌, ◌-◌, ◌^◌, ◌<◌, ◌≤◌, ◌↔◌, IsTrue, min, map, sum_by};
ghost use Rattle.std.specs.Option.{option_map};
ghost use Rattle.lfs_model.specs.format.Disk.{pair_capacity, slots_limit};
ghost use Rattle.lfs_model.specs.format.Slots.{attributes_size};
ghost use Rattle.lfs_model.specs.layers.WrittenContent.{name_or_struct_size, raw_slot_size, RawContentFitsInPair};
ghost use Rattle.lfs_tag.specs.ContentView.{part_view, attribute_view, slot_view, content_view};

use lfs_device::Geometry;
use lfs_tag::{Attribute, Content, NameOrStruct, Slot};

// Returns the size in bytes of a name or a struct with its tag, or 0 for None. The size saturates
// at `u64::MAX`.
fn optional_part_size(part: &Option<NameOrStruct<'_>>) -> u64
    ensures { result ≡ min (name_or_struct_size (option_map part_view part.now)) (2 ^ 64 - 1) }
{
    match part {
        None => 0,
        Some(part) => (part.bytes.len() as u64).saturating_add(4),
    }
}

/// Returns the size in bytes of the attributes with their tags. The size saturates at `u64::MAX`.
pub fn attributes_size(attributes: &[Attribute<'_>]) -> u64
    ensures { result ≡ min (attributes_size (map attribute_view attributes.now)) (2 ^ 64 - 1) }
{
    let mut total: u64 = 0;
    for attribute in attributes {
        total = total
            .saturating_add(4)
            .saturating_add(attribute.bytes.len() as u64);
    }
    total
}

// Returns the size in bytes of a slot with its tags. The size saturates at `u64::MAX`.
pub(crate) fn slot_size(slot: &Slot<'_>) -> u64
    ensures { result ≡ min (raw_slot_size (slot_view slot.now)) (2 ^ 64 - 1) }
{
    optional_part_size(&slot.name)
        .saturating_add(optional_part_size(&slot.structure))
        .saturating_add(attributes_size(&slot.attributes))
}

// Returns the size in bytes of all slots with their tags. The size saturates at `u64::MAX`.
pub(crate) fn slots_size(slots: &[Slot<'_>]) -> u64
    ensures { result ≡ min (sum_by raw_slot_size (map slot_view slots.now)) (2 ^ 64 - 1) }
{
    let mut total: u64 = 0;
    for slot in slots {
        total = total.saturating_add(slot_size(slot));
    }
    total
}

// Returns whether `count` slots of `size` bytes in total fit in a pair.
pub(crate) fn fits_pair(count: usize, size: u64, geometry: Geometry) -> bool
    ensures { IsTrue result ↔ ((count ≤ slots_limit) × (size ≤ pair_capacity geometry.block_size geometry.page)) }
{
    count <= geometry.slot_limit() && size <= u64::from(geometry.pair_capacity())
}

/// Returns whether the content fits in a pair. The content fits in a pair if it has at most
/// [`Geometry::slot_limit`] slots with at most [`Geometry::pair_capacity`] bytes in total.
pub fn content_fits(content: &Content<'_>, geometry: Geometry) -> bool
    ensures { IsTrue result ↔ RawContentFitsInPair geometry.block_size geometry.page (content_view content.now) }
{
    fits_pair(content.slots.len(), slots_size(&content.slots), geometry)
}
