// The blocks of files' CTZ skip-lists, which are marked as used.

ghost use Rattle.std.specs.Prelude.{◌≡◌, ◌≤◌, ◌<◌, ◌+◌, ◌^◌, ◌↔◌, Err, IsTrue, OnOk, length, slice_set, sum_by};
ghost use Rattle.std.specs.Bool.{OnFalse, OnTrue};
ghost use Rattle.std.specs.Option.{option_and_then};
ghost use Rattle.lfs_model.specs.layers.BlockSets.{IsFree};
ghost use Rattle.lfs_model.specs.layers.BlockSets.BlockState.{Used};
ghost use Rattle.lfs_model.specs.session.History.{read_count};
ghost use Rattle.lfs_model.specs.declared.violations.Violation.{Violation};
ghost use Rattle.lfs_thread.specs.Kept.{disk_of_device};
ghost use Rattle.lfs_thread.specs.MountErrors.{ReadsReportingFaults};
ghost use Rattle.lfs_thread.specs.declared.mount_error.MountError.TheVariants.{Corrupt};
ghost use Rattle.lfs_mount.specs.Broken.{HasInvalidOrSharedList, IsInvalidOrSharedList};
ghost use Rattle.lfs_mount.specs.DirectoryEntries.{raw_slot_entry};
ghost use Rattle.lfs_mount.specs.ListsView.{lists_view, raw_slots_view};
ghost use Rattle.lfs_mount.specs.Marking.{MarksListBlocksUsed, MarksAllListsUsed, MarksBlockIfFree, list_head_and_size};
ghost use Rattle.lfs_mount.specs.MountReads.{list_reads};
ghost use Rattle.lfs_tag.specs.ContentView.{slot_view};

use crate::entry::slot_named_struct;
use crate::pass::DirectoryPairHeader;
use lfs_blocks::BlockMap;
use lfs_device::BlockDevice;
use lfs_file::walk;
use lfs_model::Violation;
use lfs_tag::{Slot, Struct};
use lfs_thread::MountError;

// Marks a free block as used. Returns false and changes nothing if the block isn't free, or if its
// number is too large for the map.
fn mark_if_free(map: &mut BlockMap, block: u32) -> bool
    ensures free { IsTrue result ↔ IsFree map.old block }
    ensures marked { OnTrue result (map.new ≡ slice_set map.old block Used) }
    ensures same { OnFalse result (map.new ≡ map.old) }
{
    block < map.block_count() && map.mark(block)
}

// Marks the blocks of a slot's CTZ skip-list as used. `list` is the number of the list's last block
// and the list's size in bytes.
//
// Errors: `Corrupt` if the list isn't well formed, or if one of its blocks is already used. If a
// block is already used, the error contains the first such block. Some blocks of the list may be
// marked after an error. `Io` if a read fails.
fn mark_slot_list<D: BlockDevice>(
    device: &mut D,
    map: &mut BlockMap,
    pair: [u32; 2],
    slot: u32,
    list: (u32, u32),
) -> Result<(), MountError>
    ensures marked { OnOk result (MarksListBlocksUsed (disk_of_device D.BlockDevice device.old) map.old list map.new) }
    ensures broken { (v : Violation) → result ≡ Err (Corrupt v) → IsInvalidOrSharedList (disk_of_device D.BlockDevice device.old) map.old list pair slot v }
    ensures reading { ReadsReportingFaults D.BlockDevice device.old device.new result }
    ensures few { OnOk result (read_count (D.history device.new) ≤ read_count (D.history device.old) + list_reads (D.geometry device.old).block_size list) }
{
    let mut taken: Option<u32> = None;
    let walked = walk(
        device,
        list.0,
        list.1,
        &mut |block: u32|
            ensures { MarksBlockIfFree map.entry.now taken.entry block map.exit.now taken.exit }
        {
            if !mark_if_free(map, block) && taken.is_none() {
                taken = Some(block);
            }
        },
    );
    if let Err(error) = walked {
        return Err(MountError::of(error, Violation::List { pair, slot }));
    }
    match taken {
        Some(block) => Err(MountError::Corrupt(Violation::TwoOwners { pair, slot, block })),
        None => Ok(()),
    }
}

// Returns the last block and the size in bytes of the list in a slot's entry. Returns None if the
// entry has no list.
fn list_of_slot(slot: &Slot<'_>) -> Option<(u32, u32)>
    ensures { result ≡ option_and_then list_head_and_size (raw_slot_entry (slot_view slot.now)) }
{
    let Some(entry) = slot_named_struct(slot) else {
        return None;
    };
    match entry.target {
        Struct::Ctz { head, size } => Some((head, size)),
        _ => None,
    }
}

// Marks the blocks of all lists in the given slots of a pair as used. The slots don't include the
// superblock's slot and the slot of a pending move.
//
// Errors: `Corrupt` if one of the lists isn't well formed, or if one of its blocks is already used.
// Some blocks may be marked after an error. `Io` if a read fails.
pub(crate) fn mark_slot_lists<D: BlockDevice>(
    device: &mut D,
    map: &mut BlockMap,
    member: &DirectoryPairHeader,
    slots: &[Slot<'_>],
) -> Result<(), MountError>
    requires { length slots.now < 2 ^ 31 }
    ensures marked { OnOk result (MarksAllListsUsed (disk_of_device D.BlockDevice device.old) map.old (lists_view slots.now) map.new) }
    ensures broken { (v : Violation) → result ≡ Err (Corrupt v) → HasInvalidOrSharedList (disk_of_device D.BlockDevice device.old) member.now map.old (raw_slots_view slots.now) v }
    ensures reading { ReadsReportingFaults D.BlockDevice device.old device.new result }
    ensures few { OnOk result (read_count (D.history device.new) ≤ read_count (D.history device.old) + sum_by (list_reads (D.geometry device.old).block_size) (lists_view slots.now)) }
{
    for index in 0..slots.len() {
        if let Some(list) = list_of_slot(&slots[index]) {
            let number = member.entry_slot_id(index);
            mark_slot_list(device, map, member.at, number, list)?;
        }
    }
    Ok(())
}
