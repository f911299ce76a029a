// The pass over the directories' pairs, which reads each pair once.

ghost use Rattle.std.specs.Prelude.{◌≡◌, ◌≢◌, ◌≤◌, ◌<◌, ◌+◌, ◌++◌, ◌∷◌, ◌^◌, Bool, Err, List, All, IfErr, IfOk, None, OnOk, Some, length, map, sum_by};
ghost use Rattle.lfs_model.specs.format.Disk.{disk_with_order};
ghost use Rattle.lfs_model.specs.format.Blocks.{block_bytes};
ghost use Rattle.lfs_model.specs.session.History.{read_count};
ghost use Rattle.lfs_model.specs.format.Thread.{Pair};
ghost use Rattle.lfs_model.specs.layers.Violations.{PairsBreak};
ghost use Rattle.lfs_model.specs.declared.order.NameOrder.{NameOrder};
ghost use Rattle.lfs_model.specs.declared.violations.Violation.{Violation};
ghost use Rattle.lfs_model.specs.declared.violations.Violation.TheVariants.{NoSuperblock};
ghost use Rattle.lfs_mount.specs.Broken.{PairBreaksRule, HasInvalidMovedSlot, HasInvalidBlockSlots, block_entry_slots};
ghost use Rattle.lfs_mount.specs.Checked.{IsDescribedThread};
ghost use Rattle.lfs_mount.specs.DirectoryView.{graph_view};
ghost use Rattle.lfs_mount.specs.DirectoryEntries.{empty_scan};
ghost use Rattle.lfs_mount.specs.KnownView.{scan_view};
ghost use Rattle.lfs_mount.specs.Passed.{ScansPairs};
ghost use Rattle.lfs_mount.specs.MountReads.{pair_reads};
ghost use Rattle.lfs_mount.specs.Taken.{ScansPair, slots_without_moved, slots_without_superblock};
ghost use Rattle.lfs_tag.specs.ContentView.{slot_view};
ghost use Rattle.lfs_thread.specs.Kept.{disk_of_device};
ghost use Rattle.lfs_thread.specs.MountErrors.{ReadsReportingFaults};
ghost use Rattle.lfs_thread.specs.declared.mount_error.MountError.TheVariants.{Corrupt, Io};

use crate::directory_scan::ScannedDirectory;
use crate::entry::{first_invalid_slot, is_file_or_directory};
use crate::lists::mark_slot_lists;
use crate::reachability::Directory;
use lfs_blocks::BlockMap;
use lfs_device::{BlockDevice, Error, read_block};
use lfs_model::Violation;
use lfs_tag::{Content, Log, Slot};
use lfs_thread::{MountError, PairAddressList};
use std::alloc::Global;

// The parts of a pair's header that the pass needs before it reads the pair's slots.
#[derive(Clone, Copy, Drop)]
pub(crate) struct DirectoryPairHeader {
    // The pair's address, as stored in the tail that points to the pair.
    pub at: [u32; 2],
    // The pair's active block.
    pub active: u32,
    // Whether the tail is hard, so that the next pair continues the directory.
    pub is_hard: bool,
    // Whether slot 0 is the superblock's, as in the root's first pair.
    pub has_superblock: bool,
    // The id of the slot to which a pending move refers, if that slot is in this pair.
    pub moved: Option<u32>,
}

impl DirectoryPairHeader {
    ghost use Rattle.std.specs.Prelude.{◌≡◌, ◌<◌, ◌^◌};
    ghost use Rattle.lfs_mount.specs.Taken.{entry_slot_id};

    // Returns a slot's id in the pair, given the slot's index among the entries. The entries
    // exclude the superblock's slot and the slot of a pending move.
    pub fn entry_slot_id(&self, index: usize) -> u32
        requires { index < 2 ^ 31 }
        ensures { result ≡ entry_slot_id self.now index }
    {
        let behind = u32::from(self.has_superblock);
        let number = index as u32 + behind;
        match self.moved {
            Some(id) if id <= number => number + 1,
            _ => number,
        }
    }
}

// Removes the slot to which a pending move refers, if that slot is in this pair.
//
// Errors: `Corrupt` if the slot has no valid entry.
fn remove_moved_slot(
    slots: &mut Vec<Slot<'_>>,
    member: &DirectoryPairHeader,
) -> Result<(), MountError>
    ensures ok { OnOk result (slots_without_moved member.now.moved (map slot_view slots.old.items) ≡ Some (map slot_view slots.new.items)) }
    ensures fewer { OnOk result (length slots.new.items ≤ length slots.old.items) }
    ensures broken { IfErr result (λ e. (v : Violation) × ((e ≡ Corrupt v) × HasInvalidMovedSlot member.now (map slot_view slots.old.items) v)) }
{
    let Some(id) = member.moved else {
        return Ok(());
    };
    let index = id as usize;
    if index >= slots.len() || slots[index].is_superblock() {
        return Err(MountError::Corrupt(Violation::Move));
    }
    if !is_file_or_directory(&slots[index]) {
        return Err(MountError::Corrupt(Violation::Entry {
            pair: member.at,
            slot: id,
        }));
    }
    slots.remove(index);
    Ok(())
}

// Removes the superblock's slot if `has_superblock` is true. Returns `Corrupt` if and only if there
// is no slot to remove.
fn remove_superblock_slot(slots: &mut Vec<Slot<'_>>, has_superblock: bool) -> Result<(), MountError>
    ensures ok { OnOk result (slots_without_superblock has_superblock (map slot_view slots.old.items) ≡ Some (map slot_view slots.new.items)) }
    ensures fewer { OnOk result (length slots.new.items ≤ length slots.old.items) }
    ensures broken { IfErr result (λ e. (e ≡ Corrupt NoSuperblock) × (slots_without_superblock has_superblock (map slot_view slots.old.items) ≡ None)) }
{
    if !has_superblock {
        return Ok(());
    }
    if slots.is_empty() {
        return Err(MountError::Corrupt(Violation::NoSuperblock));
    }
    slots.remove(0);
    Ok(())
}

// Returns the slots of a pair's log, except for the superblock's slot and the slot of a pending
// move.
//
// Errors: `Corrupt` if the log is malformed, if the moved slot has no valid entry, or if there is
// no superblock to remove. `NoMemory` if memory for the slots can't be allocated.
fn read_entry_slots<'a>(
    alloc: Global,
    log: &Log<'a>,
    member: &DirectoryPairHeader,
) -> Result<Vec<Slot<'a>>, MountError>
    ensures kept { IfOk result (λ slots. block_entry_slots member.now log.now ≡ Some (map slot_view slots.items)) }
    ensures few { length log.now ≤ 2 ^ 16 → IfOk result (λ slots. length slots.items < 2 ^ 15) }
    ensures broken { (v : Violation) → result ≡ Err (Corrupt v) → HasInvalidBlockSlots member.now log.now v }
    ensures error { IfErr result (λ e. e ≢ Io) }
{
    let mut slots = match Content::read(alloc, log) {
        Ok(content) => content.slots,
        Err(error) => {
            let none = Violation::NoContent { pair: member.at };
            return Err(MountError::of(Error::from(error), none));
        }
    };
    remove_moved_slot(&mut slots, member)?;
    remove_superblock_slot(&mut slots, member.has_superblock)?;
    Ok(slots)
}

// Reads the active block of a pair. Never returns `Corrupt`.
fn read_active_block<D: BlockDevice>(
    alloc: Global,
    device: &mut D,
    member: &DirectoryPairHeader,
) -> Result<Vec<u8>, MountError>
    requires { member.now.active < (D.geometry device.old).block_count }
    ensures bytes { IfOk result (λ bytes. bytes.items ≡ block_bytes (D.blocks device.old) member.now.active) }
    ensures sound { (v : Violation) → result ≢ Err (Corrupt v) }
    ensures reading { ReadsReportingFaults D.BlockDevice device.old device.new result }
    ensures once { OnOk result (read_count (D.history device.new) ≡ read_count (D.history device.old) + 1) }
{
    match read_block(alloc, device, member.active) {
        Ok(bytes) => Ok(bytes),
        Err(Error::Io) => Err(MountError::Io),
        Err(_) => Err(MountError::NoMemory),
    }
}

// Reads the active block of a directory's pair. Adds the pair's entries to `known`, and marks the
// blocks of its files as used.
//
// Errors: `Corrupt` if the pair's log is malformed, a slot has no valid entry, a list isn't well
// formed, or a block is already used. `Io` if a read fails. `NoMemory` if memory can't be
// allocated.
fn scan_pair<D: BlockDevice>(
    alloc: Global,
    device: &mut D,
    map: &mut BlockMap,
    places: &PairAddressList,
    known: &mut ScannedDirectory,
    member: &DirectoryPairHeader,
) -> Result<(), MountError>
    requires { member.now.active < (D.geometry device.old).block_count }
    ensures taken { OnOk result ((order : NameOrder) → ScansPair (disk_with_order order (disk_of_device D.BlockDevice device.old)) places.now member.now (scan_view order known.old) map.old (scan_view order known.new) map.new) }
    ensures broken { (v : Violation) → result ≡ Err (Corrupt v) → (order : NameOrder) → PairBreaksRule (disk_with_order order (disk_of_device D.BlockDevice device.old)) member.now map.old v }
    ensures reading { ReadsReportingFaults D.BlockDevice device.old device.new result }
    ensures few { OnOk result (read_count (D.history device.new) ≤ read_count (D.history device.old) + pair_reads (disk_of_device D.BlockDevice device.old) member.now) }
{
    let bytes = read_active_block(alloc, device, member)?;
    let slots = read_entry_slots(alloc, &Log::read(&bytes), member)?;
    if let Err(error) = known.scan_directory_slots(places, &slots) {
        let slot = member.entry_slot_id(first_invalid_slot(&slots));
        return Err(MountError::of(
            error,
            Violation::Entry {
                pair: member.at,
                slot,
            },
        ));
    }
    mark_slot_lists(device, map, member, &slots)?;
    Ok(())
}

// Reads the pairs of all directories in the thread's order, and returns the directories. Requires
// that only the blocks of the thread's pairs are used in the map. Marks the blocks of the files as
// used, too.
//
// Errors: `Corrupt` if a slot has no valid entry, a file's list isn't well formed, or a block has
// two owners. `Io` if a read fails. `NoMemory` if memory can't be allocated.
pub(crate) fn scan_pairs<D: BlockDevice>(
    alloc: Global,
    device: &mut D,
    map: &mut BlockMap,
    places: &PairAddressList,
    members: &[DirectoryPairHeader],
) -> Result<Vec<Directory>, MountError>
    requires { All (λ m. m.active < (D.geometry device.old).block_count) members.now }
    ensures taken { IfOk result (λ ds. (order : NameOrder) → ScansPairs (disk_with_order order (disk_of_device D.BlockDevice device.old)) places.now empty_scan map.old members.now (graph_view order ds.items) map.new) }
    ensures broken { (v : Violation) → result ≡ Err (Corrupt v) → (order : NameOrder) (sync : Bool) (chain : List Pair) (p : Pair) (rest : List Pair)
        → IsDescribedThread (disk_with_order order (disk_of_device D.BlockDevice device.old)) map.old places.now members.now sync chain p rest
        → PairsBreak (disk_with_order order (disk_of_device D.BlockDevice device.old)) (chain ++ p ∷ rest) v }
    ensures reading { ReadsReportingFaults D.BlockDevice device.old device.new result }
    ensures few { OnOk result (read_count (D.history device.new) ≤ read_count (D.history device.old) + sum_by (pair_reads (disk_of_device D.BlockDevice device.old)) members.now) }
{
    let mut directories = Vec::new(alloc);
    let mut known = ScannedDirectory::begin_directory_scan(alloc);
    for member in members {
        scan_pair(alloc, device, map, places, &mut known, member)?;
        if !member.is_hard {
            directories.push(known.take_scanned_directory(alloc))?;
        }
    }
    Ok(directories)
}
