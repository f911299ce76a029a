// The CTZ skip-lists of files in orphans, which a recovery frees.

ghost use Rattle.std.specs.Prelude.{◌≡◌, ◌++◌, ◌<◌, IfErr, IfOk, OnOk, false, is_err, length, map};
ghost use Rattle.std.specs.Option.{option_to_list};
ghost use Rattle.lfs_tree.specs.SettledFiles.{ChangesOnlyMap};
ghost use Rattle.lfs_tree.specs.ThreadContents.{ThreadReportsFaults};
ghost use Rattle.lfs_model.specs.layers.LoggedContent.{IsWellFormedSlot, AreWellFormed};
ghost use Rattle.lfs_model.specs.format.Slots.{PairContent as ModelContent};
ghost use Rattle.lfs_operations.specs.Dropping.{HasSameBlocksInFlight};
ghost use Rattle.lfs_operations.specs.Ready.{IsRecoveredWritableImage};
ghost use Rattle.lfs_operations.specs.Recovering.{slots_of_pairs_at};
ghost use Rattle.lfs_model.specs.layers.StepResults.{AreUnreachedNumbers};
ghost use Rattle.lfs_tag.specs.ContentView.{slot_view};
ghost use Rattle.lfs_thread.specs.CachedLog.{IsContentLog};
ghost use Rattle.lfs_thread.specs.ThreadSteps.{thread_pair};
ghost use Rattle.lfs_tree.specs.LostLists.{CanFreeLists, raw_struct_lists, slots_lists, raw_slots_lists};
ghost use Rattle.lfs_lookup.specs.LookupReading.{ReadsOrReports};
ghost use Rattle.lfs_lookup.specs.NameSearch.{EachSlotHasStruct};
ghost use Rattle.lfs_tree.specs.Working.{IsWorkingAndMeets};

use crate::files::replace_used_list;
use lfs_device::{BlockDevice, Error};
use lfs_file::{StoredList, lemma_settled_map};
use lfs_lookup::{FileOrDirectory, FileStorage, entry_of_struct};
use lfs_tag::{Content, Log, Slot};
use lfs_thread::Thread;
use std::alloc::{AllocError, Global};

// Returns the CTZ skip-list that a slot refers to, if it refers to one.
fn list_of_file(slot: &Slot<'_>) -> Option<StoredList>
    requires { IsWellFormedSlot (slot_view slot.now) }
    ensures { option_to_list result ≡ raw_struct_lists (slot_view slot.now).struct }
{
    let Some(structure) = slot.structure else {
        return None;
    };
    match entry_of_struct(&structure) {
        FileOrDirectory::File(FileStorage::List { head, size }) => Some(StoredList {
            head,
            size,
            in_flight: false,
        }),
        _ => None,
    }
}

// Appends the lists that the slots refer to.
fn push_slot_lists(lists: &mut Vec<StoredList>, slots: &[Slot<'_>]) -> Result<(), AllocError>
    requires { AreWellFormed (map slot_view slots.now) }
    ensures { OnOk result (lists.new.items ≡ lists.old.items ++ raw_slots_lists (map slot_view slots.now)) }
{
    for slot in slots {
        if let Some(list) = list_of_file(slot) {
            lists.push(list)?;
        }
    }
    Ok(())
}

// Appends the lists that the slots of a log refer to.
fn push_log_lists(alloc: Global, lists: &mut Vec<StoredList>, log: &Log<'_>) -> Result<(), Error>
    requires { EachSlotHasStruct log.now }
    ensures lists { (content : ModelContent) → IsContentLog log.now content → OnOk result (lists.new.items ≡ lists.old.items ++ slots_lists content.slots) }
    ensures errors { IfErr result (λ e. e ≡ Error.NoMemory) }
{
    let content = Content::read(alloc, log)?;
    push_slot_lists(lists, &content.slots)?;
    Ok(())
}

// Appends the lists that the slots of a pair refer to.
fn push_pair_lists<D: BlockDevice>(
    alloc: Global,
    thread: &mut Thread<D>,
    lists: &mut Vec<StoredList>,
    index: usize,
) -> Result<(), Error>
    requires works { thread.old.failed ≡ false }
    requires below { index < length thread.old.kept.pairs }
    ensures lists { OnOk result (lists.new.items ≡ lists.old.items ++ slots_lists (thread_pair thread.old.kept index).content.slots) }
    ensures reading { ReadsOrReports thread.old thread.new result }
{
    thread.load_pair(index)?;
    push_log_lists(alloc, lists, &thread.lend(index).unwrap())
}

// Returns the lists that the slots of the pairs `numbers` refer to. These pairs are orphans.
//
// Errors: `Io` if a read fails, or `NoMemory` if memory can't be allocated.
pub(crate) fn lists_of_pairs<D: BlockDevice>(
    alloc: Global,
    thread: &mut Thread<D>,
    numbers: &[usize],
) -> Result<Vec<StoredList>, Error>
    requires works { thread.old.failed ≡ false }
    requires unreached { AreUnreachedNumbers thread.old.kept.pairs numbers.now }
    ensures lists { IfOk result (λ lists. lists.items ≡ slots_lists (slots_of_pairs_at thread.old.kept.pairs numbers.now)) }
    ensures reading { ReadsOrReports thread.old thread.new result }
{
    let mut lists = Vec::new(alloc);
    for number in numbers {
        push_pair_lists(alloc, thread, &mut lists, *number)?;
    }
    Ok(lists)
}

// Frees the blocks of lists in the block map after the pairs that refer to them are dropped. Writes
// nothing to the device.
//
// Errors: `Io` if a read fails. The threaded list is then marked as failed.
pub(crate) fn free_lists<D: BlockDevice>(
    thread: &mut Thread<D>,
    lists: &[StoredList],
) -> Result<(), Error>
    requires { IsWorkingAndMeets thread.old (λ t. CanFreeLists t lists.now) }
    ensures ready { OnOk result (IsRecoveredWritableImage thread.new.kept) }
    ensures flying { OnOk result (HasSameBlocksInFlight thread.old.kept.map thread.new.kept.map) }
    ensures only { ChangesOnlyMap thread.old.kept thread.new.kept }
    ensures failed { thread.new.failed ≡ is_err result }
    ensures reports { ThreadReportsFaults thread.old.kept thread.new.kept result }
{
    lemma_settled_map();
    let nothing = StoredList {
        head: 0,
        size: 0,
        in_flight: false,
    };
    for list in lists {
        replace_used_list(thread, *list, nothing)?;
    }
    Ok(())
}
