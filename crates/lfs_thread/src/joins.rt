// Insertion of new pairs into the thread, each after an existing pair.

ghost use Rattle.std.specs.Prelude.{◌≡◌, ◌⊎◌, ◌<◌, ◌+◌, IfErr, IfOk, get_or, length};
ghost use Rattle.std.specs.Option.{option_map};
ghost use Rattle.lfs_device.specs.DeviceCalls.{ReportsFaults};
ghost use Rattle.lfs_device.specs.DeviceDisk.{disk_of_blocks};
ghost use Rattle.lfs_model.specs.format.Slots.{address_of_array};
ghost use Rattle.lfs_model.specs.format.Thread.{address_blocks, addresses_blocks};
ghost use Rattle.lfs_tag.specs.ContentView.{tail_view};
ghost use Rattle.lfs_pair.specs.ChangeView.{change_view, changes_view};
ghost use Rattle.lfs_pair.specs.Pair.{header_address};
ghost use Rattle.lfs_pair.specs.Writing.{ChangesReadingFew};
ghost use Rattle.lfs_thread.specs.CachedLog.{cached_block_log, reads_unless_cached};
ghost use Rattle.lfs_thread.specs.Joins.{CanDropCopied, CanHold, CanWriteBehind, IsJoined, IsWrittenBehind, LossLeavesJoined, headers_without, map_without, reads_behind, source_index};
ghost use Rattle.lfs_thread.specs.Kept.{AreKeptParts, kept_parts};
ghost use Rattle.lfs_thread.specs.Parts.{ChangesKeptParts, EndsByOutcome};
ghost use Rattle.lfs_thread.specs.ThreadDevice.{CleanLossLeaves, ReportsKeepingOthers};
ghost use Rattle.lfs_thread.specs.ThreadSteps.{CanThreadIn, RefusesThreading, tail_change, thread_pair};

use crate::cached_pairs::{commit_cached, forget_cached_pair};
use crate::parts::ThreadParts;
use lfs_blocks::BlockMap;
use lfs_device::{BlockDevice, Error};
use lfs_pair::{Change, Outcome, Pair, copy};
use lfs_tag::{MoveState, Tail};
use std::alloc::Global;

// The content of a new pair that is inserted after another one.
#[derive(Clone, Copy, Drop)]
pub(crate) enum Behind {
    // No slots, and the tail of the pair before it.
    Empty,
    // The slots and the tail of the pair before it, but not its gstate delta.
    Slots,
    // All content of the next pair, which the new pair replaces.
    Next,
}

// Writes a new pair into two blocks in flight. Then commits the changes, which set a tail to the
// new pair, to the pair at `index`. If the changes don't fit, no tail points to the new pair, and
// its blocks stay in flight. After an error, the headers, the map and the cache are unspecified.
pub(crate) fn join_pair<D: BlockDevice>(
    alloc: Global,
    parts: &mut ThreadParts<D>,
    index: usize,
    behind: Behind,
    fresh: [u32; 2],
    changes: &[Change<'_>],
) -> Result<Outcome, Error>
    requires kept { AreKeptParts D.BlockDevice parts.old }
    requires can { CanThreadIn (kept_parts D.BlockDevice parts.old) index (address_of_array fresh) (changes_view changes.now) }
    requires holds { CanHold (kept_parts D.BlockDevice parts.old) index behind }
    ensures parts { ChangesKeptParts D.BlockDevice (reads_behind behind + 1 + reads_unless_cached (cached_block_log (kept_parts D.BlockDevice parts.old) parts.old.cache index)) (addresses_blocks (thread_pair (kept_parts D.BlockDevice parts.old) index).at (address_of_array fresh)) parts.old parts.new result }
    ensures ends { EndsByOutcome result
        (IsJoined (kept_parts D.BlockDevice parts.old) index behind (address_of_array fresh) (changes_view changes.now) (kept_parts D.BlockDevice parts.new))
        (RefusesThreading (kept_parts D.BlockDevice parts.old) index (address_of_array fresh) (changes_view changes.now) (kept_parts D.BlockDevice parts.new)) }
    ensures errors { ReportsKeepingOthers D.BlockDevice (address_blocks (address_of_array fresh)) parts.old.device parts.new.device result }
    ensures stops { CleanLossLeaves (D.history parts.old.device) (D.history parts.new.device)
        (LossLeavesJoined (kept_parts D.BlockDevice parts.old) index behind (address_of_array fresh) (changes_view changes.now)) }
{
    let mut pair = parts.pairs[index];
    let source = source_of(&parts.pairs, index, behind);
    // Allocates memory for the new pair's header before anything is written.
    parts.pairs.insert(index + 1, pair)?;
    forget_cached_pair(&mut parts.cache, fresh);
    let fresh_pair = write_behind(alloc, &mut parts.device, &source, behind, fresh)?;
    let outcome = commit_cached(
        alloc,
        &mut parts.device,
        &mut parts.cache,
        &mut pair,
        changes,
    )?;
    if let Outcome::Full = outcome {
        parts.pairs.remove(index + 1);
        return Ok(Outcome::Full);
    }
    parts.pairs[index] = pair;
    parts.pairs[index + 1] = fresh_pair;
    parts.map.settle(fresh[0]);
    parts.map.settle(fresh[1]);
    drop_copied(&mut parts.pairs, &mut parts.map, index + 2, behind, &source);
    Ok(Outcome::Done)
}

// Returns the header of the pair from which the new one is copied.
fn source_of(pairs: &Vec<Pair>, index: usize, behind: Behind) -> Pair
    requires { source_index index behind < length pairs.now.items }
    ensures { result ≡ get_or pairs.now.items (source_index index behind) result }
{
    match behind {
        Behind::Empty | Behind::Slots => pairs[index],
        Behind::Next => pairs[index + 1],
    }
}

// Writes the new pair, and returns its header.
//
// Errors: `Io` if a call of the device fails. `NoMemory` if memory for two blocks and the slots
// can't be allocated.
fn write_behind<D: BlockDevice>(
    alloc: Global,
    dev: &mut D,
    source: &Pair,
    behind: Behind,
    fresh: [u32; 2],
) -> Result<Pair, Error>
    requires { CanWriteBehind (disk_of_blocks (D.geometry dev.old) (D.blocks dev.old)) (D.history dev.old) source.now (address_of_array fresh) behind }

    ensures written { IfOk result (λ pair. IsWrittenBehind (disk_of_blocks (D.geometry dev.old) (D.blocks dev.old)) (D.history dev.old) source.now behind
        (disk_of_blocks (D.geometry dev.new) (D.blocks dev.new)) (D.history dev.new) (address_of_array fresh) pair) }
    ensures error { IfErr result (λ e. (e ≡ Error.Io) ⊎ (e ≡ Error.NoMemory)) }
    ensures device { ChangesReadingFew D.BlockDevice (reads_behind behind) (address_blocks (address_of_array fresh)) dev.old dev.new }
    ensures faults { ReportsFaults D.BlockDevice dev.old dev.new result }
{
    match behind {
        Behind::Empty => {
            let tail = change_setting_tail(&source.tail);
            Pair::fresh(alloc, dev, fresh, &[tail])
        }
        Behind::Slots => {
            let no_delta = Change::Move {
                state: MoveState::none(),
            };
            copy(alloc, dev, source, fresh, &[no_delta])
        }
        Behind::Next => copy(alloc, dev, source, fresh, &[]),
    }
}

// Removes the header of the pair that the new one replaces, if it replaces any, and frees the old
// pair's blocks.
fn drop_copied(
    pairs: &mut Vec<Pair>,
    map: &mut BlockMap,
    place: usize,
    behind: Behind,
    source: &Pair,
)
    requires { CanDropCopied behind pairs.old.items place source.now map.old }
    ensures headers { pairs.new.items ≡ headers_without behind pairs.old.items place }
    ensures map { map.new ≡ map_without behind map.old (header_address source.now) }
{
    if let Behind::Next = behind {
        pairs.remove(place);
        map.release(source.blocks[0]);
        map.release(source.blocks[1]);
    }
}

// Returns the change that sets the tail `tail`.
fn change_setting_tail<'a>(tail: &Option<Tail>) -> Change<'a>
    ensures { change_view result ≡ tail_change (option_map tail_view tail.now) }
{
    match tail {
        None => Change::Tail {
            hard: false,
            pair: None,
        },
        Some(tail) => Change::Tail {
            hard: tail.hard,
            pair: Some(tail.pair),
        },
    }
}
