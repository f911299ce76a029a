// The headers of a device's metadata pairs, read in the order of its threaded linked-list.

ghost use Rattle.std.specs.Prelude.{◌≡◌, ◌+◌, [], length, sum_by, IfErr, IfOk, List, OnOk};
ghost use Rattle.std.specs.Option.{option_map};
ghost use Rattle.lfs_model.specs.format.Slots.{address_of_array};
ghost use Rattle.lfs_tag.specs.ContentView.{tail_view};
ghost use Rattle.lfs_model.specs.layers.BlockSets.{AreInFlight, AreUsed};
ghost use Rattle.lfs_model.specs.session.History.{read_count};
ghost use Rattle.lfs_model.specs.format.Thread.{Pair as ThreadPair, pairs_blocks, tail_target};
ghost use Rattle.lfs_pair.specs.Pair.{header_address, fetch_reads};
ghost use Rattle.lfs_thread.specs.Begun.{ThreadBeginsWith};
ghost use Rattle.lfs_thread.specs.Kept.{IsKept, disk_of_device, header_pairs};
ghost use Rattle.lfs_thread.specs.MountErrors.{IsThreadViolation, ReadsReportingFaults};
ghost use Rattle.lfs_thread.specs.HeaderReading.{IsHeaderRead};
ghost use Rattle.lfs_thread.specs.CachedCalls.{IsThreadUnread};

use crate::mount_error::MountError;
use lfs_blocks::BlockMap;
use lfs_device::BlockDevice;
use lfs_model::Violation;
use lfs_pair::{Pair, fetch};
use std::alloc::Global;

// Reads the headers of the thread's pairs, and marks the pairs' blocks as used. After an error, the
// headers and the map are unspecified.
pub(crate) fn read_thread_headers<D: BlockDevice>(
    alloc: Global,
    device: &mut D,
    pairs: &mut Vec<Pair>,
    map: &mut BlockMap,
) -> Result<(), MountError>
    requires { IsThreadUnread pairs.old.items map.old (D.geometry device.old).block_count }
    ensures kept { OnOk result (IsKept D.BlockDevice device.new pairs.new.items map.new) }
    ensures marked { OnOk result (AreUsed map.new (pairs_blocks (header_pairs (disk_of_device D.BlockDevice device.new) pairs.new.items)) × AreInFlight map.new []) }
    ensures broken { IfErr result (λ e. IsThreadViolation (disk_of_device D.BlockDevice device.old) e) }
    ensures reported { ReadsReportingFaults D.BlockDevice device.old device.new result }
    ensures few { OnOk result (read_count (D.history device.new) ≡ read_count (D.history device.old) + sum_by (λ h. fetch_reads (disk_of_device D.BlockDevice device.old) (header_address h)) pairs.new.items) }
{
    let block_count = device.geometry().block_count;
    let mut next = Some([0, 1]);
    // The loop is long enough: each pair marks two blocks, so there are fewer pairs than blocks.
    for _ in 0..block_count {
        match next {
            None => return Ok(()),
            Some(at) => {
                let pair = read_pair_header(alloc, device, map, at)?;
                next = tail_address(&pair);
                pairs.push(pair)?;
            }
        }
    }
    unreachable!()
}

// Returns the address to which a pair's tail points.
fn tail_address(pair: &Pair) -> Option<[u32; 2]>
    ensures { option_map address_of_array result ≡ tail_target (option_map tail_view pair.now.tail) }
{
    match pair.tail {
        None => None,
        Some(tail) => Some(tail.pair),
    }
}

// Reads the header of the pair at address `at`, and marks its two blocks as used. Returns `Corrupt`
// if a block is out of range or already used, if the two blocks are equal, or if the pair has no
// complete content.
fn read_pair_header<D: BlockDevice>(
    alloc: Global,
    device: &mut D,
    map: &mut BlockMap,
    at: [u32; 2],
) -> Result<Pair, MountError>
    requires { length map.old ≡ (D.geometry device.old).block_count }
    ensures read { IfOk result (IsHeaderRead (disk_of_device D.BlockDevice device.old) (D.history device.new) (address_of_array at) map.old map.new) }
    ensures broken { (before : List ThreadPair) → ThreadBeginsWith (disk_of_device D.BlockDevice device.old) map.old before (address_of_array at)
        → IfErr result (λ e. IsThreadViolation (disk_of_device D.BlockDevice device.old) e) }
    ensures reported { ReadsReportingFaults D.BlockDevice device.old device.new result }
    ensures few { OnOk result (read_count (D.history device.new) ≡ read_count (D.history device.old) + fetch_reads (disk_of_device D.BlockDevice device.old) (address_of_array at)) }
{
    let [first, second] = at;
    let block_count = device.geometry().block_count;
    if first >= block_count || second >= block_count {
        return Err(MountError::Corrupt(Violation::OutOfRange { pair: at }));
    }
    if first == second {
        return Err(MountError::Corrupt(Violation::OneBlock { pair: at }));
    }
    if !map.mark(first) {
        return Err(MountError::Corrupt(Violation::TwoPairs {
            pair: at,
            block: first,
        }));
    }
    if !map.mark(second) {
        return Err(MountError::Corrupt(Violation::TwoPairs {
            pair: at,
            block: second,
        }));
    }
    let no_content = Violation::NoContent { pair: at };
    match fetch(alloc, device, at) {
        Err(error) => Err(MountError::of(error, no_content)),
        Ok(pair) => {
            if pair.is_complete {
                Ok(pair)
            } else {
                Err(MountError::Corrupt(no_content))
            }
        }
    }
}
