// The check of a thread's slots and directories.

ghost use Rattle.std.specs.Prelude.{Err, List, ◌≡◌, ◌≤◌, ◌+◌, ◌++◌, ◌∷◌, IfOk, OnOk, sum_by};
ghost use Rattle.lfs_model.specs.format.Disk.{disk_with_order};
ghost use Rattle.lfs_model.specs.session.History.{read_count};
ghost use Rattle.lfs_model.specs.format.Thread.{Pair};
ghost use Rattle.lfs_model.specs.layers.Violations.{PairsBreak};
ghost use Rattle.lfs_model.specs.declared.order.NameOrder.{NameOrder};
ghost use Rattle.lfs_model.specs.declared.violations.Violation.{Violation};
ghost use Rattle.lfs_mount.specs.Checked.{DescribesThread, IsDescribedThread};
ghost use Rattle.lfs_mount.specs.Accepted.{IsThreadCheckResult};
ghost use Rattle.lfs_thread.specs.Kept.{disk_of_device};
ghost use Rattle.lfs_thread.specs.MountErrors.{ReadsReportingFaults};
ghost use Rattle.lfs_mount.specs.Orders.{violation_in_order};
ghost use Rattle.lfs_mount.specs.MountReads.{pair_reads};

use crate::orders::OrderViolations;
use crate::pass::{DirectoryPairHeader, scan_pairs};
use crate::reachability::find_directory_violations;
use lfs_blocks::BlockMap;
use lfs_device::BlockDevice;
use lfs_thread::{MountError, PairAddressList};
use std::alloc::Global;

// Checks the slots of a thread whose headers were read, and marks the blocks of its files as used
// in `map`. Requires that only the pairs' blocks are used in `map` before the call, and that all
// other blocks are free.
//
// `members` are the pairs from the root's first pair on, in the thread's order. `places` are the
// addresses of the directories. `sync` is the sync bit of the global state.
//
// Returns, for each order of names, a rule that the directories break, or None. Assumes that the
// superblock's pairs and the global state's move are valid. If no rule is broken in an order, the
// image is accepted in that order, and the map marks exactly the image's blocks as used.
//
// Errors: `Corrupt` if a slot has no valid entry (`Entry`, `Move`), a file's list isn't well formed
// (`List`), or a block has two owners (`TwoOwners`). The image then breaks a rule in every order of
// names (SPEC.md of littlefs, "Metadata types"; DESIGN.md, "CTZ skip-lists" and "The move
// problem"). `NoMemory` if memory can't be allocated. `Io` if a read fails. After an error, the map
// is unspecified.
pub(crate) fn check_thread<D: BlockDevice>(
    alloc: Global,
    device: &mut D,
    map: &mut BlockMap,
    places: &PairAddressList,
    members: &[DirectoryPairHeader],
    sync: bool,
) -> Result<OrderViolations, MountError>
    requires { DescribesThread (disk_of_device D.BlockDevice device.old) map.old places.now members.now sync }
    ensures ok { IfOk result (λ found. (order : NameOrder) (chain : List Pair) (p : Pair) (rest : List Pair)
        → IsDescribedThread (disk_with_order order (disk_of_device D.BlockDevice device.old)) map.old places.now members.now sync chain p rest
        → IsThreadCheckResult (disk_with_order order (disk_of_device D.BlockDevice device.old)) (violation_in_order order found) map.old map.new chain p rest) }
    ensures broken { (v : Violation) → result ≡ Err (MountError.Corrupt v) → (order : NameOrder) (chain : List Pair) (p : Pair) (rest : List Pair)
        → IsDescribedThread (disk_with_order order (disk_of_device D.BlockDevice device.old)) map.old places.now members.now sync chain p rest
        → PairsBreak (disk_with_order order (disk_of_device D.BlockDevice device.old)) (chain ++ p ∷ rest) v }
    ensures device { ReadsReportingFaults D.BlockDevice device.old device.new result }
    // One read for each pair, and the reads of the files' lists.
    ensures few { OnOk result (read_count (D.history device.new) ≤ read_count (D.history device.old) + sum_by (pair_reads (disk_of_device D.BlockDevice device.old)) members.now) }
{
    let directories = scan_pairs(alloc, device, map, places, members)?;
    let found = find_directory_violations(alloc, &directories, places.addresses(), sync)?;
    Ok(found)
}
