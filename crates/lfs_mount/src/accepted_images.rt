// Mounts of devices whose images are accepted.

ghost use Rattle.std.specs.Prelude.{ℕ, Err, List, ◌≡◌, ◌≤◌, ◌<◌, ◌+◌, ◌%◌, ◌++◌, ◌∷◌, drop, length, sum_by, true, IfErr, IfNone, IfOk, IfSome, None, OnOk};
ghost use Rattle.lfs_blocks.specs.Next.{IsNextFree};
ghost use Rattle.lfs_model.specs.format.Disk.{disk_with_order};
ghost use Rattle.lfs_model.specs.layers.BlockSets.{IsFree};
ghost use Rattle.lfs_model.specs.session.History.{read_count};
ghost use Rattle.lfs_model.specs.format.Thread.{Pair as ThreadPair, count_before_root};
ghost use Rattle.lfs_model.specs.tree.View.{IsAccepted};
ghost use Rattle.lfs_model.specs.layers.Violations.{Breaks, PairsBreak};
ghost use Rattle.lfs_model.specs.declared.order.NameOrder.{NameOrder};
ghost use Rattle.lfs_model.specs.declared.order.NameOrder.TheVariants.{LongerFirst, ShorterFirst};
ghost use Rattle.lfs_model.specs.declared.violations.Violation.{Violation};
ghost use Rattle.lfs_tag.specs.FieldsView.{move_view};
ghost use Rattle.lfs_thread.specs.ThreadDevice.{GivesDeviceBack};
ghost use Rattle.lfs_thread.specs.Kept.{disk_of_device, header_pairs};
ghost use Rattle.lfs_thread.specs.MountErrors.{ReadsReportingFaults, error_of_mount};
ghost use Rattle.lfs_mount.specs.Accepted.{IsHeaderCheckResult, IsThreadCheckResult};
ghost use Rattle.lfs_mount.specs.TrueViolation.{ReportsActualViolation};
ghost use Rattle.lfs_mount.specs.Members.{AreThreadDirectories, IsThreadRead, IsHeaderThread, header_descriptions};
ghost use Rattle.lfs_mount.specs.Orders.{violation_in_order};
ghost use Rattle.lfs_mount.specs.ReadImage.{ReadsAtMostMount, IsReadImage, IsMountedImage};
ghost use Rattle.lfs_mount.specs.MountFaults.{MountMayReport};
ghost use Rattle.lfs_mount.specs.MountReads.{check_reads, pair_reads};
ghost use Rattle.lfs_mount.specs.Start.{allocation_seed, image_seed, mixed_seed};

use crate::check::check_thread;
use crate::findings::{CheckedImage, ImageFindings};
use crate::members::{describe_headers, directory_start_addresses};
use crate::moves::check_move;
use crate::orders::OrderViolations;
use crate::superblock_chain::superblock_chain_length;
use lfs_blocks::BlockMap;
use lfs_device::{BlockDevice, Error};
use lfs_pair::Pair;
use lfs_tag::MoveState;
use lfs_thread::{MountError, Thread};
use std::alloc::Global;

/// Mounts a device if its image is accepted. An accepted image follows littlefs's SPEC.md, has only
/// well-formed CTZ skip-lists, has no block with two owners, and has exactly one path to each
/// directory. If the sync bit is set, an accepted image may also have directories to which no path
/// leads. The device's profile must accept the image's version. Only reads the device. The block
/// map of the returned thread marks the blocks of the image's pairs and files as used, and no block
/// as in flight.
///
/// Finds the order by which the names in each directory are sorted. In littlefs's own code, the
/// longer of two names comes first if the other is a prefix of it (`lfs_dir_find_match`). If both
/// orders fit, the thread gets littlefs's order. The findings contain the orders that fit and the
/// index of the root directory's first pair.
///
/// Errors: `Corrupt` only if the image is accepted in neither order, with a rule that the image
/// breaks in the order of littlefs's own code. Never returns Ok for an image that is accepted in
/// neither order. `Io` if a read fails. `NoMemory` if memory can't be allocated. Every error also
/// returns the device.
pub fn mount<D: BlockDevice>(alloc: Global, device: D) -> Result<CheckedImage<D>, (D, MountError)>
    ensures mounted { IfOk result (λ m. IsMountedImage (disk_of_device D.BlockDevice device) (D.history device) m.thread m.findings) }
    ensures longer { IfOk result (λ m. m.thread.kept.disk.order ≡ ShorterFirst → (ps : List ThreadPair) → ¬ IsAccepted (disk_with_order LongerFirst (disk_of_device D.BlockDevice device)) ps) }
    ensures broken { IfErr result (λ e. ReportsActualViolation (disk_with_order LongerFirst (disk_of_device D.BlockDevice device)) e.1) }
    ensures corrupt { IfErr result (λ e. error_of_mount e.1 ≡ Error.Corrupt → (order : NameOrder) (ps : List ThreadPair) → ¬ IsAccepted (disk_with_order order (disk_of_device D.BlockDevice device)) ps) }
    ensures back { IfErr result (λ e. GivesDeviceBack D.BlockDevice device e.0 (error_of_mount e.1)) }
    // At most the reads of each pair's fetch, one more read for each pair, two further reads, and
    // one read for each block of a file's list.
    ensures few { IfOk result (λ m. ReadsAtMostMount (disk_of_device D.BlockDevice device) (D.history device) m.thread) }
{
    let mut image = read_and_check(alloc, device)?;
    match image.findings.violations.preferred_accepted_order() {
        Ok(order) => {
            image.thread.set_order(order);
            Ok(image)
        }
        Err(violation) => Err((image.thread.into_device(), MountError::Corrupt(violation))),
    }
}

/// Mounts a device as [`mount`] does, for callers that don't need to know which rule a corrupt
/// image breaks.
///
/// Errors are those of [`mount`], except that `Corrupt` doesn't contain the broken rule.
pub fn mount_image<D: BlockDevice>(alloc: Global, device: D) -> Result<CheckedImage<D>, (D, Error)>
    ensures mounted { IfOk result (λ m. IsMountedImage (disk_of_device D.BlockDevice device) (D.history device) m.thread m.findings) }
    ensures longer { IfOk result (λ m. m.thread.kept.disk.order ≡ ShorterFirst → (ps : List ThreadPair) → ¬ IsAccepted (disk_with_order LongerFirst (disk_of_device D.BlockDevice device)) ps) }
    ensures corrupt { IfErr result (λ e. e.1 ≡ Error.Corrupt → (order : NameOrder) (ps : List ThreadPair) → ¬ IsAccepted (disk_with_order order (disk_of_device D.BlockDevice device)) ps) }
    ensures errors { IfErr result (λ e. MountMayReport e.1) }
    ensures back { IfErr result (λ e. GivesDeviceBack D.BlockDevice device e.0 e.1) }
    ensures few { IfOk result (λ m. ReadsAtMostMount (disk_of_device D.BlockDevice device) (D.history device) m.thread) }
{
    match mount(alloc, device) {
        Ok(image) => Ok(image),
        Err((device, error)) => Err((device, error.into())),
    }
}

/// Reads the image of a device. For each order of names, finds a rule that the image breaks, or
/// None if the image is accepted in that order. The caller sets the thread's order of names with
/// `set_order`.
///
/// Errors: `Corrupt` if the image breaks a rule in every order of names. `Io` if a read fails.
/// `NoMemory` if memory can't be allocated. Every error also returns the device.
pub fn read_and_check<D: BlockDevice>(
    alloc: Global,
    device: D,
) -> Result<CheckedImage<D>, (D, MountError)>
    ensures read { IfOk result (λ m. IsReadImage (disk_of_device D.BlockDevice device) (D.history device) m.thread m.findings) }
    ensures broken { IfErr result (λ e. (order : NameOrder) → ReportsActualViolation (disk_with_order order (disk_of_device D.BlockDevice device)) e.1) }
    ensures back { IfErr result (λ e. GivesDeviceBack D.BlockDevice device e.0 (error_of_mount e.1)) }
{
    let thread = Thread::read(alloc, device)?;
    let state = thread.state();
    let mut parts = thread.into_parts();
    match check_image(
        alloc,
        &mut parts.device,
        &mut parts.map,
        &parts.pairs,
        &state,
    ) {
        Ok(findings) => Ok(CheckedImage {
            thread: Thread::from_parts(parts),
            findings,
        }),
        Err(error) => Err((parts.device, error)),
    }
}

// Checks an image whose thread was read, and marks the blocks of the image's files as used. Returns
// the index of the root's first pair and, for each order of names, a rule that the image breaks, or
// None. Makes the next allocation begin at another block than after an earlier mount.
fn check_image<D: BlockDevice>(
    alloc: Global,
    device: &mut D,
    map: &mut BlockMap,
    pairs: &[Pair],
    state: &MoveState,
) -> Result<ImageFindings, MountError>
    requires { IsThreadRead (disk_of_device D.BlockDevice device.old) (D.history device.old) pairs.now map.old (move_view state.now) }
    ensures root { IfOk result (λ found. found.root ≡ count_before_root (header_pairs (disk_of_device D.BlockDevice device.old) pairs.now)) }
    ensures image { IfOk result (λ found. (order : NameOrder) → IsHeaderCheckResult (disk_with_order order (disk_of_device D.BlockDevice device.old)) pairs.now (violation_in_order order found.violations) map.old map.new) }
    ensures broken { (v : Violation) → result ≡ Err (MountError.Corrupt v) → (order : NameOrder) → Breaks (disk_with_order order (disk_of_device D.BlockDevice device.old)) v }
    ensures device { ReadsReportingFaults D.BlockDevice device.old device.new result }
    ensures few { IfOk result (λ found. (order : NameOrder) → violation_in_order order found.violations ≡ None
        → read_count (D.history device.new) ≤ read_count (D.history device.old) + check_reads (disk_of_device D.BlockDevice device.old) (header_pairs (disk_of_device D.BlockDevice device.old) pairs.now)) }
{
    let root = superblock_chain_length(alloc, device, pairs)?;
    let directories = pairs_from_index(pairs, root);
    check_move(state, directories)?;
    let violations = check_directories(alloc, device, map, directories, state)?;
    seed_allocation_start(map, pairs, device.geometry().profile.search_seed);
    Ok(ImageFindings { root, violations })
}

// Returns the number of used blocks plus the revision counts of all pairs. The sum is likely to
// differ from mount to mount.
fn image_seed(map: &BlockMap, pairs: &[Pair]) -> u32
    ensures { result ≡ image_seed map.now pairs.now }
{
    let mut number = map.used_count();
    for pair in pairs {
        number = number.wrapping_add(pair.revision);
    }
    number
}

// Mixes a number as the last step of MurmurHash3 does. The seeds of successive mounts may be close
// to each other; after the mix they are spread over the blocks.
fn mixed_seed(number: u32) -> u32
    ensures { result ≡ mixed_seed number }
{
    let first = (number ^ (number >> 16)).wrapping_mul(0x85eb_ca6b);
    let second = (first ^ (first >> 13)).wrapping_mul(0xc2b2_ae35);
    second ^ (second >> 16)
}

// Makes the map's next allocation begin at another block after each mount, so that wear spreads.
// Returns that block. The profile's seed `own` is mixed into the choice.
fn seed_allocation_start(map: &mut BlockMap, pairs: &[Pair], own: u32) -> Option<u32>
    ensures next { IfSome result (IsNextFree map.old (allocation_seed own map.old pairs.now % length map.old)) }
    ensures none { IfNone result ((block : ℕ) → ¬ (IsFree map.old block)) }
    ensures same { map.new ≡ map.old }
{
    let seed = mixed_seed(image_seed(map, pairs).wrapping_add(own));
    map.start_search_at(seed)
}

// Returns the pairs from `index` on.
fn pairs_from_index(pairs: &[Pair], index: usize) -> &[Pair]
    requires { index ≤ length pairs.now }
    ensures { result.now ≡ drop index pairs.now }
{
    &pairs[index..]
}

// Checks the slots of the directories' pairs, and marks the blocks of the directories' files as
// used. Returns, for each order of names, a rule that the directories break, or None.
fn check_directories<D: BlockDevice>(
    alloc: Global,
    device: &mut D,
    map: &mut BlockMap,
    pairs: &[Pair],
    state: &MoveState,
) -> Result<OrderViolations, MountError>
    requires { AreThreadDirectories (disk_of_device D.BlockDevice device.old) map.old (move_view state.now) pairs.now }
    ensures ok { IfOk result (λ found. (order : NameOrder) (chain : List ThreadPair) (p : ThreadPair) (rest : List ThreadPair)
        → IsHeaderThread (disk_with_order order (disk_of_device D.BlockDevice device.old)) map.old (move_view state.now) pairs.now chain p rest
        → IsThreadCheckResult (disk_with_order order (disk_of_device D.BlockDevice device.old)) (violation_in_order order found) map.old map.new chain p rest) }
    ensures broken { (v : Violation) → result ≡ Err (MountError.Corrupt v) → (order : NameOrder) (chain : List ThreadPair) (p : ThreadPair) (rest : List ThreadPair)
        → IsHeaderThread (disk_with_order order (disk_of_device D.BlockDevice device.old)) map.old (move_view state.now) pairs.now chain p rest
        → PairsBreak (disk_with_order order (disk_of_device D.BlockDevice device.old)) (chain ++ p ∷ rest) v }
    ensures device { ReadsReportingFaults D.BlockDevice device.old device.new result }
    ensures few { OnOk result (read_count (D.history device.new) ≤ read_count (D.history device.old) + sum_by (pair_reads (disk_of_device D.BlockDevice device.old)) (header_descriptions (move_view state.now) true pairs.now)) }
{
    let Ok(members) = describe_headers(alloc, state, pairs) else {
        return Err(MountError::NoMemory);
    };
    let Ok(places) = directory_start_addresses(alloc, pairs) else {
        return Err(MountError::NoMemory);
    };
    check_thread(alloc, device, map, &places, &members, state.sync)
}
