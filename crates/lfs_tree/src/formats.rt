// Formatting: an empty file system on a device.

ghost use Rattle.std.specs.Prelude.{◌≡◌, ◌≤◌, ◌+◌, [], false, IfErr, IfOk, OnOk};
ghost use Rattle.lfs_device.specs.DeviceCalls.{ChangesTheseBlocks, ReportsFaults};
ghost use Rattle.lfs_model.specs.session.History.{erase_count};
ghost use Rattle.lfs_model.specs.format.Thread.{superblock_pair_address, address_blocks};
ghost use Rattle.lfs_pair.specs.ChangeView.{changes_view};
ghost use Rattle.lfs_pair.specs.FreshPair.{IsWriteError};
ghost use Rattle.lfs_thread.specs.Kept.{disk_of_device, kept_in_order};
ghost use Rattle.lfs_thread.specs.ThreadSteps.{ChangesThreadBlocks};
ghost use Rattle.lfs_tree.specs.Formats.{IsFormatError, ErasesTwoBlocks, IsFormattedMap, IsRootHeader, IsRootThread, IsFreshlyFormatted, IsEmptyWritable, superblock_slot_changes};

use lfs_blocks::{BlockMap, Cache};
use lfs_device::{BlockDevice, Error};
use lfs_model::NameOrder;
use lfs_pair::{Change, Pair};
use lfs_tag::kinds::{INLINE_STRUCT, SUPERBLOCK_NAME};
use lfs_tag::{Superblock, superblock_bytes};
use lfs_thread::{Thread, ThreadParts};
use std::alloc::Global;

// The blocks of the first metadata pair in the threaded list.
const ROOT: [u32; 2] = [0, 1];

// Returns the changes that write the superblock to slot 0.
fn superblock_changes<'a>(structure: &'a [u8; 24]) -> [Change<'a>; 2]
    ensures { changes_view result ≡ superblock_slot_changes structure.now }
{
    [
        Change::Create {
            id: 0,
            kind: SUPERBLOCK_NAME,
            name: Superblock::NAME,
        },
        Change::Struct {
            id: 0,
            kind: INLINE_STRUCT,
            bytes: structure,
        },
    ]
}

// Writes a metadata pair that contains only the superblock to blocks 0 and 1.
fn write_root_pair<D: BlockDevice>(alloc: Global, device: &mut D) -> Result<Pair, Error>
    ensures root { IfOk result (λ pair. IsRootHeader (disk_of_device D.BlockDevice device.new) (D.history device.new) pair) }
    ensures erases { OnOk result (erase_count (D.history device.new) ≡ erase_count (D.history device.old) + 2) }
    ensures error { IfErr result (λ e. IsWriteError device.old device.new e) }
    ensures device { ChangesTheseBlocks D.BlockDevice (address_blocks superblock_pair_address) device.old device.new }
    ensures faults { ReportsFaults D.BlockDevice device.old device.new result }
{
    let geometry = device.geometry();
    let structure = superblock_bytes(&Superblock::fresh_superblock(&geometry));
    let changes = superblock_changes(&structure);
    let pair = Pair::fresh(alloc, device, ROOT, &changes)?;
    Ok(pair)
}

// Writes the superblock's pair and makes it the only pair of the threaded list.
fn write_root_thread<D: BlockDevice>(
    alloc: Global,
    device: &mut D,
    pairs: &mut Vec<Pair>,
) -> Result<(), Error>
    requires none { pairs.old.items ≡ [] }
    ensures root { OnOk result (IsRootThread (disk_of_device D.BlockDevice device.new) (D.history device.new) pairs.new.items) }
    ensures erases { OnOk result (erase_count (D.history device.new) ≡ erase_count (D.history device.old) + 2) }
    ensures error { IfErr result (λ e. IsWriteError device.old device.new e) }
    ensures device { ChangesTheseBlocks D.BlockDevice (address_blocks superblock_pair_address) device.old device.new }
    ensures faults { ReportsFaults D.BlockDevice device.old device.new result }
{
    // Allocate memory for the header before anything is written.
    pairs.reserve(1)?;
    let pair = write_root_pair(alloc, device)?;
    pairs.push(pair)?;
    Ok(())
}

// Makes an empty cache, and a map of `block_count` blocks in which only the first two are used.
fn map_after_format(alloc: Global, block_count: u32) -> Result<(Cache, BlockMap), Error>
    requires { 2 ≤ block_count }
    ensures empty { IfOk result (λ parts. parts.0 ≡ []) }
    ensures map { IfOk result (λ parts. IsFormattedMap block_count parts.1) }
    ensures error { IfErr result (λ e. e ≡ Error.NoMemory) }
{
    let cache = Cache::new(alloc)?;
    let mut map = BlockMap::new(alloc, block_count)?;
    map.mark(ROOT[0]);
    map.mark(ROOT[1]);
    Ok((cache, map))
}

/// Makes an empty file system on a device, whatever the device contains. Erases both blocks of the
/// metadata pair {0, 1} and writes the superblock to the first one with revision count 1 (see
/// "0x0ff LFS_TYPE_SUPERBLOCK" in littlefs's SPEC.md). The superblock has version 2.0, the device's
/// block size in bytes and its block count. The superblock also has limits on the lengths of names,
/// files and attributes in bytes. These limits are 255, 2,147,483,647 and 1,022 unless the device's
/// profile lowers them. The root directory is empty, and the image may be written. Directories will
/// store their names in the order `order`. The image doesn't record the order of names, but a mount
/// infers it from the names.
///
/// Writes no block except 0 and 1. A power loss during the call leaves all other blocks unchanged.
///
/// Errors: `Io` if a device call fails; blocks 0 and 1 may then contain any bytes. `NoMemory` if
/// memory for the map, the headers or a block can't be allocated; in this case nothing is written.
/// An error also returns the device.
pub fn format<D: BlockDevice>(
    alloc: Global,
    mut device: D,
    order: NameOrder,
) -> Result<Thread<D>, (D, Error)>
    ensures works { IfOk result (λ t. t.failed ≡ false) }
    ensures formatted { IfOk result (λ t. IsFreshlyFormatted t.kept) }
    ensures shows { IfOk result (λ t. IsEmptyWritable t.kept) }
    ensures writes { IfOk result (λ t. ChangesThreadBlocks (address_blocks superblock_pair_address) (kept_in_order D.BlockDevice order device [] []) t.kept) }
    ensures calls { IfOk result (λ t. ErasesTwoBlocks (D.history device) t.kept.history) }
    ensures back { IfErr result (λ e. IsFormatError D.BlockDevice (address_blocks superblock_pair_address) device e.0 e.1) }
{
    let block_count = device.geometry().block_count;
    let mut pairs = Vec::new(alloc);
    let (cache, map) = match map_after_format(alloc, block_count) {
        Ok(parts) => parts,
        Err(error) => return Err((device, error)),
    };
    match write_root_thread(alloc, &mut device, &mut pairs) {
        Ok(()) => Ok(Thread::from_parts(ThreadParts {
            device,
            order,
            cache,
            pairs,
            map,
        })),
        Err(error) => Err((device, error)),
    }
}
