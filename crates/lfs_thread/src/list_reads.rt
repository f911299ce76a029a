// Reads of files' blocks through the cache.

ghost use Rattle.std.specs.Prelude.{◌≡◌, ◌+◌, IfOk, length, slice_range, take};
ghost use Rattle.lfs_blocks.specs.BlockReads.{ReadsOnceUncached};
ghost use Rattle.lfs_device.specs.DeviceCalls.{ReadsOnlyOrIo};
ghost use Rattle.lfs_model.specs.format.Blocks.{block_bytes};
ghost use Rattle.lfs_model.specs.layers.Cache.{cached_bytes};
ghost use Rattle.lfs_thread.specs.Kept.{IsCacheCurrent};
ghost use Rattle.lfs_thread.specs.CachedCalls.{CanReadCached};

use lfs_blocks::Cache;
use lfs_device::{BlockDevice, Error};
use lfs_file::BlockPart;

// Reads a range of a block into the start of the buffer, through the cache. Returns the length of
// the range.
pub(crate) fn read_part_cached<D: BlockDevice>(
    device: &mut D,
    cache: &mut Cache,
    part: BlockPart,
    buf: &mut [u8],
) -> Result<usize, Error>
    requires { CanReadCached D.BlockDevice device.old cache.old part.block part.offset part.len (length buf.old) }
    ensures read { IfOk result (λ n. (n ≡ part.len) × (take n buf.new ≡ slice_range (block_bytes (D.blocks device.old) part.block) part.offset (part.offset + n))) }
    ensures current { IsCacheCurrent (D.blocks device.new) cache.new }
    ensures few { ReadsOnceUncached D.BlockDevice (cached_bytes cache.old part.block) device.old device.new }
    ensures reading { ReadsOnlyOrIo D.BlockDevice device.old device.new result }
{
    let len = part.len as usize;
    cache.read(device, part.block, part.offset, &mut buf[..len])?;
    Ok(len)
}
