ghost use Rattle.std.specs.Prelude.{◌≡◌, ◌⊎◌, ◌<◌, ◌+◌, slice_range, IfOk, IfErr};
ghost use Rattle.lfs_model.specs.format.Blocks.{block_bytes};
ghost use Rattle.lfs_device.specs.BlockCalls.{IsWithinBlock};
ghost use Rattle.lfs_device.specs.DeviceCalls.{ReadsOnce, ReadsOnly, ReportsFaults};

use crate::{BlockDevice, Error};
use std::alloc::Global;

/// Reads `len` bytes of a block into a new vector, starting at the offset `off`.
///
/// Errors: `NoMemory` if memory for the vector can't be allocated, before any device call. `Io` if
/// the read fails.
pub fn read_part<D: BlockDevice>(
    alloc: Global,
    device: &mut D,
    block: u32,
    off: u32,
    len: u32,
) -> Result<Vec<u8>, Error>
    requires within { IsWithinBlock (D.geometry device.old) block off len }
    ensures bytes { IfOk result (λ bytes. bytes.items ≡ slice_range (block_bytes (D.blocks device.old) block) off (off + len)) }
    ensures device { ReadsOnly D.BlockDevice device.old device.new }
    ensures faults { ReportsFaults D.BlockDevice device.old device.new result }
    ensures errors { IfErr result (λ e. (e ≡ Error.Io) ⊎ (e ≡ Error.NoMemory)) }

    // There is exactly one read, unless memory couldn't be allocated.
    ensures once { ReadsOnce D.BlockDevice block off len device.old device.new result }
{
    let mut bytes = Vec::from_elem(alloc, 0u8, len as usize)?;
    device.read(block, off, &mut bytes)?;
    Ok(bytes)
}

/// Reads a whole block into a new vector.
///
/// Errors: `NoMemory` if memory for the vector can't be allocated, before any device call. `Io` if
/// the read fails.
pub fn read_block<D: BlockDevice>(
    alloc: Global,
    device: &mut D,
    block: u32,
) -> Result<Vec<u8>, Error>
    requires { block < (D.geometry device.old).block_count }
    ensures bytes { IfOk result (λ bytes. bytes.items ≡ block_bytes (D.blocks device.old) block) }
    ensures device { ReadsOnly D.BlockDevice device.old device.new }
    ensures faults { ReportsFaults D.BlockDevice device.old device.new result }
    ensures errors { IfErr result (λ e. (e ≡ Error.Io) ⊎ (e ≡ Error.NoMemory)) }

    // There is exactly one read, unless memory couldn't be allocated.
    ensures once { ReadsOnce D.BlockDevice block 0 (D.geometry device.old).block_size device.old device.new result }
{
    let block_size = device.geometry().block_size;
    read_part(alloc, device, block, 0, block_size)
}
