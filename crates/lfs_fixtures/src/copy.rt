ghost use Rattle.std.specs.Prelude.{◌≡◌, ◌⊎◌, ◌+◌, ◌/◌, ◌<◌, IfErr, OnOk, IsErrOf, slice_set};
ghost use Rattle.lfs_device.specs.DeviceCalls.{ChangesOneBlock, ReportsFaults};
ghost use Rattle.lfs_model.specs.format.Blocks.{block_bytes};
ghost use Rattle.lfs_model.specs.session.History.{erase_count, program_count};

use lfs_device::{BlockDevice, Error, read_block};
use std::alloc::Global;

/// Copies the block `from` to the block `to`, which is first erased and then programmed one page at
/// a time.
///
/// Errors: `NoMemory` if memory for the bytes of a block can't be allocated, before any device
/// call. `Io` if a device call fails. After `Io`, and after a power loss at any time, `to` may hold
/// any bytes, and every other block is unchanged.
pub fn copy_block<D: BlockDevice>(
    alloc: Global,
    device: &mut D,
    from: u32,
    to: u32,
) -> Result<(), Error>
    requires from { from < (D.geometry device.old).block_count }
    requires to { to < (D.geometry device.old).block_count }
    ensures copied { OnOk result (D.blocks device.new ≡ slice_set (D.blocks device.old) to (block_bytes (D.blocks device.old) from)) }
    ensures device { ChangesOneBlock D.BlockDevice to device.old device.new }
    ensures erases { OnOk result (erase_count (D.history device.new) ≡ erase_count (D.history device.old) + 1) }
    ensures programs { OnOk result (program_count (D.history device.new)
        ≡ program_count (D.history device.old) + (D.geometry device.old).block_size / (D.geometry device.old).page) }
    ensures faults { ReportsFaults D.BlockDevice device.old device.new result }
    ensures errors { IfErr result (λ e. (e ≡ Error.Io) ⊎ (e ≡ Error.NoMemory)) }
    ensures no_memory { IsErrOf result Error.NoMemory → D.history device.new ≡ D.history device.old }
{
    let geometry = device.geometry();
    let bytes = read_block(alloc, device, from)?;
    device.erase(to)?;
    for page in 0..geometry.block_size / geometry.page {
        let off = page * geometry.page;
        let end = off + geometry.page;
        device.prog(to, off, &bytes[off as usize..end as usize])?;
    }
    Ok(())
}
