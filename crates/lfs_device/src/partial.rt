ghost use Rattle.std.specs.Prelude.{◌≡◌, ◌≤◌, ◌<◌, ◌+◌, length, take, slice_range, is_err, Err, IfSome, IfErr, OnOk, OnErr};
ghost use Rattle.lfs_model.specs.format.Blocks.{block_bytes, programmed};
ghost use Rattle.lfs_model.specs.session.History.{fault_count};
ghost use Rattle.lfs_model.specs.session.History.DeviceCall.{Read, Program, Erase};
ghost use Rattle.lfs_device.specs.DeviceCalls.{ReadsOnly};
ghost use Rattle.lfs_device.specs.BlockCalls.{CanProgram, IsWithinBlock};
ghost use Rattle.lfs_device.specs.CallsBelow.{AddsNoFault, HoldsIfCallDone, EraseKeepsFirstBytes, ForwardsUnlessFaulted, bytes_stored_at_fault};
ghost use Rattle.lfs_device.specs.Partial.{ChangesOnlyErasedBlock, ChangesOnlyRange, IsUnprogrammedPage};

use crate::fault::FaultExtent;
use crate::{BlockDevice, Error};

/// Reads bytes if no fault is due. If a fault is due, does the part of the read that `due` says,
/// and returns `Io`.
pub(crate) fn read_as_planned<D: BlockDevice>(
    device: &mut D,
    due: Option<FaultExtent>,
    block: u32,
    off: u32,
    buf: &mut [u8],
) -> Result<(), Error>
    requires within { IsWithinBlock (D.geometry device.old) block off (length buf.old) }
    ensures carried { ForwardsUnlessFaulted ⟦<D as BlockDevice>⟧ due (Read block off (length buf.old)) (is_err result) device.old device.new }
    ensures bytes { HoldsIfCallDone D.BlockDevice due device.old device.new result (buf.new ≡ slice_range (block_bytes (D.blocks device.old) block) off (off + length buf.old)) }
    ensures device { ReadsOnly D.BlockDevice device.old device.new }
    ensures error { IfErr result (λ e. e ≡ Error.Io) }
    ensures faults { fault_count (D.history device.old) ≤ fault_count (D.history device.new) }
{
    match due {
        None => device.read(block, off, buf),
        Some(FaultExtent::Whole) => {
            let _ = device.read(block, off, buf);
            Err(Error::Io)
        }
        Some(_) => Err(Error::Io),
    }
}

/// Programs bytes if no fault is due. If a fault is due, does the part of the program that `due`
/// says, and returns `Io`.
pub(crate) fn program_as_planned<D: BlockDevice>(
    device: &mut D,
    due: Option<FaultExtent>,
    block: u32,
    off: u32,
    bytes: &[u8],
) -> Result<(), Error>
    requires can { CanProgram (D.geometry device.old) (D.history device.old) block off (length bytes.now) }
    ensures carried { ForwardsUnlessFaulted ⟦<D as BlockDevice>⟧ due (Program block off bytes.now) (is_err result) device.old device.new }
    ensures stored { IfSome due (λ extent. AddsNoFault ⟦<D as BlockDevice>⟧ device.old device.new
        → D.blocks device.new ≡ programmed (D.blocks device.old) block off (bytes_stored_at_fault extent bytes.now)) }
    ensures ok { OnOk result (D.blocks device.new ≡ programmed (D.blocks device.old) block off bytes.now) }
    ensures part { ChangesOnlyRange D.BlockDevice block off (off + length bytes.now) device.old device.new }
    ensures error { IfErr result (λ e. e ≡ Error.Io) }
{
    match due {
        None => device.prog(block, off, bytes),
        Some(FaultExtent::Nothing) => Err(Error::Io),
        Some(FaultExtent::AllButFirst(_)) => Err(Error::Io),
        Some(FaultExtent::FirstBytes(k)) => {
            let _ = program_first_bytes(device, block, off, bytes, k);
            Err(Error::Io)
        }
        Some(FaultExtent::Whole) => {
            let _ = device.prog(block, off, bytes);
            Err(Error::Io)
        }
    }
}

/// Erases a block if no fault is due. If a fault is due, does the part of the erase that `due`
/// says, and returns `Io`.
pub(crate) fn erase_as_planned<D: BlockDevice>(
    device: &mut D,
    due: Option<FaultExtent>,
    block: u32,
    buffer: &mut Option<Vec<u8>>,
) -> Result<(), Error>
    requires { block < (D.geometry device.old).block_count }
    ensures carried { ForwardsUnlessFaulted ⟦<D as BlockDevice>⟧ due (Erase block) (is_err result) device.old device.new }
    ensures kept { EraseKeepsFirstBytes ⟦<D as BlockDevice>⟧ due block device.old device.new }
    ensures block { ChangesOnlyErasedBlock D.BlockDevice block device.old device.new result }
    ensures error { IfErr result (λ e. e ≡ Error.Io) }
{
    match due {
        None => device.erase(block),
        Some(FaultExtent::AllButFirst(k)) => {
            erase_keeping_first(device, block, k, buffer);
            Err(Error::Io)
        }
        Some(FaultExtent::Whole) => {
            let _ = device.erase(block);
            Err(Error::Io)
        }
        Some(_) => Err(Error::Io),
    }
}

// Erases a block, and then programs the first `k` bytes that the block had before. Does nothing
// unless there is a buffer of exactly a block's size.
fn erase_keeping_first<D: BlockDevice>(
    device: &mut D,
    block: u32,
    k: u32,
    buffer: &mut Option<Vec<u8>>,
)
    requires { block < (D.geometry device.old).block_count }
    ensures kept { AddsNoFault ⟦<D as BlockDevice>⟧ device.old device.new → take k (block_bytes (D.blocks device.new) block) ≡ take k (block_bytes (D.blocks device.old) block) }
    ensures block { ChangesOnlyErasedBlock D.BlockDevice block device.old device.new (Err Error.Io) }
{
    let block_size = device.geometry().block_size as usize;
    if let Some(bytes) = buffer {
        if bytes.len() == block_size {
            let _ = erase_with_buffer(device, block, k, bytes);
        }
    }
}

// Erases a block, and then programs the first `k` bytes that the block had before. The buffer has a
// block's size.
fn erase_with_buffer<D: BlockDevice>(
    device: &mut D,
    block: u32,
    k: u32,
    bytes: &mut [u8],
) -> Result<(), Error>
    requires in_device { block < (D.geometry device.old).block_count }
    requires long { length bytes.old ≡ (D.geometry device.old).block_size }
    ensures kept { OnOk result (take k (block_bytes (D.blocks device.new) block) ≡ take k (block_bytes (D.blocks device.old) block)) }
    ensures block { ChangesOnlyErasedBlock D.BlockDevice block device.old device.new (Err Error.Io) }
    ensures err { OnErr result (fault_count (D.history device.old) < fault_count (D.history device.new)) }
{
    device.read(block, 0, bytes)?;
    device.erase(block)?;
    program_first_bytes(device, block, 0, bytes, k)
}

/// Programs the first `k` of the given bytes, or all of them if there are fewer. Leaves all other
/// bytes unchanged.
pub(crate) fn program_first_bytes<D: BlockDevice>(
    device: &mut D,
    block: u32,
    off: u32,
    bytes: &[u8],
    k: u32,
) -> Result<(), Error>
    requires can { CanProgram (D.geometry device.old) (D.history device.old) block off (length bytes.now) }
    ensures ok { OnOk result (D.blocks device.new ≡ programmed (D.blocks device.old) block off (take k bytes.now)) }
    ensures part { ChangesOnlyRange D.BlockDevice block off (off + length bytes.now) device.old device.new }
    ensures err { OnErr result (fault_count (D.history device.old) < fault_count (D.history device.new)) }
{
    let stored = (k as usize).min(bytes.len());
    let page = device.geometry().page as usize;
    let whole = stored - stored % page;
    device.prog(block, off, &bytes[..whole])?;
    if whole == stored {
        return Ok(());
    }
    program_partial_page(device, block, off + whole as u32, &bytes[whole..stored])
}

// Programs the given bytes at the beginning of a page, and the rest of the page with the bytes that
// it already holds.
fn program_partial_page<D: BlockDevice>(
    device: &mut D,
    block: u32,
    off: u32,
    bytes: &[u8],
) -> Result<(), Error>
    requires in_page { length bytes.now ≤ (D.geometry device.old).page }
    requires page { IsUnprogrammedPage (D.geometry device.old) (D.history device.old) block off }
    ensures ok { OnOk result (D.blocks device.new ≡ programmed (D.blocks device.old) block off bytes.now) }
    ensures part { ChangesOnlyRange D.BlockDevice block off (off + (D.geometry device.old).page) device.old device.new }
    ensures err { OnErr result (fault_count (D.history device.old) < fault_count (D.history device.new)) }
{
    let mut buffer = [0u8; 512];
    let page = &mut buffer[..device.geometry().page as usize];
    device.read(block, off, page)?;
    page[..bytes.len()].copy_from_slice(bytes);
    device.prog(block, off, page)?;
    Ok(())
}
