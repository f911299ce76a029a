ghost use Rattle.std.specs.Prelude.{◌≡◌, ◌<◌, ◌+◌, List, ◌∷◌, length, slice_range, is_err, IfErr, OnOk};
ghost use Rattle.lfs_model.specs.format.Blocks.{Blocks, HasBlockSizes, SameExcept, block_bytes};
ghost use Rattle.lfs_model.specs.session.History.{CallEvent, call_event, LeftByLatestCall};
ghost use Rattle.lfs_model.specs.session.History.DeviceCall.{Read, Program, Erase};
ghost use Rattle.lfs_model.specs.crash.Conformance.{CallsConform};
ghost use Rattle.lfs_device.specs.declared.geometry.Geometry.{Geometry};
ghost use Rattle.lfs_device.specs.Bytes.{AreByteBlocks};
ghost use Rattle.lfs_device.specs.BlockCalls.{AsksIfBlank, CanProgram, IsWithinBlock, Programs};

use crate::{Error, Geometry};

/// A block device, such as flash. A block is erased as a whole. The bytes of a block are programmed
/// in whole pages, and each byte at most once between two erases of the block.
///
/// Blocks are numbered from 0, and an offset counts bytes from the beginning of a block. The only
/// error is `Io`, which says that the device failed in this call. No call allocates memory.
///
/// Contracts describe a device by the bytes of its blocks and by the history of its calls. The
/// history determines how many calls of each kind there were, how many of them failed, which bytes
/// are unprogrammed, and what a power loss may have left.
pub trait BlockDevice {
    /// The geometry of the device, which never changes.
    ghost geometry: { Self → Geometry };

    /// The bytes of each block of the device.
    ghost blocks: { Self → Blocks };

    /// All calls to the device so far, the newest first.
    ghost history: { Self → List CallEvent };

    /// Returns the geometry: the sizes of blocks and pages in bytes, the number of blocks, and the
    /// profile.
    fn geometry(&self) -> Geometry
        ensures { result ≡ geometry self.now };

    /// Fills the buffer with bytes from a block, starting at the offset `off`. The range must be
    /// within the block.
    ///
    /// Errors: `Io` if the device fails. After an error the buffer may hold any bytes.
    fn read(&mut self, block: u32, off: u32, buf: &mut [u8]) -> Result<(), Error>
        requires within { IsWithinBlock (geometry self.old) block off (length buf.old) }
        ensures bytes { OnOk result (buf.new ≡ slice_range (block_bytes (blocks self.old) block) off (off + length buf.old)) }
        ensures same { blocks self.new ≡ blocks self.old }
        ensures geometry { geometry self.new ≡ geometry self.old }
        ensures history { history self.new ≡ call_event (Read block off (length buf.old)) (blocks self.old) (blocks self.new) (is_err result) ∷ history self.old }
        ensures error { IfErr result (λ e. e ≡ Error.Io) };

    /// Programs whole pages of a block, starting at the offset `off`. The offset and the length
    /// must be multiples of the page size. Each byte must have been erased, or reported as blank by
    /// `is_unprogrammed`, and not been programmed since.
    ///
    /// Errors: `Io` if the device fails. After an error the pages may hold any bytes, which count
    /// as programmed.
    fn prog(&mut self, block: u32, off: u32, bytes: &[u8]) -> Result<(), Error>
        requires can { CanProgram (geometry self.old) (history self.old) block off (length bytes.now) }
        ensures programs { Programs block off bytes.now (blocks self.old) (blocks self.new) result }
        ensures geometry { geometry self.new ≡ geometry self.old }
        ensures history { history self.new ≡ call_event (Program block off bytes.now) (blocks self.old) (blocks self.new) (is_err result) ∷ history self.old }
        ensures error { IfErr result (λ e. e ≡ Error.Io) };

    /// Erases a block. After the call the block may hold any bytes, all of them unprogrammed.
    ///
    /// Errors: `Io` if the device fails. After an error the block may hold any bytes, which count
    /// as programmed.
    fn erase(&mut self, block: u32) -> Result<(), Error>
        requires { block < (geometry self.old).block_count }
        ensures others { SameExcept block (blocks self.old) (blocks self.new) }
        ensures geometry { geometry self.new ≡ geometry self.old }
        ensures history { history self.new ≡ call_event (Erase block) (blocks self.old) (blocks self.new) (is_err result) ∷ history self.old }
        ensures error { IfErr result (λ e. e ≡ Error.Io) };

    /// Returns whether the device knows that the `len` bytes at `off` haven't been programmed since
    /// the block was last erased. A driver returns true only if it is sure that the bytes read as
    /// erased and that no program of them was cut short. The default implementation always returns
    /// false.
    ///
    /// Errors: `Io` if the device fails.
    fn is_unprogrammed(&mut self, block: u32, off: u32, len: u32) -> Result<bool, Error>
        requires within { IsWithinBlock (geometry self.old) block off len }
        ensures same { blocks self.new ≡ blocks self.old }
        ensures geometry { geometry self.new ≡ geometry self.old }
        ensures asks { AsksIfBlank block off len (blocks self.old) (blocks self.new) (history self.old) (history self.new) result }
        ensures error { IfErr result (λ e. e ≡ Error.Io) }
    {
        let _ = (block, off, len);
        Ok(false)
    }

    /// The device has as many blocks as its geometry says, each of the geometry's block size.
    ghost shape: { (d : Self) → HasBlockSizes (geometry d).block_size (geometry d).block_count (blocks d) };

    /// Each block consists of bytes, which are numbers below 256.
    ghost bytes: { (d : Self) → AreByteBlocks (blocks d) };

    /// If there was a call, the blocks are as the newest call left them.
    ghost newest: { (d : Self) → LeftByLatestCall (history d) (blocks d) };

    /// Each call that didn't fail did its work and changed no other block.
    ghost conforms: { (d : Self) → CallsConform (history d) };
}
