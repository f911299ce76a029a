// The trait of a flash driver, and a block device that calls the driver.

ghost use Rattle.std.specs.Prelude.{◌≡◌, ◌<◌, ◌+◌, ◌∷◌, length, slice_range, is_err, IfErr, MatchResult, OnOk};
ghost use Rattle.lfs_model.specs.format.Blocks.{SameExcept, block_bytes};
ghost use Rattle.lfs_model.specs.format.Geometry.{IsValidGeometry};
ghost use Rattle.lfs_model.specs.session.History.{call_event};
ghost use Rattle.lfs_model.specs.session.History.DeviceCall.{Read, Program, Erase};
ghost use Rattle.lfs_device.specs.BlockCalls.{AsksIfBlank, Programs};
ghost use Rattle.littlefs_flash.specs.Chips.{CanProgramChip, IsWithinChip, KeepsSizes};
ghost use Rattle.littlefs_flash.specs.Status.{blank_result, status_result};

use crate::chip::Chip;
use lfs_device::{BlockDevice, Error, Geometry, Profile};
use std::marker::PhantomData;

/// A flash driver: four functions, which may be written in C. The functions have the contracts of
/// `BlockDevice`, stated for a chip. Each function returns a status that says whether the flash
/// failed.
pub trait Flash {
    /// Reads bytes of a block, from the offset `off` on, into the buffer. Returns 0 on success, and
    /// any other number on failure. After a failure, the buffer may contain any bytes.
    fn read(chip: &mut Chip, block: u32, off: u32, buf: &mut [u8]) -> u32
        requires { IsWithinChip chip.old block off (length buf.old) }
        ensures bytes { OnOk (status_result result) (buf.new ≡ slice_range (block_bytes chip.old.state.blocks block) off (off + length buf.old)) }
        ensures same { chip.new.state.blocks ≡ chip.old.state.blocks }
        ensures sizes { KeepsSizes chip.old chip.new }
        ensures history { chip.new.state.history
            ≡ call_event (Read block off (length buf.old)) chip.old.state.blocks chip.new.state.blocks (is_err (status_result result)) ∷ chip.old.state.history };

    /// Programs whole pages of a block, from the offset `off` on. The caller passes only pages that
    /// haven't been programmed since the block was erased. Returns 0 on success, and any other
    /// number on failure. After a failure, the programmed pages may contain any bytes. No other
    /// bytes change.
    fn prog(chip: &mut Chip, block: u32, off: u32, bytes: &[u8]) -> u32
        requires { CanProgramChip chip.old block off (length bytes.now) }
        ensures programs { Programs block off bytes.now chip.old.state.blocks chip.new.state.blocks (status_result result) }
        ensures sizes { KeepsSizes chip.old chip.new }
        ensures history { chip.new.state.history
            ≡ call_event (Program block off bytes.now) chip.old.state.blocks chip.new.state.blocks (is_err (status_result result)) ∷ chip.old.state.history };

    /// Erases a block. Returns 0 on success, and any other number on failure. After a success, the
    /// block may contain any bytes, which count as unprogrammed. After a failure, the block's bytes
    /// count as programmed. No other block changes.
    fn erase(chip: &mut Chip, block: u32) -> u32
        requires { block < chip.old.block_count }
        ensures others { SameExcept block chip.old.state.blocks chip.new.state.blocks }
        ensures sizes { KeepsSizes chip.old chip.new }
        ensures history { chip.new.state.history
            ≡ call_event (Erase block) chip.old.state.blocks chip.new.state.blocks (is_err (status_result result)) ∷ chip.old.state.history };

    /// Returns 1 if none of `len` bytes of a block, from the offset `off` on, has been programmed
    /// since the block was erased. Returns 0 if the driver can't be sure that the bytes are
    /// unprogrammed, and any other number if the flash failed.
    fn is_blank(chip: &mut Chip, block: u32, off: u32, len: u32) -> u32
        requires { IsWithinChip chip.old block off len }
        ensures same { chip.new.state.blocks ≡ chip.old.state.blocks }
        ensures sizes { KeepsSizes chip.old chip.new }
        ensures asks { AsksIfBlank block off len chip.old.state.blocks chip.new.state.blocks chip.old.state.history chip.new.state.history (blank_result result) };
}

// Returns Ok for the status 0, and `Io` for any other.
fn result_of_status(status: u32) -> Result<(), Error>
    ensures is { result ≡ status_result status }
    ensures error { IfErr result (λ e. e ≡ Error.Io) }
{
    match status {
        0 => Ok(()),
        _ => Err(Error::Io),
    }
}

// Returns false for the answer 0, true for 1, and `Io` for any other.
fn result_of_blank(answer: u32) -> Result<bool, Error>
    ensures is { result ≡ blank_result answer }
    ensures error { IfErr result (λ e. e ≡ Error.Io) }
{
    match answer {
        0 => Ok(false),
        1 => Ok(true),
        _ => Err(Error::Io),
    }
}

/// A block device that accesses a chip through its driver's functions.
#[derive(Drop)]
pub struct FlashDevice<F: Flash> {
    geometry: Geometry,
    chip: Chip,
    driver: PhantomData<F>,
    ghost block_size: { geometry.block_size ≡ chip.block_size },
    ghost page: { geometry.page ≡ chip.page },
    ghost block_count: { geometry.block_count ≡ chip.block_count },
}

impl<F: Flash> FlashDevice<F> {
    /// Returns a device for a chip, with the given profile. Returns the chip as the error if its
    /// sizes are out of range.
    pub fn new(chip: Chip, profile: Profile) -> Result<FlashDevice<F>, Chip>
        ensures { MatchResult result
            (λ d. (d.chip ≡ chip) × (d.geometry.profile ≡ profile))
            (λ back. (back ≡ chip) × (¬ IsValidGeometry chip.block_size chip.page chip.block_count)) }
    {
        match Geometry::new(chip.block_size, chip.page, chip.block_count) {
            Ok(geometry) => Ok(FlashDevice {
                geometry: geometry.with_profile(profile),
                chip,
                driver: PhantomData,
            }),
            Err(_) => Err(chip),
        }
    }

    /// Consumes the device, and returns its chip.
    pub fn into_chip(self) -> Chip
        ensures { result ≡ self.chip }
    {
        self.chip
    }
}

impl<F: Flash> BlockDevice for FlashDevice<F> {
    ghost use Rattle.std.proofs.Common.{sym};
    ghost use Rattle.littlefs_flash.specs.Sizes.{sized_by};

    ghost geometry = { λ d. d.geometry };

    ghost blocks = { λ d. d.chip.state.blocks };

    ghost history = { λ d. d.chip.state.history };

    ghost shape = { λ d. sized_by (sym d.block_size) (sym d.block_count) d.chip.shape };

    ghost bytes = { λ d. d.chip.bytes };

    ghost newest = { λ d. d.chip.newest };

    ghost conforms = { λ d. d.chip.conforms };

    fn geometry(&self) -> Geometry {
        self.geometry
    }

    fn read(&mut self, block: u32, off: u32, buf: &mut [u8]) -> Result<(), Error> {
        result_of_status(F::read(&mut self.chip, block, off, buf))
    }

    fn prog(&mut self, block: u32, off: u32, bytes: &[u8]) -> Result<(), Error> {
        result_of_status(F::prog(&mut self.chip, block, off, bytes))
    }

    fn erase(&mut self, block: u32) -> Result<(), Error> {
        result_of_status(F::erase(&mut self.chip, block))
    }

    fn is_unprogrammed(&mut self, block: u32, off: u32, len: u32) -> Result<bool, Error> {
        result_of_blank(F::is_blank(&mut self.chip, block, off, len))
    }
}
