ghost use Rattle.std.specs.Prelude.{◌≡◌, ◌≤◌, ◌<◌, ◌+◌, ◌*◌, [], ◌∷◌, false, true, length, replicate, slice_range, IsOk, IfOk, OnErr, MatchResult};
ghost use Rattle.lfs_model.specs.format.Blocks.{SameExcept, block_bytes, cut, overwritten_at, programmed};
ghost use Rattle.lfs_model.specs.session.History.{call_event, fault_count, LeftByLatestCall};
ghost use Rattle.lfs_model.specs.session.History.DeviceCall.{Read, Program, Erase, Blank};
ghost use Rattle.lfs_model.specs.crash.Conformance.{CallsConform};
ghost use Rattle.lfs_model.specs.crash.Premises.{MeetsPowerLossPremises};
ghost use Rattle.lfs_device.specs.Bytes.{ElementsAreBytes};
ghost use Rattle.lfs_device.specs.DevicePremises.{AreReliableDevices};
ghost use Rattle.lfs_device.specs.Erased.{FillIsByte, erased_bytes, erased_range};

use crate::{BlockDevice, Error, Geometry, Trace};
use std::alloc::Global;

/// The values of a block's bytes after a successful erase.
#[derive(Clone, Copy, Debug, PartialEq, Eq)]
pub enum Erased {
    /// Each byte has this value, such as the 0xff of erased flash.
    Fill(u8),
    /// Each byte keeps its value from before the erase.
    Keep,
}

/// A block device in memory, whose reads, programs and erases allocate no memory and never fail.
#[derive(Drop)]
pub struct RamDevice {
    geometry: Geometry,
    bytes: Vec<u8>,
    erased: Erased,
    // Whether `is_unprogrammed` may return true.
    checks_blanks: bool,
    trace: Trace,
    ghost are_bytes: { ElementsAreBytes bytes.items },
    ghost size: { length bytes.items ≡ geometry.block_size * geometry.block_count },
    pub ghost no_fault: { fault_count trace.events ≡ 0 },
    ghost newest: { LeftByLatestCall trace.events (cut geometry.block_size geometry.block_count bytes.items) },
    ghost conforms: { CallsConform trace.events },
    pub ghost premises: { ∥ MeetsPowerLossPremises trace.events ∥₁ },
}

impl RamDevice {
    ghost use Rattle.lfs_device.specs.RamDevice.{ram_geometry, ram_bytes, ram_blocks, erase_behavior, checks_blanks, ram_history};

    /// Creates a device whose bytes are all 0xff and count as programmed. An erase fills a block
    /// with 0xff.
    ///
    /// Errors: `NoMemory` if memory for the bytes can't be allocated.
    pub fn blank(alloc: Global, geometry: Geometry) -> Result<RamDevice, Error>
        ensures geometry { IfOk result (λ d. ram_geometry d ≡ geometry) }
        ensures bytes { IfOk result (λ d. ram_bytes d ≡ replicate (geometry.block_size * geometry.block_count) 255) }
        ensures settings { IfOk result (λ d. (erase_behavior d ≡ Erased.Fill 255) × (checks_blanks d ≡ false)) }
        ensures no_call { IfOk result (λ d. ram_history d ≡ []) }
        ensures err { OnErr result (result ≡ Err Error.NoMemory) }
    {
        let len = geometry.block_size as usize * geometry.block_count as usize;
        let bytes = Vec::from_elem(alloc, 0xffu8, len)?;
        Ok(RamDevice {
            geometry,
            bytes,
            erased: Erased::Fill(0xff),
            checks_blanks: false,
            trace: Trace::with_ghost_history(&geometry, &()),
        })
    }

    /// Creates a device that holds the given bytes, block after block. All bytes count as
    /// programmed. An erase fills a block with 0xff. The call allocates no memory.
    ///
    /// Errors: `Invalid` if and only if the number of bytes doesn't match the geometry.
    pub fn from_bytes(geometry: Geometry, bytes: Vec<u8>) -> Result<RamDevice, Error>
        ensures made { MatchResult result
            (λ d. (ram_geometry d ≡ geometry) × (ram_bytes d ≡ bytes.items) × (erase_behavior d ≡ Erased.Fill 255) × (checks_blanks d ≡ false))
            (λ e. (e ≡ Error.Invalid) × (¬ (length bytes.items ≡ geometry.block_size * geometry.block_count))) }
        ensures no_call { IfOk result (λ d. ram_history d ≡ []) }
    {
        if bytes.len() != geometry.block_size as usize * geometry.block_count as usize {
            return Err(Error::Invalid);
        }
        Ok(RamDevice {
            geometry,
            bytes,
            erased: Erased::Fill(0xff),
            checks_blanks: false,
            trace: Trace::with_ghost_history(&geometry, &()),
        })
    }

    /// Returns the same device, whose erases leave bytes as `erased` specifies.
    pub fn with_erase_behavior(self, erased: Erased) -> RamDevice
        ensures geometry { ram_geometry result ≡ ram_geometry self }
        ensures bytes { ram_bytes result ≡ ram_bytes self }
        ensures erased { erase_behavior result ≡ erased }
        ensures checks { checks_blanks result ≡ checks_blanks self }
        ensures history { ram_history result ≡ ram_history self }
    {
        let RamDevice {
            geometry,
            bytes,
            erased: _,
            checks_blanks,
            trace,
        } = self;
        RamDevice {
            geometry,
            bytes,
            erased,
            checks_blanks,
            trace,
        }
    }

    /// Returns the same device, whose `is_unprogrammed` returns true if all of the bytes are 0xff.
    /// Without this setting `is_unprogrammed` always returns false.
    pub fn with_blank_checks(self) -> RamDevice
        ensures geometry { ram_geometry result ≡ ram_geometry self }
        ensures bytes { ram_bytes result ≡ ram_bytes self }
        ensures erased { erase_behavior result ≡ erase_behavior self }
        ensures checks { checks_blanks result ≡ true }
        ensures history { ram_history result ≡ ram_history self }
    {
        let RamDevice {
            geometry,
            bytes,
            erased,
            checks_blanks: _,
            trace,
        } = self;
        RamDevice {
            geometry,
            bytes,
            erased,
            checks_blanks: true,
            trace,
        }
    }

    /// Borrows all bytes of the device, block after block.
    pub fn bytes(&self) -> &[u8]
        ensures bytes { result.now ≡ ram_bytes self.now }
        ensures blocks { ram_blocks self.now ≡ cut (ram_geometry self.now).block_size (ram_geometry self.now).block_count result.now }
    {
        &self.bytes
    }

    /// Consumes the device and returns all its bytes, block after block.
    pub fn to_bytes(self) -> Vec<u8>
        ensures bytes { result.items ≡ ram_bytes self }
        ensures blocks { ram_blocks self ≡ cut (ram_geometry self).block_size (ram_geometry self).block_count result.items }
    {
        self.bytes
    }

    // Returns the index of a block's byte among all bytes of the device.
    fn byte_index(&self, block: u32, off: u32) -> usize
        requires in_device { block < self.now.geometry.block_count }
        requires in_block { off ≤ self.now.geometry.block_size }
        ensures { result ≡ self.now.geometry.block_size * block + off }
    {
        self.geometry.block_size as usize * block as usize + off as usize
    }
}

/// Proves that a device in memory meets the premises of contracts about power loss: no call fails,
/// and an erase leaves no log or the old one. The call does nothing at run time.
pub fn lemma_ram_premises()
    ensures { AreReliableDevices ⟦<RamDevice as BlockDevice>⟧ }
{}

// Overwrites the bytes at the offset `at`.
fn overwrite_device_bytes(all: &mut Vec<u8>, at: usize, bytes: &[u8])
    requires { at + length bytes.now ≤ length all.old.items }
    ensures { all.new.items ≡ overwritten_at all.old.items at bytes.now }
{
    all[at..at + bytes.len()].copy_from_slice(bytes);
}

// Sets `len` bytes at the offset `at` to what an erase leaves.
fn fill_erased(all: &mut Vec<u8>, at: usize, len: usize, erased: Erased)
    requires { at + len ≤ length all.old.items }
    ensures erased { all.new.items ≡ erased_range erased all.old.items at len }
    ensures are_bytes { ElementsAreBytes all.old.items → ElementsAreBytes all.new.items }
    ensures by_byte { FillIsByte erased }
{
    match erased {
        Erased::Fill(byte) => all[at..at + len].fill(byte),
        Erased::Keep => {}
    }
}

impl BlockDevice for RamDevice {
    ghost use Rattle.lfs_model.proofs.Cuts.{HasBlockSizes-cut};
    ghost use Rattle.lfs_device.specs.ByteLists.{HasBytes-cut};
    ghost use Rattle.lfs_device.specs.BlockCalls.{CanProgram, IsWithinBlock};
    ghost use Rattle.lfs_device.specs.RamDevice.{KeepsSettings, ram_geometry, ram_bytes, ram_blocks, erase_behavior, checks_blanks, ram_history};

    ghost geometry = { ram_geometry };

    ghost blocks = { ram_blocks };

    ghost history = { ram_history };

    ghost shape = { λ d. HasBlockSizes-cut d.geometry.block_size d.geometry.block_count d.bytes.items d.size };

    ghost bytes = { λ d. HasBytes-cut d.geometry.block_size d.geometry.block_count d.bytes.items d.are_bytes };

    ghost newest = { λ d. d.newest };

    ghost conforms = { λ d. d.conforms };

    fn geometry(&self) -> Geometry {
        self.geometry
    }

    fn read(&mut self, block: u32, off: u32, buf: &mut [u8]) -> Result<(), Error>
        requires within { IsWithinBlock (ram_geometry self.old) block off (length buf.old) }
        ensures ok { IsOk result }
        ensures bytes { buf.new ≡ slice_range (block_bytes (ram_blocks self.old) block) off (off + length buf.old) }
        ensures same { ram_blocks self.new ≡ ram_blocks self.old }
        ensures settings { KeepsSettings self.old self.new }
        ensures history { ram_history self.new ≡ call_event (Read block off (length buf.old)) (ram_blocks self.old) (ram_blocks self.new) false ∷ ram_history self.old }
    {
        let start = self.byte_index(block, off);
        buf.copy_from_slice(&self.bytes[start..start + buf.len()]);
        self.trace = Trace::with_ghost_history(self, &(block, off, buf.len()));
        Ok(())
    }

    fn prog(&mut self, block: u32, off: u32, bytes: &[u8]) -> Result<(), Error>
        requires can { CanProgram (ram_geometry self.old) (ram_history self.old) block off (length bytes.now) }
        ensures ok { IsOk result }
        ensures bytes { ram_blocks self.new ≡ programmed (ram_blocks self.old) block off bytes.now }
        ensures others { SameExcept block (ram_blocks self.old) (ram_blocks self.new) }
        ensures settings { KeepsSettings self.old self.new }
        ensures history { ram_history self.new ≡ call_event (Program block off bytes.now) (ram_blocks self.old) (ram_blocks self.new) false ∷ ram_history self.old }
    {
        let trace = Trace::with_ghost_history(self, &(block, off, bytes));
        let start = self.byte_index(block, off);
        overwrite_device_bytes(&mut self.bytes, start, bytes);
        self.trace = trace;
        Ok(())
    }

    fn erase(&mut self, block: u32) -> Result<(), Error>
        requires { block < (ram_geometry self.old).block_count }
        ensures ok { IsOk result }
        ensures bytes { block_bytes (ram_blocks self.new) block ≡ erased_bytes (erase_behavior self.old) (block_bytes (ram_blocks self.old) block) }
        ensures others { SameExcept block (ram_blocks self.old) (ram_blocks self.new) }
        ensures settings { KeepsSettings self.old self.new }
        ensures history { ram_history self.new ≡ call_event (Erase block) (ram_blocks self.old) (ram_blocks self.new) false ∷ ram_history self.old }
    {
        let trace = Trace::with_ghost_history(self, &block);
        let start = self.byte_index(block, 0);
        let size = self.geometry.block_size as usize;
        fill_erased(&mut self.bytes, start, size, self.erased);
        self.trace = trace;
        Ok(())
    }

    fn is_unprogrammed(&mut self, block: u32, off: u32, len: u32) -> Result<bool, Error>
        requires within { IsWithinBlock (ram_geometry self.old) block off len }
        ensures ok { IsOk result }
        ensures unasked { checks_blanks self.old ≡ false → result ≡ Ok false }
        ensures same { ram_blocks self.new ≡ ram_blocks self.old }
        ensures settings { KeepsSettings self.old self.new }
        ensures yes { result ≡ Ok true → ram_history self.new ≡ call_event (Blank block off len) (ram_blocks self.old) (ram_blocks self.new) false ∷ ram_history self.old }
        ensures no { result ≡ Ok false → ram_history self.new ≡ ram_history self.old }
    {
        let start = self.byte_index(block, off);
        if !self.checks_blanks || !are_all_erased(&self.bytes[start..start + len as usize]) {
            return Ok(false);
        }
        self.trace = Trace::with_ghost_history(self, &(block, off, len));
        Ok(true)
    }
}

// Returns whether each byte is 0xff, as in erased flash.
fn are_all_erased(bytes: &[u8]) -> bool {
    bytes.iter().all(|byte| *byte == 0xff)
}
