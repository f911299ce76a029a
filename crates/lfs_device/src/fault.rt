ghost use Rattle.std.specs.Prelude.{◌≡◌, ◌≤◌, ◌<◌, ◌+◌, ◌-◌, ◌^◌, ◌||◌, ℕ, true, false, min, [], length, slice_range, is_err, is_none, ◌&&◌, IfErr, IfSome, OnOk, Ok, None, Some};
ghost use Rattle.lfs_model.specs.format.Blocks.{SameExcept, block_bytes, programmed};
ghost use Rattle.lfs_model.specs.session.History.{read_count, program_count, erase_count, fault_count, is_unprogrammed_byte, LeftByLatestCall};
ghost use Rattle.lfs_model.specs.session.History.DeviceCall.{Read, Program, Erase, Blank};
ghost use Rattle.lfs_model.specs.crash.Conformance.{CallsConform};
ghost use Rattle.lfs_model.specs.crash.Premises.{MeetsPowerLossPremises};
ghost use Rattle.lfs_device.specs.BlockCalls.{AsksIfBlank, CanProgram, IsWithinBlock, Programs};
ghost use Rattle.lfs_device.specs.Fault.{call_count, extent_if_planned, extent_with_bad_block, planned_calls_failed, is_bad_block, is_partial_extent, nth_call_extent, unplanned_faults};
ghost use Rattle.lfs_device.specs.DevicePremises.{AreReliableDevices};
ghost use Rattle.lfs_device.specs.CallsBelow.{AddsNoFault, EraseKeepsFirstBytes, ForwardsUnlessFaulted, bytes_stored_at_fault};

use crate::partial::{erase_as_planned, program_as_planned, read_as_planned};
use crate::{BlockDevice, Error, Geometry, Trace};

/// The kind of call that a `FaultDevice` counts to decide when to fail.
#[derive(Clone, Copy, Debug, PartialEq, Eq)]
pub enum CountedCalls {
    Any,
    Read,
    Program,
    Erase,
}

/// The part of the failing call that a device performs before it fails.
#[derive(Clone, Copy, Debug, PartialEq, Eq)]
pub enum FaultExtent {
    /// The device does nothing, and all bytes stay unchanged.
    Nothing,
    /// A failing program stores its first `k` bytes, or all of them if there are fewer. A failing
    /// read or erase does nothing.
    FirstBytes(u32),
    /// A failing erase keeps the first `k` bytes of the block and erases the rest. A failing read
    /// or program does nothing.
    AllButFirst(u32),
    /// The device performs the whole call before it fails.
    Whole,
}

/// The plan of a fault, which says at which call a device fails, and how.
#[derive(Clone, Copy, Debug, PartialEq, Eq)]
pub struct PlannedFault {
    /// The kind of call that is counted.
    pub which: CountedCalls,
    /// The number of the counted call that fails, starting at 1. At 0, no counted call fails.
    pub nth: u64,
    /// Whether every call after the failing one fails too, without any effect.
    pub stops: bool,
    /// The part of the failing call that is performed.
    pub extent: FaultExtent,
    /// A block of which every erase and every program fails without any effect.
    pub bad_block: Option<u32>,
}

/// A device for tests of faults, which wraps another device and fails at a planned call.
///
/// Every other call is passed to the wrapped device, and fails only if the wrapped device fails.
/// Calls are counted up to `u64::MAX`. Calls to `is_unprogrammed` aren't counted.
#[derive(Drop)]
pub struct FaultDevice<D: BlockDevice> {
    inner: D,
    fault: PlannedFault,
    tears: bool,
    // Whether `is_unprogrammed` asks the wrapped device.
    checks_blanks: bool,
    // Holds a block's bytes during an erase that is cut short. Without a buffer, an erase that is
    // cut short does nothing.
    buffer: Option<Vec<u8>>,
    read_calls: u64,
    program_calls: u64,
    erase_calls: u64,
    trace: Trace,
    pub ghost due_failed: { planned_calls_failed fault trace.events ≡ true },
    pub ghost undue_faults: { unplanned_faults fault trace.events ≤ fault_count (D.history inner) },
    ghost reads_counted: { read_calls ≡ min (read_count trace.events) (2 ^ 64 - 1) },
    ghost programs_counted: { program_calls ≡ min (program_count trace.events) (2 ^ 64 - 1) },
    ghost erases_counted: { erase_calls ≡ min (erase_count trace.events) (2 ^ 64 - 1) },
    ghost newest: { LeftByLatestCall trace.events (D.blocks inner) },
    ghost conforms: { CallsConform trace.events },
    ghost below: { (block byte : ℕ) → is_unprogrammed_byte trace.events block byte ≡ true → is_unprogrammed_byte (D.history inner) block byte ≡ true },
    ghost untorn: { tears ≡ false → is_partial_extent fault.extent ≡ false },
    pub ghost premises: { tears ≡ false → AreReliableDevices ⟦<D as BlockDevice>⟧ → ∥ MeetsPowerLossPremises trace.events ∥₁ },
}

impl<D: BlockDevice> FaultDevice<D> {
    ghost use Rattle.lfs_device.specs.FaultDevice.{inner_device, planned_fault, can_tear, forwards_blank_checks, fault_history};

    /// Creates a device whose `n`-th call of the kind `which` fails without any effect. Calls are
    /// counted from 1, and if `n` is 0, no call fails. If `stop` is true, every later call fails
    /// too. All bytes of the new device count as programmed.
    pub fn new(inner: D, which: CountedCalls, n: u64, stop: bool) -> FaultDevice<D>
        ensures inner { inner_device result ≡ inner }
        ensures fault { planned_fault result ≡ record { which = which; nth = n; stops = stop; extent = FaultExtent.Nothing; bad_block = None } }
        ensures tears { can_tear result ≡ false }
        ensures checks { forwards_blank_checks result ≡ false }
        ensures no_call { fault_history result ≡ [] }
    {
        FaultDevice::with_fault(
            inner,
            PlannedFault {
                which,
                nth: n,
                stops: stop,
                extent: FaultExtent::Nothing,
                bad_block: None,
            },
        )
    }

    /// Creates a device on which every erase and program of one block fails without any effect. All
    /// bytes of the new device count as programmed.
    pub fn with_bad_block(inner: D, block: u32) -> FaultDevice<D>
        ensures inner { inner_device result ≡ inner }
        ensures fault { planned_fault result ≡ record { which = CountedCalls.Any; nth = 0; stops = false; extent = FaultExtent.Nothing; bad_block = Some block } }
        ensures tears { can_tear result ≡ false }
        ensures checks { forwards_blank_checks result ≡ false }
        ensures no_call { fault_history result ≡ [] }
    {
        FaultDevice::with_fault(
            inner,
            PlannedFault {
                which: CountedCalls::Any,
                nth: 0,
                stops: false,
                extent: FaultExtent::Nothing,
                bad_block: Some(block),
            },
        )
    }

    // Creates a device whose failing call is performed either as a whole or not at all.
    fn with_fault(inner: D, fault: PlannedFault) -> FaultDevice<D>
        requires { is_partial_extent fault.extent ≡ false }
        ensures inner { inner_device result ≡ inner }
        ensures fault { planned_fault result ≡ fault }
        ensures tears { can_tear result ≡ false }
        ensures checks { forwards_blank_checks result ≡ false }
        ensures no_call { fault_history result ≡ [] }
    {
        let trace = Trace::with_ghost_history(&inner, &());
        FaultDevice {
            inner,
            fault,
            tears: false,
            checks_blanks: false,
            buffer: None,
            read_calls: 0,
            program_calls: 0,
            erase_calls: 0,
            trace,
        }
    }

    /// Changes the planned fault so that a failing program first stores its first `k` bytes, and
    /// returns the device.
    pub fn torn(self, k: u32) -> FaultDevice<D>
        ensures inner { inner_device result ≡ inner_device self }
        ensures fault { planned_fault result ≡ record (planned_fault self) { extent = FaultExtent.FirstBytes k } }
        ensures tears { can_tear result ≡ true }
        ensures checks { forwards_blank_checks result ≡ forwards_blank_checks self }
        ensures history { fault_history result ≡ fault_history self }
    {
        self.with_fault_extent(FaultExtent::FirstBytes(k))
    }

    /// Changes the planned fault so that a failing erase keeps the block's first `k` bytes, and
    /// returns the device. If the buffer isn't exactly as long as a block, a failing erase does
    /// nothing.
    pub fn with_torn_erase(mut self, k: u32, buffer: Vec<u8>) -> FaultDevice<D>
        ensures inner { inner_device result ≡ inner_device self }
        ensures fault { planned_fault result ≡ record (planned_fault self) { extent = FaultExtent.AllButFirst k } }
        ensures tears { can_tear result ≡ true }
        ensures checks { forwards_blank_checks result ≡ forwards_blank_checks self }
        ensures history { fault_history result ≡ fault_history self }
    {
        self.buffer = Some(buffer);
        self.with_fault_extent(FaultExtent::AllButFirst(k))
    }

    /// Changes the planned fault so that the failing call is performed as a whole before it fails,
    /// and returns the device.
    pub fn whole(self) -> FaultDevice<D>
        ensures inner { inner_device result ≡ inner_device self }
        ensures fault { planned_fault result ≡ record (planned_fault self) { extent = FaultExtent.Whole } }
        ensures tears { can_tear result ≡ can_tear self }
        ensures checks { forwards_blank_checks result ≡ forwards_blank_checks self }
        ensures history { fault_history result ≡ fault_history self }
    {
        self.with_fault_extent(FaultExtent::Whole)
    }

    /// Returns the same device, whose `is_unprogrammed` asks the wrapped device until the fault
    /// stops all calls. Without this setting `is_unprogrammed` always returns false.
    pub fn with_blank_checks(mut self) -> FaultDevice<D>
        ensures inner { inner_device result ≡ inner_device self }
        ensures fault { planned_fault result ≡ planned_fault self }
        ensures tears { can_tear result ≡ can_tear self }
        ensures checks { forwards_blank_checks result ≡ true }
        ensures history { fault_history result ≡ fault_history self }
    {
        self.checks_blanks = true;
        self
    }

    fn with_fault_extent(mut self, extent: FaultExtent) -> FaultDevice<D>
        ensures inner { inner_device result ≡ inner_device self }
        ensures fault { planned_fault result ≡ record (planned_fault self) { extent = extent } }
        ensures tears { can_tear result ≡ (can_tear self || is_partial_extent extent) }
        ensures checks { forwards_blank_checks result ≡ forwards_blank_checks self }
        ensures history { fault_history result ≡ fault_history self }
    {
        self.tears = self.tears || is_part(extent);
        self.fault.extent = extent;
        self
    }

    /// Consumes the device and returns the wrapped device.
    pub fn into_inner(self) -> D
        ensures { result ≡ inner_device self }
    {
        let FaultDevice {
            inner,
            fault: _,
            tears: _,
            checks_blanks: _,
            buffer: _,
            read_calls: _,
            program_calls: _,
            erase_calls: _,
            trace: _,
        } = self;
        inner
    }

    /// Borrows the wrapped device.
    pub fn inner(&self) -> &D
        ensures { result.now ≡ inner_device self.now }
    {
        &self.inner
    }

    /// Returns the number of calls of the kind `which`, failed calls included. Returns `u64::MAX`
    /// if there were more calls.
    pub fn calls(&self, which: CountedCalls) -> u64
        ensures { result ≡ min (call_count which (fault_history self.now)) (2 ^ 64 - 1) }
    {
        match which {
            CountedCalls::Any => self
                .read_calls
                .saturating_add(self.program_calls)
                .saturating_add(self.erase_calls),
            CountedCalls::Read => self.read_calls,
            CountedCalls::Program => self.program_calls,
            CountedCalls::Erase => self.erase_calls,
        }
    }

    /// Returns whether [`torn`](FaultDevice::torn) or [`with_torn_erase`](FaultDevice::with_torn_erase) was
    /// ever called. After such a call, a failing program or erase may be performed only in part.
    pub fn may_tear_calls(&self) -> bool
        ensures { result ≡ can_tear self.now }
    {
        self.tears
    }

    /// Proves that the device meets the premises of contracts about power loss. This requires that
    /// no program or erase is torn, and that each device of the wrapped type never fails and meets
    /// these premises too. The call does nothing at run time.
    pub fn lemma_premises_hold(&self)
        ensures { can_tear self.now ≡ false → AreReliableDevices ⟦<D as BlockDevice>⟧ → MeetsPowerLossPremises (fault_history self.now) }
    {}

    // Returns the part of the next call that is performed before it fails, or `None` if the call
    // isn't due to fail. `counts` says whether the call is counted.
    fn nth_call_extent(&self, counts: bool) -> Option<FaultExtent>
        ensures { result ≡ nth_call_extent self.now.fault counts self.now.trace.events }
    {
        let so_far = self.calls(self.fault.which);
        if self.fault.nth == 0 {
            return None;
        }
        if counts && so_far == self.fault.nth - 1 {
            return Some(self.fault.extent);
        }
        if self.fault.stops && so_far >= self.fault.nth {
            return Some(FaultExtent::Nothing);
        }
        None
    }

    // Returns the part of a program or an erase of the block that is performed before it fails, or
    // `None` if the call isn't due to fail.
    fn write_call_extent(&self, counts: bool, block: u32) -> Option<FaultExtent>
        ensures { result ≡ extent_with_bad_block (is_bad_block self.now.fault.bad_block block) (nth_call_extent self.now.fault counts self.now.trace.events) }
    {
        match self.nth_call_extent(counts) {
            Some(extent) => Some(extent),
            None if self.is_bad(block) => Some(FaultExtent::Nothing),
            None => None,
        }
    }

    // Returns whether `is_unprogrammed` asks the wrapped device.
    fn forwards_blank_queries(&self) -> bool
        ensures { result ≡ (self.now.checks_blanks && is_none (nth_call_extent self.now.fault false self.now.trace.events)) }
    {
        self.checks_blanks && self.nth_call_extent(false).is_none()
    }

    fn is_bad(&self, block: u32) -> bool
        ensures { result ≡ is_bad_block self.now.fault.bad_block block }
    {
        match self.fault.bad_block {
            Some(bad) => bad == block,
            None => false,
        }
    }
}

// Returns whether the fault performs only a part of a call.
fn is_part(extent: FaultExtent) -> bool
    ensures { result ≡ is_partial_extent extent }
{
    matches!(
        extent,
        FaultExtent::FirstBytes(_) | FaultExtent::AllButFirst(_)
    )
}

impl<D: BlockDevice> BlockDevice for FaultDevice<D> {
    ghost use Rattle.lfs_device.specs.FaultDevice.{AddsCall, KeepsSettings, inner_device, planned_fault, forwards_blank_checks, inner_blocks, fault_history};

    ghost geometry = { λ d. D.geometry d.inner };

    ghost blocks = { λ d. D.blocks d.inner };

    ghost history = { λ d. d.trace.events };

    ghost shape = { λ d. D.shape d.inner };

    ghost bytes = { λ d. D.bytes d.inner };

    ghost newest = { λ d. d.newest };

    ghost conforms = { λ d. d.conforms };

    fn geometry(&self) -> Geometry {
        self.inner.geometry()
    }

    fn read(&mut self, block: u32, off: u32, buf: &mut [u8]) -> Result<(), Error>
        requires within { IsWithinBlock (D.geometry (inner_device self.old)) block off (length buf.old) }
        ensures carried { ForwardsUnlessFaulted ⟦<D as BlockDevice>⟧ (extent_if_planned (planned_fault self.old) (Read block off (length buf.old)) (fault_history self.old))
            (Read block off (length buf.old)) (is_err result) (inner_device self.old) (inner_device self.new) }
        ensures whole { extent_if_planned (planned_fault self.old) (Read block off (length buf.old)) (fault_history self.old) ≡ Some FaultExtent.Whole
            → AddsNoFault ⟦<D as BlockDevice>⟧ (inner_device self.old) (inner_device self.new)
            → buf.new ≡ slice_range (block_bytes (inner_blocks self.old) block) off (off + length buf.old) }
        ensures bytes { OnOk result (buf.new ≡ slice_range (block_bytes (inner_blocks self.old) block) off (off + length buf.old)) }
        ensures same { inner_blocks self.new ≡ inner_blocks self.old }
        ensures noted { AddsCall (Read block off (length buf.old)) self.old self.new result }
    {
        let counts = matches!(self.fault.which, CountedCalls::Any | CountedCalls::Read);
        let due = self.nth_call_extent(counts);
        let begun = Trace::with_ghost_history(self, &(block, off, buf.len()));
        self.read_calls = self.read_calls.saturating_add(1);
        let outcome = read_as_planned(&mut self.inner, due, block, off, buf);
        self.trace = Trace::with_ghost_history(&self.inner, &(begun, outcome.is_err()));
        outcome
    }

    fn prog(&mut self, block: u32, off: u32, bytes: &[u8]) -> Result<(), Error>
        requires can { CanProgram (D.geometry (inner_device self.old)) (fault_history self.old) block off (length bytes.now) }
        ensures carried { ForwardsUnlessFaulted ⟦<D as BlockDevice>⟧ (extent_if_planned (planned_fault self.old) (Program block off bytes.now) (fault_history self.old))
            (Program block off bytes.now) (is_err result) (inner_device self.old) (inner_device self.new) }
        ensures stored { IfSome (extent_if_planned (planned_fault self.old) (Program block off bytes.now) (fault_history self.old))
            (λ extent. AddsNoFault ⟦<D as BlockDevice>⟧ (inner_device self.old) (inner_device self.new)
            → inner_blocks self.new ≡ programmed (inner_blocks self.old) block off (bytes_stored_at_fault extent bytes.now)) }
        ensures programs { Programs block off bytes.now (inner_blocks self.old) (inner_blocks self.new) result }
        ensures noted { AddsCall (Program block off bytes.now) self.old self.new result }
    {
        let counts = matches!(self.fault.which, CountedCalls::Any | CountedCalls::Program);
        let due = self.write_call_extent(counts, block);
        let begun = Trace::with_ghost_history(self, &(block, off, bytes));
        self.program_calls = self.program_calls.saturating_add(1);
        let outcome = program_as_planned(&mut self.inner, due, block, off, bytes);
        self.trace = Trace::with_ghost_history(&self.inner, &(begun, outcome.is_err()));
        outcome
    }

    fn erase(&mut self, block: u32) -> Result<(), Error>
        requires { block < (D.geometry (inner_device self.old)).block_count }
        ensures carried { ForwardsUnlessFaulted ⟦<D as BlockDevice>⟧ (extent_if_planned (planned_fault self.old) (Erase block) (fault_history self.old))
            (Erase block) (is_err result) (inner_device self.old) (inner_device self.new) }
        ensures kept { EraseKeepsFirstBytes ⟦<D as BlockDevice>⟧ (extent_if_planned (planned_fault self.old) (Erase block) (fault_history self.old)) block (inner_device self.old) (inner_device self.new) }
        ensures others { SameExcept block (inner_blocks self.old) (inner_blocks self.new) }
        ensures noted { AddsCall (Erase block) self.old self.new result }
    {
        let counts = matches!(self.fault.which, CountedCalls::Any | CountedCalls::Erase);
        let due = self.write_call_extent(counts, block);
        let begun = Trace::with_ghost_history(self, &block);
        self.erase_calls = self.erase_calls.saturating_add(1);
        let outcome = erase_as_planned(&mut self.inner, due, block, &mut self.buffer);
        self.trace = Trace::with_ghost_history(&self.inner, &(begun, outcome.is_err()));
        outcome
    }

    /// Returns the answer of the wrapped device, if `with_blank_checks` was called and the fault
    /// hasn't stopped all calls. Otherwise returns false without asking the wrapped device.
    fn is_unprogrammed(&mut self, block: u32, off: u32, len: u32) -> Result<bool, Error>
        requires within { IsWithinBlock (D.geometry (inner_device self.old)) block off len }
        ensures unasked { forwards_blank_checks self.old ≡ false → (result ≡ Ok false) × (self.new ≡ self.old) }
        ensures passed { forwards_blank_checks self.old ≡ true → extent_if_planned (planned_fault self.old) (Blank block off len) (fault_history self.old) ≡ None
            → AsksIfBlank block off len (inner_blocks self.old) (inner_blocks self.new) (D.history (inner_device self.old)) (D.history (inner_device self.new)) result }
        ensures asks { AsksIfBlank block off len (inner_blocks self.old) (inner_blocks self.new) (fault_history self.old) (fault_history self.new) result }
        ensures same { inner_blocks self.new ≡ inner_blocks self.old }
        ensures settings { KeepsSettings self.old self.new }
        ensures error { IfErr result (λ e. e ≡ Error.Io) }
    {
        if !self.forwards_blank_queries() {
            return Ok(false);
        }
        let begun = Trace::with_ghost_history(self, &(block, off, len));
        let answer = self.inner.is_unprogrammed(block, off, len);
        self.trace = Trace::with_ghost_history(&self.inner, &(begun, answer));
        answer
    }
}
