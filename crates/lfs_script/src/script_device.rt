// A script's device, and the session over it.

use crate::counted_device::CountedDevice;
use lfs_device::{
    BlockDevice, CountedCalls, Error, FaultDevice, FaultExtent, PlannedFault, RamDevice,
};
use lfs_fs::Session;
use lfs_script_lines::DeviceCallCounts;
use std::alloc::Global;

/// A device in memory with a call that may fail.
pub type Device = CountedDevice<FaultDevice<RamDevice>>;

/// A planned fault that never happens.
pub const NO_FAULT: PlannedFault = PlannedFault {
    which: CountedCalls::Any,
    nth: 0,
    stops: false,
    extent: FaultExtent::Nothing,
    bad_block: None,
};

/// Returns a device over `device` that counts its calls from 0 and lets one call fail as planned.
/// The new device reports bytes as blank if `device` does. Returns `NoMemory` if the plan is to cut
/// an erase short and memory for a block can't be allocated.
pub fn plan_fault(alloc: Global, device: RamDevice, fault: PlannedFault) -> Result<Device, Error> {
    let block_size = device.geometry().block_size as usize;
    let device = FaultDevice::new(device, fault.which, fault.nth, fault.stops);
    let device = match fault.extent {
        FaultExtent::Nothing => device,
        FaultExtent::FirstBytes(count) => device.torn(count),
        FaultExtent::AllButFirst(count) => {
            device.with_torn_erase(count, Vec::from_elem(alloc, 0u8, block_size)?)
        }
        FaultExtent::Whole => device.whole(),
    };
    Ok(CountedDevice::new(device.with_blank_checks()))
}

/// Returns a device over `device` that counts its calls from 0. No call is planned to fail.
pub fn device_without_fault(device: RamDevice) -> Device {
    let device = FaultDevice::new(device, CountedCalls::Any, 0, false);
    CountedDevice::new(device.with_blank_checks())
}

/// A script's device, or a session over it.
#[derive(Drop)]
pub enum ScriptDevice {
    Nothing,
    Device(Device),
    Session(Session<Device>),
}

impl ScriptDevice {
    /// Returns a reference to the device, if there is one, even if a session uses it.
    pub fn device(&self) -> Option<&Device> {
        match self {
            ScriptDevice::Nothing => None,
            ScriptDevice::Device(device) => Some(device),
            ScriptDevice::Session(session) => Some(session.device()),
        }
    }

    /// Ends the session, and returns the device. Writes nothing.
    pub fn into_device(self) -> Option<RamDevice> {
        let device = match self {
            ScriptDevice::Nothing => return None,
            ScriptDevice::Device(device) => device,
            ScriptDevice::Session(session) => session.unmount(),
        };
        Some(device.into_inner().into_inner())
    }
}

/// Returns how many calls a device received, and how many of them failed. Each number saturates.
pub fn count_calls(device: &Device) -> DeviceCallCounts {
    DeviceCallCounts {
        reads: device.inner().calls(CountedCalls::Read),
        programs: device.inner().calls(CountedCalls::Program),
        erases: device.inner().calls(CountedCalls::Erase),
        faults: device.failed_calls(),
    }
}
