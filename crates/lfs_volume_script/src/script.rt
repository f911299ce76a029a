// The commands of a script on its device.

use crate::lines::VolumeCommand;
use crate::replies::{perform_operation, read_into_buffer, show_position, show_size};
use lfs_device::{
    BlockDevice, CountedCalls, Erased, Error, FaultDevice, FaultExtent, Geometry, PlannedFault,
    Profile, RamDevice,
};
use lfs_fs::Reply;
use lfs_script_lines::{Answer, Command};
use lfs_volume::{Volume, format, mount};
use std::alloc::Global;
use std::rt::Files;
use std::{fs, mem, str};

// A device in memory with a call that may fail.
type Device = FaultDevice<RamDevice>;

// A planned fault that never happens.
const NO_FAULT: PlannedFault = PlannedFault {
    which: CountedCalls::Any,
    nth: 0,
    stops: false,
    extent: FaultExtent::Nothing,
    bad_block: None,
};

// Returns a device over `device` that counts its calls from 0 and may let one call fail as planned.
fn device_with_fault(
    alloc: Global,
    device: RamDevice,
    fault: PlannedFault,
) -> Result<Device, Error> {
    let block_size = device.geometry().block_size as usize;
    let device = FaultDevice::new(device, fault.which, fault.nth, fault.stops);
    match fault.extent {
        FaultExtent::Nothing => Ok(device),
        FaultExtent::FirstBytes(count) => Ok(device.torn(count)),
        FaultExtent::AllButFirst(count) => {
            Ok(device.with_torn_erase(count, Vec::from_elem(alloc, 0u8, block_size)?))
        }
        FaultExtent::Whole => Ok(device.whole()),
    }
}

// Returns a device that contains these bytes.
fn device_of_bytes(
    bytes: Vec<u8>,
    block_size: u32,
    page: u32,
    profile: Profile,
) -> Result<RamDevice, Error> {
    if block_size == 0 {
        return Err(Error::Invalid);
    }
    match u32::try_from(bytes.len() / block_size as usize) {
        Ok(block_count) => {
            let geometry = Geometry::new(block_size, page, block_count)?;
            RamDevice::from_bytes(geometry.with_profile(profile), bytes)
        }
        Err(_) => Err(Error::Invalid),
    }
}

// A script's device, or a volume over it.
#[derive(Drop)]
enum Hand {
    Nothing,
    Device(Device),
    Volume(Volume<Device>),
}

impl Hand {
    fn device(&self) -> Option<&Device> {
        match self {
            Hand::Nothing => None,
            Hand::Device(device) => Some(device),
            Hand::Volume(volume) => Some(volume.device()),
        }
    }

    // Ends the volume, and returns the device.
    fn into_device(self) -> Option<Device> {
        match self {
            Hand::Nothing => None,
            Hand::Device(device) => Some(device),
            Hand::Volume(volume) => Some(volume.unmount()),
        }
    }
}

/// A script that is being performed: its device, and the profile of the devices that later commands
/// make.
#[derive(Drop)]
pub struct Script<'a, R: Files> {
    rt: &'a R,
    hand: Hand,
    // The profile of the devices that the script makes.
    profile: Profile,
}

impl<'a, R: Files + AllocGlobal> Script<'a, R> {
    /// Begins a script that has no device.
    pub fn new(rt: &'a R) -> Script<'a, R> {
        Script {
            rt,
            hand: Hand::Nothing,
            profile: Profile::new(),
        }
    }

    /// Returns the runtime, which provides the allocator and files.
    pub fn rt(&self) -> &'a R {
        self.rt
    }

    // Stores the new volume, or the device that an error returns.
    fn take_volume(&mut self, begun: Result<Volume<Device>, (Device, Error)>) -> Answer {
        match begun {
            Ok(volume) => {
                self.hand = Hand::Volume(volume);
                Answer::Reply(Reply::Done)
            }
            Err((device, error)) => {
                self.hand = Hand::Device(device);
                Answer::Error(error)
            }
        }
    }

    fn mount(&mut self, device: RamDevice, fault: PlannedFault) -> Answer {
        match device_with_fault(self.rt.alloc(), device, fault) {
            Ok(device) => {
                let begun = mount(self.rt.alloc(), device);
                self.take_volume(begun)
            }
            Err(error) => Answer::Error(error),
        }
    }

    fn format(&mut self, device: RamDevice, fault: PlannedFault) -> Answer {
        match device_with_fault(self.rt.alloc(), device, fault) {
            Ok(device) => {
                let begun = format(self.rt.alloc(), device);
                self.take_volume(begun)
            }
            Err(error) => Answer::Error(error),
        }
    }

    // Ends the volume, and moves its device out.
    fn take_device(&mut self) -> Option<RamDevice> {
        let device = mem::replace(&mut self.hand, Hand::Nothing).into_device()?;
        Some(device.into_inner())
    }

    fn unmount(&mut self) -> Answer {
        match mem::replace(&mut self.hand, Hand::Nothing) {
            Hand::Volume(volume) => {
                self.hand = Hand::Device(volume.unmount());
                Answer::Reply(Reply::Done)
            }
            hand => {
                self.hand = hand;
                Answer::Nothing
            }
        }
    }

    fn fresh(&mut self, geometry: Result<Geometry, Error>, erased: Erased) -> Answer {
        let geometry = match geometry {
            Ok(geometry) => geometry.with_profile(self.profile),
            Err(error) => return Answer::Error(error),
        };
        match RamDevice::blank(self.rt.alloc(), geometry) {
            Ok(device) => self.format(device.with_erase_behavior(erased), NO_FAULT),
            Err(error) => Answer::Error(error),
        }
    }

    fn image(&mut self, file: &[u8], block_size: u32, page: u32, erased: Erased) -> Answer {
        let Ok(path) = str::from_utf8(file) else {
            return Answer::Input;
        };
        let Ok(bytes) = fs::read(self.rt, path) else {
            return Answer::Input;
        };
        match device_of_bytes(bytes, block_size, page, self.profile) {
            Ok(device) => self.mount(device.with_erase_behavior(erased), NO_FAULT),
            Err(error) => Answer::Error(error),
        }
    }

    // Writes the bytes of the device to a file.
    fn save(&self, file: &[u8]) -> Answer {
        let Some(device) = self.hand.device() else {
            return Answer::Nothing;
        };
        match str::from_utf8(file) {
            Ok(path) if fs::write(self.rt, path, device.inner().bytes()).is_ok() => {
                Answer::Reply(Reply::Done)
            }
            _ => Answer::Output,
        }
    }

    fn perform_call(&mut self, call: &VolumeCommand) -> Answer {
        let alloc = self.rt.alloc();
        let Hand::Volume(volume) = &mut self.hand else {
            return Answer::Nothing;
        };
        match call {
            VolumeCommand::Command(Command::Perform(operation)) => {
                perform_operation(alloc, volume, operation)
            }
            VolumeCommand::Position(handle) => show_position(volume, *handle),
            VolumeCommand::Size(handle) => show_size(volume, *handle),
            VolumeCommand::ReadInto(handle, count) => {
                read_into_buffer(alloc, volume, *handle, *count)
            }
            _ => Answer::Nothing,
        }
    }

    // Returns as an answer how many calls the device received, but at most 2^32 - 1.
    fn calls(&self, which: CountedCalls) -> Answer {
        match self.hand.device() {
            Some(device) => {
                let count = u32::try_from(device.calls(which)).unwrap_or(u32::MAX);
                Answer::Reply(Reply::Count(count))
            }
            None => Answer::Nothing,
        }
    }

    // Performs a command that makes, ends or saves a device.
    fn perform_command(&mut self, command: &Command) -> Answer {
        match command {
            Command::Fresh {
                block_size,
                page,
                block_count,
                order: _,
                erased,
            } => self.fresh(Geometry::new(*block_size, *page, *block_count), *erased),
            Command::Image {
                block_size,
                page,
                file,
                erased,
            } => self.image(file, *block_size, *page, *erased),
            Command::Profile(profile) => {
                self.profile = *profile;
                Answer::Reply(Reply::Done)
            }
            Command::Unmount => self.unmount(),
            Command::Mount(fault) => match self.take_device() {
                Some(device) => self.mount(device, *fault),
                None => Answer::Nothing,
            },
            Command::Format(fault) => match self.take_device() {
                Some(device) => self.format(device, *fault),
                None => Answer::Nothing,
            },
            Command::Save(file) => self.save(file),
            _ => Answer::Nothing,
        }
    }

    /// Performs a command and returns its answer. The answer to a call is `Nothing` if there is no
    /// volume.
    pub fn perform(&mut self, command: &VolumeCommand) -> Answer {
        match command {
            VolumeCommand::Calls(which) => self.calls(*which),
            VolumeCommand::Command(Command::Perform(_)) => self.perform_call(command),
            VolumeCommand::Command(command) => self.perform_command(command),
            call => self.perform_call(call),
        }
    }
}
