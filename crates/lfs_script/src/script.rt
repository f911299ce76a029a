// The commands of a script on its device.

use crate::comparison::{compare_with_copy, compare_with_image};
use crate::files::{read_file, write_file};
use crate::operation_calls::perform_operation;
use crate::script_device::{
    Device, NO_FAULT, ScriptDevice, count_calls, device_without_fault, plan_fault,
};
use lfs_device::{BlockDevice, Erased, Error, Geometry, PlannedFault, RamDevice};
use lfs_fs::{Reply, Session, format_ordered, mount};
use lfs_model::{NameOrder, Profile};
use lfs_script_lines::{Answer, Command, ComparisonScope};
use std::mem;
use std::rt::Files;

// Makes a device that contains these bytes and has this profile.
fn device_of_bytes(
    bytes: Vec<u8>,
    block_size: u32,
    page: u32,
    profile: Profile,
) -> Result<RamDevice, Error> {
    if block_size == 0 {
        return Err(Error::Invalid);
    }
    match u32::try_from(bytes.len() / block_size as usize) {
        Ok(block_count) => {
            let geometry = Geometry::new(block_size, page, block_count)?;
            RamDevice::from_bytes(geometry.with_profile(profile), bytes)
        }
        Err(_) => Err(Error::Invalid),
    }
}

// Returns the range of `count` bytes at an offset in a block, as indices into the bytes of the
// device.
fn block_range(block_size: u32, block: u32, offset: u32, count: usize) -> (usize, usize) {
    let start = (block_size as usize * block as usize).saturating_add(offset as usize);
    (start, start.saturating_add(count))
}

/// A script that is being performed: its device, and the profile of the devices that later commands
/// make.
#[derive(Drop)]
pub struct Script<'a, R: Files> {
    rt: &'a R,
    device: ScriptDevice,
    // The profile of the devices that the script makes.
    profile: Profile,
    // Whether the devices that the script makes report which bytes are blank.
    checks_blanks: bool,
}

impl<'a, R: Files + AllocGlobal> Script<'a, R> {
    /// Begins a script that has no device.
    pub fn new(rt: &'a R) -> Script<'a, R> {
        Script {
            rt,
            device: ScriptDevice::Nothing,
            profile: Profile::new(),
            checks_blanks: false,
        }
    }

    // Returns a new device with the script's settings for erases and blank bytes.
    fn device_with_options(&self, device: RamDevice, erased: Erased) -> RamDevice {
        let device = device.with_erase_behavior(erased);
        if self.checks_blanks {
            device.with_blank_checks()
        } else {
            device
        }
    }

    // Stores the new session, or the device that an error returns.
    fn store_mount_result(&mut self, begun: Result<Session<Device>, (Device, Error)>) -> Answer {
        match begun {
            Ok(session) => {
                self.device = ScriptDevice::Session(session);
                Answer::Reply(Reply::Done)
            }
            Err((device, error)) => {
                self.device = ScriptDevice::Device(device);
                Answer::Error(error)
            }
        }
    }

    fn mount(&mut self, device: RamDevice, fault: PlannedFault) -> Answer {
        let device = match plan_fault(self.rt.alloc(), device, fault) {
            Ok(device) => device,
            Err(error) => return Answer::Error(error),
        };
        let begun = mount(self.rt.alloc(), device);
        self.store_mount_result(begun)
    }

    fn format(&mut self, device: RamDevice, order: NameOrder, fault: PlannedFault) -> Answer {
        let device = match plan_fault(self.rt.alloc(), device, fault) {
            Ok(device) => device,
            Err(error) => return Answer::Error(error),
        };
        let begun = format_ordered(self.rt.alloc(), device, order);
        self.store_mount_result(begun)
    }

    // Ends the session, and moves its device out.
    fn take_device(&mut self) -> Option<RamDevice> {
        mem::replace(&mut self.device, ScriptDevice::Nothing).into_device()
    }

    fn unmount(&mut self) -> Answer {
        match mem::replace(&mut self.device, ScriptDevice::Nothing) {
            ScriptDevice::Session(session) => {
                self.device = ScriptDevice::Device(session.unmount());
                Answer::Reply(Reply::Done)
            }
            device => {
                self.device = device;
                Answer::Nothing
            }
        }
    }

    fn fresh(
        &mut self,
        geometry: Result<Geometry, Error>,
        order: NameOrder,
        erased: Erased,
    ) -> Answer {
        let geometry = match geometry {
            Ok(geometry) => geometry.with_profile(self.profile),
            Err(error) => return Answer::Error(error),
        };
        match RamDevice::blank(self.rt.alloc(), geometry) {
            Ok(device) => {
                let device = self.device_with_options(device, erased);
                self.format(device, order, NO_FAULT)
            }
            Err(error) => Answer::Error(error),
        }
    }

    fn image(&mut self, file: &[u8], block_size: u32, page: u32, erased: Erased) -> Answer {
        let Some(bytes) = read_file(self.rt, file) else {
            return Answer::Input;
        };
        match device_of_bytes(bytes, block_size, page, self.profile) {
            Ok(device) => {
                let device = self.device_with_options(device, erased);
                self.mount(device, NO_FAULT)
            }
            Err(error) => Answer::Error(error),
        }
    }

    // Ends the session, and overwrites bytes of its device.
    fn put(&mut self, block: u32, offset: u32, more: &[u8], erased: Erased) -> Answer {
        let Some(device) = self.take_device() else {
            return Answer::Nothing;
        };
        let geometry = device.geometry();
        let mut bytes = device.to_bytes();
        let (start, end) = block_range(geometry.block_size, block, offset, more.len());
        let answer = match bytes.as_mut_slice().get_mut(start..end) {
            Some(place) => {
                if place.len() == more.len() {
                    place.copy_from_slice(more);
                    Answer::Reply(Reply::Done)
                } else {
                    Answer::Error(Error::Invalid)
                }
            }
            None => Answer::Error(Error::Invalid),
        };
        match RamDevice::from_bytes(geometry, bytes) {
            Ok(device) => {
                let device = self.device_with_options(device, erased);
                self.device = ScriptDevice::Device(device_without_fault(device));
                answer
            }
            Err(error) => Answer::Error(error),
        }
    }

    // Returns bytes of the device as an answer.
    fn bytes(&self, block: u32, offset: u32, count: u32) -> Answer {
        let Some(device) = self.device.device() else {
            return Answer::Nothing;
        };
        let block_size = device.geometry().block_size;
        let (start, end) = block_range(block_size, block, offset, count as usize);
        let all = device.inner().inner().bytes();
        match all.get(start..end) {
            Some(bytes) => match Vec::from_slice(self.rt.alloc(), bytes) {
                Ok(bytes) => Answer::Reply(Reply::Bytes(bytes)),
                Err(_) => Answer::Error(Error::NoMemory),
            },
            None => Answer::Error(Error::Invalid),
        }
    }

    fn save(&self, file: &[u8]) -> Answer {
        match self.device.device() {
            Some(device) if write_file(self.rt, file, device.inner().inner().bytes()) => {
                Answer::Reply(Reply::Done)
            }
            Some(_) => Answer::Output,
            None => Answer::Nothing,
        }
    }

    fn compare(&mut self, scope: ComparisonScope) -> Answer {
        match &mut self.device {
            ScriptDevice::Session(session) => compare_with_copy(self.rt.alloc(), session, scope),
            _ => Answer::Nothing,
        }
    }

    fn compare_with(&mut self, file: &[u8]) -> Answer {
        let ScriptDevice::Session(session) = &mut self.device else {
            return Answer::Nothing;
        };
        let alloc = self.rt.alloc();
        match read_file(self.rt, file) {
            Some(bytes) => compare_with_image(alloc, session, ComparisonScope::Whole, bytes),
            None => Answer::Input,
        }
    }

    // Performs a command that makes, changes or prints a device.
    fn perform_device_command(&mut self, command: &Command) -> Answer {
        match command {
            Command::Fresh {
                block_size,
                page,
                block_count,
                order,
                erased,
            } => {
                let geometry = Geometry::new(*block_size, *page, *block_count);
                self.fresh(geometry, *order, *erased)
            }
            Command::Image {
                block_size,
                page,
                file,
                erased,
            } => self.image(file, *block_size, *page, *erased),
            Command::Put {
                block,
                offset,
                bytes,
                erased,
            } => self.put(*block, *offset, bytes, *erased),
            Command::Bytes {
                block,
                offset,
                count,
            } => self.bytes(*block, *offset, *count),
            _ => Answer::Nothing,
        }
    }

    /// Performs a command.
    ///
    /// Performs operations on the session. If there is no session, the answer to an operation or a
    /// comparison is `Nothing`.
    pub fn perform_command(&mut self, command: &Command) -> Answer {
        match command {
            Command::Profile(profile) => {
                self.profile = *profile;
                Answer::Reply(Reply::Done)
            }
            Command::BlankChecks => {
                self.checks_blanks = true;
                Answer::Reply(Reply::Done)
            }
            Command::Unmount => self.unmount(),
            Command::Mount(fault) => match self.take_device() {
                Some(device) => self.mount(device, *fault),
                None => Answer::Nothing,
            },
            Command::Format(fault) => match self.take_device() {
                Some(device) => self.format(device, NameOrder::LongerFirst, *fault),
                None => Answer::Nothing,
            },
            Command::Save(file) => self.save(file),
            Command::Calls => match self.device.device() {
                Some(device) => Answer::Calls(count_calls(device)),
                None => Answer::Nothing,
            },
            Command::Compare(scope) => self.compare(*scope),
            Command::CompareWith(file) => self.compare_with(file),
            Command::Perform(operation) => match &mut self.device {
                ScriptDevice::Session(session) => perform_operation(
                    self.rt.alloc(),
                    session,
                    operation,
                ),
                _ => Answer::Nothing,
            },
            command => self.perform_device_command(command),
        }
    }
}
