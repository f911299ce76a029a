// Calls that format a flash, and that begin and end a session.

ghost use Rattle.std.specs.Prelude.{◌≡◌, pos, None, IfErr, IfOk};
ghost use Rattle.littlefs_values.specs.Configs.{config_profile};
ghost use Rattle.littlefs_flash.specs.Sessions.{boxed_value};
ghost use Rattle.littlefs_flash.specs.Starts.{FormatsOrRefuses, IsFormatCode, IsMountCode, IsSessionOfChip, IsValidFlashConfig, ReturnsChip, MountsOrRefuses, PreventsMount, RefusesInvalidConfig};

use crate::chip::Chip;
use crate::flash::{Flash, FlashDevice};
use lfs_device::Error;
use lfs_fs::{Session, format, mount};
use littlefs_values::{Config, unit_code};
use std::alloc::Global;
use std::mem::replace;

// Makes a device from a chip and a configuration. Errors: the chip with `Invalid` if a size of the
// chip or a field of `config` is out of range.
fn device_of_chip<F: Flash>(chip: Chip, config: &Config) -> Result<FlashDevice<F>, (Chip, Error)>
    ensures ok { IfOk result (λ d. IsValidFlashConfig config.now chip × (d.chip ≡ chip) × (d.geometry.profile ≡ config_profile config.now)) }
    ensures err { IfErr result (λ e. RefusesInvalidConfig config.now chip e.0 e.1) }
{
    if !config.is_valid() {
        return Err((chip, Error::Invalid));
    }
    match FlashDevice::new(chip, config.profile()) {
        Ok(device) => Ok(device),
        Err(back) => Err((back, Error::Invalid)),
    }
}

// Formats a chip, and returns it with the result.
fn format_chip<F: Flash + Drop>(
    alloc: Global,
    chip: Chip,
    config: &Config,
) -> (Chip, Result<(), Error>)
    ensures { FormatsOrRefuses config.now result.1 chip result.0 }
{
    let device: FlashDevice<F> = match device_of_chip(chip, config) {
        Ok(device) => device,
        Err((back, error)) => return (back, Err(error)),
    };
    match format(alloc, device) {
        Ok(session) => (session.unmount().into_chip(), Ok(())),
        Err((device, error)) => (device.into_chip(), Err(error)),
    }
}

/// Makes an empty file system on a flash, without beginning a session. Writes only blocks 0 and 1.
/// Returns 0.
///
/// # Errors
///
/// Returns -22 (`Invalid`) if a size of the chip or a field of `config` is out of range, or if a
/// session owns the chip. Returns -5 (`Io`) if the flash failed; blocks 0 and 1 may then hold any
/// bytes. Returns -12 (`NoMemory`) if memory can't be allocated; nothing has then been written.
pub fn format_flash<F: Flash + Drop>(alloc: Global, chip: &mut Chip, config: &Config) -> i64
    ensures { IsFormatCode config.now result chip.old chip.new }
{
    let (back, answer) = format_chip::<F>(alloc, replace(chip, Chip::none()), config);
    *chip = back;
    unit_code(answer)
}

// Mounts a chip, or returns the chip with an error.
fn mount_chip<F: Flash + Drop>(
    alloc: Global,
    chip: Chip,
    config: &Config,
) -> Result<Box<Session<FlashDevice<F>>, Global>, (Chip, Error)>
    ensures ok { IfOk result (λ b. IsSessionOfChip config.now chip b.value) }
    ensures err { IfErr result (λ e. PreventsMount config.now chip e.0 e.1) }
{
    let device: FlashDevice<F> = match device_of_chip(chip, config) {
        Ok(device) => device,
        Err(refused) => return Err(refused),
    };
    match mount(alloc, device) {
        Ok(session) => match Box::new(alloc, session) {
            Ok(held) => Ok(held),
            Err(failed) => Err((failed.value.unmount().into_chip(), Error::NoMemory)),
        },
        Err((device, error)) => Err((device.into_chip(), error)),
    }
}

// Mounts a chip, unless a session exists already.
fn mount_if_empty<F: Flash + Drop>(
    alloc: Global,
    held: &mut Option<Box<Session<FlashDevice<F>>, Global>>,
    chip: &mut Chip,
    config: &Config,
) -> Result<(), Error>
    ensures { MountsOrRefuses config.now result (boxed_value held.old) (boxed_value held.new) chip.old chip.new }
{
    if held.is_some() {
        return Err(Error::Busy);
    }
    match mount_chip::<F>(alloc, replace(chip, Chip::none()), config) {
        Ok(made) => {
            *held = Some(made);
            Ok(())
        }
        Err((back, error)) => {
            *chip = back;
            Err(error)
        }
    }
}

/// Begins a session on a flash, and returns 0. The session owns the chip until it ends, and
/// [`Chip::none`] takes the chip's place.
///
/// # Errors
///
/// Returns -16 (`Busy`) if a session exists already, and -22 (`Invalid`) if a size of the chip or a
/// field of `config` is out of range. Returns -84 (`Corrupt`) if the flash holds an accepted image
/// in neither order of names. Returns -5 (`Io`) if a read failed, and -12 (`NoMemory`) if memory
/// can't be allocated. After an error, the chip is back in its place, and its blocks haven't
/// changed.
pub fn mount_flash<F: Flash + Drop>(
    alloc: Global,
    held: &mut Option<Box<Session<FlashDevice<F>>, Global>>,
    chip: &mut Chip,
    config: &Config,
) -> i64
    ensures { IsMountCode config.now result (boxed_value held.old) (boxed_value held.new) chip.old chip.new }
{
    unit_code(mount_if_empty(alloc, held, chip, config))
}

/// Ends a session, and puts its chip back. Writes nothing, so changes that aren't synced are lost.
/// Returns 0, even without a session.
pub fn unmount_flash<F: Flash + Drop>(
    held: &mut Option<Box<Session<FlashDevice<F>>, Global>>,
    chip: &mut Chip,
) -> i64
    ensures closed { held.new ≡ None }
    ensures left { ReturnsChip (boxed_value held.old) chip.old chip.new }
    ensures code { result ≡ pos 0 }
{
    if let Some(ended) = held.take() {
        *chip = Box::into_inner(ended).unmount().into_chip();
    }
    0
}
