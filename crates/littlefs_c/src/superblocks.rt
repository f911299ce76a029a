// Calls that read an image's superblock, or report why the image is read-only.

ghost use Rattle.std.specs.Prelude.{◌≡◌, IfNone};
ghost use Rattle.littlefs_c.specs.Superblocks.{IsReasonCall, IsSuperblockCall, IsWritableCall, FillsReasonInfo, FillsSuperblockInfo, breach_number, limit_number, limit_value, breach_info};
ghost use Rattle.littlefs_c.specs.Volumes.{CallsVolume};

use crate::handle::{Handle, put_volume, take_volume};
use lfs_volume::{Error, OtherLimit, ProfileBreach, Superblock};
use littlefs_values::{CLOSED, FsInfo, count_code, unit_code};
use std::alloc::Global;

/// The location at which an image breaks a rule of the writing profile, in the form that C reads:
/// the metadata pair, the slot in it, and the limit in the superblock. `slot` or `limit` is 0 if
/// the rule doesn't refer to one.
#[repr(C)]
#[derive(Drop)]
pub struct BreachInfo {
    pub pair: [u32; 2],
    pub slot: usize,
    pub limit: u32,
}

// Writes a superblock's fields to `shown`, or returns the error.
fn fill_superblock_info(answer: Result<Superblock, Error>, shown: &mut FsInfo) -> Result<(), Error>
    ensures { FillsSuperblockInfo answer result shown.old shown.new }
{
    let fields = answer?;
    *shown = FsInfo::of(&fields);
    Ok(())
}

/// Reads the image's superblock into `info`: the version, the block size and count, and the limits.
/// Returns 0.
///
/// # Errors
///
/// Returns -77 if nothing is mounted, and -200 (`Failed`) if the volume has failed. Returns -12
/// (`NoMemory`) if memory can't be allocated; the volume has then failed.
#[unsafe(no_mangle)]
pub extern "C" fn lfs_c_superblock(alloc: Global, volume: &mut Handle, info: &mut FsInfo) -> i64
    ensures call { CallsVolume (IsSuperblockCall info.old info.new result) result volume.old.slot.mounted volume.new.slot.mounted }
    ensures closed { IfNone volume.old.slot.mounted (info.new ≡ info.old) }
{
    let Some(mut inner) = take_volume(alloc, volume) else {
        return CLOSED;
    };
    let answer = inner.volume.superblock(alloc);
    put_volume(volume, inner);
    unit_code(fill_superblock_info(answer, info))
}

/// Returns 1 if the image may be changed, and 0 otherwise. In the second case, changes are refused
/// with `ReadOnly`, or with `Failed` if the volume has failed.
///
/// # Errors
///
/// Returns -77 if nothing is mounted.
#[unsafe(no_mangle)]
pub extern "C" fn lfs_c_is_writable(alloc: Global, volume: &mut Handle) -> i64
    ensures { CallsVolume (IsWritableCall result) result volume.old.slot.mounted volume.new.slot.mounted }
{
    let Some(inner) = take_volume(alloc, volume) else {
        return CLOSED;
    };
    let answer = inner.volume.is_writable();
    put_volume(volume, inner);
    i64::from(answer)
}

// Returns the number of the rule about a limit: 1 for names, 2 for files, 3 for attributes.
fn limit_number(limit: OtherLimit) -> u32
    ensures { result ≡ limit_number limit }
{
    match limit {
        OtherLimit::Name(_) => 1,
        OtherLimit::File(_) => 2,
        OtherLimit::Attr(_) => 3,
    }
}

fn limit_value(limit: OtherLimit) -> u32
    ensures { result ≡ limit_value limit }
{
    match limit {
        OtherLimit::Name(most) => most,
        OtherLimit::File(most) => most,
        OtherLimit::Attr(most) => most,
    }
}

// Returns the number of the rule that an image breaks, from 1 to 6.
fn breach_number(breach: ProfileBreach) -> u32
    ensures { result ≡ breach_number breach }
{
    match breach {
        ProfileBreach::OtherLimits { limit, .. } => limit_number(limit),
        ProfileBreach::LongInline { .. } => 4,
        ProfileBreach::EmptyPair { .. } => 5,
        ProfileBreach::TooLarge { .. } => 6,
    }
}

fn breach_info(breach: ProfileBreach) -> BreachInfo
    ensures { result ≡ breach_info breach }
{
    match breach {
        ProfileBreach::OtherLimits { pair, slot, limit } => BreachInfo {
            pair,
            slot,
            limit: limit_value(limit),
        },
        ProfileBreach::LongInline { pair, slot } => BreachInfo {
            pair,
            slot,
            limit: 0,
        },
        ProfileBreach::EmptyPair { pair } => BreachInfo {
            pair,
            slot: 0,
            limit: 0,
        },
        ProfileBreach::TooLarge { pair } => BreachInfo {
            pair,
            slot: 0,
            limit: 0,
        },
    }
}

// Writes the location at which an image breaks a rule to `shown`, and returns the rule's number.
// Returns 0 if the image breaks no rule.
fn fill_breach_info(
    answer: Result<Option<ProfileBreach>, Error>,
    shown: &mut BreachInfo,
) -> Result<u32, Error>
    ensures { FillsReasonInfo answer result shown.old shown.new }
{
    match answer? {
        Some(breach) => {
            *shown = breach_info(breach);
            Ok(breach_number(breach))
        }
        None => Ok(0),
    }
}

/// Returns 0 if the image may be changed. Otherwise, returns the number of a rule that the image
/// breaks, from 1 to 6, and writes the location to `breach`.
///
/// # Errors
///
/// Returns -77 if nothing is mounted, and -200 (`Failed`) if the volume has failed. Returns -12
/// (`NoMemory`) if memory can't be allocated; the volume has then failed.
#[unsafe(no_mangle)]
pub extern "C" fn lfs_c_read_only_reason(
    alloc: Global,
    volume: &mut Handle,
    breach: &mut BreachInfo,
) -> i64
    ensures call { CallsVolume (IsReasonCall breach.old breach.new result) result volume.old.slot.mounted volume.new.slot.mounted }
    ensures closed { IfNone volume.old.slot.mounted (breach.new ≡ breach.old) }
{
    let Some(mut inner) = take_volume(alloc, volume) else {
        return CLOSED;
    };
    let answer = inner.volume.read_only_reason(alloc);
    put_volume(volume, inner);
    count_code(fill_breach_info(answer, breach))
}
