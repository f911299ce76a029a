// Calls that fetch the changes of a volume's image, so that C can apply them to its own flash.

ghost use Rattle.std.specs.Prelude.{◌≡◌, ◌<◌, ◌^◌, IfNone, IfSome, List};
ghost use Rattle.lfs_model.specs.session.History.{DeviceCall};
ghost use Rattle.littlefs_c.specs.ChangeLog.{AreRecordedChanges, change_call, history_writes};
ghost use Rattle.littlefs_c.specs.Fetches.{FetchesChange, IsFetchAnswer, IsChangeNumber, IsNextChange, IsChangeInfo, buffer_after_change, next_change_code, code_of_fetch_result};
ghost use Rattle.littlefs_c.specs.Volumes.{CallsVolume};

use crate::handle::{Handle, put_volume, take_volume};
use crate::noted::ImageDevice;
use crate::notes::{Change, ChangeRecord};
use lfs_volume::Volume;
use littlefs_values::{CLOSED, copy_if_fitting};
use std::alloc::Global;

/// A change in the form that C reads: a program if `kind` is 1, or an erase if it is 2. `offset` is
/// the first programmed byte in the block, and `len` the number of programmed bytes. For an erase,
/// `offset` and `len` are 0.
#[repr(C)]
#[derive(Drop)]
pub struct ChangeInfo {
    pub kind: u32,
    pub block: u32,
    pub offset: u32,
    pub len: usize,
}

/// The result of fetching a change.
pub enum Fetched {
    Change,
    NoneYet,
    NotKept,
}

// The code that is returned if a change isn't kept.
const NOT_KEPT: i64 = -202;

fn fetch_result_code(fetched: Fetched) -> i64
    ensures { result ≡ code_of_fetch_result fetched }
{
    match fetched {
        Fetched::Change => 1,
        Fetched::NoneYet => 0,
        Fetched::NotKept => NOT_KEPT,
    }
}

fn change_number_code(number: Option<u64>) -> i64
    requires { IfSome number (λ n. n < 2 ^ 63) }
    ensures { result ≡ next_change_code number }
{
    match number {
        Some(number) => number as i64,
        None => NOT_KEPT,
    }
}

// Writes a change to `shown`, and copies its bytes to a buffer if all of them fit.
fn show_change(change: &Change, shown: &mut ChangeInfo, buffer: &mut [u8])
    ensures shown { IsChangeInfo (change_call change.now) shown.new }
    ensures buffer { buffer.new ≡ buffer_after_change (change_call change.now) buffer.old }
{
    match change {
        Change::Program(block, offset, bytes) => {
            *shown = ChangeInfo {
                kind: 1,
                block: *block,
                offset: *offset,
                len: bytes.len(),
            };
            let _ = copy_if_fitting(bytes, buffer);
        }
        Change::Erase(block) => {
            *shown = ChangeInfo {
                kind: 2,
                block: *block,
                offset: 0,
                len: 0,
            };
        }
    }
}

// Fetches the change with this number, and marks all earlier changes as unwanted.
fn fetch_change(
    notes: &ChangeRecord,
    number: u64,
    shown: &mut ChangeInfo,
    buffer: &mut [u8],
) -> Fetched
    ensures { (calls : List DeviceCall) → AreRecordedChanges notes.now.first notes.now.changes.items calls → FetchesChange calls number result shown.old shown.new buffer.old buffer.new }
{
    notes.want(number);
    if notes.is_future(number) {
        return Fetched::NoneYet;
    }
    match notes.change(number) {
        Some(change) => {
            show_change(change, shown, buffer);
            Fetched::Change
        }
        None => Fetched::NotKept,
    }
}

// Fetches the change with this number from a volume's record.
fn fetch_volume_change(
    volume: &Volume<ImageDevice>,
    number: u64,
    shown: &mut ChangeInfo,
    buffer: &mut [u8],
) -> Fetched
    ensures { FetchesChange (history_writes volume.now.session.tree.history) number result shown.old shown.new buffer.old buffer.new }
{
    fetch_change(volume.device().inner().notes(), number, shown, buffer)
}

// Keeps the changes of a volume's image from the next one on, and returns that change's number.
fn next_change_number(volume: &Volume<ImageDevice>) -> Option<u64>
    ensures number { IsNextChange (history_writes volume.now.session.tree.history) result }
    ensures small { IfSome result (λ n. n < 2 ^ 63) }
{
    volume.device().inner().notes().begin()
}

/// Keeps changes of the image from the next one on, unless they are already kept. Returns the
/// number of the next change. Changes are numbered from 0 in the order in which they are made since
/// the mount.
///
/// # Errors
///
/// Returns -77 if nothing is mounted, and -202 after 2^62 changes, when change numbers have run
/// out.
#[unsafe(no_mangle)]
pub extern "C" fn lfs_c_note_changes(alloc: Global, volume: &mut Handle) -> i64
    ensures { CallsVolume (IsChangeNumber result) result volume.old.slot.mounted volume.new.slot.mounted }
{
    let Some(inner) = take_volume(alloc, volume) else {
        return CLOSED;
    };
    let answer = next_change_number(&inner.volume);
    put_volume(volume, inner);
    change_number_code(answer)
}

/// Reads the change with this number into `change`, copies its bytes to the buffer if they fit, and
/// returns 1. Returns 0 if no change has this number yet. Marks all earlier changes as unwanted, so
/// that they may be dropped.
///
/// # Errors
///
/// Returns -77 if nothing is mounted. Returns -202 if the change isn't kept: it was made before
/// [`lfs_c_note_changes`], a later change was already requested, or memory couldn't be allocated
/// for this change or a later one. On error, `change` and `buffer` don't change.
#[unsafe(no_mangle)]
pub extern "C" fn lfs_c_fetch_change(
    alloc: Global,
    volume: &mut Handle,
    number: u64,
    change: &mut ChangeInfo,
    buffer: &mut [u8],
) -> i64
    ensures call { CallsVolume (IsFetchAnswer number change.old change.new buffer.old buffer.new result) result volume.old.slot.mounted volume.new.slot.mounted }
    ensures closed { IfNone volume.old.slot.mounted ((change.new ≡ change.old) × (buffer.new ≡ buffer.old)) }
{
    let Some(inner) = take_volume(alloc, volume) else {
        return CLOSED;
    };
    let answer = fetch_volume_change(&inner.volume, number, change, buffer);
    put_volume(volume, inner);
    fetch_result_code(answer)
}
