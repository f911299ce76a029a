// Reads of the inline bytes of a file's slot.

ghost use Rattle.std.specs.Prelude.{◌≡◌, ◌≤◌, ◌<◌, ◌+◌, List, ℕ, IfOk, IfErr, IsSome, Some, drop, false, length, slice_get, take};
ghost use Rattle.std.specs.Option.{option_copied};
ghost use Rattle.lfs_model.specs.session.History.{read_count};
ghost use Rattle.lfs_model.specs.format.Slots.{PairContent as ModelContent, Inline, Slot};
ghost use Rattle.lfs_thread.specs.CachedLog.{IsContentLog, cached_log};
ghost use Rattle.lfs_lookup.specs.BytesAt.{IsSpotSlot, file_slot_and_storage};
ghost use Rattle.lfs_lookup.specs.LookupReading.{ReadsOrReports};

use crate::by_path::look_up_path;
use crate::entry::FileStorage;
use crate::path::Path;
use crate::paths::VisiblePathLookup;
use crate::search::SlotPosition;
use core::cmp::min;
use lfs_device::{BlockDevice, Error};
use lfs_tag::kinds::INLINE_STRUCT;
use lfs_tag::{Log, Steps, get};
use lfs_thread::Thread;
use std::alloc::{AllocError, Global};

// Returns a copy of at most `count` of the bytes, starting at offset `position`.
fn copy_bytes_from(
    alloc: Global,
    bytes: &[u8],
    position: u32,
    count: usize,
) -> Result<Vec<u8>, AllocError>
    ensures { IfOk result (λ v. v.items ≡ take count (drop position bytes.now)) }
{
    let from = min(position as usize, bytes.len());
    let len = min(count, bytes.len() - from);
    Vec::from_slice(alloc, &bytes[from..from + len])
}

// Returns the inline bytes of a slot in a log. Returns None if the slot's struct isn't inline.
fn inline_in_log<'a>(log: &Log<'a>, id: u16) -> Option<&'a [u8]>
    ensures { (content : ModelContent) (slot : Slot) (bytes : List ℕ) → IsContentLog log.now content → slice_get content.slots id ≡ Some slot → slot.struct ≡ Inline bytes → option_copied result ≡ Some bytes }
{
    get(log, INLINE_STRUCT, id, &mut Steps::new())
}

// Returns at most `count` inline bytes of a slot in a log, starting at offset `position`.
fn copy_inline_bytes(
    alloc: Global,
    log: &Log<'_>,
    id: u16,
    position: u32,
    count: usize,
) -> Result<Vec<u8>, Error>
    ensures bytes { (content : ModelContent) (slot : Slot) (bytes : List ℕ) → IsContentLog log.now content → slice_get content.slots id ≡ Some slot → slot.struct ≡ Inline bytes → IfOk result (λ v. v.items ≡ take count (drop position bytes)) }
    ensures errors { IfErr result (λ e. e ≡ Error.NoMemory) }
{
    let Some(bytes) = inline_in_log(log, id) else {
        return Ok(Vec::new(alloc));
    };
    Ok(copy_bytes_from(alloc, bytes, position, count)?)
}

/// Returns at most `count` inline bytes of a slot with an inline struct, starting at offset
/// `position`. Makes at most one read, and no read if the slot's block is cached.
///
/// Errors: `Io` if a read fails. `NoMemory` if memory can't be allocated.
pub fn read_inline_at<D: BlockDevice>(
    alloc: Global,
    thread: &mut Thread<D>,
    slot: SlotPosition,
    position: u32,
    count: usize,
) -> Result<Vec<u8>, Error>
    requires works { thread.old.failed ≡ false }
    requires below { slot.pair < length thread.old.kept.pairs }
    ensures bytes { (held : Slot) (bytes : List ℕ) → IsSpotSlot thread.old.kept slot held → held.struct ≡ Inline bytes → IfOk result (λ v. v.items ≡ take count (drop position bytes)) }
    ensures no_call { IsSome (cached_log thread.old slot.pair) → thread.new.kept ≡ thread.old.kept }
    ensures few { read_count thread.new.kept.history ≤ read_count thread.old.kept.history + 1 }
    ensures reading { ReadsOrReports thread.old thread.new result }
{
    thread.load_pair(slot.pair)?;
    copy_inline_bytes(
        alloc,
        &thread.lend(slot.pair).unwrap(),
        slot.id,
        position,
        count,
    )
}

/// Returns the slot of the file that a look-up found, and where the file's bytes are stored.
/// Returns None if the look-up found no file.
pub fn slot_of_file(shown: VisiblePathLookup) -> Option<(SlotPosition, FileStorage)>
    ensures { result ≡ file_slot_and_storage shown }
{
    match shown {
        VisiblePathLookup::File { slot, contents } => Some((slot, contents)),
        _ => None,
    }
}
