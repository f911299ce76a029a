// Reads of an image's superblock.

ghost use Rattle.std.specs.Prelude.{◌≡◌, ◌≤◌, ◌+◌, IfOk, Some, false, length};
ghost use Rattle.lfs_model.specs.format.EntryTypes.{superblock_fields};
ghost use Rattle.lfs_model.specs.session.History.{read_count};
ghost use Rattle.lfs_model.specs.tree.Profile.{image_superblock_fields};
ghost use Rattle.lfs_model.specs.format.Thread.{count_before_root};
ghost use Rattle.lfs_model.specs.tree.View.{IsAccepted};
ghost use Rattle.lfs_tag.specs.FieldsView.{superblock_view};
ghost use Rattle.lfs_lookup.specs.LookupReading.{ReadsOrReports};

use crate::bytes::read_inline_at;
use crate::search::SlotPosition;
use lfs_device::{BlockDevice, Error};
use lfs_tag::{Superblock, superblock_of};
use lfs_thread::Thread;
use std::alloc::Global;

// Decodes a superblock's struct.
fn superblock_of_bytes(bytes: &[u8]) -> Superblock
    requires { length bytes.now ≡ 24 }
    ensures { superblock_view result ≡ superblock_fields bytes.now }
{
    match <&[u8; 24]>::try_from(bytes) {
        Ok(bytes) => superblock_of(bytes),
        Err(_) => unreachable!(),
    }
}

/// Returns the superblock in the root directory's first pair. The other superblocks of the chain
/// may differ from this one only in their versions. Makes at most one read.
///
/// `root` is the index of the root directory's first pair.
///
/// Errors: `Io` if a read fails. `NoMemory` if memory can't be allocated.
pub fn superblock<D: BlockDevice>(
    alloc: Global,
    thread: &mut Thread<D>,
    root: usize,
) -> Result<Superblock, Error>
    requires works { thread.old.failed ≡ false }
    requires accepted { IsAccepted thread.old.kept.disk thread.old.kept.pairs }
    requires root { root ≡ count_before_root thread.old.kept.pairs }
    ensures is { IfOk result (λ f. image_superblock_fields thread.old.kept.pairs ≡ Some (superblock_view f)) }
    ensures few { read_count thread.new.kept.history ≤ read_count thread.old.kept.history + 1 }
    ensures reading { ReadsOrReports thread.old thread.new result }
{
    let slot = SlotPosition { pair: root, id: 0 };
    let bytes = read_inline_at(alloc, thread, slot, 0, 24)?;
    Ok(superblock_of_bytes(&bytes))
}
