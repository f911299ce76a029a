// The contents of a file that is opened for writing.

ghost use Rattle.std.specs.Prelude.{◌≡◌, [], false, length, IfErr, IfOk};
ghost use Rattle.lfs_model.specs.session.TreeEdits.{file_bytes};
ghost use Rattle.lfs_model.specs.format.Slots.{Inline, Slot};
ghost use Rattle.lfs_model.specs.tree.Shown.{disk_tree};
ghost use Rattle.lfs_thread.specs.Beside.{HasGeometry};
ghost use Rattle.lfs_tree.specs.OpenContents.{IsOpenedForm, AreThreadContents, writer_contents_bytes};
ghost use Rattle.lfs_tree.specs.Openings.{CanOpenFileSlot, AreOpenedContents, opened_form};
ghost use Rattle.lfs_lookup.specs.LookupReading.{ReadsOrReports};
ghost use Rattle.lfs_lookup.specs.declared.entry.FileStorage.TheVariants as entry_contents;
ghost use Rattle.lfs_lookup.specs.declared.search.SlotPosition.{SlotPosition as SpotSeen};
ghost use Rattle.lfs_file.specs.Contents.{NoneInFlight, contents_form};
ghost use Rattle.lfs_tree.specs.Working.{CanOpenFile};
ghost use Rattle.lfs_file.specs.Form as form;

use crate::entries_at::find_at_path;
use lfs_device::{BlockDevice, Error, Geometry};
use lfs_file::{StoredList, WriterContents, contents_in_memory};
use lfs_lookup::{Path, PathLookup, SlotPosition, read_inline_at};
use lfs_thread::Thread;
use std::alloc::Global;

// Returns the geometry of the device of `thread`, the threaded list of metadata pairs.
fn geometry_of<D: BlockDevice>(thread: &Thread<D>) -> Geometry
    ensures { HasGeometry result thread.now.kept.disk }
{
    thread.device().geometry()
}

// Reads the `len` inline bytes of a slot into contents in memory.
fn open_inline_contents<D: BlockDevice>(
    alloc: Global,
    thread: &mut Thread<D>,
    slot: SlotPosition,
    len: usize,
) -> Result<WriterContents, Error>
    requires works { thread.old.failed ≡ false }
    requires can { (held : Slot) × CanOpenFileSlot thread.old.kept slot (entry_contents.Inline len) held }
    ensures opened { (held : Slot) → CanOpenFileSlot thread.old.kept slot (entry_contents.Inline len) held → IfOk result (AreOpenedContents thread.new.kept held.struct (opened_form (entry_contents.Inline len))) }
    ensures reading { ReadsOrReports thread.old thread.new result }
{
    let geometry = geometry_of(thread);
    let bytes = read_inline_at(alloc, thread, slot, 0, len)?;
    contents_in_memory(alloc, geometry, &bytes)
}

// Returns contents that consist of the stored CTZ skip-list with this head and size.
fn open_list_contents<D: BlockDevice>(thread: &Thread<D>, head: u32, size: u32) -> WriterContents
    ensures { (slot : SpotSeen) (held : Slot) → CanOpenFileSlot thread.now.kept slot (entry_contents.List head size) held → AreOpenedContents thread.now.kept held.struct (opened_form (entry_contents.List head size)) result }
{
    // A proof needs the device's block size.
    let _geometry = geometry_of(thread);
    WriterContents::Finished(StoredList {
        head,
        size,
        in_flight: false,
    })
}

// Returns the contents of the file in a slot.
fn open_contents<D: BlockDevice>(
    alloc: Global,
    thread: &mut Thread<D>,
    slot: SlotPosition,
    contents: lfs_lookup::FileStorage,
) -> Result<WriterContents, Error>
    requires works { thread.old.failed ≡ false }
    requires can { (held : Slot) × CanOpenFileSlot thread.old.kept slot contents held }
    ensures opened { (held : Slot) → CanOpenFileSlot thread.old.kept slot contents held → IfOk result (AreOpenedContents thread.new.kept held.struct (opened_form contents)) }
    ensures reading { ReadsOrReports thread.old thread.new result }
{
    match contents {
        lfs_lookup::FileStorage::Inline { len } => open_inline_contents(alloc, thread, slot, len),
        lfs_lookup::FileStorage::List { head, size } => Ok(open_list_contents(thread, head, size)),
    }
}

// Returns the contents of the file at a path: in memory if the file is inline, otherwise as a CTZ
// skip-list.
pub(crate) fn open_contents_at<D: BlockDevice>(
    alloc: Global,
    thread: &mut Thread<D>,
    root: usize,
    path: &Path<'_>,
) -> Result<WriterContents, Error>
    requires { CanOpenFile thread.old root path.now }
    ensures over { IfOk result (AreThreadContents thread.new.kept path.now) }
    ensures bytes { IfOk result (λ c. writer_contents_bytes thread.new.kept c ≡ file_bytes (disk_tree thread.old.kept.disk thread.old.kept.pairs path.now)) }
    ensures form { IfOk result (λ c. IsOpenedForm thread.old.kept.disk.profile thread.old.kept.disk.block_size (length (file_bytes (disk_tree thread.old.kept.disk thread.old.kept.pairs path.now))) (contents_form c)) }
    ensures reading { ReadsOrReports thread.old thread.new result }
{
    let target = find_at_path(alloc, thread, root, path)?;
    let PathLookup::File { slot, contents, .. } = target.found else {
        unreachable!()
    };
    // A proof needs the device's block size to see that a list has as many bytes as its entry says.
    let _device = thread.device();
    open_contents(alloc, thread, slot, contents)
}

// Returns empty contents.
pub(crate) fn empty_writer_contents<D: BlockDevice>(
    alloc: Global,
    thread: &Thread<D>,
) -> Result<WriterContents, Error>
    requires { NoneInFlight thread.now.kept.map thread.now.kept.disk.blocks }
    ensures opened { IfOk result (AreOpenedContents thread.now.kept (Inline []) (form.InMemory 0)) }
    ensures errors { IfErr result (λ e. e ≡ Error.NoMemory) }
{
    contents_in_memory(alloc, geometry_of(thread), &[])
}
