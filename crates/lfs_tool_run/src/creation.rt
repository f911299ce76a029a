ghost use Rattle.std.specs.Prelude.{◌≡◌, ◌≢◌, IfErr, IfOk, IsErrOf, OnOk};
ghost use Rattle.lfs_device.specs.RamDevice.{ram_bytes};
ghost use Rattle.lfs_fs.specs.SessionView.{system_state};
ghost use Rattle.lfs_tool.specs.Reports.{ReportsWriterFaults};
ghost use Rattle.lfs_tool.specs.Streams.{stream_inner};
ghost use Rattle.lfs_tool_run.specs.MadeImages.{AreImageBytes, IsFreshSession, HasCopiedEntries, HasWrittenImagePrefix, HasWrittenImage, IsFirstEntriesRefusal, ReportsSourceFaults};
ghost use Rattle.lfs_tool.specs.SourceEntries.{AreSourceEntries};

use crate::source_entries::copy_entries;
use lfs_device::{Error, Geometry, RamDevice};
use lfs_fs::{Session, format_ordered};
use lfs_model::NameOrder;
use lfs_tool::{
    FileError, FollowsProgress, Source, SourceEntry, Stream, ToolError, read_tree, write_and_flush,
};
use std::alloc::Global;
use std::io::Write;

/// Reads all files and folders of a source, depth first and in name order.
///
/// # Errors
/// - `Input` if the source can't be read, or if one of its folders has two equal names or a name
///   that a path can't contain.
/// - `Fs(NoMemory)` if memory can't be allocated.
pub fn read_source_entries<S: Source>(
    alloc: Global,
    source: &mut S,
) -> Result<Vec<SourceEntry>, ToolError>
    ensures entries { IfOk result (λ v. AreSourceEntries (S.shown source.old) v.items) }
    ensures source { ReportsSourceFaults (S.has_failed source.new) (S.shown source.old) result }
    ensures other { IfErr result (λ e. e ≢ ToolError.Input → e ≡ ToolError.Fs Error.NoMemory) }
{
    match read_tree(alloc, source) {
        Ok(entries) => Ok(entries),
        Err(FileError::Fault) => Err(ToolError::Input),
        Err(FileError::NoMemory) => Err(ToolError::Fs(Error::NoMemory)),
    }
}

// Formats an image in memory, and mounts it.
fn format_and_mount(
    alloc: Global,
    geometry: Geometry,
    order: NameOrder,
) -> Result<Session<RamDevice>, Error>
    ensures begins { IfOk result (λ s. IsFreshSession geometry order (system_state s)) }
    ensures err { IfErr result (λ e. e ≡ Error.NoMemory) }
{
    let device = RamDevice::blank(alloc, geometry)?;
    match format_ordered(alloc, device, order) {
        Ok(session) => Ok(session),
        // A device in memory never fails, so memory ran out.
        Err((_device, error)) => Err(error),
    }
}

/// Formats an image in memory, mounts it, and copies these entries into it in the given order.
/// `progress` receives the number of files and bytes of all entries, and is updated after each
/// entry.
///
/// # Errors
/// - `NoMemory` if memory can't be allocated.
/// - The error of the operation that refuses an entry, such as `NoSpace` if too few blocks are
///   free.
pub fn session_of_entries<F: FollowsProgress>(
    alloc: Global,
    geometry: Geometry,
    order: NameOrder,
    entries: &[SourceEntry],
    progress: &mut F,
) -> Result<Session<RamDevice>, Error>
    ensures ok { IfOk result (λ s. HasCopiedEntries geometry order entries.now (system_state s)) }
    ensures err { IfErr result (λ e. e ≢ Error.NoMemory → IsFirstEntriesRefusal geometry order entries.now e) }
{
    let mut session = format_and_mount(alloc, geometry, order)?;
    copy_entries(alloc, &mut session, entries, progress)?;
    Ok(session)
}

/// Makes an image in memory that contains these entries, with the given geometry and order of
/// names.
///
/// Errors: those of `session_of_entries`.
pub fn new_image<F: FollowsProgress>(
    alloc: Global,
    geometry: Geometry,
    order: NameOrder,
    entries: &[SourceEntry],
    progress: &mut F,
) -> Result<RamDevice, Error>
    ensures ok { IfOk result (λ d. AreImageBytes geometry order entries.now (ram_bytes d)) }
    ensures err { IfErr result (λ e. e ≢ Error.NoMemory → IsFirstEntriesRefusal geometry order entries.now e) }
{
    let session = session_of_entries(alloc, geometry, order, entries, progress)?;
    Ok(session.unmount())
}

/// Writes an image that contains these entries, with the given geometry and order of names. The
/// limits of the image are those of the geometry's profile. Nothing is written if an entry is
/// refused, and the writer is flushed at the end.
///
/// # Errors
/// - `Fs` with the error of the operation that refuses an entry. This error is `NoSpace` if too few
///   blocks are free, `NameTooLong` if a name exceeds the profile's limit, and `TooBig` if a file
///   does.
/// - `Fs(NoMemory)` if memory can't be allocated.
/// - `Output` if the writer fails. Only a prefix of the image has then been written.
pub fn create<W: Write, F: FollowsProgress>(
    alloc: Global,
    entries: &[SourceEntry],
    geometry: Geometry,
    order: NameOrder,
    out: &mut Stream<W>,
    progress: &mut F,
) -> Result<(), ToolError>
    ensures ok { OnOk result (HasWrittenImage geometry order entries.now (W.contents (stream_inner out.old)) (W.contents (stream_inner out.new))) }

    // If the writer fails, it has received only a prefix of the image.
    ensures writer { ReportsWriterFaults out.old out.new result }
    ensures beginning { IsErrOf result ToolError.Output
        → HasWrittenImagePrefix geometry order entries.now (W.contents (stream_inner out.old)) (W.contents (stream_inner out.new)) }

    // The causes of the other errors.
    ensures refused { (e : _) → IsErrOf result (ToolError.Fs e) → e ≢ Error.NoMemory → IsFirstEntriesRefusal geometry order entries.now e }
    ensures never { ¬ IsErrOf result ToolError.Input }
{
    match new_image(alloc, geometry, order, entries, progress) {
        Ok(image) => write_and_flush(out, image.bytes()),
        Err(error) => Err(ToolError::Fs(error)),
    }
}
