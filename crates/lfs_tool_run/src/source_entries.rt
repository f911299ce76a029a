// Copying the entries of a source into an image.

ghost use Rattle.std.specs.Prelude.{[], ◌≡◌, ◌≢◌, IfErr, OnOk};
ghost use Rattle.lfs_model.specs.tree.Fresh.{IsFreshDisk, empty_tree};
ghost use Rattle.lfs_model.specs.layers.Listing.{new_flags, node_copy_operations};
ghost use Rattle.lfs_model.specs.session.State.{Healthy, mounted_session};
ghost use Rattle.lfs_model.specs.tree.Tree.{FileNode};
ghost use Rattle.lfs_fs.specs.FlagsView.{flags_view};
ghost use Rattle.lfs_fs.specs.SessionView.{system_state};
ghost use Rattle.lfs_tool_run.specs.AppliedOperations.{AreApplied, AppliesUntilError, IsHealthyWithoutFiles, IsFirstRefusal, entry_operations, entries_operations};

use bitflags::Flags;
use lfs_device::{Error, RamDevice};
use lfs_fs::{OpenFlags, Session};
use lfs_tool::{FilesAndBytes, FollowsProgress, SourceEntry};
use std::alloc::Global;

// Returns the flags for opening a new file.
fn new_file_flags() -> OpenFlags
    ensures { flags_view result ≡ new_flags }
{
    let mut flags = OpenFlags::WRITE;
    flags.insert(OpenFlags::CREATE);
    flags
}

fn create_file_in(
    alloc: Global,
    session: &mut Session<RamDevice>,
    path: &[u8],
    bytes: &[u8],
) -> Result<(), Error>
    requires { IsHealthyWithoutFiles (system_state session.old) }
    ensures { AppliesUntilError (system_state session.old) (node_copy_operations path.now (FileNode [] bytes.now)) result (system_state session.new) }
{
    let fd = session.open(alloc, path, new_file_flags())?;
    session.write(alloc, fd, bytes)?;
    session.close(alloc, fd)
}

// Creates a file with its bytes, or an empty directory. Errors: those of the session's calls.
fn copy_entry(
    alloc: Global,
    session: &mut Session<RamDevice>,
    entry: &SourceEntry,
) -> Result<(), Error>
    requires { IsHealthyWithoutFiles (system_state session.old) }
    ensures { AppliesUntilError (system_state session.old) (entry_operations entry.now) result (system_state session.new) }
{
    match &entry.bytes {
        Some(bytes) => create_file_in(alloc, session, &entry.path, bytes),
        None => session.mkdir(alloc, &entry.path),
    }
}

fn counts_of_entry(entry: &SourceEntry) -> FilesAndBytes {
    match &entry.bytes {
        Some(bytes) => FilesAndBytes::one_file(bytes.len()),
        None => FilesAndBytes::default(),
    }
}

fn counts_of_entries(entries: &[SourceEntry]) -> FilesAndBytes {
    let mut whole = FilesAndBytes::default();
    for entry in entries {
        whole = whole.plus(counts_of_entry(entry));
    }
    whole
}

// Copies the entries in order, until one is refused, and reports the progress. Errors: the error of
// the operation that refuses an entry, or `NoMemory`.
pub(crate) fn copy_entries<F: FollowsProgress>(
    alloc: Global,
    session: &mut Session<RamDevice>,
    entries: &[SourceEntry],
    progress: &mut F,
) -> Result<(), Error>
    requires fresh { IsFreshDisk (system_state session.old).disk }
    requires mounts { (system_state session.old).state ≡ Healthy (mounted_session empty_tree) }
    ensures carried { OnOk result (AreApplied (system_state session.old) (entries_operations entries.now) (system_state session.new)) }
    ensures refused { IfErr result (λ e. e ≢ Error.NoMemory → IsFirstRefusal (system_state session.old) (entries_operations entries.now) e) }
{
    progress.begin(counts_of_entries(entries));
    for entry in entries {
        if let Err(error) = copy_entry(alloc, session, entry) {
            // A device in memory never fails, so if no operation was refused, memory ran out.
            let _device = session.device();
            return Err(error);
        }
        progress.add(counts_of_entry(entry));
    }
    Ok(())
}
