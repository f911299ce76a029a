// What is at a path before an image is written there.

ghost use Rattle.lfs_tool.specs.PathStates.{IsPathState};

use std::fs::{Metadata, Permissions};
use std::io;
use std::io::ErrorKind;

// What is at a path.
#[derive(Drop)]
pub(crate) enum PathState {
    // Nothing is at the path.
    Nothing,
    // A file with these permissions is at the path.
    File(Permissions),
    // A device, a pipe, a link, a folder or something unknown is at the path.
    Other,
}

// Returns what is at a path, given the system's metadata for it. A symbolic link counts as a link,
// whatever it points to.
pub(crate) fn state_of_metadata(found: io::Result<Metadata>) -> PathState
    ensures { IsPathState found result }
{
    match found {
        Ok(there) if there.is_file() => PathState::File(there.permissions()),
        Ok(_) => PathState::Other,
        Err(error) if error.kind() == ErrorKind::NotFound => PathState::Nothing,
        Err(_) => PathState::Other,
    }
}
