ghost use Rattle.std.specs.Prelude.{◌≡◌, IfOk, Some, false, map};
ghost use Rattle.lfs_tool.specs.Actions.{action_view};

use crate::file_error::copy_bytes;
use crate::{FileError, Target};
use std::alloc::Global;

/// An action on a target in memory.
#[derive(Debug, PartialEq, Eq, Drop)]
pub enum TargetAction {
    /// A folder was made at this path.
    Folder(Vec<u8>),
    /// A file with these bytes was written at this path.
    File(Vec<u8>, Vec<u8>),
}

/// A target in memory that records the actions that were done, in order, and never returns `Fault`.
#[derive(Drop)]
pub struct MemoryTarget {
    pub done: Vec<TargetAction>,
}

impl Target for MemoryTarget {
    ghost done = { λ t. Some (map action_view t.done.items) };

    ghost has_failed = { λ _. false };

    fn make_folder(&mut self, alloc: Global, path: &[u8]) -> Result<(), FileError> {
        let path = copy_bytes(alloc, path)?;
        self.done
            .push(TargetAction::Folder(path))
            .map_err(|_| FileError::NoMemory)
    }

    fn put_file(&mut self, alloc: Global, path: &[u8], bytes: &[u8]) -> Result<(), FileError> {
        let path = copy_bytes(alloc, path)?;
        let bytes = copy_bytes(alloc, bytes)?;
        self.done
            .push(TargetAction::File(path, bytes))
            .map_err(|_| FileError::NoMemory)
    }
}
