ghost use Rattle.std.specs.Prelude.{◌≡◌, Bool, IsErrOf, List, None, OnErr, OnOk, Option, true};
ghost use Rattle.lfs_model.specs.layers.Listing.{UnpackingAction, MakeDirectory, PutFile};
ghost use Rattle.lfs_tool.specs.Actions.{AddsAction};

use crate::FileError;
use std::alloc::Global;

/// A folder into which files and folders are written. A path has a `/` before each name.
pub trait Target {
    // The actions that were done, if they are known.
    ghost done: { Self → Option (List UnpackingAction) } = { λ _. None };

    // Whether any call has returned `Fault`.
    ghost has_failed: { Self → Bool };

    /// Makes a folder. If the folder already exists, it stays unchanged.
    ///
    /// # Errors
    /// - `Fault` if the folder can't be made.
    /// - `NoMemory` if memory can't be allocated.
    fn make_folder(&mut self, alloc: Global, path: &[u8]) -> Result<(), FileError>
        ensures done { OnOk result (AddsAction (done self.old) (done self.new) (MakeDirectory path.now)) }
        ensures undone { OnErr result (done self.new ≡ done self.old) }
        ensures kept { OnOk result (has_failed self.new ≡ has_failed self.old) }
        ensures fault { IsErrOf result FileError.Fault → has_failed self.new ≡ true }
        ensures no_memory { IsErrOf result FileError.NoMemory → has_failed self.new ≡ has_failed self.old };

    /// Writes a file with these bytes at a path. A file that already exists there is replaced.
    ///
    /// # Errors
    /// - `Fault` if the file can't be created or written.
    /// - `NoMemory` if memory can't be allocated.
    fn put_file(&mut self, alloc: Global, path: &[u8], bytes: &[u8]) -> Result<(), FileError>
        ensures done { OnOk result (AddsAction (done self.old) (done self.new) (PutFile path.now bytes.now)) }
        ensures undone { OnErr result (done self.new ≡ done self.old) }
        ensures kept { OnOk result (has_failed self.new ≡ has_failed self.old) }
        ensures fault { IsErrOf result FileError.Fault → has_failed self.new ≡ true }
        ensures no_memory { IsErrOf result FileError.NoMemory → has_failed self.new ≡ has_failed self.old };
}
