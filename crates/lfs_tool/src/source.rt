ghost use Rattle.std.specs.Prelude.{◌≡◌, Bool, IfOk, IfSome, IsErrOf, None, OnOk, Option, false, map, true};
ghost use Rattle.lfs_model.specs.layers.Source as model;
ghost use Rattle.lfs_tool.specs.SourceTrees.{IsUnchangedIfKnown, listed_view};

use crate::FileError;
use std::alloc::Global;

/// Whether a name is that of a file or of a folder.
#[derive(Clone, Copy, Debug, PartialEq, Eq, PartialOrd, Ord, Drop)]
pub enum SourceKind {
    /// A file, which contains bytes.
    File,
    /// A folder, which contains names.
    Folder,
}

/// A name in a folder.
#[derive(Debug, PartialEq, Eq, PartialOrd, Ord, Drop)]
pub struct ListedName {
    /// The bytes of the name.
    pub name: Vec<u8>,
    /// Whether the name is that of a file or of a folder.
    pub kind: SourceKind,
    /// The length of a file when it was listed, which is only a hint and may be wrong. The length
    /// of a folder has no meaning.
    pub len: u64,
    /// The time of the last modification in seconds since 1970, or None if it is unknown, before
    /// 1970 or after 2106.
    pub modified: Option<u32>,
}

/// A folder and everything below it. A path has a `/` before each name, and the folder itself has
/// the empty path.
pub trait Source {
    // The tree of the source, if it is known.
    ghost shown: { Self → Option model.TreeSource } = { λ _. None };

    // Whether the last call returned `Fault`.
    ghost has_failed: { Self → Bool };

    /// Returns the names in a folder, in any order.
    ///
    /// # Errors
    /// - `Fault` if the folder can't be read.
    /// - `NoMemory` if memory can't be allocated.
    fn list(&mut self, alloc: Global, folder: &[u8]) -> Result<Vec<ListedName>, FileError>
        ensures names { IfOk result (λ v. IfSome (shown self.old) (λ s. map listed_view v.items ≡ s.names folder.now)) }
        ensures shown { IsUnchangedIfKnown (shown self.old) (shown self.new) }
        ensures kept { OnOk result (has_failed self.new ≡ false) }
        ensures fault { IsErrOf result FileError.Fault → has_failed self.new ≡ true }
        ensures no_memory { IsErrOf result FileError.NoMemory → has_failed self.new ≡ false };

    /// Returns the bytes of a file. `listed_len` is the length in the file's `ListedName`. All
    /// bytes are returned, even if the file has another length.
    ///
    /// # Errors
    /// - `Fault` if the file can't be read.
    /// - `NoMemory` if memory can't be allocated.
    fn read(&mut self, alloc: Global, file: &[u8], listed_len: u64) -> Result<Vec<u8>, FileError>
        ensures bytes { IfOk result (λ v. IfSome (shown self.old) (λ s. v.items ≡ s.bytes file.now)) }
        ensures shown { IsUnchangedIfKnown (shown self.old) (shown self.new) }
        ensures kept { OnOk result (has_failed self.new ≡ false) }
        ensures fault { IsErrOf result FileError.Fault → has_failed self.new ≡ true }
        ensures no_memory { IsErrOf result FileError.NoMemory → has_failed self.new ≡ false };
}
