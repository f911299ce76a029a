// Paths of open files.

ghost use Rattle.std.specs.Prelude.{◌≡◌, false, true, IfOk, IfErr, is_some};
ghost use Rattle.lfs_model.specs.session.Operations.{parse_path};
ghost use Rattle.lfs_model.specs.session.Refusals.{path_or_root, path_unusable};
ghost use Rattle.lfs_model.specs.session.TreeEdits.{without_prefix, same_path};
ghost use Rattle.lfs_model.specs.format.Names.{same_name};

use crate::rename_checks::at_or_beneath;
use lfs_device::Error;
use lfs_lookup::Path;
use std::alloc::Global;
use std::marker::Model;

/// The bytes of a well-formed path. In contracts, the value is the list of the path's names.
#[derive(Drop)]
pub struct OwnedPath {
    bytes: Vec<u8>,
}

impl Model for OwnedPath {
    ghost use Rattle.std.specs.Prelude.{◌≡◌, true, is_some};
    ghost use Rattle.lfs_model.specs.session.Operations.{parse_path};
    ghost use Rattle.lfs_model.specs.session.Refusals.{path_or_root};
    ghost use Rattle.lfs_model.specs.tree.Tree.{Path};

    ghost Value = { Path };

    ghost view = { λ p. path_or_root p.bytes.items };

    ghost invariant = { λ p. is_some (parse_path p.bytes.items) ≡ true };
}

impl OwnedPath {
    /// Copies the bytes of a well-formed path.
    ///
    /// Errors: `NoMemory` if memory for the copy can't be allocated.
    pub fn of(alloc: Global, bytes: &[u8]) -> Result<OwnedPath, Error>
        requires { is_some (parse_path bytes.now) ≡ true }
        ensures path { IfOk result (λ path. path ≡ path_or_root bytes.now) }
        ensures error { IfErr result (λ e. e ≡ Error.NoMemory) }
    {
        match Vec::from_slice(alloc, bytes) {
            Ok(bytes) => Ok(OwnedPath { bytes }),
            Err(_) => Err(Error::NoMemory),
        }
    }

    /// Returns the parsed path, which borrows the bytes.
    pub fn lend(&self) -> Path<'_>
        ensures { result ≡ self.now }
    {
        Path::parse(self.bytes.as_slice()).unwrap()
    }

    // Returns whether the bytes of the path are `bytes`.
    pub(crate) fn path_has_bytes(&self, bytes: &[u8]) -> bool
        requires { is_some (parse_path bytes.now) ≡ true }
        ensures { result ≡ same_path (path_or_root bytes.now) self.now }
    {
        same_path_bytes(self.bytes.as_slice(), bytes)
    }

    // Returns whether the path is the entry's path `bytes`, or is beneath it.
    pub(crate) fn is_within(&self, bytes: &[u8]) -> bool
        requires { path_unusable (parse_path bytes.now) ≡ false }
        ensures { result ≡ is_some (without_prefix (path_or_root bytes.now) self.now) }
    {
        at_or_beneath(bytes, self.bytes.as_slice())
    }
}

pub(crate) fn same_path_bytes(bytes: &[u8], other: &[u8]) -> bool
    ensures { result ≡ same_name bytes.now other.now }
{
    bytes == other
}
