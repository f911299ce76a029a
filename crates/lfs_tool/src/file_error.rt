ghost use Rattle.std.specs.Prelude.{◌≡◌, IfOk};

use std::alloc::Global;

/// The reason why a source or a target failed.
#[derive(Clone, Copy, Debug, PartialEq, Eq, Drop)]
pub enum FileError {
    /// A file or a folder couldn't be read or written, or a folder has invalid names.
    Fault,
    /// Memory couldn't be allocated.
    NoMemory,
}

pub(crate) fn copy_bytes(alloc: Global, bytes: &[u8]) -> Result<Vec<u8>, FileError>
    ensures bytes { IfOk result (λ v. v.items ≡ bytes.now) }
    ensures memory { (e : _) → result ≡ Err e → e ≡ FileError.NoMemory }
{
    bytes.to_vec(alloc).map_err(|_| FileError::NoMemory)
}
