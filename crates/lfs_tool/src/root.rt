ghost use Rattle.std.specs.Prelude.{◌≡◌, ◌↔◌, ◌++◌, [], IfOk, false, true};
ghost use Rattle.std.specs.IoError.{error_kind};
ghost use Rattle.std.specs.String.{string_bytes};

use crate::{FaultLog, FileError};
use std::alloc::{AllocError, Global};
use std::io;
use std::io::ErrorKind;

// Appends a path to a folder's path, and then a name, unless the name is empty.
pub(crate) fn joined_path(
    alloc: Global,
    folder: &str,
    path: &[u8],
    name: &[u8],
) -> Result<Vec<u8>, AllocError>
    ensures { IfOk result (λ v. name.now ≡ [] → v.items ≡ folder.now ++ path.now) }
{
    let mut full = folder.as_bytes().to_vec(alloc)?;
    full.extend_from_slice(path)?;
    if !name.is_empty() {
        full.push(b'/')?;
        full.extend_from_slice(name)?;
    }
    Ok(full)
}

// A folder of the real file system, and whether a call on it has failed. For a source that is the
// last call, and for a target any call. A log keeps the first fault.
#[derive(Drop)]
pub(crate) struct Root<'a, R> {
    pub(crate) rt: &'a R,
    pub(crate) path: String,
    log: &'a FaultLog,
    pub(crate) has_failed: bool,
}

impl<'a, R: AllocGlobal> Root<'a, R> {
    pub(crate) fn new(rt: &'a R, log: &'a FaultLog, path: &str) -> Result<Root<'a, R>, AllocError>
        ensures path { IfOk result (λ root. string_bytes root.path ≡ path.now) }
        ensures fault { IfOk result (λ root. root.has_failed ≡ false) }
    {
        Ok(Root {
            rt,
            path: String::from_str(rt.alloc(), path)?,
            log,
            has_failed: false,
        })
    }

    // Returns a path in the file system, given a path below the folder, which must be UTF-8.
    pub(crate) fn full_path(&self, path: &[u8]) -> io::Result<String> {
        let Ok(path) = str::from_utf8(path) else {
            return Err(io::Error::from(ErrorKind::InvalidFilename));
        };
        Ok(format!(in self.rt.alloc(); "{}{path}", self.path)?)
    }

    // Logs a fault of a name in the folder at `path`, or of `path` itself if the name is empty.
    pub(crate) fn note(&self, path: &[u8], name: &[u8], error: &io::Error) {
        let alloc = self.rt.alloc();
        match joined_path(alloc, self.path.as_str(), path, name) {
            Ok(full) => self.log.note(alloc, full.as_slice(), error),
            Err(AllocError) => self.log.log_allocation_failure(),
        }
    }

    // Returns the error of a source or a target for an I/O error of the system. A fault is logged,
    // but a lack of memory isn't.
    pub(crate) fn fail(&mut self, path: &[u8], error: io::Error) -> FileError
        ensures kind { (error_kind error ≡ ErrorKind.OutOfMemory) ↔ (result ≡ FileError.NoMemory) }
        ensures fault { result ≡ FileError.Fault → self.new.has_failed ≡ true }
        ensures no_memory { result ≡ FileError.NoMemory → self.new.has_failed ≡ self.old.has_failed }
    {
        if error.kind() == ErrorKind::OutOfMemory {
            return FileError::NoMemory;
        }
        self.note(path, b"", &error);
        self.has_failed = true;
        FileError::Fault
    }
}
