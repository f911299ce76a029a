ghost use Rattle.std.specs.Prelude.{◌≡◌, IfOk};
ghost use Rattle.lfs_tool.specs.Roots.{target_root};

use crate::root::Root;
use crate::{FaultLog, FileError, Target};
use std::alloc::{AllocError, Global};
use std::fs::File;
use std::io::{ErrorKind, Write};
use std::rt::Files;
use std::{fs, io};

/// A folder of the real file system, or a link to one. If the folder doesn't exist, the first call
/// makes it and the folders above it. A call returns `Fault` if its path isn't UTF-8, or if
/// something other than the expected file or folder is already there, such as a symbolic link. A
/// log keeps the first fault with its path.
#[derive(Drop)]
pub struct TargetFolder<'a, R> {
    root: Root<'a, R>,
}

// Makes a folder, unless it exists.
fn ensure_folder<R: Files>(rt: &R, path: &str) -> io::Result<()> {
    let Err(error) = fs::create_dir(rt, path) else {
        return Ok(());
    };
    match fs::symlink_metadata(rt, path) {
        Ok(there) if there.is_dir() => Ok(()),
        _ => Err(error),
    }
}

// Makes a folder and the folders above it, unless the folder or a link to a folder is at the path.
fn make_folders<R: Files>(rt: &R, path: &str) -> io::Result<()> {
    match ensure_folder(rt, path) {
        Err(error) if error.kind() == ErrorKind::NotFound => fs::create_dir_all(rt, path),
        Err(error) => match fs::metadata(rt, path) {
            Ok(there) if there.is_dir() => Ok(()),
            _ => Err(error),
        },
        Ok(()) => Ok(()),
    }
}

// Fails if there is anything but a file at the path.
fn check_free_path<R: Files>(rt: &R, path: &str) -> io::Result<()> {
    match fs::symlink_metadata(rt, path) {
        Ok(there) if !there.is_file() => Err(io::Error::new(
            ErrorKind::InvalidInput,
            "something else than a file stands there",
        )),
        _ => Ok(()),
    }
}

impl<'a, R: Files + AllocGlobal + Clone + Drop> TargetFolder<'a, R> {
    /// Returns the target for the folder at a path of the file system. The folder isn't created
    /// yet.
    ///
    /// Errors: `AllocError` if memory can't be allocated.
    pub fn new(rt: &'a R, log: &'a FaultLog, root: &str) -> Result<TargetFolder<'a, R>, AllocError>
        ensures root { IfOk result (λ f. target_root f ≡ root.now) }
    {
        Ok(TargetFolder {
            root: Root::new(rt, log, root)?,
        })
    }

    // Makes the target's folder unless it exists, and returns a path in the file system. Fails if
    // the path isn't UTF-8.
    fn make_target_folder(&self, path: &[u8]) -> io::Result<String> {
        let full = self.root.full_path(path)?;
        if let Err(error) = make_folders(self.root.rt, self.root.path.as_str()) {
            self.root.note(b"", b"", &error);
            return Err(error);
        }
        Ok(full)
    }

    // Makes the folder at a path. The empty path is the target's own folder.
    fn make_folder_at(&self, path: &[u8]) -> io::Result<()> {
        let full = self.make_target_folder(path)?;
        if path.is_empty() {
            return Ok(());
        }
        ensure_folder(self.root.rt, full.as_str())
    }

    fn write_file_at(&self, path: &[u8], bytes: &[u8]) -> io::Result<()> {
        let full = self.make_target_folder(path)?;
        check_free_path(self.root.rt, full.as_str())?;
        let mut file = File::create(self.root.rt, full.as_str())?;
        file.write_all(bytes)
    }
}

impl<'a, R: Files + AllocGlobal + Clone + Drop> Target for TargetFolder<'a, R> {
    ghost has_failed = { λ t. t.root.has_failed };

    fn make_folder(&mut self, _alloc: Global, path: &[u8]) -> Result<(), FileError> {
        match self.make_folder_at(path) {
            Ok(()) => Ok(()),
            Err(error) => Err(self.root.fail(path, error)),
        }
    }

    fn put_file(&mut self, _alloc: Global, path: &[u8], bytes: &[u8]) -> Result<(), FileError> {
        match self.write_file_at(path, bytes) {
            Ok(()) => Ok(()),
            Err(error) => Err(self.root.fail(path, error)),
        }
    }
}
