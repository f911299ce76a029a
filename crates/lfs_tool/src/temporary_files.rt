// Temporary files in the folder of an image, which are renamed to the image's path.

ghost use Rattle.std.specs.Prelude.{◌≡◌, ◌++◌, IfOk, OnOk, false, true};
ghost use Rattle.std.specs.Fmt.{decimal};
ghost use Rattle.std.specs.String.{string_bytes};
ghost use Rattle.lfs_tool.specs.TemporaryNames.{IsNumberedPath, temporary_prefix};

use crate::path_state::{PathState, state_of_metadata};
use std::alloc::{AllocError, Global};
use std::fs::{File, OpenFile, OpenOptions, Permissions};
use std::io::ErrorKind;
use std::path::Path;
use std::rt::Files;
use std::{fs, io};

// The number of names to try for a temporary file.
const NAMES: u32 = 1000;

// The largest number of digits in a temporary name.
const DIGITS: usize = 10;

// The path of an image, and the path of a temporary file in the same folder. `new` allocates the
// memory for all temporary names.
#[derive(Drop)]
pub(crate) struct ImagePaths {
    // The path of the finished image.
    pub(crate) path: String,
    // The path of each temporary file, without the number that follows.
    start: String,
    // The path of the temporary file that was tried last.
    pub(crate) beside: String,
    ghost is_start: { string_bytes start ≡ temporary_prefix (string_bytes path) },
}

impl ImagePaths {
    // Returns the paths for an image at this path. Errors: `AllocError` if memory can't be
    // allocated.
    pub(crate) fn new(alloc: Global, path: &str) -> Result<ImagePaths, AllocError>
        ensures { IfOk result (λ p. string_bytes p.path ≡ path.now) }
    {
        let start = Path::new(path)
            .with_file_name(alloc, ".mklittlefs-")?
            .into_string();
        let beside = String::with_capacity(alloc, start.len().saturating_add(DIGITS))?;
        Ok(ImagePaths {
            path: String::from_str(alloc, path)?,
            start,
            beside,
        })
    }

    // Sets the path of the temporary file to the one with this number.
    fn set_temporary_number(&mut self, number: u32) -> Result<(), AllocError>
        ensures path { self.new.path ≡ self.old.path }
        ensures beside { OnOk result (string_bytes self.new.beside ≡ temporary_prefix (string_bytes self.old.path) ++ decimal number) }
    {
        self.beside.clear();
        self.beside.push_str(self.start.as_str())?;
        write!(self.beside, "{number}")?;
        Ok(())
    }
}

// Creates a temporary file in the folder of a path, with the first name that is free.
fn create_temporary_file<R: Files>(files: &R, paths: &mut ImagePaths) -> io::Result<R::File>
    ensures path { paths.new.path ≡ paths.old.path }
    ensures beside { OnOk result (IsNumberedPath (string_bytes paths.old.path) (string_bytes paths.new.beside)) }
{
    for number in 0..NAMES {
        paths.set_temporary_number(number)?;
        match File::create_new(files, paths.beside.as_str()) {
            Ok(file) => return Ok(file),
            Err(error) if error.kind() == ErrorKind::AlreadyExists => {}
            Err(error) => return Err(error),
        }
    }
    Err(io::Error::from(ErrorKind::AlreadyExists))
}

// Creates a temporary file in the folder of a path. If the folder doesn't permit new files, creates
// or truncates the file at the path itself. Returns the file, and whether it is temporary.
fn create_new_file<R: Files>(files: &R, paths: &mut ImagePaths) -> io::Result<(R::File, bool)>
    ensures path { paths.new.path ≡ paths.old.path }
    ensures beside { IfOk result (λ made. made.1 ≡ true → IsNumberedPath (string_bytes paths.old.path) (string_bytes paths.new.beside)) }
{
    match create_temporary_file(files, paths) {
        Ok(file) => Ok((file, true)),
        Err(error) if error.kind() == ErrorKind::PermissionDenied => {
            Ok((File::create(files, paths.path.as_str())?, false))
        }
        Err(error) => Err(error),
    }
}

// Creates the file that replaces a file with these permissions. Fails if the old file isn't
// writable.
fn create_replacement_file<R: Files>(
    files: &R,
    paths: &mut ImagePaths,
    permissions: Permissions,
) -> io::Result<(R::File, bool)>
    ensures path { paths.new.path ≡ paths.old.path }
    ensures beside { IfOk result (λ made. made.1 ≡ true → IsNumberedPath (string_bytes paths.old.path) (string_bytes paths.new.beside)) }
{
    let _there = OpenOptions::new()
        .write(true)
        .open(files, paths.path.as_str())?;
    let made = create_new_file(files, paths)?;
    // If the system has no permissions, the file keeps those of a new file.
    let _ = made.0.set_permissions(permissions);
    Ok(made)
}

// Creates the file for a path, depending on what is at the path.
fn create_for_path<R: Files>(
    files: &R,
    paths: &mut ImagePaths,
    standing: PathState,
) -> io::Result<(R::File, bool)>
    ensures path { paths.new.path ≡ paths.old.path }
    ensures beside { IfOk result (λ made. made.1 ≡ true → IsNumberedPath (string_bytes paths.old.path) (string_bytes paths.new.beside)) }
    ensures there { standing ≡ PathState.Other → IfOk result (λ made. made.1 ≡ false) }
{
    match standing {
        PathState::Nothing => create_new_file(files, paths),
        PathState::File(permissions) => create_replacement_file(files, paths, permissions),
        PathState::Other => Ok((File::create(files, paths.path.as_str())?, false)),
    }
}

// Creates the file for a path, and returns whether it is temporary. If something other than a file
// is at the path, it is written directly.
pub(crate) fn create_image_file<R: Files>(
    files: &R,
    paths: &mut ImagePaths,
) -> io::Result<(R::File, bool)>
    ensures path { paths.new.path ≡ paths.old.path }
    ensures beside { IfOk result (λ made. made.1 ≡ true → IsNumberedPath (string_bytes paths.old.path) (string_bytes paths.new.beside)) }
{
    let found = fs::symlink_metadata(files, paths.path.as_str());
    create_for_path(files, paths, state_of_metadata(found))
}

// Renames the temporary file to its path. If the system refuses the rename, for example because the
// path is a mount point, copies the bytes and removes the temporary file.
pub(crate) fn move_to_path<R: Files>(files: &R, paths: &ImagePaths) -> io::Result<()> {
    let (beside, path) = (paths.beside.as_str(), paths.path.as_str());
    if fs::rename(files, beside, path).is_ok() {
        return Ok(());
    }
    fs::copy(files, beside, path)?;
    fs::remove_file(files, beside)
}
