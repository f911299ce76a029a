ghost use Rattle.std.specs.Prelude.{◌≡◌, IfErr, IfOk, None, OnOk, false, option_and_then, true};
ghost use Rattle.std.specs.Io.{WritesAtMost};
ghost use Rattle.std.specs.Io.KnownBytes.{Keeps, WriteAppends};
ghost use Rattle.std.specs.String.{string_bytes};
ghost use Rattle.lfs_tool.specs.TemporaryNames.{IsNumberedPath};
ghost use Rattle.lfs_tool.specs.ImagePaths.{image_path};

use crate::temporary_files::{ImagePaths, create_image_file, move_to_path};
use std::alloc::{AllocError, Global};
use std::io::{ErrorKind, Write};
use std::rt::Files;
use std::{fs, io};

/// The file of an image that is being written. The first write creates the file, so if nothing is
/// written, an old file stays.
///
/// If there is a file or nothing at the path, the new file gets another name in the same folder,
/// and `place` renames it. If a `NewImage` is dropped before `place`, the temporary file is
/// removed, and the old file stays. The new file gets the old file's permissions. Anything else at
/// the path, such as a device, a pipe or a link, is written directly. A file is also written
/// directly if its folder doesn't permit new files.
pub struct NewImage<'a, R: Files> {
    files: &'a R,
    paths: ImagePaths,
    file: Option<R::File>,
    // Whether the file still has its temporary name.
    is_beside: bool,
}

impl<'a, R: Files> Drop for NewImage<'a, R> {
    fn drop(self) {
        let NewImage {
            files,
            paths,
            file: _,
            is_beside,
        } = self;
        if is_beside {
            let _ = fs::remove_file(files, paths.beside.as_str());
        }
    }
}

impl<'a, R: Files> NewImage<'a, R> {
    /// Returns a `NewImage` for a path, without creating a file.
    pub fn new(alloc: Global, files: &'a R, path: &str) -> Result<NewImage<'a, R>, AllocError>
        ensures path { IfOk result (λ i. image_path i ≡ path.now) }
        ensures file { IfOk result (λ i. i.file ≡ None) }
        ensures beside { IfOk result (λ i. i.is_beside ≡ false) }
    {
        Ok(NewImage {
            files,
            paths: ImagePaths::new(alloc, path)?,
            file: None,
            is_beside: false,
        })
    }

    /// Returns the file, or None before the first write. Even a write of no bytes creates the file.
    pub fn file(&self) -> Option<&R::File> {
        self.file.as_ref()
    }

    /// Renames the temporary file to the path of the image. Call this function only after all
    /// writes have succeeded and the image is flushed. If nothing was written, an old file stays.
    ///
    /// # Errors
    /// Any error of the operating system. After an error the old file stays, unless the system
    /// can't rename files. In that case the image is copied to its path, and an error may leave an
    /// incomplete copy or the temporary file.
    pub fn place(mut self) -> io::Result<()> {
        self.move_to_final()
    }

    // Creates the file.
    fn create_output_file(&mut self) -> io::Result<()>
        ensures path { self.new.paths.path ≡ self.old.paths.path }
        ensures beside { OnOk result (self.new.is_beside ≡ true → IsNumberedPath (string_bytes self.old.paths.path) (string_bytes self.new.paths.beside)) }
        ensures err { IfErr result (λ _. (self.new.file ≡ self.old.file) × (self.new.is_beside ≡ self.old.is_beside)) }
    {
        let (file, is_beside) = create_image_file(self.files, &mut self.paths)?;
        self.file = Some(file);
        self.is_beside = is_beside;
        Ok(())
    }

    // Renames the file to its path, unless it is there already.
    fn move_to_final(&mut self) -> io::Result<()>
        ensures file { (self.new.file ≡ self.old.file) × (self.new.paths ≡ self.old.paths) }
        ensures placed { OnOk result (self.new.is_beside ≡ false) }
        ensures err { IfErr result (λ _. self.new ≡ self.old) }
    {
        if self.is_beside {
            move_to_path(self.files, &self.paths)?;
        }
        self.is_beside = false;
        Ok(())
    }
}

impl<'a, R: Files> Write for NewImage<'a, R> {
    // The contents of the file, once it is created.
    ghost contents = { λ i. option_and_then R.File.contents i.file };

    fn write(&mut self, buf: &[u8]) -> io::Result<usize>
        ensures bound { WritesAtMost result buf.now }
        ensures bytes { WriteAppends (option_and_then R.File.contents self.old.file) (option_and_then R.File.contents self.new.file) result buf.now }
        ensures path { self.new.paths.path ≡ self.old.paths.path }
    {
        if self.file.is_none() {
            self.create_output_file()?;
        }
        match &mut self.file {
            Some(file) => file.write(buf),
            None => Err(io::Error::from(ErrorKind::NotFound)),
        }
    }

    fn flush(&mut self) -> io::Result<()>
        ensures bytes { Keeps (option_and_then R.File.contents self.old.file) (option_and_then R.File.contents self.new.file) }
        ensures path { self.new.paths ≡ self.old.paths }
        ensures beside { self.new.is_beside ≡ self.old.is_beside }
    {
        match &mut self.file {
            Some(file) => file.flush(),
            None => Ok(()),
        }
    }
}
