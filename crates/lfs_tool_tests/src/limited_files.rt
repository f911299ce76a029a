// A file system in which some calls fail.

use std::alloc::Allocator;
use std::cell::Cell;
use std::fs::{Files, Metadata, OpenFile, OpenOptions, Permissions};
use std::io;
use std::io::{ErrorKind, Read, Seek, SeekFrom, Write};

// What the file system refuses, in addition to bytes beyond its free space.
#[derive(Clone, Copy, PartialEq, Eq, Debug, Drop)]
pub(crate) enum Refusal {
    Nothing,
    // An old file can't be opened for writing.
    Writing,
    // No new file can be created.
    NewNames,
    // No file can be renamed.
    Renames,
}

#[derive(Drop)]
pub(crate) struct LimitedFiles<'a, R> {
    pub(crate) files: &'a R,
    // The number of bytes that can still be written.
    pub(crate) room: &'a Cell<usize>,
    pub(crate) refusal: Refusal,
}

// A file that writes at most 7 bytes in a call.
#[derive(Drop)]
pub(crate) struct LimitedFile<'a, F> {
    file: F,
    room: &'a Cell<usize>,
}

impl<F: Read> Read for LimitedFile<'_, F> {
    fn read(&mut self, buf: &mut [u8]) -> io::Result<usize> {
        self.file.read(buf)
    }
}

impl<F: Write> Write for LimitedFile<'_, F> {
    fn write(&mut self, buf: &[u8]) -> io::Result<usize> {
        let n = buf.len().min(7).min(self.room.get());
        if n == 0 {
            return Err(io::Error::from(ErrorKind::StorageFull));
        }
        let taken = self.file.write(&buf[..n])?;
        self.room.set(self.room.get().saturating_sub(taken));
        Ok(taken)
    }

    fn flush(&mut self) -> io::Result<()> {
        self.file.flush()
    }
}

impl<F: Seek> Seek for LimitedFile<'_, F> {
    fn seek(&mut self, to: SeekFrom) -> io::Result<u64> {
        self.file.seek(to)
    }
}

impl<F: OpenFile> OpenFile for LimitedFile<'_, F> {
    fn metadata(&self) -> io::Result<Metadata> {
        self.file.metadata()
    }

    fn set_len(&self, size: u64) -> io::Result<()> {
        self.file.set_len(size)
    }

    fn sync_all(&self) -> io::Result<()> {
        self.file.sync_all()
    }

    fn sync_data(&self) -> io::Result<()> {
        self.file.sync_data()
    }

    fn set_permissions(&self, perm: Permissions) -> io::Result<()> {
        self.file.set_permissions(perm)
    }
}

impl<'a, R: Files> Files for LimitedFiles<'a, R> {
    type File = LimitedFile<'a, R::File>;

    type Dir = R::Dir;

    fn open_file(&self, how: &OpenOptions, path: &str) -> io::Result<LimitedFile<'a, R::File>> {
        let is_there = self.files.symlink_metadata(path).is_ok();
        let is_refused = match self.refusal {
            Refusal::Writing => how.asks_write() && is_there,
            Refusal::NewNames => !is_there,
            Refusal::Nothing | Refusal::Renames => false,
        };
        if is_refused {
            return Err(io::Error::from(ErrorKind::PermissionDenied));
        }
        let file = self.files.open_file(how, path)?;
        let room = self.room;
        Ok(LimitedFile { file, room })
    }

    fn open_dir(&self, path: &str) -> io::Result<R::Dir> {
        self.files.open_dir(path)
    }

    fn metadata(&self, path: &str) -> io::Result<Metadata> {
        self.files.metadata(path)
    }

    fn symlink_metadata(&self, path: &str) -> io::Result<Metadata> {
        self.files.symlink_metadata(path)
    }

    fn copy(&self, from: &str, to: &str) -> io::Result<u64> {
        self.files.copy(from, to)
    }

    fn rename(&self, from: &str, to: &str) -> io::Result<()> {
        if self.refusal == Refusal::Renames {
            return Err(io::Error::from(ErrorKind::CrossesDevices));
        }
        self.files.rename(from, to)
    }

    fn remove_file(&self, path: &str) -> io::Result<()> {
        self.files.remove_file(path)
    }

    fn create_dir(&self, path: &str) -> io::Result<()> {
        self.files.create_dir(path)
    }

    fn remove_dir(&self, path: &str) -> io::Result<()> {
        self.files.remove_dir(path)
    }

    fn remove_dir_all<B: Allocator>(&self, alloc: B, path: &str) -> io::Result<()> {
        self.files.remove_dir_all(alloc, path)
    }
}
