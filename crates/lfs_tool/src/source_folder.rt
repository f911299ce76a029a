ghost use Rattle.std.specs.Prelude.{◌≡◌, IfOk};
ghost use Rattle.lfs_tool.specs.Roots.{source_image_size, source_root};

use crate::file_bytes::read_at_most;
use crate::root::{Root, joined_path};
use crate::{FaultLog, FileError, FolderRules, Links, ListedName, Source, SourceKind};
use std::alloc::{AllocError, Global};
use std::fs::{File, FileType, Metadata, OpenFile};
use std::io::{ErrorKind, Read};
use std::os::unix::fs::MetadataExt;
use std::rt::Files;
use std::time::UNIX_EPOCH;
use std::{fs, io};

/// A file that is longer than the image that is made of its folder.
#[derive(Debug, Drop)]
pub struct OversizedFile {
    /// The path of the file below the folder, with a `/` before each name.
    pub path: Vec<u8>,
    /// The length of the file in bytes.
    pub len: u64,
}

/// A folder of the real file system. `list` returns `Fault` for a name that isn't UTF-8, and for an
/// entry that is neither a file nor a folder. The rules say whether a symbolic link is followed,
/// left out, or leads to a `Fault`. A followed link to a folder that contains the link always leads
/// to a `Fault`. A log keeps the first fault with its path.
///
/// The folder is read for an image of a given size. A file that is longer than the image isn't
/// read, since it can't fit. A file that is too long counts as empty, and `first_oversized_file` returns
/// the first such file.
#[derive(Drop)]
pub struct Folder<'a, R> {
    root: Root<'a, R>,
    // The size of the image in bytes.
    image: u64,
    // The first file that was longer than the image.
    too_long: Option<OversizedFile>,
    rules: FolderRules<'a>,
}

fn file_type_kind(kind: FileType) -> io::Result<SourceKind> {
    if kind.is_dir() {
        Ok(SourceKind::Folder)
    } else if kind.is_file() {
        Ok(SourceKind::File)
    } else if kind.is_symlink() {
        let words = "a symbolic link; --follow-links reads its target, --skip-links leaves it out";
        Err(io::Error::new(ErrorKind::InvalidInput, words))
    } else {
        Err(io::Error::new(ErrorKind::InvalidInput, "neither a file nor a folder"))
    }
}

// Returns the entry of a name in a folder, with its kind, length and time.
fn listed_name_of(
    alloc: Global,
    name: &[u8],
    metadata: io::Result<Metadata>,
) -> io::Result<ListedName> {
    let metadata = metadata?;
    Ok(ListedName {
        kind: file_type_kind(metadata.file_type())?,
        name: name.to_vec(alloc)?,
        len: metadata.len(),
        modified: seconds_of_change(&metadata),
    })
}

// Returns the time at which a file was last modified, or None if it is before 1970 or after 2106.
fn seconds_of_change(metadata: &Metadata) -> Option<u32> {
    let since = metadata.modified().ok()?.duration_since(UNIX_EPOCH).ok()?;
    u32::try_from(since.as_secs()).ok()
}

impl<'a, R: Files + AllocGlobal + Clone + Drop> Folder<'a, R> {
    /// Makes a source of the folder at a path of the file system. `image` is the size in bytes of
    /// the image to make, and `rules` are the rules for reading the folder. Nothing is read yet.
    ///
    /// Errors: `AllocError` if memory can't be allocated.
    pub fn new(
        rt: &'a R,
        log: &'a FaultLog,
        root: &str,
        image: u64,
        rules: FolderRules<'a>,
    ) -> Result<Folder<'a, R>, AllocError>
        ensures root { IfOk result (λ f. source_root f ≡ root.now) }
        ensures image { IfOk result (λ f. source_image_size f ≡ image) }
    {
        Ok(Folder {
            root: Root::new(rt, log, root)?,
            image,
            too_long: None,
            rules,
        })
    }

    // Returns the entry of a name, or None if the rules leave it out.
    fn filter_entry(
        &self,
        folder: &[u8],
        name: &[u8],
        own: io::Result<Metadata>,
    ) -> io::Result<Option<ListedName>> {
        let alloc = self.root.rt.alloc();
        let path = joined_path(alloc, "", folder, name)?;
        if self.rules.is_excluded(path.as_slice(), name) {
            return Ok(None);
        }
        let metadata = match own {
            Ok(metadata) if metadata.file_type().is_symlink() => match self.rules.links {
                Links::Refuse => Ok(metadata),
                Links::Skip => return Ok(None),
                Links::Follow => {
                    let full = self.root.full_path(path.as_slice())?;
                    fs::metadata(self.root.rt, full.as_str())
                }
            },
            own => own,
        };
        if let Ok(found) = &metadata {
            if self.rules.links == Links::Follow && self.is_same_or_ancestor(folder, found)? {
                return Err(io::Error::new(ErrorKind::InvalidInput, "the folder is in itself"));
            }
        }
        let listed = listed_name_of(alloc, name, metadata)?;
        Ok(Some(listed))
    }

    // Returns whether `found` is the folder at a path or one of the folders above it.
    fn is_same_or_ancestor(&self, path: &[u8], found: &Metadata) -> io::Result<bool> {
        if !found.is_dir() {
            return Ok(false);
        }
        for end in 0..path.len().saturating_add(1) {
            if matches!(path.get(end), None | Some(b'/')) {
                let beginning = path.get(..end).unwrap_or(path);
                let full = self.root.full_path(beginning)?;
                let above = fs::metadata(self.root.rt, full.as_str())?;
                if above.dev() == found.dev() && above.ino() == found.ino() {
                    return Ok(true);
                }
            }
        }
        Ok(false)
    }

    /// Returns the first file that `read` found to be longer than the image.
    pub fn first_oversized_file(&self) -> Option<&OversizedFile> {
        self.too_long.as_ref()
    }

    fn list_names(&self, alloc: Global, path: &[u8]) -> io::Result<Vec<ListedName>> {
        let full = self.root.full_path(path)?;
        let mut names = Vec::new(alloc);
        for entry in fs::read_dir(self.root.rt, full.as_str())? {
            if entry.is_err() {
                self.log_invalid_names(path)?;
            }
            let entry = entry?;
            let name = entry.file_name();
            let listed = self.filter_entry(path, name.as_bytes(), entry.metadata());
            if let Err(error) = &listed {
                self.root.note(path, name.as_bytes(), error);
            }
            if let Some(listed) = listed? {
                names.push(listed)?;
            }
        }
        Ok(names)
    }

    // Logs the names in a folder that aren't UTF-8. The log keeps the first one.
    fn log_invalid_names(&self, path: &[u8]) -> io::Result<()> {
        let mut full = self.root.full_path(path)?;
        // The path that `fs::read_dir` opens also ends in `/`.
        full.push('/')?;
        let mut names = Vec::new(self.root.rt.alloc());
        self.root
            .rt
            .open_dir(full.as_str())?
            .read_to_end(&mut names)?;
        for name in names.split(|byte| *byte == 0) {
            if str::from_utf8(name).is_err() {
                let error = io::Error::new(ErrorKind::InvalidFilename, "the name is not UTF-8");
                self.root.note(path, name, &error);
            }
        }
        Ok(())
    }

    // Returns the bytes of a file. If the listed length exceeds the image, asks for the length
    // again, since the file may have become shorter.
    fn read_file_bytes(&mut self, path: &[u8], listed_len: u64) -> io::Result<Vec<u8>>
        ensures { self.new.root ≡ self.old.root }
    {
        let full = self.root.full_path(path)?;
        let file = File::open(self.root.rt, full.as_str())?;
        let len = if listed_len > self.image {
            file.metadata()?.len()
        } else {
            listed_len
        };
        if len > self.image {
            if self.too_long.is_none() {
                let path = path.to_vec(self.root.rt.alloc())?;
                self.too_long = Some(OversizedFile { path, len });
            }
            return Ok(Vec::new(self.root.rt.alloc()));
        }
        // If the file has become longer than the image, one byte more than the image is enough to
        // fail.
        let most = self.image.saturating_add(1);
        read_at_most(self.root.rt.alloc(), file, len as usize, most)
    }
}

impl<'a, R: Files + AllocGlobal + Clone + Drop> Source for Folder<'a, R> {
    ghost has_failed = { λ s. s.root.has_failed };

    fn list(&mut self, alloc: Global, folder: &[u8]) -> Result<Vec<ListedName>, FileError> {
        self.root.has_failed = false;
        match self.list_names(alloc, folder) {
            Ok(names) => Ok(names),
            Err(error) => Err(self.root.fail(folder, error)),
        }
    }

    fn read(&mut self, _alloc: Global, file: &[u8], listed_len: u64) -> Result<Vec<u8>, FileError> {
        self.root.has_failed = false;
        match self.read_file_bytes(file, listed_len) {
            Ok(bytes) => Ok(bytes),
            Err(error) => Err(self.root.fail(file, error)),
        }
    }
}
