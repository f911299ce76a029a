// Sources, and the entries that are read from them.

use lfs_tool::{
    FaultLog, FileError, Folder, FolderRules, MemorySource, Source, SourceEntry, read_tree,
};
use std::alloc::{AllocError, Global};
use std::rt::Files;
use std::test::Fail;
use std::{fs, io};

// Paths, each with the bytes of a file or None for a folder.
pub(crate) type Items<'a> = &'a [(&'a [u8], Option<&'a [u8]>)];

// Returns a source in memory with these files and folders.
pub(crate) fn memory_source_of_items(
    alloc: Global,
    items: Items<'_>,
) -> Result<MemorySource, AllocError> {
    let mut held = Vec::new(alloc);
    for (path, bytes) in items {
        let path = path.to_vec(alloc)?;
        let bytes = match bytes {
            Some(bytes) => Some(bytes.to_vec(alloc)?),
            None => None,
        };
        held.push(SourceEntry {
            path,
            bytes,
            modified: None,
        })?;
    }
    Ok(MemorySource::new(held))
}

// Returns whether the entries of a source are the expected ones, in this order.
fn is_source_read_as_items<S: Source>(
    alloc: Global,
    source: &mut S,
    wanted: Items<'_>,
) -> Result<bool, FileError> {
    let entries = read_tree(alloc, source)?;
    for (entry, (path, bytes)) in entries.iter().zip(wanted) {
        let is_same = match (&entry.bytes, bytes) {
            (Some(read), Some(bytes)) => read.as_slice() == *bytes,
            (None, None) => true,
            _ => false,
        };
        if !is_same || entry.path.as_slice() != *path {
            return Ok(false);
        }
    }
    Ok(entries.len() == wanted.len())
}

// Sources, and the entries that are read from them.
const READ: [(Items<'static>, Items<'static>); 2] = [
    (
        &[
            (b"/ab", Some(b"1")),
            (b"/\xc3", Some(b"2")),
            (b"/a", Some(b"3")),
        ],
        &[
            (b"/a", Some(b"3")),
            (b"/ab", Some(b"1")),
            (b"/\xc3", Some(b"2")),
        ],
    ),
    (
        &[
            (b"/d/x", Some(b"1")),
            (b"/e", Some(b"2")),
            (b"/d/c", None),
            (b"/d", None),
            (b"/d/c/z", Some(b"3")),
            (b"/d-", Some(b"4")),
        ],
        &[
            (b"/d", None),
            (b"/d/c", None),
            (b"/d/c/z", Some(b"3")),
            (b"/d/x", Some(b"1")),
            (b"/d-", Some(b"4")),
            (b"/e", Some(b"2")),
        ],
    ),
];

// Sources with a name that isn't allowed in a path.
const BAD: [Items<'static>; 6] = [
    &[(b"/", Some(b""))],
    &[(b"/.", Some(b""))],
    &[(b"/..", Some(b""))],
    &[(b"/a\x00", Some(b""))],
    &[(b"/a", Some(b"")), (b"/a", Some(b"x"))],
    &[(b"/d", None), (b"/d/..", Some(b""))],
];

#[test]
fn sources_are_read(rt: HostRuntime) -> Result<(), Fail> {
    for (items, wanted) in READ {
        let mut source = memory_source_of_items(rt.alloc(), items)?;
        assert!(rt; is_source_read_as_items(rt.alloc(), &mut source, wanted)?);
    }
    for items in BAD {
        let mut source = memory_source_of_items(rt.alloc(), items)?;
        let is_fault = is_source_read_as_items(rt.alloc(), &mut source, &[])
            == Err(FileError::Fault);
        assert!(rt; is_fault, "{items:?}");
    }
    Ok(())
}

// A folder with a name that isn't UTF-8, a folder that doesn't exist, and a folder that is read as
// a file.
#[test]
fn real_folders_report_faults(rt: HostRuntime) -> Result<(), Fail> {
    fs::create_dir_all(&rt, "source_folder/d")?;
    let log = FaultLog::new();
    let mut folder = Folder::new(&rt, &log, "source_folder", u64::MAX, FolderRules::new())?;
    for path in [b"/e\xff".as_slice(), b"/none"] {
        let is_fault = matches!(folder.list(rt.alloc(), path), Err(FileError::Fault));
        assert!(rt; is_fault, "{path:?}");
    }
    assert!(rt; matches!(folder.read(rt.alloc(), b"/d", 0), Err(FileError::Fault)));
    fs::remove_dir_all(&rt, "source_folder")?;
    Ok(())
}

// Lengths of files around those of a single read.
const LENGTHS: [usize; 8] = [0, 1, 511, 512, 8191, 8192, 8193, 100_000];

// Returns whether all `len` bytes of a file are read, even if it was listed with another length.
fn is_read_whole<R: Files + AllocGlobal + Clone + Drop>(
    rt: &R,
    folder: &mut Folder<'_, R>,
    len: usize,
    listed_len: u64,
) -> io::Result<bool> {
    let mut bytes = Vec::from_elem(rt.alloc(), b'x', len)?;
    if let Some(last) = bytes.last_mut() {
        *last = b'y';
    }
    fs::write(rt, "source_files/a", bytes.as_slice())?;
    Ok(folder.read(rt.alloc(), b"/a", listed_len) == Ok(bytes))
}

#[test]
fn real_files_are_read_whole(rt: HostRuntime) -> Result<(), Fail> {
    fs::create_dir_all(&rt, "source_files")?;
    let log = FaultLog::new();
    let mut folder = Folder::new(&rt, &log, "source_files", u64::MAX, FolderRules::new())?;
    for len in LENGTHS {
        let listed = len as u64;
        assert!(rt; is_read_whole(&rt, &mut folder, len, listed)?, "{len}");
        assert!(rt; is_read_whole(&rt, &mut folder, len, listed / 2)?, "{len}");
        assert!(rt;
            is_read_whole(&rt, &mut folder, len, listed.saturating_add(1))?,
            "{len}"
        );
    }
    fs::remove_dir_all(&rt, "source_files")?;
    Ok(())
}

// A file that reports a length of 0, and returns its bytes only to the first read.
#[test]
fn files_of_no_stated_length_are_read(rt: HostRuntime) -> Result<(), Fail> {
    let log = FaultLog::new();
    let mut folder = Folder::new(&rt, &log, "/proc/sys/kernel", u64::MAX, FolderRules::new())?;
    if fs::exists(&rt, "/proc/sys/kernel/ostype")? {
        assert_eq!(rt;
            folder.read(rt.alloc(), b"/ostype", 0),
            Ok(b"Linux\n".to_vec(rt.alloc())?)
        );
    }
    Ok(())
}
