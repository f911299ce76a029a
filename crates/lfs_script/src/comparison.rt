// Compares a session with a session on a device with given bytes.

use crate::script_device::{Device, device_without_fault};
use lfs_device::{BlockDevice, Error, Geometry, RamDevice};
use lfs_fs::{Item, Kind, OpenFlags, Reply, Session, mount};
use lfs_script_lines::{Answer, ComparisonScope, SessionDifference};
use std::alloc::{AllocError, Global};

// A session, the session that it is compared with, and the scope of the comparison.
#[derive(Drop)]
struct Comparison<'a> {
    alloc: Global,
    session: &'a mut Session<Device>,
    other: Session<Device>,
    scope: ComparisonScope,
}

// Mounts a device in memory that contains these bytes.
fn mount_bytes(
    alloc: Global,
    geometry: Geometry,
    bytes: Vec<u8>,
) -> Result<Session<Device>, Error> {
    let device = RamDevice::from_bytes(geometry, bytes)?;
    match mount(alloc, device_without_fault(device)) {
        Ok(session) => Ok(session),
        Err((_, error)) => Err(error),
    }
}

fn is_same_item(item: &Item, other: &Item) -> bool {
    item.name.as_slice() == other.name.as_slice()
        && item.kind == other.kind
        && item.size == other.size
}

// Returns the lowest index at which two listings differ.
fn first_different_index(items: &[Item], others: &[Item]) -> Option<usize> {
    for (index, (item, other)) in items.iter().zip(others).enumerate() {
        if !is_same_item(item, other) {
            return Some(index);
        }
    }
    if items.len() == others.len() {
        None
    } else {
        Some(items.len().min(others.len()))
    }
}

// Returns the name of the first entry in which two listings differ.
fn first_different_name<'a>(items: &'a [Item], others: &'a [Item]) -> Option<&'a [u8]> {
    let index = first_different_index(items, others)?;
    match items.get(index) {
        Some(item) => Some(item.name.as_slice()),
        None => Some(others.get(index)?.name.as_slice()),
    }
}

// Returns the path of a name in a directory. The root's own path has only one byte.
fn join_path(alloc: Global, directory: &[u8], name: &[u8]) -> Result<Vec<u8>, AllocError> {
    let mut path = Vec::new(alloc);
    if directory.len() > 1 {
        path.extend_from_slice(directory)?;
    }
    path.push(b'/')?;
    path.extend_from_slice(name)?;
    Ok(path)
}

// Reads a file. Returns None if the session can't open the file because of other open files.
fn read_file(
    alloc: Global,
    session: &mut Session<Device>,
    path: &[u8],
) -> Result<Option<Vec<u8>>, Error> {
    match session.open(alloc, path, OpenFlags::READ) {
        Ok(fd) => {
            let bytes = session.read(alloc, fd, u32::MAX)?;
            session.close(alloc, fd)?;
            Ok(Some(bytes))
        }
        Err(Error::Busy) => Ok(None),
        Err(error) => Err(error),
    }
}

// Reads an attribute. Returns None if the entry doesn't have it.
fn read_attribute(
    alloc: Global,
    session: &mut Session<Device>,
    path: &[u8],
    kind: u8,
) -> Result<Option<Vec<u8>>, Error> {
    match session.get_attr(alloc, path, kind) {
        Ok(bytes) => Ok(Some(bytes)),
        Err(Error::NoAttr) => Ok(None),
        Err(error) => Err(error),
    }
}

impl Comparison<'_> {
    // Returns the first block that only one of the sessions uses, or reports that the numbers of
    // used blocks differ.
    fn compare_blocks(&self, block_count: u32) -> Result<Option<SessionDifference>, Error> {
        let mut count = 0u32;
        for block in 0..block_count {
            let is_used = self.session.is_used(block)?;
            if is_used != self.other.is_used(block)? {
                return Ok(Some(SessionDifference::Block(block)));
            }
            count = count.saturating_add(u32::from(is_used));
        }
        if self.session.used_count()? != count || self.other.used_count()? != count {
            return Ok(Some(SessionDifference::UsedCount));
        }
        Ok(None)
    }

    fn has_same_bytes(&mut self, path: &[u8]) -> Result<bool, Error> {
        let Some(bytes) = read_file(self.alloc, self.session, path)? else {
            return Ok(true);
        };
        let Some(others) = read_file(self.alloc, &mut self.other, path)? else {
            return Ok(false);
        };
        Ok(bytes.as_slice() == others.as_slice())
    }

    fn has_same_attribute(&mut self, path: &[u8], kind: u8) -> Result<bool, Error> {
        let bytes = read_attribute(self.alloc, self.session, path, kind)?;
        match (
            bytes,
            read_attribute(self.alloc, &mut self.other, path, kind)?,
        ) {
            (None, None) => Ok(true),
            (Some(bytes), Some(others)) => Ok(bytes.as_slice() == others.as_slice()),
            _ => Ok(false),
        }
    }

    // Returns the first type, from `first` to `last`, of an attribute that differs.
    fn compare_attributes(
        &mut self,
        path: &[u8],
        first: u8,
        last: u8,
    ) -> Result<Option<u8>, Error> {
        for kind in first..=last {
            if !self.has_same_attribute(path, kind)? {
                return Ok(Some(kind));
            }
        }
        Ok(None)
    }

    // Returns the first difference of an entry for which the two sessions list the same kind.
    fn compare_entry(
        &mut self,
        path: &[u8],
        kind: Kind,
    ) -> Result<Option<SessionDifference>, Error> {
        let (first, last) = match self.scope {
            ComparisonScope::Whole => (0, 255),
            ComparisonScope::Kind(kind) => (kind, kind),
            ComparisonScope::Entries => return Ok(None),
        };
        if let Some(kind) = self.compare_attributes(path, first, last)? {
            return Ok(Some(SessionDifference::Attribute(Vec::from_slice(self.alloc, path)?, kind)));
        }
        if kind == Kind::File && !self.has_same_bytes(path)? {
            return Ok(Some(SessionDifference::Bytes(Vec::from_slice(self.alloc, path)?)));
        }
        Ok(None)
    }

    // Returns the first difference of a directory's entries. Adds its subdirectories to `waiting`.
    fn compare_directory(
        &mut self,
        directory: &[u8],
        waiting: &mut Vec<Vec<u8>>,
    ) -> Result<Option<SessionDifference>, Error> {
        let items = self.session.list(self.alloc, directory)?;
        let others = self.other.list(self.alloc, directory)?;
        if let Some(name) = first_different_name(&items, &others) {
            return Ok(Some(SessionDifference::Entry(join_path(self.alloc, directory, name)?)));
        }
        for item in items.iter() {
            let path = join_path(self.alloc, directory, item.name.as_slice())?;
            let difference = self.compare_entry(&path, item.kind)?;
            if difference.is_some() {
                return Ok(difference);
            }
            if item.kind == Kind::Dir {
                waiting.push(path)?;
            }
        }
        Ok(None)
    }

    // Returns the first difference of all entries.
    fn compare_trees(&mut self) -> Result<Option<SessionDifference>, Error> {
        let mut waiting = Vec::new(self.alloc);
        waiting.push(Vec::from_slice(self.alloc, b"/")?)?;
        for _ in 0..u64::MAX {
            let Some(directory) = waiting.pop() else {
                return Ok(None);
            };
            let difference = self.compare_directory(&directory, &mut waiting)?;
            if difference.is_some() {
                return Ok(difference);
            }
        }
        Ok(None)
    }

    // Returns the first difference of the two sessions.
    fn compare(&mut self) -> Result<Option<SessionDifference>, Error> {
        if self.session.gstate()? != self.other.gstate()? {
            return Ok(Some(SessionDifference::Gstate));
        }
        let block_count = self.session.device().geometry().block_count;
        let difference = self.compare_blocks(block_count)?;
        if difference.is_some() {
            return Ok(difference);
        }
        self.compare_trees()
    }
}

// Returns the first difference between a session and a session on a device with these bytes.
fn compare_with_bytes(
    alloc: Global,
    session: &mut Session<Device>,
    scope: ComparisonScope,
    bytes: Vec<u8>,
) -> Result<Option<SessionDifference>, Error> {
    session.gstate()?;
    let other = mount_bytes(alloc, session.device().geometry(), bytes)?;
    Comparison {
        alloc,
        session,
        other,
        scope,
    }
    .compare()
}

/// Compares a session with a session on a device with the given bytes. Doesn't change the session's
/// files.
///
/// If the session failed earlier, the answer is its refusal. If the bytes aren't those of a device,
/// if they can't be mounted or if one of the sessions fails, the answer is an error.
pub fn compare_with_image(
    alloc: Global,
    session: &mut Session<Device>,
    scope: ComparisonScope,
    bytes: Vec<u8>,
) -> Answer {
    match compare_with_bytes(alloc, session, scope, bytes) {
        Ok(None) => Answer::Same,
        Ok(Some(difference)) => Answer::Differs(difference),
        Err(Error::Failed) => Answer::Reply(Reply::Refused(Error::Failed)),
        Err(error) => Answer::Error(error),
    }
}

/// Compares a session with a session on a copy of its device.
pub fn compare_with_copy(
    alloc: Global,
    session: &mut Session<Device>,
    scope: ComparisonScope,
) -> Answer {
    match Vec::from_slice(alloc, session.device().inner().inner().bytes()) {
        Ok(bytes) => compare_with_image(alloc, session, scope, bytes),
        Err(_) => Answer::Error(Error::NoMemory),
    }
}
