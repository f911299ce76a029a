// Files and directories for the benchmarks against littlefs's own code.

use crate::counting_device::CountingDevice;
use lfs_device::{Error, RamDevice};
use lfs_fs::{OpenFlags, Session};
use std::alloc::Global;

/// The session that the benchmarks work on.
pub type CountingSession = Session<CountingDevice<RamDevice>>;

/// Converts any allocation error to `NoMemory`.
pub fn no_memory_error<T: Drop>(_: T) -> Error {
    Error::NoMemory
}

fn digit(number: u32) -> u8 {
    b'0' + (number % 10) as u8
}

/// Returns the path of a directory in the root. `number` must be below 1,000.
pub fn directory_path(alloc: Global, number: u32) -> Result<Vec<u8>, Error> {
    let name = [
        b'/',
        b'd',
        digit(number / 100),
        digit(number / 10),
        digit(number),
    ];
    Vec::from_slice(alloc, &name).map_err(no_memory_error)
}

/// Returns the path of a file. `number` must be below 100,000. The file is in the root if there are
/// no directories, and otherwise in the directory `number` modulo `directories`.
pub fn file_path(alloc: Global, number: u32, directories: u32) -> Result<Vec<u8>, Error> {
    let mut path = match number.checked_rem(directories) {
        Some(directory) => directory_path(alloc, directory)?,
        None => Vec::new(alloc),
    };
    let name = [
        b'/',
        b'f',
        digit(number / 10000),
        digit(number / 1000),
        digit(number / 100),
        digit(number / 10),
        digit(number),
    ];
    path.extend_from_slice(&name).map_err(no_memory_error)?;
    Ok(path)
}

/// Writes a new file.
pub fn write_new_file(
    alloc: Global,
    session: &mut CountingSession,
    path: &[u8],
    bytes: &[u8],
) -> Result<(), Error> {
    let fd = session.open(alloc, path, OpenFlags::WRITE | OpenFlags::CREATE)?;
    session.write(alloc, fd, bytes)?;
    session.close(alloc, fd)
}

/// Makes directories 0 to `count - 1` in the root.
pub fn make_directories(
    alloc: Global,
    session: &mut CountingSession,
    count: u32,
) -> Result<(), Error> {
    for number in 0..count {
        let path = directory_path(alloc, number)?;
        session.mkdir(alloc, path.as_slice())?;
    }
    Ok(())
}

/// Makes files 0 to `count - 1` with the same contents.
pub fn make_files(
    alloc: Global,
    session: &mut CountingSession,
    bytes: &[u8],
    count: u32,
    directories: u32,
) -> Result<(), Error> {
    for number in 0..count {
        let path = file_path(alloc, number, directories)?;
        write_new_file(alloc, session, path.as_slice(), bytes)?;
    }
    Ok(())
}

/// Calls `stat` for `count` files, in steps of seven.
pub fn stat_files(
    alloc: Global,
    session: &mut CountingSession,
    count: u32,
    directories: u32,
) -> Result<(), Error> {
    for number in 0..count {
        let next = number.wrapping_mul(7).checked_rem(count).unwrap_or(0);
        let path = file_path(alloc, next, directories)?;
        session.stat(alloc, path.as_slice())?;
    }
    Ok(())
}

/// Removes files 0 to `count - 1`.
pub fn remove_files(
    alloc: Global,
    session: &mut CountingSession,
    count: u32,
    directories: u32,
) -> Result<(), Error> {
    for number in 0..count {
        let path = file_path(alloc, number, directories)?;
        session.remove(alloc, path.as_slice())?;
    }
    Ok(())
}

/// Lists the root directory.
pub fn list_root(alloc: Global, session: &mut CountingSession) -> Result<(), Error> {
    session.list(alloc, b"/")?;
    Ok(())
}

/// Renames one file back and forth, `count` times in all.
pub fn rename_often(
    alloc: Global,
    session: &mut CountingSession,
    count: u32,
    other: &[u8],
) -> Result<(), Error> {
    for number in 0..count {
        if number % 2 == 0 {
            session.rename(alloc, b"/d000/here", other)?;
        } else {
            session.rename(alloc, other, b"/d000/here")?;
        }
    }
    Ok(())
}

/// Sets an attribute of 16 bytes, `count` times.
pub fn set_attribute_repeatedly(
    alloc: Global,
    session: &mut CountingSession,
    count: u32,
) -> Result<(), Error> {
    let mut bytes = [b'a'; 16];
    for number in 0..count {
        bytes[0] = (number & 255) as u8;
        session.set_attr(alloc, b"/file", 0x41, &bytes)?;
    }
    Ok(())
}

/// Makes a file beneath 12 nested directories.
pub fn make_deeply_nested_file(alloc: Global, session: &mut CountingSession) -> Result<(), Error> {
    let mut path = Vec::new(alloc);
    for _ in 0..12 {
        path.extend_from_slice(b"/dd").map_err(no_memory_error)?;
        session.mkdir(alloc, path.as_slice())?;
    }
    path.extend_from_slice(b"/f").map_err(no_memory_error)?;
    write_new_file(alloc, session, path.as_slice(), b"hello")
}

/// Calls `stat` for the file of `make_deeply_nested_file`, `count` times.
pub fn stat_deeply_nested_file(
    alloc: Global,
    session: &mut CountingSession,
    count: u32,
) -> Result<(), Error> {
    for _ in 0..count {
        session.stat(alloc, b"/dd/dd/dd/dd/dd/dd/dd/dd/dd/dd/dd/dd/f")?;
    }
    Ok(())
}
