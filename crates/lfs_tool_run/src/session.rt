// Reading a file of an image, and changing an image in place, through a mounted session in memory.
// A change is complete or doesn't happen.

use crate::files::{Host, NotedWriter};
use crate::parts::{read_file, read_part};
use lfs_device::RamDevice;
use lfs_fs::{OpenFlags, Session, mount};
use lfs_tool::{Line, Mode, Stream, ToolError, ram_device_of, write_and_flush};
use std::io::Write;

/// A mounted session on an image in memory.
pub(crate) type RamSession = Session<RamDevice>;

pub(crate) fn mount_image(host: Host<'_>, image: RamDevice) -> Result<RamSession, ToolError> {
    mount(host.alloc(), image).map_err(|(_device, error)| ToolError::Fs(error))
}

// Reads the image of a command line into memory, and mounts it.
fn session_of_line(host: Host<'_>, line: &Line<'_>) -> Result<RamSession, ToolError> {
    let part = read_part(host, line)?;
    mount_image(host, ram_device_of(part.bytes, part.layout)?)
}

/// Writes the bytes of the file at a path in the image to `out`.
pub(crate) fn cat_file<W: Write>(
    host: Host<'_>,
    line: &Line<'_>,
    path: &str,
    out: &mut Stream<W>,
) -> Result<(), ToolError> {
    let mut session = session_of_line(host, line)?;
    let file = session.open(host.alloc(), path.as_bytes(), OpenFlags::READ)?;
    let size = session.size(file)?;
    let bytes = session.read(host.alloc(), file, size)?;
    write_and_flush(out, bytes.as_slice())
}

/// Changes the image as the mode requests, and replaces its file. Bytes after the image are kept.
/// `Mode::Put` replaces a file that already exists at its path. Modes that don't change images
/// write the image back unchanged. If the change is refused, the file stays as it is.
pub(crate) fn change_image(host: Host<'_>, line: &Line<'_>) -> Result<(), ToolError> {
    let part = read_part(host, line)?;
    let mut session = mount_image(host, ram_device_of(part.bytes, part.layout)?)?;
    match line.mode {
        Mode::Put(file, path) => {
            let bytes = read_file(host, file)?;
            let flags = OpenFlags::WRITE | OpenFlags::CREATE | OpenFlags::TRUNCATE;
            let file = session.open(host.alloc(), path.as_bytes(), flags)?;
            session.write(host.alloc(), file, bytes.as_slice())?;
            session.close(host.alloc(), file)?;
        }
        Mode::Remove(path) => session.remove(host.alloc(), path.as_bytes())?,
        Mode::Mkdir(path) => session.mkdir(host.alloc(), path.as_bytes())?,
        _ => {}
    }
    let bytes = session.unmount().to_bytes();
    let mut image = Stream::new(NotedWriter::new(host, line.image)?);
    write_and_flush(&mut image, bytes.as_slice())?;
    write_and_flush(&mut image, part.rest.as_slice())?;
    image.into_inner().place()
}
