// The bytes of the image and the files of a command line. Each file is read once.

use crate::files::{Host, LoggingReader, open_file};
use crate::run::layout_of_line;
use lfs_device::Error;
use lfs_tool::{
    ImageLayout, Line, Mode, Stream, ToolError, layout_by_blocks, layout_by_superblock, read_image,
};
use std::io;
use std::io::{Cursor, ErrorKind, Read};

// The number of bytes that contain the superblock of block 0 or 1, for the largest block size.
const HEAD: u64 = 65_580;

/// An image and its layout. `bytes` has at most one byte more than the largest image.
#[derive(Drop)]
pub(crate) struct ImagePart {
    pub(crate) bytes: Vec<u8>,
    pub(crate) layout: ImageLayout,
    /// The number of bytes after the image. Only a check counts them, and otherwise this is 0.
    pub(crate) behind: u64,
    /// The bytes after an image that is being changed.
    pub(crate) rest: Vec<u8>,
}

fn tool_error_of_read(error: io::Error) -> ToolError {
    if error.kind() == ErrorKind::OutOfMemory {
        ToolError::Fs(Error::NoMemory)
    } else {
        ToolError::Input
    }
}

// Skips at most `most` bytes, and returns how many there were.
fn skip_bytes<R: Read>(reader: &mut R, most: u64) -> Result<u64, ToolError> {
    io::copy(&mut reader.by_ref().take(most), &mut io::sink()).map_err(tool_error_of_read)
}

// Returns the layout and the length of an image that begins with these bytes. With `-b auto` or
// `--auto`, its superblock states them. With `-b auto`, an image without a superblock is the whole
// file.
fn layout_and_length(line: &Line<'_>, head: &[u8]) -> Result<(ImageLayout, u64), ToolError> {
    let layout = layout_of_line(line);
    if !line.is_auto {
        return Ok((layout, u64::MAX));
    }
    let own = if line.has_own_limits {
        Some(layout_by_superblock(head, layout)?)
    } else {
        layout_by_blocks(head, layout)
    };
    match own {
        Some(own) => Ok((own.layout, own.size as u64)),
        None => Ok((layout, u64::MAX)),
    }
}

/// Opens the file of an image. With `-b auto` or `--auto`, also reads the first bytes of the image,
/// which contain its superblock.
pub(crate) fn open_image_start<'a>(
    host: Host<'a>,
    line: &Line<'a>,
) -> Result<(LoggingReader<'a>, Vec<u8>), ToolError> {
    let mut file = open_file(host, line.image)?;
    let _before = skip_bytes(&mut file, u64::from(line.offset))?;
    let mut head = Vec::new(host.alloc());
    if line.is_auto {
        let read = file.by_ref().take(HEAD).read_to_end(&mut head);
        let _count = read.map_err(tool_error_of_read)?;
    }
    Ok((file, head))
}

// Reads the bytes after an image, if a change of the image must keep them.
fn read_after_image<R: Read>(
    host: Host<'_>,
    line: &Line<'_>,
    reader: &mut R,
) -> Result<Vec<u8>, ToolError> {
    let mut rest = Vec::new(host.alloc());
    let is_changed = matches!(line.mode, Mode::Put(..) | Mode::Remove(_) | Mode::Mkdir(_));
    if line.is_auto && is_changed {
        let read = reader.read_to_end(&mut rest);
        let _count = read.map_err(tool_error_of_read)?;
    }
    Ok(rest)
}

/// Reads an image, which is the whole file after the offset. With `-b auto` or `--auto`, its
/// superblock states its length and its block size.
pub(crate) fn read_part(host: Host<'_>, line: &Line<'_>) -> Result<ImagePart, ToolError> {
    let (file, head) = open_image_start(host, line)?;
    let (layout, size) = layout_and_length(line, head.as_slice())?;
    let expected = file.length_after_offset(line.offset).min(size);
    let mut stream = Stream::new(Cursor::new(head).chain(file).take(size));
    let bytes = read_image(host.alloc(), &mut stream, expected as usize)?;
    let mut rest = stream.into_inner();
    let _image = skip_bytes(&mut rest, u64::MAX)?;
    let mut rest = rest.into_inner();
    let kept = read_after_image(host, line, &mut rest)?;
    let behind = if line.is_auto && line.mode == Mode::Check {
        skip_bytes(&mut rest, u64::MAX)?
    } else {
        0
    };
    let (_head, file) = rest.into_inner();
    file.confirm_unchanged()?;
    Ok(ImagePart {
        bytes,
        layout,
        behind,
        rest: kept,
    })
}

/// Reads the bytes of a file that is put into an image. Reading stops after 268,435,457 bytes, one
/// byte more than the largest image has.
pub(crate) fn read_file(host: Host<'_>, path: &str) -> Result<Vec<u8>, ToolError> {
    let file = open_file(host, path)?;
    let expected = file.length_after_offset(0);
    let mut stream = Stream::new(file);
    let bytes = read_image(host.alloc(), &mut stream, expected as usize)?;
    stream.into_inner().confirm_unchanged()?;
    Ok(bytes)
}
