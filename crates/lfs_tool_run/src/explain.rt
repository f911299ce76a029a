// The lines of `--explain`, which say why a command failed.

use crate::blocks::{IMAGE_MAX, folder_block_count};
use crate::creation::read_source_entries;
use crate::files::{Host, is_standard_stream};
use crate::parts::{ImagePart, open_image_start, read_part};
use crate::run::{folder_of_line, geometry_of_line, layout_of_line};
use lfs_device::{AcceptedVersions, Error};
use lfs_tag::Superblock;
use lfs_tool::{
    CheckResult, Fault, Folder, ImageLayout, Line, LineError, Mode, RefusalReason, Sizes,
    SourceEntry, Stream, ToolError, check_result_lines, check_result_of_image, image_superblock_at,
    layout_by_blocks, push_escaped_path, report, write_and_flush,
};
use std::alloc::AllocError;
use std::io::Write;

// The list of modes, for a command line that doesn't give exactly one.
const MODES: &str =
    "the modes are -c DIR, -u DIR, -l, --check, --cat PATH, --put FILE PATH, --remove PATH and --mkdir PATH\n";

// Version 2.1 in the encoding of a superblock.
const LATER_VERSION: u32 = 0x0002_0001;

// Reads the image again. Fails for standard input, which can't be read twice.
fn reread_image_file(host: Host<'_>, line: &Line<'_>) -> Result<ImagePart, ToolError> {
    if is_standard_stream(line.image) {
        return Err(ToolError::Input);
    }
    read_part(host, line)
}

// Appends a line with a path, which is the concatenation of `parts`, and with the words.
fn push_path_line(text: &mut Vec<u8>, parts: &[&[u8]], words: &[u8]) -> Result<(), AllocError> {
    for part in parts {
        push_escaped_path(text, part)?;
    }
    text.extend_from_slice(b": ")?;
    push_escaped_path(text, words)?;
    text.extend_from_slice(b"\n")
}

// Returns what an error says about a path, or None if it says nothing.
fn path_error_text(error: Error) -> Option<&'static str> {
    match error {
        Error::NoEnt => Some("nothing is there, or a folder above it is missing"),
        Error::Exist => Some("something is there already"),
        Error::NotDir => Some("a file is where a folder is wanted"),
        Error::IsDir => Some("a folder is where a file is wanted"),
        Error::Invalid => Some("a path in the image begins with /, as /log/today"),
        Error::TooBig => Some("the file is longer than the image's limit"),
        Error::NoSpace => Some("too few blocks are free"),
        Error::NameTooLong => Some("a name is longer than the image's limit"),
        Error::NotEmpty => Some("the folder has entries"),
        Error::EntryFull => Some("the name takes too much of a block"),
        _ => None,
    }
}

// Returns the options for those limits of the image that differ from the given ones.
fn differing_limit_options(host: Host<'_>, line: &Line<'_>) -> Result<String, ToolError> {
    let part = reread_image_file(host, line)?;
    let mut options = String::new(host.alloc());
    let Some(superblock) = image_superblock_at(part.bytes.as_slice()) else {
        return Ok(options);
    };
    let given = part.layout.profile;
    let limits = [
        ("--name-max", superblock.name_max, given.name_max, 255),
        (
            "--file-max",
            superblock.file_max,
            given.file_max,
            2_147_483_647,
        ),
        ("--attr-max", superblock.attr_max, given.attr_max, 1022),
    ];
    for (option, stated, given, most) in limits {
        if stated != given && 1 <= stated && stated <= most {
            let words = format!(in host.alloc(); "{option} {stated} ")?;
            options.push_str(words.as_str())?;
        }
    }
    Ok(options)
}

// Appends the options that open an image for changes if its limits differ from the given ones.
fn push_limit_options(
    host: Host<'_>,
    line: &Line<'_>,
    path: &str,
    text: &mut Vec<u8>,
) -> Result<(), ToolError> {
    let options = differing_limit_options(host, line)?;
    if options.is_empty() {
        let words = "the image isn't one that is changed here; --check says why";
        return Ok(push_path_line(text, &[path.as_bytes()], words.as_bytes())?);
    }
    let words = format!(in host.alloc();
        "the image has limits of its own: {options}or --auto opens it"
    )?;
    Ok(push_path_line(text, &[path.as_bytes()], words.as_bytes())?)
}

// Appends what is wrong with the path in the image that the mode refers to.
fn push_path_error(
    host: Host<'_>,
    line: &Line<'_>,
    error: Error,
    text: &mut Vec<u8>,
) -> Result<(), ToolError> {
    let path = match line.mode {
        Mode::Cat(path) | Mode::Put(_, path) | Mode::Remove(path) | Mode::Mkdir(path) => path,
        Mode::Create(_) | Mode::Unpack(_) | Mode::List | Mode::Check => return Ok(()),
    };
    if error == Error::ReadOnly {
        return push_limit_options(host, line, path, text);
    }
    match path_error_text(error) {
        Some(words) => Ok(push_path_line(text, &[path.as_bytes()], words.as_bytes())?),
        None => Ok(()),
    }
}

// Returns the sizes that the superblock of the image states, or None if an image can have them.
fn invalid_superblock_sizes(host: Host<'_>, line: &Line<'_>) -> Result<Option<Sizes>, ToolError> {
    if !line.has_own_limits || is_standard_stream(line.image) {
        return Ok(None);
    }
    let (_file, head) = open_image_start(host, line)?;
    let Some(own) = layout_by_blocks(head.as_slice(), layout_of_line(line)) else {
        return Ok(None);
    };
    let sizes = own.sizes();
    Ok(sizes.broken_rule().map(|_| sizes))
}

fn sizes_of_image(host: Host<'_>, line: &Line<'_>) -> Result<Sizes, ToolError> {
    if let Some(sizes) = invalid_superblock_sizes(host, line)? {
        return Ok(sizes);
    }
    if let Mode::Create(_) = line.mode {
        return Ok(Sizes {
            size: line.size as usize,
            block_size: line.block_size,
            page: line.page,
        });
    }
    let part = reread_image_file(host, line)?;
    Ok(Sizes {
        size: part.bytes.len(),
        block_size: part.layout.block_size,
        page: part.layout.page,
    })
}

// Appends the options that are missing for an image with this superblock, in a file of `blocks`
// blocks.
fn push_missing_options(
    host: Host<'_>,
    superblock: &Superblock,
    layout: ImageLayout,
    blocks: usize,
    text: &mut Vec<u8>,
) -> Result<(), ToolError> {
    let (size, count) = (superblock.block_size, superblock.block_count);
    if size != layout.block_size && 1024 <= size && size <= 65536 {
        let words = format!(in host.alloc(); "blocks of {size} bytes: -b {size}\n")?;
        text.extend_from_slice(words.as_bytes())?;
    } else if size == layout.block_size && (count as usize) < blocks {
        let words = format!(in host.alloc(); "{count} blocks, and more behind them: -b auto\n")?;
        text.extend_from_slice(words.as_bytes())?;
    }
    let accepts_later = layout.profile.versions == AcceptedVersions::AlsoTwoOne;
    if superblock.version == LATER_VERSION && !accepts_later {
        text.extend_from_slice(b"version 2.1: --also-2.1\n")?;
    }
    Ok(())
}

// Appends the result of a check of the image, and the options that are missing.
fn push_check(host: Host<'_>, line: &Line<'_>, text: &mut Vec<u8>) -> Result<(), ToolError> {
    let part = match reread_image_file(host, line) {
        Err(ToolError::Fs(Error::Corrupt)) => {
            let words = b"no superblock: neither block 0 nor block 1 begins with one\n";
            return Ok(text.extend_from_slice(words)?);
        }
        part => part?,
    };
    let superblock = image_superblock_at(part.bytes.as_slice());
    let layout = part.layout;
    let checked = check_result_of_image(host.alloc(), part.bytes, layout)?;
    text.extend_from_slice(check_result_lines(host.alloc(), &checked)?.as_slice())?;
    if let CheckResult::Refused {
        reason: RefusalReason::WrongNumber(_),
        given,
    } = &checked
    {
        if let Some(superblock) = superblock {
            return push_missing_options(host, &superblock, layout, given.blocks, text);
        }
    }
    Ok(())
}

// Returns the length of a file in a folder in bytes. If the file is longer than any image, it
// wasn't read, and the source has its length.
fn source_file_length(entry: &SourceEntry, source: &Folder<'_, HostRuntime>) -> usize {
    match source.first_oversized_file() {
        Some(file) if file.path.as_slice() == entry.path.as_slice() => file.len as usize,
        _ => entry.bytes.as_ref().map_or(0, |bytes| bytes.len()),
    }
}

// Appends the first name or file of a folder that exceeds the limit to which this error refers.
fn push_exceeded_limit(
    host: Host<'_>,
    line: &Line<'_>,
    folder: &str,
    error: Error,
    text: &mut Vec<u8>,
) -> Result<(), ToolError> {
    let mut source = folder_of_line(host, folder, IMAGE_MAX)?;
    for entry in read_source_entries(host.alloc(), &mut source)? {
        let name = entry.path.rsplit(|byte| *byte == b'/').next();
        let name_len = name.map_or(0, |name| name.len());
        let (what, len, most) = match error {
            Error::NameTooLong => ("name", name_len, line.profile.name_max as usize),
            _ => (
                "file",
                source_file_length(&entry, &source),
                line.profile.file_max as usize,
            ),
        };
        if len > most {
            let alloc = host.alloc();
            let words = format!(in alloc; "a {what} of {len} bytes, and {most} are the most")?;
            let parts = [folder.as_bytes(), entry.path.as_slice()];
            return Ok(push_path_line(text, &parts, words.as_bytes())?);
        }
    }
    text.extend_from_slice(b"no name and no file of the folder is too long by now\n")?;
    Ok(())
}

// Returns the line that says how many blocks the image of a folder needs.
fn needed_blocks_line(host: Host<'_>, line: &Line<'_>, folder: &str) -> Result<String, ToolError> {
    let blocks = geometry_of_line(line)?.block_count;
    let alloc = host.alloc();
    let text = match folder_block_count(host, line, folder, blocks) {
        Ok(Some(count)) if count > blocks => {
            format!(in alloc; "{blocks} blocks are too few, it takes {count}\n")
        }
        Ok(Some(_)) => {
            format!(in alloc; "{blocks} blocks are enough for what the folder has by now\n")
        }
        Ok(None) => format!(in alloc; "{blocks} blocks are too few, and no image has enough\n"),
        Err(error) => format!(in alloc;
            "{blocks} blocks were too few, how many it takes isn't known: {error}\n"
        ),
    };
    Ok(text?)
}

// Appends the lines that say why no image could be made of a folder.
fn push_creation_failure(
    host: Host<'_>,
    line: &Line<'_>,
    folder: &str,
    error: Error,
    text: &mut Vec<u8>,
) -> Result<(), ToolError> {
    let attr_max = line.profile.attr_max;
    let words = match error {
        Error::NoSpace => needed_blocks_line(host, line, folder)?,
        Error::TooBig if host.times && attr_max < 4 => format!(in host.alloc();
            "a time takes an attribute of 4 bytes, and {attr_max} are the most\n"
        )?,
        Error::TooBig | Error::NameTooLong => {
            return push_exceeded_limit(host, line, folder, error, text);
        }
        _ => return Ok(()),
    };
    Ok(text.extend_from_slice(words.as_bytes())?)
}

fn push_explanation(
    host: Host<'_>,
    line: &Line<'_>,
    error: ToolError,
    text: &mut Vec<u8>,
) -> Result<(), ToolError> {
    match error {
        ToolError::Input | ToolError::Output => match host.log.take()? {
            Some(fault) => Ok(push_path_line(text, &[fault.path.as_slice()], &fault.words)?),
            None => Ok(()),
        },
        ToolError::Fs(Error::Invalid) => {
            let sizes = sizes_of_image(host, line)?;
            match sizes.broken_rule() {
                Some(rule) => Ok(sizes.push_rule_line(text, rule)?),
                None => push_path_error(host, line, Error::Invalid, text),
            }
        }
        ToolError::Fs(Error::Corrupt) => push_check(host, line, text),
        ToolError::Fs(error) => match line.mode {
            Mode::Create(folder) => push_creation_failure(host, line, folder, error, text),
            _ => push_path_error(host, line, error, text),
        },
    }
}

/// Writes the list of modes if the command line doesn't give exactly one. A failed write is
/// ignored.
pub(crate) fn write_mode_list<E: Write>(fault: &Fault, err: &mut Stream<E>) {
    if let Fault::Line(LineError::Modes) = fault {
        let _ = write_and_flush(err, MODES.as_bytes());
    }
}

/// Writes why a command failed with this error, or the error that prevents an explanation. A failed
/// write is ignored.
pub(crate) fn write_explanation<O: Write, E: Write>(
    host: Host<'_>,
    line: &Line<'_>,
    error: ToolError,
    out: &mut Stream<O>,
    err: &mut Stream<E>,
) {
    let mut text = Vec::new(host.alloc());
    match push_explanation(host, line, error, &mut text) {
        Ok(()) => {
            let _ = write_and_flush(err, text.as_slice());
        }
        Err(error) => {
            let _ = write_and_flush(err, b"not explained: ");
            let _ = report(&Fault::Tool(error), out, err);
        }
    }
}
