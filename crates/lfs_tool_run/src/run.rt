// The execution of a command line.

use crate::blocks::{image_of_entries, read_source_folder, resolve_auto_size};
use crate::creation::create;
use crate::explain::{write_explanation, write_mode_list};
use crate::files::{Host, NotedWriter};
use crate::lists::{check_image, list_image};
use crate::parts::read_part;
use crate::session::{cat_file, change_image};
use crate::times::{set_times, times_in_image};
use lfs_device::{Error, Geometry};
use lfs_tool::{
    Fault, Folder, FolderRules, ImageLayout, Line, LineError, Links, Mode, ProgressLine, Request,
    RunOptions, SourceEntry, Stream, Target, TargetFolder, ToolError, geometry_of_sizes,
    read_request, report, target_tool_error, unpack, write_and_flush,
};
use std::io;
use std::io::{ErrorKind, IsTerminal, Stderr, Write};

/// Returns the layout of the image of a command line.
pub(crate) fn layout_of_line(line: &Line<'_>) -> ImageLayout {
    ImageLayout::new(line.block_size, line.page).with_profile(line.profile)
}

/// Returns the geometry of the image that a command line creates.
pub(crate) fn geometry_of_line(line: &Line<'_>) -> Result<Geometry, ToolError> {
    let geometry = geometry_of_sizes(line.size, line.block_size, line.page)?;
    Ok(geometry.with_profile(line.profile))
}

/// Returns the source for a folder, for an image of at most `size` bytes.
pub(crate) fn folder_of_line<'a>(
    host: Host<'a>,
    path: &str,
    size: u32,
) -> Result<Folder<'a, HostRuntime>, ToolError> {
    let size = u64::from(size);
    Ok(Folder::new(host.rt, host.log, path, size, host.rules)?)
}

// Returns a progress line for a task that begins at the time of the call. It writes only to a
// terminal.
fn new_progress_line(rt: &HostRuntime) -> ProgressLine<Stderr, HostRuntime> {
    ProgressLine::new(rt.stderr(), *rt, rt.stderr().is_terminal())
}

// Creates the image of a folder's contents, and renames it to its path once it is complete. Sizes
// that no image can have are refused before the folder is read.
fn create_image(
    host: Host<'_>,
    line: &Line<'_>,
    folder: &str,
    read: Option<Vec<SourceEntry>>,
) -> Result<(), ToolError> {
    let geometry = geometry_of_line(line)?;
    let entries = match read {
        Some(entries) => entries,
        None => read_source_folder(host, line, folder, line.size)?,
    };
    let mut image = Stream::new(NotedWriter::new(host, line.image)?);
    let mut progress = new_progress_line(host.rt);
    if host.times {
        let made = image_of_entries(host, line, geometry, &entries, &mut progress)?;
        write_and_flush(&mut image, made.bytes())?;
    } else {
        create(
            host.alloc(),
            &entries,
            geometry,
            line.order,
            &mut image,
            &mut progress,
        )?;
    }
    image.into_inner().place()
}

// Unpacks the image into a folder, and with `--times` also sets the times of its files and folders.
fn unpack_image(host: Host<'_>, line: &Line<'_>, folder: &str) -> Result<(), ToolError> {
    let alloc = host.alloc();
    let part = read_part(host, line)?;
    let mut target = TargetFolder::new(host.rt, host.log, folder)?;
    let mut progress = new_progress_line(host.rt);
    let mut image = unpack(alloc, part.bytes, part.layout, &mut target, &mut progress)?;
    // An empty image has no action that makes the folder.
    if let Err(error) = target.make_folder(alloc, b"") {
        return Err(target_tool_error(error));
    }
    if host.times {
        let times = times_in_image(host, &mut image)?;
        set_times(host, folder, times.as_slice())?;
    }
    Ok(())
}

// Executes the mode of a command line. Returns false only if a check finds that the image isn't
// accepted.
fn run_mode<W: Write>(
    host: Host<'_>,
    line: &Line<'_>,
    json: bool,
    read: Option<Vec<SourceEntry>>,
    out: &mut Stream<W>,
) -> Result<bool, ToolError> {
    match line.mode {
        Mode::List => list_image(host, line, json, out)?,
        Mode::Check => return check_image(host, line, json, out),
        Mode::Create(folder) => create_image(host, line, folder, read)?,
        Mode::Unpack(folder) => unpack_image(host, line, folder)?,
        Mode::Cat(path) => cat_file(host, line, path, out)?,
        Mode::Put(..) | Mode::Remove(_) | Mode::Mkdir(_) => change_image(host, line)?,
    }
    Ok(true)
}

// Returns the status for a failed write to standard output. An error line is written unless the
// reader has closed the pipe.
fn report_failed_output<O: Write, E: Write>(out: &mut Stream<O>, err: &mut Stream<E>) -> u8 {
    match out.fault() {
        Some(ErrorKind::BrokenPipe) => 3,
        _ => report(&Fault::Tool(ToolError::Output), out, err),
    }
}

// Returns the rules for reading the folder of a new image.
fn folder_rules<'a>(extras: &'a RunOptions<'_>) -> FolderRules<'a> {
    let links = match (extras.follow_links, extras.skip_links) {
        (true, _) => Links::Follow,
        (_, true) => Links::Skip,
        _ => Links::Refuse,
    };
    FolderRules {
        exclude: extras.exclude.as_slice(),
        links,
    }
}

// Executes a command line, and returns the exit status. If the execution fails, writes the error,
// and if requested an explanation.
fn run_request<O: Write, E: Write>(
    host: Host<'_>,
    request: &Request<'_>,
    out: &mut Stream<O>,
    err: &mut Stream<E>,
) -> u8 {
    let host = Host {
        rules: folder_rules(&request.extras),
        times: request.extras.times,
        ..host
    };
    let mut line = request.line;
    let done = match resolve_auto_size(host, &mut line, &request.extras) {
        Ok(read) => run_mode(host, &line, request.extras.json, read, out),
        Err(error) => Err(error),
    };
    match done {
        Ok(true) => 0,
        Ok(false) => 1,
        Err(ToolError::Output) if line.mode == Mode::List => report_failed_output(out, err),
        Err(error) => {
            let status = report(&Fault::Tool(error), out, err);
            if line.explain || host.explains {
                write_explanation(host, &line, error, out, err);
            }
            status
        }
    }
}

// Returns whether the words of an invalid command line ask for explanations.
fn are_explanations_asked(words: &[String]) -> bool {
    words.iter().any(|word| word.as_str() == "--explain")
}

/// Runs the program on the words of its command line, and returns the exit status. If `words` is an
/// error, because memory ran out or a word isn't UTF-8, the run only reports that error.
pub fn run_words<O: Write, E: Write>(
    host: Host<'_>,
    words: io::Result<Vec<String>>,
    out: &mut Stream<O>,
    err: &mut Stream<E>,
) -> u8 {
    let words = match words {
        Ok(words) => words,
        Err(error) if error.kind() == ErrorKind::OutOfMemory => {
            return report(&Fault::Tool(ToolError::Fs(Error::NoMemory)), out, err);
        }
        Err(_) => return report(&Fault::Line(LineError::NotUtf8), out, err),
    };
    match read_request(host.alloc(), words.as_slice()) {
        Ok(request) => run_request(host, &request, out, err),
        Err(error) => {
            let fault = Fault::Line(error);
            match report(&fault, out, err) {
                0 if out.fault().is_some() => report_failed_output(out, err),
                status => {
                    if host.explains || are_explanations_asked(words.as_slice()) {
                        write_mode_list(&fault, err);
                    }
                    status
                }
            }
        }
    }
}
