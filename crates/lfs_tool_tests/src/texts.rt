// The output of the tool as text.

use lfs_device::Geometry;
use lfs_model::NameOrder;
use lfs_tool::{
    Fault, FollowsProgress, ImageLayout, MemoryTarget, Source, Stream, TargetAction, ToolError,
    check, list, report, unpack,
};
use lfs_tool_run::{create, read_source_entries};
use std::alloc::{AllocError, Global};
use std::io::Write;

// The report of a fault: the status, and the bytes written to `out` and to `err`.
#[derive(Drop)]
pub(crate) struct Report {
    pub(crate) status: u8,
    pub(crate) out: Vec<u8>,
    pub(crate) err: Vec<u8>,
}

pub(crate) fn report_of(alloc: Global, fault: &Fault) -> Report {
    let mut out = Stream::new(Vec::new(alloc));
    let mut err = Stream::new(Vec::new(alloc));
    let status = report(fault, &mut out, &mut err);
    Report {
        status,
        out: out.into_inner(),
        err: err.into_inner(),
    }
}

// Returns the bytes that were written, with the error line appended if there is an error.
pub(crate) fn with_error_line(
    alloc: Global,
    written: Vec<u8>,
    answer: Result<(), ToolError>,
) -> Result<Vec<u8>, AllocError> {
    let mut text = written;
    if let Err(error) = answer {
        let report = report_of(alloc, &Fault::Tool(error));
        text.extend_from_slice(report.err.as_slice())?;
    }
    Ok(text)
}

// Returns what listing an image prints.
pub(crate) fn list_text(
    alloc: Global,
    image: &[u8],
    layout: ImageLayout,
) -> Result<Vec<u8>, AllocError> {
    let mut out = Stream::new(Vec::new(alloc));
    let answer = list(alloc, image.to_vec(alloc)?, layout, &mut out);
    with_error_line(alloc, out.into_inner(), answer)
}

// Returns what checking an image prints.
pub(crate) fn check_text(
    alloc: Global,
    image: &[u8],
    layout: ImageLayout,
) -> Result<Vec<u8>, AllocError> {
    let mut out = Stream::new(Vec::new(alloc));
    let answer = check(alloc, image.to_vec(alloc)?, layout, &mut out).map(|_accepted| ());
    with_error_line(alloc, out.into_inner(), answer)
}

fn push_unpacked_entry(text: &mut Vec<u8>, done: &TargetAction) -> Result<(), AllocError> {
    match done {
        TargetAction::Folder(path) => {
            text.extend_from_slice(b"d ")?;
            text.extend_from_slice(path)?;
        }
        TargetAction::File(path, bytes) => {
            text.extend_from_slice(b"f ")?;
            text.extend_from_slice(path)?;
            text.push(b' ')?;
            text.extend_from_slice(bytes)?;
        }
    }
    text.push(b'\n')?;
    Ok(())
}

// Returns the actions that unpacking an image does, as text.
pub(crate) fn unpack_text(
    alloc: Global,
    image: &[u8],
    layout: ImageLayout,
) -> Result<Vec<u8>, AllocError> {
    let mut target = MemoryTarget {
        done: Vec::new(alloc),
    };
    let answer = unpack(alloc, image.to_vec(alloc)?, layout, &mut target, &mut ()).map(|_image| ());
    let mut text = Vec::new(alloc);
    for done in &target.done {
        push_unpacked_entry(&mut text, done)?;
    }
    with_error_line(alloc, text, answer)
}

// Writes the image of a source.
pub(crate) fn create_of_source<S: Source, W: Write, F: FollowsProgress>(
    alloc: Global,
    source: &mut S,
    geometry: Geometry,
    out: &mut Stream<W>,
    progress: &mut F,
) -> Result<(), ToolError> {
    let entries = read_source_entries(alloc, source)?;
    let order = NameOrder::LongerFirst;
    create(alloc, entries.as_slice(), geometry, order, out, progress)
}
