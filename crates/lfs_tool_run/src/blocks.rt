// How many blocks an image needs for the contents of a folder.

use crate::creation::{read_source_entries, session_of_entries};
use crate::files::Host;
use crate::run::{folder_of_line, geometry_of_line};
use crate::times::store_file_times;
use lfs_device::{Error, Geometry, RamDevice};
use lfs_tool::{FollowsProgress, Line, Mode, RunOptions, SourceEntry, ToolError};

/// The size of the largest image in bytes.
pub(crate) const IMAGE_MAX: u32 = 268_435_456;

const BLOCKS_MAX: u32 = 65_536;

// The length of the longest inline file that any image may have, in bytes.
const INLINE_MAX: usize = 1022;

/// Reads all files and folders of the folder `folder`, for an image of at most `size` bytes.
///
/// # Errors
/// - `Input` if the folder or something in it can't be read.
/// - `TooBig` if a file is longer than both the image and the line's `file_max`.
/// - `NoSpace` if a file is longer than the image but not than the line's `file_max`.
/// - `NoMemory` if memory can't be allocated.
pub(crate) fn read_source_folder(
    host: Host<'_>,
    line: &Line<'_>,
    folder: &str,
    size: u32,
) -> Result<Vec<SourceEntry>, ToolError> {
    let mut source = folder_of_line(host, folder, size)?;
    let entries = read_source_entries(host.alloc(), &mut source)?;
    match source.first_oversized_file() {
        Some(file) if file.len > u64::from(line.profile.file_max) => Err(Error::TooBig.into()),
        Some(_) => Err(Error::NoSpace.into()),
        None => Ok(entries),
    }
}

/// Makes an image of these entries in memory, and stores their times if `--times` is given.
pub(crate) fn image_of_entries<F: FollowsProgress>(
    host: Host<'_>,
    line: &Line<'_>,
    geometry: Geometry,
    entries: &[SourceEntry],
    progress: &mut F,
) -> Result<RamDevice, ToolError> {
    let mut session = session_of_entries(host.alloc(), geometry, line.order, entries, progress)?;
    if host.times {
        store_file_times(host, &mut session, entries)?;
    }
    Ok(session.unmount())
}

fn are_blocks_enough(
    host: Host<'_>,
    line: &Line<'_>,
    entries: &[SourceEntry],
    count: u32,
) -> Result<bool, ToolError> {
    let geometry = Geometry::new(line.block_size, line.page, count)?.with_profile(line.profile);
    match image_of_entries(host, line, geometry, entries, &mut ()) {
        Ok(_image) => Ok(true),
        Err(ToolError::Fs(Error::NoSpace)) => Ok(false),
        Err(error) => Err(error),
    }
}

fn maximum_block_count(block_size: u32) -> u32 {
    let most = IMAGE_MAX.checked_div(block_size).unwrap_or(0);
    most.min(BLOCKS_MAX)
}

// Returns a lower bound for the number of blocks that an image of the entries needs. It counts the
// root's pair and the full blocks of files that can't be inline.
fn minimum_block_count(entries: &[SourceEntry], block_size: u32) -> u32 {
    let mut count = 2u32;
    for entry in entries {
        let len = entry.bytes.as_ref().map_or(0, |bytes| bytes.len());
        if len > INLINE_MAX {
            let len = u32::try_from(len).unwrap_or(u32::MAX);
            count = count.saturating_add(len.checked_div(block_size).unwrap_or(0));
        }
    }
    count
}

/// Searches for the smallest number of blocks, at least `given`, that an image of the entries
/// needs. Returns None if even the largest image is too small.
///
/// # Errors
/// The error of an attempt that fails for any reason other than a lack of free blocks.
pub(crate) fn find_block_count(
    host: Host<'_>,
    line: &Line<'_>,
    entries: &[SourceEntry],
    given: u32,
) -> Result<Option<u32>, ToolError> {
    let most = maximum_block_count(line.block_size);
    // `few` blocks are too few, or fewer than `given`. If `enough` is known, that many blocks
    // suffice.
    let mut few = given
        .max(minimum_block_count(entries, line.block_size).min(most))
        .saturating_sub(1);
    let mut enough: Option<u32> = None;
    let mut step = 1u32;
    for _ in 0..64 {
        let next = match enough {
            Some(enough) if enough.saturating_sub(few) < 2 => break,
            Some(enough) => few.saturating_add(enough.saturating_sub(few) / 2),
            None if few >= most => break,
            None => few.saturating_add(step).min(most.max(given)),
        };
        if are_blocks_enough(host, line, entries, next)? {
            enough = Some(next);
        } else {
            few = next;
            step = step.saturating_mul(2);
        }
    }
    Ok(enough)
}

/// Returns the number of blocks that `find_block_count` finds for the contents of a folder.
pub(crate) fn folder_block_count(
    host: Host<'_>,
    line: &Line<'_>,
    folder: &str,
    given: u32,
) -> Result<Option<u32>, ToolError> {
    match read_source_folder(host, line, folder, IMAGE_MAX) {
        Ok(entries) => find_block_count(host, line, &entries, given),
        Err(ToolError::Fs(Error::NoSpace)) => Ok(None),
        Err(error) => Err(error),
    }
}

/// With `--size auto`, sets the size of a new image to what its folder needs plus the spare blocks,
/// and returns the contents of the folder. Without `--size auto`, returns None. If the contents
/// don't fit in the largest image, sets the line's size to that of the largest image, and returns
/// `NoSpace`.
pub(crate) fn resolve_auto_size(
    host: Host<'_>,
    line: &mut Line<'_>,
    extras: &RunOptions<'_>,
) -> Result<Option<Vec<SourceEntry>>, ToolError> {
    let (Mode::Create(folder), true) = (line.mode, extras.is_size_auto) else {
        return Ok(None);
    };
    line.size = maximum_block_count(line.block_size).saturating_mul(line.block_size);
    geometry_of_line(line)?;
    let entries = read_source_folder(host, line, folder, IMAGE_MAX)?;
    let Some(count) = find_block_count(host, line, &entries, 2)? else {
        return Err(ToolError::Fs(Error::NoSpace));
    };
    let count = count.saturating_add(extras.spare);
    line.size = count.saturating_mul(line.block_size);
    Ok(Some(entries))
}
