// The times at which files and folders were last modified, stored as attributes in an image.

ghost use Rattle.lfs_tool.specs.Unpackings.{CanFindAttributes};

use crate::files::Host;
use crate::session::RamSession;
use lfs_lookup::Path;
use lfs_tool::{MountedImage, SourceEntry, ToolError};
use std::alloc::AllocError;
use std::fs::File;
use std::io;
use std::time::{Duration, UNIX_EPOCH};

// The type of the attribute. Its value is the number of seconds since 1970, in four bytes,
// little-endian.
const TIME: u8 = b't';

/// Stores the times of the entries in an image. Each entry must have been copied into it.
pub(crate) fn store_file_times(
    host: Host<'_>,
    session: &mut RamSession,
    entries: &[SourceEntry],
) -> Result<(), ToolError> {
    for entry in entries {
        if let Some(seconds) = entry.modified {
            let bytes = seconds.to_le_bytes();
            session.set_attr(host.alloc(), entry.path.as_slice(), TIME, &bytes)?;
        }
    }
    Ok(())
}

fn set_time(host: Host<'_>, path: &str, bytes: [u8; 4]) -> io::Result<()> {
    let since = Duration::from_secs(u64::from(u32::from_le_bytes(bytes)));
    match UNIX_EPOCH.checked_add(since) {
        Some(time) => File::open(host.rt, path)?.set_modified(time),
        None => Ok(()),
    }
}

/// Returns each path in an image that has a time attribute of four bytes, with the value of that
/// attribute.
pub(crate) fn times_in_image(
    host: Host<'_>,
    image: &mut MountedImage,
) -> Result<Vec<(String, [u8; 4])>, ToolError>
    requires { CanFindAttributes image.old }
{
    let alloc = host.alloc();
    let mut times = Vec::new(alloc);
    for index in 0..image.items.len() {
        let Some(item) = image.items.get(index) else {
            break;
        };
        // A folder can't contain a name that isn't UTF-8, so unpacking has already failed.
        let Ok(path) = str::from_utf8(item.path.as_slice()) else {
            continue;
        };
        let path = String::from_str(alloc, path)?;
        let Some(parsed) = Path::parse(path.as_bytes()) else {
            continue;
        };
        let time = image.attribute(alloc, &parsed, TIME)?;
        if let Some([a, b, c, d]) = time.as_ref().map(|bytes| bytes.as_slice()) {
            times
                .push((path, [*a, *b, *c, *d]))
                .map_err(AllocError::from)?;
        }
    }
    Ok(times)
}

/// Sets the times of files and folders. The paths are relative to `folder`.
pub(crate) fn set_times(
    host: Host<'_>,
    folder: &str,
    times: &[(String, [u8; 4])],
) -> Result<(), ToolError> {
    for (path, bytes) in times.iter() {
        let full = format!(in host.alloc(); "{folder}{path}")?;
        let set = set_time(host, full.as_str(), *bytes);
        host.log_and_map(full.as_str(), set, ToolError::Output)?;
    }
    Ok(())
}
