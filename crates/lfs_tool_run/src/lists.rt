// The output of `-l` and `--check`, as lines or as JSON.

use crate::files::Host;
use crate::json::{json_of_check, json_of_items};
use crate::parts::{ImagePart, read_part};
use lfs_tool::{
    CheckResult, Line, Stream, ToolError, check, check_result_of_image, items_of_image, list,
    write_and_flush,
};
use std::io::Write;

/// Lists the image of a command line.
pub(crate) fn list_image<W: Write>(
    host: Host<'_>,
    line: &Line<'_>,
    json: bool,
    out: &mut Stream<W>,
) -> Result<(), ToolError> {
    let part = read_part(host, line)?;
    if !json {
        return list(host.alloc(), part.bytes, part.layout, out);
    }
    let items = items_of_image(host.alloc(), part.bytes, part.layout)?;
    let text = json_of_items(host.alloc(), &items)?;
    write_and_flush(out, text.as_slice())
}

/// Checks the image of a command line, and returns whether it is accepted. With `-b auto` or
/// `--auto`, also prints the number of bytes after the image.
pub(crate) fn check_image<W: Write>(
    host: Host<'_>,
    line: &Line<'_>,
    json: bool,
    out: &mut Stream<W>,
) -> Result<bool, ToolError> {
    let ImagePart {
        bytes,
        layout,
        behind,
        rest: _,
    } = read_part(host, line)?;
    let behind = line.is_auto.then_some(behind);
    if json {
        let checked = check_result_of_image(host.alloc(), bytes, layout)?;
        let text = json_of_check(host.alloc(), &checked, behind)?;
        write_and_flush(out, text.as_slice())?;
        return Ok(matches!(checked, CheckResult::Accepted { .. }));
    }
    let is_accepted = check(host.alloc(), bytes, layout, out)?;
    if let Some(count) = behind {
        let behind = format!(in host.alloc(); "behind {count} bytes\n")?;
        write_and_flush(out, behind.as_bytes())?;
    }
    Ok(is_accepted)
}
