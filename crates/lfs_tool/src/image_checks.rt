// The check of an image.

ghost use Rattle.std.specs.Prelude.{◌≡◌, IfOk, IsErrOf};
ghost use Rattle.std.specs.Io.KnownBytes.{Appends};
ghost use Rattle.lfs_tool.specs.KnownBytes.{AppendsPrefix};
ghost use Rattle.lfs_tool.specs.Reports.{ReportsWriterFaults};
ghost use Rattle.lfs_tool.specs.Streams.{stream_inner};
ghost use Rattle.lfs_tool.specs.CheckResults.{IsCheckResult, is_accepted_result};
ghost use Rattle.lfs_tool.specs.CheckedLines.{result_text};

use crate::check_results::check_result_of_image;
use crate::checked_lines::check_result_lines;
use crate::stream::{Stream, write_and_flush};
use crate::verdict::CheckResult;
use crate::{ImageLayout, ToolError};
use lfs_device::Error;
use std::alloc::Global;
use std::io::Write;

fn is_result_accepted(checked: &CheckResult) -> bool
    ensures { result ≡ is_accepted_result checked.now }
{
    match checked {
        CheckResult::Accepted { .. } => true,
        CheckResult::Refused { .. } => false,
    }
}

/// Checks an image as `check_result_of_image` does, writes the result, and returns whether the image is
/// accepted. Nothing is written before the result is known, and the writer is flushed at the end.
///
/// For an accepted image, the lines are `ok`, `files <n>`, `directories <n>`, `used <n> of <m>
/// blocks`, `free <n>`, `order <order>`, `recover <yes|no>` and `writable <yes|no>`. The reason
/// follows `writable no`. If the profile isn't that of `Profile::new`, the `order` line is followed
/// by the version, unless it is 2.0, and by each limit that isn't the default. For any other image,
/// the lines are `corrupt` and the reason.
///
/// # Errors
/// - `Fs(NoMemory)` if memory can't be allocated.
/// - `Output` if the writer fails. Only a prefix of the lines has then been written.
pub fn check<W: Write>(
    alloc: Global,
    image: Vec<u8>,
    layout: ImageLayout,
    out: &mut Stream<W>,
) -> Result<bool, ToolError>
    ensures ok { IfOk result (λ accepted.
        (checked : _) × (IsCheckResult layout image.items checked × (accepted ≡ is_accepted_result checked) × Appends (W.contents (stream_inner out.old)) (W.contents (stream_inner out.new)) (result_text checked))) }

    // If the writer fails, it has received only a prefix of the lines.
    ensures writer { ReportsWriterFaults out.old out.new result }
    ensures beginning { IsErrOf result ToolError.Output →
        (checked : _) × (IsCheckResult layout image.items checked × AppendsPrefix (W.contents (stream_inner out.old)) (W.contents (stream_inner out.new)) (result_text checked)) }

    // The only other error is that memory can't be allocated.
    ensures refused { (e : _) → IsErrOf result (ToolError.Fs e) → e ≡ Error.NoMemory }
    ensures never { ¬ IsErrOf result ToolError.Input }
{
    let checked = check_result_of_image(alloc, image, layout)?;
    let text = check_result_lines(alloc, &checked)?;
    write_and_flush(out, text.as_slice())?;
    Ok(is_result_accepted(&checked))
}
