ghost use Rattle.std.specs.Prelude.{IfErr, IfOk, IsErrOf, OnOk};
ghost use Rattle.std.specs.Io.KnownBytes.{Appends};
ghost use Rattle.lfs_device.specs.DeviceDisk.{disk_of_blocks as shown};
ghost use Rattle.lfs_device.specs.RamDevice.{ram_blocks, ram_geometry};
ghost use Rattle.lfs_lookup.specs.TreeWalk.{tree_items_view};
ghost use Rattle.lfs_thread.specs.Kept.{ThreadView};
ghost use Rattle.lfs_tool.specs.KnownBytes.{AppendsPrefix};
ghost use Rattle.lfs_tool.specs.Reports.{ReportsWriterFaults};
ghost use Rattle.lfs_tool.specs.Streams.{stream_inner};
ghost use Rattle.lfs_tool.specs.Listings.{IsImageListing, IsImageWalk, IsMountError, IsWalkedThread, RefusesToList};

use crate::image_devices::{mount_and_walk, ram_device_of};
use crate::lines::tree_item_lines;
use crate::stream::{Stream, write_and_flush};
use crate::{ImageLayout, ToolError};
use lfs_device::{Error, RamDevice};
use lfs_lookup::TreeItem;
use std::alloc::Global;
use std::io::Write;

fn items_of_ram(alloc: Global, device: RamDevice) -> Result<Vec<TreeItem>, Error>
    ensures items { IfOk result (λ items. (t : ThreadView) × IsWalkedThread (shown (ram_geometry device) (ram_blocks device)) t (tree_items_view items.items)) }
    ensures err { IfErr result (IsMountError (shown (ram_geometry device) (ram_blocks device))) }
{
    match mount_and_walk(alloc, device) {
        Ok(image) => Ok(image.items),
        Err(error) => Err(error),
    }
}

/// Returns the files and directories of an image, depth first and in name order. A directory comes
/// before its entries.
///
/// The image may use either order of names. In the result, if one name is a prefix of another, the
/// shorter name comes first.
///
/// # Errors
/// - `NoMemory` if memory can't be allocated.
/// - `Invalid` if the image isn't a whole number of blocks, or its geometry is out of range.
/// - `Corrupt` if the image is accepted in neither order of names.
pub fn items_of_image(
    alloc: Global,
    image: Vec<u8>,
    layout: ImageLayout,
) -> Result<Vec<TreeItem>, Error>
    ensures ok { IfOk result (λ items. IsImageWalk layout image.items (tree_items_view items.items)) }
    ensures refused { IfErr result (RefusesToList layout image.items) }
{
    match ram_device_of(image, layout) {
        Ok(device) => items_of_ram(alloc, device),
        Err(error) => Err(error),
    }
}

/// Writes a line for each file and directory of an image, in the order of `items_of_image`. The
/// line is `f <size> <path>` for a file, with its size in bytes, and `d 0 <path>` for a directory.
/// In a path, `\` and each byte outside 0x20 to 0x7e are written as `\x` and two hexadecimal
/// digits. Nothing is written before the image is accepted, and the writer is flushed at the end.
///
/// # Errors
/// - `Fs` with any error of `items_of_image`.
/// - `Output` if the writer fails. Only a prefix of the lines has then been written.
pub fn list<W: Write>(
    alloc: Global,
    image: Vec<u8>,
    layout: ImageLayout,
    out: &mut Stream<W>,
) -> Result<(), ToolError>
    ensures ok { OnOk result ((text : _) × (IsImageListing layout image.items text × Appends (W.contents (stream_inner out.old)) (W.contents (stream_inner out.new)) text)) }

    // If the writer fails, it has received only a prefix of the lines.
    ensures writer { ReportsWriterFaults out.old out.new result }
    ensures beginning { IsErrOf result ToolError.Output → (text : _) × (IsImageListing layout image.items text × AppendsPrefix (W.contents (stream_inner out.old)) (W.contents (stream_inner out.new)) text) }

    // The causes of the other errors.
    ensures refused { (e : _) → IsErrOf result (ToolError.Fs e) → RefusesToList layout image.items e }
    ensures never { ¬ IsErrOf result ToolError.Input }
{
    let items = items_of_image(alloc, image, layout)?;
    let text = tree_item_lines(alloc, &items)?;
    write_and_flush(out, text.as_slice())
}
