// The text lines of a directory listing.

ghost use Rattle.std.specs.Prelude.{◌≡◌, ◌<◌, ◌^◌, ◌++◌, map, IfOk, OnOk};
ghost use Rattle.lfs_lookup.specs.Finds.{listed_item_view, size_if_file};
ghost use Rattle.littlefs_values.specs.Buffers.{FillsWithLines, line_prefix, item_line, item_lines};

use crate::buffers::copy_if_fitting;
use lfs_device::Error;
use lfs_lookup::{Kind, ListItem, push_escaped_path};
use std::alloc::{AllocError, Global};
use std::io::Write;

// Appends a line's beginning up to the name: `f SIZE ` for a file, or `d 0 ` for a directory.
fn push_kind_size(text: &mut Vec<u8>, kind: Kind, size: u32) -> Result<(), AllocError>
    ensures { OnOk result (text.new.items ≡ text.old.items ++ line_prefix (size_if_file kind size)) }
{
    match kind {
        Kind::File => {
            if write!(text, "f {} ", size).is_err() {
                return Err(AllocError);
            }
        }
        Kind::Dir => text.extend_from_slice(b"d 0 ")?,
    }
    Ok(())
}

// Appends the line of an entry.
fn push_item_line(text: &mut Vec<u8>, item: &ListItem) -> Result<(), AllocError>
    ensures { OnOk result (text.new.items ≡ text.old.items ++ item_line (listed_item_view item.now)) }
{
    push_kind_size(text, item.kind, item.size)?;
    push_escaped_path(text, item.name.as_slice())?;
    text.push(b'\n')?;
    Ok(())
}

// Returns the lines of a directory's entries, in the order of `items`.
fn lines_of_items(alloc: Global, items: &[ListItem]) -> Result<Vec<u8>, AllocError>
    ensures { IfOk result (λ text. text.items ≡ item_lines (map listed_item_view items.now)) }
{
    let mut text = Vec::new(alloc);
    for item in items {
        push_item_line(&mut text, item)?;
    }
    Ok(text)
}

/// Copies the lines of a listing to a buffer if all of them fit, and returns their length in bytes.
///
/// # Errors
///
/// Returns the listing's error, or `NoMemory` if memory for the lines can't be allocated. On error,
/// the buffer doesn't change.
pub fn fill_with_lines(
    alloc: Global,
    answer: Result<Vec<ListItem>, Error>,
    buffer: &mut [u8],
) -> Result<usize, Error>
    ensures lines { FillsWithLines answer result buffer.old buffer.new }
    ensures small { IfOk result (λ n. n < 2 ^ 63) }
{
    let items = answer?;
    let text = lines_of_items(alloc, &items)?;
    Ok(copy_if_fitting(&text, buffer))
}
