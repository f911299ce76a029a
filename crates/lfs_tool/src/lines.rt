// The lines of a listing.

ghost use Rattle.std.specs.Prelude.{◌≡◌, ◌++◌, IfOk, None, OnOk, Some};
ghost use Rattle.lfs_tool.specs.Listings.{path_struct_line, path_line, path_struct_lines};
ghost use Rattle.lfs_lookup.specs.TreeWalk.{tree_item_view, tree_items_view};

use lfs_lookup::{OwnedStruct, TreeItem, push_escaped_path};
use std::alloc::{AllocError, Global};
use std::io::Write;

fn push_file_line(text: &mut Vec<u8>, size: usize, path: &[u8]) -> Result<(), AllocError>
    ensures { OnOk result (text.new.items ≡ text.old.items ++ path_line (Some size) path.now) }
{
    if write!(text, "f {} ", size).is_err() {
        return Err(AllocError);
    }
    push_escaped_path(text, path)?;
    text.push(b'\n')?;
    Ok(())
}

fn push_directory_line(text: &mut Vec<u8>, path: &[u8]) -> Result<(), AllocError>
    ensures { OnOk result (text.new.items ≡ text.old.items ++ path_line None path.now) }
{
    text.extend_from_slice(b"d 0 ")?;
    push_escaped_path(text, path)?;
    text.push(b'\n')?;
    Ok(())
}

fn push_item_text(text: &mut Vec<u8>, found: &TreeItem) -> Result<(), AllocError>
    ensures { OnOk result (text.new.items ≡ text.old.items ++ path_struct_line (tree_item_view found.now)) }
{
    match &found.structure {
        OwnedStruct::Inline(bytes) => push_file_line(text, bytes.len(), &found.path),
        OwnedStruct::Ctz { size, .. } => push_file_line(text, *size as usize, &found.path),
        OwnedStruct::Branch(_) => push_directory_line(text, &found.path),
    }
}

pub(crate) fn tree_item_lines(alloc: Global, found: &[TreeItem]) -> Result<Vec<u8>, AllocError>
    ensures { IfOk result (λ text. text.items ≡ path_struct_lines (tree_items_view found.now)) }
{
    let mut text = Vec::new(alloc);
    for one in found {
        push_item_text(&mut text, one)?;
    }
    Ok(text)
}
