// Listings and results of checks as JSON.

use lfs_device::Profile;
use lfs_tag::Superblock;
use lfs_tool::{
    AcceptedOrders, CheckResult, ImageSummary, OwnedStruct, TreeItem, profile_breach_text,
    refusal_reason_text,
};
use std::alloc::{AllocError, Global};
use std::io;
use std::io::Write;

// Appends bytes as a JSON string. A byte that isn't part of UTF-8 text is written as Python's
// surrogateescape encodes it.
fn push_string(text: &mut Vec<u8>, bytes: &[u8]) -> io::Result<()> {
    write!(text, "\"")?;
    for chunk in bytes.utf8_chunks() {
        for character in chunk.valid().chars() {
            match character {
                '"' | '\\' => write!(text, "\\{character}")?,
                '\0'..='\x1f' | '\x7f' => write!(text, "\\u{:04x}", u32::from(character))?,
                _ => write!(text, "{character}")?,
            }
        }
        for byte in chunk.invalid() {
            write!(text, "\\udc{byte:02x}")?;
        }
    }
    write!(text, "\"")
}

fn push_item(text: &mut Vec<u8>, item: &TreeItem) -> io::Result<()> {
    match &item.structure {
        OwnedStruct::Inline(bytes) => {
            write!(text, "{{\"type\": \"file\", \"size\": {}", bytes.len())?
        }
        OwnedStruct::Ctz { size, .. } => write!(text, "{{\"type\": \"file\", \"size\": {size}")?,
        OwnedStruct::Branch(_) => write!(text, "{{\"type\": \"directory\"")?,
    }
    write!(text, ", \"path\": ")?;
    push_string(text, &item.path)?;
    write!(text, "}}\n")
}

/// Returns a JSON object for each item, on a line of its own.
pub(crate) fn json_of_items(alloc: Global, items: &[TreeItem]) -> Result<Vec<u8>, AllocError> {
    let mut text = Vec::new(alloc);
    for item in items {
        if push_item(&mut text, item).is_err() {
            return Err(AllocError);
        }
    }
    Ok(text)
}

fn push_reason(text: &mut Vec<u8>, reason: &[u8]) -> io::Result<()> {
    write!(text, ", \"reason\": ")?;
    push_string(text, reason)
}

fn push_limit(text: &mut Vec<u8>, key: &str, default: u32, limit: u32) -> io::Result<()> {
    if limit != default {
        write!(text, ", \"{key}\": {limit}")?;
    }
    Ok(())
}

// Appends the version unless it is 2.0, and each limit that isn't the default.
fn push_superblock(text: &mut Vec<u8>, superblock: &Superblock) -> io::Result<()> {
    let version = superblock.version;
    if version != Superblock::VERSION {
        write!(
            text,
            ", \"version\": \"{}.{}\"",
            version / 65536,
            version % 65536
        )?;
    }
    let default = Profile::new();
    push_limit(text, "name_max", default.name_max, superblock.name_max)?;
    push_limit(text, "file_max", default.file_max, superblock.file_max)?;
    push_limit(text, "attr_max", default.attr_max, superblock.attr_max)
}

fn push_counts(text: &mut Vec<u8>, summary: &ImageSummary) -> io::Result<()> {
    let (files, directories) = (summary.files, summary.directories);
    write!(text, ", \"files\": {files}, \"directories\": {directories}")?;
    let (used, blocks) = (summary.used, summary.blocks);
    let free = blocks.saturating_sub(used);
    write!(
        text,
        ", \"used\": {used}, \"blocks\": {blocks}, \"free\": {free}"
    )
}

fn push_summary(
    alloc: Global,
    text: &mut Vec<u8>,
    summary: &ImageSummary,
    orders: AcceptedOrders,
) -> io::Result<()> {
    push_counts(text, summary)?;
    write!(text, ", \"order\": \"{orders}\"")?;
    if let Some(superblock) = &summary.superblock {
        push_superblock(text, superblock)?;
    }
    write!(text, ", \"recover\": {}", summary.recover)?;
    write!(text, ", \"writable\": {}", summary.breach.is_none())?;
    match summary.breach {
        Some(breach) => push_reason(
            text,
            profile_breach_text(alloc, summary.inline_max, breach)?.as_slice(),
        ),
        None => Ok(()),
    }
}

fn push_check(
    alloc: Global,
    text: &mut Vec<u8>,
    checked: &CheckResult,
    behind: Option<u64>,
) -> io::Result<()> {
    let is_ok = matches!(checked, CheckResult::Accepted { .. });
    write!(text, "{{\"ok\": {is_ok}")?;
    match checked {
        CheckResult::Accepted { summary, orders } => push_summary(alloc, text, summary, *orders)?,
        CheckResult::Refused { reason, given } => {
            push_reason(text, refusal_reason_text(alloc, given, reason)?.as_slice())?
        }
    }
    if let Some(count) = behind {
        write!(text, ", \"behind\": {count}")?;
    }
    write!(text, "}}\n")
}

/// Returns the result of a check as one JSON object. `behind` is the number of bytes after the
/// image, if it is known.
pub(crate) fn json_of_check(
    alloc: Global,
    checked: &CheckResult,
    behind: Option<u64>,
) -> Result<Vec<u8>, AllocError> {
    let mut text = Vec::new(alloc);
    match push_check(alloc, &mut text, checked, behind) {
        Ok(()) => Ok(text),
        Err(_) => Err(AllocError),
    }
}
